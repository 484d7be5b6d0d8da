//! Actions cut into sections.

ghost use Rattle.std.specs.Prelude.{◌≡◌, ℕ, pos, ◌+◌, ◌≤◌, ◌<◌, ◌^◌, IfOk, OnOk, slice_index_or, unsigned_abs};
ghost use Rattle.plan_types.specs.Machines.{IsValidMachine};
ghost use Rattle.gcode_state.specs.Sound.{IsSound};
ghost use Rattle.gcode_state.specs.States.{IsValidAction, coordinates_of};
ghost use Rattle.gcode_program.specs.Homes.{IsRoom, stood};
ghost use Rattle.gcode_program.specs.Taken.{no_cut, closed_cut, homed_one, homed_cut, taken};

use crate::home::{homed_at, homing_move};
use gcode_state::{Action, State};
use plan_types::{Listed, Machine, Move, Section, SectionKind};
pub use std::alloc::AllocError as OutOfMemory;
use std::alloc::Global;
use std::mem;

/// The sections that are ended, the moves of the one that is open, and the dwells before it in milliseconds.
#[derive(Drop)]
pub(crate) struct Cut {
    pub sections: Listed<Section>,
    pub moves: Listed<Move>,
    pub dwell: u64,
}

/// Nothing yet.
pub(crate) fn new_cut(alloc: Global) -> Cut
    ensures { result ≡ no_cut }
{
    Cut {
        sections: Listed::new(alloc),
        moves: Listed::new(alloc),
        dwell: 0,
    }
}

/// Ends the open section, if it has a move.
pub(crate) fn close(alloc: Global, cut: &mut Cut) -> Result<(), OutOfMemory>
    ensures { OnOk result (cut.new ≡ closed_cut cut.old) }
{
    if cut.moves.is_empty() {
        return Ok(());
    }
    let moves = mem::replace(&mut cut.moves, Listed::new(alloc));
    let dwell = cut.dwell;
    cut.dwell = 0;
    cut.sections.push(Section {
        kind: SectionKind::Moves,
        moves,
        dwell,
    })
}

/// The section of a homed axis, if it is named. Answers where everything stands behind it.
fn home_one(
    alloc: Global,
    machine: &Machine,
    at: [i64; 4],
    acceleration: u64,
    cut: &mut Cut,
    axis: u8,
    named: bool,
) -> Result<[i64; 4], OutOfMemory>
    requires machine { IsValidMachine machine.now }
    requires axis { axis < 3 }
    requires room { IsRoom at acceleration }
    ensures homed { OnOk result (cut.new ≡ homed_one machine.now at acceleration cut.old axis named) }
    ensures stood { IfOk result (λ behind. behind ≡ stood machine.now at axis named) }
    ensures room { IfOk result (λ behind. IsRoom behind acceleration) }
{
    if !named {
        return Ok(at);
    }
    let mut moves = Listed::new(alloc);
    moves.push(homing_move(machine, &at, acceleration, axis))?;
    let dwell = cut.dwell;
    cut.dwell = 0;
    cut.sections.push(Section {
        kind: SectionKind::Home(axis),
        moves,
        dwell,
    })?;
    Ok(homed_at(machine, &at, axis))
}

/// Where everything stands.
pub(crate) fn standing(state: &State) -> [i64; 4]
    requires { IsSound state.now }
    ensures value { result ≡ coordinates_of state.now }
{
    [state.x.at, state.y.at, state.z.at, state.e_at]
}

fn home(
    alloc: Global,
    machine: &Machine,
    state: &State,
    cut: &mut Cut,
    axes: [bool; 3],
) -> Result<(), OutOfMemory>
    requires machine { IsValidMachine machine.now }
    requires sound { IsSound state.now }
    ensures { OnOk result
        (cut.new ≡ homed_cut machine.now (coordinates_of state.now) state.now.acceleration cut.old axes) }
{
    let speed_up = state.acceleration;
    let at = standing(state);
    let x = home_one(alloc, machine, at, speed_up, cut, 0, axes[0])?;
    let y = home_one(alloc, machine, x, speed_up, cut, 1, axes[1])?;
    home_one(alloc, machine, y, speed_up, cut, 2, axes[2])?;
    Ok(())
}

/// Takes the action of the next line, before which the lines left a state.
pub(crate) fn take(
    alloc: Global,
    machine: &Machine,
    cut: &mut Cut,
    state: &State,
    action: Action,
) -> Result<(), OutOfMemory>
    requires room { cut.old.dwell < 2 ^ 62 }
    requires valid { IsValidAction action }
    requires machine { IsValidMachine machine.now }
    requires sound { IsSound state.now }
    ensures taken { OnOk result (cut.new ≡ taken machine.now cut.old state.now action) }
    ensures dwell { OnOk result (cut.new.dwell ≤ cut.old.dwell + 3600000) }
{
    match action {
        Action::None => Ok(()),
        Action::Move(one) => cut.moves.push(one),
        Action::Wait | Action::Stop => close(alloc, cut),
        Action::Home(axes) => {
            close(alloc, cut)?;
            home(alloc, machine, state, cut, axes)
        }
        Action::Dwell(ms) => {
            close(alloc, cut)?;
            cut.dwell += ms;
            Ok(())
        }
    }
}
