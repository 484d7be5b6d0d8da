//! Actions as what they tell of sections.

ghost use Rattle.std.specs.Prelude.{◌≡◌, ◌++◌, [], ◌∷◌, ◌+◌, ◌<◌, ◌≤◌, ◌^◌, All, IfOk, OnOk};
ghost use Rattle.plan_types.specs.Machines.{IsValidMachine};
ghost use Rattle.gcode_state.specs.Sound.{IsSound};
ghost use Rattle.gcode_state.specs.States.{IsValidAction, coordinates_of};
ghost use Rattle.gcode_state.specs.declared.state.Action.TheVariants as actions;
ghost use Rattle.gcode_program.specs.declared.items.Item.TheVariants as told;
ghost use Rattle.gcode_program.specs.Cuts.{home_of, homes, dwell_behind_home, left_by_homes};
ghost use Rattle.gcode_program.specs.Homes.{IsRoom, stood};
ghost use Rattle.gcode_program.specs.Items.{IsGood, beginning, ending, items_by, items_of, opening_by};

use crate::cut::{OutOfMemory, standing};
use crate::home::{homed_at, homing_move};
use gcode_state::{Action, State};
use plan_types::{Machine, Move, SectionKind};
use std::collections::VecDeque;

/// What a text tells of its sections, one thing behind the other.
#[derive(Clone, Copy)]
pub enum Item {
    /// A section begins, behind so many milliseconds of dwells.
    Begin { kind: SectionKind, dwell: u64 },
    /// The next move of the section that began.
    Move(Move),
    /// The section ends.
    End,
}

/// Whether a section of moves goes on, and else the dwells before the next section, in milliseconds.
#[derive(Clone, Copy)]
pub struct Opening {
    pub goes: bool,
    pub dwell: u64,
}

/// Ends the section of moves that goes on, if one does.
pub(crate) fn end_section(opening: Opening, items: &mut VecDeque<Item>) -> Result<(), OutOfMemory>
    ensures items { OnOk result (items.new.items ≡ items.old.items ++ ending opening.goes) }
{
    if opening.goes {
        items.push_back(Item::End)?;
    }
    Ok(())
}

/// Adds a move, which begins a section where none goes on.
fn add_move(opening: Opening, one: Move, items: &mut VecDeque<Item>) -> Result<Opening, OutOfMemory>
    ensures items { OnOk result (items.new.items ≡ items.old.items ++ (beginning opening ++ told.Move one ∷ [])) }
    ensures opening { IfOk result (λ o. o ≡ opening_by opening (actions.Move one)) }
{
    if opening.goes {
        items.push_back(Item::Move(one))?;
        return Ok(opening);
    }
    items.push_back(Item::Begin {
        kind: SectionKind::Moves,
        dwell: opening.dwell,
    })?;
    items.push_back(Item::Move(one))?;
    Ok(Opening {
        goes: true,
        dwell: 0,
    })
}

/// The section of a homed axis, if it is named. Answers where everything stands behind it.
fn home_one(
    machine: &Machine,
    at: [i64; 4],
    acceleration: u64,
    dwell: u64,
    axis: u8,
    named: bool,
    items: &mut VecDeque<Item>,
) -> Result<[i64; 4], OutOfMemory>
    requires machine { IsValidMachine machine.now }
    requires axis { axis < 3 }
    requires room { IsRoom at acceleration }
    ensures items { OnOk result
        (items.new.items ≡ items.old.items ++ items_of (home_of machine.now at acceleration dwell axis named)) }
    ensures stood { IfOk result (λ behind. behind ≡ stood machine.now at axis named) }
    ensures room { IfOk result (λ behind. IsRoom behind acceleration) }
{
    if !named {
        return Ok(at);
    }
    items.push_back(Item::Begin {
        kind: SectionKind::Home(axis),
        dwell,
    })?;
    items.push_back(Item::Move(homing_move(machine, &at, acceleration, axis)))?;
    items.push_back(Item::End)?;
    Ok(homed_at(machine, &at, axis))
}

/// The dwells that are left behind a home, where it is named.
fn left_by(dwell: u64, named: bool) -> u64
    ensures { result ≡ dwell_behind_home dwell named }
{
    if named { 0 } else { dwell }
}

/// The sections of a home. Answers the dwells that are left.
fn home(
    machine: &Machine,
    state: &State,
    dwell: u64,
    axes: [bool; 3],
    items: &mut VecDeque<Item>,
) -> Result<u64, OutOfMemory>
    requires machine { IsValidMachine machine.now }
    requires sound { IsSound state.now }
    ensures items { OnOk result (items.new.items
        ≡ items.old.items
        ++ items_of (homes machine.now (coordinates_of state.now) state.now.acceleration dwell axes)) }
    ensures left { IfOk result (λ left. left ≡ left_by_homes dwell axes) }
{
    let speed_up = state.acceleration;
    let at = standing(state);
    let x = home_one(machine, at, speed_up, dwell, 0, axes[0], items)?;
    let one = left_by(dwell, axes[0]);
    let y = home_one(machine, x, speed_up, one, 1, axes[1], items)?;
    let two = left_by(one, axes[1]);
    home_one(machine, y, speed_up, two, 2, axes[2], items)?;
    Ok(left_by(two, axes[2]))
}

/// Adds what the action of the next line tells, before which the lines left a state.
#[tactic(auto, using(crate::proofs::Telling::items_good))]
pub(crate) fn add_action(
    machine: &Machine,
    opening: Opening,
    state: &State,
    action: Action,
    items: &mut VecDeque<Item>,
) -> Result<Opening, OutOfMemory>
    requires room { opening.dwell < 2 ^ 62 }
    requires valid { IsValidAction action }
    requires machine { IsValidMachine machine.now }
    requires sound { IsSound state.now }
    ensures items { OnOk result (items.new.items ≡ items.old.items ++ items_by machine.now opening state.now action) }
    ensures opening { IfOk result (λ o. o ≡ opening_by opening action) }
    ensures dwell { IfOk result (λ o. o.dwell ≤ opening.dwell + 3600000) }
    ensures good { All IsGood (items_by machine.now opening state.now action) }
{
    match action {
        Action::None => Ok(opening),
        Action::Move(one) => add_move(opening, one, items),
        Action::Wait | Action::Stop => {
            end_section(opening, items)?;
            Ok(Opening {
                goes: false,
                dwell: opening.dwell,
            })
        }
        Action::Home(axes) => {
            end_section(opening, items)?;
            let dwell = home(machine, state, opening.dwell, axes, items)?;
            Ok(Opening { goes: false, dwell })
        }
        Action::Dwell(ms) => {
            end_section(opening, items)?;
            Ok(Opening {
                goes: false,
                dwell: opening.dwell + ms,
            })
        }
    }
}
