//! The planned steps of one stepper.

ghost use Rattle.std.specs.Prelude.{◌≡◌, ℕ, ◌+◌, ◌*◌, ◌<◌, ◌≤◌, ◌^◌, map, IfOk, All, length, slice_index_or};
ghost use Rattle.plan_types.specs.Clock.{tick_limit};
ghost use Rattle.plan_types.specs.Clock.{turn_ns};
ghost use Rattle.plan_types.specs.Lines.{lines_tick, lines_turn};
ghost use Rattle.plan_types.specs.Machines.{stepper_at};
ghost use Rattle.plan_types.specs.Plan.{planned_steps, AreSpaced};
ghost use Rattle.plan_types.specs.Sections.{base_tick, last_turn, segment_of, stepper_end, stepper_plan, timed_moves, turns_of_move};
ghost use Rattle.plan_types.specs.Speeds.{greatest_speeds};
ghost use Rattle.plan_types.specs.Valid.{IsValidGear};
ghost use Rattle.section_plan.specs.Runs.{HaveOneLine, IsRun, IsPlannable, IsReadyBoard, IsOnTime};

use crate::OutOfMemory;
use crate::drive::Drive;
use crate::run::segments_of;
use clock_line::Lines;
use plan_types::{Listed, Machine, Move, Planned, StepperDef};
use std::alloc::Global;
use step_ticks::planned;

/// The nanoseconds of a turn.
pub const TURN_NS: u128 = 1_000_000;

/// The planned steps of a stepper for moves that begin with a turn.
fn steps_of(
    alloc: Global,
    machine: &Machine,
    stepper: &StepperDef,
    lines: &Lines,
    moves: &[Move],
    speeds: &[u128],
    turn: u64,
) -> Result<Vec<Planned>, OutOfMemory>
    requires drive { stepper.now.drive < 4 }
    requires gear { IsValidGear stepper.now.gear }
    requires run { IsRun machine.now.cruise moves.now speeds.now (turn * turn_ns) }
    requires some { 0 < length moves.now }
    requires board { IsReadyBoard lines.now turn (length moves.now) }
    ensures value { IfOk result (λ steps. steps.items
        ≡ planned_steps stepper.now.gear lines.now (map
        (segment_of machine.now.corexy stepper.now.drive lines.now.first)
        (timed_moves machine.now.cruise moves.now speeds.now (turn * turn_ns)))
        (lines_tick lines.now (turn * turn_ns))) }
    ensures spaced { IfOk result (λ steps. AreSpaced (lines_tick lines.now (turn * turn_ns)) steps.items) }
    ensures on_time { IfOk result
        (λ steps. All (IsOnTime lines.now (turn + length moves.now * turns_of_move)) steps.items) }
{
    let drive = Drive {
        corexy: machine.corexy,
        number: stepper.drive,
        line: lines.first(),
    };
    let begin = u128::from(turn) * TURN_NS;
    let segments = segments_of(alloc, &drive, moves, speeds, machine.cruise, begin)?;
    planned(alloc, &stepper.gear, lines, &segments, lines.tick(begin))
}

/// The turn of the last of some steps, 0 for none.
fn last_turn(lines: &Lines, steps: &[Planned]) -> u64
    requires from { All (λ q. lines.now.first.clock ≤ q.tick) steps.now }
    requires small { All (λ q. lines_turn lines.now q.tick < 2 ^ 64) steps.now }
    ensures { result ≡ last_turn lines.now steps.now }
{
    match steps.last() {
        Some(step) => lines.turn(step.tick),
        None => 0,
    }
}

/// The plan of a stepper.
#[derive(Drop)]
pub struct StepperPlan {
    pub steps: Listed<Planned>,
    /// The turn of the last step, 0 for none.
    pub end: u64,
}

/// The plan of a stepper for moves that begin with a turn.
pub fn plan_stepper(
    alloc: Global,
    machine: &Machine,
    clocks: &[Lines],
    moves: &[Move],
    speeds: &[u128],
    turn: u64,
    place: usize,
) -> Result<StepperPlan, OutOfMemory>
    requires ready { IsPlannable machine.now clocks.now moves.now turn }
    requires run { IsRun machine.now.cruise moves.now speeds.now (turn * turn_ns) }
    requires greatest { speeds.now ≡ greatest_speeds moves.now machine.now.scv }
    requires there { place < length machine.now.steppers }
    ensures steps { IfOk result (λ p. p.steps ≡ stepper_plan machine.now clocks.now moves.now turn place) }
    ensures end { IfOk result (λ p. p.end ≡ stepper_end machine.now clocks.now moves.now turn place) }
    ensures soon { HaveOneLine machine.now clocks.now →
        IfOk result (λ p. p.end ≤ turn + length moves.now * turns_of_move) }
    ensures spaced { IfOk result (λ p. AreSpaced (base_tick machine.now clocks.now turn place)
        (stepper_plan machine.now clocks.now moves.now turn place)) }
    ensures small { IfOk result
        (λ p. All (λ q. q.tick + 1 < tick_limit) (stepper_plan machine.now clocks.now moves.now turn place)) }
{
    let stepper = &machine.steppers.as_slice()[place];
    let lines = &clocks[stepper.board as usize];
    let steps = steps_of(alloc, machine, stepper, lines, moves, speeds, turn)?;
    let end = last_turn(lines, &steps);
    Ok(StepperPlan {
        steps: Listed::of(steps),
        end,
    })
}
