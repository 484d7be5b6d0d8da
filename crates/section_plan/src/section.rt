//! The plan of a section.

ghost use Rattle.std.specs.Prelude.{◌≡◌, ℕ, ◌+◌, ◌*◌, ◌<◌, ◌≤◌, ◌^◌, All, IfOk, length, max};
ghost use Rattle.plan_types.specs.Clock.{tick_limit};
ghost use Rattle.plan_types.specs.Clock.{turn_ns};
ghost use Rattle.plan_types.specs.Plan.{AreSpaced};
ghost use Rattle.plan_types.specs.Sections.{IsReady, base_tick, for_each_stepper, latest, section_end, stepper_end, section_plans, stepper_plan, turns_of_move};
ghost use Rattle.plan_types.specs.Speeds.{greatest_speeds};
ghost use Rattle.section_plan.specs.Runs.{HaveOneLine, IsPlannable, IsRun};

use crate::OutOfMemory;
use crate::run::end_of;
use crate::stepper::{TURN_NS, plan_stepper};
use clock_line::Lines;
use lookahead::speeds;
use plan_types::{Listed, Machine, Move, Planned};
use std::alloc::Global;

/// The plan of a section.
#[derive(Drop)]
pub struct SectionPlan {
    /// The planned steps of each stepper.
    pub steps: Listed<Listed<Planned>>,
    /// The turn of the last step, 0 for none.
    pub last: u64,
    /// The turn in which the section ends.
    pub end: u64,
}

/// The greatest squared speeds at the junctions of a section.
pub(crate) fn speeds_of(
    alloc: Global,
    machine: &Machine,
    clocks: &[Lines],
    moves: &[Move],
    turn: u64,
) -> Result<Vec<u128>, OutOfMemory>
    requires { IsPlannable machine.now clocks.now moves.now turn }
    ensures greatest { IfOk result (λ speeds. speeds.items ≡ greatest_speeds moves.now machine.now.scv) }
    ensures run { IfOk result (λ speeds. IsRun machine.now.cruise moves.now speeds.items (turn * turn_ns)) }
{
    speeds(alloc, moves, machine.scv)
}

/// The later of two turns.
fn later(one: u64, other: u64) -> u64
    ensures { result ≡ max one other }
{
    one.max(other)
}

/// The plan of some moves that start in a turn, those of a section that homes among them.
pub fn plan_moves(
    alloc: Global,
    machine: &Machine,
    clocks: &[Lines],
    moves: &[Move],
    turn: u64,
) -> Result<SectionPlan, OutOfMemory>
    requires { IsPlannable machine.now clocks.now moves.now turn }
    ensures steps { IfOk result (λ p. p.steps ≡ section_plans machine.now clocks.now moves.now turn) }
    ensures end { IfOk result (λ p. p.end ≡ section_end machine.now clocks.now moves.now turn) }
    ensures last { IfOk result
        (λ p. p.last ≡ latest (for_each_stepper machine.now (stepper_end machine.now clocks.now moves.now turn))) }
    ensures soon { HaveOneLine machine.now clocks.now →
        IfOk result (λ p. p.end ≤ turn + length moves.now * turns_of_move) }
    ensures spaced { IfOk result (λ p. (s : ℕ) → s < length machine.now.steppers →
        AreSpaced (base_tick machine.now clocks.now turn s) (stepper_plan machine.now clocks.now moves.now turn s)) }
    ensures small { IfOk result (λ p. (s : ℕ) → s < length machine.now.steppers →
        All (λ q. q.tick + 1 < tick_limit) (stepper_plan machine.now clocks.now moves.now turn s)) }
{
    let speeds = speeds_of(alloc, machine, clocks, moves, turn)?;
    let over = end_of(moves, &speeds, machine.cruise, u128::from(turn) * TURN_NS);
    let mut end = (over / TURN_NS) as u64;
    let mut last = 0;
    let mut steps = Vec::new(alloc);
    for place in 0..machine.steppers.len() {
        let plan = plan_stepper(alloc, machine, clocks, moves, &speeds, turn, place)?;
        end = end.max(plan.end);
        last = later(last, plan.end);
        steps.push(plan.steps)?;
    }
    Ok(SectionPlan {
        steps: Listed::of(steps),
        last,
        end,
    })
}
