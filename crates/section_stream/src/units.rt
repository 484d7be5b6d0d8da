//! The units of packed triples.

ghost use Rattle.std.specs.Prelude.{◌≡◌, ℕ, ◌*◌, ◌++◌, ◌+◌, ◌<◌, ◌≤◌, ◌^◌, All, OnOk, IfOk, length};
ghost use Rattle.plan_types.specs.Clock.{tick_limit, turn_ns};
ghost use Rattle.plan_types.specs.Lines.{last_from};
ghost use Rattle.plan_types.specs.Packing.{windows_of};
ghost use Rattle.plan_types.specs.Plan.{AreSpaced};
ghost use Rattle.step_pack.specs.Placing.{PacksPlaced};
ghost use Rattle.step_ticks.specs.Streaming.{last_step_tick};
ghost use Rattle.section_stream.specs.Rows.{AreInRow};
ghost use Rattle.section_units.specs.Units.{set_in, sent, told_direction, units_on, up_after};

use crate::OutOfMemory;
use clock_line::Lines;
use msg_code::Unit;
use plan_types::Planned;
use std::collections::VecDeque;
use step_pack::Placed;

/// The direction of a step as it is sent.
pub fn sent(inverted: bool, up: bool) -> bool
    ensures { result ≡ sent inverted up }
{
    up != inverted
}

/// A direction, where it is told.
fn told(up: Option<bool>, now: bool) -> Option<bool>
    ensures { result ≡ told_direction up now }
{
    match up {
        Some(up) if up == now => None,
        _ => Some(now),
    }
}

/// The tick to which the clock is set, where it is.
fn set_in(up: Option<bool>, reset: Option<u64>) -> Option<u64>
    ensures { result ≡ set_in up reset }
{
    match up {
        Some(_) => None,
        None => reset,
    }
}

/// A stepper before steps of it are sent.
#[derive(Clone, Copy)]
pub struct Before {
    pub oid: u8,
    /// The tick to which its clock is set before its first unit, where it is.
    pub reset: Option<u64>,
    /// The direction of its last step, if one was sent.
    pub up: Option<bool>,
    /// The tick of its last step, or the section's first.
    pub last: u64,
}

/// Adds the units of triples that cover these steps. The result is the direction behind them.
pub fn add_units(
    units: &mut VecDeque<Unit>,
    lines: &Lines,
    before: Before,
    steps: &[Planned],
    placed: &[Placed],
) -> Result<Option<bool>, OutOfMemory>
    requires packed { (early : ℕ) × PacksPlaced before.last (windows_of early before.last steps.now) placed.now }
    requires small { All (λ s. s.tick < tick_limit) steps.now }
    requires spaced { AreSpaced before.last steps.now }
    requires from { lines.now.first.clock ≤ before.last }
    requires soon { last_from lines.now.first.at lines.now.held < 2 ^ 62 * turn_ns }
    ensures units { OnOk result
        (units.new.items ≡ units.old.items
        ++ units_on lines.now before.oid before.reset before.up steps.now placed.now) }
    ensures up { IfOk result (λ u. u ≡ up_after before.up steps.now placed.now) }
    ensures own { All (λ u. u.stepper ≡ before.oid) units.old.items →
        All (λ u. u.stepper ≡ before.oid) units.new.items }
    ensures early { (t : ℕ) → All (λ s. s.tick < t) steps.now → All (λ u. u.first < t) units.old.items →
        All (λ u. u.first < t) units.new.items }
    ensures row { AreInRow lines.now 0 before.last units.old.items →
        AreInRow lines.now 0 (last_step_tick before.last steps.now) units.new.items }
{
    let mut up = before.up;
    let mut next = 0;
    for one in placed {
        let now = steps[next].up;
        units.push_back(Unit {
            stepper: before.oid,
            first: one.first,
            last: one.last,
            due: lines.turn(one.first),
            triple: one.triple,
            up: told(up, now),
            reset: set_in(up, before.reset),
        })?;
        up = Some(now);
        next += usize::from(one.triple.count);
    }
    Ok(up)
}
