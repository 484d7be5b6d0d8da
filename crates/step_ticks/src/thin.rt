//! From raw steps to planned ones: pairs that cancel are dropped, and the rest is spaced.

ghost use Rattle.std.specs.Prelude.{◌≡◌, ℕ, ◌+◌, ◌-◌, ◌*◌, ◌^◌, ◌<◌, ◌≤◌, All, IfOk, length, map, max};
ghost use Rattle.plan_types.specs.Clock.{tick_limit};
ghost use Rattle.plan_types.specs.Plan.{cancel, cancel_reach, filtered, on_board, spaced, AreSpaced};
ghost use Rattle.plan_types.specs.Lines.{lines_board};
ghost use Rattle.step_ticks.specs.Ticks.{IsOnBoard};

use crate::OutOfMemory;
use clock_line::Lines;
use plan_types::Planned;
use std::alloc::Global;

/// Whether two steps have opposite directions and stand at most `reach` ticks apart.
pub fn cancels(reach: u64, one: &Planned, two: &Planned) -> bool
    ensures { result ≡ cancel reach one.now two.now }
{
    one.up != two.up && one.tick.abs_diff(two.tick) <= reach
}

/// The steps without the pairs that cancel, found from the front.
pub fn filtered(alloc: Global, reach: u64, raw: &[Planned]) -> Result<Vec<Planned>, OutOfMemory>
    ensures { IfOk result (λ kept. kept.items ≡ filtered reach raw.now) }
{
    let mut kept = Vec::new(alloc);
    let mut next = 0;
    while next < raw.len() {
        if next + 1 < raw.len() && cancels(reach, &raw[next], &raw[next + 1]) {
            next += 2;
        } else {
            kept.push(raw[next])?;
            next += 1;
        }
    }
    Ok(kept)
}

/// How near two opposite steps cancel, in ticks.
pub fn cancel_reach(freq: u32) -> u64
    ensures { result ≡ cancel_reach freq }
{
    u64::from(freq) * 750 / 1_000_000
}

/// The tick of a step on the board, or 4 ticks after the step before it where that is later.
pub fn next_tick(lines: &Lines, step: &Planned, last: u64) -> u64
    requires after { lines.now.first.clock ≤ step.now.tick }
    requires on_board { lines_board lines.now step.now.tick < tick_limit }
    requires last_small { last < 2 ^ 64 - 4 }
    ensures value { result ≡ max (lines_board lines.now step.now.tick) (last + 4) }
{
    lines.board(step.tick).max(last + 4)
}

/// Each step at the board's tick, or 4 ticks after the step before it where that is later.
pub fn spaced(
    alloc: Global,
    base: u64,
    lines: &Lines,
    kept: &[Planned],
) -> Result<Vec<Planned>, OutOfMemory>
    requires base_small { base < tick_limit }
    requires ticks { All (IsOnBoard lines.now) kept.now }
    requires count_small { length kept.now < 2 ^ 60 }
    ensures value { IfOk result (λ steps. steps.items ≡ spaced base (map (on_board lines.now) kept.now)) }
    ensures rising { IfOk result (λ steps. AreSpaced base steps.items) }
    ensures small { IfOk result (λ steps. All (λ s. s.tick < tick_limit + 4 * length steps.items) steps.items) }
{
    let mut steps = Vec::new(alloc);
    let mut last = base;
    for step in kept {
        last = next_tick(lines, step, last);
        steps.push(Planned {
            tick: last,
            up: step.up,
        })?;
    }
    Ok(steps)
}
