//! A pulse, judged by the planned step of its place.

ghost use Rattle.std.specs.Prelude.{◌≡◌, ◌<◌, ◌≤◌, ◌^◌, length, slice_index_or};
ghost use Rattle.log_check.specs.Pulses as specs;
ghost use Rattle.plan_types.specs.Plan.{window};

use crate::tally::Tally;
use plan_types::{MisfitKind, Planned};

/// The first tick at which a pulse may fall that is made for a step behind another one.
fn window(freq: u32, before: u64, tick: u64) -> u64
    ensures { result ≡ window freq before tick }
{
    let error = u64::from(freq) * 25 / 1_000_000;
    tick - error.min(tick.saturating_sub(before) / 2)
}

/// Why a pulse isn't made for a planned step.
fn step_fault(freq: u32, before: u64, step: &Planned, tick: u64, up: bool) -> Option<MisfitKind>
    ensures { result ≡ specs.step_fault freq before step.now tick up }
{
    if step.up != up {
        Some(MisfitKind::Direction)
    } else if tick < window(freq, before, step.tick) {
        Some(MisfitKind::Early)
    } else if step.tick < tick {
        Some(MisfitKind::Late)
    } else {
        None
    }
}

/// The tick of the planned step before that of a place.
fn tick_before(base: u64, plan: &[Planned], i: usize) -> u64
    requires { i ≤ length plan.now }
    ensures { result ≡ specs.tick_before base plan.now i }
{
    if i == 0 { base } else { plan[i - 1].tick }
}

/// Why a pulse behind so many others isn't made for the planned step of its place.
pub fn pulse_fault(
    freq: u32,
    base: u64,
    plan: &[Planned],
    i: usize,
    tick: u64,
    up: bool,
) -> Option<MisfitKind>
    ensures { result ≡ specs.pulse_fault freq base plan.now i tick up }
{
    if i < plan.len() {
        step_fault(freq, tick_before(base, plan, i), &plan[i], tick, up)
    } else {
        Some(MisfitKind::Extra)
    }
}

/// By how many ticks a pulse is before the planned tick of its place.
fn ahead(plan: &[Planned], i: usize, tick: u64) -> u64
    ensures { result ≡ specs.ahead plan.now i tick }
{
    if i < plan.len() {
        plan[i].tick.saturating_sub(tick)
    } else {
        0
    }
}

/// By how many ticks a pulse is behind it.
fn behind(plan: &[Planned], i: usize, tick: u64) -> u64
    ensures { result ≡ specs.ticks_late plan.now i tick }
{
    if i < plan.len() {
        tick.saturating_sub(plan[i].tick)
    } else {
        0
    }
}

/// One pulse more.
pub fn with_pulse(plan: &[Planned], tally: Tally, tick: u64) -> Tally
    requires { tally.made ≤ length plan.now }
    ensures { result ≡ specs.with_pulse plan.now tally tick }
{
    Tally {
        made: tally.made + 1,
        early: tally.early.max(ahead(plan, tally.made, tick)),
        late: tally.late.max(behind(plan, tally.made, tick)),
    }
}
