//! The longest triple behind a tick.

ghost use Rattle.std.specs.Prelude.{◌≡◌, ℕ, ◌+◌, ◌-◌, ◌*◌, ◌/◌, ◌^◌, ◌<◌, ◌≤◌, length, IfOk, IfErr};
ghost use Rattle.plan_types.specs.Packing.{window_at};
ghost use Rattle.step_pack.specs.Bounds.{triangle, AreBounds, NoneMeets, IsReach, IsMost, IsMostWithin, AreAfter};

use super::narrow::{is_missed, narrowed};
use super::{Bounds, Reach, Verdict};
use plan_types::Window;

/// No triple whose first tick is near reaches a window that is as far as this.
const FAR: u64 = 1 << 48;

/// All intervals.
#[inline]
fn all_intervals(behind: u64, windows: &[Window], bend: u64) -> Bounds
    ensures { AreBounds behind windows.now 0 0 0 bend result }
{
    Bounds {
        least: 1,
        greatest: 4_294_967_295,
        low_place: 0,
        low_at: 1,
        high_place: 0,
        high_at: 4_294_967_295,
    }
}

/// What stops all triples at a step where one add is stopped there: with any add, where none can have a tick
/// in the step's window. So it is with most pieces' last steps, whose windows are one tick.
#[inline]
fn settled(verdict: Verdict, behind: u64, windows: &[Window], place: usize, bend: u64) -> Verdict
    requires place { place < length windows.now }
    requires place_small { place < 65_535 }
    requires low { behind ≤ (window_at windows.now place).low }
    requires high { behind ≤ (window_at windows.now place).high }
    requires stopped { NoneMeets behind windows.now (place + 1) (place + 1) (place + 1) bend verdict }
    ensures { NoneMeets behind windows.now (place + 1) (place + 1) (place + 1) bend result }
{
    if verdict == Verdict::Own && is_missed(behind, windows, place) {
        Verdict::Whole
    } else {
        verdict
    }
}

/// The longest triple with this add, and with which others none is longer.
pub fn reach(behind: u64, windows: &[Window], bend: u64) -> (Reach, Verdict)
    requires some { 0 < length windows.now }
    requires bend_small { bend < 2048 }
    requires after { AreAfter behind windows.now }
    ensures bend { result.0.bend ≡ bend }
    ensures covers { IsReach behind windows.now bend result.0.interval result.0.count }
    ensures most { IsMost behind windows.now bend result.1 result.0.count }
{
    let mut bounds = all_intervals(behind, windows, bend);
    let end = windows.len().min(65_535);
    for place in 0..end {
        let count = place as u64;
        let interval = bounds.greatest;
        let so_far = Reach {
            count,
            interval,
            bend,
        };
        if windows[place].up != windows[0].up {
            return (so_far, Verdict::Whole);
        }
        if windows[place].low - behind >= FAR {
            return (so_far, Verdict::Whole);
        }
        match narrowed(bounds, behind, windows, place, bend) {
            Ok(next) => bounds = next,
            Err(verdict) => return (so_far, settled(verdict, behind, windows, place, bend)),
        }
    }
    let whole = Reach {
        count: end as u64,
        interval: bounds.greatest,
        bend,
    };
    (whole, Verdict::Whole)
}

/// The longer of two triples.
#[inline]
fn longer(behind: u64, windows: &[Window], one: Reach, two: Reach) -> Reach
    requires one_bend { one.bend < 2048 }
    requires one_covers { IsReach behind windows.now one.bend one.interval one.count }
    requires two_bend { two.bend < 2048 }
    requires two_covers { IsReach behind windows.now two.bend two.interval two.count }
    ensures bend_small { result.bend < 2048 }
    ensures covers { IsReach behind windows.now result.bend result.interval result.count }
    ensures one { one.count ≤ result.count }
    ensures two { two.count ≤ result.count }
{
    if one.count < two.count { two } else { one }
}

/// The longest of a triple and of those with a bend from `low` on and below `high`; `probe` is tried first.
/// Beside a bend that rules no other the next one is tried, or the one in the middle once this was done `spare` times.
pub fn longest(
    behind: u64,
    windows: &[Window],
    low: u64,
    high: u64,
    probe: u64,
    spare: u64,
    best: Reach,
) -> Reach
    requires some { 0 < length windows.now }
    requires high_small { high ≤ 2048 }
    requires after { AreAfter behind windows.now }
    requires bend_small { best.bend < 2048 }
    requires covers { IsReach behind windows.now best.bend best.interval best.count }
    ensures bend_small { result.bend < 2048 }
    ensures covers { IsReach behind windows.now result.bend result.interval result.count }
    ensures grows { best.count ≤ result.count }
    ensures most { IsMostWithin behind windows.now low high result.count }
{
    if low >= high {
        return best;
    }
    let bend = if low <= probe && probe < high {
        probe
    } else {
        low
    };
    let (found, verdict) = reach(behind, windows, bend);
    let better = longer(behind, windows, best, found);
    match verdict {
        Verdict::Whole => better,
        Verdict::TooGreat(less) => {
            let end = bend.saturating_sub(less);
            longest(behind, windows, low, end, middle(low, end), spare, better)
        }
        Verdict::TooSmall(more) => {
            let start = bend + more.min(2047) + 1;
            longest(
                behind,
                windows,
                start,
                high,
                middle(start, high),
                spare,
                better,
            )
        }
        Verdict::Own => {
            let next = bend + 1;
            let fewer = spare.saturating_sub(1);
            let under = beside(bend.saturating_sub(1), low, bend, spare);
            let over = beside(next, next, high, spare);
            let lower = longest(behind, windows, low, bend, under, fewer, better);
            longest(behind, windows, next, high, over, fewer, lower)
        }
    }
}

/// A number between two.
#[inline]
fn middle(low: u64, high: u64) -> u64 {
    low + high.saturating_sub(low) / 2
}

/// The next number, or the one in the middle where none is to spare.
#[inline]
fn beside(next: u64, low: u64, high: u64, spare: u64) -> u64 {
    if spare > 0 { next } else { middle(low, high) }
}
