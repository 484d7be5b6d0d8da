//! The bounds of the interval, step by step.

ghost use Rattle.std.specs.Prelude.{◌≡◌, ℕ, ◌+◌, ◌-◌, ◌*◌, ◌/◌, ◌^◌, ◌<◌, ◌≤◌, length, IfOk, IfErr, IsTrue};
ghost use Rattle.plan_types.specs.Packing.{window_at};
ghost use Rattle.step_pack.specs.Bounds.{triangle, AreBounds, NoneMeets};

use super::{Bounds, Verdict};
use plan_types::Window;

/// How often the add counts in step `place`.
#[inline]
fn triangle(place: u64) -> u64
    requires { place < 65_535 }
    ensures value { result ≡ triangle place }
    ensures small { result < 2 ^ 31 }
{
    place * (place + 1) / 2
}

/// How many adds beside one cross the windows of two steps as well, when it crosses them by `gap`: each step of the add
/// changes that by the difference of the two steps' slopes.
#[inline]
fn also_ruled(gap: u128, before: u64, at: u64) -> u64
    requires some { 0 < gap }
    requires order { before ≤ at }
    requires place_small { at < 65_535 }
    ensures { result * ((before + 1) * (at + 1) * (at - before)) < 2 * gap }
{
    let slope = slope(before, at);
    if u128::from(2048 * slope) < gap {
        return 2047;
    }
    (2 * gap - 1) as u64 / slope
}

/// Twice the difference of the slopes of two steps' bounds.
#[inline]
fn slope(before: u64, at: u64) -> u64
    requires order { before ≤ at }
    requires place_small { at < 65_535 }
    ensures value { result ≡ (before + 1) * (at + 1) * (at - before) }
    ensures small { result < 2 ^ 48 }
{
    (before + 1) * (at + 1) * (at - before)
}

/// Bounds by the first tick at which a step may fall.
#[inline]
fn after_low(
    bounds: Bounds,
    behind: u64,
    windows: &[Window],
    place: usize,
    bend: u64,
) -> Result<Bounds, Verdict>
    requires place { place < length windows.now }
    requires place_small { place < 65_535 }
    requires bend_small { bend < 2048 }
    requires low { behind ≤ (window_at windows.now place).low }
    requires near { (window_at windows.now place).low < behind + 2 ^ 48 }
    requires bounds { AreBounds behind windows.now place place place bend bounds }
    ensures kept { IfOk result (λ b. AreBounds behind windows.now (place + 1) place place bend b) }
    ensures stopped { IfErr result (λ v. NoneMeets behind windows.now (place + 1) place place bend v) }
{
    let at = place as u64;
    let times = triangle(at);
    let turn = bend * times;
    let low = windows[place].low - behind + 1024 * times;
    if low <= (at + 1) * bounds.least + turn {
        return Ok(bounds);
    }
    let low_at = low - turn;
    let least = (low_at + at) / (at + 1);
    if least <= bounds.greatest {
        return Ok(Bounds {
            least,
            low_place: at,
            low_at,
            ..bounds
        });
    }
    let most = u128::from(bounds.high_at) * u128::from(at + 1);
    let wanted = u128::from(low_at) * u128::from(bounds.high_place + 1);
    if most < wanted {
        let more = also_ruled(wanted - most, bounds.high_place, at);
        Err(Verdict::TooSmall(more))
    } else {
        Err(Verdict::Own)
    }
}

/// Bounds by the last tick at which a step may fall.
#[inline]
fn before_high(
    bounds: Bounds,
    behind: u64,
    windows: &[Window],
    place: usize,
    bend: u64,
) -> Result<Bounds, Verdict>
    requires place { place < length windows.now }
    requires place_small { place < 65_535 }
    requires bend_small { bend < 2048 }
    requires high { behind ≤ (window_at windows.now place).high }
    requires bounds { AreBounds behind windows.now (place + 1) place place bend bounds }
    ensures kept { IfOk result (λ b. AreBounds behind windows.now (place + 1) (place + 1) place bend b) }
    ensures stopped { IfErr result (λ v. NoneMeets behind windows.now (place + 1) (place + 1) place bend v) }
{
    let at = place as u64;
    let times = triangle(at);
    let turn = bend * times;
    let room = windows[place].high - behind;
    if room >= 1 << 62 {
        return Ok(bounds);
    }
    let high = room + 1024 * times;
    if (at + 1) * bounds.greatest + turn <= high {
        return Ok(bounds);
    }
    if high < turn {
        return Err(Verdict::TooGreat(0));
    }
    let high_at = high - turn;
    let greatest = high_at / (at + 1);
    if bounds.least <= greatest {
        return Ok(Bounds {
            greatest,
            high_place: at,
            high_at,
            ..bounds
        });
    }
    let most = u128::from(high_at) * u128::from(bounds.low_place + 1);
    let wanted = u128::from(bounds.low_at) * u128::from(at + 1);
    if most < wanted {
        let less = also_ruled(wanted - most, bounds.low_place, at);
        Err(Verdict::TooGreat(less))
    } else {
        Err(Verdict::Own)
    }
}

/// Bounds by the distance from the step before.
#[inline]
fn near_before(
    bounds: Bounds,
    behind: u64,
    windows: &[Window],
    place: usize,
    bend: u64,
) -> Result<Bounds, Verdict>
    requires place { place < length windows.now }
    requires place_small { place < 65_535 }
    requires bend_small { bend < 2048 }
    requires bounds { AreBounds behind windows.now (place + 1) (place + 1) place bend bounds }
    ensures kept { IfOk result (λ b. AreBounds behind windows.now (place + 1) (place + 1) (place + 1) bend b) }
    ensures stopped { IfErr result (λ v. NoneMeets behind windows.now (place + 1) (place + 1) (place + 1) bend v) }
{
    let at = place as u64;
    let limit = 4_294_967_295 + 1024 * at;
    let turn = bend * at;
    if bounds.greatest + turn <= limit {
        return Ok(bounds);
    }
    if bounds.least + turn > limit {
        return Err(Verdict::Own);
    }
    Ok(Bounds {
        greatest: limit - turn,
        high_place: 0,
        high_at: 4_294_967_295,
        ..bounds
    })
}

/// Whether no triple has a tick in a step's window, whatever its interval and its add: how far the tick is
/// from `behind` is a multiple of the step's number, from 1 on, or of half of it where that is even.
#[inline]
pub fn is_missed(behind: u64, windows: &[Window], place: usize) -> bool
    requires place { place < length windows.now }
    requires place_small { place < 65_535 }
    requires low { behind ≤ (window_at windows.now place).low }
    requires high { behind ≤ (window_at windows.now place).high }
    ensures { IsTrue result → (bend : ℕ) →
        NoneMeets behind windows.now (place + 1) (place + 1) (place + 1) bend Verdict.Whole }
{
    let number = place as u64 + 1;
    let unit = if number % 2 == 0 { number / 2 } else { number };
    let most = (windows[place].high - behind) / unit * unit;
    most < windows[place].low - behind
}

/// Bounds by one more step.
#[inline]
pub fn narrowed(
    bounds: Bounds,
    behind: u64,
    windows: &[Window],
    place: usize,
    bend: u64,
) -> Result<Bounds, Verdict>
    requires place { place < length windows.now }
    requires place_small { place < 65_535 }
    requires bend_small { bend < 2048 }
    requires low { behind ≤ (window_at windows.now place).low }
    requires high { behind ≤ (window_at windows.now place).high }
    requires near { (window_at windows.now place).low < behind + 2 ^ 48 }
    requires bounds { AreBounds behind windows.now place place place bend bounds }
    ensures kept { IfOk result (λ b. AreBounds behind windows.now (place + 1) (place + 1) (place + 1) bend b) }
    ensures stopped { IfErr result (λ v. NoneMeets behind windows.now (place + 1) (place + 1) (place + 1) bend v) }
{
    let after = match after_low(bounds, behind, windows, place, bend) {
        Ok(after) => after,
        Err(verdict) => return Err(verdict),
    };
    let between = match before_high(after, behind, windows, place, bend) {
        Ok(between) => between,
        Err(verdict) => return Err(verdict),
    };
    near_before(between, behind, windows, place, bend)
}
