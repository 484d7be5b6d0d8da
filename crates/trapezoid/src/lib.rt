//! The three parts of a move: up to its greatest speed, along at it, and down.
//!
//! Klipper's Code_Overview.md and Kinematics.md call this the trapezoid generator.
#![tactic(auto)]

ghost use Rattle.std.specs.Prelude.{◌≡◌, ℕ, ◌+◌, ◌-◌, ◌*◌, ◌/◌, ◌^◌, ◌<◌, ◌≤◌, min, All, sum_by, slice_get, IfSome};
ghost use Rattle.plan_types.specs.Numbers.{square_root, gap};
ghost use Rattle.plan_types.specs.Speeds.{speed_change};
ghost use Rattle.plan_types.specs.Parts.{changing, part, parts, top_speed};
ghost use Rattle.plan_types.specs.Valid.{IsValidMove};
ghost use Rattle.trapezoid.specs.Timing.{IsTimed};

use num_core::isqrt;
use plan_types::{Move, Part};

/// The accelerating, the cruising and the decelerating part of a move between two squared speeds, in nm²/s².
///
/// At least `cruise` millionths of the move's distance are cruised, but for one nanometre. A part that is not there has
/// distance 0.
pub fn segments(one: &Move, start: u128, end: u128, cruise: u32) -> [Part; 3]
    requires valid { IsValidMove one.now }
    requires start_below { start ≤ one.now.v * one.now.v }
    requires end_below { end ≤ one.now.v * one.now.v }
    requires apart { gap start end ≤ speed_change one.now }
    requires share { cruise < 1_000_000 }
    ensures value { result ≡ parts one.now start end cruise }
    ensures whole { sum_by (λ p. p.d) result ≡ one.now.d }
    ensures timed { All IsTimed result }
{
    let distance = length_of(one);
    let top = top_speed(one, start, end, cruise);
    let rising = distance_to(one, start, top);
    let falling = distance_to(one, end, top);
    let along = distance - rising - falling;
    [
        part_of(rising, start, top),
        part_of(along, top, top),
        part_of(falling, top, end),
    ]
}

/// The length of a move, in nm.
fn length_of(one: &Move) -> u64
    requires { IsValidMove one.now }
    ensures value { result ≡ one.now.d }
    ensures small { result < 2_600_000_000 }
{
    one.d
}

/// How much of a move's distance it may use to gain and lose speed, in nm.
fn changing(one: &Move, cruise: u32) -> u64
    requires valid { IsValidMove one.now }
    requires share { cruise < 1_000_000 }
    ensures value { result ≡ changing one.now cruise }
    ensures within { result ≤ one.now.d }
    ensures some { 0 < result }
{
    let distance = length_of(one);
    distance
        .saturating_sub((u64::from(cruise) * distance).div_ceil(1_000_000))
        .max(1)
}

/// The change of the squared speed along a distance.
fn change_along(one: &Move, distance: u64) -> u128
    requires valid { IsValidMove one.now }
    requires within { distance ≤ one.now.d }
    requires some { 0 < distance }
    ensures value { result ≡ 2 * one.now.a * distance }
    ensures small { result ≤ speed_change one.now }
    ensures fits { result < 2 ^ 110 }
    ensures above { 2 ≤ result }
{
    2 * u128::from(one.a) * u128::from(distance)
}

/// The squared speed that a move reaches between two squared end speeds.
fn top_speed(one: &Move, start: u128, end: u128, cruise: u32) -> u128
    requires valid { IsValidMove one.now }
    requires start_below { start ≤ one.now.v * one.now.v }
    requires end_below { end ≤ one.now.v * one.now.v }
    requires apart { gap start end ≤ speed_change one.now }
    requires share { cruise < 1_000_000 }
    ensures value { result ≡ top_speed one.now start end cruise }
    ensures above_start { start ≤ result }
    ensures above_end { end ≤ result }
    ensures some { 0 < result }
    ensures small { result ≤ 1_000_000_000_000_000_000 }
    ensures room { (result - start) + (result - end) ≤ speed_change one.now }
{
    let speed = u128::from(one.v);
    let change = change_along(one, changing(one, cruise));
    (speed * speed).min(start.max(end).max((start + end + change) / 2))
}

/// The distance in which a move reaches one squared speed from another, in nm.
fn distance_to(one: &Move, low: u128, high: u128) -> u64
    requires valid { IsValidMove one.now }
    requires order { low ≤ high }
    requires room { high - low ≤ speed_change one.now }
    ensures value { result ≡ (high - low) / (2 * one.now.a) }
    ensures within { result ≤ one.now.d }
{
    ((high - low) / (2 * u128::from(one.a))) as u64
}

/// A part of distance `d` between two squared speeds.
fn part_of(d: u64, low: u128, high: u128) -> Part
    requires distance { d < 2_600_000_000 }
    requires some { 0 < low + high }
    requires low_small { low ≤ 1_000_000_000_000_000_000 }
    requires high_small { high ≤ 1_000_000_000_000_000_000 }
    ensures value { result ≡ part d low high }
    ensures timed { IsTimed result }
{
    let v0 = root(low);
    let v1 = root(high);
    Part {
        d,
        v0,
        v1,
        ns: time_of(d, v0 + v1),
    }
}

/// The time of a distance, in ns, where the speeds at its ends have this sum.
fn time_of(d: u64, both: u64) -> u64
    requires distance { d < 2_600_000_000 }
    requires above { 0 < both }
    requires small { both ≤ 2_000_000_000 }
    ensures value { result ≡ 2 * d * 1_000_000_000 / both }
    ensures in_time { result * both ≤ 2 * d * 1_000_000_000 }
    ensures some { d ≤ result }
    ensures short { result ≤ 2 * d * 1_000_000_000 }
{
    2 * d * 1_000_000_000 / both
}

/// The square root, rounded down.
fn root(n: u128) -> u64
    requires { n ≤ 1_000_000_000_000_000_000 }
    ensures value { result ≡ square_root n }
    ensures small { result ≤ 1_000_000_000 }
    ensures some { 0 < n → 0 < result }
{
    isqrt(n)
}
