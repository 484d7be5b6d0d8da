//! The greatest squared speeds at the junctions of a section, in nm²/s².
//!
//! Klipper's Kinematics.md calls this look-ahead; the cap of a junction is its approximated centripetal velocity.
#![tactic(auto)]

ghost use Rattle.std.specs.Prelude.{◌≡◌, ℕ, ◌+◌, ◌*◌, ◌^◌, ◌<◌, ◌≤◌, List, All, IfOk, length, map};
ghost use Rattle.plan_types.specs.Speeds.{caps, speed_change, greatest_speeds, AreGreatest};
ghost use Rattle.plan_types.specs.Valid.{IsValidMove};
ghost use Rattle.lookahead.specs.Passes.{IsLowered, IsRising, IsFalling, IsSettled};

mod cap;
mod lows;
mod stream;

pub use cap::junction_cap;
use plan_types::Move;
pub use std::alloc::AllocError as OutOfMemory;
use std::alloc::Global;
pub use stream::LookStream;

/// The greatest squared speeds at the junctions of a section, one more than moves.
pub fn speeds(alloc: Global, moves: &[Move], scv: u64) -> Result<Vec<u128>, OutOfMemory>
    requires valid { All IsValidMove moves.now }
    requires speed { scv ≤ 100_000_000 }
    ensures least { IfOk result (λ speeds. speeds.items ≡ greatest_speeds moves.now scv) }
    ensures greatest { IfOk result
        (λ speeds. AreGreatest (caps moves.now scv) (map speed_change moves.now) speeds.items) }
{
    let mut speeds = junction_caps(alloc, moves, scv)?;
    settle(&mut speeds, moves);
    Ok(speeds)
}

/// Lowers the caps to the speeds that the moves between them can join.
fn settle(speeds: &mut [u128], moves: &[Move])
    requires valid { All IsValidMove moves.now }
    requires count { length speeds.old ≡ length moves.now + 1 }
    requires small { All (λ s. s ≤ 1_000_000_000_000_000_000) speeds.old }
    ensures { IsSettled speeds.old (map speed_change moves.now) speeds.new }
{
    rise(speeds, moves);
    fall(speeds, moves);
}

/// The cap of each junction.
fn junction_caps(alloc: Global, moves: &[Move], scv: u64) -> Result<Vec<u128>, OutOfMemory>
    requires valid { All IsValidMove moves.now }
    requires speed { scv ≤ 100_000_000 }
    ensures value { IfOk result (λ made. made.items ≡ caps moves.now scv) }
    ensures count { IfOk result (λ made. length made.items ≡ length moves.now + 1) }
    ensures small { IfOk result (λ made. All (λ s. s ≤ 1_000_000_000_000_000_000) made.items) }
{
    let mut made = Vec::new(alloc);
    made.push(0)?;
    for i in 1..moves.len() {
        made.push(junction_cap(&moves[i - 1], &moves[i], scv))?;
    }
    if !moves.is_empty() {
        made.push(0)?;
    }
    Ok(made)
}

/// By how much the squared speed can change along a move.
fn change(one: &Move) -> u128
    requires { IsValidMove one.now }
    ensures value { result ≡ speed_change one.now }
    ensures small { result < 2 ^ 105 }
{
    2 * u128::from(one.a) * u128::from(one.d)
}

/// Lowers each speed to what the one before it allows.
fn rise(speeds: &mut [u128], moves: &[Move])
    requires valid { All IsValidMove moves.now }
    requires count { length speeds.old ≡ length moves.now + 1 }
    requires small { All (λ s. s ≤ 1_000_000_000_000_000_000) speeds.old }
    ensures lowered { IsLowered (map speed_change moves.now) speeds.old speeds.new }
    ensures rising { IsRising (map speed_change moves.now) speeds.new (length moves.now) }
{
    for i in 0..moves.len() {
        let reach = speeds[i] + change(&moves[i]);
        if reach < speeds[i + 1] {
            speeds[i + 1] = reach;
        }
    }
}

/// Lowers each speed to what the one after it allows.
fn fall(speeds: &mut [u128], moves: &[Move])
    requires valid { All IsValidMove moves.now }
    requires count { length speeds.old ≡ length moves.now + 1 }
    requires small { All (λ s. s ≤ 1_000_000_000_000_000_000) speeds.old }
    requires rising { IsRising (map speed_change moves.now) speeds.old (length moves.now) }
    ensures lowered { IsLowered (map speed_change moves.now) speeds.old speeds.new }
    ensures rising { IsRising (map speed_change moves.now) speeds.new (length moves.now) }
    ensures falling { IsFalling (map speed_change moves.now) speeds.new 0 }
{
    for i in (0..moves.len()).rev() {
        let reach = speeds[i + 1] + change(&moves[i]);
        if reach < speeds[i] {
            speeds[i] = reach;
        }
    }
}
