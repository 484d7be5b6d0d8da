//! The bytes of a unit's commands.

ghost use Rattle.std.specs.Prelude.{◌≡◌, ◌≤◌, ℕ};
ghost use Rattle.vlq_code.specs.Spelling.{byte_count};
ghost use Rattle.step_feed.specs.Units.{dir_bytes, queue_bytes, reset_bytes, unit_bytes};

use msg_code::Unit;
use vlq_code::spelled_length;

/// The bytes of a number.
#[tactic(auto, using(crate::proofs::Counts::count_bounds))]
fn number_bytes(n: u32) -> u64
    ensures value { result ≡ byte_count n }
    ensures least { 1 ≤ result }
    ensures most { result ≤ 5 }
{
    spelled_length(n) as u64
}

/// The bytes of `queue_step`.
#[tactic(auto, unfolding(crate::specs::Units::queue_bytes))]
fn queue_bytes(unit: &Unit) -> u64
    ensures value { result ≡ queue_bytes unit.now }
    ensures least { 5 ≤ result }
    ensures most { result ≤ 21 }
{
    1 + number_bytes(u32::from(unit.stepper))
        + number_bytes(unit.triple.interval)
        + number_bytes(u32::from(unit.triple.count))
        + number_bytes(i32::from(unit.triple.add).cast_unsigned())
}

/// The bytes of `set_next_step_dir`.
fn dir_bytes(stepper: u8, up: Option<bool>) -> u64
    ensures value { result ≡ dir_bytes stepper up }
    ensures most { result ≤ 7 }
{
    match up {
        Some(_) => 2 + number_bytes(u32::from(stepper)),
        None => 0,
    }
}

/// The bytes of `reset_step_clock`.
fn reset_bytes(stepper: u8, reset: Option<u64>) -> u64
    ensures value { result ≡ reset_bytes stepper reset }
    ensures most { result ≤ 11 }
{
    match reset {
        Some(clock) => {
            1 + number_bytes(u32::from(stepper)) + number_bytes((clock % (1 << 32)) as u32)
        }
        None => 0,
    }
}

/// How many bytes the commands of a unit have on the wire.
#[tactic(auto, unfolding(crate::specs::Units::unit_bytes))]
pub fn unit_bytes(unit: &Unit) -> u64
    ensures value { result ≡ unit_bytes unit.now }
    ensures least { 5 ≤ result }
    ensures most { result ≤ 39 }
{
    queue_bytes(unit) + dir_bytes(unit.stepper, unit.up) + reset_bytes(unit.stepper, unit.reset)
}
