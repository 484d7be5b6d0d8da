//! Sections that home.

ghost use Rattle.std.specs.Prelude.{◌≡◌, ℕ, pos, ◌<◌, ◌≤◌, ◌^◌, All, IfOk, length, slice_index_or, unsigned_abs};
ghost use Rattle.plan_types.specs.Machines.{IsValidMachine};
ghost use Rattle.plan_types.specs.Moves.{coordinate};
ghost use Rattle.plan_types.specs.Valid.{IsValidMove};
ghost use Rattle.section_plan.specs.Runs.{IsPlannable};
ghost use Rattle.motion_work.specs.Told as told;
ghost use Rattle.motion_work.specs.Homes.{last_step, moving_among, moving_in, one_moving};

use crate::OutOfMemory;
use clock_line::Lines;
use kin_map::{Cartesian, CoreXy, Kinematics};
use msg_code::{WordMsg, WordNews};
use plan_types::{Machine, Move, StepperDef};
use section_plan::plan_moves;
use std::alloc::Global;

/// The turn in which a homing section ends that has no answer yet.
pub const NO_END: u64 = 1 << 62;

/// The turn of the last planned step of a homing section of some moves that starts in a turn, and its start
/// where it has none. Its plan is made for this alone.
pub fn home_end(
    alloc: Global,
    machine: &Machine,
    clocks: &[Lines],
    moves: &[Move],
    start: u64,
) -> Result<u64, OutOfMemory>
    requires { IsPlannable machine.now clocks.now moves.now start }
    ensures { IfOk result (λ last. last ≡ last_step machine.now clocks.now moves.now start) }
{
    let plan = plan_moves(alloc, machine, clocks, moves, start)?;
    Ok(start.max(plan.last))
}

/// The coordinate of a drive at a position.
fn coordinate_at(corexy: bool, drive: u8, at: &[i64; 4]) -> i64
    requires drive { drive < 4 }
    requires near { (k : ℕ) → k < 4 → unsigned_abs (slice_index_or at.now k (pos 0)) ≤ 2 ^ 60 }
    ensures { result ≡ coordinate corexy drive at.now }
{
    if corexy {
        CoreXy.coordinate(drive, at)
    } else {
        Cartesian.coordinate(drive, at)
    }
}

/// 1 where a move changes the coordinate of a drive.
fn one_moving(corexy: bool, one: &Move, drive: u8) -> u16
    requires drive { drive < 4 }
    requires valid { IsValidMove one.now }
    ensures value { result ≡ one_moving corexy one.now drive }
    ensures small { result ≤ 1 }
{
    if coordinate_at(corexy, drive, &one.from) != coordinate_at(corexy, drive, &one.to) {
        1
    } else {
        0
    }
}

/// The steppers that a move moves: a bit for each.
fn moving_among(corexy: bool, one: &Move, steppers: &[StepperDef]) -> u16
    requires drives { All (λ s. s.drive < 4) steppers.now }
    requires valid { IsValidMove one.now }
    requires few { length steppers.now ≤ 16 }
    ensures value { result ≡ moving_among corexy one.now steppers.now }
    ensures small { result < 2 ^ length steppers.now }
{
    match steppers {
        [] => 0,
        [first, rest @ ..] => {
            one_moving(corexy, one, first.drive) + 2 * moving_among(corexy, one, rest)
        }
    }
}

/// The steppers that a homing section moves.
pub fn moving_in(machine: &Machine, moves: &[Move]) -> u16
    requires machine { IsValidMachine machine.now }
    requires some { 0 < length moves.now }
    requires valid { All IsValidMove moves.now }
    ensures { result ≡ moving_in machine.now moves.now }
{
    moving_among(machine.corexy, &moves[0], machine.steppers.as_slice())
}

fn is_homed(news: &WordNews) -> bool
    ensures { result ≡ told.is_homed news.now }
{
    match news {
        WordNews::Homed => true,
        _ => false,
    }
}

/// Whether some news tell that a homing group answered.
fn tells_homed(news: &[WordNews]) -> bool
    ensures { result ≡ told.tells_homed news.now }
{
    match news {
        [] => false,
        [first, rest @ ..] => is_homed(first) || tells_homed(rest),
    }
}

/// Whether a word tells that a homing group answered.
pub fn says_homed(word: &WordMsg) -> bool
    ensures { result ≡ told.tells_homed word.now.news }
{
    tells_homed(word.news.as_slice())
}
