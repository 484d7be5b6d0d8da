//! The moves of a section, one behind the other.

ghost use Rattle.std.specs.Prelude.{◌≡◌, ℕ, ◌+◌, ◌*◌, ◌<◌, ◌≤◌, ◌^◌, map, IfOk, All, length};
ghost use Rattle.plan_types.specs.declared.plan.Gear.{Gear};
ghost use Rattle.plan_types.specs.Clock.{tick};
ghost use Rattle.plan_types.specs.Sections.{end_time, segment_of, timed_moves};
ghost use Rattle.plan_types.specs.Steps.{raw_steps};
ghost use Rattle.plan_types.specs.Valid.{IsValidGear};
ghost use Rattle.section_plan.specs.Runs.{IsRun, HasTicksFor, IsGoodSegment, move_ns, steps_of_move};

use crate::OutOfMemory;
use crate::drive::Drive;
use crate::parts::{duration, parts_of, push_parts};
use plan_types::{Move, Segment};
use std::alloc::Global;

/// When moves end that begin at a time, in ns.
pub fn end_of(moves: &[Move], speeds: &[u128], cruise: u32, begin: u128) -> u128
    requires { IsRun cruise moves.now speeds.now begin }
    ensures value { result ≡ end_time cruise moves.now speeds.now begin }
    ensures soon { result ≤ begin + length moves.now * move_ns }
{
    let mut time = begin;
    for (i, one) in moves.iter().enumerate() {
        time += duration(&parts_of(one, speeds[i], speeds[i + 1], cruise));
    }
    time
}

/// What a drive does of moves that begin at a time in ns.
pub fn segments_of(
    alloc: Global,
    drive: &Drive,
    moves: &[Move],
    speeds: &[u128],
    cruise: u32,
    begin: u128,
) -> Result<Vec<Segment>, OutOfMemory>
    requires drive { drive.now.number < 4 }
    requires run { IsRun cruise moves.now speeds.now begin }
    requires room { HasTicksFor drive.now.line (length moves.now) begin }
    ensures value { IfOk result (λ made. made.items
        ≡ map (segment_of drive.now.corexy drive.now.number drive.now.line)
        (timed_moves cruise moves.now speeds.now begin)) }
    ensures good { IfOk result (λ made.
        All (IsGoodSegment drive.now.line (tick drive.now.line (begin + length moves.now * move_ns))) made.items) }
    ensures steps { IfOk result (λ made.
        (g : Gear) (f : ℕ) → IsValidGear g → length (raw_steps g f made.items) ≤ length moves.now * steps_of_move) }
{
    let mut made = Vec::new(alloc);
    let mut time = begin;
    for (i, one) in moves.iter().enumerate() {
        let parts = parts_of(one, speeds[i], speeds[i + 1], cruise);
        push_parts(&mut made, drive, one, &parts, time)?;
        time += duration(&parts);
    }
    Ok(made)
}
