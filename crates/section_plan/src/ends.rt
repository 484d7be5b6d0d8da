//! When the moves of a section end.

ghost use Rattle.std.specs.Prelude.{◌≡◌, ◌*◌, ◌++◌, OnOk};
ghost use Rattle.plan_types.specs.Clock.{turn_ns};
ghost use Rattle.plan_types.specs.Speeds.{greatest_speeds};
ghost use Rattle.section_plan.specs.Ends.{move_ends};
ghost use Rattle.section_plan.specs.Runs.{IsPlannable, IsRun};

use crate::OutOfMemory;
use crate::parts::{duration, parts_of};
use crate::section::speeds_of;
use crate::stepper::TURN_NS;
use clock_line::Lines;
use plan_types::{Machine, Move};
use std::alloc::Global;

/// Adds when each of some moves ends, which begin at a time in ns.
fn put_ends(
    out: &mut Vec<u128>,
    moves: &[Move],
    speeds: &[u128],
    cruise: u32,
    begin: u128,
) -> Result<(), OutOfMemory>
    requires { IsRun cruise moves.now speeds.now begin }
    ensures { OnOk result (out.new.items ≡ out.old.items ++ move_ends cruise moves.now speeds.now begin) }
{
    let mut time = begin;
    for (i, one) in moves.iter().enumerate() {
        time += duration(&parts_of(one, speeds[i], speeds[i + 1], cruise));
        out.push(time)?;
    }
    Ok(())
}

/// Adds when each move of a section ends that starts in a turn, in ns.
pub fn put_move_ends(
    alloc: Global,
    machine: &Machine,
    clocks: &[Lines],
    moves: &[Move],
    turn: u64,
    out: &mut Vec<u128>,
) -> Result<(), OutOfMemory>
    requires { IsPlannable machine.now clocks.now moves.now turn }
    ensures { OnOk result (out.new.items
        ≡ out.old.items
        ++ move_ends machine.now.cruise moves.now (greatest_speeds moves.now machine.now.scv) (turn * turn_ns)) }
{
    let speeds = speeds_of(alloc, machine, clocks, moves, turn)?;
    put_ends(
        out,
        moves,
        &speeds,
        machine.cruise,
        u128::from(turn) * TURN_NS,
    )
}
