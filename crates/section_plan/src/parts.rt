//! The parts of a move.

ghost use Rattle.std.specs.Prelude.{◌≡◌, ℕ, ◌+◌, ◌*◌, ◌<◌, ◌≤◌, ◌^◌, ◌++◌, map, OnOk, All, sum_by, length};
ghost use Rattle.plan_types.specs.Clock.{tick_limit};
ghost use Rattle.plan_types.specs.Clock.{tick};
ghost use Rattle.plan_types.specs.Parts.{parts};
ghost use Rattle.plan_types.specs.Sections.{duration, segment_of, timed};
ghost use Rattle.plan_types.specs.Valid.{IsValidMove};
ghost use Rattle.trapezoid.specs.Timing.{IsTimed};
ghost use Rattle.section_plan.specs.Runs.{IsShortMove, IsJoined, move_ns};

use crate::OutOfMemory;
use crate::drive::Drive;
use plan_types::{Move, Part, Segment};
use trapezoid::segments;

/// The three parts of a move between two squared speeds.
pub fn parts_of(one: &Move, start: u128, end: u128, cruise: u32) -> [Part; 3]
    requires short { IsShortMove one.now }
    requires joined { IsJoined one.now start end }
    requires share { cruise < 1_000_000 }
    ensures value { result ≡ parts one.now start end cruise }
    ensures whole { sum_by (λ p. p.d) result ≡ one.now.d }
    ensures timed { All IsTimed result }
    ensures soon { duration result ≤ move_ns }
{
    segments(one, start, end, cruise)
}

/// How long a part takes, in ns.
fn time_of(part: &Part) -> u128
    ensures value { result ≡ part.now.ns }
    ensures small { result < 2 ^ 64 }
{
    u128::from(part.ns)
}

/// How long the parts of a move take, in ns.
pub fn duration(parts: &[Part; 3]) -> u128
    ensures { result ≡ duration parts.now }
{
    let [rising, along, falling] = parts;
    time_of(rising) + time_of(along) + time_of(falling)
}

/// Adds the segments of a drive for the parts of a move that begins at a time in ns. Parts of no distance have none.
pub fn push_parts(
    made: &mut Vec<Segment>,
    drive: &Drive,
    one: &Move,
    parts: &[Part; 3],
    begin: u128,
) -> Result<(), OutOfMemory>
    requires drive { drive.now.number < 4 }
    requires valid { IsValidMove one.now }
    requires whole { sum_by (λ p. p.d) parts.now ≡ one.now.d }
    requires begun { drive.now.line.at ≤ begin }
    requires begin_small { begin < 2 ^ 99 }
    requires short { duration parts.now ≤ move_ns }
    requires small { tick drive.now.line (begin + duration parts.now) < tick_limit }
    ensures { OnOk result (made.new.items
        ≡ made.old.items
        ++ map (segment_of drive.now.corexy drive.now.number drive.now.line) (timed one.now 0 begin parts.now)) }
{
    let mut before = 0;
    let mut time = begin;
    for part in parts {
        if part.d != 0 {
            made.push(drive.segment(one, part, before, time))?;
        }
        before += part.d;
        time += time_of(part);
    }
    Ok(())
}
