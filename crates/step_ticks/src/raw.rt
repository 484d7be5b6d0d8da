//! The raw steps of segments.

ghost use Rattle.std.specs.Prelude.{◌≡◌, ℕ, ◌+◌, ◌*◌, ◌^◌, ◌<◌, ◌≤◌, ◌++◌, OnOk, length, take, pos, int_le};
ghost use Rattle.plan_types.specs.Steps.{segment_steps};
ghost use Rattle.plan_types.specs.Valid.{IsValidSegment, IsValidGear};

use crate::OutOfMemory;
use crate::grid::grid_of;
use crate::reach::{bend_of, guess_next, guess_tick, tick_of};
use plan_types::{Gear, Planned, Segment};

/// Whether the counts of a segment grow.
fn is_up(segment: &Segment) -> bool
    ensures { result ≡ int_le (pos 0) segment.now.dp }
{
    segment.dp >= 0
}

/// Adds the steps of a segment.
pub fn push_steps(
    raw: &mut Vec<Planned>,
    gear: &Gear,
    freq: u32,
    segment: &Segment,
) -> Result<(), OutOfMemory>
    requires gear_valid { IsValidGear gear.now }
    requires valid { IsValidSegment segment.now freq }
    ensures steps { OnOk result (raw.new.items ≡ raw.old.items ++ segment_steps gear.now freq segment.now) }
    ensures front { take (length raw.old.items) raw.new.items ≡ raw.old.items }
{
    let grid = grid_of(gear, segment, freq);
    if grid.per == 0 {
        return Ok(());
    }
    let up = is_up(segment);
    let bend = bend_of(segment, freq);
    let stride = grid.stride();
    let mut mark = grid.first();
    let mut last = segment.start;
    let mut gap = 0;
    let count = grid.count(segment.d);
    for k in 0..count {
        let near = if k < 4 {
            guess_tick(segment, freq, bend, mark.at)
        } else {
            guess_next(segment, freq, mark.at, last, gap)
        };
        let tick = tick_of(segment, freq, mark.at, near);
        gap = tick.saturating_sub(last);
        last = tick;
        raw.push(Planned { tick, up })?;
        mark = grid.after(&stride, &mark);
    }
    Ok(())
}
