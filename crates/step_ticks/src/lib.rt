//! The planned steps of one stepper in one section.
//!
//! Each half step that a segment passes is due at the first board tick at which the segment has gone that far
//! (Klipper's Code_Overview.md, kinematics and step generation).
#![tactic(auto)]

ghost use Rattle.std.specs.Prelude.{◌≡◌, ℕ, ◌+◌, ◌*◌, ◌^◌, ◌<◌, ◌≤◌, All, IfOk, length, slice_index_or};
ghost use Rattle.plan_types.specs.Clock.{tick_limit};
ghost use Rattle.plan_types.specs.declared.plan.Segment.{Segment};
ghost use Rattle.plan_types.specs.Plan.{planned_steps, AreSpaced};
ghost use Rattle.plan_types.specs.Lines.{lines_board};
ghost use Rattle.plan_types.specs.Valid.{IsValidSegment, IsValidGear};

mod count;
mod due;
mod grid;
mod raw;
mod reach;
mod stream;
mod thin;

use clock_line::Lines;
use plan_types::{Gear, Planned, Segment};
pub use std::alloc::AllocError as OutOfMemory;
use std::alloc::Global;
pub use stream::StepStream;

/// The planned steps of one stepper in one section, whose first step comes after the tick `base`.
pub fn planned(
    alloc: Global,
    gear: &Gear,
    lines: &Lines,
    segments: &[Segment],
    base: u64,
) -> Result<Vec<Planned>, OutOfMemory>
    requires gear_valid { IsValidGear gear.now }
    requires valid { All (λ s. IsValidSegment s lines.now.first.freq) segments.now }
    requires after { All (λ s. lines.now.first.clock ≤ s.start) segments.now }
    requires on_board { All (λ s. lines_board lines.now s.end < tick_limit) segments.now }
    requires base_small { base < tick_limit }
    ensures value { IfOk result (λ steps. steps.items ≡ planned_steps gear.now lines.now segments.now base) }
    ensures rising { IfOk result (λ steps. AreSpaced base steps.items) }
    ensures small { IfOk result (λ steps. All (λ s. s.tick < tick_limit + 4 * length steps.items) steps.items) }
{
    let freq = lines.first().freq;
    let mut raw = Vec::new(alloc);
    for segment in segments {
        raw::push_steps(&mut raw, gear, freq, segment)?;
    }
    let kept = thin::filtered(alloc, thin::cancel_reach(freq), &raw)?;
    thin::spaced(alloc, base, lines, &kept)
}
