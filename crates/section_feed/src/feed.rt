//! Units that are handed on to the pacing of their board.

ghost use Rattle.std.specs.Prelude.{◌≡◌, ℕ, ◌+◌, ◌<◌, ◌≤◌, ◌++◌, All, List, OnOk, IfOk};
ghost use Rattle.plan_types.specs.Clock.{tick_limit};
ghost use Rattle.plan_types.specs.Lines.{Clocks};
ghost use Rattle.step_feed.specs.Units.{StepUnit};
ghost use Rattle.step_feed.specs.Pacing.{Release, lead, turn_limit};
ghost use Rattle.step_feed.specs.Streams.{IsFedOf, stream_start, next_turn, slots_of};
ghost use Rattle.section_feed.specs.Ordering.{last_order, order_of};

use crate::OutOfMemory;
use msg_code::Unit;
use step_feed::FeedStream;

/// Where a unit stands among those of its board.
fn order_of(unit: &Unit) -> u128
    ensures { result ≡ order_of unit.now }
{
    u128::from(unit.first) * 256 + u128::from(unit.stepper)
}

/// Adds units behind the others of their board, which end at a place in their order. The result is the place
/// of the last.
pub fn feed_units(feed: &mut FeedStream, order: u128, units: &[Unit]) -> Result<u128, OutOfMemory>
    requires small { All (λ u. u.last < tick_limit) units.now }
    requires due_small { All (λ u. u.due < turn_limit) units.now }
    requires in_time { All (λ u. next_turn feed.old + lead ≤ u.due) units.now }
    ensures fed { OnOk result ((clocks : Clocks) (pushed : List StepUnit) (released : List Release) →
        IsFedOf feed.old clocks pushed released → IsFedOf feed.new clocks (pushed ++ units.now) released) }
    ensures order { IfOk result (λ o. o ≡ last_order order units.now) }
    ensures next { next_turn feed.new ≡ next_turn feed.old }
    ensures first { stream_start feed.new ≡ stream_start feed.old }
    ensures slots { slots_of feed.new ≡ slots_of feed.old }
{
    let mut place = order;
    for unit in units {
        feed.push(*unit)?;
        place = order_of(unit);
    }
    Ok(place)
}
