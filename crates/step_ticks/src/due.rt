//! Whether a raw step is due, and whether it is dropped.

ghost use Rattle.std.specs.Prelude.{◌≡◌, ℕ, ◌+◌, ◌<◌, ◌≤◌, ◌^◌, All, false, true, length, slice_index_or, drop};
ghost use Rattle.plan_types.specs.Plan.{no_step};
ghost use Rattle.plan_types.specs.Clock.{tick_limit};
ghost use Rattle.step_ticks.specs.Ticks.{IsOnBoard};
ghost use Rattle.step_ticks.specs.Due.{IsDropped, IsKept, is_due};

use crate::thin::cancels;
use plan_types::Planned;

/// Whether there is a step at a place that comes before a tick, and too early to be cancelled by one that is not known.
pub fn is_due(raw: &[Planned], next: usize, until: u64, reach: u64, end: u64) -> bool
    requires reach_small { reach ≤ 200_000 }
    requires small { All (λ s. s.tick < tick_limit) raw.now }
    ensures inside { result ≡ true → next < length raw.now }
    ensures due { result ≡ true → is_due reach until end (slice_index_or raw.now next no_step) ≡ true }
    ensures later { result ≡ false → next < length raw.now →
        is_due reach until end (slice_index_or raw.now next no_step) ≡ false }
{
    match raw.get(next) {
        Some(step) => step.tick < until && step.tick + reach < end,
        None => false,
    }
}

/// Whether the step at a place cancels with the one behind it.
pub fn is_dropped(raw: &[Planned], next: usize, reach: u64) -> bool
    requires { next < length raw.now }
    ensures dropped { result ≡ true → IsDropped reach raw.now next }
    ensures kept { result ≡ false → IsKept reach raw.now next }
{
    next + 1 < raw.len() && cancels(reach, &raw[next], &raw[next + 1])
}

/// The step at a place.
pub fn step_at(raw: &[Planned], next: usize) -> Planned
    requires { next < length raw.now }
    ensures { result ≡ slice_index_or raw.now next no_step }
{
    raw[next]
}
