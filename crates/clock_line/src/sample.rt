//! What a board's clock was when it was asked.

ghost use Rattle.std.specs.Prelude.{◌≡◌, ◌<◌, length};
ghost use Rattle.clock_line.specs.Samples.{better, best, chosen, sampled};
ghost use Rattle.std.specs.Prelude.{ℕ, ◌+◌, ◌-◌, ◌*◌, ◌%◌, ◌≤◌};
ghost use Rattle.plan_types.specs.Clock.{own_tick, tick, turn_ns};
ghost use Rattle.std.specs.Prelude.{ℤ};
ghost use Rattle.clock_line.specs.Samples.{own, sample_at, ppm_size, AreWithin, line_reach};

use crate::line::TURN_NS;
use plan_types::Line;

/// A board's clock: the turns in which it was asked and in which its answer came, and the answer.
#[derive(Clone, Copy, Debug, PartialEq, Eq)]
pub struct Sample {
    pub sent: u64,
    pub got: u64,
    pub clock: u64,
}

/// Of two samples the one that took less, the first one where both took the same.
pub fn better(first: Sample, second: Sample) -> Sample
    ensures { result ≡ better first second }
{
    if second.got.saturating_sub(second.sent) < first.got.saturating_sub(first.sent) {
        second
    } else {
        first
    }
}

/// The line of a sample.
pub fn sampled(sample: Sample, freq: u32) -> Line
    ensures { result ≡ sampled sample freq }
{
    Line {
        at: u128::from(sample.sent) * TURN_NS,
        clock: sample.clock,
        freq,
    }
}

/// The line of the sample that took least, the first one of these.
pub fn choose(samples: &[Sample], freq: u32) -> Line
    requires some { 0 < length samples.now }
    ensures { result ≡ chosen samples.now freq }
{
    match samples {
        [first, others @ ..] => sampled(best(*first, others), freq),
        [] => Line {
            at: 0,
            clock: 0,
            freq,
        },
    }
}

/// The first of the samples that took least.
fn best(first: Sample, others: &[Sample]) -> Sample
    ensures { result ≡ best first others.now }
{
    let mut least = first;
    let mut rest = others;
    while let [next, behind @ ..] = rest {
        least = better(least, *next);
        rest = behind;
    }
    least
}

/// The law of clock lines: where a board's clock is exact and its answer is its own tick of a turn between
/// that in which it was asked and that in which the answer came, the line is never behind the board, and
/// ahead by no more turns than the answer took.
pub fn lines_are_near()
    ensures { (start freq sent got turn k : ℕ) → freq % 1_000 ≡ 0 → sent ≤ turn → turn ≤ got → sent ≤ k →
        (own start freq k ≤ tick (sampled (sample_at start freq sent got turn) freq) (k * turn_ns))
        × (tick (sampled (sample_at start freq sent got turn) freq) (k * turn_ns) ≤ own start freq (k + (got - sent))) }
{}

/// The law of clock lines of a board that drifts: from the turn in which it was asked on, a line is no
/// further from the board's own tick than what passed while the sample was taken, the drift since then, and
/// one tick.
pub fn lines_stay_near()
    ensures { (start freq : ℕ) (drift : ℤ) (sent got clock k : ℕ) → freq % 1_000 ≡ 0 → ppm_size drift ≤ 1_000_000 →
        sent ≤ k → own_tick start freq drift sent ≤ clock → clock ≤ own_tick start freq drift got →
        AreWithin (line_reach start freq drift sent got k)
        (tick (sampled (record { sent = sent; got = got; clock = clock }) freq) (k * turn_ns))
        (own_tick start freq drift k) }
{}
