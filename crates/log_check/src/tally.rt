//! How the pulses of a stepper stand to their plan.

/// How many pulses a stepper made in a section, and the greatest number of ticks by which one was before and behind its
/// planned tick.
#[derive(Debug, Clone, Copy, PartialEq, Eq)]
pub struct Tally {
    pub made: usize,
    pub early: u64,
    pub late: u64,
}
