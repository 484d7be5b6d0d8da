//! Where a check stands.

use crate::further::Further;
use crate::tally::Tally;
use clock_line::Lines;
use plan_types::{Listed, Planned};

/// Where a check stands: the log's further clock lines, the boards' clocks with all of these and with those
/// told so far, how many sections began, the start of the present one, the turn in which its plan ends,
/// whether it was cut and whether the log ended, and of each stepper the planned steps, the tick at which the
/// section begins, and how its pulses stand to the plan.
#[derive(Drop)]
pub struct Stand {
    pub further: Vec<Further>,
    pub clocks: Vec<Lines>,
    pub told: Vec<Lines>,
    pub begun: usize,
    pub start: u64,
    pub end: u64,
    pub cut: bool,
    pub ended: bool,
    pub plans: Listed<Listed<Planned>>,
    pub bases: Vec<u64>,
    pub tallies: Vec<Tally>,
}
