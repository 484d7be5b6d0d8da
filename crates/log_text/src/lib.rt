//! The lines of a log of pulses, as a report has them: what each says of the machine's boards, sections and pulses.
#![tactic(auto)]

mod head;
mod line;
mod name;
mod number;
mod section;

pub use line::{LogLine, read_line};
