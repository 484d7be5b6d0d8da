//! How the ticks of a board follow the time, and the time its ticks.
//!
//! Times are in ns of the session, a turn is a millisecond.
#![tactic(auto)]

mod found;
mod line;
mod lines;
mod over;
mod sample;

pub use line::{LineTicks, capped_tick};
pub use lines::Lines;
pub use sample::{Sample, better, choose, lines_are_near, lines_stay_near, sampled};
pub use std::alloc::AllocError as OutOfMemory;
