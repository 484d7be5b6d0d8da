//! The check of a log of pulses against the plan of a file: line by line, each judged at the point at which it stands.
#![tactic(auto)]

mod check;
mod fault;
mod fits;
mod further;
mod pulse;
mod stand;
mod tally;

pub use check::{Checked, check_log};
pub use std::alloc::AllocError as OutOfMemory;
