//! Lines of G-code to words.
//!
//! The commands are those of a slicer's output, as RepRap firmware and Klipper's G-Codes.md have them.
#![tactic(auto)]

mod blanks;
mod fan;
mod fault;
mod line;
mod table;
mod word;

pub use fan::read_fan;
pub use fault::{FaultKind, LineFault};
pub use line::{read_line, read_of};
pub use word::{Command, Given, Letters, Word};
