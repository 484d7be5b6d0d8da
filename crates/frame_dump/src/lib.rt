//! Captured traffic: the bytes that a line carried to a board, turn by turn. What they hold, thing by thing, and what a
//! simulated board makes of them.
#![tactic(auto)]

mod fault;
mod line;
mod listing;
mod playing;
mod print;
mod read;
mod trace;

pub use fault::TraceFault;
pub use line::DumpLine;
pub use listing::dump;
pub use playing::{Replayed, replay};
pub use print::{dump_text, replay_text};
pub use read::read_trace;
pub use std::alloc::AllocError as OutOfMemory;
pub use trace::{Trace, TraceTurn};
