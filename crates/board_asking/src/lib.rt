//! What boards are asked: while they connect, for their dictionary, their clock and their configuration; and
//! where their clocks drift, for the clock again and again.
#![tactic(auto)]

mod asking;
mod clocks;
mod connecting;
mod drift;
mod laws;
mod setup;

pub use asking::{Asking, Put, Stage, more, new_asking};
pub use clocks::AllClocks;
pub use connecting::{
    all_connected, giving_up, listen_all, put_asked, put_clocks, put_connected, put_lines,
    ready_all,
};
pub use drift::{ask_clock, put_new_lines, stale, waiting};
pub use laws::{connects_over_turns, connects_when_configured};
pub use setup::{Setup, endstop_pins, steppers_on};
pub use std::alloc::AllocError as OutOfMemory;
