//! What planners share: what words tell of the boards' clocks, what a homing section moves and when its last
//! planned step is, and, as definitions and laws, what the sections that were begun put in every turn.
//!
//! A turn is a millisecond of the session; ticks are those of a board.
#![tactic(auto)]

mod homes;
mod laws;
mod told;

pub use homes::{NO_END, home_end, moving_in, says_homed};
pub use laws::{boards_have_sections, homed_sections_follow_plans};
pub use std::alloc::AllocError as OutOfMemory;
pub use told::{BoardLine, add_lines, first_start, told_of};
