//! The units of a section's steppers, planned and packed piece by piece while the section's moves still come.
#![tactic(auto)]

mod held;
mod laws;
mod moves;
mod pack;
mod plan;
mod ready;
mod stepper;
mod units;

pub use laws::{
    lines_stay_sound, one_line_is_apart, parts_are_whole, parts_stay, pieces_fit, rests_are_later,
    steps_stay, units_are_longest, units_stay,
};
pub use moves::MoveStream;
pub use pack::PackStream;
pub use ready::Ready;
pub use std::alloc::AllocError as OutOfMemory;
pub use stepper::StepperStream;
