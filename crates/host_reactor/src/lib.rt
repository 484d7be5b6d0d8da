//! The reactor of a run: it asks the boards until they are connected, tells their clock lines, lets the boards home,
//! writes the report's lines, and ends the run.
#![tactic(auto)]

mod calm;
mod free;
mod laws;
mod notes;
mod ordered;
mod react;
mod reactor;
mod report;
mod run;
mod running;

pub use laws::{
    asks_once, connects_in_a_run, controls_fit, ends_as_told, ends_in_order, free_turns_are_rest,
    orders_stand_in_rows, rests, turns_leave_room,
};
pub use ordered::{Begun, Known, Ordered, Phase, Reading};
pub use reactor::Reactor;
pub use std::alloc::AllocError as OutOfMemory;
