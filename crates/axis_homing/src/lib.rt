//! Homing an axis: the group of a section hears the boards' reports, and its orders become commands.
#![tactic(auto)]

mod homing;
mod laws;

pub use homing::{Homing, HomingTurn, axis_at, home, homing_of, put_commands};
pub use laws::{members_rise, orders_fit, orders_leave_room};
pub use std::alloc::AllocError as OutOfMemory;
