//! Words of G-code to actions: what each command does, behind what the commands before it left.
//!
//! The commands are those of Klipper's G-Codes.md; the limits are the project's own.
#![tactic(auto)]

mod linear;
mod modes;
mod others;
mod starts;
mod state;

pub use modes::Modes;
pub use state::{Action, Axis, State, StateFault};
