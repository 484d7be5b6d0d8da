//! A board and its link, of which the lines lose, repeat and delay blocks: what may happen, and what holds whatever
//! happens (Klipper's Protocol.md and MCU_Commands.md).
#![tactic(auto)]

mod event;
mod laws;
mod line;
mod orders;
mod world;

pub use event::Event;
pub use laws::{
    numbers_keep_in_step, pulses_are_meant, stays_shut, taken_in_order, ticks_stay_in_range,
};
pub use world::World;
