//! A timed digital output: the part fan of a G-code, switched at ticks of its board (Klipper's MCU_Commands.md,
//! "queue_digital_out", with its max_duration).
#![tactic(auto)]

mod carry;
mod law;
mod plan;
mod queue;
mod refresh;
mod settle;
mod switch;
mod want;
mod word;

pub use carry::carry_out;
pub use law::levels_follow_commands;
pub use plan::{FanPlan, fan_plan};
pub use queue::{OutEvent, OutQueue, OutRefusal, OutWhat};
pub use refresh::refreshed;
pub use std::alloc::AllocError as OutOfMemory;
pub use switch::switchings;
pub use want::Want;
