//! The units of a section on all boards, planned, packed and spread over the turns while its moves still come.
#![tactic(auto)]

mod board;
mod feed;
mod laws;
mod queue;
mod section;
mod steppers;
mod take;

pub use board::BoardStream;
pub use laws::{
    fewer_lines_plan_alike, lines_last, lines_may_be_added, open_sections_are_told_whole,
    plans_stay, sections_are_laid, sections_can_be_completed, sections_end, sections_follow_plans,
    sections_stay, units_end_soon,
};
pub use queue::MoveQueue;
pub use section::SectionStream;
pub use std::alloc::AllocError as OutOfMemory;
pub use take::may_take;
