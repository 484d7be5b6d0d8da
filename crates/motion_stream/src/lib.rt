//! The motion machine over a text in pieces: from G-code as it comes and the boards' clock lines to the
//! batches of every turn.
//!
//! It holds the moves that are not planned yet and the steps of some 270 turns, and never the text.
#![tactic(auto)]

mod begin;
mod course;
mod draw;
mod laws;
mod motion;
mod news;
mod rows;
mod section;
mod source;
mod text;
mod turn;
mod uptake;

pub use course::{BoardLines, Course, Open};
pub use laws::{sections_are_there, turns_stay};
pub use motion::Motion;
pub use source::Source;
pub use std::alloc::AllocError as OutOfMemory;
