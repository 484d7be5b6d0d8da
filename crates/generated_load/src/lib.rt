//! A load of any size that is made from a seed: its G-code, and the printer on which it is run.
#![tactic(auto)]

mod load_file;
mod printer;
mod text;

pub use load_file::LoadFiles;
pub use printer::load_machine;
pub use std::alloc::AllocError as OutOfMemory;
pub use text::{Line, first_line, move_line, next, upper};
