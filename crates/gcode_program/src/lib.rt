//! Whole texts of G-code to sections of moves.
#![tactic(auto)]

mod cut;
mod home;
mod items;
mod pieces;
mod program;
mod reader;
mod reading;
mod step;

pub use cut::OutOfMemory;
pub use items::{Item, Opening};
pub use pieces::{items_stay, reads_in_pieces, sections_are_told};
pub use program::{Program, read_program};
pub use reader::Reader;
pub use reading::Reading;
pub use step::{Place, Step, step_line};
