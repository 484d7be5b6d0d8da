//! The last number on each line, or the last tick of each pin.

ghost use Rattle.std.specs.Prelude.{◌≡◌, ◌<◌, IfOk};
ghost use Rattle.wire_scene.specs.Marks.{SetsMark, marked, no_marks, mark_place};

use std::alloc::{AllocError, Global};
use std::marker::Model;

/// A mark for each place on each of 8 boards, which has 256: the pins, or the two ways of a line.
#[derive(Drop)]
pub struct Marks {
    marks: Vec<Option<u64>>,
}

impl Model for Marks {
    ghost use Rattle.std.specs.Prelude.{List, Option, ℕ, ◌≡◌, length};

    ghost Value = { List (Option ℕ) };

    ghost view = { λ m. m.marks.items };

    ghost invariant = { λ m. length m.marks.items ≡ 2048 };
}

impl Marks {
    /// No mark.
    #[tactic(auto, unfolding(crate::specs::Marks::no_marks))]
    pub fn new(alloc: Global) -> Result<Self, AllocError>
        ensures { IfOk result (λ marks. marks ≡ no_marks) }
    {
        Ok(Marks {
            marks: vec![in alloc; None; 2_048]?,
        })
    }

    /// The mark of a place on a board.
    pub fn at(&self, board: u8, place: u8) -> Option<u64>
        requires { board < 8 }
        ensures { result ≡ marked self.now board place }
    {
        self.marks[place_of(board, place)]
    }

    /// Sets the mark of a place on a board.
    pub fn set(&mut self, board: u8, place: u8, mark: u64)
        requires { board < 8 }
        ensures { SetsMark self.old self.new board place mark }
    {
        self.marks[place_of(board, place)] = Some(mark);
    }
}

/// Where the mark of a place on a board stands.
fn place_of(board: u8, place: u8) -> usize
    ensures { result ≡ mark_place board place }
{
    256 * board as usize + place as usize
}
