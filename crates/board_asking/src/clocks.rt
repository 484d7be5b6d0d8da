//! The clock lines of all boards.

ghost use Rattle.std.specs.Prelude.{◌≡◌, ◌++◌, ◌∷◌, [], OnOk};
ghost use Rattle.board_asking.specs.Clocks.{added_at};

use crate::OutOfMemory;
use clock_line::Lines;
use plan_types::Line;
use std::alloc::Global;
use std::marker::Model;

/// The clock lines of all boards, which contracts see as a list.
#[derive(Drop)]
pub struct AllClocks {
    items: Vec<Lines>,
}

impl Model for AllClocks {
    ghost use Rattle.std.specs.Prelude.{List};
    ghost use Rattle.plan_types.specs.Lines.{Clocks};

    ghost Value = { List Clocks };

    ghost view = { λ c. c.items.items };
}

impl AllClocks {
    /// Those of no board.
    pub fn new(alloc: Global) -> AllClocks
        ensures { result ≡ [] }
    {
        AllClocks {
            items: Vec::new(alloc),
        }
    }

    /// Adds those of a board.
    pub fn push(&mut self, lines: Lines) -> Result<(), OutOfMemory>
        ensures { OnOk result (self.new ≡ self.old ++ lines ∷ []) }
    {
        self.items.push(lines)?;
        Ok(())
    }

    /// Those of all boards, in their order.
    pub fn as_slice(&self) -> &[Lines]
        ensures { result.now ≡ self.now }
    {
        self.items.as_slice()
    }

    /// Lets a further line of a board hold from a time on, where it may.
    pub fn add(&mut self, board: u8, from: u128, line: Line) -> Result<(), OutOfMemory>
        ensures { OnOk result (self.new ≡ added_at board from line self.old) }
    {
        add_to(&mut self.items, board as usize, from, line)?;
        Ok(())
    }
}

/// Lets a further line of a board hold from a time on, where it may.
fn add_to(items: &mut Vec<Lines>, place: usize, from: u128, line: Line) -> Result<(), OutOfMemory>
    ensures { OnOk result (items.new.items ≡ added_at place from line items.old.items) }
{
    if place < items.len() {
        items[place].add_where(from, line)?;
    }
    Ok(())
}
