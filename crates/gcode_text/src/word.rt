//! What a line says.

ghost use Rattle.std.specs.Prelude.{◌≡◌, ◌≤◌, ◌-◌, Some, length, slice_set};
ghost use Rattle.gcode_text.specs.Lines.{no_words, given_of};
ghost use Rattle.gcode_text.specs.Slots.{given_in};

use std::marker::Model;

/// A command of the table.
#[derive(Clone, Copy, Debug, PartialEq, Eq)]
pub enum Command {
    G0,
    G1,
    G4,
    G28,
    G90,
    G91,
    G92,
    M82,
    M83,
    M112,
    M204,
    M220,
    M221,
    M400,
}

/// What stands behind a letter: nothing, or a number in millionths.
#[derive(Clone, Copy, Debug, PartialEq, Eq)]
pub enum Given {
    Bare,
    Number(i64),
}

/// Which kind of thing stands behind a letter. Its number is kept apart, so that a line takes little room.
#[derive(Clone, Copy, Debug)]
enum Slot {
    Absent,
    Bare,
    Number,
}

/// What is given behind each letter of a line. Contracts see the list of it, from A to Z.
#[derive(Debug, Drop)]
pub struct Letters {
    slots: [Slot; 26],
    numbers: [i64; 26],
}

impl Model for Letters {
    ghost use Rattle.std.specs.Prelude.{List, Option};
    ghost use Rattle.gcode_text.specs.declared.word.Given.{Given};
    ghost use Rattle.gcode_text.specs.Slots.{slots_of};

    ghost Value = { List (Option Given) };

    ghost view = { λ l. slots_of l.slots l.numbers };
}

impl Letters {
    /// Of no letter anything is given.
    pub(crate) fn new() -> Letters
        ensures { result ≡ no_words }
    {
        Letters {
            slots: [Slot::Absent; 26],
            numbers: [0; 26],
        }
    }

    /// Sets what is given behind a capital letter.
    pub(crate) fn set(&mut self, letter: u8, given: Given)
        requires low { 65 ≤ letter }
        requires high { letter ≤ 90 }
        ensures { self.new ≡ slice_set self.old (letter - 65) (Some given) }
    {
        let place = (letter - b'A') as usize;
        let (slot, number) = slot_of(given);
        self.slots[place] = slot;
        self.numbers[place] = number;
    }

    /// What is given behind this capital letter.
    pub fn get(&self, letter: u8) -> Option<Given>
        ensures { result ≡ given_of self.now letter }
    {
        if letter < b'A' || b'Z' < letter {
            return None;
        }
        let place = (letter - b'A') as usize;
        given_in_slot(self.slots[place], self.numbers[place])
    }
}

fn slot_of(given: Given) -> (Slot, i64)
    ensures { given_in result.0 result.1 ≡ Some given }
{
    match given {
        Given::Bare => (Slot::Bare, 0),
        Given::Number(n) => (Slot::Number, n),
    }
}

fn given_in_slot(slot: Slot, number: i64) -> Option<Given>
    ensures { result ≡ given_in slot number }
{
    match slot {
        Slot::Absent => None,
        Slot::Bare => Some(Given::Bare),
        Slot::Number => Some(Given::Number(number)),
    }
}

/// What a line says.
#[derive(Debug, Drop)]
pub enum Word {
    /// Nothing.
    Blank,
    /// A command that is passed over.
    Passed,
    /// A command of the table, with what is given behind its letters.
    Command { name: Command, values: Letters },
}
