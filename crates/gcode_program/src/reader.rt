//! The reading of a text in pieces.

ghost use Rattle.std.specs.Prelude.{◌≡◌, None};
ghost use Rattle.gcode_program.specs.Small.{IsSmallReading};

use crate::cut::OutOfMemory;
use crate::items::{Item, Opening};
use crate::reading::{Reading, drop_first, end_reading, read_last, read_lines};
use gcode_state::Modes;
use plan_types::{Machine, ReadEnd};
use std::alloc::Global;
use std::collections::VecDeque;

/// A text that is read in pieces: whole lines are read at once, the bytes behind them wait.
#[derive(Drop)]
pub struct Reader {
    reading: Reading,
    carry: Vec<u8>,
    ghost small: { reading.stop ≡ None → IsSmallReading reading },
}

impl Reader {
    ghost use Rattle.std.specs.Prelude.{◌≡◌, ℕ, ◌++◌, List, [], None, IfOk, OnOk};
    ghost use Rattle.plan_types.specs.Machines.{IsValidMachine};
    ghost use Rattle.gcode_program.specs.declared.items.Item.{Item};
    ghost use Rattle.gcode_program.specs.Reader.{IsAll};
    ghost use Rattle.gcode_program.specs.Readers.{IsReaderOf, stop_of};

    /// Nothing is read yet.
    pub fn new(alloc: Global, machine: &Machine) -> Reader
        requires { IsValidMachine machine.now }
        ensures none { IsReaderOf result machine.now [] [] }
        ensures goes { stop_of result ≡ None }
    {
        Reader {
            reading: Reading {
                modes: Modes::new(machine),
                opening: Opening {
                    goes: false,
                    dwell: 0,
                },
                start: 0,
                lines: 0,
                passed: 0,
                stop: None,
            },
            carry: Vec::new(alloc),
        }
    }

    /// Reads the next bytes of the text, and adds what they tell. Nothing is told behind a line that is
    /// refused or asks for a stop.
    pub fn read(
        &mut self,
        machine: &Machine,
        bytes: &[u8],
        items: &mut VecDeque<Item>,
    ) -> Result<(), OutOfMemory>
        requires { IsValidMachine machine.now }
        ensures { OnOk result ((text : List ℕ) (told : List Item) →
            IsReaderOf self.old machine.now text (told ++ items.old.items) →
            IsReaderOf self.new machine.now (text ++ bytes.now) (told ++ items.new.items)) }
    {
        if self.reading.stop.is_some() {
            return Ok(());
        }
        self.carry.extend_from_slice(bytes)?;
        let used = read_lines(machine, &mut self.reading, &self.carry, items)?;
        drop_first(&mut self.carry, used);
        Ok(())
    }

    /// The text ends: reads its last line where that has no LF, and adds what it tells. Answers how the text was read.
    pub fn finish(
        &mut self,
        machine: &Machine,
        items: &mut VecDeque<Item>,
    ) -> Result<ReadEnd, OutOfMemory>
        requires { IsValidMachine machine.now }
        ensures { IfOk result (λ end. (text : List ℕ) (told : List Item) →
            IsReaderOf self.old machine.now text (told ++ items.old.items) →
            IsAll machine.now text end (told ++ items.new.items)) }
    {
        read_last(machine, &mut self.reading, &self.carry, items)?;
        end_reading(&self.reading, items)
    }

    /// How the reading stopped before the text's end, if it did.
    pub fn stop(&self) -> Option<ReadEnd>
        ensures { result ≡ stop_of self.now }
    {
        self.reading.stop
    }
}
