//! The lines of a machine's report, of which those of pulses have their words put together once.

ghost use Rattle.std.specs.Prelude.{◌≡◌, ◌++◌, ◌+◌, ◌≤◌, decimal, take, length, OnOk, IfOk};
ghost use Rattle.report_text.specs.Heads.{AreHeads, IsHead};
ghost use Rattle.report_text.specs.Text.{direction_word, line_text};

use crate::digits::{place, place_number};
use crate::line::ReportLine;
use crate::print::{board_name, direction_word, put_line, stepper_name};
use plan_types::Machine;
use std::alloc::{AllocError, Global};
use std::marker::Model;

/// No machine has more steppers.
const MOST_STEPPERS: usize = 16;

/// The words in front of the tick, in the lines of a stepper's pulses on a board, and room behind them for the rest
/// of such a line: no name is longer than 16 bytes, no tick than 20 digits.
#[derive(Drop)]
pub struct Head {
    board: u8,
    size: usize,
    words: [u8; 64],
}

/// Puts the lines of a machine's report into text. A report is mostly lines of pulses.
#[derive(Drop)]
pub struct LinePrinter<'a> {
    machine: &'a Machine,
    heads: Vec<Head>,
}

impl<'a> Model for LinePrinter<'a> {
    ghost use Rattle.plan_types.specs.declared.machine.Machine.{Machine};
    ghost use Rattle.report_text.specs.Heads.{AreHeads};

    ghost Value = { Machine };

    ghost view = { λ p. p.machine.now };

    ghost invariant = { λ p. AreHeads p.machine.now 0 p.heads.items };
}

/// The board of a stepper, or the first one where there is no such stepper.
fn board_of(machine: &Machine, stepper: u8) -> u8 {
    match machine.steppers.as_slice().get(stepper as usize) {
        Some(stepper) => stepper.board,
        None => 0,
    }
}

/// The words of a stepper.
fn head_of(machine: &Machine, stepper: u8) -> Head
    ensures { IsHead machine.now stepper result }
{
    let board = board_of(machine, stepper);
    let mut words = [b' '; 64];
    let verb = place(&mut words, 0, b"pulse ");
    let name = place(&mut words, verb, board_name(machine, board));
    let next = place(&mut words, name, b" ");
    let last = place(&mut words, next, stepper_name(machine, stepper));
    let size = place(&mut words, last, b" ");
    Head { board, size, words }
}

/// Puts the tick and the end of a pulse's line behind its words: the place behind the line.
fn place_rest(line: &mut [u8], at: usize, tick: u64, up: bool) -> usize
    requires { at + 23 ≤ length line.old }
    ensures bytes { take result line.new ≡ take at line.old ++ (decimal tick ++ direction_word up) }
    ensures size { length line.new ≡ length line.old }
{
    let end = place_number(line, at, tick);
    place(line, end, &direction_word(up))
}

/// Adds the line of a pulse. Its words are copied with the room behind them, which takes the rest and is cut off.
fn put_behind(out: &mut Vec<u8>, head: &Head, tick: u64, up: bool) -> Result<(), AllocError>
    requires { (head.now.size ≤ 40) × (length head.now.words ≡ 64) }
    ensures { OnOk result (out.new.items
        ≡ out.old.items ++ (take head.now.size head.now.words ++ (decimal tick ++ direction_word up))) }
{
    out.extend_from_slice(&head.words)?;
    let at = out.len() - 64 + head.size;
    let end = place_rest(out.as_mut_slice(), at, tick, up);
    out.truncate(end);
    Ok(())
}

impl<'a> LinePrinter<'a> {
    /// A printer of a machine's lines.
    pub fn new(alloc: Global, machine: &'a Machine) -> Result<LinePrinter<'a>, AllocError>
        ensures { IfOk result (λ p. p ≡ machine.now) }
    {
        let mut heads = Vec::new(alloc);
        let count = machine.steppers.as_slice().len().min(MOST_STEPPERS) as u8;
        for stepper in 0..count {
            heads.push(head_of(machine, stepper))?;
        }
        Ok(LinePrinter { machine, heads })
    }

    /// Adds the text of a line at the end of a text.
    pub fn put(&self, out: &mut Vec<u8>, line: &ReportLine) -> Result<(), AllocError>
        ensures { OnOk result (out.new.items ≡ out.old.items ++ line_text self.now line.now) }
    {
        if let ReportLine::Pulse {
            board,
            stepper,
            tick,
            up,
        } = *line
        {
            if (stepper as usize) < self.heads.len() {
                let head = &self.heads[stepper as usize];
                if head.board == board {
                    put_behind(out, head, tick, up)?;
                    return Ok(());
                }
            }
        }
        put_line(out, line, self.machine)
    }
}
