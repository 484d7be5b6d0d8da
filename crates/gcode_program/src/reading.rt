//! The reading of a text line by line.

ghost use Rattle.std.specs.Prelude.{◌≡◌, ℕ, ◌+◌, ◌*◌, ◌≤◌, ◌<◌, ◌^◌, ◌++◌, List, [], ◌∷◌, None, Some, IfOk, IfSome, IfNone, OnOk, length, drop, slice_index_or};
ghost use Rattle.text_core.specs.Lines.{lines_of};
ghost use Rattle.plan_types.specs.Machines.{IsValidMachine};
ghost use Rattle.plan_types.specs.declared.machine.Machine.{Machine};
ghost use Rattle.gcode_program.specs.Reader.{AreReading, HasNoEnd, IsAll, AreBytesKnown, IsOn, IsRead, stop_by};
ghost use Rattle.gcode_program.specs.Small.{IsSmallReading};

use crate::cut::OutOfMemory;
use crate::items::{Item, Opening, add_action, end_section};
use crate::program::one_if;
use crate::step::{Place, step_line};
use gcode_state::{Action, Modes};
use plan_types::{Machine, ReadEnd, ReadStop};
use std::collections::VecDeque;

/// Where a reader is behind the last whole line: the modes that the lines left, whether a section of moves
/// goes on, how many bytes, accepted lines and passed commands stand before, and how the reading stopped, if
/// it did.
#[derive(Drop)]
pub struct Reading {
    pub modes: Modes,
    pub opening: Opening,
    pub start: usize,
    pub lines: u64,
    pub passed: u64,
    pub stop: Option<ReadEnd>,
}

/// Where the first line ends, if it is whole.
fn line_end(text: &[u8]) -> Option<usize>
    ensures inside { IfSome result (λ e. e < length text.now) }
    ensures end { IfSome result (λ e. slice_index_or text.now e 0 ≡ 10) }
    ensures first { IfSome result (λ e. (k : ℕ) → k < e → slice_index_or text.now k 0 ≡ 10 → ⊥) }
    ensures none { IfNone result (HasNoEnd text.now) }
{
    for place in 0..text.len() {
        if text[place] == b'\n' {
            return Some(place);
        }
    }
    None
}

/// How the reading stops behind an action, if it does.
fn stop_behind(action: &Action, lines: u64, passed: u64) -> Option<ReadEnd>
    ensures { result ≡ stop_by action.now lines passed }
{
    match action {
        Action::Stop => Some(ReadEnd {
            lines,
            passed,
            stop: ReadStop::Stop(lines),
        }),
        _ => None,
    }
}

/// Reads the next line of a text of which so many bytes are known.
fn read_line(
    machine: &Machine,
    reading: &mut Reading,
    line: &[u8],
    size: usize,
    items: &mut VecDeque<Item>,
) -> Result<(), OutOfMemory>
    requires machine { IsValidMachine machine.now }
    requires small { IsSmallReading reading.old }
    requires inside { reading.old.start + length line.now ≤ size }
    requires some { reading.old.start < size }
    requires goes { reading.old.stop ≡ None }
    ensures small { reading.new.stop ≡ None → IsSmallReading reading.new }
    ensures start { OnOk result
        (reading.new.stop ≡ None → reading.new.start ≡ reading.old.start + (length line.now + 1)) }
    ensures read { OnOk result ((all : List ℕ) (rest : List (List ℕ)) (told : List Item) →
        AreBytesKnown size (reading.old.start + length line.now) (length all) →
        IsOn machine.now all reading.old (line.now ∷ rest) (told ++ items.old.items) →
        IsRead machine.now all reading.new rest (told ++ items.new.items)) }
{
    let number = reading.lines + 1;
    let before = *reading.modes.state();
    let place = Place {
        number,
        start: reading.start,
        size,
    };
    match step_line(&mut reading.modes, line, place) {
        Ok(step) => {
            let opening = add_action(machine, reading.opening, &before, step.action, items);
            reading.lines = number;
            reading.passed += one_if(step.passed);
            reading.start += line.len() + 1;
            reading.stop = stop_behind(&step.action, number, reading.passed);
            reading.opening = opening?;
            Ok(())
        }
        Err(kind) => {
            reading.stop = Some(ReadEnd {
                lines: reading.lines,
                passed: reading.passed,
                stop: ReadStop::Refused { line: number, kind },
            });
            end_section(reading.opening, items)
        }
    }
}

/// Reads the whole lines of a text, behind which it may go on. Answers how many bytes they have.
pub(crate) fn read_lines(
    machine: &Machine,
    reading: &mut Reading,
    text: &[u8],
    items: &mut VecDeque<Item>,
) -> Result<usize, OutOfMemory>
    requires machine { IsValidMachine machine.now }
    requires small { IsSmallReading reading.old }
    requires near { reading.old.start + length text.now < 2 ^ 64 }
    requires goes { reading.old.stop ≡ None }
    ensures small { reading.new.stop ≡ None → IsSmallReading reading.new }
    ensures used { IfOk result (λ used. used ≤ length text.now) }
    ensures place { IfOk result (λ used. reading.new.stop ≡ None → reading.new.start ≡ reading.old.start + used) }
    ensures open_end { IfOk result (λ used. reading.new.stop ≡ None → HasNoEnd (drop used text.now)) }
    ensures read { IfOk result (λ used. (all more : List ℕ) (told : List Item) →
        reading.old.start + length text.now ≤ length all →
        IsOn machine.now all reading.old (lines_of (text.now ++ more)) (told ++ items.old.items) →
        IsRead machine.now all reading.new (lines_of (drop used text.now ++ more)) (told ++ items.new.items)) }
{
    let size = reading.start + text.len();
    let mut used = 0;
    while reading.stop.is_none() {
        let Some(end) = line_end(&text[used..]) else {
            break;
        };
        read_line(machine, reading, &text[used..used + end], size, items)?;
        used += end + 1;
    }
    Ok(used)
}

/// Reads the last line of a text, which has no LF.
pub(crate) fn read_last(
    machine: &Machine,
    reading: &mut Reading,
    carry: &[u8],
    items: &mut VecDeque<Item>,
) -> Result<(), OutOfMemory>
    requires machine { IsValidMachine machine.now }
    requires small { reading.old.stop ≡ None → IsSmallReading reading.old }
    requires near { reading.old.stop ≡ None → reading.old.start + length carry.now < 2 ^ 64 }
    ensures small { reading.new.stop ≡ None → IsSmallReading reading.new }
    ensures read { OnOk result ((text : List ℕ) (told : List Item) →
        AreReading machine.now reading.old carry.now text (told ++ items.old.items) →
        IsRead machine.now text reading.new [] (told ++ items.new.items)) }
{
    if reading.stop.is_some() || carry.is_empty() {
        return Ok(());
    }
    let size = reading.start + carry.len();
    read_line(machine, reading, carry, size, items)
}

/// How a text was read of which all lines were read; the section of moves that goes on ends with it.
pub(crate) fn end_reading(
    reading: &Reading,
    items: &mut VecDeque<Item>,
) -> Result<ReadEnd, OutOfMemory>
    ensures { IfOk result (λ end. (m : Machine) (all : List ℕ) (told : List Item) →
        IsRead m all reading.now [] (told ++ items.old.items) → IsAll m all end (told ++ items.new.items)) }
{
    if let Some(end) = reading.stop {
        return Ok(end);
    }
    end_section(reading.opening, items)?;
    Ok(ReadEnd {
        lines: reading.lines,
        passed: reading.passed,
        stop: ReadStop::End,
    })
}

/// Drops the first bytes.
pub(crate) fn drop_first(carry: &mut Vec<u8>, count: usize)
    requires { count ≤ length carry.old.items }
    ensures { carry.new.items ≡ drop count carry.old.items }
{
    carry.rotate_left(count);
    let rest = carry.len() - count;
    carry.truncate(rest);
}
