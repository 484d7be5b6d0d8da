//! A line of a log.

ghost use Rattle.std.specs.Prelude.{◌≡◌, ◌<◌, length, IfOk};
ghost use Rattle.plan_types.specs.Machines.{IsValidMachine};
ghost use Rattle.text_core.specs.Words.{words_of};
ghost use Rattle.log_text.specs.Names.{board_from, stepper_from};
ghost use Rattle.log_text.specs.Said as specs;
ghost use Rattle.log_text.specs.There.{IsThere};

use crate::head::{board_line, counts_line, drift_line, known, machine_line};
use crate::name::{board_named, stepper_named};
use crate::number::number;
use crate::section::section_line;
use plan_types::{Machine, MisfitKind, SectionKind};
use text_core::{is_end, next_word};

/// What a line of a log says. Boards and steppers are numbers of the machine's.
#[derive(Debug, Clone, Copy, PartialEq, Eq)]
pub enum LogLine {
    /// What changes nothing: the machine, the counts of a text.
    Note,
    /// The tick of a board at the beginning of a turn.
    Board {
        board: u8,
        turn: u64,
        tick: u64,
    },
    /// A further clock line of a board: the turn in which it was asked, its tick then, and the time in ns
    /// from which the line holds.
    Line {
        board: u8,
        turn: u64,
        tick: u64,
        from: u64,
    },
    /// A section begins.
    Section {
        section: u64,
        turn: u64,
        kind: SectionKind,
    },
    /// A pulse at a tick of its board.
    Pulse {
        stepper: u8,
        tick: u64,
        up: bool,
    },
    /// The switch of a homing section closed.
    Cut {
        section: u64,
    },
    /// The end.
    End,
}

/// Whether a direction is that towards greater coordinates.
fn is_up(word: &[u8]) -> Option<bool>
    ensures { result ≡ specs.is_up word.now }
{
    match word {
        [b'+'] => Some(true),
        [b'-'] => Some(false),
        _ => None,
    }
}

/// A pulse of a stepper on a board, where the machine has it.
fn pulse_told(
    machine: &Machine,
    board: &[u8],
    stepper: &[u8],
    tick: u64,
    up: bool,
) -> Result<LogLine, MisfitKind>
    requires { IsValidMachine machine.now }
    ensures value { result
        ≡ specs.pulse_told machine.now tick up (board_from 0 board.now machine.now.boards)
        (stepper_from 0 stepper.now machine.now.steppers) }
    ensures there { IfOk result (IsThere machine.now) }
{
    let Some(board) = board_named(machine.boards.as_slice(), board) else {
        return Err(MisfitKind::Unknown);
    };
    let Some(stepper) = stepper_named(machine.steppers.as_slice(), stepper) else {
        return Err(MisfitKind::Unknown);
    };
    if machine.steppers.as_slice()[stepper as usize].board == board {
        Ok(LogLine::Pulse { stepper, tick, up })
    } else {
        Err(MisfitKind::Unknown)
    }
}

/// What the line of a pulse says behind `pulse`.
fn pulse_line(machine: &Machine, text: &[u8]) -> Result<LogLine, MisfitKind>
    requires { IsValidMachine machine.now }
    ensures value { result ≡ specs.pulse_line machine.now (words_of text.now) }
    ensures there { IfOk result (IsThere machine.now) }
{
    let Some((board, rest)) = next_word(text) else {
        return Err(MisfitKind::BadLine);
    };
    let Some((stepper, rest)) = next_word(rest) else {
        return Err(MisfitKind::BadLine);
    };
    let Some((tick, rest)) = next_word(rest) else {
        return Err(MisfitKind::BadLine);
    };
    let Some((sign, rest)) = next_word(rest) else {
        return Err(MisfitKind::BadLine);
    };
    match (number(tick), is_up(sign)) {
        (Some(tick), Some(up)) if is_end(rest) => pulse_told(machine, board, stepper, tick, up),
        _ => Err(MisfitKind::BadLine),
    }
}

/// What the line of a cut says behind `cut`.
fn cut_line(machine: &Machine, text: &[u8]) -> Result<LogLine, MisfitKind>
    requires { IsValidMachine machine.now }
    ensures value { result ≡ specs.cut_line machine.now (words_of text.now) }
    ensures there { IfOk result (IsThere machine.now) }
{
    let Some((section, rest)) = next_word(text) else {
        return Err(MisfitKind::BadLine);
    };
    let Some((board, rest)) = next_word(rest) else {
        return Err(MisfitKind::BadLine);
    };
    let Some((_, rest)) = next_word(rest) else {
        return Err(MisfitKind::BadLine);
    };
    let Some((tick, rest)) = next_word(rest) else {
        return Err(MisfitKind::BadLine);
    };
    let Some((from, rest)) = next_word(rest) else {
        return Err(MisfitKind::BadLine);
    };
    match (number(section), number(tick), number(from)) {
        (Some(section), Some(_), Some(_)) if is_end(rest) => {
            known(machine, board, LogLine::Cut { section })
        }
        _ => Err(MisfitKind::BadLine),
    }
}

/// What the end line says behind `end`.
fn end_line(text: &[u8]) -> Result<LogLine, MisfitKind>
    ensures value { result ≡ specs.end_line (words_of text.now) }
    ensures end { IfOk result (λ said. said ≡ LogLine.End) }
{
    let Some((status, _)) = next_word(text) else {
        return Err(MisfitKind::BadLine);
    };
    match number(status) {
        Some(_) => Ok(LogLine::End),
        None => Err(MisfitKind::BadLine),
    }
}

/// What a line says behind its first word.
fn line_behind(machine: &Machine, word: &[u8], rest: &[u8]) -> Result<LogLine, MisfitKind>
    requires { IsValidMachine machine.now }
    ensures value { result ≡ specs.line_behind machine.now word.now (words_of rest.now) }
    ensures there { IfOk result (IsThere machine.now) }
{
    if word == b"pulse".as_slice() {
        pulse_line(machine, rest)
    } else if word == b"section".as_slice() {
        section_line(rest)
    } else if word == b"cut".as_slice() {
        cut_line(machine, rest)
    } else if word == b"board".as_slice() {
        board_line(machine, rest)
    } else if word == b"machine".as_slice() {
        machine_line(machine, rest)
    } else if word == b"line".as_slice() {
        drift_line(machine, rest)
    } else if word == b"lines".as_slice() {
        counts_line(rest)
    } else if word == b"end".as_slice() {
        end_line(rest)
    } else {
        Err(MisfitKind::BadLine)
    }
}

/// What the words of a line of a log say, by the names of a machine.
///
/// # Errors
///
/// `BadLine` for a line that is none of a report, before `Unknown` for a board or a stepper that the machine
/// doesn't have.
pub fn read_line(machine: &Machine, text: &[u8]) -> Result<LogLine, MisfitKind>
    requires { IsValidMachine machine.now }
    ensures value { result ≡ specs.line_said machine.now (words_of text.now) }
    ensures there { IfOk result (IsThere machine.now) }
{
    match next_word(text) {
        Some((word, rest)) => line_behind(machine, word, rest),
        None => Err(MisfitKind::BadLine),
    }
}
