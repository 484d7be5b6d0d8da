//! The lines of the machine, its boards and their further clock lines, and of the counts of a text.

ghost use Rattle.std.specs.Prelude.{◌≡◌, ◌==◌, ◌&&◌, ◌<◌, length, IfOk};
ghost use Rattle.plan_types.specs.Machines.{IsValidMachine};
ghost use Rattle.text_core.specs.Words.{words_of};
ghost use Rattle.log_text.specs.Names.{board_from};
ghost use Rattle.log_text.specs.Said as specs;
ghost use Rattle.log_text.specs.There.{IsThere};
ghost use Rattle.plan_types.specs.Clock.{run_turns};

use crate::line::LogLine;
use crate::name::board_named;
use crate::number::{is_turn, labelled, number};
use plan_types::{Machine, MisfitKind};
use text_core::{is_end, next_word};

/// Whether the kinematics of this name are CoreXY.
fn is_corexy(word: &[u8]) -> Option<bool>
    ensures { result ≡ specs.is_corexy word.now }
{
    if word == b"corexy".as_slice() {
        Some(true)
    } else if word == b"cartesian".as_slice() {
        Some(false)
    } else {
        None
    }
}

/// Whether a machine has these kinematics and so many boards and steppers.
fn is_machine(
    machine: &Machine,
    corexy: bool,
    boards: u64,
    steppers: u64,
) -> Result<LogLine, MisfitKind>
    ensures value { result
        ≡ specs.machine_if (specs.same corexy machine.now.corexy && (boards == length machine.now.boards)
        && (steppers == length machine.now.steppers)) }
    ensures there { IfOk result (IsThere machine.now) }
{
    if corexy == machine.corexy
        && boards == machine.boards.len() as u64
        && steppers == machine.steppers.len() as u64
    {
        Ok(LogLine::Note)
    } else {
        Err(MisfitKind::Unknown)
    }
}

/// What the line of a machine says behind `machine`.
pub fn machine_line(machine: &Machine, text: &[u8]) -> Result<LogLine, MisfitKind>
    ensures value { result ≡ specs.machine_line machine.now (words_of text.now) }
    ensures there { IfOk result (IsThere machine.now) }
{
    let Some((kind, rest)) = next_word(text) else {
        return Err(MisfitKind::BadLine);
    };
    let Some((boards, rest)) = labelled(b"boards", rest) else {
        return Err(MisfitKind::BadLine);
    };
    let Some(corexy) = is_corexy(kind) else {
        return Err(MisfitKind::BadLine);
    };
    let Some((steppers, rest)) = labelled(b"steppers", rest) else {
        return Err(MisfitKind::BadLine);
    };
    if is_end(rest) {
        is_machine(machine, corexy, boards, steppers)
    } else {
        Err(MisfitKind::BadLine)
    }
}

/// The line of a board of this name, where the machine has it.
fn board_told(
    machine: &Machine,
    name: &[u8],
    freq: u64,
    turn: u64,
    tick: u64,
) -> Result<LogLine, MisfitKind>
    requires machine { IsValidMachine machine.now }
    requires turn { turn < run_turns }
    ensures value { result ≡ specs.board_told machine.now freq turn tick (board_from 0 name.now machine.now.boards) }
    ensures there { IfOk result (IsThere machine.now) }
{
    let Some(board) = board_named(machine.boards.as_slice(), name) else {
        return Err(MisfitKind::Unknown);
    };
    if u64::from(machine.boards.as_slice()[board as usize].freq) == freq {
        Ok(LogLine::Board { board, turn, tick })
    } else {
        Err(MisfitKind::Unknown)
    }
}

/// What the line of a board says behind `board`.
pub fn board_line(machine: &Machine, text: &[u8]) -> Result<LogLine, MisfitKind>
    requires { IsValidMachine machine.now }
    ensures value { result ≡ specs.board_line machine.now (words_of text.now) }
    ensures there { IfOk result (IsThere machine.now) }
{
    let Some((name, rest)) = next_word(text) else {
        return Err(MisfitKind::BadLine);
    };
    let Some((freq, rest)) = labelled(b"freq", rest) else {
        return Err(MisfitKind::BadLine);
    };
    let Some((turn, rest)) = labelled(b"turn", rest) else {
        return Err(MisfitKind::BadLine);
    };
    let Some((tick, rest)) = labelled(b"tick", rest) else {
        return Err(MisfitKind::BadLine);
    };
    if is_end(rest) && is_turn(turn) {
        board_told(machine, name, freq, turn, tick)
    } else {
        Err(MisfitKind::BadLine)
    }
}

/// A line, where the machine has a board of this name.
pub fn known(machine: &Machine, name: &[u8], line: LogLine) -> Result<LogLine, MisfitKind>
    requires { IsValidMachine machine.now }
    ensures value { result ≡ specs.board_said (board_from 0 name.now machine.now.boards) line }
    ensures line { IfOk result (λ said. said ≡ line) }
{
    match board_named(machine.boards.as_slice(), name) {
        Some(_) => Ok(line),
        None => Err(MisfitKind::Unknown),
    }
}

/// A further clock line of a board, where the machine has it.
fn drift_told(
    machine: &Machine,
    name: &[u8],
    turn: u64,
    tick: u64,
    from: u64,
) -> Result<LogLine, MisfitKind>
    requires { IsValidMachine machine.now }
    ensures value { result ≡ specs.drift_told turn tick from (board_from 0 name.now machine.now.boards) }
    ensures there { IfOk result (IsThere machine.now) }
{
    match board_named(machine.boards.as_slice(), name) {
        Some(board) => Ok(LogLine::Line {
            board,
            turn,
            tick,
            from,
        }),
        None => Err(MisfitKind::Unknown),
    }
}

/// What a further clock line says behind `line`.
pub fn drift_line(machine: &Machine, text: &[u8]) -> Result<LogLine, MisfitKind>
    requires { IsValidMachine machine.now }
    ensures value { result ≡ specs.drift_line machine.now (words_of text.now) }
    ensures there { IfOk result (IsThere machine.now) }
{
    let Some((board, rest)) = next_word(text) else {
        return Err(MisfitKind::BadLine);
    };
    let Some((turn, rest)) = labelled(b"turn", rest) else {
        return Err(MisfitKind::BadLine);
    };
    let Some((tick, rest)) = labelled(b"tick", rest) else {
        return Err(MisfitKind::BadLine);
    };
    let Some((from, rest)) = labelled(b"from", rest) else {
        return Err(MisfitKind::BadLine);
    };
    if is_end(rest) {
        drift_told(machine, board, turn, tick, from)
    } else {
        Err(MisfitKind::BadLine)
    }
}

/// What the line of a text's counts says behind `lines`.
pub fn counts_line(text: &[u8]) -> Result<LogLine, MisfitKind>
    ensures value { result ≡ specs.counts_line (words_of text.now) }
    ensures note { IfOk result (λ said. said ≡ LogLine.Note) }
{
    let Some((accepted, rest)) = next_word(text) else {
        return Err(MisfitKind::BadLine);
    };
    if number(accepted).is_none() {
        return Err(MisfitKind::BadLine);
    }
    let Some((_, rest)) = labelled(b"passed", rest) else {
        return Err(MisfitKind::BadLine);
    };
    if is_end(rest) {
        Ok(LogLine::Note)
    } else {
        Err(MisfitKind::BadLine)
    }
}
