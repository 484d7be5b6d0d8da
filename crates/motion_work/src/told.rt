//! What words tell of the boards' clocks.

ghost use Rattle.std.specs.Prelude.{◌≡◌, ℕ, ◌+◌, ◌*◌, ◌<◌, ◌≤◌, ◌^◌, ◌++◌, List, [], ◌∷◌, Option, Some, None, IfOk, OnOk, length, map, max, IfSome, IfNone, MatchOption};
ghost use Rattle.plan_types.specs.Sections.{first_start};
ghost use Rattle.plan_types.specs.Lines.{one_line};
ghost use Rattle.plan_types.specs.Machines.{IsValidBoard, IsValidMachine};
ghost use Rattle.plan_types.specs.Valid.{IsValidLine};
ghost use Rattle.motion_work.specs.Told.{are_fit, is_fit, lines_in, clocks_in_news, told_in, told_of};
ghost use Rattle.std.specs.Prelude.{All, true};

use crate::OutOfMemory;
use clock_line::Lines;
use msg_code::{WordMsg, WordNews};
use plan_types::{BoardDef, Line, Machine};
use std::alloc::Global;

/// The nanoseconds of a turn.
const TURN_NS: u128 = 1_000_000;

/// The turns between the end of connecting, or of a section, and the start of the next.
const BETWEEN: u64 = 260;

/// The first turn in which a section may start.
const FIRST_START: u64 = 1_260;

/// No run has this turn.
const LAST_TURN: u64 = 1 << 61;

/// Whether a board may have this line when connecting ended in a turn.
fn is_fit(board: &BoardDef, turn: u64, line: &Line) -> bool
    ensures { result ≡ is_fit board.now turn line.now }
{
    line.freq == board.freq && line.at <= u128::from(turn) * TURN_NS && line.at % 1_000_000 == 0
}

/// Whether these are lines that the boards may have.
fn are_fit(boards: &[BoardDef], turn: u64, lines: &[Line]) -> bool
    ensures { result ≡ are_fit boards.now turn lines.now }
{
    if boards.len() != lines.len() {
        return false;
    }
    for b in 0..boards.len() {
        if !is_fit(&boards[b], turn, &lines[b]) {
            return false;
        }
    }
    true
}

/// The clock lines of boards of which each has one.
fn lines_of(
    alloc: Global,
    boards: &[BoardDef],
    turn: u64,
    lines: &[Line],
) -> Result<Vec<Lines>, OutOfMemory>
    requires fit { are_fit boards.now turn lines.now ≡ true }
    requires boards { All IsValidBoard boards.now }
    requires small { turn < 2 ^ 61 }
    ensures { IfOk result (λ made. made.items ≡ map one_line lines.now) }
{
    let _ = boards;
    let mut made = Vec::new(alloc);
    for line in lines {
        made.push(Lines::new(alloc, *line))?;
    }
    Ok(made)
}

/// The clock lines that a piece of news tells.
fn told_by(
    alloc: Global,
    machine: &Machine,
    turn: u64,
    news: &WordNews,
) -> Result<Option<Vec<Lines>>, OutOfMemory>
    requires machine { IsValidMachine machine.now }
    requires small { turn < 2 ^ 61 }
    ensures { IfOk result (λ told. MatchOption told (clocks_in_news machine.now turn news.now ≡ None)
        (λ lines. clocks_in_news machine.now turn news.now ≡ Some lines.items)) }
{
    match news {
        WordNews::Lines(lines) => {
            if !are_fit(machine.boards.as_slice(), turn, lines.as_slice()) {
                return Ok(None);
            }
            let made = lines_of(alloc, machine.boards.as_slice(), turn, lines.as_slice())?;
            Ok(Some(made))
        }
        _ => Ok(None),
    }
}

/// The first clock lines that some news tell.
fn told_in(
    alloc: Global,
    machine: &Machine,
    turn: u64,
    news: &[WordNews],
) -> Result<Option<Vec<Lines>>, OutOfMemory>
    requires machine { IsValidMachine machine.now }
    requires small { turn < 2 ^ 61 }
    ensures { IfOk result (λ told. MatchOption told (told_in machine.now turn news.now ≡ None)
        (λ lines. told_in machine.now turn news.now ≡ Some lines.items)) }
{
    for one in news {
        let told = told_by(alloc, machine, turn, one)?;
        if let Some(lines) = told {
            return Ok(Some(lines));
        }
    }
    Ok(None)
}

/// The clock lines that a word tells.
pub fn told_of(
    alloc: Global,
    machine: &Machine,
    word: &WordMsg,
) -> Result<Option<Vec<Lines>>, OutOfMemory>
    requires { IsValidMachine machine.now }
    ensures { IfOk result (λ told. MatchOption told (told_of machine.now word.now ≡ None)
        (λ lines. told_of machine.now word.now ≡ Some lines.items)) }
{
    if word.turn >= LAST_TURN {
        return Ok(None);
    }
    told_in(alloc, machine, word.turn, word.news.as_slice())
}

/// The first turn in which a section may start, where connecting ended in a turn.
pub fn first_start(turn: u64) -> u64
    requires { turn ≤ 2 ^ 61 }
    ensures { result ≡ first_start turn }
{
    FIRST_START.max(turn + BETWEEN)
}

/// A further clock line of a board, by the board's number.
#[derive(Clone, Copy)]
pub struct BoardLine {
    pub board: u8,
    pub line: Line,
}

/// Adds the further clock line that a piece of news tells, if it tells one.
fn add_line(news: &WordNews, lines: &mut Vec<BoardLine>) -> Result<(), OutOfMemory>
    ensures { OnOk result (lines.new.items ≡ lines.old.items ++ lines_in (news.now ∷ [])) }
{
    if let WordNews::Line { board, line } = news {
        lines.push(BoardLine {
            board: *board,
            line: *line,
        })?;
    }
    Ok(())
}

/// Adds the further clock lines that some news tell.
pub fn add_lines(news: &[WordNews], lines: &mut Vec<BoardLine>) -> Result<(), OutOfMemory>
    ensures { OnOk result (lines.new.items ≡ lines.old.items ++ lines_in news.now) }
{
    match news {
        [] => {}
        [first, rest @ ..] => {
            add_line(first, lines)?;
            add_lines(rest, lines)?;
        }
    }
    Ok(())
}
