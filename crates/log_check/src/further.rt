//! The further clock lines of a log.

ghost use Rattle.std.specs.Prelude.{◌≡◌, ◌==◌, ◌<◌, ◌^◌, ◌++◌, [], All, IfOk, IfSome, OnOk, length};
ghost use Rattle.log_text.specs.Said.{line_said};
ghost use Rattle.plan_types.specs.Lines.{one_line};
ghost use Rattle.plan_types.specs.Machines.{IsValidMachine};
ghost use Rattle.plan_types.specs.Valid.{IsValidLine};
ghost use Rattle.text_core.specs.Bytes.{begins};
ghost use Rattle.text_core.specs.Words.{line_words, words_of};
ghost use Rattle.log_check.specs.Behind as specs;
ghost use Rattle.log_check.specs.Behind.{further_said, told_line, with_further, with_one};
ghost use Rattle.log_check.specs.Verdicts.{worded};

use clock_line::Lines;
use log_text::{LogLine, read_line};
use plan_types::{Line, Machine};
use std::alloc::{AllocError, Global};
use text_core::{cut, first_line, next_word, without_return};

/// What begins a comment.
const COMMENT: u8 = b'#';

/// The nanoseconds of a turn.
const TURN_NS: u128 = 1_000_000;

/// A further clock line of a board: the turn in which it was asked, its tick then, and the time in ns from
/// which the line holds.
#[derive(Debug, Clone, Copy, PartialEq, Eq)]
pub struct Further {
    pub board: u8,
    pub turn: u64,
    pub tick: u64,
    pub from: u64,
}

/// The clock line of a board that told its tick at the beginning of a turn.
pub fn told_line(machine: &Machine, board: u8, turn: u64, tick: u64) -> Line
    requires { board < length machine.now.boards }
    ensures { result ≡ told_line machine.now board turn tick }
{
    Line {
        at: u128::from(turn) * TURN_NS,
        clock: tick,
        freq: machine.boards.as_slice()[board as usize].freq,
    }
}

/// The further clock line that the words of a line say, where it is one.
fn further_of(machine: &Machine, words: &[u8]) -> Option<Further>
    requires { IsValidMachine machine.now }
    ensures value { result ≡ specs.further_of (line_said machine.now (words_of words.now)) }
    ensures early { IfSome result (λ f. f.from < 2 ^ 64) }
{
    let (word, _) = next_word(words)?;
    if word != b"line".as_slice() {
        return None;
    }
    match read_line(machine, words) {
        Ok(
            LogLine::Line {
                board,
                turn,
                tick,
                from,
            },
        ) => Some(Further {
            board,
            turn,
            tick,
            from,
        }),
        _ => None,
    }
}

/// Adds the further clock line that a line says.
fn push_further(machine: &Machine, words: &[u8], found: &mut Vec<Further>) -> Result<(), AllocError>
    requires machine { IsValidMachine machine.now }
    requires early { All (λ f. f.from < 2 ^ 64) found.old.items }
    ensures value { OnOk result (found.new.items
        ≡ found.old.items ++ with_one (specs.further_of (line_said machine.now (words_of words.now))) []) }
    ensures early { OnOk result (All (λ f. f.from < 2 ^ 64) found.new.items) }
{
    if let Some(further) = further_of(machine, words) {
        found.push(further)?;
    }
    Ok(())
}

/// Whether a line begins as that of a pulse does. It says no further clock line then, and needs no second look.
fn is_pulse(line: &[u8]) -> bool
    ensures { result ≡ begins (λ b. b == 112) line.now }
{
    match line {
        [first, ..] => *first == b'p',
        [] => false,
    }
}

/// Adds the further clock line that a line of a log says.
fn look_at(machine: &Machine, line: &[u8], found: &mut Vec<Further>) -> Result<(), AllocError>
    requires machine { IsValidMachine machine.now }
    requires early { All (λ f. f.from < 2 ^ 64) found.old.items }
    ensures value { OnOk result (found.new.items
        ≡ found.old.items ++ with_one (specs.further_of (line_said machine.now (line_words 35 line.now))) []) }
    ensures early { OnOk result (All (λ f. f.from < 2 ^ 64) found.new.items) }
{
    if is_pulse(line) {
        return Ok(());
    }
    push_further(machine, cut(without_return(line), COMMENT), found)
}

/// The further clock lines that the text of a log says, in order.
pub fn read_further(
    alloc: Global,
    machine: &Machine,
    text: &[u8],
) -> Result<Vec<Further>, AllocError>
    requires { IsValidMachine machine.now }
    ensures value { IfOk result (λ found. found.items ≡ further_said machine.now (worded text.now)) }
    ensures early { IfOk result (λ found. All (λ f. f.from < 2 ^ 64) found.items) }
{
    let mut found = Vec::new(alloc);
    let mut rest = text;
    while !rest.is_empty() {
        let (line, others) = first_line(rest);
        look_at(machine, line, &mut found)?;
        rest = others;
    }
    Ok(found)
}

/// The clock lines of a board that told its first one, with its further ones behind it.
pub fn lines_with(
    alloc: Global,
    machine: &Machine,
    further: &[Further],
    board: u8,
    first: Line,
) -> Result<Lines, AllocError>
    requires there { board < length machine.now.boards }
    requires valid { IsValidLine first }
    ensures { IfOk result (λ lines. lines ≡ with_further machine.now board further.now (one_line first)) }
{
    let mut lines = Lines::new(alloc, first);
    let mut rest = further;
    while let [next, others @ ..] = rest {
        if next.board == board {
            let line = told_line(machine, board, next.turn, next.tick);
            lines.add_where(u128::from(next.from), line)?;
        }
        rest = others;
    }
    Ok(lines)
}
