//! The reading of a trace.

ghost use Rattle.std.specs.Prelude.{◌≡◌, ◌+◌, ◌<◌, ◌≤◌, ◌^◌, ◌++◌, ◌∷◌, [], List, ℕ, Ok, Some, None, codes, IfNone, IfSome, IfOk, IfErr, OnOk, length, true, false};
ghost use Rattle.plan_types.specs.Numbers.{is_above};
ghost use Rattle.text_core.specs.Lines.{lines_of};
ghost use Rattle.text_core.specs.Words.{words_of, worded_lines};
ghost use Rattle.frame_dump.specs.Traces.{AnswersTrace, AnswersTurns, AreTurns, turns_from, IsFaultAt, byte_of, content_of, hex_bytes, hex_value, trace_of_text, rising, turn_number, trace_turn};

use crate::fault::TraceFault;
use crate::trace::{Trace, TraceTurn};
use plan_types::{Listed, TraceKind};
use std::alloc::{AllocError, Global};
use text_core::{WordedLine, is_digit, natural, next_line, next_word, to_capital};

/// The most bytes that a trace has.
const LIMIT: usize = 16_777_216;

/// The greatest number of a turn.
const LAST_TURN: u64 = 1_000_000_000;

/// The most hexadecimal digits of a turn.
const MOST_DIGITS: usize = 2_048;

/// What begins a comment.
const COMMENT: u8 = b'#';

/// The value of a hexadecimal digit.
fn hex_value(byte: u8) -> Option<u8>
    ensures value { result ≡ hex_value byte }
    ensures small { IfSome result (λ value. value < 16) }
{
    if is_digit(byte) {
        return Some(byte - b'0');
    }
    let letter = to_capital(byte);
    if b'A' <= letter && letter <= b'F' {
        return Some(letter - 55);
    }
    None
}

/// The byte of two hexadecimal digits.
fn byte_of(high: u8, low: u8) -> Option<u8>
    ensures { result ≡ byte_of (hex_value high) (hex_value low) }
{
    let high = hex_value(high)?;
    let low = hex_value(low)?;
    Some(16 * high + low)
}

/// Adds the bytes that pairs of digits spell. Answers whether they are pairs of digits.
fn push_bytes(into: &mut Vec<u8>, digits: &[u8]) -> Result<bool, AllocError>
    ensures bytes { IfOk result (λ are. are ≡ true →
        (bytes : List ℕ) × (hex_bytes digits.now ≡ Some bytes) × (into.new.items ≡ into.old.items ++ bytes)) }
    ensures none { IfOk result (λ are. are ≡ false → hex_bytes digits.now ≡ None) }
{
    let mut rest = digits;
    while let [high, low, others @ ..] = rest {
        let Some(byte) = byte_of(*high, *low) else {
            return Ok(false);
        };
        into.push(byte)?;
        rest = others;
    }
    Ok(rest.is_empty())
}

/// The bytes of a turn.
fn content_of(alloc: Global, digits: &[u8]) -> Result<Option<Vec<u8>>, AllocError>
    ensures some { IfOk result (λ found. IfSome found (λ bytes. content_of digits.now ≡ Some bytes.items)) }
    ensures none { IfOk result (λ found. IfNone found (content_of digits.now ≡ None)) }
{
    if digits.len() < 2 || digits.len() > MOST_DIGITS {
        return Ok(None);
    }
    let mut bytes = Vec::new(alloc);
    if push_bytes(&mut bytes, digits)? {
        Ok(Some(bytes))
    } else {
        Ok(None)
    }
}

/// The number of a turn.
fn turn_number(word: &[u8]) -> Option<u64>
    ensures value { result ≡ turn_number word.now }
    ensures small { IfSome result (λ turn. turn ≤ 1000000000) }
{
    let turn = natural(word)?;
    if turn <= LAST_TURN { Some(turn) } else { None }
}

/// The number and the digits of a line whose words are `turn` and these two.
fn operands(words: &[u8]) -> Option<(&[u8], &[u8])>
    ensures some { IfSome result (λ found. words_of words.now ≡ codes "turn" ∷ found.0.now ∷ found.1.now ∷ []) }
    ensures none { IfNone result (trace_turn (words_of words.now) ≡ None) }
{
    let (word, rest) = next_word(words)?;
    if word != b"turn".as_slice() {
        return None;
    }
    let (number, rest) = next_word(rest)?;
    let (digits, rest) = next_word(rest)?;
    if next_word(rest).is_some() {
        return None;
    }
    Some((number, digits))
}

/// What the words of a line say.
fn turn_of(alloc: Global, words: &[u8]) -> Result<Option<TraceTurn>, AllocError>
    ensures some { IfOk result (λ found. IfSome found (λ t. trace_turn (words_of words.now) ≡ Some t)) }
    ensures none { IfOk result (λ found. IfNone found (trace_turn (words_of words.now) ≡ None)) }
    ensures small { IfOk result (λ found. IfSome found (λ t. t.turn ≤ 1000000000)) }
{
    let Some((number, digits)) = operands(words) else {
        return Ok(None);
    };
    let Some(turn) = turn_number(number) else {
        return Ok(None);
    };
    match content_of(alloc, digits)? {
        Some(bytes) => Ok(Some(TraceTurn {
            turn,
            bytes: Listed::of(bytes),
        })),
        None => Ok(None),
    }
}

/// Whether a number is above the last one.
fn is_above(number: u64, last: Option<u64>) -> bool
    ensures { result ≡ is_above number last }
{
    match last {
        Some(last) => last < number,
        None => true,
    }
}

/// The turn of a line behind the last one.
fn read_turn(alloc: Global, line: &WordedLine, last: Option<u64>) -> Result<TraceTurn, TraceFault>
    ensures turn { IfOk result (λ t. rising last (trace_turn (words_of line.now.words.now)) ≡ Ok t) }
    ensures small { IfOk result (λ t. t.turn ≤ 1000000000) }
    ensures above { IfOk result (λ t. is_above t.turn last ≡ true) }
    ensures fault { IfErr result (IsFaultAt line.now.number (rising last (trace_turn (words_of line.now.words.now)))) }
{
    let Some(turn) = turn_of(alloc, line.words)? else {
        return Err(TraceFault::At {
            line: line.number,
            kind: TraceKind::BadLine,
        });
    };
    if is_above(turn.turn, last) {
        Ok(turn)
    } else {
        Err(TraceFault::At {
            line: line.number,
            kind: TraceKind::NotRising,
        })
    }
}

/// Adds a turn.
fn keep(turns: &mut Vec<TraceTurn>, turn: TraceTurn) -> Result<(), AllocError>
    ensures { OnOk result (turns.new.items ≡ turns.old.items ++ turn ∷ []) }
{
    turns.push(turn)?;
    Ok(())
}

/// Reads the turns of a text.
fn read_turns(alloc: Global, text: &[u8]) -> Result<Vec<TraceTurn>, TraceFault>
    requires { length text.now < 2 ^ 32 }
    ensures answer { AnswersTurns result (turns_from None (worded_lines 35 1 (lines_of text.now))) }
    ensures rise { IfOk result (λ turns. AreTurns 0 turns.items) }
{
    let mut turns = Vec::new(alloc);
    let mut last = None;
    let mut number = 1;
    let mut rest = text;
    while let Some(line) = next_line(rest, number, COMMENT) {
        let turn = read_turn(alloc, &line, last)?;
        last = Some(turn.turn);
        keep(&mut turns, turn)?;
        number = line.number + 1;
        rest = line.rest;
    }
    Ok(turns)
}

/// Reads a trace: its turns, or its first fault. A line is `turn K HEX`, a comment behind `#`, or blank.
///
/// # Errors
///
/// The first fault: `TooLarge` above 16,777,216 bytes, at line 0, before the others; then line by line `BadLine` before
/// `NotRising`. `Memory` where memory is wanted.
#[tactic(auto, unfolding(crate::specs::Traces::trace_of_text))]
pub fn read_trace(alloc: Global, text: &[u8]) -> Result<Trace, TraceFault>
    ensures answer { AnswersTrace result (trace_of_text text.now) }
{
    if text.len() > LIMIT {
        return Err(TraceFault::At {
            line: 0,
            kind: TraceKind::TooLarge,
        });
    }
    let turns = read_turns(alloc, text)?;
    Ok(Trace::of(turns))
}
