//! What the bytes of a trace hold.

ghost use Rattle.std.specs.Prelude.{◌≡◌, ℕ, ◌%◌, ◌<◌, ◌≤◌, ◌++◌, length, drop, OnOk, IfOk, ◌≢◌};
ghost use Rattle.frame_dump.specs.Things.{HasNumber, taken_behind};
ghost use Rattle.frame_dump.specs.Dumps.{AddsLines, AreContent, IsBlockIn, IsDump, Shows, end_behind, open_lines};
ghost use Rattle.frame_dump.specs.Sofar.{ListsLine};
ghost use Rattle.block_frame.specs.declared.Found.TheVariants.{NeedMore};

use crate::line::DumpLine;
use crate::trace::{Trace, TraceTurn};
use block_frame::{Found, Scanner, scan};
use link_core::BoardEnd;
use msg_code::decode;
use msg_dict::Dict;
use std::alloc::{AllocError, Global};

/// Adds the lines of a block's content: its commands, and what is left where none can be read.
fn list_content(d: &Dict, content: &[u8], lines: &mut Vec<DumpLine>) -> Result<(), AllocError>
    ensures { OnOk result (AddsLines (AreContent d.now.formats content.now) lines.old.items lines.new.items) }
{
    if content.is_empty() {
        return Ok(());
    }
    match decode(d, content) {
        Ok((command, len)) => {
            lines.push(DumpLine::Command { command })?;
            list_content(d, &content[len..], lines)?;
            Ok(())
        }
        Err(kind) => {
            lines.push(DumpLine::Rest {
                bytes: content.len() as u64,
                kind,
            })?;
            Ok(())
        }
    }
}

/// Adds the lines of a block, and notes whether it is taken.
fn list_block(
    d: &Dict,
    end: &mut BoardEnd,
    turn: u64,
    number: u8,
    content: &[u8],
    lines: &mut Vec<DumpLine>,
) -> Result<(), AllocError>
    requires { number < 16 }
    ensures lines { OnOk result
        (AddsLines (IsBlockIn d.now.formats turn number end.old content.now) lines.old.items lines.new.items) }
    ensures end { OnOk result (end.new ≡ end_behind end.old number) }
{
    let taken = end.arrive(number).accepted;
    lines.push(DumpLine::Block {
        turn,
        number,
        taken,
    })?;
    list_content(d, content, lines)
}

/// Adds the lines of what is found in a turn.
fn list_found(
    d: &Dict,
    end: &mut BoardEnd,
    turn: u64,
    found: &Found,
    count: usize,
    lines: &mut Vec<DumpLine>,
) -> Result<(), AllocError>
    requires number { HasNumber found.now }
    requires found { found.now ≢ NeedMore }
    ensures shows { OnOk result ((taken : ℕ) → end.old ≡ taken % 16 →
        AddsLines (Shows d.now.formats taken turn found.now count) lines.old.items lines.new.items) }
    ensures number { OnOk result ((taken : ℕ) → end.old ≡ taken % 16 → end.new ≡ taken_behind taken found.now % 16) }
{
    match found {
        Found::Block { number, content } => {
            list_block(d, end, turn, *number, content.as_slice(), lines)?;
        }
        Found::Skip => lines.push(DumpLine::Skip { turn })?,
        Found::Bad => lines.push(DumpLine::Bad {
            turn,
            bytes: count as u64,
        })?,
        Found::NeedMore => {}
    }
    Ok(())
}

/// Adds the lines of all that stands in the bytes of a turn, and says how many of them that took.
fn list_line(
    d: &Dict,
    end: &mut BoardEnd,
    scanner: &mut Scanner,
    turn: u64,
    bytes: &[u8],
    lines: &mut Vec<DumpLine>,
) -> Result<usize, AllocError>
    ensures within { IfOk result (λ count. count ≤ length bytes.now) }
    ensures lists { IfOk result (λ count. (taken : ℕ) → end.old ≡ taken % 16 →
        ListsLine d.now.formats turn taken scanner.old bytes.now lines.old.items (drop count bytes.now) scanner.new
        end.new lines.new.items) }
{
    let mut at = 0;
    loop {
        let (found, count) = scan(scanner, &bytes[at..]);
        if let Found::NeedMore = found {
            return Ok(at);
        }
        list_found(d, end, turn, &found, count, lines)?;
        at += count;
    }
}

/// A trace while it is listed: the board's end of the line, the scanner, and the bytes that wait.
#[derive(Drop)]
struct Reader {
    end: BoardEnd,
    scanner: Scanner,
    waiting: Vec<u8>,
}

/// Adds the lines of a turn.
fn list_turn(
    d: &Dict,
    reader: &mut Reader,
    turn: &TraceTurn,
    lines: &mut Vec<DumpLine>,
) -> Result<(), AllocError>
    ensures { OnOk result ((taken : ℕ) → reader.old.end ≡ taken % 16 →
        ListsLine d.now.formats turn.now.turn taken reader.old.scanner (reader.old.waiting.items ++ turn.now.bytes)
        lines.old.items reader.new.waiting.items reader.new.scanner reader.new.end lines.new.items) }
{
    reader.waiting.extend_from_slice(turn.bytes.as_slice())?;
    let count = list_line(
        d,
        &mut reader.end,
        &mut reader.scanner,
        turn.turn,
        reader.waiting.as_slice(),
        lines,
    )?;
    drop(reader.waiting.drain(..count));
    Ok(())
}

/// Adds the line of the bytes that wait in the end, where there are some.
fn list_open(waiting: &[u8], lines: &mut Vec<DumpLine>) -> Result<(), AllocError>
    ensures { OnOk result (lines.new.items ≡ lines.old.items ++ open_lines waiting.now) }
{
    if let [_, ..] = waiting {
        lines.push(DumpLine::Open {
            bytes: waiting.len() as u64,
        })?;
    }
    Ok(())
}

/// What the bytes of a trace hold, line by line: the blocks with their commands, what is no block, and what
/// waits in the end.
pub fn dump(alloc: Global, d: &Dict, trace: &Trace) -> Result<Vec<DumpLine>, AllocError>
    ensures { IfOk result (λ lines. IsDump d.now.formats trace.now lines.items) }
{
    let mut lines = Vec::new(alloc);
    let mut reader = Reader {
        end: BoardEnd::new(),
        scanner: Scanner::new(),
        waiting: Vec::new(alloc),
    };
    let mut rest = trace.turns();
    while let [turn, others @ ..] = rest {
        list_turn(d, &mut reader, turn, &mut lines)?;
        rest = others;
    }
    list_open(reader.waiting.as_slice(), &mut lines)?;
    Ok(lines)
}
