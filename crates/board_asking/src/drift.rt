//! Boards whose clocks drift.

ghost use Rattle.std.specs.Prelude.{◌≡◌, ◌+◌, ◌*◌, ◌<◌, ◌≤◌, ◌^◌, ◌++◌, length, All, OnOk, IfOk};
ghost use Rattle.arrayvec.specs.ArrayVec.{array_vec_len};
ghost use Rattle.plan_types.specs.Machines.{IsValidMachine, board_at};
ghost use Rattle.board_asking.specs.Kept.{IsEarly};
ghost use Rattle.board_asking.specs.Drift.{drifts, is_unanswered, gives_up, stale, is_asked_now, waits_in, waiting, bytes_of, asks_now, clock_question, after_question, new_line, new_lines};

use crate::OutOfMemory;
use crate::asking::{Asking, more};
use crate::connecting::board_line;
use arrayvec::ArrayVec;
use msg_code::{Cmd, WordNews, command_bytes};
use plan_types::{Cause, Listed, Machine};

/// Whether the clock of a board drifts.
fn is_drifting(m: &Machine, board: u8) -> bool
    ensures { result ≡ drifts (board_at m.now board).drift }
{
    match m.boards.as_slice().get(board as usize) {
        None => false,
        Some(board) => board.drift != 0,
    }
}

/// Whether four turns passed without an answer that counts.
fn is_unanswered(k: u64, since: Option<u64>) -> bool
    ensures { result ≡ is_unanswered k since }
{
    match since {
        None => false,
        Some(since) => k.saturating_sub(since) == 4,
    }
}

/// The end of the least board, from a board on, of which 200 askings in a row are unanswered.
pub fn stale(k: u64, board: u8, askings: &[Asking]) -> Option<Cause>
    requires { board + length askings.now ≤ 255 }
    ensures { result ≡ stale k board askings.now }
{
    match askings {
        [] => None,
        [first, rest @ ..] => {
            if is_unanswered(k, first.since) && first.missed >= 199 {
                Some(Cause::Stale {
                    board,
                    turn: first.first,
                })
            } else {
                stale(k, board + 1, rest)
            }
        }
    }
}

/// An asking that waits where the board is to be asked in turn k.
fn waits_in(drifting: bool, k: u64, a: Asking) -> Asking
    requires { IsEarly a }
    ensures value { result ≡ waits_in drifting k a }
    ensures early { IsEarly result }
{
    if is_unanswered(k, a.since) {
        Asking {
            missed: more(a.missed),
            waits: true,
            ..a
        }
    } else if drifting && a.since.is_none() && k % 1_000 == 0 {
        Asking { waits: true, ..a }
    } else {
        a
    }
}

/// Adds the askings from a board on.
fn put_waiting(m: &Machine, k: u64, board: u8, askings: &[Asking], out: &mut ArrayVec<Asking, 8>)
    requires boards { board + length askings.now ≤ 255 }
    requires room { array_vec_len out.old + length askings.now ≤ 8 }
    requires early { All IsEarly askings.now }
    requires before { All IsEarly out.old.items }
    ensures items { out.new.items ≡ out.old.items ++ waiting m.now k board askings.now }
    ensures count { array_vec_len out.new ≡ array_vec_len out.old + length askings.now }
    ensures early { All IsEarly out.new.items }
{
    match askings {
        [] => {}
        [first, rest @ ..] => {
            out.push(waits_in(is_drifting(m, board), k, *first));
            put_waiting(m, k, board + 1, rest, out);
        }
    }
}

/// The askings, of which those wait whose boards are to be asked in turn k.
pub fn waiting(m: &Machine, k: u64, askings: &[Asking]) -> ArrayVec<Asking, 8>
    requires few { length askings.now ≤ 8 }
    requires early { All IsEarly askings.now }
    ensures items { result.items ≡ waiting m.now k 0 askings.now }
    ensures count { array_vec_len result ≡ length askings.now }
    ensures early { All IsEarly result.items }
{
    let mut out = ArrayVec::new();
    put_waiting(m, k, 0, askings, &mut out);
    out
}

/// The bytes of some commands.
fn bytes_of(commands: &[Cmd]) -> usize
    requires { length commands.now ≤ 64 }
    ensures value { result ≡ bytes_of commands.now }
    ensures most { result ≤ 400 * length commands.now }
{
    match commands {
        [] => 0,
        [first, rest @ ..] => command_bytes(first) + bytes_of(rest),
    }
}

/// Adds the asking for a board's clock, where it waits and the commands before it leave room, and answers the asking
/// behind it.
pub fn ask_clock(k: u64, a: Asking, commands: &mut Listed<Cmd>) -> Result<Asking, OutOfMemory>
    requires few { length commands.old ≤ 64 }
    requires early { IsEarly a }
    ensures commands { OnOk result (commands.new ≡ commands.old ++ clock_question commands.old a) }
    ensures asking { IfOk result (λ b. b ≡ after_question k commands.old a) }
    ensures early { IfOk result IsEarly }
{
    if !a.waits || bytes_of(commands.as_slice()) >= 42 {
        return Ok(a);
    }
    commands.push(Cmd::GetUptime)?;
    Ok(Asking {
        since: Some(k),
        first: if a.missed == 0 { k } else { a.first },
        owed: more(a.owed),
        waits: false,
        ..a
    })
}

/// Adds the further lines of the boards, from a board on, whose askings were answered.
pub fn put_new_lines(
    m: &Machine,
    board: u8,
    before: &[Asking],
    after: &[Asking],
    out: &mut Listed<WordNews>,
) -> Result<(), OutOfMemory>
    requires valid { IsValidMachine m.now }
    requires boards { board + length before.now ≤ 255 }
    requires early { All IsEarly after.now }
    ensures { OnOk result (out.new ≡ out.old ++ new_lines m.now board before.now after.now) }
{
    match before {
        [] => {}
        [first, rest @ ..] => match after {
            [] => {}
            [second, others @ ..] => {
                if first.since.is_some() && second.since.is_none() {
                    out.push(WordNews::Line {
                        board,
                        line: board_line(m, board, second),
                    })?;
                }
                put_new_lines(m, board + 1, rest, others, out)?;
            }
        },
    }
    Ok(())
}
