//! Connecting: every board is asked until its configuration is complete.

ghost use Rattle.std.specs.Prelude.{◌≡◌, ◌+◌, ◌<◌, ◌≤◌, ◌^◌, ◌++◌, [], ◌∷◌, false, length, map, All, OnOk, IfOk};
ghost use Rattle.plan_types.specs.Sections.{first_start};
ghost use Rattle.arrayvec.specs.ArrayVec.{array_vec_len};
ghost use Rattle.plan_types.specs.Machines.{board_at};
ghost use Rattle.plan_types.specs.Valid.{IsValidLine};
ghost use Rattle.plan_types.specs.Machines.{IsValidMachine, IsValidFreq};
ghost use Rattle.board_asking.specs.Kept.{IsEarly, IsSampleEarly};
ghost use Rattle.board_asking.specs.Machine.{configuration};
ghost use Rattle.board_asking.specs.Asking.{asks, is_connected};
ghost use Rattle.board_asking.specs.Connecting.{listen_all, ready_all, giving_up, all_connected, control, asking_controls, ask_all, sample_or_none, board_line, board_lines, one_line_clocks, turn_tick, connected_lines};

use crate::OutOfMemory;
use crate::asking::{Asking, Stage, ask, gives_up, listens, ready};
use crate::clocks::AllClocks;
use crate::setup::configuration;
use arrayvec::ArrayVec;
use clock_line::{Lines, Sample, capped_tick, sampled};
use msg_code::{Control, State};
use plan_types::{Cause, Line, Listed, Machine};
use report_text::ReportLine;
use std::alloc::Global;

/// Adds the askings behind the boards' states.
fn put_listening(askings: &[Asking], states: &[State], out: &mut ArrayVec<Asking, 8>)
    requires room { array_vec_len out.old + length askings.now ≤ 8 }
    requires turns { All (λ s. s.turn < 2 ^ 59) states.now }
    requires early { All IsEarly askings.now }
    requires before { All IsEarly out.old.items }
    ensures items { out.new.items ≡ out.old.items ++ listen_all askings.now states.now }
    ensures count { array_vec_len out.new ≡ array_vec_len out.old + length askings.now }
    ensures early { All IsEarly out.new.items }
{
    match askings {
        [] => {}
        [first, rest @ ..] => match states {
            [] => {
                out.push(*first);
                put_listening(rest, states, out);
            }
            [state, others @ ..] => {
                out.push(listens(*first, state));
                put_listening(rest, others, out);
            }
        },
    }
}

/// The askings behind the boards' states.
pub fn listen_all(askings: &[Asking], states: &[State]) -> ArrayVec<Asking, 8>
    requires few { length askings.now ≤ 8 }
    requires turns { All (λ s. s.turn < 2 ^ 59) states.now }
    requires early { All IsEarly askings.now }
    ensures items { result.items ≡ listen_all askings.now states.now }
    ensures count { array_vec_len result ≡ length askings.now }
    ensures early { All IsEarly result.items }
{
    let mut out = ArrayVec::new();
    put_listening(askings, states, &mut out);
    out
}

/// Adds the askings from a board on, each asked for its configuration once all of it is queued.
fn put_ready(m: &Machine, board: u8, askings: &[Asking], out: &mut ArrayVec<Asking, 8>)
    requires steppers { length m.now.steppers ≤ 16 }
    requires boards { board + length askings.now ≤ 255 }
    requires room { array_vec_len out.old + length askings.now ≤ 8 }
    requires early { All IsEarly askings.now }
    requires before { All IsEarly out.old.items }
    ensures items { out.new.items ≡ out.old.items ++ ready_all m.now board askings.now }
    ensures count { array_vec_len out.new ≡ array_vec_len out.old + length askings.now }
    ensures early { All IsEarly out.new.items }
{
    match askings {
        [] => {}
        [first, rest @ ..] => {
            let setups = configuration(m, board);
            out.push(ready(setups.as_slice(), *first));
            put_ready(m, board + 1, rest, out);
        }
    }
}

/// The same of all boards.
pub fn ready_all(m: &Machine, askings: &[Asking]) -> ArrayVec<Asking, 8>
    requires steppers { length m.now.steppers ≤ 16 }
    requires few { length askings.now ≤ 8 }
    requires early { All IsEarly askings.now }
    ensures items { result.items ≡ ready_all m.now 0 askings.now }
    ensures count { array_vec_len result ≡ length askings.now }
    ensures early { All IsEarly result.items }
{
    let mut out = ArrayVec::new();
    put_ready(m, 0, askings, &mut out);
    out
}

/// The end of the least board, from a board on, whose eighth asking in a row is unanswered.
pub fn giving_up(k: u64, board: u8, askings: &[Asking]) -> Option<Cause>
    requires { board + length askings.now ≤ 255 }
    ensures { result ≡ giving_up k board askings.now }
{
    match askings {
        [] => None,
        [first, rest @ ..] => {
            if gives_up(k, first) {
                Some(Cause::Connect {
                    board,
                    turn: first.first,
                })
            } else {
                giving_up(k, board + 1, rest)
            }
        }
    }
}

/// Whether every board is connected.
pub fn all_connected(askings: &[Asking]) -> bool
    ensures { result ≡ all_connected askings.now }
{
    match askings {
        [] => true,
        [first, rest @ ..] => is_connected(first.stage) && all_connected(rest),
    }
}

fn is_connected(stage: Stage) -> bool
    ensures { result ≡ is_connected stage }
{
    match stage {
        Stage::Connected => true,
        _ => false,
    }
}

/// Asks the boards from a board on: adds the askings behind it, and the controls.
pub fn put_asked(
    alloc: Global,
    m: &Machine,
    k: u64,
    board: u8,
    askings: &[Asking],
    out: &mut ArrayVec<Asking, 8>,
    controls: &mut Listed<Control>,
) -> Result<(), OutOfMemory>
    requires steppers { length m.now.steppers ≤ 16 }
    requires boards { board + length askings.now ≤ 255 }
    requires room { array_vec_len out.old + length askings.now ≤ 8 }
    requires early { All IsEarly askings.now }
    requires before { All IsEarly out.old.items }
    ensures count { OnOk result (array_vec_len out.new ≡ array_vec_len out.old + length askings.now) }
    ensures early { OnOk result (All IsEarly out.new.items) }
    ensures askings { OnOk result (out.new.items ≡ out.old.items ++ ask_all m.now k board askings.now) }
    ensures controls { OnOk result (controls.new ≡ controls.old ++ asking_controls m.now k board askings.now) }
{
    match askings {
        [] => {}
        [first, rest @ ..] => {
            let setups = configuration(m, board);
            let mut commands = Listed::new(alloc);
            let asking = ask(setups.as_slice(), k, *first, &mut commands)?;
            out.push(asking);
            controls.push(Control {
                turn: k,
                commands,
                connected: false,
                end: false,
            })?;
            put_asked(alloc, m, k, board + 1, rest, out, controls)?;
        }
    }
    Ok(())
}

fn sample_or_none(best: Option<Sample>) -> Sample
    requires { IsSampleEarly best }
    ensures value { result ≡ sample_or_none best }
    ensures early { result.sent < 2 ^ 59 }
{
    match best {
        None => Sample {
            sent: 0,
            got: 0,
            clock: 0,
        },
        Some(sample) => sample,
    }
}

fn freq_of(m: &Machine, board: u8) -> u32
    requires { IsValidMachine m.now }
    ensures value { result ≡ (board_at m.now board).freq }
    ensures valid { IsValidFreq result }
{
    match m.boards.as_slice().get(board as usize) {
        None => 1_000_000,
        Some(board) => board.freq,
    }
}

/// The clock line of a board.
pub fn board_line(m: &Machine, board: u8, a: &Asking) -> Line
    requires valid { IsValidMachine m.now }
    requires early { IsEarly a.now }
    ensures value { result ≡ board_line m.now board a.now }
    ensures valid { IsValidLine result }
{
    let sample = sample_or_none(a.best);
    sampled(sample, freq_of(m, board))
}

/// Adds the clock lines of the boards, from a board on.
pub fn put_lines(
    m: &Machine,
    board: u8,
    askings: &[Asking],
    out: &mut Listed<Line>,
) -> Result<(), OutOfMemory>
    requires valid { IsValidMachine m.now }
    requires boards { board + length askings.now ≤ 255 }
    requires early { All IsEarly askings.now }
    requires before { All IsValidLine out.old }
    ensures items { OnOk result (out.new ≡ out.old ++ board_lines m.now board askings.now) }
    ensures count { OnOk result (length out.new ≡ length out.old + length askings.now) }
    ensures valid { OnOk result (All IsValidLine out.new) }
{
    match askings {
        [] => {}
        [first, rest @ ..] => {
            out.push(board_line(m, board, first))?;
            put_lines(m, board + 1, rest, out)?;
        }
    }
    Ok(())
}

/// Adds the clocks of boards that have one line each.
pub fn put_clocks(alloc: Global, lines: &[Line], out: &mut AllClocks) -> Result<(), OutOfMemory>
    requires { All IsValidLine lines.now }
    ensures { OnOk result (out.new ≡ out.old ++ one_line_clocks lines.now) }
{
    match lines {
        [] => {}
        [first, rest @ ..] => {
            out.push(Lines::new(alloc, *first))?;
            put_clocks(alloc, rest, out)?;
        }
    }
    Ok(())
}

/// Adds the boards' lines of the report, from a board on.
pub fn put_connected(
    k: u64,
    board: u8,
    lines: &[Line],
    out: &mut Listed<ReportLine>,
) -> Result<(), OutOfMemory>
    requires few { k < 2 ^ 59 }
    requires boards { board + length lines.now ≤ 255 }
    ensures { OnOk result (out.new ≡ out.old ++ connected_lines k board lines.now) }
{
    match lines {
        [] => {}
        [first, rest @ ..] => {
            let turn = (k + 260).max(1_260);
            out.push(ReportLine::Board {
                board,
                freq: first.freq,
                turn,
                tick: capped_tick(first, u128::from(turn) * 1_000_000),
            })?;
            put_connected(k, board + 1, rest, out)?;
        }
    }
    Ok(())
}
