//! A turn of the reactor.

ghost use Rattle.std.specs.Prelude.{◌≡◌, ◌+◌, ◌<◌, ◌≤◌, ◌^◌, ◌++◌, [], ◌∷◌, length, All, OnOk, IfOk, Some, None, if◌then◌else◌};
ghost use Rattle.plan_types.specs.Machines.{IsValidMachine};
ghost use Rattle.arrayvec.specs.ArrayVec.{array_vec_len};
ghost use Rattle.board_asking.specs.Kept.{IsEarly};
ghost use Rattle.host_reactor.specs.Kept.{HasAskings};
ghost use Rattle.board_asking.specs.Connecting.{control, board_lines, ready_all, listen_all};
ghost use Rattle.host_reactor.specs.Reactor.{Reacted, plain_controls, given, ends, asks_boards, is_connected_now, unless_given_up, connects, by_phase, unless_late_stale, unless_ended, reacts_to};
ghost use Rattle.board_asking.specs.Drift.{stale};

use crate::OutOfMemory;
use crate::ordered::{Known, Ordered, Phase, Setting};
use crate::report::{put_counts, put_first, room_for_lines};
use crate::run::run;
use crate::running::first_cause;
use arrayvec::ArrayVec;
use board_asking::{
    AllClocks, Asking, all_connected, giving_up, listen_all, put_asked, put_clocks, put_connected,
    put_lines, ready_all, stale,
};
use msg_code::{Control, NoteNews, State, WordMsg, WordNews};
use plan_types::{BoardDef, Cause, Listed, Machine};
use report_text::ReportLine;
use std::alloc::Global;

/// Adds a control without commands for each board.
fn put_plain(
    alloc: Global,
    k: u64,
    connected: bool,
    end: bool,
    boards: &[BoardDef],
    out: &mut Listed<Control>,
) -> Result<(), OutOfMemory>
    ensures { OnOk result (out.new ≡ out.old ++ plain_controls k [] connected end boards.now) }
{
    match boards {
        [] => {}
        [_first, rest @ ..] => {
            out.push(Control {
                turn: k,
                commands: Listed::new(alloc),
                connected,
                end,
            })?;
            put_plain(alloc, k, connected, end, rest, out)?;
        }
    }
    Ok(())
}

/// A control without commands for each board.
fn plain_controls(
    alloc: Global,
    m: &Machine,
    k: u64,
    connected: bool,
    end: bool,
) -> Result<Listed<Control>, OutOfMemory>
    ensures { IfOk result (λ c. c ≡ plain_controls k [] connected end m.now.boards) }
{
    let mut controls = Listed::new(alloc);
    put_plain(alloc, k, connected, end, m.boards.as_slice(), &mut controls)?;
    Ok(controls)
}

/// A word without news.
pub fn no_word(alloc: Global, k: u64, end: bool) -> WordMsg
    ensures { result ≡ record { turn = k; news = []; end = end } }
{
    WordMsg {
        turn: k,
        news: Listed::new(alloc),
        end,
    }
}

/// The end of a run.
pub fn end(
    alloc: Global,
    m: &Machine,
    k: u64,
    lines: Listed<ReportLine>,
    cause: Cause,
    r: &Known,
) -> Result<Ordered, OutOfMemory>
    ensures { IfOk result (λ o. o ≡ (ends m.now r.now k lines cause).ordered) }
{
    Ok(Ordered {
        controls: plain_controls(alloc, m, k, true, true)?,
        word: no_word(alloc, k, true),
        lines,
        end: Some(cause),
    })
}

/// The boards are asked.
fn ask_boards(
    alloc: Global,
    m: &Machine,
    r: &mut Known,
    k: u64,
    lines: Listed<ReportLine>,
    askings: &[Asking],
) -> Result<Ordered, OutOfMemory>
    requires valid { IsValidMachine m.now }
    requires count { length askings.now ≡ length m.now.boards }
    requires early { All IsEarly askings.now }
    requires kept { HasAskings m.now r.old }
    ensures kept { HasAskings m.now r.new }
    ensures known { OnOk result (r.new ≡ (asks_boards m.now r.old k lines askings.now).known) }
    ensures ordered { IfOk result (λ o. o ≡ (asks_boards m.now r.old k lines askings.now).ordered) }
{
    let mut after = ArrayVec::new();
    let mut controls = Listed::new(alloc);
    put_asked(alloc, m, k, 0, askings, &mut after, &mut controls)?;
    r.askings = after;
    Ok(Ordered {
        controls,
        word: no_word(alloc, k, false),
        lines,
        end: None,
    })
}

/// Connecting ended in this turn.
fn connected_now(
    alloc: Global,
    m: &Machine,
    r: &mut Known,
    k: u64,
    lines: Listed<ReportLine>,
    askings: ArrayVec<Asking, 8>,
) -> Result<Ordered, OutOfMemory>
    requires few { k < 2 ^ 59 }
    requires valid { IsValidMachine m.now }
    requires count { array_vec_len askings ≡ length m.now.boards }
    requires early { All IsEarly askings.items }
    requires kept { HasAskings m.now r.old }
    ensures kept { HasAskings m.now r.new }
    ensures known { OnOk result (r.new ≡ (is_connected_now m.now r.old k lines askings.items).known) }
    ensures ordered { IfOk result (λ o. o ≡ (is_connected_now m.now r.old k lines askings.items).ordered) }
{
    let mut lines = lines;
    let mut found = Listed::new(alloc);
    put_lines(m, 0, askings.as_slice(), &mut found)?;
    let mut clocks = AllClocks::new(alloc);
    put_clocks(alloc, found.as_slice(), &mut clocks)?;
    put_connected(k, 0, found.as_slice(), &mut lines)?;
    let mut word = no_word(alloc, k, false);
    word.news.push(WordNews::Lines(found))?;
    r.phase = Phase::Running;
    r.askings = askings;
    r.clocks = clocks;
    r.ended = k;
    Ok(Ordered {
        controls: plain_controls(alloc, m, k, false, false)?,
        word,
        lines,
        end: None,
    })
}

/// Connecting: the boards are asked, until all are connected or one gives no answer.
#[inline(never)]
fn connect(
    alloc: Global,
    m: &Machine,
    r: &mut Known,
    k: u64,
    states: &[State],
    lines: Listed<ReportLine>,
) -> Result<Ordered, OutOfMemory>
    requires valid { IsValidMachine m.now }
    requires few { k < 2 ^ 59 }
    requires turns { All (λ s. s.turn < 2 ^ 59) states.now }
    requires kept { HasAskings m.now r.old }
    ensures kept { HasAskings m.now r.new }
    ensures known { OnOk result (r.new ≡ (connects m.now r.old k states.now lines).known) }
    ensures ordered { IfOk result (λ o. o ≡ (connects m.now r.old k states.now lines).ordered) }
{
    let heard = listen_all(r.askings.as_slice(), states);
    let askings = ready_all(m, heard.as_slice());
    if let Some(cause) = giving_up(k, 0, askings.as_slice()) {
        return end(alloc, m, k, lines, cause, r);
    }
    if all_connected(askings.as_slice()) {
        connected_now(alloc, m, r, k, lines, askings)
    } else {
        ask_boards(alloc, m, r, k, lines, askings.as_slice())
    }
}

/// The turn behind the order to stop.
#[inline(never)]
fn stop_turn(
    alloc: Global,
    m: &Machine,
    r: &mut Known,
    k: u64,
    states: &[State],
    lines: Listed<ReportLine>,
    line: u64,
) -> Result<Ordered, OutOfMemory>
    requires turns { All (λ s. s.turn < 2 ^ 59) states.now }
    requires kept { HasAskings m.now r.old }
    ensures kept { HasAskings m.now r.new }
    ensures known { OnOk result (r.new
        ≡ (unless_late_stale (stale k 0 (listen_all r.old.askings.items states.now)) m.now r.old k lines line).known) }
    ensures ordered { IfOk result (λ o. o
        ≡ (unless_late_stale (stale k 0 (listen_all r.old.askings.items states.now)) m.now r.old k lines
        line).ordered) }
{
    let askings = listen_all(r.askings.as_slice(), states);
    if let Some(cause) = stale(k, 0, askings.as_slice()) {
        return end(alloc, m, k, lines, cause, r);
    }
    let mut lines = lines;
    put_counts(r.reading, &mut lines)?;
    end(alloc, m, k, lines, Cause::Asked { line }, r)
}

/// What a turn is by its phase.
fn by_phase(
    setting: &Setting<'_>,
    r: &mut Known,
    k: u64,
    states: &[State],
    lines: Listed<ReportLine>,
) -> Result<Ordered, OutOfMemory>
    requires valid { IsValidMachine setting.now.machine.now }
    requires few { k < 2 ^ 59 }
    requires numbers { length states.now ≤ 8 }
    requires turns { All (λ s. s.turn < 2 ^ 59) states.now }
    requires kept { HasAskings setting.now.machine.now r.old }
    ensures kept { HasAskings setting.now.machine.now r.new }
    ensures known { OnOk result (r.new
        ≡ (by_phase r.old.phase setting.now.machine.now setting.now.scene.now.switches r.old k states.now
        lines).known) }
    ensures ordered { IfOk result (λ o. o
        ≡ (by_phase r.old.phase setting.now.machine.now setting.now.scene.now.switches r.old k states.now
        lines).ordered) }
{
    match r.phase {
        Phase::Connecting => connect(setting.alloc, setting.machine, r, k, states, lines),
        Phase::Running => run(setting, r, k, states, lines),
        Phase::Stopping(line) => stop_turn(
            setting.alloc,
            setting.machine,
            r,
            k,
            states,
            lines,
            line,
        ),
    }
}

/// A turn behind its note. Its locals are large, so it stands apart from the turns that are calm.
#[inline(never)]
pub fn react(
    setting: &Setting<'_>,
    r: &mut Known,
    k: u64,
    states: &[State],
    news: &[NoteNews],
    out: bool,
) -> Result<Ordered, OutOfMemory>
    requires valid { IsValidMachine setting.now.machine.now }
    requires few { k < 2 ^ 59 }
    requires states { length states.now ≤ 8 }
    requires turns { All (λ s. s.turn < 2 ^ 59) states.now }
    requires kept { HasAskings setting.now.machine.now r.old }
    ensures kept { HasAskings setting.now.machine.now r.new }
    ensures known { OnOk result (r.new
        ≡ (reacts_to setting.now.machine.now setting.now.scene.now.switches r.old k states.now news.now out).known) }
    ensures ordered { IfOk result (λ o. o
        ≡ (reacts_to setting.now.machine.now setting.now.scene.now.switches r.old k states.now news.now out).ordered) }
{
    let mut lines = room_for_lines(setting.alloc, states)?;
    put_first(setting.machine, r.begun, k, news, states, &mut lines)?;
    if let Some(cause) = first_cause(out, r.stopped, states) {
        return end(setting.alloc, setting.machine, k, lines, cause, r);
    }
    by_phase(setting, r, k, states, lines)
}
