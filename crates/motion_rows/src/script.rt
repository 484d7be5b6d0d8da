//! A run of the reactor with states and notes written by hand.

ghost use Rattle.std.specs.Prelude.{◌≡◌, ◌+◌, ◌≤◌, ◌<◌, All, length, IfOk, OnOk};
ghost use Rattle.plan_types.specs.Machines.{IsValidMachine};

use crate::said::{put_control, put_word};
use arrayvec::ArrayVec;
use host_reactor::{Ordered, Reactor};
use msg_code::{Cmd, Control, News, Note, NoteNews, State};
use plan_types::{BoardDef, Listed, Machine};
use report_text::{ReportLine, line_of};
use std::alloc::{AllocError, Global};
use wire_scene::Scene;

/// A trigger of a board: it reports every five turns from a start on that it can trigger, and in a turn that
/// it has, with a reason and a clock.
#[derive(Clone, Copy)]
pub struct Trigger {
    pub board: u8,
    pub start: u64,
    pub turn: u64,
    pub reason: u8,
    pub clock: u32,
}

/// What happens in a run: no answer comes in the turns from `quiet` to `again`; the triggers; the motion
/// machine's news, each in its turn; and the turns whose orders are noted.
#[derive(Clone, Copy)]
pub struct Script<'a> {
    pub quiet: u64,
    pub again: u64,
    pub triggers: &'a [Trigger],
    pub notes: &'a [(u64, NoteNews)],
    pub noted: &'a [(u64, u64)],
}

/// What was ordered in the turns that are noted, and the report.
#[derive(Drop)]
pub struct Ran {
    pub orders: String,
    pub report: String,
}

/// A board's own tick of a turn.
fn own(board: &BoardDef, turn: u64) -> u64 {
    let rate = (1_000_000_i32 + i32::from(board.drift)).unsigned_abs();
    let ticks = u128::from(turn)
        .saturating_mul(u128::from(board.freq))
        .saturating_mul(u128::from(rate))
        / 1_000_000_000;
    board.start.saturating_add(ticks.min(1 << 63) as u64)
}

/// The answer to a command in a turn. The block that asks has twice the turn as its number.
fn answer(board: &BoardDef, turn: u64, command: &Cmd) -> Option<Cmd> {
    match command {
        Cmd::Identify { offset, .. } => {
            let left = 1_353_u32.saturating_sub(*offset).min(40);
            let mut bytes = ArrayVec::new();
            for _ in 0..left {
                if bytes.len() < 40 {
                    bytes.push(0_u8);
                }
            }
            Some(Cmd::IdentifyResponse {
                offset: *offset,
                bytes,
            })
        }
        Cmd::GetUptime => {
            let clock = own(board, turn);
            Some(Cmd::Uptime {
                high: (clock >> 32) as u32,
                clock: (clock % (1 << 32)) as u32,
            })
        }
        Cmd::GetConfig => Some(Cmd::Config {
            is_config: 1,
            crc: 0,
            is_shutdown: 0,
            move_count: 1_024,
        }),
        _ => None,
    }
}

/// The news of a turn: the answers to the control's commands, where they come.
fn put_answers(
    script: &Script,
    board: &BoardDef,
    control: &Control,
    state: &mut State,
) -> Result<(), AllocError>
    ensures { OnOk result (state.new.turn ≡ state.old.turn) }
{
    let turn = state.turn;
    for command in control.commands.as_slice() {
        if let Cmd::GetUptime = command {
            state.asked.push(turn.saturating_mul(2))?;
        }
        if turn >= script.quiet && turn < script.again {
            continue;
        }
        if let Some(answer) = answer(board, turn, command) {
            state.news.push(News {
                number: turn.saturating_mul(2).saturating_add(1),
                answer,
            })?;
        }
    }
    Ok(())
}

/// A report of a trigger.
fn report(can: bool, reason: u8, clock: u32) -> Cmd {
    Cmd::TrsyncState {
        oid: 0,
        can_trigger: u8::from(can),
        trigger_reason: reason,
        clock,
    }
}

/// The reports of a board's triggers in a turn.
fn put_reports(
    script: &Script,
    number: u8,
    board: &BoardDef,
    state: &mut State,
) -> Result<(), AllocError>
    ensures { OnOk result (state.new.turn ≡ state.old.turn) }
{
    let turn = state.turn;
    for trigger in script.triggers {
        let since = turn.saturating_sub(trigger.start);
        if trigger.board != number || turn < trigger.start || turn > trigger.turn {
            continue;
        }
        if since % 5 == 0 {
            let clock = (own(board, turn) % (1 << 32)) as u32;
            state.news.push(News {
                number: 0,
                answer: report(true, 0, clock),
            })?;
        }
        if turn == trigger.turn {
            state.news.push(News {
                number: 0,
                answer: report(false, trigger.reason, trigger.clock),
            })?;
        }
    }
    Ok(())
}

/// What a board tells of a turn.
fn state_of(
    alloc: Global,
    script: &Script,
    number: u8,
    board: &BoardDef,
    control: &Control,
    turn: u64,
) -> Result<State, AllocError>
    ensures { IfOk result (λ s. s.turn ≡ turn) }
{
    let mut state = State {
        turn,
        news: Listed::new(alloc),
        pulses: Listed::new(alloc),
        asked: Listed::new(alloc),
        shut: None,
        idle: true,
        out: false,
    };
    put_answers(script, board, control, &mut state)?;
    put_reports(script, number, board, &mut state)?;
    Ok(state)
}

/// Adds what the boards tell of a turn, from a board on.
fn put_states(
    alloc: Global,
    script: &Script,
    number: u8,
    boards: &[BoardDef],
    controls: &[Control],
    turn: u64,
    out: &mut Vec<State>,
) -> Result<(), AllocError>
    requires numbers { number + length boards.now ≤ 255 }
    requires before { All (λ s. s.turn + 1 ≡ turn + 1) out.old.items }
    ensures turns { OnOk result (All (λ s. s.turn + 1 ≡ turn + 1) out.new.items) }
    ensures count { OnOk result (length out.new.items ≤ length out.old.items + length boards.now) }
{
    match boards {
        [] => {}
        [first, rest @ ..] => match controls {
            [] => {}
            [control, others @ ..] => {
                out.push(state_of(alloc, script, number, first, control, turn)?)?;
                put_states(alloc, script, number + 1, rest, others, turn, out)?;
            }
        },
    }
    Ok(())
}

/// The news of a turn's note.
fn note_of(alloc: Global, script: &Script, turn: u64) -> Result<Note, AllocError> {
    let mut news = Listed::new(alloc);
    for told in script.notes {
        if told.0 == turn {
            news.push(told.1)?;
        }
    }
    Ok(Note {
        turn,
        news,
        clear: turn,
        out: false,
    })
}

/// Whether a turn's orders are noted.
fn is_noted(script: &Script, turn: u64) -> bool {
    for span in script.noted {
        if span.0 <= turn && turn <= span.1 {
            return true;
        }
    }
    false
}

/// Notes what was ordered in a turn.
fn put_ordered(
    alloc: Global,
    m: &Machine,
    noted: bool,
    o: &Ordered,
    ran: &mut Ran,
) -> Result<(), AllocError> {
    if noted {
        for (board, control) in o.controls.as_slice().iter().enumerate() {
            put_control(alloc, board, control, &mut ran.orders)?;
        }
        put_word(alloc, &o.word, &mut ran.orders)?;
    }
    for line in o.lines.as_slice() {
        put_line(alloc, m, line, &mut ran.report)?;
    }
    Ok(())
}

/// Adds a line of the report.
fn put_line(
    alloc: Global,
    m: &Machine,
    line: &ReportLine,
    report: &mut String,
) -> Result<(), AllocError> {
    let text = line_of(alloc, line, m)?;
    for byte in text.as_slice() {
        report.push(char::from(*byte))?;
    }
    Ok(())
}

/// Runs a reactor until it ends the run, at most so many turns.
pub fn run(
    alloc: Global,
    m: &Machine,
    scene: &Scene,
    script: &Script,
    turns: u64,
) -> Result<Ran, AllocError>
    requires valid { IsValidMachine m.now }
    requires few { turns < 100_000 }
{
    let mut ran = Ran {
        orders: String::new(alloc),
        report: String::new(alloc),
    };
    let mut reactor = Reactor::new(alloc, m, scene);
    let mut states = Vec::new(alloc);
    let mut note = None;
    for turn in 0..turns {
        let o = reactor.turn(turn, states.as_slice(), &note)?;
        put_ordered(alloc, m, is_noted(script, turn), &o, &mut ran)?;
        if let Some(cause) = o.end {
            put_line(alloc, m, &ReportLine::End(cause), &mut ran.report)?;
            return Ok(ran);
        }
        states = Vec::new(alloc);
        put_states(
            alloc,
            script,
            0,
            m.boards.as_slice(),
            o.controls.as_slice(),
            turn,
            &mut states,
        )?;
        note = Some(note_of(alloc, script, turn)?);
    }
    Ok(ran)
}
