//! A running turn.

ghost use Rattle.std.specs.Prelude.{◌≡◌, ◌+◌, ◌<◌, ◌≤◌, ◌^◌, ◌++◌, [], ◌∷◌, length, All, OnOk, IfOk, Some, None};
ghost use Rattle.arrayvec.specs.ArrayVec.{array_vec_len};
ghost use Rattle.plan_types.specs.Machines.{IsValidMachine, axis_at};
ghost use Rattle.axis_homing.specs.Homing.{StartsTogether};
ghost use Rattle.board_asking.specs.Kept.{IsEarly};
ghost use Rattle.host_reactor.specs.Kept.{HasAskings};
ghost use Rattle.board_asking.specs.Drift.{waiting, after_question};
ghost use Rattle.host_reactor.specs.Reactor.{homing_commands, run_control, run_controls, run_askings, cut_line, homed, stop_command, phase_after, stops, carries_on, finishes, unless_homing_ends, homes, after_homing, unless_stale, runs};
ghost use Rattle.axis_homing.specs.Homing.{homing_turn};

use crate::OutOfMemory;
use crate::ordered::{Known, Ordered, Phase, Setting};
use crate::react::end;
use crate::report::put_counts;
use crate::running::{is_finished, stop_of};
use arrayvec::ArrayVec;
use axis_homing::{HomingTurn, axis_at, home, put_commands};
use board_asking::{Asking, ask_clock, listen_all, put_new_lines, stale, waiting};
use clock_line::Lines;
use msg_code::{Cmd, Control, State, WordMsg, WordNews};
use plan_types::{AxisDef, Cause, Listed, Machine, ReadStop};
use report_text::ReportLine;
use std::alloc::Global;
use wire_scene::Scene;

/// What a running turn orders: the group's orders, and whether the boards are to stop.
#[derive(Drop)]
struct Orders<'a> {
    setting: &'a Setting<'a>,
    k: u64,
    turn: &'a HomingTurn,
    stop: bool,
}

/// Adds the control of a running board, and answers its asking behind it.
fn put_control(
    orders: &Orders<'_>,
    board: u8,
    clocks: &Lines,
    a: Asking,
    out: &mut Listed<Control>,
) -> Result<Asking, OutOfMemory>
    requires steppers { length orders.now.setting.now.machine.now.steppers ≤ 16 }
    requires early { IsEarly a }
    ensures control { OnOk result (out.new
        ≡ out.old
        ++ run_control orders.now.setting.now.machine.now orders.now.k board orders.now.turn.now
        (stop_command orders.now.stop) clocks.now a ∷ []) }
    ensures asking { IfOk result (λ b. b
        ≡ after_question orders.now.k
        (homing_commands orders.now.setting.now.machine.now orders.now.turn.now clocks.now board) a) }
    ensures early { IfOk result IsEarly }
{
    let setting = orders.setting;
    let turn = orders.turn;
    let mut commands = Listed::new(setting.alloc);
    let axis = axis_at(setting.machine, turn.axis);
    put_commands(
        setting.machine,
        clocks,
        board,
        turn.start,
        &axis,
        turn.ctls.as_slice(),
        &mut commands,
    )?;
    let asking = ask_clock(orders.k, a, &mut commands)?;
    if orders.stop {
        commands.push(Cmd::EmergencyStop)?;
    }
    out.push(Control {
        turn: orders.k,
        commands,
        connected: true,
        end: false,
    })?;
    Ok(asking)
}

/// Adds the controls of the running boards, from a board on, and their askings.
fn put_controls(
    orders: &Orders<'_>,
    board: u8,
    clocks: &[Lines],
    askings: &[Asking],
    after: &mut ArrayVec<Asking, 8>,
    out: &mut Listed<Control>,
) -> Result<(), OutOfMemory>
    requires steppers { length orders.now.setting.now.machine.now.steppers ≤ 16 }
    requires boards { board + length askings.now ≤ 255 }
    requires room { array_vec_len after.old + length askings.now ≤ 8 }
    requires early { All IsEarly askings.now }
    requires before { All IsEarly after.old.items }
    ensures controls { OnOk result (out.new
        ≡ out.old
        ++ run_controls orders.now.setting.now.machine.now orders.now.k board orders.now.turn.now
        (stop_command orders.now.stop) clocks.now askings.now) }
    ensures askings { OnOk result (after.new.items
        ≡ after.old.items
        ++ run_askings orders.now.setting.now.machine.now orders.now.k board orders.now.turn.now clocks.now
        askings.now) }
    ensures count { OnOk result (array_vec_len after.new ≡ array_vec_len after.old + length askings.now) }
    ensures early { OnOk result (All IsEarly after.new.items) }
{
    match askings {
        [] => {}
        [first, rest @ ..] => match clocks {
            [] => {
                after.push(*first);
                put_controls(orders, board, clocks, rest, after, out)?;
            }
            [line, lines @ ..] => {
                after.push(put_control(orders, board, line, *first, out)?);
                put_controls(orders, board + 1, lines, rest, after, out)?;
            }
        },
    }
    Ok(())
}

/// Adds the line of a section whose switch closed.
fn put_cut(
    m: &Machine,
    scene: &Scene,
    turn: &HomingTurn,
    out: &mut Listed<ReportLine>,
) -> Result<(), OutOfMemory>
    ensures { OnOk result (out.new
        ≡ out.old ++ cut_line m.now scene.now.switches turn.now.section (axis_at m.now turn.now.axis) turn.now.cut) }
{
    if let Some(tick) = turn.cut {
        let axis = axis_at(m, turn.axis);
        out.push(ReportLine::Cut {
            section: turn.section,
            board: axis.board,
            pin: axis.pin,
            tick,
            line: scene.line(axis.board, axis.pin, tick),
        })?;
    }
    Ok(())
}

fn phase_after(stop: Option<u64>) -> Phase
    ensures { result ≡ phase_after stop }
{
    match stop {
        None => Phase::Running,
        Some(line) => Phase::Stopping(line),
    }
}

/// A running turn: the group's orders, the askings, and the order to stop where the text asks for it.
fn carry_on(
    setting: &Setting<'_>,
    r: &mut Known,
    k: u64,
    lines: Listed<ReportLine>,
    askings: &[Asking],
    turn: &HomingTurn,
    stop: Option<u64>,
) -> Result<Ordered, OutOfMemory>
    requires valid { IsValidMachine setting.now.machine.now }
    requires count { length askings.now ≡ length setting.now.machine.now.boards }
    requires early { All IsEarly askings.now }
    requires kept { HasAskings setting.now.machine.now r.old }
    ensures kept { HasAskings setting.now.machine.now r.new }
    ensures known { OnOk result
        (r.new ≡ (carries_on setting.now.machine.now r.old k lines askings.now turn.now stop).known) }
    ensures ordered { IfOk result
        (λ o. o ≡ (carries_on setting.now.machine.now r.old k lines askings.now turn.now stop).ordered) }
{
    let mut news = Listed::new(setting.alloc);
    if turn.cut.is_some() {
        news.push(WordNews::Homed)?;
    }
    put_new_lines(setting.machine, 0, r.askings.as_slice(), askings, &mut news)?;
    let waiting = waiting(setting.machine, k, askings);
    let mut after = ArrayVec::new();
    let mut controls = Listed::new(setting.alloc);
    let orders = Orders {
        setting,
        k,
        turn,
        stop: stop.is_some(),
    };
    put_controls(
        &orders,
        0,
        r.clocks.as_slice(),
        waiting.as_slice(),
        &mut after,
        &mut controls,
    )?;
    r.askings = after;
    r.phase = phase_after(stop);
    Ok(Ordered {
        controls,
        word: WordMsg {
            turn: k,
            news,
            end: false,
        },
        lines,
        end: None,
    })
}

/// The text's end: the run ends, or the boards are told to stop.
fn finish(
    setting: &Setting<'_>,
    r: &mut Known,
    k: u64,
    lines: Listed<ReportLine>,
    askings: &[Asking],
    turn: &HomingTurn,
    how: ReadStop,
) -> Result<Ordered, OutOfMemory>
    requires valid { IsValidMachine setting.now.machine.now }
    requires count { length askings.now ≡ length setting.now.machine.now.boards }
    requires early { All IsEarly askings.now }
    requires kept { HasAskings setting.now.machine.now r.old }
    ensures kept { HasAskings setting.now.machine.now r.new }
    ensures known { OnOk result
        (r.new ≡ (finishes how setting.now.machine.now r.old k lines askings.now turn.now).known) }
    ensures ordered { IfOk result
        (λ o. o ≡ (finishes how setting.now.machine.now r.old k lines askings.now turn.now).ordered) }
{
    let cause = match how {
        ReadStop::Stop(line) => {
            return carry_on(setting, r, k, lines, askings, turn, Some(line));
        }
        ReadStop::End => Cause::Done,
        ReadStop::Refused { line, kind } => Cause::Line { line, kind },
    };
    let mut lines = lines;
    put_counts(r.reading, &mut lines)?;
    end(setting.alloc, setting.machine, k, lines, cause, r)
}

/// A running turn behind what homing does in it.
fn behind_homing(
    setting: &Setting<'_>,
    r: &mut Known,
    k: u64,
    states: &[State],
    lines: Listed<ReportLine>,
    askings: &[Asking],
    turn: &HomingTurn,
) -> Result<Ordered, OutOfMemory>
    requires valid { IsValidMachine setting.now.machine.now }
    requires count { length askings.now ≡ length setting.now.machine.now.boards }
    requires early { All IsEarly askings.now }
    requires kept { HasAskings setting.now.machine.now r.old }
    ensures kept { HasAskings setting.now.machine.now r.new }
    ensures known { OnOk result (r.new
        ≡ (homes setting.now.machine.now setting.now.scene.now.switches r.old k states.now lines askings.now
        turn.now).known) }
    ensures ordered { IfOk result (λ o. o
        ≡ (homes setting.now.machine.now setting.now.scene.now.switches r.old k states.now lines askings.now
        turn.now).ordered) }
{
    if let Some(cause) = turn.end {
        return end(setting.alloc, setting.machine, k, lines, cause, r);
    }
    let mut lines = lines;
    put_cut(setting.machine, setting.scene, turn, &mut lines)?;
    if is_finished(r, k, states) {
        let how = stop_of(r.reading);
        finish(setting, r, k, lines, askings, turn, how)
    } else {
        carry_on(setting, r, k, lines, askings, turn, None)
    }
}

/// What homing does in a turn.
fn take_homing(r: &mut Known, k: u64, states: &[State]) -> HomingTurn
    requires numbers { length states.now ≤ 8 }
    requires turns { All (λ s. s.turn < 2 ^ 59) states.now }
    requires starts { StartsTogether r.old.homing }
    ensures starts { StartsTogether r.new.homing }
    ensures known { r.new ≡ after_homing r.old k states.now }
    ensures askings { r.new.askings ≡ r.old.askings }
    ensures turn { result ≡ homing_turn r.old.clocks k states.now r.old.homing }
{
    let homing = r.homing.take();
    let (after, turn) = home(r.clocks.as_slice(), k, states, homing);
    r.homing = after;
    turn
}

/// A running turn.
pub fn run(
    setting: &Setting<'_>,
    r: &mut Known,
    k: u64,
    states: &[State],
    lines: Listed<ReportLine>,
) -> Result<Ordered, OutOfMemory>
    requires valid { IsValidMachine setting.now.machine.now }
    requires numbers { length states.now ≤ 8 }
    requires turns { All (λ s. s.turn < 2 ^ 59) states.now }
    requires kept { HasAskings setting.now.machine.now r.old }
    ensures kept { HasAskings setting.now.machine.now r.new }
    ensures known { OnOk result
        (r.new ≡ (runs setting.now.machine.now setting.now.scene.now.switches r.old k states.now lines).known) }
    ensures ordered { IfOk result
        (λ o. o ≡ (runs setting.now.machine.now setting.now.scene.now.switches r.old k states.now lines).ordered) }
{
    let askings = listen_all(r.askings.as_slice(), states);
    if let Some(cause) = stale(k, 0, askings.as_slice()) {
        return end(setting.alloc, setting.machine, k, lines, cause, r);
    }
    let turn = take_homing(r, k, states);
    behind_homing(setting, r, k, states, lines, askings.as_slice(), &turn)
}
