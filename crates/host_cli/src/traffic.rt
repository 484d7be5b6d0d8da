//! Captured traffic: what the bytes of a trace hold for a board of a configuration, and what that board makes of them.

ghost use Rattle.std.specs.Prelude.{◌≡◌, ◌≢◌, ◌⊎◌, ℕ, ◌++◌, ◌<◌, All, List, Some, None, Ok, Err, IfOk, IfErr, IfSome, IfNone, OnOk, OnErr, codes};
ghost use Rattle.cfg_lines.specs.declared.fault.CfgFault.TheVariants.{At};
ghost use Rattle.cfg_text.specs.Reading.{machine_of_text};
ghost use Rattle.frame_dump.specs.declared.fault.TraceFault.TheVariants as fault;
ghost use Rattle.frame_dump.specs.declared.trace.TraceTurn.{TraceTurn};
ghost use Rattle.frame_dump.specs.Traces as traces;
ghost use Rattle.session_run.specs.Reported.{GivenFor};
ghost use Rattle.host_cli.specs.Promises.{IsRefused};
ghost use Rattle.host_cli.specs.Traffic as specs;
ghost use Rattle.host_cli.specs.Traffic.{EndsCleanly, IsTraceFault, IsTraceIn, IsTrafficText, ShowsTraffic, with_end};
ghost use Rattle.io_core.specs.Faults.{Rose};
ghost use Rattle.plan_types.specs.declared.cause.CfgKind.{CfgKind};
ghost use Rattle.plan_types.specs.declared.cause.TraceKind.{TraceKind};
ghost use Rattle.plan_types.specs.declared.machine.BoardDef.{BoardDef};
ghost use Rattle.plan_types.specs.declared.machine.Machine.{Machine};
ghost use Rattle.plan_types.specs.Machines.{IsValidBoard, IsValidMachine};
ghost use Rattle.report_text.specs.Written.{WritesAll, WritesFront};
ghost use Rattle.session_run.specs.Ends.{IsBare, status_of};

use crate::ended::end_showing;
use crate::run::{end_line, read_machine};
use crate::scene::refuse;
use crate::source::{ReadFault, read_text};
use frame_dump::{Trace, TraceFault, dump, dump_text, read_trace, replay, replay_text};
use io_core::{Files, Sink};
use msg_dict::own_formats;
use plan_types::{BoardDef, Cause, Listed, Machine};
use report_text::{ReportLine, WriteStop, write_line, write_piece};
use session_run::Ended;
use std::alloc::{AllocError, Global};

/// One byte more is read of a trace, to tell that it is too large.
const TRACE_LIMIT: u64 = 16_777_216;

/// What is done with a trace.
#[derive(Debug, Clone, Copy, PartialEq, Eq)]
pub enum Task {
    /// What its bytes hold is told.
    Dump,
    /// A simulated board takes it.
    Replay,
}

/// The words of a task: a configuration, the name of one of its boards, and a trace.
#[derive(Clone, Copy)]
pub struct TrafficWords<'a> {
    pub task: Task,
    pub config: &'a str,
    pub board: &'a str,
    pub trace: &'a str,
}

/// The first board of a name.
fn board_named<'a>(boards: &'a [BoardDef], name: &[u8]) -> Option<&'a BoardDef>
    requires { All IsValidBoard boards.now }
    ensures some { IfSome result (λ b. specs.board_named name.now boards.now ≡ Some b.now) }
    ensures none { IfNone result (specs.board_named name.now boards.now ≡ None) }
    ensures valid { IfSome result (λ b. IsValidBoard b.now) }
{
    let mut rest = boards;
    while let [board, others @ ..] = rest {
        if board.name.as_bytes() == name {
            return Some(board);
        }
        rest = others;
    }
    None
}

/// Reads a trace, or says why there is none.
fn read_trace_file<F: Files>(alloc: Global, files: &mut F, name: &str) -> Result<Trace, Cause>
    ensures trace { IfOk result (λ t. IsTraceIn (F.told files.old name.now) t) }
    ensures fault { IfErr result (λ cause. IsTraceFault (F.told files.old name.now) cause) }
    ensures steady { OnOk result (F.faults files.new ≡ F.faults files.old) }
    ensures read { IfErr result (λ cause. cause ≡ Cause.ReadFault → Rose (F.faults files.old) (F.faults files.new)) }
    ensures quiet { IfErr result (λ cause. cause ≢ Cause.ReadFault → F.faults files.new ≡ F.faults files.old) }
{
    let text = match read_text(alloc, files, name, TRACE_LIMIT) {
        Ok(text) => text,
        Err(ReadFault::Memory) => return Err(Cause::Memory),
        Err(ReadFault::Failed) => return Err(Cause::ReadFault),
    };
    match read_trace(alloc, &text) {
        Ok(trace) => Ok(trace),
        Err(TraceFault::Memory) => Err(Cause::Memory),
        Err(TraceFault::At { line, kind }) => Err(Cause::Trace { line, kind }),
    }
}

/// The text of a task.
fn text_of(
    alloc: Global,
    task: Task,
    board: &BoardDef,
    trace: &Trace,
) -> Result<Vec<u8>, AllocError>
    requires { IsValidBoard board.now }
    ensures { IfOk result (λ text. IsTrafficText task board.now trace.now text.items) }
{
    match task {
        Task::Dump => {
            let formats = own_formats(alloc)?;
            let lines = dump(alloc, &formats, trace)?;
            let text = dump_text(alloc, &lines)?;
            Ok(text)
        }
        Task::Replay => {
            let replayed = replay(alloc, board, trace)?;
            let text = replay_text(alloc, board.name.as_bytes(), &replayed)?;
            Ok(text)
        }
    }
}

/// Writes a text, and the end line behind it.
fn write_text<S: Sink>(
    alloc: Global,
    machine: &Machine,
    text: &[u8],
    out: &mut S,
) -> Result<(), WriteStop>
    ensures all { OnOk result (WritesAll (S.written out.old) (S.written out.new) (with_end text.now)) }
    ensures front { WritesFront (S.written out.old) (S.written out.new) (with_end text.now) }
    ensures steady { OnOk result (S.faults out.new ≡ S.faults out.old) }
    ensures failed { IfErr result (λ stop. stop ≡ WriteStop.Failed → Rose (S.faults out.old) (S.faults out.new)) }
{
    if write_piece(out, text).is_err() {
        return Err(WriteStop::Failed);
    }
    let mut buffer = Vec::new(alloc);
    write_line(&mut buffer, &ReportLine::End(Cause::Done), machine, out)?;
    Ok(())
}

/// Writes a text and the end line, and says how that ended.
fn show<S: Sink>(
    alloc: Global,
    machine: &Machine,
    text: &[u8],
    lines: Listed<ReportLine>,
    out: &mut S,
) -> Ended
    ensures given { GivenFor Cause.Done result.cause }
    ensures unread { result.cause ≢ Cause.ReadFault }
    ensures front { WritesFront (S.written out.old) (S.written out.new) (with_end text.now) }
    ensures all { result.cause ≢ Cause.Memory → result.cause ≢ Cause.WriteFault →
        WritesAll (S.written out.old) (S.written out.new) (with_end text.now) }
    ensures lines { result.report.lines ≡ lines }
    ensures bare { IsBare result.report }
    ensures status { result.status ≡ status_of result.cause }
    ensures write { result.cause ≡ Cause.WriteFault → Rose (S.faults out.old) (S.faults out.new) }
    ensures quiet { result.cause ≢ Cause.WriteFault → result.cause ≢ Cause.Memory →
        S.faults out.new ≡ S.faults out.old }
{
    match write_text(alloc, machine, text, out) {
        Ok(()) => end_showing(alloc, Cause::Done, lines),
        Err(WriteStop::Memory) => end_showing(alloc, Cause::Memory, lines),
        Err(WriteStop::Failed) => end_showing(alloc, Cause::WriteFault, lines),
    }
}

/// Does a task with a board and a trace's file.
fn run_board<F: Files, S: Sink>(
    alloc: Global,
    machine: &Machine,
    task: Task,
    board: &BoardDef,
    trace: &str,
    files: &mut F,
    out: &mut S,
) -> Ended
    requires { IsValidBoard board.now }
    ensures shows { (text : List ℕ) (turns : List TraceTurn) → F.told files.old trace.now ≡ Some text →
        traces.trace_of_text text ≡ Ok turns →
        ShowsTraffic task board.now turns (S.written out.old) (S.written out.new) result.cause result.report }
    ensures trace { (text : List ℕ) (line : ℕ) (kind : TraceKind) → F.told files.old trace.now ≡ Some text →
        traces.trace_of_text text ≡ Err (fault.At line kind) →
        IsRefused (Cause.Trace line kind) (S.written out.old) (S.written out.new) result.cause result.report }
    ensures ends { EndsCleanly (F.faults files.old) (F.faults files.new) (S.faults out.old) (S.faults out.new)
        result.status result.cause }
{
    let trace = match read_trace_file(alloc, files, trace) {
        Ok(trace) => trace,
        Err(cause) => return refuse(alloc, cause, out),
    };
    let Ok(lines) = end_line(alloc, Cause::Done) else {
        return refuse(alloc, Cause::Memory, out);
    };
    match text_of(alloc, task, board, &trace) {
        Ok(text) => show(alloc, machine, &text, lines, out),
        Err(_) => refuse(alloc, Cause::Memory, out),
    }
}

/// Does a task on a machine.
fn run_machine<F: Files, S: Sink>(
    alloc: Global,
    machine: &Machine,
    words: &TrafficWords,
    files: &mut F,
    out: &mut S,
) -> Ended
    requires { IsValidMachine machine.now }
    ensures shows { (b : BoardDef) (text : List ℕ) (turns : List TraceTurn) →
        specs.board_named words.now.board.now machine.now.boards ≡ Some b →
        F.told files.old words.now.trace.now ≡ Some text → traces.trace_of_text text ≡ Ok turns →
        ShowsTraffic words.now.task b turns (S.written out.old) (S.written out.new) result.cause result.report }
    ensures trace { (b : BoardDef) (text : List ℕ) (line : ℕ) (kind : TraceKind) →
        specs.board_named words.now.board.now machine.now.boards ≡ Some b →
        F.told files.old words.now.trace.now ≡ Some text → traces.trace_of_text text ≡ Err (fault.At line kind) →
        IsRefused (Cause.Trace line kind) (S.written out.old) (S.written out.new) result.cause result.report }
    ensures no_board { specs.board_named words.now.board.now machine.now.boards ≡ None →
        IsRefused Cause.NoBoard (S.written out.old) (S.written out.new) result.cause result.report }
    ensures ends { EndsCleanly (F.faults files.old) (F.faults files.new) (S.faults out.old) (S.faults out.new)
        result.status result.cause }
{
    match board_named(machine.boards.as_slice(), words.board.as_bytes()) {
        Some(board) => run_board(alloc, machine, words.task, board, words.trace, files, out),
        None => refuse(alloc, Cause::NoBoard, out),
    }
}

/// Does what the words ask for.
pub fn run_traffic<F: Files, S: Sink>(
    alloc: Global,
    words: &TrafficWords,
    files: &mut F,
    out: &mut S,
) -> Ended
    ensures shows { (printer : List ℕ) (m : Machine) (b : BoardDef) (text : List ℕ) (turns : List TraceTurn) →
        F.told files.old words.now.config.now ≡ Some printer → machine_of_text printer ≡ Ok m →
        specs.board_named words.now.board.now m.boards ≡ Some b → F.told files.old words.now.trace.now ≡ Some text →
        traces.trace_of_text text ≡ Ok turns →
        ShowsTraffic words.now.task b turns (S.written out.old) (S.written out.new) result.cause result.report }
    ensures trace { (printer : List ℕ) (m : Machine) (b : BoardDef) (text : List ℕ) (line : ℕ) (kind : TraceKind) →
        F.told files.old words.now.config.now ≡ Some printer → machine_of_text printer ≡ Ok m →
        specs.board_named words.now.board.now m.boards ≡ Some b → F.told files.old words.now.trace.now ≡ Some text →
        traces.trace_of_text text ≡ Err (fault.At line kind) →
        IsRefused (Cause.Trace line kind) (S.written out.old) (S.written out.new) result.cause result.report }
    ensures no_board { (printer : List ℕ) (m : Machine) → F.told files.old words.now.config.now ≡ Some printer →
        machine_of_text printer ≡ Ok m → specs.board_named words.now.board.now m.boards ≡ None →
        IsRefused Cause.NoBoard (S.written out.old) (S.written out.new) result.cause result.report }
    ensures config { (printer : List ℕ) (line : ℕ) (kind : CfgKind) →
        F.told files.old words.now.config.now ≡ Some printer → machine_of_text printer ≡ Err (At line kind) →
        IsRefused (Cause.Config line kind) (S.written out.old) (S.written out.new) result.cause result.report }
    ensures ends { EndsCleanly (F.faults files.old) (F.faults files.new) (S.faults out.old) (S.faults out.new)
        result.status result.cause }
{
    match read_machine(alloc, files, words.config) {
        Ok(machine) => run_machine(alloc, &machine, words, files, out),
        Err(cause) => refuse(alloc, cause, out),
    }
}
