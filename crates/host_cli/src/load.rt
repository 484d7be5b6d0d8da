//! A load that is made from a seed and run: how many pulses each stepper made.

ghost use Rattle.std.specs.Prelude.{◌≡◌, ◌≢◌, ◌≤◌, ◌++◌, IfOk, OnOk, false, length};
ghost use Rattle.host_cli.specs.Answers.{HasMachine, IsRunCause};
ghost use Rattle.host_cli.specs.Counts.{count_lines, summary};
ghost use Rattle.host_cli.specs.Loads.{IsLoadAnswer, ShowsLoad};
ghost use Rattle.io_core.specs.Faults.{Rose};
ghost use Rattle.session_run.specs.Ends.{status_of};

use crate::answer::Answer;
use crate::ended::finish;
use crate::run::end_with;
use crate::scene::refuse;
use generated_load::{LoadFiles, load_machine};
use io_core::{Files, Gate, Sink, SureSink};
use plan_types::{Cause, Listed};
use report_text::{ReportLine, Show};
use session_run::{Ended, Report, Runtime, run};
use std::alloc::{AllocError, Global};
use std::sync::Wait;
use std::thread::Threads;
use wire_scene::Scene;

/// Adds the lines of some steppers' counts.
fn put_counts(out: &mut Vec<ReportLine>, counts: &[u64]) -> Result<(), AllocError>
    requires { length counts.now ≤ 16 }
    ensures { OnOk result (out.new.items ≡ out.old.items ++ count_lines 0 counts.now) }
{
    for (s, pulses) in counts.iter().enumerate() {
        out.push(ReportLine::Count {
            stepper: s as u8,
            pulses: *pulses,
        })?;
    }
    Ok(())
}

/// The report of a load that shows counts alone.
fn summary(
    alloc: Global,
    seed: u64,
    moves: u64,
    counts: &[u64],
    cause: Cause,
) -> Result<Vec<ReportLine>, AllocError>
    requires { length counts.now ≤ 16 }
    ensures { IfOk result (λ lines. lines.items ≡ summary seed moves counts.now cause) }
{
    let mut lines = Vec::new(alloc);
    lines.push(ReportLine::Made { seed, moves })?;
    put_counts(&mut lines, counts)?;
    lines.push(ReportLine::End(cause))?;
    Ok(lines)
}

/// Whether a run ended for want of memory.
fn wants_memory(cause: &Cause) -> bool
    ensures { result ≡ false → cause.now ≢ Cause.Memory }
{
    match *cause {
        Cause::Memory => true,
        _ => false,
    }
}

/// Runs a load on its own printer, in a scene without entries and without switches, and counts the pulses. Nothing is
/// written.
fn counted_load<R: Threads + Wait + Sync, G: Gate + Sync>(
    rt: &Runtime<'_, R, G>,
    seed: u64,
    moves: u64,
) -> Result<Answer, AllocError>
    requires few { moves ≤ 1_000_000 }
    ensures load { IfOk result (λ a. IsLoadAnswer ⟦<LoadFiles as Files>⟧ ⟦<SureSink as Sink>⟧ seed moves a) }
    ensures configured { IfOk result (λ a. HasMachine a) }
    ensures no_read { IfOk result (λ a. a.cause ≢ Cause.ReadFault) }
    ensures no_write { IfOk result (λ a. a.cause ≢ Cause.WriteFault) }
{
    let machine = load_machine(rt.alloc)?;
    let scene = Scene::empty(rt.alloc);
    let mut files = LoadFiles::new(seed, moves);
    let mut none = SureSink::new();
    let ran = run(
        rt,
        &machine,
        &scene,
        "load",
        &mut files,
        &mut none,
        Show::Counts,
    );
    if wants_memory(&ran.cause) {
        return Ok(end_with(rt.alloc, Cause::Memory));
    }
    let Ended { cause, report, .. } = ran;
    let Report { counts, links, .. } = report;
    let lines = summary(rt.alloc, seed, moves, counts.as_slice(), cause)?;
    Ok(Answer {
        cause,
        machine,
        report: Report {
            lines: Listed::of(lines),
            counts,
            links,
        },
    })
}

/// Runs a load and writes its summary.
pub fn run_load<R: Threads + Wait + Sync, S: Sink, G: Gate + Sync>(
    rt: &Runtime<'_, R, G>,
    seed: u64,
    moves: u64,
    out: &mut S,
) -> Ended
    requires few { moves ≤ 1_000_000 }
    ensures shows { ShowsLoad ⟦<LoadFiles as Files>⟧ ⟦<SureSink as Sink>⟧ seed moves
        (S.written out.old) (S.written out.new) result.cause result.report }
    ensures named { IsRunCause result.cause }
    ensures status { result.status ≡ status_of result.cause }
    ensures no_read { result.cause ≢ Cause.ReadFault }
    ensures write { result.cause ≡ Cause.WriteFault → Rose (S.faults out.old) (S.faults out.new) }
    ensures quiet { result.cause ≢ Cause.WriteFault → result.cause ≢ Cause.Memory →
        S.faults out.new ≡ S.faults out.old }
{
    match counted_load(rt, seed, moves) {
        Ok(answer) => finish(rt.alloc, answer, out),
        Err(_) => refuse(rt.alloc, Cause::Memory, out),
    }
}
