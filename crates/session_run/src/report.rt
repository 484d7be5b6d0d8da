//! A whole run and the end of its report.
ghost use Rattle.std.specs.Prelude.{◌≡◌, ◌≢◌, ◌⊎◌, ◌≤◌, ◌++◌, ◌∷◌, [], IfOk, None, Some, length, replicate};
ghost use Rattle.io_core.specs.Faults.{Rose};
ghost use Rattle.plan_types.specs.Machines.{IsValidMachine};
ghost use Rattle.report_text.specs.Text.{line_text, report_text};
ghost use Rattle.report_text.specs.Written.{WritesAll, WritesFront};
ghost use Rattle.session_run.specs.Ends.{IsBare, status_of};
ghost use Rattle.session_run.specs.Reported.{EndsOver, EndsShowing, GivenFor, IsOfRun, own_of, with_failure};
ghost use Rattle.wire_scene.specs.Valid.{IsValidScene};

use crate::ended::{Ended, Report, status_of};
use crate::file::run_file;
use crate::{Job, Kept};
use io_core::{Files, Gate, Sink, SureSink};
use plan_types::{Cause, Listed, Machine};
use report_text::{ReportLine, Show, WriteStop, write_line};
use session_lanes::Told;
use session_work::Runtime;
use std::alloc::{AllocError, Global};
use std::sync::Wait;
use std::thread::Threads;
use wire_scene::Scene;

/// No pulse yet of each of so many steppers.
fn no_pulses(alloc: Global, steppers: usize) -> Result<Vec<u64>, AllocError>
    ensures { IfOk result (λ counts. counts.items ≡ replicate steppers 0) }
{
    let counts = vec![in alloc; 0; steppers]?;
    Ok(counts)
}

/// What is kept of a run before it begins.
fn nothing_kept(alloc: Global, counts: Vec<u64>) -> Kept
    ensures lines { result.lines ≡ [] }
    ensures counts { result.counts ≡ counts }
    ensures at { result.at ≡ 0 }
    ensures unwritten { result.unwritten ≡ None }
    ensures unread { result.unread ≡ None }
{
    Kept {
        lines: Listed::new(alloc),
        counts,
        at: 0,
        unwritten: None,
        unread: None,
        buffer: Vec::new(alloc),
    }
}

/// The cause of a run of whose report a write failed: that it failed, in the place of each cause but want of memory.
pub fn with_failure(cause: Cause) -> Cause
    ensures { result ≡ with_failure cause }
{
    match cause {
        Cause::Memory => Cause::Memory,
        _ => Cause::WriteFault,
    }
}

/// The cause that ends a run whose writing stopped, or didn't.
fn own_of(unwritten: Option<WriteStop>, cause: Cause) -> Cause
    ensures { result ≡ own_of unwritten cause }
{
    match unwritten {
        None => cause,
        Some(WriteStop::Memory) => Cause::Memory,
        Some(WriteStop::Failed) => with_failure(cause),
    }
}

/// Ends a report: its last line is kept and, unless the writing stopped before, written. Answers how the run ended.
fn end_report<S: Sink>(machine: &Machine, cause: Cause, kept: &mut Kept, out: &mut S) -> Cause
    ensures lines { (kept.new.lines ≡ kept.old.lines ++ ReportLine.End (own_of kept.old.unwritten cause) ∷ [])
        ⊎ ((kept.new.lines ≡ kept.old.lines) × (result ≡ Cause.Memory)) }
    ensures counted { kept.new.counts ≡ kept.old.counts }
    ensures cause { GivenFor (own_of kept.old.unwritten cause) result }
    ensures front { kept.old.unwritten ≡ None →
        WritesFront (S.written out.old) (S.written out.new) (line_text machine.now (ReportLine.End cause)) }
    ensures all { kept.old.unwritten ≡ None → result ≢ Cause.Memory → result ≢ Cause.WriteFault →
        WritesAll (S.written out.old) (S.written out.new) (line_text machine.now (ReportLine.End cause)) }
    ensures stopped { (stop : WriteStop) → kept.old.unwritten ≡ Some stop →
        (out.new ≡ out.old) × ((result ≡ own_of (Some stop) cause) ⊎ (result ≡ Cause.Memory)) }
    ensures failed { kept.old.unwritten ≡ None → cause ≢ Cause.WriteFault → result ≡ Cause.WriteFault →
        Rose (S.faults out.old) (S.faults out.new) }
    ensures steady { kept.old.unwritten ≡ None → result ≢ Cause.Memory → result ≢ Cause.WriteFault →
        S.faults out.new ≡ S.faults out.old }
{
    let own = own_of(kept.unwritten, cause);
    if kept.lines.push(ReportLine::End(own)).is_err() {
        return Cause::Memory;
    }
    if kept.unwritten.is_some() {
        return own;
    }
    match write_line(&mut kept.buffer, &ReportLine::End(own), machine, out) {
        Ok(()) => own,
        Err(stop) => own_of(Some(stop), own),
    }
}

/// The end of a run that isn't begun for want of memory: an end line alone.
fn not_begun<S: Sink>(alloc: Global, machine: &Machine, out: &mut S) -> Ended
    ensures memory { result.cause ≡ Cause.Memory }
    ensures status { result.status ≡ status_of result.cause }
    ensures lines { (result.report.lines ≡ ReportLine.End Cause.Memory ∷ []) ⊎ (result.report.lines ≡ []) }
    ensures bare { IsBare result.report }
    ensures written { WritesFront (S.written out.old) (S.written out.new)
        (report_text machine.now result.report.lines) }
{
    let mut lines = Listed::new(alloc);
    let mut buffer = Vec::new(alloc);
    let end = ReportLine::End(Cause::Memory);
    if lines.push(end).is_ok() {
        let _written = write_line(&mut buffer, &end, machine, out);
    }
    Ended {
        status: status_of(&Cause::Memory),
        cause: Cause::Memory,
        report: Report {
            lines,
            counts: Listed::new(alloc),
            links: Vec::new(alloc),
        },
    }
}

/// Runs a file of G-code over an output, to the end of its report.
fn run_over<R: Threads + Wait + Sync, G: Gate + Sync, F: Files, S: Sink>(
    rt: &Runtime<'_, R, G>,
    job: &Job<'_>,
    files: &mut F,
    out: &mut S,
) -> Ended
    requires machine { IsValidMachine job.now.machine.now }
    requires scene { IsValidScene job.now.machine.now job.now.scene.now }
    ensures ends { EndsOver F.Files S.Sink job.now.machine.now job.now.scene.now job.now.name.now
        files.old files.new out.old out.new result }
    ensures counts { length result.report.counts ≤ length job.now.machine.now.steppers }
    ensures of_run { IsOfRun result.cause }
    ensures status { result.status ≡ status_of result.cause }
    ensures read { result.cause ≡ Cause.ReadFault → Rose (F.faults files.old) (F.faults files.new) }
    ensures write { result.cause ≡ Cause.WriteFault → Rose (S.faults out.old) (S.faults out.new) }
    ensures quiet_files { result.cause ≢ Cause.ReadFault → result.cause ≢ Cause.WriteFault →
        result.cause ≢ Cause.Memory → F.faults files.new ≡ F.faults files.old }
    ensures quiet_output { result.cause ≢ Cause.WriteFault → result.cause ≢ Cause.Memory →
        S.faults out.new ≡ S.faults out.old }
{
    let alloc = rt.alloc;
    let machine = job.machine;
    let Ok(counts) = no_pulses(alloc, machine.steppers.len()) else {
        return not_begun(alloc, machine, out);
    };
    let mut kept = nothing_kept(alloc, counts);
    match run_file(rt, job, files, out, &mut kept) {
        Some(told) => {
            let Told { links, cause, .. } = told;
            let cause = end_report(machine, cause, &mut kept, out);
            let Kept { lines, counts, .. } = kept;
            Ended {
                status: status_of(&cause),
                cause,
                report: Report {
                    lines,
                    counts: Listed::of(counts),
                    links,
                },
            }
        }
        None => not_begun(alloc, machine, out),
    }
}

/// Runs a file of G-code on a machine in a scene to the end of its report, in threads or, where one can't be started,
/// turn by turn on the calling one. Where counts alone are shown of it, nothing is written.
///
/// # Errors
///
/// None: how the run ended is told by its cause.
pub fn run<R: Threads + Wait + Sync, F: Files, S: Sink, G: Gate + Sync>(
    rt: &Runtime<'_, R, G>,
    machine: &Machine,
    scene: &Scene,
    name: &str,
    files: &mut F,
    out: &mut S,
    show: Show,
) -> Ended
    requires machine { IsValidMachine machine.now }
    requires scene { IsValidScene machine.now scene.now }
    ensures ends { EndsShowing F.Files S.Sink ⟦<SureSink as Sink>⟧ machine.now scene.now name.now
        files.old files.new out.old out.new result show }
    ensures unwritten { show ≡ Show.Counts → out.new ≡ out.old }
    ensures counts { length result.report.counts ≤ length machine.now.steppers }
    ensures of_run { IsOfRun result.cause }
    ensures status { result.status ≡ status_of result.cause }
    ensures read { result.cause ≡ Cause.ReadFault → Rose (F.faults files.old) (F.faults files.new) }
    ensures write { result.cause ≡ Cause.WriteFault → Rose (S.faults out.old) (S.faults out.new) }
    ensures quiet_files { result.cause ≢ Cause.ReadFault → result.cause ≢ Cause.WriteFault →
        result.cause ≢ Cause.Memory → F.faults files.new ≡ F.faults files.old }
    ensures quiet_output { result.cause ≢ Cause.WriteFault → result.cause ≢ Cause.Memory →
        S.faults out.new ≡ S.faults out.old }
{
    let job = Job {
        machine,
        scene,
        name,
    };
    match show {
        Show::Lines => run_over(rt, &job, files, out),
        Show::Counts => {
            let mut none = SureSink::new();
            run_over(rt, &job, files, &mut none)
        }
    }
}
