//! How a command ends: what it shows, and its end behind the writing of that.

ghost use Rattle.std.specs.Prelude.{◌≡◌, ◌≢◌};
ghost use Rattle.host_cli.specs.Promises.{EndsAs};
ghost use Rattle.report_text.specs.Text.{report_text};
ghost use Rattle.report_text.specs.Written.{WritesAll, WritesFront};
ghost use Rattle.session_run.specs.Ends.{IsBare, status_of};

use crate::answer::Answer;
use io_core::Sink;
use plan_types::{Cause, Listed};
use report_text::{ReportLine, WriteStop, write_lines};
use session_run::{Ended, Report, status_of, with_failure};
use std::alloc::Global;

/// A report of these lines, which tells neither of pulses nor of links.
pub fn bare_report(alloc: Global, lines: Listed<ReportLine>) -> Report
    ensures lines { result.lines ≡ lines }
    ensures bare { IsBare result }
{
    Report {
        lines,
        counts: Listed::new(alloc),
        links: Vec::new(alloc),
    }
}

/// How a command ended that shows these lines alone.
pub fn end_showing(alloc: Global, cause: Cause, lines: Listed<ReportLine>) -> Ended
    ensures cause { result.cause ≡ cause }
    ensures status { result.status ≡ status_of cause }
    ensures lines { result.report.lines ≡ lines }
    ensures bare { IsBare result.report }
{
    Ended {
        status: status_of(&cause),
        cause,
        report: bare_report(alloc, lines),
    }
}

/// Writes an answer's report.
pub fn finish<S: Sink>(alloc: Global, answer: Answer, out: &mut S) -> Ended
    ensures report { result.report ≡ answer.report }
    ensures status { result.status ≡ status_of result.cause }
    ensures cause { EndsAs answer.cause (S.faults out.old) (S.faults out.new) result.cause }
    ensures front { WritesFront (S.written out.old) (S.written out.new)
        (report_text answer.machine answer.report.lines) }
    ensures all { result.cause ≢ Cause.Memory → result.cause ≢ Cause.WriteFault →
        WritesAll (S.written out.old) (S.written out.new) (report_text answer.machine answer.report.lines) }
{
    let cause = match write_lines(alloc, answer.report.lines.as_slice(), &answer.machine, out) {
        Ok(()) => answer.cause,
        Err(WriteStop::Memory) => Cause::Memory,
        Err(WriteStop::Failed) => with_failure(answer.cause),
    };
    Ended {
        status: status_of(&cause),
        cause,
        report: answer.report,
    }
}
