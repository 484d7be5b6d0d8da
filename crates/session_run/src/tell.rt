//! The lines of a report, as they are told.
ghost use Rattle.std.specs.Prelude.{◌≡◌, ◌++◌, ◌∷◌, ℕ, List, [], Option, Some, None, length, OnOk, OnErr, IfErr};
ghost use Rattle.io_core.specs.Faults.{Rose};
ghost use Rattle.report_text.specs.Text.{line_text, report_text};
ghost use Rattle.report_text.specs.Written.{WritesAll, WritesFront};
ghost use Rattle.session_run.specs.Counts.{one_more, with_pulse, with_pulses};
ghost use Rattle.session_run.specs.Tells.{WereTold, StopsWriting, Tells, without_pulses};

use crate::read::ReadStop;
use io_core::Sink;
use plan_types::Listed;
use report_text::{LinePrinter, ReportLine, WriteStop, write_piece};

/// What is kept of a run outside of it.
#[derive(Drop)]
pub struct Kept {
    /// The report's lines so far, without those of pulses.
    pub lines: Listed<ReportLine>,
    /// How many pulses of each stepper there were, so far as they are counted.
    pub counts: Vec<u64>,
    /// The place in the text behind the pieces that were read.
    pub at: u64,
    /// Why the writing stopped, and the reading.
    pub unwritten: Option<WriteStop>,
    pub unread: Option<ReadStop>,
    /// The text of the lines that are written next.
    pub buffer: Vec<u8>,
}

// One more pulse of a stepper, where it has a count: that stands still at its type's end.
fn count(counts: &mut Vec<u64>, stepper: u8)
    ensures { counts.new.items ≡ one_more stepper counts.old.items }
{
    let s = usize::from(stepper);
    if s < counts.len() {
        counts[s] = counts[s].saturating_add(1);
    }
}

// Keeps a line, or counts it, where it is one of a pulse.
fn keep(
    kept: &mut Listed<ReportLine>,
    counts: &mut Vec<u64>,
    line: &ReportLine,
) -> Result<(), WriteStop>
    ensures kept { OnOk result (kept.new ≡ kept.old ++ without_pulses (line.now ∷ [])) }
    ensures counted { OnOk result (counts.new.items ≡ with_pulse line.now counts.old.items) }
    ensures same { OnErr result (kept.new ≡ kept.old) }
    ensures uncounted { OnErr result (counts.new.items ≡ counts.old.items) }
    ensures memory { IfErr result (λ stop. stop ≡ WriteStop.Memory) }
{
    match line {
        ReportLine::Pulse { stepper, .. } => {
            count(counts, *stepper);
            Ok(())
        }
        ReportLine::Machine { .. }
        | ReportLine::Board { .. }
        | ReportLine::Section { .. }
        | ReportLine::Cut { .. }
        | ReportLine::Drift { .. }
        | ReportLine::Lines { .. }
        | ReportLine::Out { .. }
        | ReportLine::Fit { .. }
        | ReportLine::Made { .. }
        | ReportLine::Count { .. }
        | ReportLine::End(_) => match kept.push(*line) {
            Ok(()) => Ok(()),
            Err(_) => Err(WriteStop::Memory),
        },
    }
}

// Keeps or counts lines and adds their text to a buffer, up to the first that can't be kept or put into text.
fn gather(
    kept: &mut Listed<ReportLine>,
    counts: &mut Vec<u64>,
    buffer: &mut Vec<u8>,
    machine: &LinePrinter<'_>,
    lines: &[ReportLine],
) -> Result<(), WriteStop>
    ensures text { OnOk result (buffer.new.items ≡ buffer.old.items ++ report_text machine.now lines.now) }
    ensures kept { OnOk result (kept.new ≡ kept.old ++ without_pulses lines.now) }
    ensures counted { OnOk result (counts.new.items ≡ with_pulses lines.now counts.old.items) }
    ensures said { (written : Option (List ℕ)) →
        WereTold machine.now lines.now written written kept.old counts.old.items kept.new counts.new.items }
    ensures memory { IfErr result (λ stop. stop ≡ WriteStop.Memory) }
{
    for line in lines {
        keep(kept, counts, line)?;
        if machine.put(buffer, line).is_err() {
            return Err(WriteStop::Memory);
        }
    }
    Ok(())
}

// Keeps or counts lines and writes them in one piece, unless memory is wanted before.
fn say<S: Sink>(
    kept: &mut Listed<ReportLine>,
    counts: &mut Vec<u64>,
    buffer: &mut Vec<u8>,
    machine: &LinePrinter<'_>,
    lines: &[ReportLine],
    out: &mut S,
) -> Result<(), WriteStop>
    ensures all { OnOk result (WritesAll (S.written out.old) (S.written out.new) (report_text machine.now lines.now)) }
    ensures steady { OnOk result (S.faults out.new ≡ S.faults out.old) }
    ensures kept { OnOk result (kept.new ≡ kept.old ++ without_pulses lines.now) }
    ensures counted { OnOk result (counts.new.items ≡ with_pulses lines.now counts.old.items) }
    ensures said { WereTold machine.now lines.now (S.written out.old) (S.written out.new) kept.old
        counts.old.items kept.new
        counts.new.items }
    ensures stopped { IfErr result (λ stop. StopsWriting stop (S.faults out.old) (S.faults out.new)) }
{
    buffer.clear();
    gather(kept, counts, buffer, machine, lines)?;
    if write_piece(out, buffer).is_err() {
        return Err(WriteStop::Failed);
    }
    Ok(())
}

/// Tells lines: keeps them, but for those of pulses, which it counts, and writes them, unless the writing was
/// stopped before.
pub fn tell_lines<S: Sink>(
    kept: &mut Kept,
    machine: &LinePrinter<'_>,
    lines: &[ReportLine],
    out: &mut S,
)
    ensures told { Tells machine.now lines.now kept.old.unwritten (S.written out.old) (S.faults out.old) kept.old.lines
        kept.old.counts.items kept.new.unwritten (S.written out.new) (S.faults out.new) kept.new.lines
        kept.new.counts.items }
    ensures at { kept.new.at ≡ kept.old.at }
    ensures unread { kept.new.unread ≡ kept.old.unread }
{
    if lines.is_empty() || kept.unwritten.is_some() {
        return;
    }
    kept.unwritten = say(
        &mut kept.lines,
        &mut kept.counts,
        &mut kept.buffer,
        machine,
        lines,
        out,
    )
    .err();
}
