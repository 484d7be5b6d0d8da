//! Writing lines, each as one piece.

ghost use Rattle.std.specs.Prelude.{◌≡◌, ℕ, ◌<◌, ◌≤◌, ◌++◌, List, Option, Some, OnOk, OnErr, IfErr, length, drop};
ghost use Rattle.io_core.specs.Faults.{Rose};
ghost use Rattle.report_text.specs.Text.{line_text, report_text};
ghost use Rattle.report_text.specs.Written.{WritesAll, WritesFront};

use crate::{ReportLine, put_line};
use io_core::{Failed, Sink};
use plan_types::Machine;
use std::alloc::Global;

/// Why the writing of a report stopped.
#[derive(Debug, Clone, Copy, PartialEq, Eq)]
pub enum WriteStop {
    /// Memory was wanted for a line's text.
    Memory,
    /// The sink failed.
    Failed,
}

/// Writes a piece, again from where it was cut until it is out.
pub fn write_piece<S: Sink>(out: &mut S, piece: &[u8]) -> Result<(), Failed>
    ensures all { OnOk result (WritesAll (S.written out.old) (S.written out.new) piece.now) }
    ensures front { WritesFront (S.written out.old) (S.written out.new) piece.now }
    ensures steady { OnOk result (S.faults out.new ≡ S.faults out.old) }
    ensures failed { OnErr result (Rose (S.faults out.old) (S.faults out.new)) }
{
    let mut rest = piece;
    while !rest.is_empty() {
        let count = out.write(rest)?;
        rest = behind(rest, count);
    }
    Ok(())
}

/// What is left of a piece behind so many bytes.
fn behind(piece: &[u8], count: usize) -> &[u8]
    requires { count ≤ length piece.now }
    ensures { result.now ≡ drop count piece.now }
{
    &piece[count..]
}

/// Writes one line of a report, as one piece. Its text is made in a buffer that is used again for the next.
pub fn write_line<S: Sink>(
    buffer: &mut Vec<u8>,
    line: &ReportLine,
    machine: &Machine,
    out: &mut S,
) -> Result<(), WriteStop>
    ensures all { OnOk result (WritesAll (S.written out.old) (S.written out.new) (line_text machine.now line.now)) }
    ensures front { WritesFront (S.written out.old) (S.written out.new) (line_text machine.now line.now) }
    ensures steady { OnOk result (S.faults out.new ≡ S.faults out.old) }
    ensures failed { IfErr result (λ stop. stop ≡ WriteStop.Failed → Rose (S.faults out.old) (S.faults out.new)) }
    ensures quiet { IfErr result (λ stop. stop ≡ WriteStop.Memory → S.faults out.new ≡ S.faults out.old) }
{
    buffer.clear();
    if put_line(buffer, line, machine).is_err() {
        return Err(WriteStop::Memory);
    }
    if write_piece(out, buffer).is_err() {
        return Err(WriteStop::Failed);
    }
    Ok(())
}

/// Writes the lines of a report, each as one piece.
pub fn write_lines<S: Sink>(
    alloc: Global,
    lines: &[ReportLine],
    machine: &Machine,
    out: &mut S,
) -> Result<(), WriteStop>
    ensures all { OnOk result (WritesAll (S.written out.old) (S.written out.new) (report_text machine.now lines.now)) }
    ensures front { WritesFront (S.written out.old) (S.written out.new) (report_text machine.now lines.now) }
    ensures steady { OnOk result (S.faults out.new ≡ S.faults out.old) }
    ensures failed { IfErr result (λ stop. stop ≡ WriteStop.Failed → Rose (S.faults out.old) (S.faults out.new)) }
    ensures quiet { IfErr result (λ stop. stop ≡ WriteStop.Memory → S.faults out.new ≡ S.faults out.old) }
{
    let mut buffer = Vec::new(alloc);
    for line in lines {
        write_line(&mut buffer, line, machine, out)?;
    }
    Ok(())
}
