//! Machines of configurations, and end lines alone.

ghost use Rattle.std.specs.Prelude.{◌≡◌, ◌≢◌, ◌∷◌, [], ℕ, List, IfOk, IfErr, OnOk};
ghost use Rattle.io_core.specs.Faults.{Rose};
ghost use Rattle.plan_types.specs.Machines.{IsValidMachine};
ghost use Rattle.host_cli.specs.Answers.{EndsWith, IsMachineFault, IsMachineOf};

use crate::answer::Answer;
use crate::ended::bare_report;
use crate::source::{ReadFault, read_text};
use cfg_text::{CfgFault, read_config};
use io_core::Files;
use plan_types::{AxisDef, Cause, Listed, Machine};
use report_text::ReportLine;
use std::alloc::{AllocError, Global};

/// One byte more is read of a configuration, to tell that it is too large.
const CONFIG_LIMIT: u64 = 1_048_576;

/// Longer files of G-code are cut.
pub const GCODE_LIMIT: u64 = (1 << 62) - 1;

/// A machine without boards, for reports that name none.
pub fn no_machine(alloc: Global) -> Machine {
    let axis = AxisDef {
        min: 0,
        max: 0,
        endstop: 0,
        speed: 0,
        board: 0,
        pin: 0,
        pressed: true,
    };
    Machine {
        corexy: false,
        v: 0,
        a: 0,
        scv: 0,
        cruise: 0,
        homed: false,
        boards: Listed::new(alloc),
        steppers: Listed::new(alloc),
        axes: [axis; 3],
        fan: None,
        passed: 0,
    }
}

/// The end line of a cause.
pub fn end_line(alloc: Global, cause: Cause) -> Result<Listed<ReportLine>, AllocError>
    ensures { IfOk result (λ lines. lines ≡ ReportLine.End cause ∷ []) }
{
    let mut lines = Listed::new(alloc);
    lines.push(ReportLine::End(cause))?;
    Ok(lines)
}

/// An end line alone.
pub fn end_with(alloc: Global, cause: Cause) -> Answer
    ensures { EndsWith cause result }
{
    let machine = no_machine(alloc);
    match end_line(alloc, cause) {
        Ok(lines) => Answer {
            cause,
            machine,
            report: bare_report(alloc, lines),
        },
        Err(_) => Answer {
            cause: Cause::Memory,
            machine,
            report: bare_report(alloc, Listed::new(alloc)),
        },
    }
}

/// Reads a configuration: its machine, or an answer that says why there is none.
pub fn read_machine<F: Files>(alloc: Global, files: &mut F, name: &str) -> Result<Machine, Cause>
    ensures machine { IfOk result (λ m. IsMachineOf (F.told files.old name.now) m) }
    ensures valid { IfOk result (λ m. IsValidMachine m) }
    ensures fault { IfErr result (λ cause. IsMachineFault (F.told files.old name.now) cause) }
    ensures steady { OnOk result (F.faults files.new ≡ F.faults files.old) }
    ensures read { IfErr result (λ cause. cause ≡ Cause.ReadFault → Rose (F.faults files.old) (F.faults files.new)) }
    ensures quiet { IfErr result (λ cause. cause ≢ Cause.ReadFault → F.faults files.new ≡ F.faults files.old) }
    ensures same { (other : List ℕ) → F.told files.new other ≡ F.told files.old other }
{
    let text = match read_text(alloc, files, name, CONFIG_LIMIT) {
        Ok(text) => text,
        Err(ReadFault::Memory) => return Err(Cause::Memory),
        Err(ReadFault::Failed) => return Err(Cause::ReadFault),
    };
    match read_config(alloc, &text) {
        Ok(machine) => Ok(machine),
        Err(CfgFault::Memory(_)) => Err(Cause::Memory),
        Err(CfgFault::At { line, kind }) => Err(Cause::Config { line, kind }),
    }
}
