//! The check of a log of pulses against the plan of a file.

ghost use Rattle.std.specs.Prelude.{◌≡◌, ◌≢◌, ℕ, ◌<◌, ◌^◌, List, Some, Ok, Err, IfOk, length};
ghost use Rattle.cfg_lines.specs.declared.fault.CfgFault.TheVariants.{At};
ghost use Rattle.cfg_text.specs.Reading.{machine_of_text};
ghost use Rattle.io_core.specs.Faults.{Rose};
ghost use Rattle.log_check.specs.Verdicts.{IsJudged};
ghost use Rattle.plan_types.specs.declared.cause.CfgKind.{CfgKind};
ghost use Rattle.plan_types.specs.declared.machine.Machine.{Machine};
ghost use Rattle.plan_types.specs.Machines.{IsValidMachine};
ghost use Rattle.host_cli.specs.Answers.{IsRefusal, HasMachine};
ghost use Rattle.laws_report.specs.reports.Checks.{check_cause, check_lines};
ghost use Rattle.host_cli.specs.Checks.{IsCheckAnswer, ShowsCheck};
ghost use Rattle.host_cli.specs.Promises.{IsRefused};
ghost use Rattle.host_cli.specs.Traffic.{EndsCleanly};

use crate::answer::Answer;
use crate::ended::{bare_report, finish};
use crate::run::{GCODE_LIMIT, end_with, read_machine};
use crate::source::{ReadFault, read_text};
use gcode_program::read_program;
use io_core::{Files, Sink};
use log_check::{Checked, check_log};
use plan_types::{Cause, Listed, Machine};
use session_run::Ended;
use std::alloc::{AllocError, Global};

/// Checks the text of a log against the sections of a text of G-code.
fn checked(alloc: Global, machine: &Machine, text: &[u8], log: &[u8]) -> Result<Checked, AllocError>
    requires machine { IsValidMachine machine.now }
    requires size { length log.now < 2 ^ 63 }
    ensures cause { IfOk result (λ c. c.cause ≡ check_cause machine.now text.now log.now) }
    ensures lines { IfOk result (λ c. c.lines.items ≡ check_lines machine.now text.now log.now) }
{
    let program = read_program(alloc, machine, text)?;
    let checked = check_log(alloc, machine, program.sections.as_slice(), log)?;
    Ok(checked)
}

/// The check of a log against a text of G-code.
fn check_text(alloc: Global, machine: Machine, text: &[u8], log: &[u8]) -> Answer
    requires machine { IsValidMachine machine }
    requires size { length log.now < 2 ^ 63 }
    ensures answer { IsCheckAnswer machine text.now log.now result }
    ensures configured { HasMachine result }
    ensures no_read { result.cause ≢ Cause.ReadFault }
    ensures no_write { result.cause ≢ Cause.WriteFault }
{
    match checked(alloc, &machine, text, log) {
        Ok(Checked { cause, lines }) => Answer {
            cause,
            machine,
            report: bare_report(alloc, Listed::of(lines)),
        },
        Err(_) => end_with(alloc, Cause::Memory),
    }
}

/// The check of a file with a log against a file of G-code on a machine.
fn check_file<F: Files>(
    alloc: Global,
    machine: Machine,
    files: &mut F,
    gcode: &str,
    report: &str,
) -> Answer
    requires { IsValidMachine machine }
    ensures answer { (text log : List ℕ) → F.told files.old gcode.now ≡ Some text → length text < 2 ^ 62 →
        F.told files.old report.now ≡ Some log → length log < 2 ^ 62 → IsCheckAnswer machine text log result }
    ensures configured { HasMachine result }
    ensures no_write { result.cause ≢ Cause.WriteFault }
    ensures read { result.cause ≡ Cause.ReadFault → Rose (F.faults files.old) (F.faults files.new) }
    ensures quiet { result.cause ≢ Cause.ReadFault → result.cause ≢ Cause.Memory →
        F.faults files.new ≡ F.faults files.old }
{
    let text = match read_text(alloc, files, gcode, GCODE_LIMIT) {
        Ok(text) => text,
        Err(ReadFault::Memory) => return end_with(alloc, Cause::Memory),
        Err(ReadFault::Failed) => return end_with(alloc, Cause::ReadFault),
    };
    match read_text(alloc, files, report, GCODE_LIMIT) {
        Ok(log) => check_text(alloc, machine, &text, &log),
        Err(ReadFault::Memory) => end_with(alloc, Cause::Memory),
        Err(ReadFault::Failed) => end_with(alloc, Cause::ReadFault),
    }
}

/// The check of a file with a log against a file of G-code on the machine of a configuration.
pub fn check_files<F: Files>(
    alloc: Global,
    files: &mut F,
    config: &str,
    gcode: &str,
    report: &str,
) -> Answer
    ensures answer { (printer text log : List ℕ) (m : Machine) → F.told files.old config.now ≡ Some printer →
        machine_of_text printer ≡ Ok m → F.told files.old gcode.now ≡ Some text → length text < 2 ^ 62 →
        F.told files.old report.now ≡ Some log → length log < 2 ^ 62 → IsCheckAnswer m text log result }
    ensures config { (printer : List ℕ) (line : ℕ) (kind : CfgKind) → F.told files.old config.now ≡ Some printer →
        machine_of_text printer ≡ Err (At line kind) → IsRefusal (Cause.Config line kind) result }
    ensures not_usage { result.cause ≢ Cause.Usage }
    ensures no_write { result.cause ≢ Cause.WriteFault }
    ensures read { result.cause ≡ Cause.ReadFault → Rose (F.faults files.old) (F.faults files.new) }
    ensures quiet { result.cause ≢ Cause.ReadFault → result.cause ≢ Cause.Memory →
        F.faults files.new ≡ F.faults files.old }
{
    match read_machine(alloc, files, config) {
        Ok(machine) => check_file(alloc, machine, files, gcode, report),
        Err(cause) => end_with(alloc, cause),
    }
}

/// Shows the check of a file with a log against a file of G-code on the machine of a configuration.
pub fn run_check<F: Files, S: Sink>(
    alloc: Global,
    config: &str,
    gcode: &str,
    report: &str,
    files: &mut F,
    out: &mut S,
) -> Ended
    ensures shows { (printer text log : List ℕ) (m : Machine) → F.told files.old config.now ≡ Some printer →
        machine_of_text printer ≡ Ok m → F.told files.old gcode.now ≡ Some text → length text < 2 ^ 62 →
        F.told files.old report.now ≡ Some log → length log < 2 ^ 62 →
        ShowsCheck m text log (S.written out.old) (S.written out.new) result.cause result.report }
    ensures config { (printer : List ℕ) (line : ℕ) (kind : CfgKind) → F.told files.old config.now ≡ Some printer →
        machine_of_text printer ≡ Err (At line kind) →
        IsRefused (Cause.Config line kind) (S.written out.old) (S.written out.new) result.cause result.report }
    ensures ends { EndsCleanly (F.faults files.old) (F.faults files.new) (S.faults out.old) (S.faults out.new)
        result.status result.cause }
{
    let answer = check_files(alloc, files, config, gcode, report);
    finish(alloc, answer, out)
}
