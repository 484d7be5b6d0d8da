//! The part fan of a file: when it is switched.

ghost use Rattle.std.specs.Prelude.{◌≡◌, ◌≢◌, ◌++◌, ℕ, ◌/◌, ◌<◌, ◌≤◌, ◌^◌, List, Some, None, Ok, Err, IfOk, OnOk, length, map};
ghost use Rattle.cfg_lines.specs.declared.fault.CfgFault.TheVariants.{At};
ghost use Rattle.cfg_text.specs.Reading.{machine_of_text};
ghost use Rattle.gcode_program.specs.Programs.{program_end};
ghost use Rattle.io_core.specs.Faults.{Rose};
ghost use Rattle.plan_types.specs.declared.cause.CfgKind.{CfgKind};
ghost use Rattle.plan_types.specs.declared.machine.FanDef.{FanDef};
ghost use Rattle.plan_types.specs.declared.machine.Machine.{Machine};
ghost use Rattle.plan_types.specs.Machines.{IsValidMachine, board_at};
ghost use Rattle.host_cli.specs.Answers.{EndsWith, IsRefusal, HasMachine};
ghost use Rattle.laws_report.specs.reports.Body.{cause_of};
ghost use Rattle.host_cli.specs.Fans.{IsFanAnswer, ShowsFan, fan_lines, out_line};
ghost use Rattle.host_cli.specs.Promises.{IsRefused};
ghost use Rattle.host_cli.specs.Traffic.{EndsCleanly};

use crate::answer::Answer;
use crate::ended::{bare_report, finish};
use crate::report::cause_of;
use crate::run::{GCODE_LIMIT, end_with, read_machine};
use crate::source::{ReadFault, read_text};
use digital_out::{Want, fan_plan, switchings};
use io_core::{Files, Sink};
use plan_types::{Cause, FanDef, Listed, Machine};
use report_text::ReportLine;
use session_run::Ended;
use std::alloc::{AllocError, Global};

/// Adds the lines of switchings.
fn put_outs(lines: &mut Vec<ReportLine>, fan: FanDef, outs: &[Want]) -> Result<(), AllocError>
    ensures { OnOk result (lines.new.items ≡ lines.old.items ++ map (out_line fan) outs.now) }
{
    for want in outs {
        lines.push(ReportLine::Out {
            board: fan.board,
            pin: fan.pin,
            tick: want.tick,
            on: want.on,
        })?;
    }
    Ok(())
}

/// The report of a fan.
#[derive(Drop)]
struct FanReport {
    cause: Cause,
    lines: Vec<ReportLine>,
}

/// The ticks of a turn on a fan's board.
#[tactic(auto, using(crate::proofs::Fanned::fan_there, crate::proofs::Fanned::fan_board))]
fn ticks_of(machine: &Machine, fan: FanDef) -> u64
    requires machine { IsValidMachine machine.now }
    requires fan { machine.now.fan ≡ Some fan }
    ensures value { result ≡ (board_at machine.now fan.board).freq / 1_000 }
    ensures some { 0 < result }
    ensures few { result ≤ 200_000 }
{
    u64::from(machine.boards.as_slice()[fan.board as usize].freq / 1_000)
}

/// The report of the fan of a text on a machine.
#[tactic(auto, using(crate::proofs::Fanned::fan_there))]
fn fan_report(
    alloc: Global,
    machine: &Machine,
    fan: FanDef,
    text: &[u8],
) -> Result<FanReport, AllocError>
    requires machine { IsValidMachine machine.now }
    requires fan { machine.now.fan ≡ Some fan }
    ensures cause { IfOk result (λ report. report.cause ≡ cause_of (program_end machine.now text.now).stop) }
    ensures lines { IfOk result (λ report. report.lines.items ≡ fan_lines machine.now fan text.now) }
{
    let plan = fan_plan(alloc, machine, fan, text)?;
    let outs = switchings(alloc, &plan.wants, ticks_of(machine, fan))?;
    let mut lines = Vec::new(alloc);
    put_outs(&mut lines, fan, &outs)?;
    lines.push(ReportLine::Lines {
        lines: plan.end.lines,
        passed: plan.end.passed,
    })?;
    let cause = cause_of(&plan.end.stop);
    lines.push(ReportLine::End(cause))?;
    Ok(FanReport { cause, lines })
}

/// The fan of a text on a machine.
fn fan_of_text(alloc: Global, machine: Machine, fan: FanDef, text: &[u8]) -> Answer
    requires machine { IsValidMachine machine }
    requires fan { machine.fan ≡ Some fan }
    ensures answer { IsFanAnswer machine fan text.now result }
    ensures no_read { result.cause ≢ Cause.ReadFault }
    ensures no_write { result.cause ≢ Cause.WriteFault }
    ensures configured { HasMachine result }
{
    match fan_report(alloc, &machine, fan, text) {
        Ok(FanReport { cause, lines }) => Answer {
            cause,
            machine,
            report: bare_report(alloc, Listed::of(lines)),
        },
        Err(_) => end_with(alloc, Cause::Memory),
    }
}

/// The fan of a file of G-code on a machine.
fn fan_of_file<F: Files>(alloc: Global, machine: Machine, files: &mut F, name: &str) -> Answer
    requires { IsValidMachine machine }
    ensures answer { (f : FanDef) (text : List ℕ) → machine.fan ≡ Some f → F.told files.old name.now ≡ Some text →
        length text < 2 ^ 62 → IsFanAnswer machine f text result }
    ensures no_fan { machine.fan ≡ None → IsRefusal Cause.NoFan result }
    ensures configured { HasMachine result }
    ensures no_write { result.cause ≢ Cause.WriteFault }
    ensures read { result.cause ≡ Cause.ReadFault → Rose (F.faults files.old) (F.faults files.new) }
    ensures quiet { result.cause ≢ Cause.ReadFault → result.cause ≢ Cause.Memory →
        F.faults files.new ≡ F.faults files.old }
{
    let Some(fan) = machine.fan else {
        return end_with(alloc, Cause::NoFan);
    };
    match read_text(alloc, files, name, GCODE_LIMIT) {
        Ok(text) => fan_of_text(alloc, machine, fan, &text),
        Err(ReadFault::Memory) => end_with(alloc, Cause::Memory),
        Err(ReadFault::Failed) => end_with(alloc, Cause::ReadFault),
    }
}

/// The fan of a file of G-code on the machine of a configuration.
pub fn fan_of_files<F: Files>(alloc: Global, files: &mut F, config: &str, gcode: &str) -> Answer
    ensures answer { (printer text : List ℕ) (m : Machine) (f : FanDef) → F.told files.old config.now ≡ Some printer →
        machine_of_text printer ≡ Ok m → m.fan ≡ Some f → F.told files.old gcode.now ≡ Some text →
        length text < 2 ^ 62 →
        IsFanAnswer m f text result }
    ensures no_fan { (printer : List ℕ) (m : Machine) → F.told files.old config.now ≡ Some printer →
        machine_of_text printer ≡ Ok m → m.fan ≡ None → IsRefusal Cause.NoFan result }
    ensures config { (printer : List ℕ) (line : ℕ) (kind : CfgKind) → F.told files.old config.now ≡ Some printer →
        machine_of_text printer ≡ Err (At line kind) → IsRefusal (Cause.Config line kind) result }
    ensures not_usage { result.cause ≢ Cause.Usage }
    ensures no_write { result.cause ≢ Cause.WriteFault }
    ensures read { result.cause ≡ Cause.ReadFault → Rose (F.faults files.old) (F.faults files.new) }
    ensures quiet { result.cause ≢ Cause.ReadFault → result.cause ≢ Cause.Memory →
        F.faults files.new ≡ F.faults files.old }
{
    match read_machine(alloc, files, config) {
        Ok(machine) => fan_of_file(alloc, machine, files, gcode),
        Err(cause) => end_with(alloc, cause),
    }
}

/// Shows the fan of a file of G-code on the machine of a configuration.
pub fn run_fan<F: Files, S: Sink>(
    alloc: Global,
    config: &str,
    gcode: &str,
    files: &mut F,
    out: &mut S,
) -> Ended
    ensures shows { (printer text : List ℕ) (m : Machine) (f : FanDef) → F.told files.old config.now ≡ Some printer →
        machine_of_text printer ≡ Ok m → m.fan ≡ Some f → F.told files.old gcode.now ≡ Some text →
        length text < 2 ^ 62 →
        ShowsFan m f text (S.written out.old) (S.written out.new) result.cause result.report }
    ensures no_fan { (printer : List ℕ) (m : Machine) → F.told files.old config.now ≡ Some printer →
        machine_of_text printer ≡ Ok m → m.fan ≡ None →
        IsRefused Cause.NoFan (S.written out.old) (S.written out.new) result.cause result.report }
    ensures config { (printer : List ℕ) (line : ℕ) (kind : CfgKind) → F.told files.old config.now ≡ Some printer →
        machine_of_text printer ≡ Err (At line kind) →
        IsRefused (Cause.Config line kind) (S.written out.old) (S.written out.new) result.cause result.report }
    ensures ends { EndsCleanly (F.faults files.old) (F.faults files.new) (S.faults out.old) (S.faults out.new)
        result.status result.cause }
{
    let answer = fan_of_files(alloc, files, config, gcode);
    finish(alloc, answer, out)
}
