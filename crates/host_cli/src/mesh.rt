//! A file of G-code that follows a measured bed.

ghost use Rattle.std.specs.Prelude.{◌≡◌, ◌≢◌, ◌⊎◌, ℕ, ◌<◌, ◌^◌, [], List, Some, Ok, Err, IfErr, IfOk, OnOk, length};
ghost use Rattle.bed_mesh.specs.declared.fault.MeshFault.TheVariants as fault;
ghost use Rattle.bed_mesh.specs.declared.mesh.Mesh.{Mesh};
ghost use Rattle.bed_mesh.specs.Grids.{IsValidMesh};
ghost use Rattle.bed_mesh.specs.Tables as tables;
ghost use Rattle.cfg_lines.specs.declared.fault.CfgFault.TheVariants.{At};
ghost use Rattle.cfg_text.specs.Reading.{machine_of_text};
ghost use Rattle.io_core.specs.Faults.{Rose};
ghost use Rattle.plan_types.specs.declared.cause.CfgKind.{CfgKind};
ghost use Rattle.plan_types.specs.declared.cause.MeshKind.{MeshKind};
ghost use Rattle.plan_types.specs.declared.machine.Machine.{Machine};
ghost use Rattle.plan_types.specs.Machines.{IsValidMachine};
ghost use Rattle.report_text.specs.Written.{WritesAll, WritesFront};
ghost use Rattle.bed_mesh.specs.Files.{mesh_code, mesh_end};
ghost use Rattle.laws_report.specs.reports.Body.{cause_of};
ghost use Rattle.host_cli.specs.Meshes.{IsMeshIn, IsTableFault, ShowsMarked, WritesMarked, mark, marked};
ghost use Rattle.host_cli.specs.Traffic.{EndsCleanly};
ghost use Rattle.session_run.specs.Ends.{status_of};

use crate::ended::end_showing;
use crate::report::cause_of;
use crate::run::{GCODE_LIMIT, end_line, no_machine, read_machine};
use crate::source::{ReadFault, read_text};
use bed_mesh::{Mesh, MeshFault, mesh_file, read_mesh};
use io_core::{Files, Sink};
use plan_types::{Cause, Listed, Machine};
use report_text::{ReportLine, WriteStop, write_line, write_piece};
use session_run::{Ended, with_failure};
use std::alloc::Global;

/// One byte more is read of a table, to tell that it is too large.
const TABLE_LIMIT: u64 = 1_048_576;

/// The words of a file that follows a bed: a configuration, a G-code, and a table of heights.
#[derive(Clone, Copy)]
pub struct MeshWords<'a> {
    pub config: &'a str,
    pub gcode: &'a str,
    pub table: &'a str,
}

/// Reads a table, or says why there is none.
fn read_table<F: Files>(alloc: Global, files: &mut F, name: &str) -> Result<Mesh, Cause>
    ensures mesh { IfOk result (λ t. IsMeshIn (F.told files.old name.now) t) }
    ensures valid { IfOk result (λ t. IsValidMesh t) }
    ensures fault { IfErr result (λ cause. IsTableFault (F.told files.old name.now) cause) }
    ensures steady { OnOk result (F.faults files.new ≡ F.faults files.old) }
    ensures read { IfErr result (λ cause. cause ≡ Cause.ReadFault → Rose (F.faults files.old) (F.faults files.new)) }
    ensures quiet { IfErr result (λ cause. cause ≢ Cause.ReadFault → F.faults files.new ≡ F.faults files.old) }
    ensures same { (other : List ℕ) → F.told files.new other ≡ F.told files.old other }
{
    let text = match read_text(alloc, files, name, TABLE_LIMIT) {
        Ok(text) => text,
        Err(ReadFault::Memory) => return Err(Cause::Memory),
        Err(ReadFault::Failed) => return Err(Cause::ReadFault),
    };
    match read_mesh(alloc, &text) {
        Ok(mesh) => Ok(mesh),
        Err(MeshFault::Memory) => Err(Cause::Memory),
        Err(MeshFault::At { line, kind }) => Err(Cause::Mesh { line, kind }),
    }
}

/// Writes a code, and behind it the end line of a cause as a comment.
fn write_marked<S: Sink>(
    alloc: Global,
    machine: &Machine,
    code: &[u8],
    cause: Cause,
    out: &mut S,
) -> Result<(), WriteStop>
    ensures all { OnOk result (WritesAll (S.written out.old) (S.written out.new) (marked machine.now code.now cause)) }
    ensures front { WritesFront (S.written out.old) (S.written out.new) (marked machine.now code.now cause) }
    ensures steady { OnOk result (S.faults out.new ≡ S.faults out.old) }
    ensures failed { IfErr result (λ stop. stop ≡ WriteStop.Failed → Rose (S.faults out.old) (S.faults out.new)) }
{
    if write_piece(out, code).is_err() {
        return Err(WriteStop::Failed);
    }
    write_mark(alloc, machine, cause, out)
}

/// Writes the end line of a cause as a comment.
fn write_mark<S: Sink>(
    alloc: Global,
    machine: &Machine,
    cause: Cause,
    out: &mut S,
) -> Result<(), WriteStop>
    ensures all { OnOk result (WritesAll (S.written out.old) (S.written out.new) (mark machine.now cause)) }
    ensures front { WritesFront (S.written out.old) (S.written out.new) (mark machine.now cause) }
    ensures steady { OnOk result (S.faults out.new ≡ S.faults out.old) }
    ensures failed { IfErr result (λ stop. stop ≡ WriteStop.Failed → Rose (S.faults out.old) (S.faults out.new)) }
{
    if write_piece(out, b"; ").is_err() {
        return Err(WriteStop::Failed);
    }
    let mut buffer = Vec::new(alloc);
    write_line(&mut buffer, &ReportLine::End(cause), machine, out)?;
    Ok(())
}

/// Writes a code and the end line, and says how that ended.
fn show<S: Sink>(alloc: Global, code: &[u8], cause: Cause, out: &mut S) -> Ended
    ensures shows { WritesMarked code.now cause (S.written out.old) (S.written out.new) result.cause result.report
        ⊎ WritesMarked [] Cause.Memory (S.written out.old) (S.written out.new) result.cause result.report }
    ensures own { result.cause ≢ Cause.WriteFault → result.cause ≢ Cause.Memory → result.cause ≡ cause }
    ensures status { result.status ≡ status_of result.cause }
    ensures write { cause ≢ Cause.WriteFault → result.cause ≡ Cause.WriteFault →
        Rose (S.faults out.old) (S.faults out.new) }
    ensures quiet { result.cause ≢ Cause.WriteFault → result.cause ≢ Cause.Memory →
        S.faults out.new ≡ S.faults out.old }
{
    let names = no_machine(alloc);
    let Ok(lines) = end_line(alloc, cause) else {
        return end_showing(alloc, Cause::Memory, Listed::new(alloc));
    };
    match write_marked(alloc, &names, code, cause, out) {
        Ok(()) => end_showing(alloc, cause, lines),
        Err(WriteStop::Memory) => end_showing(alloc, Cause::Memory, lines),
        Err(WriteStop::Failed) => end_showing(alloc, with_failure(cause), lines),
    }
}

/// The file for a file of G-code on a machine over a bed.
fn over_bed<F: Files, S: Sink>(
    alloc: Global,
    machine: &Machine,
    bed: &Mesh,
    gcode: &str,
    files: &mut F,
    out: &mut S,
) -> Ended
    requires machine { IsValidMachine machine.now }
    requires bed { IsValidMesh bed.now }
    ensures shows { (text : List ℕ) → F.told files.old gcode.now ≡ Some text → length text < 2 ^ 62 →
        ShowsMarked (mesh_code machine.now bed.now text) (cause_of (mesh_end machine.now bed.now text).stop)
        (S.written out.old) (S.written out.new) result.cause result.report }
    ensures ends { EndsCleanly (F.faults files.old) (F.faults files.new) (S.faults out.old) (S.faults out.new)
        result.status result.cause }
{
    let text = match read_text(alloc, files, gcode, GCODE_LIMIT) {
        Ok(text) => text,
        Err(ReadFault::Memory) => return show(alloc, b"", Cause::Memory, out),
        Err(ReadFault::Failed) => return show(alloc, b"", Cause::ReadFault, out),
    };
    match mesh_file(alloc, machine, bed, &text) {
        Ok(file) => show(alloc, &file.code, cause_of(&file.read.stop), out),
        Err(_) => show(alloc, b"", Cause::Memory, out),
    }
}

/// The file for a file of G-code on a machine over a bed in a table.
fn on_machine<F: Files, S: Sink>(
    alloc: Global,
    machine: &Machine,
    words: &MeshWords,
    files: &mut F,
    out: &mut S,
) -> Ended
    requires { IsValidMachine machine.now }
    ensures shows { (rows text : List ℕ) (t : Mesh) → F.told files.old words.now.table.now ≡ Some rows →
        tables.mesh_of_text rows ≡ Ok t → F.told files.old words.now.gcode.now ≡ Some text → length text < 2 ^ 62 →
        ShowsMarked (mesh_code machine.now t text) (cause_of (mesh_end machine.now t text).stop) (S.written out.old)
        (S.written out.new) result.cause result.report }
    ensures table { (rows : List ℕ) (line : ℕ) (kind : MeshKind) → F.told files.old words.now.table.now ≡ Some rows →
        tables.mesh_of_text rows ≡ Err (fault.At line kind) →
        ShowsMarked [] (Cause.Mesh line kind) (S.written out.old) (S.written out.new) result.cause result.report }
    ensures ends { EndsCleanly (F.faults files.old) (F.faults files.new) (S.faults out.old) (S.faults out.new)
        result.status result.cause }
{
    match read_table(alloc, files, words.table) {
        Ok(bed) => over_bed(alloc, machine, &bed, words.gcode, files, out),
        Err(cause) => show(alloc, b"", cause, out),
    }
}

/// Writes the file that the words ask for.
pub fn run_mesh<F: Files, S: Sink>(
    alloc: Global,
    words: &MeshWords,
    files: &mut F,
    out: &mut S,
) -> Ended
    ensures shows { (printer rows text : List ℕ) (m : Machine) (t : Mesh) →
        F.told files.old words.now.config.now ≡ Some printer → machine_of_text printer ≡ Ok m →
        F.told files.old words.now.table.now ≡ Some rows → tables.mesh_of_text rows ≡ Ok t →
        F.told files.old words.now.gcode.now ≡ Some text → length text < 2 ^ 62 →
        ShowsMarked (mesh_code m t text) (cause_of (mesh_end m t text).stop) (S.written out.old) (S.written out.new)
        result.cause result.report }
    ensures table { (printer rows : List ℕ) (m : Machine) (line : ℕ) (kind : MeshKind) →
        F.told files.old words.now.config.now ≡ Some printer → machine_of_text printer ≡ Ok m →
        F.told files.old words.now.table.now ≡ Some rows → tables.mesh_of_text rows ≡ Err (fault.At line kind) →
        ShowsMarked [] (Cause.Mesh line kind) (S.written out.old) (S.written out.new) result.cause result.report }
    ensures config { (printer : List ℕ) (line : ℕ) (kind : CfgKind) →
        F.told files.old words.now.config.now ≡ Some printer → machine_of_text printer ≡ Err (At line kind) →
        ShowsMarked [] (Cause.Config line kind) (S.written out.old) (S.written out.new) result.cause result.report }
    ensures ends { EndsCleanly (F.faults files.old) (F.faults files.new) (S.faults out.old) (S.faults out.new)
        result.status result.cause }
{
    match read_machine(alloc, files, words.config) {
        Ok(machine) => on_machine(alloc, &machine, words, files, out),
        Err(cause) => show(alloc, b"", cause, out),
    }
}
