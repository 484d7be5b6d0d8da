//! The file that is written for a text of G-code.

ghost use Rattle.std.specs.Prelude.{◌≡◌, ◌+◌, ◌≤◌, ◌<◌, length, IfErr, IfOk, OnOk};
ghost use Rattle.bed_mesh.specs.Grids.{IsValidMesh};
ghost use Rattle.gcode_program.specs.Readings as readings;
ghost use Rattle.plan_types.specs.Machines.{IsValidMachine};
ghost use Rattle.gcode_state.specs.States.{IsValidAction, one_if};
ghost use Rattle.bed_mesh.specs.Files.{accepted_state, begun, first_pen, head_text, mesh_code, mesh_end, with_absolute, with_relative_e};
ghost use Rattle.bed_mesh.specs.BentLines.{lines_by};
ghost use Rattle.bed_mesh.specs.Room.{IsWhy};
ghost use Rattle.bed_mesh.specs.Steps.{HasSpace, IsAdded, IsHalt, LeavesWritten, IsStep, pen_of};

use crate::Mesh;
use crate::back::{Halt, read_back};
use crate::line::{last_by, put_action};
use gcode_program::{Place, Step, step_line};
use gcode_state::{Action, Modes};
use plan_types::{Machine, ReadEnd, ReadStop};
use std::alloc::{AllocError, Global};
use text_core::first_line;

/// A file of G-code that was written, but for its last line, and how the text was read for it.
#[derive(Drop)]
pub struct MeshOut {
    pub code: Vec<u8>,
    pub read: ReadEnd,
}

/// What is written so far, the modes behind it, and the acceleration that was written last. The lines for one
/// line of the text are written aside, and added when all of them are accepted.
#[derive(Drop)]
struct Writer {
    code: Vec<u8>,
    aside: Vec<u8>,
    modes: Modes,
    last: u64,
}

/// Reads the first line that is written.
fn read_absolute(modes: &mut Modes)
    requires { modes.old.lines ≤ 0 }
    ensures { modes.new ≡ with_absolute modes.old }
{
    let _read = read_back(modes, b"G90", 0);
}

/// Reads the second line that is written.
fn read_relative(modes: &mut Modes)
    requires { modes.old.lines ≤ 4 }
    ensures { modes.new ≡ with_relative_e modes.old }
{
    let _read = read_back(modes, b"M83", 4);
}

/// The modes behind the first lines.
#[tactic(auto, unfolding(gcode_state::specs::Starts::initial))]
fn begun(machine: &Machine) -> Modes
    requires { IsValidMachine machine.now }
    ensures { result ≡ begun machine.now }
{
    let mut modes = Modes::new(machine);
    read_absolute(&mut modes);
    read_relative(&mut modes);
    modes
}

/// A writer behind the first lines.
fn new_writer(alloc: Global, machine: &Machine) -> Result<Writer, AllocError>
    requires { IsValidMachine machine.now }
    ensures code { IfOk result (λ w. w.code.items ≡ head_text) }
    ensures pen { IfOk result (λ w. pen_of w ≡ first_pen machine.now) }
    ensures space { IfOk result (λ w. HasSpace w) }
{
    let mut code = Vec::new(alloc);
    code.extend_from_slice(b"G90\nM83\n")?;
    Ok(Writer {
        code,
        aside: Vec::new(alloc),
        modes: begun(machine),
        last: machine.a,
    })
}

/// Writes the lines of what a line of the text does.
fn write_action(
    alloc: Global,
    writer: &mut Writer,
    mesh: &Mesh,
    action: &Action,
) -> Result<(), Halt>
    requires mesh { IsValidMesh mesh.now }
    requires valid { IsValidAction action.now }
    requires space { HasSpace writer.old }
    ensures written { OnOk result (IsAdded mesh.now writer.old action.now writer.new) }
    ensures kept { IfErr result (λ halt. LeavesWritten halt writer.old writer.new) }
    ensures why { IfErr result (λ halt. IsWhy halt
        (accepted_state (length writer.old.code.items) writer.old.modes
        (lines_by mesh.now writer.old.last action.now))) }
{
    writer.aside.clear();
    let start = writer.code.len();
    put_action(
        alloc,
        &mut writer.aside,
        mesh,
        writer.last,
        action,
        start,
        &mut writer.modes,
    )?;
    writer.code.extend_from_slice(&writer.aside)?;
    writer.last = last_by(writer.last, action);
    Ok(())
}

/// Reads a line of the text, and writes the lines of what it does.
fn write_line(
    alloc: Global,
    writer: &mut Writer,
    mesh: &Mesh,
    modes: &mut Modes,
    line: &[u8],
    place: Place,
) -> Result<Step, Halt>
    requires mesh { IsValidMesh mesh.now }
    requires inside { place.start + length line.now ≤ place.size }
    requires few { modes.old.lines ≤ place.start }
    requires some { place.start < place.size }
    requires space { HasSpace writer.old }
    ensures step { IfOk result (λ step.
        IsStep mesh.now place.size place.start modes.old line.now writer.old step.action modes.new writer.new) }
    ensures passed { IfOk result (λ step. step.passed ≡ readings.is_passed line.now) }
    ensures lines { IfOk result (λ step. modes.new.lines ≤ modes.old.lines + 1) }
    ensures small { IfOk result (λ step. place.start + length line.now ≤ 1073741824) }
    ensures kept { IfErr result (λ halt. LeavesWritten halt writer.old writer.new) }
    ensures halt { IfErr result
        (λ halt. IsHalt mesh.now place.size place.start modes.old line.now (pen_of writer.old) halt) }
{
    match step_line(modes, line, place) {
        Ok(step) => {
            write_action(alloc, writer, mesh, &step.action)?;
            Ok(step)
        }
        Err(kind) => Err(Halt::Refused(kind)),
    }
}

fn one_if(passed: bool) -> u64
    ensures value { result ≡ one_if passed }
    ensures small { result ≤ 1 }
{
    if passed { 1 } else { 0 }
}

fn is_stop(action: &Action) -> bool
    ensures { result ≡ readings.is_stop action.now }
{
    match action {
        Action::Stop => true,
        _ => false,
    }
}

/// Writes the file for a text of G-code on a machine, whose moves follow a bed: each move is cut at the lines
/// of the mesh, and the bed's height is added at each end. Every line is read back as it is written; where
/// one is refused, the file ends before the lines of that line of the text, and `read` says so. The file's
/// last line, the comment that says how it ends, is left out.
///
/// # Errors
///
/// Where memory is wanted.
#[tactic(auto, unfolding(crate::specs::Files::mesh_sheet))]
pub fn mesh_file(
    alloc: Global,
    machine: &Machine,
    mesh: &Mesh,
    text: &[u8],
) -> Result<MeshOut, AllocError>
    requires machine { IsValidMachine machine.now }
    requires mesh { IsValidMesh mesh.now }
    ensures code { IfOk result (λ out. out.code.items ≡ mesh_code machine.now mesh.now text.now) }
    ensures read { IfOk result (λ out. out.read ≡ mesh_end machine.now mesh.now text.now) }
{
    let mut writer = new_writer(alloc, machine)?;
    let mut modes = Modes::new(machine);
    let size = text.len();
    let mut start = 0;
    let mut rest = text;
    let mut lines = 0;
    let mut passed = 0;
    while !rest.is_empty() {
        let (line, others) = first_line(rest);
        let number = lines + 1;
        let place = Place {
            number,
            start,
            size,
        };
        let step = match write_line(alloc, &mut writer, mesh, &mut modes, line, place) {
            Ok(step) => step,
            Err(Halt::Memory) => return Err(AllocError),
            Err(Halt::Refused(kind)) => {
                let stop = ReadStop::Refused { line: number, kind };
                return Ok(finish(writer, lines, passed, stop));
            }
        };
        lines = number;
        passed += one_if(step.passed);
        if is_stop(&step.action) {
            return Ok(finish(writer, lines, passed, ReadStop::Stop(number)));
        }
        start += line.len() + 1;
        rest = others;
    }
    Ok(finish(writer, lines, passed, ReadStop::End))
}

/// The file as it stands.
fn finish(writer: Writer, lines: u64, passed: u64, stop: ReadStop) -> MeshOut
    ensures code { result.code.items ≡ writer.code.items }
    ensures lines { result.read.lines ≡ lines }
    ensures passed { result.read.passed ≡ passed }
    ensures stop { result.read.stop ≡ stop }
{
    MeshOut {
        code: writer.code,
        read: ReadEnd {
            lines,
            passed,
            stop,
        },
    }
}
