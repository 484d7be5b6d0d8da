//! Runs over links: a file of G-code, in the scene of a file, whose links lose, repeat, delay and garble
//! blocks, or in one where nothing happens.

ghost use Rattle.std.specs.Prelude.{◌≡◌, ◌≢◌, ◌⊎◌, ℕ, List, Some, Ok, Err, IfOk, IfErr, IfSome, OnOk, OnErr, map, string_bytes};
ghost use Rattle.cfg_lines.specs.declared.fault.CfgFault.TheVariants.{At};
ghost use Rattle.cfg_text.specs.Reading.{machine_of_text};
ghost use Rattle.laws_board.specs.causes.Short.{HaveShortDictionaries};
ghost use Rattle.host_cli.specs.Answers.{IsRunCause};
ghost use Rattle.laws_report.specs.reports.Read.{IsSceneFor, no_scene};
ghost use Rattle.host_cli.specs.Promises.{EndsBeforeRun, IsRefused};
ghost use Rattle.host_cli.specs.Scenes.{IsSceneFault, IsSceneIn, ShowsRun};
ghost use Rattle.io_core.specs.Faults.{Rose};
ghost use Rattle.plan_types.specs.declared.cause.CfgKind.{CfgKind};
ghost use Rattle.plan_types.specs.declared.cause.SceneKind.{SceneKind};
ghost use Rattle.plan_types.specs.declared.machine.Machine.{Machine};
ghost use Rattle.plan_types.specs.Machines.{IsValidMachine};
ghost use Rattle.wire_scene.specs.declared.fault.SceneFault.TheVariants as fault;
ghost use Rattle.wire_scene.specs.declared.scene.Scene.{Scene};
ghost use Rattle.wire_scene.specs.Reading as scenes;
ghost use Rattle.wire_scene.specs.Valid.{IsValidScene};
ghost use Rattle.session_run.specs.Ends.{status_of};

use crate::ended::finish;
use crate::run::{end_with, read_machine};
use crate::source::{ReadFault, read_text};
use io_core::{Files, Gate, Sink};
use plan_types::{Cause, Machine};
use report_text::Show;
use session_run::{Ended, Runtime, run};
use std::alloc::Global;
use std::sync::Wait;
use std::thread::Threads;
use wire_scene::{Scene, SceneFault, read_scene};

/// One byte more is read of a scene, to tell that it is too large.
const SCENE_LIMIT: u64 = 16_777_216;

/// Reads a scene for a machine, or says why there is none.
fn read_scene_file<F: Files>(
    alloc: Global,
    machine: &Machine,
    files: &mut F,
    name: &str,
) -> Result<Scene, Cause>
    requires { IsValidMachine machine.now }
    ensures scene { IfOk result (λ s. IsSceneIn machine.now (F.told files.old name.now) s) }
    ensures valid { IfOk result (λ s. IsValidScene machine.now s) }
    ensures fault { IfErr result (λ cause. IsSceneFault machine.now (F.told files.old name.now) cause) }
    ensures steady { OnOk result (F.faults files.new ≡ F.faults files.old) }
    ensures read { IfErr result (λ cause. cause ≡ Cause.ReadFault → Rose (F.faults files.old) (F.faults files.new)) }
    ensures quiet { IfErr result (λ cause. cause ≢ Cause.ReadFault → F.faults files.new ≡ F.faults files.old) }
    ensures same { (other : List ℕ) → F.told files.new other ≡ F.told files.old other }
{
    let text = match read_text(alloc, files, name, SCENE_LIMIT) {
        Ok(text) => text,
        Err(ReadFault::Memory) => return Err(Cause::Memory),
        Err(ReadFault::Failed) => return Err(Cause::ReadFault),
    };
    match read_scene(alloc, &text, machine) {
        Ok(scene) => Ok(scene),
        Err(SceneFault::Memory(_)) => Err(Cause::Memory),
        Err(SceneFault::At { line, kind }) => Err(Cause::Scene { line, kind }),
    }
}

/// Runs a file of G-code that was found, on a machine in a scene.
fn run_found<R: Threads + Wait + Sync, F: Files, S: Sink, G: Gate + Sync>(
    rt: &Runtime<'_, R, G>,
    machine: &Machine,
    scene: &Scene,
    gcode: &str,
    files: &mut F,
    out: &mut S,
) -> Ended
    requires machine { IsValidMachine machine.now }
    requires scene { IsValidScene machine.now scene.now }
    ensures shows { HaveShortDictionaries machine.now → IsSceneFor machine.now scene.now →
        ShowsRun F.Files S.Sink machine.now scene.now gcode.now files.old files.new out.old out.new result.cause
        result.report }
    ensures named { IsRunCause result.cause }
    ensures status { result.status ≡ status_of result.cause }
    ensures read { result.cause ≡ Cause.ReadFault → Rose (F.faults files.old) (F.faults files.new) }
    ensures write { result.cause ≡ Cause.WriteFault → Rose (S.faults out.old) (S.faults out.new) }
    ensures quiet_files { result.cause ≢ Cause.ReadFault → result.cause ≢ Cause.WriteFault →
        result.cause ≢ Cause.Memory → F.faults files.new ≡ F.faults files.old }
    ensures quiet_output { result.cause ≢ Cause.WriteFault → result.cause ≢ Cause.Memory →
        S.faults out.new ≡ S.faults out.old }
{
    run(rt, machine, scene, gcode, files, out, Show::Lines)
}

/// An end line alone, of a run that isn't begun.
pub fn refuse<S: Sink>(alloc: Global, cause: Cause, out: &mut S) -> Ended
    ensures refused { EndsBeforeRun cause (S.written out.old) (S.written out.new) result.cause result.report }
    ensures own { result.cause ≢ Cause.WriteFault → result.cause ≢ Cause.Memory → result.cause ≡ cause }
    ensures status { result.status ≡ status_of result.cause }
    ensures write { cause ≢ Cause.WriteFault → result.cause ≡ Cause.WriteFault →
        Rose (S.faults out.old) (S.faults out.new) }
    ensures quiet { result.cause ≢ Cause.WriteFault → result.cause ≢ Cause.Memory →
        S.faults out.new ≡ S.faults out.old }
{
    let answer = end_with(alloc, cause);
    finish(alloc, answer, out)
}

/// Finds a file: whether its first byte can be read.
fn find_file<F: Files>(files: &mut F, name: &str) -> Result<(), Cause>
    ensures fault { IfErr result (λ cause. cause ≡ Cause.ReadFault) }
    ensures steady { OnOk result (F.faults files.new ≡ F.faults files.old) }
    ensures failed { OnErr result (Rose (F.faults files.old) (F.faults files.new)) }
    ensures same { (other : List ℕ) → F.told files.new other ≡ F.told files.old other }
{
    let mut byte = [0u8; 1];
    match files.read(name, 0, &mut byte) {
        Ok(_) => Ok(()),
        Err(_) => Err(Cause::ReadFault),
    }
}

/// Runs a file of G-code on a machine in a scene. A file that can't be read is refused before the run begins.
fn run_on<R: Threads + Wait + Sync, F: Files, S: Sink, G: Gate + Sync>(
    rt: &Runtime<'_, R, G>,
    machine: &Machine,
    scene: &Scene,
    gcode: &str,
    files: &mut F,
    out: &mut S,
) -> Ended
    requires machine { IsValidMachine machine.now }
    requires scene { IsValidScene machine.now scene.now }
    ensures shows { HaveShortDictionaries machine.now → IsSceneFor machine.now scene.now →
        ShowsRun F.Files S.Sink machine.now scene.now gcode.now files.old files.new out.old out.new result.cause
        result.report }
    ensures named { IsRunCause result.cause }
    ensures status { result.status ≡ status_of result.cause }
    ensures read { result.cause ≡ Cause.ReadFault → Rose (F.faults files.old) (F.faults files.new) }
    ensures write { result.cause ≡ Cause.WriteFault → Rose (S.faults out.old) (S.faults out.new) }
    ensures quiet_files { result.cause ≢ Cause.ReadFault → result.cause ≢ Cause.WriteFault →
        result.cause ≢ Cause.Memory → F.faults files.new ≡ F.faults files.old }
    ensures quiet_output { result.cause ≢ Cause.WriteFault → result.cause ≢ Cause.Memory →
        S.faults out.new ≡ S.faults out.old }
{
    match find_file(files, gcode) {
        Ok(()) => run_found(rt, machine, scene, gcode, files, out),
        Err(cause) => refuse(rt.alloc, cause, out),
    }
}

/// Runs a file of G-code on a machine in a file's scene.
fn run_in<R: Threads + Wait + Sync, F: Files, S: Sink, G: Gate + Sync>(
    rt: &Runtime<'_, R, G>,
    machine: &Machine,
    scene: &str,
    gcode: &str,
    files: &mut F,
    out: &mut S,
) -> Ended
    requires machine { IsValidMachine machine.now }
    ensures shows { (text : List ℕ) (s : Scene) → F.told files.old scene.now ≡ Some text →
        scenes.scene_of_text machine.now text ≡ Ok s → HaveShortDictionaries machine.now →
        ShowsRun F.Files S.Sink machine.now s gcode.now files.old files.new out.old out.new result.cause result.report }
    ensures scene { (text : List ℕ) (line : ℕ) (kind : SceneKind) → F.told files.old scene.now ≡ Some text →
        scenes.scene_of_text machine.now text ≡ Err (fault.At line kind) →
        IsRefused (Cause.Scene line kind) (S.written out.old) (S.written out.new) result.cause result.report }
    ensures not_usage { result.cause ≢ Cause.Usage }
    ensures status { result.status ≡ status_of result.cause }
    ensures read { result.cause ≡ Cause.ReadFault → Rose (F.faults files.old) (F.faults files.new) }
    ensures write { result.cause ≡ Cause.WriteFault → Rose (S.faults out.old) (S.faults out.new) }
    ensures quiet_files { result.cause ≢ Cause.ReadFault → result.cause ≢ Cause.WriteFault →
        result.cause ≢ Cause.Memory → F.faults files.new ≡ F.faults files.old }
    ensures quiet_output { result.cause ≢ Cause.WriteFault → result.cause ≢ Cause.Memory →
        S.faults out.new ≡ S.faults out.old }
{
    match read_scene_file(rt.alloc, machine, files, scene) {
        Ok(scene) => run_on(rt, machine, &scene, gcode, files, out),
        Err(cause) => refuse(rt.alloc, cause, out),
    }
}

/// Runs a file of G-code on the machine of a configuration in a scene.
pub fn run_scene<R: Threads + Wait + Sync, F: Files, S: Sink, G: Gate + Sync>(
    rt: &Runtime<'_, R, G>,
    config: &str,
    gcode: &str,
    scene: &str,
    files: &mut F,
    out: &mut S,
) -> Ended
    ensures shows { (printer text : List ℕ) (m : Machine) (s : Scene) → F.told files.old config.now ≡ Some printer →
        F.told files.old scene.now ≡ Some text → machine_of_text printer ≡ Ok m → scenes.scene_of_text m text ≡ Ok s →
        ShowsRun F.Files S.Sink m s gcode.now files.old files.new out.old out.new result.cause result.report }
    ensures scene { (printer text : List ℕ) (m : Machine) (line : ℕ) (kind : SceneKind) →
        F.told files.old config.now ≡ Some printer → F.told files.old scene.now ≡ Some text →
        machine_of_text printer ≡ Ok m →
        scenes.scene_of_text m text ≡ Err (fault.At line kind) →
        IsRefused (Cause.Scene line kind) (S.written out.old) (S.written out.new) result.cause result.report }
    ensures config { (printer : List ℕ) (line : ℕ) (kind : CfgKind) → F.told files.old config.now ≡ Some printer →
        machine_of_text printer ≡ Err (At line kind) →
        IsRefused (Cause.Config line kind) (S.written out.old) (S.written out.new) result.cause result.report }
    ensures not_usage { result.cause ≢ Cause.Usage }
    ensures status { result.status ≡ status_of result.cause }
    ensures read { result.cause ≡ Cause.ReadFault → Rose (F.faults files.old) (F.faults files.new) }
    ensures write { result.cause ≡ Cause.WriteFault → Rose (S.faults out.old) (S.faults out.new) }
    ensures quiet_files { result.cause ≢ Cause.ReadFault → result.cause ≢ Cause.WriteFault →
        result.cause ≢ Cause.Memory → F.faults files.new ≡ F.faults files.old }
    ensures quiet_output { result.cause ≢ Cause.WriteFault → result.cause ≢ Cause.Memory →
        S.faults out.new ≡ S.faults out.old }
{
    match read_machine(rt.alloc, files, config) {
        Ok(machine) => run_in(rt, &machine, scene, gcode, files, out),
        Err(cause) => refuse(rt.alloc, cause, out),
    }
}

/// Runs a file of G-code on the machine of a configuration, in a scene without entries and without switches.
pub fn run_plain<R: Threads + Wait + Sync, F: Files, S: Sink, G: Gate + Sync>(
    rt: &Runtime<'_, R, G>,
    config: &str,
    gcode: &str,
    files: &mut F,
    out: &mut S,
) -> Ended
    ensures shows { (printer : List ℕ) (m : Machine) → F.told files.old config.now ≡ Some printer →
        machine_of_text printer ≡ Ok m →
        ShowsRun F.Files S.Sink m no_scene gcode.now files.old files.new out.old out.new result.cause result.report }
    ensures config { (printer : List ℕ) (line : ℕ) (kind : CfgKind) → F.told files.old config.now ≡ Some printer →
        machine_of_text printer ≡ Err (At line kind) →
        IsRefused (Cause.Config line kind) (S.written out.old) (S.written out.new) result.cause result.report }
    ensures config_only { (printer : List ℕ) (line : ℕ) (kind : CfgKind) → F.told files.old config.now ≡ Some printer →
        result.cause ≡ Cause.Config line kind → machine_of_text printer ≡ Err (At line kind) }
    ensures not_usage { result.cause ≢ Cause.Usage }
    ensures status { result.status ≡ status_of result.cause }
    ensures read { result.cause ≡ Cause.ReadFault → Rose (F.faults files.old) (F.faults files.new) }
    ensures write { result.cause ≡ Cause.WriteFault → Rose (S.faults out.old) (S.faults out.new) }
    ensures quiet_files { result.cause ≢ Cause.ReadFault → result.cause ≢ Cause.WriteFault →
        result.cause ≢ Cause.Memory → F.faults files.new ≡ F.faults files.old }
    ensures quiet_output { result.cause ≢ Cause.WriteFault → result.cause ≢ Cause.Memory →
        S.faults out.new ≡ S.faults out.old }
{
    match read_machine(rt.alloc, files, config) {
        Ok(machine) => {
            let scene = Scene::empty(rt.alloc);
            run_on(rt, &machine, &scene, gcode, files, out)
        }
        Err(cause) => refuse(rt.alloc, cause, out),
    }
}
