//! The reading of a scene.

ghost use Rattle.std.specs.Prelude.{◌≡◌, ◌+◌, ◌<◌, ◌≤◌, [], ◌∷◌, ◌++◌, length, IsTrue, IfNone, IfOk, OnOk};
ghost use Rattle.plan_types.specs.Numbers.{is_above};
ghost use Rattle.plan_types.specs.Machines.{IsValidMachine};
ghost use Rattle.wire_scene.specs.Entries.{is_on_boards};
ghost use Rattle.wire_scene.specs.Scenes as specs;
ghost use Rattle.wire_scene.specs.Reading.{AnswersScene, scene_of_text, fault_of, refusal, line_entry, switch_of};
ghost use Rattle.wire_scene.specs.Steps.{IsInStep};
ghost use Rattle.wire_scene.specs.Valid.{IsValidScene};

use crate::fault::SceneFault;
use crate::line::{Item, meaning};
use crate::marks::Marks;
use crate::scene::{Entry, Scene, Switch, Way};
use plan_types::{Machine, SceneKind};
use std::alloc::{AllocError, Global};
use text_core::first_line;

/// The most bytes that a scene has.
const LIMIT: usize = 16_777_216;

/// The most entries.
const ENTRIES: usize = 100_000;

/// A scene as far as it is read, with the last number on each line and the last tick of each pin.
#[derive(Drop)]
struct Reader {
    scene: Scene,
    numbers: Marks,
    ticks: Marks,
}

/// Nothing read.
fn new_reader(alloc: Global) -> Result<Reader, AllocError>
    ensures entries { IfOk result (λ reader. reader.scene.entries ≡ []) }
    ensures switches { IfOk result (λ reader. reader.scene.switches ≡ []) }
    ensures in_step { IfOk result (λ reader. IsInStep reader) }
{
    Ok(Reader {
        scene: Scene::empty(alloc),
        numbers: Marks::new(alloc)?,
        ticks: Marks::new(alloc)?,
    })
}

/// The number of a direction, while connecting or not.
fn way_number(connecting: bool, way: Way) -> u8
    ensures { result ≡ specs.way_number connecting way }
{
    match (connecting, way) {
        (false, Way::Down) => 0,
        (false, Way::Up) => 1,
        (true, Way::Down) => 2,
        (true, Way::Up) => 3,
    }
}

/// The fault of an entry behind so many others, where the last number or tick on its line or of its pin is known.
fn refused(number: u64, last: Option<u64>, count: usize) -> Option<SceneKind>
    ensures { result ≡ refusal (is_above number last) count }
{
    match last {
        Some(last) if number <= last => Some(SceneKind::NotRising),
        _ if ENTRIES <= count => Some(SceneKind::TooMany),
        _ => None,
    }
}

/// The fault of a line behind what is read.
fn fault(reader: &Reader, item: &Item) -> Option<SceneKind>
    requires in_step { IsInStep reader.now }
    requires boards { IsTrue (is_on_boards 8 item.now) }
    ensures value { result ≡ fault_of reader.now.scene.entries reader.now.scene.switches item.now }
    ensures room { IfNone result (length reader.now.scene.entries + length reader.now.scene.switches
        + length (line_entry item.now) + length (switch_of item.now) ≤ 100000) }
{
    let count = reader.scene.entries.len() + reader.scene.switches.len();
    match item {
        Item::Nothing => None,
        Item::Wrong(kind) => Some(*kind),
        Item::OnLine(entry) => refused(
            entry.number,
            reader
                .numbers
                .at(entry.board, way_number(entry.connecting, entry.way)),
            count,
        ),
        Item::AtPin(switch) => refused(
            switch.tick,
            reader.ticks.at(switch.board, switch.pin),
            count,
        ),
    }
}

/// Keeps an entry of a line.
fn keep_entry(reader: &mut Reader, entry: Entry) -> Result<(), AllocError>
    requires in_step { IsInStep reader.old }
    requires board { entry.board < 8 }
    requires room { length reader.old.scene.entries + length reader.old.scene.switches < 100000 }
    ensures entries { OnOk result (reader.new.scene.entries ≡ reader.old.scene.entries ++ entry ∷ []) }
    ensures switches { OnOk result (reader.new.scene.switches ≡ reader.old.scene.switches) }
    ensures in_step { OnOk result (IsInStep reader.new) }
{
    reader.scene.entries.push(entry)?;
    reader.numbers.set(
        entry.board,
        way_number(entry.connecting, entry.way),
        entry.number,
    );
    Ok(())
}

/// Keeps an entry of a pin.
fn keep_switch(reader: &mut Reader, switch: Switch) -> Result<(), AllocError>
    requires in_step { IsInStep reader.old }
    requires board { switch.board < 8 }
    requires room { length reader.old.scene.entries + length reader.old.scene.switches < 100000 }
    ensures entries { OnOk result (reader.new.scene.entries ≡ reader.old.scene.entries) }
    ensures switches { OnOk result (reader.new.scene.switches ≡ reader.old.scene.switches ++ switch ∷ []) }
    ensures in_step { OnOk result (IsInStep reader.new) }
{
    reader.scene.switches.push(switch)?;
    reader.ticks.set(switch.board, switch.pin, switch.tick);
    Ok(())
}

/// Keeps what a line says.
fn keep(reader: &mut Reader, item: Item) -> Result<(), AllocError>
    requires in_step { IsInStep reader.old }
    requires boards { IsTrue (is_on_boards 8 item) }
    requires room { length reader.old.scene.entries + length reader.old.scene.switches + length (line_entry item)
        + length (switch_of item) ≤ 100000 }
    ensures entries { OnOk result (reader.new.scene.entries ≡ reader.old.scene.entries ++ line_entry item) }
    ensures switches { OnOk result (reader.new.scene.switches ≡ reader.old.scene.switches ++ switch_of item) }
    ensures in_step { OnOk result (IsInStep reader.new) }
{
    match item {
        Item::OnLine(entry) => keep_entry(reader, entry),
        Item::AtPin(switch) => keep_switch(reader, switch),
        _ => Ok(()),
    }
}

/// Reads a scene for a machine: the scene, or the fault that comes first.
#[tactic(auto, unfolding(crate::specs::Reading::scene_of_text))]
pub fn read_scene(alloc: Global, text: &[u8], machine: &Machine) -> Result<Scene, SceneFault>
    requires { IsValidMachine machine.now }
    ensures reading { AnswersScene result (scene_of_text machine.now text.now) }
    ensures valid { IfOk result (λ scene. IsValidScene machine.now scene) }
{
    if text.len() > LIMIT {
        return Err(SceneFault::At {
            line: 0,
            kind: SceneKind::TooLarge,
        });
    }
    let mut reader = new_reader(alloc).map_err(SceneFault::Memory)?;
    let mut number: u64 = 1;
    let mut rest = text;
    while !rest.is_empty() {
        let (line, others) = first_line(rest);
        let item = meaning(machine.boards.as_slice(), number, line);
        if let Some(kind) = fault(&reader, &item) {
            return Err(SceneFault::At { line: number, kind });
        }
        keep(&mut reader, item).map_err(SceneFault::Memory)?;
        rest = others;
        number += 1;
    }
    Ok(reader.scene)
}
