//! The text of a motion machine, as it is read.

ghost use Rattle.std.specs.Prelude.{◌≡◌, ℕ, ◌++◌, Bool, List, [], true, false, None, Some, IfOk, OnOk};
ghost use Rattle.gcode_program.specs.declared.items.Item.{Item};
ghost use Rattle.plan_types.specs.Machines.{IsValidMachine};
ghost use Rattle.motion_stream.specs.Texts.{HasGrown, IsSourceOf, ended_after, text_after};

use crate::OutOfMemory;
use gcode_program::{Item, Reader};
use plan_types::{Machine, ReadEnd};
use std::alloc::Global;
use std::collections::VecDeque;

/// A text that is read in pieces: what it told and what is not taken yet, how it was read once that is known,
/// whether it ended, and whether a piece of it was taken.
#[derive(Drop)]
pub struct Source {
    pub reader: Reader,
    pub items: VecDeque<Item>,
    pub end: Option<ReadEnd>,
    pub ended: bool,
    pub opened: bool,
}

/// Nothing is read yet.
pub fn new_source(alloc: Global, machine: &Machine) -> Source
    requires { IsValidMachine machine.now }
    ensures { IsSourceOf machine.now result [] false [] }
{
    Source {
        reader: Reader::new(alloc, machine),
        items: VecDeque::new(alloc),
        end: None,
        ended: false,
        opened: false,
    }
}

/// Reads the next bytes of a text whose reading goes on.
fn read_bytes(
    alloc: Global,
    machine: &Machine,
    source: &mut Source,
    bytes: &[u8],
) -> Result<(), OutOfMemory>
    requires machine { IsValidMachine machine.now }
    requires goes { source.old.end ≡ None }
    requires open { source.old.ended ≡ false }
    ensures read { OnOk result ((text : List ℕ) (told : List Item) → IsSourceOf machine.now source.old text false told →
        IsSourceOf machine.now source.new (text ++ bytes.now) false told) }
    ensures grown { OnOk result (HasGrown source.old source.new) }
    ensures goes { OnOk result (source.new.ended ≡ false) }
{
    let mut items = VecDeque::new(alloc);
    source.reader.read(machine, bytes, &mut items)?;
    source.items.append(&mut items)?;
    source.end = source.reader.stop();
    source.opened = true;
    Ok(())
}

/// Takes the next bytes of a text that goes on.
fn take_bytes(
    alloc: Global,
    machine: &Machine,
    source: &mut Source,
    bytes: &[u8],
) -> Result<(), OutOfMemory>
    requires machine { IsValidMachine machine.now }
    requires open { source.old.ended ≡ false }
    ensures read { OnOk result ((text : List ℕ) (told : List Item) → IsSourceOf machine.now source.old text false told →
        IsSourceOf machine.now source.new (text ++ bytes.now) false told) }
    ensures grown { OnOk result (HasGrown source.old source.new) }
    ensures goes { OnOk result (source.new.ended ≡ false) }
{
    if source.end.is_none() {
        return read_bytes(alloc, machine, source, bytes);
    }
    source.opened = true;
    Ok(())
}

/// Reads what is left of a text that ends.
fn finish_text(alloc: Global, machine: &Machine, source: &mut Source) -> Result<(), OutOfMemory>
    requires machine { IsValidMachine machine.now }
    requires goes { source.old.end ≡ None }
    ensures read { OnOk result ((text : List ℕ) (told : List Item) → IsSourceOf machine.now source.old text false told →
        IsSourceOf machine.now source.new text true told) }
    ensures grown { OnOk result (HasGrown source.old source.new) }
{
    let mut items = VecDeque::new(alloc);
    let end = source.reader.finish(machine, &mut items)?;
    source.items.append(&mut items)?;
    source.end = Some(end);
    source.ended = true;
    Ok(())
}

/// The text ends.
fn end_text(alloc: Global, machine: &Machine, source: &mut Source) -> Result<(), OutOfMemory>
    requires machine { IsValidMachine machine.now }
    requires open { source.old.ended ≡ false }
    ensures read { OnOk result ((text : List ℕ) (told : List Item) → IsSourceOf machine.now source.old text false told →
        IsSourceOf machine.now source.new text true told) }
    ensures grown { OnOk result (HasGrown source.old source.new) }
{
    if source.end.is_none() {
        return finish_text(alloc, machine, source);
    }
    source.ended = true;
    Ok(())
}

/// Takes a piece of a text that goes on, and whether it ends behind it.
fn take_more(
    alloc: Global,
    machine: &Machine,
    source: &mut Source,
    bytes: &[u8],
    end: bool,
) -> Result<(), OutOfMemory>
    requires machine { IsValidMachine machine.now }
    requires open { source.old.ended ≡ false }
    ensures read { OnOk result ((text : List ℕ) (told : List Item) → IsSourceOf machine.now source.old text false told →
        IsSourceOf machine.now source.new (text ++ bytes.now) end told) }
    ensures grown { OnOk result (HasGrown source.old source.new) }
{
    take_bytes(alloc, machine, source, bytes)?;
    if end {
        end_text(alloc, machine, source)?;
    }
    Ok(())
}

/// Takes a piece of the text, and whether the text ends behind it. Behind the end nothing is taken.
pub fn take_piece(
    alloc: Global,
    machine: &Machine,
    source: &mut Source,
    bytes: &[u8],
    end: bool,
) -> Result<(), OutOfMemory>
    requires { IsValidMachine machine.now }
    ensures read { OnOk result ((text : List ℕ) (ended : Bool) (told : List Item) →
        IsSourceOf machine.now source.old text ended told →
        IsSourceOf machine.now source.new (text_after text ended bytes.now) (ended_after ended end) told) }
    ensures grown { OnOk result (HasGrown source.old source.new) }
{
    if source.ended {
        return Ok(());
    }
    take_more(alloc, machine, source, bytes, end)
}
