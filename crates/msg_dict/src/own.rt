//! The dictionary that a simulated board tells of itself.

ghost use Rattle.std.specs.Prelude.{◌≡◌, ◌<◌, ◌^◌, codes, map, Some, IfOk, OnOk};
ghost use Rattle.std.specs.Str.{is_utf8};
ghost use Rattle.serde_json.specs.Data.{object, put, no_members};
ghost use Rattle.serde_json.specs.View.{view, members_view};
ghost use Rattle.serde_json.specs.Written.{compact_text};
ghost use Rattle.msg_dict.specs.declared.DictFault.{DictFault};
ghost use Rattle.msg_dict.specs.declared.DictFault.TheVariants as fault;
ghost use Rattle.msg_dict.specs.Dictionary.{Dictionary};
ghost use Rattle.msg_dict.specs.Kept.{format_of};
ghost use Rattle.msg_dict.specs.Reading.{IsJson, IsDictionaryText, Fails};
ghost use Rattle.msg_dict.specs.Own.{whole, with_rows, with_pin, with_pins, reasons, enumerations, own_dictionary, own_formats_alone, IsOwn};
ghost use Rattle.msg_dict.specs.Table.{own_format, command_rows, answer_rows};

use crate::row::{COMMANDS, ROWS, Row};
use crate::{Dict, Format};
use plan_types::{BoardDef, Name};
use serde_json::{Map, Value, put};
use std::alloc::{AllocError, Global};

/// The text of a board's dictionary, as compact JSON: the commands and answers of the table, the frequency,
/// the pins and the reasons of a shutdown.
#[tactic(auto, using(crate::proofs::Floats::no_float, crate::proofs::Shallow::shallow))]
pub fn dict_text(alloc: Global, b: &BoardDef) -> Result<Vec<u8>, AllocError>
    ensures text { IfOk result (λ text. text.items ≡ compact_text (own_dictionary b.now)) }
    ensures value { IfOk result (λ text. IsJson text.items (own_dictionary b.now)) }
    // What is read from it is the board's own dictionary, and its reading fails for want of memory alone.
    ensures reads_back { IfOk result (λ text. (d : Dictionary) → IsDictionaryText text.items d → IsOwn b.now d) }
    ensures no_fault { IfOk result (λ text. (e : DictFault) → Fails text.items e → e ≡ fault.Memory) }
{
    let text = own_dictionary(alloc, b)?.to_vec(alloc)?;
    Ok(text)
}

#[tactic(auto, unfolding(crate::specs::Own::own_dictionary))]
fn own_dictionary(alloc: Global, b: &BoardDef) -> Result<Value, AllocError>
    ensures { IfOk result (λ v. view v ≡ own_dictionary b.now) }
{
    let mut map = Map::new(alloc);
    put(&mut map, alloc, "commands", rows(alloc, &ROWS[..COMMANDS])?)?;
    put(
        &mut map,
        alloc,
        "responses",
        rows(alloc, &ROWS[COMMANDS..])?,
    )?;
    put(&mut map, alloc, "config", config(alloc, b.freq)?)?;
    put(&mut map, alloc, "enumerations", enumerations(alloc, b)?)?;
    Ok(Value::Object(map))
}

/// The formats of rows, with their own identifiers.
fn rows(alloc: Global, rows: &[Row]) -> Result<Value, AllocError>
    ensures { IfOk result (λ v. view v ≡ object (with_rows rows.now no_members)) }
{
    let mut map = Map::new(alloc);
    for row in rows {
        put(&mut map, alloc, row.format(), Value::from(row.own_id()))?;
    }
    Ok(Value::Object(map))
}

fn config(alloc: Global, freq: u32) -> Result<Value, AllocError>
    ensures { IfOk result (λ v. view v ≡ object (put (codes "CLOCK_FREQ") (whole freq) no_members)) }
{
    let mut map = Map::new(alloc);
    put(&mut map, alloc, "CLOCK_FREQ", Value::from(freq))?;
    Ok(Value::Object(map))
}

fn enumerations(alloc: Global, b: &BoardDef) -> Result<Value, AllocError>
    ensures { IfOk result (λ v. view v ≡ object (enumerations b.now)) }
{
    let mut map = Map::new(alloc);
    put(&mut map, alloc, "pin", pins(alloc, b.pins.as_slice())?)?;
    put(&mut map, alloc, "static_string_id", reasons(alloc)?)?;
    Ok(Value::Object(map))
}

/// The pins, numbered from 0.
fn pins(alloc: Global, names: &[Name]) -> Result<Value, AllocError>
    ensures { IfOk result (λ v. view v ≡ object (with_pins 0 names.now no_members)) }
{
    let mut map = Map::new(alloc);
    for (number, name) in names.iter().enumerate() {
        add_pin(alloc, &mut map, name.as_bytes(), number)?;
    }
    Ok(Value::Object(map))
}

/// Adds a pin, where its name is a text.
fn add_pin(
    alloc: Global,
    map: &mut Map<String, Value>,
    name: &[u8],
    number: usize,
) -> Result<(), AllocError>
    ensures { OnOk result
        (members_view map.new.entries ≡ with_pin (is_utf8 name.now) name.now number (members_view map.old.entries)) }
{
    match str::from_utf8(name) {
        Ok(text) => put(map, alloc, text, Value::from(number))?,
        Err(_no_text) => {}
    }
    Ok(())
}

// The reasons of a shutdown, by their numbers in the boards' own dictionary.
pub const TIMER_TOO_CLOSE: u8 = 1;

pub const QUEUE_OVERFLOW: u8 = 2;

pub const STEPPER_ACTIVE: u8 = 3;

pub const ZERO_COUNT: u8 = 4;

pub const COMMAND_REQUEST: u8 = 5;

/// The reasons of a shutdown, as their texts and numbers.
fn reasons(alloc: Global) -> Result<Value, AllocError>
    ensures { IfOk result (λ v. view v ≡ object reasons) }
{
    let mut map = Map::new(alloc);
    put(
        &mut map,
        alloc,
        "Timer too close",
        Value::from(TIMER_TOO_CLOSE),
    )?;
    put(
        &mut map,
        alloc,
        "Move queue overflow",
        Value::from(QUEUE_OVERFLOW),
    )?;
    put(
        &mut map,
        alloc,
        "Can't reset time when stepper active",
        Value::from(STEPPER_ACTIVE),
    )?;
    put(
        &mut map,
        alloc,
        "Invalid count parameter",
        Value::from(ZERO_COUNT),
    )?;
    put(
        &mut map,
        alloc,
        "Command request",
        Value::from(COMMAND_REQUEST),
    )?;
    Ok(Value::Object(map))
}

/// The formats that every simulated board knows, with the identifiers of `dict_text`, and nothing else.
#[tactic(auto, unfolding(crate::specs::Own::own_formats))]
pub fn own_formats(alloc: Global) -> Result<Dict, AllocError>
    ensures { IfOk result (λ d. d ≡ own_formats_alone) }
{
    Ok(Dict {
        formats: formats(alloc, &ROWS)?,
        constants: Vec::new(alloc),
        choices: Vec::new(alloc),
    })
}

/// The formats of rows, with their own identifiers.
fn formats(alloc: Global, rows: &[Row]) -> Result<Vec<Format>, AllocError>
    ensures { IfOk result (λ v. map format_of v.items ≡ map own_format rows.now) }
{
    let mut formats = Vec::new(alloc);
    for row in rows {
        let text = Vec::from_slice(alloc, row.format().as_bytes())?;
        formats.push(Format::new(text, row.own_id()))?;
    }
    Ok(formats)
}
