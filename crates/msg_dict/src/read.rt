//! From JSON to a dictionary.

ghost use Rattle.std.specs.Prelude.{◌≡◌, ◌<◌, ◌^◌, ◌++◌, List, true, Some, None, map, option_map, option_and_then, IfOk, IfErr, OnOk, IsUtf8, codes};
ghost use Rattle.std.specs.List.{list_all};
ghost use Rattle.serde_json.specs.Find.{as_object, get};
ghost use Rattle.serde_json.specs.View.{view, members_view};
ghost use Rattle.msg_dict.specs.Dictionary.{Named, Enumerated, numbers_differ};
ghost use Rattle.msg_dict.specs.Kept.{format_of, constant_of, choice_of};
ghost use Rattle.msg_dict.specs.Format.{is_format};
ghost use Rattle.msg_dict.specs.Reading.{id_of, formats_of, constants_of, choices_of, enumerations_of, object_at, of_objects, of_formats, checked, dictionary_of, below_32, AddsFormats, IsDictionaryText, Fails};

use crate::words::is_format;
use crate::{Choice, Constant, Dict, DictFault, Format};
use serde_json::{Map, Value};
use std::alloc::{AllocError, Global};
use std::collections::BTreeSet;

/// Reads a data dictionary. Of several faults `NotJson` comes first, then `Shape`, `BadFormat` and `SameId`.
pub fn read_dict(alloc: Global, bytes: &[u8]) -> Result<Dict, DictFault>
    ensures ok { IfOk result (λ d. IsDictionaryText bytes.now d) }
    ensures err { IfErr result (λ e. Fails bytes.now e) }
{
    let value = match Value::from_slice(alloc, bytes) {
        Ok(value) => value,
        Err(e) => {
            return Err(if e.is_memory() {
                DictFault::Memory
            } else {
                DictFault::NotJson
            });
        }
    };
    of_value(alloc, &value)
}

/// The dictionary that a value is.
#[tactic(auto, unfolding(crate::specs::Reading::dictionary_of))]
fn of_value(alloc: Global, value: &Value) -> Result<Dict, DictFault>
    ensures ok { IfOk result (λ d. dictionary_of (view value.now) ≡ Ok d) }
    ensures err { IfErr result (λ e. ¬ (e ≡ DictFault.Memory) → dictionary_of (view value.now) ≡ Err e) }
    ensures json { IfErr result (λ e. ¬ (e ≡ DictFault.NotJson)) }
{
    let Some(commands) = object_at(value, "commands") else {
        return Err(DictFault::Shape);
    };
    let Some(responses) = object_at(value, "responses") else {
        return Err(DictFault::Shape);
    };
    let Some(config) = object_at(value, "config") else {
        return Err(DictFault::Shape);
    };
    let Some(enumerations) = object_at(value, "enumerations") else {
        return Err(DictFault::Shape);
    };
    of_objects(alloc, commands, responses, config, enumerations)
}

/// A member that is an object.
fn object_at<'a>(value: &'a Value, name: &str) -> Option<&'a Map<String, Value>>
    ensures { option_map (λ m. members_view m.now.entries) result ≡ object_at name.now (view value.now) }
{
    match value.get(name) {
        Some(found) => found.as_object(),
        None => None,
    }
}

/// The dictionary of the four objects.
fn of_objects(
    alloc: Global,
    commands: &Map<String, Value>,
    responses: &Map<String, Value>,
    config: &Map<String, Value>,
    enumerations: &Map<String, Value>,
) -> Result<Dict, DictFault>
    ensures ok { IfOk result (λ d. of_formats (formats_of (members_view commands.now.entries))
        (formats_of (members_view responses.now.entries)) (members_view config.now.entries)
        (members_view enumerations.now.entries) ≡ Ok d) }
    ensures err { IfErr result (λ e. ¬ (e ≡ DictFault.Memory) →
        of_formats (formats_of (members_view commands.now.entries)) (formats_of (members_view responses.now.entries))
        (members_view config.now.entries) (members_view enumerations.now.entries) ≡ Err e) }
    ensures json { IfErr result (λ e. ¬ (e ≡ DictFault.NotJson)) }
{
    let mut formats = Vec::new(alloc);
    if !add_formats(alloc, commands, &mut formats)? {
        return Err(DictFault::Shape);
    }
    if !add_formats(alloc, responses, &mut formats)? {
        return Err(DictFault::Shape);
    }
    if !all_formats(formats.as_slice()) {
        return Err(DictFault::BadFormat);
    }
    if !ids_differ(alloc, formats.as_slice())? {
        return Err(DictFault::SameId);
    }
    let constants = constants_of(alloc, config)?;
    let choices = enumerations_of(alloc, enumerations)?;
    Ok(Dict {
        formats,
        constants,
        choices,
    })
}

/// Adds the formats of an object with their identifiers, and says whether each one has an identifier.
fn add_formats(
    alloc: Global,
    object: &Map<String, Value>,
    out: &mut Vec<Format>,
) -> Result<bool, AllocError>
    ensures { IfOk result (λ good. AddsFormats good (formats_of (members_view object.now.entries))
        (map format_of out.old.items) (map format_of out.new.items)) }
{
    for (name, value) in object.iter() {
        let Some(id) = id_of(value) else {
            return Ok(false);
        };
        let text = Vec::from_slice(alloc, name.as_bytes())?;
        let format = Format::new(text, id);
        out.push(format)?;
    }
    Ok(true)
}

/// An identifier: a whole number from -2^31 to 2^32 - 1, modulo 2^32.
fn id_of(value: &Value) -> Option<u32>
    ensures { result ≡ id_of (view value.now) }
{
    let number = value.as_number()?;
    match number.as_u64() {
        Some(n) => { if n < 1 << 32 { Some(n as u32) } else { None } }
        None => {
            let n = number.as_i64()?;
            if -(1 << 31) <= n && n < 0 {
                Some((n as i32).cast_unsigned())
            } else {
                None
            }
        }
    }
}

/// Whether each text is a format.
fn all_formats(formats: &[Format]) -> bool
    ensures { result ≡ list_all (λ f. is_format f.name) (map format_of formats.now) }
{
    for format in formats {
        if !is_format(format.text.as_slice()) {
            return false;
        }
    }
    true
}

/// Whether no identifier stands twice.
fn ids_differ(alloc: Global, formats: &[Format]) -> Result<bool, AllocError>
    ensures { IfOk result (λ differ. differ ≡ numbers_differ (map format_of formats.now)) }
{
    let mut seen = BTreeSet::new(alloc);
    for i in (0..formats.len()).rev() {
        if !seen.insert(formats[i].id)? {
            return Ok(false);
        }
    }
    Ok(true)
}

/// The members that are whole numbers below 2^64.
fn constants_of(alloc: Global, object: &Map<String, Value>) -> Result<Vec<Constant>, AllocError>
    ensures { IfOk result (λ v. map constant_of v.items ≡ constants_of (members_view object.now.entries)) }
{
    let mut out = Vec::new(alloc);
    for (key, member) in object.iter() {
        if let Some(value) = member.as_u64() {
            let name = Vec::from_slice(alloc, key.as_bytes())?;
            out.push(Constant { name, value })?;
        }
    }
    Ok(out)
}

/// The numbers of all enumerations.
fn enumerations_of(alloc: Global, object: &Map<String, Value>) -> Result<Vec<Choice>, AllocError>
    ensures { IfOk result (λ v. map choice_of v.items ≡ enumerations_of (members_view object.now.entries)) }
{
    let mut out = Vec::new(alloc);
    for (key, member) in object.iter() {
        if let Some(names) = member.as_object() {
            add_choices(alloc, key.as_bytes(), names, &mut out)?;
        }
    }
    Ok(out)
}

/// Adds the names of an enumeration that are whole numbers below 2^32.
fn add_choices(
    alloc: Global,
    enumeration: &[u8],
    object: &Map<String, Value>,
    out: &mut Vec<Choice>,
) -> Result<(), AllocError>
    ensures { OnOk result (map choice_of out.new.items
        ≡ map choice_of out.old.items ++ choices_of enumeration.now (members_view object.now.entries)) }
{
    for (key, member) in object.iter() {
        if let Some(number) = small(member.as_u64()) {
            let enumeration = Vec::from_slice(alloc, enumeration)?;
            let name = Vec::from_slice(alloc, key.as_bytes())?;
            out.push(Choice {
                enumeration,
                name,
                number,
            })?;
        }
    }
    Ok(())
}

/// A number where it is below 2^32.
fn small(number: Option<u64>) -> Option<u32>
    ensures { result ≡ below_32 number }
{
    match number {
        Some(n) if n < 1 << 32 => Some(n as u32),
        _ => None,
    }
}
