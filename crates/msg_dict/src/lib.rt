//! Data dictionaries: which formats, constants and enumerations a board has (Klipper's Protocol.md, "Data Dictionary").
#![tactic(auto)]

ghost use Rattle.std.specs.Prelude.{◌≡◌, ℕ, ◌<◌, ◌^◌, List, Some, None, Ok, true, map, option_map};
ghost use Rattle.msg_dict.specs.Dictionary.{Dictionary, Named, Enumerated, number_named, enumerated, name_of, numbers_differ};
ghost use Rattle.msg_dict.specs.Kept.{format_of, constant_of, choice_of};
ghost use Rattle.msg_dict.specs.Table.{row_of_format};
ghost use Rattle.plan_types.specs.declared.machine.BoardDef.{BoardDef};
ghost use Rattle.msg_dict.specs.Reading.{dictionary_of};
ghost use Rattle.msg_dict.specs.Own.{own_dictionary, IsOwn};

use std::alloc::AllocError;
use std::marker::Model;

mod format;
mod own;
mod read;
mod row;
mod words;

use format::Format;
pub use own::{
    COMMAND_REQUEST, QUEUE_OVERFLOW, STEPPER_ACTIVE, TIMER_TOO_CLOSE, ZERO_COUNT, dict_text,
    own_formats,
};
pub use read::read_dict;
pub use row::{Kind, ROWS, Row};

/// Why bytes are no data dictionary.
#[derive(Clone, Copy, Debug, PartialEq, Eq, thiserror::Error)]
pub enum DictFault {
    #[error("out of memory")]
    Memory,
    #[error("the bytes are no JSON value")]
    NotJson,
    #[error("a part of the dictionary is missing or of another shape")]
    Shape,
    #[error("a format is no name with parameters")]
    BadFormat,
    #[error("an identifier stands twice")]
    SameId,
}

impl From<AllocError> for DictFault {
    ghost use Rattle.std.specs.Prelude.{◌≡◌};
    ghost use Rattle.msg_dict.specs.declared.DictFault.TheVariants.{Memory};

    ghost from_gives = { λ _ fault. fault ≡ Memory };

    fn from(_error: AllocError) -> Self {
        DictFault::Memory
    }
}

/// A constant of the configuration.
#[derive(Drop)]
struct Constant {
    name: Vec<u8>,
    value: u64,
}

/// A name of an enumeration, and its number.
#[derive(Drop)]
struct Choice {
    enumeration: Vec<u8>,
    name: Vec<u8>,
    number: u32,
}

/// A data dictionary, in which no identifier stands twice.
#[derive(Drop)]
pub struct Dict {
    formats: Vec<Format>,
    constants: Vec<Constant>,
    choices: Vec<Choice>,
}

impl Model for Dict {
    ghost use Rattle.std.specs.Prelude.{◌≡◌, map, true};
    ghost use Rattle.msg_dict.specs.Dictionary.{Dictionary, numbers_differ};

    ghost Value = { Dictionary };

    ghost use Rattle.msg_dict.specs.Kept.{format_of, constant_of, choice_of};

    ghost view = { λ d. record {
      formats = map format_of d.formats.items;
      constants = map constant_of d.constants.items;
      numbers = map choice_of d.choices.items;
    } };

    ghost invariant = { λ d. numbers_differ (map format_of d.formats.items) ≡ true };
}

impl Dict {
    /// The identifier of a format; `None` exactly where the dictionary has not the format.
    pub fn id(&self, format: &[u8]) -> Option<u32>
        ensures { result ≡ number_named format.now self.now.formats }
    {
        id_among(self.formats.as_slice(), format)
    }

    /// The format that has this identifier; `None` exactly where none has it.
    pub fn format(&self, id: u32) -> Option<&[u8]>
        ensures { option_map (λ f. f.now) result ≡ name_of id self.now.formats }
    {
        format_among(self.formats.as_slice(), id)
    }

    /// The row of the format that has this identifier: `None` exactly where none has it, `Some(None)` where
    /// its format is not in the table.
    pub fn row(&self, id: u32) -> Option<Option<Row>>
        ensures { result ≡ row_of_format (name_of id self.now.formats) }
    {
        row_known(self.formats.as_slice(), id)
    }

    /// The number of a name in an enumeration; `None` exactly where the dictionary has not the name there.
    pub fn number(&self, enumeration: &[u8], name: &[u8]) -> Option<u32>
        ensures { result ≡ enumerated enumeration.now name.now self.now.numbers }
    {
        number_among(self.choices.as_slice(), enumeration, name)
    }

    /// A constant of the configuration; `None` exactly where the dictionary has not the name.
    pub fn constant(&self, name: &[u8]) -> Option<u64>
        ensures { result ≡ number_named name.now self.now.constants }
    {
        constant_among(self.constants.as_slice(), name)
    }

    /// What a dictionary keeps: no identifier stands twice.
    pub fn ids_differ(&self)
        ensures { numbers_differ self.now.formats ≡ true }
    {
        let _ = &self.formats;
    }
}

/// The law of a board's own dictionary: it is one, and in it stands what the board tells of itself.
pub fn own_is_read()
    ensures { (b : BoardDef) → (d : Dictionary) × (dictionary_of (own_dictionary b) ≡ Ok d) × IsOwn b d }
{}

fn id_among(formats: &[Format], format: &[u8]) -> Option<u32>
    ensures { result ≡ number_named format.now (map format_of formats.now) }
{
    match formats {
        [] => None,
        [first, rest @ ..] => {
            if first.text.as_slice() == format {
                Some(first.id)
            } else {
                id_among(rest, format)
            }
        }
    }
}

fn format_among(formats: &[Format], id: u32) -> Option<&[u8]>
    ensures { option_map (λ f. f.now) result ≡ name_of id (map format_of formats.now) }
{
    match formats {
        [] => None,
        [first, rest @ ..] => {
            if first.id == id {
                Some(first.text.as_slice())
            } else {
                format_among(rest, id)
            }
        }
    }
}

fn row_known(formats: &[Format], id: u32) -> Option<Option<Row>>
    ensures { result ≡ row_of_format (name_of id (map format_of formats.now)) }
{
    match formats {
        [] => None,
        [first, rest @ ..] => {
            if first.id == id {
                Some(first.row)
            } else {
                row_known(rest, id)
            }
        }
    }
}

fn constant_among(constants: &[Constant], name: &[u8]) -> Option<u64>
    ensures { result ≡ number_named name.now (map constant_of constants.now) }
{
    match constants {
        [] => None,
        [first, rest @ ..] => {
            if first.name.as_slice() == name {
                Some(first.value)
            } else {
                constant_among(rest, name)
            }
        }
    }
}

fn number_among(choices: &[Choice], enumeration: &[u8], name: &[u8]) -> Option<u32>
    ensures { result ≡ enumerated enumeration.now name.now (map choice_of choices.now) }
{
    match choices {
        [] => None,
        [first, rest @ ..] => {
            if first.enumeration.as_slice() == enumeration && first.name.as_slice() == name {
                Some(first.number)
            } else {
                number_among(rest, enumeration, name)
            }
        }
    }
}
