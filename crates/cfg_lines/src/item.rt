//! What a line means where it stands.

ghost use Rattle.std.specs.Prelude.{◌≡◌, Result, IsTrue, is_some, if◌then◌else◌};
ghost use Rattle.cfg_lines.specs.Items as specs;
ghost use Rattle.cfg_lines.specs.Items.{meant, option_in, opened, first_place, with_value, item_fits};
ghost use Rattle.cfg_lines.specs.Sections.{section_of};
ghost use Rattle.cfg_lines.specs.Table.{key_named};
ghost use Rattle.cfg_lines.specs.Values.{judged};
ghost use Rattle.cfg_lines.specs.Views.{view};

use crate::line::Line;
use crate::section::{Section, copied, section_named};
use crate::table::{Key, option_named};
use crate::value::{Value, judge};
use plan_types::CfgKind;

/// Where a line stands.
#[derive(Drop)]
pub struct Place {
    pub section: Section,
    /// Whether a continued line is passed over here, as one of an unknown option.
    pub lenient: bool,
}

/// What a line means.
#[derive(Drop)]
pub enum Item {
    /// Nothing that counts.
    Skipped,
    /// A section or an option that is not known.
    PassedOver,
    /// A section begins.
    Opens(Section),
    /// An option of a section has a value.
    Holds(Section, Key, Value),
    Wrong(CfgKind),
}

/// What a line means that says something of the machine, and its number.
#[derive(Drop)]
pub struct Entry {
    pub line: u64,
    pub item: Item,
}

/// Before the first line.
pub fn top() -> Place
    ensures { result ≡ first_place }
{
    Place {
        section: Section::Before,
        lenient: false,
    }
}

fn known_option(section: &Section, key: Key, value: &[u8]) -> Item
    ensures value { result ≡ with_value section.now key (judged key value.now) }
    ensures fits { IsTrue (item_fits result) }
{
    match judge(key, value) {
        Ok(value) => Item::Holds(copied(section), key, value),
        Err(kind) => Item::Wrong(kind),
    }
}

fn option_item(section: &Section, name: &[u8], value: &[u8]) -> Item
    ensures value { result ≡ option_in section.now name.now value.now }
    ensures fits { IsTrue (item_fits result) }
{
    match section {
        Section::Before => Item::Wrong(CfgKind::BadLine),
        Section::Unknown => Item::Skipped,
        _ => match option_named(section, name) {
            None => Item::PassedOver,
            Some(key) => known_option(section, key, value),
        },
    }
}

fn section_item(name: &[u8]) -> Item
    ensures value { result ≡ opened (section_of name.now) }
    ensures fits { IsTrue (item_fits result) }
{
    match section_named(name) {
        Section::Unknown => Item::PassedOver,
        section => Item::Opens(section),
    }
}

/// What a line means.
pub fn meaning(place: &Place, line: Line<'_>) -> Item
    ensures value { result ≡ meant place.now (view line.entry) }
    ensures fits { IsTrue (item_fits result) }
{
    match line {
        Line::Nothing => Item::Skipped,
        Line::Begins(name) => section_item(name),
        Line::Continues => {
            if place.lenient {
                Item::Skipped
            } else {
                Item::Wrong(CfgKind::BadLine)
            }
        }
        Line::Sets(name, value) => option_item(&place.section, name, value),
        Line::Neither => Item::Wrong(CfgKind::BadLine),
    }
}

/// Where the line behind this one stands.
pub fn behind_line(place: Place, line: Line<'_>) -> Place
    ensures { result ≡ specs.place_behind place (view line.entry) }
{
    match line {
        Line::Begins(name) => Place {
            section: section_named(name),
            lenient: false,
        },
        Line::Sets(name, _) => {
            let lenient = option_named(&place.section, name).is_none();
            Place {
                section: place.section,
                lenient,
            }
        }
        _ => place,
    }
}
