//! The sections of a configuration.

ghost use Rattle.std.specs.Prelude.{◌≡◌, ◌<◌, option_map, codes};
ghost use Rattle.std.specs.List.{list_all};
ghost use Rattle.cfg_lines.specs.Sections as specs;
ghost use Rattle.cfg_lines.specs.Sections.{behind_text, drive_number, section_of, stepper_of, board_of, simulated_of, board_section, with_digit};

use plan_types::Name;
use text_core::{is_digit, is_letter, trim};

/// The coordinate that a stepper drives.
#[derive(Clone, Copy)]
pub enum Drive {
    X,
    Y,
    Z,
    E,
}

/// A stepper section: `[stepper_x]` has the digit 0, and so has `[extruder]`.
#[derive(Clone, Copy)]
pub struct Motor {
    pub drive: Drive,
    pub digit: u8,
}

/// A section of the table.
#[derive(Drop)]
pub enum Section {
    /// Before the first section.
    Before,
    /// A section that the table does not have.
    Unknown,
    Printer,
    /// `[mcu NAME]`
    Board(Name),
    /// `[simulated_mcu NAME]`
    Simulated(Name),
    Simulation,
    Stepper(Motor),
    /// `[fan]`
    Fan,
}

/// The number of a coordinate.
pub fn number(drive: Drive) -> u8
    ensures value { result ≡ drive_number drive }
    ensures small { result < 4 }
{
    match drive {
        Drive::X => 0,
        Drive::Y => 1,
        Drive::Z => 2,
        Drive::E => 3,
    }
}

pub fn same_motor(a: Motor, b: Motor) -> bool
    ensures { result ≡ specs.same_motor a b }
{
    number(a.drive) == number(b.drive) && a.digit == b.digit
}

pub fn same_section(a: &Section, b: &Section) -> bool
    ensures { result ≡ specs.same_section a.now b.now }
{
    match (a, b) {
        (Section::Printer, Section::Printer) => true,
        (Section::Simulation, Section::Simulation) => true,
        (Section::Fan, Section::Fan) => true,
        (Section::Board(a), Section::Board(b)) => a.as_bytes() == b.as_bytes(),
        (Section::Simulated(a), Section::Simulated(b)) => a.as_bytes() == b.as_bytes(),
        (Section::Stepper(a), Section::Stepper(b)) => same_motor(*a, *b),
        _ => false,
    }
}

/// The same section once more.
pub fn copied(section: &Section) -> Section
    ensures { result ≡ section.now }
{
    match section {
        Section::Before => Section::Before,
        Section::Unknown => Section::Unknown,
        Section::Printer => Section::Printer,
        Section::Board(name) => Section::Board(Name::new(name.as_bytes())),
        Section::Simulated(name) => Section::Simulated(Name::new(name.as_bytes())),
        Section::Simulation => Section::Simulation,
        Section::Stepper(motor) => Section::Stepper(*motor),
        Section::Fan => Section::Fan,
    }
}

pub fn is_name_byte(byte: u8) -> bool
    ensures { result ≡ specs.is_name_byte byte }
{
    is_letter(byte) || is_digit(byte) || byte == b'_' || byte == b'-'
}

pub fn all_name_bytes(text: &[u8]) -> bool
    ensures { result ≡ list_all specs.is_name_byte text.now }
{
    let mut rest = text;
    while let [first, others @ ..] = rest {
        if !is_name_byte(*first) {
            return false;
        }
        rest = others;
    }
    true
}

/// Whether the text is a board's name.
pub fn is_board_name(text: &[u8]) -> bool
    ensures { result ≡ specs.is_board_name text.now }
{
    !text.is_empty() && text.len() <= 16 && all_name_bytes(text)
}

/// What stands behind these bytes, where the text begins with them.
pub fn behind<'a>(front: &[u8], text: &'a [u8]) -> Option<&'a [u8]>
    ensures { option_map (λ rest. rest.now) result ≡ behind_text front.now text.now }
{
    let mut wanted = front;
    let mut rest = text;
    while let [letter, letters @ ..] = wanted {
        match rest {
            [] => return None,
            [first, others @ ..] => {
                if *first != *letter {
                    return None;
                }
                rest = others;
            }
        }
        wanted = letters;
    }
    Some(rest)
}

fn drive_of(letter: u8) -> Option<Drive>
    ensures { result ≡ specs.drive_of letter }
{
    match letter {
        b'x' => Some(Drive::X),
        b'y' => Some(Drive::Y),
        b'z' => Some(Drive::Z),
        _ => None,
    }
}

fn stepper(letter: u8, digit: u8) -> Section
    ensures { result ≡ with_digit (specs.drive_of letter) digit }
{
    match drive_of(letter) {
        None => Section::Unknown,
        Some(drive) => Section::Stepper(Motor { drive, digit }),
    }
}

fn stepper_named(text: &[u8]) -> Section
    ensures { result ≡ stepper_of text.now }
{
    match text {
        [letter] => stepper(*letter, 0),
        [letter, digit] => {
            if b'1' <= *digit && *digit <= b'9' {
                stepper(*letter, *digit - b'0')
            } else {
                Section::Unknown
            }
        }
        _ => Section::Unknown,
    }
}

fn board_named(text: &[u8]) -> Section
    ensures { result ≡ board_of text.now }
{
    if is_board_name(text) {
        Section::Board(Name::new(text))
    } else {
        Section::Unknown
    }
}

fn simulated_named(text: &[u8]) -> Section
    ensures { result ≡ simulated_of text.now }
{
    if is_board_name(text) {
        Section::Simulated(Name::new(text))
    } else {
        Section::Unknown
    }
}

/// A section whose name has two parts.
fn two_parts(name: &[u8]) -> Section
    ensures { result ≡ board_section name.now (behind_text (codes "mcu ") name.now) }
{
    if let Some(rest) = behind(b"mcu ".as_slice(), name) {
        return board_named(trim(rest));
    }
    if let Some(rest) = behind(b"simulated_mcu ".as_slice(), name) {
        return simulated_named(trim(rest));
    }
    if let Some(rest) = behind(b"stepper_".as_slice(), name) {
        return stepper_named(rest);
    }
    Section::Unknown
}

/// The section of a name.
#[tactic(auto, unfolding(crate::specs::Sections::section_of))]
pub fn section_named(name: &[u8]) -> Section
    ensures { result ≡ section_of name.now }
{
    if name == b"printer".as_slice() {
        Section::Printer
    } else if name == b"mcu".as_slice() {
        Section::Board(Name::new(b"mcu".as_slice()))
    } else if name == b"simulated_mcu".as_slice() {
        Section::Simulated(Name::new(b"mcu".as_slice()))
    } else if name == b"simulation".as_slice() {
        Section::Simulation
    } else if name == b"extruder".as_slice() {
        Section::Stepper(Motor {
            drive: Drive::E,
            digit: 0,
        })
    } else if name == b"fan".as_slice() {
        Section::Fan
    } else {
        two_parts(name)
    }
}
