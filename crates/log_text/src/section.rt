//! The line of a section.

ghost use Rattle.std.specs.Prelude.{◌≡◌, IfOk};
ghost use Rattle.text_core.specs.Words.{words_of};
ghost use Rattle.log_text.specs.Said as specs;
ghost use Rattle.log_text.specs.There.{StartsEarly};

use crate::line::LogLine;
use crate::number::{is_turn, labelled, number};
use plan_types::{MisfitKind, SectionKind};
use text_core::{is_end, next_word};

/// The homing of the axis of a letter.
fn axis_of(word: &[u8]) -> Option<SectionKind>
    ensures { result ≡ specs.axis_of word.now }
{
    if word == b"x".as_slice() {
        Some(SectionKind::Home(0))
    } else if word == b"y".as_slice() {
        Some(SectionKind::Home(1))
    } else if word == b"z".as_slice() {
        Some(SectionKind::Home(2))
    } else {
        None
    }
}

/// What a section does.
fn kind_of(text: &[u8]) -> Option<SectionKind>
    ensures { result ≡ specs.kind_said (words_of text.now) }
{
    let (word, rest) = next_word(text)?;
    let Some((axis, rest)) = next_word(rest) else {
        return if word == b"move".as_slice() {
            Some(SectionKind::Moves)
        } else {
            None
        };
    };
    if is_end(rest) && word == b"home".as_slice() {
        axis_of(axis)
    } else {
        None
    }
}

/// What the line of a section says behind `section`.
pub fn section_line(text: &[u8]) -> Result<LogLine, MisfitKind>
    ensures value { result ≡ specs.section_line (words_of text.now) }
    ensures early { IfOk result (λ said. StartsEarly said) }
{
    let Some((digits, rest)) = next_word(text) else {
        return Err(MisfitKind::BadLine);
    };
    let Some(section) = number(digits) else {
        return Err(MisfitKind::BadLine);
    };
    let Some((turn, rest)) = labelled(b"turn", rest) else {
        return Err(MisfitKind::BadLine);
    };
    match kind_of(rest) {
        Some(kind) if is_turn(turn) => Ok(LogLine::Section {
            section,
            turn,
            kind,
        }),
        _ => Err(MisfitKind::BadLine),
    }
}
