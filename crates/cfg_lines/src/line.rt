//! What a line says by itself.

ghost use Rattle.std.specs.Prelude.{◌≡◌, option_map};
ghost use Rattle.text_core.specs.Bytes.{is_blank as blank, begins, before};
ghost use Rattle.cfg_lines.specs.Said as specs;
ghost use Rattle.cfg_lines.specs.Said.{closed as closed_text, bare_text, setting, by_brackets, set_to};
ghost use Rattle.cfg_lines.specs.Views.{view};

use text_core::{cut, is_blank, trim, without_return};

/// What a line says by itself.
#[derive(Clone, Copy)]
pub enum Line<'a> {
    /// Blanks and a comment.
    Nothing,
    /// A section begins.
    Begins(&'a [u8]),
    /// The value of the option above goes on.
    Continues,
    /// An option and its value.
    Sets(&'a [u8], &'a [u8]),
    Neither,
}

/// The text without the `]` at its end, where there is one.
fn closed(text: &[u8]) -> Option<&[u8]>
    ensures { option_map (λ name. name.now) result ≡ closed_text text.now }
{
    let [name @ .., last] = text else {
        return None;
    };
    if *last == b']' { Some(name) } else { None }
}

/// What stands between `[` and `]`, where the text begins and ends with these.
fn bracketed(text: &[u8]) -> Option<&[u8]>
    ensures { option_map (λ name. name.now) result ≡ specs.bracketed text.now }
{
    match text {
        [b'[', rest @ ..] => closed(rest),
        _ => None,
    }
}

/// An option with its name and its value.
fn named<'a>(name: &'a [u8], value: &'a [u8]) -> Line<'a>
    ensures { view result ≡ set_to name.now value.now }
{
    if name.is_empty() {
        Line::Neither
    } else {
        Line::Sets(name, value)
    }
}

/// A name, a colon or an equals sign, and a value.
fn setting_in(text: &[u8]) -> Line<'_>
    ensures { view result ≡ setting text.now (before 61 (before 58 text.now)) }
{
    let name = cut(cut(text, b':'), b'=');
    if name.len() < text.len() {
        named(trim(name), trim(&text[name.len() + 1..]))
    } else {
        Line::Neither
    }
}

/// Whether the text begins with a blank.
fn is_indented(text: &[u8]) -> bool
    ensures { result ≡ begins blank text.now }
{
    match text {
        [] => false,
        [first, ..] => is_blank(*first),
    }
}

fn section_or_setting(indented: bool, text: &[u8]) -> Line<'_>
    ensures { view result ≡ by_brackets indented text.now (specs.bracketed text.now) }
{
    match bracketed(text) {
        Some(name) => Line::Begins(name),
        None => {
            if indented {
                Line::Continues
            } else {
                setting_in(text)
            }
        }
    }
}

/// The line without its comment.
fn uncommented(line: &[u8]) -> &[u8]
    ensures { result.now ≡ bare_text line.now }
{
    cut(cut(without_return(line), b'#'), b';')
}

/// What a line says.
#[tactic(auto, unfolding(crate::specs::Said::said))]
pub fn said(line: &[u8]) -> Line<'_>
    ensures { view result ≡ specs.said line.now }
{
    let text = uncommented(line);
    let words = trim(text);
    if words.is_empty() {
        return Line::Nothing;
    }
    section_or_setting(is_indented(text), words)
}
