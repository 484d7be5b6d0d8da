//! The reading of a line.

ghost use Rattle.std.specs.Prelude.{◌≡◌, ◌≤◌, ◌||◌, ℕ, Ok, Err, Some, None, true, false, min, IfOk, IfErr, IfNone, IfSome, MatchResult, length};
ghost use Rattle.text_core.specs.Bytes as bytes;
ghost use Rattle.text_core.specs.Bytes.{ends_or_begins, begins, behind};
ghost use Rattle.gcode_text.specs.Blanks as blanks;
ghost use Rattle.gcode_text.specs.Commands.{head_of, head_with, is_command_letter, unnumbered};
ghost use Rattle.gcode_text.specs.Lines.{HasWordsOf, begins_number, given_at, given_words, takes_bare, word_with, reading_behind, reading_of_head, reading_of_text, reading, at_line};
ghost use Rattle.gcode_text.specs.Fans.{words_behind, words_for};
ghost use Rattle.gcode_text.specs.Sorts.{finished};
ghost use Rattle.gcode_text.specs.declared.fault.FaultKind.TheVariants.{BadLetter};

use crate::blanks::{is_blank, skip_blanks};
use crate::fault::{FaultKind, LineFault};
use crate::table::{Entry, look_up};
use crate::word::{Command, Given, Letters, Word};
use text_core::{cut, front_digits, is_digit, is_letter, short_number, to_capital, whole};

/// The longest line, in bytes without its end.
const LONGEST: usize = 1024;

/// What stands behind the blanks, where that is a word or nothing.
fn next_word(text: &[u8]) -> Result<&[u8], FaultKind>
    ensures rest { IfOk result (λ rest. rest.now ≡ behind blanks.is_blank text.now) }
    ensures ok { IfOk result (λ rest. ends_or_begins bytes.is_letter (behind blanks.is_blank text.now) ≡ true) }
    ensures kind { IfErr result (λ kind. kind ≡ BadLetter) }
    ensures err { IfErr result (λ kind. ends_or_begins bytes.is_letter (behind blanks.is_blank text.now) ≡ false) }
{
    let rest = skip_blanks(text);
    match rest {
        [] => Ok(rest),
        [first, ..] => {
            if is_letter(*first) {
                Ok(rest)
            } else {
                Err(FaultKind::BadLetter)
            }
        }
    }
}

/// A number could stand here.
fn may_be_number(text: &[u8]) -> bool
    ensures { result ≡ begins_number text.now }
{
    match text {
        [] => false,
        [first, ..] => is_digit(*first) || *first == b'+' || *first == b'-' || *first == b'.',
    }
}

/// What is given behind a letter, and the words that follow.
#[tactic(auto, unfolding(crate::specs::Lines::given_at))]
fn given(bare: bool, text: &[u8]) -> Result<(Given, &[u8]), FaultKind>
    ensures given { IfOk result (λ found. given_at bare text.now ≡ Ok found.0) }
    ensures words { IfOk result (λ found. HasWordsOf text.now found.1.now) }
    ensures next { IfOk result (λ found. ends_or_begins bytes.is_letter found.1.now ≡ true) }
    ensures length { IfOk result (λ found. length found.1.now ≤ length text.now) }
    ensures err { IfErr result (λ kind. given_at bare text.now ≡ Err kind) }
{
    if bare && !may_be_number(text) {
        let rest = next_word(text)?;
        return Ok((Given::Bare, rest));
    }
    let Some((amount, rest)) = short_number(text) else {
        return Err(FaultKind::BadNumber);
    };
    let rest = next_word(rest)?;
    Ok((Given::Number(amount), rest))
}

/// The words of a text, all of it.
#[tactic(auto, unfolding(crate::specs::Lines::given_words))]
fn words(bare: bool, text: &[u8]) -> Result<Letters, FaultKind>
    ensures { MatchResult result (λ values. given_words bare text.now ≡ Ok values)
        (λ kind. given_words bare text.now ≡ Err kind) }
{
    let mut letters = Letters::new();
    let mut rest = next_word(text)?;
    while let [first, others @ ..] = rest {
        let (value, behind) = given(bare, others)?;
        letters.set(to_capital(*first), value);
        rest = behind;
    }
    Ok(letters)
}

/// A letter and the number of the digits behind it.
#[derive(Clone, Copy)]
struct Head<'a> {
    letter: u8,
    number: u64,
    rest: &'a [u8],
}

/// A command may end here: behind it stands nothing, a blank or another letter.
fn ends_a_command(text: &[u8]) -> bool
    ensures { result ≡ ends_or_begins (λ b. blanks.is_blank b || bytes.is_letter b) text.now }
{
    match text {
        [] => true,
        [first, ..] => is_blank(*first) || is_letter(*first),
    }
}

fn is_for_commands(letter: u8) -> bool
    ensures { result ≡ is_command_letter letter }
{
    letter == b'G' || letter == b'M' || letter == b'T'
}

/// The command with this letter, where it stands first in a text. Its number counts up to 10^18.
fn head_behind(letter: u8, text: &[u8]) -> Option<Head<'_>>
    ensures none { IfNone result (head_with letter text.now ≡ None) }
    ensures some { IfSome result (λ head. (n : ℕ)
        × (head_with letter text.now ≡ Some (record { letter = head.letter; number = n; rest = head.rest.now }))
        × (head.number ≡ min n 1000000000000000000)) }
{
    if !is_for_commands(letter) || !front_digits(text) {
        return None;
    }
    let digits = whole(text);
    if !ends_a_command(digits.rest) {
        return None;
    }
    Some(Head {
        letter,
        number: digits.value,
        rest: digits.rest,
    })
}

/// The command that stands first in a text. Its number counts up to 10^18.
#[tactic(auto, unfolding(crate::specs::Commands::head_of))]
fn first_command(text: &[u8]) -> Option<Head<'_>>
    ensures none { IfNone result (head_of text.now ≡ None) }
    ensures some { IfSome result (λ head. (n : ℕ)
        × (head_of text.now ≡ Some (record { letter = head.letter; number = n; rest = head.rest.now }))
        × (head.number ≡ min n 1000000000000000000)) }
{
    match text {
        [] => None,
        [first, others @ ..] => head_behind(to_capital(*first), others),
    }
}

/// The text behind a leading number of the line.
#[tactic(auto, unfolding(crate::specs::Commands::unnumbered))]
fn skip_number(text: &[u8]) -> &[u8]
    ensures { result.now ≡ unnumbered text.now }
{
    match text {
        [first, others @ ..] if to_capital(*first) == b'N' && front_digits(others) => {
            skip_blanks(whole(others).rest)
        }
        _ => text,
    }
}

/// A command with its words. M204 without S is passed over.
fn word_of(name: Command, values: Letters) -> Word
    ensures { result ≡ word_with name values }
{
    if name == Command::M204 && values.get(b'S').is_none() {
        Word::Passed
    } else {
        Word::Command { name, values }
    }
}

fn is_home(name: Command) -> bool
    ensures { result ≡ takes_bare name }
{
    match name {
        Command::G28 => true,
        _ => false,
    }
}

/// A line by its command, with the words to be read.
#[derive(Clone, Copy)]
enum Sorted<'a> {
    Blank,
    Passed,
    Row(Command, &'a [u8]),
}

/// What stands behind a command.
fn sort_behind(entry: Entry, text: &[u8]) -> Result<Sorted<'_>, FaultKind>
    ensures { finished result ≡ reading_behind entry text.now }
{
    match entry {
        Entry::Unsupported => Err(FaultKind::Unsupported),
        Entry::Unknown => Ok(Sorted::Passed),
        Entry::Known(name) => Ok(Sorted::Row(name, text)),
    }
}

/// A text that isn't empty.
fn sort_command(text: &[u8]) -> Result<Sorted<'_>, FaultKind>
    ensures { finished result ≡ reading_of_head (head_of (unnumbered text.now)) }
{
    match first_command(skip_number(text)) {
        None => Ok(Sorted::Passed),
        Some(head) => sort_behind(look_up(head.letter, head.number), head.rest),
    }
}

/// A text without its comment and the blanks in front.
fn sort_text(text: &[u8]) -> Result<Sorted<'_>, FaultKind>
    ensures { finished result ≡ reading_of_text text.now }
{
    match text {
        [] => Ok(Sorted::Blank),
        [_, ..] => sort_command(text),
    }
}

/// Reads one line, which has this number.
#[tactic(auto, unfolding(crate::specs::Lines::reading))]
pub fn read_line(line: &[u8], number: u64) -> Result<Word, LineFault>
    ensures { result ≡ at_line number (reading line.now) }
{
    if line.len() > LONGEST {
        return Err(LineFault {
            line: number,
            kind: FaultKind::TooLongLine,
        });
    }
    match sort_text(skip_blanks(cut(cut(line, b';'), b'*'))) {
        Err(kind) => Err(LineFault { line: number, kind }),
        Ok(Sorted::Blank) => Ok(Word::Blank),
        Ok(Sorted::Passed) => Ok(Word::Passed),
        Ok(Sorted::Row(name, text)) => match words(is_home(name), text) {
            Err(kind) => Err(LineFault { line: number, kind }),
            Ok(values) => Ok(word_of(name, values)),
        },
    }
}

/// The words of a command, where it has this letter and this number.
fn words_for(head: Head<'_>, letter: u8, number: u32) -> Option<Letters>
    ensures { (n : ℕ) → head.entry.number ≡ min n 1000000000000000000 →
        result
        ≡ words_for letter number
        (Some (record { letter = head.entry.letter; number = n; rest = head.entry.rest.now })) }
{
    if head.letter != to_capital(letter) || head.number != u64::from(number) {
        return None;
    }
    match words(head.letter == b'G' && number == 28, head.rest) {
        Ok(values) => Some(values),
        Err(_) => None,
    }
}

/// The words of a line whose command has this letter and this number, also where the table has no such
/// command. None where the line has another command or none, or its words can't be read.
#[tactic(auto, unfolding(crate::specs::Fans::words_behind))]
pub fn read_of(line: &[u8], letter: u8, number: u32) -> Option<Letters>
    ensures { result ≡ words_behind line.now letter number }
{
    if LONGEST < line.len() {
        return None;
    }
    let head = first_command(skip_number(skip_blanks(cut(cut(line, b';'), b'*'))))?;
    words_for(head, letter, number)
}
