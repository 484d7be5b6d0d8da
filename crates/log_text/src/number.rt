//! Numbers among the words of a line.

ghost use Rattle.std.specs.Prelude.{◌≡◌, ◌<◌, ◌^◌, IfSome, IfNone, Some, None};
ghost use Rattle.text_core.specs.Words.{words_of};
ghost use Rattle.log_text.specs.Words as specs;
ghost use Rattle.plan_types.specs.Clock.{run_turns};

use text_core::{natural, next_word};

/// Sections start before this turn.
const TURN_LIMIT: u64 = 1 << 62;

/// The number that a word spells by digits alone.
pub fn number(word: &[u8]) -> Option<u64>
    ensures { result ≡ specs.number word.now }
{
    let number = natural(word)?;
    if number <= u64::MAX {
        Some(number)
    } else {
        None
    }
}

/// The number behind a label, and what stands behind it.
pub fn labelled<'a>(label: &[u8], text: &'a [u8]) -> Option<(u64, &'a [u8])>
    ensures some { IfSome result
        (λ found. specs.labelled label.now (words_of text.now) ≡ Some (found.0, words_of found.1.now)) }
    ensures none { IfNone result (specs.labelled label.now (words_of text.now) ≡ None) }
{
    let (word, behind) = next_word(text)?;
    let (digits, rest) = next_word(behind)?;
    if word != label {
        return None;
    }
    let found = number(digits)?;
    Some((found, rest))
}

/// Whether a section may start in a turn of this number.
pub fn is_turn(turn: u64) -> bool
    ensures { result ≡ specs.is_turn turn }
{
    turn < TURN_LIMIT
}
