//! Words of a line.

ghost use Rattle.std.specs.Prelude.{◌≡◌, ◌<◌, ◌≤◌, ◌∷◌, [], length, IfNone, IfSome};
ghost use Rattle.text_core.specs.Bytes.{front};
ghost use Rattle.text_core.specs.Words as specs;
ghost use Rattle.text_core.specs.Words.{words_of, is_inside};

use crate::{is_blank, skip_blanks};

/// How many bytes stand before the first blank.
fn word_length(text: &[u8]) -> usize
    ensures count { result ≡ length (front is_inside text.now) }
    ensures short { result ≤ length text.now }
{
    let mut count = 0;
    let mut rest = text;
    while let [first, others @ ..] = rest {
        if is_blank(*first) {
            break;
        }
        count += 1;
        rest = others;
    }
    count
}

/// The first word of a text, and what stands behind it.
pub fn next_word(text: &[u8]) -> Option<(&[u8], &[u8])>
    ensures none { IfNone result (words_of text.now ≡ []) }
    ensures some { IfSome result (λ found. words_of text.now ≡ found.0.now ∷ words_of found.1.now) }
    ensures shorter { IfSome result (λ found. length found.1.now < length text.now) }
{
    let words = skip_blanks(text);
    if words.is_empty() {
        return None;
    }
    let end = word_length(words);
    Some((&words[..end], &words[end..]))
}

/// Whether no word is left.
pub fn is_end(text: &[u8]) -> bool
    ensures { result ≡ specs.is_none_left (words_of text.now) }
{
    next_word(text).is_none()
}
