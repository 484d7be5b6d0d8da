//! Lines that have words.

ghost use Rattle.std.specs.Prelude.{◌≡◌, ◌+◌, ◌<◌, ◌≤◌, ◌^◌, ◌∷◌, [], length, IfNone, IfSome};
ghost use Rattle.text_core.specs.Lines.{lines_of};
ghost use Rattle.text_core.specs.Words.{words_of, worded_lines};

use crate::word::is_end;
use crate::{cut, first_line, without_return};

/// A line that has words: its number, its text without a comment, and what stands behind the line.
#[derive(Clone, Copy)]
pub struct WordedLine<'a> {
    pub number: u64,
    pub words: &'a [u8],
    pub rest: &'a [u8],
}

/// The first line of a text that has words, where comments begin with this byte and the text's first line has this
/// number.
pub fn next_line(text: &[u8], number: u64, comment: u8) -> Option<WordedLine<'_>>
    requires { number + length text.now < 2 ^ 64 }
    ensures none { IfNone result (worded_lines comment number (lines_of text.now) ≡ []) }
    ensures some { IfSome result (λ line. worded_lines comment number (lines_of text.now)
        ≡ (line.number, words_of line.words.now) ∷ worded_lines comment (line.number + 1) (lines_of line.rest.now)) }
    ensures shorter { IfSome result (λ line. length line.rest.now < length text.now) }
    ensures small { IfSome result (λ line. line.number + 1 + length line.rest.now ≤ number + length text.now) }
{
    let mut rest = text;
    let mut number = number;
    while !rest.is_empty() {
        let (line, others) = first_line(rest);
        let words = cut(without_return(line), comment);
        if !is_end(words) {
            return Some(WordedLine {
                number,
                words,
                rest: others,
            });
        }
        number += 1;
        rest = others;
    }
    None
}
