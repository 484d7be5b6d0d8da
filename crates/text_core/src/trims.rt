//! Texts without what stands at their ends.

ghost use Rattle.std.specs.Prelude.{◌≡◌};
ghost use Rattle.text_core.specs.Trims as specs;
ghost use Rattle.text_core.specs.Trims.{trimmed, trimmed_end};

use crate::bytes::{is_blank, skip_blanks};

/// The text without the blanks at its end.
pub fn trim_end(text: &[u8]) -> &[u8]
    ensures { result.now ≡ trimmed_end text.now }
{
    let mut rest = text;
    while let [others @ .., last] = rest {
        if !is_blank(*last) {
            break;
        }
        rest = others;
    }
    rest
}

/// The text without the blanks at both ends.
pub fn trim(text: &[u8]) -> &[u8]
    ensures { result.now ≡ trimmed text.now }
{
    trim_end(skip_blanks(text))
}

/// The text without a CR at its end.
pub fn without_return(text: &[u8]) -> &[u8]
    ensures { result.now ≡ specs.without_return text.now }
{
    if let [others @ .., last] = text {
        if *last == b'\r' {
            return others;
        }
    }
    text
}
