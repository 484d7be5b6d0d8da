//! The lines of a text.

ghost use Rattle.std.specs.Prelude.{◌≡◌, ◌<◌, ◌≤◌, ◌+◌, ◌-◌, ◌∷◌, length};
ghost use Rattle.text_core.specs.Bytes.{before};
ghost use Rattle.text_core.specs.Lines.{lines_of};

use crate::bytes::cut;

/// The first line without its LF, and what stands behind that.
#[tactic(auto, using(crate::proofs::Cuts::before_length))]
pub fn first_line(text: &[u8]) -> (&[u8], &[u8])
    requires { 0 < length text.now }
    ensures lines { lines_of text.now ≡ result.0.now ∷ lines_of result.1.now }
    ensures line { result.0.now ≡ before 10 text.now }
    ensures inside { length result.0.now ≤ length text.now }
    ensures rest { length result.1.now ≡ length text.now - (length result.0.now + 1) }
    ensures shorter { length result.1.now < length text.now }
{
    let line = cut(text, b'\n');
    let next = (line.len() + 1).min(text.len());
    (line, &text[next..])
}
