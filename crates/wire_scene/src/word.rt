//! Numbers among the words of a line.

ghost use Rattle.std.specs.Prelude.{◌≡◌};
ghost use Rattle.wire_scene.specs.Words as specs;

use text_core::natural;

/// The number that a word spells by digits alone, where it lies within these limits.
pub fn number_in(low: u64, high: u64, word: &[u8]) -> Option<u64>
    ensures { result ≡ specs.number_in low high word.now }
{
    let number = natural(word)?;
    if low <= number && number <= high {
        Some(number)
    } else {
        None
    }
}
