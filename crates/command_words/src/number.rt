//! Numbers among the words.

ghost use Rattle.std.specs.Prelude.{◌≡◌, ◌≤◌};
ghost use Rattle.std.specs.List.{list_all};
ghost use Rattle.text_core.specs.Bytes as bytes;
ghost use Rattle.command_words.specs.Forms as specs;

use text_core::is_digit;

/// The greatest number of moves of a load.
const MOST_MOVES: u64 = 1_000_000;

/// Whether all bytes are decimal digits.
fn are_digits(text: &[u8]) -> bool
    ensures { result ≡ list_all bytes.is_digit text.now }
{
    text.iter().all(|b| is_digit(*b))
}

/// The number of so many decimal digits at most, where it is no greater than a limit.
fn number(text: &str, most: usize, limit: u64) -> Option<u64>
    ensures { result ≡ specs.bounded_number most limit text.now }
{
    let count = text.len();
    if count == 0 || count > most || !are_digits(text.as_bytes()) {
        return None;
    }
    match text.parse::<u64>() {
        Ok(value) if value <= limit => Some(value),
        _ => None,
    }
}

/// The seed of a load, below 2^64, in at most 20 digits.
pub fn seed_of(text: &str) -> Option<u64>
    ensures { result ≡ specs.seed_of text.now }
{
    number(text, 20, u64::MAX)
}

/// The number of moves of a load, at most a million, in at most 7 digits.
pub fn moves_of(text: &str) -> Option<u64>
    ensures value { result ≡ specs.move_count text.now }
{
    number(text, 7, MOST_MOVES)
}
