//! Words for every reader of a text: kinds of bytes, lines, blanks at the ends, decimal numbers.
//!
//! A text is a slice of bytes. Nothing here takes memory.
#![tactic(auto)]

mod bytes;
mod line;
mod lines;
mod numbers;
mod trims;
mod word;

pub use bytes::{
    cut, front_digits, is_blank, is_digit, is_letter, same_small, skip_blanks, to_capital, to_small,
};
pub use line::{WordedLine, next_line};
pub use lines::first_line;
pub use numbers::{Digits, natural, number, short_number, whole};
pub use trims::{trim, trim_end, without_return};
pub use word::{is_end, next_word};
