//! Bytes written in base 16.

use std::alloc::{AllocError, Global};

/// The value of a digit of base 16.
fn value_of(digit: u8) -> Option<u8> {
    match digit {
        b'0'..=b'9' => Some(digit - b'0'),
        b'a'..=b'f' => Some(digit - b'a' + 10),
        _ => None,
    }
}

/// The bytes that a text spells, each by two digits, with anything between them.
pub fn bytes_of(alloc: Global, text: &str) -> Result<Vec<u8>, AllocError> {
    let mut bytes = Vec::new(alloc);
    let mut high = None;
    for digit in text.as_bytes() {
        let Some(value) = value_of(*digit) else {
            continue;
        };
        match high.take() {
            None => high = Some(value),
            Some(first) => bytes.push(first.wrapping_mul(16).wrapping_add(value))?,
        }
    }
    Ok(bytes)
}
