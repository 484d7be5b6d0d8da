//! Files and a sink that never fail.

ghost use Rattle.std.specs.Prelude.{◌≡◌, ℕ, ◌<◌, ◌≤◌, ◌-◌, ◌++◌, List, Option, Some, None, length, take, drop, min, IfOk, IsOk, OnOk, OnErr};

use crate::traits::{Failed, Files, Sink};

/// Files of which each name has the same text.
#[derive(Drop)]
pub struct SureFiles {
    text: Vec<u8>,
}

impl SureFiles {
    /// Files with this text under every name.
    pub fn new(text: Vec<u8>) -> Self
        ensures { (name : List ℕ) → ⟦<SureFiles as Files>⟧.told result name ≡ Some text.items }
    {
        SureFiles { text }
    }
}

impl Files for SureFiles {
    ghost told = { λ f name. Some f.text.items };

    ghost faults = { λ f. 0 };

    fn read(&mut self, _name: &str, from: u64, into: &mut [u8]) -> Result<usize, Failed> {
        let _text = &self.text;
        Ok(copied(&self.text, from, into))
    }
}

/// Copies bytes of a text from a place on into the front of a piece, as many as there are and as it holds.
pub fn copied(text: &[u8], from: u64, into: &mut [u8]) -> usize
    ensures count { result ≡ min (length into.old) (length text.now - from) }
    ensures size { length into.new ≡ length into.old }
    ensures bytes { take result into.new ≡ take result (drop from text.now) }
{
    let rest = behind(text, from);
    let count = rest.len().min(into.len());
    into[..count].copy_from_slice(&rest[..count]);
    count
}

/// The bytes of a text from a place on.
fn behind(text: &[u8], from: u64) -> &[u8]
    ensures { result.now ≡ drop from text.now }
{
    &text[(from as usize).min(text.len())..]
}

/// A sink that takes every piece, keeps none and tells nothing.
#[derive(Debug, Clone, Copy, PartialEq, Eq)]
pub struct SureSink;

impl SureSink {
    /// A sink of this kind.
    pub fn new() -> Self {
        SureSink
    }
}

impl Sink for SureSink {
    ghost written = { λ s. None };

    ghost faults = { λ s. 0 };

    fn write(&mut self, piece: &[u8]) -> Result<usize, Failed>
        ensures whole { result ≡ Ok (length piece.now) }
        ensures within { IfOk result (λ n. n ≤ length piece.now) }
        ensures some { IfOk result (λ n. 0 < length piece.now → 0 < n) }
    {
        Ok(piece.len())
    }
}
