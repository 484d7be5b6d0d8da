//! Files and a sink in memory, which fail where they are told to.

ghost use Rattle.std.specs.Prelude.{◌≡◌, ◌≢◌, ℕ, ◌+◌, ◌<◌, ◌≤◌, ◌-◌, ◌++◌, ◌∷◌, [], ◌⊎◌, ◌↔◌, List, Option, Some, None, Contains, length, take, drop, min, IfOk, IfSome, IsNone, IsErr, IsOk, OnOk, OnErr};
ghost use Rattle.io_core.specs.Faults.{Rose};
ghost use Rattle.io_core.specs.Stored.{stored};

use crate::stored::{MemFile, read_stored};
use crate::traits::{Failed, Files, Sink};
use std::alloc::{AllocError, Global};

/// Files in memory. The reads of these numbers, from 0 on, fail, and so does the read of a file that isn't there.
#[derive(Drop)]
pub struct MemFiles {
    alloc: Global,
    fails: Vec<u64>,
    files: Vec<MemFile>,
    calls: u64,
    faults: u64,
}

impl MemFiles {
    /// No files, and the numbers of the reads that fail.
    pub fn new(alloc: Global, fails: Vec<u64>) -> Self
        ensures none { (name : List ℕ) → ⟦<MemFiles as Files>⟧.told result name ≡ None }
        ensures fails { result.fails ≡ fails }
        ensures calls { result.calls ≡ 0 }
        ensures faults { result.faults ≡ 0 }
    {
        MemFiles {
            alloc,
            fails,
            files: Vec::new(alloc),
            calls: 0,
            faults: 0,
        }
    }

    /// Adds a file; of several with one name the last holds.
    pub fn add(&mut self, name: &str, bytes: &[u8]) -> Result<(), AllocError>
        ensures here { OnOk result (⟦<MemFiles as Files>⟧.told self.new name.now ≡ Some bytes.now) }
        ensures others { (other : List ℕ) → other ≢ name.now →
            ⟦<MemFiles as Files>⟧.told self.new other ≡ ⟦<MemFiles as Files>⟧.told self.old other }
        ensures unchanged { OnErr result (self.new.files.items ≡ self.old.files.items) }
        ensures calls { self.new.calls ≡ self.old.calls }
        ensures fails { self.new.fails ≡ self.old.fails }
        ensures faults { self.new.faults ≡ self.old.faults }
    {
        let file = MemFile {
            name: Vec::from_slice(self.alloc, name.as_bytes())?,
            bytes: Vec::from_slice(self.alloc, bytes)?,
        };
        self.files.push(file)?;
        Ok(())
    }

    /// How many reads there were so far.
    pub fn calls(&self) -> u64
        ensures { result ≡ self.now.calls }
    {
        self.calls
    }
}

impl Files for MemFiles {
    ghost told = { λ f name. stored f.files.items name };

    ghost faults = { λ f. f.faults };

    /// Reads as many bytes as there are and as the piece has room for. It fails exactly where this call's
    /// number, from 0 on, is one of those that are to fail, or no file has the name.
    fn read(&mut self, name: &str, from: u64, into: &mut [u8]) -> Result<usize, Failed>
        ensures fails { Contains self.old.fails.items self.old.calls → IsErr result }
        ensures unknown { stored self.old.files.items name.now ≡ None → IsErr result }
        ensures only { IsErr result →
            Contains self.old.fails.items self.old.calls ⊎ (stored self.old.files.items name.now ≡ None) }
        ensures count { IfOk result (λ n. (bytes : List ℕ) → stored self.old.files.items name.now ≡ Some bytes →
            n ≡ min (length into.old) (length bytes - from)) }
        ensures size { length into.new ≡ length into.old }
        ensures bytes { IfOk result (λ n. (bytes : List ℕ) → stored self.old.files.items name.now ≡ Some bytes →
            take n into.new ≡ take n (drop from bytes)) }
        ensures within { IfOk result (λ n. n ≤ length into.old) }
        ensures some { IfOk result
            (λ n. (bytes : List ℕ) → stored self.old.files.items name.now ≡ Some bytes → n ≤ length bytes - from) }
        ensures at_end { IfOk result (λ n. (bytes : List ℕ) → stored self.old.files.items name.now ≡ Some bytes →
            n ≡ 0 → 0 < length into.old → length bytes ≤ from) }
        ensures steady { OnOk result (self.new.faults ≡ self.old.faults) }
        ensures failed { OnErr result (Rose self.old.faults self.new.faults) }
        ensures never_fall { self.old.faults ≤ self.new.faults }
        ensures same { (other : List ℕ) → stored self.new.files.items other ≡ stored self.old.files.items other }
        ensures calls { self.new.calls ≡ min (self.old.calls + 1) 18_446_744_073_709_551_615 }
        ensures to_fail { self.new.fails ≡ self.old.fails }
    {
        let number = self.calls;
        self.calls = number.saturating_add(1);
        let fails = self.fails.as_slice().contains(&number);
        if fails {
            self.faults = self.faults.saturating_add(1);
            return Err(Failed);
        }
        match read_stored(&self.files, name.as_bytes(), from, into) {
            Some(count) => Ok(count),
            None => {
                self.faults = self.faults.saturating_add(1);
                Err(Failed)
            }
        }
    }
}

/// A sink in memory. The writes of these numbers, from 0 on, fail.
#[derive(Drop)]
pub struct MemSink {
    fails: Vec<u64>,
    bytes: Vec<u8>,
    writes: u64,
    faults: u64,
}

impl MemSink {
    /// An empty sink, and the numbers of the writes that fail.
    pub fn new(alloc: Global, fails: Vec<u64>) -> Self
        ensures written { ⟦<MemSink as Sink>⟧.written result ≡ Some [] }
        ensures fails { result.fails ≡ fails }
        ensures writes { result.writes ≡ 0 }
        ensures faults { result.faults ≡ 0 }
    {
        MemSink {
            fails,
            bytes: Vec::new(alloc),
            writes: 0,
            faults: 0,
        }
    }

    /// The bytes written so far.
    pub fn bytes(&self) -> &[u8]
        ensures { ⟦<MemSink as Sink>⟧.written self.now ≡ Some result.now }
    {
        self.bytes.as_slice()
    }
}

impl Sink for MemSink {
    ghost written = { λ s. Some s.bytes.items };

    ghost faults = { λ s. s.faults };

    /// Takes the whole piece. It fails where this call's number, from 0 on, is one of those that are to fail,
    /// or memory for the piece is refused.
    fn write(&mut self, piece: &[u8]) -> Result<usize, Failed>
        ensures whole { IfOk result (λ n. n ≡ length piece.now) }
        ensures fails { Contains self.old.fails.items self.old.writes → IsErr result }
        ensures written { OnOk result (self.new.bytes.items ≡ self.old.bytes.items ++ piece.now) }
        ensures unwritten { OnErr result (self.new.bytes.items ≡ self.old.bytes.items) }
        ensures steady { OnOk result (self.new.faults ≡ self.old.faults) }
        ensures failed { OnErr result (Rose self.old.faults self.new.faults) }
        ensures never_fall { self.old.faults ≤ self.new.faults }
        ensures writes { self.new.writes ≡ min (self.old.writes + 1) 18_446_744_073_709_551_615 }
        ensures to_fail { self.new.fails ≡ self.old.fails }
    {
        let number = self.writes;
        self.writes = number.saturating_add(1);
        let fails = self.fails.as_slice().contains(&number);
        if !fails && self.bytes.extend_from_slice(piece).is_ok() {
            return Ok(piece.len());
        }
        self.faults = self.faults.saturating_add(1);
        Err(Failed)
    }
}
