//! Files that are read and a sink that is written.

ghost use Rattle.std.specs.Prelude.{◌≡◌, ℕ, ◌<◌, ◌≤◌, ◌-◌, ◌++◌, List, Option, Some, None, length, take, drop, min, IfOk, OnOk, OnErr};
ghost use Rattle.io_core.specs.Faults.{Rose};

use thiserror::Error;

/// A read or a write that failed.
#[derive(Debug, Clone, Copy, PartialEq, Eq, Error)]
#[error("the read or write failed")]
pub struct Failed;

/// Files that are read by name.
///
/// `told` is what is known of a file's bytes, `faults` how many reads failed so far.
pub trait Files {
    ghost told: { Self → List ℕ → Option (List ℕ) };

    ghost faults: { Self → ℕ };

    /// Reads bytes of a file, from one of its places on, into the front of a piece, and answers how many: 0 for a piece
    /// that isn't empty is the file's end.
    fn read(&mut self, name: &str, from: u64, into: &mut [u8]) -> Result<usize, Failed>
        ensures within { IfOk result (λ n. n ≤ length into.old) }
        ensures size { length into.new ≡ length into.old }
        ensures bytes { IfOk result
            (λ n. (bytes : List ℕ) → told self.old name.now ≡ Some bytes → take n into.new ≡ take n (drop from bytes)) }
        ensures some { IfOk result
            (λ n. (bytes : List ℕ) → told self.old name.now ≡ Some bytes → n ≤ length bytes - from) }
        ensures at_end { IfOk result (λ n. (bytes : List ℕ) → told self.old name.now ≡ Some bytes → n ≡ 0 →
            0 < length into.old → length bytes ≤ from) }
        ensures steady { OnOk result (faults self.new ≡ faults self.old) }
        ensures failed { OnErr result (Rose (faults self.old) (faults self.new)) }
        ensures never_fall { faults self.old ≤ faults self.new }
        ensures same { (other : List ℕ) → told self.new other ≡ told self.old other };
}

/// An output that is written piece by piece.
///
/// `written` is what is known of the bytes written so far, `faults` how many writes failed so far.
pub trait Sink {
    ghost written: { Self → Option (List ℕ) };

    ghost faults: { Self → ℕ };

    /// Writes bytes from the front of a piece, and answers how many: at least one where the piece isn't empty.
    fn write(&mut self, piece: &[u8]) -> Result<usize, Failed>
        ensures within { IfOk result (λ n. n ≤ length piece.now) }
        ensures some { IfOk result (λ n. 0 < length piece.now → 0 < n) }
        ensures written { IfOk result (λ n.
            (bytes : List ℕ) → written self.old ≡ Some bytes → written self.new ≡ Some (bytes ++ take n piece.now)) }
        ensures unwritten { OnErr result (written self.new ≡ written self.old) }
        ensures steady { OnOk result (faults self.new ≡ faults self.old) }
        ensures failed { OnErr result (Rose (faults self.old) (faults self.new)) }
        ensures never_fall { faults self.old ≤ faults self.new };
}
