//! The pieces of a text.
ghost use Rattle.std.specs.Prelude.{◌≡◌, ◌+◌, ◌-◌, ◌<◌, ◌≤◌, ◌^◌, ◌++◌, ℕ, List, Some, true, false, take, drop, length, IfOk, IfErr, OnOk, OnErr};
ghost use Rattle.io_core.specs.Faults.{Rose};
ghost use Rattle.session_run.specs.Reads.{IsNextPiece, IsPieceAt, StopsReading};

use io_core::Files;
use msg_code::Piece;
use plan_types::Listed;
use std::alloc::Global;

/// So many bytes has a piece, but for the last one, which has fewer.
pub const PIECE: usize = 4096;

/// No text is read from this place on.
const FAR: u64 = 1 << 62;

/// Why a piece is not there.
#[derive(Debug, Clone, Copy, PartialEq, Eq)]
pub enum ReadStop {
    /// Memory was wanted, or the text is longer than any memory.
    Memory,
    /// The file could not be read.
    Failed,
}

// Adds bytes of a file to those that a piece has already, as far as it has room. Whether there were any.
fn fill<F: Files>(files: &mut F, name: &str, at: u64, bytes: &mut Vec<u8>) -> Result<bool, ReadStop>
    requires at { at < 2 ^ 62 }
    requires room { length bytes.old.items < 4_096 }
    ensures more { IfOk result (λ more. (text : List ℕ) → F.told files.old name.now ≡ Some text →
        bytes.old.items ≡ take (length bytes.old.items) (drop at text) →
        bytes.new.items ≡ take (length bytes.new.items) (drop at text)) }
    ensures end { IfOk result (λ more. more ≡ false → (text : List ℕ) → F.told files.old name.now ≡ Some text →
        length (drop at text) ≤ length bytes.new.items) }
    ensures same { IfOk result (λ more. more ≡ false → bytes.new.items ≡ bytes.old.items) }
    ensures grows { IfOk result (λ more. more ≡ true → length bytes.old.items < length bytes.new.items) }
    ensures size { OnOk result (length bytes.new.items ≤ 4_096) }
    ensures steady { OnOk result (F.faults files.new ≡ F.faults files.old) }
    ensures stopped { IfErr result (λ stop. StopsReading stop (F.faults files.old) (F.faults files.new)) }
    ensures never_fall { F.faults files.old ≤ F.faults files.new }
    ensures told { (other : List ℕ) → F.told files.new other ≡ F.told files.old other }
{
    let mut room = [0u8; PIECE];
    let Ok(found) = files.read(name, at + bytes.len() as u64, &mut room) else {
        return Err(ReadStop::Failed);
    };
    let count = found.min(PIECE - bytes.len());
    if bytes.extend_from_slice(&room[..count]).is_err() {
        return Err(ReadStop::Memory);
    }
    Ok(count > 0)
}

/// The next piece of a file, in a turn of the reactor, from a place on, which then is the one behind it.
pub fn read_piece<F: Files>(
    files: &mut F,
    alloc: Global,
    name: &str,
    number: u64,
    turn: u64,
    at: &mut u64,
) -> Result<Piece, ReadStop>
    ensures same { OnErr result (at.new ≡ at.old) }
    ensures next { IfOk result (λ p. IsNextPiece F.Files name.now files.old at.old p at.new) }
    ensures number { IfOk result (λ p. (p.number ≡ number) × (p.turn ≡ turn) × (p.stop ≡ false)) }
    ensures steady { OnOk result (F.faults files.new ≡ F.faults files.old) }
    ensures stopped { IfErr result (λ stop. StopsReading stop (F.faults files.old) (F.faults files.new)) }
    ensures never_fall { F.faults files.old ≤ F.faults files.new }
    ensures told { (other : List ℕ) → F.told files.new other ≡ F.told files.old other }
{
    if *at >= FAR {
        return Err(ReadStop::Memory);
    }
    let mut bytes = Vec::new(alloc);
    let mut more = true;
    while more && bytes.len() < PIECE {
        more = fill(files, name, *at, &mut bytes)?;
    }
    let end = bytes.len() < PIECE;
    *at += bytes.len() as u64;
    Ok(Piece {
        number,
        turn,
        bytes: Listed::of(bytes),
        end,
        stop: false,
    })
}
