//! Turns of the planner whose batches and notes wait, on one thread, until the links are so far.
ghost use Rattle.std.specs.Prelude.{◌≡◌, ◌+◌, ℕ, ◌∷◌, length};
ghost use Rattle.session_work.specs.Bares.{bare_batch, bare_note};
ghost use Rattle.session_work.specs.Lates.{batches_of, late_row};
ghost use Rattle.session_work.specs.Rows.{copies};

use crate::messages::{Bare, Batch, Note};
use crate::rows::take_first;
use std::alloc::Global;

/// A batch for each board.
#[derive(Drop)]
pub enum Row {
    Made(Vec<Batch>),
    /// Without units; whether nothing follows.
    Bare { end: bool },
}

/// A turn of the planner that was made, and that no link and no reactor has seen.
#[derive(Drop)]
pub struct Late {
    pub row: Row,
    pub note: Note,
}

// What waits of a turn in which the machine is asked nothing.
#[inline(always)]
pub fn bare_late(alloc: Global, k: u64, halted: bool, out: bool) -> Late
    ensures note { result.note ≡ bare_note k out }
    ensures row { (n : ℕ) → late_row n result ≡ copies n (bare_batch k halted) }
{
    Late {
        row: Row::Bare { end: halted },
        note: Note::bare(alloc, k, out),
    }
}

// Takes the batch of turn k of the first board of those that are left.
#[inline(always)]
pub fn next_batch(alloc: Global, k: u64, row: &mut Row) -> Batch
    requires some { (n : ℕ) × (length (batches_of (n + 1) k row.old) ≡ n + 1) }
    ensures { (n : ℕ) → length (batches_of (n + 1) k row.old) ≡ n + 1 →
        batches_of (n + 1) k row.old ≡ result ∷ batches_of n k row.new }
{
    match row {
        Row::Made(batches) => take_first(batches),
        Row::Bare { end } => Batch::bare(alloc, k, *end),
    }
}
