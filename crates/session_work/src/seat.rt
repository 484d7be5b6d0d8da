//! A motion machine at its lanes: what it was told of the run's end, and whether it still plans.
ghost use Rattle.std.specs.Prelude.{◌≡◌, ◌+◌, ◌<◌, ◌≤◌, ◌^◌, ℕ, true, false};
ghost use Rattle.session_work.specs.Seats.{needs, hungers, WordStep, PieceStep, MakeStep};
ghost use Rattle.session_work.specs.Lates.{late_row, IsLate};

use crate::late::{Late, Row, bare_late};
use crate::machines::MotionMachine;
use crate::messages::{Made, Piece, WordMsg};
use crate::runtime::{Runtime, stay};
use std::sync::Wait;

/// A motion machine, and what its worker knows beside it.
#[derive(Drop)]
pub struct Seat<M> {
    pub machine: M,
    /// A word said that nothing follows.
    pub halted: bool,
    /// The machine is asked no more: memory was wanted, or the file could not be read.
    pub quiet: bool,
    /// Memory was wanted.
    pub out: bool,
    /// How many words it was told.
    pub heard: u64,
}

/// So many turns a quiet worker is ahead of its words.
const LAG: u64 = 64;

impl<M: MotionMachine> Seat<M> {
    /// Whether the next word must be taken before the batches of turn k.
    #[inline(always)]
    pub fn needs(&self, k: u64) -> bool
        ensures value { result ≡ needs M.wants k self.now }
        ensures bound { result ≡ true → self.now.heard ≤ k }
    {
        if self.halted {
            return false;
        }
        if self.quiet {
            return k >= LAG && self.heard <= k - LAG;
        }
        match self.machine.wants(k) {
            Some(word) => self.heard <= word,
            None => false,
        }
    }

    /// Whether a piece of the file must be taken before the batches of turn k.
    #[inline(always)]
    pub fn hungers(&self, k: u64) -> bool
        ensures { result ≡ hungers M.hungry k self.now }
    {
        !self.halted && !self.quiet && self.machine.hungry(k)
    }

    /// Whether the batches of turn n need no word behind word k.
    #[inline(always)]
    pub fn is_free(&self, n: u64, k: u64) -> bool {
        if self.halted {
            return false;
        }
        if self.quiet {
            return n < LAG || n - LAG <= k;
        }
        match self.machine.wants(n) {
            Some(word) => word <= k,
            None => true,
        }
    }

    /// Before the batches of turn k, where more words are needed for them: the first turn of the reactor in
    /// which a piece of the file may be asked for. A turn that takes one has heard the word of 64 turns
    /// before.
    pub fn sated(&self, k: u64) -> u64 {
        if self.halted || self.quiet {
            return u64::MAX;
        }
        let turn = self.machine.sated(k.saturating_sub(1));
        self.heard.max(turn.saturating_sub(LAG))
    }

    /// Takes the next word.
    #[inline(always)]
    pub fn word(&mut self, word: WordMsg)
        requires room { self.old.heard + 1 < 2 ^ 64 }
        requires on { self.old.halted ≡ false }
        ensures step { WordStep M.hears self.old word self.new }
        ensures boards { M.boards self.new.machine ≡ M.boards self.old.machine }
    {
        self.heard += 1;
        if word.end {
            self.halted = true;
            return;
        }
        if !self.quiet && self.machine.word(word).is_err() {
            self.quiet = true;
            self.out = true;
        }
    }

    /// The batches of turn k and its note, bare ones where the machine is asked no more.
    #[inline(always)]
    pub fn turn<R: Wait, G>(&mut self, rt: &Runtime<'_, R, G>, k: u64) -> Late
        requires fed { hungers M.hungry k self.old ≡ false }
        ensures made { (n : ℕ) → M.boards self.old.machine ≡ n →
            MakeStep n M.turns k self.old (late_row n result) result.note self.new × IsLate n k result }
        ensures boards { M.boards self.new.machine ≡ M.boards self.old.machine }
    {
        if self.halted || self.quiet {
            return bare_late(rt.alloc, k, self.halted, self.out);
        }
        // A machine at a limit stays there.
        if !self.machine.can_turn(k) {
            stay(rt.threads);
        }
        if let Ok(Made { batches, note }) = self.machine.turn(k) {
            return Late {
                row: Row::Made(batches),
                note,
            };
        }
        self.quiet = true;
        self.out = true;
        bare_late(rt.alloc, k, self.halted, self.out)
    }

    /// Takes back what a turn was in: where it was a list, its room is used again.
    #[inline(always)]
    pub fn give_back(&mut self, row: Row)
        ensures { self.new ≡ self.old }
    {
        if let Row::Made(room) = row {
            self.machine.give_back(room);
        }
    }

    /// Takes the next piece of the file. One that says that nothing comes is of the turn of the last word
    /// that was heard.
    pub fn piece(&mut self, piece: Piece)
        requires on { self.old.quiet ≡ false }
        ensures step { PieceStep M.reads self.old piece self.new }
        ensures boards { M.boards self.new.machine ≡ M.boards self.old.machine }
    {
        if piece.stop && self.heard > 0 && piece.turn == self.heard - 1 {
            self.quiet = true;
            return;
        }
        if piece.stop || self.machine.text(piece).is_err() {
            self.quiet = true;
            self.out = true;
        }
    }
}
