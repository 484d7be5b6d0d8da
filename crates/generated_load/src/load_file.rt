//! A load as a file that is read in pieces: its text is made while it is read, a line at a time, and is
//! nowhere as a whole.

ghost use Rattle.std.specs.Prelude.{◌≡◌, ℕ, ◌+◌, ◌-◌, ◌<◌, ◌≤◌, ◌^◌, ◌⊎◌, ◌++◌, List, Option, Some, length, take, drop, min, IfOk, IsOk, OnOk, OnErr};
ghost use Rattle.generated_load.specs.Text.{load_text, move_line, next_random, upper};
ghost use Rattle.generated_load.specs.Places.{IsLineAt, IsPieceRead, IsEmptyAtEnd};

use crate::Line;
use io_core::{Failed, Files};

/// Files of which each name has the text of one load.
///
/// One line of the text is kept. Who reads on from it makes each line once; who reads from before it starts over.
#[derive(Drop)]
pub struct LoadFiles {
    seed: u64,
    moves: u64,
    // The line, its place in the text, how many moves are behind it, and the generator's state for them.
    line: Line,
    at: u64,
    left: u64,
    state: u64,
    ghost place: { IsLineAt (load_text seed moves) at line.items left state },
}

impl LoadFiles {
    /// The load of so many moves from a seed, under every name.
    pub fn new(seed: u64, moves: u64) -> Self
        ensures { (name : List ℕ) → ⟦<LoadFiles as Files>⟧.told result name ≡ Some (load_text seed moves) }
    {
        LoadFiles::at_start(seed, moves)
    }

    /// The load at its first line.
    fn at_start(seed: u64, moves: u64) -> Self
        ensures seed { result.seed ≡ seed }
        ensures moves { result.moves ≡ moves }
        ensures at { result.at ≡ 0 }
    {
        LoadFiles {
            seed,
            moves,
            line: crate::first_line(),
            at: 0,
            left: moves,
            state: seed,
        }
    }

    /// Goes on to the next line.
    fn go_on(&mut self)
        requires more { 0 < self.old.left }
        requires place { self.old.at + length self.old.line.items < 2 ^ 64 }
        ensures seed { self.new.seed ≡ self.old.seed }
        ensures moves { self.new.moves ≡ self.old.moves }
        ensures at { self.new.at ≡ self.old.at + length self.old.line.items }
        ensures left { self.new.left + 1 ≡ self.old.left }
    {
        self.at += self.line.len() as u64;
        self.left -= 1;
        self.state = crate::next(self.state);
        self.line = crate::move_line(crate::upper(self.state));
    }

    /// Goes to the line in which a place of the text is, or to the last line where the text has no such place.
    fn seek(&mut self, from: u64)
        ensures seed { self.new.seed ≡ self.old.seed }
        ensures moves { self.new.moves ≡ self.old.moves }
        ensures before { self.new.at ≤ from }
        ensures found { (from < self.new.at + length self.new.line.items) ⊎ (self.new.left ≡ 0) }
    {
        if from < self.at {
            *self = LoadFiles::at_start(self.seed, self.moves);
        }
        'lines: while self.left > 0 && from - self.at >= self.line.len() as u64 {
            self.go_on();
        }
    }

    /// Reads bytes of one line, from a place of the text on: none only where the text ends.
    fn read_line(&mut self, from: u64, into: &mut [u8]) -> usize
        ensures seed { self.new.seed ≡ self.old.seed }
        ensures moves { self.new.moves ≡ self.old.moves }
        ensures read { IsPieceRead (load_text self.old.seed self.old.moves) from into.old result into.new }
        ensures end { IsEmptyAtEnd (load_text self.old.seed self.old.moves) from into.old result }
    {
        self.seek(from);
        let skipped = (from - self.at).min(self.line.len() as u64) as usize;
        let rest = &self.line.as_slice()[skipped..];
        let count = rest.len().min(into.len());
        into[..count].copy_from_slice(&rest[..count]);
        count
    }
}

impl Files for LoadFiles {
    ghost told = { λ f name. Some (load_text f.seed f.moves) };

    ghost faults = { λ f. 0 };

    /// Fills the piece, as far as the text goes.
    fn read(&mut self, _name: &str, from: u64, into: &mut [u8]) -> Result<usize, Failed> {
        let mut count = 0;
        'lines: while count < into.len() {
            let Some(place) = from.checked_add(count as u64) else {
                return Ok(count);
            };
            let more = self.read_line(place, &mut into[count..]);
            if more == 0 {
                return Ok(count);
            }
            count += more;
        }
        Ok(count)
    }
}
