//! A reactor and what its thread reaches outside.
ghost use Rattle.std.specs.Prelude.{◌≡◌, ◌≢◌, ◌+◌, ◌<◌, ◌↔◌, ℕ, true, false, length, vec_len, IfSome, IfNone, IsTrue, is_some, None, Some, Ok, Err};
ghost use Rattle.session_work.specs.Heads.{IsRow, Wrote, ServeStep};
ghost use Rattle.session_work.specs.Bares.{bare_control, bare_word};
ghost use Rattle.session_work.specs.Rows.{AreOf, AllEnd, copies};

use crate::machines::{Ordered, Outside, ReactorMachine};
use crate::messages::{Bare, Control, Note, Piece, State, stop_piece};
use crate::runtime::stay;
use plan_types::{Cause, Listed};
use report_text::ReportLine;
use std::alloc::Global;
use std::sync::Wait;

/// What a turn of the reactor begins with: the states of the turn before, one of each board, and its note.
#[derive(Drop)]
pub struct Found {
    pub states: Vec<State>,
    pub note: Option<Note>,
}

/// A reactor, what its thread reaches outside, and whether the file could not be read.
#[derive(Drop)]
pub struct Head<A, O> {
    pub machine: A,
    pub outside: O,
    pub stopped: bool,
}

/// Whether an end is for want of memory.
fn wants_memory(end: &Option<Cause>) -> bool
    ensures { IsTrue result ↔ end.now ≡ Some Cause.Memory }
{
    match *end {
        Some(Cause::Memory) => true,
        _ => false,
    }
}

impl<A: ReactorMachine, O: Outside> Head<A, O> {
    /// What the machine orders in turn k. None where memory was wanted, by the machine or by who found the
    /// row: then nothing of it is written.
    #[inline(always)]
    pub fn turn<R: Wait>(&mut self, rt: &R, k: u64, found: &Found) -> Option<Ordered>
        requires found { IsRow (A.boards self.old.machine) k found.now.states.items found.now.note }
        requires states { AreOf (λ s. s.turn + 1) k found.now.states.items }
        requires note { IfSome found.now.note (λ n. n.turn + 1 ≡ k) }
        ensures asked { IfSome result (λ o. A.turns self.old.machine k found.now.states.items found.now.note
            o.controls.items o.word o.lines o.end self.new.machine) }
        ensures controls { IfSome result
            (λ o. (vec_len o.controls ≡ A.boards self.old.machine) × AreOf (λ c. c.turn) k o.controls.items) }
        ensures word { IfSome result (λ o. o.word.turn ≡ k) }
        ensures memory { IfSome result (λ o. o.end ≢ Some Cause.Memory) }
        ensures free { IfSome result (λ o. (n : ℕ) → A.free self.old.machine k (n + 1) → o.end ≡ None →
            (o.controls.items ≡ copies (A.boards self.old.machine) (bare_control k false))
            × (o.word ≡ bare_word k false) × A.free self.new.machine (k + 1) n) }
        ensures boards { A.boards self.new.machine ≡ A.boards self.old.machine }
        ensures outside { self.new.outside ≡ self.old.outside }
        ensures stopped { self.new.stopped ≡ self.old.stopped }
    {
        // A machine at a limit stays there.
        if !self.machine.can_turn(k) {
            stay(rt);
        }
        let ordered = self
            .machine
            .turn(k, found.states.as_slice(), &found.note)
            .ok()?;
        if wants_memory(&ordered.end) {
            return None;
        }
        Some(ordered)
    }

    /// Takes the list of a turn's controls back, whose room is used again.
    #[inline(always)]
    pub fn give_back(&mut self, room: Vec<Control>)
        ensures { self.new ≡ self.old }
    {
        self.machine.give_back(room);
    }

    /// Writes the lines of a turn. Where they don't go out, the machine is told.
    #[inline(always)]
    pub fn write(&mut self, lines: Listed<ReportLine>)
        ensures wrote { Wrote A.stops O.writes self.old lines self.new }
        ensures free { (k n : ℕ) → A.free self.old.machine k n → A.free self.new.machine k n }
        ensures boards { A.boards self.new.machine ≡ A.boards self.old.machine }
    {
        if !self.outside.write(lines) {
            self.machine.stop(Cause::WriteFault);
        }
    }

    /// Reads a piece of the file in turn k. Where that fails, the machine is told, and the piece is one that says so.
    pub fn piece(&mut self, alloc: Global, k: u64, number: u64) -> Piece
        requires on { self.old.stopped ≡ false }
        ensures step { ServeStep A.stops O.serves k self.old result self.new }
        ensures free { (k n : ℕ) → A.free self.old.machine k n → A.free self.new.machine k n }
        ensures number { result.number ≡ number }
        ensures stop { result.stop ≡ self.new.stopped }
        ensures boards { A.boards self.new.machine ≡ A.boards self.old.machine }
    {
        match self.outside.piece(number, k) {
            Ok(piece) => piece,
            Err(cause) => {
                self.machine.stop(cause);
                self.stopped = true;
                stop_piece(alloc, k, number)
            }
        }
    }
}
