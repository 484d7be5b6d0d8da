//! The moves of a section, as their speeds become final.

ghost use Rattle.std.specs.Prelude.{◌≡◌, ◌<◌, ◌≤◌, ◌^◌};
ghost use Rattle.lookahead.specs.Stream.{settled_count};
ghost use Rattle.section_stream.specs.Looking.{IsMovingOn};

use crate::OutOfMemory;
use crate::ready::Ready;
use lookahead::LookStream;
use plan_types::Move;
use section_plan::{duration, parts_of};
use std::alloc::Global;

/// The moves of a section: those whose speeds no later move can lower are given with their parts.
#[derive(Drop)]
pub struct MoveStream {
    look: LookStream,
    cruise: u32,
    begin: u128,
    time: u128,
    pushed: u64,
    given: u64,
    goes: bool,
    ghost share: { cruise < 1_000_000 },
    ghost given_is: { given ≡ settled_count look },
    ghost begin_small: { begin < 2 ^ 90 },
    ghost going: { ∥ IsMovingOn goes look cruise time pushed begin ∥₁ },
}

impl MoveStream {
    ghost use Rattle.std.specs.Prelude.{◌≡◌, ◌↔◌, ℕ, ◌+◌, ◌*◌, ◌<◌, ◌≤◌, ◌^◌, List, [], ◌∷◌, ◌++◌, OnOk, IfSome, IfNone, IsTrue, true, false, length};
    ghost use Rattle.plan_types.specs.declared.plan.Move.{Move};
    ghost use Rattle.plan_types.specs.Sections.{TimedPart, duration, timed};
    ghost use Rattle.section_plan.specs.Runs.{IsShortMove, move_ns};
    ghost use Rattle.section_stream.specs.Ready.{IsReadyMove};
    ghost use Rattle.section_stream.specs.Moving.{IsMovesOf, begin_of, cruise_of, given_count, is_open, pushed_count, time_of};

    /// A stream of a section that begins at a time in ns, with the square corner velocity `scv` in nm/s.
    pub fn new(alloc: Global, scv: u64, cruise: u32, begin: u128) -> MoveStream
        requires corner { scv ≤ 100_000_000 }
        requires share { cruise < 1_000_000 }
        requires begin_small { begin < 2 ^ 90 }
        ensures empty { IsMovesOf result scv [] [] }
        ensures open { is_open result ≡ true }
        ensures begin { begin_of result ≡ begin }
        ensures time { time_of result ≡ begin }
        ensures cruise { cruise_of result ≡ cruise }
        ensures none { pushed_count result ≡ 0 }
    {
        MoveStream {
            look: LookStream::new(alloc, scv),
            cruise,
            begin,
            time: begin,
            pushed: 0,
            given: 0,
            goes: true,
        }
    }

    /// Adds a move behind the others.
    pub fn push(&mut self, one: Move) -> Result<(), OutOfMemory>
        requires short { IsShortMove one }
        requires open { is_open self.old ≡ true }
        requires few { pushed_count self.old < 2_000_000 }
        ensures ok { OnOk result ((scv : ℕ) (moves : List Move) (made : List TimedPart) →
            IsMovesOf self.old scv moves made → IsMovesOf self.new scv (moves ++ one ∷ []) made) }
        ensures count { OnOk result (pushed_count self.new ≡ pushed_count self.old + 1) }
        ensures open { is_open self.new ≡ true }
        ensures begin { begin_of self.new ≡ begin_of self.old }
        ensures time { time_of self.new ≡ time_of self.old }
        ensures cruise { cruise_of self.new ≡ cruise_of self.old }
        ensures given { given_count self.new ≡ given_count self.old }
    {
        self.look.push(one)?;
        self.pushed += 1;
        Ok(())
    }

    /// The section ends behind the last move.
    pub fn finish(&mut self)
        requires open { is_open self.old ≡ true }
        ensures ended { (scv : ℕ) (moves : List Move) (made : List TimedPart) → IsMovesOf self.old scv moves made →
            IsMovesOf self.new scv moves made }
        ensures open { is_open self.new ≡ false }
        ensures begin { begin_of self.new ≡ begin_of self.old }
        ensures time { time_of self.new ≡ time_of self.old }
        ensures cruise { cruise_of self.new ≡ cruise_of self.old }
        ensures pushed { pushed_count self.new ≡ pushed_count self.old }
        ensures given { given_count self.new ≡ given_count self.old }
    {
        self.look.finish();
        self.goes = false;
    }

    /// The next move with its parts, once no later move can lower its speeds.
    pub fn next(&mut self) -> Option<Ready>
        ensures ready { IfSome result IsReadyMove }
        ensures some { IfSome result (λ r. (scv : ℕ) (moves : List Move) (made : List TimedPart) →
            IsMovesOf self.old scv moves made →
            IsMovesOf self.new scv moves (made ++ timed r.one 0 (time_of self.old) r.parts)) }
        ensures none { IfNone result ((scv : ℕ) (moves : List Move) (made : List TimedPart) →
            IsMovesOf self.old scv moves made → IsMovesOf self.new scv moves made) }
        ensures all { IfNone result ((scv : ℕ) (moves : List Move) (made : List TimedPart) →
            IsMovesOf self.old scv moves made → is_open self.old ≡ false → given_count self.new ≡ length moves) }
        ensures time { IfSome result (λ r. time_of self.new ≡ time_of self.old + duration r.parts) }
        ensures same { IfNone result (time_of self.new ≡ time_of self.old) }
        ensures count { IfSome result (λ r. given_count self.new ≡ given_count self.old + 1) }
        ensures open { is_open self.new ≡ is_open self.old }
        ensures begin { begin_of self.new ≡ begin_of self.old }
        ensures cruise { cruise_of self.new ≡ cruise_of self.old }
        ensures pushed { pushed_count self.new ≡ pushed_count self.old }
    {
        let (one, start, end) = self.look.settled()?;
        let parts = parts_of(&one, start, end, self.cruise);
        self.time += duration(&parts);
        self.given += 1;
        Some(Ready { one, parts })
    }

    /// Whether another move may be pushed.
    pub fn takes_more(&self) -> bool
        ensures goes { IsTrue result → is_open self.now ≡ true }
        ensures few { IsTrue result → pushed_count self.now < 2_000_000 }
        ensures more { is_open self.now ≡ true → pushed_count self.now < 2_000_000 → IsTrue result }
    {
        self.goes && self.pushed < 2_000_000
    }

    /// Whether more moves may come.
    pub fn is_open(&self) -> bool
        ensures { result ≡ is_open self.now }
    {
        self.goes
    }

    /// Whether all moves that were pushed were given.
    pub fn is_given(&self) -> bool
        ensures { IsTrue result ↔ (given_count self.now ≡ pushed_count self.now) }
    {
        self.given == self.pushed
    }

    /// When the moves end that were given, in ns.
    pub fn time(&self) -> u128
        ensures value { result ≡ time_of self.now }
        ensures after { begin_of self.now ≤ result }
        ensures small { result < 2 ^ 100 }
    {
        self.time
    }
}
