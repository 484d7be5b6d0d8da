//! The moves of a section that wait for the steppers.

use crate::OutOfMemory;
use plan_types::Move;
use section_plan::duration;
use section_stream::{MoveStream, Ready};
use std::alloc::Global;
use std::collections::VecDeque;

/// No section has more moves.
const MOST_MOVES: u64 = 2_000_000;

/// The moves of a section: those whose speeds are final wait until they are taken out.
#[derive(Drop)]
pub struct MoveQueue {
    moves: MoveStream,
    ready: VecDeque<Ready>,
    drawn: u128,
}

impl MoveQueue {
    ghost use Rattle.std.specs.Prelude.{◌≡◌, ℕ, ◌+◌, ◌<◌, ◌≤◌, ◌^◌, List, [], ◌∷◌, ◌++◌, OnOk, IfSome, IfNone, IsTrue, true, false};
    ghost use Rattle.plan_types.specs.declared.plan.Move.{Move};
    ghost use Rattle.plan_types.specs.Sections.{TimedPart, duration, timed};
    ghost use Rattle.section_plan.specs.Runs.{IsShortMove};
    ghost use Rattle.section_stream.specs.Ready.{IsReadyMove};
    ghost use Rattle.section_feed.specs.Queues.{IsDrawn, IsQueueOf, begin_in, count_in, cruise_in, drawn_to, is_taking, settled_to, waiting_in};

    /// The queue of a section that begins at a time in ns, with the square corner velocity `scv` in nm/s.
    pub fn new(alloc: Global, scv: u64, cruise: u32, begin: u128) -> MoveQueue
        requires corner { scv ≤ 100_000_000 }
        requires share { cruise < 1_000_000 }
        requires begin_small { begin < 2 ^ 90 }
        ensures empty { IsQueueOf result scv [] [] }
        ensures open { is_taking result ≡ true }
        ensures begin { drawn_to result ≡ begin }
        ensures time { settled_to result ≡ begin }
        ensures cruise { cruise_in result ≡ cruise }
        ensures from { begin_in result ≡ begin }
        ensures none { count_in result ≡ 0 }
    {
        MoveQueue {
            moves: MoveStream::new(alloc, scv, cruise, begin),
            ready: VecDeque::new(alloc),
            drawn: begin,
        }
    }

    /// Takes the moves whose speeds are final.
    fn settle(&mut self) -> Result<(), OutOfMemory>
        ensures on { OnOk result ((scv : ℕ) (moves : List Move) (parts : List TimedPart) →
            IsQueueOf self.old scv moves parts → IsQueueOf self.new scv moves parts) }
        ensures open { is_taking self.new ≡ is_taking self.old }
        ensures count { count_in self.new ≡ count_in self.old }
        ensures drawn { drawn_to self.new ≡ drawn_to self.old }
        ensures cruise { cruise_in self.new ≡ cruise_in self.old }
        ensures begin { begin_in self.new ≡ begin_in self.old }
    {
        for _ in 0..MOST_MOVES {
            let Some(ready) = self.moves.next() else {
                return Ok(());
            };
            self.ready.push_back(ready)?;
        }
        Ok(())
    }

    /// Adds a move behind the others.
    pub fn push(&mut self, one: Move) -> Result<(), OutOfMemory>
        requires short { IsShortMove one }
        requires open { is_taking self.old ≡ true }
        requires few { count_in self.old < 2_000_000 }
        ensures on { OnOk result ((scv : ℕ) (moves : List Move) (parts : List TimedPart) →
            IsQueueOf self.old scv moves parts → IsQueueOf self.new scv (moves ++ one ∷ []) parts) }
        ensures open { is_taking self.new ≡ true }
        ensures count { OnOk result (count_in self.new ≡ count_in self.old + 1) }
        ensures drawn { drawn_to self.new ≡ drawn_to self.old }
        ensures cruise { cruise_in self.new ≡ cruise_in self.old }
        ensures begin { begin_in self.new ≡ begin_in self.old }
    {
        self.moves.push(one)?;
        self.settle()?;
        Ok(())
    }

    /// The section ends behind the last move.
    pub fn finish(&mut self) -> Result<(), OutOfMemory>
        requires open { is_taking self.old ≡ true }
        ensures on { OnOk result ((scv : ℕ) (moves : List Move) (parts : List TimedPart) →
            IsQueueOf self.old scv moves parts → IsQueueOf self.new scv moves parts) }
        ensures open { is_taking self.new ≡ false }
        ensures count { count_in self.new ≡ count_in self.old }
        ensures drawn { drawn_to self.new ≡ drawn_to self.old }
        ensures cruise { cruise_in self.new ≡ cruise_in self.old }
        ensures begin { begin_in self.new ≡ begin_in self.old }
    {
        self.moves.finish();
        self.settle()?;
        Ok(())
    }

    /// The next move whose speeds are final, if one waits.
    pub fn next(&mut self) -> Option<Ready>
        ensures ready { IfSome result IsReadyMove }
        ensures some { IfSome result (λ r. (scv : ℕ) (moves : List Move) (parts : List TimedPart) →
            IsQueueOf self.old scv moves parts →
            IsQueueOf self.new scv moves (parts ++ timed r.one 0 (drawn_to self.old) r.parts)) }
        ensures none { IfNone result (self.new ≡ self.old) }
        ensures open { is_taking self.new ≡ is_taking self.old }
        ensures count { count_in self.new ≡ count_in self.old }
        ensures drawn { IfSome result (λ r. drawn_to self.new ≡ drawn_to self.old + duration r.parts) }
        ensures settled { settled_to self.new ≡ settled_to self.old }
        ensures waited { IfSome result (λ r. 0 < waiting_in self.old) }
        ensures cruise { cruise_in self.new ≡ cruise_in self.old }
        ensures begin { begin_in self.new ≡ begin_in self.old }
    {
        let ready = self.ready.front().copied()?;
        let drawn = self.drawn.checked_add(duration(&ready.parts))?;
        self.ready.pop_front();
        self.drawn = drawn;
        Some(ready)
    }

    /// Whether another move may be pushed.
    pub fn takes_more(&self) -> bool
        ensures open { IsTrue result → is_taking self.now ≡ true }
        ensures few { IsTrue result → count_in self.now < 2_000_000 }
        ensures more { is_taking self.now ≡ true → count_in self.now < 2_000_000 → IsTrue result }
    {
        self.moves.takes_more()
    }

    /// Whether more moves may come.
    pub fn is_open(&self) -> bool
        ensures { result ≡ is_taking self.now }
    {
        self.moves.is_open()
    }

    /// Whether no more moves come, and all were taken out.
    pub fn is_done(&self) -> bool
        ensures drawn { IsTrue result → IsDrawn self.now }
        ensures all { IsDrawn self.now → IsTrue result }
    {
        !self.moves.is_open() && self.moves.is_given() && self.ready.is_empty()
    }

    /// When the first move begins that is not settled, or the last one ends, in ns.
    pub fn reach(&self) -> u128
        ensures value { result ≡ settled_to self.now }
        ensures small { result < 2 ^ 100 }
    {
        self.moves.time()
    }

    /// When the moves end that were taken out, in ns.
    pub fn drawn(&self) -> u128
        ensures { result ≡ drawn_to self.now }
    {
        self.drawn
    }
}
