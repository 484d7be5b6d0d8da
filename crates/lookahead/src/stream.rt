//! The greatest squared speeds of a section whose moves come one by one.

ghost use Rattle.std.specs.Prelude.{All, ◌≤◌, ◌<◌};
ghost use Rattle.plan_types.specs.Valid.{IsValidMove};

use crate::cap::junction_cap;
use crate::lows::{Low, add, first, leave};
use crate::{OutOfMemory, change};
use plan_types::Move;
use std::alloc::Global;
use std::collections::VecDeque;

/// The moves of a section that wait for their speeds.
///
/// A junction's speed is final once the way from there to the last move's end is long enough to stop, so the moves
/// before it can be planned while later ones are still read (Klipper's lookahead queue, Code_Overview.md).
#[derive(Drop)]
pub struct LookStream {
    scv: u64,
    moves: VecDeque<Move>,
    lows: VecDeque<Low>,
    taken: u64,
    pushed: u64,
    passed: u128,
    reach: u128,
    start: u128,
    risen: u128,
    ghost scv_small: { scv ≤ 100_000_000 },
    ghost valid: { All IsValidMove moves.items },
}

impl LookStream {
    ghost use Rattle.std.specs.Prelude.{◌≡◌, ◌⊎◌, ℕ, ◌+◌, ◌-◌, ◌<◌, min, List, [], ◌∷◌, ◌++◌, MatchOption, OnOk, OnErr, length, map, slice_index_or};
    ghost use Rattle.std.specs.VecDeque.{deque_len, deque_capacity};
    ghost use Rattle.plan_types.specs.declared.plan.Move.{Move};
    ghost use Rattle.plan_types.specs.Speeds.{caps, junction_cap, speed_change};
    ghost use Rattle.lookahead.specs.Stream.{IsStreamOf, IsOpenStreamOf, IsEndedStreamOf, IsFinalSpeed, IsOpenEnd, settled_count, speed_at, speed_by, junction_place};

    /// A stream of a section that has no move yet, with the square corner velocity `scv` in nm/s.
    pub fn new(alloc: Global, scv: u64) -> LookStream
        requires { scv ≤ 100_000_000 }
        ensures open { IsOpenStreamOf result scv [] }
        ensures none { settled_count result ≡ 0 }
    {
        LookStream {
            scv,
            moves: VecDeque::new(alloc),
            lows: VecDeque::new(alloc),
            taken: 0,
            pushed: 0,
            passed: 0,
            reach: 0,
            start: 0,
            risen: 0,
        }
    }

    /// Adds a move behind the others.
    pub fn push(&mut self, one: Move) -> Result<(), OutOfMemory>
        requires valid { IsValidMove one }
        ensures ok { OnOk result ((moves : List Move) → (scv : ℕ) → length moves < 2_000_000 →
            IsOpenStreamOf self.old scv moves → IsOpenStreamOf self.new scv (moves ++ one ∷ [])) }
        ensures unchanged { OnErr result
            ((moves : List Move) → (scv : ℕ) → IsOpenStreamOf self.old scv moves → IsOpenStreamOf self.new scv moves) }
        ensures count { settled_count self.new ≡ settled_count self.old }
    {
        self.moves.reserve(1)?;
        self.lows.reserve(2)?;
        let rise = self.next_rise(&one);
        add(&mut self.lows, self.pushed, rise.saturating_add(self.reach));
        self.moves.push_back(one)?;
        let more = change(&one);
        self.reach = self.reach.saturating_add(more);
        self.risen = rise.saturating_add(more);
        self.pushed = self.pushed.saturating_add(1);
        Ok(())
    }

    /// The squared speed that the caps so far allow where a move begins.
    fn next_rise(&self, one: &Move) -> u128
        requires { IsValidMove one.now }
        ensures start { length self.now.moves.items ≡ 0 → result ≡ 0 }
        ensures later { 0 < length self.now.moves.items →
            result
            ≡ min (junction_cap (slice_index_or self.now.moves.items (length self.now.moves.items - 1) one.now) one.now
            self.now.scv)
            self.now.risen }
        ensures small { result ≤ 1_000_000_000_000_000_000 }
    {
        match self.moves.back() {
            Some(last) => junction_cap(last, one, self.scv).min(self.risen),
            None => 0,
        }
    }

    /// The section ends behind the last move.
    pub fn finish(&mut self)
        ensures ended { (moves : List Move) → (scv : ℕ) → IsOpenStreamOf self.old scv moves →
            IsEndedStreamOf self.new scv moves }
        ensures count { settled_count self.new ≡ settled_count self.old }
    {
        // The last push left room for this.
        add(&mut self.lows, self.pushed, self.reach);
    }

    /// Takes the first move out with its two squared speeds, once no later cap can lower them.
    pub fn settled(&mut self) -> Option<(Move, u128, u128)>
        ensures open { (moves : List Move) → (scv : ℕ) → IsOpenStreamOf self.old scv moves →
            MatchOption result (IsOpenEnd moves scv (settled_count self.old)
            × (settled_count self.new ≡ settled_count self.old) × IsOpenStreamOf self.new scv moves)
            (λ r. (r.0 ≡ slice_index_or moves (settled_count self.old) r.0)
            × IsFinalSpeed moves scv (settled_count self.old) r.1
            × IsFinalSpeed moves scv (settled_count self.old + 1) r.2
            × (settled_count self.new ≡ settled_count self.old + 1) × IsOpenStreamOf self.new scv moves) }
        ensures ended { (moves : List Move) → (scv : ℕ) → IsEndedStreamOf self.old scv moves →
            MatchOption result ((settled_count self.old ≡ length moves)
            × (settled_count self.new ≡ settled_count self.old) × IsEndedStreamOf self.new scv moves)
            (λ r. (r.0 ≡ slice_index_or moves (settled_count self.old) r.0)
            × (r.1 ≡ speed_at moves scv (settled_count self.old))
            × (r.2 ≡ speed_at moves scv (settled_count self.old + 1))
            × (settled_count self.new ≡ settled_count self.old + 1) × IsEndedStreamOf self.new scv moves) }
    {
        self.take_first()
    }

    /// Takes the first move out, where the speed at its end is known.
    fn take_first(&mut self) -> Option<(Move, u128, u128)>
        ensures speeds { (moves : List Move) → (scv : ℕ) → (caps : List ℕ) → IsStreamOf self.old scv moves caps →
            MatchOption result (((length caps ≤ self.old.taken + 1)
            ⊎ (junction_place (map speed_change moves) (length moves)
            < speed_by (map speed_change moves) caps (self.old.taken + 1)
            + junction_place (map speed_change moves) (self.old.taken + 1)))
            × (self.new.taken ≡ self.old.taken) × IsStreamOf self.new scv moves caps)
            (λ r. (r.0 ≡ slice_index_or moves self.old.taken r.0)
            × (r.1 ≡ speed_by (map speed_change moves) caps self.old.taken)
            × (r.2 ≡ speed_by (map speed_change moves) caps (self.old.taken + 1))
            × (speed_by (map speed_change moves) caps (self.old.taken + 1)
            + junction_place (map speed_change moves) (self.old.taken + 1)
            ≤ junction_place (map speed_change moves) (length moves))
            × (self.old.taken + 1 < length caps) × (self.new.taken ≡ self.old.taken + 1)
            × IsStreamOf self.new scv moves caps) }
        ensures pushed { self.new.pushed ≡ self.old.pushed }
        ensures risen { self.new.risen ≡ self.old.risen }
        ensures room { deque_len self.old.lows < deque_capacity self.old.lows →
            deque_len self.new.lows < deque_capacity self.new.lows }
    {
        let low = first(&self.lows)?;
        if low.height > self.reach {
            return None;
        }
        let one = self.moves.pop_front()?;
        let start = self.start;
        self.passed = self.passed.saturating_add(change(&one));
        self.start = low.height.saturating_sub(self.passed);
        self.taken = self.taken.saturating_add(1);
        leave(&mut self.lows, self.taken);
        Some((one, start, self.start))
    }
}
