//! The units of a stepper that are released and may not be over.

ghost use Rattle.std.specs.Prelude.{◌≡◌, ◌↔◌, ℕ, ◌+◌, ◌*◌, ◌^◌, ◌<◌, ◌≤◌, [], ◌∷◌, ◌++◌, All, IfOk, take, drop};
ghost use Rattle.std.specs.VecDeque.{deque_capacity, deque_len};
ghost use Rattle.plan_types.specs.Clock.{tick_limit, turn_ns};
ghost use Rattle.plan_types.specs.Lines.{last_from};
ghost use Rattle.step_feed.specs.Pacing.{over_turn, turn_limit};
ghost use Rattle.step_feed.specs.Rings.{AreAtLeast, AreAtMost, IsUp, count_from, made_before, not_over, one_from};

use crate::OutOfMemory;
use clock_line::Lines;
use std::alloc::Global;
use std::collections::VecDeque;

/// The turns behind that of a last tick, from which on its steps count as made.
const OVER_AFTER: u64 = 5;

/// The last ticks of the units of a stepper that are released and may not be over, in their order.
#[derive(Drop)]
pub struct Ring {
    slots: usize,
    ends: VecDeque<u64>,
    ghost some: { 1 ≤ slots },
    ghost up: { IsUp ends.items },
    ghost small: { All (λ e. e < tick_limit) ends.items },
    ghost few: { deque_len ends ≤ slots },
    ghost room: { slots ≤ deque_capacity ends },
}

/// The turn from which on the steps up to a tick count as made.
#[tactic(auto, using(crate::proofs::Turns::turn_small))]
fn over_turn(lines: &Lines, last: u64) -> u64
    requires lines_soon { last_from lines.now.first.at lines.now.held < 2 ^ 62 * turn_ns }
    requires small { last < tick_limit }
    ensures value { result ≡ over_turn lines.now last }
    ensures small { result < turn_limit }
{
    lines.is_kept();
    if last < lines.first().clock {
        OVER_AFTER
    } else {
        lines.turn(last) + OVER_AFTER
    }
}

/// How many of the ticks are at most a tick.
fn place(ends: &VecDeque<u64>, last: u64) -> usize
    requires { IsUp ends.now.items }
    ensures within { result ≤ deque_len ends.now }
    ensures below { AreAtMost last (take result ends.now.items) }
    ensures above { AreAtLeast last (drop result ends.now.items) }
{
    for i in (0..ends.len()).rev() {
        if ends[i] <= last {
            return i + 1;
        }
    }
    0
}

/// Puts a tick at a place, where there is room for it.
fn put(ends: &mut VecDeque<u64>, at: usize, last: u64)
    requires within { at ≤ deque_len ends.old }
    requires room { deque_len ends.old < deque_capacity ends.old }
    ensures items { ends.new.items ≡ take at ends.old.items ++ last ∷ drop at ends.old.items }
    ensures len { deque_len ends.new ≡ deque_len ends.old + 1 }
    ensures capacity { deque_capacity ends.old ≤ deque_capacity ends.new }
{
    let _ = ends.insert(at, last);
}

impl Ring {
    /// A ring for a queue of so many slots.
    pub fn new(alloc: Global, slots: usize) -> Result<Ring, OutOfMemory>
        requires { 1 ≤ slots }
        ensures empty { IfOk result (λ ring. ring.ends.items ≡ []) }
        ensures slots { IfOk result (λ ring. ring.slots ≡ slots) }
    {
        Ok(Ring {
            slots,
            ends: VecDeque::with_capacity(alloc, slots)?,
        })
    }

    /// The first turn in which one more unit has a slot.
    pub fn free_from(&self, lines: &Lines) -> u64
        requires { last_from lines.now.first.at lines.now.held < 2 ^ 62 * turn_ns }
        ensures free { (k : ℕ) → (not_over lines.now k self.now.ends.items < self.now.slots) ↔ (result ≤ k) }
        ensures small { result < turn_limit }
    {
        lines.is_kept();
        if self.ends.len() < self.slots {
            return 0;
        }
        over_turn(lines, self.ends[0])
    }

    /// Lets go of the first tick where the ring is full.
    fn make_room(&mut self)
        ensures full { deque_len self.old.ends ≡ self.old.slots → self.new.ends.items ≡ drop 1 self.old.ends.items }
        ensures some { deque_len self.old.ends < self.old.slots → self.new.ends.items ≡ self.old.ends.items }
        ensures room { deque_len self.new.ends < self.new.slots }
        ensures slots { self.new.slots ≡ self.old.slots }
    {
        if self.ends.len() == self.slots {
            self.ends.pop_front();
        }
    }

    /// Adds the last tick of a unit that is released in a turn in which it has a slot.
    pub fn add(&mut self, lines: &Lines, last: u64, turn: u64)
        requires lines_soon { last_from lines.now.first.at lines.now.held < 2 ^ 62 * turn_ns }
        requires small { last < tick_limit }
        requires room { not_over lines.now turn self.old.ends.items < self.old.slots }
        ensures counts { (x : ℕ) → made_before lines.now turn ≤ x →
            count_from x self.new.ends.items ≡ one_from x last + count_from x self.old.ends.items }
        ensures slots { self.new.slots ≡ self.old.slots }
    {
        lines.is_kept();
        self.make_room();
        let at = place(&self.ends, last);
        put(&mut self.ends, at, last);
    }
}
