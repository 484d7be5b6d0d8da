//! The pacing of units that come one by one.

ghost use Rattle.std.specs.Prelude.{◌≡◌, ◌↔◌, ◌⊎◌, ℕ, ◌+◌, ◌*◌, ◌^◌, ◌==◌, ◌<◌, ◌≤◌, List, [], ◌∷◌, ◌++◌, All, IsTrue, IfOk, IfSome, IfNone, IsSome, OnOk, OnErr, length, slice_index_or, if◌then◌else◌};
ghost use Rattle.std.specs.Vec.{vec_capacity, vec_len};
ghost use Rattle.plan_types.specs.Clock.{tick_limit, turn_ns};
ghost use Rattle.plan_types.specs.Lines.{Clocks, last_from};
ghost use Rattle.step_feed.specs.declared.ring.Ring.{Ring};
ghost use Rattle.step_feed.specs.Units.{StepUnit, unit_bytes};
ghost use Rattle.step_feed.specs.Pacing.{HasRoom, Release, at_turn, lead, turn_bytes, turn_limit};
ghost use Rattle.step_feed.specs.Rings.{count_from, made_before, not_over, one_from};
ghost use Rattle.step_feed.specs.Fed.{AreGrown, IsFitting, IsStuck, releases_behind, last_release};

use crate::OutOfMemory;
use crate::bytes::unit_bytes;
use crate::ring::Ring;
use clock_line::Lines;
use msg_code::Unit;
use std::alloc::Global;
use std::collections::VecDeque;

/// By how many turns a unit may be released before it is due.
pub const LEAD: u64 = 250;

/// The units that a turn may have at most: each has at least five bytes.
const MOST_UNITS: usize = 42;

/// The bytes that the units of a turn may have.
pub const TURN_BYTES: u64 = 210;

/// Adds the last tick of a stepper's unit to its ring.
fn add_to(rings: &mut Vec<Ring>, stepper: usize, lines: &Lines, last: u64, turn: u64)
    requires lines_soon { last_from lines.now.first.at lines.now.held < 2 ^ 62 * turn_ns }
    requires known { stepper < length rings.old.items }
    requires small { last < tick_limit }
    requires room { (d : Ring) →
        not_over lines.now turn (slice_index_or rings.old.items stepper d).ends.items
        < (slice_index_or rings.old.items stepper d).slots }
    ensures counts { (s x : ℕ) (d : Ring) → s < length rings.old.items → made_before lines.now turn ≤ x →
        count_from x (slice_index_or rings.new.items s d).ends.items
        ≡ (if stepper == s then one_from x last else 0) + count_from x (slice_index_or rings.old.items s d).ends.items }
    ensures len { length rings.new.items ≡ length rings.old.items }
    ensures slots { (n : ℕ) → All (λ r. r.slots ≡ n) rings.old.items → All (λ r. r.slots ≡ n) rings.new.items }
{
    rings[stepper].add(lines, last, turn);
}

/// Adds empty rings up to that of a stepper.
fn grow(
    alloc: Global,
    rings: &mut Vec<Ring>,
    slots: usize,
    stepper: usize,
) -> Result<(), OutOfMemory>
    requires some { 1 ≤ slots }
    requires slots { All (λ r. r.slots ≡ slots) rings.old.items }
    ensures grown { AreGrown slots rings.old.items rings.new.items }
    ensures known { OnOk result (stepper < length rings.new.items) }
{
    while rings.len() <= stepper {
        let ring = Ring::new(alloc, slots)?;
        rings.push(ring)?;
    }
    Ok(())
}

/// Adds a unit to those of a turn, where there is room for it.
fn add_unit(units: &mut Vec<Unit>, unit: Unit)
    requires { vec_len units.old < vec_capacity units.old }
    ensures items { units.new.items ≡ units.old.items ++ unit ∷ [] }
    ensures capacity { vec_capacity units.old ≤ vec_capacity units.new }
{
    let _ = units.push(unit);
}

/// The first turn, from two others on, that is not long before one in which a unit is due.
fn earliest(next: u64, due: u64, free: u64) -> u64
    requires { due < turn_limit }
    ensures after { next ≤ result }
    ensures due { due ≤ result + lead }
    ensures free { free ≤ result }
    ensures one { (result ≡ next) ⊎ ((result + lead ≡ due) ⊎ (result ≡ free)) }
{
    let later = if free > next { free } else { next };
    if due > LEAD && due - LEAD > later {
        due - LEAD
    } else {
        later
    }
}

/// The first turn, from one on, that has room for some bytes, and how many of its bytes are used: in the turn `next` so
/// many are, and in a later one none.
fn fitting(next: u64, turn: u64, used: u64, bytes: u64) -> (u64, u64)
    requires order { next ≤ turn }
    requires bytes { bytes ≤ 39 }
    requires used { used ≤ turn_bytes }
    requires next_small { next + 1 < 2 ^ 64 }
    ensures { IsFitting next turn used bytes result.0 result.1 }
{
    if turn > next {
        (turn, 0)
    } else if used + bytes > TURN_BYTES {
        (turn + 1, 0)
    } else {
        (turn, used)
    }
}

/// The units of one board in a section, of which some wait for their turn.
///
/// A unit is released in the first turn in which there is room for it: at most 250 turns before it is due, not before
/// the unit in front of it, while the units of the turn have at most 210 bytes, and while fewer units of its stepper
/// than the queue has slots are released and not over.
#[derive(Drop)]
pub struct FeedStream {
    alloc: Global,
    slots: usize,
    first: u64,
    next: u64,
    rings: Vec<Ring>,
    waiting: VecDeque<Unit>,
    ghost some: { 1 ≤ slots },
    ghost rings_slots: { All (λ r. r.slots ≡ slots) rings.items },
    ghost known: { All (λ u. u.stepper < length rings.items) waiting.items },
    ghost small: { All (λ u. u.last < tick_limit) waiting.items },
    ghost due_small: { All (λ u. u.due < turn_limit) waiting.items },
}

impl FeedStream {
    ghost use Rattle.std.specs.Prelude.{◌≡◌, ◌↔◌, ◌⊎◌, ℕ, ◌+◌, ◌*◌, ◌^◌, ◌==◌, ◌<◌, ◌≤◌, List, [], ◌∷◌, ◌++◌, All, IsTrue, IfOk, IfSome, IfNone, IsSome, OnOk, OnErr, length, slice_index_or, if◌then◌else◌};
    ghost use Rattle.plan_types.specs.Clock.{tick_limit, turn_ns};
    ghost use Rattle.plan_types.specs.Lines.{Clocks, last_from};
    ghost use Rattle.step_feed.specs.declared.ring.Ring.{Ring};
    ghost use Rattle.step_feed.specs.Units.{StepUnit, unit_bytes};
    ghost use Rattle.step_feed.specs.Pacing.{HasRoom, Release, at_turn, lead, turn_bytes, turn_limit};
    ghost use Rattle.step_feed.specs.Rings.{count_from, made_before, not_over, one_from};
    ghost use Rattle.step_feed.specs.Fed.{AreGrown, IsFitting, IsStuck, releases_behind, last_release};
    ghost use Rattle.step_feed.specs.Streams.{IsFedBy, IsFedOf, stream_start, next_turn, slots_of};

    /// A stream for a section of a board with so many slots for each stepper, whose first turn is `first`.
    pub fn new(alloc: Global, slots: u32, first: u64) -> FeedStream
        requires { 1 ≤ slots }
        ensures fed { (clocks : Clocks) → IsFedOf result clocks [] [] }
        ensures next { next_turn result ≡ first }
        ensures first { stream_start result ≡ first }
        ensures slots { slots_of result ≡ slots }
        ensures none_waits { result.waiting.items ≡ [] }
    {
        FeedStream {
            alloc,
            slots: slots as usize,
            first,
            next: first,
            rings: Vec::new(alloc),
            waiting: VecDeque::new(alloc),
        }
    }

    /// Makes rings for a stepper and those before it.
    fn make_rings(&mut self, stepper: usize) -> Result<(), OutOfMemory>
        ensures fed { (clocks : Clocks) → (pushed : List StepUnit) → (released : List Release) → (used : ℕ) →
            IsFedBy self.old clocks used pushed released → IsFedBy self.new clocks used pushed released }
        ensures known { OnOk result (stepper < length self.new.rings.items) }
        ensures waiting { self.new.waiting.items ≡ self.old.waiting.items }
        ensures next { next_turn self.new ≡ next_turn self.old }
        ensures first { stream_start self.new ≡ stream_start self.old }
        ensures slots { slots_of self.new ≡ slots_of self.old }
    {
        grow(self.alloc, &mut self.rings, self.slots, stepper)
    }

    /// Adds a unit behind the others.
    pub fn push(&mut self, unit: Unit) -> Result<(), OutOfMemory>
        requires small { unit.last < tick_limit }
        requires due_small { unit.due < turn_limit }
        requires in_time { (next_turn self.old ≤ stream_start self.old) ⊎ (next_turn self.old + lead ≤ unit.due) }
        ensures pushed { OnOk result ((clocks : Clocks) → (pushed : List StepUnit) → (released : List Release) →
            IsFedOf self.old clocks pushed released → IsFedOf self.new clocks (pushed ++ unit ∷ []) released) }
        ensures unchanged { OnErr result ((clocks : Clocks) → (pushed : List StepUnit) → (released : List Release) →
            IsFedOf self.old clocks pushed released → IsFedOf self.new clocks pushed released) }
        ensures next { next_turn self.new ≡ next_turn self.old }
        ensures first { stream_start self.new ≡ stream_start self.old }
        ensures slots { slots_of self.new ≡ slots_of self.old }
    {
        self.make_rings(usize::from(unit.stepper))?;
        self.waiting.push_back(unit)?;
        Ok(())
    }

    /// Whether a unit that is due in a turn comes in time: the first turn wasn't given yet, or the unit is
    /// due 250 turns after the next one or later.
    pub fn takes(&self, due: u64) -> bool
        ensures { IsTrue result ↔ (next_turn self.now ≤ stream_start self.now) ⊎ (next_turn self.now + lead ≤ due) }
    {
        self.next <= self.first || due.saturating_sub(self.next) >= LEAD
    }

    /// Whether no unit waits.
    pub fn is_empty(&self) -> bool
        ensures { IsTrue result → self.now.waiting.items ≡ [] }
    {
        self.waiting.is_empty()
    }

    /// Whether there is room in the next turn for the unit that waits first.
    fn has_room(&self, unit: &Unit, lines: &Lines, used: u64) -> bool
        requires lines_soon { last_from lines.now.first.at lines.now.held < 2 ^ 62 * turn_ns }
        requires used { used ≤ turn_bytes }
        requires known { unit.now.stepper < length self.now.rings.items }
        ensures room { (pushed : List StepUnit) → (released : List Release) →
            IsFedBy self.now lines.now used pushed released →
            (IsTrue result ↔ HasRoom lines.now self.now.slots (releases_behind [] released) unit.now
            (next_turn self.now)) }
        ensures bytes { IsTrue result → used + unit_bytes unit.now ≤ turn_bytes }
        ensures slot { IsTrue result → (d : Ring) →
            not_over lines.now (next_turn self.now) (slice_index_or self.now.rings.items unit.now.stepper d).ends.items
            < (slice_index_or self.now.rings.items unit.now.stepper d).slots }
    {
        if unit.due > self.next.saturating_add(LEAD) {
            return false;
        }
        if used + unit_bytes(unit) > TURN_BYTES {
            return false;
        }
        lines.is_kept();
        self.rings[usize::from(unit.stepper)].free_from(lines) <= self.next
    }

    /// Releases the unit that waits first, where there is room for it in the next turn.
    fn release(&mut self, lines: &Lines, used: u64) -> Option<Unit>
        requires lines_soon { last_from lines.now.first.at lines.now.held < 2 ^ 62 * turn_ns }
        requires used { used ≤ turn_bytes }
        ensures fed { IfSome result (λ u. (pushed : List StepUnit) → (released : List Release) →
            IsFedBy self.old lines.now used pushed released →
            IsFedBy self.new lines.now (used + unit_bytes u) pushed
            (released ++ record { unit = u; turn = next_turn self.old } ∷ [])) }
        ensures stuck { IfNone result ((pushed : List StepUnit) → (released : List Release) →
            IsFedBy self.old lines.now used pushed released →
            IsStuck lines.now self.old.slots (next_turn self.old) (releases_behind [] released)
            self.old.waiting.items) }
        ensures unchanged { IfNone result (self.new ≡ self.old) }
        ensures bytes { IfSome result (λ u. used + unit_bytes u ≤ turn_bytes) }
        ensures fewer { IsSome result → length self.new.waiting.items + 1 ≡ length self.old.waiting.items }
        ensures next { next_turn self.new ≡ next_turn self.old }
        ensures first { stream_start self.new ≡ stream_start self.old }
        ensures slots { slots_of self.new ≡ slots_of self.old }
    {
        if self.waiting.is_empty() {
            return None;
        }
        let unit = self.waiting[0];
        if !self.has_room(&unit, lines, used) {
            return None;
        }
        add_to(
            &mut self.rings,
            usize::from(unit.stepper),
            lines,
            unit.last,
            self.next,
        );
        self.waiting.pop_front();
        Some(unit)
    }

    /// The turn whose units are given next.
    pub fn next_turn(&self) -> u64
        ensures { result ≡ next_turn self.now }
    {
        self.next
    }

    /// The units of the next turn, by the lines so far. Lines may have been added since the turn before, which hold
    /// from times after the beginning of this one.
    pub fn take(&mut self, lines: &Lines, turn: u64) -> Result<Vec<Unit>, OutOfMemory>
        requires lines_soon { last_from lines.now.first.at lines.now.held < 2 ^ 62 * turn_ns }
        requires turn { turn ≡ next_turn self.old }
        requires turn_small { turn < turn_limit }
        ensures taken { IfOk result (λ units. (pushed : List StepUnit) → (released : List Release) →
            IsFedOf self.old lines.now pushed released →
            IsFedOf self.new lines.now pushed (released ++ at_turn turn units.items)) }
        ensures next { OnOk result (next_turn self.new ≡ turn + 1) }
        ensures first { stream_start self.new ≡ stream_start self.old }
        ensures slots { slots_of self.new ≡ slots_of self.old }
        ensures unchanged { OnErr result (self.new ≡ self.old) }
    {
        if self.is_empty() {
            self.next += 1;
            return Ok(Vec::new(self.alloc));
        }
        let mut units = Vec::with_capacity(self.alloc, MOST_UNITS)?;
        let mut used = 0;
        while let Some(unit) = self.release(lines, used) {
            used += unit_bytes(&unit);
            add_unit(&mut units, unit);
        }
        self.next += 1;
        Ok(units)
    }

    /// Releases a unit behind all others, of which none waits, in its first turn. The result is how many bytes of that
    /// turn are used.
    pub(crate) fn place_unit(
        &mut self,
        unit: &Unit,
        lines: &Lines,
        used: u64,
    ) -> Result<u64, OutOfMemory>
        requires lines_soon { last_from lines.now.first.at lines.now.held < 2 ^ 62 * turn_ns }
        requires small { unit.now.last < tick_limit }
        requires due_small { unit.now.due < turn_limit }
        requires used { used ≤ turn_bytes }
        requires none { self.old.waiting.items ≡ [] }
        requires next_small { next_turn self.old + 1 < 2 ^ 64 }
        ensures placed { IfOk result (λ bytes. (pushed : List StepUnit) → (released : List Release) →
            next_turn self.old ≤ last_release (stream_start self.old) released →
            IsFedBy self.old lines.now used pushed released →
            IsFedBy self.new lines.now bytes (pushed ++ unit.now ∷ [])
            (released ++ record { unit = unit.now; turn = next_turn self.new } ∷ [])) }
        ensures bytes { IfOk result (λ bytes. bytes ≤ turn_bytes) }
        ensures none_waits { OnOk result (self.new.waiting.items ≡ []) }
        ensures next { OnOk result ((next_turn self.new ≤ next_turn self.old + 1) ⊎ (next_turn self.new < turn_limit)) }
        ensures first { stream_start self.new ≡ stream_start self.old }
        ensures slots { slots_of self.new ≡ slots_of self.old }
    {
        lines.is_kept();
        self.make_rings(usize::from(unit.stepper))?;
        let bytes = unit_bytes(unit);
        let free = self.rings[usize::from(unit.stepper)].free_from(lines);
        let turn = earliest(self.next, unit.due, free);
        let (turn, used) = fitting(self.next, turn, used, bytes);
        add_to(
            &mut self.rings,
            usize::from(unit.stepper),
            lines,
            unit.last,
            turn,
        );
        self.next = turn;
        Ok(used + bytes)
    }
}
