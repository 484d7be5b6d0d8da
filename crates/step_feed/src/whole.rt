//! The pacing of a whole section.

ghost use Rattle.std.specs.Prelude.{◌≡◌, ◌≢◌, ℕ, ◌+◌, ◌*◌, ◌^◌, ◌<◌, ◌≤◌, [], All, IfOk, length, slice_index_or, true};
ghost use Rattle.plan_types.specs.Clock.{tick_limit, turn_ns};
ghost use Rattle.plan_types.specs.Lines.{last_from};
ghost use Rattle.step_feed.specs.Rings.{IsUp};
ghost use Rattle.step_feed.specs.Pacing.{ArePaced, batch_at, lead, releases, spill_of, turn_limit};

use crate::OutOfMemory;
use crate::stream::{FeedStream, LEAD};
use clock_line::Lines;
use msg_code::Unit;
use std::alloc::Global;

/// As many units as no memory holds: a section with more is refused as if it had no room.
const MOST_UNITS: usize = 1 << 58;

/// The units of a board in a section, each with the turn in which it is released.
#[derive(Drop)]
pub struct Batches {
    units: Vec<Unit>,
    turns: Vec<u64>,
    ghost same: { length units.items ≡ length turns.items },
    ghost up: { IsUp turns.items },
}

/// How many of the turns are before a turn.
fn count_before(turns: &[u64], turn: u64) -> usize
    requires { IsUp turns.now }
    ensures within { result ≤ length turns.now }
    ensures before { (j : ℕ) → j < result → slice_index_or turns.now j 0 < turn }
    ensures after { (j : ℕ) → result ≤ j → j < length turns.now → turn ≤ slice_index_or turns.now j 0 }
{
    let mut low = 0;
    let mut high = turns.len();
    while low < high {
        let mid = low + (high - low) / 2;
        if turns[mid] < turn {
            low = mid + 1;
        } else {
            high = mid;
        }
    }
    low
}

/// Where the turns from a place on are no longer a turn.
fn end_of(turns: &[u64], from: usize, turn: u64) -> usize
    requires { from ≤ length turns.now }
    ensures from { from ≤ result }
    ensures within { result ≤ length turns.now }
    ensures same { (j : ℕ) → from ≤ j → j < result → slice_index_or turns.now j 0 ≡ turn }
    ensures other { result < length turns.now → slice_index_or turns.now result 0 ≢ turn }
{
    for i in from..turns.len() {
        if turns[i] != turn {
            return i;
        }
    }
    turns.len()
}

impl Batches {
    /// The units that are released in a turn.
    pub fn at(&self, turn: u64) -> &[Unit]
        ensures { result.now ≡ batch_at turn (releases self.now.units.items self.now.turns.items) }
    {
        let from = count_before(&self.turns, turn);
        let to = end_of(&self.turns, from, turn);
        &self.units[from..to]
    }

    /// Whether all units are released before a turn.
    pub fn is_over(&self, turn: u64) -> bool
        ensures { result ≡ true → (k : ℕ) → turn ≤ k →
            batch_at k (releases self.now.units.items self.now.turns.items) ≡ [] }
    {
        let before = count_before(&self.turns, turn);
        if before < self.turns.len() {
            return false;
        }
        true
    }
}

/// The pacing of all units of a board in a section, from the turn `first` on: each unit in the first turn in which
/// there is room for it.
///
/// # Errors
///
/// [`OutOfMemory`].
pub fn feed(
    alloc: Global,
    units: &[Unit],
    lines: &Lines,
    slots: u32,
    first: u64,
) -> Result<Batches, OutOfMemory>
    requires slots { 1 ≤ slots }
    requires first { first < turn_limit }
    requires lines_soon { last_from lines.now.first.at lines.now.held < 2 ^ 62 * turn_ns }
    requires small { All (λ u. u.last < tick_limit) units.now }
    requires due_small { All (λ u. u.due < turn_limit) units.now }
    ensures units { IfOk result (λ b. b.units.items ≡ units.now) }
    ensures paced { IfOk result (λ b. ArePaced lines.now slots first [] (releases units.now b.turns.items)) }
{
    if units.len() > MOST_UNITS {
        return Err(OutOfMemory);
    }
    let mut stream = FeedStream::new(alloc, slots, first);
    let mut turns = Vec::with_capacity(alloc, units.len())?;
    let mut used = 0;
    for unit in units {
        used = stream.place_unit(unit, lines, used)?;
        turns.push(stream.next_turn())?;
    }
    Ok(Batches {
        units: Vec::from_slice(alloc, units)?,
        turns,
    })
}

/// By how many turns a unit that is released in a turn is behind the first one that it may have.
pub fn spill(unit: &Unit, turn: u64) -> u64
    requires after { unit.now.due ≤ turn + lead }
    requires small { turn + lead < 2 ^ 64 }
    ensures { result ≡ spill_of turn unit.now.due }
{
    turn + LEAD - unit.due
}
