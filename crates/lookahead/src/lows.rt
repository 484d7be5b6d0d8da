//! Junctions that no later one undercuts.

ghost use Rattle.std.specs.Prelude.{◌≡◌, ℕ, ◌+◌, ◌-◌, ◌<◌, ◌≤◌, drop, length, MatchOption, take, slice_index_or};
ghost use Rattle.std.specs.VecDeque.{deque_len, deque_capacity};
ghost use Rattle.lookahead.specs.Lows.{no_low, IsAdded};

use std::collections::VecDeque;

/// A junction that no later one undercuts, and how high it stands.
#[derive(Clone, Copy)]
pub struct Low {
    pub at: u64,
    pub height: u128,
}

/// Drops the lows at the end that are not below a height.
pub fn cut(lows: &mut VecDeque<Low>, height: u128)
    ensures front { lows.new.items ≡ take (length lows.new.items) lows.old.items }
    ensures shorter { length lows.new.items ≤ length lows.old.items }
    ensures dropped { (e : ℕ) → length lows.new.items ≤ e → e < length lows.old.items →
        height ≤ (slice_index_or lows.old.items e no_low).height }
    ensures below { 0 < length lows.new.items →
        (slice_index_or lows.new.items (length lows.new.items - 1) no_low).height < height }
    ensures fewer { deque_len lows.new ≤ deque_len lows.old }
    ensures capacity { deque_capacity lows.new ≡ deque_capacity lows.old }
{
    while let Some(last) = lows.back() {
        if last.height < height {
            return;
        }
        lows.pop_back();
    }
}

/// Drops the first low where it stands at or before a junction.
pub fn leave(lows: &mut VecDeque<Low>, at: u64)
    ensures gone { (slice_index_or lows.old.items 0 no_low).at ≤ at → lows.new.items ≡ drop 1 lows.old.items }
    ensures stays { at < (slice_index_or lows.old.items 0 no_low).at → lows.new.items ≡ lows.old.items }
    ensures fewer { deque_len lows.new ≤ deque_len lows.old }
    ensures capacity { deque_capacity lows.new ≡ deque_capacity lows.old }
{
    if let Some(first) = lows.front() {
        if first.at <= at {
            lows.pop_front();
        }
    }
}

/// The first low.
pub fn first(lows: &VecDeque<Low>) -> Option<Low>
    ensures { MatchOption result (length lows.now.items ≡ 0)
        (λ low. (0 < length lows.now.items) × (low ≡ slice_index_or lows.now.items 0 no_low)) }
{
    match lows.front() {
        Some(low) => Some(*low),
        None => None,
    }
}

/// Adds a low behind those that it does not undercut, where there is room for it; none for the junction at the start.
pub fn add(lows: &mut VecDeque<Low>, at: u64, height: u128)
    ensures start { at ≡ 0 → lows.new.items ≡ lows.old.items }
    ensures later { 0 < at → deque_len lows.old < deque_capacity lows.old →
        IsAdded lows.old.items lows.new.items at height }
    ensures more { deque_len lows.new ≤ deque_len lows.old + 1 }
    ensures capacity { deque_len lows.old < deque_capacity lows.old →
        deque_capacity lows.new ≡ deque_capacity lows.old }
{
    if at == 0 {
        return;
    }
    cut(lows, height);
    let _ = lows.push_back(Low { at, height });
}
