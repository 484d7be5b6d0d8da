//! Lanes board by board.
ghost use Rattle.std.specs.Prelude.{false, ◌≡◌, ◌-◌, ◌+◌, ◌++◌, ◌≤◌, ◌<◌, ℕ, length, get_or, remove, vec_len, vec_capacity, [], IfOk};
ghost use Rattle.lane_queue.specs.Ends.{IsSendOf, next_put};
ghost use Rattle.session_work.specs.Leads.{each_turn, RowsPut};
ghost use Rattle.session_work.specs.Rows.{AreOf, CanPut, CanTake, PutMore, RowPut, RowTaken, copies};

use crate::messages::Bare;
use crate::runtime::Runtime;
use lane_queue::{Lane, SendPass, TakePass};
use plan_types::Numbered;
use std::sync::Wait;

/// Takes the first message of a list. Where there is one alone, no other moves up.
#[inline(always)]
#[tactic(auto, using(crate::proofs::Each::one_left))]
pub fn take_first<T>(msgs: &mut Vec<T>) -> T
    requires { 0 < vec_len msgs.old }
    ensures value { result ≡ get_or msgs.old.items 0 result }
    ensures items { msgs.new.items ≡ remove msgs.old.items 0 }
    ensures len { vec_len msgs.new + 1 ≡ vec_len msgs.old }
{
    if msgs.len() == 1 {
        return msgs.swap_remove(0);
    }
    msgs.remove(0)
}

/// Empties a list, whose room stays. Where there is one message alone, no loop runs over them.
#[inline(always)]
pub fn empty<T: Drop>(msgs: &mut Vec<T>)
    ensures len { vec_len msgs.new ≡ 0 }
    ensures room { vec_capacity msgs.new ≡ vec_capacity msgs.old }
{
    if msgs.len() == 1 {
        msgs.pop();
    } else {
        msgs.clear();
    }
}

/// Puts a message of turn k on each lane.
pub fn put_each<R: Wait, T: Numbered>(
    rt: &R,
    k: u64,
    lanes: &[Lane<T>],
    passes: &mut Vec<SendPass<T>>,
    msgs: Vec<T>,
)
    requires boards { (vec_len passes.old ≡ length lanes.now) × (vec_len msgs ≡ length lanes.now) }
    requires passes { CanPut k lanes.now passes.old.items }
    requires numbers { AreOf T.number k msgs.items }
    ensures { RowPut lanes.now passes.old.items passes.new.items msgs.items }
{
    let mut msgs = msgs;
    for i in 0..lanes.len() {
        let msg = take_first(&mut msgs);
        lanes[i].put(rt, &mut passes[i], msg);
    }
}

/// Puts a bare message of turn k on each lane.
pub fn put_bare<R: Wait, G, T: Bare>(
    rt: &Runtime<'_, R, G>,
    k: u64,
    flag: bool,
    lanes: &[Lane<T>],
    passes: &mut Vec<SendPass<T>>,
)
    requires boards { vec_len passes.old ≡ length lanes.now }
    requires passes { CanPut k lanes.now passes.old.items }
    ensures { RowPut lanes.now passes.old.items passes.new.items (copies (length lanes.now) (T.bare k flag)) }
{
    for i in 0..lanes.len() {
        lanes[i].put(rt.threads, &mut passes[i], T::bare(rt.alloc, k, flag));
    }
}

/// Puts bare messages of these turns.
pub fn put_ahead<R: Wait, G, T: Bare>(
    rt: &Runtime<'_, R, G>,
    from: u64,
    to: u64,
    lane: &Lane<T>,
    pass: &mut SendPass<T>,
)
    requires order { from ≤ to }
    requires pass { IsSendOf lane.now pass.old × (next_put pass.old ≡ from) }
    ensures { PutMore (each_turn (λ i. T.bare i false) from (to - from)) lane.now pass.old pass.new }
{
    for i in from..to {
        lane.put(rt.threads, pass, T::bare(rt.alloc, i, false));
    }
}

/// Puts bare messages of these turns on each lane, one lane behind the other.
pub fn put_each_ahead<R: Wait, G, T: Bare>(
    rt: &Runtime<'_, R, G>,
    from: u64,
    to: u64,
    lanes: &[Lane<T>],
    passes: &mut Vec<SendPass<T>>,
)
    requires order { from ≤ to }
    requires boards { vec_len passes.old ≡ length lanes.now }
    requires passes { CanPut from lanes.now passes.old.items }
    ensures { RowsPut lanes.now passes.old.items passes.new.items (each_turn (λ i. T.bare i false) from (to - from)) }
{
    for j in 0..lanes.len() {
        put_ahead(rt, from, to, &lanes[j], &mut passes[j]);
    }
}

/// Takes the message of turn k from each lane, into a list that has room for them.
pub fn take_each<R: Wait, T: Numbered>(
    rt: &R,
    k: u64,
    lanes: &[Lane<T>],
    passes: &mut Vec<TakePass<T>>,
    room: Vec<T>,
) -> Vec<T>
    requires boards { vec_len passes.old ≡ length lanes.now }
    requires room { (vec_len room ≡ 0) × (length lanes.now ≤ vec_capacity room) }
    requires passes { CanTake k lanes.now passes.old.items }
    ensures row { RowTaken lanes.now passes.old.items passes.new.items result.items }
    ensures numbers { AreOf T.number k result.items }
    ensures count { vec_len result ≡ length lanes.now }
{
    let mut msgs = room;
    for i in 0..lanes.len() {
        let msg = lanes[i].take(rt, &mut passes[i]);
        if msgs.push(msg).is_err() {
            return msgs;
        }
    }
    msgs
}
