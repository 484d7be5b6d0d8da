//! The rule of a lane's channel: what each pass knows, and the steps that keep it. All of it is for the proof alone.
ghost use Rattle.std.specs.Prelude.{◌≡◌, ◌+◌, ◌≤◌, ℕ, Option, None, true, [], ◌++◌, length};
ghost use Rattle.lane_queue.specs.Order.{RunsFrom};
ghost use Rattle.lane_queue.specs.Rule.{side, log, nothing, grown, grown_by};

use crossbeam_channel::protocol::{Join, Lesson, Outcome, Protocol, Split};
use plan_types::Numbered;
use std::collections::LinkedList;
use std::marker::{Brand, PhantomData};

// What a pass knows of a side: whether it may step there, the number of the lane's first message, and what has passed.
pub struct Side<T> {
    pub may: bool,
    pub first: u64,
    pub list: LinkedList<T>,
}

// What a pass knows: how many messages the lane holds at most, what was put, and what was taken.
pub struct Log<T> {
    pub room: u64,
    pub put: Side<T>,
    pub taken: Side<T>,
}

pub struct InOrder;

impl<T: Numbered> Protocol<T, Log<T>> for InOrder {
    ghost use Rattle.std.specs.Prelude.{true, []};
    ghost use Rattle.lane_queue.specs.Rule.{side, log, IsLaned};

    ghost holds = { IsLaned T.number };

    ghost first = { log 0 (side true 0 []) (side true 0 []) };
}

// How much a lane holds, and the number of its first message.
pub trait Start {
    ghost room: { ℕ };

    ghost first: { ℕ };
}

impl Start for Brand {
    ghost room = { 0 };

    ghost first = { 0 };
}

// Cuts the pass of an unused lane into the one that puts and the one that takes.
pub struct Cut<K> {
    start: PhantomData<K>,
}

impl<T, K: Start> Split<Log<T>> for Cut<K> {
    ghost left = { λ v. log K.room (side true K.first []) nothing };

    ghost right = { λ v. log 0 nothing (side true K.first []) };
}

// Cuts the side that takes off.
pub struct Apart;

impl<T> Split<Log<T>> for Apart {
    ghost left = { λ v. log v.room v.put nothing };

    ghost right = { λ v. log 0 nothing v.taken };
}

// A message that passes both sides at once.
pub trait Handed<T> {
    ghost item: { Option T };
}

impl<T> Handed<T> for Brand {
    ghost item = { None };
}

// Cuts the side that takes off, where a message has passed both sides.
pub struct Behind<K> {
    handed: PhantomData<K>,
}

impl<T, K: Handed<T>> Split<Log<T>> for Behind<K> {
    ghost left = { λ v. log v.room (grown_by v.put K.item) nothing };

    ghost right = { λ v. log 0 nothing (grown_by v.taken K.item) };
}

// Puts the two passes together again.
pub struct Whole;

impl<T> Join<Log<T>> for Whole {
    ghost both = { λ v w. log v.room v.put w.taken };

    ghost spent = { log 0 nothing nothing };
}

pub struct Puts;

impl<T: Numbered> Outcome<T, Log<T>> for Puts {
    ghost then = { λ v x w. w ≡ log v.room (grown v.put x) v.taken };
}

impl<T: Numbered> Lesson<T, Log<T>> for Puts {
    ghost use Rattle.std.specs.Prelude.{⊤};

    ghost fact = { λ v items. ⊤ };
}

pub struct Takes;

impl<T: Numbered> Outcome<T, Log<T>> for Takes {
    ghost then = { λ v x w.
        (w ≡ log v.room v.put (grown v.taken x)) × (T.number x ≡ v.taken.first + length v.taken.list) };
}

impl<T: Numbered> Lesson<T, Log<T>> for Takes {
    ghost use Rattle.std.specs.Prelude.{⊤};

    ghost fact = { λ v items. ⊤ };
}

// What a pass that knows both sides learns: the lane holds what was put and not taken.
pub struct Total;

impl<T: Numbered> Lesson<T, Log<T>> for Total {
    ghost fact = { λ v items. (v.put.list ≡ v.taken.list ++ items) × (length items ≤ v.room)
        × (v.taken.first ≡ v.put.first) × RunsFrom T.number v.put.first v.put.list
        × RunsFrom T.number v.put.first v.taken.list };
}
