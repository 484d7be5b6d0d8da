//! The whole run on one thread, turn by turn.
ghost use Rattle.std.specs.Prelude.{◌≡◌, ◌+◌, ◌<◌, ◌≤◌, ◌^◌, ◌++◌, ℕ, true, false, List, [], map, length, vec_len, vec_capacity};
ghost use Rattle.std.specs.VecDeque.{deque_len, deque_capacity};
ghost use Rattle.session_work.specs.Alone.{AreHands, OwesServing, OwesTurn, OwesWord};
ghost use Rattle.session_work.specs.Lates.{AreLate};
ghost use Rattle.session_lanes.specs.Levels.{IsFar, most_late};
ghost use Rattle.session_work.specs.Motions.{IsHearing, IsHeard, IsFed, IsMotionAt, IsMotionDone};
ghost use Rattle.session_work.specs.Reactors.{IsReactorDone};
ghost use Rattle.session_lanes.specs.Runs.{IsNear};

use crate::close::close;
use crate::lanes::LATE;
use crate::near::{Far, LinkLog, Near};
use crate::settle::add_link;
use io_core::{Gate, Who};
use plan_types::Cause;
use session_work::{
    Control, Found, Hand, HandsTurn, Head, Lanes, Late, LinkMachine, MotionDone, MotionMachine,
    Outside, ReactorDone, ReactorMachine, Row, Runtime, State, WordMsg, flush, hands_turn, hear,
    keep, order_here, put_piece, stay,
};
use std::snapshot::Snapshot;
use std::sync::Wait;
use std::{mem, thread};

// The lanes of a run on one thread, and what its workers began with.
#[derive(Drop)]
pub struct Place<'a, M, A, O> {
    pub lanes: Lanes<'a>,
    pub start: &'a Snapshot<M>,
    pub first: &'a Snapshot<Head<A, O>>,
}

// The motion worker and the reactor on one thread, the planner's next turn, and the controls that are still to be put.
#[derive(Drop)]
pub struct Both<M, A, O> {
    pub motion: MotionDone<M>,
    pub hand: ReactorDone<A, O>,
    pub next: u64,
    pub owed: Vec<Control>,
}

// Reads behind word k the pieces of the file that the batches of the planner's next turn need.
#[inline(always)]
fn feed_here<R: Wait, G, M: MotionMachine, A: ReactorMachine, O: Outside>(
    rt: &Runtime<'_, R, G>,
    k: u64,
    place: &Place<'_, M, A, O>,
    both: &mut Both<M, A, O>,
)
    requires motion { IsHeard M.MotionMachine place.now.lanes both.old.next place.now.start.now.value both.old.motion }
    requires reactor { OwesServing A.ReactorMachine O.Outside place.now.lanes k place.now.first.now.value
        both.old.owed.items both.old.hand }
    ensures motion { IsFed M.MotionMachine place.now.lanes both.new.next place.now.start.now.value both.new.motion }
    ensures next { both.new.next ≡ both.old.next }
    ensures late { both.new.motion.late ≡ both.old.motion.late }
    ensures reactor { OwesServing A.ReactorMachine O.Outside place.now.lanes k place.now.first.now.value
        both.new.owed.items both.new.hand }
{
    if both.motion.seat.hungers(both.next) {
        read_here(rt, k, place, both);
    }
}

// The same, where they need some.
#[inline(never)]
fn read_here<R: Wait, G, M: MotionMachine, A: ReactorMachine, O: Outside>(
    rt: &Runtime<'_, R, G>,
    k: u64,
    place: &Place<'_, M, A, O>,
    both: &mut Both<M, A, O>,
)
    requires motion { IsHeard M.MotionMachine place.now.lanes both.old.next place.now.start.now.value both.old.motion }
    requires reactor { OwesServing A.ReactorMachine O.Outside place.now.lanes k place.now.first.now.value
        both.old.owed.items both.old.hand }
    ensures motion { IsFed M.MotionMachine place.now.lanes both.new.next place.now.start.now.value both.new.motion }
    ensures next { both.new.next ≡ both.old.next }
    ensures late { both.new.motion.late ≡ both.old.motion.late }
    ensures reactor { OwesServing A.ReactorMachine O.Outside place.now.lanes k place.now.first.now.value
        both.new.owed.items both.new.hand }
{
    for _ in rt.threads.forever() {
        if !both.motion.seat.hungers(both.next) {
            return;
        }
        // A machine that was told that nothing comes asks no more.
        if both.hand.head.stopped {
            thread::yield_now();
            continue;
        }
        let piece = both.hand.head.piece(rt.alloc, k, both.hand.served);
        put_piece(
            rt.threads,
            place.lanes.pieces,
            &mut both.hand.piece_pass,
            &mut both.hand.served,
            piece,
        );
        let piece = place
            .lanes
            .pieces
            .take(rt.threads, &mut both.motion.piece_pass);
        both.motion.seat.piece(piece);
    }
}

// Makes the planner's next turn behind word k; its batches and its note wait.
fn plan_turn<R: Wait, G: Gate, M: MotionMachine, A: ReactorMachine, O: Outside>(
    rt: &Runtime<'_, R, G>,
    k: u64,
    place: &Place<'_, M, A, O>,
    both: &mut Both<M, A, O>,
)
    requires limit { both.old.next + 1 < 2 ^ 64 }
    requires motion { IsHearing M.MotionMachine place.now.lanes both.old.next place.now.start.now.value
        both.old.motion }
    requires late { AreLate (length place.now.lanes.batches.now) k both.old.motion.late.items
        × (both.old.next ≡ k + length both.old.motion.late.items) }
    requires room { (deque_len both.old.motion.late < most_late) × (most_late ≤ deque_capacity both.old.motion.late) }
    requires reactor { OwesServing A.ReactorMachine O.Outside place.now.lanes k place.now.first.now.value
        both.old.owed.items both.old.hand }
    ensures motion { IsMotionAt M.MotionMachine place.now.lanes both.new.next place.now.start.now.value
        both.new.motion }
    ensures next { both.new.next ≡ both.old.next + 1 }
    ensures late { AreLate (length place.now.lanes.batches.now) k both.new.motion.late.items
        × (both.new.next ≡ k + length both.new.motion.late.items) }
    ensures room { most_late ≤ deque_capacity both.new.motion.late }
    ensures reactor { OwesServing A.ReactorMachine O.Outside place.now.lanes k place.now.first.now.value
        both.new.owed.items both.new.hand }
{
    let n = both.next;
    rt.gate.pass(Who::Motion, n);
    hear(rt.threads, n, place.start, &place.lanes, &mut both.motion);
    feed_here(rt, k, place, both);
    keep(rt, n, place.start, &place.lanes, &mut both.motion);
    both.next = n + 1;
}

// Hands word k to the planner, where it takes it next for its next turn and may make that, or puts it.
// Whether it was handed.
fn say_here<R: Wait, M: MotionMachine, A: ReactorMachine, O: Outside>(
    rt: &R,
    k: u64,
    may: bool,
    place: &Place<'_, M, A, O>,
    word: WordMsg,
    both: &mut Both<M, A, O>,
) -> bool
    requires limit { k + 1 < 2 ^ 64 }
    requires motion { IsMotionAt M.MotionMachine place.now.lanes both.old.next place.now.start.now.value
        both.old.motion }
    requires reactor { OwesWord A.ReactorMachine O.Outside place.now.lanes k place.now.first.now.value
        both.old.owed.items word both.old.hand }
    ensures heard { result ≡ true →
        (may ≡ true)
        × IsHearing M.MotionMachine place.now.lanes both.new.next place.now.start.now.value both.new.motion }
    ensures at { result ≡ false →
        IsMotionAt M.MotionMachine place.now.lanes both.new.next place.now.start.now.value both.new.motion }
    ensures next { both.new.next ≡ both.old.next }
    ensures late { both.new.motion.late ≡ both.old.motion.late }
    ensures reactor { OwesServing A.ReactorMachine O.Outside place.now.lanes k place.now.first.now.value
        both.new.owed.items both.new.hand }
{
    if may
        && both.motion.seat.heard == k
        && both.motion.seat.is_free(both.next, k)
        && both.motion.seat.needs(both.next)
    {
        place.lanes.words.hand(&mut both.hand.word_pass, &mut both.motion.word_pass, &word);
        both.motion.seat.word(word);
        return true;
    }
    place.lanes.words.put(rt, &mut both.hand.word_pass, word);
    false
}

// Says word k, and makes the planner's next turn, where the word is handed to it for that one.
fn begin_here<R: Wait, G: Gate, M: MotionMachine, A: ReactorMachine, O: Outside>(
    rt: &Runtime<'_, R, G>,
    k: u64,
    place: &Place<'_, M, A, O>,
    word: WordMsg,
    both: &mut Both<M, A, O>,
)
    requires limit { k + 1 < 2 ^ 64 }
    requires motion { IsMotionAt M.MotionMachine place.now.lanes both.old.next place.now.start.now.value
        both.old.motion }
    requires late { AreLate (length place.now.lanes.batches.now) k both.old.motion.late.items
        × (both.old.next ≡ k + length both.old.motion.late.items) }
    requires room { most_late ≤ deque_capacity both.old.motion.late }
    requires reactor { OwesWord A.ReactorMachine O.Outside place.now.lanes k place.now.first.now.value
        both.old.owed.items word both.old.hand }
    ensures motion { IsMotionAt M.MotionMachine place.now.lanes both.new.next place.now.start.now.value
        both.new.motion }
    ensures late { AreLate (length place.now.lanes.batches.now) k both.new.motion.late.items
        × (both.new.next ≡ k + length both.new.motion.late.items) }
    ensures room { most_late ≤ deque_capacity both.new.motion.late }
    ensures reactor { OwesServing A.ReactorMachine O.Outside place.now.lanes k place.now.first.now.value
        both.new.owed.items both.new.hand }
{
    let may = both.next < u64::MAX && both.motion.late.len() < LATE;
    let said = say_here(rt.threads, k, may, place, word, both);
    if !said {
        return;
    }
    plan_turn(rt, k, place, both);
}

// Says word k, and makes the planner's turns, the next one and those behind it, that need no word behind it.
fn plan_here<R: Wait, G: Gate, M: MotionMachine, A: ReactorMachine, O: Outside>(
    rt: &Runtime<'_, R, G>,
    k: u64,
    place: &Place<'_, M, A, O>,
    word: WordMsg,
    both: &mut Both<M, A, O>,
)
    requires limit { k + 1 < 2 ^ 64 }
    requires motion { IsMotionAt M.MotionMachine place.now.lanes both.old.next place.now.start.now.value
        both.old.motion }
    requires late { AreLate (length place.now.lanes.batches.now) k both.old.motion.late.items
        × (both.old.next ≡ k + length both.old.motion.late.items) }
    requires room { most_late ≤ deque_capacity both.old.motion.late }
    requires reactor { OwesWord A.ReactorMachine O.Outside place.now.lanes k place.now.first.now.value
        both.old.owed.items word both.old.hand }
    ensures motion { IsMotionAt M.MotionMachine place.now.lanes both.new.next place.now.start.now.value
        both.new.motion }
    ensures late { AreLate (length place.now.lanes.batches.now) k both.new.motion.late.items
        × (both.new.next ≡ k + length both.new.motion.late.items) }
    ensures room { most_late ≤ deque_capacity both.new.motion.late }
    ensures reactor { OwesTurn A.ReactorMachine O.Outside place.now.lanes k place.now.first.now.value
        both.new.owed.items both.new.hand }
{
    begin_here(rt, k, place, word, both);
    for n in both.next..u64::MAX {
        if both.motion.late.len() >= LATE || !both.motion.seat.is_free(n, k) {
            return;
        }
        plan_turn(rt, k, place, both);
    }
}

// Settles the lanes of all links, the last board first.
fn settle_hands<M: MotionMachine, L: LinkMachine, A: ReactorMachine, O: Outside>(
    motion: &Snapshot<M>,
    head: &Snapshot<Head<A, O>>,
    k: u64,
    lanes: &Lanes<'_>,
    hands: Vec<Hand<L>>,
    near: Near<A, O>,
) -> Near<A, O>
    requires boards { (length lanes.now.controls.now ≡ length lanes.now.batches.now)
        × (length lanes.now.states.now ≡ length lanes.now.batches.now)
        × (vec_len hands ≤ length lanes.now.batches.now) }
    requires hands { AreHands L.LinkMachine k lanes.now hands.items }
    requires near { (ls : List L)
        × IsNear M.MotionMachine L.LinkMachine A.ReactorMachine O.Outside (length lanes.now.batches.now) (vec_len hands)
        lanes.now motion.now.value ls head.now.value near }
    ensures { (ls : List L) →
        IsNear M.MotionMachine L.LinkMachine A.ReactorMachine O.Outside (length lanes.now.batches.now) (vec_len hands)
        lanes.now motion.now.value ls head.now.value near →
        IsNear M.MotionMachine L.LinkMachine A.ReactorMachine O.Outside (length lanes.now.batches.now) 0 lanes.now
        motion.now.value (map (λ h. h.start.value) hands.items ++ ls) head.now.value result }
{
    let mut hands = hands;
    let Some(hand) = hands.pop() else {
        return near;
    };
    let Hand { start, done } = hand;
    let at = hands.len();
    let near = add_link(motion, &start, head, lanes, at, near, done);
    settle_hands(motion, head, k, lanes, hands, near)
}

// The run has ended in turn k, and nothing waits: the lanes of all boards are settled.
fn end_here<M: MotionMachine, L: LinkMachine, A: ReactorMachine, O: Outside>(
    k: u64,
    place: &Place<'_, M, A, O>,
    hands: Vec<Hand<L>>,
    both: Both<M, A, O>,
    cause: Cause,
    logs: Vec<LinkLog>,
) -> Near<A, O>
    requires boards { (length place.now.lanes.controls.now ≡ length place.now.lanes.batches.now)
        × (length place.now.lanes.states.now ≡ length place.now.lanes.batches.now)
        × (vec_len hands ≡ length place.now.lanes.batches.now) }
    requires hands { AreHands L.LinkMachine k place.now.lanes hands.items }
    requires motion { IsMotionDone M.MotionMachine place.now.lanes place.now.start.now.value both.motion }
    requires reactor { IsReactorDone A.ReactorMachine O.Outside place.now.lanes cause place.now.first.now.value
        both.hand }
    requires logs { (logs.items ≡ []) × (vec_len logs ≡ 0) × (length place.now.lanes.batches.now ≤ vec_capacity logs) }
    ensures { IsNear M.MotionMachine L.LinkMachine A.ReactorMachine O.Outside (length place.now.lanes.batches.now) 0
        place.now.lanes place.now.start.now.value (map (λ h. h.start.value) hands.items) place.now.first.now.value
        result }
{
    let Both { motion, hand, .. } = both;
    let lanes = &place.lanes;
    let near = close::<M, L, A, O>(place.start, place.first, lanes, motion, hand, cause, logs);
    settle_hands(place.start, place.first, k, lanes, hands, near)
}

// Gives the lists of a turn back to those that made them.
fn give_back<M: MotionMachine, A: ReactorMachine, O: Outside>(
    made: Vec<Control>,
    row: Row,
    both: &mut Both<M, A, O>,
)
    ensures motion { both.new.motion ≡ both.old.motion }
    ensures hand { both.new.hand ≡ both.old.hand }
    ensures next { both.new.next ≡ both.old.next }
{
    both.hand.head.give_back(made);
    both.motion.seat.give_back(row);
}

/// Runs all machines by turns, on the calling thread, to the reactor's end. Behind each turn of the reactor
/// the planner makes those that its words allow, and so is past the turn that the links make then. What it
/// made waits beside the lanes: through these goes only what is not taken at once.
pub fn alone<R: Wait, G: Gate, M: MotionMachine, L: LinkMachine, A: ReactorMachine, O: Outside>(
    rt: &Runtime<'_, R, G>,
    lanes: &Lanes<'_>,
    hands: Vec<Hand<L>>,
    room: Vec<State>,
    far: Far<M, L, A, O>,
) -> Near<A, O>
    requires boards { (length lanes.now.controls.now ≡ length lanes.now.batches.now)
        × (length lanes.now.states.now ≡ length lanes.now.batches.now)
        × (vec_len hands ≡ length lanes.now.batches.now) }
    requires hands { AreHands L.LinkMachine 0 lanes.now hands.items }
    requires room { (room.items ≡ []) × (length lanes.now.states.now ≤ vec_capacity room) }
    requires far { IsFar M.MotionMachine A.ReactorMachine O.Outside lanes.now far }
    ensures { IsNear M.MotionMachine L.LinkMachine A.ReactorMachine O.Outside (length lanes.now.batches.now) 0 lanes.now
        far.motion.seat.machine (map (λ h. h.start.value) hands.items) far.hand.head result }
{
    let Far {
        motion,
        hand,
        logs,
        home: _,
    } = far;
    let start = Snapshot::of(&motion.seat.machine);
    let first = Snapshot::of(&hand.head);
    let place = Place {
        lanes: *lanes,
        start: &start,
        first: &first,
    };
    let mut both = Both {
        motion,
        hand,
        next: 0,
        owed: Vec::new(rt.alloc),
    };
    let mut hands = hands;
    let mut found = Found {
        states: room,
        note: None,
    };
    // Nothing is asked for: pieces are read where they are needed.
    both.motion.closed = true;
    for k in 0..u64::MAX {
        rt.gate.pass(Who::Reactor, k);
        let ordered = order_here(rt, k, &found, &first, lanes, &mut both.hand);
        let (made, word) = match ordered {
            Ok(ordered) => ordered,
            Err(cause) => {
                flush(rt, k, both.next, &start, lanes, &mut both.motion);
                return end_here(k, &place, hands, both, cause, logs);
            }
        };
        both.owed = made;
        plan_here(rt, k, &place, word, &mut both);
        // The planner waits for what no one says.
        let Some(late) = both.motion.late.pop_front() else {
            break;
        };
        let Late { row, note } = late;
        let Found { states, .. } = found;
        let controls = mem::replace(&mut both.owed, Vec::new(rt.alloc));
        let mut turn = HandsTurn {
            number: k,
            controls,
            batches: row,
            states,
        };
        hands_turn(
            rt,
            lanes,
            &mut turn,
            &mut both.hand.control_passes,
            &mut both.motion.batch_passes,
            &mut both.hand.state_passes,
            &mut hands,
        );
        let HandsTurn {
            controls,
            batches,
            states,
            ..
        } = turn;
        lanes.notes.hand(&mut both.motion.note_pass, &mut both.hand.note_pass, &note);
        found = Found {
            states,
            note: Some(note),
        };
        give_back(controls, batches, &mut both);
    }
    stay(rt.threads)
}
