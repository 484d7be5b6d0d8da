//! The thread of the motion machine.
ghost use Rattle.std.specs.Prelude.{◌≡◌, ◌+◌, ◌<◌, ◌≤◌, ◌^◌, ◌++◌, ◌∷◌, [], true, false, length, vec_len};
ghost use Rattle.std.specs.VecDeque.{deque_len, deque_capacity};
ghost use Rattle.lane_queue.specs.Ends.{IsSendOf, next_put};
ghost use Rattle.session_work.specs.Lates.{AreLate, IsLate, batches_of};
ghost use Rattle.session_work.specs.Rows.{AreOf, CanPut, RowPut};
ghost use Rattle.session_work.specs.Motions.{IsMotionAt, IsHearing, IsHeard, IsFed, IsMotionDone};

use crate::ends::Lanes;
use crate::late::{Late, Row};
use crate::machines::MotionMachine;
use crate::messages::{Ask, Batch, Note, Piece, WordMsg};
use crate::rows::{put_bare, put_each};
use crate::runtime::{Runtime, stay};
use crate::seat::Seat;
use io_core::{Gate, Who};
use lane_queue::{Lane, SendPass, TakePass};
use std::collections::VecDeque;
use std::snapshot::Snapshot;
use std::sync::Wait;

/// The motion worker's machine and its own passes.
#[derive(Drop)]
pub struct MotionDone<M> {
    pub seat: Seat<M>,
    pub asks: u64,
    /// No piece is asked for: none follows what was taken, or the reactor runs on the same thread.
    pub closed: bool,
    /// It said that no piece is asked for before this turn of the reactor.
    pub sated: u64,
    pub word_pass: TakePass<WordMsg>,
    pub note_pass: SendPass<Note>,
    pub ask_pass: SendPass<Ask>,
    pub piece_pass: TakePass<Piece>,
    pub batch_passes: Vec<SendPass<Batch>>,
    /// What waits to be put, where the links and the reactor run on the same thread.
    pub late: VecDeque<Late>,
}

// Puts the next ask.
fn put_ask<R: Wait>(
    rt: &R,
    asks: &Lane<Ask>,
    pass: &mut SendPass<Ask>,
    count: &mut u64,
    more: bool,
    until: u64,
)
    requires { IsSendOf asks.now pass.old × (next_put pass.old ≡ count.old) }
    ensures { IsSendOf asks.now pass.new × (next_put pass.new ≡ count.new) }
{
    // No count passes the last number.
    if *count == u64::MAX {
        stay(rt);
    }
    let ask = Ask {
        number: *count,
        more,
        until,
    };
    asks.put(rt, pass, ask);
    *count += 1;
}

// Before the next word is taken: says, where that is needed, that no more of the file is before the reactor's
// turn `until`.
fn no_more<R: Wait>(
    rt: &R,
    needed: bool,
    until: u64,
    asks: &Lane<Ask>,
    pass: &mut SendPass<Ask>,
    count: &mut u64,
    sated: &mut u64,
)
    requires { IsSendOf asks.now pass.old × (next_put pass.old ≡ count.old) }
    ensures { IsSendOf asks.now pass.new × (next_put pass.new ≡ count.new) }
{
    if needed {
        put_ask(rt, asks, pass, count, false, until);
        *sated = until;
    }
}

// Takes the words that must be taken before the batches of turn k, all or those that are left.
#[inline(always)]
pub fn hear<R: Wait, M: MotionMachine>(
    rt: &R,
    k: u64,
    start: &Snapshot<M>,
    lanes: &Lanes<'_>,
    motion: &mut MotionDone<M>,
)
    requires limit { k + 1 < 2 ^ 64 }
    requires at { IsHearing M.MotionMachine lanes.now k start.now.value motion.old }
    ensures heard { IsHeard M.MotionMachine lanes.now k start.now.value motion.new }
    ensures late { motion.new.late ≡ motion.old.late }
{
    if motion.seat.needs(k) {
        hear_more(rt, k, start, lanes, motion);
    }
}

// The same, looked for one by one. Before each it says that no piece is asked for behind the word before.
#[inline(never)]
fn hear_more<R: Wait, M: MotionMachine>(
    rt: &R,
    k: u64,
    start: &Snapshot<M>,
    lanes: &Lanes<'_>,
    motion: &mut MotionDone<M>,
)
    requires limit { k + 1 < 2 ^ 64 }
    requires at { IsHearing M.MotionMachine lanes.now k start.now.value motion.old }
    ensures heard { IsHeard M.MotionMachine lanes.now k start.now.value motion.new }
    ensures late { motion.new.late ≡ motion.old.late }
{
    for _ in rt.forever() {
        if !motion.seat.needs(k) {
            return;
        }
        let needed = !motion.closed && motion.sated < motion.seat.heard;
        let until = motion.seat.sated(k);
        no_more(
            rt,
            needed,
            until,
            lanes.asks,
            &mut motion.ask_pass,
            &mut motion.asks,
            &mut motion.sated,
        );
        let word = lanes.words.take(rt, &mut motion.word_pass);
        motion.seat.word(word);
    }
}

// Takes the pieces of the file that the batches of turn k need.
fn feed<R: Wait, M: MotionMachine>(
    rt: &R,
    k: u64,
    start: &Snapshot<M>,
    lanes: &Lanes<'_>,
    motion: &mut MotionDone<M>,
)
    requires { IsHeard M.MotionMachine lanes.now k start.now.value motion.old }
    ensures fed { IsFed M.MotionMachine lanes.now k start.now.value motion.new }
    ensures late { motion.new.late ≡ motion.old.late }
{
    for _ in rt.forever() {
        if !motion.seat.hungers(k) {
            return;
        }
        put_ask(
            rt,
            lanes.asks,
            &mut motion.ask_pass,
            &mut motion.asks,
            true,
            0,
        );
        let piece = lanes.pieces.take(rt, &mut motion.piece_pass);
        motion.closed = piece.end || piece.stop;
        motion.seat.piece(piece);
    }
}

// Puts the batches of turn k and its note.
fn make<R: Wait, G, M: MotionMachine>(
    rt: &Runtime<'_, R, G>,
    k: u64,
    start: &Snapshot<M>,
    lanes: &Lanes<'_>,
    motion: &mut MotionDone<M>,
)
    requires fed { IsFed M.MotionMachine lanes.now k start.now.value motion.old }
    requires late { motion.old.late.items ≡ [] }
    ensures at { IsMotionAt M.MotionMachine lanes.now (k + 1) start.now.value motion.new }
    ensures late { motion.new.late.items ≡ [] }
{
    let Late { row, note } = motion.seat.turn(rt, k);
    put_row(rt, k, lanes.batches, &mut motion.batch_passes, row);
    lanes.notes.put(rt.threads, &mut motion.note_pass, note);
}

/// Makes turn k, whose batches and note wait.
#[inline(always)]
pub fn keep<R: Wait, G, M: MotionMachine>(
    rt: &Runtime<'_, R, G>,
    k: u64,
    start: &Snapshot<M>,
    lanes: &Lanes<'_>,
    motion: &mut MotionDone<M>,
)
    requires fed { IsFed M.MotionMachine lanes.now k start.now.value motion.old }
    requires room { deque_len motion.old.late + 1 ≤ deque_capacity motion.old.late }
    ensures at { IsMotionAt M.MotionMachine lanes.now (k + 1) start.now.value motion.new }
    ensures late { (x : Late) × (motion.new.late.items ≡ motion.old.late.items ++ x ∷ [])
        × IsLate (length lanes.now.batches.now) k x }
    ensures count { deque_len motion.new.late ≡ deque_len motion.old.late + 1 }
    ensures room { deque_capacity motion.old.late ≤ deque_capacity motion.new.late }
{
    match motion.late.push_back(motion.seat.turn(rt, k)) {
        Ok(()) => {}
        Err(_) => unreachable!(),
    }
}

// Puts the batches of turn k.
fn put_row<R: Wait, G>(
    rt: &Runtime<'_, R, G>,
    k: u64,
    batches: &[Lane<Batch>],
    passes: &mut Vec<SendPass<Batch>>,
    row: Row,
)
    requires boards { (vec_len passes.old ≡ length batches.now)
        × (length (batches_of (length batches.now) k row) ≡ length batches.now) }
    requires passes { CanPut k batches.now passes.old.items }
    requires numbers { AreOf (λ b. b.turn) k (batches_of (length batches.now) k row) }
    ensures { RowPut batches.now passes.old.items passes.new.items (batches_of (length batches.now) k row) }
{
    match row {
        Row::Made(made) => put_each(rt.threads, k, batches, passes, made),
        Row::Bare { end } => put_bare(rt, k, end, batches, passes),
    }
}

/// Puts what waits, from turn k on.
pub fn flush<R: Wait, G, M: MotionMachine>(
    rt: &Runtime<'_, R, G>,
    k: u64,
    n: u64,
    start: &Snapshot<M>,
    lanes: &Lanes<'_>,
    motion: &mut MotionDone<M>,
)
    requires at { IsMotionAt M.MotionMachine lanes.now n start.now.value motion.old }
    requires late { AreLate (length lanes.now.batches.now) k motion.old.late.items
        × (n ≡ k + length motion.old.late.items) }
    ensures { IsMotionDone M.MotionMachine lanes.now start.now.value motion.new }
{
    for i in k..n {
        let Some(late) = motion.late.pop_front() else {
            return;
        };
        let Late { row, note } = late;
        put_row(rt, i, lanes.batches, &mut motion.batch_passes, row);
        lanes.notes.put(rt.threads, &mut motion.note_pass, note);
    }
}

/// Turn k of the motion worker: takes the words that its batches need, and the pieces of the file, and puts a batch for
/// each board and a note. False where a word ended the run.
pub fn motion_turn<R: Wait, G: Gate, M: MotionMachine>(
    rt: &Runtime<'_, R, G>,
    k: u64,
    start: &Snapshot<M>,
    lanes: &Lanes<'_>,
    motion: &mut MotionDone<M>,
) -> bool
    requires limit { k + 1 < 2 ^ 64 }
    requires at { IsMotionAt M.MotionMachine lanes.now k start.now.value motion.old }
    requires late { motion.old.late.items ≡ [] }
    ensures at { IsMotionAt M.MotionMachine lanes.now (k + 1) start.now.value motion.new }
    ensures late { motion.new.late.items ≡ [] }
    ensures end { result ≡ false → motion.new.seat.halted ≡ true }
{
    rt.gate.pass(Who::Motion, k);
    hear_more(rt.threads, k, start, lanes, motion);
    feed(rt.threads, k, start, lanes, motion);
    make(rt, k, start, lanes, motion);
    !motion.seat.halted
}

/// Takes words and pieces of the file, and puts the batches and notes that the machine answers, up to those behind a
/// word that ends the run, also where the machine is asked no more.
pub fn motion_worker<R: Wait, G: Gate, M: MotionMachine>(
    rt: &Runtime<'_, R, G>,
    start: Snapshot<M>,
    lanes: &Lanes<'_>,
    motion: MotionDone<M>,
) -> MotionDone<M>
    requires at { IsMotionAt M.MotionMachine lanes.now 0 start.value motion }
    requires late { motion.late.items ≡ [] }
    ensures done { IsMotionDone M.MotionMachine lanes.entry.now start.value result }
    ensures end { result.seat.halted ≡ true }
{
    let mut motion = motion;
    for k in 0..u64::MAX {
        let goes_on = motion_turn(rt, k, &start, lanes, &mut motion);
        if !goes_on {
            return motion;
        }
    }
    stay(rt.threads)
}
