//! The reactor's thread.
ghost use Rattle.std.specs.Prelude.{◌≡◌, ◌≢◌, ◌⊎◌, ◌+◌, ◌<◌, ◌≤◌, ◌++◌, ◌^◌, ℕ, true, false, [], ◌∷◌, length, vec_len, vec_capacity, Some, IfSome, IfNone, IfOk, IfErr};
ghost use Rattle.lane_queue.specs.Ends.{IsSendOf, IsTakeOf, next_put, next_take, put_first, put, take_first, taken};
ghost use Rattle.session_work.specs.Alone.{IsFound, OwesWord};
ghost use Rattle.session_work.specs.Bares.{bare_control, bare_word, stop_piece};
ghost use Rattle.session_work.specs.Heads.{IsRow};
ghost use Rattle.session_work.specs.Rows.{Each, AreOf, CanPut, CanTake, PutMore, RowPut, RowTaken, copies, option_items};
ghost use Rattle.session_work.specs.Leads.{HasEnded, HasLed, HasSaid};
ghost use Rattle.session_work.specs.Reactors.{IsReactorAt, IsServing, IsReactorDone};

use crate::ends::Lanes;
use crate::head::{Found, Head};
use crate::machines::{Ordered, Outside, ReactorMachine};
use crate::messages::{Ask, Bare, Control, Note, Piece, State, WordMsg, stop_piece};
use crate::rows::{put_ahead, put_bare, put_each, put_each_ahead, take_each};
use crate::runtime::{Runtime, stay};
use io_core::{Gate, Who};
use lane_queue::{Lane, SendPass, TakePass};
use plan_types::Cause;
use std::snapshot::Snapshot;
use std::sync::Wait;

/// The reactor and its own passes, and how far it is.
#[derive(Drop)]
pub struct ReactorDone<A, O> {
    pub head: Head<A, O>,
    /// So many pieces of the file it put.
    pub served: u64,
    /// The turn whose controls and word it puts next.
    pub next: u64,
    /// It put the last piece.
    pub closed: bool,
    /// No piece is asked for before this turn.
    pub sated: u64,
    pub word_pass: SendPass<WordMsg>,
    pub note_pass: TakePass<Note>,
    pub ask_pass: TakePass<Ask>,
    pub piece_pass: SendPass<Piece>,
    pub control_passes: Vec<SendPass<Control>>,
    pub state_passes: Vec<TakePass<State>>,
}

// The states and the note of the turn before; nothing in turn 0. None where memory was wanted.
fn find<R: Wait, G>(
    rt: &Runtime<'_, R, G>,
    k: u64,
    notes: &Lane<Note>,
    note_pass: &mut TakePass<Note>,
    states: &[Lane<State>],
    state_passes: &mut Vec<TakePass<State>>,
) -> Option<Found>
    requires boards { vec_len state_passes.old ≡ length states.now }
    requires note { IsTakeOf notes.now note_pass.old × (0 < k → next_take note_pass.old + 1 ≡ k) }
    requires takes { Each IsTakeOf states.now state_passes.old.items }
    requires states { 0 < k → (j : ℕ) → j + 1 ≡ k → CanTake j states.now state_passes.old.items }
    ensures row { IfSome result (λ f. IsRow (length states.now) k f.states.items f.note) }
    ensures states { IfSome result (λ f. AreOf (λ s. s.turn + 1) k f.states.items
        × RowTaken states.now state_passes.old.items state_passes.new.items f.states.items) }
    ensures note { IfSome result (λ f. IfSome f.note (λ n. n.turn + 1 ≡ k) × IsTakeOf notes.now note_pass.new
        × (take_first note_pass.new ≡ take_first note_pass.old)
        × (taken note_pass.new ≡ taken note_pass.old ++ option_items f.note)) }
    ensures none { IfNone result ((state_passes.new ≡ state_passes.old) × (note_pass.new ≡ note_pass.old)) }
{
    if k == 0 {
        return Some(Found {
            states: Vec::new(rt.alloc),
            note: None,
        });
    }
    let room = Vec::with_capacity(rt.alloc, states.len()).ok()?;
    let found = take_each(rt.threads, k - 1, states, state_passes, room);
    let note = notes.take(rt.threads, note_pass);
    Some(Found {
        states: found,
        note: Some(note),
    })
}

// Puts the end behind what was put ahead, on the lanes of the words and of all boards' controls, and in turn k a
// piece that says that nothing comes.
fn put_end<R: Wait, G, A, O>(
    rt: &Runtime<'_, R, G>,
    k: u64,
    lanes: &Lanes<'_>,
    hand: &mut ReactorDone<A, O>,
)
    requires boards { vec_len hand.old.control_passes ≡ length lanes.now.controls.now }
    requires controls { CanPut hand.old.next lanes.now.controls.now hand.old.control_passes.items }
    requires word { IsSendOf lanes.now.words.now hand.old.word_pass × (next_put hand.old.word_pass ≡ hand.old.next) }
    requires piece { IsSendOf lanes.now.pieces.now hand.old.piece_pass
        × (next_put hand.old.piece_pass ≡ hand.old.served) }
    ensures { HasEnded lanes.now k hand.old hand.new }
{
    put_bare(
        rt,
        hand.next,
        true,
        lanes.controls,
        &mut hand.control_passes,
    );
    let word = WordMsg::bare(rt.alloc, hand.next, true);
    lanes.words.put(rt.threads, &mut hand.word_pass, word);
    let piece = stop_piece(rt.alloc, k, hand.served);
    put_piece(
        rt.threads,
        lanes.pieces,
        &mut hand.piece_pass,
        &mut hand.served,
        piece,
    );
}

// Puts what the machine ordered in turn k, unless that was put ahead.
fn say<R: Wait>(
    rt: &R,
    k: u64,
    lanes: &Lanes<'_>,
    word_pass: &mut SendPass<WordMsg>,
    control_passes: &mut Vec<SendPass<Control>>,
    next: &mut u64,
    said: (Vec<Control>, WordMsg),
)
    requires limit { k + 1 < 2 ^ 64 }
    requires ahead { k ≤ next.old }
    requires boards { (vec_len control_passes.old ≡ length lanes.now.controls.now)
        × (vec_len said.0 ≡ length lanes.now.controls.now) }
    requires numbers { AreOf (λ c. c.turn) k said.0.items × (said.1.turn ≡ k) }
    requires controls { CanPut next.old lanes.now.controls.now control_passes.old.items }
    requires word { IsSendOf lanes.now.words.now word_pass.old × (next_put word_pass.old ≡ next.old) }
    ensures said { HasSaid lanes.now k said.1 said.0.items next.old next.new word_pass.old word_pass.new
        control_passes.old.items control_passes.new.items }
{
    if *next <= k {
        let (made, word) = said;
        put_each(rt, k, lanes.controls, control_passes, made);
        lanes.words.put(rt, word_pass, word);
        *next = k + 1;
    }
}

// Puts bare controls and words for the turns up to `to`, where they aren't put.
fn lead<R: Wait, G>(
    rt: &Runtime<'_, R, G>,
    to: u64,
    lanes: &Lanes<'_>,
    word_pass: &mut SendPass<WordMsg>,
    control_passes: &mut Vec<SendPass<Control>>,
    next: &mut u64,
)
    requires boards { vec_len control_passes.old ≡ length lanes.now.controls.now }
    requires controls { CanPut next.old lanes.now.controls.now control_passes.old.items }
    requires word { IsSendOf lanes.now.words.now word_pass.old × (next_put word_pass.old ≡ next.old) }
    ensures led { (n : ℕ) × (next.new ≡ next.old + n)
        × HasLed lanes.now next.old n word_pass.old word_pass.new control_passes.old.items control_passes.new.items }
    ensures to { ((next.new ≡ next.old) × (to ≤ next.old)) ⊎ (next.new ≡ to) }
{
    let from = *next;
    if from >= to {
        return;
    }
    put_each_ahead(rt, from, to, lanes.controls, control_passes);
    put_ahead(rt, from, to, lanes.words, word_pass);
    *next = to;
}

/// So many turns the reactor goes ahead of what it took.
const LEAD: u64 = 31;

/// It goes ahead again where so many turns are left.
const LEFT: u64 = 0;

// How many turns it may go ahead behind turn k, where it does.
fn ahead(k: u64, next: u64) -> u64
    requires limit { k + 1 < 2 ^ 64 }
    ensures { k + 1 + result < 2 ^ 64 }
{
    if next > k + 1 && next - (k + 1) > LEFT {
        return 0;
    }
    LEAD.min(u64::MAX - (k + 1))
}

// Takes what there is from the turn before, and puts what the machine orders in turn k, and in turns behind it
// where that is nothing. The end, where there is one.
fn order<R: Wait, G, A: ReactorMachine, O: Outside>(
    rt: &Runtime<'_, R, G>,
    k: u64,
    start: &Snapshot<Head<A, O>>,
    lanes: &Lanes<'_>,
    hand: &mut ReactorDone<A, O>,
) -> Option<Cause>
    requires limit { k + 1 < 2 ^ 64 }
    requires at { IsReactorAt A.ReactorMachine O.Outside lanes.now k start.now.value hand.old }
    ensures on { IfNone result (IsServing A.ReactorMachine O.Outside lanes.now k start.now.value hand.new) }
    ensures end { IfSome result (λ c. IsReactorDone A.ReactorMachine O.Outside lanes.now c start.now.value hand.new) }
{
    let found = find(
        rt,
        k,
        lanes.notes,
        &mut hand.note_pass,
        lanes.states,
        &mut hand.state_passes,
    );
    let Some(found) = found else {
        put_end(rt, k, lanes, hand);
        return Some(Cause::Memory);
    };
    let Some(ordered) = hand.head.turn(rt.threads, k, &found) else {
        put_end(rt, k, lanes, hand);
        return Some(Cause::Memory);
    };
    let Ordered {
        controls: made,
        word,
        lines,
        end,
    } = ordered;
    if let Some(cause) = end {
        put_end(rt, k, lanes, hand);
        hand.head.write(lines);
        return Some(cause);
    }
    say(
        rt.threads,
        k,
        lanes,
        &mut hand.word_pass,
        &mut hand.control_passes,
        &mut hand.next,
        (made, word),
    );
    let free = hand.head.machine.free(k + 1, ahead(k, hand.next));
    lead(
        rt,
        k + 1 + free,
        lanes,
        &mut hand.word_pass,
        &mut hand.control_passes,
        &mut hand.next,
    );
    hand.head.write(lines);
    None
}

/// On one thread: what the machine orders in turn k over what was found. The controls and the word come back,
/// and nothing is put ahead. The end, where there is one.
pub fn order_here<R: Wait, G, A: ReactorMachine, O: Outside>(
    rt: &Runtime<'_, R, G>,
    k: u64,
    found: &Found,
    start: &Snapshot<Head<A, O>>,
    lanes: &Lanes<'_>,
    hand: &mut ReactorDone<A, O>,
) -> Result<(Vec<Control>, WordMsg), Cause>
    requires limit { k + 1 < 2 ^ 64 }
    requires found { IsFound A.ReactorMachine O.Outside lanes.now k start.now.value found.now hand.old }
    ensures on { IfOk result
        (λ r. OwesWord A.ReactorMachine O.Outside lanes.now k start.now.value r.0.items r.1 hand.new) }
    ensures end { IfErr result (λ c. IsReactorDone A.ReactorMachine O.Outside lanes.now c start.now.value hand.new) }
{
    let Some(ordered) = hand.head.turn(rt.threads, k, found) else {
        put_end(rt, k, lanes, hand);
        return Err(Cause::Memory);
    };
    let Ordered {
        controls: made,
        word,
        lines,
        end,
    } = ordered;
    if let Some(cause) = end {
        put_end(rt, k, lanes, hand);
        hand.head.write(lines);
        return Err(cause);
    }
    hand.next = k + 1;
    hand.head.write(lines);
    Ok((made, word))
}

// Reads the pieces of the file that the motion worker asks for behind word k.
fn serve<R: Wait, G, A: ReactorMachine, O: Outside>(
    rt: &Runtime<'_, R, G>,
    k: u64,
    start: &Snapshot<Head<A, O>>,
    lanes: &Lanes<'_>,
    hand: &mut ReactorDone<A, O>,
)
    requires { IsServing A.ReactorMachine O.Outside lanes.now k start.now.value hand.old }
    ensures { IsReactorAt A.ReactorMachine O.Outside lanes.now (k + 1) start.now.value hand.new }
{
    for _ in rt.threads.forever() {
        if hand.head.stopped || hand.closed || k < hand.sated {
            return;
        }
        let ask = lanes.asks.take(rt.threads, &mut hand.ask_pass);
        if !ask.more {
            hand.sated = ask.until;
            return;
        }
        let piece = hand.head.piece(rt.alloc, k, hand.served);
        hand.closed = piece.end;
        put_piece(
            rt.threads,
            lanes.pieces,
            &mut hand.piece_pass,
            &mut hand.served,
            piece,
        );
    }
}

// Puts the next piece.
pub fn put_piece<R: Wait>(
    rt: &R,
    pieces: &Lane<Piece>,
    pass: &mut SendPass<Piece>,
    count: &mut u64,
    piece: Piece,
)
    requires pass { IsSendOf pieces.now pass.old × (next_put pass.old ≡ count.old) }
    requires number { piece.number ≡ count.old }
    ensures pass { IsSendOf pieces.now pass.new × (put_first pass.new ≡ put_first pass.old)
        × (put pass.new ≡ put pass.old ++ piece ∷ []) }
    ensures count { next_put pass.new ≡ count.new }
{
    // No count passes the last number.
    if *count == u64::MAX {
        stay(rt);
    }
    pieces.put(rt, pass, piece);
    *count += 1;
}

/// Turn k of the reactor: takes the states and the note of the turn before, puts a control for each board and a word,
/// writes its lines, and reads what the motion worker asks for. The end, where there is one.
pub fn reactor_turn<R: Wait, G: Gate, A: ReactorMachine, O: Outside>(
    rt: &Runtime<'_, R, G>,
    k: u64,
    start: &Snapshot<Head<A, O>>,
    lanes: &Lanes<'_>,
    hand: &mut ReactorDone<A, O>,
) -> Option<Cause>
    requires limit { k + 1 < 2 ^ 64 }
    requires at { IsReactorAt A.ReactorMachine O.Outside lanes.now k start.now.value hand.old }
    ensures on { IfNone result (IsReactorAt A.ReactorMachine O.Outside lanes.now (k + 1) start.now.value hand.new) }
    ensures end { IfSome result (λ c. IsReactorDone A.ReactorMachine O.Outside lanes.now c start.now.value hand.new) }
{
    rt.gate.pass(Who::Reactor, k);
    let end = order(rt, k, start, lanes, hand);
    if let Some(cause) = end {
        return Some(cause);
    }
    serve(rt, k, start, lanes, hand);
    None
}

/// Runs the reactor to the end, and tells its cause.
pub fn reactor_worker<R: Wait, G: Gate, A: ReactorMachine, O: Outside>(
    rt: &Runtime<'_, R, G>,
    start: &Snapshot<Head<A, O>>,
    lanes: &Lanes<'_>,
    hand: ReactorDone<A, O>,
) -> (ReactorDone<A, O>, Cause)
    requires { IsReactorAt A.ReactorMachine O.Outside lanes.now 0 start.now.value hand }
    ensures { IsReactorDone A.ReactorMachine O.Outside lanes.now result.1 start.now.value result.0 }
{
    let mut hand = hand;
    for k in 0..u64::MAX {
        let end = reactor_turn(rt, k, start, lanes, &mut hand);
        if let Some(cause) = end {
            return (hand, cause);
        }
    }
    stay(rt.threads)
}
