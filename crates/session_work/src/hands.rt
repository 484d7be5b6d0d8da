//! All links of a run on one thread.
ghost use Rattle.std.specs.Prelude.{◌≡◌, ◌+◌, ◌≤◌, ◌++◌, ◌∷◌, [], map, length, get_or, vec_len, vec_capacity};
ghost use Rattle.lane_queue.specs.Ends.{IsSendOf, IsTakeOf, next_put, next_take};
ghost use Rattle.lane_queue.specs.declared.ends.Lane.{Lane};
ghost use Rattle.session_work.specs.Alone.{AreHands, IsHandAt};
ghost use Rattle.session_work.specs.Lates.{batches_of};
ghost use Rattle.session_work.specs.Links.{IsBoard};
ghost use Rattle.session_work.specs.Rows.{AreOf, CanPut, CanTake, PutMore, RowPut, RowTaken, TookMore};

use crate::ends::Lanes;
use crate::late::{Row, next_batch};
use crate::link::{LinkDone, state_of};
use crate::machines::LinkMachine;
use crate::messages::{Batch, Control, State};
use crate::rows::{empty, take_first};
use crate::runtime::{Runtime, stay};
use io_core::{Gate, Who};
use lane_queue::{SendPass, TakePass};
use std::snapshot::Snapshot;
use std::sync::Wait;

/// A link, and the machine that it began with.
#[derive(Drop)]
pub struct Hand<L> {
    pub start: Snapshot<L>,
    pub done: LinkDone<L>,
}

/// What is handed to the link of a board in a turn, and what runs it.
#[derive(Drop)]
struct Handed<'a, 'b, R, G> {
    rt: &'a Runtime<'b, R, G>,
    turn: u64,
    at: usize,
    control: Control,
    batch: Batch,
}

/// A turn of all links: the controls and the batches that are handed to them, and the states that they answer.
#[derive(Drop)]
pub struct HandsTurn {
    pub number: u64,
    pub controls: Vec<Control>,
    pub batches: Row,
    pub states: Vec<State>,
}

// A turn of the link of a board: its control and its batch are handed to it, and its state, which is the next one of
// the list, to the reactor.
#[inline(always)]
fn hand_turn<R: Wait, G: Gate, L: LinkMachine>(
    lanes: &Lanes<'_>,
    handed: Handed<'_, '_, R, G>,
    send: &mut SendPass<Control>,
    batch_send: &mut SendPass<Batch>,
    take: &mut TakePass<State>,
    hand: &mut Hand<L>,
    states: &mut Vec<State>,
)
    requires board { IsBoard lanes.now handed.at }
    requires at { IsHandAt L.LinkMachine handed.turn lanes.now handed.at hand.old }
    requires control { handed.control.turn ≡ handed.turn }
    requires batch { handed.batch.turn ≡ handed.turn }
    requires send { (l : Lane Control) →
        IsSendOf (get_or lanes.now.controls.now handed.at l) send.old × (next_put send.old ≡ handed.turn) }
    requires batch_send { (l : Lane Batch) → IsSendOf (get_or lanes.now.batches.now handed.at l) batch_send.old
        × (next_put batch_send.old ≡ handed.turn) }
    requires take { (l : Lane State) →
        IsTakeOf (get_or lanes.now.states.now handed.at l) take.old × (next_take take.old ≡ handed.turn) }
    requires count { vec_len states.old ≡ handed.at }
    requires room { vec_len states.old + 1 ≤ vec_capacity states.old }
    ensures at { IsHandAt L.LinkMachine (handed.entry.turn + 1) lanes.now handed.entry.at hand.new }
    ensures start { hand.new.start.value ≡ hand.old.start.value }
    ensures put { (l : Lane Control) →
        PutMore (handed.entry.control ∷ []) (get_or lanes.now.controls.now handed.entry.at l) send.old send.new }
    ensures batch { (l : Lane Batch) →
        PutMore (handed.entry.batch ∷ []) (get_or lanes.now.batches.now handed.entry.at l)
        batch_send.old batch_send.new }
    ensures state { (x : State) × (states.new.items ≡ states.old.items ++ x ∷ []) × (x.turn ≡ handed.entry.turn)
        × ((l : Lane State) →
        TookMore (x ∷ []) (get_or lanes.now.states.now handed.entry.at l) take.old take.new) }
    ensures room { vec_capacity states.old ≤ vec_capacity states.new }
{
    let Handed {
        rt,
        turn,
        at,
        control,
        batch,
    } = handed;
    rt.gate
        .pass(Who::Link(u8::try_from(at).unwrap_or(u8::MAX)), turn);
    // No control ends the run but behind the reactor's last turn.
    if control.end {
        stay(rt.threads);
    }
    let link = &mut hand.done;
    lanes.controls[at].hand(send, &mut link.control_pass, &control);
    lanes.batches[at].hand(batch_send, &mut link.batch_pass, &batch);
    // Pushed where it is made: a state is large, and moved no more than once.
    match states.push(state_of(rt, turn, control, batch, &mut link.machine, &mut link.out)) {
        Ok(()) => {}
        Err(_) => unreachable!(),
    }
    lanes.states[at].hand(&mut link.state_pass, take, &states[at]);
}

/// Makes a turn of all links: hands them what the turn has for them, and their states to the reactor, into a list
/// that has room for them. The lists of the controls and the batches are empty behind it.
#[inline(always)]
pub fn hands_turn<R: Wait, G: Gate, L: LinkMachine>(
    rt: &Runtime<'_, R, G>,
    lanes: &Lanes<'_>,
    turn: &mut HandsTurn,
    sends: &mut Vec<SendPass<Control>>,
    batch_sends: &mut Vec<SendPass<Batch>>,
    takes: &mut Vec<TakePass<State>>,
    hands: &mut Vec<Hand<L>>,
)
    requires boards { (length lanes.now.controls.now ≡ length lanes.now.batches.now)
        × (length lanes.now.states.now ≡ length lanes.now.batches.now)
        × (vec_len hands.old ≡ length lanes.now.batches.now) }
    requires at { AreHands L.LinkMachine turn.old.number lanes.now hands.old.items }
    requires made { (vec_len turn.old.controls ≡ length lanes.now.controls.now)
        × AreOf (λ c. c.turn) turn.old.number turn.old.controls.items }
    requires row { (length (batches_of (length lanes.now.batches.now) turn.old.number turn.old.batches)
        ≡ length lanes.now.batches.now)
        × AreOf (λ b. b.turn) turn.old.number
        (batches_of (length lanes.now.batches.now) turn.old.number turn.old.batches) }
    requires sends { (vec_len sends.old ≡ length lanes.now.controls.now)
        × CanPut turn.old.number lanes.now.controls.now sends.old.items }
    requires batch_sends { (vec_len batch_sends.old ≡ length lanes.now.batches.now)
        × CanPut turn.old.number lanes.now.batches.now batch_sends.old.items }
    requires takes { (vec_len takes.old ≡ length lanes.now.states.now)
        × CanTake turn.old.number lanes.now.states.now takes.old.items }
    requires room { length lanes.now.states.now ≤ vec_capacity turn.old.states }
    ensures at { AreHands L.LinkMachine (turn.old.number + 1) lanes.now hands.new.items }
    ensures count { vec_len hands.new ≡ vec_len hands.old }
    ensures starts { map (λ h. h.start.value) hands.new.items ≡ map (λ h. h.start.value) hands.old.items }
    ensures put { RowPut lanes.now.controls.now sends.old.items sends.new.items turn.old.controls.items }
    ensures batches { RowPut lanes.now.batches.now batch_sends.old.items batch_sends.new.items
        (batches_of (length lanes.now.batches.now) turn.old.number turn.old.batches) }
    ensures taken { RowTaken lanes.now.states.now takes.old.items takes.new.items turn.new.states.items }
    ensures numbers { AreOf (λ s. s.turn) turn.old.number turn.new.states.items }
    ensures states { vec_len turn.new.states ≡ length lanes.now.states.now }
    ensures room { length lanes.now.states.now ≤ vec_capacity turn.new.states }
{
    let k = turn.number;
    empty(&mut turn.states);
    for i in 0..lanes.batches.len() {
        let control = take_first(&mut turn.controls);
        let batch = next_batch(rt.alloc, k, &mut turn.batches);
        let handed = Handed {
            rt,
            turn: k,
            at: i,
            control,
            batch,
        };
        hand_turn(
            lanes,
            handed,
            &mut sends[i],
            &mut batch_sends[i],
            &mut takes[i],
            &mut hands[i],
            &mut turn.states,
        );
    }
}
