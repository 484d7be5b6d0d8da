//! The thread of a link.
ghost use Rattle.std.specs.Prelude.{◌≡◌, ◌+◌, true, false, []};
ghost use Rattle.session_work.specs.declared.table.LinkTurn.{LinkTurn};
ghost use Rattle.session_work.specs.Links.{IsBoard, LinkStep, link_turn_of, IsLinkAt, IsLinkDone, IsLinkEnded};

use crate::ends::Lanes;
use crate::machines::LinkMachine;
use crate::messages::{Bare, Batch, Control, State};
use crate::runtime::{Runtime, stay};
use io_core::{Gate, Who};
use lane_queue::{SendPass, TakePass};
use std::snapshot::Snapshot;
use std::sync::Wait;

/// A link worker's machine and its own passes, and whether memory was wanted.
#[derive(Drop)]
pub struct LinkDone<L> {
    pub machine: L,
    pub out: bool,
    pub control_pass: TakePass<Control>,
    pub batch_pass: TakePass<Batch>,
    pub state_pass: SendPass<State>,
}

// The state of turn k. A machine that wanted memory is asked no more.
#[inline(always)]
pub fn state_of<R: Wait, G, L: LinkMachine>(
    rt: &Runtime<'_, R, G>,
    k: u64,
    control: Control,
    batch: Batch,
    machine: &mut L,
    out: &mut bool,
) -> State
    requires turn { (control.turn ≡ k) × (batch.turn ≡ k) }
    requires on { control.end ≡ false }
    ensures step { LinkStep L.turns k (machine.old, out.old) (link_turn_of control batch result)
        (machine.new, out.new) }
    ensures number { result.turn ≡ k }
{
    if *out {
        return State::bare(rt.alloc, k, true);
    }
    // A machine at a limit stays there.
    if !machine.can_turn(k) {
        stay(rt.threads);
    }
    if let Ok(state) = machine.turn(k, control, batch) {
        return state;
    }
    *out = true;
    State::bare(rt.alloc, k, true)
}

/// Turn k of the link of board `at`: takes its control and its batch, and puts its state. False where the control ends
/// the run.
pub fn link_turn<R: Wait, G, L: LinkMachine>(
    rt: &Runtime<'_, R, G>,
    at: usize,
    k: u64,
    start: &Snapshot<L>,
    lanes: &Lanes<'_>,
    link: &mut LinkDone<L>,
) -> bool
    requires board { IsBoard lanes.now at }
    requires at { IsLinkAt L.turns k lanes.now at start.now.value link.old }
    ensures done { IsLinkDone L.turns lanes.now at start.now.value link.new }
    ensures at { result ≡ true → IsLinkAt L.turns (k + 1) lanes.now at start.now.value link.new }
    ensures end { result ≡ false → IsLinkEnded L.turns lanes.now at start.now.value link.new }
{
    let control = lanes.controls[at].take(rt.threads, &mut link.control_pass);
    if control.end {
        return false;
    }
    let batch = lanes.batches[at].take(rt.threads, &mut link.batch_pass);
    let state = state_of(rt, k, control, batch, &mut link.machine, &mut link.out);
    lanes.states[at].put(rt.threads, &mut link.state_pass, state);
    true
}

/// Takes controls and batches and puts the states that the machine answers, up to a control that ends the run.
pub fn link_worker<R: Wait, G: Gate, L: LinkMachine>(
    rt: &Runtime<'_, R, G>,
    at: usize,
    start: Snapshot<L>,
    lanes: &Lanes<'_>,
    link: LinkDone<L>,
) -> LinkDone<L>
    requires board { IsBoard lanes.now at }
    requires at { IsLinkAt L.turns 0 lanes.now at start.value link }
    ensures done { IsLinkDone L.turns lanes.entry.now at start.value result }
    ensures end { IsLinkEnded L.turns lanes.entry.now at start.value result }
{
    let mut link = link;
    let board = u8::try_from(at).unwrap_or(u8::MAX);
    for k in 0..u64::MAX {
        rt.gate.pass(Who::Link(board), k);
        let goes_on = link_turn(rt, at, k, &start, lanes, &mut link);
        if !goes_on {
            return link;
        }
    }
    stay(rt.threads)
}
