//! The run in threads: one for each link, one for the motion worker, and the reactor on the calling thread.
ghost use Rattle.std.specs.Prelude.{◌≡◌, ◌+◌, ◌<◌, ◌≤◌, ◌++◌, ℕ, true, [], ◌∷◌, map, length, vec_len, vec_capacity};
ghost use Rattle.lane_queue.specs.Ends.{IsSendOf, IsTakeOf, next_put, put, taken};
ghost use Rattle.lane_queue.specs.Order.{IsPrefix};
ghost use Rattle.session_work.specs.Bares.{bare_control, bare_word};
ghost use Rattle.session_work.specs.Rows.{CanPut, RowPut, copies};
ghost use Rattle.session_work.specs.Links.{IsBoard, IsLinkAt, IsLinkDone};
ghost use Rattle.session_work.specs.Motions.{IsMotionAt, IsMotionDone};
ghost use Rattle.session_work.specs.Reactors.{IsReactorAt};
ghost use Rattle.session_lanes.specs.Levels.{AreLinks, IsFar, IsHome, IsReached};
ghost use Rattle.std.specs.VecDeque.{deque_len};

use crate::close::close;
use crate::home::{bring_home, join_link, machines_of};
use crate::near::{Far, Home, Reached, Rest};
use crate::promise::{LinkOf, MotionOf};
use io_core::Gate;
use lane_queue::SendPass;
use session_work::{
    Bare, Control, Head, Lanes, LinkDone, LinkMachine, MotionDone, MotionMachine, Outside,
    ReactorDone, ReactorMachine, Runtime, WordMsg, link_worker, motion_worker, put_bare,
    reactor_worker,
};
use std::collections::VecDeque;
use std::snapshot::Snapshot;
use std::sync::Wait;
use std::thread::{Scope, Threads};

// The head of a run that was not begun, with the passes that its end went through.
#[derive(Drop)]
struct Stopped<A, O> {
    head: Head<A, O>,
    word_pass: SendPass<WordMsg>,
    control_passes: Vec<SendPass<Control>>,
}

// Puts the end on the lanes of the words and of all boards' controls.
fn stop<R: Wait, G, A: ReactorMachine, O: Outside>(
    rt: &Runtime<'_, R, G>,
    lanes: &Lanes<'_>,
    hand: ReactorDone<A, O>,
) -> Stopped<A, O>
    requires word { IsSendOf lanes.now.words.now hand.word_pass × (next_put hand.word_pass ≡ 0) }
    requires controls { (vec_len hand.control_passes ≡ length lanes.now.controls.now)
        × CanPut 0 lanes.now.controls.now hand.control_passes.items }
    ensures head { result.head ≡ hand.head }
    ensures lane { IsSendOf lanes.now.words.now result.word_pass }
    ensures word { put result.word_pass ≡ put hand.word_pass ++ bare_word 0 true ∷ [] }
    ensures controls { RowPut lanes.now.controls.now hand.control_passes.items result.control_passes.items
        (copies (length lanes.now.controls.now) (bare_control 0 true)) }
{
    let ReactorDone {
        head,
        mut word_pass,
        mut control_passes,
        ..
    } = hand;
    lanes.words.put(rt.threads, &mut word_pass, WordMsg::bare(rt.alloc, 0, true));
    put_bare(rt, 0, true, lanes.controls, &mut control_passes);
    Stopped {
        head,
        word_pass,
        control_passes,
    }
}

// The machines of a run whose planner got no thread: it took what it took of the words that were put.
fn planner_home<M: MotionMachine, L: LinkMachine, A: ReactorMachine, O: Outside>(
    lanes: &Lanes<'_>,
    motion: MotionDone<M>,
    links: Vec<L>,
    stopped: Stopped<A, O>,
) -> Home<M, L, A, O>
    requires put { IsSendOf lanes.now.words.now stopped.word_pass }
    requires take { IsTakeOf lanes.now.words.now motion.word_pass }
    ensures words { IsPrefix (taken motion.word_pass) (put stopped.word_pass) }
    ensures home { result
        ≡ record {
          motion = motion.seat.machine;
          links = links;
          head = stopped.head;
          control_sends = stopped.control_passes;
        } }
{
    let Stopped {
        head,
        word_pass,
        control_passes,
    } = stopped;
    let _settled = lanes.words.settle(word_pass, motion.word_pass);
    Home {
        motion: motion.seat.machine,
        links,
        head,
        control_sends: control_passes,
    }
}

// Starts the motion worker, and runs the reactor.
fn core<
    's,
    E,
    R: Threads + Wait + Sync,
    G: Gate + Sync,
    M: MotionMachine + Send + 's,
    L: LinkMachine,
    A: ReactorMachine,
    O: Outside,
>(
    rt: &'s Runtime<'s, R, G>,
    scope: &Scope<'s, E>,
    lanes: &'s Lanes<'s>,
    far: Far<M, L, A, O>,
) -> Reached<M, L, A, O>
    requires boards { (length lanes.now.controls.now ≡ length lanes.now.batches.now)
        × (length lanes.now.states.now ≡ length lanes.now.batches.now) }
    requires far { IsFar M.MotionMachine A.ReactorMachine O.Outside lanes.now far }
    ensures { IsReached M.MotionMachine L.LinkMachine A.ReactorMachine O.Outside (length lanes.now.batches.now)
        (length lanes.now.batches.now) lanes.now far.motion.seat.machine [] far.hand.head result }
{
    let Far {
        motion,
        hand,
        logs,
        home,
    } = far;
    let start = Snapshot::of(&motion.seat.machine);
    let first = Snapshot::of(&hand.head);
    let promise = MotionOf {
        start: Snapshot::of(&motion.seat.machine),
        lanes: *lanes,
    };
    let begun = Snapshot::of(&motion.seat.machine);
    let started = scope.spawn_with(
        promise,
        move || -> MotionDone<M>
            requires { IsMotionAt M.MotionMachine lanes.now 0 begun.value motion × (motion.late.items ≡ []) }
            ensures { IsMotionDone M.MotionMachine lanes.entry.now begun.value result }
        { motion_worker(rt, begun, lanes, motion) },
    );
    match started {
        Ok(handle) => {
            let (hand, cause) = reactor_worker(rt, &first, lanes, hand);
            let motion = handle.join(rt.threads);
            Reached::Ran(close::<M, L, A, O>(&start, &first, lanes, motion, hand, cause, logs))
        }
        Err(refused) => {
            let stopped = stop(rt, lanes, hand);
            let motion = (refused.value)();
            Reached::Home(planner_home(lanes, motion, home, stopped))
        }
    }
}

// Starts the link of the first board of those that are left, goes on with the boards behind it, and takes the link in.
pub fn level<
    's,
    E,
    R: Threads + Wait + Sync,
    G: Gate + Sync,
    M: MotionMachine + Send + 's,
    L: LinkMachine + Send + 's,
    A: ReactorMachine,
    O: Outside,
>(
    rt: &'s Runtime<'s, R, G>,
    scope: &Scope<'s, E>,
    lanes: &'s Lanes<'s>,
    rest: Rest<L>,
    far: Far<M, L, A, O>,
) -> Reached<M, L, A, O>
    requires boards { (length lanes.now.controls.now ≡ length lanes.now.batches.now)
        × (length lanes.now.states.now ≡ length lanes.now.batches.now)
        × (rest.at + deque_len rest.links ≡ length lanes.now.batches.now) }
    requires links { AreLinks L.LinkMachine rest.at lanes.now rest.links.items }
    requires far { IsFar M.MotionMachine A.ReactorMachine O.Outside lanes.now far }
    ensures { IsReached M.MotionMachine L.LinkMachine A.ReactorMachine O.Outside (length lanes.now.batches.now) rest.at
        lanes.now far.motion.seat.machine (map (λ d. d.machine) rest.links.items) far.hand.head result }
{
    let Rest { at, mut links } = rest;
    let Some(link) = links.pop_front() else {
        return core(rt, scope, lanes, far);
    };
    let motion = Snapshot::of(&far.motion.seat.machine);
    let head = Snapshot::of(&far.hand.head);
    let start = Snapshot::of(&link.machine);
    let begun = Snapshot::of(&link.machine);
    let promise = LinkOf {
        start: Snapshot::of(&link.machine),
        lanes: *lanes,
        at,
    };
    let started = scope.spawn_with(
        promise,
        move || -> LinkDone<L>
            requires { IsBoard lanes.now at × IsLinkAt L.turns 0 lanes.now at begun.value link }
            ensures { IsLinkDone L.turns lanes.entry.now at begun.value result }
        { link_worker(rt, at, begun, lanes, link) },
    );
    match started {
        Ok(handle) => {
            let rest = Rest { at: at + 1, links };
            let reached = level(rt, scope, lanes, rest, far);
            let done = handle.join(rt.threads);
            join_link(&motion, &start, &head, lanes, at, reached, done)
        }
        Err(refused) => {
            let home = turn_home::<R, G, M, L, A, O>(rt, lanes, at, links, far);
            let done = (refused.value)();
            Reached::Home(bring_home(&motion, &start, &head, lanes, at, home, done))
        }
    }
}

// Puts the end on the control lanes of all boards, and hands the machines back that were not started.
fn turn_home<R: Wait, G, M: MotionMachine, L: LinkMachine, A: ReactorMachine, O: Outside>(
    rt: &Runtime<'_, R, G>,
    lanes: &Lanes<'_>,
    at: usize,
    links: VecDeque<LinkDone<L>>,
    far: Far<M, L, A, O>,
) -> Home<M, L, A, O>
    requires boards { (length lanes.now.controls.now ≡ length lanes.now.batches.now)
        × (length lanes.now.states.now ≡ length lanes.now.batches.now)
        × (at + 1 + deque_len links ≡ length lanes.now.batches.now) }
    requires far { IsFar M.MotionMachine A.ReactorMachine O.Outside lanes.now far }
    ensures { IsHome (length lanes.now.batches.now) (at + 1) lanes.now far.motion.seat.machine
        (map (λ d. d.machine) links.items) far.hand.head result }
{
    let Far {
        motion,
        hand,
        logs: _,
        home,
    } = far;
    let ReactorDone {
        head,
        mut control_passes,
        ..
    } = hand;
    put_bare(rt, 0, true, lanes.controls, &mut control_passes);
    control_passes.truncate(at + 1);
    Home {
        motion: motion.seat.machine,
        links: machines_of(links, home),
        head,
        control_sends: control_passes,
    }
}
