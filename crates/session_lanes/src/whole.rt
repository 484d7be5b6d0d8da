//! A whole run: in threads, or, where one can't be started, on the calling thread.
ghost use Rattle.std.specs.Prelude.{◌≡◌, ◌≤◌, Some, [], map, length, vec_len, vec_capacity, IfOk, IfErr, IfSome, IfNone};
ghost use Rattle.std.specs.VecDeque.{deque_len};
ghost use Rattle.session_work.specs.Alone.{AreHands};
ghost use Rattle.session_lanes.specs.Levels.{AreLinks, IsFar, IsReached};
ghost use Rattle.session_lanes.specs.Runs.{IsRun, head_at, ran_at};

use crate::alone::alone;
use crate::lanes::{Begun, begin, lanes_of, make_places};
use crate::levels::level;
use crate::near::{Far, Machines, Ran, Reached, Rest, Told};
use io_core::Gate;
use session_work::{
    Hand, Head, Lanes, LinkDone, LinkMachine, MotionMachine, Outside, ReactorDone, ReactorMachine,
    Runtime, State,
};
use std::alloc::{AllocError, Global};
use std::collections::VecDeque;
use std::snapshot::Snapshot;
use std::sync::Wait;
use std::thread;
use std::thread::Threads;

// The scope whose threads borrow the lanes.
fn in_scope<
    R: Threads + Wait + Sync,
    G: Gate + Sync,
    M: MotionMachine + Send,
    L: LinkMachine + Send,
    A: ReactorMachine,
    O: Outside,
>(
    rt: &Runtime<'_, R, G>,
    lanes: &Lanes<'_>,
    links: VecDeque<LinkDone<L>>,
    far: Far<M, L, A, O>,
) -> Reached<M, L, A, O>
    requires boards { (length lanes.now.controls.now ≡ length lanes.now.batches.now)
        × (length lanes.now.states.now ≡ length lanes.now.batches.now)
        × (deque_len links ≡ length lanes.now.batches.now) }
    requires links { AreLinks L.LinkMachine 0 lanes.now links.items }
    requires far { IsFar M.MotionMachine A.ReactorMachine O.Outside lanes.now far }
    ensures { IsReached M.MotionMachine L.LinkMachine A.ReactorMachine O.Outside (length lanes.now.batches.now) 0
        lanes.now far.motion.seat.machine (map (λ d. d.machine) links.items) far.hand.head result }
{
    thread::scope(
        thread::scope_env(),
        rt.threads,
        move |scope| -> Reached<M, L, A, O>
            requires { (length lanes.now.controls.now ≡ length lanes.now.batches.now)
                × (length lanes.now.states.now ≡ length lanes.now.batches.now)
                × (deque_len links ≡ length lanes.now.batches.now) × AreLinks L.LinkMachine 0 lanes.now links.items
                × IsFar M.MotionMachine A.ReactorMachine O.Outside lanes.now far }
            ensures { IsReached M.MotionMachine L.LinkMachine A.ReactorMachine O.Outside
                (length lanes.entry.now.batches.now) 0 lanes.entry.now far.motion.seat.machine
                (map (λ d. d.machine) links.items) far.hand.head result }
        {
            let rest = Rest { at: 0, links };
            level(rt, scope, lanes, rest, far)
        },
    )
}

// The links, and the machines that they begin with; and room for their states.
fn hands_of<L: LinkMachine>(
    alloc: Global,
    links: VecDeque<LinkDone<L>>,
) -> Result<(Vec<Hand<L>>, Vec<State>), AllocError>
    ensures starts { IfOk result (λ r. map (λ h. h.start.value) r.0.items ≡ map (λ d. d.machine) links.items) }
    ensures links { IfOk result (λ r. map (λ h. h.done) r.0.items ≡ links.items) }
    ensures count { IfOk result (λ r. vec_len r.0 ≡ deque_len links) }
    ensures room { IfOk result (λ r. (r.1.items ≡ []) × (deque_len links ≤ vec_capacity r.1)) }
{
    let room = Vec::with_capacity(alloc, links.len())?;
    let mut hands = Vec::new(alloc);
    for done in links {
        let start = Snapshot::of(&done.machine);
        hands.push(Hand { start, done })?;
    }
    Ok((hands, room))
}

// The reactor of a run that was not begun, with what it reaches outside.
fn head_of<M: MotionMachine, L: LinkMachine, A: ReactorMachine, O: Outside>(
    far: Far<M, L, A, O>,
) -> Head<A, O>
    ensures { result ≡ far.hand.head }
{
    let Far { hand, .. } = far;
    let ReactorDone { head, .. } = hand;
    head
}

/// Runs all machines by turns on the calling thread. Where memory is wanted before turn 0, the head comes back.
pub fn run_alone<R: Wait, G: Gate, M: MotionMachine, L: LinkMachine, A: ReactorMachine, O: Outside>(
    rt: &Runtime<'_, R, G>,
    motion: M,
    links: Vec<L>,
    head: Head<A, O>,
) -> Result<Ran<A, O>, Head<A, O>>
    requires boards { (M.boards motion ≡ vec_len links) × (A.boards head.machine ≡ vec_len links) }
    requires wants { M.wants motion 0 ≡ Some 0 }
    ensures ran { IfOk result
        (λ r. IsRun M.MotionMachine L.LinkMachine A.ReactorMachine O.Outside motion links.items head r) }
    ensures back { IfErr result (λ h. h ≡ head) }
{
    let Ok(places) = make_places::<L>(rt.alloc, links.len()) else {
        return Err(head);
    };
    let Begun { lanes, links, far } = begin(places, motion, links, head);
    let Ok((hands, room)) = hands_of(rt.alloc, links) else {
        return Err(head_of(far));
    };
    let near = alone(rt, &lanes_of(&lanes), hands, room, far);
    Ok(near.ran)
}

/// Runs each link and the motion machine in a thread of its own, and the reactor on the calling thread. Where a thread
/// can't be started, the calling thread runs them all; no answer tells of it. Where memory is wanted before turn 0, the
/// head comes back.
pub fn run<
    R: Threads + Wait + Sync,
    G: Gate + Sync,
    M: MotionMachine + Send,
    L: LinkMachine + Send,
    A: ReactorMachine,
    O: Outside,
>(
    rt: &Runtime<'_, R, G>,
    motion: M,
    links: Vec<L>,
    head: Head<A, O>,
) -> Result<Ran<A, O>, Head<A, O>>
    requires boards { (M.boards motion ≡ vec_len links) × (A.boards head.machine ≡ vec_len links) }
    requires wants { M.wants motion 0 ≡ Some 0 }
    ensures ran { IfOk result
        (λ r. IsRun M.MotionMachine L.LinkMachine A.ReactorMachine O.Outside motion links.items head r) }
    ensures back { IfErr result (λ h. h ≡ head) }
{
    let Ok(places) = make_places::<L>(rt.alloc, links.len()) else {
        return Err(head);
    };
    let Begun { lanes, links, far } = begin(places, motion, links, head);
    let reached = in_scope(rt, &lanes_of(&lanes), links, far);
    match reached {
        Reached::Ran(near) => Ok(near.ran),
        Reached::Home(home) => run_alone(rt, home.motion, home.links, home.head),
    }
}

/// The same run, for an outside that is a struct of references: it goes in by value of its own and comes back as the
/// whole result, so that its caller knows that they are the same references. What else there is to tell goes behind
/// `told`; where memory was wanted before turn 0 there is nothing.
pub fn run_back<
    R: Threads + Wait + Sync,
    G: Gate + Sync,
    M: MotionMachine + Send,
    L: LinkMachine + Send,
    A: ReactorMachine,
    O: Outside,
>(rt: &Runtime<'_, R, G>, machines: Machines<M, L, A>, outside: O, told: &mut Option<Told<A>>) -> O
    requires boards { (M.boards machines.motion ≡ vec_len machines.links)
        × (A.boards machines.reactor ≡ vec_len machines.links) }
    requires wants { M.wants machines.motion 0 ≡ Some 0 }
    ensures ran { IfSome told.new (λ t. IsRun M.MotionMachine L.LinkMachine A.ReactorMachine O.Outside machines.motion
        machines.links.items (head_at machines.reactor outside) (ran_at t result)) }
    ensures back { IfNone told.new (result ≡ outside) }
{
    let Machines {
        motion,
        links,
        reactor,
    } = machines;
    let head = Head {
        machine: reactor,
        outside,
        stopped: false,
    };
    match run(rt, motion, links, head) {
        Ok(ran) => tell(ran, told),
        Err(head) => {
            *told = None;
            head.outside
        }
    }
}

/// Tells a run behind `told`. What the reactor reaches outside comes back.
fn tell<A: ReactorMachine, O: Outside>(ran: Ran<A, O>, told: &mut Option<Told<A>>) -> O
    ensures told { (t : Told A) × (told.new ≡ Some t) × (ran_at t result ≡ ran) }
{
    let Ran {
        links,
        words,
        notes,
        pieces,
        head,
        cause,
    } = ran;
    let Head {
        machine,
        outside,
        stopped,
    } = head;
    *told = Some(Told {
        links,
        words,
        notes,
        pieces,
        machine,
        stopped,
        cause,
    });
    outside
}
