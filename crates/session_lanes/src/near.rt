//! What a run tells, and what the parts of it hand on.
use lane_queue::{SendPass, Settled, TakePass};
use plan_types::Cause;
use session_work::{
    Batch, Control, Head, LinkDone, MotionDone, Note, Piece, ReactorDone, State, WordMsg,
};
use std::collections::VecDeque;

/// What the lanes of a board carried.
#[derive(Drop)]
pub struct LinkLog {
    pub batches: Settled<Batch>,
    pub controls: Settled<Control>,
    pub states: Settled<State>,
}

/// What a run tells: what each lane carried, the reactor behind it with what it reaches outside, and the end.
#[derive(Drop)]
pub struct Ran<A, O> {
    pub links: Vec<LinkLog>,
    pub words: Settled<WordMsg>,
    pub notes: Settled<Note>,
    pub pieces: Settled<Piece>,
    pub head: Head<A, O>,
    pub cause: Cause,
}

/// What a run tells beside what its reactor reaches outside.
#[derive(Drop)]
pub struct Told<A> {
    pub links: Vec<LinkLog>,
    pub words: Settled<WordMsg>,
    pub notes: Settled<Note>,
    pub pieces: Settled<Piece>,
    pub machine: A,
    pub stopped: bool,
    pub cause: Cause,
}

/// The machines of a run: the planner, a link for each board, and the reactor.
#[derive(Drop)]
pub struct Machines<M, L, A> {
    pub motion: M,
    pub links: Vec<L>,
    pub reactor: A,
}

// What came back: a run whose first boards are still to be settled.
#[derive(Drop)]
pub struct Near<A, O> {
    pub ran: Ran<A, O>,
    pub batch_sends: Vec<SendPass<Batch>>,
    pub control_sends: Vec<SendPass<Control>>,
    pub state_takes: Vec<TakePass<State>>,
}

// What the innermost part of a run begins with.
#[derive(Drop)]
pub struct Far<M, L, A, O> {
    pub motion: MotionDone<M>,
    pub hand: ReactorDone<A, O>,
    pub logs: Vec<LinkLog>,
    pub home: Vec<L>,
}

// The machines of a run that was not begun, and the passes of the controls of the boards before.
#[derive(Drop)]
pub struct Home<M, L, A, O> {
    pub motion: M,
    pub links: Vec<L>,
    pub head: Head<A, O>,
    pub control_sends: Vec<SendPass<Control>>,
}

// Where a part of a run came to.
#[derive(Drop)]
pub enum Reached<M, L, A, O> {
    Ran(Near<A, O>),
    Home(Home<M, L, A, O>),
}

// The links of the boards from `at` on, which are still to be started.
#[derive(Drop)]
pub struct Rest<L> {
    pub at: usize,
    pub links: VecDeque<LinkDone<L>>,
}
