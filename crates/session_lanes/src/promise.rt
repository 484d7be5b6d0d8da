//! What the threads promise of what they give back.
use session_work::{Lanes, LinkDone, LinkMachine, MotionDone, MotionMachine};
use std::snapshot::Snapshot;
use std::thread::Promise;

// What was put is what the link of a board answers for what was taken.
#[derive(Drop)]
pub struct LinkOf<'a, L> {
    pub start: Snapshot<L>,
    pub lanes: Lanes<'a>,
    pub at: usize,
}

impl<'a, L: LinkMachine> Promise<LinkDone<L>> for LinkOf<'a, L> {
    ghost use Rattle.session_work.specs.Links.{IsLinkDone};

    ghost kept_by = { λ p r. IsLinkDone L.turns p.lanes p.at p.start.value r };
}

// What was put is what the motion machine answers for what was taken.
#[derive(Drop)]
pub struct MotionOf<'a, M> {
    pub start: Snapshot<M>,
    pub lanes: Lanes<'a>,
}

impl<'a, M: MotionMachine> Promise<MotionDone<M>> for MotionOf<'a, M> {
    ghost use Rattle.session_work.specs.Motions.{IsMotionDone};

    ghost kept_by = { λ p r. IsMotionDone M.MotionMachine p.lanes p.start.value r };
}
