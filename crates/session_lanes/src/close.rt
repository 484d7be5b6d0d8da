//! The end of a run: the lanes between the motion worker and the reactor are settled.
ghost use Rattle.std.specs.Prelude.{◌≡◌, ◌≤◌, [], length, vec_len, vec_capacity};
ghost use Rattle.session_work.specs.Motions.{IsMotionDone};
ghost use Rattle.session_work.specs.Reactors.{IsReactorDone};
ghost use Rattle.session_lanes.specs.Runs.{IsNear};

use crate::near::{LinkLog, Near, Ran};
use plan_types::Cause;
use session_work::{
    Head, Lanes, LinkMachine, MotionDone, MotionMachine, Outside, ReactorDone, ReactorMachine,
};
use std::snapshot::Snapshot;

// Settles the lanes of words, notes and pieces.
pub fn close<M: MotionMachine, L: LinkMachine, A: ReactorMachine, O: Outside>(
    start: &Snapshot<M>,
    first: &Snapshot<Head<A, O>>,
    lanes: &Lanes<'_>,
    motion: MotionDone<M>,
    hand: ReactorDone<A, O>,
    cause: Cause,
    logs: Vec<LinkLog>,
) -> Near<A, O>
    requires boards { (length lanes.now.controls.now ≡ length lanes.now.batches.now)
        × (length lanes.now.states.now ≡ length lanes.now.batches.now) }
    requires motion { IsMotionDone M.MotionMachine lanes.now start.now.value motion }
    requires reactor { IsReactorDone A.ReactorMachine O.Outside lanes.now cause first.now.value hand }
    requires logs { (logs.items ≡ []) × (vec_len logs ≡ 0) × (length lanes.now.batches.now ≤ vec_capacity logs) }
    ensures { IsNear M.MotionMachine L.LinkMachine A.ReactorMachine O.Outside (length lanes.now.batches.now)
        (length lanes.now.batches.now) lanes.now start.now.value [] first.now.value result }
{
    let ran = Ran {
        links: logs,
        words: lanes.words.settle(hand.word_pass, motion.word_pass),
        notes: lanes.notes.settle(motion.note_pass, hand.note_pass),
        pieces: lanes.pieces.settle(hand.piece_pass, motion.piece_pass),
        head: hand.head,
        cause,
    };
    Near {
        ran,
        batch_sends: motion.batch_passes,
        control_sends: hand.control_passes,
        state_takes: hand.state_passes,
    }
}
