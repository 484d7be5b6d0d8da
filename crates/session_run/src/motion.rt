//! The planner, as a run drives it.
ghost use Rattle.std.specs.Prelude.{◌≡◌, length};
ghost use Rattle.motion_stream.specs.Motions.{IsPlannerOf};
ghost use Rattle.motion_stream.specs.Seen.{nothing_seen};
ghost use Rattle.plan_types.specs.Machines.{IsValidMachine};

use motion_stream::Motion;
use msg_code::{Batch, Made, Piece, WordMsg};
use plan_types::Machine;
use session_work::MotionMachine;
use std::alloc::{AllocError, Global};

/// The planner of a run.
#[derive(Drop)]
pub struct Planning<'a> {
    pub motion: Motion<'a>,
}

impl<'a> Planning<'a> {
    /// A planner to which nothing was told.
    pub fn new(alloc: Global, machine: &'a Machine) -> Planning<'a>
        requires { IsValidMachine machine.now }
        ensures machine { result.motion.machine ≡ machine.now }
        ensures seen { IsPlannerOf result.motion nothing_seen }
    {
        Planning {
            motion: Motion::new(alloc, machine),
        }
    }
}

impl<'a> MotionMachine for Planning<'a> {
    ghost use Rattle.std.specs.Prelude.{length};
    ghost use Rattle.motion_stream.specs.Motions.{CanTurnPlanner, Hears, Makes, TakesText, hungry, wants};

    ghost boards = { λ p. length p.motion.machine.boards };

    ghost wants = { λ p k. wants p.motion k };

    ghost hungry = { λ p k. hungry p.motion k };

    ghost can = { λ p k. CanTurnPlanner p.motion k };

    ghost hears = { λ p w q. Hears p.motion w q.motion };

    ghost reads = { λ p piece q. TakesText p.motion piece.bytes piece.end q.motion };

    ghost turns = { λ p k batches note q. CanTurnPlanner p.motion k × Makes p.motion k batches note q.motion };

    fn wants(&self, k: u64) -> Option<u64> {
        self.motion.wants(k)
    }

    fn hungry(&self, k: u64) -> bool {
        self.motion.hungry(k)
    }

    fn sated(&self, k: u64) -> u64 {
        self.motion.sated(k)
    }

    fn can_turn(&self, k: u64) -> bool {
        self.motion.can_turn(k)
    }

    fn word(&mut self, word: WordMsg) -> Result<(), AllocError> {
        self.motion.word(&word)
    }

    fn text(&mut self, piece: Piece) -> Result<(), AllocError> {
        self.motion.text(piece.bytes.as_slice(), piece.end)
    }

    fn turn(&mut self, k: u64) -> Result<Made, AllocError> {
        self.motion.turn(k)
    }

    fn give_back(&mut self, room: Vec<Batch>) {
        self.motion.give_back(room);
    }
}
