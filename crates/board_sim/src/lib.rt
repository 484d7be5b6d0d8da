//! A simulated controller board: it takes the bytes of a serial line at its own ticks, answers them, and
//! fires every step of its steppers at exactly its tick (Klipper's Protocol.md and MCU_Commands.md).
#![tactic(auto)]

ghost use Rattle.std.specs.Prelude.{◌≡◌, ℕ, ◌+◌, ◌<◌, ◌≤◌, List, [], ◌∷◌, ◌++◌, length, drop, IfOk, OnOk, true, false};
ghost use Rattle.plan_types.specs.Clock.{tick_limit};
ghost use Rattle.plan_types.specs.declared.machine.BoardDef.{BoardDef};
ghost use Rattle.plan_types.specs.declared.plan.Pulse.{Pulse};
ghost use Rattle.plan_types.specs.declared.levels.Level.{Level};
ghost use Rattle.plan_types.specs.declared.plan.BoardState.TheVariants.{Running};
ghost use Rattle.board_sim.specs.Board.{Controller, stepper_at, is_shut};
ghost use Rattle.board_sim.specs.Rig.{Rig, new_rig, takes_all, passes};
ghost use Rattle.board_sim.specs.Halted.{is_halted, meant_behind, KeptPart};
ghost use Rattle.arrayvec.specs.ArrayVec.{ArrayVec};
ghost use Rattle.msg_dict.specs.Dictionary.{Named};
ghost use Rattle.msg_code.specs.declared.cmd.Cmd.{Cmd};
ghost use Rattle.board_sim.specs.Turn.{Station, Simulated, Heard, Holds, IsTurn, turn, hears_all, accepted_commands};
ghost use Rattle.board_sim.specs.Fair.{Meant, commands_of, AreFair, IsCut, CameLate, only, pending_at};

mod commands;
mod laws;
mod machine;
mod slots;
mod steppers;
mod taker;

use block_frame::{Block, Scanner};
pub use laws::{
    commands_bind, halts_cut_short, near_timeouts_are_timely, stops_at_the_timeout,
    stops_at_the_trigger, time_passes, triggers_stay_sound,
};
use plan_types::{BoardDef, BoardState, Pulse};
pub use slots::PinLevels;
use std::alloc::{AllocError, Global};
use std::marker::Model;
pub use taker::BlockTaker;
use taker::hear;

/// What a board makes in a turn.
#[derive(Drop)]
pub struct TurnOut {
    /// The pulses in the order of their ticks, at one tick by object id. A pulse's `stepper` is its object
    /// id, and its `up` is true where its direction was sent as 1.
    pub pulses: Vec<Pulse>,
    /// The blocks that it sends to the host, in order.
    pub blocks: Vec<Block>,
    /// The state behind the turn.
    pub state: BoardState,
}

/// A board at its line.
#[derive(Drop)]
pub struct Board {
    alloc: Global,
    taker: BlockTaker,
    scanner: Scanner,
    left: Vec<u8>,
}

impl Model for Board {
    ghost use Rattle.board_sim.specs.Turn.{Simulated};

    ghost Value = { Simulated };

    ghost view = { λ b. record { station = b.taker; dropping = b.scanner; left = b.left.items } };
}

impl Board {
    /// A board that nothing was told, at its first tick, whose pins have these levels.
    pub fn new(alloc: Global, b: &BoardDef, pins: Vec<PinLevels>) -> Result<Self, AllocError>
        ensures is { IfOk result (λ board. board
            ≡ record {
              station = record { rig = new_rig b.now pins.items; expected = 0; told = false };
              dropping = false;
              left = [];
            }) }
        ensures tick { IfOk result (λ board. board.station.rig.controller.tick ≡ b.now.start) }
    {
        Ok(Board {
            alloc,
            taker: BlockTaker::new(alloc, b, pins)?,
            scanner: Scanner::new(),
            left: Vec::new(alloc),
        })
    }

    /// The board's tick.
    pub fn tick(&self) -> u64
        ensures { result ≡ self.now.station.rig.controller.tick }
    {
        self.taker.tick()
    }

    /// Handles any bytes at the board's tick, behind those of the turns before, then runs to `until`. After
    /// want of memory the board is only dropped.
    pub fn turn(&mut self, bytes: &[u8], until: u64) -> Result<TurnOut, AllocError>
        requires later { self.old.station.rig.controller.tick ≤ until }
        requires until { until < tick_limit }
        ensures tick { OnOk result (self.new.station.rig.controller.tick ≡ until) }
        ensures turn { IfOk result (λ out. IsTurn self.old bytes.now until self.new out.pulses.items out.blocks.items) }
        ensures state { IfOk result (λ out. out.state ≡ self.new.station.rig.controller.state) }
    {
        let before = self.taker.state();
        let from = self.taker.tick();
        let mut blocks = Vec::new(self.alloc);
        keep(&mut self.left, bytes)?;
        let count = hear(
            &mut self.taker,
            &mut self.scanner,
            self.left.as_slice(),
            &mut blocks,
        )?;
        forget_first(&mut self.left, count);
        let pulses = self.taker.pass(until, &mut blocks)?;
        self.taker.say_shut(before, from, until, &mut blocks)?;
        Ok(TurnOut {
            pulses,
            blocks,
            state: self.taker.state(),
        })
    }
}

/// Adds bytes to those that are kept; most turns bring none.
fn keep(left: &mut Vec<u8>, bytes: &[u8]) -> Result<(), AllocError>
    ensures { OnOk result (left.new.items ≡ left.old.items ++ bytes.now) }
{
    if !bytes.is_empty() {
        left.extend_from_slice(bytes)?;
    }
    Ok(())
}

/// Drops the first bytes, so many.
fn forget_first(bytes: &mut Vec<u8>, count: usize)
    requires { count ≤ length bytes.old.items }
    ensures { bytes.new.items ≡ drop count bytes.old.items }
{
    if count > 0 {
        drop(bytes.drain(..count));
    }
}

/// The law of steps: where the triples that come are fair, each stepper's pulses, each at exactly its tick,
/// are a prefix of the ticks of the triples that it took; of a stepper that was halted, the rest of those
/// before its next reset is left out. While the board runs, what is left of a stepper that isn't halted
/// pends.
pub fn keeps_in_step()
    ensures first { (b : BoardDef) (pins : List (List Level)) → KeptPart (new_rig b pins).controller [] [] }
    ensures takes { (r : Rig) (ms : List Meant) (made meant : List Pulse) → KeptPart r.controller made meant →
        AreFair r ms → KeptPart (takes_all r (commands_of ms)).rig.controller made (meant_behind r made meant ms) }
    ensures passes { (r : Rig) (t : ℕ) (made meant : List Pulse) → KeptPart r.controller made meant →
        KeptPart (passes r t).rig.controller (made ++ (passes r t).pulses) meant }
    ensures cut { (b : Controller) (made meant : List Pulse) → KeptPart b made meant → IsCut made meant }
    ensures whole { (b : Controller) (made meant : List Pulse) → KeptPart b made meant → b.state ≡ Running → (oid : ℕ) →
        is_halted (stepper_at b oid) ≡ false → only oid made ++ pending_at oid (stepper_at b oid) ≡ only oid meant }
{}

/// The law of contents: the content of a block holds one list of commands.
pub fn holds_one_list()
    ensures { (es : List Named) (content : List ℕ) (cs ds : List Cmd) → Holds es content cs → Holds es content ds →
        cs ≡ ds }
{}

/// The law of results: what a turn makes of some bytes is one board, with the same pulses and the same blocks.
pub fn has_one_result()
    ensures { (old : Simulated) (bytes : List ℕ) (to : ℕ) (new other : Simulated) (ps qs : List Pulse)
        (bs cs : List (ArrayVec ℕ)) → IsTurn old bytes to new ps bs → IsTurn old bytes to other qs cs →
        (new ≡ other) × (ps ≡ qs) × (bs ≡ cs) }
{}

/// The law of a turn: it takes the commands of the blocks that are accepted, in order, each once.
pub fn takes_each_once()
    ensures { (s : Station) (hs : List Heard) →
        (hears_all s hs).station.rig ≡ (takes_all s.rig (accepted_commands hs)).rig }
{}

/// The law of a shutdown: a board that is shut down makes no pulse, and stays shut down as it is; one that
/// shut down because a step came too late keeps a tick of that before its own.
pub fn stays_shut()
    ensures turn { (s : Station) (hs : List Heard) (to : ℕ) → is_shut s.rig.controller.state ≡ true →
        ((turn s hs to).pulses ≡ []) × ((turn s hs to).station.rig.controller.state ≡ s.rig.controller.state) }
    ensures late { (s : Station) (hs : List Heard) (to : ℕ) → CameLate s.rig.controller.state →
        CameLate (turn s hs to).station.rig.controller.state }
{}
