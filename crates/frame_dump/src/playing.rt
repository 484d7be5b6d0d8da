//! What a simulated board makes of a trace.

ghost use Rattle.std.specs.Prelude.{◌≡◌, ℕ, ◌<◌, ◌≤◌, ◌++◌, [], IfOk, OnOk};
ghost use Rattle.plan_types.specs.Clock.{board_tick, clock_of, tick_limit};
ghost use Rattle.plan_types.specs.Machines.{IsValidBoard};
ghost use Rattle.frame_dump.specs.Replays.{IsReplay};
ghost use Rattle.frame_dump.specs.Played.{PlaysTurn, run_until};
ghost use Rattle.frame_dump.specs.Traces.{AreTurns};

use crate::trace::{Trace, TraceTurn};
use board_sim::Board;
use plan_types::{BoardDef, BoardState, Pulse};
use std::alloc::{AllocError, Global};

/// What a board makes of a trace: its pulses, with object ids as numbers of steppers, and its state in the end.
#[derive(Drop)]
pub struct Replayed {
    pub pulses: Vec<Pulse>,
    pub state: BoardState,
}

/// How many turns a board runs behind the last one of a trace.
const TURNS_BEHIND: u64 = 1_001;

/// The turn up to which a board runs behind this one.
fn next_turn(turn: u64, rest: &[TraceTurn]) -> u64
    requires { turn ≤ 1000000000 }
    ensures { result ≡ run_until turn rest.now }
{
    match rest {
        [next, ..] => next.turn,
        [] => turn + TURNS_BEHIND,
    }
}

/// The tick up to which a board runs behind a turn.
fn tick_behind(board: &BoardDef, turn: u64, rest: &[TraceTurn]) -> u64
    requires board { IsValidBoard board.now }
    requires turn { turn ≤ 1000000000 }
    requires rest { (low : ℕ) × AreTurns low rest.now }
    ensures tick { result ≡ board_tick (clock_of board.now) (run_until turn rest.now) }
    ensures small { result < tick_limit }
{
    board.clock().tick(next_turn(turn, rest))
}

/// Gives a board the bytes of a turn, and runs it to a tick; adds its pulses.
fn play_turn(
    simulated: &mut Board,
    bytes: &[u8],
    until: u64,
    pulses: &mut Vec<Pulse>,
) -> Result<BoardState, AllocError>
    requires later { simulated.old.station.rig.controller.tick ≤ until }
    requires until { until < tick_limit }
    ensures tick { OnOk result (simulated.new.station.rig.controller.tick ≡ until) }
    ensures turn { OnOk result
        (PlaysTurn simulated.old bytes.now until simulated.new pulses.old.items pulses.new.items) }
    ensures state { IfOk result (λ state. state ≡ simulated.new.station.rig.controller.state) }
{
    let out = simulated.turn(bytes, until)?;
    pulses.extend_from_slice(out.pulses.as_slice())?;
    Ok(out.state)
}

/// Gives a trace to a new board whose pins are all low: it takes the bytes of each turn at its own tick of
/// that turn, and runs for 1,001 turns behind the last one.
pub fn replay(alloc: Global, board: &BoardDef, trace: &Trace) -> Result<Replayed, AllocError>
    requires { IsValidBoard board.now }
    ensures { IfOk result (λ replay. IsReplay board.now trace.now replay.pulses.items replay.state) }
{
    let mut simulated = Board::new(alloc, board, Vec::new(alloc))?;
    let mut pulses = Vec::new(alloc);
    let mut rest = trace.turns();
    let first = tick_behind(board, 0, rest);
    let mut state = play_turn(&mut simulated, &[], first, &mut pulses)?;
    while let [turn, others @ ..] = rest {
        let until = tick_behind(board, turn.turn, others);
        state = play_turn(&mut simulated, turn.bytes.as_slice(), until, &mut pulses)?;
        rest = others;
    }
    Ok(Replayed { pulses, state })
}
