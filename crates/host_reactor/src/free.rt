//! For how many turns a reactor has nothing to order.

ghost use Rattle.std.specs.Prelude.{◌≡◌, ◌<◌, ◌^◌};
ghost use Rattle.host_reactor.specs.Free.{is_running, rests, all_rest, any_drifts, is_quiet, before_homing, before_asking, clear_turns, free_turns};
ghost use Rattle.host_reactor.specs.Running.{all_ended};

use crate::ordered::{Known, Phase};
use crate::running::all_ended;
use axis_homing::Homing;
use board_asking::Asking;
use plan_types::{BoardDef, Machine};

fn is_running(phase: Phase) -> bool
    ensures { result ≡ is_running phase }
{
    match phase {
        Phase::Running => true,
        _ => false,
    }
}

/// Whether no asking of a board is out or waits.
fn all_rest(askings: &[Asking]) -> bool
    ensures { result ≡ all_rest askings.now }
{
    match askings {
        [] => true,
        [first, rest @ ..] => first.since.is_none() && !first.waits && all_rest(rest),
    }
}

/// Whether the clock of some board drifts.
pub fn any_drifts(boards: &[BoardDef]) -> bool
    ensures { result ≡ any_drifts boards.now }
{
    match boards {
        [] => false,
        [first, rest @ ..] => first.drift != 0 || any_drifts(rest),
    }
}

/// Whether the run goes on, and only the motion machine or a homing section can change that.
pub fn is_quiet(r: &Known) -> bool
    ensures { result ≡ is_quiet r.now }
{
    is_running(r.phase) && all_rest(r.askings.as_slice()) && !all_ended(r.done, r.reading)
}

/// The turns from this one on before the first controls of a homing section.
fn before_homing(homing: &Option<Homing>, turn: u64, count: u64) -> u64
    ensures { result ≡ before_homing homing.now turn count }
{
    match homing {
        None => count,
        Some(homing) => count.min(homing.start.saturating_sub(254).saturating_sub(turn)),
    }
}

/// The turns from this one on before the next asking of a drifting board.
fn before_asking(drifting: bool, turn: u64, count: u64) -> u64
    ensures { result ≡ before_asking drifting turn count }
{
    if drifting {
        count.min((1_000 - turn % 1_000) % 1_000)
    } else {
        count
    }
}

/// The turns from this one on whose notes have no news.
fn clear_turns(clear: u64, turn: u64) -> u64
    ensures { result ≡ clear_turns clear turn }
{
    if clear < turn {
        0
    } else {
        (clear - turn).saturating_add(1)
    }
}

/// For how many turns, from this one on, nothing is ordered while notes come without news.
pub fn free_turns(m: &Machine, r: &Known, turn: u64) -> u64
    requires { turn < 2 ^ 60 }
    ensures { result ≡ free_turns m.now r.now turn }
{
    if !is_quiet(r) {
        return 0;
    }
    let count = clear_turns(r.clear, turn);
    let count = before_homing(&r.homing, turn, count);
    before_asking(any_drifts(m.boards.as_slice()), turn, count)
}
