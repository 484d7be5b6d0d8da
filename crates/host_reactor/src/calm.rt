//! A running turn in which nothing is ordered, nothing but pulses is told, and what is known stays as it is.

ghost use Rattle.std.specs.Prelude.{◌≡◌, true, IfOk};
ghost use Rattle.host_reactor.specs.Calm.{homes_none, is_none, says_none, all_say_none, tells_start, is_still, is_calm, calm_controls};

use crate::OutOfMemory;
use crate::free::is_quiet;
use crate::ordered::{Begun, Known};
use axis_homing::Homing;
use board_asking::Asking;
use clock_line::Lines;
use msg_code::{Control, State};
use plan_types::Listed;
use std::alloc::Global;

/// Whether no section homes.
fn homes_none(homing: &Option<Homing>) -> bool
    ensures { result ≡ homes_none homing.now }
{
    match homing {
        None => true,
        Some(_) => false,
    }
}

fn is_none(numbers: &[u64]) -> bool
    ensures { result ≡ is_none numbers.now }
{
    match numbers {
        [] => true,
        [_first, ..] => false,
    }
}

/// Whether a link has its memory, its board is not shut down, and no asking for a clock was put on its line.
fn says_none(state: &State) -> bool
    ensures { result ≡ says_none state.now }
{
    !state.out && state.shut.is_none() && is_none(state.asked.as_slice())
}

/// Whether all links say none of this.
fn all_say_none(states: &[State]) -> bool
    ensures { result ≡ all_say_none states.now }
{
    match states {
        [] => true,
        [first, rest @ ..] => says_none(first) && all_say_none(rest),
    }
}

/// Whether a section's line stands in a turn.
fn tells_start(k: u64, begun: &Option<Begun>) -> bool
    ensures { result ≡ tells_start k begun.now }
{
    match begun {
        None => false,
        Some(begun) => begun.turn == k,
    }
}

/// Whether the run goes on, no asking is out, nothing homes, and no end was told.
pub fn is_still(r: &Known) -> bool
    ensures { result ≡ is_still r.now }
{
    is_quiet(r) && homes_none(&r.homing) && r.stopped.is_none()
}

/// Whether no asking begins where the reactor is still, and nothing but pulses is told.
pub fn is_calm(r: &Known, k: u64, states: &[State]) -> bool
    requires { is_still r.now ≡ true }
    ensures { result ≡ is_calm r.now k states.now }
{
    !tells_start(k, &r.begun) && all_say_none(states) && k % 1_000 != 0
}

/// The controls of a calm turn. They stand in a list whose room is used again.
pub fn calm_controls(
    alloc: Global,
    k: u64,
    clocks: &[Lines],
    askings: &[Asking],
    room: Vec<Control>,
) -> Result<Listed<Control>, OutOfMemory>
    ensures { IfOk result (λ c. c ≡ calm_controls k clocks.now askings.now) }
{
    let mut out = room;
    out.clear();
    let mut lines = clocks;
    let mut rest = askings;
    while let [_first, behind @ ..] = rest {
        if let [_line, others @ ..] = lines {
            out.push(Control {
                turn: k,
                commands: Listed::new(alloc),
                connected: true,
                end: false,
            })?;
            lines = others;
        }
        rest = behind;
    }
    Ok(Listed::of(out))
}
