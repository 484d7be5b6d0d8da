//! The switchings of an output.

ghost use Rattle.std.specs.Prelude.{◌≡◌, ◌++◌, ◌<◌, ◌≤◌, ◌-◌, ◌*◌, ◌^◌, All, IfOk, false};
ghost use Rattle.plan_types.specs.Clock.{tick_limit};
ghost use Rattle.digital_out.specs.Refreshes.{off_behind};
ghost use Rattle.digital_out.specs.Rising.{Alternate, AreRising};

use crate::OutOfMemory;
use crate::carry::carry_out;
use crate::refresh::refreshed;
use crate::settle::changes;
use crate::want::Want;
use std::alloc::Global;

/// While an output is on, a further command comes behind so many turns.
const EVERY: u64 = 2_500;

/// The switchings of an output that is wanted like this, on a board with so many ticks a turn: the wants, and
/// behind the last one, where that is on, the off with which its refreshing ends. They come out of the
/// board's queue.
pub fn switchings(alloc: Global, wants: &[Want], ticks: u64) -> Result<Vec<Want>, OutOfMemory>
    requires some { 0 < ticks }
    requires few { ticks ≤ 200_000 }
    requires rise { AreRising wants.now }
    requires small { All (λ w. w.tick < tick_limit - 2 ^ 32) wants.now }
    requires alternate { Alternate false wants.now }
    ensures { IfOk result (λ outs. outs.items ≡ wants.now ++ off_behind (2_500 * ticks) wants.now) }
{
    let commands = refreshed(alloc, wants, EVERY * ticks)?;
    let carried = carry_out(alloc, &commands, ticks)?;
    changes(alloc, &carried)
}
