//! Whether a board may take up a line.

ghost use Rattle.std.specs.Prelude.{◌≡◌, ℕ, ◌*◌, ◌^◌, ◌<◌, ◌↔◌, IsTrue};
ghost use Rattle.plan_types.specs.Clock.{turn_ns};
ghost use Rattle.plan_types.specs.Lines.{IsFit};
ghost use Rattle.section_stream.specs.Apart.{IsNearby};
ghost use Rattle.section_feed.specs.Boards.{IsLasting, MayTake};

use crate::steppers::begin_of;
use clock_line::{LineTicks, Lines};
use plan_types::Line;
use step_pack::max_error;

/// The turns of the next 500 years.
const MOST_TURNS: u64 = 1 << 44;

/// The clock of a line by which no tick of these years is too great is below this.
const MOST_CLOCK: u64 = 1 << 63;

/// The ticks of a line may stand still for so many turns where the next one holds.
const STILL: u64 = 6;

/// Whether a line that holds from a turn on is not too far behind the others, whose ticks do not stand still then.
fn is_nearby(lines: &Lines, line: &Line, turn: u64) -> bool
    requires lasting { IsLasting lines.now }
    requires fit { IsFit lines.now.first line.now (turn * turn_ns) }
    requires soon { turn < 2 ^ 44 }
    requires small { line.now.clock < 2 ^ 63 }
    ensures { IsTrue result ↔ IsNearby lines.now turn line.now }
{
    let error = max_error(lines.first().freq);
    let before = lines.tick(begin_of(turn.saturating_sub(1)));
    let tick = lines.tick(begin_of(turn));
    before + error <= tick && tick + error <= line.tick(begin_of(turn + STILL))
}

/// Whether a board may take up a line from the beginning of a turn on.
pub fn may_take(lines: &Lines, turn: u64, line: &Line) -> bool
    requires { IsLasting lines.now }
    ensures { IsTrue result ↔ MayTake lines.now turn line.now }
{
    if turn >= MOST_TURNS || line.clock >= MOST_CLOCK {
        return false;
    }
    lines.may_hold(begin_of(turn), line) && is_nearby(lines, line, turn)
}
