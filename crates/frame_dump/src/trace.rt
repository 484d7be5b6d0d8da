//! A trace.

ghost use Rattle.std.specs.Prelude.{◌≡◌};
ghost use Rattle.frame_dump.specs.Traces.{AreTurns};

use plan_types::Listed;
use std::marker::Model;

/// The bytes that a line carried in a turn.
#[derive(Drop)]
pub struct TraceTurn {
    pub turn: u64,
    pub bytes: Listed<u8>,
}

/// The turns of a trace, whose numbers rise and are at most 10^9. Contracts see their list.
#[derive(Drop)]
pub struct Trace {
    turns: Vec<TraceTurn>,
}

impl Model for Trace {
    ghost use Rattle.std.specs.Prelude.{List};
    ghost use Rattle.frame_dump.specs.declared.trace.TraceTurn.{TraceTurn};
    ghost use Rattle.frame_dump.specs.Traces.{AreTurns};

    ghost Value = { List TraceTurn };

    ghost view = { λ t. t.turns.items };

    ghost invariant = { λ t. AreTurns 0 t.turns.items };
}

impl Trace {
    /// The trace of these turns.
    pub fn of(turns: Vec<TraceTurn>) -> Trace
        requires { AreTurns 0 turns.items }
        ensures { result ≡ turns.items }
    {
        Trace { turns }
    }

    /// The turns, in order.
    pub fn turns(&self) -> &[TraceTurn]
        ensures turns { result.now ≡ self.now }
        ensures rise { AreTurns 0 self.now }
    {
        self.turns.as_slice()
    }
}
