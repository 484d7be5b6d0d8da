//! What a stepper does of a part.

ghost use Rattle.std.specs.Prelude.{◌≡◌, ℕ, pos, ◌+◌, ◌*◌, ◌<◌, ◌≤◌, ◌^◌, ◌-ℤ◌, unsigned_abs, slice_index_or};
ghost use Rattle.plan_types.specs.Clock.{tick_limit};
ghost use Rattle.plan_types.specs.Clock.{tick};
ghost use Rattle.plan_types.specs.Moves.{coordinate};
ghost use Rattle.plan_types.specs.Sections.{segment_of};
ghost use Rattle.plan_types.specs.Valid.{IsValidMove};
ghost use Rattle.section_plan.specs.Runs.{part_at};

use clock_line::LineTicks;
use kin_map::{Cartesian, CoreXy, Kinematics};
use plan_types::{Line, Move, Part, Segment};

/// A drive of a printer, and the clock line of its board.
#[derive(Clone, Copy)]
pub struct Drive {
    pub corexy: bool,
    pub number: u8,
    pub line: Line,
}

impl Drive {
    /// The coordinate at a position, in nm.
    fn coordinate(&self, position: &[i64; 4]) -> i64
        requires drive { self.now.number < 4 }
        requires near { (k : ℕ) → k < 4 → unsigned_abs (slice_index_or position.now k (pos 0)) ≤ 2 ^ 60 }
        ensures value { result ≡ coordinate self.now.corexy self.now.number position.now }
        ensures small { unsigned_abs result ≤ 2 ^ 61 }
    {
        if self.corexy {
            CoreXy.coordinate(self.number, position)
        } else {
            Cartesian.coordinate(self.number, position)
        }
    }

    /// By how much a move changes the coordinate, in nm.
    fn change(&self, one: &Move) -> i64
        requires drive { self.now.number < 4 }
        requires valid { IsValidMove one.now }
        ensures { result
            ≡ coordinate self.now.corexy self.now.number one.now.to
            -ℤ coordinate self.now.corexy self.now.number one.now.from }
    {
        self.coordinate(&one.to) - self.coordinate(&one.from)
    }

    /// The segment of a part that begins at a time in ns, with so many nm of its move before it.
    pub fn segment(&self, one: &Move, part: &Part, before: u64, begin: u128) -> Segment
        requires drive { self.now.number < 4 }
        requires valid { IsValidMove one.now }
        requires begun { self.now.line.at ≤ begin }
        requires begin_small { begin < 2 ^ 100 }
        requires small { tick self.now.line (begin + part.now.ns) < tick_limit }
        ensures { result
            ≡ segment_of self.now.corexy self.now.number self.now.line (part_at one.now part.now before begin) }
    {
        let start = self.line.tick(begin);
        let end = self.line.tick(begin + u128::from(part.ns));
        Segment {
            start,
            end,
            dur: end.saturating_sub(start),
            d: part.d,
            v0: part.v0,
            v1: part.v1,
            before,
            len: one.d,
            p0: self.coordinate(&one.from),
            dp: self.change(one),
        }
    }
}
