//! Where the drives of a printer stand, by its kinematics.
//!
//! The conversions are those of Klipper's Kinematics.md and kinematics/corexy.py: each drive of a cartesian printer has
//! an axis of its own, and on a CoreXY printer the first two drive x + y and x - y.
#![tactic(auto)]

ghost use Rattle.std.specs.Prelude.{◌≡◌, ◌≤◌, ◌<◌, ◌^◌, ℕ, ℤ, pos, Bool, true, false, List, slice_index_or, unsigned_abs};
ghost use Rattle.plan_types.specs.Moves.{coordinate};
ghost use Rattle.kin_map.specs.Positions.{axis, IsLinear, TellsApart};

/// The coordinates of four drives at a position.
pub trait Kinematics {
    ghost corexy: { Bool };

    /// The coordinate of a drive at a position of x, y, z and e, in nm.
    fn coordinate(&self, drive: u8, position: &[i64; 4]) -> i64
        requires drive_is { drive < 4 }
        requires near { (k : ℕ) → k < 4 → unsigned_abs (axis position.now k) ≤ 2 ^ 60 }
        ensures { result ≡ coordinate corexy drive position.now };

    ghost linear: { IsLinear (coordinate corexy) };

    ghost apart: { TellsApart (coordinate corexy) };
}

/// Each drive has an axis of its own.
#[derive(Clone, Copy)]
pub struct Cartesian;

/// The first two drives move x and y together.
#[derive(Clone, Copy)]
pub struct CoreXy;

impl Kinematics for Cartesian {
    ghost use Rattle.kin_map.specs.Laws.{cartesian-linear, cartesian-apart};

    ghost corexy = { false };

    ghost linear = { cartesian-linear };

    ghost apart = { cartesian-apart };

    fn coordinate(&self, drive: u8, position: &[i64; 4]) -> i64 {
        position[drive as usize]
    }
}

impl Kinematics for CoreXy {
    ghost use Rattle.kin_map.specs.Laws.{corexy-linear, corexy-apart};

    ghost corexy = { true };

    ghost linear = { corexy-linear };

    ghost apart = { corexy-apart };

    fn coordinate(&self, drive: u8, position: &[i64; 4]) -> i64 {
        match drive {
            0 => position[0] + position[1],
            1 => position[0] - position[1],
            _ => position[drive as usize],
        }
    }
}
