//! The units of a busy stretch.

ghost use Rattle.std.specs.Prelude.{◌≡◌, ◌<◌, ◌^◌, [], OnOk, OnErr};
ghost use Rattle.link_work.specs.Held.{hold, late_by};

use crate::OutOfMemory;
use crate::stretch::Stretch;
use msg_code::Unit;
use std::alloc::Global;
use std::marker::Model;

/// A unit that was queued: its first tick, the turn of this tick, and by how many turns later than 250 turns
/// before that turn it was queued.
#[derive(Clone, Copy, Debug, PartialEq, Eq)]
pub struct HeldUnit {
    pub first: u64,
    pub due: u64,
    pub spill: u64,
}

/// The units that were queued in a busy stretch, in order.
#[derive(Drop)]
pub struct Held {
    units: Vec<HeldUnit>,
}

impl Model for Held {
    ghost use Rattle.std.specs.Prelude.{List};
    ghost use Rattle.link_work.specs.declared.held.HeldUnit.{HeldUnit};

    ghost Value = { List HeldUnit };

    ghost view = { λ h. h.units.items };
}

impl Held {
    /// No units.
    pub fn new(alloc: Global) -> Self
        ensures { result ≡ [] }
    {
        Held {
            units: Vec::new(alloc),
        }
    }

    /// The units of a turn are queued.
    pub fn hold(&mut self, turn: u64, units: &[Unit]) -> Result<(), OutOfMemory>
        requires { turn < 2 ^ 59 }
        ensures { OnOk result (self.new ≡ hold self.old turn units.now) }
    {
        for unit in units {
            self.units.push(held_unit(turn, unit))?;
        }
        Ok(())
    }

    /// The stretch ends.
    pub fn clear(&mut self)
        ensures { self.new ≡ [] }
    {
        self.units.clear();
    }

    /// Of the first unit with this first tick that may have come too late: how many turns were spoiled up to
    /// its due turn, and its spill.
    pub fn late_by(&self, lead: u64, stretch: &Stretch, first: u64) -> (u64, u64)
        requires { lead < 2 ^ 32 }
        ensures { result ≡ late_by lead stretch.now first self.now }
    {
        late_among(self.units.as_slice(), lead, stretch, first)
    }
}

ghost use Rattle.link_work.specs.Held.{held_unit, may_be_late};

/// A unit as it is queued in a turn.
fn held_unit(turn: u64, unit: &Unit) -> HeldUnit
    requires { turn < 2 ^ 59 }
    ensures { result ≡ held_unit turn unit.now }
{
    HeldUnit {
        first: unit.first,
        due: unit.due,
        spill: (turn + 250).saturating_sub(unit.due),
    }
}

/// Of some units, the first one with this first tick that may have come too late.
fn late_among(units: &[HeldUnit], lead: u64, stretch: &Stretch, first: u64) -> (u64, u64)
    requires { lead < 2 ^ 32 }
    ensures { result ≡ late_by lead stretch.now first units.now }
{
    for unit in units {
        if may_be_late(unit, lead, stretch, first) {
            return (stretch.spoiled(unit.due), unit.spill);
        }
    }
    (0, 0)
}

/// Whether a unit has this first tick, and more turns than the lead were spoiled up to its due turn, with its spill.
fn may_be_late(unit: &HeldUnit, lead: u64, stretch: &Stretch, first: u64) -> bool
    requires { lead < 2 ^ 32 }
    ensures { result ≡ may_be_late lead stretch.now first unit.now }
{
    unit.first == first && stretch.spoiled(unit.due).saturating_add(unit.spill) > lead
}
