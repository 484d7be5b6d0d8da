//! The state before the first word.

ghost use Rattle.std.specs.Prelude.{◌≡◌, ◌≤◌};
ghost use Rattle.plan_types.specs.Machines.{IsValidMachine, axis_at};
ghost use Rattle.gcode_state.specs.Sound.{IsWithin, IsLimits, IsSteady, IsSound};
ghost use Rattle.gcode_state.specs.Starts.{axis_from, initial};

use crate::state::{Axis, State};
use plan_types::{AxisDef, Machine};

/// The speed before the first F, in nm/s.
const FIRST_SPEED: u64 = 25_000_000;

fn first_axis(homed: bool, def: &AxisDef) -> Axis
    requires { IsLimits def.now }
    ensures value { result ≡ axis_from homed def.now }
    ensures steady { IsSteady result }
{
    Axis {
        min: def.min,
        max: def.max,
        endstop: def.endstop,
        homed,
        at: 0,
        reads: 0,
    }
}

/// The state before the first word.
#[tactic(auto, unfolding(crate::specs::Starts::initial))]
pub(crate) fn first_state(machine: &Machine) -> State
    requires { IsValidMachine machine.now }
    ensures value { result ≡ initial machine.now }
    ensures sound { IsSound result }
{
    State {
        top: machine.v,
        x: first_axis(machine.homed, &machine.axes[0]),
        y: first_axis(machine.homed, &machine.axes[1]),
        z: first_axis(machine.homed, &machine.axes[2]),
        e_at: 0,
        e_reads: 0,
        relative: false,
        relative_e: false,
        feed: 60 * machine.v.min(FIRST_SPEED),
        speed_factor: 100_000_000,
        e_factor: 100_000_000,
        acceleration: machine.a,
        count: 0,
        lines: 0,
    }
}
