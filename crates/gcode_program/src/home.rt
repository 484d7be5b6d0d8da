//! The moves by which axes home.

ghost use Rattle.std.specs.Prelude.{◌≡◌, ◌<◌, ◌≤◌, unsigned_abs};
ghost use Rattle.plan_types.specs.Machines.{IsValidMachine, axis_at};
ghost use Rattle.gcode_program.specs.Homes.{homing_from, homing_move, homing_run, is_positive, placed_on};

use plan_types::{AxisDef, Machine, Move};

/// How far an axis runs to its switch at most.
fn homing_run(axis: &AxisDef) -> u64
    requires low { unsigned_abs axis.now.min ≤ 500_000_000 }
    requires high { unsigned_abs axis.now.max ≤ 500_000_000 }
    ensures value { result ≡ homing_run axis.now }
    ensures small { result ≤ 1_500_000_000 }
{
    3 * axis.max.abs_diff(axis.min) / 2
}

/// Whether an axis homes in the positive direction.
fn is_positive(axis: &AxisDef) -> bool
    ensures { result ≡ is_positive axis.now }
{
    axis.max.abs_diff(axis.endstop) < axis.endstop.abs_diff(axis.min)
}

/// Where an axis is said to stand before it homes.
fn homing_from(axis: &AxisDef, run: u64) -> i64
    requires run { run ≡ homing_run axis.now }
    requires small { run ≤ 1_500_000_000 }
    requires endstop { unsigned_abs axis.now.endstop ≤ 500_000_000 }
    ensures { result ≡ homing_from axis.now }
{
    let far = run as i64;
    if is_positive(axis) {
        axis.endstop - far
    } else {
        axis.endstop + far
    }
}

/// A position with another coordinate for one axis.
fn placed_on(at: &[i64; 4], axis: u8, place: i64) -> [i64; 4]
    ensures { result ≡ placed_on at.now axis place }
{
    [
        if axis == 0 { place } else { at[0] },
        if axis == 1 { place } else { at[1] },
        if axis == 2 { place } else { at[2] },
        at[3],
    ]
}

/// An axis of a machine.
fn axis_of(machine: &Machine, axis: u8) -> &AxisDef
    requires machine { IsValidMachine machine.now }
    requires axis { axis < 3 }
    ensures { result.now ≡ axis_at machine.now axis }
{
    &machine.axes[axis as usize]
}

/// Where everything is said to stand before an axis homes.
fn homing_start(at: &[i64; 4], axis: u8, def: &AxisDef, run: u64) -> [i64; 4]
    requires run { run ≡ homing_run def.now }
    requires small { run ≤ 1_500_000_000 }
    requires endstop { unsigned_abs def.now.endstop ≤ 500_000_000 }
    ensures { result ≡ placed_on at.now axis (homing_from def.now) }
{
    placed_on(at, axis, homing_from(def, run))
}

/// Where everything stands when an axis is at its switch.
fn homing_end(at: &[i64; 4], axis: u8, def: &AxisDef) -> [i64; 4]
    ensures { result ≡ placed_on at.now axis def.now.endstop }
{
    placed_on(at, axis, def.endstop)
}

/// Where everything stands behind the homing of an axis.
pub fn homed_at(machine: &Machine, at: &[i64; 4], axis: u8) -> [i64; 4]
    requires machine { IsValidMachine machine.now }
    requires axis { axis < 3 }
    ensures { result ≡ placed_on at.now axis (axis_at machine.now axis).endstop }
{
    homing_end(at, axis, axis_of(machine, axis))
}

/// The move by which an axis homes, from where everything stands.
pub fn homing_move(machine: &Machine, at: &[i64; 4], acceleration: u64, axis: u8) -> Move
    requires machine { IsValidMachine machine.now }
    requires axis { axis < 3 }
    ensures { result ≡ homing_move machine.now at.now acceleration axis }
{
    let def = axis_of(machine, axis);
    let run = homing_run(def);
    Move {
        from: homing_start(at, axis, def, run),
        to: homing_end(at, axis, def),
        d: run,
        v: def.speed.min(machine.v),
        a: acceleration,
    }
}
