//! The printer on which a load is run.

ghost use Rattle.std.specs.Prelude.{◌≡◌, ◌+◌, ◌<◌, ◌≤◌, ◌++◌, ◌∷◌, [], length, IfOk, OnOk};
ghost use Rattle.plan_types.specs.Machines.{IsValidMachine};
ghost use Rattle.generated_load.specs.Printer as specs;

use crate::OutOfMemory;
use plan_types::{AxisDef, BoardDef, Gear, Listed, Machine, Name, StepperDef};
use std::alloc::Global;

/// Adds the pins of one axis: for steps, for the direction, and of its endstop.
fn push_pins(
    pins: &mut Listed<Name>,
    step: &[u8],
    direction: &[u8],
    endstop: &[u8],
) -> Result<(), OutOfMemory>
    requires step { length step.now ≤ 16 }
    requires direction { length direction.now ≤ 16 }
    requires endstop { length endstop.now ≤ 16 }
    ensures { OnOk result (pins.new ≡ pins.old ++ step.now ∷ direction.now ∷ endstop.now ∷ []) }
{
    pins.push(Name::new(step))?;
    pins.push(Name::new(direction))?;
    pins.push(Name::new(endstop))
}

/// The names of the board's pins, in the order in which steppers and endstops use them.
fn pins(alloc: Global) -> Result<Listed<Name>, OutOfMemory>
    ensures { IfOk result (λ pins. pins ≡ specs.load_board.pins) }
{
    let mut pins = Listed::new(alloc);
    push_pins(&mut pins, b"PB0", b"PB1", b"PC0")?;
    push_pins(&mut pins, b"PB2", b"PB3", b"PC1")?;
    push_pins(&mut pins, b"PB4", b"PB5", b"PC2")?;
    pins.push(Name::new(b"PB6"))?;
    pins.push(Name::new(b"PB7"))?;
    Ok(pins)
}

/// A stepper with the number of its coordinate and of its first pin, that goes so many nm in a turn.
fn stepper(name: &[u8], number: u8, distance: u64, pin: u8) -> StepperDef
    requires short { length name.now ≤ 16 }
    requires pin { pin < 10 }
    ensures { result ≡ specs.load_stepper name.now number distance pin }
{
    StepperDef {
        name: Name::new(name),
        board: 0,
        oid: number,
        drive: number,
        gear: Gear {
            distance,
            steps: 3_200,
        },
        step_pin: pin,
        dir_pin: pin + 1,
        inverted: false,
    }
}

/// The steppers of x, y, z and the extruder.
fn steppers(alloc: Global) -> Result<Listed<StepperDef>, OutOfMemory>
    ensures { IfOk result (λ steppers. steppers ≡ specs.load_machine.steppers) }
{
    let mut steppers = Listed::new(alloc);
    steppers.push(stepper(b"stepper_x", 0, 40_000_000, 0))?;
    steppers.push(stepper(b"stepper_y", 1, 40_000_000, 3))?;
    steppers.push(stepper(b"stepper_z", 2, 8_000_000, 6))?;
    steppers.push(stepper(b"extruder", 3, 32_000_000, 9))?;
    Ok(steppers)
}

/// The board.
fn board(alloc: Global) -> Result<BoardDef, OutOfMemory>
    ensures { IfOk result (λ board. board ≡ specs.load_board) }
{
    Ok(BoardDef {
        name: Name::new(b"mcu"),
        freq: 16_000_000,
        start: 0,
        slots: 1_024,
        drift: 0,
        pins: pins(alloc)?,
    })
}

/// An axis from 0 to 200 mm with its endstop at 0, on a pin.
fn axis(pin: u8) -> AxisDef
    ensures { result ≡ specs.load_axis pin }
{
    AxisDef {
        min: 0,
        max: 200_000_000,
        endstop: 0,
        speed: 10_000_000,
        board: 0,
        pin,
        pressed: true,
    }
}

/// The printer on which a load is run: a cartesian one with one board of 16 MHz, 200 mm a side, with its axes homed.
///
/// # Errors
///
/// Where memory for its lists is wanted.
pub fn load_machine(alloc: Global) -> Result<Machine, OutOfMemory>
    ensures value { IfOk result (λ machine. machine ≡ specs.load_machine) }
    ensures valid { IfOk result (λ machine. IsValidMachine machine) }
{
    let mut boards = Listed::new(alloc);
    boards.push(board(alloc)?)?;
    Ok(Machine {
        corexy: false,
        v: 300_000_000,
        a: 3_000_000_000,
        scv: 5_000_000,
        cruise: 500_000,
        homed: true,
        boards,
        steppers: steppers(alloc)?,
        axes: [axis(2), axis(5), axis(8)],
        fan: None,
        passed: 0,
    })
}
