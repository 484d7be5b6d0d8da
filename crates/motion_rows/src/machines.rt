//! The machines of the rows: one stepper on the board `mcu`, whose endstops are on its second pin.

ghost use Rattle.std.specs.Prelude.{◌≡◌, ◌≢◌, ◌≤◌, length, IfOk, pos, true};
ghost use Rattle.plan_types.specs.Machines.{IsValidBoard, IsValidFreq, IsValidMachine};

use plan_types::{AxisDef, BoardDef, Gear, Listed, Machine, Name, StepperDef};
use std::alloc::{AllocError, Global};

/// A board with two pins.
fn board(
    alloc: Global,
    name: &[u8],
    freq: u32,
    start: u64,
    drifting: bool,
    first: &[u8],
    second: &[u8],
) -> Result<BoardDef, AllocError>
    requires name { length name.now ≤ 16 }
    requires freq { IsValidFreq freq }
    requires start { start ≤ 1_000 }
    requires first { length first.now ≤ 16 }
    requires second { length second.now ≤ 16 }
    requires differ { first.now ≢ second.now }
    ensures valid { IfOk result (λ b. IsValidBoard b) }
    ensures name { IfOk result (λ b. b.name ≡ name.now) }
    ensures pins { IfOk result (λ b. length b.pins ≡ 2) }
{
    let mut pins = Listed::new(alloc);
    pins.push(Name::new(first))?;
    pins.push(Name::new(second))?;
    Ok(BoardDef {
        name: Name::new(name),
        freq,
        start,
        slots: 1_024,
        drift: if drifting { 100 } else { 0 },
        pins,
    })
}

/// The stepper of x.
fn stepper() -> StepperDef
    ensures board { result.board ≡ 0 }
    ensures oid { result.oid ≡ 0 }
    ensures drive { result.drive ≡ 0 }
    ensures distance { result.gear.distance ≡ 40000000 }
    ensures steps { result.gear.steps ≡ 3200 }
    ensures step_pin { result.step_pin ≡ 0 }
    ensures dir_pin { result.dir_pin ≡ 1 }
{
    StepperDef {
        name: Name::new(b"stepper_x"),
        board: 0,
        oid: 0,
        drive: 0,
        gear: Gear {
            distance: 40_000_000,
            steps: 3_200,
        },
        step_pin: 0,
        dir_pin: 1,
        inverted: false,
    }
}

/// An axis whose endstop is on a board's second pin.
fn axis(board: u8) -> AxisDef
    ensures { result
        ≡ record {
          min = pos 0;
          max = pos 200000000;
          endstop = pos 0;
          speed = 10000000;
          board = board;
          pin = 1;
          pressed = true;
        } }
{
    AxisDef {
        min: 0,
        max: 200_000_000,
        endstop: 0,
        speed: 10_000_000,
        board,
        pin: 1,
        pressed: true,
    }
}

/// A machine with one board.
pub fn one_board(alloc: Global, drifting: bool) -> Result<Machine, AllocError>
    ensures valid { IfOk result (λ m. IsValidMachine m) }
{
    let mut boards = Listed::new(alloc);
    boards.push(board(alloc, b"mcu", 16_000_000, 0, drifting, b"PB0", b"PC0")?)?;
    let mut steppers = Listed::new(alloc);
    steppers.push(stepper())?;
    Ok(Machine {
        corexy: false,
        v: 300_000_000,
        a: 3_000_000_000,
        scv: 5_000_000,
        cruise: 0,
        homed: false,
        boards,
        steppers,
        axes: [axis(0), axis(0), axis(0)],
        fan: None,
        passed: 0,
    })
}

/// A machine with a second board, on which the endstop of x is.
pub fn two_boards(alloc: Global) -> Result<Machine, AllocError>
    ensures valid { IfOk result (λ m. IsValidMachine m) }
{
    let mut boards = Listed::new(alloc);
    boards.push(board(alloc, b"mcu", 16_000_000, 0, false, b"PB0", b"PC0")?)?;
    boards.push(board(alloc, b"tool", 48_000_000, 1_000, false, b"PA0", b"PA1")?)?;
    let mut steppers = Listed::new(alloc);
    steppers.push(stepper())?;
    Ok(Machine {
        corexy: false,
        v: 300_000_000,
        a: 3_000_000_000,
        scv: 5_000_000,
        cruise: 0,
        homed: false,
        boards,
        steppers,
        axes: [axis(1), axis(0), axis(0)],
        fan: None,
        passed: 0,
    })
}
