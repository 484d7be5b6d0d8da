//! The machine of a configuration.

ghost use Rattle.std.specs.Prelude.{◌≡◌, ◌≢◌, ◌≤◌, ◌<◌, ◌+◌, ◌*◌, ◌%◌, ◌==◌, [], ◌∷◌, ◌++◌, length, All, AllPairs, true, IsTrue, IfSome, IfOk, Some, None, slice_index_or, count_by};
ghost use Rattle.std.specs.List.{list_all};
ghost use Rattle.plan_types.specs.Machines.{IsValidBoard, IsValidMachine};
ghost use Rattle.plan_types.specs.Valid.{IsValidGear};
ghost use Rattle.cfg_text.specs.Building as specs;
ghost use Rattle.cfg_text.specs.Building.{stepper_def, stepper_defs, axis_def, axis_on, motor_name, joined};
ghost use Rattle.cfg_lines.specs.Faults.{AnswersConfiguration};
ghost use Rattle.cfg_lines.specs.Items.{entry_fits};
ghost use Rattle.cfg_text.specs.Valid.{IsValidRange, IsAxisOn, IsStepperBehind, AreSteppersOn, NamesDiffer};
ghost use Rattle.cfg_text.specs.Reading.{axes, assembled, reading_of_entries, reading_of_uses};
ghost use Rattle.cfg_lines.specs.declared.section.Drive.TheVariants.{E};

use crate::holding::flag;
use crate::missing::{Range, first_missing, range_of};
use crate::seat::{Wire, boards_of, fan_of, find_wire, limited};
use crate::wiring::{Use, fault_of_wiring, pins_in_use};
use cfg_lines::fault::CfgFault;
use cfg_lines::first_pass::Pass;
use cfg_lines::item::Entry;
use cfg_lines::section::{Drive, Motor, Section, number};
use cfg_lines::table::Key;
use plan_types::{AxisDef, BoardDef, CfgKind, Gear, Listed, Machine, Name, StepperDef};
use std::alloc::Global;

/// The name of a stepper's section.
fn name_of(motor: Motor) -> Name
    ensures { result ≡ motor_name motor }
{
    let letter = match motor.drive {
        Drive::X => b'x',
        Drive::Y => b'y',
        Drive::Z => b'z',
        Drive::E => return extruder_name(motor.digit),
    };
    let digit = b'0' + motor.digit % 10;
    let text = [
        b's', b't', b'e', b'p', b'p', b'e', b'r', b'_', letter, digit,
    ];
    if motor.digit == 0 {
        Name::new(&text[..9])
    } else {
        Name::new(text.as_slice())
    }
}

fn extruder_name(digit: u8) -> Name
    ensures { result ≡ motor_name (record { drive = E; digit = digit }) }
{
    let text = [
        b'e',
        b'x',
        b't',
        b'r',
        b'u',
        b'd',
        b'e',
        b'r',
        b'0' + digit % 10,
    ];
    if digit == 0 {
        Name::new(&text[..8])
    } else {
        Name::new(text.as_slice())
    }
}

fn gear(entries: &[Entry], motor: Motor) -> Gear
    requires { list_all entry_fits entries.now ≡ true }
    ensures value { result ≡ specs.gear_of entries.now motor }
    ensures valid { IsValidGear result }
{
    let section = Section::Stepper(motor);
    let distance = limited(entries, &section, Key::RotationDistance);
    let microsteps = limited(entries, &section, Key::Microsteps);
    let full_steps = limited(entries, &section, Key::FullSteps);
    Gear {
        distance,
        steps: (microsteps * full_steps) as u32,
    }
}

/// How many of the steppers are a board's.
fn steppers_on(board: u8, steppers: &[StepperDef]) -> usize
    ensures value { result ≡ count_by (λ s. s.board == board) steppers.now }
    ensures few { result ≤ length steppers.now }
{
    let mut count = 0;
    let mut rest = steppers;
    while let [first, others @ ..] = rest {
        if first.board == board {
            count += 1;
        }
        rest = others;
    }
    count
}

/// A stepper with its two wires, behind others.
fn joined_stepper(
    entries: &[Entry],
    before: &[StepperDef],
    motor: Motor,
    step: Wire,
    dir: Wire,
) -> Result<StepperDef, CfgFault>
    requires fit { list_all entry_fits entries.now ≡ true }
    requires few { length before.now < 16 }
    ensures value { result ≡ joined entries.now before.now motor step dir }
    ensures board { IfOk result (λ s. s.board ≡ step.board) }
    ensures dir_board { IfOk result (λ s. dir.board ≡ step.board) }
    ensures oid { IfOk result (λ s. s.oid ≡ count_by (λ t. t.board == s.board) before.now) }
    ensures drive { IfOk result (λ s. s.drive < 4) }
    ensures gear { IfOk result (λ s. IsValidGear s.gear) }
    ensures step_pin { IfOk result (λ s. s.step_pin ≡ step.pin) }
    ensures dir_pin { IfOk result (λ s. s.dir_pin ≡ dir.pin) }
{
    if dir.board != step.board {
        return Err(CfgFault::At {
            line: dir.line,
            kind: CfgKind::BadValue,
        });
    }
    Ok(StepperDef {
        name: name_of(motor),
        board: step.board,
        oid: steppers_on(step.board, before) as u8,
        drive: number(motor.drive),
        gear: gear(entries, motor),
        step_pin: step.pin,
        dir_pin: dir.pin,
        inverted: dir.inverted,
    })
}

/// A stepper behind others.
fn stepper(
    entries: &[Entry],
    boards: &[BoardDef],
    before: &[StepperDef],
    motor: Motor,
) -> Result<StepperDef, CfgFault>
    requires fit { list_all entry_fits entries.now ≡ true }
    requires few { length before.now < 16 }
    requires few_boards { length boards.now ≤ 8 }
    requires boards { All IsValidBoard boards.now }
    ensures value { result ≡ stepper_def entries.now boards.now before.now motor }
    ensures valid { IfOk result (λ s. IsStepperBehind boards.now before.now s) }
{
    let step = find_wire(entries, boards, motor, Key::StepPin)?;
    let dir = find_wire(entries, boards, motor, Key::DirPin)?;
    joined_stepper(entries, before, motor, step, dir)
}

/// The steppers, in the order of their sections.
#[tactic(auto, using(crate::proofs::Answering::answers_fault))]
fn steppers(
    alloc: Global,
    entries: &[Entry],
    boards: &[BoardDef],
    motors: &[Motor],
) -> Result<Listed<StepperDef>, CfgFault>
    requires fit { list_all entry_fits entries.now ≡ true }
    requires few { length motors.now ≤ 16 }
    requires few_boards { length boards.now ≤ 8 }
    requires boards { All IsValidBoard boards.now }
    ensures value { AnswersConfiguration result (stepper_defs entries.now boards.now [] motors.now) }
    ensures few { IfOk result (λ steppers. length steppers ≤ 16) }
    ensures valid { IfOk result (λ steppers. AreSteppersOn boards.now steppers) }
{
    let mut steppers = Listed::new(alloc);
    let mut rest = motors;
    while let [motor, others @ ..] = rest {
        let next = stepper(entries, boards, steppers.as_slice(), *motor)?;
        steppers.push(next).map_err(CfgFault::Memory)?;
        rest = others;
    }
    Ok(steppers)
}

/// An axis with its range and its endstop.
fn axis(
    entries: &[Entry],
    boards: &[BoardDef],
    range: Range,
    drive: Drive,
) -> Result<AxisDef, CfgFault>
    requires fit { list_all entry_fits entries.now ≡ true }
    requires few_boards { length boards.now ≤ 8 }
    requires boards { All IsValidBoard boards.now }
    requires range { IsValidRange range }
    ensures value { result ≡ axis_def entries.now boards.now range drive }
    ensures valid { IfOk result (λ a. IsAxisOn boards.now a) }
{
    let motor = Motor { drive, digit: 0 };
    let wire = find_wire(entries, boards, motor, Key::EndstopPin)?;
    let speed = limited(entries, &Section::Stepper(motor), Key::HomingSpeed);
    Ok(AxisDef {
        min: range.low,
        max: range.high,
        endstop: range.endstop,
        speed,
        board: wire.board,
        pin: wire.pin,
        pressed: !wire.inverted,
    })
}

/// The axes x, y and z.
fn all_axes(entries: &[Entry], boards: &[BoardDef]) -> Result<[AxisDef; 3], CfgFault>
    requires fit { list_all entry_fits entries.now ≡ true }
    requires few_boards { length boards.now ≤ 8 }
    requires boards { All IsValidBoard boards.now }
    ensures value { result ≡ axes entries.now boards.now }
    ensures valid { IfOk result (λ axes. All (IsAxisOn boards.now) axes) }
{
    let x = range_of(entries, Drive::X)?;
    let y = range_of(entries, Drive::Y)?;
    let z = range_of(entries, Drive::Z)?;
    Ok([
        axis(entries, boards, x, Drive::X)?,
        axis(entries, boards, y, Drive::Y)?,
        axis(entries, boards, z, Drive::Z)?,
    ])
}

/// The machine of these boards.
#[tactic(auto, using(crate::proofs::Answering::answers_fault, crate::proofs::Parts::stepper_of_machine, crate::proofs::Parts::axis_of_machine))]
fn assemble(alloc: Global, pass: &Pass, boards: Listed<BoardDef>) -> Result<Machine, CfgFault>
    requires fit { list_all entry_fits pass.now.entries.items ≡ true }
    requires few { length pass.now.steppers.items ≤ 16 }
    requires few_boards { length boards ≤ 8 }
    requires some_boards { 0 < length boards }
    requires boards { All IsValidBoard boards }
    requires boards_differ { NamesDiffer boards }
    ensures valid { IfOk result (λ machine. IsValidMachine machine) }
    ensures value { AnswersConfiguration result
        (assembled pass.now.entries.items pass.now.steppers.items pass.now.passed boards) }
{
    let entries = pass.entries.as_slice();
    let axes = all_axes(entries, boards.as_slice())?;
    let steppers = steppers(alloc, entries, boards.as_slice(), pass.steppers.as_slice())?;
    let fan = fan_of(entries, boards.as_slice())?;
    let printer = Section::Printer;
    Ok(Machine {
        corexy: flag(entries, &printer, Key::Kinematics),
        v: limited(entries, &printer, Key::MaxVelocity),
        a: limited(entries, &printer, Key::MaxAccel),
        scv: limited(entries, &printer, Key::SquareCornerVelocity),
        cruise: limited(entries, &printer, Key::MinimumCruiseRatio) as u32,
        homed: flag(entries, &Section::Simulation, Key::StartHomed),
        boards,
        steppers,
        axes,
        fan,
        passed: pass.passed,
    })
}

/// The faults of the whole, in their order, or the machine.
#[tactic(auto, using(crate::proofs::Answering::answers_fault))]
fn build_with(alloc: Global, pass: &Pass, uses: &[Use]) -> Result<Machine, CfgFault>
    requires fit { list_all entry_fits pass.now.entries.items ≡ true }
    requires few { length pass.now.steppers.items ≤ 16 }
    requires few_boards { length pass.now.boards.items ≤ 8 }
    requires boards_differ { AllPairs (λ p q. p ≢ q) pass.now.boards.items }
    requires few_pins { length uses.now ≤ 49 }
    ensures valid { IfOk result (λ machine. IsValidMachine machine) }
    ensures value { AnswersConfiguration result
        (reading_of_uses pass.now.entries.items pass.now.boards.items pass.now.steppers.items
        pass.now.passed uses.now) }
{
    let entries = pass.entries.as_slice();
    let names = pass.boards.as_slice();
    if let Some(fault) = fault_of_wiring(names, entries, uses) {
        return Err(fault);
    }
    if let Some(fault) = first_missing(entries, names, pass.steppers.as_slice()) {
        return Err(fault);
    }
    let boards = boards_of(alloc, entries, uses, names).map_err(CfgFault::Memory)?;
    assemble(alloc, pass, boards)
}

/// The machine of what the lines say, or the first fault of the whole.
pub fn build(alloc: Global, pass: &Pass) -> Result<Machine, CfgFault>
    requires fit { list_all entry_fits pass.now.entries.items ≡ true }
    requires few { length pass.now.steppers.items ≤ 16 }
    requires few_boards { length pass.now.boards.items ≤ 8 }
    requires boards_differ { AllPairs (λ p q. p ≢ q) pass.now.boards.items }
    ensures valid { IfOk result (λ machine. IsValidMachine machine) }
    ensures value { AnswersConfiguration result
        (reading_of_entries pass.now.entries.items pass.now.boards.items pass.now.steppers.items pass.now.passed) }
{
    let entries = pass.entries.as_slice();
    let uses = pins_in_use(alloc, entries, pass.steppers.as_slice()).map_err(CfgFault::Memory)?;
    build_with(alloc, pass, uses.as_slice())
}
