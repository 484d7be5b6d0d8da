use cfg_text::{CfgFault, read_config};
use plan_types::{AxisDef, BoardDef, Machine, Name, StepperDef};
use std::alloc::{AllocError, Global};
use std::test::Fail;

/// The printer of the worked examples: three axes and an extruder on one board.
const CARTESIAN: &str = "[printer]
kinematics: cartesian
max_velocity: 300
max_accel: 3000
square_corner_velocity: 5
[simulation]
start_homed: True
[mcu]
[simulated_mcu]
clock_freq: 16000000
[stepper_x]
step_pin: PB0
dir_pin: PB1
rotation_distance: 40
microsteps: 16
endstop_pin: PC0
position_endstop: 0
position_max: 200
homing_speed: 10
[stepper_y]
step_pin: PB2
dir_pin: PB3
rotation_distance: 40
microsteps: 16
endstop_pin: PC1
position_endstop: 0
position_max: 200
homing_speed: 10
[stepper_z]
step_pin: PB4
dir_pin: PB5
rotation_distance: 8
microsteps: 16
endstop_pin: PC2
position_endstop: 0
position_max: 200
homing_speed: 10
[extruder]
step_pin: PB6
dir_pin: PB7
rotation_distance: 32
microsteps: 16
";

/// A printer as a user of Klipper writes it, with much that is passed over.
const SAMPLE: &str = "# A cartesian printer with one board, homed at the start.
[printer]
kinematics: cartesian
max_velocity: 300
max_accel: 3000
max_z_velocity: 5
max_z_accel: 100
square_corner_velocity: 5

[mcu]
serial: /dev/serial/by-id/usb-Klipper_stm32f103xe-if00

[simulated_mcu]
clock_freq: 72000000

[simulation]
start_homed: True

[stepper_x]
step_pin: PB13
dir_pin: !PB12
enable_pin: !PB14
microsteps: 16
rotation_distance: 40
endstop_pin: ^PC0
position_endstop: 0
position_max: 235
homing_speed: 50

[stepper_y]
step_pin: PB10
dir_pin: !PB2
enable_pin: !PB11
microsteps: 16
rotation_distance: 40
endstop_pin: ^PC1
position_endstop: 0
position_max: 235
homing_speed: 50

[stepper_z]
step_pin: PB0
dir_pin: PC5
enable_pin: !PB1
microsteps: 16
rotation_distance: 8
endstop_pin: ^PC2
position_endstop: 0.0
position_max: 250

[extruder]
max_extrude_only_distance: 100.0
step_pin: PB3
dir_pin: !PB4
enable_pin: !PD2
microsteps: 16
rotation_distance: 33.500
nozzle_diameter: 0.400
filament_diameter: 1.750
heater_pin: PC8
sensor_type: EPCOS 100K B57560G104F
sensor_pin: PA0
control: pid
pid_Kp: 21.527
pid_Ki: 1.063
pid_Kd: 108.982
min_temp: 0
max_temp: 250

[heater_bed]
heater_pin: PC9
sensor_type: EPCOS 100K B57560G104F
sensor_pin: PC3
control: pid
pid_Kp: 54.027
pid_Ki: 0.770
pid_Kd: 948.182
min_temp: 0
max_temp: 130

[fan]
pin: PC6
";

/// What it reads as.
const SAMPLE_READS: &str = "false 300000000 3000000000 5000000 500000 true 20
board mcu 72000000 0 1024 0 PB13 PB12 PC0 PB10 PB2 PC1 PB0 PC5 PC2 PB3 PB4 PC6
stepper_x 0 0 0 40000000 3200 0 1 true
stepper_y 0 1 1 40000000 3200 3 4 true
stepper_z 0 2 2 8000000 3200 6 7 false
extruder 0 3 3 33500000 3200 9 10 true
axis 0 235000000 0 50000000 0 2 true
axis 0 235000000 0 50000000 0 5 true
axis 0 250000000 0 5000000 0 8 true";

/// A line of the printer above and what stands in its place, or 43 and what stands behind it, and how that reads.
const CHANGES: [(usize, &str, &str); 79] = [
    (1, "max_velocity: 5\n[printer]", "1 BadLine"),
    (3, "max_velocity 300", "3 BadLine"),
    (3, "max_velocity: 300\n  more", "4 BadLine"),
    (3, ": 300", "3 BadLine"),
    (2, "[printer\nkinematics: cartesian", "2 BadLine"),
    (6, "[simulation]\n more", "7 BadLine"),
    (7, "start_homed: True\n[heater_bed]\n more", "9 BadLine"),
    (
        7,
        "start_homed: True\nserial: a\n  b # c\n\n  d: e\nmove: 5",
        "read",
    ),
    (7, "start_homed: True\n[heater_bed]\nno option", "9 BadLine"),
    (2, "kinematics: delta", "2 BadValue"),
    (7, "start_homed: true", "7 BadValue"),
    (14, "rotation_distance: 40mm", "14 BadValue"),
    (14, "rotation_distance: 1234567890", "14 BadValue"),
    (14, "rotation_distance: .", "14 BadValue"),
    (15, "microsteps: 3", "15 BadValue"),
    (15, "microsteps: 16.5", "15 BadValue"),
    (15, "microsteps: 16.0", "read"),
    (
        15,
        "microsteps: 16\nfull_steps_per_rotation: 1.5",
        "16 BadValue",
    ),
    (10, "clock_freq: 16000000\ndrift_ppm: 201", "11 OutOfLimit"),
    (10, "clock_freq: 16000000\ndrift_ppm: -201", "11 OutOfLimit"),
    (10, "clock_freq: 16000000\ndrift_ppm: 0.5", "11 BadValue"),
    (10, "clock_freq: 16000000\ndrift_ppm: 200.0", "read"),
    (12, "step_pin: a.b:PB0", "12 BadValue"),
    (12, "step_pin: ABCDEFGHIJKLMNOPQ", "12 BadValue"),
    (16, "endstop_pin: probe:z_virtual_endstop", "16 BadValue"),
    (12, "step_pin:", "12 BadValue"),
    (
        43,
        "[stepper_x]\nmicrosteps: 32\ngear_ratio: 3:1",
        "45 BadValue",
    ),
    (14, "rotation_distance: 0", "14 OutOfLimit"),
    (3, "max_velocity: 1000.000001", "3 OutOfLimit"),
    (3, "max_velocity: -1", "3 OutOfLimit"),
    (3, "max_velocity: 1000.0000009", "read"),
    (4, "max_accel: 99.999999", "4 OutOfLimit"),
    (5, "minimum_cruise_ratio: 1", "5 OutOfLimit"),
    (5, "minimum_cruise_ratio: 0.999999", "read"),
    (5, "minimum_cruise_ratio: -0.000001", "5 OutOfLimit"),
    (10, "clock_freq: 16000500", "10 OutOfLimit"),
    (10, "clock_freq: 999000", "10 OutOfLimit"),
    (10, "clock_freq: 16000000.5", "10 BadValue"),
    (10, "start_clock: 1099511627777", "10 OutOfLimit"),
    (10, "start_clock: 1099511627776", "read"),
    (10, "start_clock: 12345678901234", "10 BadValue"),
    (10, "move_slots: 63", "10 OutOfLimit"),
    (10, "move_slots: 4097", "10 OutOfLimit"),
    (18, "position_max: 500.000001", "18 OutOfLimit"),
    (19, "homing_speed: 0", "19 OutOfLimit"),
    (
        43,
        "[mcu a]\n[mcu b]\n[mcu c]\n[mcu d]\n[mcu e]\n[mcu f]\n[mcu g]\n[mcu a]\n[mcu h]",
        "51 OutOfLimit",
    ),
    (
        43,
        "[mcu a]\n[mcu b]\n[mcu c]\n[mcu d]\n[mcu e]\n[mcu f]\n[mcu g]\n[mcu mcu]",
        "read",
    ),
    (
        43,
        "[stepper_x1]\n[stepper_x2]\n[stepper_x3]\n[stepper_x4]\n[stepper_x5]\n[stepper_x6]\n[stepper_x7]\n[stepper_y1]\n[stepper_y2]\n[stepper_y3]\n[stepper_y4]\n[stepper_y5]\n[stepper_y6]\n[stepper_y7]",
        "55 OutOfLimit",
    ),
    (12, "step_pin: tool:PB0", "12 UnknownBoard"),
    (43, "[simulated_mcu tool]", "43 UnknownBoard"),
    (43, "[simulated_mcu tool]\n[mcu tool]", "read"),
    (13, "dir_pin: PB0", "13 Twice"),
    (22, "dir_pin: !mcu:PB1", "22 Twice"),
    (25, "endstop_pin: PC0", "read"),
    (25, "endstop_pin: PB7", "40 Twice"),
    (12, "step_pin: PB6\nstep_pin: PB0", "read"),
    (13, "dir_pin: tool:PB1\n[mcu tool]", "13 BadValue"),
    (3, "", "1 Missing"),
    (1, "[other]", "0 Missing"),
    (8, "", "9 UnknownBoard"),
    (8, "[mcu tool]", "9 UnknownBoard"),
    (14, "", "11 Missing"),
    (16, "", "11 Missing"),
    (20, "[stepper_y1]", "0 Missing"),
    (38, "[extruder]\n[stepper_x2]", "38 Missing"),
    (
        43,
        "[stepper_z3]\nstep_pin: PA0\ndir_pin: PA1\nmicrosteps: 1",
        "43 Missing",
    ),
    (41, "", "38 Missing"),
    (18, "position_max: 0.999999", "18 OutOfLimit"),
    (18, "position_max: 1", "read"),
    (17, "position_endstop: 200.000001", "18 OutOfLimit"),
    (
        27,
        "position_min: -1\nposition_max: 200\nposition_endstop: -1.000001",
        "28 OutOfLimit",
    ),
    (26, "position_endstop: 123456789", "27 OutOfLimit"),
    (
        18,
        "position_max: 0\n[stepper_y]\nmicrosteps: 5",
        "20 BadValue",
    ),
    (
        18,
        "position_max: 0\n[stepper_y]\ndir_pin: tool:PB9",
        "20 UnknownBoard",
    ),
    (
        18,
        "position_max: 0\n[extruder2]\n[stepper_y3]",
        "20 Missing",
    ),
    (3, "step_pin: nowhere:P", "1 Missing"),
    (
        41,
        "dir_pin: PB6\n[mcu]\n[stepper_x]\nstep_pin: tool:P",
        "13 BadValue",
    ),
    (
        41,
        "[simulated_mcu ebb]\n[stepper_x]\nstep_pin: PB6",
        "41 UnknownBoard",
    ),
    (12, "rotation_distance: 0\nno option", "12 OutOfLimit"),
];

/// The same, of sections of a fan.
const FANS: [(usize, &str, &str); 4] = [
    (43, "[fan]", "43 Missing"),
    (43, "[fan]\npin: PB0", "44 Twice"),
    (43, "[fan]\npin: PC0", "read"),
    (43, "[fan]\npin: a:PD0", "44 UnknownBoard"),
];

/// The printer's text with another line.
pub fn changed(alloc: Global, place: usize, line: &str) -> Result<String, AllocError> {
    let mut text = String::new(alloc);
    for (index, old) in CARTESIAN.lines().enumerate() {
        text.push_str(if index + 1 == place { line } else { old })?;
        text.push('\n')?;
    }
    if place == 43 {
        text.push_str(line)?;
    }
    Ok(text)
}

/// Adds a name to a text.
fn push_name(alloc: Global, text: &mut String, name: &Name) -> Result<(), AllocError> {
    text.push_str(String::from_utf8_lossy(alloc, name.as_bytes())?.as_str())
}

/// Adds the numbers of a board, and its pins.
fn push_board(alloc: Global, text: &mut String, board: &BoardDef) -> Result<(), AllocError> {
    text.push_str("\nboard ")?;
    push_name(alloc, text, &board.name)?;
    let numbers = format!(in alloc;
        " {} {} {} {}",
        board.freq, board.start, board.slots, board.drift
    )?;
    text.push_str(numbers.as_str())?;
    for pin in board.pins.as_slice() {
        text.push(' ')?;
        push_name(alloc, text, pin)?;
    }
    Ok(())
}

/// Adds those of a stepper.
fn push_stepper(alloc: Global, text: &mut String, s: &StepperDef) -> Result<(), AllocError> {
    text.push('\n')?;
    push_name(alloc, text, &s.name)?;
    let numbers = format!(in alloc;
        " {} {} {} {} {} {} {} {}",
        s.board, s.oid, s.drive, s.gear.distance, s.gear.steps, s.step_pin, s.dir_pin, s.inverted
    )?;
    text.push_str(numbers.as_str())
}

/// Adds those of an axis.
fn push_axis(alloc: Global, text: &mut String, a: &AxisDef) -> Result<(), AllocError> {
    let numbers = format!(in alloc;
        "\naxis {} {} {} {} {} {} {}",
        a.min, a.max, a.endstop, a.speed, a.board, a.pin, a.pressed
    )?;
    text.push_str(numbers.as_str())
}

/// The numbers of a machine before its boards.
fn numbers(alloc: Global, m: &Machine) -> Result<String, AllocError> {
    format!(in alloc;
        "{} {} {} {} {} {} {}",
        m.corexy, m.v, m.a, m.scv, m.cruise, m.homed, m.passed
    )
}

/// All numbers of a machine.
fn shown(alloc: Global, machine: &Machine) -> Result<String, AllocError> {
    let mut text = numbers(alloc, machine)?;
    for board in machine.boards.as_slice() {
        push_board(alloc, &mut text, board)?;
    }
    for stepper in machine.steppers.as_slice() {
        push_stepper(alloc, &mut text, stepper)?;
    }
    for axis in &machine.axes {
        push_axis(alloc, &mut text, axis)?;
    }
    Ok(text)
}

/// A fault, with its line.
fn fault(alloc: Global, found: CfgFault) -> Result<String, AllocError> {
    match found {
        CfgFault::Memory(error) => Err(error),
        CfgFault::At { line, kind } => format!(in alloc; "{line} {kind:?}"),
    }
}

/// The fault or the machine of a text.
fn outcome(alloc: Global, text: &str) -> Result<String, AllocError> {
    match read_config(alloc, text.as_bytes()) {
        Ok(machine) => shown(alloc, &machine),
        Err(found) => fault(alloc, found),
    }
}

/// A changed text: the line that another one stands for, that line, and the fault or the machine.
type Row<'a> = (usize, &'a str, &'a str);

/// The first row whose text is read otherwise.
fn first_wrong(alloc: Global, rows: &[Row<'_>]) -> Result<Option<usize>, AllocError> {
    for (index, (place, line, wanted)) in rows.iter().enumerate() {
        let text = changed(alloc, *place, line)?;
        if !is_read_so(outcome(alloc, text.as_str())?.as_str(), wanted) {
            return Ok(Some(index));
        }
    }
    Ok(None)
}

fn is_read_so(got: &str, wanted: &str) -> bool {
    if wanted == "read" {
        got.starts_with("false ")
    } else {
        got == wanted
    }
}

#[test]
fn faults(rt: HostRuntime) -> Result<(), Fail> {
    assert_eq!(rt; first_wrong(rt.alloc(), &CHANGES)?, None);
    Ok(())
}

#[test]
fn fans(rt: HostRuntime) -> Result<(), Fail> {
    assert_eq!(rt; first_wrong(rt.alloc(), &FANS)?, None);
    Ok(())
}

/// The machines of some texts.
const MACHINES: [Row<'static>; 3] = [
    (
        0,
        "",
        "false 300000000 3000000000 5000000 500000 true 0
board mcu 16000000 0 1024 0 PB0 PB1 PC0 PB2 PB3 PC1 PB4 PB5 PC2 PB6 PB7
stepper_x 0 0 0 40000000 3200 0 1 false
stepper_y 0 1 1 40000000 3200 3 4 false
stepper_z 0 2 2 8000000 3200 6 7 false
extruder 0 3 3 32000000 3200 9 10 false
axis 0 200000000 0 10000000 0 2 true
axis 0 200000000 0 10000000 0 5 true
axis 0 200000000 0 10000000 0 8 true",
    ),
    (
        43,
        "[stepper_x]\nmicrosteps: 32",
        "false 300000000 3000000000 5000000 500000 true 0
board mcu 16000000 0 1024 0 PB0 PB1 PC0 PB2 PB3 PC1 PB4 PB5 PC2 PB6 PB7
stepper_x 0 0 0 40000000 6400 0 1 false
stepper_y 0 1 1 40000000 3200 3 4 false
stepper_z 0 2 2 8000000 3200 6 7 false
extruder 0 3 3 32000000 3200 9 10 false
axis 0 200000000 0 10000000 0 2 true
axis 0 200000000 0 10000000 0 5 true
axis 0 200000000 0 10000000 0 8 true",
    ),
    (
        43,
        "[mcu tool]\n[simulated_mcu tool]\nCLOCK_FREQ = 48000000 ; fast\nstart_clock: 1000\nmove_slots: 64\ndrift_ppm: -200\n[stepper_x]\nendstop_pin: !^tool:PA1\ndir_pin: !PB1\n[stepper_z1]\nstep_pin: tool:PB0\ndir_pin: tool:PB9\nrotation_distance: 7.9999999\nmicrosteps: 1\nfull_steps_per_rotation: 400\n[stepper_y]\nposition_min: -12.5\nposition_endstop: -12.5\n[printer]\nkinematics: corexy\nminimum_cruise_ratio: 0.000001\n[simulation]\nstart_homed: False\n[heater]\nany: 1",
        "true 300000000 3000000000 5000000 1 false 1
board mcu 16000000 0 1024 0 PB0 PB2 PB3 PC1 PB4 PB5 PC2 PB6 PB7 PB1
board tool 48000000 1000 64 -200 PA1 PB0 PB9
stepper_x 0 0 0 40000000 3200 0 9 true
stepper_y 0 1 1 40000000 3200 1 2 false
stepper_z 0 2 2 8000000 3200 4 5 false
extruder 0 3 3 32000000 3200 7 8 false
stepper_z1 1 0 2 7999999 400 1 2 false
axis 0 200000000 0 10000000 1 0 false
axis -12500000 200000000 -12500000 10000000 0 3 true
axis 0 200000000 0 10000000 0 6 true",
    ),
];

#[test]
fn machines(rt: HostRuntime) -> Result<(), Fail> {
    assert_eq!(rt; first_wrong(rt.alloc(), &MACHINES)?, None);
    let got = outcome(rt.alloc(), SAMPLE)?;
    assert!(rt; got.as_str() == SAMPLE_READS, "{got}");
    Ok(())
}
