//! Scenes: what they hold, their faults, their limits, and the levels of pins.
ghost use Rattle.std.specs.Prelude.{IfOk};
ghost use Rattle.plan_types.specs.Machines.{IsValidMachine};

use cfg_text::read_config;
use plan_types::{Level, Machine};
use std::alloc::{AllocError, Global};
use std::test::Fail;
use wire_scene::{Entry, Scene, SceneFault, Switch, read_scene};

/// A printer with the boards `mcu`, whose first pins are PB0 and PC0, and `tool`, whose pins are PA0 and PA1.
const PRINTER: &str = "[printer]
kinematics: cartesian
max_velocity: 300
max_accel: 3000
[mcu]
[mcu tool]
[simulated_mcu]
clock_freq: 16000000
[simulated_mcu tool]
clock_freq: 16000000
[stepper_x]
step_pin: PB0
dir_pin: PC0
rotation_distance: 40
microsteps: 16
endstop_pin: tool:PA0
position_endstop: 0
position_max: 200
homing_speed: 10
[stepper_y]
step_pin: PB2
dir_pin: PB3
rotation_distance: 40
microsteps: 16
endstop_pin: tool:PA1
position_endstop: 0
position_max: 200
homing_speed: 10
[stepper_z]
step_pin: PB4
dir_pin: PB5
rotation_distance: 8
microsteps: 16
endstop_pin: PC2
position_endstop: 0
position_max: 200
homing_speed: 10
[extruder]
step_pin: PB6
dir_pin: PB7
rotation_distance: 32
microsteps: 16
";

/// The machine of the rows.
pub fn machine(alloc: Global) -> Result<Machine, AllocError>
    ensures valid { IfOk result (λ m. IsValidMachine m) }
{
    match read_config(alloc, PRINTER.as_bytes()) {
        Ok(machine) => Ok(machine),
        Err(_) => Err(AllocError),
    }
}

/// An entry: whether it is for connecting, the board, the way, the number and the deed.
fn put_entry(alloc: Global, text: &mut String, e: &Entry) -> Result<(), AllocError> {
    if e.connecting {
        text.push_str("connect ")?;
    }
    let line = format!(in alloc; "{} {:?} {} {:?}\n", e.board, e.way, e.number, e.deed)?;
    text.push_str(line.as_str())
}

/// A switch: the board, the pin, the tick, the level and the line.
fn put_switch(alloc: Global, text: &mut String, s: &Switch) -> Result<(), AllocError> {
    let line = format!(in alloc; "{} {} {} {} {}\n", s.board, s.pin, s.tick, s.level, s.line)?;
    text.push_str(line.as_str())
}

/// What a scene has: its entries and its switches.
fn shown(alloc: Global, scene: &Scene) -> Result<String, AllocError> {
    let mut text = String::new(alloc);
    for e in scene.entries.as_slice() {
        put_entry(alloc, &mut text, e)?;
    }
    for s in scene.switches.as_slice() {
        put_switch(alloc, &mut text, s)?;
    }
    Ok(text)
}

/// A fault, with its line.
fn fault(alloc: Global, found: SceneFault) -> Result<String, AllocError> {
    match found {
        SceneFault::Memory(error) => Err(error),
        SceneFault::At { line, kind } => format!(in alloc; "{line} {kind:?}"),
    }
}

/// The scene of a text, or its fault.
fn outcome(alloc: Global, text: &[u8]) -> Result<String, AllocError> {
    let machine = machine(alloc)?;
    match read_scene(alloc, text, &machine) {
        Ok(scene) => shown(alloc, &scene),
        Err(found) => fault(alloc, found),
    }
}

/// A text, and its scene or its fault.
type Row<'a> = (&'a str, &'a str);

const SCENES: [Row<'static>; 9] = [
    ("", ""),
    ("# nothing\n \t \n\r\n", ""),
    (
        "down mcu 7 drop\nup mcu 7 drop\ndown mcu 9 repeat",
        "0 Down 7 Drop\n0 Up 7 Drop\n0 Down 9 Repeat\n",
    ),
    ("switch tool PA1 84481100 1\n", "1 1 84481100 true 1\n"),
    (
        " \tup  tool\t400 delay 100000 # late\r\n\nswitch mcu PC0 0 0#\r\nup tool 0401 delay 1\r",
        "1 Up 400 Delay(100000)\n1 Up 401 Delay(1)\n0 1 0 false 3\n",
    ),
    (
        "down mcu 18446744073709551615 drop\nswitch mcu PB0 9223372036854775807 1",
        "0 Down 18446744073709551615 Drop\n0 0 9223372036854775807 true 2\n",
    ),
    (
        "switch mcu PB0 5 1\nswitch mcu PC0 5 1\nswitch tool PA0 5 1\nswitch mcu PB0 6 1",
        "0 0 5 true 1\n0 1 5 true 2\n1 0 5 true 3\n0 0 6 true 4\n",
    ),
    (
        "down mcu 00000000000000000000000000007 drop",
        "0 Down 7 Drop\n",
    ),
    (
        "down mcu 7 drop\nconnect down mcu 7 repeat\nconnect up tool 0 garble 18446744073709551615 255\nup tool 0 garble 3 1",
        "0 Down 7 Drop\nconnect 0 Down 7 Repeat\nconnect 1 Up 0 Garble { at: 18446744073709551615, xor: 255 }\n1 Up 0 Garble { at: 3, xor: 1 }\n",
    ),
];

/// Whether a text has this scene, or this fault.
fn is_read_so(alloc: Global, text: &[u8], wanted: &str) -> Result<bool, AllocError> {
    let got = outcome(alloc, text)?;
    Ok(got.as_str() == wanted)
}

/// The first row whose text is read otherwise.
fn first_wrong(alloc: Global, rows: &[Row<'_>]) -> Result<Option<usize>, AllocError> {
    for (i, (text, wanted)) in rows.iter().enumerate() {
        if !is_read_so(alloc, text.as_bytes(), wanted)? {
            return Ok(Some(i));
        }
    }
    Ok(None)
}

#[test]
fn scenes(rt: HostRuntime) -> Result<(), Fail> {
    assert_eq!(rt; first_wrong(rt.alloc(), &SCENES)?, None);
    Ok(())
}

const FAULTS: [Row<'static>; 49] = [
    ("down ebb 0 drop", "1 UnknownBoard"),
    ("switch ebb PA1 0 1", "1 UnknownBoard"),
    ("down MCU 0 drop", "1 UnknownBoard"),
    ("# a\n\nup mc 0 drop", "3 UnknownBoard"),
    ("down ebb 0 lose", "1 BadLine"),
    ("switch ebb PA1 0 2", "1 BadLine"),
    ("down", "1 BadLine"),
    ("down mcu", "1 BadLine"),
    ("down mcu 1", "1 BadLine"),
    ("down mcu x drop", "1 BadLine"),
    ("down mcu -1 drop", "1 BadLine"),
    ("down mcu 18446744073709551616 drop", "1 BadLine"),
    ("down mcu 1 drop it", "1 BadLine"),
    ("down mcu 1 delay", "1 BadLine"),
    ("down mcu 1 delay 0", "1 BadLine"),
    ("down mcu 1 delay 100001", "1 BadLine"),
    ("down mcu 1 delay 1 2", "1 BadLine"),
    ("down mcu 1 drop 1", "1 BadLine"),
    ("Down mcu 1 drop", "1 BadLine"),
    ("sideways mcu 1 drop", "1 BadLine"),
    ("connect", "1 BadLine"),
    ("connect connect down mcu 1 drop", "1 BadLine"),
    ("connect switch mcu PC0 1 1", "1 BadLine"),
    ("connect down ebb 1 drop", "1 UnknownBoard"),
    (
        "connect up mcu 1 drop\nconnect up mcu 1 drop",
        "2 NotRising",
    ),
    ("down mcu 1 garble", "1 BadLine"),
    ("down mcu 1 garble 3", "1 BadLine"),
    ("down mcu 1 garble 3 0", "1 BadLine"),
    ("down mcu 1 garble 3 256", "1 BadLine"),
    ("down mcu 1 garble 3 1 1", "1 BadLine"),
    ("down mcu 1 garble 18446744073709551616 1", "1 BadLine"),
    ("down mcu 1 drop\rup mcu 1 drop", "1 BadLine"),
    ("down mcu 1 drop\r\r\n", "1 BadLine"),
    ("switch", "1 BadLine"),
    ("switch mcu", "1 BadLine"),
    ("switch mcu PC0", "1 BadLine"),
    ("switch mcu PC0 1", "1 BadLine"),
    ("switch mcu PC0 1 1 1", "1 BadLine"),
    ("switch mcu PA1 1 1", "1 BadLine"),
    ("switch mcu pc0 1 1", "1 BadLine"),
    ("switch mcu PC0 9223372036854775808 1", "1 BadLine"),
    ("switch mcu PC0 1 01", "1 BadLine"),
    ("switch mcu PC0 1 2", "1 BadLine"),
    ("down mcu 7 drop\ndown mcu 7 repeat", "2 NotRising"),
    ("down mcu 7 drop\n\ndown mcu 6 repeat", "3 NotRising"),
    (
        "down mcu 18446744073709551615 drop\ndown mcu 18446744073709551615 drop",
        "2 NotRising",
    ),
    (
        "switch mcu PC0 5 1\nswitch mcu PB0 6 1\nswitch mcu PC0 5 0",
        "3 NotRising",
    ),
    ("down mcu 7 drop\ndown mcu 7 lose\n", "2 BadLine"),
    ("down mcu 7 drop\ndown mcu 7 drop\nup\n", "2 NotRising"),
];

#[test]
fn faults(rt: HostRuntime) -> Result<(), Fail> {
    assert_eq!(rt; first_wrong(rt.alloc(), &FAULTS)?, None);
    Ok(())
}

fn entry(alloc: Global, number: u64) -> Result<String, AllocError> {
    format!(in alloc; "down mcu {number} drop\n")
}

/// A text of so many entries, and then a line.
fn many(alloc: Global, count: u64, last: &str) -> Result<String, AllocError> {
    let mut text = String::new(alloc);
    for number in 0..count {
        text.push_str(entry(alloc, number)?.as_str())?;
    }
    text.push_str(last)?;
    Ok(text)
}

/// What stands behind 100,000 entries, and the fault.
const ENDS: [Row<'static>; 4] = [
    ("down mcu 100000 drop", "100001 TooMany"),
    ("\n\nswitch mcu PC0 0 1", "100003 TooMany"),
    ("down mcu 99999 drop", "100001 NotRising"),
    ("down ebb 100000 drop", "100001 UnknownBoard"),
];

/// The first of these that is read otherwise.
fn first_wrong_end(alloc: Global, rows: &[Row<'_>]) -> Result<Option<usize>, AllocError> {
    for (i, (last, wanted)) in rows.iter().enumerate() {
        let text = many(alloc, 100_000, last)?;
        if !is_read_so(alloc, text.as_bytes(), wanted)? {
            return Ok(Some(i));
        }
    }
    Ok(None)
}

/// The scene of a text, where it has one.
fn read(alloc: Global, text: &[u8]) -> Result<Option<Scene>, AllocError> {
    let machine = machine(alloc)?;
    Ok(read_scene(alloc, text, &machine).ok())
}

/// How many entries the scene with as many as there may be has.
fn most(alloc: Global) -> Result<usize, AllocError> {
    let whole = many(alloc, 99_999, "up mcu 0 drop")?;
    match read(alloc, whole.as_bytes())? {
        Some(scene) => Ok(scene.entries.len()),
        None => Ok(0),
    }
}

/// Whether so many blanks are read so.
fn blanks_are(alloc: Global, size: usize, wanted: &str) -> Result<bool, AllocError> {
    let text = vec![in alloc; b' '; size]?;
    is_read_so(alloc, text.as_slice(), wanted)
}

#[test]
fn limits(rt: HostRuntime) -> Result<(), Fail> {
    let alloc = rt.alloc();
    assert_eq!(rt; first_wrong_end(alloc, &ENDS)?, None);
    assert_eq!(rt; most(alloc)?, 100_000);
    assert!(rt; blanks_are(alloc, 16_777_216, "")?);
    assert!(rt; blanks_are(alloc, 16_777_217, "0 TooLarge")?);
    Ok(())
}

/// Switches of three pins.
const SWITCHES: &str =
    "switch mcu PC0 100 1\n# and off\nswitch mcu PC0 200 0\nswitch tool PA1 150 1\n";

/// A board, a pin, a tick, the level there, and the line that it comes from.
type At = (u8, u8, u64, bool, u64);

const LEVELS: [At; 9] = [
    (0, 1, 99, false, 0),
    (0, 1, 100, true, 1),
    (0, 1, 199, true, 1),
    (0, 1, 200, false, 3),
    (0, 1, u64::MAX, false, 3),
    (0, 0, 200, false, 0),
    (1, 1, 149, false, 0),
    (1, 1, 150, true, 4),
    (7, 1, 150, false, 0),
];

/// The first row that isn't as the scene has it.
fn first_wrong_level(scene: &Scene, rows: &[At]) -> Option<usize> {
    for i in 0..rows.len() {
        let (board, pin, tick, level, line) = rows[i];
        if scene.level(board, pin, tick) != level || scene.line(board, pin, tick) != line {
            return Some(i);
        }
    }
    None
}

/// The levels of the first of these pins.
const FOUND: [Level; 2] = [
    Level {
        tick: 100,
        level: true,
    },
    Level {
        tick: 200,
        level: false,
    },
];

fn has_levels(alloc: Global, scene: &Scene, wanted: &[Level]) -> Result<bool, AllocError> {
    Ok(scene.levels(alloc, 0, 1)?.as_slice() == wanted)
}

/// Whether the scene without entries has no level at a pin.
fn none_has_levels(alloc: Global) -> bool {
    first_wrong_level(&Scene::empty(alloc), &[(0, 1, 100, false, 0)]).is_none()
}

#[test]
fn levels(rt: HostRuntime) -> Result<(), Fail> {
    let alloc = rt.alloc();
    let Some(scene) = read(alloc, SWITCHES.as_bytes())? else {
        return Err(Fail::from("refused"));
    };
    assert_eq!(rt; first_wrong_level(&scene, &LEVELS), None);
    assert!(rt; has_levels(alloc, &scene, &FOUND)?);
    assert!(rt; none_has_levels(alloc));
    Ok(())
}
