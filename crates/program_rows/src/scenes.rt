//! Runs in scenes: blocks that are lost, repeated, delayed or garbled, and switches that close.

use crate::files::{X_DISTANCE, files, run};
use crate::shown::{MOVES, downs, pulses, tells};
use host_cli::Ended;
use io_core::MemSink;
use plan_types::Cause;
use std::alloc::{AllocError, Global};
use std::sync::Wait;
use std::test::Fail;
use std::thread::Threads;

/// A scene: lines of its own, and one way of a link whose first blocks are lost, with their number.
type Scene<'a> = (&'a str, &'a str, u64);

/// What a run makes and tells: how many pulses of x, y, z and the extruder, how many of those of x are down,
/// the planned tick of the last one of x, and the report's other lines, as the first and the last ones.
type Made<'a> = ([u64; 4], u64, u64, [&'a str; 2]);

/// A run in a scene: lines behind those of the configuration, the G-code, the scene, and what it makes and tells.
type Played<'a> = (&'a str, &'a str, Scene<'a>, Made<'a>);

/// A late block: the scene, how many steps were made before, the planned tick of the first step that came
/// late, the tick at which it came, and how many turns were spoiled.
type Late<'a> = (Scene<'a>, u64, u64, u64, u64);

const MOVE: &str = "G1 X1 F600\n";

const HOME: &str = "G28 X\n";

const HOME_AND_MOVE: &str = "G28 X\nG1 X1 F600\n";

/// No axis is homed.
const UNHOMED: &str = "[simulation]\nstart_homed: False\n";

/// No axis is homed, and the switch of x is on a board of its own.
const TWO_BOARDS: &str = "[simulation]
start_homed: False
[mcu tool]
[simulated_mcu tool]
clock_freq: 48000000
start_clock: 1000
[stepper_x]
endstop_pin: tool:PA1
";

/// The same, and x homes so slowly that its first step comes a second behind the section's start.
const SLOW: &str = "[simulation]
start_homed: False
[mcu tool]
[simulated_mcu tool]
clock_freq: 48000000
start_clock: 1000
[stepper_x]
endstop_pin: tool:PA1
microsteps: 1
homing_speed: 0.1
";

/// How a slicer begins a file, and how it ends one.
const PROLOGUE: &str =
    "M140 S60\nM104 S200\nG21\nG90\nM83\nG92 E0\nG28\nG1 Z5 F300\nG1 X10 Y10 F6000 ; go\n";

const EPILOGUE: &str = "G1 X20 E0.5 F1200\nM400\nM104 S0\n";

const CLOSED: &str = "switch mcu PC0 0 1\nswitch mcu PC1 0 1\nswitch mcu PC2 0 1\n";

const MACHINE: &str = "machine cartesian boards 1 steppers 4\n";

/// What stands before the first section of a report of two boards that homes x, and its line.
const HOMES_X: &str = "machine cartesian boards 2 steppers 4
board mcu freq 16000000 turn 1260 tick 20160000
board tool freq 48000000 turn 1260 tick 60481000
section 0 turn 1260 home x
";

/// The same of a slicer's file, and its other sections.
const SLICED: &str = "machine cartesian boards 1 steppers 4
board mcu freq 16000000 turn 1260 tick 20160000
section 0 turn 1260 home x
cut 0 mcu PC0 20160720 1
section 1 turn 1521 home y
cut 1 mcu PC1 24336720 2
section 2 turn 1782 home z
cut 2 mcu PC2 28512720 3
section 3 turn 2043 move
";

/// Homing over two boards: as the switch closes; the same, and a move from the homed place, which starts 260
/// turns behind that; where a board isn't heard; and where the switch closes before the first step. A board
/// that gives no answer while it is connected.
const PLAYED: [Played<'static>; 5] = [
    (
        TWO_BOARDS,
        HOME,
        ("switch tool PA1 84481100 1\n", "", 0),
        (
            [399, 0, 0, 0],
            399,
            28_156_667,
            [
                HOMES_X,
                "cut 0 tool PA1 84487960 1\nlines 1 passed 0\nend 0 done\n",
            ],
        ),
    ),
    (
        TWO_BOARDS,
        HOME_AND_MOVE,
        ("switch tool PA1 84481100 1\n", "", 0),
        (
            [479, 0, 0, 0],
            399,
            33_972_672,
            [
                HOMES_X,
                "cut 0 tool PA1 84487960 1\nsection 1 turn 2022 move\nlines 2 passed 0\nend 0 done\n",
            ],
        ),
    ),
    (
        TWO_BOARDS,
        HOME,
        ("up tool 0 delay 400\n", "", 0),
        (
            [19, 0, 0, 0],
            19,
            20_556_667,
            [HOMES_X, "end 9 expired mcu 1285\n"],
        ),
    ),
    (
        SLOW,
        HOME,
        ("switch tool PA1 96433000 1\n", "", 0),
        (
            [0; 4],
            0,
            0,
            [
                HOMES_X,
                "cut 0 tool PA1 96435160 1\nlines 1 passed 0\nend 0 done\n",
            ],
        ),
    ),
    (
        "",
        MOVE,
        ("", "connect down mcu", 41),
        ([0; 4], 0, 0, [MACHINE, "end 10 connect mcu 0\n"]),
    ),
];

/// Where the switch never closes: half a minute.
const UNSWITCHED: [Played<'static>; 1] = [(
    TWO_BOARDS,
    HOME,
    ("", "", 0),
    (
        [24_000, 0, 0, 0],
        24_000,
        500_180_675,
        [HOMES_X, "end 9 noswitch 0\n"],
    ),
)];

/// What a slicer's file makes, and how its report ends, without and with many comments.
const SHORT: Made<'static> = (
    [1_600, 800, 2_000, 50],
    0,
    59_445_939,
    [SLICED, "lines 12 passed 4\nend 0 done\n"],
);

const LONG: Made<'static> = (
    [1_600, 800, 2_000, 50],
    0,
    59_445_939,
    [SLICED, "lines 100012 passed 4\nend 0 done\n"],
);

/// Blocks that are lost, repeated, delayed and garbled, none of them for so long that a step comes late.
const HEALED: [Scene<'static>; 6] = [
    ("down mcu 7 drop\nup mcu 7 drop\ndown mcu 9 repeat\n", "", 0),
    ("", "down mcu", 24),
    ("down mcu 1 drop\ndown mcu 2 drop\n", "", 0),
    ("connect up mcu 0 drop\n", "", 0),
    (
        "down mcu 0 garble 3 1\ndown mcu 7 garble 255 128\nup mcu 5 garble 2 64\n",
        "",
        0,
    ),
    ("down mcu 0 delay 250\n", "", 0),
];

const LATE: [Late<'static>; 3] = [
    (
        ("down mcu 0 delay 251\n", "", 0),
        0,
        20_192_660,
        20_208_000,
        251,
    ),
    (
        ("down mcu 0 delay 400\n", "", 0),
        0,
        20_192_660,
        22_592_000,
        251,
    ),
    (
        ("down mcu 2 delay 600\n", "", 0),
        2,
        20_236_666,
        25_824_000,
        251,
    ),
];

/// Scenes that are refused, and why.
const REFUSED: [(&str, &str); 6] = [
    ("down mcu 2 lost\n", "end 6 scene 1 BadLine\n"),
    ("down ebb 0 drop\n", "end 6 scene 1 UnknownBoard\n"),
    ("down mcu 0 garble 3 0\n", "end 6 scene 1 BadLine\n"),
    ("down mcu 0 garble 3 256\n", "end 6 scene 1 BadLine\n"),
    ("switch mcu PA9 0 1\n", "end 6 scene 1 BadLine\n"),
    (
        "down mcu 3 drop\ndown mcu 3 drop\n",
        "end 6 scene 2 NotRising\n",
    ),
];

/// The text of a scene.
fn scene_text(alloc: Global, scene: &Scene<'_>) -> Result<String, AllocError> {
    let (own, lost, count) = *scene;
    let mut text = String::from_str(alloc, own)?;
    for number in 0..count {
        let line = format!(in alloc; "{lost} {number} drop\n")?;
        text.push_str(line.as_str())?;
    }
    Ok(text)
}

/// Runs a text in a scene.
fn play<R: Threads + Wait + Sync>(
    rt: &R,
    alloc: Global,
    more: &str,
    text: &str,
    scene: &Scene<'_>,
    out: &mut MemSink,
) -> Result<Ended, AllocError> {
    let scene = scene_text(alloc, scene)?;
    let mut read = files(alloc, X_DISTANCE, more, text)?;
    read.add("s.scene", scene.as_bytes())?;
    run(
        rt,
        alloc,
        &["run", "m.cfg", "t.gcode", "s.scene"],
        &mut read,
        out,
    )
}

/// Whether a tick is at most 25 microseconds of 16 MHz before a planned one, and not behind it.
fn is_in_window(tick: u64, planned: u64) -> bool {
    tick <= planned && planned - tick <= 400
}

/// Whether a report shows this.
fn shows(alloc: Global, report: &[u8], wanted: &Made<'_>) -> Result<bool, AllocError> {
    let (counts, down, planned, lines) = *wanted;
    let (x, _, last) = pulses(alloc, report, "stepper_x")?;
    let (y, _, _) = pulses(alloc, report, "stepper_y")?;
    let (z, _, _) = pulses(alloc, report, "stepper_z")?;
    let (e, _, _) = pulses(alloc, report, "extruder")?;
    Ok(
        [x, y, z, e] == counts
            && downs(report, "stepper_x") == down
            && is_in_window(last, planned)
            && tells(alloc, report, lines)?,
    )
}

/// The first run that shows something else.
fn first_other<R: Threads + Wait + Sync>(
    rt: &R,
    alloc: Global,
    rows: &[Played<'_>],
) -> Result<Option<usize>, AllocError> {
    for (index, (more, text, scene, made)) in rows.iter().enumerate() {
        let mut out = MemSink::new(alloc, Vec::new(alloc));
        play(rt, alloc, more, text, scene, &mut out)?;
        if !shows(alloc, out.bytes(), made)? {
            return Ok(Some(index));
        }
    }
    Ok(None)
}

#[test]
fn scenes(rt: HostRuntime) -> Result<(), Fail> {
    assert_eq!(rt; first_other(&rt, rt.alloc(), &PLAYED)?, None);
    Ok(())
}

#[test]
fn a_switch_that_never_closes(rt: HostRuntime) -> Result<(), Fail> {
    assert_eq!(rt; first_other(&rt, rt.alloc(), &UNSWITCHED)?, None);
    Ok(())
}

/// A slicer's file with so many comments in the midst of its moves, on a machine whose switches are closed.
fn slice<R: Threads + Wait + Sync>(
    rt: &R,
    alloc: Global,
    comments: u64,
    out: &mut MemSink,
) -> Result<(), AllocError> {
    let mut text = String::from_str(alloc, PROLOGUE)?;
    for _ in 0..comments {
        text.push_str("; nothing moves\n")?;
    }
    text.push_str(EPILOGUE)?;
    play(rt, alloc, UNHOMED, text.as_str(), &(CLOSED, "", 0), out)?;
    Ok(())
}

#[test]
fn slicer_files(rt: HostRuntime) -> Result<(), Fail> {
    let alloc = rt.alloc();
    let mut short = MemSink::new(alloc, Vec::new(alloc));
    slice(&rt, alloc, 0, &mut short)?;
    assert!(rt; shows(alloc, short.bytes(), &SHORT)?);
    let mut long = MemSink::new(alloc, Vec::new(alloc));
    slice(&rt, alloc, 100_000, &mut long)?;
    assert!(rt; shows(alloc, long.bytes(), &LONG)?);
    Ok(())
}

/// The first scene in which the report of one move isn't what it is in no scene.
fn first_unhealed<R: Threads + Wait + Sync>(
    rt: &R,
    alloc: Global,
    scenes: &[Scene<'_>],
) -> Result<Option<usize>, AllocError> {
    let mut clear = MemSink::new(alloc, Vec::new(alloc));
    play(rt, alloc, "", MOVE, &("", "", 0), &mut clear)?;
    for (index, scene) in scenes.iter().enumerate() {
        let mut out = MemSink::new(alloc, Vec::new(alloc));
        play(rt, alloc, "", MOVE, scene, &mut out)?;
        if out.bytes() != clear.bytes() || out.bytes().len() != 2_619 {
            return Ok(Some(index));
        }
    }
    Ok(None)
}

#[test]
fn scenes_that_heal(rt: HostRuntime) -> Result<(), Fail> {
    assert_eq!(rt; first_unhealed(&rt, rt.alloc(), &HEALED)?, None);
    Ok(())
}

/// Whether a run ends since a step came late, so.
fn is_late<R: Threads + Wait + Sync>(
    rt: &R,
    alloc: Global,
    row: &Late<'_>,
) -> Result<bool, AllocError> {
    let (scene, steps, planned, came, turns) = *row;
    let mut out = MemSink::new(alloc, Vec::new(alloc));
    let ended = play(rt, alloc, "", MOVE, &scene, &mut out)?;
    let (made, _, _) = pulses(alloc, out.bytes(), "stepper_x")?;
    let Cause::Late {
        board: 0,
        first,
        arrival,
        spoiled,
        spill: 0,
    } = ended.cause
    else {
        return Ok(false);
    };
    let end = format!(in alloc; "end 8 late mcu {first} {came} {turns} 0\n")?;
    Ok(
        made == steps
            && is_in_window(first, planned)
            && arrival == came
            && spoiled == turns
            && ended.status == 8
            && tells(alloc, out.bytes(), [MOVES, end.as_str()])?,
    )
}

/// The first run that doesn't.
fn first_timely<R: Threads + Wait + Sync>(
    rt: &R,
    alloc: Global,
    rows: &[Late<'_>],
) -> Result<Option<usize>, AllocError> {
    for (index, row) in rows.iter().enumerate() {
        if !is_late(rt, alloc, row)? {
            return Ok(Some(index));
        }
    }
    Ok(None)
}

#[test]
fn late_blocks(rt: HostRuntime) -> Result<(), Fail> {
    assert_eq!(rt; first_timely(&rt, rt.alloc(), &LATE)?, None);
    Ok(())
}

/// The first scene that is not refused so.
fn first_taken<R: Threads + Wait + Sync>(
    rt: &R,
    alloc: Global,
    rows: &[(&str, &str)],
) -> Result<Option<usize>, AllocError> {
    for (index, (scene, end)) in rows.iter().enumerate() {
        let mut out = MemSink::new(alloc, Vec::new(alloc));
        let ended = play(rt, alloc, "", MOVE, &(scene, "", 0), &mut out)?;
        if ended.status != 6 || out.bytes() != end.as_bytes() {
            return Ok(Some(index));
        }
    }
    Ok(None)
}

#[test]
fn refused_scenes(rt: HostRuntime) -> Result<(), Fail> {
    assert_eq!(rt; first_taken(&rt, rt.alloc(), &REFUSED)?, None);
    Ok(())
}
