//! Steps that could be lost: many at once behind a section's end, and those behind clock lines that a board
//! takes up, in moves and while an axis homes.

use crate::files::{X_DISTANCE, files, run};
use crate::shown::{pulses, tells};
use host_cli::Ended;
use io_core::MemSink;
use plan_types::Cause;
use std::alloc::{AllocError, Global};
use std::sync::Wait;
use std::test::Fail;
use std::thread::Threads;

/// A text on a board that drifts: lines behind those of the configuration, the G-code, for how many turns the
/// answers are delayed by which the board's first clock line is chosen, how many pulses x and y make and the
/// planned tick of the last one, and the report's other lines, as the first and the last ones.
type Kept<'a> = (&'a str, &'a str, u64, [(u64, u64); 2], [&'a str; 2]);

/// The scene in which those answers are delayed.
fn delayed(alloc: Global, delay: u64) -> Result<String, AllocError> {
    let mut scene = String::new(alloc);
    if delay > 0 {
        for number in 34..42_u32 {
            let line = format!(in alloc; "connect down mcu {number} delay {delay}\n")?;
            scene.push_str(line.as_str())?;
        }
    }
    Ok(scene)
}

/// Runs a text in a scene.
fn play<R: Threads + Wait + Sync>(
    rt: &R,
    alloc: Global,
    more: &str,
    text: &str,
    scene: &str,
    out: &mut MemSink,
) -> Result<Ended, AllocError> {
    let mut read = files(alloc, X_DISTANCE, more, text)?;
    read.add("s.scene", scene.as_bytes())?;
    run(
        rt,
        alloc,
        &["run", "m.cfg", "t.gcode", "s.scene"],
        &mut read,
        out,
    )
}

/// The board runs slow.
const SLOW: &str = "[simulated_mcu]\ndrift_ppm: -200\n";

/// Two seconds of a move, where the board's first line is exact, and where it is three turns ahead.
const KEPT: [Kept<'static>; 2] = [
    (
        SLOW,
        "G1 X20 F600\n",
        0,
        [(1_600, 52_174_272), (0, 0)],
        [
            "machine cartesian boards 1 steppers 4
board mcu freq 16000000 turn 1260 tick 20159891
",
            SLOW_LINES,
        ],
    ),
    (
        SLOW,
        "G1 X20 F600\n",
        3,
        [(1_600, 52_174_272), (0, 0)],
        [
            "machine cartesian boards 1 steppers 4
board mcu freq 16000000 turn 1260 tick 20207881
",
            SLOW_LINES,
        ],
    ),
];

const SLOW_LINES: &str = "line mcu turn 1000 tick 15996800 from 1342000000
section 0 turn 1260 move
line mcu turn 2000 tick 31993600 from 2342000000
line mcu turn 3000 tick 47990400 from 3342000000
lines 1 passed 0
end 0 done
";

/// Whether a stepper makes so many pulses, the last one at most 25 microseconds of 16 MHz before its planned
/// tick, and not behind it.
fn makes(
    alloc: Global,
    report: &[u8],
    stepper: &str,
    wanted: (u64, u64),
) -> Result<bool, AllocError> {
    let (count, planned) = wanted;
    let (made, _, last) = pulses(alloc, report, stepper)?;
    Ok(made == count && last <= planned && planned - last <= 400)
}

/// Whether a run makes all its pulses and tells these lines.
fn is_kept<R: Threads + Wait + Sync>(
    rt: &R,
    alloc: Global,
    row: &Kept<'_>,
) -> Result<bool, AllocError> {
    let (more, text, delay, [x, y], lines) = *row;
    let mut out = MemSink::new(alloc, Vec::new(alloc));
    let scene = delayed(alloc, delay)?;
    play(rt, alloc, more, text, scene.as_str(), &mut out)?;
    let report = out.bytes();
    Ok(
        makes(alloc, report, "stepper_x", x)?
            && makes(alloc, report, "stepper_y", y)?
            && tells(alloc, report, lines)?,
    )
}

/// The first run that doesn't.
fn first_lost<R: Threads + Wait + Sync>(
    rt: &R,
    alloc: Global,
    rows: &[Kept<'_>],
) -> Result<Option<usize>, AllocError> {
    for (index, row) in rows.iter().enumerate() {
        if !is_kept(rt, alloc, row)? {
            return Ok(Some(index));
        }
    }
    Ok(None)
}

#[test]
fn steps_behind_further_lines(rt: HostRuntime) -> Result<(), Fail> {
    assert_eq!(rt; first_lost(&rt, rt.alloc(), &KEPT)?, None);
    Ok(())
}

/// A run in which x homes for 49 seconds on a board that drifts, and moves a millimetre behind that: lines
/// behind those of the configuration, how many pulses x makes and the planned tick of the last one, the
/// board's ticks in a second, and the report's other lines, as the first and the last ones, but for those
/// that tell its clock while x homes.
type Homed<'a> = (&'a str, (u64, u64), u64, [&'a str; 2]);

const FAST_HOME: &str = "[simulation]
start_homed: False
[simulated_mcu]
drift_ppm: 200
[stepper_x]
position_max: 500
";

const SLOW_HOME: &str = "[simulation]
start_homed: False
[simulated_mcu]
drift_ppm: -200
[stepper_x]
position_max: 500
";

const HOMED: [Homed<'static>; 2] = [
    (
        FAST_HOME,
        (39_063, 805_796_672),
        16_003_200,
        [
            "machine cartesian boards 1 steppers 4
board mcu freq 16000000 turn 1260 tick 20160108
line mcu turn 1000 tick 16003200 from 1342000000
section 0 turn 1260 home x
",
            "cut 0 mcu PC0 800000828 1
line mcu turn 50000 tick 800160000 from 50342000000
section 1 turn 50251 move
lines 2 passed 0
end 0 done
",
        ],
    ),
    (
        SLOW_HOME,
        (39_079, 805_796_672),
        15_996_800,
        [
            "machine cartesian boards 1 steppers 4
board mcu freq 16000000 turn 1260 tick 20159891
line mcu turn 1000 tick 15996800 from 1342000000
section 0 turn 1260 home x
",
            "line mcu turn 50000 tick 799840000 from 50278000000
cut 0 mcu PC0 800002211 1
section 1 turn 50271 move
lines 2 passed 0
end 0 done
",
        ],
    ),
];

/// Lines that tell the clock of a board in each second from the second one on and before another, each of
/// which holds so many turns behind its own turn.
fn told_each_second(
    alloc: Global,
    head: &str,
    ticks: u64,
    until: u64,
    turns: u64,
) -> Result<String, AllocError> {
    let mut lines = String::from_str(alloc, head)?;
    for second in 2..until {
        let tick = second.wrapping_mul(ticks);
        let line = format!(in alloc;
            "line mcu turn {second}000 tick {tick} from {second}{turns}000000\n"
        )?;
        lines.push_str(line.as_str())?;
    }
    Ok(lines)
}

/// Whether a run makes all its pulses and tells these lines.
fn is_homed<R: Threads + Wait + Sync>(
    rt: &R,
    alloc: Global,
    row: &Homed<'_>,
) -> Result<bool, AllocError> {
    let (more, x, ticks, [head, tail]) = *row;
    let lines = told_each_second(alloc, head, ticks, 50, 278)?;
    let mut out = MemSink::new(alloc, Vec::new(alloc));
    let scene = "switch mcu PC0 800000000 1\n";
    play(rt, alloc, more, "G28 X\nG1 X1 F600\n", scene, &mut out)?;
    Ok(
        makes(alloc, out.bytes(), "stepper_x", x)?
            && tells(alloc, out.bytes(), [lines.as_str(), tail])?,
    )
}

#[test]
fn steps_of_a_long_homing(rt: HostRuntime) -> Result<(), Fail> {
    for row in &HOMED {
        assert!(rt; is_homed(&rt, rt.alloc(), row)?);
    }
    Ok(())
}

/// The board runs fast, and x makes a step each metre.
const LONG: &str = "[simulated_mcu]
drift_ppm: 100
[stepper_x]
rotation_distance: 1000
microsteps: 1
full_steps_per_rotation: 1
position_max: 500
";

const LONG_HEAD: &str = "machine cartesian boards 1 steppers 4
board mcu freq 16000000 turn 1260 tick 20160054
line mcu turn 1000 tick 16001600 from 1342000000
section 0 turn 1260 move
";

/// 4,990 seconds of a move in which x makes no step, and a millimetre of both x and y behind them, which make
/// all their steps.
#[test]
fn steps_behind_an_hour_without_one(rt: HostRuntime) -> Result<(), Fail> {
    let alloc = rt.alloc();
    let lines = told_each_second(alloc, LONG_HEAD, 16_001_600, 4_992, 342)?;
    let mut out = MemSink::new(alloc, Vec::new(alloc));
    let text = "G1 X499 F6\nG1 X500 Y1 F600\n";
    play(&rt, alloc, LONG, text, "", &mut out)?;
    let report = out.bytes();
    assert!(rt; makes(alloc, report, "stepper_x", (1, 79_870_461_302))?);
    assert!(rt; makes(alloc, report, "stepper_y", (80, 79_870_422_466))?);
    let tail = "lines 2 passed 0\nend 0 done\n";
    assert!(rt; tells(alloc, report, [lines.as_str(), tail])?);
    Ok(())
}

/// A fast board with few slots for triples, on which x has 204,800 steps a millimetre.
const BURST: &str = "[printer]
max_velocity: 1000
max_accel: 100000
[simulated_mcu]
clock_freq: 200000000
move_slots: 64
[stepper_x]
rotation_distance: 0.5
full_steps_per_rotation: 400
microsteps: 256
";

const BURST_MOVES: &str = "machine cartesian boards 1 steppers 4
board mcu freq 200000000 turn 1260 tick 252000000
section 0 turn 1260 move
";

/// Whether a first step that came late is one behind the 64th, by their planned ticks, and not behind the last one.
fn is_behind_slots(first: u64) -> bool {
    (252_010_875..=252_132_899).contains(&first)
}

/// Whether a burst ends the run, since a step came late. Its units wait until the first ones are over, five
/// turns behind their ticks: the next one is sent 255 turns later than it could be, and no turn was spoiled.
fn comes_late<R: Threads + Wait + Sync>(rt: &R, alloc: Global) -> Result<bool, AllocError> {
    let mut out = MemSink::new(alloc, Vec::new(alloc));
    let ended = play(rt, alloc, BURST, "G1 X0.01 F60000\n", "", &mut out)?;
    let (made, _, last) = pulses(alloc, out.bytes(), "stepper_x")?;
    let Cause::Late {
        board: 0,
        first,
        arrival: 253_000_000,
        spoiled: 0,
        spill: 255,
    } = ended.cause
    else {
        return Ok(false);
    };
    let end = format!(in alloc; "end 8 late mcu {first} 253000000 0 255\n")?;
    Ok(
        ended.status == 8
            && (64..2_048).contains(&made)
            && last < first
            && is_behind_slots(first)
            && tells(alloc, out.bytes(), [BURST_MOVES, end.as_str()])?,
    )
}

/// Ten micrometres, with 2,048 steps within a turn.
#[test]
fn a_burst_behind_the_end(rt: HostRuntime) -> Result<(), Fail> {
    assert!(rt; comes_late(&rt, rt.alloc())?);
    Ok(())
}
