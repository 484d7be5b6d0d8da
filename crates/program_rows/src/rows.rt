//! Runs, faults, command words and traces, each a table.

use crate::files::{X_DISTANCE, files, run};
use crate::printed::{Printed, first_wrong};
use crate::shown::{MOVES, Pulses, pulses, tells, tells_alone, ticks};
use io_core::MemSink;
use plan_types::{Cause, CfgKind};
use std::alloc::{AllocError, Global};
use std::sync::Wait;
use std::test::Fail;
use std::thread::Threads;

const JOB: [&str; 3] = ["run", "m.cfg", "t.gcode"];

/// A run: lines behind those of the configuration, the G-code, the pulses of x, y and the extruder, and the
/// report's other lines, as the first and the last ones.
type Run<'a> = (&'a str, &'a str, [Pulses; 3], [&'a str; 2]);

/// What stands before the first section of a report.
const BOARD: &str = "machine cartesian boards 1 steppers 4
board mcu freq 16000000 turn 1260 tick 20160000
";

/// The same, and a section that homes x.
const HOMES: &str = "machine cartesian boards 1 steppers 4
board mcu freq 16000000 turn 1260 tick 20160000
section 0 turn 1260 home x
";

const NONE: Pulses = (0, 0, 0);

const ONE: Pulses = (80, 20_192_660, 21_780_672);

const PLAIN: &str = "[printer]\nminimum_cruise_ratio: 0\n";

const COREXY: &str = "[printer]\nkinematics: corexy\n";

const RUNS: [Run<'static>; 17] = [
    (
        "",
        "",
        [NONE, NONE, NONE],
        [BOARD, "lines 0 passed 0\nend 0 done\n"],
    ),
    (
        "",
        "G1 X1 F600\n",
        [ONE, NONE, NONE],
        [MOVES, "lines 1 passed 0\nend 0 done\n"],
    ),
    (
        "",
        "G1 X0.00625",
        [(1, 20_208_984, 20_208_984), NONE, NONE],
        [MOVES, "lines 1 passed 0\nend 0 done\n"],
    ),
    (
        PLAIN,
        "G1 X0.00625",
        [(1, 20_206_188, 20_206_188), NONE, NONE],
        [MOVES, "lines 1 passed 0\nend 0 done\n"],
    ),
    (
        PLAIN,
        "G1 X0.006249",
        [NONE, NONE, NONE],
        [MOVES, "lines 1 passed 0\nend 0 done\n"],
    ),
    (
        PLAIN,
        "G1 X0.00625\nG1 X0",
        [NONE, NONE, NONE],
        [MOVES, "lines 2 passed 0\nend 0 done\n"],
    ),
    (
        "",
        "G1 X0.000001",
        [NONE, NONE, NONE],
        [MOVES, "lines 1 passed 0\nend 0 done\n"],
    ),
    (
        "",
        "G1 X1 F600\nG1 X2",
        [(160, 20_192_660, 23_380_672), NONE, NONE],
        [MOVES, "lines 2 passed 0\nend 0 done\n"],
    ),
    (
        "[stepper_x]\nposition_max: 10\n",
        "G28 X\n",
        [(1_200, 20_192_662, 44_180_675), NONE, NONE],
        [HOMES, "end 9 noswitch 0\n"],
    ),
    (
        "",
        "G1 X1 F600\nG1 X1.2.3",
        [ONE, NONE, NONE],
        [MOVES, "lines 1 passed 0\nend 7 line 2 BadNumber\n"],
    ),
    (
        "",
        "G1 X1 F600\nG2 X5 Y5 I1 J0",
        [ONE, NONE, NONE],
        [MOVES, "lines 1 passed 0\nend 7 line 2 Unsupported\n"],
    ),
    (
        "",
        "G1 X1 F600\nG1 X2 #",
        [ONE, NONE, NONE],
        [MOVES, "lines 1 passed 0\nend 7 line 2 BadLetter\n"],
    ),
    (
        "",
        "G1 X1 F600\nG1 X201",
        [ONE, NONE, NONE],
        [MOVES, "lines 1 passed 0\nend 7 line 2 OutOfRange\n"],
    ),
    (
        "",
        "G1 X1 F600\nG1 X2 F0",
        [ONE, NONE, NONE],
        [MOVES, "lines 1 passed 0\nend 7 line 2 BadSpeed\n"],
    ),
    (
        "",
        "G1 X1 F600\nG1 E600",
        [ONE, NONE, NONE],
        [MOVES, "lines 1 passed 0\nend 7 line 2 MoveTooLong\n"],
    ),
    (
        "",
        "G1 X1 F600\nM112\nG1 X5",
        [ONE, NONE, NONE],
        [MOVES, "lines 2 passed 0\nend 8 asked 2\n"],
    ),
    (
        "[simulation]\nstart_homed: False\n",
        "G1 X1",
        [NONE, NONE, NONE],
        [BOARD, "lines 0 passed 0\nend 7 line 1 NotHomed\n"],
    ),
];

/// The same, of which only the numbers of the pulses are known.
const COUNTS: [(&str, &str, [u64; 3]); 4] = [
    ("", "G1 X10 F6000\nG1 Y10", [800, 800, 0]),
    ("", "G1 X1e3", [80, 0, 300]),
    (COREXY, "G1 X1 Y1 F600", [160, 0, 0]),
    ("[stepper_x]\nmicrosteps: 32\n", "G1 X1 F600", [160, 0, 0]),
];

/// Whether a run makes these pulses and tells these lines.
fn runs_so<R: Threads + Wait + Sync>(
    rt: &R,
    alloc: Global,
    row: &Run<'_>,
) -> Result<bool, AllocError> {
    let (more, text, wanted, lines) = *row;
    let mut read = files(alloc, X_DISTANCE, more, text)?;
    let mut out = MemSink::new(alloc, Vec::new(alloc));
    run(rt, alloc, &JOB, &mut read, &mut out)?;
    let report = out.bytes();
    let made = [
        pulses(alloc, report, "stepper_x")?,
        pulses(alloc, report, "stepper_y")?,
        pulses(alloc, report, "extruder")?,
    ];
    Ok(made == wanted && tells(alloc, report, lines)?)
}

/// The first run that makes others or tells others.
fn first_other<R: Threads + Wait + Sync>(
    rt: &R,
    alloc: Global,
    rows: &[Run<'_>],
) -> Result<Option<usize>, AllocError> {
    for (index, row) in rows.iter().enumerate() {
        if !runs_so(rt, alloc, row)? {
            return Ok(Some(index));
        }
    }
    Ok(None)
}

/// The numbers of pulses of x, y and the extruder in a run.
fn counts<R: Threads + Wait + Sync>(
    rt: &R,
    alloc: Global,
    more: &str,
    text: &str,
) -> Result<[u64; 3], AllocError> {
    let mut read = files(alloc, X_DISTANCE, more, text)?;
    let mut out = MemSink::new(alloc, Vec::new(alloc));
    let ended = run(rt, alloc, &JOB, &mut read, &mut out)?;
    let counts = ended.report.counts.as_slice();
    match counts {
        [x, y, _, e] => Ok([*x, *y, *e]),
        _ => Ok([0; 3]),
    }
}

/// The first run that makes another number of pulses.
fn first_uncounted<R: Threads + Wait + Sync>(
    rt: &R,
    alloc: Global,
    rows: &[(&str, &str, [u64; 3])],
) -> Result<Option<usize>, AllocError> {
    for (index, (more, text, wanted)) in rows.iter().enumerate() {
        if counts(rt, alloc, more, text)? != *wanted {
            return Ok(Some(index));
        }
    }
    Ok(None)
}

#[test]
fn runs(rt: HostRuntime) -> Result<(), Fail> {
    assert_eq!(rt; first_other(&rt, rt.alloc(), &RUNS)?, None);
    assert_eq!(rt; first_uncounted(&rt, rt.alloc(), &COUNTS)?, None);
    Ok(())
}

/// A board that runs fast by 100 millionths is asked in turn 1,000, and its line holds from turn 1,342 on.
#[test]
fn a_drifting_board(rt: HostRuntime) -> Result<(), Fail> {
    let alloc = rt.alloc();
    let drift = "[simulated_mcu]\ndrift_ppm: 100\n";
    let mut read = files(alloc, X_DISTANCE, drift, "G1 X1 F600\n")?;
    let mut out = MemSink::new(alloc, Vec::new(alloc));
    run(&rt, alloc, &JOB, &mut read, &mut out)?;
    let line = "line mcu turn 1000 tick 16001600 from 1342000000";
    assert_eq!(rt; tells_alone(out.bytes(), line), true);
    let (made, _, _) = pulses(alloc, out.bytes(), "stepper_x")?;
    assert_eq!(rt; made, 80);
    assert_eq!(rt;
        out.bytes()
            .ends_with(b"lines 1 passed 0\nend 0 done\n".as_slice()),
        true
    );
    Ok(())
}

/// At full speed through a straight junction: from the first move's last step to the second's first it is a
/// gap as before.
#[test]
fn straight_on(rt: HostRuntime) -> Result<(), Fail> {
    let alloc = rt.alloc();
    let mut read = files(alloc, X_DISTANCE, "", "G1 X1 F600\nG1 X2")?;
    let mut out = MemSink::new(alloc, Vec::new(alloc));
    run(&rt, alloc, &JOB, &mut read, &mut out)?;
    let ticks = ticks(alloc, out.bytes(), "stepper_x")?;
    // planned at 21,776,666 and 21,796,665
    let (last, next) = (
        ticks.get(79).copied().unwrap_or(0),
        ticks.get(80).copied().unwrap_or(0),
    );
    assert!(rt; (21_776_266..=21_776_666).contains(&last));
    assert!(rt; (21_796_265..=21_796_665).contains(&next));
    Ok(())
}

/// Faults and command words that are refused, and small loads.
const REFUSALS: [Printed<'static>; 16] = [
    (&["run", "m.cfg"], "", "", 2, "end 2 usage\n"),
    (&["run", "-h", "t.gcode"], "", "", 2, "end 2 usage\n"),
    (
        &["run", "m.cfg", "t.gcode"],
        "[stepper_x]\ngear_ratio: 3:1\n",
        "G1 X1 F600\n",
        5,
        "end 5 config 44 BadValue\n",
    ),
    (
        &["run", "m.cfg", "t.gcode"],
        "[printer]\nminimum_cruise_ratio: 1\n",
        "G1 X1 F600\n",
        5,
        "end 5 config 44 OutOfLimit\n",
    ),
    (
        &["run", "m.cfg", "t.gcode"],
        "[simulated_mcu]\ndrift_ppm: 201\n",
        "G1 X1 F600\n",
        5,
        "end 5 config 44 OutOfLimit\n",
    ),
    (
        &["make", "1", "0"],
        "",
        "",
        0,
        "make seed 1 moves 0\nstepper_x 0\nstepper_y 0\nstepper_z 0\nextruder 0\nend 0 done\n",
    ),
    (
        &["make", "001", "0001"],
        "",
        "",
        0,
        "make seed 1 moves 1\nstepper_x 2418\nstepper_y 364\nstepper_z 0\nextruder 0\nend 0 done\n",
    ),
    (
        &["make", "007", "0001"],
        "",
        "",
        0,
        "make seed 7 moves 1\nstepper_x 12799\nstepper_y 424\nstepper_z 0\nextruder 0\nend 0 done\n",
    ),
    (&["make", "1", "1000001"], "", "", 2, "end 2 usage\n"),
    (
        &["make", "18446744073709551616", "1"],
        "",
        "",
        2,
        "end 2 usage\n",
    ),
    (&["make", "1x", "1"], "", "", 2, "end 2 usage\n"),
    (&["make", "+1", "1"], "", "", 2, "end 2 usage\n"),
    (&["run", "a", "b", "c", "d"], "", "", 2, "end 2 usage\n"),
    (&["help"], "", "", 2, "end 2 usage\n"),
    (&["-h"], "", "", 2, "end 2 usage\n"),
    (&[""], "", "", 2, "end 2 usage\n"),
];

#[test]
fn refusals(rt: HostRuntime) -> Result<(), Fail> {
    assert_eq!(rt; first_wrong(&rt, rt.alloc(), &REFUSALS)?, None);
    assert_eq!(rt;
        first_wrong(
            &rt,
            rt.alloc(),
            &[([].as_slice(), "", "", 2, "end 2 usage\n")]
        )?,
        None
    );
    Ok(())
}

/// The summary of forty moves.
const FORTY: &str = "make seed 3 moves 40
stepper_x 226006
stepper_y 10030
stepper_z 0
extruder 0
end 0 done
";

/// They are made twice.
const TWICE: [Printed<'static>; 2] = [
    (&["make", "3", "40"], "", "", 0, FORTY),
    (&["make", "3", "40"], "", "", 0, FORTY),
];

#[test]
fn a_load_is_made_alike(rt: HostRuntime) -> Result<(), Fail> {
    assert_eq!(rt; first_wrong(&rt, rt.alloc(), &TWICE)?, None);
    Ok(())
}

/// A file that isn't there.
#[test]
fn a_file_that_is_not_there(rt: HostRuntime) -> Result<(), Fail> {
    let alloc = rt.alloc();
    let mut read = files(alloc, X_DISTANCE, "", "")?;
    let mut out = MemSink::new(alloc, Vec::new(alloc));
    let ended = run(
        &rt,
        alloc,
        &["run", "m.cfg", "no.gcode"],
        &mut read,
        &mut out,
    )?;
    assert_eq!(rt; ended.status, 3);
    assert!(rt; out.bytes() == b"end 3 read\n".as_slice());
    Ok(())
}

#[test]
fn a_fault_of_the_configuration(rt: HostRuntime) -> Result<(), Fail> {
    let alloc = rt.alloc();
    let mut read = files(alloc, "rotation_distance: 0\n", "", "G1 X1 F600\n")?;
    let mut out = MemSink::new(alloc, Vec::new(alloc));
    let ended = run(&rt, alloc, &JOB, &mut read, &mut out)?;
    let fault = Cause::Config {
        line: 14,
        kind: CfgKind::OutOfLimit,
    };
    assert_eq!(rt; ended.cause, fault);
    assert_eq!(rt; out.bytes(), b"end 5 config 14 OutOfLimit\n".as_slice());
    Ok(())
}

/// Traces, dumped and replayed. The block makes a stepper and lets it make one step at tick 1,000.
const TRACES: [Printed<'static>; 9] = [
    (
        &["dump", "m.cfg", "mcu", "t.gcode"],
        "",
        "turn 0 0C100800819C204E00AC047E",
        0,
        "block 0 0 taken\ncmd queue_step 0 20000 78 0\nend 0 done\n",
    ),
    (
        &["replay", "m.cfg", "mcu", "t.gcode"],
        "",
        "turn 0 0C100800819C204E00AC047E",
        0,
        "state running\nend 0 done\n",
    ),
    (
        &["replay", "m.cfg", "mcu", "t.gcode"],
        "",
        "turn 0 17100700000100000A000009000108008768010066137E\n",
        0,
        "pulse mcu 0 1000 +\nstate running\nend 0 done\n",
    ),
    (
        &["replay", "m.cfg", "mcu", "t.gcode"],
        "",
        "turn 0 17100700000100000A000009000108008768010066137E\nturn 1 17100700000100000A000009000108008768010066137e # again\n",
        0,
        "pulse mcu 0 1000 +\nstate running\nend 0 done\n",
    ),
    (
        &["dump", "m.cfg", "mcu", "t.gcode"],
        "",
        "turn 0 17100700000100000A000009000108008768010066137E\nturn 1 17100700000100000A000009000108008768010066137e # again\n",
        0,
        "block 0 0 taken\ncmd config_stepper 0 0 1 0 0\ncmd reset_step_clock 0 0\ncmd set_next_step_dir 0 1\ncmd queue_step 0 1000 1 0\nblock 1 0 dropped\ncmd config_stepper 0 0 1 0 0\ncmd reset_step_clock 0 0\ncmd set_next_step_dir 0 1\ncmd queue_step 0 1000 1 0\nend 0 done\n",
    ),
    (
        &["dump", "m.cfg", "mcu", "t.gcode"],
        "",
        "turn 3 05109E",
        0,
        "open 3\nend 0 done\n",
    ),
    (
        &["dump", "m.cfg", "mcu", "t.gcode"],
        "",
        "turn 1 0",
        11,
        "end 11 trace 1 BadLine\n",
    ),
    (
        &["replay", "m.cfg", "mcu", "t.gcode"],
        "",
        "turn 1 7E\nturn 1 7E\n",
        11,
        "end 11 trace 2 NotRising\n",
    ),
    (
        &["dump", "m.cfg", "ebb", "t.gcode"],
        "",
        "turn 0 17100700000100000A000009000108008768010066137E\n",
        12,
        "end 12 noboard\n",
    ),
];

#[test]
fn traces(rt: HostRuntime) -> Result<(), Fail> {
    assert_eq!(rt; first_wrong(&rt, rt.alloc(), &TRACES)?, None);
    Ok(())
}
