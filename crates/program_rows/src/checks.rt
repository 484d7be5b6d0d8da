//! Logs that are checked, as a table.

use crate::files::{X_DISTANCE, files, run};
use io_core::{MemFiles, MemSink};
use std::alloc::{AllocError, Global};
use std::sync::Wait;
use std::test::Fail;
use std::thread::Threads;

const TEXT: &str = "G1 X0.0375 F600\nG4 P10\nG1 X0.0125 Y0.025\n";

/// The report of a run of the text, as the reference program prints it.
const LOG: [&str; 13] = [
    "machine cartesian boards 1 steppers 4\n",
    "board mcu freq 16000000 turn 1260 tick 20160000\n",
    "section 0 turn 1260 move\n",
    "pulse mcu stepper_x 20192660 +\n",
    "pulse mcu stepper_x 20220000 +\n",
    "pulse mcu stepper_x 20247341 +\n",
    "section 1 turn 1537 move\n",
    "pulse mcu stepper_x 24630839 -\n",
    "pulse mcu stepper_y 24630839 +\n",
    "pulse mcu stepper_x 24669679 -\n",
    "pulse mcu stepper_y 24669679 +\n",
    "lines 3 passed 0\n",
    "end 0 done\n",
];

/// What is told of the first section, and of both, where all fits.
const ONE: &str = "section 0 stepper_x 3 3 0 0\n";

const BOTH: &str = "section 0 stepper_x 3 3 0 0
section 1 stepper_x 2 2 0 0
section 1 stepper_y 2 2 0 0
";

/// The files of a check, with other text in the place of a line of the log.
fn logged(alloc: Global, place: usize, text: &str) -> Result<MemFiles, AllocError> {
    let mut log = Vec::new(alloc);
    for (i, line) in LOG.iter().enumerate() {
        let part = if i == place { text } else { line };
        log.extend_from_slice(part.as_bytes())?;
    }
    let mut files = files(alloc, X_DISTANCE, "", TEXT)?;
    files.add("l.report", log.as_slice())?;
    Ok(files)
}

const FIRST: &str = "section 0 stepper_x 2 3 0 0\n";

const LATE: &str = "pulse mcu stepper_x 20220001 +\n";

/// A log: which of its lines another text stands for, that text, what is told of its sections, and the end line.
type Check<'a> = (usize, &'a str, &'a str, &'a str);

const CHECKS: [Check<'static>; 30] = [
    (20, "", BOTH, "end 0 done\n"),
    // a tick later, a tick before the window, and at its beginning
    (
        4,
        LATE,
        "section 0 stepper_x 2 3 0 1\n",
        "end 15 misfit 5 Late\n",
    ),
    (
        4,
        "pulse mcu stepper_x 20219599 +\n",
        "section 0 stepper_x 2 3 401 0\n",
        "end 15 misfit 5 Early\n",
    ),
    (
        10,
        "pulse mcu stepper_y 24669279 + # in time\n\n",
        "section 0 stepper_x 3 3 0 0\nsection 1 stepper_x 2 2 0 0\nsection 1 stepper_y 2 2 400 0\n",
        "end 0 done\n",
    ),
    // left out, doubled, turned round, moved to another section
    (5, "", FIRST, "end 15 misfit 6 Missing\n"),
    (11, "", BOTH, "end 0 done\n"),
    (
        5,
        "pulse mcu stepper_x 20247341 +\npulse mcu stepper_x 20247341 +\n",
        "section 0 stepper_x 4 3 0 0\n",
        "end 15 misfit 7 Extra\n",
    ),
    (
        4,
        "pulse mcu stepper_x 20220000 -\n",
        FIRST,
        "end 15 misfit 5 Direction\n",
    ),
    (
        7,
        "pulse mcu stepper_x 20247341 +\n",
        "section 0 stepper_x 3 3 0 0\nsection 1 stepper_x 1 2 4383498 0\nsection 1 stepper_y 0 2 0 0\n",
        "end 15 misfit 8 Direction\n",
    ),
    // a section a turn sooner, a turn later, another one, and one that is no homing
    (
        6,
        "section 1 turn 1536 move\n",
        ONE,
        "end 15 misfit 7 Section\n",
    ),
    (
        6,
        "section 1 turn 1538 move\n",
        "section 0 stepper_x 3 3 0 0\nsection 1 stepper_x 1 2 16000 0\nsection 1 stepper_y 0 2 0 0\n",
        "end 15 misfit 8 Early\n",
    ),
    (
        6,
        "section 2 turn 1537 move\n",
        ONE,
        "end 15 misfit 7 Section\n",
    ),
    (
        6,
        "section 1 turn 1537 home x\n",
        ONE,
        "end 15 misfit 7 Section\n",
    ),
    (
        5,
        "cut 0 mcu PC0 20247341 1\n",
        FIRST,
        "end 15 misfit 6 Section\n",
    ),
    // what can't be read, or names what isn't there
    (
        4,
        "pulse mcu stepper_x 20220000\n",
        "section 0 stepper_x 1 3 0 0\n",
        "end 15 misfit 5 BadLine\n",
    ),
    (
        4,
        "pulse mcu stepper_q 20220000 +\n",
        "section 0 stepper_x 1 3 0 0\n",
        "end 15 misfit 5 Unknown\n",
    ),
    (
        4,
        "pulse tool stepper_x 20220000 +\n",
        "section 0 stepper_x 1 3 0 0\n",
        "end 15 misfit 5 Unknown\n",
    ),
    (
        0,
        "machine corexy boards 1 steppers 4\n",
        "",
        "end 15 misfit 1 Unknown\n",
    ),
    (
        1,
        "board mcu freq 12000000 turn 1260 tick 20160000\n",
        "",
        "end 15 misfit 2 Unknown\n",
    ),
    (1, "", "", "end 15 misfit 2 Section\n"),
    (2, "", "", "end 15 misfit 3 Extra\n"),
    (
        12,
        "end 0 done\nend 0 done\n",
        BOTH,
        "end 15 misfit 14 BadLine\n",
    ),
    // a further clock line, by which the second section's steps are 140 ticks later, 1,000 later and 100 sooner
    (
        1,
        "board mcu freq 16000000 turn 1260 tick 20160000\nline mcu turn 1400 tick 22400140 from 1530000000\n",
        "section 0 stepper_x 3 3 0 0\nsection 1 stepper_x 2 2 140 0\nsection 1 stepper_y 2 2 140 0\n",
        "end 0 done\n",
    ),
    (
        8,
        "line mcu turn 1400 tick 22401000 from 1530000000\n",
        "section 0 stepper_x 3 3 0 0\nsection 1 stepper_x 1 2 1000 0\nsection 1 stepper_y 0 2 0 0\n",
        "end 15 misfit 8 Early\n",
    ),
    (
        11,
        "line mcu turn 1400 tick 22399900 from 1530000000\n",
        "section 0 stepper_x 3 3 0 0\nsection 1 stepper_x 1 2 0 100\nsection 1 stepper_y 0 2 0 0\n",
        "end 15 misfit 8 Late\n",
    ),
    // one that holds no later than the line before it, one from before the board's first line on, one before
    // that line, one of a board that isn't there
    (
        1,
        "board mcu freq 16000000 turn 1260 tick 20160000\nline mcu turn 1400 tick 22400140 from 1530000000\nline mcu turn 1401 tick 22416140 from 1530000000\n",
        "",
        "end 15 misfit 4 BadLine\n",
    ),
    (
        5,
        "line mcu turn 1259 tick 20144000 from 1259000000\n",
        FIRST,
        "end 15 misfit 6 BadLine\n",
    ),
    (
        0,
        "machine cartesian boards 1 steppers 4\nline mcu turn 1400 tick 22400140 from 1530000000\n",
        "",
        "end 15 misfit 2 BadLine\n",
    ),
    (
        5,
        "line tool turn 1400 tick 22400140 from 1530000000\n",
        FIRST,
        "end 15 misfit 6 Unknown\n",
    ),
    // a log without an end line
    (12, "", BOTH, "end 0 done\n"),
];

/// Whether a log is judged so.
fn is_so<R: Threads + Wait + Sync>(
    rt: &R,
    alloc: Global,
    row: &Check<'_>,
) -> Result<bool, AllocError> {
    let (place, text, told, end) = *row;
    let mut read = logged(alloc, place, text)?;
    let mut out = MemSink::new(alloc, Vec::new(alloc));
    let ended = run(
        rt,
        alloc,
        &["check", "m.cfg", "t.gcode", "l.report"],
        &mut read,
        &mut out,
    )?;
    let mut wanted = Vec::new(alloc);
    wanted.extend_from_slice(told.as_bytes())?;
    wanted.extend_from_slice(end.as_bytes())?;
    let status = if end == "end 0 done\n" { 0 } else { 15 };
    Ok(ended.status == status && out.bytes() == wanted.as_slice())
}

/// The first log that is judged otherwise.
fn first_wrong<R: Threads + Wait + Sync>(
    rt: &R,
    alloc: Global,
    rows: &[Check<'_>],
) -> Result<Option<usize>, AllocError> {
    for (index, row) in rows.iter().enumerate() {
        if !is_so(rt, alloc, row)? {
            return Ok(Some(index));
        }
    }
    Ok(None)
}

#[test]
fn checks(rt: HostRuntime) -> Result<(), Fail> {
    assert_eq!(rt; first_wrong(&rt, rt.alloc(), &CHECKS)?, None);
    Ok(())
}
