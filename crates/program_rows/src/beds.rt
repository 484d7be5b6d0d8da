//! Files that follow a bed, as a table.

use crate::files::{X_DISTANCE, files, run};
use io_core::MemSink;
use std::alloc::{AllocError, Global};
use std::sync::Wait;
use std::test::Fail;
use std::thread::Threads;

const RAMP: &str = "mesh 0 0 10 10 2 2\n0 0.1\n0 0.1\n";

/// A bed: lines behind those of the configuration, the table, the G-code, the status, and what is written.
type Bed<'a> = (&'a str, &'a str, &'a str, u8, &'a str);

const BEDS: [Bed<'static>; 6] = [
    (
        "",
        RAMP,
        "G1 X20 F600",
        0,
        "G90\nM83\nG1 X10.000000 Y0.000000 Z0.100000 E0.000000 F600.000000\nG1 X20.000000 Y0.000000 Z0.100000 E0.000000 F600.000000\n; end 0 done\n",
    ),
    (
        "",
        "mesh 0 0 10 10 2 2\n0 0.1\n0.2 0.4\n",
        "G1 X5 Y5 F600\nG1 X20 Y20 E1\nM112\n",
        8,
        "G90\nM83\nG1 X5.000000 Y5.000000 Z0.175000 E0.000000 F600.000000\nG1 X10.000000 Y10.000000 Z0.400000 E0.333333 F600.000000\nG1 X20.000000 Y20.000000 Z0.400000 E0.666667 F600.000000\nM112\n; end 8 asked 3\n",
    ),
    (
        "",
        "mesh 0 0 10 10 2 2\n-1 -1\n-1 -1\n",
        "G1 X5 F600",
        7,
        "G90\nM83\n; end 7 line 1 OutOfRange\n",
    ),
    (
        "",
        "mesh 0 0 10 10 2 2\n",
        "G1 X5 F600",
        13,
        "; end 13 mesh 0 Missing\n",
    ),
    ("", RAMP, "", 0, "G90\nM83\n; end 0 done\n"),
    ("[fan]\n", RAMP, "", 5, "; end 5 config 43 Missing\n"),
];

/// The status of `mesh` over a bed, and what it writes.
fn followed<R: Threads + Wait + Sync>(
    rt: &R,
    alloc: Global,
    more: &str,
    table: &str,
    text: &str,
) -> Result<(u8, MemSink), AllocError> {
    let mut read = files(alloc, X_DISTANCE, more, text)?;
    read.add("t.mesh", table.as_bytes())?;
    let mut out = MemSink::new(alloc, Vec::new(alloc));
    let ended = run(
        rt,
        alloc,
        &["mesh", "m.cfg", "t.gcode", "t.mesh"],
        &mut read,
        &mut out,
    )?;
    Ok((ended.status, out))
}

/// The first bed over which something else is written.
fn first_wrong<R: Threads + Wait + Sync>(
    rt: &R,
    alloc: Global,
    beds: &[Bed<'_>],
) -> Result<Option<usize>, AllocError> {
    for (index, (more, table, text, status, wanted)) in beds.iter().enumerate() {
        let (ended, out) = followed(rt, alloc, more, table, text)?;
        if ended != *status || out.bytes() != wanted.as_bytes() {
            return Ok(Some(index));
        }
    }
    Ok(None)
}

#[test]
fn beds(rt: HostRuntime) -> Result<(), Fail> {
    assert_eq!(rt; first_wrong(&rt, rt.alloc(), &BEDS)?, None);
    Ok(())
}

/// What is written for the ramp goes up a tenth of a millimetre as it goes along.
#[test]
fn the_ramp_runs(rt: HostRuntime) -> Result<(), Fail> {
    let alloc = rt.alloc();
    let (_, ramp) = followed(&rt, alloc, "", RAMP, "G1 X20 F600")?;
    let mut read = files(alloc, X_DISTANCE, "", "")?;
    read.add("t.gcode", ramp.bytes())?;
    let mut out = MemSink::new(alloc, Vec::new(alloc));
    let ended = run(
        &rt,
        alloc,
        &["run", "m.cfg", "t.gcode"],
        &mut read,
        &mut out,
    )?;
    assert_eq!(rt; ended.status, 0);
    assert_eq!(rt;
        ended.report.counts.as_slice(),
        [1_600, 0, 40, 0].as_slice()
    );
    Ok(())
}
