//! Reads and writes that fail in a run.

use crate::files::{X_DISTANCE, files, files_with_faults, run};
use io_core::MemSink;
use plan_types::Cause;
use session_run::{status_of, with_failure};
use std::alloc::{AllocError, Global};
use std::sync::Wait;
use std::test::Fail;
use std::thread::Threads;

const JOB: [&str; 3] = ["run", "m.cfg", "t.gcode"];

/// The status of a run of one move in which these reads fail.
fn status<R: Threads + Wait + Sync>(
    rt: &R,
    alloc: Global,
    reads: &[u64],
    out: &mut MemSink,
) -> Result<u8, AllocError> {
    let fails = Vec::from_slice(alloc, reads)?;
    let mut read = files_with_faults(alloc, X_DISTANCE, "", "G1 X1 F600\n", fails)?;
    Ok(run(rt, alloc, &JOB, &mut read, out)?.status)
}

/// Whether a run in which a read fails says so, and shows the front of the whole report before.
fn is_front_and_end<R: Threads + Wait + Sync>(
    rt: &R,
    alloc: Global,
    read: u64,
    whole: &[u8],
) -> Result<bool, AllocError> {
    let mut out = MemSink::new(alloc, Vec::new(alloc));
    let status = status(rt, alloc, &[read], &mut out)?;
    let text = str::from_utf8(out.bytes()).unwrap_or("");
    let Some(front) = text.strip_suffix("end 3 read\n") else {
        return Ok(false);
    };
    Ok(status == 3 && whole.starts_with(front.as_bytes()))
}

/// Whether one in which a write fails says so, and shows the front of the whole report.
fn is_front<R: Threads + Wait + Sync>(
    rt: &R,
    alloc: Global,
    write: u64,
    whole: &[u8],
) -> Result<bool, AllocError> {
    let mut out = MemSink::new(alloc, Vec::from_slice(alloc, &[write])?);
    let status = status(rt, alloc, &[], &mut out)?;
    let shown = out.bytes();
    Ok(status == 4 && shown.len() < whole.len() && whole.starts_with(shown))
}

/// How many of the first three reads, and of the first five writes, end a run as they should where they fail.
fn fronts<R: Threads + Wait + Sync>(rt: &R, alloc: Global) -> Result<(u64, u64), AllocError> {
    let mut whole = MemSink::new(alloc, Vec::new(alloc));
    status(rt, alloc, &[], &mut whole)?;
    let mut reads = 0_u64;
    for read in 0..3 {
        if is_front_and_end(rt, alloc, read, whole.bytes())? {
            reads = reads.saturating_add(1);
        }
    }
    let mut writes = 0_u64;
    for write in 0..5 {
        if is_front(rt, alloc, write, whole.bytes())? {
            writes = writes.saturating_add(1);
        }
    }
    Ok((reads, writes))
}

/// Each of the first three reads fails, and each of the first five writes.
#[test]
fn first_reads_and_writes_that_fail(rt: HostRuntime) -> Result<(), Fail> {
    assert_eq!(rt; fronts(&rt, rt.alloc())?, (3, 5));
    Ok(())
}

/// A sink that takes whole pieces and fails at its third write.
#[test]
fn a_write_that_fails(rt: HostRuntime) -> Result<(), Fail> {
    let alloc = rt.alloc();
    let mut read = files(alloc, X_DISTANCE, "", "G1 X1 F600\n")?;
    let mut out = MemSink::new(alloc, Vec::from_slice(alloc, &[2])?);
    let ended = run(&rt, alloc, &JOB, &mut read, &mut out)?;
    assert_eq!(rt; ended.status, 4);
    assert_eq!(rt;
        out.bytes(),
        b"machine cartesian boards 1 steppers 4\nboard mcu freq 16000000 turn 1260 tick 20160000\n".as_slice()
    );
    Ok(())
}

/// A move, a wait for its end, and many lines behind it.
fn long_text(alloc: Global) -> Result<String, AllocError> {
    let mut text = String::from_str(alloc, "G1 X1 F600\nM400\n")?;
    for _ in 0..1_000 {
        text.push_str(
            "; nothing moves here, and nothing is said but that the file goes on for a good while yet\n",
        )?;
    }
    Ok(text)
}

/// The read of a piece that fails while a run goes on ends it, and what was sent before is shown.
#[test]
fn a_read_that_fails_on_the_way(rt: HostRuntime) -> Result<(), Fail> {
    let alloc = rt.alloc();
    let job = ["run", "m.cfg", "t.gcode", "clear.scene"];
    let text = long_text(alloc)?;
    let mut read = files(alloc, X_DISTANCE, "", text.as_str())?;
    let mut out = MemSink::new(alloc, Vec::new(alloc));
    let ended = run(&rt, alloc, &job, &mut read, &mut out)?;
    assert_eq!(rt; ended.status, 0);
    let last = read.calls().saturating_sub(1);
    let fails = Vec::from_slice(alloc, &[last])?;
    let mut read = files_with_faults(alloc, X_DISTANCE, "", text.as_str(), fails)?;
    let mut cut = MemSink::new(alloc, Vec::new(alloc));
    let ended = run(&rt, alloc, &job, &mut read, &mut cut)?;
    assert_eq!(rt; ended.status, 3);
    let end = b"end 3 read\n";
    assert!(rt; cut.bytes().ends_with(end.as_slice()));
    let head =
        b"machine cartesian boards 1 steppers 4\nboard mcu freq 16000000 turn 1260 tick 20160000\nsection 0 turn 1260 move\npulse mcu stepper_x 20192660 +\n";
    assert!(rt; cut.bytes().starts_with(head.as_slice()));
    let shown = &cut.bytes()[..cut.bytes().len() - end.len()];
    assert!(rt; out.bytes().starts_with(shown));
    Ok(())
}

/// A write that fails while the end line of a want of memory is written leaves that status. No test can
/// refuse memory at one place of a run, so it is asked of the call that the end of every command goes
/// through.
#[test]
fn a_write_that_fails_behind_a_want_of_memory(rt: HostRuntime) -> Result<(), Fail> {
    assert_eq!(rt; status_of(&with_failure(Cause::Memory)), 1);
    assert_eq!(rt; status_of(&with_failure(Cause::Done)), 4);
    assert_eq!(rt; status_of(&with_failure(Cause::Usage)), 4);
    Ok(())
}
