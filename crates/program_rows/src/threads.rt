//! The workers of a run go on beside each other.

use crate::files::{X_DISTANCE, files, words};
use host_cli::host_main;
use io_core::{FreeGate, Gate, MemFiles, MemSink, Who};
use std::alloc::{AllocError, Global};
use std::sync::Wait;
use std::sync::atomic::{AtomicU64, Ordering};
use std::test::Fail;
use std::thread;
use std::thread::Threads;

/// A gate that holds the planner and two links at turn 1, and the links at turn 1,300, until all of them have come.
#[derive(Drop)]
struct HoldingGate {
    first: AtomicU64,
    later: AtomicU64,
    missed: AtomicU64,
}

impl HoldingGate {
    /// Waits until so many have come, but not for ever.
    fn hold(&self, come: &AtomicU64, all: u64) {
        come.fetch_add(1, Ordering::SeqCst);
        for _ in 0..10_000_000 {
            if come.load(Ordering::SeqCst) >= all {
                return;
            }
            thread::yield_now();
        }
        self.missed.fetch_add(1, Ordering::SeqCst);
    }
}

impl Gate for HoldingGate {
    fn pass(&self, who: Who, turn: u64) {
        match (who, turn) {
            (Who::Motion | Who::Link(_), 1) => self.hold(&self.first, 3),
            (Who::Link(_), 1_300) => self.hold(&self.later, 2),
            _ => {}
        }
    }
}

/// A second board, which has the switch of x.
const TOOL: &str = "[mcu tool]
[simulated_mcu tool]
clock_freq: 48000000
start_clock: 1000
[stepper_x]
endstop_pin: tool:PA1
";

/// A run in a scene, at a gate. (It has no clauses, so that those of the top call are read here alone.)
fn run<R: Threads + Wait + Sync, G: Gate + Sync>(
    rt: &R,
    alloc: Global,
    files: &mut MemFiles,
    out: &mut MemSink,
    gate: &G,
) -> Result<(), AllocError> {
    let words = words(alloc, &["run", "m.cfg", "t.gcode", "clear.scene"])?;
    host_main(rt, alloc, &words, files, out, gate);
    Ok(())
}

#[test]
fn workers_go_beside_each_other(rt: HostRuntime) -> Result<(), Fail> {
    let alloc = rt.alloc();
    let gate = HoldingGate {
        first: AtomicU64::new(0),
        later: AtomicU64::new(0),
        missed: AtomicU64::new(0),
    };
    let mut read = files(alloc, X_DISTANCE, TOOL, "G1 X1 F600\n")?;
    let mut held = MemSink::new(alloc, Vec::new(alloc));
    run(&rt, alloc, &mut read, &mut held, &gate)?;
    let mut free = MemSink::new(alloc, Vec::new(alloc));
    run(&rt, alloc, &mut read, &mut free, &FreeGate)?;
    assert_eq!(rt; gate.missed.load(Ordering::SeqCst), 0);
    assert_eq!(rt; gate.first.load(Ordering::SeqCst), 3);
    assert_eq!(rt; gate.later.load(Ordering::SeqCst), 2);
    assert_eq!(rt; held.bytes(), free.bytes());
    Ok(())
}
