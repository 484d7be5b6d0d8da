//! The files of the runs, and a run over them.

use host_cli::{Ended, host_main};
use io_core::{FreeGate, MemFiles, MemSink};
use std::alloc::{AllocError, Global};
use std::sync::Wait;
use std::thread::Threads;

/// A cartesian printer with one board, of 42 lines: what stands before the rotation distance of x, that line,
/// and the rest.
const HEAD: &str = "[printer]
kinematics: cartesian
max_velocity: 300
max_accel: 3000
square_corner_velocity: 5
[simulation]
start_homed: True
[mcu]
[simulated_mcu]
clock_freq: 16000000
[stepper_x]
step_pin: PB0
dir_pin: PB1
";

pub const X_DISTANCE: &str = "rotation_distance: 40\n";

const REST: &str = "microsteps: 16
endstop_pin: PC0
position_endstop: 0
position_max: 200
homing_speed: 10
[stepper_y]
step_pin: PB2
dir_pin: PB3
rotation_distance: 40
microsteps: 16
endstop_pin: PC1
position_endstop: 0
position_max: 200
homing_speed: 10
[stepper_z]
step_pin: PB4
dir_pin: PB5
rotation_distance: 8
microsteps: 16
endstop_pin: PC2
position_endstop: 0
position_max: 200
homing_speed: 10
[extruder]
step_pin: PB6
dir_pin: PB7
rotation_distance: 32
microsteps: 16
";

/// The files of a run: the printer with a line for its distance of x and more lines behind its own, and a text.
pub fn files(
    alloc: Global,
    x_distance: &str,
    more: &str,
    text: &str,
) -> Result<MemFiles, AllocError> {
    files_with_faults(alloc, x_distance, more, text, Vec::new(alloc))
}

/// The same files, and the numbers of the reads that fail.
pub fn files_with_faults(
    alloc: Global,
    x_distance: &str,
    more: &str,
    text: &str,
    fails: Vec<u64>,
) -> Result<MemFiles, AllocError> {
    let mut config = Vec::from_slice(alloc, HEAD.as_bytes())?;
    for part in [x_distance, REST, more] {
        config.extend_from_slice(part.as_bytes())?;
    }
    let mut files = MemFiles::new(alloc, fails);
    files.add("m.cfg", config.as_slice())?;
    files.add("clear.scene", b"".as_slice())?;
    files.add("t.gcode", text.as_bytes())?;
    Ok(files)
}

/// Words of a command.
pub fn words(alloc: Global, of: &[&str]) -> Result<Vec<String>, AllocError> {
    let mut words = Vec::new(alloc);
    for word in of {
        words.push(String::from_str(alloc, word)?)?;
    }
    Ok(words)
}

/// Runs the words of a command. (It has no clauses, so that those of the top call are read here alone.)
pub fn run<R: Threads + Wait + Sync>(
    rt: &R,
    alloc: Global,
    of: &[&str],
    files: &mut MemFiles,
    out: &mut MemSink,
) -> Result<Ended, AllocError> {
    let words = words(alloc, of)?;
    Ok(host_main(rt, alloc, &words, files, out, &FreeGate))
}
