//! The trace in examples that the host's end sends for one millimetre along x, dumped and replayed.
//! (The rows of links have that it is sent.)

use crate::files::{X_DISTANCE, files, run};
use io_core::MemSink;
use std::alloc::{AllocError, Global};
use std::sync::Wait;
use std::test::Fail;
use std::thread::Threads;

/// The trace. `tools/check` compares it with examples/one_move.trace.
const TRACE: &str = "turn 0 08100100285E9F7E
turn 1 0811012828AFD77E
turn 2 0812015028B41E7E
turn 3 09130180782807967E
turn 4 09140181202870A17E
turn 5 091501814828D0707E
turn 6 091601817028B5DE7E
turn 7 091701821828FA6B7E
turn 8 0918018240288DA07E
turn 9 0919018268286B177E
turn 10 091A0183102812037E
turn 11 091B01833828F4B47E
turn 12 091C01836028D95F7E
turn 13 091D01840828F58B7E
turn 14 091E0184302890257E
turn 15 091F0184582830F47E
turn 16 0910018500281DE37E
turn 17 091101852828FB547E
turn 18 091201855028D89C7E
turn 19 0913018578283E2B7E
turn 20 091401862028FCA47E
turn 21 0915018648285C757E
turn 22 09160186702839DB7E
turn 23 091701871828C3D67E
turn 24 091801874028B41D7E
turn 25 09190187682852AA7E
turn 26 091A018810283BA57E
turn 27 091B01883828DD127E
turn 28 091C01886028F0F97E
turn 29 091D018908280AF47E
turn 30 091E018930286F5A7E
turn 31 091F01895828CF8B7E
turn 32 0910018A002857247E
turn 33 0911018A2828B1937E
turn 34 0612051E667E
turn 35 06130507BE7E
turn 36 0614054AB67E
turn 37 061505536E7E
turn 38 06160579067E
turn 39 06170560DE7E
turn 40 061805E3167E
turn 41 061905FACE7E
turn 42 2F1A02080700000100000701030400000702060700000703090A00000B041005020010060500100708000400EC677E
turn 43 061B03AC487E
turn 1012 151C0A0089CEBC00090001080081FF14010010977E
turn 1013 0C1D080081BB460100D8917E
turn 1014 0C1E0800819C204D00B6617E
turn 1111 0C1F080081BB460100D3FE7E
";

/// What a command prints of a trace, on the printer of the rows.
fn printed<R: Threads + Wait + Sync>(
    rt: &R,
    alloc: Global,
    task: &str,
    trace: &str,
) -> Result<Vec<u8>, AllocError> {
    let mut read = files(alloc, X_DISTANCE, "", "")?;
    read.add("t.trace", trace.as_bytes())?;
    let mut out = MemSink::new(alloc, Vec::new(alloc));
    run(
        rt,
        alloc,
        &[task, "m.cfg", "mcu", "t.trace"],
        &mut read,
        &mut out,
    )?;
    out.bytes().to_vec(alloc)
}

/// What the trace holds: the boards' dictionary and clock are asked for, steppers, trigger and endstops are
/// set up, and the steps are sent, turn by turn, each turn's in a block.
fn things(alloc: Global) -> Result<String, AllocError> {
    let mut text = String::new(alloc);
    for turn in 0..42_u32 {
        text.push_str(format!(in alloc; "block {turn} {} taken\n", turn % 16)?.as_str())?;
        if turn < 34 {
            text.push_str(format!(in alloc; "cmd identify {} 40\n", 40 * turn)?.as_str())?;
        } else {
            text.push_str("cmd get_uptime\n")?;
        }
    }
    text.push_str(SET_UP)?;
    text.push_str(STEPS)?;
    Ok(text)
}

const SET_UP: &str = "block 42 10 taken
cmd allocate_oids 8
cmd config_stepper 0 0 1 0 0
cmd config_stepper 1 3 4 0 0
cmd config_stepper 2 6 7 0 0
cmd config_stepper 3 9 10 0 0
cmd config_trsync 4
cmd config_endstop 5 2 0
cmd config_endstop 6 5 0
cmd config_endstop 7 8 0
cmd finalize_config 0
block 43 11 taken
cmd get_config
";

const STEPS: &str = "block 1012 12 taken
cmd reset_step_clock 0 20160000
cmd set_next_step_dir 0 1
cmd queue_step 0 32660 1 0
block 1013 13 taken
cmd queue_step 0 24006 1 0
block 1014 14 taken
cmd queue_step 0 20000 77 0
block 1111 15 taken
cmd queue_step 0 24006 1 0
end 0 done
";

/// The lines of eighty pulses, and how the replay ends.
fn pulses(alloc: Global) -> Result<String, AllocError> {
    let mut text = String::new(alloc);
    for i in 0..80_u32 {
        let tick = match i {
            0 => 20_192_660,
            79 => 21_780_672,
            _ => 20_196_666 + 20_000 * i,
        };
        text.push_str(format!(in alloc; "pulse mcu 0 {tick} +\n")?.as_str())?;
    }
    text.push_str("state running\nend 0 done\n")?;
    Ok(text)
}

#[test]
fn one_move_is_dumped_and_replayed(rt: HostRuntime) -> Result<(), Fail> {
    let alloc = rt.alloc();
    let dumped = printed(&rt, alloc, "dump", TRACE)?;
    assert_eq!(rt; dumped.as_slice(), things(alloc)?.as_bytes());
    let replayed = printed(&rt, alloc, "replay", TRACE)?;
    assert_eq!(rt; replayed.as_slice(), pulses(alloc)?.as_bytes());
    Ok(())
}
