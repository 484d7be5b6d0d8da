//! The part fan of files, as a table.

use crate::printed::{Printed, first_wrong};
use std::test::Fail;

const FAN: &str = "[fan]\npin: PD0\n";

const WORDS: [&str; 3] = ["fan", "m.cfg", "t.gcode"];

/// Dwells, a homed axis and lines that can't be read, up to a stop.
const HOMED: &str =
    "M106 S0\nG4 P100\nM106\nG28 X\nM107\nM106 S1\nG1 X1 F600\nM106 S\nM107 ; off\nM112\nM106\n";

const FANS: [Printed<'static>; 7] = [
    (
        &WORDS,
        FAN,
        "M106 S255\nG1 X1 F600\nM107\n",
        0,
        "out mcu PD0 20160000 1\nout mcu PD0 21813331 0\nlines 3 passed 2\nend 0 done\n",
    ),
    (
        &WORDS,
        FAN,
        "M106",
        0,
        "out mcu PD0 20160000 1\nout mcu PD0 100160000 0\nlines 1 passed 1\nend 0 done\n",
    ),
    (
        &WORDS,
        FAN,
        HOMED,
        8,
        "out mcu PD0 20160000 1\nout mcu PD0 507621331 0\nlines 10 passed 6\nend 8 asked 10\n",
    ),
    (
        &WORDS,
        FAN,
        "M106 S0.5\nG1 X201\nM107\n",
        7,
        "out mcu PD0 20160000 1\nout mcu PD0 100160000 0\nlines 1 passed 1\nend 7 line 2 OutOfRange\n",
    ),
    (&WORDS, FAN, "M107\n", 0, "lines 1 passed 1\nend 0 done\n"),
    (&WORDS, "", "M106", 14, "end 14 nofan\n"),
    (&WORDS, "[fan]\n", "M106", 5, "end 5 config 43 Missing\n"),
];

#[test]
fn fans(rt: HostRuntime) -> Result<(), Fail> {
    assert_eq!(rt; first_wrong(&rt, rt.alloc(), &FANS)?, None);
    Ok(())
}
