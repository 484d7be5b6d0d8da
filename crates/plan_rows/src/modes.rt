use crate::machines::machine;
use gcode_state::{Action, Modes};
use gcode_text::read_line;
use plan_types::Move;
use std::alloc::{AllocError, Global};
use std::test::Fail;

/// The modes of that machine before the first word.
fn first_modes(alloc: Global) -> Result<Modes, AllocError> {
    let machine = machine(alloc, true)?;
    Ok(Modes::new(&machine))
}

/// How many lines may have been read before.
const LINES: u64 = 1_000;

/// The move that a line makes.
fn made(modes: &mut Modes, line: &[u8]) -> Option<Move> {
    let Ok(word) = read_line(line, 1) else {
        return None;
    };
    if modes.state().lines > LINES {
        return None;
    }
    match modes.apply(&word) {
        Ok(Action::Move(one)) => Some(one),
        _ => None,
    }
}

/// Where a line leads, in nm; nowhere, where it makes no move.
fn target(modes: &mut Modes, line: &[u8]) -> [i64; 4] {
    match made(modes, line) {
        Some(one) => one.to,
        None => [0; 4],
    }
}

/// Lines one behind the other, and where each leads.
const TARGETS: [(&str, [i64; 4]); 5] = [
    ("G92 X-1", [0; 4]),
    ("G1 X0 Y3 E0.00001", [1_000_000, 3_000_000, 0, 10]),
    ("M221 S50", [0; 4]),
    ("G1 E10", [1_000_000, 3_000_000, 0, 5_000_005]),
    ("G1 E10", [0; 4]),
];

/// The first line that leads elsewhere.
fn first_wrong(modes: &mut Modes, rows: &[(&str, [i64; 4])]) -> Option<usize> {
    for (i, (line, wanted)) in rows.iter().enumerate() {
        if target(modes, line.as_bytes()) != *wanted {
            return Some(i);
        }
    }
    None
}

#[test]
fn coordinates(rt: HostRuntime) -> Result<(), Fail> {
    let mut modes = first_modes(rt.alloc())?;
    assert_eq!(rt; first_wrong(&mut modes, &TARGETS), None);
    Ok(())
}

/// The x axis is homed, where it goes so far.
fn home_x(modes: &mut Modes, at: i64) -> bool {
    let x = modes.state().x;
    if x.min > at || x.max < at {
        return false;
    }
    modes.homed(0, at);
    true
}

/// Whether a move goes from this place, with this length, speed and acceleration.
fn is_so(one: Option<Move>, from: [i64; 4], d: u64, v: u64, a: u64) -> bool {
    match one {
        Some(one) => one.from == from && one.d == d && one.v == v && one.a == a,
        None => false,
    }
}

#[test]
fn homed_axis(rt: HostRuntime) -> Result<(), Fail> {
    let mut modes = first_modes(rt.alloc())?;
    assert!(rt; home_x(&mut modes, 1_000_000));
    let one = made(&mut modes, b"G1 X3");
    assert!(rt;
        is_so(
            one,
            [1_000_000, 0, 0, 0],
            2_000_000,
            25_000_000,
            3_000_000_000,
        )
    );
    Ok(())
}
