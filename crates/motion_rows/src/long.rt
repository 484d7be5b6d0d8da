//! A move in which no step is made for a long time, on a board that drifts.

use crate::helpers::{PRINTER, word};
use crate::pieces::{EARLY, feed, machine};
use motion_stream::Motion;
use msg_code::{Batch, Note, NoteNews};
use plan_types::Line;
use std::alloc::{AllocError, Global};

/// More turns than the move takes.
const TURNS: u64 = 600_000;

/// A board that runs fast, and an x axis that makes a step each metre.
const LONG: &str = "[simulated_mcu]
drift_ppm: 100
[stepper_x]
rotation_distance: 1000
microsteps: 1
full_steps_per_rotation: 1
position_max: 500
";

/// 499 seconds of a move in which x makes no step, with a millimetre of both behind them.
const TEXT: &str = "G1 X499 F60\nG1 X500 Y1 F600\n";

/// What was made until the section ended: how many steps of x and of y, and the tick of the last one of y;
/// and how many lines were taken up.
#[derive(Clone, Copy, Debug, PartialEq, Eq)]
struct Counts {
    x: u64,
    y: u64,
    last: u64,
    lines: u64,
    ended: bool,
}

/// Nothing yet.
const NONE: Counts = Counts {
    x: 0,
    y: 0,
    last: 0,
    lines: 0,
    ended: false,
};

/// The line that the word of a turn tells: each 1,000 turns the board is asked, and it has 1,600 ticks more
/// than by its frequency.
fn further(turn: u64) -> Option<Line> {
    let sent = turn.saturating_sub(1);
    if sent == 0 || sent % 1_000 != 0 {
        return None;
    }
    Some(Line {
        at: u128::from(sent).saturating_mul(1_000_000),
        clock: (sent / 1_000).saturating_mul(16_001_600),
        freq: 16_000_000,
    })
}

/// Tells a machine the word of a turn.
fn tell(alloc: Global, motion: &mut Motion<'_>, turn: u64) -> Result<(), AllocError> {
    match further(turn) {
        Some(line) => motion.word(&word(alloc, turn, &[], &[(turn, line)])?),
        None => motion.word(&word(alloc, turn, &[], &[])?),
    }
}

/// Tells it the words that it wants before a turn. Answers the next one.
fn tell_wanted(
    alloc: Global,
    motion: &mut Motion<'_>,
    told: u64,
    k: u64,
) -> Result<u64, AllocError> {
    let Some(last) = motion.wants(k) else {
        return Ok(told);
    };
    let behind = last.saturating_add(1);
    for turn in told..behind {
        tell(alloc, motion, turn)?;
    }
    Ok(told.max(behind))
}

/// Counts the steps of a turn.
fn count_steps(counts: &mut Counts, batches: &[Batch]) {
    for batch in batches {
        for unit in batch.units.as_slice() {
            let steps = u64::from(unit.triple.count);
            match unit.stepper {
                0 => counts.x = counts.x.saturating_add(steps),
                _ => {
                    counts.y = counts.y.saturating_add(steps);
                    counts.last = unit.last;
                }
            }
        }
    }
}

/// Counts the lines that its note tells, and sees whether the section ends.
fn count_news(counts: &mut Counts, note: &Note) {
    for news in note.news.as_slice() {
        match news {
            NoteNews::Line { .. } => counts.lines = counts.lines.saturating_add(1),
            NoteNews::Done { .. } => counts.ended = true,
            _ => {}
        }
    }
}

/// Makes a turn, where the machine can.
fn make_turn(motion: &mut Motion<'_>, k: u64, counts: &mut Counts) -> Result<bool, AllocError> {
    if !motion.can_turn(k) || motion.hungry(k) {
        return Ok(false);
    }
    let made = motion.turn(k)?;
    count_steps(counts, &made.batches);
    count_news(counts, &made.note);
    Ok(!counts.ended)
}

/// The turns until the section ends.
fn drive(alloc: Global, motion: &mut Motion<'_>) -> Result<Counts, AllocError> {
    let mut counts = NONE;
    let mut told = 0;
    let mut taken = 0;
    for k in 0..TURNS {
        told = tell_wanted(alloc, motion, told, k)?;
        taken = feed(motion, TEXT.as_bytes(), 4_096, taken, k)?;
        if !make_turn(motion, k, &mut counts)? {
            return Ok(counts);
        }
    }
    Ok(counts)
}

/// What is made on that printer.
fn made_whole(alloc: Global) -> Result<Counts, AllocError> {
    let mut printer = String::from_str(alloc, PRINTER)?;
    printer.push_str(LONG)?;
    let machine = machine(alloc, printer.as_str())?;
    let mut motion = Motion::new(alloc, &machine);
    drive(alloc, &mut motion)
}

/// The planned tick of the last step of y.
const LAST: u64 = 8_007_234_826;

/// Each line is taken up amid the move, and no step behind it is lost.
#[test]
fn lines_amid_a_long_move(rt: HostRuntime) -> Result<(), AllocError> {
    let counts = made_whole(rt.alloc())?;
    let wanted = Counts {
        x: 1,
        y: 80,
        last: counts.last,
        lines: 500,
        ended: true,
    };
    assert_eq!(rt; counts, wanted);
    assert!(rt; counts.last <= LAST && LAST - counts.last <= EARLY);
    Ok(())
}
