//! Worked rows of further clock lines that the planner takes up.

use crate::helpers::{PRINTER, Ran, SHORT};
use crate::pieces::{EARLY, Step, go_from_to, planned, run_by, steps_of};
use msg_code::NoteNews;
use plan_types::Line;
use std::alloc::{AllocError, Global};

/// A line by which the board is a tenth of a millisecond ahead of its first line: 1,600 ticks.
const AHEAD: Line = Line {
    at: 1_000_000_000,
    clock: 16_001_600,
    freq: 16_000_000,
};

/// A line by which it is so far behind that within six turns from 1,342 ms on it would not be past the error
/// of a step there.
const BEHIND: Line = Line {
    at: 1_000_000_000,
    clock: 15_904_399,
    freq: 16_000_000,
};

/// A line by which it is as far behind as may be: a tick less. Its ticks stand still for 95,600 ones from 1,342 ms on.
const STILL: Line = Line {
    at: 1_000_000_000,
    clock: 15_904_400,
    freq: 16_000_000,
};

/// A line by which it is three turns behind, as where the answers of connecting were delayed by so many.
const LATE: Line = Line {
    at: 1_000_000_000,
    clock: 15_952_000,
    freq: 16_000_000,
};

/// The tick of the first line at 1,342 ms, from where on a line holds that is taken up in turn 1,065.
const TAKEN: u64 = 21_472_000;

/// Whether each step is at most so much early: those before a tick as planned, the others as planned so many
/// ticks later.
fn are_planned(steps: &[Step], from: u64, ahead: u64) -> bool {
    for (place, step) in steps.iter().enumerate() {
        let mut at = planned(place);
        if at >= from {
            at = at.saturating_add(ahead);
        }
        if !step.1 || step.0 > at || step.0.saturating_add(EARLY) < at {
            return false;
        }
    }
    steps.len() == 80
}

/// Whether each step is at most so much early: those before a tick as planned, the others as planned so many
/// ticks sooner, but not before the tick, and each at least 4 ticks behind the one before it.
fn stand_still(steps: &[Step], from: u64, behind: u64) -> bool {
    let mut before = 0u64;
    for (place, step) in steps.iter().enumerate() {
        let mut at = planned(place);
        if at >= from {
            at = at.saturating_sub(behind).max(from);
            at = at.max(before.saturating_add(4));
        }
        if !step.1 || step.0 > at || step.0.saturating_add(EARLY) < at {
            return false;
        }
        before = at;
    }
    steps.len() == 80
}

/// The lines that were told as taken up, each with the turn of its note.
fn taken(alloc: Global, ran: &Ran) -> Result<Vec<(u64, NoteNews)>, AllocError> {
    let mut told = Vec::new(alloc);
    for one in &ran.news {
        if matches!(one.1, NoteNews::Line { .. }) {
            told.push(*one)?;
        }
    }
    Ok(told)
}

/// One move of 1 mm, where word 1,001 tells lines.
fn run_move(alloc: Global, lines: &[(u64, Line)]) -> Result<Ran, AllocError> {
    run_by(alloc, PRINTER, "G1 X1 F600", 4_096, &[], lines)
}

/// The news that the line ahead is taken up.
const TOLD: NoteNews = NoteNews::Line {
    board: 0,
    line: AHEAD,
    from: 1_342_000_000,
};

/// Whether this alone was taken up.
fn has_taken(alloc: Global, ran: &Ran, news: (u64, NoteNews)) -> Result<bool, AllocError> {
    Ok(taken(alloc, ran)?.as_slice() == [news].as_slice())
}

/// How many lines were taken up.
fn count(alloc: Global, ran: &Ran) -> Result<usize, AllocError> {
    Ok(taken(alloc, ran)?.len())
}

/// Whether the steps of a move are planned so many ticks later from turn 1,342 on.
fn is_planned(alloc: Global, ran: &Ran, ahead: u64) -> Result<bool, AllocError> {
    Ok(are_planned(&steps_of(alloc, ran, 0)?, TAKEN, ahead))
}

/// A line of word 1,001 is taken up in turn 1,065, tells it, and holds from turn 1,342 on, amid the move: the
/// steps from there on are planned by it, and those before as they were.
#[test]
fn a_further_line_is_taken_up(rt: HostRuntime) -> Result<(), AllocError> {
    let ran = run_move(rt.alloc(), &[(1_001, AHEAD)])?;
    assert!(rt; has_taken(rt.alloc(), &ran, (1_065, TOLD))?);
    let steps = steps_of(rt.alloc(), &ran, 0)?;
    assert!(rt; are_planned(&steps, TAKEN, 1_600));
    assert!(rt; go_from_to(&steps, (20_192_660, true), (21_782_272, true)));
    Ok(())
}

/// Whether a move where lines are told takes up so many, and is planned so many ticks later.
fn takes_up(
    alloc: Global,
    lines: &[(u64, Line)],
    number: usize,
    ahead: u64,
) -> Result<bool, AllocError> {
    let ran = run_move(alloc, lines)?;
    Ok(count(alloc, &ran)? == number && is_planned(alloc, &ran, ahead)?)
}

/// Whether a move where a line is told takes it up, and is planned so many ticks sooner, where the board's
/// ticks do not stand still.
fn takes_back(alloc: Global, line: Line, behind: u64) -> Result<bool, AllocError> {
    let ran = run_move(alloc, &[(1_001, line)])?;
    let steps = steps_of(alloc, &ran, 0)?;
    Ok(count(alloc, &ran)? == 1 && stand_still(&steps, TAKEN, behind))
}

/// A line by which the board would show ticks of up to six turns again is taken up: its ticks stand still for so long.
#[test]
fn ticks_stand_still_for_turns(rt: HostRuntime) -> Result<(), AllocError> {
    assert!(rt; takes_back(rt.alloc(), LATE, 48_000)?);
    assert!(rt; takes_back(rt.alloc(), STILL, 95_600)?);
    Ok(())
}

/// A line by which the board would show ticks of six whole turns again is passed over, and another one of its
/// word is not.
#[test]
fn lines_are_passed_over(rt: HostRuntime) -> Result<(), AllocError> {
    assert!(rt; takes_up(rt.alloc(), &[(1_001, BEHIND)], 0, 0)?);
    assert!(rt; takes_up(rt.alloc(), &[(1_001, BEHIND), (1_001, AHEAD)], 1, 1_600)?);
    Ok(())
}

/// The turn of the last planned step of the first section that was told.
fn last_of(ran: &Ran) -> u64 {
    for one in &ran.news {
        if let NoteNews::Start { last, .. } = one.1 {
            return last;
        }
    }
    0
}

/// Whether a section of a text that homes has its last planned step in a turn, and a line of word 1,100 is
/// taken up in turn 1,164 alone, where the section has its answer in turn 1,262.
fn goes_on(alloc: Global, text: &str, last: u64) -> Result<bool, AllocError> {
    let ran = run_by(alloc, SHORT, text, 4_096, &[1_262], &[(1_100, AHEAD)])?;
    let line = NoteNews::Line {
        board: 0,
        line: AHEAD,
        from: 1_441_000_000,
    };
    Ok(last_of(&ran) == last && has_taken(alloc, &ran, (1_164, line))?)
}

/// A line is taken up while an axis homes, too: its section is begun in turn 1,000 and has its answer in turn
/// 1,262. The axes home over one and a half times their length, at 10 mm/s from turn 1,260 on; the last
/// planned step that is told stays in the turn in which they are half a step short of the end, two
/// milliseconds before it, by the lines of the section's begin.
#[test]
fn a_line_is_taken_up_while_an_axis_homes(rt: HostRuntime) -> Result<(), AllocError> {
    assert!(rt; goes_on(rt.alloc(), "G28 X", 1_561)?);
    assert!(rt; goes_on(rt.alloc(), "G28 Y", 1_411)?);
    Ok(())
}
