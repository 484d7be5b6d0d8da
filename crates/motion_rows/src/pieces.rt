//! Worked rows of the motion machine over a text in pieces.
ghost use Rattle.std.specs.Prelude.{IfOk};
ghost use Rattle.plan_types.specs.Machines.{IsValidMachine};

use crate::helpers::{
    BURST, PRINTER, Ran, SLOW, TURNS, add_turn, are_wanted, done, moving, new_ran, slicer_news,
    word,
};
use cfg_text::read_config;
use motion_stream::Motion;
use msg_code::{NoteNews, Unit};
use plan_types::{Line, Machine, ReadEnd, ReadStop};
use std::alloc::{AllocError, Global};

/// Thirty moves of some 25 turns each.
const MANY: &str = "G91
G1 X0.5 F3000
G1 Y0.5
G1 X0.5 Y0.5
G1 X-0.5
G1 Y-0.5
G1 X0.5
G1 Y0.5
G1 X0.5 Y0.5
G1 X-0.5
G1 Y-0.5
G1 X0.5
G1 Y0.5
G1 X0.5 Y0.5
G1 X-0.5
G1 Y-0.5
G1 X0.5
G1 Y0.5
G1 X0.5 Y0.5
G1 X-0.5
G1 Y-0.5
G1 X0.5
G1 Y0.5
G1 X0.5 Y0.5
G1 X-0.5
G1 Y-0.5
G1 X0.5
G1 Y0.5
G1 X0.5 Y0.5
G1 X-0.5
G1 Y-0.5
";

/// A stop behind a section.
const STOPPED: &str = "G1 X1 F600\nM112\nG1 X5\n";

/// One move without a line feed behind it, two moves; two sections with a dwell between them; many moves; and a stop.
const TEXTS: [&str; 5] = [
    "G1 X1 F600",
    "G1 X1 F600\nG1 Y1\n",
    "G1 X1 F600\nG4 P100\nG1 Y1\n",
    MANY,
    STOPPED,
];

/// How many ticks of the board a step may be early: those of 25 microseconds.
pub const EARLY: u64 = 400;

/// Tells a machine the next pieces of a text, of so many bytes, as long as it needs more for turn k. Answers
/// where the next begins.
pub fn feed(
    motion: &mut Motion,
    text: &[u8],
    piece: usize,
    from: usize,
    k: u64,
) -> Result<usize, AllocError> {
    let mut from = from.min(text.len());
    for _ in 0..text.len().saturating_add(1) {
        let to = text.len().min(from.saturating_add(piece));
        if from >= to || !motion.hungry(k) {
            return Ok(from);
        }
        motion.text(&text[from..to], to == text.len())?;
        from = to;
    }
    Ok(from)
}

/// Tells a machine the words from one on up to another. Answers the one behind them.
fn hear(
    alloc: Global,
    motion: &mut Motion,
    from: u64,
    to: u64,
    answers: &[u64],
    lines: &[(u64, Line)],
) -> Result<u64, AllocError> {
    if to >= TURNS {
        return Ok(from);
    }
    for turn in from..to + 1 {
        motion.word(&word(alloc, turn, answers, lines)?)?;
    }
    Ok(from.max(to + 1))
}

/// Turns 0 to 2,199 of a text that comes in pieces of so many bytes, for the printer of a configuration, in
/// which homing groups answer in some turns.
fn run(
    alloc: Global,
    printer: &str,
    text: &str,
    piece: usize,
    answers: &[u64],
) -> Result<Ran, AllocError> {
    run_by(alloc, printer, text, piece, answers, &[])
}

/// The machine of a configuration.
pub fn machine(alloc: Global, printer: &str) -> Result<Machine, AllocError>
    ensures { IfOk result (λ m. IsValidMachine m) }
{
    match read_config(alloc, printer.as_bytes()) {
        Ok(machine) => Ok(machine),
        Err(_) => Err(AllocError),
    }
}

/// The same where some words tell further lines of the board.
pub fn run_by(
    alloc: Global,
    printer: &str,
    text: &str,
    piece: usize,
    answers: &[u64],
    lines: &[(u64, Line)],
) -> Result<Ran, AllocError> {
    let machine = machine(alloc, printer)?;
    let mut ran = new_ran(alloc);
    let mut motion = Motion::new(alloc, &machine);
    let told = Told { answers, lines };
    drive(alloc, &mut motion, text, piece, &told, &mut ran)?;
    Ok(ran)
}

/// What the words tell: in which turns homing groups answer, and the further lines of the board.
#[derive(Clone, Copy)]
struct Told<'a> {
    answers: &'a [u64],
    lines: &'a [(u64, Line)],
}

/// The turns of a machine.
fn drive(
    alloc: Global,
    motion: &mut Motion<'_>,
    text: &str,
    piece: usize,
    told: &Told<'_>,
    ran: &mut Ran,
) -> Result<(), AllocError> {
    let mut heard = 0;
    let mut taken = 0;
    for k in 0..TURNS {
        heard = put_words(alloc, motion, heard, k, told, ran)?;
        taken = put_text(motion, text.as_bytes(), piece, taken, k, ran)?;
        if !make_turn(motion, k, ran)? {
            return Ok(());
        }
    }
    Ok(())
}

/// The words that a machine wants before a turn.
fn put_words(
    alloc: Global,
    motion: &mut Motion<'_>,
    heard: u64,
    k: u64,
    told: &Told<'_>,
    ran: &mut Ran,
) -> Result<u64, AllocError> {
    let Some(j) = motion.wants(k) else {
        return Ok(heard);
    };
    ran.wants.push((k, j))?;
    hear(alloc, motion, heard, j, told.answers, told.lines)
}

/// The pieces that it needs before a turn.
fn put_text(
    motion: &mut Motion<'_>,
    text: &[u8],
    piece: usize,
    before: usize,
    k: u64,
    ran: &mut Ran,
) -> Result<usize, AllocError> {
    let taken = feed(motion, text, piece, before, k)?;
    if taken != before {
        ran.taken.push((k, taken))?;
    }
    Ok(taken)
}

/// A turn, where the machine can make it.
fn make_turn(motion: &mut Motion<'_>, k: u64, ran: &mut Ran) -> Result<bool, AllocError> {
    if !motion.can_turn(k) || motion.hungry(k) {
        return Ok(false);
    }
    let made = motion.turn(k)?;
    add_turn(ran, &made.batches, &made.note)?;
    Ok(true)
}

/// The news that sections begin and end.
fn sections(alloc: Global, ran: &Ran) -> Result<Vec<(u64, NoteNews)>, AllocError> {
    let mut told = Vec::new(alloc);
    for one in &ran.news {
        if !matches!(one.1, NoteNews::Read { .. }) {
            told.push(*one)?;
        }
    }
    Ok(told)
}

/// The news how the text was read.
fn reads(alloc: Global, ran: &Ran) -> Result<Vec<NoteNews>, AllocError> {
    let mut told = Vec::new(alloc);
    for one in &ran.news {
        if matches!(one.1, NoteNews::Read { .. }) {
            told.push(one.1)?;
        }
    }
    Ok(told)
}

/// Whether two machines told the same: how the text was read in any turn, and the sections in the same turns.
fn tell_the_same(alloc: Global, one: &Ran, two: &Ran) -> Result<bool, AllocError> {
    let ends = reads(alloc, one)?;
    let begun = sections(alloc, one)?;
    Ok(
        ends.len() == 1
            && ends.as_slice() == reads(alloc, two)?.as_slice()
            && begun.as_slice() == sections(alloc, two)?.as_slice(),
    )
}

/// A step: its tick, and its direction as it is sent.
pub type Step = (u64, bool);

/// Adds the steps of a unit.
fn add_steps(steps: &mut Vec<Step>, unit: &Unit, up: bool) -> Result<(), AllocError> {
    let (mut tick, mut gap) = (unit.first, unit.triple.interval);
    for place in 0..unit.triple.count {
        if place > 0 {
            gap = gap.wrapping_add_signed(i32::from(unit.triple.add));
            tick = tick.wrapping_add(u64::from(gap));
        }
        steps.push((tick, up))?;
    }
    Ok(())
}

/// The steps of a stepper.
pub fn steps_of(alloc: Global, ran: &Ran, stepper: u8) -> Result<Vec<Step>, AllocError> {
    let mut steps = Vec::new(alloc);
    let mut up = false;
    for (_, unit) in &ran.units {
        if unit.stepper == stepper {
            up = unit.up.unwrap_or(up);
            add_steps(&mut steps, unit, up)?;
        }
    }
    Ok(steps)
}

/// Whether two machines put the same batches and told the same.
fn are_same(alloc: Global, one: &Ran, two: &Ran) -> Result<bool, AllocError> {
    Ok(one.units.as_slice() == two.units.as_slice() && tell_the_same(alloc, one, two)?)
}

/// Whether a machine puts and tells the same where the text comes in pieces of so many bytes.
fn is_same(
    alloc: Global,
    ran: &Ran,
    printer: &str,
    text: &str,
    piece: usize,
) -> Result<bool, AllocError> {
    let other = run(alloc, printer, text, piece, &[])?;
    are_same(alloc, ran, &other)
}

/// What of a text in pieces comes out otherwise than it should: nothing (0), or the first thing that does.
fn fault(alloc: Global, printer: &str, text: &str) -> Result<u8, AllocError> {
    let ran = run(alloc, printer, text, 4_096, &[])?;
    if !is_same(alloc, &ran, printer, text, 1)? {
        return Ok(1);
    }
    if !is_same(alloc, &ran, printer, text, 7)? {
        return Ok(2);
    }
    Ok(0)
}

/// The first text that has a fault, with it.
fn first_wrong(alloc: Global, texts: &[&str]) -> Result<Option<(usize, u8)>, AllocError> {
    for (i, text) in texts.iter().enumerate() {
        let fault = fault(alloc, PRINTER, text)?;
        if fault != 0 {
            return Ok(Some((i, fault)));
        }
    }
    Ok(None)
}

/// In pieces of 1, 7 and 4,096 bytes texts give the same batches and notes.
#[test]
fn pieces_make_no_difference(rt: HostRuntime) -> Result<(), AllocError> {
    assert_eq!(rt; first_wrong(rt.alloc(), &TEXTS)?, None);
    Ok(())
}

/// Whether a machine told these sections.
fn has_sections(alloc: Global, ran: &Ran, want: &[(u64, NoteNews)]) -> Result<bool, AllocError> {
    Ok(sections(alloc, ran)?.as_slice() == want)
}

/// Whether it told once, and so, how the text was read.
fn has_read(alloc: Global, ran: &Ran, want: NoteNews) -> Result<bool, AllocError> {
    Ok(reads(alloc, ran)?.as_slice() == [want].as_slice())
}

/// The two sections of a text with a dwell.
fn two_sections() -> [(u64, NoteNews); 4] {
    [
        (1_000, moving(0, 1_260)),
        (1_363, done(0, 1_363)),
        (1_463, moving(1, 1_723)),
        (1_826, done(1, 1_826)),
    ]
}

/// How that text is read.
const TWO_READ: NoteNews = NoteNews::Read {
    end: ReadEnd {
        lines: 3,
        passed: 0,
        stop: ReadStop::End,
    },
    sections: 2,
};

/// Two sections with a dwell of 100 turns between them: the second one starts 260 turns behind the end of the
/// first, and as many later.
#[test]
fn sections_are_told(rt: HostRuntime) -> Result<(), AllocError> {
    let alloc = rt.alloc();
    let ran = run(alloc, PRINTER, "G1 X1 F600\nG4 P100\nG1 Y1\n", 4_096, &[])?;
    assert!(rt; has_sections(alloc, &ran, &two_sections())?);
    assert!(rt; has_read(alloc, &ran, TWO_READ)?);
    assert!(rt; has_steps(alloc, &ran, 1, 80, Some((27_600_660, false)))?);
    Ok(())
}

/// Whether a stepper makes so many steps, of which this is the first.
fn has_steps(
    alloc: Global,
    ran: &Ran,
    stepper: u8,
    count: usize,
    first: Option<Step>,
) -> Result<bool, AllocError> {
    let steps = steps_of(alloc, ran, stepper)?;
    Ok(steps.len() == count && steps.first().copied() == first)
}

/// The planned tick of a step of a move of 1 mm with 10 mm/s and 3,000 mm/s^2 that begins with turn 1,260,
/// which is tick 20,160,000. It takes 53,331 ticks over the first 16,666 nm and over the last ones, and 8
/// ticks over 5 nm between them. The first step is at 6,250 nm, the others are 12,500 nm apart, and each
/// falls at the first tick that is not before its place.
pub fn planned(place: usize) -> u64 {
    match place {
        0 => 20_192_660,
        79 => 21_780_672,
        _ => (place as u64)
            .saturating_sub(1)
            .saturating_mul(20_000)
            .saturating_add(20_216_666),
    }
}

/// Whether each step is planned there, and at most so much early.
fn are_planned(steps: &[Step]) -> bool {
    for (place, step) in steps.iter().enumerate() {
        let at = planned(place);
        if !step.1 || step.0 > at || step.0.saturating_add(EARLY) < at {
            return false;
        }
    }
    steps.len() == 80
}

/// Whether these are the first and the last of some steps.
pub fn go_from_to(steps: &[Step], first: Step, last: Step) -> bool {
    steps.first() == Some(&first) && steps.last() == Some(&last)
}

#[test]
fn one_move_is_stepped(rt: HostRuntime) -> Result<(), AllocError> {
    let ran = run(rt.alloc(), PRINTER, "G1 X1 F600", 1, &[])?;
    let steps = steps_of(rt.alloc(), &ran, 0)?;
    assert!(rt; are_planned(&steps));
    assert!(rt; go_from_to(&steps, (20_192_660, true), (21_780_672, true)));
    Ok(())
}

/// How a text with a stop is read.
const STOP_READ: NoteNews = NoteNews::Read {
    end: ReadEnd {
        lines: 2,
        passed: 0,
        stop: ReadStop::Stop(2),
    },
    sections: 1,
};

/// Whether that text is asked for, and told, so.
fn stops(ran: &Ran) -> bool {
    ran.taken.as_slice() == [(0, 1), (1_000, 11), (1_001, 16)].as_slice()
        && ran.news.as_slice().contains(&(1_363, STOP_READ))
}

/// Whether the text of many moves is asked for little by little, up to its end.
fn is_asked_for_as_needed(taken: &[(u64, usize)]) -> bool {
    let first = taken.first() == Some(&(0, 1));
    let last = match taken.last() {
        Some(last) => last.0 > 1_575 && last.1 == MANY.len(),
        None => false,
    };
    taken.len() > 20 && first && last
}

/// A byte of the text is asked for at first, a line before a section is begun, and then moves as they are
/// needed. Behind a stop nothing is asked for, and it is told as the section ends that goes on.
#[test]
fn text_is_asked_for(rt: HostRuntime) -> Result<(), AllocError> {
    let ran = run(rt.alloc(), PRINTER, STOPPED, 1, &[])?;
    assert!(rt; stops(&ran));
    let many = run(rt.alloc(), PRINTER, MANY, 1, &[])?;
    assert!(rt; is_asked_for_as_needed(many.taken.as_slice()));
    Ok(())
}

/// The planned tick of a step of the x axis as it homes with 10 mm/s from turn 1,260 on.
fn planned_home(place: usize) -> u64 {
    match place {
        0 => 20_192_662,
        _ => (place as u64)
            .saturating_sub(1)
            .saturating_mul(20_000)
            .saturating_add(20_216_667),
    }
}

/// Whether each step homes there, and at most so much early.
fn are_homing(steps: &[Step]) -> bool {
    for (place, step) in steps.iter().enumerate() {
        let at = planned_home(place);
        if step.1 || step.0 > at || step.0.saturating_add(EARLY) < at {
            return false;
        }
    }
    true
}

/// Whether no unit sets a clock, and the first one is given in turn 1,012, some 250 turns ahead.
fn set_no_clock(ran: &Ran) -> bool {
    for (_, unit) in &ran.units {
        if unit.reset.is_some() {
            return false;
        }
    }
    ran.units.first().is_some_and(|first| first.0 == 1_012)
}

/// Whether the x axis homes until turn 1,762, and gives its steps turn by turn until then, those that are due
/// some 250 turns later.
fn homes_x(alloc: Global, ran: &Ran) -> Result<bool, AllocError> {
    let ended = (1_762, done(0, 1_762));
    let steps = steps_of(alloc, ran, 0)?;
    Ok(
        are_homing(&steps)
            && steps.len() == HOMING_STEPS
            && set_no_clock(ran)
            && ran.news.as_slice().contains(&ended)
            && are_wanted(&ran.wants),
    )
}

/// How many steps the x axis gives before its answer in turn 1,762.
const HOMING_STEPS: usize = 604;

#[test]
fn axes_home_behind_pieces(rt: HostRuntime) -> Result<(), AllocError> {
    let answers = [1_261, 1_522, 1_783];
    let ran = run(rt.alloc(), PRINTER, "G28\nG1 Z5 F300\n", 4_096, &answers)?;
    assert!(rt; ran.news.as_slice() == slicer_news().as_slice());
    let ran = run(rt.alloc(), PRINTER, "G28 X", 4_096, &[1_100, 1_762])?;
    assert_eq!(rt; steps_of(rt.alloc(), &ran, 0)?.len(), HOMING_STEPS);
    assert!(rt; homes_x(rt.alloc(), &ran)?);
    Ok(())
}

/// A move of very fine steps.
const FINE: &str = "G1 X0.16 F1800\n";

/// Whether its section ends in turn 1,587, and all steps were made.
fn ends_late(alloc: Global, ran: &Ran) -> Result<bool, AllocError> {
    let ended = (1_587, done(0, 1_587));
    Ok(ran.news.as_slice().contains(&ended) && steps_of(alloc, ran, 0)?.len() == 81_920)
}

/// Steps that run far behind their moves: these are over some 30 turns behind the start, and the last step
/// comes in turn 1,587. Its units are given turn by turn, and the section ends with it.
#[test]
fn steps_run_behind_moves(rt: HostRuntime) -> Result<(), AllocError> {
    let ran = run(rt.alloc(), SLOW, FINE, 4_096, &[])?;
    assert!(rt; ends_late(rt.alloc(), &ran)?);
    assert_eq!(rt; fault(rt.alloc(), SLOW, FINE)?, 0);
    Ok(())
}

/// How a text of one move is read.
const ONE_READ: NoteNews = NoteNews::Read {
    end: ReadEnd {
        lines: 1,
        passed: 0,
        stop: ReadStop::End,
    },
    sections: 1,
};

/// The turn in which a section ends.
fn end_of(ran: &Ran) -> u64 {
    for (turn, news) in &ran.news {
        if matches!(news, NoteNews::Done { .. }) {
            return *turn;
        }
    }
    0
}

/// Whether a section ends in its first turn, its last units are put five turns behind that, and only then it
/// is told how the text was read.
fn is_told_behind_units(alloc: Global, ran: &Ran) -> Result<bool, AllocError> {
    let Some((last, _)) = ran.units.last() else {
        return Ok(false);
    };
    Ok(
        end_of(ran) == 1_260
            && *last == 1_265
            && ran.news.last() == Some(&(*last, ONE_READ))
            && steps_of(alloc, ran, 0)?.len() == 2_048,
    )
}

/// A section whose last turn has more triples of one stepper than its queue has slots: the last of them wait
/// until the first ones are over.
#[test]
fn units_wait_behind_the_end(rt: HostRuntime) -> Result<(), AllocError> {
    let ran = run(rt.alloc(), BURST, "G1 X0.01 F60000\n", 4_096, &[])?;
    assert!(rt; is_told_behind_units(rt.alloc(), &ran)?);
    Ok(())
}
