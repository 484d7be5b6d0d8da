//! The section that is begun in a turn.

ghost use Rattle.std.specs.Prelude.{◌≡◌, ◌+◌, ◌<◌, ◌^◌, ◌∷◌, IfNone, IfOk, IfSome, Some};
ghost use Rattle.plan_types.specs.Sections.{is_home};
ghost use Rattle.gcode_program.specs.declared.items.Item.TheVariants as told;
ghost use Rattle.plan_types.specs.declared.plan.SectionKind.TheVariants.{Home, Moves};
ghost use Rattle.motion_stream.specs.Courses.{IsCourseBy};
ghost use Rattle.motion_stream.specs.News.{IsPlain};
ghost use Rattle.motion_stream.specs.Motions.{AreEarly};
ghost use Rattle.motion_stream.specs.Gone.{HasOpened, MayOpen};
ghost use Rattle.motion_stream.specs.Seen.{Seen};
ghost use Rattle.motion_stream.specs.Steps.{BeginsSection, IsSectionDue, IsNotDue};

use crate::OutOfMemory;
use crate::course::{BETWEEN, Course, Open};
use crate::section::{new_section, take_moves};
use clock_line::Lines;
use gcode_program::Item;
use motion_work::{home_end, moving_in};
use msg_code::NoteNews;
use plan_types::{Machine, Move, SectionKind};
use section_feed::SectionStream;
use std::alloc::Global;
use std::collections::VecDeque;

/// A section that is due: its kind, and the turn in which it starts.
#[derive(Clone, Copy)]
pub struct Due {
    pub kind: SectionKind,
    pub start: u64,
}

/// The next section, where it has begun in the text and starts by a turn.
fn next_due(course: &Course, turn: u64) -> Option<Due>
    requires { turn < 2 ^ 63 }
    ensures due { IfSome result (λ d. IsSectionDue course.now turn d.kind d.start) }
    ensures none { IfNone result (IsNotDue course.now turn) }
{
    let Open::Nothing = course.current else {
        return None;
    };
    let Some(Item::Begin { kind, dwell }) = course.source.items.front().copied() else {
        return None;
    };
    let start = course.ready.saturating_add(dwell);
    if !course.connected || start > turn {
        return None;
    }
    Some(Due { kind, start })
}

/// A section that is begun: its stream, and, of one that homes, the turn of its last planned step, and the
/// steppers that move in it.
#[derive(Drop)]
struct Opened {
    pub section: SectionStream,
    pub last: u64,
    pub moving: u16,
}

/// A section of moves that starts in a turn: it takes those that wait.
fn open_moves(
    alloc: Global,
    machine: &Machine,
    lines: &[Lines],
    items: &mut VecDeque<Item>,
    start: u64,
) -> Result<Opened, OutOfMemory>
    requires { MayOpen machine.now lines.now start items.old.items }
    ensures { IfOk result
        (λ o. HasOpened machine.now lines.now Moves start items.old.items items.new.items o.section o.last o.moving) }
{
    let mut section = new_section(alloc, machine, lines, start, false)?;
    take_moves(items, &mut section)?;
    Ok(Opened {
        section,
        last: 0,
        moving: 0,
    })
}

/// The move of a homing section that waits whole.
fn take_home(items: &mut VecDeque<Item>) -> Option<Move>
    ensures { IfSome result (λ one. items.old.items ≡ told.Move one ∷ told.End ∷ items.new.items) }
{
    let Some(Item::Move(one)) = items.pop_front() else {
        return None;
    };
    let Some(Item::End) = items.pop_front() else {
        return None;
    };
    Some(one)
}

/// A section that homes and starts in a turn, whose move waits.
fn open_home(
    alloc: Global,
    machine: &Machine,
    lines: &[Lines],
    items: &mut VecDeque<Item>,
    axis: u8,
    start: u64,
) -> Result<Opened, OutOfMemory>
    requires { MayOpen machine.now lines.now start items.old.items }
    ensures { IfOk result (λ o.
        HasOpened machine.now lines.now (Home axis) start items.old.items items.new.items o.section o.last o.moving) }
{
    let _ = axis;
    let Some(one) = take_home(items) else {
        return Err(OutOfMemory);
    };
    let moves = [one];
    let last = home_end(alloc, machine, lines, &moves, start)?;
    let moving = moving_in(machine, &moves);
    let mut section = new_section(alloc, machine, lines, start, true)?;
    section.push(one)?;
    section.finish()?;
    Ok(Opened {
        section,
        last,
        moving,
    })
}

/// A section that is due: it takes what waits of it.
fn open_section(
    alloc: Global,
    machine: &Machine,
    lines: &[Lines],
    items: &mut VecDeque<Item>,
    due: Due,
) -> Result<Opened, OutOfMemory>
    requires { MayOpen machine.now lines.now due.start items.old.items }
    ensures { IfOk result (λ o.
        HasOpened machine.now lines.now due.kind due.start items.old.items items.new.items o.section o.last o.moving) }
{
    match due.kind {
        SectionKind::Moves => open_moves(alloc, machine, lines, items, due.start),
        SectionKind::Home(axis) => open_home(alloc, machine, lines, items, axis, due.start),
    }
}

/// Whether a section of a kind homes.
fn homes_by(kind: SectionKind) -> bool
    ensures { result ≡ is_home kind }
{
    match kind {
        SectionKind::Moves => false,
        SectionKind::Home(_) => true,
    }
}

/// Begins a section that is due.
fn begin_section(
    alloc: Global,
    machine: &Machine,
    course: &mut Course,
    k: u64,
    due: Due,
) -> Result<NoteNews, OutOfMemory>
    requires next { course.old.next ≡ k + 1 }
    requires small { k < 2 ^ 42 }
    requires early { AreEarly machine.now course.old }
    requires sound { (seen : Seen) × IsCourseBy machine.now course.old seen (k + 260) (k + 261) }
    requires due { IsSectionDue course.old (k + 260) due.kind due.start }
    ensures begun { IfOk result (λ news. BeginsSection machine.now course.old k (Some news) course.new) }
    ensures plain { IfOk result (λ news. IsPlain (Some news)) }
{
    course.source.items.pop_front();
    let items = &mut course.source.items;
    let Opened {
        section,
        last,
        moving,
    } = open_section(alloc, machine, &course.lines.each, items, due)?;
    let news = NoteNews::Start {
        section: course.place,
        kind: due.kind,
        turn: due.start,
        last,
        moving,
    };
    course.current = Open::Goes {
        section,
        homes: homes_by(due.kind),
    };
    course.start = due.start;
    course.place += 1;
    Ok(news)
}

/// Begins the next section, where it is due in the turn before the next one.
pub fn begin_next(
    alloc: Global,
    machine: &Machine,
    course: &mut Course,
    k: u64,
) -> Result<Option<NoteNews>, OutOfMemory>
    requires next { course.old.next ≡ k + 1 }
    requires small { k < 2 ^ 42 }
    requires early { AreEarly machine.now course.old }
    requires sound { (seen : Seen) × IsCourseBy machine.now course.old seen (k + 260) (k + 261) }
    ensures begun { IfOk result (λ start. BeginsSection machine.now course.old k start course.new) }
    ensures plain { IfOk result (λ start. IsPlain start) }
{
    let Some(due) = next_due(course, k + BETWEEN) else {
        return Ok(None);
    };
    let news = begin_section(alloc, machine, course, k, due)?;
    Ok(Some(news))
}
