//! The units of a turn.

ghost use Rattle.std.specs.Prelude.{◌≡◌, ℕ, ◌+◌, ◌-◌, ◌*◌, ◌<◌, ◌≤◌, ◌^◌, List, [], IfOk, OnOk, ◌&&◌, ◌==◌, not, true, false, length, slice_index_or};
ghost use Rattle.section_feed.specs.AllBoards.{ArePast};
ghost use Rattle.section_feed.specs.Queues.{IsDrawn};
ghost use Rattle.section_feed.specs.Sections.{IsLeft, boards_in, queue_of};
ghost use Rattle.motion_stream.specs.declared.course.Open.TheVariants as opens;
ghost use Rattle.motion_stream.specs.Courses.{IsSoundBy};
ghost use Rattle.motion_stream.specs.Gone.{EndsOpen, GivesIn, GivesOwn, GivesSoon};
ghost use Rattle.motion_stream.specs.News.{IsPlain};
ghost use Rattle.motion_stream.specs.Steps.{Advances, HasPassed};
ghost use Rattle.motion_work.specs.Feeds.{AreOfTurn};

use crate::OutOfMemory;
use crate::course::{BETWEEN, Course, Open};
use crate::news::done_news;
use crate::rows::{batches_of, merged, next_row, row_batches};
use crate::section::{Ended, end_section};
use msg_code::{Batch, NoteNews, Unit};
use plan_types::{Listed, Machine};
use section_feed::SectionStream;
use std::alloc::Global;
use std::collections::VecDeque;
use std::mem;
use step_feed::LEAD;

/// What is put in a turn, before it is told which section is begun: the batches of all boards, and that the
/// last section ends.
#[derive(Drop)]
pub struct Passed {
    pub batches: Vec<Batch>,
    pub done: Option<NoteNews>,
}

/// Goes on to the next turn: the batches of this one, with the units of the sections whose end is known and
/// of one more.
fn pass(
    alloc: Global,
    machine: &Machine,
    course: &mut Course,
    own: Vec<Listed<Unit>>,
    room: Vec<Batch>,
) -> Result<Vec<Batch>, OutOfMemory>
    requires { course.old.next < 2 ^ 42 }
    ensures passed { IfOk result (λ made. HasPassed machine.now course.old course.new own.items made.items) }
    ensures turn { IfOk result (λ made. AreOfTurn course.old.next (length machine.now.boards) made.items) }
{
    let boards = machine.boards.len();
    let turn = course.next;
    course.next += 1;
    if course.ahead.is_empty() {
        return row_batches(alloc, boards, turn, own, room);
    }
    let front = next_row(alloc, &mut course.ahead);
    let batches = batches_of(alloc, boards, turn, front.as_slice(), &own, room)?;
    Ok(batches)
}

/// Whether a section goes on behind turn k whose end is known.
fn goes_on(goes: bool, ready: u64, k: u64) -> bool
    requires { k < 2 ^ 42 }
    ensures { result ≡ (goes && not (ready == k + 260)) }
{
    goes && ready != k + BETWEEN
}

/// A turn in which no section goes on whose end is not known.
fn pass_idle(
    alloc: Global,
    machine: &Machine,
    course: &mut Course,
    room: Vec<Batch>,
) -> Result<Passed, OutOfMemory>
    requires idle { course.old.current ≡ opens.Nothing }
    requires small { course.old.next < 2 ^ 42 }
    ensures passed { IfOk result
        (λ p. Advances machine.now course.old course.old.next p.batches.items p.done course.new) }
    ensures turn { IfOk result (λ p. AreOfTurn course.old.next (length machine.now.boards) p.batches.items) }
    ensures plain { IfOk result (λ p. IsPlain p.done) }
{
    let k = course.next;
    let done = done_news(course.goes, course.ready, course.place, k);
    course.goes = goes_on(course.goes, course.ready, k);
    let batches = pass(alloc, machine, course, Vec::new(alloc), room)?;
    Ok(Passed { batches, done })
}

/// A turn before the first one of a section that goes on.
fn pass_before(
    alloc: Global,
    machine: &Machine,
    course: &mut Course,
    room: Vec<Batch>,
) -> Result<Passed, OutOfMemory>
    requires on { course.old.current ≡ opens.Nothing → ⊥ }
    requires small { course.old.next < 2 ^ 42 }
    requires before { course.old.next + 250 < course.old.start }
    ensures passed { IfOk result
        (λ p. Advances machine.now course.old course.old.next p.batches.items p.done course.new) }
    ensures turn { IfOk result (λ p. AreOfTurn course.old.next (length machine.now.boards) p.batches.items) }
    ensures plain { IfOk result (λ p. IsPlain p.done) }
{
    let batches = pass(alloc, machine, course, Vec::new(alloc), room)?;
    Ok(Passed {
        batches,
        done: None,
    })
}

/// Whether the end of a section is known by its plan. That of one that homes is told by its answer alone.
fn is_over(section: &SectionStream, homes: bool) -> bool
    ensures goes { result ≡ false → homes ≡ false → IsLeft section.now }
    ensures moves { result ≡ true → homes ≡ false }
    ensures over { result ≡ true → (e : ℕ) × IsDrawn (queue_of section.now) × ArePast e (boards_in section.now) }
{
    !homes && section.end().is_some()
}

/// What a section gives in a turn: the units of each board, and whether its end is known then.
#[derive(Drop)]
struct Own {
    pub units: Vec<Listed<Unit>>,
    pub over: bool,
}

/// What a section that goes on gives in its next turn.
fn draw_own(current: &mut Open) -> Result<Own, OutOfMemory>
    requires { GivesSoon current.old }
    ensures { IfOk result (λ own. GivesOwn own.units.items own.over current.old current.new) }
{
    match current {
        Open::Nothing => Err(OutOfMemory),
        Open::Goes { section, homes } => {
            let units = section.batches()?;
            let over = is_over(section, *homes);
            Ok(Own { units, over })
        }
    }
}

/// Ends the section that goes on, all whose steps are packed: its units wait behind those of the others.
#[inline(never)]
fn end_open(alloc: Global, machine: &Machine, course: &mut Course) -> Result<(), OutOfMemory>
    requires { GivesIn course.old.next course.old.current }
    ensures { OnOk result (EndsOpen (length machine.now.boards) course.old course.old.current course.new) }
{
    let Open::Goes { section, .. } = mem::replace(&mut course.current, Open::Nothing) else {
        return Err(OutOfMemory);
    };
    let Ended { rows, end, .. } = end_section(alloc, section, course.next)?;
    let ahead = mem::replace(&mut course.ahead, VecDeque::new(alloc));
    course.ahead = merged(alloc, machine.boards.len(), ahead, rows)?;
    course.ready = end + BETWEEN;
    course.goes = true;
    Ok(())
}

/// A turn of a section that goes on. Once all steps of a section of moves are packed its end is known, and so
/// are all its units, which is some 250 turns ahead; its last steps may come long behind its moves. One that
/// homes goes on until its answer.
fn pass_section(
    alloc: Global,
    machine: &Machine,
    course: &mut Course,
    room: Vec<Batch>,
) -> Result<Passed, OutOfMemory>
    requires small { course.old.next < 2 ^ 42 }
    requires from { course.old.start ≤ course.old.next + 250 }
    requires next { GivesIn course.old.next course.old.current }
    ensures passed { IfOk result
        (λ p. Advances machine.now course.old course.old.next p.batches.items p.done course.new) }
    ensures turn { IfOk result (λ p. AreOfTurn course.old.next (length machine.now.boards) p.batches.items) }
    ensures plain { IfOk result (λ p. IsPlain p.done) }
{
    let Own { units, over } = draw_own(&mut course.current)?;
    let batches = pass(alloc, machine, course, units, room)?;
    if !over {
        return Ok(Passed {
            batches,
            done: None,
        });
    }
    end_open(alloc, machine, course)?;
    Ok(Passed {
        batches,
        done: None,
    })
}

/// Goes on to the next turn: what is put in this one, but which section is begun. The room of a list is used again.
pub fn advance(
    alloc: Global,
    machine: &Machine,
    course: &mut Course,
    room: Vec<Batch>,
) -> Result<Passed, OutOfMemory>
    requires sound { IsSoundBy machine.now course.old course.old.next }
    requires small { course.old.next < 2 ^ 42 }
    ensures passed { IfOk result
        (λ p. Advances machine.now course.old course.old.next p.batches.items p.done course.new) }
    ensures turn { IfOk result (λ p. AreOfTurn course.old.next (length machine.now.boards) p.batches.items) }
    ensures plain { IfOk result (λ p. IsPlain p.done) }
{
    if let Open::Nothing = course.current {
        return pass_idle(alloc, machine, course, room);
    }
    if course.next + LEAD < course.start {
        return pass_before(alloc, machine, course, room);
    }
    pass_section(alloc, machine, course, room)
}
