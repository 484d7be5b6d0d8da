//! Further clock lines of the boards, that are taken up as the planner goes on.

ghost use Rattle.std.specs.Prelude.{◌≡◌, ℕ, ◌+◌, ◌<◌, ◌≤◌, ◌^◌, All, IfOk, OnOk, true};
ghost use Rattle.motion_stream.specs.Courses.{IsSoundCourse, IsSoundBy};
ghost use Rattle.motion_stream.specs.Motions.{AreEarly};
ghost use Rattle.motion_stream.specs.Steps.{IsFed};
ghost use Rattle.motion_stream.specs.Uptakes.{AddsTo, IsNotLost, MayAddTo, TakesEach, TakesMore, TakesOne, TakesUp};

use crate::OutOfMemory;
use crate::course::{Course, Open, TURN_NS};
use motion_work::BoardLine;
use msg_code::NoteNews;
use plan_types::{Line, Listed, Machine};
use section_feed::may_take;
use std::alloc::Global;
use std::mem;

/// A line that is taken up before turn k holds from this many turns later on: no step from there on is packed yet.
const LINE_LEAD: u64 = 277;

/// Lets a line hold on a board from a turn on in the section that goes on, if one does.
fn add_to(current: &mut Open, board: usize, turn: u64, line: Line) -> Result<(), OutOfMemory>
    requires { MayAddTo current.old board turn line }
    ensures { OnOk result (AddsTo board turn line current.old current.new) }
{
    match mem::replace(current, Open::Nothing) {
        Open::Nothing => Ok(()),
        Open::Goes { section, homes } => {
            let mut section = section;
            section.add_line(board, turn, line)?;
            *current = Open::Goes { section, homes };
            Ok(())
        }
    }
}

/// Takes up a line before turn k, where its board may have it from then on.
fn take_one(
    machine: &Machine,
    course: &mut Course,
    k: u64,
    one: &BoardLine,
    news: &mut Listed<NoteNews>,
) -> Result<(), OutOfMemory>
    requires sound { IsSoundBy machine.now course.old k }
    requires on { course.old.connected ≡ true }
    requires next { course.old.next ≡ k }
    requires small { k < 2 ^ 42 }
    requires early { AreEarly machine.now course.old }
    ensures taken { OnOk result (TakesOne machine.now course.old k one.now news.old news.new course.new) }
    ensures told { OnOk result (IsNotLost machine.now course.old.lines.each.items k news.new one.now) }
    ensures more { OnOk result (TakesMore course.old.lines.each.items course.new.lines.each.items news.old news.new) }
    ensures sound { OnOk result (IsSoundBy machine.now course.new k) }
    ensures on { course.new.connected ≡ course.old.connected }
    ensures next { course.new.next ≡ course.old.next }
    ensures early { OnOk result (AreEarly machine.now course.new) }
{
    let board = usize::from(one.board);
    let turn = k + LINE_LEAD;
    if board >= machine.boards.len() || !may_take(&course.lines.each[board], turn, &one.line) {
        return Ok(());
    }
    let from = u128::from(turn) * TURN_NS;
    add_to(&mut course.current, board, turn, one.line)?;
    course.lines.each[board].add(from, one.line)?;
    news.push(NoteNews::Line {
        board: one.board,
        line: one.line,
        from,
    })?;
    Ok(())
}

/// Takes up lines before turn k, the last one first: of two of a board the later told holds.
fn take_each(
    machine: &Machine,
    course: &mut Course,
    k: u64,
    waiting: &[BoardLine],
    news: &mut Listed<NoteNews>,
) -> Result<(), OutOfMemory>
    requires sound { IsSoundBy machine.now course.old k }
    requires on { course.old.connected ≡ true }
    requires next { course.old.next ≡ k }
    requires small { k < 2 ^ 42 }
    requires early { AreEarly machine.now course.old }
    ensures taken { OnOk result (TakesEach machine.now course.old k waiting.now news.old news.new course.new) }
    ensures told { OnOk result (All (IsNotLost machine.now course.old.lines.each.items k news.new) waiting.now) }
    ensures more { OnOk result (TakesMore course.old.lines.each.items course.new.lines.each.items news.old news.new) }
    ensures sound { OnOk result (IsSoundBy machine.now course.new k) }
    ensures next { course.new.next ≡ course.old.next }
    ensures early { OnOk result (AreEarly machine.now course.new) }
{
    match waiting {
        [] => {}
        [rest @ .., last] => {
            take_one(machine, course, k, last, news)?;
            take_each(machine, course, k, rest, news)?;
        }
    }
    Ok(())
}

/// Takes up the lines that wait before turn k, and tells which. Lines that their boards may not have then are
/// passed over.
pub fn take_up(
    alloc: Global,
    machine: &Machine,
    course: &mut Course,
    k: u64,
) -> Result<Listed<NoteNews>, OutOfMemory>
    requires sound { IsSoundCourse machine.now course.old }
    requires next { course.old.next ≡ k }
    requires small { k < 2 ^ 42 }
    requires early { AreEarly machine.now course.old }
    requires fed { IsFed course.old k }
    ensures taken { IfOk result (λ news. TakesUp machine.now course.old k news course.new) }
    ensures sound { OnOk result (IsSoundBy machine.now course.new k) }
    ensures next { course.new.next ≡ course.old.next }
    ensures early { OnOk result (AreEarly machine.now course.new) }
{
    let mut news = Listed::new(alloc);
    if course.lines.waiting.is_empty() || !course.connected {
        return Ok(news);
    }
    let waiting = mem::replace(&mut course.lines.waiting, Vec::new(alloc));
    take_each(machine, course, k, &waiting, &mut news)?;
    Ok(news)
}
