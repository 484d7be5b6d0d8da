//! What a motion machine takes: the text, piece by piece, and words.

ghost use Rattle.std.specs.Prelude.{◌≡◌, ◌≤◌, ◌+◌, ◌^◌, ◌&&◌, ℕ, All, OnOk, Option, true};
ghost use Rattle.motion_stream.specs.Courses.{IsCourseOf, IsSoundCourse};
ghost use Rattle.gcode_program.specs.Items.{IsGood};
ghost use Rattle.section_feed.specs.Queues.{count_in, is_taking};
ghost use Rattle.section_feed.specs.Sections.{queue_of};
ghost use Rattle.motion_stream.specs.Gone.{HasHeard, moves_ahead};
ghost use Rattle.motion_stream.specs.Motions.{IsMore, read_on, waits_by, with_answer, with_further, with_heed, with_lines, with_word};
ghost use Rattle.motion_work.specs.Told.{tells_homed};
ghost use Rattle.motion_stream.specs.Seen.{Going, Seen};

use crate::OutOfMemory;
use crate::course::{BETWEEN, Course, Open, waits_by};
use crate::section::take_moves;
use crate::source::take_piece;
use gcode_program::Item;
use motion_work::{BoardLine, add_lines, first_start, says_homed, told_of};
use msg_code::WordMsg;
use plan_types::Machine;
use section_feed::SectionStream;
use std::alloc::Global;
use std::collections::VecDeque;
use std::mem;

/// Takes the moves that wait for a section that goes on.
fn take_waiting(items: &mut VecDeque<Item>, section: &mut SectionStream) -> Result<(), OutOfMemory>
    requires good { All IsGood items.old.items }
    requires few { is_taking (queue_of section.old) ≡ true →
        count_in (queue_of section.old) + moves_ahead items.old.items ≤ 2_000_000 }
    ensures { OnOk result (HasHeard section.old section.new items.old.items items.new.items) }
{
    if !section.is_open() {
        return Ok(());
    }
    take_moves(items, section)
}

/// Takes a piece of the text, and whether the text ends behind it. Behind the end nothing is taken.
pub fn take_text(
    alloc: Global,
    machine: &Machine,
    course: &mut Course,
    bytes: &[u8],
    end: bool,
) -> Result<(), OutOfMemory>
    requires { IsSoundCourse machine.now course.old }
    ensures { OnOk result ((seen : Seen) → IsCourseOf machine.now course.old seen →
        (going : Option Going) × IsMore seen.going going
        × IsCourseOf machine.now course.new (read_on seen bytes.now end going)) }
{
    take_piece(alloc, machine, &mut course.source, bytes, end)?;
    match mem::replace(&mut course.current, Open::Nothing) {
        Open::Nothing => Ok(()),
        Open::Goes { section, homes } => {
            let mut section = section;
            take_waiting(&mut course.source.items, &mut section)?;
            course.current = Open::Goes { section, homes };
            Ok(())
        }
    }
}

/// Takes the boards' clock lines that a word tells.
fn take_lines(
    alloc: Global,
    machine: &Machine,
    course: &mut Course,
    word: &WordMsg,
) -> Result<(), OutOfMemory>
    requires { IsSoundCourse machine.now course.old }
    ensures { OnOk result ((seen : Seen) → IsCourseOf machine.now course.old seen →
        IsCourseOf machine.now course.new (with_lines machine.now seen word.now)) }
{
    if course.connected {
        return Ok(());
    }
    if let Some(lines) = told_of(alloc, machine, word)? {
        course.lines.each = lines;
        course.ready = first_start(course.next.max(word.turn));
        course.start = course.ready;
        course.connected = true;
    }
    Ok(())
}

/// Whether a word tells the answer of a homing group that a section waits for.
fn is_answered(course: &Course, word: &WordMsg) -> bool
    ensures { result ≡ (tells_homed word.now.news && waits_by course.now.current course.now.start course.now.next) }
{
    says_homed(word) && waits_by(&course.current, course.start, course.next)
}

/// Takes the answer of a homing group that a word tells. It counts where a section waits for it and has
/// started; that ends in the next turn, and what it has not given by then is given no more.
fn take_answer(machine: &Machine, course: &mut Course, word: &WordMsg)
    requires { course.old.next ≤ 2 ^ 42 }
    ensures { (seen : Seen) → IsCourseOf machine.now course.old seen →
        IsCourseOf machine.now course.new (with_answer machine.now seen word.now) }
{
    let _ = machine;
    if !is_answered(course, word) {
        return;
    }
    course.current = Open::Nothing;
    course.goes = true;
    course.ready = course.next + BETWEEN;
}

/// Keeps the further clock lines that a word tells until they are taken up in the next turn. None is told
/// before connecting ended.
fn keep_lines(machine: &Machine, course: &mut Course, word: &WordMsg) -> Result<(), OutOfMemory>
    ensures { OnOk result ((seen : Seen) → IsCourseOf machine.now course.old seen →
        IsCourseOf machine.now course.new (with_further seen word.now)) }
{
    let _ = machine;
    if !course.connected {
        return Ok(());
    }
    add_lines(word.news.as_slice(), &mut course.lines.waiting)?;
    Ok(())
}

/// Takes a word, but for the further clock lines that it tells.
fn heed_word(
    alloc: Global,
    machine: &Machine,
    course: &mut Course,
    word: &WordMsg,
) -> Result<(), OutOfMemory>
    requires { IsSoundCourse machine.now course.old }
    ensures { OnOk result ((seen : Seen) → IsCourseOf machine.now course.old seen →
        IsCourseOf machine.now course.new (with_heed machine.now seen word.now)) }
{
    take_lines(alloc, machine, course, word)?;
    take_answer(machine, course, word);
    Ok(())
}

/// Takes a word.
pub fn take_word(
    alloc: Global,
    machine: &Machine,
    course: &mut Course,
    word: &WordMsg,
) -> Result<(), OutOfMemory>
    requires { IsSoundCourse machine.now course.old }
    ensures { OnOk result ((seen : Seen) → IsCourseOf machine.now course.old seen →
        IsCourseOf machine.now course.new (with_word machine.now seen word.now)) }
{
    heed_word(alloc, machine, course, word)?;
    keep_lines(machine, course, word)?;
    Ok(())
}
