//! A turn of the motion machine.

ghost use Rattle.std.specs.Prelude.{◌≡◌, ℕ, ◌+◌, ◌*◌, ◌<◌, ◌≤◌, ◌^◌, [], true, false, IfOk, OnOk, length};
ghost use Rattle.motion_stream.specs.Clear.{clear_of, idle_clear, tells_nothing};
ghost use Rattle.motion_stream.specs.Courses.{IsSoundCourse};
ghost use Rattle.motion_stream.specs.Motions.{AreEarly, TurnsCourse};
ghost use Rattle.motion_stream.specs.declared.course.Open.TheVariants as opens;
ghost use Rattle.motion_stream.specs.Steps.{IsFed};
ghost use Rattle.motion_work.specs.Feeds.{AreOfTurn};

use crate::OutOfMemory;
use crate::begin::begin_next;
use crate::course::{Course, Open, clear_turn, idle_clear};
use crate::draw::{Passed, advance};
use crate::news::{news_of, read_after, read_news, telling};
use crate::rows::bare_batches;
use crate::uptake::take_up;
use msg_code::{Batch, Made, Note};
use plan_types::{Listed, Machine};
use std::alloc::Global;

/// Whether nothing is taken up, put, or told in turn k, where no section goes on whose end is not known, and none
/// begins or ends before the turn `clear`.
fn is_quiet(course: &Course, k: u64, clear: u64) -> bool
    ensures before { result ≡ true → k < clear }
    ensures ahead { result ≡ true → course.now.ahead.items ≡ [] }
    ensures waiting { result ≡ true → length course.now.lines.waiting.items ≡ 0 }
    ensures told { result ≡ true → tells_nothing course.now ≡ true }
{
    k < clear
        && course.ahead.is_empty()
        && course.lines.waiting.is_empty()
        && (course.read
            || course.goes
            || course.source.end.is_none()
            || !course.source.items.is_empty())
}

/// Makes turn k, in which nothing but the next turn comes.
fn quiet_turn(
    alloc: Global,
    machine: &Machine,
    course: &mut Course,
    k: u64,
    clear: u64,
    room: Vec<Batch>,
) -> Result<Made, OutOfMemory>
    requires next { course.old.next ≡ k }
    requires small { k < 2 ^ 42 }
    requires fed { IsFed course.old k }
    requires idle { course.old.current ≡ opens.Nothing }
    requires clear { clear ≡ idle_clear course.old }
    requires before { k < clear }
    requires ahead { course.old.ahead.items ≡ [] }
    requires waiting { length course.old.lines.waiting.items ≡ 0 }
    requires told { tells_nothing course.old ≡ true }
    ensures made { IfOk result (λ m. TurnsCourse machine.now course.old k m.batches.items m.note course.new) }
    ensures note { IfOk result (λ m. m.note.turn ≡ k) }
    ensures quiet { IfOk result (λ m. m.note.out ≡ false) }
    ensures clear { IfOk result (λ m. m.note.clear ≡ clear_of course.new) }
    ensures batches { IfOk result (λ m. AreOfTurn k (length machine.now.boards) m.batches.items) }
{
    let batches = bare_batches(alloc, machine.boards.len(), k, room)?;
    course.next = k + 1;
    Ok(Made {
        batches,
        note: Note {
            turn: k,
            news: Listed::new(alloc),
            clear,
            out: false,
        },
    })
}

/// Makes turn k, in which something may go on.
#[inline(never)]
fn busy_turn(
    alloc: Global,
    machine: &Machine,
    course: &mut Course,
    k: u64,
    room: Vec<Batch>,
) -> Result<Made, OutOfMemory>
    requires sound { IsSoundCourse machine.now course.old }
    requires next { course.old.next ≡ k }
    requires small { k < 2 ^ 42 }
    requires early { AreEarly machine.now course.old }
    requires fed { IsFed course.old k }
    ensures made { IfOk result (λ m. TurnsCourse machine.now course.old k m.batches.items m.note course.new) }
    ensures note { IfOk result (λ m. m.note.turn ≡ k) }
    ensures quiet { IfOk result (λ m. m.note.out ≡ false) }
    ensures clear { IfOk result (λ m. m.note.clear ≡ clear_of course.new) }
    ensures batches { IfOk result (λ m. AreOfTurn k (length machine.now.boards) m.batches.items) }
{
    let further = take_up(alloc, machine, course, k)?;
    let Passed { batches, done } = advance(alloc, machine, course, room)?;
    let start = begin_next(alloc, machine, course, k)?;
    let end = telling(course, machine.boards.len());
    let read = read_news(course.read, end, course.place, &course.source.items);
    course.read = read_after(course.read, end);
    let news = news_of(alloc, done, start, read, further.as_slice())?;
    let clear = clear_turn(course);
    Ok(Made {
        batches,
        note: Note {
            turn: k,
            news,
            clear,
            out: false,
        },
    })
}

/// Makes turn k. Its batches stand in a list whose room is used again.
pub fn make_turn(
    alloc: Global,
    machine: &Machine,
    course: &mut Course,
    k: u64,
    room: Vec<Batch>,
) -> Result<Made, OutOfMemory>
    requires sound { IsSoundCourse machine.now course.old }
    requires next { course.old.next ≡ k }
    requires small { k < 2 ^ 42 }
    requires early { AreEarly machine.now course.old }
    requires fed { IsFed course.old k }
    ensures made { IfOk result (λ m. TurnsCourse machine.now course.old k m.batches.items m.note course.new) }
    ensures note { IfOk result (λ m. m.note.turn ≡ k) }
    ensures quiet { IfOk result (λ m. m.note.out ≡ false) }
    ensures clear { IfOk result (λ m. m.note.clear ≡ clear_of course.new) }
    ensures batches { IfOk result (λ m. AreOfTurn k (length machine.now.boards) m.batches.items) }
{
    if let Open::Nothing = course.current {
        let clear = idle_clear(course);
        if is_quiet(course, k, clear) {
            return quiet_turn(alloc, machine, course, k, clear, room);
        }
    }
    busy_turn(alloc, machine, course, k, room)
}
