//! The news of a turn.

ghost use Rattle.std.specs.Prelude.{◌≡◌, ◌⊎◌, None, ◌+◌, ◌<◌, ◌≤◌, ◌^◌, ◌++◌, [], ◌∷◌, IfOk, OnOk};
ghost use Rattle.std.specs.VecDeque.{deque_len};
ghost use Rattle.motion_work.specs.Begins.{done_news, news_items};
ghost use Rattle.motion_stream.specs.News.{HasPutAll, IsPlain, begins_in, read_after, read_news};

use crate::OutOfMemory;
use crate::course::{BETWEEN, Course, goes_on};
use crate::rows::any_waits;
use gcode_program::Item;
use msg_code::NoteNews;
use plan_types::{Listed, ReadEnd};
use std::alloc::Global;
use std::collections::VecDeque;

/// The news that the last section ends in a turn, if it does.
pub fn done_news(goes: bool, ready: u64, place: u64, k: u64) -> Option<NoteNews>
    requires { k < 2 ^ 42 }
    ensures news { result ≡ done_news goes ready place k }
    ensures plain { IsPlain result }
{
    if goes && ready == k + BETWEEN {
        return Some(NoteNews::Done {
            section: place.saturating_sub(1),
            turn: k,
        });
    }
    None
}

/// 1 where a thing begins a section.
fn begins(item: &Item) -> u64
    ensures value { result ≡ begins_in (item.now ∷ []) }
    ensures small { result ≤ 1 }
{
    match item {
        Item::Begin { .. } => 1,
        Item::Move(_) => 0,
        Item::End => 0,
    }
}

/// How many sections begin among these things.
fn begins_in(items: &VecDeque<Item>) -> u64
    ensures value { result ≡ begins_in items.now.items }
    ensures small { result ≤ deque_len items.now }
{
    let mut count: u64 = 0;
    for place in 0..items.len() {
        count += begins(&items[place]);
    }
    count
}

/// The news how the text was read, where that is known and was not told yet; so many sections were begun, and
/// these things wait.
pub fn read_news(
    told: bool,
    end: Option<ReadEnd>,
    place: u64,
    items: &VecDeque<Item>,
) -> Option<NoteNews>
    requires { place ≤ 2 ^ 42 }
    ensures { result ≡ read_news told end (place + begins_in items.now.items) }
{
    match end {
        Some(end) if !told => Some(NoteNews::Read {
            end,
            sections: place + begins_in(items),
        }),
        _ => None,
    }
}

/// How the text was read, where that is known and may be told: all sections ended, and none of their units
/// waits. So a run doesn't end while a unit waits for room behind its section's end, and a note before the
/// turn that was told as clear has no news.
pub fn telling(course: &Course, boards: usize) -> Option<ReadEnd>
    ensures told { HasPutAll boards course.now → result ≡ course.now.source.end }
    ensures put { (result ≡ None) ⊎ ((result ≡ course.now.source.end) × HasPutAll boards course.now) }
{
    if goes_on(course) || !course.source.items.is_empty() || any_waits(&course.ahead, boards) {
        return None;
    }
    course.source.end
}

/// Whether it was told how the text was read, behind a turn.
pub fn read_after(told: bool, end: Option<ReadEnd>) -> bool
    ensures { result ≡ read_after told end }
{
    told || end.is_some()
}

/// Adds news, if there are some.
fn push_news(news: &mut Listed<NoteNews>, one: Option<NoteNews>) -> Result<(), OutOfMemory>
    ensures { OnOk result (news.new ≡ news.old ++ news_items one) }
{
    if let Some(told) = one {
        news.push(told)?;
    }
    Ok(())
}

/// Adds some news.
fn push_all(news: &mut Listed<NoteNews>, more: &[NoteNews]) -> Result<(), OutOfMemory>
    ensures { OnOk result (news.new ≡ news.old ++ more.now) }
{
    match more {
        [] => {}
        [first, rest @ ..] => {
            news.push(*first)?;
            push_all(news, rest)?;
        }
    }
    Ok(())
}

/// Some news one behind the other: of sections, how the text was read, and of further clock lines.
pub fn news_of(
    alloc: Global,
    done: Option<NoteNews>,
    start: Option<NoteNews>,
    read: Option<NoteNews>,
    further: &[NoteNews],
) -> Result<Listed<NoteNews>, OutOfMemory>
    ensures { IfOk result (λ news. news ≡ news_items done ++ (news_items start ++ (news_items read ++ further.now))) }
{
    let mut news = Listed::new(alloc);
    push_news(&mut news, done)?;
    push_news(&mut news, start)?;
    push_news(&mut news, read)?;
    push_all(&mut news, further)?;
    Ok(news)
}
