//! What the motion machine's notes tell.

ghost use Rattle.std.specs.Prelude.{◌≡◌, ◌≤◌, [], true, false, length, OnOk};
ghost use Rattle.axis_homing.specs.Homing.{StartsTogether};
ghost use Rattle.host_reactor.specs.Notes.{known_behind, told_all, noted, news_of, is_out};

use crate::OutOfMemory;
use crate::ordered::{Begun, Known, Reading};
use axis_homing::homing_of;
use board_asking::more;
use msg_code::{Note, NoteNews};
use plan_types::Machine;

/// A news of a note is taken.
fn tell(m: &Machine, r: &mut Known, news: &NoteNews) -> Result<(), OutOfMemory>
    requires boards { length m.now.boards ≤ 8 }
    requires starts { StartsTogether r.old.homing }
    ensures starts { StartsTogether r.new.homing }
    ensures value { OnOk result (r.new ≡ known_behind m.now r.old news.now) }
    ensures askings { r.new.askings ≡ r.old.askings }
{
    match *news {
        NoteNews::Start {
            section,
            kind,
            turn,
            last,
            moving,
        } => {
            r.homing = homing_of(m, section, kind, turn, last, moving);
            r.begun = Some(Begun {
                section,
                kind,
                turn,
            });
        }
        NoteNews::Done { turn, .. } => {
            r.done = more(r.done);
            r.ended = turn;
        }
        NoteNews::Read { end, sections } => {
            r.reading = Some(Reading { end, sections });
        }
        NoteNews::Line { board, line, from } => r.clocks.add(board, from, line)?,
    }
    Ok(())
}

/// The news of a note are taken.
fn tell_all(m: &Machine, r: &mut Known, news: &[NoteNews]) -> Result<(), OutOfMemory>
    requires boards { length m.now.boards ≤ 8 }
    requires starts { StartsTogether r.old.homing }
    ensures starts { StartsTogether r.new.homing }
    ensures value { OnOk result (r.new ≡ told_all m.now news.now r.old) }
    ensures askings { r.new.askings ≡ r.old.askings }
{
    match news {
        [] => {}
        [first, rest @ ..] => {
            tell(m, r, first)?;
            tell_all(m, r, rest)?;
        }
    }
    Ok(())
}

/// A note is taken.
pub fn take_note(m: &Machine, r: &mut Known, note: &Option<Note>) -> Result<(), OutOfMemory>
    requires boards { length m.now.boards ≤ 8 }
    requires starts { StartsTogether r.old.homing }
    ensures starts { StartsTogether r.new.homing }
    ensures value { OnOk result (r.new ≡ noted m.now note.now r.old) }
    ensures askings { r.new.askings ≡ r.old.askings }
{
    if let Some(note) = note {
        tell_all(m, r, note.news.as_slice())?;
        r.clear = note.clear;
    }
    Ok(())
}

/// The news of a note.
pub fn news_of(note: &Option<Note>) -> &[NoteNews]
    ensures { result.now ≡ news_of note.now }
{
    match note {
        None => &[],
        Some(note) => note.news.as_slice(),
    }
}

/// Whether the motion machine wanted memory.
pub fn is_out(note: &Option<Note>) -> bool
    ensures { result ≡ is_out note.now }
{
    match note {
        None => false,
        Some(note) => note.out,
    }
}

/// Whether a note tells nothing, and no news may come earlier than was told before.
pub fn is_plain(note: &Note, clear: u64) -> bool
    ensures news { result ≡ true → note.now.news ≡ [] }
    ensures out { result ≡ true → note.now.out ≡ false }
    ensures clear { result ≡ true → clear ≤ note.now.clear }
{
    note.news.is_empty() && !note.out && clear <= note.clear
}
