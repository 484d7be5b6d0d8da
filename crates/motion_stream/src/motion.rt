//! The motion machine.

use crate::OutOfMemory;
use crate::course::{Course, can_turn, hungers, new_course, sated, waits_by};
use crate::text::{take_text, take_word};
use crate::turn::make_turn;
use msg_code::{Batch, Made, WordMsg};
use plan_types::Machine;
use std::alloc::Global;
use std::marker::Model;
use std::mem;

/// The turns by which words may come later than batches.
const WORD_LEAD: u64 = 64;

/// What reads the text, takes words, and plans: it gives the batches of every turn and its note.
///
/// The text comes in pieces, as it is needed. A section is begun 260 turns before it starts, and one of moves
/// is planned and packed while its moves still come.
#[derive(Drop)]
pub struct Motion<'a> {
    alloc: Global,
    machine: &'a Machine,
    course: Course,
    /// No call left it for want of memory.
    live: bool,
    /// The list of an earlier turn, whose room the next one uses.
    room: Vec<Batch>,
}

impl<'a> Model for Motion<'a> {
    ghost use Rattle.std.specs.Prelude.{◌≡◌, true};
    ghost use Rattle.motion_stream.specs.Courses.{IsSoundCourse};
    ghost use Rattle.motion_stream.specs.Motions.{Planner};

    ghost Value = { Planner };

    ghost view = { λ m. record { machine = m.machine.now; course = m.course } };

    ghost invariant = { λ m. m.live ≡ true → IsSoundCourse m.machine.now m.course };
}

impl<'a> Motion<'a> {
    ghost use Rattle.std.specs.Prelude.{◌≡◌, ℕ, ◌≤◌, true, false, IfOk, IfSome, OnOk, length};
    ghost use Rattle.plan_types.specs.Machines.{IsValidMachine};
    ghost use Rattle.motion_work.specs.Feeds.{AreOfTurn};
    ghost use Rattle.motion_stream.specs.Clear.{clear_of};
    ghost use Rattle.motion_stream.specs.Motions.{CanTurnPlanner, Hears, IsPlannerOf, Makes, TakesText, hungry, wants};
    ghost use Rattle.motion_stream.specs.Courses.{IsSoundCourse};
    ghost use Rattle.motion_stream.specs.Seen.{nothing_seen};

    /// A machine before turn 0, to which nothing was told.
    pub fn new(alloc: Global, machine: &'a Machine) -> Motion<'a>
        requires { IsValidMachine machine.now }
        ensures machine { result.machine ≡ machine.now }
        ensures seen { IsPlannerOf result nothing_seen }
    {
        Motion {
            alloc,
            machine,
            course: new_course(alloc, machine),
            live: true,
            room: Vec::new(alloc),
        }
    }

    /// The number of the word that must be taken before the batches of turn k, None where none must: k itself
    /// while connecting, and while a homing section waits for its answer.
    pub fn wants(&self, k: u64) -> Option<u64>
        ensures value { result ≡ wants self.now k }
        ensures bound { IfSome result (λ j. j ≤ k) }
    {
        if !self.course.connected {
            return Some(k);
        }
        if waits_by(&self.course.current, self.course.start, k) {
            return Some(k);
        }
        if k < WORD_LEAD {
            return None;
        }
        Some(k - WORD_LEAD)
    }

    /// Whether more of the text must be taken before the batches of turn k: none while the section that is
    /// planned next has its end in the text so far (law `planners_hunger`).
    pub fn hungry(&self, k: u64) -> bool
        ensures { result ≡ hungry self.now k }
    {
        hungers(&self.course, k)
    }

    /// The first turn behind turn k before whose batches more of the text may have to be taken, whatever words come.
    pub fn sated(&self, k: u64) -> u64 {
        sated(&self.course, k)
    }

    /// Whether turn k is the next one, and nothing in it passes a limit.
    pub fn can_turn(&self, k: u64) -> bool
        ensures { result ≡ true → CanTurnPlanner self.now k }
    {
        can_turn(&self.course, k)
    }

    /// Takes the next word. Further clock lines that it tells are taken up in the next turn, while a section
    /// homes, too: such a line holds from 277 turns later on, and the note of that turn tells it. Lines that
    /// their boards may not have then are passed over.
    ///
    /// # Errors
    ///
    /// [`OutOfMemory`]; then the machine is used no more.
    pub fn word(&mut self, word: &WordMsg) -> Result<(), OutOfMemory>
        ensures word { OnOk result (Hears self.old word.now self.new) }
        ensures machine { self.new.machine ≡ self.old.machine }
    {
        if !self.live {
            return Err(OutOfMemory);
        }
        self.live = false;
        take_word(self.alloc, self.machine, &mut self.course, word)?;
        self.live = true;
        Ok(())
    }

    /// Takes the next piece of the text, and whether the text ends behind it. Behind the end nothing is taken.
    ///
    /// # Errors
    ///
    /// [`OutOfMemory`]; then the machine is used no more.
    pub fn text(&mut self, bytes: &[u8], end: bool) -> Result<(), OutOfMemory>
        ensures text { OnOk result (TakesText self.old bytes.now end self.new) }
        ensures machine { self.new.machine ≡ self.old.machine }
    {
        if !self.live {
            return Err(OutOfMemory);
        }
        self.live = false;
        take_text(self.alloc, self.machine, &mut self.course, bytes, end)?;
        self.live = true;
        Ok(())
    }

    /// Makes turn k: the batches of all boards, and the note. The batches are exactly the units that the
    /// sections which were begun release in this turn (law `turns_put_units`). How the text was read is told
    /// in the first turn by which all its sections ended and none of their units waits (law `ends_are_told`).
    /// After a refusal the machine is used no more.
    ///
    /// # Errors
    ///
    /// [`OutOfMemory`].
    pub fn turn(&mut self, k: u64) -> Result<Made, OutOfMemory>
        requires can { CanTurnPlanner self.old k }
        requires fed { hungry self.old k ≡ false }
        ensures made { IfOk result (λ m. Makes self.old k m.batches.items m.note self.new) }
        ensures note { IfOk result (λ m. m.note.turn ≡ k) }
        ensures quiet { IfOk result (λ m. m.note.out ≡ false) }
        ensures clear { IfOk result (λ m. m.note.clear ≡ clear_of self.new.course) }
        ensures batches { IfOk result (λ m. AreOfTurn k (length self.old.machine.boards) m.batches.items) }
        ensures machine { self.new.machine ≡ self.old.machine }
    {
        if !self.live {
            return Err(OutOfMemory);
        }
        self.live = false;
        let room = mem::replace(&mut self.room, Vec::new(self.alloc));
        let made = make_turn(self.alloc, self.machine, &mut self.course, k, room)?;
        self.live = true;
        Ok(made)
    }

    /// Takes the list of a turn's batches back, whose room the next turn uses.
    pub fn give_back(&mut self, room: Vec<Batch>)
        ensures { self.new ≡ self.old }
    {
        self.room = room;
    }
}
