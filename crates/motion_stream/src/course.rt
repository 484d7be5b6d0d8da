//! Where a motion machine is in its text and its turns.

ghost use Rattle.std.specs.Prelude.{◌≡◌, ℕ, ◌+◌, ◌-◌, ◌*◌, ◌<◌, ◌≤◌, ◌^◌, true, false, length};
ghost use Rattle.plan_types.specs.Machines.{IsValidMachine};
ghost use Rattle.plan_types.specs.Sections.{clocks_at};
ghost use Rattle.motion_stream.specs.Courses.{IsCourseOf};
ghost use Rattle.motion_stream.specs.declared.course.Open.TheVariants as opens;
ghost use Rattle.motion_stream.specs.Clear as clear;
ghost use Rattle.motion_stream.specs.Motions as motions;
ghost use Rattle.motion_stream.specs.Seen.{nothing_seen};

use crate::source::{Source, new_source};
use clock_line::Lines;
use gcode_program::Item;
use motion_work::BoardLine;
use msg_code::Unit;
use plan_types::{Listed, Machine};
use section_feed::SectionStream;
use std::alloc::Global;
use std::collections::VecDeque;

/// The turns between the end of a section and the start of the next.
pub const BETWEEN: u64 = 260;

/// The first turn in which a section may start.
pub const FIRST_START: u64 = 1_260;

/// No run has this turn.
pub const LAST_TURN: u64 = 1 << 42;

/// No clock of a run begins at this tick or later.
const LAST_CLOCK: u64 = 1 << 62;

/// How many turns ahead moves must be settled.
pub const REACH: u128 = 261;

/// The nanoseconds of a turn.
pub const TURN_NS: u128 = 1_000_000;

/// What goes on: no section, or one whose end is known; or one whose end is not, and whether it homes, and so
/// ends by its answer.
#[derive(Drop)]
pub enum Open {
    Nothing,
    Goes { section: SectionStream, homes: bool },
}

/// The clock lines of each board; and the further ones that words told since the last turn.
#[derive(Drop)]
pub struct BoardLines {
    pub each: Vec<Lines>,
    pub waiting: Vec<BoardLine>,
}

/// Where a motion machine is: in the text; whether it was told how that was read; whether connecting ended,
/// and the boards' clock lines; the turn from which on the next section may start, as far as that is known;
/// when the last section starts that was begun; how many were begun, and whether one goes on whose end is
/// known; what goes on else; the units of the sections whose end is known, turn by turn from the next one on;
/// and the turn whose batches are made next.
#[derive(Drop)]
pub struct Course {
    pub source: Source,
    pub read: bool,
    pub connected: bool,
    pub lines: BoardLines,
    pub ready: u64,
    pub start: u64,
    pub place: u64,
    pub goes: bool,
    pub current: Open,
    pub ahead: VecDeque<Listed<Listed<Unit>>>,
    pub next: u64,
}

/// The start of a run.
pub fn new_course(alloc: Global, machine: &Machine) -> Course
    requires { IsValidMachine machine.now }
    ensures { IsCourseOf machine.now result nothing_seen }
{
    Course {
        source: new_source(alloc, machine),
        read: false,
        connected: false,
        lines: BoardLines {
            each: Vec::new(alloc),
            waiting: Vec::new(alloc),
        },
        ready: FIRST_START,
        start: FIRST_START,
        place: 0,
        goes: false,
        current: Open::Nothing,
        ahead: VecDeque::new(alloc),
        next: 0,
    }
}

/// Whether a homing section waits for its answer in a turn.
pub fn waits_by(current: &Open, start: u64, k: u64) -> bool
    ensures { result ≡ motions.waits_by current.now start k }
{
    match current {
        Open::Goes { homes, .. } => *homes && start <= k,
        Open::Nothing => false,
    }
}

/// Whether something of what is needed for turn k is not read.
fn lacks(course: &Course, k: u64) -> bool
    ensures { result ≡ motions.lacks course.now course.now.current k }
{
    match &course.current {
        Open::Goes { section, .. } => {
            section.is_open() && section.reach() < (u128::from(k) + REACH) * TURN_NS
        }
        Open::Nothing => {
            course.connected
                && course.source.items.is_empty()
                && u128::from(course.ready) < u128::from(k) + REACH
        }
    }
}

/// Whether more of the text is needed before the batches of turn k.
pub fn hungers(course: &Course, k: u64) -> bool
    ensures { result ≡ motions.hungers course.now k }
{
    if course.source.end.is_some() {
        return false;
    }
    !course.source.opened || lacks(course, k)
}

/// The first turn behind turn k before whose batches more of the text may be needed, whatever words come.
pub fn sated(course: &Course, k: u64) -> u64 {
    if course.source.end.is_some() {
        return u64::MAX;
    }
    let until = match &course.current {
        Open::Goes { section, homes } => section_sated(section, *homes),
        Open::Nothing => idle_sated(course),
    };
    until.max(k.saturating_add(1))
}

/// The first turn for which a section that goes on, or the one behind it, may lack moves. One that homes may
/// end in any turn.
fn section_sated(section: &SectionStream, homes: bool) -> u64 {
    if homes {
        return 0;
    }
    let turns = section_clear(section);
    if section.is_open() {
        return turns.saturating_sub(BETWEEN);
    }
    turns
}

/// The first turn for which the next section may be lacking, where none goes on.
fn idle_sated(course: &Course) -> u64
    ensures { course.now.connected ≡ true → result ≡ clear.next_begin course.now.ready course.now.source.items.items }
{
    if !course.connected {
        return 0;
    }
    match course.source.items.front() {
        Some(Item::Begin { dwell, .. }) => {
            course.ready.saturating_add(*dwell).saturating_sub(BETWEEN)
        }
        _ => course.ready.saturating_sub(BETWEEN),
    }
}

/// Whether a section goes on.
pub fn goes_on(course: &Course) -> bool
    ensures nothing { result ≡ false → course.now.current ≡ opens.Nothing }
    ensures ended { result ≡ false → course.now.goes ≡ false }
    ensures on { result ≡ true → course.now.current ≡ opens.Nothing → course.now.goes ≡ true }
{
    match &course.current {
        Open::Nothing => course.goes,
        Open::Goes { .. } => true,
    }
}

/// The first turn whose note may begin or end a section.
pub fn clear_turn(course: &Course) -> u64
    ensures { result ≡ clear.clear_of course.now }
{
    match &course.current {
        Open::Goes { section, homes } => {
            if *homes {
                return course.next.max(course.start);
            }
            section_clear(section).max(course.next)
        }
        Open::Nothing => idle_clear(course),
    }
}

/// The first turn in which a section of moves may end that goes on.
fn section_clear(section: &SectionStream) -> u64
    ensures { result ≡ clear.settled_turn section.now }
{
    let turns = section.reach() / TURN_NS;
    if turns >= u128::from(u64::MAX) {
        return 0;
    }
    turns as u64
}

/// The first turn whose note may begin or end a section, where none goes on whose end is not known.
pub fn idle_clear(course: &Course) -> u64
    ensures { result ≡ clear.idle_clear course.now }
{
    if course.goes {
        return course.ready.saturating_sub(BETWEEN);
    }
    if !course.connected {
        return course.next;
    }
    if course.source.items.is_empty() && course.source.end.is_some() && course.read {
        return u64::MAX;
    }
    idle_sated(course).max(course.next)
}

/// Whether the clocks of these lines begin early enough.
fn are_early(lines: &[Lines]) -> bool
    ensures { result ≡ true → (b : ℕ) → b < length lines.now → (clocks_at lines.now b).first.clock < 2 ^ 62 }
{
    for own in lines {
        if own.first().clock >= LAST_CLOCK {
            return false;
        }
    }
    true
}

/// Whether turn k is the next one, and nothing in it passes a limit.
pub fn can_turn(course: &Course, k: u64) -> bool
    ensures next { result ≡ true → course.now.next ≡ k }
    ensures small { result ≡ true → k < 2 ^ 42 }
    ensures early { result ≡ true → (b : ℕ) → b < length course.now.lines.each.items →
        (clocks_at course.now.lines.each.items b).first.clock < 2 ^ 62 }
{
    course.next == k && k < LAST_TURN && are_early(&course.lines.each)
}
