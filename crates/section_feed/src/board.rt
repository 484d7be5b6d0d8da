//! One board in a section.

ghost use Rattle.std.specs.Prelude.{◌≡◌, ℕ, ◌+◌, ◌<◌, ◌≤◌, ◌*◌, ◌^◌, true};
ghost use Rattle.plan_types.specs.Clock.{turn_ns};
ghost use Rattle.step_feed.specs.Streams.{next_turn};
ghost use Rattle.section_feed.specs.Boards.{AreUpTo, IsLasting};
ghost use Rattle.section_feed.specs.Dues.{AreDueFrom, order_at};

use crate::OutOfMemory;
use crate::feed::feed_units;
use crate::steppers::{
    are_done, begin_of, finish_all, last_turn, line_all, plan_all, push_all, take_units,
};
use clock_line::Lines;
use msg_code::Unit;
use plan_types::{Line, StepperDef};
use section_plan::duration;
use section_stream::{Ready, StepperStream};
use std::alloc::Global;
use std::mem;
use step_feed::{FeedStream, LEAD};
use step_pack::max_error;

/// No section ends as late as this, in ns: a stream has no room for more than 2^44 turns.
const MOST_NS: u128 = 17_592_186_044_416_000_000;

/// The nanoseconds of a turn.
const TURN_NS: u128 = 1_000_000;

/// The steppers of one board in a section: the moves that they were given end at a time, their steps are
/// packed up to a turn, and their units wait for the turns in which they are released.
#[derive(Drop)]
pub struct BoardStream {
    alloc: Global,
    lines: Lines,
    steppers: Vec<StepperStream>,
    feed: FeedStream,
    order: u128,
    time: u128,
    turn: u64,
    goes: bool,
    ghost lasting: { IsLasting lines },
    ghost begun: { lines.first.at ≤ time },
    ghost begun_next: { lines.first.at ≤ (next_turn feed + 250) * turn_ns },
    ghost ahead: { goes ≡ true → turn * turn_ns ≤ time },
    ghost time_small: { time < 2 ^ 44 * turn_ns },
    ghost up_to: { ∥ AreUpTo lines goes time turn steppers.items ∥₁ },
    ghost near: { next_turn feed + 250 ≤ turn },
    ghost due: { ∥ AreDueFrom (next_turn feed + 250) steppers.items ∥₁ },
    ghost handed: { 0 < order → order < order_at lines (next_turn feed + 250) },
}

impl BoardStream {
    ghost use Rattle.std.specs.Prelude.{◌≡◌, ℕ, ◌+◌, ◌<◌, ◌≤◌, ◌*◌, ◌^◌, List, [], ◌++◌, IfNone, IfSome, IfOk, OnOk, IsTrue, None, Some, true, false, if◌then◌else◌, length, max};
    ghost use Rattle.plan_types.specs.Clock.{turn_ns};
    ghost use Rattle.plan_types.specs.Lines.{lines_tick};
    ghost use Rattle.plan_types.specs.Sections.{TimedPart, duration, timed};
    ghost use Rattle.plan_types.specs.Valid.{IsValidGear};
    ghost use Rattle.step_feed.specs.Pacing.{Release, at_turn};
    ghost use Rattle.section_stream.specs.Steppers.{StepperKind, kind_from};
    ghost use Rattle.clock_line.specs.Kept.{added};
    ghost use Rattle.section_feed.specs.Boards.{MayStart, MayTake};
    ghost use Rattle.section_feed.specs.Going.{IsAhead};
    ghost use Rattle.section_feed.specs.Released.{HasReleased, IsPast, last_in, steppers_in};
    ghost use Rattle.section_feed.specs.Left.{AreLeft};
    ghost use Rattle.section_feed.specs.Rests.{AreRested};
    ghost use Rattle.section_feed.specs.Feeding.{IsBoardOf, base_of, count_of, first_of, lines_of_board, packed_of, slots_in, fed_time, turn_of};
    ghost use Rattle.section_feed.specs.Sets.{goes_of, set_of};

    /// A board that has no stepper yet, in a section that begins with a turn; its queues have so many slots.
    pub fn new(alloc: Global, lines: Lines, turn: u64, slots: u32) -> BoardStream
        requires start { MayStart lines turn }
        requires lead { 250 ≤ turn }
        requires slots { 1 ≤ slots }
        ensures empty { (kinds : ℕ → StepperKind) → IsBoardOf result kinds (lines_tick lines (turn * turn_ns)) [] [] }
        ensures base { base_of result ≡ lines_tick lines (turn * turn_ns) }
        ensures lines { lines_of_board result ≡ lines }
        ensures time { fed_time result ≡ turn * turn_ns }
        ensures turn { turn_of result + 250 ≡ turn }
        ensures first { first_of result + 250 ≡ turn }
        ensures slots { slots_in result ≡ slots }
        ensures none { count_of result ≡ 0 }
        ensures packed { packed_of result ≡ turn }
        ensures goes { goes_of result ≡ true }
    {
        BoardStream {
            alloc,
            lines,
            steppers: Vec::new(alloc),
            feed: FeedStream::new(alloc, slots, turn - LEAD),
            order: 0,
            time: u128::from(turn) * TURN_NS,
            turn,
            goes: true,
        }
    }

    /// Adds a stepper, as long as nothing was planned.
    pub fn add(
        &mut self,
        corexy: bool,
        stepper: &StepperDef,
        homing: bool,
    ) -> Result<(), OutOfMemory>
        requires drive { stepper.now.drive < 4 }
        requires gear { IsValidGear stepper.now.gear }
        requires number { stepper.now.oid ≡ count_of self.old }
        requires going { goes_of self.old ≡ true }
        requires begins { fed_time self.old ≡ packed_of self.old * turn_ns }
        ensures empty { OnOk result ((kinds : ℕ → StepperKind) → IsBoardOf self.old kinds (base_of self.old) [] [] →
            kinds (count_of self.old)
            ≡ kind_from corexy stepper.now (lines_of_board self.old).first
            (if homing then None else Some (base_of self.old)) →
            IsBoardOf self.new kinds (base_of self.old) [] []) }
        ensures base { base_of self.new ≡ base_of self.old }
        ensures lines { lines_of_board self.new ≡ lines_of_board self.old }
        ensures time { fed_time self.new ≡ fed_time self.old }
        ensures turn { turn_of self.new ≡ turn_of self.old }
        ensures first { first_of self.new ≡ first_of self.old }
        ensures slots { slots_in self.new ≡ slots_in self.old }
        ensures count { OnOk result (count_of self.new ≡ count_of self.old + 1) }
        ensures packed { packed_of self.new ≡ packed_of self.old }
        ensures goes { goes_of self.new ≡ goes_of self.old }
    {
        let one = StepperStream::new(self.alloc, corexy, stepper, &self.lines, self.turn, homing)?;
        let mut steppers = mem::replace(&mut self.steppers, Vec::new(self.alloc));
        steppers.push(one)?;
        self.steppers = steppers;
        Ok(())
    }

    /// Adds a move behind the others.
    pub fn push(&mut self, ready: &Ready) -> Result<(), OutOfMemory>
        requires going { goes_of self.old ≡ true }
        ensures on { OnOk result ((kinds : ℕ → StepperKind) (base : ℕ) (parts : List TimedPart)
            (released : List Release) → IsBoardOf self.old kinds base parts released →
            IsBoardOf self.new kinds base (parts ++ timed ready.now.one 0 (fed_time self.old) ready.now.parts)
            released) }
        ensures time { OnOk result (fed_time self.new ≡ fed_time self.old + duration ready.now.parts) }
        ensures lines { lines_of_board self.new ≡ lines_of_board self.old }
        ensures turn { turn_of self.new ≡ turn_of self.old }
        ensures first { first_of self.new ≡ first_of self.old }
        ensures slots { slots_in self.new ≡ slots_in self.old }
        ensures set { OnOk result (set_of self.new ≡ set_of self.old) }
        ensures packed { packed_of self.new ≡ packed_of self.old }
        ensures goes { goes_of self.new ≡ goes_of self.old }
    {
        let end = self.time + duration(&ready.parts);
        if end >= MOST_NS {
            return Err(OutOfMemory);
        }
        let mut steppers = mem::replace(&mut self.steppers, Vec::new(self.alloc));
        push_all(&mut steppers, &self.lines, ready, self.time, self.turn)?;
        self.time = end;
        self.steppers = steppers;
        Ok(())
    }

    /// Plans and packs the steps up to a turn, where that is a later one.
    pub fn plan(&mut self, turn: u64) -> Result<(), OutOfMemory>
        requires small { turn < 2 ^ 44 }
        ensures on { OnOk result ((kinds : ℕ → StepperKind) (base : ℕ) (parts : List TimedPart)
            (released : List Release) → IsBoardOf self.old kinds base parts released →
            IsBoardOf self.new kinds base parts released) }
        ensures time { fed_time self.new ≡ fed_time self.old }
        ensures lines { lines_of_board self.new ≡ lines_of_board self.old }
        ensures turn { turn_of self.new ≡ turn_of self.old }
        ensures first { first_of self.new ≡ first_of self.old }
        ensures slots { slots_in self.new ≡ slots_in self.old }
        ensures set { OnOk result (set_of self.new ≡ set_of self.old) }
        ensures goes { goes_of self.new ≡ goes_of self.old }
        ensures packed { OnOk result (turn ≤ packed_of self.new) }
        ensures most { OnOk result (packed_of self.new ≡ max (packed_of self.old) turn) }
    {
        if turn <= self.turn {
            return Ok(());
        }
        if self.goes && self.time < (u128::from(turn) + 1) * TURN_NS {
            return Err(OutOfMemory);
        }
        let mut steppers = mem::replace(&mut self.steppers, Vec::new(self.alloc));
        plan_all(
            &mut steppers,
            &self.lines,
            self.goes,
            self.time,
            self.turn,
            turn,
        )?;
        self.turn = turn;
        self.steppers = steppers;
        Ok(())
    }

    /// No more moves come.
    pub fn finish(&mut self)
        ensures on { (kinds : ℕ → StepperKind) (base : ℕ) (parts : List TimedPart) (released : List Release) →
            IsBoardOf self.old kinds base parts released → IsBoardOf self.new kinds base parts released }
        ensures time { fed_time self.new ≡ fed_time self.old }
        ensures lines { lines_of_board self.new ≡ lines_of_board self.old }
        ensures turn { turn_of self.new ≡ turn_of self.old }
        ensures first { first_of self.new ≡ first_of self.old }
        ensures slots { slots_in self.new ≡ slots_in self.old }
        ensures set { set_of self.new ≡ set_of self.old }
        ensures packed { packed_of self.new ≡ packed_of self.old }
        ensures goes { goes_of self.new ≡ false }
    {
        if self.goes {
            let mut steppers = mem::replace(&mut self.steppers, Vec::new(self.alloc));
            finish_all(&mut steppers, &self.lines, self.time, self.turn);
            self.goes = false;
            self.steppers = steppers;
        }
    }

    /// Lets a clock line hold from the beginning of a turn on, which is behind that up to which the steps are packed.
    pub fn add_line(&mut self, turn: u64, line: Line) -> Result<(), OutOfMemory>
        requires may { MayTake (lines_of_board self.old) turn line }
        requires behind { packed_of self.old < turn }
        ensures on { OnOk result ((kinds : ℕ → StepperKind) (base : ℕ) (parts : List TimedPart)
            (released : List Release) → IsBoardOf self.old kinds base parts released →
            IsBoardOf self.new kinds base parts released) }
        ensures lines { OnOk result (lines_of_board self.new ≡ added (lines_of_board self.old) (turn * turn_ns) line) }
        ensures time { fed_time self.new ≡ fed_time self.old }
        ensures turn { turn_of self.new ≡ turn_of self.old }
        ensures first { first_of self.new ≡ first_of self.old }
        ensures slots { slots_in self.new ≡ slots_in self.old }
        ensures count { OnOk result (count_of self.new ≡ count_of self.old) }
        ensures packed { packed_of self.new ≡ packed_of self.old }
        ensures goes { goes_of self.new ≡ goes_of self.old }
        ensures rested { OnOk result ((low : ℕ) → low < turn → ∥ AreRested low (steppers_in self.old) ∥₁ →
            ∥ AreRested low (steppers_in self.new) ∥₁) }
    {
        let mut steppers = mem::replace(&mut self.steppers, Vec::new(self.alloc));
        line_all(
            &mut steppers,
            &self.lines,
            self.goes,
            self.time,
            self.turn,
            turn,
            line,
        )?;
        self.lines.add(begin_of(turn), line)?;
        self.steppers = steppers;
        Ok(())
    }

    /// Whether its steps are packed so far ahead of a turn that all units are made that are due by 250 turns behind it.
    pub fn is_ahead(&self, turn: u64) -> bool
        requires small { turn < 2 ^ 43 }
        requires packed_small { packed_of self.now < 2 ^ 44 }
        ensures { IsTrue result → IsAhead turn self.now }
    {
        let next = self.lines.tick(begin_of(turn + LEAD + 1));
        next + max_error(self.lines.first().freq) <= self.lines.tick(begin_of(self.turn))
    }

    /// The units of the next turn.
    pub fn batch(&mut self, turn: u64) -> Result<Vec<Unit>, OutOfMemory>
        requires next { turn ≡ turn_of self.old }
        requires small { turn < 2 ^ 44 }
        requires ahead { IsAhead turn self.old }
        ensures on { IfOk result (λ units. (kinds : ℕ → StepperKind) (base : ℕ) (parts : List TimedPart)
            (released : List Release) → IsBoardOf self.old kinds base parts released →
            IsBoardOf self.new kinds base parts (released ++ at_turn turn units.items)) }
        ensures turn { OnOk result (turn_of self.new ≡ turn + 1) }
        ensures time { fed_time self.new ≡ fed_time self.old }
        ensures lines { lines_of_board self.new ≡ lines_of_board self.old }
        ensures first { first_of self.new ≡ first_of self.old }
        ensures slots { slots_in self.new ≡ slots_in self.old }
        ensures set { OnOk result (set_of self.new ≡ set_of self.old) }
        ensures packed { packed_of self.new ≡ packed_of self.old }
        ensures goes { goes_of self.new ≡ goes_of self.old }
        ensures rested { OnOk result (∥ AreRested (turn + 251) (steppers_in self.new) ∥₁) }
    {
        let mut steppers = mem::replace(&mut self.steppers, Vec::new(self.alloc));
        let units = take_units(
            self.alloc,
            &mut steppers,
            &self.lines,
            self.goes,
            self.time,
            self.turn,
            turn + LEAD,
        )?;
        self.steppers = steppers;
        let order = feed_units(&mut self.feed, self.order, &units)?;
        let given = self.feed.take(&self.lines, turn)?;
        self.order = order;
        Ok(given)
    }

    /// Whether all units of the moves that it was given were released.
    pub fn is_done(&self) -> bool
        ensures { IsTrue result → HasReleased self.now }
    {
        are_done(&self.steppers) && self.feed.is_empty()
    }

    /// The turn of its last step, 0 for none, if all steps of the moves that it was given are packed.
    pub fn last_turn(&self) -> Option<u64>
        ensures past { IfSome result (λ t. IsPast t self.now) }
        ensures value { IfSome result (λ t. t ≡ last_in self.now) }
        ensures left { IfNone result (AreLeft (lines_of_board self.now) (steppers_in self.now)) }
    {
        last_turn(&self.steppers, &self.lines)
    }
}
