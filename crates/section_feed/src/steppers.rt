//! The steppers of a board in a section.

ghost use Rattle.std.specs.Prelude.{◌≡◌, ◌⊎◌, ℕ, ◌+◌, ◌*◌, ◌<◌, ◌≤◌, ◌^◌, [], ◌∷◌, All, List, OnOk, IfOk, true, false, IfSome, IfNone, IsTrue, length};
ghost use Rattle.plan_types.specs.Clock.{tick, turn_ns};
ghost use Rattle.plan_types.specs.Sections.{duration, timed};
ghost use Rattle.section_stream.specs.Ready.{IsReadyMove};
ghost use Rattle.section_feed.specs.Boards.{AreUpTo, IsLasting, MayTake, most_ns};
ghost use Rattle.section_stream.specs.Steppers.{StartFrom, packed_step, packed_to, units_of};
ghost use Rattle.clock_line.specs.Kept.{added};
ghost use Rattle.section_feed.specs.Changes.{AreLined, GoOn};
ghost use Rattle.step_feed.specs.Units.{StepUnit};
ghost use Rattle.section_feed.specs.Left.{AreLeft, IsOutside};
ghost use Rattle.section_feed.specs.Dues.{AllStartBehind, AreDueFrom, HasFirst, IsTaken};
ghost use Rattle.section_feed.specs.Ordering.{AreInOrderFrom, order_of};
ghost use Rattle.section_feed.specs.Rests.{AreAfter};
ghost use Rattle.section_feed.specs.Wholes.{AreDone, ArePast, IsBefore, IsOver, IsWhole, turn_where};
ghost use Rattle.section_stream.specs.Fronts.{HasStepsLeft};
ghost use Rattle.plan_types.specs.Lines.{last_from, lines_turn};

use crate::OutOfMemory;
use clock_line::{LineTicks, Lines};
use msg_code::Unit;
use plan_types::Line;
use section_stream::{Ready, StepperStream};
use std::alloc::Global;

/// No memory holds so many units.
const MOST_UNITS: u64 = 1 << 60;

/// No section ends as late as this, in ns.
const MOST_NS: u128 = 17_592_186_044_416_000_000;

/// The nanoseconds of a turn.
const TURN_NS: u128 = 1_000_000;

/// No step of a run comes at this tick or later.
const TICK_LIMIT: u64 = 13_000_000_000_000_000_000;

/// Adds a move to all steppers of a board, which begins at a time in ns and ends at another.
pub fn push_all(
    steppers: &mut Vec<StepperStream>,
    lines: &Lines,
    ready: &Ready,
    begin: u128,
    turn: u64,
) -> Result<(), OutOfMemory>
    requires steppers { ∥ AreUpTo lines.now true begin turn steppers.old.items ∥₁ }
    requires lasting { IsLasting lines.now }
    requires ready { IsReadyMove ready.now }
    requires begun { lines.now.first.at ≤ begin }
    requires small { begin + duration ready.now.parts < 2 ^ 44 * turn_ns }
    ensures { OnOk result (∥ GoOn lines.now true (begin + duration ready.now.parts) turn
        (timed ready.now.one 0 begin ready.now.parts) [] steppers.old.items steppers.new.items ∥₁) }
{
    let mut place = 0;
    while place < steppers.len() {
        steppers[place].push(ready, begin)?;
        place += 1;
    }
    Ok(())
}

/// Plans and packs the steps of all steppers of a board up to a turn.
pub fn plan_all(
    steppers: &mut Vec<StepperStream>,
    lines: &Lines,
    goes: bool,
    time: u128,
    before: u64,
    turn: u64,
) -> Result<(), OutOfMemory>
    requires steppers { ∥ AreUpTo lines.now goes time before steppers.old.items ∥₁ }
    requires lasting { IsLasting lines.now }
    requires order { before ≤ turn }
    requires begun { lines.now.first.at ≤ turn * turn_ns }
    requires small { turn < 2 ^ 44 }
    requires knows { goes ≡ true → (turn + 1) * turn_ns ≤ time }
    ensures { OnOk result (∥ GoOn lines.now goes time turn [] [] steppers.old.items steppers.new.items ∥₁) }
{
    let mut place = 0;
    while place < steppers.len() {
        steppers[place].plan(lines, turn)?;
        place += 1;
    }
    Ok(())
}

/// The plan tick behind which no step is asked for.
fn last_tick(lines: &Lines) -> u64
    requires lasting { IsLasting lines.now }
    requires begun { lines.now.first.at ≤ most_ns }
    ensures { result ≡ tick lines.now.first most_ns }
{
    lines.first().tick(MOST_NS)
}

/// No more moves come for the steppers of a board.
pub fn finish_all(steppers: &mut Vec<StepperStream>, lines: &Lines, time: u128, turn: u64)
    requires steppers { ∥ AreUpTo lines.now true time turn steppers.old.items ∥₁ }
    requires lasting { IsLasting lines.now }
    requires begun { lines.now.first.at ≤ time }
    requires small { time < most_ns }
    ensures { ∥ GoOn lines.now false time turn [] [] steppers.old.items steppers.new.items ∥₁ }
{
    let mut place = 0;
    while place < steppers.len() {
        let end = last_tick(lines);
        steppers[place].finish(end);
        place += 1;
    }
}

/// The beginning of a turn, in ns.
pub fn begin_of(turn: u64) -> u128
    ensures { result ≡ turn * turn_ns }
{
    u128::from(turn) * TURN_NS
}

/// Lets a line hold for all steppers of a board, from the beginning of a turn on.
pub fn line_all(
    steppers: &mut Vec<StepperStream>,
    lines: &Lines,
    goes: bool,
    time: u128,
    packed: u64,
    turn: u64,
    line: Line,
) -> Result<(), OutOfMemory>
    requires steppers { ∥ AreUpTo lines.now goes time packed steppers.old.items ∥₁ }
    requires lasting { IsLasting lines.now }
    requires may { MayTake lines.now turn line }
    requires behind { packed < turn }
    requires small { time < most_ns }
    ensures { OnOk result (∥ AreLined (added lines.now (turn * turn_ns) line) goes time packed turn steppers.old.items
        steppers.new.items ∥₁) }
{
    let mut place = 0;
    while place < steppers.len() {
        let from = begin_of(turn);
        steppers[place].add_line(from, line)?;
        place += 1;
    }
    Ok(())
}

/// The first tick of the unit that waits first at a stepper, if it begins by a turn.
fn first_by(stepper: &StepperStream, due: u64) -> Option<u64>
    ensures some { IfSome result
        (λ t. (u : StepUnit) × (us : List StepUnit) × (units_of stepper.now ≡ u ∷ us) × (u.due ≤ due) × (t ≡ u.first)) }
    ensures none { IfNone result (StartFrom (due + 1) (units_of stepper.now)) }
{
    let unit = stepper.first()?;
    if unit.due > due {
        return None;
    }
    Some(unit.first)
}

/// Which stepper has the unit that comes first, if any begins by a turn.
fn earliest(steppers: &[StepperStream], due: u64) -> Option<usize>
    ensures some { IfSome result (λ place. HasFirst due (length steppers.now) steppers.now place) }
    ensures none { IfNone result (AreAfter due steppers.now) }
{
    let mut best = None;
    let mut least = 0;
    let mut place = 0;
    while place < steppers.len() {
        if let Some(first) = first_by(&steppers[place], due) {
            if best.is_none() || first < least {
                least = first;
                best = Some(place);
            }
        }
        place += 1;
    }
    best
}

/// Takes out the unit that comes first, if any begins by a turn.
fn take_first(
    steppers: &mut Vec<StepperStream>,
    lines: &Lines,
    goes: bool,
    time: u128,
    turn: u64,
    due: u64,
) -> Option<Unit>
    requires steppers { ∥ AreUpTo lines.now goes time turn steppers.old.items ∥₁ }
    requires lasting { IsLasting lines.now }
    ensures some { IfSome result
        (λ u. ∥ GoOn lines.now goes time turn [] (u ∷ []) steppers.old.items steppers.new.items ∥₁) }
    ensures none { IfNone result (∥ GoOn lines.now goes time turn [] [] steppers.old.items steppers.new.items ∥₁) }
    ensures own { IfSome result (λ u. u.stepper < length steppers.old.items) }
    ensures order { IfSome result (λ u. (order : ℕ) → AllStartBehind order steppers.old.items →
        (order < order_of u) × AllStartBehind (order_of u) steppers.new.items) }
    ensures taken { IfSome result
        (λ u. (low : ℕ) → ∥ AreDueFrom low steppers.old.items ∥₁ → IsTaken lines.now low due u) }
    ensures after { IfNone result (AreAfter due steppers.new.items) }
{
    let place = earliest(steppers, due)?;
    steppers[place].pop()
}

/// Takes the units out that begin by a turn, in the order of their first ticks and then of steppers.
pub fn take_units(
    alloc: Global,
    steppers: &mut Vec<StepperStream>,
    lines: &Lines,
    goes: bool,
    time: u128,
    turn: u64,
    due: u64,
) -> Result<Vec<Unit>, OutOfMemory>
    requires steppers { ∥ AreUpTo lines.now goes time turn steppers.old.items ∥₁ }
    requires lasting { IsLasting lines.now }
    ensures on { IfOk result
        (λ units. ∥ GoOn lines.now goes time turn [] units.items steppers.old.items steppers.new.items ∥₁) }
    ensures own { IfOk result (λ units. All (λ u. u.stepper < length steppers.old.items) units.items) }
    ensures in_order { IfOk result
        (λ units. (order : ℕ) → AllStartBehind order steppers.old.items → AreInOrderFrom order units.items) }
    ensures taken { IfOk result
        (λ units. (low : ℕ) → ∥ AreDueFrom low steppers.old.items ∥₁ → All (IsTaken lines.now low due) units.items) }
    ensures after { IfOk result (λ units. AreAfter due steppers.new.items) }
{
    let mut units = Vec::new(alloc);
    for _ in 0..MOST_UNITS {
        let Some(unit) = take_first(steppers, lines, goes, time, turn, due) else {
            return Ok(units);
        };
        units.push(unit)?;
    }
    Err(OutOfMemory)
}

/// Whether all steppers have given all units of the moves that they were given.
pub fn are_done(steppers: &[StepperStream]) -> bool
    ensures { IsTrue result → AreDone steppers.now }
{
    for one in steppers {
        if !one.is_done() {
            return false;
        }
    }
    true
}

/// The turn of a tick, if no tick of a run is greater.
fn turn_of(lines: &Lines, tick: u64) -> Option<u64>
    requires { last_from lines.now.first.at lines.now.held < 2 ^ 62 * turn_ns }
    ensures before { IfSome result (λ t. IsBefore lines.now t tick) }
    ensures value { IfSome result (λ t. t ≡ lines_turn lines.now tick) }
    ensures none { IfNone result (IsOutside lines.now tick) }
{
    if tick < lines.first().clock || tick >= TICK_LIMIT {
        return None;
    }
    Some(lines.turn(tick))
}

/// The turn of the last step of a stepper, 0 for none, if all steps of the moves that it was given are packed.
fn end_of(one: &StepperStream, lines: &Lines) -> Option<u64>
    requires { last_from lines.now.first.at lines.now.held < 2 ^ 62 * turn_ns }
    ensures whole { IfSome result (λ t. IsWhole one.now) }
    ensures before { IfSome result (λ t. IsOver lines.now t (packed_step one.now)) }
    ensures value { IfSome result (λ t. t ≡ turn_where lines.now (packed_step one.now)) }
    ensures left { IfNone result (HasStepsLeft one.now ⊎ IsOutside lines.now (packed_to one.now)) }
{
    if !one.is_whole() {
        return None;
    }
    match one.last() {
        Some(tick) => turn_of(lines, tick),
        None => Some(0),
    }
}

/// The turn of the last step of some steppers, 0 for none, if all steps of the moves that they were given are packed.
pub fn last_turn(steppers: &[StepperStream], lines: &Lines) -> Option<u64>
    requires { last_from lines.now.first.at lines.now.held < 2 ^ 62 * turn_ns }
    ensures past { IfSome result (λ t. ArePast lines.now t steppers.now) }
    ensures left { IfNone result (AreLeft lines.now steppers.now) }
{
    let mut last = 0;
    for one in steppers {
        let turn = end_of(one, lines)?;
        if turn > last {
            last = turn;
        }
    }
    Some(last)
}
