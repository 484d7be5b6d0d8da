//! The planned steps of a section whose segments come one by one.

ghost use Rattle.std.specs.Prelude.{◌≡◌, drop, All, ◌<◌, ◌^◌, ◌≤◌, ◌+◌, ◌*◌, length};
ghost use Rattle.plan_types.specs.Clock.{tick_limit};
ghost use Rattle.plan_types.specs.Lines.{lines_board};
ghost use Rattle.plan_types.specs.Valid.{IsValidGear};
ghost use Rattle.step_ticks.specs.Ticks.{IsBetween};

use crate::due::{is_dropped, is_due, step_at};
use crate::{OutOfMemory, raw, thin};
use clock_line::Lines;
use plan_types::{Gear, Line, Planned, Segment};
use std::alloc::Global;

/// As many steps as no memory holds: a stream has no room for more, as if it had kept all.
const MOST_STEPS: u64 = 1 << 60;

/// Room for so many steps at most is made before they are taken.
const FEW_STEPS: usize = 32;

/// Drops the first elements.
fn keep_from(raw: &mut Vec<Planned>, count: usize)
    requires { count ≤ length raw.old.items }
    ensures { raw.new.items ≡ drop count raw.old.items }
{
    raw.rotate_left(count);
    let rest = raw.len() - count;
    raw.truncate(rest);
}

/// The raw steps of one stepper that wait, and the tick of the last step that was given.
#[derive(Drop)]
pub struct StepStream {
    alloc: Global,
    gear: Gear,
    lines: Lines,
    reach: u64,
    /// Steps that are not known yet do not come before this plan tick.
    end: u64,
    last_end: u64,
    last: u64,
    next: usize,
    /// How many raw steps were let go.
    dropped: u64,
    raw: Vec<Planned>,
    ghost gear_valid: { IsValidGear gear },
    ghost reach_small: { reach ≤ 200_000 },
    ghost end_small: { last_end < tick_limit },
    ghost ordered: { last_end ≤ end },
    ghost between: { All (IsBetween lines last_end) raw.items },
    ghost on_board: { 0 < length raw.items → lines_board lines last_end < tick_limit },
    ghost within: { next ≤ length raw.items },
    ghost few: { dropped + length raw.items ≤ 2 ^ 60 },
    ghost last_small: { last < tick_limit + 4 * (dropped + next) + 4 },
}

impl StepStream {
    ghost use Rattle.std.specs.Prelude.{◌≡◌, ℕ, ◌+◌, ◌<◌, ◌≤◌, List, [], ◌∷◌, ◌++◌, OnOk, OnErr, IfOk, IsTrue, false, length, drop};
    ghost use Rattle.plan_types.specs.declared.plan.Planned.{Planned};
    ghost use Rattle.plan_types.specs.declared.plan.Segment.{Segment};
    ghost use Rattle.plan_types.specs.Lines.{IsFit, last_from, lines_board, lines_tick};
    ghost use Rattle.plan_types.specs.Clock.{tick};
    ghost use Rattle.plan_types.specs.Valid.{IsValidSegment};
    ghost use Rattle.clock_line.specs.Kept.{added};
    ghost use Rattle.step_ticks.specs.Streaming.{IsPast, IsStepsOf, due_steps, end_of_segments, known_end, left_steps, reach_of, waiting_steps};

    /// A stream of a section that has no segment yet, and whose first step comes after the tick `base`.
    pub fn new(
        alloc: Global,
        gear: &Gear,
        lines: &Lines,
        base: u64,
    ) -> Result<StepStream, OutOfMemory>
        requires gear_valid { IsValidGear gear.now }
        requires freq_small { lines.now.first.freq ≤ 200_000_000 }
        requires base_small { base < tick_limit }
        ensures empty { IfOk result (λ stream. IsStepsOf stream base [] 0 []) }
        ensures gear { IfOk result (λ stream. stream.gear ≡ gear.now) }
        ensures lines { IfOk result (λ stream. stream.lines ≡ lines.now) }
        ensures end { IfOk result (λ stream. known_end stream ≡ 0) }
        ensures none { IfOk result (λ stream. waiting_steps stream ≡ []) }
    {
        Ok(StepStream {
            alloc,
            gear: *gear,
            lines: lines.copied(alloc)?,
            reach: thin::cancel_reach(lines.first().freq),
            end: 0,
            last_end: 0,
            last: base,
            next: 0,
            dropped: 0,
            raw: Vec::new(alloc),
        })
    }

    /// No step of the section comes before a plan tick.
    pub fn begin_at(&mut self, from: u64)
        requires order { known_end self.old ≤ from }
        ensures begun { (base : ℕ) → (segments : List Segment) → (asked : ℕ) → (out : List Planned) →
            IsStepsOf self.old base segments asked out → IsStepsOf self.new base segments asked out }
        ensures end { known_end self.new ≡ from }
        ensures waits { waiting_steps self.new ≡ waiting_steps self.old }
        ensures gear { self.new.gear ≡ self.old.gear }
        ensures lines { self.new.lines ≡ self.old.lines }
    {
        let _end = self.end;
        self.end = from;
    }

    /// Adds a segment behind the others.
    pub fn push(&mut self, segment: &Segment) -> Result<(), OutOfMemory>
        requires valid { IsValidSegment segment.now self.old.lines.first.freq }
        requires order { known_end self.old ≤ segment.now.start }
        requires after { self.old.lines.first.clock ≤ segment.now.start }
        requires on_board { lines_board self.old.lines segment.now.end < tick_limit }
        ensures pushed { OnOk result ((base : ℕ) → (segments : List Segment) → (asked : ℕ) → (out : List Planned) →
            IsStepsOf self.old base segments asked out →
            IsStepsOf self.new base (segments ++ segment.now ∷ []) asked out) }
        ensures end { OnOk result (known_end self.new ≡ segment.now.end) }
        ensures past { OnOk result ((t : ℕ) → IsPast t self.old → IsPast t self.new) }
        ensures unchanged { OnErr result ((base : ℕ) → (segments : List Segment) → (asked : ℕ) → (out : List Planned) →
            IsStepsOf self.old base segments asked out → IsStepsOf self.new base segments asked out) }
        ensures gear { self.new.gear ≡ self.old.gear }
        ensures lines { self.new.lines ≡ self.old.lines }
    {
        self.let_go();
        let count = self.raw.len();
        let freq = self.lines.first().freq;
        if let Err(error) = raw::push_steps(&mut self.raw, &self.gear, freq, segment) {
            self.raw.truncate(count);
            return Err(error);
        }
        if self.raw.len() as u64 > MOST_STEPS - self.dropped {
            self.raw.truncate(count);
            return Err(OutOfMemory);
        }
        self.end = segment.end;
        self.last_end = segment.end;
        Ok(())
    }

    /// Lets go of the steps that were given, once they are more than half of all.
    fn let_go(&mut self)
        ensures waiting { drop self.new.next self.new.raw.items ≡ drop self.old.next self.old.raw.items }
        ensures gear { self.new.gear ≡ self.old.gear }
        ensures lines { self.new.lines ≡ self.old.lines }
        ensures reach { self.new.reach ≡ self.old.reach }
        ensures end { self.new.end ≡ self.old.end }
        ensures last_end { self.new.last_end ≡ self.old.last_end }
        ensures last { self.new.last ≡ self.old.last }
    {
        if self.next >= self.raw.len() / 2 {
            keep_from(&mut self.raw, self.next);
            self.dropped += self.next as u64;
            self.next = 0;
        }
    }

    /// Lets a clock line hold from a time on, which is behind all that was taken.
    pub fn add_line(&mut self, from: u128, line: Line) -> Result<(), OutOfMemory>
        requires after { last_from 0 self.old.lines.held < from }
        requires fit { IsFit self.old.lines.first line from }
        requires tick_small { lines_tick self.old.lines from < 2 ^ 64 }
        requires start_small { tick line from < 2 ^ 64 }
        requires plan_small { tick self.old.lines.first from < 2 ^ 64 }
        requires on_board { lines_board (added self.old.lines from line) (end_of_segments self.old) < tick_limit }
        ensures added { OnOk result ((base : ℕ) → (segments : List Segment) → (asked : ℕ) → (out : List Planned) →
            asked ≤ tick self.old.lines.first from → IsStepsOf self.old base segments asked out →
            IsStepsOf self.new base segments asked out) }
        ensures lines { OnOk result (self.new.lines ≡ added self.old.lines from line) }
        ensures unchanged { OnErr result (self.new ≡ self.old) }
        ensures gear { self.new.gear ≡ self.old.gear }
        ensures end { known_end self.new ≡ known_end self.old }
    {
        self.lines.add(from, line)?;
        Ok(())
    }

    /// Whether no step of the segments so far is left, if no more come.
    pub fn is_given(&self) -> bool
        ensures given { IsTrue result → left_steps self.now ≡ [] }
        ensures left { result ≡ false → 0 < length (left_steps self.now) }
    {
        let mut next = self.next;
        while next < self.raw.len() && is_dropped(&self.raw, next, self.reach) {
            next += 2;
        }
        next >= self.raw.len()
    }

    /// The section ends here.
    pub fn finish(&mut self)
        ensures ended { (base : ℕ) → (segments : List Segment) → (asked : ℕ) → (out : List Planned) →
            IsStepsOf self.old base segments asked out → IsStepsOf self.new base segments asked out }
        ensures end { known_end self.new ≡ u64.MAX }
        ensures past { (t : ℕ) → IsPast t self.old → IsPast t self.new }
        ensures gear { self.new.gear ≡ self.old.gear }
        ensures lines { self.new.lines ≡ self.old.lines }
    {
        let _end = self.end;
        self.end = u64::MAX;
    }

    /// Takes the planned steps out whose raw tick is below `until`, as far as no later segment can change them.
    pub fn take(&mut self, until: u64) -> Result<Vec<Planned>, OutOfMemory>
        ensures due { IfOk result (λ steps. (base : ℕ) → (segments : List Segment) → (asked : ℕ) →
            (out : List Planned) → asked ≤ until → IsStepsOf self.old base segments asked out →
            (out ++ steps.items ≡ due_steps self.old.gear self.old.lines segments base until (known_end self.old))
            × IsStepsOf self.new base segments until (out ++ steps.items)) }
        ensures past { OnOk result ((base : ℕ) → (segments : List Segment) → (asked : ℕ) → (out : List Planned) →
            asked ≤ until → IsStepsOf self.old base segments asked out →
            until + reach_of self.old ≤ known_end self.old → IsPast until self.new) }
        ensures unchanged { OnErr result (self.new ≡ self.old) }
        ensures gear { self.new.gear ≡ self.old.gear }
        ensures lines { self.new.lines ≡ self.old.lines }
        ensures end { known_end self.new ≡ known_end self.old }
        ensures reach { reach_of self.new ≡ reach_of self.old }
    {
        let waiting = self.raw.len().saturating_sub(self.next);
        let mut steps = Vec::with_capacity(self.alloc, waiting.min(FEW_STEPS))?;
        let mut last = self.last;
        let mut next = self.next;
        while is_due(&self.raw, next, until, self.reach, self.end) {
            let step = step_at(&self.raw, next);
            if is_dropped(&self.raw, next, self.reach) {
                next += 2;
            } else {
                last = thin::next_tick(&self.lines, &step, last);
                steps.push(Planned {
                    tick: last,
                    up: step.up,
                })?;
                next += 1;
            }
        }
        self.last = last;
        self.next = next;
        Ok(steps)
    }
}
