//! A stepper's planned steps, packed piece by piece.

ghost use Rattle.std.specs.Prelude.{◌≡◌, ◌<◌, ◌^◌, All};
ghost use Rattle.step_ticks.specs.Streaming.{last_step_tick};
ghost use Rattle.section_stream.specs.Packing.{ArePackable};

use crate::OutOfMemory;
use crate::held::{add_sent, count_before, keep_from, last_of};
use crate::units::{Before, add_units};
use clock_line::Lines;
use msg_code::Unit;
use plan_types::Planned;
use std::alloc::Global;
use std::collections::VecDeque;
use step_pack::{Placed, pack_placed};

/// The interval of a triple has 32 bits.
fn interval_fits(placed: &Placed) -> u32
    ensures value { result ≡ placed.now.triple.interval }
    ensures small { placed.now.triple.interval < 2 ^ 32 }
{
    placed.triple.interval
}

/// The intervals of triples have 32 bits.
fn intervals_fit(placed: &[Placed])
    ensures { All (λ p. p.triple.interval < 2 ^ 32) placed.now }
{
    for one in placed {
        interval_fits(one);
    }
}

/// The steps of a stepper in a section that are not packed yet, and the units of the others that were not given yet.
#[derive(Drop)]
pub struct PackStream {
    alloc: Global,
    oid: u8,
    inverted: bool,
    max_error: u64,
    reset: Option<u64>,
    last: u64,
    up: Option<bool>,
    held: Vec<Planned>,
    units: VecDeque<Unit>,
    ghost packable: { ∥ ArePackable last held.items ∥₁ },
    ghost own: { All (λ u. u.stepper ≡ oid) units.items },
    ghost byte: { oid < 256 },
}

impl PackStream {
    ghost use Rattle.std.specs.Prelude.{◌≡◌, ℕ, ◌+◌, ◌*◌, ◌<◌, ◌≤◌, ◌^◌, All, List, [], ◌∷◌, ◌++◌, OnOk, OnErr, IfSome, IfNone, IsTrue, ◌↔◌, length};
    ghost use Rattle.plan_types.specs.declared.plan.Planned.{Planned};
    ghost use Rattle.plan_types.specs.Clock.{tick_limit, turn_ns};
    ghost use Rattle.plan_types.specs.Lines.{Clocks, last_from, lines_tick};
    ghost use Rattle.plan_types.specs.Plan.{AreSpaced};
    ghost use Rattle.msg_code.specs.declared.unit.Unit.{Unit as StepUnit};
    ghost use Rattle.section_units.specs.Units.{as_sent};
    ghost use Rattle.section_stream.specs.Pieces.{Piece};
    ghost use Rattle.section_stream.specs.Packing.{IsPieceTo};
    ghost use Rattle.section_stream.specs.Rows.{AreInRow};
    ghost use Rattle.section_stream.specs.Packs.{IsPackedOf, error_of, held_of, is_inverted, last_packed, last_pushed, oid_of, reset_of, step_packed, waiting_of};

    /// A packer of a stepper's steps in a section that begins at the tick `base`; the clock is set to `reset`
    /// where that is told.
    pub fn new(
        alloc: Global,
        oid: u8,
        inverted: bool,
        max_error: u64,
        base: u64,
        reset: Option<u64>,
    ) -> PackStream
        ensures empty { (clocks : Clocks) → IsPackedOf result clocks base [] [] [] }
        ensures oid { oid_of result ≡ oid }
        ensures error { error_of result ≡ max_error }
        ensures reset { reset_of result ≡ reset }
        ensures inverted { is_inverted result ≡ inverted }
        ensures last { last_packed result ≡ base }
        ensures none { held_of result ≡ [] }
        ensures no_units { waiting_of result ≡ [] }
    {
        PackStream {
            alloc,
            oid,
            inverted,
            max_error,
            reset,
            last: base,
            up: None,
            held: Vec::new(alloc),
            units: VecDeque::new(alloc),
        }
    }

    /// Adds planned steps behind the others.
    pub fn hold(&mut self, steps: &[Planned]) -> Result<(), OutOfMemory>
        requires spaced { AreSpaced (last_pushed self.old) steps.now }
        ensures held { OnOk result ((clocks : Clocks) (base : ℕ) (pushed : List Planned) (pieces : List Piece)
            (given : List StepUnit) → IsPackedOf self.old clocks base pushed pieces given →
            IsPackedOf self.new clocks base (pushed ++ as_sent (is_inverted self.old) steps.now) pieces given) }
        ensures items { OnOk result (held_of self.new ≡ held_of self.old ++ as_sent (is_inverted self.old) steps.now) }
        ensures last { OnOk result (last_pushed self.new ≡ last_step_tick (last_pushed self.old) steps.now) }
        ensures refused { OnErr result (last_pushed self.new ≡ last_pushed self.old) }
        ensures packed { last_packed self.new ≡ last_packed self.old }
        ensures oid { oid_of self.new ≡ oid_of self.old }
        ensures error { error_of self.new ≡ error_of self.old }
        ensures reset { reset_of self.new ≡ reset_of self.old }
        ensures inverted { is_inverted self.new ≡ is_inverted self.old }
        ensures units { waiting_of self.new ≡ waiting_of self.old }
    {
        add_sent(&mut self.held, self.inverted, steps)?;
        Ok(())
    }

    /// Packs the steps that are planned before a turn, as one piece.
    pub fn pack(&mut self, lines: &Lines, turn: u64) -> Result<(), OutOfMemory>
        requires from { lines.now.first.clock ≤ last_packed self.old }
        requires soon { last_from lines.now.first.at lines.now.held < 2 ^ 62 * turn_ns }
        requires small { lines_tick lines.now (turn * turn_ns) < 2 ^ 64 }
        ensures packed { OnOk result ((base : ℕ) (pushed : List Planned) (pieces : List Piece) (given : List StepUnit) →
            IsPackedOf self.old lines.now base pushed pieces given →
            (piece : Piece) × IsPieceTo lines.now turn piece (held_of self.new)
            × IsPackedOf self.new lines.now base pushed (pieces ++ piece ∷ []) given) }
        ensures behind { OnOk result (All (λ s. lines_tick lines.now (turn * turn_ns) ≤ s.tick) (held_of self.new)) }
        ensures added { OnOk result ((added : List StepUnit) × (waiting_of self.new ≡ waiting_of self.old ++ added)
            × AreInRow lines.now (last_packed self.old) (last_packed self.new) added
            × ((t : ℕ) → All (λ s. t + error_of self.old ≤ s.tick) (held_of self.old) → All (λ u. t ≤ u.first) added)) }
        ensures early { All (λ u. u.first < lines_tick lines.now (turn * turn_ns)) (waiting_of self.old) →
            All (λ u. u.first < lines_tick lines.now (turn * turn_ns)) (waiting_of self.new) }
        ensures row { AreInRow lines.now 0 (last_packed self.old) (waiting_of self.old) →
            AreInRow lines.now 0 (last_packed self.new) (waiting_of self.new) }
        ensures last { last_packed self.old ≤ last_packed self.new }
        ensures pushed { last_pushed self.new ≡ last_pushed self.old }
        ensures oid { oid_of self.new ≡ oid_of self.old }
        ensures error { error_of self.new ≡ error_of self.old }
        ensures reset { reset_of self.new ≡ reset_of self.old }
        ensures inverted { is_inverted self.new ≡ is_inverted self.old }
    {
        let cut = lines.tick(u128::from(turn) * 1_000_000);
        let count = count_before(self.last, &self.held, cut);
        let steps = &self.held[..count];
        let placed = pack_placed(self.alloc, self.last, steps, self.max_error)?;
        intervals_fit(&placed);
        let before = Before {
            oid: self.oid,
            reset: self.reset,
            up: self.up,
            last: self.last,
        };
        let up = add_units(&mut self.units, lines, before, steps, &placed);
        self.last = last_of(self.last, steps);
        keep_from(&mut self.held, count);
        self.up = up?;
        Ok(())
    }

    /// The unit that is given next, if any waits.
    pub fn first(&self) -> Option<Unit>
        ensures some { IfSome result (λ u. (rest : List StepUnit) × (waiting_of self.now ≡ u ∷ rest)) }
        ensures none { IfNone result (waiting_of self.now ≡ []) }
    {
        self.units.front().copied()
    }

    /// Takes the unit out that is given next, if any waits.
    pub fn pop(&mut self) -> Option<Unit>
        ensures some { IfSome result (λ u. (clocks : Clocks) (base : ℕ) (pushed : List Planned) (pieces : List Piece)
            (given : List StepUnit) → IsPackedOf self.old clocks base pushed pieces given →
            IsPackedOf self.new clocks base pushed pieces (given ++ u ∷ [])) }
        ensures first { IfSome result (λ u. waiting_of self.old ≡ u ∷ waiting_of self.new) }
        ensures number { IfSome result (λ u. u.stepper ≡ oid_of self.old) }
        ensures none { IfNone result (waiting_of self.old ≡ []) }
        ensures kept { IfNone result ((clocks : Clocks) (base : ℕ) (pushed : List Planned) (pieces : List Piece)
            (given : List StepUnit) → IsPackedOf self.old clocks base pushed pieces given →
            IsPackedOf self.new clocks base pushed pieces given) }
        ensures rest { IfNone result (waiting_of self.new ≡ waiting_of self.old) }
        ensures held { held_of self.new ≡ held_of self.old }
        ensures last { last_packed self.new ≡ last_packed self.old }
        ensures pushed { last_pushed self.new ≡ last_pushed self.old }
        ensures oid { oid_of self.new ≡ oid_of self.old }
        ensures error { error_of self.new ≡ error_of self.old }
        ensures reset { reset_of self.new ≡ reset_of self.old }
        ensures inverted { is_inverted self.new ≡ is_inverted self.old }
    {
        self.units.pop_front()
    }

    /// Whether no step is held.
    pub fn is_packed(&self) -> bool
        ensures { IsTrue result ↔ (held_of self.now ≡ []) }
    {
        self.held.is_empty()
    }

    /// Whether no unit waits.
    pub fn is_given(&self) -> bool
        ensures { IsTrue result ↔ (waiting_of self.now ≡ []) }
    {
        self.units.is_empty()
    }

    /// The tick of the last step that was packed, if one was.
    pub fn last(&self) -> Option<u64>
        ensures { result ≡ step_packed self.now }
    {
        match self.up {
            Some(_) => Some(self.last),
            None => None,
        }
    }
}
