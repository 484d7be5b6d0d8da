//! One stepper of a section.

ghost use Rattle.std.specs.Prelude.{◌≡◌, ◌<◌, ◌≤◌, ◌*◌, All};
ghost use Rattle.clock_line.specs.Kept.{AreKept};
ghost use Rattle.plan_types.specs.Clock.{turn_ns};
ghost use Rattle.plan_types.specs.Lines.{lines_tick};
ghost use Rattle.plan_types.specs.Valid.{IsValidLine};
ghost use Rattle.section_stream.specs.Plans.{stream_lines};
ghost use Rattle.plan_types.specs.Plan.{max_error};
ghost use Rattle.section_stream.specs.Packs.{error_of, last_packed, waiting_of};
ghost use Rattle.section_stream.specs.Rows.{AreInRow};
ghost use Rattle.section_stream.specs.Stepping.{AreInStep};

use crate::OutOfMemory;
use crate::pack::PackStream;
use crate::plan::push_move;
use crate::ready::Ready;
use clock_line::{LineTicks, Lines};
use msg_code::Unit;
use plan_types::{Line, StepperDef};
use section_plan::Drive;
use std::alloc::Global;
use step_pack::max_error;
use step_ticks::StepStream;

/// The nanoseconds of a turn.
const TURN_NS: u128 = 1_000_000;

/// A stepper of a section: the segments that it was given become steps, and these units, up to a turn.
#[derive(Drop)]
pub struct StepperStream {
    drive: Drive,
    steps: StepStream,
    pack: PackStream,
    turn: u64,
    ghost drive_small: { drive.number < 4 },
    ghost line: { drive.line ≡ (stream_lines steps).first },
    ghost line_valid: { IsValidLine drive.line },
    ghost from: { drive.line.clock ≤ last_packed pack },
    ghost in_step: { ∥ AreInStep steps drive pack turn ∥₁ },
    ghost early: { error_of pack ≡ max_error drive.line.freq },
    ghost row: { ∥ AreInRow (stream_lines steps) 0 (last_packed pack) (waiting_of pack) ∥₁ },
    ghost kept: { ∥ AreKept (stream_lines steps) ∥₁ },
    ghost before: { All (λ u. u.first < lines_tick (stream_lines steps) (turn * turn_ns)) (waiting_of pack) },
}

impl StepperStream {
    ghost use Rattle.std.specs.Prelude.{◌≡◌, ℕ, ◌+◌, ◌*◌, ◌<◌, ◌≤◌, ◌^◌, Option, Bool, List, [], ◌∷◌, ◌++◌, IfOk, OnOk, OnErr, IfSome, IfNone, IsTrue, None, Some, true, false, if◌then◌else◌};
    ghost use Rattle.plan_types.specs.declared.plan.Planned.{Planned};
    ghost use Rattle.plan_types.specs.Clock.{tick, tick_limit, turn_ns};
    ghost use Rattle.plan_types.specs.Lines.{Clocks, IsFit, last_from, lines_board, lines_tick};
    ghost use Rattle.clock_line.specs.Kept.{AreKept, added};
    ghost use Rattle.plan_types.specs.Sections.{TimedPart, duration, timed};
    ghost use Rattle.plan_types.specs.Valid.{IsValidGear, IsValidLine};
    ghost use Rattle.msg_code.specs.declared.unit.Unit.{Unit as StepUnit};
    ghost use Rattle.section_stream.specs.Ready.{IsReadyMove};
    ghost use Rattle.section_stream.specs.Pieces.{IsLastOf, Piece};
    ghost use Rattle.section_stream.specs.Packing.{IsPieceTo};
    ghost use Rattle.section_stream.specs.Packs.{held_of};
    ghost use Rattle.section_units.specs.Units.{as_sent};
    ghost use Rattle.section_stream.specs.Pieces.{steps_in};
    ghost use Rattle.section_stream.specs.Fronts.{HasStepsLeft, plan_of};
    ghost use Rattle.section_units.specs.Packed.{ArePackedBy};
    ghost use Rattle.section_units.specs.Sections.{set_to};
    ghost use Rattle.plan_types.specs.Plan.{max_error};
    ghost use Rattle.section_stream.specs.Steppers.{IsCaughtUp, IsDueFrom, IsStepperOf, IsPlannedTo, KnowsTo, stepper_clocks, kind_from, kind_of, known_of, packed_step, packed_to, parts_end, planned_turn, units_of};

    /// A stepper of a section that begins with a turn.
    pub fn new(
        alloc: Global,
        corexy: bool,
        stepper: &StepperDef,
        lines: &Lines,
        turn: u64,
        homing: bool,
    ) -> Result<StepperStream, OutOfMemory>
        requires drive { stepper.now.drive < 4 }
        requires gear { IsValidGear stepper.now.gear }
        requires line { IsValidLine lines.now.first }
        requires from { lines.now.first.clock ≤ lines_tick lines.now (turn * turn_ns) }
        requires base_small { lines_tick lines.now (turn * turn_ns) < tick_limit }
        requires begun { lines.now.first.at ≤ turn * turn_ns }
        requires begin_small { tick lines.now.first (turn * turn_ns) < 2 ^ 64 }
        ensures empty { IfOk result (λ s. IsStepperOf s (lines_tick lines.now (turn * turn_ns)) [] [] [] []) }
        ensures lines { IfOk result (λ s. stepper_clocks s ≡ lines.now) }
        ensures turn { IfOk result (λ s. planned_turn s ≡ turn) }
        ensures end { IfOk result (λ s. known_of s ≡ tick lines.now.first (turn * turn_ns)) }
        ensures caught_up { IfOk result (IsCaughtUp turn) }
        ensures kind { IfOk result (λ s. kind_of s
            ≡ kind_from corexy stepper.now lines.now.first (set_to homing (lines_tick lines.now (turn * turn_ns)))) }
        ensures none { IfOk result (λ s. units_of s ≡ []) }
        ensures packed { IfOk result (λ s. packed_to s ≡ lines_tick lines.now (turn * turn_ns)) }
    {
        lines.is_kept();
        let line = lines.first();
        let base = lines.tick(u128::from(turn) * TURN_NS);
        let begin = line.tick(u128::from(turn) * TURN_NS);
        let mut steps = StepStream::new(alloc, &stepper.gear, lines, base)?;
        steps.begin_at(begin);
        let reset = if homing { None } else { Some(base) };
        let pack = PackStream::new(
            alloc,
            stepper.oid,
            stepper.inverted,
            max_error(line.freq),
            base,
            reset,
        );
        let drive = Drive {
            corexy,
            number: stepper.drive,
            line,
        };
        Ok(StepperStream {
            drive,
            steps,
            pack,
            turn,
        })
    }

    /// Adds a move behind the others, which begins at a time in ns.
    pub fn push(&mut self, ready: &Ready, begin: u128) -> Result<(), OutOfMemory>
        requires ready { IsReadyMove ready.now }
        requires begun { (stepper_clocks self.old).first.at ≤ begin }
        requires begin_small { begin < 2 ^ 99 }
        requires order { known_of self.old ≤ tick (stepper_clocks self.old).first begin }
        requires room { tick (stepper_clocks self.old).first (begin + duration ready.now.parts) < tick_limit }
        requires on_board { lines_board (stepper_clocks self.old)
            (tick (stepper_clocks self.old).first (begin + duration ready.now.parts)) < tick_limit }
        ensures pushed { OnOk result ((base : ℕ) (parts : List TimedPart) (out : List Planned) (pieces : List Piece)
            (given : List StepUnit) → IsStepperOf self.old base parts out pieces given →
            IsStepperOf self.new base (parts ++ timed ready.now.one 0 begin ready.now.parts) out pieces given) }
        ensures end { OnOk result
            (known_of self.new ≤ tick (stepper_clocks self.old).first (begin + duration ready.now.parts)) }
        ensures reaches { OnOk result (tick (stepper_clocks self.old).first begin ≤ known_of self.old →
            tick (stepper_clocks self.old).first (begin + duration ready.now.parts) ≤ known_of self.new) }
        ensures caught_up { OnOk result ((turn : ℕ) → IsCaughtUp turn self.old → IsCaughtUp turn self.new) }
        ensures lines { stepper_clocks self.new ≡ stepper_clocks self.old }
        ensures turn { planned_turn self.new ≡ planned_turn self.old }
        ensures units { units_of self.new ≡ units_of self.old }
        ensures due { OnOk result ((low : ℕ) → IsDueFrom low self.old → IsDueFrom low self.new) }
        ensures kind { kind_of self.new ≡ kind_of self.old }
    {
        push_move(&mut self.steps, &self.drive, ready, begin)?;
        Ok(())
    }

    /// Plans and packs the steps up to a turn.
    pub fn plan(&mut self, lines: &Lines, turn: u64) -> Result<(), OutOfMemory>
        requires lines { lines.now ≡ stepper_clocks self.old }
        requires order { planned_turn self.old ≤ turn }
        requires begun { lines.now.first.at ≤ turn * turn_ns }
        requires soon { last_from lines.now.first.at lines.now.held < 2 ^ 62 * turn_ns }
        requires until_small { tick lines.now.first (turn * turn_ns) < 2 ^ 64 }
        requires small { lines_tick lines.now (turn * turn_ns) < 2 ^ 64 }
        ensures planned { OnOk result ((base : ℕ) (parts : List TimedPart) (out : List Planned) (pieces : List Piece)
            (given : List StepUnit) → IsStepperOf self.old base parts out pieces given →
            IsPlannedTo self.new turn (known_of self.old) base parts out pieces given) }
        ensures caught_up { OnOk result (KnowsTo turn self.old → IsCaughtUp turn self.new) }
        ensures due { OnOk result
            ((low : ℕ) → KnowsTo turn self.old → AreKept lines.now → IsDueFrom low self.old → IsDueFrom low self.new) }
        ensures turn { planned_turn self.new ≡ turn }
        ensures end { known_of self.new ≡ known_of self.old }
        ensures lines { stepper_clocks self.new ≡ stepper_clocks self.old }
        ensures kind { kind_of self.new ≡ kind_of self.old }
    {
        self.turn = turn;
        let until = lines.first().tick(u128::from(turn) * TURN_NS);
        let steps = self.steps.take(until)?;
        self.pack.hold(&steps)?;
        self.pack.pack(lines, turn)?;
        Ok(())
    }

    /// Lets a clock line hold from a time on, which is not before the turn up to which the steps are planned
    /// and packed.
    pub fn add_line(&mut self, from: u128, line: Line) -> Result<(), OutOfMemory>
        requires after { last_from 0 (stepper_clocks self.old).held < from }
        requires fit { IsFit (stepper_clocks self.old).first line from }
        requires tick_small { lines_tick (stepper_clocks self.old) from < 2 ^ 64 }
        requires start_small { tick line from < 2 ^ 64 }
        requires plan_small { tick (stepper_clocks self.old).first from < 2 ^ 64 }
        requires on_board { lines_board (added (stepper_clocks self.old) from line) (parts_end self.old) < tick_limit }
        requires order { planned_turn self.old * turn_ns ≤ from }
        ensures added { OnOk result ((base : ℕ) (parts : List TimedPart) (out : List Planned) (pieces : List Piece)
            (given : List StepUnit) → IsStepperOf self.old base parts out pieces given →
            IsStepperOf self.new base parts out pieces given) }
        ensures lines { OnOk result (stepper_clocks self.new ≡ added (stepper_clocks self.old) from line) }
        ensures unchanged { OnErr result (self.new ≡ self.old) }
        ensures caught_up { OnOk result
            ((turn : ℕ) → turn * turn_ns < from → IsCaughtUp turn self.old → IsCaughtUp turn self.new) }
        ensures due { OnOk result ((low : ℕ) → planned_turn self.old * turn_ns < from → low * turn_ns < from →
            IsDueFrom low self.old → IsDueFrom low self.new) }
        ensures turn { planned_turn self.new ≡ planned_turn self.old }
        ensures end { known_of self.new ≡ known_of self.old }
        ensures units { units_of self.new ≡ units_of self.old }
        ensures packed { packed_to self.new ≡ packed_to self.old }
        ensures kind { kind_of self.new ≡ kind_of self.old }
    {
        self.steps.add_line(from, line)?;
        Ok(())
    }

    /// No more moves come, and no steps are asked for behind a plan tick.
    pub fn finish(&mut self, end: u64)
        requires order { known_of self.old ≤ end }
        ensures ended { (base : ℕ) (parts : List TimedPart) (out : List Planned) (pieces : List Piece)
            (given : List StepUnit) → IsStepperOf self.old base parts out pieces given →
            IsStepperOf self.new base parts out pieces given }
        ensures end { known_of self.new ≡ end }
        ensures caught_up { (turn : ℕ) → IsCaughtUp turn self.old → IsCaughtUp turn self.new }
        ensures turn { planned_turn self.new ≡ planned_turn self.old }
        ensures lines { stepper_clocks self.new ≡ stepper_clocks self.old }
        ensures units { units_of self.new ≡ units_of self.old }
        ensures due { (low : ℕ) → IsDueFrom low self.old → IsDueFrom low self.new }
        ensures kind { kind_of self.new ≡ kind_of self.old }
    {
        self.steps.begin_at(end);
    }

    /// The unit that is given next, if any waits.
    pub fn first(&self) -> Option<Unit>
        ensures some { IfSome result (λ u. (rest : List StepUnit) × (units_of self.now ≡ u ∷ rest)) }
        ensures none { IfNone result (units_of self.now ≡ []) }
    {
        self.pack.first()
    }

    /// Takes the unit out that is given next, if any waits.
    pub fn pop(&mut self) -> Option<Unit>
        ensures some { IfSome result (λ u. (base : ℕ) (parts : List TimedPart) (out : List Planned)
            (pieces : List Piece) (given : List StepUnit) → IsStepperOf self.old base parts out pieces given →
            IsStepperOf self.new base parts out pieces (given ++ u ∷ [])) }
        ensures first { IfSome result (λ u. units_of self.old ≡ u ∷ units_of self.new) }
        ensures none { IfNone result (units_of self.old ≡ []) }
        ensures kept { IfNone result ((base : ℕ) (parts : List TimedPart) (out : List Planned) (pieces : List Piece)
            (given : List StepUnit) → IsStepperOf self.old base parts out pieces given →
            IsStepperOf self.new base parts out pieces given) }
        ensures rest { IfNone result (units_of self.new ≡ units_of self.old) }
        ensures caught_up { (turn : ℕ) → IsCaughtUp turn self.old → IsCaughtUp turn self.new }
        ensures turn { planned_turn self.new ≡ planned_turn self.old }
        ensures end { known_of self.new ≡ known_of self.old }
        ensures lines { stepper_clocks self.new ≡ stepper_clocks self.old }
        ensures number { IfSome result (λ u. u.stepper ≡ (kind_of self.old).oid) }
        ensures due { (low : ℕ) → AreKept (stepper_clocks self.old) → IsDueFrom low self.old → IsDueFrom low self.new }
        ensures kind { kind_of self.new ≡ kind_of self.old }
    {
        self.pack.pop()
    }

    /// Whether all steps of the parts that it was given are planned and packed.
    pub fn is_whole(&self) -> bool
        ensures whole { IsTrue result → (base : ℕ) (parts : List TimedPart) (out : List Planned) (pieces : List Piece)
            (given : List StepUnit) → IsStepperOf self.now base parts out pieces given →
            (out ≡ plan_of self.now base parts) × (steps_in pieces ≡ as_sent (kind_of self.now).inverted out) }
        ensures left { result ≡ false → HasStepsLeft self.now }
    {
        self.steps.is_given() && self.pack.is_packed()
    }

    /// Whether all steps of the parts that it was given are planned and packed, and all their units given.
    pub fn is_done(&self) -> bool
        ensures { IsTrue result → (homing : Bool) (freq base : ℕ) (parts : List TimedPart) (out : List Planned)
            (pieces : List Piece) (given : List StepUnit) → (kind_of self.now).reset ≡ set_to homing base →
            (kind_of self.now).early ≡ max_error freq → IsStepperOf self.now base parts out pieces given →
            ArePackedBy homing (stepper_clocks self.now) freq (kind_of self.now).oid base
            (as_sent (kind_of self.now).inverted (plan_of self.now base parts)) given }
    {
        self.is_whole() && self.pack.is_given()
    }

    /// The tick of the last step that was packed, if one was.
    pub fn last(&self) -> Option<u64>
        ensures is { result ≡ packed_step self.now }
        ensures last { IfSome result (λ t. t ≡ packed_to self.now) }
        ensures all { (base : ℕ) (parts : List TimedPart) (out : List Planned) (pieces : List Piece)
            (given : List StepUnit) → IsStepperOf self.now base parts out pieces given →
            IsLastOf result base (steps_in pieces) }
    {
        self.pack.last()
    }
}
