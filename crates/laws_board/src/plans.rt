//! The laws of the planner in a run.

ghost use Rattle.std.specs.Prelude.{◌≡◌, ◌≢◌, ◌⊎◌, ◌+◌, ◌<◌, ◌≤◌, ℕ, All, List, Some, length, map, take, []};
ghost use Rattle.plan_types.specs.declared.machine.Machine.{Machine};
ghost use Rattle.plan_types.specs.Machines.{board_at};
ghost use Rattle.plan_types.specs.Sections.{clocks_at};
ghost use Rattle.step_feed.specs.Pacing.{units_of};
ghost use Rattle.section_units.specs.Sections.{IsSection, of_stepper};
ghost use Rattle.link_work.specs.Turn.{Orders};
ghost use Rattle.laws_board.specs.sections.Parts.{AreOrdersOf, AreTracked, IsBoardRun, MakesIn};
ghost use Rattle.motion_work.specs.Boards.{parts_on};
ghost use Rattle.motion_work.specs.Told.{Told};
ghost use Rattle.motion_stream.specs.Motions.{IsPlannerOf, Planner};
ghost use Rattle.motion_stream.specs.Seen.{nothing_seen};
ghost use Rattle.session_work.specs.declared.seat.Seat.{Seat};
ghost use Rattle.session_work.specs.declared.table.MotionTurn.{MotionTurn};
ghost use Rattle.session_work.specs.Motions.{MotionStep, seated};
ghost use Rattle.session_work.specs.Turns.{Goes};
ghost use Rattle.laws_board.specs.plans.Given.{EndBefore, TookBatches, TookControls};
ghost use Rattle.laws_board.specs.sections.Homes.{AreOrdersIn, AreSet, HasUnits, IsHomeRun, IsSectionBy, SetsAny};
ghost use Rattle.laws_board.specs.plans.Homed.{AreOutInTime, ArePlannedBefore, TookControlsIn, runs_on, stops_of};
ghost use Rattle.laws_board.specs.plans.Lines.{AreLinesOf, TellTurns, TookNotes};
ghost use Rattle.motion_work.specs.Seen.{AreMoves, AreSentBy};
ghost use Rattle.laws_board.specs.plans.Planned.{AreReadInOrder, Plans, nothing_read, planning};
ghost use Rattle.session_work.specs.declared.table.ReactorTurn.{ReactorTurn};
ghost use Rattle.wire_scene.specs.declared.scene.Switch.{Switch};

/// The law of the planner: whatever words and pieces of a text a planner takes in a run, what it puts in its
/// turns is told by the first sections of the whole text, as they are planned by the clock lines that it was
/// told; and once memory was wanted, or no more of the text could be read, or nothing was to follow, all that
/// is put is bare.
pub fn planners_put_sections()
    ensures { (n : ℕ) (p : Planner) (ts : List MotionTurn) (e : Seat Planner) (text : List ℕ) →
        IsPlannerOf p nothing_seen → Goes (MotionStep planning n) 0 (seated planning p) ts e →
        AreReadInOrder nothing_read ts text → ∥ ((made : Plans p.machine n ts) × (made.seen.text ≡ text)) ∥₁ }
{}

/// The law of a board's orders: where a board took the batches that a planner put for it, and controls of a
/// run of moves, its orders are those of its sections, which are sections as `section_units` defines them
/// where none homes, and of which it is sent what is put in the planner's turns, in order and with triples
/// that cover as many steps of the plan as one can, of a section that homes of its plan by the clock lines
/// that were taken up by its end; and where then its clock lines are tracked from 260 turns before the first
/// start until its sections are over, and steppers with units are made by then, this is its part of a run.
pub fn planned_boards_run()
    ensures orders { (m : Machine) (ts : List MotionTurn) (p : Plans m (length m.boards) ts) (t : Told) (b : ℕ)
        (os : List Orders) → b < length m.boards → length os ≤ length p.made → TookBatches b ts os → TookControls os →
        AreOrdersOf (parts_on m t.clocks p.seen.begun b) 0 os }
    ensures sections { (m : Machine) (ts : List MotionTurn) (p : Plans m (length m.boards) ts) (t : Told) (b : ℕ) →
        b < length m.boards → p.seen.told ≡ Some t → AreMoves p.seen.begun →
        All (IsSection (clocks_at t.clocks b) (board_at m b).freq (board_at m b).slots)
        (parts_on m t.clocks p.seen.begun b) }
    ensures sent { (m : Machine) (n : ℕ) (ts : List MotionTurn) (p : Plans m n ts) (t : Told) → p.seen.told ≡ Some t →
        AreSentBy m t.clocks (length p.made) p.seen.begun }
    ensures run { (m : Machine) (ts : List MotionTurn) (p : Plans m (length m.boards) ts) (t : Told) (b ready : ℕ)
        (own : ℕ → ℕ) (os : List Orders) → b < length m.boards → p.seen.told ≡ Some t → AreMoves p.seen.begun →
        length os ≤ length p.made → TookBatches b ts os → TookControls os →
        (k : AreTracked own (clocks_at t.clocks b) ready) → ready + 260 ≤ t.first →
        EndBefore k.until (parts_on m t.clocks p.seen.begun b) →
        (ready ≤ length os → (oid : ℕ) →
        All (λ s. of_stepper oid (units_of s.releases) ≢ [] → MakesIn oid (take ready os))
        (parts_on m t.clocks p.seen.begun b)) →
        IsBoardRun own (clocks_at t.clocks b) (board_at m b).freq (board_at m b).slots ready
        (parts_on m t.clocks p.seen.begun b) os }
{}

/// The law of a board's orders in a run in which axes home: where the boards' controls are those of such a
/// run, its orders are those of its sections; these are sections of moves or, as far as their units are
/// released before the answer, of homing, where their planned ends are before the end of its clock lines, and
/// no unit of homing is released more than five turns behind them; and where then its clock lines are tracked
/// from 260 turns before the first start on, steppers are made by then, and the clocks are set of those that
/// home, this is its part of a run.
pub fn planned_boards_home()
    ensures orders { (m : Machine) (ts : List MotionTurn) (p : Plans m (length m.boards) ts) (t : Told) (b : ℕ)
        (os : List Orders) → b < length m.boards → length os ≤ length p.made → TookBatches b ts os →
        TookControlsIn (clocks_at t.clocks b) (runs_on m t.clocks p.seen.begun b) 0 os →
        AreOrdersIn (clocks_at t.clocks b) (runs_on m t.clocks p.seen.begun b) 0 os }
    ensures sections { (m : Machine) (ts : List MotionTurn) (p : Plans m (length m.boards) ts) (t : Told)
        (b until : ℕ) → b < length m.boards → p.seen.told ≡ Some t → ArePlannedBefore m t.clocks until p.seen.begun →
        AreOutInTime m t.clocks b p.seen.begun →
        All (λ s. IsSectionBy s.homes (clocks_at t.clocks b) (board_at m b).freq (board_at m b).slots until
        (stops_of p.seen.begun) s.section)
        (runs_on m t.clocks p.seen.begun b) }
    ensures run { (m : Machine) (ts : List MotionTurn) (p : Plans m (length m.boards) ts) (t : Told) (b ready : ℕ)
        (own : ℕ → ℕ) (os : List Orders) → b < length m.boards → p.seen.told ≡ Some t → length os ≤ length p.made →
        TookBatches b ts os → TookControlsIn (clocks_at t.clocks b) (runs_on m t.clocks p.seen.begun b) 0 os →
        (k : AreTracked own (clocks_at t.clocks b) ready) → ready + 260 ≤ t.first →
        ArePlannedBefore m t.clocks k.until p.seen.begun → AreOutInTime m t.clocks b p.seen.begun →
        ((oid : ℕ) → AreSet oid (runs_on m t.clocks p.seen.begun b) 0 os) →
        (ready ≤ length os → (oid : ℕ) → HasUnits oid (runs_on m t.clocks p.seen.begun b) ⊎ SetsAny oid os →
        MakesIn oid (take ready os)) →
        IsHomeRun own (clocks_at t.clocks b) (board_at m b).freq (board_at m b).slots ready (stops_of p.seen.begun)
        (runs_on m t.clocks p.seen.begun b) os }
{}

/// The law of section lines: where the reactor took the notes that a planner made, one in each turn behind
/// the first, its lines of a turn are those of the sections that start in it, and behind them the pulses of
/// the states that it took, with no further line of a section.
pub fn lines_tell_sections()
    ensures { (m : Machine) (n : ℕ) (ts : List MotionTurn) (p : Plans m n ts) (switches : List Switch)
        (rs : List ReactorTurn) → TookNotes (map (λ t. t.note) p.made) rs → AreLinesOf m switches [] rs →
        TellTurns m p.seen.begun 0 rs }
{}
