//! What the homing sections of a planner are in a whole run.

ghost use Rattle.std.specs.Prelude.{◌≡◌, ◌⊎◌, ◌<◌, ◌≤◌, ◌+◌, ◌-◌, ◌*◌, ◌++◌, ◌∷◌, ℕ, List, Option, Some, [], length, take};
ghost use Rattle.plan_types.specs.declared.machine.Machine.{Machine};
ghost use Rattle.plan_types.specs.declared.plan.SectionKind.TheVariants.{Home};
ghost use Rattle.plan_types.specs.Clock.{board_tick, clock_of, turn_ns};
ghost use Rattle.plan_types.specs.Lines.{Clocks, lines_tick};
ghost use Rattle.plan_types.specs.Machines.{IsValidMachine, board_at, stepper_at};
ghost use Rattle.plan_types.specs.Plan.{Fits};
ghost use Rattle.plan_types.specs.Sections.{base_tick, clocks_at, stepper_plan};
ghost use Rattle.clock_line.specs.Kept.{AreKept};
ghost use Rattle.link_work.specs.Turn.{Orders};
ghost use Rattle.laws_board.specs.sections.Boards.{AreEnded, IsWindow, NextStart, OnBoard};
ghost use Rattle.laws_board.specs.sections.Events.{AreTicks};
ghost use Rattle.laws_board.specs.sections.Homes.{AreOut, AreReleasedIn, AreSet, AreSoon, HasUnits, IsHomeRun, RunSection, SetsAny};
ghost use Rattle.laws_board.specs.sections.Parts.{AreTracked, MakesIn};
ghost use Rattle.plan_types.specs.declared.levels.Level.{Level};
ghost use Rattle.wire_scene.specs.declared.scene.Entry.{Entry};
ghost use Rattle.wire_scene.specs.declared.scene.Switch.{Switch};
ghost use Rattle.laws_board.specs.turns.Turns.{BoardTurn};
ghost use Rattle.laws_board.specs.clocks.Runs.{IsInRun, UnitsFit, orders_in};
ghost use Rattle.host_reactor.specs.declared.ordered.Phase.TheVariants.{Connecting};
ghost use Rattle.host_reactor.specs.Runs.{Came, GoesOn, known_by};
ghost use Rattle.motion_work.specs.Homes.{no_end};
ghost use Rattle.motion_work.specs.Seen.{AreStarted, Started};
ghost use Rattle.motion_work.specs.Told.{Told};
ghost use Rattle.session_work.specs.declared.table.MotionTurn.{MotionTurn};
ghost use Rattle.session_work.specs.declared.table.ReactorTurn.{ReactorTurn};
ghost use Rattle.laws_board.specs.plans.Boards.{lines_between, times_of};
ghost use Rattle.laws_board.specs.plans.Given.{TookBatches};
ghost use Rattle.laws_board.specs.plans.Homed.{TookControlsIn, runs_on, stops_of};
ghost use Rattle.laws_board.specs.plans.Lines.{TellTurns, pulses_of};
ghost use Rattle.laws_board.specs.plans.Planned.{Plans};
ghost use Rattle.laws_homing.specs.home_runs.Ended.{AreToldIn};
ghost use Rattle.laws_homing.specs.home_plans.Notes.{CameNotes, IsNoteOf};
ghost use Rattle.laws_board.specs.plans.Rows.{AreInARow};
ghost use Rattle.laws_homing.specs.fired_runs.Since.{AreNotAhead, AreReadSo, BeginsApart};
ghost use Rattle.laws_homing.specs.home_parts.Answers.{ArePastConnecting, IsPlannedBy, MayHome, TakeSetUps, TellNone, TellsIn};
ghost use Rattle.laws_homing.specs.home_parts.Cuts.{AreOverBefore, cuts_on};
ghost use Rattle.laws_homing.specs.home_parts.Known.{KnowsLately, StartInRange};
ghost use Rattle.laws_homing.specs.home_parts.Movers.{HaveMovers};
ghost use Rattle.laws_homing.specs.home_parts.Reports.{IsHomeStepper};

/// The law of answers: a homing section that has ended did so in the turn in which the reactor's word tells
/// that its group answered, and from the note that begins it up to that turn no word tells of an answer, in
/// the turns whose words the planner heard.
pub fn sections_end_with_their_answer()
    ensures known { (m : Machine) (switches : List Switch) (n : ℕ) (ts : List MotionTurn) (p : Plans m n ts)
        (came : List Came) (past : List Started) (s : Started) (later : List Started) (axis : ℕ) →
        IsPlannedBy m switches n ts p came → p.seen.begun ≡ past ++ s ∷ later → s.section.kind ≡ Home axis →
        (s.end ≡ no_end → ⊥) → s.end < length came }
    ensures answer { (m : Machine) (switches : List Switch) (n : ℕ) (ts : List MotionTurn) (p : Plans m n ts)
        (came : List Came) (past : List Started) (s : Started) (later : List Started) (axis : ℕ) →
        IsPlannedBy m switches n ts p came → p.seen.begun ≡ past ++ s ∷ later → s.section.kind ≡ Home axis →
        s.end < length came → TellsIn m switches s.end came }
    ensures before { (m : Machine) (switches : List Switch) (n : ℕ) (ts : List MotionTurn) (p : Plans m n ts)
        (came ahead behind : List Came) (past : List Started) (s : Started) (later : List Started) (axis from : ℕ) →
        IsPlannedBy m switches n ts p came → came ≡ ahead ++ behind → length behind ≤ length (p.made ++ p.last) →
        p.seen.begun ≡ past ++ s ∷ later → s.section.kind ≡ Home axis → from + 259 ≡ s.start →
        TellNone m switches from s.end behind }
{}

/// The law of told sections, of the planner's: where the planner began them, and the board took their set-ups
/// in time or what it tells is read as the ticks since which its trigger can't trigger (`AreReadSo`), the
/// homing sections of a board that have ended by its last turn were told of, as `home_runs` asks.
pub fn ended_sections_are_told()
    ensures { (m : Machine) (switches : List Switch) (pins : List (List Level)) (entries : List Entry)
        (b ready until : ℕ) (ts : List MotionTurn) (p : Plans m (length m.boards) ts) (t : Told) (came : List Came)
        (turns : List BoardTurn) → IsPlannedBy m switches (length m.boards) ts p came → p.seen.told ≡ Some t →
        ready + 260 ≤ t.first → ArePastConnecting m switches ready came → MayHome m p.seen.begun →
        IsInRun m switches pins entries b came turns →
        TakeSetUps m pins entries b p.seen.begun turns ⊎ AreReadSo m switches b came turns →
        AreToldIn m switches pins entries b (stops_of p.seen.begun) (cuts_on m t.clocks until p.seen.begun b) turns }
{}

/// The law of sections apart: a planner's notes begin each section where no homing section is known, past
/// connecting, 251 turns before its start or earlier; and as each of its homing sections starts, a board that
/// its clock lines track is no more than a turn ahead of those that the reactor knows then.
pub fn planned_sections_are_apart()
    ensures apart { (m : Machine) (switches : List Switch) (ts : List MotionTurn) (p : Plans m (length m.boards) ts)
        (ready first : ℕ) (c : Came) (came : List Came) → ready + 260 ≤ first → AreInARow first p.seen.begun →
        IsPlannedBy m switches (length m.boards) ts p came → ArePastConnecting m switches ready came →
        IsNoteOf p.seen.begun (length came) c.note → ((known_by m switches came).phase ≡ Connecting → ⊥) →
        BeginsApart m switches (c ∷ came) }
    ensures behind { (m : Machine) (switches : List Switch) (b ready first : ℕ) (begun : List Started)
        (clocks : List Clocks) (c : Came) (came : List Came) → ready + 1 ≤ first → AreInARow first begun →
        AreKept (clocks_at clocks b) → GoesOn m switches came → CameNotes begun (c ∷ came) →
        KnowsLately m switches clocks (c ∷ came) → ArePastConnecting m switches ready (c ∷ came) →
        ((past : List Started) (s : Started) (later : List Started) (axis : ℕ) → begun ≡ past ++ s ∷ later →
        s.section.kind ≡ Home axis → s.start ≤ length (c ∷ came) →
        board_tick (clock_of (board_at m b)) (s.start - 1) ≤ lines_tick (clocks_at clocks b) (s.start * turn_ns)) →
        AreNotAhead m switches b (c ∷ came) }
{}

/// The law of moving steppers: each stepper of a board that has units in a homing section moves in it.
pub fn begun_steppers_move()
    ensures { (m : Machine) (ts : List MotionTurn) (p : Plans m (length m.boards) ts) (t : Told) (b until : ℕ) →
        IsValidMachine m → p.seen.told ≡ Some t → b < length m.boards → HaveMovers m t.clocks until b p.seen.begun }
{}

/// The law of set clocks, of the planner's sections: the clocks of all steppers of a board that have units in
/// a homing section are set before the first of them is due, where each such stepper moves in the section.
pub fn begun_clocks_are_set()
    ensures { (m : Machine) (switches : List Switch) (pins : List (List Level)) (entries : List Entry)
        (b ready until : ℕ) (ts : List MotionTurn) (p : Plans m (length m.boards) ts) (t : Told) (came : List Came)
        (turns : List BoardTurn) → IsPlannedBy m switches (length m.boards) ts p came → p.seen.told ≡ Some t →
        ready + 260 ≤ t.first → ArePastConnecting m switches ready came → MayHome m p.seen.begun →
        IsInRun m switches pins entries b came turns → HaveMovers m t.clocks until b p.seen.begun → (oid : ℕ) →
        AreSet oid (cuts_on m t.clocks until p.seen.begun b) 0 (orders_in turns) }
{}

/// The law of controls, of the planner's sections: what the controls of a board hold are control commands of
/// a run in which axes home, where the board's clock lines hold one after the other, and the reactor knows in
/// each turn behind connecting those that hold by 276 turns behind it.
pub fn begun_controls_are_control_commands()
    ensures { (m : Machine) (switches : List Switch) (pins : List (List Level)) (entries : List Entry) (b until : ℕ)
        (ts : List MotionTurn) (p : Plans m (length m.boards) ts) (t : Told) (came : List Came)
        (turns : List BoardTurn) → IsValidMachine m → IsPlannedBy m switches (length m.boards) ts p came →
        StartInRange (clocks_at t.clocks b) p.seen.begun → AreKept (clocks_at t.clocks b) →
        KnowsLately m switches t.clocks came → IsInRun m switches pins entries b came turns →
        TookControlsIn (clocks_at t.clocks b) (cuts_on m t.clocks until p.seen.begun b) 0 (orders_in turns) }
{}

/// The law of a turn's units in a run in which axes home: they have 210 bytes at most, in each turn up to one
/// by which what is released is so by the fifth turn behind the end of its section.
pub fn homing_units_keep_their_limit()
    ensures { (own : ℕ → ℕ) (clocks : Clocks) (freq slots ready by : ℕ) (stops : ℕ → Option ℕ) (ss : List RunSection)
        (later turns : List BoardTurn) → IsHomeRun own clocks freq slots ready stops ss (orders_in (later ++ turns)) →
        AreSoon by ss → length turns ≤ by + 1 → UnitsFit turns }
{}

/// The law of the report of a run in which axes home: the pulses that its lines tell of a stepper, from the
/// turn of a section's start up to that before the start of the next, are made for the first steps that
/// `plan_types` plans for it in this section, of moves or homing, in order, each once, at most the tolerance
/// before its planned tick and never after it. From the sixth turn behind a section's end on no line tells a
/// pulse, up to the turn before the start of the next.
pub fn home_lines_fit()
    ensures section { (m : Machine) (clocks : List Clocks) (begun : List Started) (rest : List ReactorTurn)
        (entries : List Entry) (ready until turns from to place : ℕ) (x : OnBoard) (past : List Started) (s : Started)
        (later : List Started) → IsValidMachine m → TellTurns m begun 1 rest → begun ≡ past ++ s ∷ later →
        IsHomeStepper m clocks begun rest entries ready until turns place x →
        IsWindow turns from to (record { start = s.start; end = s.end }) (times_of later) →
        Fits (board_at m (stepper_at m place).board).freq (base_tick m clocks s.start place)
        (pulses_of place (lines_between from to rest)) (stepper_plan m clocks s.section.moves s.start place) }
    ensures between { (m : Machine) (clocks : List Clocks) (begun : List Started) (rest : List ReactorTurn)
        (entries : List Entry) (ready until turns from to place : ℕ) (x : OnBoard) (past later : List Started) →
        IsValidMachine m → TellTurns m begun 1 rest → begun ≡ past ++ later →
        IsHomeStepper m clocks begun rest entries ready until turns place x → from ≤ to → to ≤ turns →
        AreEnded from (times_of past) → NextStart to (times_of later) →
        pulses_of place (lines_between from to rest) ≡ [] }
{}

/// The law of a board's orders in a run in which axes home, of the units that are released in its turns:
/// where the boards' controls are those of such a run, its clock lines are tracked from 260 turns before the
/// first start on until all sections are over (`AreOverBefore`), steppers are made by then, and the clocks
/// are set of those that home, this is its part of a run. The board may have turns behind those that the
/// planner made: nothing is released in them. Where no unit of moves that is due in the turns and released
/// behind its due one is so more than four turns behind its section's end, all units of its sections of moves
/// are released by four turns behind their ends.
pub fn begun_boards_home()
    ensures run { (m : Machine) (ts : List MotionTurn) (p : Plans m (length m.boards) ts) (t : Told) (b ready until : ℕ)
        (own : ℕ → ℕ) (os : List Orders) → b < length m.boards → p.seen.told ≡ Some t → until ≤ length p.made →
        (length os ≤ until) ⊎ (length p.made ≤ until) → TookBatches b ts os →
        TookControlsIn (clocks_at t.clocks b) (cuts_on m t.clocks until p.seen.begun b) 0 os → AreTicks own →
        (k : AreTracked own (clocks_at t.clocks b) ready) → ready + 260 ≤ t.first →
        AreOverBefore m t.clocks k.until p.seen.begun →
        ((oid : ℕ) → AreSet oid (cuts_on m t.clocks until p.seen.begun b) 0 os) →
        (ready ≤ length os → (oid : ℕ) → HasUnits oid (cuts_on m t.clocks until p.seen.begun b) ⊎ SetsAny oid os →
        MakesIn oid (take ready os)) →
        IsHomeRun own (clocks_at t.clocks b) (board_at m b).freq (board_at m b).slots ready (stops_of p.seen.begun)
        (cuts_on m t.clocks until p.seen.begun b) os }
    ensures released { (m : Machine) (own : ℕ → ℕ) (clocks : List Clocks) (b ready at turn turns : ℕ)
        (begun : List Started) → AreTicks own → (k : AreTracked own (clocks_at clocks b) ready) → ready + 260 ≤ at →
        AreStarted m clocks at begun → b < length m.boards → AreOverBefore m clocks k.until begun →
        AreOut turns (runs_on m clocks begun b) → turn ≤ turns → AreReleasedIn (cuts_on m clocks turn begun b) }
{}
