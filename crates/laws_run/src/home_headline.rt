//! What the report of a whole run in which axes home shows of the sections that its planner begun, as laws.

ghost use Rattle.std.specs.Prelude.{◌≡◌, ◌≢◌, ◌++◌, ◌∷◌, ◌<◌, ℕ, List, [], None, Some, false, length};
ghost use Rattle.gcode_program.specs.Programs.{program_sections};
ghost use Rattle.plan_types.specs.declared.machine.Machine.{Machine};
ghost use Rattle.plan_types.specs.Clock.{clock_of};
ghost use Rattle.plan_types.specs.Lines.{Clocks};
ghost use Rattle.plan_types.specs.declared.plan.SectionKind.TheVariants.{Home};
ghost use Rattle.plan_types.specs.Machines.{IsValidMachine, axis_at, board_at};
ghost use Rattle.wire_scene.specs.declared.scene.Scene.{Scene};
ghost use Rattle.wire_scene.specs.declared.scene.Switch.{Switch};
ghost use Rattle.report_text.specs.declared.line.ReportLine.{ReportLine};
ghost use Rattle.host_reactor.specs.Reactor.{Run, cut_line};
ghost use Rattle.host_reactor.specs.Runs.{Came, GoesOn, last_reacted};
ghost use Rattle.laws_board.specs.causes.Short.{HaveShortDictionaries};
ghost use Rattle.motion_work.specs.Seen.{Started};
ghost use Rattle.motion_work.specs.Told.{Told as Heard};
ghost use Rattle.session_lanes.specs.declared.near.Told.{Told};
ghost use Rattle.session_work.specs.declared.table.MotionTurn.{MotionTurn};
ghost use Rattle.session_work.specs.declared.table.ReactorTurn.{ReactorTurn};
ghost use Rattle.session_work.specs.Rows.{gather};
ghost use Rattle.session_run.specs.declared.tell.Kept.{Kept};
ghost use Rattle.session_run.specs.Boards.{came_from};
ghost use Rattle.session_run.specs.Runs.{RunsOver};
ghost use Rattle.laws_board.specs.plans.Lines.{heads_of};
ghost use Rattle.laws_board.specs.plans.Planned.{Plans, PlannerInput};
ghost use Rattle.laws_run.specs.lanes.Boards.{IsInWhole};
ghost use Rattle.laws_run.specs.run_ends.Ends.{GoesThrough};
ghost use Rattle.laws_run.specs.run_headline.Made.{IsMade};
ghost use Rattle.laws_run.specs.run_headline.Told.{AreTold};
ghost use Rattle.laws_run.specs.run_headline.Timely.{AllAreTimely, AreOfMoves, HoldsNothingLong, clocks_heard, link_of, ready_heard};
ghost use Rattle.laws_run.specs.run_lines.Due.{BoardsHave, StandApart};
ghost use Rattle.laws_homing.specs.home_runs.Words.{TellsHomed};
ghost use Rattle.laws_homing.specs.home_plans.Notes.{CameNotes, WasBegun};
ghost use Rattle.laws_homing.specs.home_parts.Answers.{IsPlannedBy};
ghost use Rattle.laws_run.specs.home_headline.Cuts.{TellAnswers, TellEnds, TellsCut, cuts_of};
ghost use Rattle.laws_run.specs.home_headline.Follow.{AllShowBegun, AllShowHomes, FollowHomes, HaveBegunLines, ShowBegun, ShowHomes};
ghost use Rattle.laws_run.specs.home_headline.Near.{AllKeepUp, AllReportsReadTrue, AllTakeNear, KeepsUp};
ghost use Rattle.laws_run.specs.home_headline.Little.{AllHomeLittle};
ghost use Rattle.laws_run.specs.home_headline.Reports.{TellOfReadings};
ghost use Rattle.laws_run.specs.home_wholes.Own.{AllTakeInTime};

use io_core::{Files, Sink};
use plan_types::Cause;

/// The law of cuts: in a turn of the reactor that goes on a line tells that the switch of a homing section
/// closed exactly where its word tells of the answer, one line, of the section that is known, at the tick of
/// the group's answer; and this is one that the planner began, by its number and its axis.
pub fn cuts_tell_of_answers()
    ensures told { (m : Machine) (switches : List Switch) (c : Came) (before : List Came) →
        (last_reacted m switches c before).ordered.end ≡ None →
        TellsHomed (last_reacted m switches c before).ordered.word.news → TellsCut m switches c before }
    ensures section { (m : Machine) (switches : List Switch) (begun : List Started) (c : Came) (before : List Came) →
        GoesOn m switches before → CameNotes begun (c ∷ before) → (x : TellsCut m switches c before) →
        WasBegun begun (Some x.homing) }
    ensures none { (m : Machine) (switches : List Switch) (c : Came) (before : List Came) →
        (last_reacted m switches c before).ordered.end ≡ None →
        (TellsHomed (last_reacted m switches c before).ordered.word.news → ⊥) →
        cuts_of (last_reacted m switches c before).ordered.lines ≡ [] }
{}

/// The law of answers: in whatever threads a run went, and whatever ended it, each of the reactor's turns
/// before the last one tells of a switch exactly where the group of the homing section that is known then
/// answers that its switch closed: one line, of that section's number and its axis's endstop, at the tick of
/// the answer, which the endstop's board told of its trigger, in a turn from the section's start on.
pub fn runs_tell_of_answers<F: Files, S: Sink>()
    ensures { (m : Machine) (s : Scene) (name : List ℕ) (files files' : F) (out out' : S) (kept kept' : Kept)
        (t : Told Run) → (r : RunsOver F.Files S.Sink m s name files out kept t files' out' kept') →
        TellAnswers m s.switches [] r.runs.1 }
{}

/// The law of last turns: in whatever threads a run went, and whatever ended it, want of memory too, the turn
/// of the reactor that ends it tells of no switch. So each line of a report that tells of one stands in a
/// turn before the last.
pub fn last_turns_tell_of_no_switch<F: Files, S: Sink>()
    ensures { (m : Machine) (s : Scene) (name : List ℕ) (files files' : F) (out out' : S) (kept kept' : Kept)
        (t : Told Run) → (r : RunsOver F.Files S.Sink m s name files out kept t files' out' kept') → IsValidMachine m →
        (text : List ℕ) → F.told files name ≡ Some text → kept.at ≡ 0 → cuts_of r.runs.2.lines ≡ [] }
{}

/// The law of readings: in whatever threads a run went, and whatever ended it, whatever comes to the reactor
/// that tells that readings triggered a board's trigger tells of a tick at which the board's readings of the
/// endstop of an axis that homes are complete (`IsReadInRun`): four in a row that show it pressed.
pub fn runs_trigger_by_complete_readings<F: Files, S: Sink>()
    ensures { (m : Machine) (s : Scene) (name : List ℕ) (files files' : F) (out out' : S) (kept kept' : Kept)
        (t : Told Run) → (r : RunsOver F.Files S.Sink m s name files out kept t files' out' kept') →
        TellOfReadings m s.switches (came_from [] r.runs.1) }
{}

/// The law of cut lines: where a homing section has ended, in a turn of a run that goes on, the lines of that
/// turn tell of one switch, that of the section's axis, with the section's number, at a tick.
pub fn cut_lines_stand_at_ends()
    ensures { (m : Machine) (switches : List Switch) (n : ℕ) (ts : List MotionTurn) (p : Plans m n ts)
        (came before : List Came) (past : List Started) (s : Started) (later : List Started) (axis : ℕ) (c : Came)
        (ahead : List Came) → IsPlannedBy m switches n ts p came → p.seen.begun ≡ past ++ s ∷ later →
        s.section.kind ≡ Home axis → came ≡ ahead ++ c ∷ before → length before ≡ s.end →
        (tick : ℕ)
        × (cuts_of (last_reacted m switches c before).ordered.lines
        ≡ cut_line m switches (length past) (axis_at m axis) (Some tick)) }
{}

/// The law of whole runs in which axes home: in whatever threads a run went that does not end for want of
/// memory, the lines of all of the reactor's turns, the one that ends the run among them, follow the plans of
/// the sections of the file's text, of moves or homing: each section has its line, in the turn of its start,
/// and the pulses of a stepper between it and that of the next section are made for the first steps of its
/// plan, in order, each once, at most the tolerance before its planned tick and never after it, whatever its
/// trigger did.
///
/// It is asked of each board that it keeps up (`KeepsUp`).
pub fn homing_runs_follow_their_plans<F: Files, S: Sink>()
    ensures { (m : Machine) (s : Scene) (name : List ℕ) (files files' : F) (out out' : S) (kept kept' : Kept)
        (t : Told Run) → (r : RunsOver F.Files S.Sink m s name files out kept t files' out' kept') → IsValidMachine m →
        HaveShortDictionaries m → (text : List ℕ) → F.told files name ≡ Some text → kept.at ≡ 0 →
        ∥ ((made : IsMade m s r.runs.0 r.runs.1) × (made.plans.seen.text ≡ text)
        × ((heard : Heard) (first : ReactorTurn) (rest : List ReactorTurn) → (t.cause ≡ Cause.Memory → ⊥) →
        r.runs.1 ≡ first ∷ rest → made.plans.seen.told ≡ Some heard →
        ((b : ℕ) → b < length m.boards →
        (w : IsInWhole m s.switches b (clock_of (board_at m b)) (link_of m s b) r.runs.0 first
        (rest ++ r.runs.2 ∷ [])) →
        KeepsUp m s b r.runs.0 first (rest ++ r.runs.2 ∷ []) made.plans.seen.begun w) →
        FollowHomes m heard made.plans.seen first (rest ++ r.runs.2 ∷ []))) ∥₁ }
{}

/// The law of a run's report where axes home: in whatever threads a run went that does not end for want of
/// memory, the lines of all of the reactor's turns, the one that ends the run among them, follow the plans of
/// the sections of the file's text, of moves or homing, by the clock lines that the planner heard; where each
/// board keeps up (`AllKeepUp`). Where the run went through, these are all sections of the text.
pub fn homing_runs_show_their_sections<F: Files, S: Sink>()
    ensures { (m : Machine) (s : Scene) (name : List ℕ) (files files' : F) (out out' : S) (kept kept' : Kept)
        (t : Told Run) → (r : RunsOver F.Files S.Sink m s name files out kept t files' out' kept') → IsValidMachine m →
        HaveShortDictionaries m → (text : List ℕ) → F.told files name ≡ Some text → kept.at ≡ 0 →
        ∥ ((made : IsMade m s r.runs.0 r.runs.1) × (made.plans.seen.text ≡ text)
        × ((t.cause ≡ Cause.Memory → ⊥) → AllKeepUp m s text r.runs.0 (r.runs.1 ++ r.runs.2 ∷ []) →
        AllShowHomes m made.plans.seen (clocks_heard made.plans.seen.told) (ready_heard made.plans.seen.told) t.cause
        (r.runs.1 ++ r.runs.2 ∷ []))) ∥₁ }
{}

/// The law of boards that take all near: they keep up. So do boards that are timely and take the set-up of each homing
/// section in time. And boards that keep up, and whose reports are read true, take all near.
pub fn boards_that_take_near_keep_up()
    ensures keep { (m : Machine) (s : Scene) (text : List ℕ) (planned : List MotionTurn) (turns : List ReactorTurn) →
        AllTakeNear m s text planned turns → AllKeepUp m s text planned turns }
    ensures in_time { (m : Machine) (s : Scene) (text : List ℕ) (planned : List MotionTurn) (turns : List ReactorTurn) →
        AllAreTimely m s text planned turns → AllTakeInTime m s text planned turns → AllKeepUp m s text planned turns }
    ensures near { (m : Machine) (s : Scene) (text : List ℕ) (planned : List MotionTurn) (turns : List ReactorTurn) →
        AllKeepUp m s text planned turns → AllReportsReadTrue m s planned turns → AllTakeNear m s text planned turns }
{}

/// The law of limits: the boards of a run keep up where each holds little (`HomesLittle`): its units are sent
/// so many turns late at most, few turns of its link are spoiled, and it takes the set-ups in time, or its
/// reports are read true. It holds in all turns of a run that does not end for want of memory, and in those
/// before the last one of any run, by what the planner made up to then.
pub fn runs_that_hold_little_keep_up<F: Files, S: Sink>()
    ensures whole { (m : Machine) (s : Scene) (name : List ℕ) (files files' : F) (out out' : S) (kept kept' : Kept)
        (t : Told Run) → (r : RunsOver F.Files S.Sink m s name files out kept t files' out' kept') → IsValidMachine m →
        HaveShortDictionaries m → (text : List ℕ) →
        (t.cause ≡ Cause.Memory → ⊥) → AllHomeLittle m s text r.runs.0 (r.runs.1 ++ r.runs.2 ∷ []) →
        AllKeepUp m s text r.runs.0 (r.runs.1 ++ r.runs.2 ∷ []) }
    ensures before { (m : Machine) (s : Scene) (name : List ℕ) (files files' : F) (out out' : S) (kept kept' : Kept)
        (t : Told Run) → (r : RunsOver F.Files S.Sink m s name files out kept t files' out' kept') → IsValidMachine m →
        HaveShortDictionaries m → (text : List ℕ) →
        (turns : List ReactorTurn) (last : ReactorTurn) → r.runs.1 ≡ turns ++ last ∷ [] →
        (front later : List MotionTurn) → r.runs.0 ≡ front ++ later → length front ≡ length turns →
        AllHomeLittle m s text front (turns ++ last ∷ []) → AllKeepUp m s text front (turns ++ last ∷ []) }
{}

/// The law of runs of moves: each board of such a run takes all near (`AllTakeNear`), where it is timely: its
/// reports count for no homing section. And it is timely where no line holds a command for long
/// (`HoldsNothingLong`). It holds in all turns of a run that does not end for want of memory, and in those
/// before the last one of any run, by what the planner made up to then.
pub fn runs_of_moves_take_near<F: Files, S: Sink>()
    ensures timely { (m : Machine) (s : Scene) (name : List ℕ) (files files' : F) (out out' : S) (kept kept' : Kept)
        (t : Told Run) → (r : RunsOver F.Files S.Sink m s name files out kept t files' out' kept') → IsValidMachine m →
        (text : List ℕ) → AreOfMoves (program_sections m text) → (t.cause ≡ Cause.Memory → ⊥) →
        AllAreTimely m s text r.runs.0 (r.runs.1 ++ r.runs.2 ∷ []) →
        AllTakeNear m s text r.runs.0 (r.runs.1 ++ r.runs.2 ∷ []) }
    ensures near { (m : Machine) (s : Scene) (name : List ℕ) (files files' : F) (out out' : S) (kept kept' : Kept)
        (t : Told Run) → (r : RunsOver F.Files S.Sink m s name files out kept t files' out' kept') → IsValidMachine m →
        HaveShortDictionaries m → (text : List ℕ) → AreOfMoves (program_sections m text) →
        (t.cause ≡ Cause.Memory → ⊥) → HoldsNothingLong m s text r.runs.0 (r.runs.1 ++ r.runs.2 ∷ []) →
        AllTakeNear m s text r.runs.0 (r.runs.1 ++ r.runs.2 ∷ []) }
    ensures before { (m : Machine) (s : Scene) (name : List ℕ) (files files' : F) (out out' : S) (kept kept' : Kept)
        (t : Told Run) → (r : RunsOver F.Files S.Sink m s name files out kept t files' out' kept') → IsValidMachine m →
        (text : List ℕ) → AreOfMoves (program_sections m text) →
        (turns : List ReactorTurn) (last : ReactorTurn) → r.runs.1 ≡ turns ++ last ∷ [] →
        (front later : List MotionTurn) → r.runs.0 ≡ front ++ later → length front ≡ length turns →
        (AllAreTimely m s text front (turns ++ last ∷ []) → AllTakeNear m s text front (turns ++ last ∷ [])) ×
        (HaveShortDictionaries m → HoldsNothingLong m s text front (turns ++ last ∷ []) →
        AllTakeNear m s text front (turns ++ last ∷ [])) }
{}

/// The law of the lines of a run of moves: where it went through, they are such as a reactor tells that homes nothing,
/// so that none tells of a switch (`AreTold`).
pub fn runs_of_moves_tell_no_switch<F: Files, S: Sink>()
    ensures { (m : Machine) (s : Scene) (name : List ℕ) (files files' : F) (out out' : S) (kept kept' : Kept)
        (t : Told Run) → (r : RunsOver F.Files S.Sink m s name files out kept t files' out' kept') → IsValidMachine m →
        (text : List ℕ) → F.told files name ≡ Some text → kept.at ≡ 0 → AreOfMoves (program_sections m text) →
        GoesThrough t.cause → ∥ AreTold false m (gather (λ t. t.lines) (r.runs.1 ++ r.runs.2 ∷ [])) ∥₁ }
{}

/// The law of switches in whole runs: in whatever threads a run went that does not end for want of memory,
/// each of the reactor's turns, the one that ends the run among them, tells of a switch exactly where a
/// homing section ended in it: one line, of that section's number and its axis's endstop. This is said of the
/// same run of the planner as what the lines show of its sections.
pub fn homing_runs_tell_of_switches<F: Files, S: Sink>()
    ensures { (m : Machine) (s : Scene) (name : List ℕ) (files files' : F) (out out' : S) (kept kept' : Kept)
        (t : Told Run) → (r : RunsOver F.Files S.Sink m s name files out kept t files' out' kept') → IsValidMachine m →
        (text : List ℕ) → F.told files name ≡ Some text → kept.at ≡ 0 →
        ∥ ((made : IsMade m s r.runs.0 r.runs.1) × (made.plans.seen.text ≡ text)
        × ((t.cause ≡ Cause.Memory → ⊥) → HaveShortDictionaries m →
        AllKeepUp m s text r.runs.0 (r.runs.1 ++ r.runs.2 ∷ []) →
        AllShowHomes m made.plans.seen (clocks_heard made.plans.seen.told) (ready_heard made.plans.seen.told) t.cause
        (r.runs.1 ++ r.runs.2 ∷ []))
        × ((t.cause ≡ Cause.Memory → ⊥) →
        TellEnds m s.switches made.plans.seen.begun 0 (r.runs.1 ++ r.runs.2 ∷ []))) ∥₁ }
{}

/// The law of begun sections: in whatever threads a run went that does not end for want of memory, of moves
/// or homing, and whatever the links of its boards hold, the sections that were begun are the first ones of
/// the file's text, each has its line in the turn of its start, and the boards have theirs before; and where
/// the run went through these are all sections of the text (`ShowBegun`).
pub fn runs_show_begun_sections<F: Files, S: Sink>()
    ensures { (m : Machine) (s : Scene) (name : List ℕ) (files files' : F) (out out' : S) (kept kept' : Kept)
        (t : Told Run) → (r : RunsOver F.Files S.Sink m s name files out kept t files' out' kept') → IsValidMachine m →
        (text : List ℕ) → F.told files name ≡ Some text → kept.at ≡ 0 →
        ∥ ((made : IsMade m s r.runs.0 r.runs.1) × (made.plans.seen.text ≡ text)
        × ((t.cause ≡ Cause.Memory → ⊥) →
        AllShowBegun m made.plans.seen (clocks_heard made.plans.seen.told) (ready_heard made.plans.seen.told) t.cause
        (r.runs.1 ++ r.runs.2 ∷ []))) ∥₁ }
{}

/// The law of section lines where axes home: of the sections of the text the first ones have their line in
/// the report of a whole run, in their order, each in the turn in which it starts; and all of them where the
/// run went through.
pub fn begun_sections_have_their_lines()
    ensures { (m : Machine) (seen : PlannerInput) (clocks : List Clocks) (ready : ℕ) (c : Cause) (first : ReactorTurn)
        (rest : List ReactorTurn) → ShowBegun m seen clocks ready c first rest →
        HaveBegunLines m seen.text clocks ready c (gather (λ t. t.lines) (first ∷ rest)) }
{}

/// The law of board lines where axes home: where some of the first lines of a whole run's report begin a
/// section, the boards have their lines among them, and these are of the clock lines by which the sections
/// are planned, and of the turn from which on the first of them may start.
pub fn home_boards_have_their_lines()
    ensures { (m : Machine) (seen : PlannerInput) (clocks : List Clocks) (ready : ℕ) (c : Cause) (first : ReactorTurn)
        (rest : List ReactorTurn) (said more : List ReportLine) → ShowBegun m seen clocks ready c first rest →
        gather (λ t. t.lines) (first ∷ rest) ≡ said ++ more → heads_of said ≢ [] → BoardsHave clocks ready said }
{}

/// The law of order where axes home: where some of the first lines of a whole run's report begin a section,
/// they stand apart: first those of the boards, with no section and no pulse among them, then that of the
/// first section, and behind it no board's.
pub fn home_sections_stand_behind_boards()
    ensures { (m : Machine) (seen : PlannerInput) (clocks : List Clocks) (ready : ℕ) (c : Cause) (first : ReactorTurn)
        (rest : List ReactorTurn) → ShowHomes m seen clocks ready c first rest → (said more : List ReportLine) →
        gather (λ t. t.lines) (first ∷ rest) ≡ said ++ more → heads_of said ≢ [] → StandApart m clocks ready said }
{}

/// The law of turns before the last one: in whatever threads a run went, and whatever ended it, want of
/// memory too, the lines of the reactor's turns before its last one show the sections that the planner begun
/// by then as those of a run do that a fault ends (`AllShowBegun`), and where each board keeps up in these
/// turns the pulses as well (`AllShowHomes`). A run that ends for want of memory has no lines in its last
/// turn.
pub fn runs_show_sections_before_they_end<F: Files, S: Sink>()
    ensures shown { (m : Machine) (s : Scene) (name : List ℕ) (files files' : F) (out out' : S) (kept kept' : Kept)
        (t : Told Run) → (r : RunsOver F.Files S.Sink m s name files out kept t files' out' kept') → IsValidMachine m →
        (text : List ℕ) → F.told files name ≡ Some text → kept.at ≡ 0 → (turns : List ReactorTurn)
        (last : ReactorTurn) → r.runs.1 ≡ turns ++ last ∷ [] →
        ∥ ((front : List MotionTurn) × (later : List MotionTurn) × (r.runs.0 ≡ front ++ later)
        × (length front ≡ length turns) × (p : Plans m (length m.boards) front) × (p.seen.text ≡ text)
        × AllShowBegun m p.seen (clocks_heard p.seen.told) (ready_heard p.seen.told) Cause.ReadFault
        (turns ++ last ∷ [])
        × (HaveShortDictionaries m → AllKeepUp m s text front (turns ++ last ∷ []) →
        AllShowHomes m p.seen (clocks_heard p.seen.told) (ready_heard p.seen.told) Cause.ReadFault
        (turns ++ last ∷ []))) ∥₁ }
    ensures silent { (m : Machine) (s : Scene) (name : List ℕ) (files files' : F) (out out' : S) (kept kept' : Kept)
        (t : Told Run) → (r : RunsOver F.Files S.Sink m s name files out kept t files' out' kept') →
        t.cause ≡ Cause.Memory → r.runs.2.lines ≡ [] }
{}
