//! Where the pulses that a run's report tells of sections of moves are all of their plans, and whose readings
//! cut a homing section, in a whole run in which axes home, as laws.

ghost use Rattle.std.specs.Prelude.{◌≡◌, ◌≢◌, ◌+◌, ◌++◌, ◌∷◌, ◌≤◌, ℕ, true, false, List, [], Some, length, take};
ghost use Rattle.plan_types.specs.declared.levels.Level.{Level};
ghost use Rattle.plan_types.specs.declared.machine.Machine.{Machine};
ghost use Rattle.plan_types.specs.declared.plan.Planned.{Planned};
ghost use Rattle.plan_types.specs.declared.plan.SectionKind.TheVariants.{Moves};
ghost use Rattle.plan_types.specs.Lines.{Clocks};
ghost use Rattle.plan_types.specs.Machines.{IsValidMachine, board_at};
ghost use Rattle.msg_code.specs.declared.talk.ShutNews.{ShutNews};
ghost use Rattle.msg_code.specs.declared.talk.State.{State};
ghost use Rattle.wire_scene.specs.declared.scene.Entry.{Entry};
ghost use Rattle.wire_scene.specs.declared.scene.Scene.{Scene};
ghost use Rattle.wire_scene.specs.declared.scene.Switch.{Switch};
ghost use Rattle.step_feed.specs.Pacing.{Release};
ghost use Rattle.board_sim.specs.Board.{timer_too_close};
ghost use Rattle.board_sim.specs.Fair.{only};
ghost use Rattle.section_units.specs.Sections.{AreBefore, BoardSection};
ghost use Rattle.laws_board.specs.sections.Boards.{OnBoard, told_in};
ghost use Rattle.laws_board.specs.sections.Homes.{IsHomeBoard, NextBehind, RunSection, lost_at};
ghost use Rattle.laws_board.specs.sections.Stops.{NeverStop};
ghost use Rattle.host_reactor.specs.Reactor.{Run};
ghost use Rattle.host_reactor.specs.Runs.{Came};
ghost use Rattle.laws_board.specs.turns.Turns.{BoardTurn};
ghost use Rattle.laws_board.specs.clocks.Runs.{IsInRun, orders_in};
ghost use Rattle.laws_board.specs.causes.Short.{HaveShortDictionaries};
ghost use Rattle.motion_work.specs.Seen.{Started};
ghost use Rattle.laws_board.specs.plans.Homed.{stops_of};
ghost use Rattle.laws_homing.specs.home_runs.Settled.{AreHomed};
ghost use Rattle.laws_homing.specs.home_plans.Notes.{CameNotes};
ghost use Rattle.laws_board.specs.plans.Rows.{AreInARow};
ghost use Rattle.session_lanes.specs.declared.near.Told.{Told};
ghost use Rattle.session_run.specs.declared.tell.Kept.{Kept};
ghost use Rattle.session_run.specs.Runs.{RunsOver};
ghost use Rattle.laws_run.specs.run_headline.Made.{IsMade};
ghost use Rattle.laws_run.specs.run_headline.Timely.{clocks_heard, ready_heard};
ghost use Rattle.laws_run.specs.clear_homes.Closes.{TellFirst};
ghost use Rattle.laws_run.specs.home_headline.Cuts.{TellEnds};
ghost use Rattle.laws_run.specs.home_headline.Follow.{AllShowHomes};
ghost use Rattle.laws_run.specs.home_headline.Little.{SendsOut};
ghost use Rattle.laws_run.specs.home_headline.Near.{AllKeepUp};
ghost use Rattle.laws_run.specs.home_wholes.Own.{AllSwitchesReadTrue, AllTakeInTime, TellTriggers};
ghost use Rattle.laws_run.specs.home_wholes.Still.{IsStillIn};
ghost use Rattle.laws_run.specs.home_wholes.Whole.{AllWholeHomes};

use io_core::{Files, Sink};
use plan_types::Cause;

/// The law of whole sections on a board where axes home: where a board is still in the turns of a section of moves,
/// unless a unit came too late before it (`IsSplitIn`), it tells of each stepper as many pulses as its plan of the
/// section has steps, where by some turn, five turns or more behind the section's end, all units were released, the
/// board wasn't told to stop, and its state tells that the link is idle and of no shutdown for a unit that came too
/// late; or where it has told any pulse behind the section's turns.
pub fn homing_boards_make_whole_sections()
    ensures idle { (place : ℕ) (entries : List Entry) (ready turns from to n : ℕ) (x : OnBoard) (past : List RunSection)
        (s : RunSection) (later : List RunSection) (states others : List State) (last : State) →
        (k : IsHomeBoard place entries ready turns (past ++ s ∷ later) x) → s.homes ≡ false →
        (s.section.start ≤ lost_at turns k.split.tail → IsStillIn place entries s.section x) →
        from + 1 ≡ s.section.start → from ≤ to → NextBehind to later → s.section.end + 5 ≤ to → to ≤ n → n ≤ turns →
        AreBefore n s.section.releases → x.states ≡ (states ++ last ∷ []) ++ others → length (states ++ last ∷ []) ≡ n →
        NeverStop (take n x.orders) → ((news : ShutNews) → last.shut ≡ Some news → news.reason ≡ timer_too_close → ⊥) →
        last.idle ≡ true → (oid : ℕ) → length (only oid (told_in from to x)) ≡ length (s.section.plan oid) }
    ensures passed { (place : ℕ) (entries : List Entry) (ready turns from to : ℕ) (x : OnBoard) (past : List RunSection)
        (s : RunSection) (later : List RunSection) → (k : IsHomeBoard place entries ready turns (past ++ s ∷ later) x) →
        s.homes ≡ false → (s.section.start ≤ lost_at turns k.split.tail → IsStillIn place entries s.section x) →
        from + 1 ≡ s.section.start → from ≤ to → NextBehind to later → s.section.end + 5 ≤ to →
        told_in to turns x ≢ [] → (oid : ℕ) → length (only oid (told_in from to x)) ≡ length (s.section.plan oid) }
{}

/// The law of still boards: where the homing sections of a board that have ended in some turns of a run, whose parts
/// were begun by a turn, were told of, the board is still in the turns of each section of moves that was begun by then,
/// and whose units are released from that turn on at the latest: what was set up for a homing section before it has
/// answered, and behind it none is set up before the section is long over.
pub fn boards_are_still_in_sections_of_moves()
    ensures { (m : Machine) (switches : List Switch) (pins : List (List Level)) (entries : List Entry)
        (b ready until : ℕ) (begun past : List Started) (x : Started) (later : List Started) (came : List Came)
        (turns : List BoardTurn) (clocks : Clocks) (sections : List BoardSection) (plan : ℕ → List Planned)
        (releases : List Release) (states : List State) → IsValidMachine m →
        IsInRun m switches pins entries b came turns → CameNotes begun came → 260 ≤ ready → AreInARow ready begun →
        AreHomed m switches pins entries b until (stops_of begun) turns → begun ≡ past ++ x ∷ later →
        x.section.kind ≡ Moves → x.start ≤ length turns + 250 → x.start ≤ until + 250 →
        IsStillIn b entries (record { start = x.start; end = x.end; plan = plan; releases = releases })
        (record {
          board = board_at m b;
          pins = pins;
          clocks = clocks;
          sections = sections;
          orders = orders_in turns;
          states = states;
        }) }
{}

/// The law of whole sections where axes home: in whatever threads a run went that does not end for want of
/// memory, the lines of its report follow the plans of the sections of the file's text (`AllShowHomes`), and
/// of sections of moves they tell whole plans: where the run went through, of each stepper as many pulses as
/// its plan of the section has steps; and so, whatever ended the run, where any pulse of a stepper of the
/// same board is told behind the section. It is asked that each board keeps up (`AllKeepUp`). Without that,
/// each turn tells of a switch exactly where a homing section ended in it (`TellEnds`).
pub fn homing_runs_are_whole<F: Files, S: Sink>()
    ensures { (m : Machine) (s : Scene) (name : List ℕ) (files files' : F) (out out' : S) (kept kept' : Kept)
        (t : Told Run) → (r : RunsOver F.Files S.Sink m s name files out kept t files' out' kept') → IsValidMachine m →
        (text : List ℕ) → F.told files name ≡ Some text → kept.at ≡ 0 →
        ∥ ((made : IsMade m s r.runs.0 r.runs.1) × (made.plans.seen.text ≡ text)
        × ((t.cause ≡ Cause.Memory → ⊥) → HaveShortDictionaries m →
        AllKeepUp m s text r.runs.0 (r.runs.1 ++ r.runs.2 ∷ []) →
        AllShowHomes m made.plans.seen (clocks_heard made.plans.seen.told) (ready_heard made.plans.seen.told) t.cause
        (r.runs.1 ++ r.runs.2 ∷ [])
        × AllWholeHomes m made.plans.seen (clocks_heard made.plans.seen.told) t.cause (r.runs.1 ++ r.runs.2 ∷ []))
        × ((t.cause ≡ Cause.Memory → ⊥) →
        TellEnds m s.switches made.plans.seen.begun 0 (r.runs.1 ++ r.runs.2 ∷ []))) ∥₁ }
{}

/// The law of trigger ticks: of a whole run that doesn't end for want of memory, in any scene, each turn before the
/// last one that tells that the switch of a homing section closed tells of the section's trigger tick
/// (`TellTriggers`): the last reading of the first group of readings that show the switch pressed throughout, of
/// those that begin with the section's command as the board of its axis's endstop took it, from the section's start
/// on; whatever happens on the lines.
///
/// It is asked that each board's reports that readings triggered its trigger are read true (`AllSwitchesReadTrue`).
pub fn homing_runs_are_cut_at_trigger_ticks<F: Files, S: Sink>()
    ensures { (m : Machine) (s : Scene) (name : List ℕ) (files files' : F) (out out' : S) (kept kept' : Kept)
        (t : Told Run) → (r : RunsOver F.Files S.Sink m s name files out kept t files' out' kept') → IsValidMachine m →
        HaveShortDictionaries m → (text : List ℕ) → F.told files name ≡ Some text → kept.at ≡ 0 →
        (t.cause ≡ Cause.Memory → ⊥) → AllSwitchesReadTrue m s r.runs.0 (r.runs.1 ++ r.runs.2 ∷ []) →
        ∥ ((made : IsMade m s r.runs.0 r.runs.1) × (made.plans.seen.text ≡ text)
        × TellTriggers m s made.plans.seen r.runs.0 r.runs.1 r.runs.2) ∥₁ }
{}

/// The law of set-ups: each board of a run in a scene without entries takes the set-up of each homing section in time
/// (`AllTakeInTime`), where units of moves that are late are sent by four turns behind their section's end.
pub fn clear_runs_take_set_ups_in_time<F: Files, S: Sink>()
    ensures { (m : Machine) (s : Scene) (name : List ℕ) (files files' : F) (out out' : S) (kept kept' : Kept)
        (t : Told Run) → (r : RunsOver F.Files S.Sink m s name files out kept t files' out' kept') → IsValidMachine m →
        HaveShortDictionaries m → (text : List ℕ) →
        (t.cause ≡ Cause.Memory → ⊥) → s.entries ≡ [] → SendsOut m text r.runs.0 →
        AllTakeInTime m s text r.runs.0 (r.runs.1 ++ r.runs.2 ∷ []) }
{}

/// The law of first ticks: where moreover each board takes the set-up of each homing section in time
/// (`AllTakeInTime`), each of those turns tells of the first tick, from the section's start on by the clock
/// lines that the planner was told, at which four readings in a row show its switch pressed (`TellFirst`).
pub fn homing_runs_are_cut_at_first_ticks<F: Files, S: Sink>()
    ensures { (m : Machine) (s : Scene) (name : List ℕ) (files files' : F) (out out' : S) (kept kept' : Kept)
        (t : Told Run) → (r : RunsOver F.Files S.Sink m s name files out kept t files' out' kept') → IsValidMachine m →
        HaveShortDictionaries m → (text : List ℕ) → F.told files name ≡ Some text → kept.at ≡ 0 →
        (t.cause ≡ Cause.Memory → ⊥) → AllSwitchesReadTrue m s r.runs.0 (r.runs.1 ++ r.runs.2 ∷ []) →
        AllTakeInTime m s text r.runs.0 (r.runs.1 ++ r.runs.2 ∷ []) →
        ∥ ((made : IsMade m s r.runs.0 r.runs.1) × (made.plans.seen.text ≡ text)
        × TellFirst m s made.plans.seen [] r.runs.1) ∥₁ }
{}
