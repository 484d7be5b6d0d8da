//! What a run in which axes home shows in a scene without entries, as laws.

ghost use Rattle.std.specs.Prelude.{◌≡◌, ◌⊎◌, ◌<◌, ◌++◌, ◌∷◌, ℕ, List, [], Some, length, pos};
ghost use Rattle.gcode_program.specs.Programs.{program_end, program_sections};
ghost use Rattle.plan_types.specs.declared.machine.Machine.{Machine};
ghost use Rattle.plan_types.specs.declared.plan.ReadStop.TheVariants.{Stop};
ghost use Rattle.plan_types.specs.Machines.{IsValidMachine, board_at};
ghost use Rattle.wire_scene.specs.declared.scene.Scene.{Scene};
ghost use Rattle.host_reactor.specs.Reactor.{Run};
ghost use Rattle.host_reactor.specs.Rows.{IsOwn};
ghost use Rattle.laws_board.specs.causes.Short.{HaveShortDictionaries};
ghost use Rattle.session_lanes.specs.declared.near.Told.{Told};
ghost use Rattle.session_work.specs.declared.table.MotionTurn.{MotionTurn};
ghost use Rattle.session_work.specs.declared.table.ReactorTurn.{ReactorTurn};
ghost use Rattle.session_run.specs.declared.tell.Kept.{Kept};
ghost use Rattle.session_run.specs.Runs.{RunsOver};
ghost use Rattle.laws_run.specs.run_ends.Ends.{GoesThrough};
ghost use Rattle.laws_run.specs.home_headline.Little.{SendsAllInTime, SendsNear};
ghost use Rattle.laws_run.specs.run_headline.Made.{IsMade};
ghost use Rattle.laws_run.specs.run_headline.Timely.{AllAreTimely, AreOfMoves};
ghost use Rattle.laws_run.specs.clear_homes.Closes.{AllClose, MissesSwitch};
ghost use Rattle.laws_run.specs.clear_homes.Expiry.{IsExpired};
ghost use Rattle.laws_run.specs.clear_homes.First.{IsFirstExpired, IsUnswitched};
ghost use Rattle.laws_run.specs.home_headline.Near.{AllTakeNear};
ghost use Rattle.laws_run.specs.clear_runs.Clear.{SendsAllSoon};
ghost use Rattle.laws_run.specs.home_wholes.Own.{AllSwitchesReadTrue, AllTakeInTime};

use io_core::{Files, Sink};
use plan_types::Cause;

/// The law of units that are sent soon: they are all sent in time; and where all boards' clocks are exact,
/// units that are sent in time are sent soon.
pub fn soon_sends_all_in_time()
    ensures soon { (m : Machine) (text : List ℕ) (planned : List MotionTurn) → SendsAllSoon m text planned →
        SendsAllInTime m text planned }
    ensures exact { (m : Machine) (text : List ℕ) (planned : List MotionTurn) →
        ((b : ℕ) → b < length m.boards → (board_at m b).drift ≡ pos 0) → SendsAllInTime m text planned →
        SendsAllSoon m text planned }
{}

/// The law of clear runs in which axes home: in whatever threads a run went, in a scene without entries, of a
/// text without an order to stop, whose units are all sent soon (`SendsAllSoon`), where it ends for a cause
/// of its own other than want of memory it went through, or an axis homed to its end and no switch closed: no
/// board is late, none gives no answer, and no board of a homing section hears nothing for too long.
pub fn clear_homing_runs_go_through<F: Files, S: Sink>()
    ensures { (m : Machine) (s : Scene) (name : List ℕ) (files files' : F) (out out' : S) (kept kept' : Kept)
        (t : Told Run) → (r : RunsOver F.Files S.Sink m s name files out kept t files' out' kept') → IsValidMachine m →
        HaveShortDictionaries m → (text : List ℕ) → F.told files name ≡ Some text → kept.at ≡ 0 → s.entries ≡ [] →
        IsOwn t.cause → (t.cause ≡ Cause.Memory → ⊥) → ((line : ℕ) → (program_end m text).stop ≡ Stop line → ⊥) →
        SendsAllSoon m text r.runs.0 → GoesThrough t.cause ⊎ ((section : ℕ) × (t.cause ≡ Cause.NoSwitch section)) }
{}

/// The law of missed switches: in whatever threads a run went, in a scene without entries, of a text without
/// an order to stop, whose units are all sent soon (`SendsAllSoon`), where it ends since no switch closed in
/// a section, that section homes, and its switch, by the levels of its pin and the section's readings from
/// its start on, triggers at no tick before that of the turn behind its last planned step (`MissesSwitch`).
pub fn clear_runs_miss_no_switch<F: Files, S: Sink>()
    ensures { (m : Machine) (s : Scene) (name : List ℕ) (files files' : F) (out out' : S) (kept kept' : Kept)
        (t : Told Run) → (r : RunsOver F.Files S.Sink m s name files out kept t files' out' kept') → IsValidMachine m →
        HaveShortDictionaries m → (text : List ℕ) → F.told files name ≡ Some text → kept.at ≡ 0 → s.entries ≡ [] →
        ((line : ℕ) → (program_end m text).stop ≡ Stop line → ⊥) → SendsAllSoon m text r.runs.0 →
        ∥ ((made : IsMade m s r.runs.0 r.runs.1) × (made.plans.seen.text ≡ text)
        × ((section : ℕ) → t.cause ≡ Cause.NoSwitch section → MissesSwitch m s made.plans.seen section)) ∥₁ }
{}

/// The law of clear runs whose switches close: such a run goes through, where each homing section that the
/// planner begun has its switch close before the tick of the turn behind its last planned step (`AllClose`),
/// and it ends for a cause of its own other than want of memory.
pub fn clear_runs_with_switches_go_through<F: Files, S: Sink>()
    ensures { (m : Machine) (s : Scene) (name : List ℕ) (files files' : F) (out out' : S) (kept kept' : Kept)
        (t : Told Run) → (r : RunsOver F.Files S.Sink m s name files out kept t files' out' kept') → IsValidMachine m →
        HaveShortDictionaries m → (text : List ℕ) → F.told files name ≡ Some text → kept.at ≡ 0 → s.entries ≡ [] →
        IsOwn t.cause → (t.cause ≡ Cause.Memory → ⊥) → ((line : ℕ) → (program_end m text).stop ≡ Stop line → ⊥) →
        SendsAllSoon m text r.runs.0 → AllClose m s text r.runs.0 → GoesThrough t.cause }
{}

/// The law of texts of moves: they have no homing sections, so that nothing is asked of their switches (`AllClose`).
/// So a clear run of such a text goes through.
pub fn texts_of_moves_close()
    ensures { (m : Machine) (s : Scene) (text : List ℕ) (planned : List MotionTurn) →
        AreOfMoves (program_sections m text) → AllClose m s text planned }
{}

/// The law of clear runs whose boards are timely: in whatever threads a run went, in a scene without entries,
/// in which each board is timely (`AllAreTimely`), each takes all near (`AllTakeNear`) and takes the set-up
/// of each homing section in time (`AllTakeInTime`), and each report that readings triggered a trigger is
/// read true (`AllSwitchesReadTrue`). So nothing is asked there of what boards report. It holds in all turns
/// of a run that does not end for want of memory, and that they take all near also in those before the last
/// one of any run, by what the planner made up to then. And each board is timely where the planner sends no
/// unit more than 10,700 turns late (`SendsNear`), as it does where it sends all in time.
pub fn clear_runs_take_near<F: Files, S: Sink>()
    ensures near { (m : Machine) (s : Scene) (name : List ℕ) (files files' : F) (out out' : S) (kept kept' : Kept)
        (t : Told Run) → (r : RunsOver F.Files S.Sink m s name files out kept t files' out' kept') → IsValidMachine m →
        HaveShortDictionaries m → (text : List ℕ) → (t.cause ≡ Cause.Memory → ⊥) → s.entries ≡ [] →
        AllAreTimely m s text r.runs.0 (r.runs.1 ++ r.runs.2 ∷ []) →
        AllTakeNear m s text r.runs.0 (r.runs.1 ++ r.runs.2 ∷ []) }
    ensures before { (m : Machine) (s : Scene) (name : List ℕ) (files files' : F) (out out' : S) (kept kept' : Kept)
        (t : Told Run) → (r : RunsOver F.Files S.Sink m s name files out kept t files' out' kept') → IsValidMachine m →
        HaveShortDictionaries m → (text : List ℕ) →
        (turns : List ReactorTurn) (last : ReactorTurn) → r.runs.1 ≡ turns ++ last ∷ [] →
        (front later : List MotionTurn) → r.runs.0 ≡ front ++ later → length front ≡ length turns → s.entries ≡ [] →
        AllAreTimely m s text front (turns ++ last ∷ []) → AllTakeNear m s text front (turns ++ last ∷ []) }
    ensures in_time { (m : Machine) (s : Scene) (name : List ℕ) (files files' : F) (out out' : S) (kept kept' : Kept)
        (t : Told Run) → (r : RunsOver F.Files S.Sink m s name files out kept t files' out' kept') → IsValidMachine m →
        HaveShortDictionaries m → (text : List ℕ) → (t.cause ≡ Cause.Memory → ⊥) → s.entries ≡ [] →
        AllAreTimely m s text r.runs.0 (r.runs.1 ++ r.runs.2 ∷ []) →
        AllTakeInTime m s text r.runs.0 (r.runs.1 ++ r.runs.2 ∷ []) }
    ensures switches { (m : Machine) (s : Scene) (name : List ℕ) (files files' : F) (out out' : S) (kept kept' : Kept)
        (t : Told Run) → (r : RunsOver F.Files S.Sink m s name files out kept t files' out' kept') → IsValidMachine m →
        HaveShortDictionaries m → (text : List ℕ) → F.told files name ≡ Some text → kept.at ≡ 0 →
        (t.cause ≡ Cause.Memory → ⊥) → s.entries ≡ [] → AllAreTimely m s text r.runs.0 (r.runs.1 ++ r.runs.2 ∷ []) →
        ∥ AllSwitchesReadTrue m s r.runs.0 (r.runs.1 ++ r.runs.2 ∷ []) ∥₁ }
    ensures timely { (m : Machine) (s : Scene) (name : List ℕ) (files files' : F) (out out' : S) (kept kept' : Kept)
        (t : Told Run) → (r : RunsOver F.Files S.Sink m s name files out kept t files' out' kept') → IsValidMachine m →
        HaveShortDictionaries m → (text : List ℕ) → (t.cause ≡ Cause.Memory → ⊥) → s.entries ≡ [] →
        SendsNear m text r.runs.0 → AllAreTimely m s text r.runs.0 (r.runs.1 ++ r.runs.2 ∷ []) }
    ensures timely_before { (m : Machine) (s : Scene) (name : List ℕ) (files files' : F) (out out' : S)
        (kept kept' : Kept) (t : Told Run) → (r : RunsOver F.Files S.Sink m s name files out kept t files' out' kept') →
        IsValidMachine m → HaveShortDictionaries m → (text : List ℕ) → (turns : List ReactorTurn) (last : ReactorTurn) →
        r.runs.1 ≡ turns ++ last ∷ [] → (front later : List MotionTurn) → r.runs.0 ≡ front ++ later →
        length front ≡ length turns → s.entries ≡ [] → SendsNear m text front →
        AllAreTimely m s text front (turns ++ last ∷ []) }
    ensures sent { (m : Machine) (text : List ℕ) (planned : List MotionTurn) →
        SendsAllInTime m text planned → SendsNear m text planned }
{}

/// The law of expired boards: in whatever threads a run went that ends as a board expired in a turn, the
/// board told so: in one of the reactor's turns a state of it came, of the turn in front of the homing
/// section's start or later, that tells of a trigger whose timeout passed, at a tick of this turn, which
/// isn't past the section's last one.
pub fn expired_boards_told_so<F: Files, S: Sink>()
    ensures { (m : Machine) (s : Scene) (name : List ℕ) (files files' : F) (out out' : S) (kept kept' : Kept)
        (t : Told Run) → (r : RunsOver F.Files S.Sink m s name files out kept t files' out' kept') → (board turn : ℕ) →
        t.cause ≡ Cause.Expired board turn → IsExpired m s.switches board turn r.runs.1 r.runs.2 }
{}

/// The law of the first board that expired: in whatever threads a run went that ends as a board expired in a
/// turn, by what the boards told in the homing section that was under way, its members all triggered, and of
/// those, in the group's order, whose timeouts passed in turns up to the section's last one the board is the
/// first, and its timeout passed in that turn.
pub fn runs_end_for_first_boards_that_expired<F: Files, S: Sink>()
    ensures { (m : Machine) (s : Scene) (name : List ℕ) (files files' : F) (out out' : S) (kept kept' : Kept)
        (t : Told Run) → (r : RunsOver F.Files S.Sink m s name files out kept t files' out' kept') → (board turn : ℕ) →
        t.cause ≡ Cause.Expired board turn → IsFirstExpired m s.switches board turn r.runs.1 r.runs.2 }
{}

/// The law of sections whose switch was not told: in whatever threads a run went that ends since no switch
/// closed in a section, by what the boards told in this homing section, which was under way, its members all
/// triggered, none since its timeout passed in a turn up to the section's last one, and the endstop's board
/// not by its readings.
pub fn runs_end_where_no_switch_was_told<F: Files, S: Sink>()
    ensures { (m : Machine) (s : Scene) (name : List ℕ) (files files' : F) (out out' : S) (kept kept' : Kept)
        (t : Told Run) → (r : RunsOver F.Files S.Sink m s name files out kept t files' out' kept') → (section : ℕ) →
        t.cause ≡ Cause.NoSwitch section → IsUnswitched m s.switches section r.runs.1 r.runs.2 }
{}
