//! Which steps came too late where a whole run ends for a late board, and which shutdowns its boards tell of, as laws.

ghost use Rattle.std.specs.Prelude.{◌≡◌, ◌⊎◌, ◌∷◌, ◌++◌, ℕ, List, [], Some, length};
ghost use Rattle.plan_types.specs.declared.machine.Machine.{Machine};
ghost use Rattle.plan_types.specs.Machines.{IsValidMachine};
ghost use Rattle.wire_scene.specs.declared.scene.Scene.{Scene};
ghost use Rattle.host_reactor.specs.Reactor.{Run};
ghost use Rattle.session_lanes.specs.declared.near.Told.{Told};
ghost use Rattle.session_work.specs.declared.table.MotionTurn.{MotionTurn};
ghost use Rattle.session_work.specs.declared.table.ReactorTurn.{ReactorTurn};
ghost use Rattle.session_run.specs.declared.tell.Kept.{Kept};
ghost use Rattle.session_run.specs.Runs.{RunsOver};
ghost use Rattle.laws_board.specs.causes.Short.{HaveShortDictionaries};
ghost use Rattle.motion_work.specs.Boards.{parts_on};
ghost use Rattle.motion_work.specs.Told.{Told as Heard};
ghost use Rattle.laws_board.specs.sections.Late.{IsLateUnit};
ghost use Rattle.laws_run.specs.run_headline.Made.{IsMade};
ghost use Rattle.laws_run.specs.home_headline.Near.{AllKeepUp};
ghost use Rattle.laws_run.specs.home_headline.Little.{SendsOut};
ghost use Rattle.laws_run.specs.run_lates.Late.{AllMayTell, ComesLateIn, HasFewUnits, HasLateUnitIn};

use io_core::{Files, Sink};
use plan_types::Cause;

/// The law of late boards: in whatever threads a run went, in any scene and of any text, where it ends since
/// steps came too late to a board, this board ran up to the last turn of its link, and shut down as this turn
/// began, at the tick that is told as the arrival: it took steps of which the first one was due before, at
/// the tick that is told, while none of their stepper pended. The spoiled turns and the spill that are told
/// are those of the first unit of the busy stretch with this first tick for which they are more than the lead
/// together, and 0 where there is none.
pub fn late_runs_tell_of_steps_that_came_late<F: Files, S: Sink>()
    ensures { (m : Machine) (s : Scene) (name : List ℕ) (files files' : F) (out out' : S) (kept kept' : Kept)
        (t : Told Run) → (r : RunsOver F.Files S.Sink m s name files out kept t files' out' kept') → IsValidMachine m →
        (board first arrival spoiled spill : ℕ) → t.cause ≡ Cause.Late board first arrival spoiled spill →
        ComesLateIn m s board first arrival spoiled spill r.runs.0 r.runs.1 r.runs.2 }
{}

/// The law of late units: in whatever threads a run went, in any scene, where it ends since steps came too
/// late to a board, a unit of one of the sections that were begun has the first tick that is told
/// (`IsLateUnit`), where each board keeps up (`AllKeepUp`). The spoiled turns that are told are those of the
/// busy stretch up to the turn in which such a unit is due, and the spill is its own; together they are more
/// than the lead (`HasLateUnitIn`). This asks as well that units of moves are sent by four turns behind their
/// section's end (`SendsOut`), or that the units of each turn of this board have at most 210 bytes
/// (`HasFewUnits`).
pub fn late_runs_tell_of_their_units<F: Files, S: Sink>()
    ensures { (m : Machine) (s : Scene) (name : List ℕ) (files files' : F) (out out' : S) (kept kept' : Kept)
        (t : Told Run) → (r : RunsOver F.Files S.Sink m s name files out kept t files' out' kept') → IsValidMachine m →
        HaveShortDictionaries m → (text : List ℕ) → F.told files name ≡ Some text → kept.at ≡ 0 →
        (board first arrival spoiled spill : ℕ) → t.cause ≡ Cause.Late board first arrival spoiled spill →
        AllKeepUp m s text r.runs.0 (r.runs.1 ++ r.runs.2 ∷ []) →
        ∥ ((made : IsMade m s r.runs.0 r.runs.1) × (made.plans.seen.text ≡ text)
        × (c : ComesLateIn m s board first arrival spoiled spill r.runs.0 r.runs.1 r.runs.2)
        × ((heard : Heard) × (made.plans.seen.told ≡ Some heard)
        × IsLateUnit (parts_on m heard.clocks made.plans.seen.begun board) arrival first
        × (SendsOut m text r.runs.0 ⊎ HasFewUnits m s board first arrival spoiled spill r.runs.0 r.runs.1 r.runs.2 c →
        HasLateUnitIn m s board first arrival spoiled spill r.runs.0 r.runs.1 r.runs.2 heard.clocks
        made.plans.seen.begun c))) ∥₁ }
{}

/// The law of shutdowns: in whatever threads a run went, in any scene, each state that came to the reactor
/// tells of no shutdown, or of one for steps that came too late or for the order to stop, where each board
/// keeps up (`AllKeepUp`). So no queue is ever full, no clock is set while steps pend, and no steps have no
/// count. It holds in all turns of a run that does not end for want of memory, and in those before the last
/// one of any run, by what the planner made up to then.
pub fn boards_of_runs_end_for_two_reasons<F: Files, S: Sink>()
    ensures whole { (m : Machine) (s : Scene) (name : List ℕ) (files files' : F) (out out' : S) (kept kept' : Kept)
        (t : Told Run) → (r : RunsOver F.Files S.Sink m s name files out kept t files' out' kept') → IsValidMachine m →
        HaveShortDictionaries m → (text : List ℕ) → F.told files name ≡ Some text → kept.at ≡ 0 →
        (t.cause ≡ Cause.Memory → ⊥) → AllKeepUp m s text r.runs.0 (r.runs.1 ++ r.runs.2 ∷ []) →
        ∥ AllMayTell (r.runs.1 ++ r.runs.2 ∷ []) ∥₁ }
    ensures before { (m : Machine) (s : Scene) (name : List ℕ) (files files' : F) (out out' : S) (kept kept' : Kept)
        (t : Told Run) → (r : RunsOver F.Files S.Sink m s name files out kept t files' out' kept') → IsValidMachine m →
        HaveShortDictionaries m → (text : List ℕ) → F.told files name ≡ Some text → kept.at ≡ 0 →
        (turns : List ReactorTurn) (last : ReactorTurn) → r.runs.1 ≡ turns ++ last ∷ [] →
        ∥ ((front : List MotionTurn) × (later : List MotionTurn) × (r.runs.0 ≡ front ++ later)
        × (length front ≡ length turns)
        × (AllKeepUp m s text front (turns ++ last ∷ []) → AllMayTell (turns ++ last ∷ []))) ∥₁ }
{}
