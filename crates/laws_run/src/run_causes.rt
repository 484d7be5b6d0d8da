//! Why a whole run ends, as laws: for a board that gives no answer, and for one whose clock line is too old.

ghost use Rattle.std.specs.Prelude.{◌≡◌, ◌<◌, ℕ, List, Some};
ghost use Rattle.plan_types.specs.declared.machine.Machine.{Machine};
ghost use Rattle.plan_types.specs.Machines.{IsValidMachine};
ghost use Rattle.wire_scene.specs.declared.scene.Scene.{Scene};
ghost use Rattle.host_reactor.specs.Reactor.{Run};
ghost use Rattle.session_lanes.specs.declared.near.Told.{Told};
ghost use Rattle.session_run.specs.declared.tell.Kept.{Kept};
ghost use Rattle.session_run.specs.Runs.{RunsOver};
ghost use Rattle.laws_run.specs.run_causes.Unanswered.{GaveNoAnswer, IsStaleSince};

use io_core::{Files, Sink};
use plan_types::Cause;

/// The law of boards that give no answer: in whatever threads a run went, in any scene, where it ends since a
/// board gave no answer while it was connected, eight askings of this board in a row or more, from the turn
/// on that is told, were unanswered, and each was hindered on its link.
pub fn runs_end_for_boards_that_give_no_answer<F: Files, S: Sink>()
    ensures { (m : Machine) (s : Scene) (name : List ℕ) (files files' : F) (out out' : S) (kept kept' : Kept)
        (t : Told Run) → (r : RunsOver F.Files S.Sink m s name files out kept t files' out' kept') → IsValidMachine m →
        (text : List ℕ) → F.told files name ≡ Some text → kept.at ≡ 0 → (board turn : ℕ) →
        t.cause ≡ Cause.Connect board turn → ∥ GaveNoAnswer m s board turn r.runs.0 r.runs.1 r.runs.2 ∥₁ }
{}

/// The law of stale clocks: in whatever threads a run went, in any scene, where it ends since a board's clock
/// line is too old, 200 askings of this board in a row or more, from the turn on that is told, were
/// unanswered, and each was hindered on its link.
pub fn runs_end_for_stale_clocks<F: Files, S: Sink>()
    ensures { (m : Machine) (s : Scene) (name : List ℕ) (files files' : F) (out out' : S) (kept kept' : Kept)
        (t : Told Run) → (r : RunsOver F.Files S.Sink m s name files out kept t files' out' kept') → IsValidMachine m →
        (board turn : ℕ) → t.cause ≡ Cause.Stale board turn → IsStaleSince m s board turn r.runs.0 r.runs.1 r.runs.2 }
{}
