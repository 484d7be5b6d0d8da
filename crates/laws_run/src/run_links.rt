//! What the lanes of a whole run's boards carried, as laws.

ghost use Rattle.std.specs.Prelude.{◌≡◌, ℕ, List, Some};
ghost use Rattle.plan_types.specs.declared.machine.Machine.{Machine};
ghost use Rattle.wire_scene.specs.declared.scene.Scene.{Scene};
ghost use Rattle.host_reactor.specs.Reactor.{Run};
ghost use Rattle.session_lanes.specs.declared.near.Told.{Told};
ghost use Rattle.session_run.specs.declared.tell.Kept.{Kept};
ghost use Rattle.session_run.specs.Runs.{RunsOver};
ghost use Rattle.laws_run.specs.run_links.Links.{AreLinksIn};

use io_core::{Files, Sink};
use plan_types::Cause;

/// The law of links: in whatever threads a run went, and whatever ended it, the lists that are handed out of
/// each board's lanes are these. Batch k that was put has the units of turn k, of the sections of the text
/// that were begun. The controls that were put are those that the reactor orders for the states that it took,
/// and the states are those of the board's turns over the controls and batches that it took. What was taken
/// is the first of what was put. And the lines of the board's pulses are those of the states that the reactor
/// took.
pub fn links_carry_the_run<F: Files, S: Sink>()
    ensures { (m : Machine) (s : Scene) (name : List ℕ) (files files' : F) (out out' : S) (kept kept' : Kept)
        (t : Told Run) → (r : RunsOver F.Files S.Sink m s name files out kept t files' out' kept') → (text : List ℕ) →
        F.told files name ≡ Some text → kept.at ≡ 0 →
        ∥ AreLinksIn m s text t.cause r.runs.0 r.runs.1 r.runs.2 t.links.items ∥₁ }
{}
