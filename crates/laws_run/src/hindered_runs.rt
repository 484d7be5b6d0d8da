//! What a run that ends as a board expired tells of its links, in any scene, as a law.

ghost use Rattle.std.specs.Prelude.{◌≡◌, ◌++◌, ◌∷◌, ℕ, List, [], Some};
ghost use Rattle.plan_types.specs.declared.machine.Machine.{Machine};
ghost use Rattle.plan_types.specs.Machines.{IsValidMachine};
ghost use Rattle.wire_scene.specs.declared.scene.Scene.{Scene};
ghost use Rattle.host_reactor.specs.Reactor.{Run};
ghost use Rattle.laws_board.specs.causes.Short.{HaveShortDictionaries};
ghost use Rattle.session_lanes.specs.declared.near.Told.{Told};
ghost use Rattle.session_run.specs.declared.tell.Kept.{Kept};
ghost use Rattle.session_run.specs.Runs.{RunsOver};
ghost use Rattle.laws_run.specs.hindered_runs.Hindered.{HasHinderedLink};
ghost use Rattle.laws_run.specs.home_headline.Near.{AllReadAsTold, AllTakeNear};

use io_core::{Files, Sink};
use plan_types::Cause;

/// The law of hindered links: in whatever threads a run went that ends as a board expired, in any scene, the
/// board's trigger stood expired since the tick that was told as some of its turns ended; and by each of
/// these the link of a board of the homing section that was under way was hindered, in a turn from 252 turns
/// before the section's start on. It was so in one of these or in one of the 37 turns before it, where the
/// section's boards took its set-up in time and the board's own trigger could still trigger 12 turns before it
/// (`HasHinderedLink` has all that it takes). What the law takes is that each board takes all near, and that what
/// boards tell of their triggers is read as what it told (`AllReadAsTold`).
pub fn runs_expire_where_links_are_hindered<F: Files, S: Sink>()
    ensures { (m : Machine) (s : Scene) (name : List ℕ) (files files' : F) (out out' : S) (kept kept' : Kept)
        (t : Told Run) → (r : RunsOver F.Files S.Sink m s name files out kept t files' out' kept') → IsValidMachine m →
        HaveShortDictionaries m → (text : List ℕ) → F.told files name ≡ Some text → kept.at ≡ 0 → (board turn : ℕ) →
        t.cause ≡ Cause.Expired board turn → AllTakeNear m s text r.runs.0 (r.runs.1 ++ r.runs.2 ∷ []) →
        AllReadAsTold m s r.runs.0 r.runs.1 r.runs.2 → ∥ HasHinderedLink m s board turn r.runs.0 r.runs.1 r.runs.2 ∥₁ }
{}
