//! A run that ends as no switch closed, in any scene, as laws.

ghost use Rattle.std.specs.Prelude.{◌≡◌, ◌∷◌, ◌++◌, ℕ, List, [], Some};
ghost use Rattle.plan_types.specs.declared.machine.Machine.{Machine};
ghost use Rattle.plan_types.specs.Machines.{IsValidMachine};
ghost use Rattle.wire_scene.specs.declared.scene.Scene.{Scene};
ghost use Rattle.host_reactor.specs.Reactor.{Run};
ghost use Rattle.laws_board.specs.causes.Short.{HaveShortDictionaries};
ghost use Rattle.session_lanes.specs.declared.near.Told.{Told};
ghost use Rattle.session_run.specs.declared.tell.Kept.{Kept};
ghost use Rattle.session_run.specs.Runs.{RunsOver};
ghost use Rattle.laws_run.specs.run_headline.Made.{IsMade};
ghost use Rattle.laws_run.specs.missed_switches.Missed.{Misses, NoneShut};
ghost use Rattle.laws_run.specs.home_headline.Near.{AllKeepUp, AllReadAsTold};

use io_core::{Files, Sink};
use plan_types::Cause;

/// The law of missed switches in any scene: in whatever threads a run went that ends since no switch closed in a
/// section, that section homes, and misses its switch (`IsMissedIn`): its endstop's board's trigger can't trigger since
/// a tick that isn't before that of the turn behind its last planned step, for another reason than readings; and of the
/// readings that begin with the section's command, as the board took it, the trigger tick isn't before it. So a run in
/// which that is before the tick of this turn doesn't end so.
///
/// It is asked that each board's reports that its trigger has triggered are read as what they told (`AllReadAsTold`),
/// and that no board tells of a shutdown in the last turn.
pub fn runs_end_where_a_switch_was_missed<F: Files, S: Sink>()
    ensures { (m : Machine) (s : Scene) (name : List ℕ) (files files' : F) (out out' : S) (kept kept' : Kept)
        (t : Told Run) → (r : RunsOver F.Files S.Sink m s name files out kept t files' out' kept') → IsValidMachine m →
        HaveShortDictionaries m → (text : List ℕ) → F.told files name ≡ Some text → kept.at ≡ 0 →
        AllReadAsTold m s r.runs.0 r.runs.1 r.runs.2 → NoneShut m r.runs.2 →
        ∥ ((made : IsMade m s r.runs.0 r.runs.1) × (made.plans.seen.text ≡ text)
        × ((section : ℕ) → t.cause ≡ Cause.NoSwitch section →
        Misses m s made.plans.seen r.runs.0 r.runs.1 r.runs.2 section)) ∥₁ }
{}

/// The law of boards that run to such an end: where each board keeps up (`AllKeepUp`), no board tells of
/// a shutdown in the last turn of a run that ends since no switch closed.
pub fn unswitched_runs_shut_no_board<F: Files, S: Sink>()
    ensures { (m : Machine) (s : Scene) (name : List ℕ) (files files' : F) (out out' : S) (kept kept' : Kept)
        (t : Told Run) → (r : RunsOver F.Files S.Sink m s name files out kept t files' out' kept') → IsValidMachine m →
        HaveShortDictionaries m → (text : List ℕ) → F.told files name ≡ Some text → kept.at ≡ 0 → (section : ℕ) →
        t.cause ≡ Cause.NoSwitch section → AllKeepUp m s text r.runs.0 (r.runs.1 ++ r.runs.2 ∷ []) →
        ∥ NoneShut m r.runs.2 ∥₁ }
{}
