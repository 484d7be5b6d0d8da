//! The limits that the lines of a whole run keep, as laws.

ghost use Rattle.std.specs.Prelude.{◌≡◌, ◌≢◌, ◌++◌, ◌∷◌, ℕ, List, [], Some};
ghost use Rattle.gcode_program.specs.Programs.{program_sections};
ghost use Rattle.plan_types.specs.declared.machine.Machine.{Machine};
ghost use Rattle.plan_types.specs.Machines.{IsValidMachine};
ghost use Rattle.wire_scene.specs.declared.scene.Scene.{Scene};
ghost use Rattle.host_reactor.specs.Reactor.{Run};
ghost use Rattle.session_lanes.specs.declared.near.Told.{Told};
ghost use Rattle.session_work.specs.Rows.{gather};
ghost use Rattle.session_run.specs.declared.tell.Kept.{Kept};
ghost use Rattle.session_run.specs.Runs.{RunsOver};
ghost use Rattle.laws_run.specs.run_ends.Ends.{GoesThrough};
ghost use Rattle.laws_run.specs.run_limits.Limits.{AreLow};

use io_core::{Files, Sink};

/// The law of limits: in whatever threads a run went, of moves or homing, of a text that has sections and
/// that it went through, and whatever the links of its boards hold, the lines of all of the reactor's turns
/// keep the limits of a run: no section starts too late for the boards' ticks, each board tells a tick that
/// it may have by then, and the numbers of what was read are those of a file's first 2^30 bytes.
pub fn runs_keep_limits<F: Files, S: Sink>()
    ensures { (m : Machine) (s : Scene) (name : List ℕ) (files files' : F) (out out' : S) (kept kept' : Kept)
        (t : Told Run) → (r : RunsOver F.Files S.Sink m s name files out kept t files' out' kept') → IsValidMachine m →
        (text : List ℕ) → F.told files name ≡ Some text → kept.at ≡ 0 → program_sections m text ≢ [] →
        GoesThrough t.cause → ∥ AreLow (gather (λ t. t.lines) (r.runs.1 ++ r.runs.2 ∷ [])) ∥₁ }
{}
