//! What the clock lines are that the boards have in a whole run, and when they are exact, as laws.

ghost use Rattle.std.specs.Prelude.{◌≡◌, ◌⊎◌, ◌+◌, ◌++◌, ◌∷◌, ℕ, List, [], Some, length};
ghost use Rattle.plan_types.specs.declared.machine.Machine.{Machine};
ghost use Rattle.plan_types.specs.Machines.{IsValidMachine};
ghost use Rattle.wire_scene.specs.declared.scene.Scene.{Scene};
ghost use Rattle.host_reactor.specs.Reactor.{Run};
ghost use Rattle.motion_work.specs.Told.{Told as Heard};
ghost use Rattle.session_lanes.specs.declared.near.Told.{Told};
ghost use Rattle.session_work.specs.Rows.{gather};
ghost use Rattle.session_run.specs.declared.tell.Kept.{Kept};
ghost use Rattle.session_run.specs.Runs.{RunsOver};
ghost use Rattle.laws_run.specs.run_clocks.First.{AreFirstTaken};
ghost use Rattle.laws_run.specs.run_clocks.Printed.{TellKnownLines};
ghost use Rattle.laws_run.specs.run_ends.Boards.{boards_of};
ghost use Rattle.laws_run.specs.run_headline.Further.{TellFurther};
ghost use Rattle.laws_run.specs.run_headline.Made.{IsMade};
ghost use Rattle.laws_run.specs.run_headline.Timely.{AreSound, TellBoards};

use io_core::{Files, Sink};
use plan_types::Cause;

/// The law of first lines: in whatever threads a run went that does not end for want of memory, where its
/// planner knows the boards' clock lines, the first one of a board whose link nothing disturbed while
/// connecting is taken at once (`AreFirstTaken`): it is that of a sample which was got in the turn in which
/// it was sent.
pub fn first_lines_are_taken_at_once<F: Files, S: Sink>()
    ensures { (m : Machine) (s : Scene) (name : List ℕ) (files files' : F) (out out' : S) (kept kept' : Kept)
        (t : Told Run) → (r : RunsOver F.Files S.Sink m s name files out kept t files' out' kept') → IsValidMachine m →
        (t.cause ≡ Cause.Memory → ⊥) → (made : IsMade m s r.runs.0 r.runs.1) → (heard : Heard) →
        made.plans.seen.told ≡ Some heard → AreFirstTaken m s r.runs.0 r.runs.1 r.runs.2 heard.clocks }
{}

/// The law of told lines: in whatever threads a run went that does not end for want of memory, where its
/// planner knows the boards' clock lines, they are sound (`AreSound`): each is that of a sample of its
/// board's clock, and as near it as that. The `board` lines of the report are of the first ones
/// (`TellBoards`), and its `line` lines of further ones, in order (`TellFurther`). No section need start.
pub fn told_clock_lines_are_sound<F: Files, S: Sink>()
    ensures { (m : Machine) (s : Scene) (name : List ℕ) (files files' : F) (out out' : S) (kept kept' : Kept)
        (t : Told Run) → (r : RunsOver F.Files S.Sink m s name files out kept t files' out' kept') → IsValidMachine m →
        (t.cause ≡ Cause.Memory → ⊥) → (made : IsMade m s r.runs.0 r.runs.1) → (heard : Heard) →
        made.plans.seen.told ≡ Some heard →
        AreSound m heard.clocks heard.first × TellBoards heard.clocks heard.first (r.runs.1 ++ r.runs.2 ∷ [])
        × TellFurther m heard.clocks (length r.runs.1 + 271) (gather (λ t. t.lines) (r.runs.1 ++ r.runs.2 ∷ [])) }
{}

/// The law of board lines: in whatever threads a run went that does not end for want of memory, and whether
/// or not its planner heard of it, the `board` lines of its report are none, or those of clock lines that
/// follow the boards' clocks, one for each board (`TellKnownLines`).
pub fn board_lines_follow_clocks<F: Files, S: Sink>()
    ensures { (m : Machine) (s : Scene) (name : List ℕ) (files files' : F) (out out' : S) (kept kept' : Kept)
        (t : Told Run) → (r : RunsOver F.Files S.Sink m s name files out kept t files' out' kept') → IsValidMachine m →
        (t.cause ≡ Cause.Memory → ⊥) →
        (boards_of (gather (λ t. t.lines) (r.runs.1 ++ r.runs.2 ∷ [])) ≡ [])
        ⊎ TellKnownLines m s.switches r.runs.1 (gather (λ t. t.lines) (r.runs.1 ++ r.runs.2 ∷ [])) }
{}
