//! In which turn of the reactor the first section of a whole run starts, and in which its homing sections end, as laws.

ghost use Rattle.std.specs.Prelude.{◌≡◌, ◌≢◌, ◌++◌, ◌∷◌, ℕ, List, Some, length, take};
ghost use Rattle.plan_types.specs.declared.machine.Machine.{Machine};
ghost use Rattle.plan_types.specs.declared.plan.SectionKind.TheVariants.{Home};
ghost use Rattle.plan_types.specs.Machines.{IsValidMachine};
ghost use Rattle.wire_scene.specs.declared.scene.Scene.{Scene};
ghost use Rattle.host_reactor.specs.Reactor.{Run};
ghost use Rattle.motion_work.specs.Homes.{no_end};
ghost use Rattle.motion_work.specs.Seen.{Started};
ghost use Rattle.motion_work.specs.Told.{Told as Heard};
ghost use Rattle.session_lanes.specs.declared.near.Told.{Told};
ghost use Rattle.session_work.specs.declared.table.MotionTurn.{MotionTurn};
ghost use Rattle.session_run.specs.declared.tell.Kept.{Kept};
ghost use Rattle.session_run.specs.Runs.{RunsOver};
ghost use Rattle.laws_board.specs.plans.Planned.{Plans};
ghost use Rattle.laws_run.specs.home_headline.Cuts.{TellEnds};
ghost use Rattle.laws_run.specs.run_turns.Ends.{EndsWithAnswer};
ghost use Rattle.laws_run.specs.run_turns.Starts.{StartsBehindConnecting};

use io_core::{Files, Sink};

/// The law of the first start: in whatever threads a run went, and whatever ended it, where the first turns
/// of its planner know the boards' clock lines, connecting ended in a turn of the reactor; the first section
/// starts 260 turns behind that turn, but not before turn 1,260, and as many turns later as the dwells before
/// it have milliseconds.
pub fn first_sections_start_behind_connecting<F: Files, S: Sink>()
    ensures { (m : Machine) (s : Scene) (name : List ℕ) (files files' : F) (out out' : S) (kept kept' : Kept)
        (t : Told Run) → (r : RunsOver F.Files S.Sink m s name files out kept t files' out' kept') → IsValidMachine m →
        (front later : List MotionTurn) → r.runs.0 ≡ front ++ later → (p : Plans m (length m.boards) front) →
        (heard : Heard) → p.seen.told ≡ Some heard →
        StartsBehindConnecting m s.switches r.runs.1 heard.first p.seen.begun }
{}

/// The law of ends: in whatever threads a run went, and whatever ended it, each homing section that the first
/// turns of its planner begun, and whose end they know, ended in the turn of the reactor in which its group
/// answered that its switch closed; and that turn's line of a switch is the section's. And of the turns of
/// the reactor whose words the planner heard, before it stopped, each tells of a switch exactly where a
/// homing section ended in it (`TellEnds`).
pub fn homing_sections_end_with_their_answers<F: Files, S: Sink>()
    ensures ends { (m : Machine) (s : Scene) (name : List ℕ) (files files' : F) (out out' : S) (kept kept' : Kept)
        (t : Told Run) → (r : RunsOver F.Files S.Sink m s name files out kept t files' out' kept') →
        (front later : List MotionTurn) → r.runs.0 ≡ front ++ later → (p : Plans m (length m.boards) front) →
        (past : List Started) (x : Started) (others : List Started) (axis : ℕ) → p.seen.begun ≡ past ++ x ∷ others →
        x.section.kind ≡ Home axis → x.end ≢ no_end → EndsWithAnswer m s.switches r.runs.1 (length past) axis x }
    ensures cuts { (m : Machine) (s : Scene) (name : List ℕ) (files files' : F) (out out' : S) (kept kept' : Kept)
        (t : Told Run) → (r : RunsOver F.Files S.Sink m s name files out kept t files' out' kept') →
        (front later : List MotionTurn) → r.runs.0 ≡ front ++ later → (p : Plans m (length m.boards) front) →
        TellEnds m s.switches p.seen.begun 0 (take (length (p.made ++ p.last)) r.runs.1) }
{}
