//! What the links of a run in a scene without entries hold, as laws.

ghost use Rattle.std.specs.Prelude.{◌≡◌, ℕ, List, []};
ghost use Rattle.plan_types.specs.declared.levels.Level.{Level};
ghost use Rattle.plan_types.specs.declared.machine.Machine.{Machine};
ghost use Rattle.plan_types.specs.Machines.{IsValidMachine, board_at};
ghost use Rattle.wire_scene.specs.declared.scene.Entry.{Entry};
ghost use Rattle.wire_scene.specs.declared.scene.Scene.{Scene};
ghost use Rattle.wire_scene.specs.declared.scene.Switch.{Switch};
ghost use Rattle.link_work.specs.Stands.{first_state};
ghost use Rattle.host_reactor.specs.declared.ordered.Phase.TheVariants.{Stopping};
ghost use Rattle.host_reactor.specs.Runs.{Came, known_by};
ghost use Rattle.laws_board.specs.turns.Turns.{BoardTurn};
ghost use Rattle.laws_board.specs.clocks.Runs.{IsInRun, UnitsFit};
ghost use Rattle.laws_board.specs.causes.Causes.{IsHindered};
ghost use Rattle.session_work.specs.declared.table.MotionTurn.{MotionTurn};
ghost use Rattle.session_work.specs.declared.table.ReactorTurn.{ReactorTurn};
ghost use Rattle.laws_run.specs.run_headline.Timely.{HoldsNothingLong};

use plan_types::Cause;

/// The law of clear links: in a scene without entries no asking of a board is hindered, in any turn of a run
/// that is not about to stop, as units of at most 210 bytes a turn come beside the controls: at the end of
/// each turn the link holds nothing, and nothing waits or is outstanding.
pub fn clear_links_hinder_nothing()
    ensures { (m : Machine) (switches : List Switch) (pins : List (List Level)) (entries : List Entry) (b : ℕ)
        (came : List Came) (turns : List BoardTurn) (k : ℕ) → IsValidMachine m →
        IsInRun m switches pins entries b came turns → entries ≡ [] →
        ((line : ℕ) → (known_by m switches came).phase ≡ Stopping line → ⊥) → UnitsFit turns →
        IsHindered (first_state (board_at m b) pins b entries) turns k → ⊥ }
{}

/// The law of links that hold nothing long: in a scene without entries no line holds a command for half a
/// round of the 32-bit clock, in any turns of a run.
pub fn clear_links_hold_nothing_long()
    ensures { (m : Machine) (s : Scene) (text : List ℕ) (planned : List MotionTurn) (turns : List ReactorTurn) →
        s.entries ≡ [] → HoldsNothingLong m s text planned turns }
{}
