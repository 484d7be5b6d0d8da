//! What boards tell of their switches over the turns of a run.

ghost use Rattle.std.specs.Prelude.{ℕ, List};
ghost use Rattle.plan_types.specs.declared.levels.Level.{Level};
ghost use Rattle.plan_types.specs.declared.machine.Machine.{Machine};
ghost use Rattle.wire_scene.specs.declared.scene.Entry.{Entry};
ghost use Rattle.wire_scene.specs.declared.scene.Switch.{Switch};
ghost use Rattle.host_reactor.specs.Runs.{Came};
ghost use Rattle.laws_board.specs.turns.Turns.{BoardTurn};
ghost use Rattle.laws_board.specs.clocks.Runs.{IsInRun};
ghost use Rattle.laws_homing.specs.switch_runs.Reading.{AllTellTrue, BringFit};
ghost use Rattle.laws_homing.specs.switch_runs.Runs.{IsEndstop, IsReadInRun};

/// The law of homing commands: of the commands that come to a board in a run none triggers a trigger by the
/// reason of readings, and those that begin readings begin them of the endstop of the axis of a homing
/// section that is known, from its start on.
pub fn runs_read_the_endstops_that_home()
    ensures { (m : Machine) (switches : List Switch) (pins : List (List Level)) (entries : List Entry) (b : ℕ)
        (came : List Came) (turns : List BoardTurn) → IsInRun m switches pins entries b came turns →
        BringFit (IsEndstop m b) (λ now. IsReadInRun m switches pins b came) pins turns }
{}

/// The law of readings: whatever answer of a board comes to the host that tells that readings triggered its
/// trigger, it tells of a tick at which the board's readings of the endstop of an axis that homes are
/// complete (`IsReadInRun`), whatever happens on the lines.
pub fn homing_boards_tell_of_complete_readings()
    ensures { (m : Machine) (switches : List Switch) (pins : List (List Level)) (entries : List Entry) (b : ℕ)
        (came : List Came) (turns : List BoardTurn) → IsInRun m switches pins entries b came turns →
        AllTellTrue (IsReadInRun m switches pins b came) turns }
{}
