//! The law of what a replay prints.

ghost use Rattle.std.specs.Prelude.{◌≡◌, ◌++◌, [], ℕ, List};
ghost use Rattle.board_sim.specs.Fair.{IsCut};
ghost use Rattle.board_sim.specs.Rig.{new_rig};
ghost use Rattle.board_world.specs.Units.{pulse_ticks, ticks_of};
ghost use Rattle.frame_dump.specs.Replays.{IsReplay};
ghost use Rattle.frame_dump.specs.declared.trace.TraceTurn.{TraceTurn};
ghost use Rattle.plan_types.specs.declared.machine.BoardDef.{BoardDef};
ghost use Rattle.plan_types.specs.declared.plan.BoardState.{BoardState};
ghost use Rattle.plan_types.specs.declared.plan.Pulse.{Pulse};
ghost use Rattle.laws_report.specs.reports.Replayed.{MeantIn, TurnsAreFair, TurnsFind, all_meant, steps_meant, turns_given};

/// The law of replays: where the units of a trace are fair, each when it is taken, the pulses that a replay
/// prints of each stepper are the first of the steps that are meant, each at exactly its tick and in its
/// direction; of a stepper that was halted, the rest of those before its next reset is left out. Where each
/// unit is taken after its stepper was made and while no trigger halted that, they are at the first of its
/// units' ticks.
pub fn replayed_pulses_are_meant()
    ensures ticks { (b : BoardDef) (turns : List TraceTurn) (pulses : List Pulse) (state : BoardState)
        (ms : List MeantIn) → (r : IsReplay b turns pulses state) → r.given ≡ turns_given ms →
        TurnsAreFair b (new_rig b []) ms → TurnsFind b (new_rig b []) ms → (oid : ℕ) →
        (rest : List ℕ) × (pulse_ticks oid pulses ++ rest ≡ ticks_of oid (all_meant ms)) }
    ensures cut { (b : BoardDef) (turns : List TraceTurn) (pulses : List Pulse) (state : BoardState)
        (ms : List MeantIn) → (r : IsReplay b turns pulses state) → r.given ≡ turns_given ms →
        TurnsAreFair b (new_rig b []) ms → IsCut pulses (steps_meant b (new_rig b []) [] [] ms) }
{}
