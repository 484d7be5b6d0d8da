//! Homing groups and the boards whose triggers they tell.

ghost use Rattle.std.specs.Prelude.{◌≡◌, ℕ, ◌≤◌, ◌+◌, ◌++◌, ◌∷◌, List, Some, false};
ghost use Rattle.plan_types.specs.declared.plan.Line.{Line};
ghost use Rattle.msg_code.specs.declared.cmd.Cmd.TheVariants as cmd;
ghost use Rattle.board_sim.specs.Rig.{Rig, Slot, slot_at};
ghost use Rattle.board_sim.specs.RigRuns.{RigStep, Takes, all_made, rig_after_all, AreBehindSetUp, AllBefore};
ghost use Rattle.std.specs.List.{Contains};
ghost use Rattle.trigger_group.specs.declared.order.Member.{Member};
ghost use Rattle.trigger_group.specs.Group.{new_group};
ghost use Rattle.trigger_group.specs.Runs.{Report, all_sent, all_reports, CouldUpTo};
ghost use Rattle.laws_board.specs.groups.Homing.{tick_of, timed_and_bound, AreOfGroup, HasBoth, HasTriggeredIn};

/// The law of bound steppers: from the command on that binds it to a trigger a stepper makes no pulse at or
/// after the tick at which the trigger triggered, and none at all where that was before, whatever else comes,
/// but for a new start of the trigger or a new clock of the stepper.
pub fn bound_steppers_stop_with_their_trigger()
    ensures { (r : Rig) (steps : List RigStep) (stepper trigger : ℕ) (s : Slot) → HasBoth stepper trigger r →
        AreBehindSetUp stepper trigger steps →
        slot_at (rig_after_all (Takes (cmd.StepperStopOnTrigger stepper trigger) ∷ steps) r) trigger ≡ Some s →
        s.trigger.can ≡ false →
        AllBefore stepper s.trigger.tick (all_made (Takes (cmd.StepperStopOnTrigger stepper trigger) ∷ steps) r) }
{}

/// The law of groups: whatever reports come to a group, and whatever a board takes, where the timeouts of a
/// trigger on it are those that the group sent, each taken near its tick, a stepper that is bound to that
/// trigger behind the first of them makes no pulse at or after the tick of the turn behind the group's last
/// one; and where no report of some member says that it could trigger in a turn behind `u`, none at or after
/// the tick of the turn 25 behind `u`. So it makes none where some member's trigger triggered in turn `u`.
pub fn members_stop_in_time()
    ensures end { (ms : List Member) (start last turn : ℕ) (rss : List (List Report)) (line : Line) (r : Rig)
        (between behind : List RigStep) (stepper trigger c : ℕ) → HasBoth stepper trigger r →
        AreBehindSetUp stepper trigger (between ++ behind) →
        AreOfGroup line trigger (all_sent turn rss (new_group ms start last)) r
        (timed_and_bound stepper trigger c between ++ behind) →
        AllBefore stepper (tick_of line (last + 1))
        (all_made behind (rig_after_all (timed_and_bound stepper trigger c between) r)) }
    ensures heard { (ms : List Member) (start last turn : ℕ) (rss : List (List Report)) (line : Line) (r : Rig)
        (between behind : List RigStep) (stepper trigger c u : ℕ) (m : Member) → Contains ms m → start ≤ u →
        CouldUpTo m.board u (all_reports rss) → HasBoth stepper trigger r →
        AreBehindSetUp stepper trigger (between ++ behind) →
        AreOfGroup line trigger (all_sent turn rss (new_group ms start last)) r
        (timed_and_bound stepper trigger c between ++ behind) →
        AllBefore stepper (tick_of line (u + 25))
        (all_made behind (rig_after_all (timed_and_bound stepper trigger c between) r)) }
    ensures fired { (ms : List Member) (start last turn : ℕ) (rss : List (List Report)) (line : Line) (r : Rig)
        (between behind : List RigStep) (stepper trigger c u : ℕ) (m : Member) (own : Line) (q : Rig)
        (steps : List RigStep) (i j : ℕ) → Contains ms m → start ≤ u →
        HasTriggeredIn own m.board i j q steps (all_reports rss) u → HasBoth stepper trigger r →
        AreBehindSetUp stepper trigger (between ++ behind) →
        AreOfGroup line trigger (all_sent turn rss (new_group ms start last)) r
        (timed_and_bound stepper trigger c between ++ behind) →
        AllBefore stepper (tick_of line (u + 25))
        (all_made behind (rig_after_all (timed_and_bound stepper trigger c between) r)) }
{}
