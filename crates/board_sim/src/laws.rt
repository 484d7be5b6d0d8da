//! What holds of a board with triggers, whatever comes.

ghost use Rattle.std.specs.Prelude.{◌≡◌, ℕ, ◌<◌, ◌≤◌, ◌+◌, ◌*◌, ◌%◌, ◌^◌, ◌++◌, List, Some, None, true, false};
ghost use Rattle.plan_types.specs.declared.plan.BoardState.TheVariants.{Running};
ghost use Rattle.plan_types.specs.declared.plan.Line.{Line};
ghost use Rattle.plan_types.specs.Board.{IsNear};
ghost use Rattle.plan_types.specs.Clock.{tick, turn_ns};
ghost use Rattle.board_step.specs.Steps.{Pending};
ghost use Rattle.board_trig.specs.Kept.{MovesOn};
ghost use Rattle.board_trig.specs.Nexts.{ExpiresAt, SwitchesAt};
ghost use Rattle.msg_code.specs.declared.cmd.Cmd.{Cmd};
ghost use Rattle.msg_code.specs.declared.cmd.Cmd.TheVariants as cmd;
ghost use Rattle.plan_types.specs.declared.plan.Pulse.{Pulse};
ghost use Rattle.board_sim.specs.Board.{Controller, stepper_at};
ghost use Rattle.board_sim.specs.Fair.{only, MakesMeant, IsCut};
ghost use Rattle.board_sim.specs.Halted.{cut_all, is_halted};
ghost use Rattle.board_sim.specs.Rig.{Rig, Slot, slot_at, levels_of, halts, takes, passes};
ghost use Rattle.board_sim.specs.RigRuns.{has, IsNoBind, IsUnbound, RigStep, all_made, rig_after_all, AreBehindSetUp, AreTimely, AllBefore, IsBound, IsReady, IsLimitedTo, IsTimely, AreRegular, AllSound};

/// The law of timeouts: a stepper that is bound to a trigger whose timeouts are at most a tick makes no pulse
/// at or after that tick, whatever else comes, but for a new start of the trigger or a new clock of the
/// stepper.
pub fn stops_at_the_timeout()
    ensures { (r : Rig) (steps : List RigStep) (stepper trigger most : ℕ) → IsBound stepper trigger most r →
        AreBehindSetUp stepper trigger steps → AreTimely trigger most r steps →
        AllBefore stepper most (all_made steps r) }
{}

/// The law of triggers: a stepper that is bound to a trigger makes no pulse at or after the tick at which the
/// trigger triggers, whatever else comes, but for a new start of the trigger or a new clock of the stepper.
/// And that tick is not before the one at which the trigger could still trigger, so what was told of it then
/// has an earlier clock, or the same.
pub fn stops_at_the_trigger()
    ensures pulses { (r : Rig) (steps : List RigStep) (stepper trigger : ℕ) (s : Slot) → IsReady stepper trigger r →
        AreBehindSetUp stepper trigger steps → slot_at (rig_after_all steps r) trigger ≡ Some s →
        s.trigger.can ≡ false →
        AllBefore stepper s.trigger.tick (all_made steps r) }
    ensures no_sooner { (r : Rig) (steps : List RigStep) (stepper trigger : ℕ) (s : Slot) → IsReady stepper trigger r →
        AreBehindSetUp stepper trigger steps → slot_at (rig_after_all steps r) trigger ≡ Some s →
        s.trigger.can ≡ false →
        r.controller.tick ≤ s.trigger.tick }
{}

/// The law of binding: on a board that runs, the command binds a stepper to a trigger. Where the trigger's
/// timeout is at most a tick, so is what the stepper is bound by; and a trigger that can trigger, with its
/// timeout and its switch not before the board's tick, is ready to halt it.
pub fn commands_bind()
    ensures bound { (r : Rig) (i j most : ℕ) (s : Slot) (q : Pending) → r.controller.state ≡ Running →
        stepper_at r.controller i ≡ Some q → slot_at r j ≡ Some s → s.trigger.untold ≡ None →
        (s.trigger.can ≡ true → IsLimitedTo most s.trigger.timeout) →
        IsBound i j most (takes r (cmd.StepperStopOnTrigger i j)).rig }
    ensures ready { (r : Rig) (i j : ℕ) (s : Slot) (q : Pending) → r.controller.state ≡ Running →
        stepper_at r.controller i ≡ Some q → slot_at r j ≡ Some s → s.trigger.untold ≡ None → s.trigger.can ≡ true →
        MovesOn s.trigger.sampling → ((x : ℕ) → ExpiresAt s.trigger x → r.controller.tick ≤ x) →
        ((x : ℕ) → SwitchesAt (levels_of r s.pin) s.trigger x → r.controller.tick ≤ x) →
        IsReady i j (takes r (cmd.StepperStopOnTrigger i j)).rig }
{}

/// The law of clocks: a timeout that is sent as the lower 32 bits of the tick of a turn by a clock line, and
/// is taken near that tick, is at most the tick of each turn that is not before it.
pub fn near_timeouts_are_timely()
    ensures { (line : Line) (now turn most trigger oid c : ℕ) → turn ≤ most → c ≡ tick line (turn * turn_ns) % 2 ^ 32 →
        IsNear now (tick line (turn * turn_ns)) →
        IsTimely now trigger (tick line (most * turn_ns)) (cmd.TrsyncSetTimeout oid c) }
{}

/// The law of time: a board whose triggers are regular passes to each tick that is not before its own.
pub fn time_passes()
    ensures { (r : Rig) (t : ℕ) → AreRegular r.triggers → r.controller.tick ≤ t → (passes r t).rig.controller.tick ≡ t }
{}

/// The law of soundness: on a board without triggers, and behind each command and each stretch of time, all
/// triggers are sound: what `stops_at_the_trigger` and `time_passes` ask of a trigger always holds of those
/// that were made by commands.
pub fn triggers_stay_sound()
    ensures none { (r : Rig) → ((oid : ℕ) → slot_at r oid ≡ None) → AllSound r }
    ensures takes { (r : Rig) (c : Cmd) → AllSound r → AllSound (takes r c).rig }
    ensures passes { (r : Rig) (t : ℕ) → AllSound r → r.controller.tick ≤ t → AllSound (passes r t).rig }
    ensures regular { (r : Rig) → AllSound r → AreRegular r.triggers }
{}

/// The law of halts: where each step that is meant is made or pends, a halt leaves it so for those that it
/// keeps: of each stepper that it halts those that were made, which are a prefix, and of each other one all.
/// A stepper that no trigger has bound isn't halted, as time passes and by no command but one that binds it,
/// while the board runs.
pub fn halts_cut_short()
    ensures whole { (b : Controller) (bound : List ℕ) (made meant : List Pulse) → MakesMeant b made meant →
        MakesMeant (halts true bound b) made (cut_all bound made meant) }
    ensures cut { (b : Controller) (bound : List ℕ) (made meant : List Pulse) → MakesMeant b made meant →
        IsCut (cut_all bound made meant) meant }
    ensures others { (bound : List ℕ) (stepper : ℕ) (made meant : List Pulse) → has stepper bound ≡ false →
        only stepper (cut_all bound made meant) ≡ only stepper meant }
    ensures time { (r : Rig) (t stepper : ℕ) → IsUnbound stepper r →
        IsUnbound stepper (passes r t).rig
        × (is_halted (stepper_at (passes r t).rig.controller stepper) ≡ is_halted (stepper_at r.controller stepper)) }
    ensures takes { (r : Rig) (c : Cmd) (stepper : ℕ) → IsUnbound stepper r → IsNoBind stepper c →
        IsUnbound stepper (takes r c).rig
        × ((takes r c).rig.controller.state ≡ Running →
        is_halted (stepper_at (takes r c).rig.controller stepper) ≡ true →
        is_halted (stepper_at r.controller stepper) ≡ true) }
{}
