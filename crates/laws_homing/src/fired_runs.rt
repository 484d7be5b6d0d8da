//! Since when a board's trigger can't trigger, in the homing sections of a run.

ghost use Rattle.std.specs.Prelude.{◌≡◌, ◌⊎◌, ◌+◌, ℕ, List, Some, length, ◌∷◌};
ghost use Rattle.plan_types.specs.declared.levels.Level.{Level};
ghost use Rattle.plan_types.specs.declared.machine.Machine.{Machine};
ghost use Rattle.plan_types.specs.declared.plan.BoardState.TheVariants.{Running};
ghost use Rattle.plan_types.specs.Machines.{IsValidMachine, axis_at, board_at};
ghost use Rattle.plan_types.specs.Machines as machine;
ghost use Rattle.wire_scene.specs.declared.scene.Entry.{Entry};
ghost use Rattle.wire_scene.specs.declared.scene.Switch.{Switch};
ghost use Rattle.board_sim.specs.Board.{stepper_at};
ghost use Rattle.board_sim.specs.RigRuns.{IsHalted};
ghost use Rattle.board_world.specs.World.{Step};
ghost use Rattle.link_work.specs.Stands.{first_state};
ghost use Rattle.board_asking.specs.Machine.{trigger_of};
ghost use Rattle.trigger_group.specs.declared.order.End.{End};
ghost use Rattle.trigger_group.specs.declared.order.End.TheVariants.{Endstop};
ghost use Rattle.axis_homing.specs.declared.homing.Homing.{Homing};
ghost use Rattle.axis_homing.specs.Homing.{answer_in, hears_all};
ghost use Rattle.axis_homing.specs.Rising.{members_of};
ghost use Rattle.host_reactor.specs.Notes.{noted};
ghost use Rattle.host_reactor.specs.Runs.{Came, known_by, state_at};
ghost use Rattle.laws_board.specs.turns.Turns.{BoardTurn, latest_state, stands_after};
ghost use Rattle.laws_board.specs.clocks.Runs.{IsInRun};
ghost use Rattle.laws_homing.specs.home_runs.Sections.{HomesFrom, GroupAnswers, IsMoved, TakesSetUp};
ghost use Rattle.laws_homing.specs.home_runs.Told.{IsMember};
ghost use Rattle.laws_homing.specs.home_runs.Settled.{SetNoClockFrom};
ghost use Rattle.laws_homing.specs.switch_runs.Reports.{HearsSoon};
ghost use Rattle.laws_homing.specs.switch_runs.Taken.{IsTriggerOf};
ghost use Rattle.laws_homing.specs.fired_runs.Since.{AreNotAhead, AreSoInTurns, AreReadTrue, BeginsApart, HasFiredSince, ReadsAsTold, ReadsSwitchTrue, ReadsTrue};
ghost use Rattle.laws_board.specs.sections.Finds.{StepsFindHalted};
ghost use Rattle.laws_homing.specs.fired_runs.Waiting.{MoveNoneIn, TookNone};

/// The law of firings: as the turn begins in which the group of a homing section answers, each member's board
/// took the command that starts its trigger for this section, with all that was queued before it, and its
/// trigger has triggered since, whatever happens on the lines. What it takes is that the board's reports that
/// count are read as ticks since which its trigger could not trigger (`AreReadTrue`), that it is no more than
/// a turn ahead of its lines as sections start (`AreNotAhead`), and that homing sections are begun where none
/// is known, 251 turns before their starts or earlier (`BeginsApart`).
pub fn answered_triggers_have_fired()
    ensures { (m : Machine) (switches : List Switch) (pins : List (List Level)) (entries : List Entry) (b : ℕ)
        (c : Came) (before : List Came) (turns : List BoardTurn) (h : Homing) (e : End) → IsValidMachine m →
        IsInRun m switches pins entries b before turns → state_at b c.states ≡ latest_state turns →
        BeginsApart m switches (c ∷ before) → AreReadTrue m switches b (c ∷ before) turns →
        AreNotAhead m switches b (c ∷ before) → (noted m c.note (known_by m switches before)).homing ≡ Some h →
        answer_in (length before) h.start
        (hears_all (noted m c.note (known_by m switches before)).clocks c.states h).group ≡ Some e →
        IsMember b (members_of h.group) →
        HasFiredSince (trigger_of m b) h.start (first_state (board_at m b) pins b entries) turns }
{}

/// The law of trigger ticks, whatever comes late: where the group of a homing section answers that its switch closed,
/// it does so with the section's trigger tick (`IsTriggerOf`): the last reading of the first group of readings that
/// show the switch pressed throughout, of those that begin with the section's command as the board of its axis's
/// endstop took it, from the section's start on. What it takes is that the board's reports that readings triggered
/// its trigger are read as ticks since which it could not trigger for that reason (`ReadsSwitchTrue`), and else what
/// the law of firings takes.
pub fn answers_are_of_trigger_ticks()
    ensures { (m : Machine) (switches : List Switch) (pins : List (List Level)) (entries : List Entry) (b : ℕ)
        (c : Came) (before : List Came) (turns : List BoardTurn) (h : Homing) (tick : ℕ) → IsValidMachine m →
        IsInRun m switches pins entries b before turns → state_at b c.states ≡ latest_state turns →
        BeginsApart m switches (c ∷ before) → AreSoInTurns (ReadsSwitchTrue m switches b) (c ∷ before) turns →
        AreNotAhead m switches b (c ∷ before) → (noted m c.note (known_by m switches before)).homing ≡ Some h →
        (axis_at m h.axis).board ≡ b →
        answer_in (length before) h.start
        (hears_all (noted m c.note (known_by m switches before)).clocks c.states h).group ≡ Some (Endstop tick) →
        IsTriggerOf m switches pins entries b h.start h.axis before turns tick }
{}

/// The law of half a round: what the state of a board's turn tells of its trigger is read true (`ReadsTrue`,
/// `ReadsSwitchTrue`), and wholly so (`ReadsAsTold`), where it comes within half a round of the 32-bit clock of the
/// tick since which the trigger stands (`HearsSoon`), and the board took the set-up of the homing section in time. What
/// it takes is that the section is known from 254 turns before its start on, and that no unit sets a clock from there
/// on.
pub fn reports_heard_soon_are_read_true()
    ensures { (m : Machine) (switches : List Switch) (pins : List (List Level)) (entries : List Entry) (b : ℕ)
        (c : Came) (before : List Came) (h : Homing) (from : ℕ) (t : BoardTurn) (earlier : List BoardTurn) →
        IsValidMachine m → IsInRun m switches pins entries b before (t ∷ earlier) →
        state_at b c.states ≡ latest_state (t ∷ earlier) →
        (noted m c.note (known_by m switches before)).homing ≡ Some h → from + 254 ≡ h.start →
        HomesFrom m switches from h.start (members_of h.group) before → SetNoClockFrom from (t ∷ earlier) →
        TakesSetUp (first_state (board_at m b) pins b entries) h.start (t ∷ earlier) →
        (stands_after (first_state (board_at m b) pins b entries) (t ∷ earlier)).core.board.controller.state ≡ Running →
        HearsSoon m switches b h.start c before t (length earlier) →
        ReadsTrue m switches b c before (t ∷ earlier) × ReadsSwitchTrue m switches b c before (t ∷ earlier)
        × ReadsAsTold m switches b c before (t ∷ earlier) }
{}

/// The law of halts, whatever comes late: as the turn begins in which the group of a homing section answers,
/// every stepper that moves in the section is halted on each board that runs, or the board took no step of it
/// since 254 turns before the section's start. What it takes is what the law of firings takes, and that no
/// unit of the stepper is sent from there on up to 250 turns before the start, in the four turns of the
/// set-up.
pub fn answered_sections_halt_or_wait()
    ensures { (m : Machine) (switches : List Switch) (pins : List (List Level)) (entries : List Entry) (b : ℕ)
        (c : Came) (before : List Came) (turns : List BoardTurn) (h : Homing) (stepper : ℕ) → IsValidMachine m →
        IsInRun m switches pins entries b before turns → state_at b c.states ≡ latest_state turns →
        (a : GroupAnswers m switches c before h) → IsMoved m b h turns stepper → BeginsApart m switches (c ∷ before) →
        AreReadTrue m switches b (c ∷ before) turns → AreNotAhead m switches b (c ∷ before) →
        MoveNoneIn (machine.stepper_at m stepper).oid a.from (a.from + 4) turns →
        (stands_after (first_state (board_at m b) pins b entries) turns).core.board.controller.state ≡ Running →
        IsHalted (stepper_at (stands_after (first_state (board_at m b) pins b entries) turns).core.board.controller
        (machine.stepper_at m stepper).oid)
        ⊎ TookNone (machine.stepper_at m stepper).oid a.from (first_state (board_at m b) pins b entries) turns }
{}

/// The law of steps that find halts: from the turn on in which the group of a homing section answers,
/// whatever happens on the link of a board that runs then, a stepper that moves in the section is halted
/// before the board takes a step of it, up to the next command that it takes which sets the clock of the
/// stepper. What it takes is what the law of halts takes.
pub fn answered_steppers_halt_before_they_step()
    ensures { (m : Machine) (switches : List Switch) (pins : List (List Level)) (entries : List Entry) (b : ℕ)
        (c : Came) (before : List Came) (turns : List BoardTurn) (h : Homing) (stepper : ℕ) (steps : List Step) →
        IsValidMachine m → IsInRun m switches pins entries b before turns → state_at b c.states ≡ latest_state turns →
        (a : GroupAnswers m switches c before h) → IsMoved m b h turns stepper → BeginsApart m switches (c ∷ before) →
        AreReadTrue m switches b (c ∷ before) turns → AreNotAhead m switches b (c ∷ before) →
        MoveNoneIn (machine.stepper_at m stepper).oid a.from (a.from + 4) turns →
        (stands_after (first_state (board_at m b) pins b entries) turns).core.board.controller.state ≡ Running →
        StepsFindHalted (machine.stepper_at m stepper).oid
        (stands_after (first_state (board_at m b) pins b entries) turns).core steps }
{}
