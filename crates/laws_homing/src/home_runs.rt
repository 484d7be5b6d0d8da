//! Homing over the turns of a run: a board, its link, and the group that it is a member of.

ghost use Rattle.std.specs.Prelude.{◌≡◌, ◌<◌, ◌≤◌, ◌+◌, ◌%◌, ◌^◌, ◌++◌, ◌∷◌, ℕ, All, List, [], Option, Some, length, false, map, true};
ghost use Rattle.plan_types.specs.declared.levels.Level.{Level};
ghost use Rattle.plan_types.specs.declared.machine.BoardDef.{BoardDef};
ghost use Rattle.plan_types.specs.declared.machine.Machine.{Machine};
ghost use Rattle.plan_types.specs.Clock.{board_tick, clock_of};
ghost use Rattle.wire_scene.specs.declared.scene.Entry.{Entry};
ghost use Rattle.wire_scene.specs.declared.scene.Switch.{Switch};
ghost use Rattle.board_asking.specs.Machine.{trigger_of};
ghost use Rattle.board_sim.specs.Board.{stepper_at};
ghost use Rattle.board_sim.specs.Fair.{Meant, commands_of};
ghost use Rattle.board_sim.specs.Rig.{Slot, slot_at};
ghost use Rattle.board_sim.specs.RigRuns.{IsHalted};
ghost use Rattle.link_work.specs.Stands.{first_state};
ghost use Rattle.laws_board.specs.turns.Turns.{AreBoardTurns, BoardTurn, stands_after};
ghost use Rattle.trigger_group.specs.declared.order.End.{End};
ghost use Rattle.trigger_group.specs.declared.order.End.TheVariants.{Endstop};
ghost use Rattle.axis_homing.specs.declared.homing.Homing.{Homing};
ghost use Rattle.axis_homing.specs.Homing.{answer_in, hears_all};
ghost use Rattle.axis_homing.specs.Rising.{members_of};
ghost use Rattle.host_reactor.specs.Notes.{news_of, noted};
ghost use Rattle.host_reactor.specs.Runs.{Came, GoesOn, known_by, last_reacted, state_at};
ghost use Rattle.laws_board.specs.turns.Turns.{latest_state};
ghost use Rattle.laws_board.specs.clocks.Runs.{IsInRun};
ghost use Rattle.plan_types.specs.declared.plan.BoardState.TheVariants.{Running};
ghost use Rattle.plan_types.specs.Machines.{IsValidMachine, board_at};
ghost use Rattle.plan_types.specs.Machines as machine;
ghost use Rattle.laws_homing.specs.home_runs.Sections.{HomesFrom, GroupAnswers, IsMoved, Moves, RestsInTime, SpoilsFew, TakesSetUp, queued_in_turns};
ghost use Rattle.laws_homing.specs.home_runs.SetUps.{AreSetUpInOrder, IsBoundIn, StopsAt};
ghost use Rattle.laws_homing.specs.home_runs.Moments.{CouldAt, HasTriggeredIn};
ghost use Rattle.laws_homing.specs.home_runs.Timeouts.{BeginsBy, CouldUpTo, EndsWith, TakesSent};
ghost use Rattle.section_units.specs.Sections.{BoardSection};
ghost use Rattle.trigger_group.specs.declared.order.Member.{Member};
ghost use Rattle.link_work.specs.Limits.{AllKeepLimits};
ghost use Rattle.link_work.specs.Runs.{AreTurns};
ghost use Rattle.link_work.specs.Turn.{LinkState};
ghost use Rattle.laws_board.specs.sections.Courses.{AllHeed};
ghost use Rattle.laws_board.specs.sections.Events.{AreOwn};
ghost use Rattle.laws_board.specs.sections.Homes.{AreInTurn, AreOrdersIn, AreSettledOn, AreSoon, IsHomeBoard, IsHomeRun, IsSectionBy, IsSplitIn, RunSection, SetsIn};
ghost use Rattle.plan_types.specs.Lines.{Clocks};
ghost use Rattle.laws_board.specs.clocks.Runs.{orders_in};
ghost use Rattle.laws_homing.specs.home_runs.Settled.{AreHomed, IsHomed, SendNoneIn, SetNoClockFrom};
ghost use Rattle.laws_homing.specs.home_runs.Told.{IsMember, TellFiredFrom};
ghost use Rattle.board_world.specs.World.{new_world};
ghost use Rattle.msg_code.specs.declared.talk.State.{State};
ghost use Rattle.laws_board.specs.sections.Known.{AreQueued, Sent, sent_in};
ghost use Rattle.laws_board.specs.sections.Links.{AreTold, steps_of, turns_told};
ghost use Rattle.laws_board.specs.sections.Timely.{AllTimely};
ghost use Rattle.laws_homing.specs.home_runs.Words.{BeginsNone, IsBegunIn, TellsHomed};
ghost use Rattle.laws_homing.specs.home_runs.Ended.{AreToldIn, IsToldIn};
ghost use Rattle.laws_homing.specs.home_runs.Windows.{BringCalm, HasAnswer, IsSetUp, IsWatched, TellFired};
ghost use Rattle.laws_homing.specs.home_runs.Guards.{ReasonFits, StandsFired};
ghost use Rattle.msg_code.specs.declared.cmd.Cmd.TheVariants.{TrsyncState};

/// The law of told triggers: where a board took the set-up of a homing section by a turn at whose end nothing
/// that it said is still under way, and from there on nothing comes that starts its trigger anew or sets the
/// clock of a stepper that is bound to it, this stepper is halted once it was told that a trigger of the
/// board can't trigger, whatever happens on the lines.
pub fn told_triggers_have_halted()
    ensures { (b : BoardDef) (pins : List (List Level)) (board : ℕ) (entries : List Entry)
        (window past : List BoardTurn) (stepper trigger : ℕ) →
        AreBoardTurns (clock_of b) (first_state b pins board entries) (window ++ past) →
        IsSetUp stepper trigger (stands_after (first_state b pins board entries) past).core →
        BringCalm stepper trigger window → TellFired window →
        IsHalted
        (stepper_at (stands_after (first_state b pins board entries) (window ++ past)).core.board.controller stepper) }
{}

/// The law of triggers that stand as told: where nothing that a board said is still under way as a turn ends,
/// and from there on nothing comes that starts its only trigger anew, makes another one or sets the clock of
/// this stepper, the trigger stands, as a later turn ends in which the host was told that it can't trigger,
/// as was told: it can't, with that reason and a tick with that clock, and has no timeout. This holds where
/// the trigger's reason fits the field in which it is told.
pub fn told_triggers_stand_as_told()
    ensures { (b : BoardDef) (pins : List (List Level)) (board : ℕ) (entries : List Entry) (t : BoardTurn)
        (earlier past : List BoardTurn) (stepper trigger oid reason clock : ℕ) →
        AreBoardTurns (clock_of b) (first_state b pins board entries) (t ∷ (earlier ++ past)) →
        IsWatched stepper trigger (stands_after (first_state b pins board entries) past).core →
        BringCalm stepper trigger (t ∷ earlier) → ReasonFits trigger t.after.core.board →
        HasAnswer (TrsyncState oid 0 reason clock) t.state.news → StandsFired trigger reason clock t.after.core.board }
{}

/// The law of answers: the group of a homing section answers only once each of its boards has told, in a
/// state of the turn before the section's start or later, that a trigger of it can't trigger.
pub fn groups_hear_their_members()
    ensures { (m : Machine) (switches : List Switch) (pins : List (List Level)) (entries : List Entry) (b : ℕ)
        (c : Came) (before : List Came) (turns : List BoardTurn) (h : Homing) (e : End) →
        IsInRun m switches pins entries b before turns → state_at b c.states ≡ latest_state turns →
        (noted m c.note (known_by m switches before)).homing ≡ Some h →
        answer_in (length before) h.start
        (hears_all (noted m c.note (known_by m switches before)).clocks c.states h).group ≡ Some e →
        IsMember b (members_of h.group) → TellFiredFrom h.start turns }
{}

/// The law of few spoiled turns: where n turns of a link's busy stretch were spoiled at most, n turns behind
/// the set-up of a homing section its board has taken it; so also where nothing that it said is under way in
/// a turn between that and the turn in front of the start, it took the set-up in time.
pub fn links_that_spoil_few_take_the_set_up()
    ensures { (b : BoardDef) (pins : List (List Level)) (board : ℕ) (entries : List Entry) (turns : List BoardTurn)
        (start n : ℕ) → AreBoardTurns (clock_of b) (first_state b pins board entries) turns →
        AllKeepLimits (orders_in turns) → SpoilsFew (first_state b pins board entries) start n turns →
        TakesSetUp (first_state b pins board entries) start turns }
{}

/// The law of rest: where a link rests once between the set-up of a homing section and the turn in front of
/// its start, its board took the set-up in time, and nothing that it said before is still under way then.
pub fn links_that_rest_take_the_set_up()
    ensures { (b : BoardDef) (pins : List (List Level)) (board : ℕ) (entries : List Entry) (turns : List BoardTurn)
        (start : ℕ) → AreBoardTurns (clock_of b) (first_state b pins board entries) turns →
        RestsInTime (first_state b pins board entries) start turns →
        TakesSetUp (first_state b pins board entries) start turns }
{}

/// The law of clear links: in a scene without entries a board takes the set-up of each homing section in
/// time, where what it is sent keeps the limits of a turn.
pub fn clear_links_take_the_set_up()
    ensures { (b : BoardDef) (pins : List (List Level)) (board : ℕ) (entries : List Entry) (turns : List BoardTurn)
        (start : ℕ) → entries ≡ [] → AreBoardTurns (clock_of b) (first_state b pins board entries) turns →
        AllKeepLimits (orders_in turns) → 249 ≤ start → start ≤ length turns + 249 →
        TakesSetUp (first_state b pins board entries) start turns }
{}

/// The law of halts in a homing section: as the turn begins in which the group of a homing section answers,
/// every stepper that moves in the section is halted on each board that runs, where the board took the set-up
/// of the section in time, and nothing that it said before is still under way then.
pub fn answered_sections_are_halted()
    ensures { (m : Machine) (switches : List Switch) (pins : List (List Level)) (entries : List Entry) (b : ℕ)
        (c : Came) (before : List Came) (turns : List BoardTurn) (h : Homing) (stepper : ℕ) → IsValidMachine m →
        IsInRun m switches pins entries b before turns → state_at b c.states ≡ latest_state turns →
        GroupAnswers m switches c before h → IsMoved m b h turns stepper →
        TakesSetUp (first_state (board_at m b) pins b entries) h.start turns →
        (stands_after (first_state (board_at m b) pins b entries) turns).core.board.controller.state ≡ Running →
        IsHalted (stepper_at (stands_after (first_state (board_at m b) pins b entries) turns).core.board.controller
        (machine.stepper_at m stepper).oid) }
{}

/// The law of parts that stop: where the parts of a board's steps stop with homing sections, it is settled as
/// each of its turns begins: while it runs it has begun the parts that stop by then, and it halts their
/// steppers by then or before it takes a step of the part. What it takes is that it took the set-up of each
/// in time (`TakesSetUp`), or that what it tells is read as the ticks since which its trigger can't trigger
/// (`IsReadSo`). It is asked only of those that are begun by a turn, where all that is queued by then stands
/// in front of what a running board doesn't take.
pub fn boards_settle_with_the_answer()
    ensures { (m : Machine) (switches : List Switch) (pins : List (List Level)) (entries : List Entry) (b until : ℕ)
        (front tail : List Sent) (turns : List BoardTurn) (stops : ℕ → Option ℕ) (end : LinkState)
        (t : AreTurns (clock_of (board_at m b)) 0 (orders_in turns) (first_state (board_at m b) pins b entries) end) →
        IsValidMachine m → AreBoardTurns (clock_of (board_at m b)) (first_state (board_at m b) pins b entries) turns →
        AreQueued until front → front ++ tail ≡ sent_in 0 (orders_in turns) →
        AreHomed m switches pins entries b until stops turns →
        AreSettledOn stops front (clock_of (board_at m b)) 0 [] (orders_in turns)
        (first_state (board_at m b) pins b entries) end t }
{}

/// The law of set clocks, in time: the clock of each stepper that moves in a homing section is set in one of
/// the three turns from 254 turns before its start on, where the section was known from there on.
pub fn clocks_are_set_in_time()
    ensures { (m : Machine) (switches : List Switch) (pins : List (List Level)) (entries : List Entry)
        (b stepper from start : ℕ) (members : List Member) (section : BoardSection) (came : List Came)
        (later past : List BoardTurn) → IsInRun m switches pins entries b came past →
        HomesFrom m switches from start members came → from + 254 ≡ start → section.start ≡ start →
        Moves b stepper members → start ≤ length past + 251 →
        SetsIn (machine.stepper_at m stepper).oid section 0 (orders_in (later ++ past)) }
{}

/// The law of words: a homing section that a note begins is known in each turn from then on, until a word
/// tells of the answer, where no other section is begun meanwhile; and in the turn of that word its group
/// answered that the switch closed.
pub fn words_tell_of_answers()
    ensures known { (m : Machine) (switches : List Switch) (from start : ℕ) (members : List Member) (came : List Came) →
        GoesOn m switches came → IsBegunIn m switches from start members came →
        HomesFrom m switches from start members came }
    ensures answer { (m : Machine) (switches : List Switch) (from start : ℕ) (members : List Member) (c : Came)
        (before : List Came) → GoesOn m switches (c ∷ before) → IsBegunIn m switches from start members before →
        from < length before → BeginsNone (news_of c.note) →
        TellsHomed (last_reacted m switches c before).ordered.word.news →
        (h : Homing) × (tick : ℕ) × ((noted m c.note (known_by m switches before)).homing ≡ Some h) × (h.start ≡ start)
        × (members_of h.group ≡ members)
        × (answer_in (length before) h.start
        (hears_all (noted m c.note (known_by m switches before)).clocks c.states h).group
        ≡ Some (Endstop tick)) }
{}

/// The law of homing turns: where a board's orders are those of its sections, and what is released by a turn
/// is so by the fifth turn behind the end of its section, no unit that is released from 254 turns before the
/// start of one that homes, and has ended by that turn, up to its end sets a clock, and none is released in
/// the first four of them.
pub fn homing_turns_set_no_clocks()
    ensures sets { (clocks : Clocks) (freq slots until by ready from : ℕ) (stops : ℕ → Option ℕ)
        (past : List RunSection) (s : RunSection) (later : List RunSection) (turns : List BoardTurn) →
        AreInTurn ready (past ++ s ∷ later) →
        All (λ x. IsSectionBy x.homes clocks freq slots until stops x.section) (past ++ s ∷ later) →
        AreSoon by (past ++ s ∷ later) → s.section.end ≤ by →
        AreOrdersIn clocks (past ++ s ∷ later) 0 (orders_in turns) → s.homes ≡ true → from + 254 ≡ s.section.start →
        length turns ≤ s.section.end → SetNoClockFrom from turns }
    ensures sends { (clocks : Clocks) (freq slots until by ready from : ℕ) (stops : ℕ → Option ℕ)
        (past : List RunSection) (s : RunSection) (later : List RunSection) (turns : List BoardTurn) →
        AreInTurn ready (past ++ s ∷ later) →
        All (λ x. IsSectionBy x.homes clocks freq slots until stops x.section) (past ++ s ∷ later) →
        AreSoon by (past ++ s ∷ later) → s.section.start ≤ by →
        AreOrdersIn clocks (past ++ s ∷ later) 0 (orders_in turns) → from + 254 ≡ s.section.start →
        SendNoneIn from (from + 4) turns }
{}

/// The law of told sections: a homing section that a note began and a word told of, and whose set-up the
/// board took in time or whose reports are read as the ticks since which its trigger can't trigger, is one
/// that was answered.
pub fn told_sections_are_homed()
    ensures { (m : Machine) (switches : List Switch) (pins : List (List Level)) (entries : List Entry)
        (b start end from : ℕ) (turns : List BoardTurn) (t : IsToldIn m switches pins entries b start end turns) →
        from + 254 ≡ start → SetNoClockFrom from t.past → SendNoneIn from (from + 4) t.past →
        IsHomed m switches pins entries b start end turns }
{}

/// The law of boards that home: a board of a run whose part of it is one in which axes home, whose homing
/// sections that have ended were told of, which takes no unit half a round of the 32-bit clock after its
/// first tick, and where it takes a first unit of moves that is queued too late finds that one's stepper not
/// halted, is one of which `run_laws` says that it keeps its sections, by any ticks that are its own up to
/// the run's end.
pub fn told_boards_are_home_boards()
    ensures { (m : Machine) (switches : List Switch) (pins : List (List Level)) (entries : List Entry) (b ready : ℕ)
        (own : ℕ → ℕ) (clocks : Clocks) (stops : ℕ → Option ℕ) (ss : List RunSection) (turns : List BoardTurn)
        (states : List State) (end : LinkState)
        (told : AreTold (clock_of (board_at m b)) 0 (orders_in turns) states (first_state (board_at m b) pins b entries)
        end) → IsValidMachine m → b < length m.boards →
        AreBoardTurns (clock_of (board_at m b)) (first_state (board_at m b) pins b entries) turns →
        AreOwn (board_at m b) (length turns) own →
        IsHomeRun own clocks (board_at m b).freq (board_at m b).slots ready stops ss (orders_in turns) →
        (split : IsSplitIn own stops (board_at m b).slots ss (orders_in turns)) →
        AllTimely (new_world (board_at m b) pins) (steps_of (clock_of (board_at m b)) 0 (orders_in turns)
        (first_state (board_at m b) pins b entries) end (turns_told (clock_of (board_at m b)) 0 (orders_in turns) states
        (first_state (board_at m b) pins b entries) end told)) →
        AllHeed split.front split.tail (new_world (board_at m b) pins) (steps_of (clock_of (board_at m b)) 0
        (orders_in turns) (first_state (board_at m b) pins b entries) end (turns_told (clock_of (board_at m b)) 0
        (orders_in turns) states (first_state (board_at m b) pins b entries) end told)) →
        AreToldIn m switches pins entries b stops ss turns →
        IsHomeBoard b entries ready (length turns) ss (record {
          board = board_at m b;
          pins = pins;
          clocks = clocks;
          sections = map (λ s. s.section) ss;
          orders = orders_in turns;
          states = states;
        }) }
{}

/// The law of order, of homing sections: of what a board was sent from 254 turns before the start of a homing
/// section on, it takes the commands of the section in order, whatever happens on the lines: no unit of a
/// stepper that moves in it before the stepper's clock was set, the trigger started, a timeout set, and the
/// stepper bound to the trigger, one behind the other; and nothing sets its clock from there on. This asks
/// that no unit sets a clock in these turns, and none is sent in the first four.
pub fn set_ups_are_taken_in_order()
    ensures { (m : Machine) (switches : List Switch) (pins : List (List Level)) (entries : List Entry) (b stepper : ℕ)
        (came : List Came) (later early : List BoardTurn) (from start : ℕ) (members : List Member) (own : List Meant) →
        IsInRun m switches pins entries b came (later ++ early) → HomesFrom m switches from start members came →
        from + 254 ≡ start → Moves b stepper members → SetNoClockFrom from (later ++ early) →
        SendNoneIn from (from + 4) (later ++ early) → length early ≡ from →
        (stands_after (first_state (board_at m b) pins b entries) (later ++ early)).core.taken
        ≡ queued_in_turns early ++ own →
        AreSetUpInOrder (machine.stepper_at m stepper).oid (trigger_of m b) 0 (commands_of own) }
{}

/// The law of bound steppers, of homing sections: from the turn on in which a board took the command that binds a
/// stepper that moves in a homing section to the board's trigger, the stepper makes no pulse at or after the tick
/// at which the trigger triggered, up to any turn at whose end this can't trigger, whatever happens on the lines,
/// and none at all where the trigger couldn't trigger as it was bound.
pub fn moving_steppers_stop_with_their_trigger()
    ensures { (m : Machine) (switches : List Switch) (pins : List (List Level)) (entries : List Entry)
        (b stepper : ℕ) (came : List Came) (later : List BoardTurn) (t : BoardTurn) (between early : List BoardTurn)
        (from start : ℕ) (members : List Member) → IsValidMachine m →
        IsBoundIn m switches pins entries b stepper came later t between early from start members → (slot : Slot) →
        slot_at (stands_after (first_state (board_at m b) pins b entries) (later ++ t ∷ (between ++ early))).core.board
        (trigger_of m b) ≡ Some slot → slot.trigger.can ≡ false →
        StopsAt m pins entries b stepper slot.trigger.tick (later ++ t ∷ (between ++ early)) (between ++ early) }
{}

/// The law of reports: whatever answer of a board comes to the host that tells of a trigger that it could trigger, it
/// is of a moment when it could: it has the clock of a tick that is past on the board, not before a turn as which began
/// nothing that the board had said was under way; and where the trigger can't trigger, up to any later turn's end, it
/// can't since this tick or a later one. This is so whatever happens on the lines.
pub fn reports_are_of_moments()
    ensures { (m : Machine) (switches : List Switch) (pins : List (List Level)) (entries : List Entry) (b : ℕ)
        (came : List Came) (later : List BoardTurn) (t : BoardTurn) (middle past : List BoardTurn)
        (oid can reason clock : ℕ) → IsInRun m switches pins entries b came (later ++ t ∷ (middle ++ past)) →
        (stands_after (first_state (board_at m b) pins b entries) past).core.link.up ≡ [] →
        HasAnswer (TrsyncState oid can reason clock) t.state.news → (can ≡ 0 → ⊥) →
        (tick : ℕ) × (board_tick (clock_of (board_at m b)) (length past) ≤ tick) × CouldAt oid tick
        (stands_after (first_state (board_at m b) pins b entries) (later ++ t ∷ (middle ++ past))).core.board ×
        (clock ≡ tick % 2 ^ 32) }
{}

/// The law of groups, of homing sections: from the turn on in which a board took the command that binds a stepper
/// that moves in a homing section to the board's trigger, the stepper makes no pulse at or after the tick of the
/// turn behind the section's last one; and where no report that counts says of some member that it could trigger in
/// a turn behind `u`, none at or after the tick of the turn 25 behind `u`. So it makes none where some member's
/// trigger triggered in turn `u`, and what its board told comes soon. This is so whatever happens on the lines,
/// where no timeout is taken half a round of the 32-bit clock after its tick.
pub fn members_stop_in_time()
    ensures end { (m : Machine) (switches : List Switch) (pins : List (List Level)) (entries : List Entry)
        (b stepper : ℕ) (came : List Came) (later : List BoardTurn) (t : BoardTurn) (between early : List BoardTurn)
        (from start last most : ℕ) (members : List Member) → IsValidMachine m →
        IsBoundIn m switches pins entries b stepper came later t between early from start members →
        TakesSent m switches pins entries b came (later ++ t ∷ (between ++ early)) early →
        EndsWith m switches from last came → BeginsBy m switches b from (last + 1) most came →
        StopsAt m pins entries b stepper most (later ++ t ∷ (between ++ early)) (between ++ early) }
    ensures heard { (m : Machine) (switches : List Switch) (pins : List (List Level)) (entries : List Entry)
        (b stepper other : ℕ) (came : List Came) (later : List BoardTurn) (t : BoardTurn)
        (between early : List BoardTurn) (from start u most : ℕ) (members : List Member) → IsValidMachine m →
        IsBoundIn m switches pins entries b stepper came later t between early from start members →
        TakesSent m switches pins entries b came (later ++ t ∷ (between ++ early)) early →
        IsMember other members → start ≤ u → CouldUpTo m switches other start u came →
        BeginsBy m switches b from (u + 25) most came →
        StopsAt m pins entries b stepper most (later ++ t ∷ (between ++ early)) (between ++ early) }
    ensures fired { (m : Machine) (switches : List Switch) (pins others : List (List Level)) (entries : List Entry)
        (b stepper other : ℕ) (came : List Came) (later : List BoardTurn) (t : BoardTurn)
        (between early turns : List BoardTurn) (from start u most : ℕ) (members : List Member) → IsValidMachine m →
        IsBoundIn m switches pins entries b stepper came later t between early from start members →
        TakesSent m switches pins entries b came (later ++ t ∷ (between ++ early)) early →
        IsMember other members → start ≤ u → HasTriggeredIn m switches others entries other start u came turns →
        BeginsBy m switches b from (u + 25) most came →
        StopsAt m pins entries b stepper most (later ++ t ∷ (between ++ early)) (between ++ early) }
{}
