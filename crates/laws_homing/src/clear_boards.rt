//! What boards, links and homing groups do where links rest, as they do in a scene without entries, as laws.

ghost use Rattle.std.specs.Prelude.{Bool, ◌≡◌, ◌⊎◌, ◌<◌, ◌≤◌, ◌+◌, ◌*◌, ◌/◌, ◌%◌, ◌^◌, ◌++◌, ◌∷◌, ℕ, List, [], None, Some, false, length, max, true};
ghost use Rattle.std.specs.List.{Contains};
ghost use Rattle.plan_types.specs.declared.levels.Level.{Level};
ghost use Rattle.plan_types.specs.declared.machine.AxisDef.{AxisDef};
ghost use Rattle.plan_types.specs.declared.machine.BoardDef.{BoardDef};
ghost use Rattle.plan_types.specs.declared.machine.Machine.{Machine};
ghost use Rattle.board_asking.specs.Machine.{trigger_of};
ghost use Rattle.plan_types.specs.declared.clock.BoardClock.{BoardClock};
ghost use Rattle.plan_types.specs.Clock.{board_tick, clock_of, turn_ns, run_turns};
ghost use Rattle.plan_types.specs.Machines.{IsValidFreq};
ghost use Rattle.clock_line.specs.Early.{turn_in_run, turn_tick};
ghost use Rattle.clock_line.specs.Samples.{ppm_size};
ghost use Rattle.laws_board.specs.sections.Events.{AreTicks};
ghost use Rattle.laws_board.specs.sections.Parts.{AreTracked};
ghost use Rattle.wire_scene.specs.declared.scene.Entry.{Entry};
ghost use Rattle.board_sim.specs.Fair.{commands_of};
ghost use Rattle.board_sim.specs.Rig.{Rig, Slot, all_left, pass, passes, slot_at, takes_all};
ghost use Rattle.msg_dict.specs.Own.{own_formats};
ghost use Rattle.msg_code.specs.declared.cmd.Cmd.{Cmd};
ghost use Rattle.msg_code.specs.declared.cmd.Cmd.TheVariants.{TrsyncState};
ghost use Rattle.msg_code.specs.Table.{row_of};
ghost use Rattle.msg_code.specs.Text.{IsText};
ghost use Rattle.board_world.specs.World.{says, wire_text};
ghost use Rattle.link_work.specs.Answers.{IsAmong};
ghost use Rattle.link_work.specs.Runs.{queued_in};
ghost use Rattle.link_work.specs.Stands.{first_state, orders};
ghost use Rattle.laws_board.specs.turns.Turns.{AreBoardTurns, BoardTurn, stands_after};
ghost use Rattle.laws_board.specs.clocks.Runs.{IsInRun};
ghost use Rattle.board_sim.specs.RigRuns.{AllSound, AreRegular, RigStep, rig_after_all};
ghost use Rattle.trigger_group.specs.declared.order.Order.TheVariants.{Timeout, Trigger};
ghost use Rattle.trigger_group.specs.declared.seen.Seen.{Seen};
ghost use Rattle.trigger_group.specs.Group.{GroupState, turned_group, all_fired, any_fired_by, relay_begins, orders as group_orders, to_board};
ghost use Rattle.plan_types.specs.Lines.{Clocks, lines_tick};
ghost use Rattle.plan_types.specs.Sections.{clocks_at};
ghost use Rattle.msg_code.specs.declared.talk.News.{News};
ghost use Rattle.msg_code.specs.declared.talk.State.{State};
ghost use Rattle.axis_homing.specs.declared.homing.Homing.{Homing};
ghost use Rattle.axis_homing.specs.Homing.{answer_in, commands_to, hears_all, low};
ghost use Rattle.host_reactor.specs.Runs.{Came, GoesOn, known_by, state_at};
ghost use Rattle.laws_homing.specs.clear_boards.Alive.{IsAlive, IsSwitched, RelayNone, StaysAlive};
ghost use Rattle.laws_homing.specs.clear_boards.Clocking.{IsAhead, IsCounted};
ghost use Rattle.laws_homing.specs.clear_boards.Firing.{AllKeen, AllSmall, AreNumbered, AreSmall, AreSpoken, IsOff, TellOff};
ghost use Rattle.laws_homing.specs.clear_boards.Expiry.{CameExpiry, TellExpiry};
ghost use Rattle.trigger_group.specs.declared.order.End.TheVariants.{Expired};
ghost use Rattle.laws_homing.specs.clear_boards.Hearing.{AllFiredIn, FiredOn, HeardBy, KnownOn, NoneOn, TellAble};
ghost use Rattle.laws_homing.specs.home_runs.Windows.{SayFired};
ghost use Rattle.laws_homing.specs.clear_boards.Held.{AllHeld, AllTellOnly, AreFit, all_answers};
ghost use Rattle.laws_homing.specs.clear_boards.Lately.{IsHeardOf, NearOn};
ghost use Rattle.laws_homing.specs.clear_boards.Limited.{AreRenewing, IsLimited, limit_after};
ghost use Rattle.laws_homing.specs.clear_boards.Member.{IsMember, fired_at};
ghost use Rattle.axis_homing.specs.Rising.{members_of};
ghost use Rattle.laws_homing.specs.clear_boards.Modes.{AllOn, HeardLately, Hears, IsAheadIn, IsIn, IsTimed};
ghost use Rattle.laws_homing.specs.clear_boards.Ordered.{IsOrdered};
ghost use Rattle.wire_scene.specs.declared.scene.Switch.{Switch};
ghost use Rattle.host_reactor.specs.declared.ordered.Phase.TheVariants.{Connecting};
ghost use Rattle.host_reactor.specs.Notes.{noted};
ghost use Rattle.laws_homing.specs.clear_boards.Renewed.{HeardFrom};
ghost use Rattle.laws_homing.specs.clear_boards.Rests.{RestsOver};
ghost use Rattle.laws_homing.specs.clear_boards.Turned.{AreSentBehind, IsTurnedTo, RelaysOne, SetsNone, SetsOne};
ghost use Rattle.laws_homing.specs.home_runs.Guards.{HasFired, IsSole};
ghost use Rattle.plan_types.specs.Board.{nearest};
ghost use Rattle.plan_types.specs.declared.plan.BoardState.TheVariants.{Running};
ghost use Rattle.laws_homing.specs.clear_boards.Reports.{IsReported, TellCan};

/// The law of expiries: over any list of commands and stretches of time, where each timeout that is set is
/// later than the board's tick, and no stretch goes past a timeout but where it is at one tick, a board tells
/// of no trigger that its timeout passed at any other tick.
pub fn triggers_expire_where_time_passes_them()
    ensures { (tick : ℕ) (steps : List RigStep) (r : Rig) → AllHeld tick r → AreFit tick r steps →
        AllTellOnly tick (all_answers steps r) }
{}

/// The law of renewed timeouts: from its start on, while not all its members have told that they triggered, a
/// homing group that heard of each member that it could trigger in a turn or later has sent a timeout 25
/// turns behind that turn, or one behind the section's last turn, or a later one; and it sends it to each
/// member where it grows.
pub fn heard_groups_renew_their_timeouts()
    ensures far { (g : GroupState) (turn u : ℕ) → g.start ≤ turn → HeardFrom g.start u g.members →
        all_fired g.members ≡ false → (u + 25 ≤ (turned_group g turn).sent)
        ⊎ (g.last + 1 ≤ (turned_group g turn).sent) }
    ensures all { (g : GroupState) (turn : ℕ) (m : Seen) → g.start ≤ turn → all_fired g.members ≡ false →
        Contains g.members m → g.sent < (turned_group g turn).sent →
        Contains (group_orders g turn) (to_board m (Timeout (turned_group g turn).sent)) }
{}

/// The law of reports: while time passes to a tick, a trigger that can trigger tells so at each of its
/// reports before this tick: its next report is at the tick or later, and the one before it was told, where
/// it isn't the same as before.
pub fn triggers_that_can_trigger_tell_so()
    ensures { (n oid until report : ℕ) (r : Rig) (s : Slot) → slot_at r oid ≡ Some s → AreRegular r.triggers →
        r.controller.tick ≤ until → all_left until r.triggers < n → s.trigger.report ≡ Some report →
        (x : IsReported oid until report s.trigger.every s.trigger.can (pass n r until).rig (pass n r until).answers)
        × (until ≤ x.next) }
{}

/// The law of turns on clear links: where a link rests as a turn begins and as it ends, in any scene, a board
/// takes in the turn just the commands that are queued in it, and then passes to its tick of the next turn.
pub fn clear_boards_take_what_is_queued()
    ensures { (b : BoardDef) (pins : List (List Level)) (place : ℕ) (entries : List Entry) (t : BoardTurn)
        (before : List BoardTurn) → RestsOver t before →
        AreBoardTurns (clock_of b) (first_state b pins place entries) (t ∷ before) →
        t.after.core.board
        ≡ (passes (takes_all (stands_after (first_state b pins place entries) before).core.board
        (commands_of (queued_in (orders t.control t.batch)))).rig
        (board_tick (clock_of b) (length before + 1))).rig }
{}

/// The law of hearing: where a board's state of the turn in front of a homing section's start, or of a later
/// one, tells of a trigger that it could trigger at a tick of a turn that isn't before the start, the group
/// has heard of the board's members in this turn or later; and what it heard it keeps, whatever comes.
pub fn groups_hear_of_able_members()
    ensures new { (b when : ℕ) (clocks : List Clocks) (states : List State) (s : State) (h : Homing) →
        b < length clocks → state_at b states ≡ s ∷ [] → h.group.start ≤ when → h.start ≤ s.turn + 1 →
        TellAble (clocks_at clocks b) s.turn when s.news →
        HeardBy h.group.start b when (hears_all clocks states h).group.members }
    ensures on { (b when : ℕ) (clocks : List Clocks) (states : List State) (h : Homing) →
        HeardBy h.group.start b when h.group.members →
        HeardBy h.group.start b when (hears_all clocks states h).group.members }
{}

/// The law of answers on clear links: where a link rests as a turn begins and as it ends, all that a board
/// says as it runs on in the turn, and that its bytes tell, is among the news of this turn's state.
pub fn clear_boards_tell_at_once()
    ensures { (b : BoardDef) (pins : List (List Level)) (place : ℕ) (entries : List Entry) (t : BoardTurn)
        (before : List BoardTurn) (c : Cmd) → RestsOver t before →
        AreBoardTurns (clock_of b) (first_state b pins place entries) (t ∷ before) →
        IsAmong c (says (takes_all (stands_after (first_state b pins place entries) before).core.board
        (commands_of (queued_in (orders t.control t.batch)))).rig
        (board_tick (clock_of b) (length before + 1))) →
        IsText own_formats c (wire_text c) → (n : ℕ) × IsAmong (record { number = n; answer = c }) t.state.news }
{}

/// The law of news on clear links: where a link rests as a turn begins and as it ends, each of the news of
/// the turn's state has the bytes of an answer that the board gave in this turn, to a command that it took or
/// as it ran on.
pub fn clear_news_are_said_in_their_turn()
    ensures { (b : BoardDef) (pins : List (List Level)) (place : ℕ) (entries : List Entry) (t : BoardTurn)
        (before : List BoardTurn) (n : News) → RestsOver t before →
        AreBoardTurns (clock_of b) (first_state b pins place entries) (t ∷ before) → IsAmong n t.state.news →
        (a : Cmd)
        × IsAmong a ((takes_all (stands_after (first_state b pins place entries) before).core.board
        (commands_of (queued_in (orders t.control t.batch)))).answers
        ++ says (takes_all (stands_after (first_state b pins place entries) before).core.board
        (commands_of (queued_in (orders t.control t.batch)))).rig
        (board_tick (clock_of b) (length before + 1)))
        × IsText own_formats n.answer (wire_text a) }
{}

/// The law of limited triggers: a board's one trigger, whose timeout is at a tick and is renewed by commands
/// of a homing section behind its set-up, each later than the board's tick, and before time goes past it,
/// tells of no expiry but at one tick; and its timeout is the last one that was set, while it can trigger.
pub fn renewed_triggers_stay_limited()
    ensures { (oid tick limit : ℕ) (r : Rig) (steps : List RigStep) → IsLimited oid tick limit r →
        AreRenewing oid tick limit r steps →
        IsLimited oid tick (limit_after limit r steps) (rig_after_all steps r)
        × AllTellOnly tick (all_answers steps r) }
{}

/// The law of told states: what has the bytes of an answer is of the same kind; and what has those of an
/// answer that tells of a trigger, whose numbers fit, is that answer.
pub fn told_states_are_said()
    ensures kind { (c told : Cmd) → IsText own_formats told (wire_text c) → row_of told ≡ row_of c }
    ensures same { (a b r k oid can reason clock : ℕ) → a < 2 ^ 8 → b < 2 ^ 8 → r < 2 ^ 8 → k < 2 ^ 32 →
        IsText own_formats (TrsyncState oid can reason clock) (wire_text (TrsyncState a b r k)) →
        (oid ≡ a) × (can ≡ b) × (reason ≡ r) × (clock ≡ k) }
{}

/// The law of timeouts in time: a timeout at a turn two turns ahead or more, by clock lines that follow the
/// board, is read by the board as the lines' tick of that turn, which is later than the board's; and before
/// its time passes that tick it comes to a later turn than the one in front of it.
pub fn timeouts_come_ahead()
    ensures ahead { (own : ℕ → ℕ) (clocks : Clocks) (ready turn timeout : ℕ) → AreTicks own →
        (k : AreTracked own clocks ready) → ready ≤ turn → timeout ≤ k.until → turn + 2 ≤ timeout →
        timeout ≤ turn + 1_000 → own turn < own (turn + 1) → own turn < 2 ^ 63 → IsAhead own clocks turn timeout }
    ensures passes { (own : ℕ → ℕ) (clocks : Clocks) (ready turn timeout : ℕ) → (k : AreTracked own clocks ready) →
        ready ≤ turn → turn ≤ k.until → turn + 1 ≤ timeout → own turn ≤ lines_tick clocks (timeout * turn_ns) }
{}

/// The law of reports in time: a report of a tick that a board came to in a turn or later, told in another
/// turn, counts at this tick, in a turn that is at most four before the first, and not before a turn whose
/// tick by the lines isn't later; and a board goes on in each turn, and in six by more than the ticks between
/// two reports.
pub fn reports_count_in_time()
    ensures counts { (own : ℕ → ℕ) (clocks : Clocks) (ready turn from tick : ℕ) → AreTicks own →
        (k : AreTracked own clocks ready) → ready + 4 ≤ from → from ≤ turn → turn ≤ from + 1_000 → turn + 1 ≤ k.until →
        k.until < run_turns → own turn < 2 ^ 63 → own from ≤ tick → tick < own (turn + 1) →
        IsCounted clocks turn from tick }
    ensures rises { (clock : BoardClock) (turn : ℕ) → IsValidFreq clock.freq → ppm_size clock.drift ≤ 200 →
        board_tick clock turn < board_tick clock (turn + 1) }
    ensures every { (clock : BoardClock) (turn : ℕ) → IsValidFreq clock.freq → ppm_size clock.drift ≤ 200 →
        board_tick clock turn + clock.freq * 5 / 1_000 < board_tick clock (turn + 6) }
{}

/// The law of groups that stay ahead: from its start on, while not all its members have told that they
/// triggered, in each turn the last timeout of a homing group is three turns ahead, or that behind the
/// section's last turn, or no member's board can trigger any more. For it is in one of four modes (`IsIn`) as
/// it starts, and goes from one to another: where each member's board was heard of lately or is known to have
/// triggered, where boards that can't trigger stay so, and where none can any more behind a turn in which the
/// first relay is sent. That is sent to each member that isn't known to have triggered, from the fourth turn
/// behind the start on in the turn in which one is known to have triggered.
pub fn groups_stay_ahead()
    ensures ahead { (Dead : ℕ → Bool) (turn : ℕ) (g : GroupState) → g.start ≤ turn → all_fired g.members ≡ false →
        IsTimed g → IsIn Dead turn g →
        (turn + 3 ≤ (turned_group g turn).sent) ⊎ (((turned_group g turn).sent ≡ g.last + 1) ⊎ AllOn Dead g.members) }
    ensures begins { (Dead : ℕ → Bool) (g : GroupState) → g.relay ≡ None →
        HeardLately g.start g.last g.start g.members → IsIn Dead g.start g }
    ensures goes { (Dead Later : ℕ → Bool) (turn : ℕ) (g h : GroupState) → g.start ≤ turn →
        all_fired g.members ≡ false → IsTimed g → Hears (turned_group g turn) h → IsIn Dead turn g →
        (AllOn Dead g.members → AllOn Later h.members) →
        (g.start + 4 ≤ turn → any_fired_by g.last g.members ≡ true → g.relay ≡ None → AllOn Later h.members) →
        (any_fired_by g.last g.members ≡ false → HeardLately h.start h.last (turn + 1) h.members) →
        IsIn Later (turn + 1) h }
    ensures relays { (g : GroupState) (turn : ℕ) (x : Seen) → g.start + 4 ≤ turn → all_fired g.members ≡ false →
        g.relay ≡ None → any_fired_by g.last g.members ≡ true → Contains g.members x → x.fired ≡ None →
        Contains (group_orders g turn) (to_board x Trigger) }
{}

/// The law of a board's turns behind the set-up of a homing section: where the timeout that it is sent is
/// later than its tick, and it runs on to that timeout at most, or the timeout is at one tick, its timeout is
/// then the one that it was sent, and it tells of no expiry but at that tick; so where its trigger can't
/// trigger, whatever it is sent, and where it is sent no timeout. That stays so, and a relay makes it so. And
/// reasons go on fitting a byte, and so does what is answered.
pub fn turns_keep_triggers_limited()
    ensures ahead { (oid tick limit next clock now until : ℕ) (r : Rig) (cs : List Cmd) → r.controller.tick ≡ now →
        nearest now clock ≡ next → now < next → (takes_all r cs).rig.controller.state ≡ Running →
        AreSentBehind oid clock cs → (limit ≡ next) ⊎ SetsOne cs → ((until ≤ next) ⊎ (next ≡ tick)) →
        IsLimited oid tick limit r → IsTurnedTo oid tick next until r cs }
    ensures fired { (oid tick limit next clock until : ℕ) (r : Rig) (cs : List Cmd) →
        (takes_all r cs).rig.controller.state ≡ Running → AreSentBehind oid clock cs → HasFired oid r →
        IsLimited oid tick limit r → IsTurnedTo oid tick next until r cs }
    ensures far { (oid tick limit clock until : ℕ) (r : Rig) (cs : List Cmd) →
        (takes_all r cs).rig.controller.state ≡ Running → AreSentBehind oid clock cs → SetsNone cs →
        ((until ≤ limit) ⊎ (limit ≡ tick)) → IsLimited oid tick limit r → IsTurnedTo oid tick limit until r cs }
    ensures stays { (oid clock until : ℕ) (r : Rig) (cs : List Cmd) → AreSentBehind oid clock cs → HasFired oid r →
        HasFired oid (passes (takes_all r cs).rig until).rig }
    ensures small { (oid clock until : ℕ) (r : Rig) (cs : List Cmd) → AreSentBehind oid clock cs → AllSmall r →
        AllSmall (passes (takes_all r cs).rig until).rig
        × AreSmall ((takes_all r cs).answers ++ says (takes_all r cs).rig until) }
    ensures spoken { (base limit until oid clock now : ℕ) (r : Rig) (cs : List Cmd) (s : Slot) →
        (takes_all r cs).rig.controller.state ≡ Running → slot_at r oid ≡ Some s → s.trigger.untold ≡ None →
        r.controller.tick ≡ now → now < nearest now clock → AreSentBehind oid clock cs → RelayNone cs →
        AreSpoken base limit until (passes (takes_all r cs).rig until).answers →
        AreSpoken base limit until ((takes_all r cs).answers ++ says (takes_all r cs).rig until) }
    ensures numbered { (oid clock until : ℕ) (r : Rig) (cs : List Cmd) → length r.triggers ≤ 256 →
        length (takes_all r cs).rig.triggers ≤ 256 → IsSole oid r → IsSole oid (takes_all r cs).rig →
        AreSentBehind oid clock cs → AreNumbered ((takes_all r cs).answers ++ says (takes_all r cs).rig until) }
    ensures relay { (oid clock until : ℕ) (r : Rig) (cs : List Cmd) (s : Slot) → slot_at r oid ≡ Some s →
        (takes_all r cs).rig.controller.state ≡ Running → AreSentBehind oid clock cs → RelaysOne cs →
        HasFired oid (passes (takes_all r cs).rig until).rig }
{}

/// The law of switches: while time passes to a tick that isn't past a trigger's timeout, a trigger that can
/// trigger and then can't told so, of a tick at which its switch may trigger it, before the stretch's end and
/// its timeout.
pub fn switched_triggers_tell_so()
    ensures { (oid base until limit : ℕ) (r : Rig) (s : Slot) → until ≤ limit → slot_at r oid ≡ Some s →
        AllKeen base limit until r →
        IsOff oid base until limit s.trigger.can (passes r until).rig (passes r until).answers
        × AllKeen base limit until (passes r until).rig × AreSpoken base limit until (passes r until).answers }
{}

/// The law of boards that can trigger: over a turn in which the timeout is later than the board's tick, and
/// none is told to trigger, the trigger can still trigger, and each report that came due was told; or its
/// switch triggered it, and that was told, of a tick of the turn before the timeout.
pub fn boards_tell_over_turns()
    ensures { (oid base every tick next now until clock : ℕ) (r : Rig) (cs : List Cmd)
        (a : IsAlive oid base every now r) → a.slot.trigger.untold ≡ None → r.controller.tick ≡ now →
        now < nearest now clock → (takes_all r cs).rig.controller.state ≡ Running → AreSentBehind oid clock cs →
        RelayNone cs → IsLimited oid tick next (takes_all r cs).rig → AllSound (takes_all r cs).rig →
        AreRegular (takes_all r cs).rig.triggers → (takes_all r cs).rig.controller.tick ≡ now → now ≤ until →
        until ≤ next →
        (StaysAlive oid base every now until a.next (passes (takes_all r cs).rig until).rig
        (passes (takes_all r cs).rig until).answers
        ⊎ IsSwitched oid base now until next (passes (takes_all r cs).rig until).rig
        (passes (takes_all r cs).rig until).answers)
        × AreSpoken (max base now) next until (passes (takes_all r cs).rig until).answers }
{}

/// The law of knowing: where a board's state of the turn in front of a homing section's start, or of a later
/// one, tells of a trigger that it can't trigger, and all that it tells of such triggers is of ticks in turns
/// from the start to another one, its members are known to have triggered by that turn, unless more was known
/// of them; and that goes on, whatever comes.
pub fn groups_know_of_triggers()
    ensures fired { (b last : ℕ) (clocks : List Clocks) (states : List State) (s : State) (h : Homing) →
        b < length clocks → state_at b states ≡ s ∷ [] → h.start ≤ s.turn + 1 →
        AllFiredIn (clocks_at clocks b) s.turn h.group.start last s.news → SayFired s.news →
        KnownOn b last h.group.members → FiredOn b last (hears_all clocks states h).group.members }
    ensures known { (b last : ℕ) (clocks : List Clocks) (states : List State) (h : Homing) →
        ((s : State) → state_at b states ≡ s ∷ [] → h.start ≤ s.turn + 1 →
        AllFiredIn (clocks_at clocks b) s.turn h.group.start last s.news) →
        KnownOn b last h.group.members → KnownOn b last (hears_all clocks states h).group.members }
    ensures still { (b last : ℕ) (clocks : List Clocks) (states : List State) (h : Homing) →
        FiredOn b last h.group.members → FiredOn b last (hears_all clocks states h).group.members }
{}

/// The law of triggers on clear links: where a link rests as a turn begins and as it ends, the state of the
/// turn tells of a trigger that it could trigger where the board told so as it ran on in the turn, at the
/// turn of its tick; and that it can't, where the board told so; and where all that the board answers of
/// triggers that can't trigger is of ticks that count in some turns, so is all that the state tells.
pub fn clear_states_tell_of_triggers()
    ensures able { (b : BoardDef) (pins : List (List Level)) (place : ℕ) (entries : List Entry) (t : BoardTurn)
        (before : List BoardTurn) (clocks : Clocks) (oid clock when base limit until : ℕ) → RestsOver t before →
        AreBoardTurns (clock_of b) (first_state b pins place entries) (t ∷ before) → oid < 2 ^ 8 →
        AreSpoken base limit until (passes (takes_all
        (stands_after (first_state b pins place entries) before).core.board
        (commands_of (queued_in (orders t.control t.batch)))).rig
        (board_tick (clock_of b) (length before + 1))).answers →
        TellCan oid clock (passes (takes_all (stands_after (first_state b pins place entries) before).core.board
        (commands_of (queued_in (orders t.control t.batch)))).rig
        (board_tick (clock_of b) (length before + 1))).answers →
        turn_in_run clocks (nearest (turn_tick clocks (length before)) clock) ≡ Some when →
        TellAble clocks (length before) when t.state.news }
    ensures fired { (b : BoardDef) (pins : List (List Level)) (place : ℕ) (entries : List Entry) (t : BoardTurn)
        (before : List BoardTurn) (oid clock base limit until : ℕ) → RestsOver t before →
        AreBoardTurns (clock_of b) (first_state b pins place entries) (t ∷ before) → oid < 2 ^ 8 →
        AreSpoken base limit until (passes (takes_all
        (stands_after (first_state b pins place entries) before).core.board
        (commands_of (queued_in (orders t.control t.batch)))).rig
        (board_tick (clock_of b) (length before + 1))).answers →
        TellOff oid clock (passes (takes_all (stands_after (first_state b pins place entries) before).core.board
        (commands_of (queued_in (orders t.control t.batch)))).rig
        (board_tick (clock_of b) (length before + 1))).answers →
        SayFired t.state.news }
    ensures all { (b : BoardDef) (pins : List (List Level)) (place : ℕ) (entries : List Entry) (t : BoardTurn)
        (before : List BoardTurn) (clocks : Clocks) (start last base limit until : ℕ) → RestsOver t before →
        AreBoardTurns (clock_of b) (first_state b pins place entries) (t ∷ before) →
        AreSpoken base limit until ((takes_all (stands_after (first_state b pins place entries) before).core.board
        (commands_of (queued_in (orders t.control t.batch)))).answers
        ++ says (takes_all (stands_after (first_state b pins place entries) before).core.board
        (commands_of (queued_in (orders t.control t.batch)))).rig
        (board_tick (clock_of b) (length before + 1))) →
        AreNumbered ((takes_all (stands_after (first_state b pins place entries) before).core.board
        (commands_of (queued_in (orders t.control t.batch)))).answers
        ++ says (takes_all (stands_after (first_state b pins place entries) before).core.board
        (commands_of (queued_in (orders t.control t.batch)))).rig
        (board_tick (clock_of b) (length before + 1))) →
        ((at : ℕ) → base ≤ at → at < limit → at < until →
        (when : ℕ) × (start ≤ when) × (when ≤ last)
        × (turn_in_run clocks (nearest (turn_tick clocks (length before)) (at % 2 ^ 32)) ≡ Some when)) →
        AllFiredIn clocks (length before) start last t.state.news }
{}

/// The law of orders behind the set-up: from its start on, while not all its members have told that they
/// triggered, all that a homing group orders of a board sets its last timeout or triggers; before the first
/// relay nothing triggers; the timeout is set where it grows, and none is where it is the one behind the
/// section's last turn; and a relay becomes a command to its board.
pub fn group_orders_are_behind()
    ensures behind { (m : Machine) (clocks : Clocks) (b start : ℕ) (axis : AxisDef) (g : GroupState) (turn : ℕ) →
        g.start ≤ turn → all_fired g.members ≡ false →
        AreSentBehind (trigger_of m b) (low (turn_tick clocks (turned_group g turn).sent))
        (commands_to m clocks b start axis (group_orders g turn)) }
    ensures none { (m : Machine) (clocks : Clocks) (b start : ℕ) (axis : AxisDef) (g : GroupState) (turn : ℕ) →
        g.start ≤ turn → all_fired g.members ≡ false → g.relay ≡ None → relay_begins g turn ≡ false →
        RelayNone (commands_to m clocks b start axis (group_orders g turn)) }
    ensures sets { (m : Machine) (clocks : Clocks) (b start : ℕ) (axis : AxisDef) (g : GroupState) (turn : ℕ)
        (x : Seen) → g.start ≤ turn → all_fired g.members ≡ false → Contains g.members x → x.member.board ≡ b →
        (g.sent ≡ (turned_group g turn).sent) ⊎ SetsOne (commands_to m clocks b start axis (group_orders g turn)) }
    ensures far { (m : Machine) (clocks : Clocks) (b start : ℕ) (axis : AxisDef) (g : GroupState) (turn : ℕ) →
        g.start ≤ turn → all_fired g.members ≡ false → g.sent ≡ g.last + 1 →
        SetsNone (commands_to m clocks b start axis (group_orders g turn)) }
    ensures unset { (oid : ℕ) (cs : List Cmd) → ((clock : ℕ) → AreSentBehind oid clock cs) → SetsNone cs }
    ensures relays { (m : Machine) (clocks : Clocks) (b start : ℕ) (axis : AxisDef) (g : GroupState) (turn : ℕ)
        (x : Seen) → x.member.board ≡ b → Contains (group_orders g turn) (to_board x Trigger) →
        RelaysOne (commands_to m clocks b start axis (group_orders g turn)) }
{}

/// The law of boards that are heard of: over a turn of a clear link in which a board's trigger stays able to
/// trigger, the group hears of the reports that were told in it; so the board was heard of lately. And where
/// each member's board was heard of lately or is known to have triggered, so is the group.
pub fn boards_are_heard_of_lately()
    ensures turn { (b : BoardDef) (pins : List (List Level)) (place : ℕ) (entries : List Entry) (t : BoardTurn)
        (before : List BoardTurn) (all : List Clocks) (states : List State) (h : Homing)
        (oid base every next first limit ready : ℕ) → RestsOver t before →
        AreBoardTurns (clock_of b) (first_state b pins place entries) (t ∷ before) →
        AreTicks (λ k. board_tick (clock_of b) k) →
        (k : AreTracked (λ k. board_tick (clock_of b) k) (clocks_at all place) ready) → place < length all →
        state_at place states ≡ t.state ∷ [] → h.start ≡ h.group.start →
        lines_tick (clocks_at all place) (h.start * turn_ns) ≡ base → ready + 5 ≤ h.start → ready + 4 ≤ length before →
        length before + 1 ≤ k.until → h.start ≤ k.until → k.until < run_turns →
        (board_tick (clock_of b) (length before)) < 2 ^ 63 → oid < 2 ^ 8 →
        AreSpoken first limit (board_tick (clock_of b) (length before + 1)) (passes
        (takes_all (stands_after (first_state b pins place entries) before).core.board
        (commands_of (queued_in (orders t.control t.batch)))).rig
        (board_tick (clock_of b) (length before + 1))).answers →
        (a : StaysAlive oid base every (board_tick (clock_of b) (length before))
        (board_tick (clock_of b) (length before + 1)) next (passes (takes_all
        (stands_after (first_state b pins place entries) before).core.board
        (commands_of (queued_in (orders t.control t.batch)))).rig
        (board_tick (clock_of b) (length before + 1))).rig
        (passes (takes_all (stands_after (first_state b pins place entries) before).core.board
        (commands_of (queued_in (orders t.control t.batch)))).rig
        (board_tick (clock_of b) (length before + 1))).answers) →
        IsHeardOf (λ k. board_tick (clock_of b) k) base every h.group.start place next h.group.members →
        IsHeardOf (λ k. board_tick (clock_of b) k) base every h.group.start place a.alive.next
        (hears_all all states h).group.members }
    ensures near { (own : ℕ → ℕ) (base every start b turn next : ℕ) (xs : List Seen) → AreTicks own →
        ((k : ℕ) → own k + every < own (k + 6)) → base < own (start + 4) → own turn ≤ next →
        IsHeardOf own base every start b next xs → NearOn start b turn xs }
    ensures all { (start last turn : ℕ) (xs : List Seen) →
        ((x : Seen) → Contains xs x → NearOn start x.member.board turn xs ⊎ FiredOn x.member.board last xs) →
        HeardLately start last turn xs }
    ensures known { (b last : ℕ) (x : Seen) (xs : List Seen) → Contains xs x → x.member.board ≡ b → FiredOn b last xs →
        any_fired_by last xs ≡ true }
{}

/// The law of expiries on clear links: where a link rests as a turn begins and as it ends, and all that a
/// board answers in the turn tells of no expiry but at one tick, an expiry of which the turn's state tells
/// counts in no turn before one that begins at that tick or before it; and where that is so of two ticks, it
/// tells of none.
pub fn clear_states_tell_of_expiries()
    ensures late { (b : BoardDef) (pins : List (List Level)) (place : ℕ) (entries : List Entry) (t : BoardTurn)
        (before : List BoardTurn) (own : ℕ → ℕ) (clocks : Clocks) (ready tick when begin : ℕ) → RestsOver t before →
        AreBoardTurns (clock_of b) (first_state b pins place entries) (t ∷ before) → (k : AreTracked own clocks ready) →
        AllTellOnly tick ((takes_all (stands_after (first_state b pins place entries) before).core.board
        (commands_of (queued_in (orders t.control t.batch)))).answers
        ++ says (takes_all (stands_after (first_state b pins place entries) before).core.board
        (commands_of (queued_in (orders t.control t.batch)))).rig
        (board_tick (clock_of b) (length before + 1))) →
        AreSmall ((takes_all (stands_after (first_state b pins place entries) before).core.board
        (commands_of (queued_in (orders t.control t.batch)))).answers
        ++ says (takes_all (stands_after (first_state b pins place entries) before).core.board
        (commands_of (queued_in (orders t.control t.batch)))).rig
        (board_tick (clock_of b) (length before + 1))) →
        AreNumbered ((takes_all (stands_after (first_state b pins place entries) before).core.board
        (commands_of (queued_in (orders t.control t.batch)))).answers
        ++ says (takes_all (stands_after (first_state b pins place entries) before).core.board
        (commands_of (queued_in (orders t.control t.batch)))).rig
        (board_tick (clock_of b) (length before + 1))) →
        nearest (turn_tick clocks (length before)) (tick % 2 ^ 32) ≡ tick → lines_tick clocks (begin * turn_ns) ≤ tick →
        TellExpiry clocks (length before) when t.state.news → begin ≤ when }
    ensures none { (b : BoardDef) (pins : List (List Level)) (place : ℕ) (entries : List Entry) (t : BoardTurn)
        (before : List BoardTurn) (clocks : Clocks) (when : ℕ) → RestsOver t before →
        AreBoardTurns (clock_of b) (first_state b pins place entries) (t ∷ before) →
        AllTellOnly 0 ((takes_all (stands_after (first_state b pins place entries) before).core.board
        (commands_of (queued_in (orders t.control t.batch)))).answers
        ++ says (takes_all (stands_after (first_state b pins place entries) before).core.board
        (commands_of (queued_in (orders t.control t.batch)))).rig
        (board_tick (clock_of b) (length before + 1))) →
        AllTellOnly 1 ((takes_all (stands_after (first_state b pins place entries) before).core.board
        (commands_of (queued_in (orders t.control t.batch)))).answers
        ++ says (takes_all (stands_after (first_state b pins place entries) before).core.board
        (commands_of (queued_in (orders t.control t.batch)))).rig
        (board_tick (clock_of b) (length before + 1))) →
        AreSmall ((takes_all (stands_after (first_state b pins place entries) before).core.board
        (commands_of (queued_in (orders t.control t.batch)))).answers
        ++ says (takes_all (stands_after (first_state b pins place entries) before).core.board
        (commands_of (queued_in (orders t.control t.batch)))).rig
        (board_tick (clock_of b) (length before + 1))) →
        AreNumbered ((takes_all (stands_after (first_state b pins place entries) before).core.board
        (commands_of (queued_in (orders t.control t.batch)))).answers
        ++ says (takes_all (stands_after (first_state b pins place entries) before).core.board
        (commands_of (queued_in (orders t.control t.batch)))).rig
        (board_tick (clock_of b) (length before + 1))) →
        TellExpiry clocks (length before) when t.state.news → ⊥ }
{}

/// The law of groups that go ahead: from its start on, while not all its members have told that they
/// triggered, a homing group's last timeout stays that behind the section's last turn, or three turns ahead,
/// or no member's board can trigger any more, each turn as the one before, and its timeouts stay in their
/// bounds; and what boards tell changes nothing of that.
pub fn groups_go_ahead()
    ensures begins { (Dead : ℕ → Bool) (g : GroupState) → IsTimed g → g.relay ≡ None →
        HeardLately g.start g.last g.start g.members → IsAheadIn Dead g.start g }
    ensures goes { (Dead Later : ℕ → Bool) (turn : ℕ) (g h : GroupState) → g.start ≤ turn →
        all_fired g.members ≡ false → IsTimed g → Hears (turned_group g turn) h → IsAheadIn Dead turn g →
        (AllOn Dead g.members → AllOn Later h.members) →
        (g.start + 4 ≤ turn → any_fired_by g.last g.members ≡ true → g.relay ≡ None → AllOn Later h.members) →
        (any_fired_by g.last g.members ≡ false → HeardLately h.start h.last (turn + 1) h.members) →
        IsAheadIn Later (turn + 1) h }
    ensures timed { (g h : GroupState) (turn : ℕ) → g.start ≤ turn → all_fired g.members ≡ false → IsTimed g →
        Hears (turned_group g turn) h → IsTimed h }
    ensures hears { (clocks : List Clocks) (states : List State) (h : Homing) →
        Hears h.group (hears_all clocks states h).group }
{}

/// The law of members of a homing group: over a turn of a clear link from a homing section's start on, in
/// which the timeout is two turns ahead, not later than that behind the section's last turn, and none is told
/// to trigger, a board whose trigger can trigger and that was heard of lately tells of no expiry; and then
/// its trigger can still trigger, and the group heard of it lately and knows no more, or it can't, and the
/// group knows that it triggered by the section's last turn.
pub fn members_are_heard_or_known()
    ensures { (b : BoardDef) (pins : List (List Level)) (place : ℕ) (entries : List Entry) (t : BoardTurn)
        (before : List BoardTurn) (all : List Clocks) (states : List State) (h : Homing)
        (oid base every ready sent next : ℕ) → RestsOver t before →
        AreBoardTurns (clock_of b) (first_state b pins place entries) (t ∷ before) →
        AreTicks (λ k. board_tick (clock_of b) k) →
        (k : AreTracked (λ k. board_tick (clock_of b) k) (clocks_at all place) ready) → place < length all →
        state_at place states ≡ t.state ∷ [] → h.start ≡ h.group.start →
        lines_tick (clocks_at all place) (h.start * turn_ns) ≡ base → ready + 5 ≤ h.start → ready + 4 ≤ length before →
        length before + 1 ≤ k.until → h.start ≤ k.until → next ≤ k.until → k.until < run_turns →
        (board_tick (clock_of b) (length before)) < 2 ^ 63 →
        (board_tick (clock_of b) (length before)) < (board_tick (clock_of b) (length before + 1)) →
        ((u : ℕ) → board_tick (clock_of b) u + every < board_tick (clock_of b) (u + 6)) → length before + 2 ≤ next →
        next ≤ length before + 1_000 → next ≤ h.group.last + 1 → oid < 2 ^ 8 →
        length (stands_after (first_state b pins place entries) before).core.board.triggers ≤ 256 →
        (stands_after (first_state b pins place entries) before).core.board.controller.tick
        ≡ (board_tick (clock_of b) (length before)) →
        (takes_all (stands_after (first_state b pins place entries) before).core.board
        (commands_of (queued_in (orders t.control t.batch)))).rig.controller.state ≡ Running →
        AreSentBehind oid (low (turn_tick (clocks_at all place) next))
        (commands_of (queued_in (orders t.control t.batch))) →
        RelayNone (commands_of (queued_in (orders t.control t.batch))) →
        (sent ≡ next) ⊎ SetsOne (commands_of (queued_in (orders t.control t.batch))) →
        ((tick : ℕ) →
        IsLimited oid tick (lines_tick (clocks_at all place) (sent * turn_ns))
        (stands_after (first_state b pins place entries) before).core.board) →
        AllSound (stands_after (first_state b pins place entries) before).core.board →
        (a : IsAlive oid base every (board_tick (clock_of b) (length before))
        (stands_after (first_state b pins place entries) before).core.board) →
        IsHeardOf (λ k. board_tick (clock_of b) k) base every h.group.start place a.next h.group.members →
        NoneOn place h.group.members →
        ((tick : ℕ) →
        IsTurnedTo oid tick (lines_tick (clocks_at all place) (next * turn_ns))
        (board_tick (clock_of b) (length before + 1))
        (stands_after (first_state b pins place entries) before).core.board
        (commands_of (queued_in (orders t.control t.batch))))
        × IsMember (λ k. board_tick (clock_of b) k) oid base every h.group.start h.group.last place (length before + 1)
        (passes (takes_all (stands_after (first_state b pins place entries) before).core.board
        (commands_of (queued_in (orders t.control t.batch)))).rig
        (board_tick (clock_of b) (length before + 1))).rig
        (hears_all all states h).group.members }
{}

/// The law of turns in which a board homes: in a turn of a run that goes on, past connecting, in which a
/// homing section is under way whose group doesn't answer, a board is sent the commands of the group's
/// orders, and then such as set no timeout and trigger nothing.
pub fn homing_turns_are_ordered()
    ensures { (m : Machine) (switches : List Switch) (pins : List (List Level)) (entries : List Entry) (b : ℕ)
        (c : Came) (before : List Came) (t : BoardTurn) (turns : List BoardTurn) (h : Homing) →
        IsInRun m switches pins entries b (c ∷ before) (t ∷ turns) →
        (noted m c.note (known_by m switches before)).homing ≡ Some h →
        ((noted m c.note (known_by m switches before)).phase ≡ Connecting → ⊥) →
        answer_in (length before) h.start
        (hears_all (noted m c.note (known_by m switches before)).clocks c.states h).group ≡ None →
        IsOrdered m (clocks_at (noted m c.note (known_by m switches before)).clocks b) b h (length before)
        (hears_all (noted m c.note (known_by m switches before)).clocks c.states h).group
        (commands_of (queued_in (orders t.control t.batch))) }
{}

/// The law of what a board is sent: in a turn of a homing section that is under way, from its start on, while
/// not all members have told that they triggered, all that a board is sent is behind the set-up, with the
/// group's last timeout; before the first relay nothing triggers; a member is sent that timeout where it
/// grows, and none where it was the one behind the section's last turn; and in the turn of the first relay
/// each member that isn't known to have triggered is told to trigger.
pub fn homing_boards_are_sent_so()
    ensures behind { (m : Machine) (clocks : Clocks) (b : ℕ) (h : Homing) (turn : ℕ) (g : GroupState)
        (commands : List Cmd) → IsOrdered m clocks b h turn g commands → g.start ≤ turn → all_fired g.members ≡ false →
        AreSentBehind (trigger_of m b) (low (turn_tick clocks (turned_group g turn).sent)) commands }
    ensures none { (m : Machine) (clocks : Clocks) (b : ℕ) (h : Homing) (turn : ℕ) (g : GroupState)
        (commands : List Cmd) → IsOrdered m clocks b h turn g commands → g.start ≤ turn → all_fired g.members ≡ false →
        g.relay ≡ None → relay_begins g turn ≡ false → RelayNone commands }
    ensures sets { (m : Machine) (clocks : Clocks) (b : ℕ) (h : Homing) (turn : ℕ) (g : GroupState)
        (commands : List Cmd) (x : Seen) → IsOrdered m clocks b h turn g commands → g.start ≤ turn →
        all_fired g.members ≡ false → Contains g.members x → x.member.board ≡ b →
        (g.sent ≡ (turned_group g turn).sent) ⊎ SetsOne commands }
    ensures relays { (m : Machine) (clocks : Clocks) (b : ℕ) (h : Homing) (turn : ℕ) (g : GroupState)
        (commands : List Cmd) (x : Seen) → IsOrdered m clocks b h turn g commands → g.start ≤ turn →
        all_fired g.members ≡ false → Contains g.members x → x.member.board ≡ b → x.fired ≡ None → g.start + 4 ≤ turn →
        g.relay ≡ None → any_fired_by g.last g.members ≡ true → RelaysOne commands }
    ensures far { (m : Machine) (clocks : Clocks) (b : ℕ) (h : Homing) (turn : ℕ) (g : GroupState)
        (commands : List Cmd) → IsOrdered m clocks b h turn g commands → g.start ≤ turn → all_fired g.members ≡ false →
        g.sent ≡ g.last + 1 → SetsNone commands }
{}

/// The law of a homing group and its boards: from its start on, while not all its members have told that they
/// triggered, and its last timeout is far ahead, or the one behind the section's last turn, or no member's
/// board can trigger, so it is a turn later: where boards that can't trigger stay so, none can behind the
/// turn of the first relay, and each board that can trigger was heard of lately, or is known to have
/// triggered.
pub fn groups_and_boards_go_on()
    ensures { (own : ℕ → ℕ → ℕ) (oids bases every : ℕ → ℕ) (now next : ℕ → Rig) (turn : ℕ) (g h : GroupState) →
        g.start ≤ turn → all_fired g.members ≡ false → IsTimed g → Hears (turned_group g turn) h →
        members_of h ≡ members_of g →
        ((x : Seen) → Contains g.members x → HasFired (oids x.member.board) (now x.member.board) →
        HasFired (oids x.member.board) (next x.member.board)) →
        (g.start + 4 ≤ turn → any_fired_by g.last g.members ≡ true → g.relay ≡ None → (x : Seen) →
        Contains g.members x → HasFired (oids x.member.board) (next x.member.board)) →
        (any_fired_by g.last g.members ≡ false → (x : Seen) → Contains h.members x →
        IsMember (own x.member.board) (oids x.member.board) (bases x.member.board) (every x.member.board) h.start h.last
        x.member.board (turn + 1) (next x.member.board) h.members) →
        IsAheadIn (fired_at oids now) turn g → IsAheadIn (fired_at oids next) (turn + 1) h }
{}

/// The law of groups that answer that a board expired: the board told so, in a state of the turn in front of
/// the section's start or later, of a tick in that turn, which isn't past the section's last one; so a group
/// never answers so, where no state that came tells of such a tick.
pub fn groups_expire_only_where_told()
    ensures told { (m : Machine) (switches : List Switch) (c : Came) (before : List Came) (h : Homing) (b turn : ℕ) →
        GoesOn m switches before → (noted m c.note (known_by m switches before)).homing ≡ Some h →
        answer_in (length before) h.start
        (hears_all (noted m c.note (known_by m switches before)).clocks c.states h).group
        ≡ Some (Expired b turn) →
        (turn ≤ h.group.last) × CameExpiry m switches b h.start turn (c ∷ before) }
    ensures never { (m : Machine) (switches : List Switch) (c : Came) (before : List Came) (h : Homing) (b turn : ℕ) →
        GoesOn m switches before → (noted m c.note (known_by m switches before)).homing ≡ Some h →
        ((when : ℕ) → when ≤ h.group.last → (later : List Came) (d : Came) (past : List Came) →
        c ∷ before ≡ later ++ d ∷ past → (s : State) → state_at b d.states ≡ s ∷ [] → h.start ≤ s.turn + 1 →
        TellExpiry (clocks_at (noted m d.note (known_by m switches past)).clocks b) s.turn when s.news → ⊥) →
        answer_in (length before) h.start
        (hears_all (noted m c.note (known_by m switches before)).clocks c.states h).group
        ≡ Some (Expired b turn) → ⊥ }
{}

/// The law of boards that stand so: as a turn begins a board of a link stands at its tick of that turn, and
/// its triggers are sound; and on a clear link it runs behind all that it took in a turn of whose end no
/// shutdown is told.
pub fn boards_stand_at_their_ticks()
    ensures tick { (b : BoardDef) (pins : List (List Level)) (place : ℕ) (entries : List Entry)
        (turns : List BoardTurn) → AreBoardTurns (clock_of b) (first_state b pins place entries) turns →
        (stands_after (first_state b pins place entries) turns).core.board.controller.tick
        ≡ board_tick (clock_of b) (length turns) }
    ensures sound { (b : BoardDef) (pins : List (List Level)) (place : ℕ) (entries : List Entry)
        (turns : List BoardTurn) → AreBoardTurns (clock_of b) (first_state b pins place entries) turns →
        AllSound (stands_after (first_state b pins place entries) turns).core.board }
    ensures runs { (b : BoardDef) (pins : List (List Level)) (place : ℕ) (entries : List Entry) (t : BoardTurn)
        (before : List BoardTurn) → RestsOver t before →
        AreBoardTurns (clock_of b) (first_state b pins place entries) (t ∷ before) → t.state.shut ≡ None →
        (takes_all (stands_after (first_state b pins place entries) before).core.board
        (commands_of (queued_in (orders t.control t.batch)))).rig.controller.state ≡ Running }
{}
