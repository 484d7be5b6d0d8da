//! What holds of a board and the reactor over the turns of any run.

ghost use Rattle.std.specs.Prelude.{◌≡◌, ◌+◌, ◌-◌, ◌*◌, ◌%◌, ◌<◌, ◌≤◌, ℕ, pos, List, [], ◌∷◌, ◌++◌, All, None, Some, length, map, true, false};
ghost use Rattle.std.specs.List.{filter};
ghost use Rattle.plan_types.specs.declared.levels.Level.{Level};
ghost use Rattle.plan_types.specs.declared.clock.BoardClock.{BoardClock};
ghost use Rattle.plan_types.specs.declared.machine.BoardDef.{BoardDef};
ghost use Rattle.plan_types.specs.declared.machine.Machine.{Machine};
ghost use Rattle.plan_types.specs.declared.plan.Line.{Line};
ghost use Rattle.plan_types.specs.Clock.{board_tick, clock_of, tick, tick_limit, turn_ns};
ghost use Rattle.plan_types.specs.Lines.{Clocks};
ghost use Rattle.plan_types.specs.Machines.{IsValidFreq, IsValidMachine, board_at, stepper_at};
ghost use Rattle.clock_line.specs.declared.sample.Sample.{Sample};
ghost use Rattle.clock_line.specs.Kept.{AreKept};
ghost use Rattle.clock_line.specs.Samples.{AreWithin, chosen, line_reach, ppm_size, sampled};
ghost use Rattle.msg_code.specs.declared.cmd.Cmd.{Cmd};
ghost use Rattle.board_asking.specs.Machine.{configuration, setup_command, trigger_of};
ghost use Rattle.wire_scene.specs.declared.scene.Entry.{Entry};
ghost use Rattle.wire_scene.specs.declared.scene.Switch.{Switch};
ghost use Rattle.wire_scene.specs.declared.scene.Way.TheVariants.{Down, Up};
ghost use Rattle.wire_scene.specs.Wire.{entries_of};
ghost use Rattle.board_world.specs.Orders.{plain};
ghost use Rattle.board_world.specs.World.{on_wire};
ghost use Rattle.link_work.specs.Ends.{EndSo, last_link};
ghost use Rattle.link_work.specs.Limits.{AllKeepLimits, bytes_in, closing_in};
ghost use Rattle.link_work.specs.Runs.{AreTurns};
ghost use Rattle.link_work.specs.Turn.{LinkState};
ghost use Rattle.link_work.specs.Stands.{first_state};
ghost use Rattle.host_reactor.specs.declared.ordered.Phase.TheVariants.{Connecting, Stopping};
ghost use Rattle.host_reactor.specs.Notes.{noted};
ghost use Rattle.host_reactor.specs.Runs.{Came, known_by, last_reacted};
ghost use Rattle.laws_board.specs.turns.Turns.{AreBoardTurns, BoardTurn, stands_after};
ghost use Rattle.plan_types.specs.Sections.{clocks_at};
ghost use Rattle.clock_line.specs.Early.{turn_tick};
ghost use Rattle.axis_homing.specs.declared.homing.Homing.{Homing};
ghost use Rattle.laws_board.specs.clocks.Clocked.{SetsTo};
ghost use Rattle.laws_board.specs.clocks.Near.{AllKeepUp, IsExact, IsUndisturbed, KeepsUp, LinesKeepUp};
ghost use Rattle.laws_board.specs.clocks.Ordered.{MayOrder, commands_in, configures, times_made};
ghost use Rattle.laws_board.specs.clocks.Quickest.{IsQuickest, best_behind};
ghost use Rattle.laws_board.specs.clocks.Runs.{IsInRun, UnitsFit, ends_in, orders_in};
ghost use Rattle.laws_board.specs.clocks.Samples.{IsFresh, IsSample, IsSampled, IsSampledAtOnce, WasPut, WasTold, first_line, further_lines, lines_told};

/// The law of answers: whatever the scene, a clock that comes to the host is the board's own tick of a turn
/// no later than the one in which it comes; and its reply has the number behind that of a block, which was
/// first put in that turn or before it.
pub fn answers_tell_own_ticks()
    ensures { (b : BoardDef) (pins : List (List Level)) (board : ℕ) (entries : List Entry) (turns : List BoardTurn) →
        AreBoardTurns (clock_of b) (first_state b pins board entries) turns →
        board_tick (clock_of b) (length turns) < tick_limit → (number clock turn : ℕ) →
        WasTold number clock turn turns →
        (block at : ℕ) × (number ≡ block + 1) × (at ≤ turn) × (clock ≡ board_tick (clock_of b) at)
        × ((put : ℕ) → WasPut block put turns → put ≤ at) }
{}

/// The law of clock lines: in a run that goes on, each clock line of a board that the reactor tells the
/// motion machine is that of a sample of the board's clock; and once connecting ended, so is the first line
/// of the board that it knows. A further line is that of an answer that came in the turn before.
pub fn clock_lines_are_samples()
    ensures told { (m : Machine) (switches : List Switch) (pins : List (List Level)) (entries : List Entry) (b : ℕ)
        (c : Came) (before : List Came) (t : BoardTurn) (turns : List BoardTurn) →
        IsInRun m switches pins entries b (c ∷ before) (t ∷ turns) →
        All (IsSampled (clock_of (board_at m b)) turns)
        (lines_told b (last_reacted m switches c before).ordered.word.news) }
    ensures known { (m : Machine) (switches : List Switch) (pins : List (List Level)) (entries : List Entry) (b : ℕ)
        (came : List Came) (turns : List BoardTurn) → IsInRun m switches pins entries b came turns →
        ((known_by m switches came).phase ≡ Connecting → ⊥) →
        (l : Line) × (first_line b (known_by m switches came).clocks ≡ l ∷ [])
        × IsSampled (clock_of (board_at m b)) turns l }
    ensures further { (m : Machine) (switches : List Switch) (pins : List (List Level)) (entries : List Entry) (b : ℕ)
        (c : Came) (before : List Came) (t : BoardTurn) (turns : List BoardTurn) →
        IsInRun m switches pins entries b (c ∷ before) (t ∷ turns) →
        All (IsFresh (clock_of (board_at m b)) turns)
        (further_lines b (last_reacted m switches c before).ordered.word.news) }
{}

/// The law of samples: where there are some, the line is taken of the first of the quickest: the sample is
/// one of those given, each one ahead of it took longer, and none behind it took less. It is the one that is
/// kept of a board, sample by sample.
pub fn quickest_samples_are_chosen()
    ensures { (first : Sample) (others : List Sample) (freq : ℕ) →
        (s : Sample) × IsQuickest s (first ∷ others) × (chosen (first ∷ others) freq ≡ sampled s freq)
        × (best_behind None (first ∷ others) ≡ Some s) }
{}

/// The law of nearness: the clock line of a sample, from the turn in which that was sent on. Where the
/// board's clock is exact, the line is never behind the board, and ahead by no more turns than the answer
/// took, which are three at most. Where it drifts, the line is no further from the board than what passed
/// while the sample was taken, the drift since then, and one tick. So a line is at most a turn behind its
/// board and less than four turns ahead: until the drift comes to all but a fiftieth of a turn (4,900 turns
/// at 200 parts per million, ten times as many at 20), and for good where the clock is exact.
pub fn samples_are_near()
    ensures exact { (clock : BoardClock) (turns : List BoardTurn) (s : Sample) (k : ℕ) → clock.freq % 1_000 ≡ 0 →
        clock.drift ≡ pos 0 → IsSample clock turns s → s.sent ≤ k →
        (board_tick clock k ≤ tick (sampled s clock.freq) (k * turn_ns))
        × (tick (sampled s clock.freq) (k * turn_ns) ≤ board_tick clock (k + (s.got - s.sent))) }
    ensures drifting { (clock : BoardClock) (turns : List BoardTurn) (s : Sample) (k : ℕ) → clock.freq % 1_000 ≡ 0 →
        ppm_size clock.drift ≤ 1_000_000 → IsSample clock turns s → s.sent ≤ k →
        AreWithin (line_reach clock.start clock.freq clock.drift s.sent s.got k)
        (tick (sampled s clock.freq) (k * turn_ns)) (board_tick clock k) }
    ensures tracked { (clock : BoardClock) (turns : List BoardTurn) (s : Sample) (k : ℕ) → IsValidFreq clock.freq →
        ppm_size clock.drift ≤ 200 → IsSample clock turns s → s.sent ≤ k →
        (k - s.sent) * ppm_size clock.drift ≤ 980_000 → KeepsUp clock (sampled s clock.freq) k }
    ensures always { (clock : BoardClock) (turns : List BoardTurn) (s : Sample) (k : ℕ) → IsValidFreq clock.freq →
        clock.drift ≡ pos 0 → IsSample clock turns s → s.sent ≤ k → KeepsUp clock (sampled s clock.freq) k }
{}

/// The law of controls: in a run that goes on, a control holds no steps and no direction of a stepper, the
/// clock of a stepper only 254 to 252 turns before the start of a homing section, and binds a stepper to a
/// trigger only while a board homes. It has its turn's number and doesn't end the link; and it tells that
/// connecting ended exactly where that ended before its turn.
pub fn controls_hold_no_steps()
    ensures commands { (m : Machine) (switches : List Switch) (pins : List (List Level)) (entries : List Entry) (b : ℕ)
        (c : Came) (before : List Came) (t : BoardTurn) (turns : List BoardTurn) →
        IsInRun m switches pins entries b (c ∷ before) (t ∷ turns) →
        All (MayOrder (noted m c.note (known_by m switches before)).homing (length before)) t.control.commands }
    ensures turn { (m : Machine) (switches : List Switch) (pins : List (List Level)) (entries : List Entry) (b : ℕ)
        (c : Came) (before : List Came) (t : BoardTurn) (turns : List BoardTurn) →
        IsInRun m switches pins entries b (c ∷ before) (t ∷ turns) → t.control.turn ≡ length before }
    ensures goes_on { (m : Machine) (switches : List Switch) (pins : List (List Level)) (entries : List Entry) (b : ℕ)
        (c : Came) (before : List Came) (t : BoardTurn) (turns : List BoardTurn) →
        IsInRun m switches pins entries b (c ∷ before) (t ∷ turns) → t.control.end ≡ false }
    ensures connecting { (m : Machine) (switches : List Switch) (pins : List (List Level)) (entries : List Entry)
        (b : ℕ) (c : Came) (before : List Came) (t : BoardTurn) (turns : List BoardTurn) →
        IsInRun m switches pins entries b (c ∷ before) (t ∷ turns) → (known_by m switches before).phase ≡ Connecting →
        t.control.connected ≡ false }
    ensures connected { (m : Machine) (switches : List Switch) (pins : List (List Level)) (entries : List Entry) (b : ℕ)
        (c : Came) (before : List Came) (t : BoardTurn) (turns : List BoardTurn) →
        IsInRun m switches pins entries b (c ∷ before) (t ∷ turns) →
        ((known_by m switches before).phase ≡ Connecting → ⊥) → t.control.connected ≡ true }
{}

/// The law of set clocks: while a homing section is under way, a control sets the clock of a stepper to the
/// tick at which the section starts, by the clock lines that are known of the board in that turn.
pub fn clocks_are_set_to_starts()
    ensures { (m : Machine) (switches : List Switch) (pins : List (List Level)) (entries : List Entry) (b : ℕ)
        (c : Came) (before : List Came) (t : BoardTurn) (turns : List BoardTurn) (h : Homing) →
        IsInRun m switches pins entries b (c ∷ before) (t ∷ turns) →
        (noted m c.note (known_by m switches before)).homing ≡ Some h →
        All (SetsTo (turn_tick (clocks_at (noted m c.note (known_by m switches before)).clocks b) h.start))
        t.control.commands }
{}

/// The law of configuration: what is ordered of a board that configures it is, in order and each command
/// once, the configuration of the board: a front of it while connecting, all of it before the turn in which
/// connecting ends, and nothing more later.
pub fn boards_are_configured_once()
    ensures front { (m : Machine) (switches : List Switch) (pins : List (List Level)) (entries : List Entry) (b : ℕ)
        (came : List Came) (turns : List BoardTurn) → IsValidMachine m → IsInRun m switches pins entries b came turns →
        (rest : List Cmd) × (filter configures (commands_in turns) ++ rest ≡ map setup_command (configuration m b)) }
    ensures before { (m : Machine) (switches : List Switch) (pins : List (List Level)) (entries : List Entry) (b : ℕ)
        (c : Came) (before : List Came) (t : BoardTurn) (turns : List BoardTurn) → IsValidMachine m →
        IsInRun m switches pins entries b (c ∷ before) (t ∷ turns) → (known_by m switches before).phase ≡ Connecting →
        ((known_by m switches (c ∷ before)).phase ≡ Connecting → ⊥) →
        filter configures (commands_in turns) ≡ map setup_command (configuration m b) }
    ensures whole { (m : Machine) (switches : List Switch) (pins : List (List Level)) (entries : List Entry) (b : ℕ)
        (came : List Came) (turns : List BoardTurn) → IsValidMachine m → IsInRun m switches pins entries b came turns →
        ((known_by m switches came).phase ≡ Connecting → ⊥) →
        filter configures (commands_in turns) ≡ map setup_command (configuration m b) }
{}

/// The law of steppers: no object id is made twice on a board, and none from that of the trigger on; and each
/// stepper of the board is made exactly once, in a turn before the one in which connecting ends.
pub fn steppers_are_made_once()
    ensures few { (m : Machine) (switches : List Switch) (pins : List (List Level)) (entries : List Entry) (b : ℕ)
        (came : List Came) (turns : List BoardTurn) → IsValidMachine m → IsInRun m switches pins entries b came turns →
        (oid : ℕ) → times_made oid (commands_in turns) ≤ 1 }
    ensures none { (m : Machine) (switches : List Switch) (pins : List (List Level)) (entries : List Entry) (b : ℕ)
        (came : List Came) (turns : List BoardTurn) → IsValidMachine m → IsInRun m switches pins entries b came turns →
        (oid : ℕ) → trigger_of m b ≤ oid → times_made oid (commands_in turns) ≡ 0 }
    ensures before { (m : Machine) (switches : List Switch) (pins : List (List Level)) (entries : List Entry) (b : ℕ)
        (c : Came) (before : List Came) (t : BoardTurn) (turns : List BoardTurn) → IsValidMachine m →
        IsInRun m switches pins entries b (c ∷ before) (t ∷ turns) → (known_by m switches before).phase ≡ Connecting →
        ((known_by m switches (c ∷ before)).phase ≡ Connecting → ⊥) → (s : ℕ) → s < length m.steppers →
        (stepper_at m s).board ≡ b → times_made (stepper_at m s).oid (commands_in turns) ≡ 1 }
    ensures once { (m : Machine) (switches : List Switch) (pins : List (List Level)) (entries : List Entry) (b : ℕ)
        (came : List Came) (turns : List BoardTurn) → IsValidMachine m → IsInRun m switches pins entries b came turns →
        ((known_by m switches came).phase ≡ Connecting → ⊥) → (s : ℕ) → s < length m.steppers →
        (stepper_at m s).board ≡ b → times_made (stepper_at m s).oid (commands_in turns) ≡ 1 }
{}

/// The law of lines: where each line of a board keeps up with it in its time, all of them together do, from
/// the turn on in which the first one does.
pub fn lines_keep_up()
    ensures { (clock : BoardClock) (clocks : Clocks) (ready until turn : ℕ) → AreKept clocks →
        AllKeepUp clock ready clocks.first clocks.held until → ready ≤ turn → turn ≤ until →
        LinesKeepUp clock clocks turn }
{}

/// The law of limits: the commands of a control have at most 42 bytes, and an order to stop is one more; at
/// most one of them closes its block.
pub fn controls_keep_limits()
    ensures plain { (m : Machine) (switches : List Switch) (pins : List (List Level)) (entries : List Entry) (b : ℕ)
        (c : Came) (before : List Came) (t : BoardTurn) (turns : List BoardTurn) → IsValidMachine m →
        IsInRun m switches pins entries b (c ∷ before) (t ∷ turns) →
        ((line : ℕ) → (known_by m switches (c ∷ before)).phase ≡ Stopping line → ⊥) →
        bytes_in (map on_wire (map plain t.control.commands)) ≤ 42 }
    ensures all { (m : Machine) (switches : List Switch) (pins : List (List Level)) (entries : List Entry) (b : ℕ)
        (c : Came) (before : List Came) (t : BoardTurn) (turns : List BoardTurn) → IsValidMachine m →
        IsInRun m switches pins entries b (c ∷ before) (t ∷ turns) →
        bytes_in (map on_wire (map plain t.control.commands)) ≤ 43 }
    ensures closing { (m : Machine) (switches : List Switch) (pins : List (List Level)) (entries : List Entry) (b : ℕ)
        (c : Came) (before : List Came) (t : BoardTurn) (turns : List BoardTurn) →
        IsInRun m switches pins entries b (c ∷ before) (t ∷ turns) →
        closing_in (map on_wire (map plain t.control.commands)) ≤ 1 }
{}

/// The law of clear links: where no entry of the scene was used on a board's link while connecting, the clock
/// line that is told as connecting ends is that of a sample which was got in the turn in which it was sent.
/// So the tick in it is the board's own of the turn with which it begins; and where the board's clock is
/// exact, the line gives the board's own tick of each turn from then on. No entry is used where the scene has
/// none of the link's lines for the time while connecting.
pub fn clear_links_give_exact_lines()
    ensures exact { (m : Machine) (switches : List Switch) (pins : List (List Level)) (entries : List Entry) (b : ℕ)
        (c : Came) (before : List Came) (t : BoardTurn) (turns : List BoardTurn) →
        IsInRun m switches pins entries b (c ∷ before) (t ∷ turns) → (known_by m switches before).phase ≡ Connecting →
        IsUndisturbed (stands_after (first_state (board_at m b) pins b entries) turns) →
        (board_at m b).freq % 1_000 ≡ 0 →
        All (λ l. IsSampledAtOnce (clock_of (board_at m b)) turns l
        × ((board_at m b).drift ≡ pos 0 → IsExact (clock_of (board_at m b)) l))
        (lines_told b (last_reacted m switches c before).ordered.word.news) }
    ensures unused { (m : Machine) (switches : List Switch) (pins : List (List Level)) (entries : List Entry) (b : ℕ)
        (came : List Came) (turns : List BoardTurn) → IsInRun m switches pins entries b came turns →
        (known_by m switches came).phase ≡ Connecting → entries_of b Down true entries ≡ [] →
        entries_of b Up true entries ≡ [] →
        IsUndisturbed (stands_after (first_state (board_at m b) pins b entries) turns) }
{}

/// The law of turns: the turns of a board, in their order, are turns of its link as the laws of links have
/// them, which take what came to the board and end as it stood. In a run that goes on, up to an order to
/// stop, they keep the limits of a turn, where the units of each have at most 210 bytes.
pub fn board_turns_are_turns()
    ensures turns { (clock : BoardClock) (first : LinkState) (turns : List BoardTurn) →
        AreBoardTurns clock first turns → AreTurns clock 0 (orders_in turns) first (stands_after first turns) }
    ensures ends { (clock : BoardClock) (first : LinkState) (turns : List BoardTurn) → AreBoardTurns clock first turns →
        EndSo clock 0 (orders_in turns) first (ends_in turns) }
    ensures last { (first : LinkState) (turns : List BoardTurn) →
        last_link first (ends_in turns) ≡ stands_after first turns }
    ensures limits { (m : Machine) (switches : List Switch) (pins : List (List Level)) (entries : List Entry) (b : ℕ)
        (came : List Came) (turns : List BoardTurn) → IsValidMachine m → IsInRun m switches pins entries b came turns →
        ((line : ℕ) → (known_by m switches came).phase ≡ Stopping line → ⊥) → UnitsFit turns →
        AllKeepLimits (orders_in turns) }
{}
