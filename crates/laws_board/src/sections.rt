//! The laws of a run on one board.

ghost use Rattle.std.specs.Prelude.{All, ◌≡◌, ◌≢◌, ◌++◌, ◌∷◌, ◌+◌, ◌^◌, ◌≤◌, ◌<◌, ℕ, pos, List, [], length, take};
ghost use Rattle.plan_types.specs.declared.clock.BoardClock.{BoardClock};
ghost use Rattle.plan_types.specs.declared.levels.Level.{Level};
ghost use Rattle.plan_types.specs.declared.machine.BoardDef.{BoardDef};
ghost use Rattle.plan_types.specs.declared.plan.BoardState.TheVariants.{Running};
ghost use Rattle.plan_types.specs.Lines.{Clocks, one_line};
ghost use Rattle.clock_line.specs.Samples.{sample_at, sampled};
ghost use Rattle.plan_types.specs.Clock.{board_tick, clock_of, own_tick};
ghost use Rattle.plan_types.specs.Machines.{IsValidBoard, IsValidFreq};
ghost use Rattle.link_core.specs.Core.{sent};
ghost use Rattle.msg_code.specs.declared.talk.State.{State};
ghost use Rattle.wire_scene.specs.declared.scene.Entry.{Entry};
ghost use Rattle.board_world.specs.World.{Step, run_world, new_world};
ghost use Rattle.link_work.specs.Turn.{IsTurn, LinkState, Orders};
ghost use Rattle.link_work.specs.Stands.{first_state};
ghost use Rattle.link_work.specs.Runs.{AreTurns};
ghost use Rattle.link_work.specs.Ends.{spoiled};
ghost use Rattle.laws_board.specs.sections.Events.{AreOwn, AreTicks, AreTurnsOf};
ghost use Rattle.laws_board.specs.sections.Links.{AreTold, ends_of, pulses_in, steps_of};
ghost use Rattle.laws_board.specs.sections.Sample.{sample_clock, sample_clocks, sample_section};
ghost use Rattle.section_units.specs.Sent.{AreSentTo};
ghost use Rattle.section_units.specs.Sections.{BoardSection, IsSection};
ghost use Rattle.laws_board.specs.sections.Parts.{AreTracked, IsBoardRun};
ghost use Rattle.laws_board.specs.sections.Timely.{AllTimely, ControlsKeep, TakesSoon};

/// The law of the 32-bit clock: where, as each turn begins, the board has taken all that was queued n turns
/// before or earlier, and n + 7 turns have fewer than 2^31 ticks, no unit is taken half a round of the clock
/// after its first tick, as long as the board runs: of the units that it is sent the first one that is five
/// turns late is just so late, and shuts the board down.
pub fn units_taken_soon_are_timely()
    ensures { (b : BoardDef) (pins : List (List Level)) (own : ℕ → ℕ) (clocks : Clocks) (ready n turns : ℕ)
        (ss : List BoardSection) (os : List Orders) (steps : List Step) (t : AreTurnsOf own 0 os steps) → AreTicks own →
        own 0 ≡ b.start → IsBoardRun own clocks b.freq b.slots ready ss os → All (AreSentTo clocks b.freq turns) ss →
        length os ≤ turns → ((k : ℕ) → own (k + (n + 7)) < own k + 2 ^ 31) →
        TakesSoon n os own 0 os steps (new_world b pins) t → AllTimely (new_world b pins) steps }
{}

/// The law of few spoiled turns: where the control commands of each turn keep the limits, and at the end of
/// each turn at most n turns of a link's busy stretch were spoiled, no unit is taken half a round of the
/// 32-bit clock after its first tick, for every n for which n + 7 turns have fewer than 2^31 of the board's
/// ticks: for all up to 10,000 turns, ten seconds, whatever its frequency. The units need no limit: where
/// those of two sections meet in a turn, one before them is late, and shuts the board down.
pub fn few_spoiled_turns_are_timely()
    ensures timely { (b : BoardDef) (pins : List (List Level)) (board : ℕ) (entries : List Entry) (own : ℕ → ℕ)
        (clocks : Clocks) (ready n turns : ℕ) (ss : List BoardSection) (os : List Orders) (l : LinkState)
        (t : AreTurns (clock_of b) 0 os (first_state b pins board entries) l) → AreOwn b (length os) own →
        IsBoardRun own clocks b.freq b.slots ready ss os → All (AreSentTo clocks b.freq turns) ss → length os ≤ turns →
        ControlsKeep os →
        ((k : ℕ) → spoiled (take k (ends_of (clock_of b) 0 os (first_state b pins board entries) l t)) ≤ n) →
        ((k : ℕ) → own (k + (n + 7)) < own k + 2 ^ 31) →
        AllTimely (new_world b pins) (steps_of (clock_of b) 0 os (first_state b pins board entries) l t) }
    ensures seconds { (b : BoardDef) (turns n : ℕ) (own : ℕ → ℕ) → AreOwn b turns own → n ≤ 10_000 → (k : ℕ) →
        own (k + (n + 7)) < own k + 2 ^ 31 }
{}

/// The law of idle links: where nothing waits and nothing is outstanding, all that was queued was taken.
pub fn idle_links_took_all()
    ensures { (b : BoardDef) (pins : List (List Level)) (steps : List Step) →
        (run_world steps (new_world b pins)).link.waiting ≡ [] →
        (run_world steps (new_world b pins)).link.acked ≡ sent (run_world steps (new_world b pins)).link →
        (run_world steps (new_world b pins)).taken ≡ (run_world steps (new_world b pins)).queued }
{}

/// The law of links: the turns of a link are such turns of a board, whatever the scene, and those of a valid
/// board, whose clock may drift, have ticks as they are asked for, so that all laws of a board's run are laws
/// of its link, by any ticks that are the board's own up to the run's end. A turn that makes a pulse leaves
/// the board running.
pub fn links_make_turns()
    ensures steps { (clock : BoardClock) (turn : ℕ) (os : List Orders) (l m : LinkState)
        (t : AreTurns clock turn os l m) →
        (m.core ≡ run_world (steps_of clock turn os l m t) l.core)
        × AreTurnsOf (board_tick clock) turn os (steps_of clock turn os l m t) }
    ensures joined { (own : ℕ → ℕ) (turn : ℕ) (xs ys : List Orders) (first second : List Step) →
        AreTurnsOf own turn xs first → AreTurnsOf own (turn + length xs) ys second →
        AreTurnsOf own turn (xs ++ ys) (first ++ second) }
    ensures told { (clock : BoardClock) (turn : ℕ) (os : List Orders) (states : List State) (l m : LinkState) →
        AreTold clock turn os states l m →
        AreTurns clock turn os l m × (l.core.made ++ pulses_in states ≡ m.core.made) }
    ensures ticks { (b : BoardDef) (turns : ℕ) → IsValidBoard b → AreOwn b turns (board_tick (clock_of b)) }
    ensures running { (clock : BoardClock) (turn : ℕ) (o : Orders) (l m : LinkState) → IsTurn clock turn o l m →
        m.core.made ≢ l.core.made → m.core.board.controller.state ≡ Running }
{}

/// The law of tracked lines: where a board's clock is exact, the line of a sample that took at most three
/// turns is at most a turn behind the board's own ticks, and less than four turns ahead, from the turn on in
/// which the sample was sent.
pub fn sampled_lines_are_tracked()
    ensures { (start freq sent got turn ready until : ℕ) → IsValidFreq freq → sent < 2 ^ 63 → sent ≤ turn → turn ≤ got →
        got ≤ sent + 3 → sent ≤ ready →
        (t : AreTracked (own_tick start freq (pos 0)) (one_line (sampled (sample_at start freq sent got turn) freq))
        ready) × (t.until ≡ until) }
{}

/// The worked example: the units of one millimetre are a section, and that section alone is a run.
pub fn one_move_is_a_section()
    ensures section { IsSection sample_clocks 16_000_000 1_024 sample_section }
    ensures run { IsBoardRun (board_tick sample_clock) sample_clocks 16_000_000 1_024 1_000 (sample_section ∷ []) [] }
{}
