//! What a board makes of commands of which triggers halt some steppers.

ghost use Rattle.std.specs.Prelude.{◌≡◌, ◌+◌, ◌^◌, ◌++◌, ◌∷◌, ◌<◌, ◌≤◌, ℕ, List, [], Option, length, map, take};
ghost use Rattle.plan_types.specs.declared.levels.Level.{Level};
ghost use Rattle.plan_types.specs.declared.machine.BoardDef.{BoardDef};
ghost use Rattle.board_sim.specs.Fair.{only};
ghost use Rattle.board_world.specs.World.{Step, AllFair, run_world, new_world};
ghost use Rattle.link_work.specs.Turn.{LinkState, Orders};
ghost use Rattle.plan_types.specs.declared.plan.Pulse.{Pulse};
ghost use Rattle.plan_types.specs.Lines.{Clocks};
ghost use Rattle.laws_board.specs.sections.Courses.{AllHeed, AreMadeFor, IsGoodRun, courses, course_parts};
ghost use Rattle.laws_board.specs.sections.Events.{AreOwn, AreTicks};
ghost use Rattle.laws_board.specs.sections.Homes.{AreOverBy, AreSettledOn, IsHomeBoard, IsHomeRun, IsHomeSpan, IsSplitIn, NextBehind, RunSection};
ghost use Rattle.laws_board.specs.sections.Boards.{OnBoard, told_in};
ghost use Rattle.wire_scene.specs.declared.scene.Entry.{Entry};
ghost use Rattle.laws_board.specs.sections.Runs.{AreSpilled, Made};
ghost use Rattle.laws_board.specs.sections.Links.{ends_of, steps_of};
ghost use Rattle.laws_board.specs.sections.Timely.{AllTimely, ControlsKeep};
ghost use Rattle.link_work.specs.Ends.{spoiled};
ghost use Rattle.link_work.specs.Runs.{AreTurns};
ghost use Rattle.link_work.specs.Stands.{first_state};
ghost use Rattle.plan_types.specs.Clock.{clock_of};
ghost use Rattle.plan_types.specs.Plan.{Fits};
ghost use Rattle.section_units.specs.Sections.{base_of};
ghost use Rattle.laws_board.specs.sections.Ends.{MayBe};
ghost use Rattle.laws_board.specs.sections.Late.{IsLateUnit};
ghost use Rattle.plan_types.specs.declared.plan.BoardState.TheVariants.{Shut};

/// The law of halts: where the commands that are queued for a board are good, up to one that is queued too
/// late, whatever its triggers do, every unit is fair when a running board takes it; the board runs, or it
/// shut down since a unit came too late or since it was told to stop; and the pulses of each stepper are,
/// part by part, made for the first steps that the good ones told it between two settings of its clock, none
/// of them at or after the board's tick of the turn in which the part stops. It is asked that the stepper of
/// the late one isn't halted then. A board that shut down since a unit came too late keeps the first tick of
/// a unit of its sections, and a later tick at which it took that unit.
pub fn halted_steppers_keep_fronts()
    ensures fair { (b : BoardDef) (pins : List (List Level)) (own : ℕ → ℕ) (stops : ℕ → Option ℕ) (os : List Orders)
        (steps : List Step) → IsGoodRun b pins own stops os steps → AllFair (new_world b pins) steps }
    ensures reason { (b : BoardDef) (pins : List (List Level)) (own : ℕ → ℕ) (stops : ℕ → Option ℕ) (os : List Orders)
        (steps : List Step) → IsGoodRun b pins own stops os steps →
        MayBe (run_world steps (new_world b pins)).board.controller.state }
    ensures fronts { (b : BoardDef) (pins : List (List Level)) (own : ℕ → ℕ) (stops : ℕ → Option ℕ) (os : List Orders)
        (steps : List Step) → (r : IsGoodRun b pins own stops os steps) → (oid : ℕ) →
        AreMadeFor own stops (course_parts (courses r.front oid)) (only oid (run_world steps (new_world b pins)).made) }
    ensures late { (b : BoardDef) (pins : List (List Level)) (own : ℕ → ℕ) (clocks : Clocks) (ready : ℕ)
        (stops : ℕ → Option ℕ) (ss : List RunSection) (os : List Orders) (steps : List Step) (tick first : ℕ) →
        IsHomeRun own clocks b.freq b.slots ready stops ss os → IsGoodRun b pins own stops os steps →
        (run_world steps (new_world b pins)).board.controller.state ≡ Shut 1 tick first →
        IsLateUnit (map (λ s. s.section) ss) tick first }
{}

/// The law of homing commands: what is queued for a board in a run in which axes home is good, up to the
/// first unit that is left of a section of moves five turns behind its end, which is queued too late; pulses
/// of a stepper that are made part by part for the good ones are made section by section, and are over by the
/// turn of the late one. Where all units of moves are released by four turns behind the ends of their
/// sections, all is good.
pub fn homing_commands_are_good()
    ensures { (own : ℕ → ℕ) (clocks : Clocks) (freq slots ready : ℕ) (stops : ℕ → Option ℕ) (ss : List RunSection)
        (os : List Orders) → AreTicks own → IsHomeRun own clocks freq slots ready stops ss os →
        IsSplitIn own stops slots ss os }
{}

/// The law of a section's turns, in a run in which axes home: the pulses that a board makes from the turn
/// before a section's start up to the second one before the start of the next are, for each stepper, made for
/// the first steps of that section's plan, in order, each once, at most the tolerance before its planned tick
/// and never after it; of moves or homing, whatever its triggers do, and however late units of moves are
/// queued. From the fifth turn behind a section's end on it makes none, up to the second turn before the
/// start of the next.
pub fn homing_sections_keep_their_turns()
    ensures section { (b : BoardDef) (pins : List (List Level)) (own : ℕ → ℕ) (clocks : Clocks) (ready : ℕ)
        (stops : ℕ → Option ℕ) (past : List RunSection) (s : RunSection) (later : List RunSection)
        (before during behind : List Orders) (first second : List Step) →
        IsHomeSpan b pins own clocks ready stops (past ++ s ∷ later) before during behind first second →
        length before + 1 ≡ s.section.start → NextBehind (length before + length during) later →
        (pulses : List Pulse)
        × Made (run_world first (new_world b pins)) (run_world (first ++ second) (new_world b pins)) pulses
        × ((oid : ℕ) → Fits b.freq (base_of clocks s.section) (only oid pulses) (s.section.plan oid)) }
    ensures between { (b : BoardDef) (pins : List (List Level)) (own : ℕ → ℕ) (clocks : Clocks) (ready : ℕ)
        (stops : ℕ → Option ℕ) (past later : List RunSection) (before during behind : List Orders)
        (first second : List Step) →
        IsHomeSpan b pins own clocks ready stops (past ++ later) before during behind first second →
        AreOverBy (length before) past → NextBehind (length before + length during) later →
        (run_world (first ++ second) (new_world b pins)).made ≡ (run_world first (new_world b pins)).made }
{}

/// The law of sections, of a board in a run in which axes home: the pulses that it tells from the turn before
/// a section's start up to the second one before the start of the next are, for each stepper, made for the
/// first steps of its plan of the section, of moves or homing. From the fifth turn behind a section's end on
/// it tells none, up to the second turn before the start of the next.
pub fn homing_boards_keep_their_sections()
    ensures section { (place : ℕ) (entries : List Entry) (ready turns from to : ℕ) (x : OnBoard)
        (past : List RunSection) (s : RunSection) (later : List RunSection) →
        IsHomeBoard place entries ready turns (past ++ s ∷ later) x → from + 1 ≡ s.section.start → from ≤ to →
        to ≤ turns → NextBehind to later → (oid : ℕ) →
        Fits x.board.freq (base_of x.clocks s.section) (only oid (told_in from to x)) (s.section.plan oid) }
    ensures between { (place : ℕ) (entries : List Entry) (ready turns from to : ℕ) (x : OnBoard)
        (past later : List RunSection) → IsHomeBoard place entries ready turns (past ++ later) x → AreOverBy from past →
        from ≤ to → to ≤ turns → NextBehind to later → told_in from to x ≡ [] }
{}

/// The law of few spoiled turns, in a run in which axes home: where what stops is halted, and the stepper of
/// the first unit of moves that is queued too late isn't, the control commands before the last turn keep the
/// limits, at the end of each turn at most n turns of a link's busy stretch were spoiled, and no unit that is
/// due in the run's turns is released more than m turns behind its due one, no unit is taken half a round of
/// the 32-bit clock after its first tick, for every n and m for which n + m + 2 turns have fewer than 2^31 of
/// the board's ticks: for all with n + m up to 10,700 turns, whatever its frequency.
pub fn homing_links_are_timely()
    ensures timely { (b : BoardDef) (pins : List (List Level)) (board : ℕ) (entries : List Entry) (own : ℕ → ℕ)
        (clocks : Clocks) (ready n m turns : ℕ) (stops : ℕ → Option ℕ) (ss : List RunSection) (os : List Orders)
        (l : LinkState) (t : AreTurns (clock_of b) 0 os (first_state b pins board entries) l) →
        AreOwn b (length os) own → IsHomeRun own clocks b.freq b.slots ready stops ss os →
        (split : IsSplitIn own stops b.slots ss os) →
        AreSettledOn stops split.front (clock_of b) 0 [] os (first_state b pins board entries) l t →
        AllHeed split.front split.tail (new_world b pins)
        (steps_of (clock_of b) 0 os (first_state b pins board entries) l t) →
        AreSpilled turns m (map (λ s. s.section) ss) → length os ≤ turns →
        ((done : List Orders) (o : Orders) (rest : List Orders) → os ≡ done ++ (o ∷ rest) → ControlsKeep done) →
        ((k : ℕ) → spoiled (take k (ends_of (clock_of b) 0 os (first_state b pins board entries) l t)) ≤ n) →
        ((k : ℕ) → own (k + (n + m + 2)) < own k + 2 ^ 31) →
        AllTimely (new_world b pins) (steps_of (clock_of b) 0 os (first_state b pins board entries) l t) }
    ensures seconds { (b : BoardDef) (turns : ℕ) (own : ℕ → ℕ) (n m : ℕ) → AreOwn b turns own → n + m ≤ 10_700 →
        (k : ℕ) → own (k + (n + m + 2)) < own k + 2 ^ 31 }
{}
