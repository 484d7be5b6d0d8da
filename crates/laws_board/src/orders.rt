//! What a board's part of a run is made of.

ghost use Rattle.std.specs.Prelude.{◌≡◌, ◌⊎◌, ◌*◌, ◌+◌, ◌<◌, ◌≤◌, ◌^◌, ℕ, pos, List, ◌∷◌, All, Option, None, length, take};
ghost use Rattle.plan_types.specs.declared.clock.BoardClock.{BoardClock};
ghost use Rattle.plan_types.specs.declared.levels.Level.{Level};
ghost use Rattle.plan_types.specs.declared.machine.BoardDef.{BoardDef};
ghost use Rattle.plan_types.specs.declared.machine.Machine.{Machine};
ghost use Rattle.plan_types.specs.declared.plan.Line.{Line};
ghost use Rattle.plan_types.specs.Clock.{board_tick, clock_of, turn_ns};
ghost use Rattle.plan_types.specs.Lines.{Clocks, last_from, one_line};
ghost use Rattle.plan_types.specs.Machines.{IsValidBoard, IsValidFreq, IsValidMachine, stepper_at};
ghost use Rattle.clock_line.specs.Kept.{AreKept};
ghost use Rattle.clock_line.specs.Samples.{ppm_size};
ghost use Rattle.wire_scene.specs.declared.scene.Entry.{Entry};
ghost use Rattle.wire_scene.specs.declared.scene.Switch.{Switch};
ghost use Rattle.host_reactor.specs.declared.ordered.Phase.TheVariants.{Connecting};
ghost use Rattle.host_reactor.specs.Notes.{noted};
ghost use Rattle.host_reactor.specs.Runs.{Came, known_by};
ghost use Rattle.laws_board.specs.turns.Turns.{BoardTurn};
ghost use Rattle.laws_board.specs.clocks.Near.{AllKeepUp};
ghost use Rattle.laws_board.specs.clocks.Runs.{IsInRun, orders_in};
ghost use Rattle.laws_board.specs.clocks.Samples.{IsSampled};
ghost use Rattle.plan_types.specs.Sections.{clocks_at};
ghost use Rattle.axis_homing.specs.declared.homing.Homing.{Homing};
ghost use Rattle.laws_board.specs.sections.Events.{AreOwn};
ghost use Rattle.laws_board.specs.sections.Homes.{IsControlIn, RunSection};
ghost use Rattle.laws_board.specs.orders.Homed.{IsOneOf};
ghost use Rattle.laws_board.specs.sections.Parts.{AreTracked, IsControl, MakesIn};
ghost use Rattle.laws_board.specs.orders.Ready.{ready_turn};
ghost use Rattle.laws_board.specs.orders.Renewed.{AreSampled, ComeInTime, NoneBefore, go_on, line_age};

/// The law of controls: in a run that goes on, what a control holds are control commands, while no homing
/// section is under way.
pub fn controls_are_control_commands()
    ensures { (m : Machine) (switches : List Switch) (pins : List (List Level)) (entries : List Entry) (b : ℕ)
        (c : Came) (before : List Came) (t : BoardTurn) (turns : List BoardTurn) → IsValidMachine m →
        IsInRun m switches pins entries b (c ∷ before) (t ∷ turns) →
        (noted m c.note (known_by m switches before)).homing ≡ None → All IsControl t.control.commands }
{}

/// The law of controls, in a run in which axes home: what a control holds are control commands of such a run,
/// where the homing section that is under way is one of the board's, and starts at the same tick by the clock
/// lines that are known of it.
pub fn homing_controls_are_control_commands()
    ensures { (m : Machine) (switches : List Switch) (pins : List (List Level)) (entries : List Entry) (b : ℕ)
        (c : Came) (before : List Came) (t : BoardTurn) (turns : List BoardTurn) (o : Option Homing) (clocks : Clocks)
        (ss : List RunSection) → IsValidMachine m → IsInRun m switches pins entries b (c ∷ before) (t ∷ turns) →
        (noted m c.note (known_by m switches before)).homing ≡ o →
        IsOneOf o (clocks_at (noted m c.note (known_by m switches before)).clocks b) clocks ss →
        All (IsControlIn clocks ss (length before)) t.control.commands }
{}

/// The law of steppers: each stepper of a board is made in a turn before the one in which connecting ended.
pub fn steppers_are_made_in_time()
    ensures { (m : Machine) (switches : List Switch) (pins : List (List Level)) (entries : List Entry) (b : ℕ)
        (came : List Came) (turns : List BoardTurn) → IsValidMachine m → IsInRun m switches pins entries b came turns →
        ((known_by m switches came).phase ≡ Connecting → ⊥) → (s : ℕ) → s < length m.steppers →
        (stepper_at m s).board ≡ b →
        MakesIn (stepper_at m s).oid (take (ready_turn m switches came) (orders_in turns)) }
{}

/// The law of clock lines: the line of a sample of a board's clock follows the board from the turn in which
/// it is known: for good where the clock is exact, and else until the drift comes to all but a fiftieth of a
/// turn (`line_age`). Lines that hold one after the other follow it where each of them keeps up in its time;
/// and so they do where each is that of a sample, and the clock is exact, or each is renewed before it is too
/// old (`ComeInTime`).
pub fn clock_lines_follow()
    ensures exact { (clock : BoardClock) (turns : List BoardTurn) (line : Line) (until : ℕ) → IsValidFreq clock.freq →
        clock.drift ≡ pos 0 → length turns ≤ 2 ^ 63 → IsSampled clock turns line →
        (x : AreTracked (λ k. board_tick clock k) (one_line line) (length turns)) × (x.until ≡ until) }
    ensures drifting { (clock : BoardClock) (turns : List BoardTurn) (line : Line) (until : ℕ) →
        IsValidFreq clock.freq → ppm_size clock.drift ≤ 200 → length turns ≤ 2 ^ 63 → IsSampled clock turns line →
        until * turn_ns ≤ line.at + line_age clock.drift * turn_ns →
        (x : AreTracked (λ k. board_tick clock k) (one_line line) (length turns)) × (x.until ≡ until) }
    ensures held { (clock : BoardClock) (clocks : Clocks) (ready until : ℕ) → AreKept clocks →
        AllKeepUp clock ready clocks.first clocks.held until →
        (x : AreTracked (λ k. board_tick clock k) clocks ready) × (x.until ≡ until) }
    ensures in_time { (clock : BoardClock) (turns : List BoardTurn) (clocks : Clocks) (ready until : ℕ) →
        IsValidFreq clock.freq → AreKept clocks → IsSampled clock turns clocks.first →
        AreSampled clock turns clocks.held → clocks.first.at ≤ ready * turn_ns → NoneBefore ready clocks.held →
        (clock.drift ≡ pos 0) ⊎ ((ppm_size clock.drift ≤ 200) × ComeInTime clock.drift clocks.first clocks.held until) →
        (x : AreTracked (λ k. board_tick clock k) clocks ready) × (x.until ≡ until) }
{}

/// The law of clocks that go on: behind a turn, at least four turns behind that of the last further line, the
/// clock lines of a board follow for good a clock that has its ticks up to that turn and goes on without a
/// drift (`go_on`), where each line is that of a sample, and the board's clock is exact, or each line up to
/// that turn is renewed before it is too old. Up to that turn its ticks are the board's own.
pub fn clocks_go_on()
    ensures own { (b : BoardDef) (turns n : ℕ) → IsValidBoard b → turns ≤ n → AreOwn b turns (go_on (clock_of b) n) }
    ensures tracked { (clock : BoardClock) (turns : List BoardTurn) (clocks : Clocks) (ready last n until any : ℕ) →
        IsValidFreq clock.freq → AreKept clocks → IsSampled clock turns clocks.first →
        AreSampled clock turns clocks.held → clocks.first.at ≤ ready * turn_ns → NoneBefore ready clocks.held →
        (clock.drift ≡ pos 0) ⊎ ((ppm_size clock.drift ≤ 200) × ComeInTime clock.drift clocks.first clocks.held until) →
        last_from 0 clocks.held ≤ last * turn_ns → ready ≤ last → last + 4 ≤ n → n ≤ until →
        (x : AreTracked (go_on clock n) clocks ready) × (x.until ≡ any) }
{}
