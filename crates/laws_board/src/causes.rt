//! What holds of a board that gives no answer, and of one that is asked for its clock again and again, over
//! the turns of any run.

ghost use Rattle.std.specs.Prelude.{◌≡◌, ◌+◌, ◌≤◌, ◌<◌, ◌^◌, ◌∷◌, ℕ, pos, List, Some, None, length};
ghost use Rattle.plan_types.specs.declared.cause.Cause.{Cause};
ghost use Rattle.plan_types.specs.declared.levels.Level.{Level};
ghost use Rattle.plan_types.specs.declared.machine.Machine.{Machine};
ghost use Rattle.plan_types.specs.Machines.{IsValidMachine, board_at};
ghost use Rattle.wire_scene.specs.declared.scene.Entry.{Entry};
ghost use Rattle.wire_scene.specs.declared.scene.Switch.{Switch};
ghost use Rattle.wire_scene.specs.Wire.{Line};
ghost use Rattle.link_work.specs.Answers.{IsAmong};
ghost use Rattle.link_work.specs.Stands.{first_state};
ghost use Rattle.link_work.specs.Used.{IsLineRun, used_in};
ghost use Rattle.board_asking.specs.Machine.{configuration};
ghost use Rattle.board_asking.specs.Turns.{AreUnanswered};
ghost use Rattle.host_reactor.specs.declared.ordered.Phase.TheVariants.{Connecting, Running};
ghost use Rattle.host_reactor.specs.Notes.{is_out, noted};
ghost use Rattle.host_reactor.specs.Running.{first_cause};
ghost use Rattle.host_reactor.specs.Runs.{Came, HaveStates, known_by, last_reacted, state_at, told_by};
ghost use Rattle.laws_board.specs.turns.Turns.{BoardTurn, latest_state};
ghost use Rattle.laws_board.specs.clocks.Runs.{IsInRun, UnitsFit};
ghost use Rattle.laws_board.specs.causes.Causes.{AllUnanswered, AreAskedAndHindered, AreHindered, AreInRow, AsksNoneBetween, BringNoSteps, IsDisturbedAround, IsHindered, came_by_turn};
ghost use Rattle.host_reactor.specs.Room.{HaveRoom};
ghost use Rattle.laws_board.specs.causes.Again.{TellsLineFrom};
ghost use Rattle.laws_board.specs.causes.Short.{AreInRun, HaveShortDictionaries};

/// The law of connecting: a run ends for a board that gives no answer, while nothing else ends it, only where
/// each of eight askings of this board in a row or more, four turns apart, from the turn on that is told,
/// which are unanswered, was hindered on the board's link.
pub fn connecting_ends_for_a_cause()
    ensures { (m : Machine) (switches : List Switch) (pins : List (List Level)) (entries : List Entry) (b : ℕ)
        (c : Came) (before : List Came) (turns : List BoardTurn) (turn : ℕ) → IsValidMachine m →
        IsInRun m switches pins entries b before turns → HaveStates m (c ∷ before) →
        state_at b c.states ≡ latest_state turns → BringNoSteps turns → length before < 2 ^ 59 →
        first_cause (is_out c.note) (noted m c.note (known_by m switches before)).stopped c.states ≡ None →
        (last_reacted m switches c before).ordered.end ≡ Some (Cause.Connect b turn) →
        (count : ℕ) × (8 ≤ count) × AreUnanswered (configuration m b) (told_by b (c ∷ before)) turn count
        × AreHindered (first_state (board_at m b) pins b entries) turns turn count }
{}

/// The law of connecting, of its length: where dictionaries are short, connecting has ended by turn 2,200 in
/// every run that goes on, whatever the scene.
pub fn connecting_ends_soon()
    ensures soon { (m : Machine) (switches : List Switch) (pins : ℕ → List (List Level)) (entries : List Entry)
        (came : List Came) (turns : ℕ → List BoardTurn) → IsValidMachine m → HaveShortDictionaries m →
        AreInRun m switches pins entries came turns → (known_by m switches came).phase ≡ Connecting →
        length came < 2_200 }
    ensures ended { (m : Machine) (switches : List Switch) (pins : ℕ → List (List Level)) (entries : List Entry)
        (came : List Came) (turns : ℕ → List BoardTurn) → IsValidMachine m → HaveShortDictionaries m →
        AreInRun m switches pins entries came turns → ((known_by m switches came).phase ≡ Connecting → ⊥) →
        (k : ℕ) × (k < 2_200) × ((known_by m switches (came_by_turn k came)).phase ≡ Connecting)
        × ((known_by m switches (came_by_turn (k + 1) came)).phase ≡ Connecting → ⊥) }
{}

/// The law of stale clocks: a run ends for a board whose clock line is too old, while nothing else ends it,
/// only where the board was asked for its clock 200 times in a row or more, from the turn on that is told,
/// which is 1000 or later, each asking four turns or more behind the one before it, and each of these askings
/// is unanswered and was hindered on the board's link.
///
/// Where an asking was hindered, as units of at most 210 bytes a turn come beside the controls, its link was
/// disturbed in the four turns of the asking or the four before them, or something waited at the end of the
/// turn before it.
pub fn stale_ends_for_a_cause()
    ensures cause { (m : Machine) (switches : List Switch) (pins : List (List Level)) (entries : List Entry) (b : ℕ)
        (c : Came) (before : List Came) (turns : List BoardTurn) (turn : ℕ) → IsValidMachine m →
        IsInRun m switches pins entries b before turns → state_at b c.states ≡ latest_state turns → UnitsFit turns →
        length before < 2 ^ 59 →
        first_cause (is_out c.note) (noted m c.note (known_by m switches before)).stopped c.states ≡ None →
        (last_reacted m switches c before).ordered.end ≡ Some (Cause.Stale b turn) →
        (1_000 ≤ turn)
        × ((asked : List ℕ) × (200 ≤ length asked) × AreInRow turn (length turns) asked
        × AsksNoneBetween turns (length turns) asked × AllUnanswered m switches b (c ∷ before) asked
        × AreAskedAndHindered (first_state (board_at m b) pins b entries) turns asked) }
    ensures around { (m : Machine) (switches : List Switch) (pins : List (List Level)) (entries : List Entry) (b : ℕ)
        (came : List Came) (turns : List BoardTurn) (k : ℕ) → IsValidMachine m →
        IsInRun m switches pins entries b came turns → UnitsFit turns → 4 ≤ k → k + 2 ≤ length turns →
        IsHindered (first_state (board_at m b) pins b entries) turns k →
        IsDisturbedAround (first_state (board_at m b) pins b entries) turns k }
{}

/// The law of entries: on a line of a link an entry that is used in a turn or later is one of the scene's,
/// which numbers a block that was put in such a turn.
pub fn disturbed_lines_used_entries()
    ensures { (connecting entries : List Entry) (turns since : ℕ) (l : Line)
        (r : IsLineRun connecting entries turns l) →
        since + 4 < l.calm → (k : ℕ) × (since ≤ k) × IsAmong k (used_in connecting entries r.dones) }
{}

/// The law of further clock lines: past connecting, a board whose clock drifts tells a further line of it
/// within 2,200 turns from any turn on, while the run goes on and its text has not ended it, where of any
/// three turns in a row one leaves room: what it orders of the board for homing leaves room for an asking.
pub fn boards_tell_their_clocks()
    ensures { (m : Machine) (switches : List Switch) (pins : List (List Level)) (entries : List Entry) (b : ℕ)
        (came : List Came) (turns : List BoardTurn) (from : ℕ) → IsValidMachine m →
        IsInRun m switches pins entries b came turns → (known_by m switches came).phase ≡ Running →
        ((board_at m b).drift ≡ pos 0 → ⊥) → HaveRoom m switches b came →
        ((known_by m switches (came_by_turn from came)).phase ≡ Connecting → ⊥) → from + 2_200 ≤ length came →
        TellsLineFrom m switches b from came }
{}
