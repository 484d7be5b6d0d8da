//! The boards of homing groups over the turns of a section in a scene without entries, as laws.

ghost use Rattle.std.specs.Prelude.{◌≡◌, ◌<◌, ◌≤◌, ◌+◌, ◌-◌, ◌*◌, ℕ, List, [], ◌∷◌, Some, false, length, None, ◌++◌, min};
ghost use Rattle.plan_types.specs.declared.levels.Level.{Level};
ghost use Rattle.plan_types.specs.declared.machine.Machine.{Machine};
ghost use Rattle.plan_types.specs.Clock.{board_tick, clock_of, turn_ns, run_turns};
ghost use Rattle.plan_types.specs.Lines.{Clocks, lines_tick};
ghost use Rattle.plan_types.specs.Machines.{IsValidMachine, board_at};
ghost use Rattle.laws_board.specs.sections.Parts.{AreTracked};
ghost use Rattle.board_sim.specs.Rig.{Rig};
ghost use Rattle.board_sim.specs.RigRuns.{AllSound};
ghost use Rattle.wire_scene.specs.declared.scene.Entry.{Entry};
ghost use Rattle.wire_scene.specs.declared.scene.Switch.{Switch};
ghost use Rattle.board_asking.specs.Machine.{trigger_of};
ghost use Rattle.link_work.specs.Limits.{AllKeepLimits};
ghost use Rattle.link_work.specs.Stands.{first_state};
ghost use Rattle.plan_types.specs.declared.plan.BoardState.TheVariants.{Running};
ghost use Rattle.host_reactor.specs.declared.ordered.Phase.TheVariants.{Connecting};
ghost use Rattle.laws_board.specs.turns.Turns.{BoardTurn, latest_state, stands_after};
ghost use Rattle.laws_board.specs.clocks.Runs.{IsInRun, orders_in};
ghost use Rattle.trigger_group.specs.declared.order.End.TheVariants.{Expired};
ghost use Rattle.trigger_group.specs.declared.order.Member.{Member};
ghost use Rattle.laws_homing.specs.home_runs.Told.{IsMember};
ghost use Rattle.axis_homing.specs.declared.homing.Homing.{Homing};
ghost use Rattle.axis_homing.specs.Homing.{answer_in, hears_all};
ghost use Rattle.axis_homing.specs.Rising.{members_of};
ghost use Rattle.host_reactor.specs.Notes.{news_of, noted};
ghost use Rattle.laws_homing.specs.home_runs.Sections.{HomesFrom};
ghost use Rattle.laws_homing.specs.home_runs.Words.{TellsHomed};
ghost use Rattle.host_reactor.specs.Runs.{Came, GoesOn, HaveStates, known_by, last_reacted, state_at};
ghost use Rattle.laws_homing.specs.clear_groups.Safe.{IsSafeAt, IsSafeIn};
ghost use Rattle.laws_homing.specs.clear_groups.Sections.{AllLate, AreOfTurn, BeginsNoneFrom, IsClearSection, IsFollowed, IsPlain, IsRestingSection, rig_at, turns_of};
ghost use Rattle.laws_homing.specs.clear_groups.SetUp.{AllOfTurn, ArePreparedAt, BeginsSome, HoldsOf, IsNew, IsNewAt, IsNewIn, IsPrepared};
ghost use Rattle.laws_homing.specs.clear_groups.Quiet.{ReadsNoSwitch};
ghost use Rattle.laws_homing.specs.clear_groups.Resting.{BeginsAlone};
ghost use Rattle.laws_homing.specs.clear_boards.Limited.{AllFired};
ghost use Rattle.laws_homing.specs.clear_groups.Runs.{AreSetUp, BeginNone, IsClearRun};

/// The law of safe sections: where the clock lines follow the boards until 276 turns ahead, or to the
/// section's end, and the links rest, a homing group and its members' boards that are safe in a turn between
/// the section's set-up and its start, or from there on, are so in each later turn in which the section is
/// known; and no board told since of an expiry in a turn up to the section's last one.
pub fn safe_sections_stay_safe()
    ensures { (m : Machine) (switches : List Switch) (pins : ℕ → List (List Level)) (entries : List Entry)
        (lines : ℕ → Clocks) (ready from start last until at : ℕ) (members : List Member) →
        ((b : ℕ) → IsMember b members → IsFollowed m b (lines b) ready start last until) → from ≤ at → ready + 4 ≤ at →
        start ≤ at + 249 → (c : Came) (before : List Came) (all : List (ℕ → BoardTurn)) →
        IsRestingSection m switches pins entries lines from start members c before all → length before + 276 ≤ until →
        at ≤ length before → IsSafeAt m switches pins entries lines start last members at (c ∷ before) all →
        IsSafeIn m switches pins entries lines start last members c before all
        × ((b : ℕ) → IsMember b members → AllLate (lines b) last at (turns_of b all)) }
{}

/// The law of safe groups: where it is so in a turn between the set-up and the start, the group never answers
/// that a board expired.
pub fn safe_groups_answer_of_no_expiry()
    ensures { (m : Machine) (switches : List Switch) (pins : ℕ → List (List Level)) (entries : List Entry)
        (lines : ℕ → Clocks) (ready from start last until at : ℕ) (members : List Member) →
        ((b : ℕ) → IsMember b members → IsFollowed m b (lines b) ready start last until) → from ≤ at → ready + 4 ≤ at →
        start ≤ at + 249 → at + 1 ≤ start → (c : Came) (before : List Came) (all : List (ℕ → BoardTurn)) →
        IsRestingSection m switches pins entries lines from start members c before all → length before + 276 ≤ until →
        at ≤ length before → IsSafeAt m switches pins entries lines start last members at (c ∷ before) all →
        (h : Homing) → (noted m c.note (known_by m switches before)).homing ≡ Some h → (b turn : ℕ) →
        answer_in (length before) h.start
        (hears_all (noted m c.note (known_by m switches before)).clocks c.states h).group
        ≡ Some (Expired b turn) → ⊥ }
{}

/// The law of set-ups: where the clock lines follow the boards and the links rest, a homing group and its
/// members' boards are safe 249 turns before the section's start, where the group is new 251 turns before it,
/// and each board's one trigger is at rest then, or is set up already.
pub fn set_ups_make_sections_safe()
    ensures { (m : Machine) (switches : List Switch) (pins : ℕ → List (List Level)) (entries : List Entry)
        (lines : ℕ → Clocks) (ready from start last until : ℕ) (members : List Member) →
        ((b : ℕ) → IsMember b members → IsFollowed m b (lines b) ready start last until) → start ≤ last → (c d e : Came)
        (past : List Came) (i j : ℕ → BoardTurn) (js : List (ℕ → BoardTurn)) →
        IsRestingSection m switches pins entries lines from start members c (d ∷ e ∷ past) (i ∷ j ∷ js) →
        from ≤ length past → ready + 4 ≤ length past → length past + 251 ≡ start → length past + 276 ≤ until →
        AreOfTurn (length past + 1) d.states → AreOfTurn (length past + 2) c.states → (h : Homing) →
        (noted m e.note (known_by m switches past)).homing ≡ Some h →
        IsNew start last members (hears_all (noted m e.note (known_by m switches past)).clocks e.states h).group →
        ((b : ℕ) → IsMember b members →
        HoldsOf (trigger_of m b) (λ ps x. IsPrepared (lines_tick (lines b) (start * turn_ns)) ps x)
        (rig_at m pins entries js b)) →
        IsSafeIn m switches pins entries lines start last members c (d ∷ e ∷ past) (i ∷ j ∷ js) }
{}

/// The law of begun sections: where the clock lines follow the boards and the links rest, the group of a
/// homing section that is begun 251 turns before its start or earlier never answers that a board expired,
/// where each member's board has one trigger that is at rest 251 turns before the start, or is set up
/// already.
pub fn begun_sections_answer_of_no_expiry()
    ensures { (m : Machine) (switches : List Switch) (pins : ℕ → List (List Level)) (entries : List Entry)
        (lines : ℕ → Clocks) (ready from start last until : ℕ) (members : List Member) →
        ((b : ℕ) → IsMember b members → IsFollowed m b (lines b) ready start last until) → ready + 255 ≤ start →
        from + 251 ≤ start → start ≤ last → (c : Came) (before : List Came) (all : List (ℕ → BoardTurn)) →
        IsRestingSection m switches pins entries lines from start members c before all → AllOfTurn (c ∷ before) →
        length before + 276 ≤ until → from ≤ length before → IsNewAt m switches start last members from (c ∷ before) →
        ArePreparedAt m pins entries lines start members (start - 251) all → (h : Homing) →
        (noted m c.note (known_by m switches before)).homing ≡ Some h → (b turn : ℕ) →
        answer_in (length before) h.start
        (hears_all (noted m c.note (known_by m switches before)).clocks c.states h).group
        ≡ Some (Expired b turn) → ⊥ }
{}

/// The law of followed boards: a board whose clock lines track it from five turns before a section's start
/// on, until a turn, or until the turn behind the section's last one, is followed by them.
pub fn tracked_boards_are_followed()
    ensures { (m : Machine) (b : ℕ) (clocks : Clocks) (ready start last until : ℕ) → IsValidMachine m →
        b < length m.boards → (k : AreTracked (λ n. board_tick (clock_of (board_at m b)) n) clocks ready) →
        ready + 5 ≤ start → start ≤ last → min (last + 1) until ≤ k.until → k.until < run_turns →
        IsFollowed m b clocks ready start last until }
{}

/// The law of new groups: the group of a homing section that a note begins before its start is new in the
/// turn of the note, and stays so until 251 turns before the start, whatever the boards tell.
pub fn noted_groups_are_new()
    ensures noted { (m : Machine) (switches : List Switch) (c : Came) (before : List Came) (h : Homing) →
        BeginsSome (news_of c.note) → (noted m c.note (known_by m switches before)).homing ≡ Some h →
        AreOfTurn (length before) c.states → length before < h.start →
        IsNewIn m switches h.start h.group.last (members_of h.group) c before }
    ensures stays { (m : Machine) (switches : List Switch) (from start last : ℕ) (members : List Member) →
        from + 251 ≤ start → (c : Came) (before : List Came) → GoesOn m switches before →
        HomesFrom m switches from start members (c ∷ before) → BeginsNoneFrom from (c ∷ before) →
        AllOfTurn (c ∷ before) → from ≤ length before → length before + 251 ≤ start →
        IsNewAt m switches start last members from (c ∷ before) → IsNewIn m switches start last members c before }
{}

/// The law of quiet boards: in a run in a scene without entries whose homing sections are all set up, and
/// begun where none is known, no trigger that can't trigger ever reads its switch; and so a board whose one
/// trigger can't trigger is prepared for any start.
pub fn boards_stay_quiet()
    ensures quiet { (m : Machine) (switches : List Switch) (pins : ℕ → List (List Level)) (entries : List Entry)
        (lines : ℕ → ℕ → Clocks) (ready until b : ℕ) → IsValidMachine m → entries ≡ [] → b < length m.boards →
        (c : Came) (before : List Came) (all : List (ℕ → BoardTurn)) → length all ≡ length before →
        IsPlain m switches (pins b) entries b before (turns_of b all) → BeginsAlone m switches before →
        AreSetUp m switches pins entries lines ready until (c ∷ before) all → length before + 276 ≤ until →
        ReadsNoSwitch (rig_at m pins entries all b) }
    ensures prepared { (oid base : ℕ) (r : Rig) → HoldsOf oid (λ ps s. s.trigger.can ≡ false) r → ReadsNoSwitch r →
        AllSound r → HoldsOf oid (λ ps s. IsPrepared base ps s) r }
{}

/// The law of sections that are set up: in a run in a scene without entries whose homing sections are all set
/// up, and begun where none is known, the group of a section that was known 251 turns before its start never
/// answers that a board expired.
pub fn set_up_sections_answer_of_no_expiry()
    ensures { (m : Machine) (switches : List Switch) (pins : ℕ → List (List Level)) (entries : List Entry)
        (lines : ℕ → ℕ → Clocks) (ready until from start : ℕ) (members : List Member) → IsValidMachine m →
        entries ≡ [] → from + 251 ≤ start → (c : Came) (before : List Came) (all : List (ℕ → BoardTurn)) →
        IsClearSection m switches pins entries (lines start) from start members c before all →
        BeginsAlone m switches before → AreSetUp m switches pins entries lines ready until (c ∷ before) all →
        length before + 276 ≤ until → from ≤ length before → (h : Homing) →
        (noted m c.note (known_by m switches before)).homing ≡ Some h → (b turn : ℕ) →
        answer_in (length before) h.start
        (hears_all (noted m c.note (known_by m switches before)).clocks c.states h).group
        ≡ Some (Expired b turn) → ⊥ }
{}

/// The law of rest: in a run in a scene without entries whose homing sections are begun where none is known,
/// no trigger of a board can trigger 251 turns before the start of a section.
pub fn boards_rest_between_sections()
    ensures { (m : Machine) (switches : List Switch) (pins : List (List Level)) (entries : List Entry) (b : ℕ) →
        IsValidMachine m → entries ≡ [] → b < length m.boards → (c : Came) (before : List Came)
        (turns : List BoardTurn) → IsPlain m switches pins entries b before turns →
        BeginsAlone m switches (c ∷ before) → (h : Homing) →
        (noted m c.note (known_by m switches before)).homing ≡ Some h → h.start ≡ length before + 251 →
        AllFired (stands_after (first_state (board_at m b) pins b entries) turns).core.board }
{}

/// The law of states: in a run whose boards are all in it, the states that come in a turn are of the turn before.
pub fn states_come_a_turn_later()
    ensures { (m : Machine) (switches : List Switch) (pins : ℕ → List (List Level)) (entries : List Entry) (c : Came)
        (before : List Came) (all : List (ℕ → BoardTurn)) → HaveStates m (c ∷ before) →
        ((b : ℕ) → b < length m.boards →
        IsInRun m switches (pins b) entries b before (turns_of b all)
        × (state_at b c.states ≡ latest_state (turns_of b all))) →
        AreOfTurn (length before) c.states }
{}

/// The law of the one trigger: in a scene without entries a board of a run that is past connecting, and runs,
/// has one trigger, its own.
pub fn boards_have_one_trigger()
    ensures { (m : Machine) (switches : List Switch) (pins : List (List Level)) (entries : List Entry) (b : ℕ)
        (came : List Came) (turns : List BoardTurn) → IsValidMachine m → entries ≡ [] →
        IsInRun m switches pins entries b came turns → AllKeepLimits (orders_in turns) →
        ((known_by m switches came).phase ≡ Connecting → ⊥) →
        (stands_after (first_state (board_at m b) pins b entries) turns).core.board.controller.state ≡ Running →
        HoldsOf (trigger_of m b) (λ ps s. Unit {0})
        (stands_after (first_state (board_at m b) pins b entries) turns).core.board }
{}

/// The law of clear runs: in a run of all boards in a scene without entries, whose homing sections are begun
/// past connecting, where none is known, 251 turns before their starts or earlier, and where each section's
/// own clock lines track the boards until 276 turns ahead, or to the section's end, and turns begin as by
/// them by those that the reactor knows where the section is known, no homing group ever answers that a board
/// expired.
pub fn clear_runs_answer_of_no_expiry()
    ensures { (m : Machine) (switches : List Switch) (pins : ℕ → List (List Level)) (entries : List Entry)
        (lines : ℕ → ℕ → Clocks) (ready until : ℕ) → IsValidMachine m → entries ≡ [] → (c : Came) (before : List Came)
        (all : List (ℕ → BoardTurn)) → IsClearRun m switches pins entries lines ready until c before all →
        length before + 276 ≤ until → (h : Homing) → (noted m c.note (known_by m switches before)).homing ≡ Some h →
        (b turn : ℕ) →
        answer_in (length before) h.start
        (hears_all (noted m c.note (known_by m switches before)).clocks c.states h).group
        ≡ Some (Expired b turn) → ⊥ }
{}

/// The law of sections that are over: behind a turn whose word tells of an answer the reactor knows no homing
/// section, and so it is until a note begins one.
pub fn answered_sections_are_over()
    ensures told { (m : Machine) (switches : List Switch) (c : Came) (before : List Came) →
        GoesOn m switches (c ∷ before) → ((known_by m switches before).phase ≡ Connecting → ⊥) →
        TellsHomed (last_reacted m switches c before).ordered.word.news →
        (known_by m switches (c ∷ before)).homing ≡ None }
    ensures stays { (m : Machine) (switches : List Switch) (later before : List Came) →
        GoesOn m switches (later ++ before) → BeginNone later → (known_by m switches before).homing ≡ None →
        (known_by m switches (later ++ before)).homing ≡ None }
{}

/// The law of boards together: where boards did as many turns each, there is one list of what they all did,
/// turn by turn; and clock lines that track a board from a turn on do so from any later one.
pub fn boards_go_together()
    ensures join { (boards n : ℕ) (d : BoardTurn) (turns : ℕ → List BoardTurn) →
        ((b : ℕ) → b < boards → length (turns b) ≡ n) →
        (all : List (ℕ → BoardTurn)) × (length all ≡ n) × ((b : ℕ) → b < boards → turns_of b all ≡ turns b) }
    ensures later { (own : ℕ → ℕ) (clocks : Clocks) (early late : ℕ) → early ≤ late →
        (k : AreTracked own clocks early) → (x : AreTracked own clocks late) × (x.until ≡ k.until) }
{}
