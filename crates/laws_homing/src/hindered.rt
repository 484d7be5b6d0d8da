//! What a homing section that ends as a board expired tells of its links, in any scene, as laws.

ghost use Rattle.std.specs.Prelude.{◌≡◌, ◌⊎◌, ◌≤◌, ◌+◌, ◌-◌, ◌*◌, ℕ, List, [], ◌∷◌, ◌++◌, length};
ghost use Rattle.plan_types.specs.declared.levels.Level.{Level};
ghost use Rattle.plan_types.specs.declared.machine.BoardDef.{BoardDef};
ghost use Rattle.plan_types.specs.declared.machine.Machine.{Machine};
ghost use Rattle.plan_types.specs.Clock.{board_tick, clock_of, turn_ns};
ghost use Rattle.plan_types.specs.Lines.{Clocks, lines_tick};
ghost use Rattle.plan_types.specs.Machines.{IsValidMachine, board_at};
ghost use Rattle.wire_scene.specs.declared.scene.Entry.{Entry};
ghost use Rattle.wire_scene.specs.declared.scene.Switch.{Switch};
ghost use Rattle.link_work.specs.Limits.{AllKeepLimits};
ghost use Rattle.link_work.specs.Stands.{first_state};
ghost use Rattle.board_asking.specs.Machine.{trigger_of};
ghost use Rattle.trigger_group.specs.declared.order.Member.{Member};
ghost use Rattle.host_reactor.specs.Runs.{Came, state_at};
ghost use Rattle.laws_board.specs.turns.Turns.{AreBoardTurns, BoardTurn, latest_state};
ghost use Rattle.laws_board.specs.clocks.Runs.{IsInRun, orders_in};
ghost use Rattle.laws_homing.specs.home_runs.Guards.{HasFired};
ghost use Rattle.laws_homing.specs.home_runs.Moments.{AllComeSoon, ComesSoon};
ghost use Rattle.laws_homing.specs.home_runs.Sections.{HomesFrom, TakesSetUp};
ghost use Rattle.laws_homing.specs.home_runs.Told.{IsMember};
ghost use Rattle.laws_homing.specs.clear_boards.Rests.{RestsFrom};
ghost use Rattle.laws_homing.specs.clear_groups.Sections.{IsFollowed, IsHomingSection, KnowsLines, turns_of};
ghost use Rattle.laws_homing.specs.clear_groups.SetUp.{AllOfTurn, IsNewAt};
ghost use Rattle.laws_homing.specs.fired_runs.Since.{BeginsApart, IsFiredAt, ReadsAsTold, ReadsSwitchTrue, ReadsTrue};
ghost use Rattle.laws_homing.specs.hindered.Hindered.{HaveRoundAhead, HeardByNow, HinderedIn, IsGoingOn, SomeHinderedIn, StoodAt, TellsOn};

/// The law of rest: in one of some turns, from a number on, a link was hindered, or it rests over each that begins
/// behind the first of these; so the links of some boards.
pub fn links_rest_or_are_hindered()
    ensures link { (from to : ℕ) (turns : List BoardTurn) → length turns ≤ to + 1 →
        HinderedIn from to turns ⊎ RestsFrom (from + 1) turns }
    ensures links { (from to : ℕ) (members : List Member) (all : List (ℕ → BoardTurn)) → length all ≤ to + 1 →
        SomeHinderedIn from to members all ⊎ ((b : ℕ) → IsMember b members → RestsFrom (from + 1) (turns_of b all)) }
{}

/// The law of clear links: in a scene without entries, where what is queued keeps the limits, a link rests over each
/// turn.
pub fn clear_links_rest()
    ensures { (b : BoardDef) (pins : List (List Level)) (place : ℕ) (entries : List Entry) (from : ℕ)
        (turns : List BoardTurn) → entries ≡ [] → AreBoardTurns (clock_of b) (first_state b pins place entries) turns →
        AllKeepLimits (orders_in turns) → RestsFrom from turns }
{}

/// The law of boards that expire, in any scene: where as a turn ends the trigger of a board stands expired
/// (2), of a homing section of which it is a member, since a tick that isn't that of the turn behind the
/// section's last one, the link of a member's board was hindered in a turn up to this one, from 252 turns
/// before the section's start on, or from an earlier one. What it takes is that the section was known in the
/// turn behind that one and its group new, that clock lines follow the boards, and that what these tell of
/// their triggers is read true (`IsGoingOn`).
pub fn boards_expire_where_links_are_hindered()
    ensures { (m : Machine) (switches : List Switch) (pins : ℕ → List (List Level)) (entries : List Entry)
        (lines : ℕ → Clocks) (ready since start last until : ℕ) (members : List Member) → IsValidMachine m →
        ((b : ℕ) → IsMember b members → IsFollowed m b (lines b) ready start last until) → ready + 255 ≤ start →
        since + 252 ≤ start → start ≤ last → (c : Came) (before : List Came) (all : List (ℕ → BoardTurn)) →
        IsHomingSection (λ b. IsGoingOn m switches (pins b) entries b) m switches lines (since + 1) start members c
        before all → AllOfTurn (c ∷ before) → BeginsApart m switches (c ∷ before) → length before + 276 ≤ until →
        IsNewAt m switches start last members (since + 1) (c ∷ before) → (b tick : ℕ) → IsMember b members →
        (tick ≡ lines_tick (lines b) ((last + 1) * turn_ns) → ⊥) → (later : List BoardTurn) (t : BoardTurn)
        (past : List BoardTurn) → turns_of b all ≡ later ++ t ∷ past → start ≤ length past + 250 →
        IsFiredAt (trigger_of m b) 2 tick t.after.core.board → SomeHinderedIn since (length past) members all }
{}

/// The law of boards that expire lately, in any scene: where as a turn ends the trigger of a board stands expired (2),
/// of a homing section of which it is a member, since a tick that isn't that of the turn behind the section's last one,
/// the link of a member's board was hindered in this turn or in one of the 37 before it. What it takes is that 36 turns
/// before, which is five turns behind the section's start or later, each member's trigger was live, or went on
/// reporting that it had triggered in the section (`TellsOn`); that 12 turns before the board's own could still
/// trigger; that the group heard of the board as able to trigger in no turn to come (`HeardByNow`); that by the known
/// clock lines a round of the 32-bit clock fits before a run's last turn (`HaveRoundAhead`); and what the law of boards
/// that expire takes.
pub fn boards_expire_where_links_are_hindered_lately()
    ensures { (m : Machine) (switches : List Switch) (pins : ℕ → List (List Level)) (entries : List Entry)
        (lines : ℕ → Clocks) (ready since start last until : ℕ) (members : List Member) → IsValidMachine m →
        ((b : ℕ) → IsMember b members → IsFollowed m b (lines b) ready start last until) → ready + 255 ≤ start →
        since + 252 ≡ start → start ≤ last → (c : Came) (before : List Came) (all : List (ℕ → BoardTurn)) →
        IsHomingSection (λ b. IsGoingOn m switches (pins b) entries b) m switches lines (since + 1) start members c
        before all → BeginsApart m switches (c ∷ before) → length before + 276 ≤ until →
        IsNewAt m switches start last members (since + 1) (c ∷ before) → (b tick at : ℕ) → IsMember b members →
        HeardByNow m switches b start (c ∷ before) → (tick ≡ lines_tick (lines b) ((last + 1) * turn_ns) → ⊥) →
        (later : List BoardTurn) (t : BoardTurn) (past : List BoardTurn) → turns_of b all ≡ later ++ t ∷ past →
        length past ≡ at + 36 → start + 5 ≤ at → at + 32 ≤ last →
        ((x : ℕ) → IsMember x members →
        StoodAt (TellsOn m x (lines_tick (lines x) (start * turn_ns)) at) at (turns_of x all)) →
        StoodAt (λ r. HasFired (trigger_of m b) r → ⊥) (at + 24) (turns_of b all) →
        ((x : ℕ) → IsMember x members → HaveRoundAhead m switches x start last (c ∷ before)) →
        IsFiredAt (trigger_of m b) 2 tick t.after.core.board → SomeHinderedIn (at - 1) (length past) members all }
{}

/// The law of triggers that tell on, in any scene: where a board of a homing section took the section's set-up in time
/// (`TakesSetUp`), its trigger tells on as each of the board's turns begins, from five turns behind the section's start
/// on (`TellsOn`): it is live, or it has triggered, at a tick from the section's start on, and either way it reports
/// every five turns. What it takes besides is that the section's group is new as its boards are started, and has heard
/// of one of its members as able to trigger in no turn to come (`HeardByNow`): so its timeouts are near.
pub fn triggers_set_up_in_time_tell_on()
    ensures { (m : Machine) (switches : List Switch) (pins : ℕ → List (List Level)) (entries : List Entry)
        (lines : ℕ → Clocks) (ready since start last until : ℕ) (members : List Member) → IsValidMachine m →
        ((b : ℕ) → IsMember b members → IsFollowed m b (lines b) ready start last until) → ready + 255 ≤ start →
        since + 252 ≡ start → (c : Came) (before : List Came) (all : List (ℕ → BoardTurn)) →
        IsHomingSection (λ b. IsGoingOn m switches (pins b) entries b) m switches lines (since + 1) start members c
        before all → BeginsApart m switches (c ∷ before) → length before + 23 ≤ until →
        IsNewAt m switches start last members (since + 1) (c ∷ before) → (b y at : ℕ) → IsMember b members →
        IsMember y members → HeardByNow m switches y start (c ∷ before) →
        TakesSetUp (first_state (board_at m b) (pins b) b entries) start (turns_of b all) → start + 5 ≤ at →
        StoodAt (TellsOn m b (lines_tick (lines b) (start * turn_ns)) at) at (turns_of b all) }
{}

/// The law of reports that are read as what they told (`ReadsAsTold`): they are read true, and so are those that
/// readings triggered the trigger.
pub fn reports_read_as_told_are_read_true()
    ensures { (m : Machine) (switches : List Switch) (b : ℕ) (c : Came) (before : List Came)
        (turns : List BoardTurn) → ReadsAsTold m switches b c before turns →
        ReadsTrue m switches b c before turns × ReadsSwitchTrue m switches b c before turns }
{}

/// The law of reports that come soon, in any scene: where what a board told in the turn in front of a homing section's
/// start or later comes soon (`ComesSoon`), the section's group hears of the board as able to trigger in no turn to
/// come. What it takes is that the section is known from a turn on, and that each of the board's turns from the start
/// on begins no later than the turn behind it by the section's clock lines.
pub fn reports_that_come_soon_are_heard_by_now()
    ensures { (m : Machine) (switches : List Switch) (pins : List (List Level)) (entries : List Entry)
        (b from start : ℕ) (members : List Member) (lines : ℕ → Clocks) (c : Came) (before : List Came)
        (turns : List BoardTurn) → from ≤ start → IsInRun m switches pins entries b before turns →
        state_at b c.states ≡ latest_state turns → HomesFrom m switches from start members (c ∷ before) →
        KnowsLines m switches start lines (c ∷ before) → ((k : ℕ) → start ≤ k → k ≤ length before →
        board_tick (clock_of (board_at m b)) k ≤ lines_tick (lines b) ((k + 1) * turn_ns)) →
        (start ≤ length turns → ComesSoon m switches pins entries b c before turns) →
        AllComeSoon m switches pins entries b start before turns → HeardByNow m switches b start (c ∷ before) }
{}
