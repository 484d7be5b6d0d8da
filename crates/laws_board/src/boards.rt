//! The laws of a run on several boards.

ghost use Rattle.std.specs.Prelude.{◌≡◌, ◌+◌, ◌<◌, ◌≤◌, ℕ, All, List, [], map, take};
ghost use Rattle.std.specs.List.{flat_map};
ghost use Rattle.plan_types.specs.Lines.{Clocks};
ghost use Rattle.section_units.specs.Sections.{AreReleased, BoardSection, IsSection};
ghost use Rattle.step_feed.specs.Pacing.{batch_at};
ghost use Rattle.board_world.specs.Orders.{units_orders};
ghost use Rattle.board_world.specs.World.{on_wire};
ghost use Rattle.link_work.specs.Limits.{bytes_in};
ghost use Rattle.wire_scene.specs.declared.scene.Entry.{Entry};
ghost use Rattle.plan_types.specs.declared.clock.BoardClock.{BoardClock};
ghost use Rattle.plan_types.specs.declared.levels.Level.{Level};
ghost use Rattle.plan_types.specs.declared.machine.BoardDef.{BoardDef};
ghost use Rattle.link_work.specs.Ends.{spoiled};
ghost use Rattle.link_work.specs.Runs.{AreTurns};
ghost use Rattle.link_work.specs.Stands.{first_state};
ghost use Rattle.link_work.specs.Turn.{LinkState, Orders};
ghost use Rattle.laws_board.specs.sections.Links.{ends_of};
ghost use Rattle.laws_board.specs.sections.Events.{AreTicks};
ghost use Rattle.laws_board.specs.sections.Parts.{AreInARow, AreTracked, IsBoardRun};
ghost use Rattle.laws_board.specs.sections.Runs.{AreSpilled};

/// The law of releases: where no unit that is due before a turn is released more than n turns behind its due
/// one, all units of sections that ended n turns before another, at most that one, are released before it.
pub fn units_are_released()
    ensures { (own : ℕ → ℕ) (clocks : Clocks) (freq slots ready n turns turn : ℕ) (ss : List BoardSection)
        (os : List Orders) → AreTicks own → IsBoardRun own clocks freq slots ready ss os → AreSpilled turns n ss →
        turn ≤ turns → All (λ s. s.end + n < turn) ss → AreReleased turn ss }
{}

/// The law of a turn's units: where none that is due before a turn is released behind its due one, the units
/// that the sections of a run release in an earlier turn have 210 bytes at most.
pub fn units_keep_their_limit()
    ensures { (own : ℕ → ℕ) (clocks : Clocks) (freq slots ready turns : ℕ) (ss : List BoardSection) (k : ℕ) →
        AreTicks own → (tracked : AreTracked own clocks ready) → All (IsSection clocks freq slots) ss →
        AreInARow tracked.until ready ss → AreSpilled turns 0 ss → k < turns →
        bytes_in (map on_wire (units_orders (flat_map (λ s. batch_at k s.releases) ss))) ≤ 210 }
{}

/// The law of clear scenes: without entries no turn of a link is spoiled.
pub fn clear_scenes_spoil_nothing()
    ensures { (clock : BoardClock) (b : BoardDef) (pins : List (List Level)) (board : ℕ) (entries : List Entry)
        (os : List Orders) (m : LinkState) (t : AreTurns clock 0 os (first_state b pins board entries) m) (k : ℕ) →
        entries ≡ [] → spoiled (take k (ends_of clock 0 os (first_state b pins board entries) m t)) ≡ 0 }
{}
