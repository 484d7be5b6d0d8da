//! The laws of sections on their boards.

ghost use Rattle.std.specs.Prelude.{◌≡◌, ◌⊎◌, ℕ, ◌+◌, ◌<◌, All, List, [], length, map, slice_index_or, true};
ghost use Rattle.std.specs.List.{flat_map};
ghost use Rattle.plan_types.specs.declared.machine.Machine.{Machine};
ghost use Rattle.plan_types.specs.Lines.{Clocks};
ghost use Rattle.plan_types.specs.Machines.{board_at};
ghost use Rattle.plan_types.specs.Sections.{clocks_at};
ghost use Rattle.section_units.specs.Sections.{IsSection};
ghost use Rattle.step_feed.specs.Pacing.{batch_at};
ghost use Rattle.motion_work.specs.Boards.{AreSectionsApart, parts_on};
ghost use Rattle.motion_work.specs.Feeds.{units_at};
ghost use Rattle.motion_work.specs.Seen.{AreMoves, AreStarted, IsHomed, Started};
ghost use Rattle.plan_types.specs.declared.plan.Line.{Line};
ghost use Rattle.plan_types.specs.Lines.{last_from};
ghost use Rattle.clock_line.specs.Kept.{AreKept};
ghost use Rattle.section_units.specs.Plans.{IsFrontOnBy};
ghost use Rattle.section_units.specs.Sections.{AreBefore};
ghost use Rattle.section_feed.specs.Boards.{most_ns};
ghost use Rattle.section_feed.specs.Lined.{line_at};
ghost use Rattle.motion_work.specs.Homes.{no_end};

/// The law of boards: sections that were begun one behind the other are, on each board, a list of sections,
/// one behind the other, of moves where none homes; and what these release in a turn is what the board's
/// batch of that turn has.
pub fn boards_have_sections()
    ensures sections { (m : Machine) (clocks : List Clocks) (ready : ℕ) (begun : List Started) (b : ℕ) →
        AreStarted m clocks ready begun → AreMoves begun → b < length m.boards →
        All (IsSection (clocks_at clocks b) (board_at m b).freq (board_at m b).slots) (parts_on m clocks begun b) }
    ensures apart { (m : Machine) (clocks : List Clocks) (ready : ℕ) (begun : List Started) (b : ℕ) →
        AreStarted m clocks ready begun → AreSectionsApart ready (parts_on m clocks begun b) }
    ensures units { (m : Machine) (clocks : List Clocks) (begun : List Started) (b k : ℕ) →
        units_at b k (map (λ s. s.boards) begun) ≡ flat_map (λ s. batch_at k s.releases) (parts_on m clocks begun b) }
{}

/// The law of sections that home: what such a section has released on a board are the first units of its plan
/// by all lines of the board, the first of which it was planned by; and where its end is known, they are
/// released before it. It stays one by a line more, on any board, that holds from 277 turns behind its end on
/// or later.
pub fn homed_sections_follow_plans()
    ensures front { (m : Machine) (clocks : List Clocks) (s : Started) (b : ℕ) → AreKept (clocks_at clocks b) →
        last_from 0 (clocks_at clocks b).held < most_ns → b < length clocks → b < length m.boards → IsHomed m clocks s →
        IsFrontOnBy true m clocks s.section.moves s.start b (slice_index_or s.boards b []) }
    ensures before { (m : Machine) (clocks : List Clocks) (s : Started) (b : ℕ) → b < length m.boards →
        IsHomed m clocks s → (s.end ≡ no_end) ⊎ AreBefore s.end (slice_index_or s.boards b []) }
    ensures stay { (m : Machine) (clocks : List Clocks) (s : Started) (b turn : ℕ) (line : Line) → b < length clocks →
        s.end + 276 < turn → IsHomed m clocks s → IsHomed m (line_at clocks b turn line) s }
{}
