//! The laws of a section whose moves come one by one.

ghost use Rattle.std.specs.Prelude.{◌≡◌, ℕ, ◌+◌, ◌-◌, ◌*◌, ◌/◌, ◌<◌, ◌≤◌, ◌^◌, ◌++◌, [], All, Bool, List, false, length, max, slice_index_or};
ghost use Rattle.plan_types.specs.declared.plan.Move.{Move};
ghost use Rattle.plan_types.specs.declared.plan.Line.{Line};
ghost use Rattle.plan_types.specs.Clock.{turn_ns};
ghost use Rattle.plan_types.specs.Valid.{IsValidLine};
ghost use Rattle.clock_line.specs.Kept.{AreKept, added};
ghost use Rattle.plan_types.specs.declared.machine.Machine.{Machine};
ghost use Rattle.plan_types.specs.Lines.{Clocks, lines_tick};
ghost use Rattle.plan_types.specs.declared.plan.Pulse.{Pulse};
ghost use Rattle.plan_types.specs.Machines.{IsValidMachine, board_at, stepper_at};
ghost use Rattle.plan_types.specs.Plan.{Fits, max_error};
ghost use Rattle.plan_types.specs.Sections.{base_tick, clocks_at, end_time, for_each_stepper, latest, section_end, stepper_end, stepper_plan};
ghost use Rattle.plan_types.specs.Speeds.{greatest_speeds};
ghost use Rattle.step_feed.specs.Pacing.{Release, at_turn, batch_at};
ghost use Rattle.step_feed.specs.Units.{StepUnit};
ghost use Rattle.section_units.specs.Sections.{AreBefore};
ghost use Rattle.section_units.specs.Plans.{AreOnBoardsBy, AreSentOn, AreSentToOn, IsFrontOnBy, IsOnBoardBy};
ghost use Rattle.section_stream.specs.Looking.{IsFuture};
ghost use Rattle.section_stream.specs.Steppers.{StepperKind};
ghost use Rattle.section_feed.specs.declared.section.SectionStream.{SectionStream};
ghost use Rattle.section_feed.specs.AllBoards.{ArePast, AreReleased, latest_packed};
ghost use Rattle.section_feed.specs.Fronts.{IsBoardFront, front_parts};
ghost use Rattle.section_feed.specs.Boards.{IsLasting, MayTake};
ghost use Rattle.section_feed.specs.Going.{IsPackedTo, most_ahead};
ghost use Rattle.section_feed.specs.Lined.{ArePlannedBefore, HasLine, line_at};
ghost use Rattle.section_feed.specs.On.{CanComplete, IsSectionOn, IsToldBy};
ghost use Rattle.section_feed.specs.Queues.{IsDrawn, begin_in, cruise_in, drawn_to, is_taking, settled_to};
ghost use Rattle.section_feed.specs.Rests.{AreAllRested};
ghost use Rattle.section_feed.specs.Sections.{IsLeft, IsSectionOf, boards_in, boards_of, next_of, queue_of, sets_of};
ghost use Rattle.section_feed.specs.Sets.{BoardSet};
ghost use Rattle.section_feed.specs.Fewer.{AreFirstLines, PlansAgree};
ghost use Rattle.section_feed.specs.Wholes.{IsReleased, IsSetTo, sent_plan};

/// The law of released units: those of a board are the first ones of the section's, whatever moves are pushed later.
pub fn sections_stay()
    ensures { (homing : Bool) (s : SectionStream) (scv : ℕ) (moves all : List Move) (kinds : ℕ → ℕ → StepperKind)
        (base : ℕ → ℕ) (released : ℕ → List Release) (b freq : ℕ) (d : BoardSet) →
        IsSectionOf s scv moves kinds base released → IsFuture (is_taking (queue_of s)) moves all → b < boards_of s →
        ((k : ℕ) → k < (slice_index_or (sets_of s) b d).count → IsSetTo homing freq (base b) (kinds b k)) →
        ∥ IsBoardFront homing (slice_index_or (sets_of s) b d).clocks freq (slice_index_or (sets_of s) b d).slots
        (slice_index_or (sets_of s) b d).first (base b) (kinds b) (slice_index_or (sets_of s) b d).count
        (front_parts s scv all) (released b) ∥₁ }
{}

/// The law of a section of which all moves were drawn: it ends when they end; where its boards have released
/// all, these are the units of the whole section; its steps are planned before the end of the turn of the
/// last of them; and the turn in which it ends is that of its plan.
pub fn sections_end()
    ensures time { (s : SectionStream) (scv : ℕ) (moves : List Move) (kinds : ℕ → ℕ → StepperKind) (base : ℕ → ℕ)
        (released : ℕ → List Release) → IsSectionOf s scv moves kinds base released → IsDrawn (queue_of s) →
        drawn_to (queue_of s)
        ≡ end_time (cruise_in (queue_of s)) moves (greatest_speeds moves scv) (begin_in (queue_of s)) }
    ensures units { (homing : Bool) (s : SectionStream) (scv : ℕ) (moves : List Move) (kinds : ℕ → ℕ → StepperKind)
        (base : ℕ → ℕ) (released : ℕ → List Release) (b freq : ℕ) (d : BoardSet) →
        IsSectionOf s scv moves kinds base released → IsDrawn (queue_of s) → AreReleased (boards_in s) →
        b < boards_of s →
        ((k : ℕ) → k < (slice_index_or (sets_of s) b d).count → IsSetTo homing freq (base b) (kinds b k)) →
        ∥ IsReleased homing (slice_index_or (sets_of s) b d).clocks freq (slice_index_or (sets_of s) b d).slots
        (slice_index_or (sets_of s) b d).first (base b) (kinds b) (slice_index_or (sets_of s) b d).count
        (front_parts s scv moves) (released b) ∥₁ }
    ensures within { (s : SectionStream) (scv : ℕ) (moves : List Move) (kinds : ℕ → ℕ → StepperKind) (base : ℕ → ℕ)
        (released : ℕ → List Release) (b turn oid later : ℕ) (d : BoardSet) →
        IsSectionOf s scv moves kinds base released → IsDrawn (queue_of s) → ArePast turn (boards_in s) →
        b < boards_of s → oid < (slice_index_or (sets_of s) b d).count → turn < later →
        All (λ q. q.tick < lines_tick (slice_index_or (sets_of s) b d).clocks (later * turn_ns))
        (sent_plan (kinds b oid) (slice_index_or (sets_of s) b d).clocks (base b) (front_parts s scv moves)) }
    ensures end { (m : Machine) (clocks : List Clocks) (turn : ℕ) (homing : Bool) (s : SectionStream)
        (moves : List Move) (released : ℕ → List Release) (e : ℕ) → IsSectionOn m clocks turn homing s moves released →
        IsDrawn (queue_of s) → ArePast e (boards_in s) →
        e ≡ max (drawn_to (queue_of s) / turn_ns) (latest_packed (boards_in s)) → e ≡ section_end m clocks moves turn }
{}

/// The law of packed sections: where all steps of a section are packed, the last one is before the turn up to
/// which steps may be packed.
pub fn sections_are_laid()
    ensures { (m : Machine) (clocks : List Clocks) (turn : ℕ) (homing : Bool) (s : SectionStream) (moves : List Move)
        (released : ℕ → List Release) (e : ℕ) → IsSectionOn m clocks turn homing s moves released →
        IsDrawn (queue_of s) → ArePast e (boards_in s) →
        latest (for_each_stepper m (stepper_end m clocks moves turn)) < next_of s + most_ahead }
{}

/// The law of a machine's sections: what a section has released on a board are the first units of its plan
/// there, whatever moves are pushed later, and such as a board is sent: in order, with triples that cover as
/// many steps as one can; and once it ended and all is released, these are the units of the whole section.
pub fn sections_follow_plans()
    ensures front { (m : Machine) (clocks : List Clocks) (turn : ℕ) (homing : Bool) (s : SectionStream)
        (moves all : List Move) (released : ℕ → List Release) (b : ℕ) →
        IsSectionOn m clocks turn homing s moves released → IsFuture (is_taking (queue_of s)) moves all →
        b < length m.boards → ∥ IsFrontOnBy homing m clocks all turn b (released b) ∥₁ }
    ensures sent { (m : Machine) (clocks : List Clocks) (turn : ℕ) (homing : Bool) (s : SectionStream)
        (moves all : List Move) (released : ℕ → List Release) (b : ℕ) →
        IsSectionOn m clocks turn homing s moves released → IsFuture (is_taking (queue_of s)) moves all →
        b < length m.boards → ∥ AreSentOn m clocks all turn b (released b) ∥₁ }
    ensures whole { (m : Machine) (clocks : List Clocks) (turn : ℕ) (homing : Bool) (s : SectionStream)
        (moves : List Move) (released : ℕ → List Release) (e b : ℕ) →
        IsSectionOn m clocks turn homing s moves released → IsDrawn (queue_of s) → AreReleased (boards_in s) →
        ArePast e (boards_in s) → e ≡ max (drawn_to (queue_of s) / turn_ns) (latest_packed (boards_in s)) →
        b < length m.boards → ∥ IsOnBoardBy homing m clocks moves turn b (released b) ∥₁ }
{}

/// The law of open sections: what a section has released on a board becomes the whole section of any moves
/// that it may still have, with releases in the next turn or later, where what its steppers have not given is
/// due 250 turns behind that turn or later; so does a section that has released nothing, 250 turns before its
/// start. And it ends when its settled moves do, or later; where something of it is left, in the turn up to
/// which its boards are packed, or later.
pub fn sections_can_be_completed()
    ensures going { (m : Machine) (clocks : List Clocks) (turn : ℕ) (homing : Bool) (s : SectionStream)
        (moves all : List Move) (released : ℕ → List Release) (b : ℕ) →
        IsSectionOn m clocks turn homing s moves released → IsFuture (is_taking (queue_of s)) moves all →
        AreAllRested (next_of s + 250) (boards_in s) → b < length m.boards →
        ∥ CanComplete homing m clocks all turn b (next_of s) (released b) ∥₁ }
    ensures begun { (homing : Bool) (m : Machine) (clocks : List Clocks) (all : List Move) (turn b : ℕ) →
        IsValidMachine m → 250 ≤ turn → IsLasting (clocks_at clocks b) → b < length m.boards →
        CanComplete homing m clocks all turn b (turn - 250) [] }
    ensures later { (m : Machine) (clocks : List Clocks) (turn : ℕ) (homing : Bool) (s : SectionStream)
        (moves all : List Move) (released : ℕ → List Release) → IsSectionOn m clocks turn homing s moves released →
        IsFuture (is_taking (queue_of s)) moves all →
        settled_to (queue_of s) / turn_ns ≤ section_end m clocks all turn }
    ensures left { (m : Machine) (clocks : List Clocks) (turn : ℕ) (homing : Bool) (s : SectionStream)
        (moves all : List Move) (released : ℕ → List Release) (k : ℕ) →
        IsSectionOn m clocks turn homing s moves released → IsFuture (is_taking (queue_of s)) moves all →
        All (IsPackedTo k) (boards_in s) → k < 2 ^ 44 → IsLeft s → k ≤ section_end m clocks all turn }
{}

/// The law of what is told: where on each board what was released before a turn becomes the whole section of
/// some moves, it is told by whole sections on all boards, batch by batch. And the batch of a turn behind
/// other releases is told as it was given, and the earlier ones as before.
pub fn open_sections_are_told_whole()
    ensures boards { (homing : Bool) (m : Machine) (clocks : List Clocks) (moves : List Move) (turn next : ℕ)
        (released : ℕ → List Release) →
        ((b : ℕ) → b < length m.boards → ∥ CanComplete homing m clocks moves turn b next (released b) ∥₁) →
        ∥ ((boards : List (List Release)) × IsToldBy homing m clocks moves turn next released boards) ∥₁ }
    ensures here { (next : ℕ) (released : List Release) (units : List StepUnit) → AreBefore next released →
        batch_at next (released ++ at_turn next units) ≡ units }
    ensures earlier { (k next : ℕ) (released : List Release) (units : List StepUnit) → k < next →
        batch_at k (released ++ at_turn next units) ≡ batch_at k released }
    ensures before { (next : ℕ) (released : List Release) (units : List StepUnit) → AreBefore next released →
        AreBefore (next + 1) (released ++ at_turn next units) }
{}

/// The law of added lines: a section that took up a line on a board, which holds from a turn behind its start
/// on, is one by the lines with it; so what it has released are the first units of its plan by these lines,
/// whatever moves are pushed later, and become the whole section by them, with releases in the next turn or
/// later.
pub fn lines_may_be_added()
    ensures section { (m : Machine) (clocks : List Clocks) (start : ℕ) (homing : Bool) (old new : SectionStream)
        (moves : List Move) (released : ℕ → List Release) (b turn : ℕ) (line : Line) →
        IsSectionOn m clocks start homing old moves released → b < length m.boards → start < turn →
        MayTake (clocks_at clocks b) turn line → HasLine b turn line old new →
        IsSectionOn m (line_at clocks b turn line) start homing new moves released }
    ensures front { (m : Machine) (clocks : List Clocks) (start : ℕ) (homing : Bool) (old new : SectionStream)
        (moves all : List Move) (released : ℕ → List Release) (b turn a : ℕ) (line : Line) →
        IsSectionOn m clocks start homing old moves released → IsFuture (is_taking (queue_of old)) moves all →
        b < length m.boards → start < turn → MayTake (clocks_at clocks b) turn line → HasLine b turn line old new →
        a < length m.boards → ∥ IsFrontOnBy homing m (line_at clocks b turn line) all start a (released a) ∥₁ }
    ensures going { (m : Machine) (clocks : List Clocks) (start : ℕ) (homing : Bool) (old new : SectionStream)
        (moves all : List Move) (released : ℕ → List Release) (b turn a : ℕ) (line : Line) →
        IsSectionOn m clocks start homing old moves released → IsFuture (is_taking (queue_of old)) moves all →
        AreAllRested (next_of old + 250) (boards_in old) → b < length m.boards → start < turn →
        next_of old + 250 < turn → MayTake (clocks_at clocks b) turn line → HasLine b turn line old new →
        a < length m.boards →
        ∥ CanComplete homing m (line_at clocks b turn line) all start a (next_of old) (released a) ∥₁ }
{}

/// The law of lasting lines: a section may go on by a single valid line, and by lines by which it may, with
/// one more that holds from the beginning of a turn on.
pub fn lines_last()
    ensures one { (clocks : Clocks) → IsValidLine clocks.first → clocks.held ≡ [] → clocks.first.clock < 2 ^ 62 →
        IsLasting clocks }
    ensures more { (clocks : Clocks) (turn : ℕ) (line : Line) → IsLasting clocks → MayTake clocks turn line →
        IsLasting (added clocks (turn * turn_ns) line) }
{}

/// The law of planned sections: one whose planned steps on a board are all before a turn stays planned, with
/// the same units on all boards, its last step in the same turn, and ends in the same one, where that board
/// takes up a line that holds from then on. So it is of one whose last step is in a turn before that one; and
/// one that goes on ends no earlier than it did, as far as that is before that turn.
pub fn plans_stay()
    ensures last { (m : Machine) (clocks : List Clocks) (moves : List Move) (start b turn : ℕ) (line : Line) →
        b < length clocks → start < turn → IsLasting (clocks_at clocks b) → MayTake (clocks_at clocks b) turn line →
        ArePlannedBefore m clocks moves start b turn →
        latest (for_each_stepper m (stepper_end m (line_at clocks b turn line) moves start))
        ≡ latest (for_each_stepper m (stepper_end m clocks moves start)) }
    ensures end { (m : Machine) (clocks : List Clocks) (moves : List Move) (start b turn : ℕ) (line : Line) →
        b < length clocks → start < turn → IsLasting (clocks_at clocks b) → MayTake (clocks_at clocks b) turn line →
        ArePlannedBefore m clocks moves start b turn →
        section_end m (line_at clocks b turn line) moves start ≡ section_end m clocks moves start }
    ensures boards { (homing : Bool) (m : Machine) (clocks : List Clocks) (moves : List Move) (start b turn : ℕ)
        (line : Line) (boards : List (List Release)) → b < length clocks → start < turn →
        IsLasting (clocks_at clocks b) → MayTake (clocks_at clocks b) turn line →
        ArePlannedBefore m clocks moves start b turn → AreOnBoardsBy homing m clocks moves start boards →
        AreOnBoardsBy homing m (line_at clocks b turn line) moves start boards }
    ensures sent { (m : Machine) (clocks : List Clocks) (moves : List Move) (start b turn k next : ℕ) (line : Line)
        (rs : List Release) → b < length clocks → start < turn → IsLasting (clocks_at clocks b) →
        MayTake (clocks_at clocks b) turn line → ArePlannedBefore m clocks moves start b turn →
        AreSentToOn m clocks moves start k next rs → AreSentToOn m (line_at clocks b turn line) moves start k next rs }
    ensures before { (m : Machine) (clocks : List Clocks) (moves : List Move) (start b turn : ℕ) →
        IsLasting (clocks_at clocks b) → latest (for_each_stepper m (stepper_end m clocks moves start)) < turn →
        ArePlannedBefore m clocks moves start b turn }
    ensures late { (m : Machine) (clocks : List Clocks) (moves : List Move) (start b turn j : ℕ) (line : Line) →
        b < length clocks → start < turn → IsLasting (clocks_at clocks b) → MayTake (clocks_at clocks b) turn line →
        j < turn → j ≤ section_end m clocks moves start → j ≤ section_end m (line_at clocks b turn line) moves start }
{}

/// The law of released units: what a section has released ends before the turn up to which its boards may be packed.
pub fn units_end_soon()
    ensures { (m : Machine) (clocks : List Clocks) (turn : ℕ) (homing : Bool) (s : SectionStream) (moves : List Move)
        (released : ℕ → List Release) (b : ℕ) → IsSectionOn m clocks turn homing s moves released →
        b < length m.boards →
        All (λ r. r.unit.last < lines_tick (clocks_at clocks b) ((next_of s + most_ahead) * turn_ns)) (released b) }
{}

/// The law of fewer lines: by the first ones of a board's clock lines, of which the others hold from behind a
/// turn on, a stepper's steps are planned as by all, as far as they are before that turn. So what fits the
/// plan by the ones and is before it by more than a step may be early, fits that by the others; and units of
/// a section that end so are the first ones of its plan by all lines where they are by fewer.
pub fn fewer_lines_plan_alike()
    ensures plans { (m : Machine) (short long : List Clocks) (moves : List Move) (start turn s : ℕ) →
        AreKept (clocks_at long (stepper_at m s).board) →
        AreFirstLines (clocks_at short (stepper_at m s).board) (clocks_at long (stepper_at m s).board) turn →
        start ≤ turn →
        PlansAgree m short long moves start s (lines_tick (clocks_at long (stepper_at m s).board) (turn * turn_ns)) }
    ensures fits { (m : Machine) (short long : List Clocks) (moves : List Move) (start s bound : ℕ) (ps : List Pulse) →
        PlansAgree m short long moves start s bound →
        All (λ p. p.tick + max_error (clocks_at long (stepper_at m s).board).first.freq < bound) ps →
        Fits (clocks_at long (stepper_at m s).board).first.freq (base_tick m long start s) ps
        (stepper_plan m long moves start s) →
        Fits (clocks_at short (stepper_at m s).board).first.freq (base_tick m short start s) ps
        (stepper_plan m short moves start s) }
    ensures front { (homing : Bool) (m : Machine) (short long : List Clocks) (moves : List Move) (start turn b : ℕ)
        (rs : List Release) → AreKept (clocks_at long b) → AreFirstLines (clocks_at short b) (clocks_at long b) turn →
        start ≤ turn →
        All (λ r. r.unit.last + max_error (board_at m b).freq < lines_tick (clocks_at long b) (turn * turn_ns)) rs →
        IsFrontOnBy homing m short moves start b rs → IsFrontOnBy homing m long moves start b rs }
{}
