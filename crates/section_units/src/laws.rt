//! The laws of packed triples.

ghost use Rattle.std.specs.Prelude.{◌≡◌, ℕ, ◌+◌, ◌*◌, ◌^◌, ◌<◌, ◌≤◌, Bool, List, [], ◌++◌, All, false, length};
ghost use Rattle.plan_types.specs.declared.plan.Planned.{Planned};
ghost use Rattle.plan_types.specs.Clock.{turn_ns};
ghost use Rattle.plan_types.specs.Lines.{Clocks, lines_tick};
ghost use Rattle.plan_types.specs.Packing.{windows_of};
ghost use Rattle.plan_types.specs.Plan.{AreSpaced, Fits, max_error};
ghost use Rattle.step_feed.specs.Pacing.{Release};
ghost use Rattle.step_feed.specs.Units.{StepUnit};
ghost use Rattle.step_pack.specs.declared.Placed.{Placed};
ghost use Rattle.step_pack.specs.Placing.{PacksPlaced};
ghost use Rattle.section_units.specs.Packed.{ArePackedBy, end_of_plan, units_from, units_next};
ghost use Rattle.section_units.specs.Completed.{IsCompletionBy, IsOpenFrontBy};
ghost use Rattle.clock_line.specs.Kept.{AreKept};
ghost use Rattle.section_units.specs.Late.{LateOneByOne};
ghost use Rattle.section_units.specs.Sent.{AreSentTo};
ghost use Rattle.section_units.specs.Fronts.{IsFrontBy, section_from};
ghost use Rattle.section_units.specs.Sections.{AreBegunBy, BoardSection, IsSection, IsWholeBy, section_steps, steps_said};

/// The law of packed triples: the units of a stepper's packed triples are those of a section, and the steps
/// that they mean fit the plan, one for each planned step.
pub fn packed_triples_make_sections()
    ensures units { (homing : Bool) (clocks : Clocks) (freq oid base : ℕ) (plan : List Planned) (placed : List Placed) →
        AreSpaced base plan → PacksPlaced base (windows_of (max_error freq) base plan) placed →
        All (λ p. p.triple.interval < 2 ^ 32) placed →
        AreBegunBy homing clocks base (units_from homing clocks oid base plan placed) }
    ensures fits { (homing : Bool) (clocks : Clocks) (freq oid base : ℕ) (plan : List Planned) (placed : List Placed) →
        AreSpaced base plan → PacksPlaced base (windows_of (max_error freq) base plan) placed →
        Fits freq base (steps_said oid false (units_from homing clocks oid base plan placed)) plan }
    ensures whole { (homing : Bool) (clocks : Clocks) (freq oid base : ℕ) (plan : List Planned) (placed : List Placed) →
        AreSpaced base plan → PacksPlaced base (windows_of (max_error freq) base plan) placed →
        length (steps_said oid false (units_from homing clocks oid base plan placed)) ≡ length plan }
{}

/// The law of pieces: where a section's plan is packed in pieces, each behind the last planned tick of those
/// before it, the units of all pieces are those of the plan so far.
pub fn packed_pieces_make_sections()
    ensures none { (homing : Bool) (clocks : Clocks) (freq oid base : ℕ) →
        ArePackedBy homing clocks freq oid base [] [] }
    ensures next { (homing : Bool) (clocks : Clocks) (freq oid base : ℕ) (plan more : List Planned) (us : List StepUnit)
        (placed : List Placed) → ArePackedBy homing clocks freq oid base plan us →
        AreSpaced (end_of_plan base plan) more →
        PacksPlaced (end_of_plan base plan) (windows_of (max_error freq) (end_of_plan base plan) more) placed →
        All (λ p. p.triple.interval < 2 ^ 32) placed →
        ArePackedBy homing clocks freq oid base (plan ++ more)
        (us ++ units_next homing clocks oid base us more placed) }
{}

/// The law of fronts: the units of a section that were released so far make a front of it. A whole section is
/// one; the first releases of a front are one; a front of a plan is one of a longer plan; and one that says
/// all steps is whole.
pub fn sections_have_fronts()
    ensures whole { (homing : Bool) (clocks : Clocks) (freq slots : ℕ) (s : BoardSection) →
        IsWholeBy homing clocks freq slots s → IsFrontBy homing clocks freq slots s }
    ensures first { (homing : Bool) (clocks : Clocks) (freq slots start end : ℕ) (plan : ℕ → List Planned)
        (released later : List Release) →
        IsFrontBy homing clocks freq slots (section_from start end plan (released ++ later)) →
        IsFrontBy homing clocks freq slots (section_from start end plan released) }
    ensures longer { (homing : Bool) (clocks : Clocks) (freq slots start end later : ℕ) (plan more : ℕ → List Planned)
        (released : List Release) →
        ((oid : ℕ) → AreSpaced (lines_tick clocks (start * turn_ns)) (plan oid ++ more oid)) →
        IsFrontBy homing clocks freq slots (section_from start end plan released) →
        IsFrontBy homing clocks freq slots (section_from start later (λ oid. plan oid ++ more oid) released) }
    ensures ended { (homing : Bool) (clocks : Clocks) (freq slots : ℕ) (s : BoardSection) →
        IsFrontBy homing clocks freq slots s →
        ((oid : ℕ) → All (λ p. p.tick < lines_tick clocks ((s.end + 1) * turn_ns)) (s.plan oid)) →
        ((oid : ℕ) → length (section_steps oid s) ≡ length (s.plan oid)) → IsWholeBy homing clocks freq slots s }
{}

/// The law of completion: where some units of a section were released before a turn, and others wait, there
/// are releases in that turn or later with which the section is whole. So what was released so far is told by
/// whole sections, whatever units follow.
pub fn fronts_can_be_completed()
    ensures { (homing : Bool) (clocks : Clocks) (freq slots start end next count : ℕ) (plan : ℕ → List Planned)
        (released : List Release) (waiting : List StepUnit) →
        IsOpenFrontBy homing clocks freq slots start end next count plan released waiting →
        (more : List Release) × IsCompletionBy homing clocks freq slots start end next plan released more }
{}

/// The law of late units: of those that a board is sent of a section, in order, before a turn, the first one
/// that is released five turns or more behind its due turn is released just five turns behind it. So the
/// first one that a board can only take too late follows units that were all released less than five turns
/// behind theirs.
pub fn units_are_late_one_by_one()
    ensures { (clocks : Clocks) (freq slots turn : ℕ) (s : BoardSection) → AreKept clocks → 1 ≤ slots →
        IsSection clocks freq slots s → (h : AreSentTo clocks freq turn s) → LateOneByOne h.sent }
{}
