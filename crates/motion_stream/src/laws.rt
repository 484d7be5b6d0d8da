//! The laws of what a motion machine puts.

ghost use Rattle.std.specs.Prelude.{◌≡◌, ◌↔◌, ◌||◌, ℕ, ◌<◌, ◌≤◌, ◌++◌, Bool, false, List, [], ◌∷◌, Option, length, true};
ghost use Rattle.gcode_program.specs.Programs.{program_sections};
ghost use Rattle.msg_code.specs.declared.talk.Note.{Note};
ghost use Rattle.msg_code.specs.declared.talk.WordMsg.{WordMsg};
ghost use Rattle.msg_code.specs.declared.unit.Batch.{Batch};
ghost use Rattle.plan_types.specs.declared.machine.Machine.{Machine};
ghost use Rattle.motion_work.specs.Further.{told_on};
ghost use Rattle.motion_work.specs.Puts.{Put};
ghost use Rattle.motion_work.specs.Seen.{AreOut, Started};
ghost use Rattle.motion_stream.specs.Clear.{IsClearTo, clear_of, tells_sections};
ghost use Rattle.motion_stream.specs.Hunger.{IsSated, Lacks, wanted};
ghost use Rattle.motion_stream.specs.Motions.{CanTurnPlanner, Hears, IsMore, IsPlannerOf, Makes, Planner, TakesText, hungry, read_on, wants, with_word};
ghost use Rattle.motion_stream.specs.News.{tells_read};
ghost use Rattle.motion_stream.specs.Puts.{ArePutBy};
ghost use Rattle.motion_stream.specs.Seen.{Going, Seen, nothing_seen};
ghost use Rattle.motion_stream.specs.Texts.{MayBecome};
ghost use Rattle.motion_stream.specs.Turns.{IsTurnOf};
ghost use Rattle.motion_stream.specs.Wholes.{AreOf, ArePlanned};

/// The law of what was put: after any words, pieces of the text and turns, all batches and notes so far are
/// told by any whole sections that the text may still have, whatever follows. So nothing that was put is
/// changed by what comes.
pub fn turns_stay()
    ensures none { (m : Machine) → ArePutBy m nothing_seen [] }
    ensures text { (p q : Planner) (seen : Seen) (ps : List Put) (bytes : List ℕ) (end : Bool) → IsPlannerOf p seen →
        ArePutBy p.machine seen ps → TakesText p bytes end q →
        (going : Option Going) × IsPlannerOf q (read_on seen bytes end going)
        × ArePutBy q.machine (read_on seen bytes end going) ps }
    ensures word { (p q : Planner) (seen : Seen) (ps : List Put) (w : WordMsg) → IsPlannerOf p seen →
        ArePutBy p.machine seen ps → Hears p w q →
        IsPlannerOf q (with_word p.machine seen w) × ArePutBy q.machine (with_word p.machine seen w) ps }
    ensures turn { (p q : Planner) (seen : Seen) (ps : List Put) (k : ℕ) (batches : List Batch) (note : Note) →
        IsPlannerOf p seen → ArePutBy p.machine seen ps → CanTurnPlanner p k → Makes p k batches note q →
        (next : Seen) × IsPlannerOf q next
        × ArePutBy q.machine next (ps ++ record { batches = batches; note = note } ∷ []) }
{}

/// The law of whole sections: of any text that goes on with what was read there are whole sections, the first
/// ones of that text, that those may become which were begun, with all units of the plan of the one that goes
/// on.
pub fn sections_are_there()
    ensures { (p : Planner) (seen : Seen) (whole : List ℕ) → IsPlannerOf p seen → MayBecome seen.ended seen.text whole →
        ∥ ((all : List Started) × AreOf p.machine seen whole all) ∥₁ }
{}

/// The law of planned sections: of any text that goes on with what was read there are whole sections, the
/// first ones of that text, that tell all that was put, are planned, and start one behind the other by the
/// boards' clock lines; and a section of that text that is not among them does not start before 260 turns
/// behind the next turn.
pub fn texts_are_planned()
    ensures { (p : Planner) (seen : Seen) (ps : List Put) (whole : List ℕ) → IsPlannerOf p seen →
        ArePutBy p.machine seen ps → MayBecome seen.ended seen.text whole →
        ∥ ((all : List Started) × ArePlanned p.machine seen whole ps all) ∥₁ }
{}

/// The law of a turn: whatever text follows, the batches of turn k are exactly the units that the sections
/// which were begun release in this turn, section by section. These are the first ones of the text, all that
/// start by turn k + 260. The units of each, of moves or homing, mean the first steps of its plan, with exact
/// first ticks; they are paced from 250 turns before its start on and stand in the order of their first
/// ticks, with triples that cover as many steps as one can.
pub fn turns_put_units()
    ensures { (p q : Planner) (seen : Seen) (ps : List Put) (k : ℕ) (batches : List Batch) (note : Note)
        (whole : List ℕ) → IsPlannerOf p seen → ArePutBy p.machine seen ps → CanTurnPlanner p k →
        Makes p k batches note q →
        MayBecome seen.ended seen.text whole →
        ∥ ((begun : List Started)
        × IsTurnOf q.machine whole (told_on note.news seen.told) k begun
        (record { batches = batches; note = note })) ∥₁ }
{}

/// The law of the text's end: behind the end of a text, how it was read is told in the first turn by which
/// all its sections ended and none of their units waits for a later turn, and in no other one.
pub fn ends_are_told()
    ensures { (p q : Planner) (seen : Seen) (k : ℕ) (batches : List Batch) (note : Note) → IsPlannerOf p seen →
        Makes p k batches note q → seen.ended ≡ true →
        (next : Seen) × IsPlannerOf q next × (next.read ≡ (seen.read || tells_read note.news))
        × (tells_read note.news ≡ true
        ↔ ((seen.read ≡ false)
        × AreOut (length p.machine.boards) k (length (program_sections p.machine seen.text)) next.begun)) }
{}

/// The law of what is asked for, over what was seen: the word that a planner wants before the batches of turn
/// k. More of the text is asked for only while it is read on and the section that is planned next has no end
/// in the text so far; so while it has its end there, none is. And none is asked for only where the reading
/// is over, or what is needed for turn k was read.
pub fn planners_hunger()
    ensures wants { (p : Planner) (seen : Seen) (k : ℕ) → IsPlannerOf p seen → wants p k ≡ wanted seen k }
    ensures hungry { (p : Planner) (seen : Seen) (k : ℕ) → IsPlannerOf p seen → hungry p k ≡ true →
        Lacks p.machine seen k }
    ensures sated { (p : Planner) (seen : Seen) (k : ℕ) → IsPlannerOf p seen → hungry p k ≡ false →
        IsSated p.machine seen k }
{}

/// The law of clear turns: before the turn that a note tells as clear no section is begun or ends, whatever
/// words and pieces of the text come between.
pub fn notes_keep_clear()
    ensures note { (p : Planner) (seen : Seen) (n : ℕ) → IsPlannerOf p seen → n ≤ clear_of p.course →
        IsClearTo p.machine seen n }
    ensures text { (m : Machine) (seen : Seen) (bytes : List ℕ) (end : Bool) (going : Option Going) (n : ℕ) →
        IsMore seen.going going → IsClearTo m seen n → IsClearTo m (read_on seen bytes end going) n }
    ensures word { (p : Planner) (seen : Seen) (w : WordMsg) (n : ℕ) → IsPlannerOf p seen → IsClearTo p.machine seen n →
        IsClearTo p.machine (with_word p.machine seen w) n }
    ensures turn { (p q : Planner) (seen : Seen) (ps : List Put) (k n : ℕ) (batches : List Batch) (note : Note) →
        IsPlannerOf p seen → ArePutBy p.machine seen ps → CanTurnPlanner p k → Makes p k batches note q →
        IsClearTo p.machine seen n → k < n →
        (next : Seen) × IsPlannerOf q next × IsClearTo q.machine next n × (tells_sections note.news ≡ false) }
{}
