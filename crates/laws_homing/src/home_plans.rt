//! What the planner of a run and its reactor tell each other of homing sections.

ghost use Rattle.std.specs.Prelude.{◌≡◌, ◌<◌, ◌≤◌, ◌+◌, ◌++◌, ◌∷◌, ℕ, List, Option, length, map, true};
ghost use Rattle.plan_types.specs.declared.machine.Machine.{Machine};
ghost use Rattle.plan_types.specs.declared.plan.SectionKind.TheVariants.{Home};
ghost use Rattle.plan_types.specs.Machines.{axis_at};
ghost use Rattle.msg_code.specs.declared.talk.Note.{Note};
ghost use Rattle.wire_scene.specs.declared.scene.Switch.{Switch};
ghost use Rattle.trigger_group.specs.Group.{unseen};
ghost use Rattle.trigger_group.specs.Kept.{may_be};
ghost use Rattle.axis_homing.specs.Homing.{members_from};
ghost use Rattle.plan_types.specs.Lines.{Clocks};
ghost use Rattle.motion_work.specs.Seen.{AreStarted, Started};
ghost use Rattle.host_reactor.specs.Notes.{news_of, noted};
ghost use Rattle.host_reactor.specs.Room.{BeginFar, HaveRoom};
ghost use Rattle.host_reactor.specs.Runs.{Came, GoesOn, known_by};
ghost use Rattle.plan_types.specs.declared.levels.Level.{Level};
ghost use Rattle.plan_types.specs.Machines.{IsValidMachine};
ghost use Rattle.wire_scene.specs.declared.scene.Entry.{Entry};
ghost use Rattle.laws_board.specs.turns.Turns.{BoardTurn};
ghost use Rattle.laws_board.specs.clocks.Runs.{IsInRun};
ghost use Rattle.laws_board.specs.sections.Homes.{RunSection};
ghost use Rattle.laws_homing.specs.home_runs.Words.{BeginsNone, IsBegunIn};
ghost use Rattle.laws_homing.specs.home_plans.Notes.{CameNotes, HoldControlsIn, IsNoteOf, IsSilentFrom, KnowBases, ShowsSections, WasBegun};
ghost use Rattle.laws_board.specs.plans.Rows.{AreInARow};

/// The law of notes: where the reactor takes the planner's notes, one turn behind it, a homing section is
/// begun 259 turns before its start, and none other up to the turn in which it ends.
pub fn notes_begin_sections()
    ensures begun { (m : Machine) (switches : List Switch) (ready from axis : ℕ) (past : List Started) (s : Started)
        (later : List Started) (came : List Came) → AreInARow ready (past ++ s ∷ later) → s.section.kind ≡ Home axis →
        may_be (map unseen (members_from m (axis_at m axis) s.moving 0 m.boards)) s.start s.last ≡ true →
        CameNotes (past ++ s ∷ later) came → IsSilentFrom m switches from came → from + 259 ≡ s.start → 1 ≤ from →
        length came ≤ s.end + 1 →
        IsBegunIn m switches from s.start (members_from m (axis_at m axis) s.moving 0 m.boards) came }
    ensures none { (ready from k : ℕ) (past : List Started) (s : Started) (later : List Started) (note : Option Note) →
        AreInARow ready (past ++ s ∷ later) → IsNoteOf (past ++ s ∷ later) k note → from + 259 ≡ s.start → from < k →
        k ≤ s.end → BeginsNone (news_of note) }
{}

/// The law of rows: the sections that a planner began stand one behind the other, each 260 turns after the
/// end of the one before or later.
pub fn begun_sections_are_in_a_row()
    ensures { (m : Machine) (clocks : List Clocks) (ready : ℕ) (begun : List Started) →
        AreStarted m clocks ready begun → AreInARow ready begun }
{}

/// The law of known sections: the homing section that the reactor knows in a turn, where it knows one, is one
/// that the planner began, and its group starts with it; and it has its number and axis.
pub fn known_sections_were_begun()
    ensures { (m : Machine) (switches : List Switch) (begun : List Started) (c : Came) (before : List Came) →
        GoesOn m switches before → CameNotes begun (c ∷ before) →
        WasBegun begun (noted m c.note (known_by m switches before)).homing }
{}

/// The law of spare room: where the notes are a planner's, each section is begun 255 turns before its start
/// or earlier, and so of any three turns in a row one leaves room for an asking of a board's clock beside the
/// orders for homing.
pub fn planned_turns_leave_room()
    ensures far { (begun : List Started) (came : List Came) → CameNotes begun came → BeginFar came }
    ensures room { (m : Machine) (switches : List Switch) (b : ℕ) (begun : List Started) (came : List Came) →
        IsValidMachine m → CameNotes begun came → HaveRoom m switches b came }
{}

/// The law of controls, over turns: what the controls of a board hold in a run whose notes are a planner's
/// are control commands of a run in which axes home, with the sections that the planner began.
pub fn planned_controls_are_control_commands()
    ensures { (m : Machine) (switches : List Switch) (pins : List (List Level)) (entries : List Entry) (b : ℕ)
        (clocks : Clocks) (part : Started → RunSection) (begun : List Started) (ss : List RunSection) (came : List Came)
        (turns : List BoardTurn) → IsValidMachine m → IsInRun m switches pins entries b came turns →
        CameNotes begun came → ShowsSections part begun ss → KnowBases m switches b clocks part came →
        HoldControlsIn clocks ss turns }
{}
