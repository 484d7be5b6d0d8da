//! When a homing section misses its switch, whatever happens on the lines, as laws.

ghost use Rattle.std.specs.Prelude.{◌≡◌, ◌<◌, ◌≤◌, ◌+◌, ◌*◌, ◌∷◌, ℕ, List, Some, length};
ghost use Rattle.plan_types.specs.declared.levels.Level.{Level};
ghost use Rattle.plan_types.specs.declared.machine.Machine.{Machine};
ghost use Rattle.plan_types.specs.Clock.{turn_ns};
ghost use Rattle.plan_types.specs.Lines.{Clocks, lines_tick};
ghost use Rattle.plan_types.specs.Machines.{IsValidMachine, axis_at};
ghost use Rattle.plan_types.specs.Sections.{clocks_at};
ghost use Rattle.wire_scene.specs.declared.scene.Entry.{Entry};
ghost use Rattle.wire_scene.specs.declared.scene.Switch.{Switch};
ghost use Rattle.trigger_group.specs.declared.order.End.TheVariants.{NoSwitch};
ghost use Rattle.axis_homing.specs.declared.homing.Homing.{Homing};
ghost use Rattle.axis_homing.specs.Homing.{answer_in, hears_all};
ghost use Rattle.host_reactor.specs.Notes.{noted};
ghost use Rattle.host_reactor.specs.Runs.{Came, known_by};
ghost use Rattle.laws_board.specs.turns.Turns.{BoardTurn};
ghost use Rattle.laws_homing.specs.home_parts.Answers.{ArePastConnecting};
ghost use Rattle.laws_homing.specs.home_parts.Known.{KnowsLately};
ghost use Rattle.laws_homing.specs.fired_runs.Since.{BeginsApart};
ghost use Rattle.laws_homing.specs.missed_runs.Missed.{IsHeardWell, IsMissedOf};

/// The law of missed switches, whatever comes late: where the group of a homing section answers that no switch closed,
/// the section misses its switch up to a tick (`IsMissedOf`), and that isn't before the tick of the turn behind the
/// section's last one, by the clock lines of its endstop's board. So where the section has a trigger tick before that
/// one, and no member expired in time, its group does not answer so.
///
/// What it takes is of each board that it runs, that its reports are read wholly true, and that its clock lines keep up
/// with it (`IsHeardWell`); that homing sections are begun where none is known (`BeginsApart`); and that what the
/// reactor knows of clock lines are these, up to 276 turns ahead (`KnowsLately`).
pub fn unswitched_sections_miss_their_switch()
    ensures { (m : Machine) (switches : List Switch) (pins : ℕ → List (List Level)) (entries : List Entry)
        (clocks : List Clocks) (ready : ℕ) (c : Came) (before : List Came) (turns : ℕ → List BoardTurn) (h : Homing) →
        IsValidMachine m → (noted m c.note (known_by m switches before)).homing ≡ Some h → ready < h.start →
        BeginsApart m switches (c ∷ before) → KnowsLately m switches clocks (c ∷ before) →
        ArePastConnecting m switches ready (c ∷ before) →
        ((b : ℕ) → b < length m.boards →
        IsHeardWell m switches (pins b) entries clocks b h.start c before (turns b)) →
        h.axis < length m.axes → (axis_at m h.axis).board < length m.boards →
        answer_in (length before) h.start
        (hears_all (noted m c.note (known_by m switches before)).clocks c.states h).group ≡ Some NoSwitch →
        (until : ℕ)
        × IsMissedOf m switches (pins (axis_at m h.axis).board) entries (axis_at m h.axis).board h.start h.axis before
        (turns (axis_at m h.axis).board) until
        × (lines_tick (clocks_at clocks (axis_at m h.axis).board) ((h.group.last + 1) * turn_ns) ≤ until) }
{}
