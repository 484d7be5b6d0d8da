//! When homing groups answer that no switch closed, in a scene without entries, as laws.

ghost use Rattle.std.specs.Prelude.{◌≡◌, ◌<◌, ◌≤◌, ◌+◌, ◌*◌, ◌∷◌, ℕ, List, [], Some, length};
ghost use Rattle.plan_types.specs.declared.levels.Level.{Level};
ghost use Rattle.plan_types.specs.declared.machine.Machine.{Machine};
ghost use Rattle.plan_types.specs.Clock.{board_tick, clock_of, turn_ns, run_turns};
ghost use Rattle.plan_types.specs.Lines.{Clocks, lines_tick};
ghost use Rattle.plan_types.specs.Machines.{IsValidMachine, axis_at, board_at};
ghost use Rattle.wire_scene.specs.declared.scene.Entry.{Entry};
ghost use Rattle.wire_scene.specs.declared.scene.Switch.{Switch};
ghost use Rattle.trigger_group.specs.declared.order.End.{End};
ghost use Rattle.trigger_group.specs.declared.order.End.TheVariants.{Endstop, NoSwitch};
ghost use Rattle.axis_homing.specs.declared.homing.Homing.{Homing};
ghost use Rattle.axis_homing.specs.Homing.{answer_in, hears_all};
ghost use Rattle.host_reactor.specs.Notes.{noted};
ghost use Rattle.host_reactor.specs.Runs.{Came, known_by};
ghost use Rattle.laws_board.specs.turns.Turns.{BoardTurn};
ghost use Rattle.laws_board.specs.sections.Parts.{AreTracked};
ghost use Rattle.laws_homing.specs.clear_groups.Runs.{IsClearRun};
ghost use Rattle.laws_homing.specs.clear_groups.Sections.{turns_of};
ghost use Rattle.laws_homing.specs.fired_runs.Since.{AreSoInTurns, AreReadTrue, ReadsSwitchTrue};
ghost use Rattle.laws_homing.specs.missed_groups.Known.{AxesLow};
ghost use Rattle.laws_homing.specs.missed_groups.Ticks.{IsSwitchTick};

/// The law of missed switches: in a clear run of all boards, whose clock lines track them until 276 turns
/// ahead, a homing group answers that no switch closed only where the tick at which its axis's switch
/// triggers, by the levels of the pin and the section's readings from its start on, isn't before the tick of
/// the turn behind the section's last one, or there is none. And where it is before that tick, the group
/// answers that the switch closed, once it answers.
pub fn groups_miss_no_switch()
    ensures late { (m : Machine) (switches : List Switch) (pins : ℕ → List (List Level)) (entries : List Entry)
        (lines : ℕ → ℕ → Clocks) (ready until : ℕ) → IsValidMachine m → entries ≡ [] → (c : Came) (before : List Came)
        (all : List (ℕ → BoardTurn)) → IsClearRun m switches pins entries lines ready until c before all →
        length before + 276 ≤ until → AxesLow m switches (c ∷ before) → (h : Homing) →
        (noted m c.note (known_by m switches before)).homing ≡ Some h →
        answer_in (length before) h.start
        (hears_all (noted m c.note (known_by m switches before)).clocks c.states h).group ≡ Some NoSwitch → (tick : ℕ) →
        IsSwitchTick m (pins (axis_at m h.axis).board) (axis_at m h.axis).board (axis_at m h.axis)
        (lines_tick (lines h.start (axis_at m h.axis).board) (h.start * turn_ns)) tick →
        lines_tick (lines h.start (axis_at m h.axis).board) ((h.group.last + 1) * turn_ns) ≤ tick }
    ensures closes { (m : Machine) (switches : List Switch) (pins : ℕ → List (List Level)) (entries : List Entry)
        (lines : ℕ → ℕ → Clocks) (ready until : ℕ) → IsValidMachine m → entries ≡ [] → (c : Came) (before : List Came)
        (all : List (ℕ → BoardTurn)) → IsClearRun m switches pins entries lines ready until c before all →
        length before + 276 ≤ until → AxesLow m switches (c ∷ before) → (h : Homing) →
        (noted m c.note (known_by m switches before)).homing ≡ Some h → (tick : ℕ) →
        IsSwitchTick m (pins (axis_at m h.axis).board) (axis_at m h.axis).board (axis_at m h.axis)
        (lines_tick (lines h.start (axis_at m h.axis).board) (h.start * turn_ns)) tick →
        tick < lines_tick (lines h.start (axis_at m h.axis).board) ((h.group.last + 1) * turn_ns) → (x : End) →
        answer_in (length before) h.start
        (hears_all (noted m c.note (known_by m switches before)).clocks c.states h).group ≡ Some x →
        (at : ℕ) × (x ≡ Endstop at) }
{}

/// The law of reports in a clear run: in a clear run of all boards, whose clock lines track them until 276 turns ahead,
/// all that the states of a board tell of its trigger in homing sections is read true (`AreReadTrue`), and so all that
/// they tell of readings that triggered it. For a group answers soon after a member's trigger has triggered, so no
/// report comes long after that.
pub fn clear_reports_are_read_true()
    ensures { (m : Machine) (switches : List Switch) (pins : ℕ → List (List Level)) (entries : List Entry)
        (lines : ℕ → ℕ → Clocks) (ready until : ℕ) → IsValidMachine m → entries ≡ [] →
        ((start b : ℕ) → b < length m.boards →
        (k : AreTracked (λ n. board_tick (clock_of (board_at m b)) n) (lines start b) ready) × (until ≤ k.until)
        × (k.until < run_turns)) → (c : Came) (before : List Came)
        (all : List (ℕ → BoardTurn)) → IsClearRun m switches pins entries lines ready until c before all →
        length before + 276 ≤ until → (b : ℕ) → b < length m.boards →
        AreReadTrue m switches b (c ∷ before) (turns_of b all)
        × AreSoInTurns (ReadsSwitchTrue m switches b) (c ∷ before) (turns_of b all) }
{}
