//! What holds of every turn of a reactor.

ghost use Rattle.std.specs.Prelude.{◌≡◌, ◌+◌, ◌≤◌, ◌<◌, ◌^◌, ℕ, length, ◌∷◌, List, [], Option, Some, None, Bool, true, false, ◌||◌, ◌⊎◌};
ghost use Rattle.plan_types.specs.declared.cause.Cause.{Cause};
ghost use Rattle.host_reactor.specs.declared.ordered.Phase.TheVariants.{Connecting, Running, Stopping};
ghost use Rattle.board_asking.specs.Connecting.{giving_up, listen_all, ready_all};
ghost use Rattle.board_asking.specs.Drift.{stale};
ghost use Rattle.axis_homing.specs.Homing.{homing_turn};
ghost use Rattle.host_reactor.specs.Running.{any_out, first_cause, late};
ghost use Rattle.plan_types.specs.declared.machine.Machine.{Machine};
ghost use Rattle.msg_code.specs.declared.talk.State.{State};
ghost use Rattle.msg_code.specs.declared.talk.Note.{Note};
ghost use Rattle.wire_scene.specs.declared.scene.Switch.{Switch};
ghost use Rattle.host_reactor.specs.declared.ordered.Known.{Known};
ghost use Rattle.host_reactor.specs.Notes.{are_lines, news_of, noted, is_out};
ghost use Rattle.host_reactor.specs.Reactor.{new_known, reacts};
ghost use Rattle.host_reactor.specs.Rows.{MayEndFor, IsRow, HasEachBoard};
ghost use Rattle.host_reactor.specs.Free.{IsAtRest, AreOf, EndsOrRests, free_turns};
ghost use Rattle.axis_homing.specs.Homing.{StartsTogether};
ghost use Rattle.host_reactor.specs.Laws.{AskOnce, FitIn};
ghost use Rattle.plan_types.specs.Machines.{IsValidMachine};
ghost use Rattle.board_asking.specs.Machine.{configuration};
ghost use Rattle.board_asking.specs.Turns.{AreUnanswered, OnceConfigured};
ghost use Rattle.host_reactor.specs.Room.{BeginFar, HaveRoom};
ghost use Rattle.host_reactor.specs.Runs.{Came, known_by, last_reacted, GoesOn, HaveStates, told_by};

/// The law of askings: whatever states and notes come, a control asks its board for the clock at most once.
pub fn asks_once()
    ensures { (m : Machine) (switches : List Switch) (r : Known) (k : ℕ) (states : List State) (note : Option Note) →
        AskOnce (reacts m switches r k states note).ordered.controls }
{}

/// The law of rest: where a reactor rests for some turns, then whatever states come of the turn before, with
/// a note that has no news but of further clock lines, the run ends in the next of them, or nothing is
/// ordered in it and the reactor rests on for the others.
pub fn rests()
    ensures { (m : Machine) (switches : List Switch) (r : Known) (k n : ℕ) (states : List State) (note : Option Note) →
        IsAtRest m r k (n + 1) → AreOf k states → are_lines (news_of note) ≡ true →
        EndsOrRests m (k + 1) n (reacts m switches r k states note) }
{}

/// The law of free turns: a reactor rests for as many turns as it is free.
pub fn free_turns_are_rest()
    ensures { (m : Machine) (r : Known) (turn n : ℕ) → StartsTogether r.homing → n + 1 ≤ free_turns m r turn →
        IsAtRest m r turn (n + 1) }
{}

/// The law of ends: want of memory comes first, then a failed reading or writing, then a late board. Where
/// none of these holds, a board that gives no answer ends connecting; a running turn ends for a stale clock,
/// and else by homing.
pub fn ends_in_order()
    ensures memory { (out : Bool) (stopped : Option Cause) (states : List State) →
        (out || any_out states) ≡ true → first_cause out stopped states ≡ Some Cause.Memory }
    ensures stopped { (out : Bool) (stopped : Option Cause) (states : List State) (c : Cause) →
        (out || any_out states) ≡ false → stopped ≡ Some c → first_cause out stopped states ≡ Some c }
    ensures late { (out : Bool) (stopped : Option Cause) (states : List State) →
        (out || any_out states) ≡ false → stopped ≡ None → first_cause out stopped states ≡ late 0 states }
    ensures first { (m : Machine) (switches : List Switch) (r : Known) (k : ℕ) (states : List State)
        (note : Option Note) (c : Cause) → first_cause (is_out note) (noted m note r).stopped states ≡ Some c →
        (reacts m switches r k states note).ordered.end ≡ Some c }
    ensures connecting { (m : Machine) (switches : List Switch) (r : Known) (k : ℕ) (states : List State)
        (note : Option Note) (c : Cause) → first_cause (is_out note) (noted m note r).stopped states ≡ None →
        (noted m note r).phase ≡ Connecting →
        giving_up k 0 (ready_all m 0 (listen_all (noted m note r).askings.items states)) ≡ Some c →
        (reacts m switches r k states note).ordered.end ≡ Some c }
    ensures stale { (m : Machine) (switches : List Switch) (r : Known) (k : ℕ) (states : List State)
        (note : Option Note) (c : Cause) → first_cause (is_out note) (noted m note r).stopped states ≡ None →
        (noted m note r).phase ≡ Running → stale k 0 (listen_all (noted m note r).askings.items states) ≡ Some c →
        (reacts m switches r k states note).ordered.end ≡ Some c }
    ensures homing { (m : Machine) (switches : List Switch) (r : Known) (k : ℕ) (states : List State)
        (note : Option Note) (c : Cause) → first_cause (is_out note) (noted m note r).stopped states ≡ None →
        (noted m note r).phase ≡ Running → stale k 0 (listen_all (noted m note r).askings.items states) ≡ None →
        (homing_turn (noted m note r).clocks k states (noted m note r).homing).end ≡ Some c →
        (reacts m switches r k states note).ordered.end ≡ Some c }
{}

/// The law of connecting: a run stops connecting only once each board said in one of its states that its
/// configuration is complete; and where it ends for a board that gives no answer, while nothing else ends it,
/// then eight askings of this board in a row or more, four turns apart, were unanswered, from the turn on
/// that is told.
pub fn connects_in_a_run()
    ensures connected { (m : Machine) (switches : List Switch) (came : List Came) → GoesOn m switches came →
        HaveStates m came → ((known_by m switches came).phase ≡ Connecting → ⊥) → (b : ℕ) → b < length m.boards →
        OnceConfigured (told_by b came) }
    ensures given_up { (m : Machine) (switches : List Switch) (c : Came) (before : List Came) (b turn : ℕ) →
        GoesOn m switches before → HaveStates m (c ∷ before) → length before < 2 ^ 59 →
        first_cause (is_out c.note) (noted m c.note (known_by m switches before)).stopped c.states ≡ None →
        (last_reacted m switches c before).ordered.end ≡ Some (Cause.Connect b turn) →
        (b < length m.boards)
        × ((count : ℕ) × (8 ≤ count) × AreUnanswered (configuration m b) (told_by b (c ∷ before)) turn count) }
{}

/// The law of room: in every turn of a run, whatever came, the commands to a board have at most 42 bytes; an
/// order to stop, where it goes out in the turn, is one byte more.
pub fn controls_fit()
    ensures plain { (m : Machine) (switches : List Switch) (c : Came) (before : List Came) → IsValidMachine m →
        ((line : ℕ) → (last_reacted m switches c before).known.phase ≡ Stopping line → ⊥) →
        FitIn 42 (last_reacted m switches c before).ordered.controls }
    ensures all { (m : Machine) (switches : List Switch) (c : Came) (before : List Came) → IsValidMachine m →
        FitIn 43 (last_reacted m switches c before).ordered.controls }
{}

/// The law of spare room: in any run whose notes begin sections 255 turns before their start or earlier, of
/// any three turns in a row one leaves room for an asking of a board's clock beside the orders for homing.
pub fn turns_leave_room()
    ensures { (m : Machine) (switches : List Switch) (b : ℕ) (came : List Came) → IsValidMachine m → BeginFar came →
        HaveRoom m switches b came }
{}

/// The law of rows: each turn orders one control for each board and one word, all of that turn, which say
/// whether it ends the run; and the reactor keeps an asking and, once connecting ended, clock lines for each
/// board.
pub fn orders_stand_in_rows()
    ensures first { (m : Machine) → HasEachBoard m (new_known m) }
    ensures row { (m : Machine) (switches : List Switch) (r : Known) (k : ℕ) (states : List State)
        (note : Option Note) → HasEachBoard m r → IsRow m k (reacts m switches r k states note).ordered }
    ensures whole { (m : Machine) (switches : List Switch) (r : Known) (k : ℕ) (states : List State)
        (note : Option Note) → HasEachBoard m r → HasEachBoard m (reacts m switches r k states note).known }
{}

/// The law of blame: a run ends for want of memory, for what the reactor was told, or, where it was told
/// nothing, for a cause of its own; so never for a reading or writing that failed unless it was told so.
/// While it goes on it was told nothing.
pub fn ends_as_told()
    ensures ends { (m : Machine) (switches : List Switch) (r : Known) (k : ℕ) (states : List State) (note : Option Note)
        (c : Cause) → (reacts m switches r k states note).ordered.end ≡ Some c → MayEndFor r.stopped c }
    ensures goes { (m : Machine) (switches : List Switch) (r : Known) (k : ℕ) (states : List State)
        (note : Option Note) → (reacts m switches r k states note).ordered.end ≡ None →
        (r.stopped ≡ None) × ((reacts m switches r k states note).known.stopped ≡ None) }
    ensures stays { (m : Machine) (switches : List Switch) (r : Known) (k : ℕ) (states : List State)
        (note : Option Note) → (reacts m switches r k states note).known.stopped ≡ r.stopped }
{}
