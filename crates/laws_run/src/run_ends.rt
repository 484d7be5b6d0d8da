//! How a whole run ends, as laws.

ghost use Rattle.std.specs.Prelude.{◌≡◌, ◌⊎◌, ◌<◌, ◌++◌, ◌∷◌, ℕ, List, [], Option, None, Some, length, map};
ghost use Rattle.plan_types.specs.declared.machine.Machine.{Machine};
ghost use Rattle.plan_types.specs.declared.plan.ReadStop.TheVariants.{Stop};
ghost use Rattle.msg_code.specs.declared.talk.Note.{Note};
ghost use Rattle.msg_code.specs.declared.talk.State.{State};
ghost use Rattle.plan_types.specs.declared.levels.Level.{Level};
ghost use Rattle.wire_scene.specs.declared.scene.Entry.{Entry};
ghost use Rattle.wire_scene.specs.declared.scene.Switch.{Switch};
ghost use Rattle.laws_board.specs.turns.Turns.{BoardTurn};
ghost use Rattle.laws_board.specs.clocks.Runs.{IsInRun, orders_in};
ghost use Rattle.laws_board.specs.sections.Stops.{NeverStop};
ghost use Rattle.host_reactor.specs.declared.ordered.Phase.TheVariants.{Connecting, Stopping};
ghost use Rattle.host_reactor.specs.declared.ordered.Known.{Known};
ghost use Rattle.host_reactor.specs.Notes.{noted};
ghost use Rattle.host_reactor.specs.Reactor.{reacts};
ghost use Rattle.host_reactor.specs.Runs.{Came, known_by};
ghost use Rattle.motion_work.specs.Puts.{ArePut};
ghost use Rattle.motion_work.specs.Seen.{Started};
ghost use Rattle.session_work.specs.declared.table.MotionTurn.{MotionTurn};
ghost use Rattle.session_work.specs.declared.table.ReactorTurn.{ReactorTurn};
ghost use Rattle.session_run.specs.Boards.{AreReactorTurns, came_from};
ghost use Rattle.session_work.specs.Rows.{gather};
ghost use Rattle.laws_board.specs.plans.Lines.{TookNotes};
ghost use Rattle.laws_board.specs.plans.Planned.{puts_of};
ghost use Rattle.laws_run.specs.run_ends.Boards.{boards_of, counts_of};
ghost use Rattle.laws_run.specs.run_ends.Ends.{Counts, EndsSo, GoesThrough, NoneHomes, WentThrough, order};
ghost use Rattle.host_reactor.specs.Report.{count_lines};

use plan_types::Cause;

/// The law of counted sections: behind the notes of a planner's turns the reactor has counted no more
/// sections than ended in them, knows the last end, and was told how the text was read or nothing of it.
pub fn sections_are_counted()
    ensures { (m : Machine) (text : List ℕ) (switches : List Switch) (ss : List Started) (made : List MotionTurn)
        (first : ReactorTurn) (rs : List ReactorTurn) (last : ReactorTurn) → ArePut m text ss 0 (puts_of made) →
        TookNotes (map (λ t. t.note) made) (first ∷ rs ++ last ∷ []) →
        Counts m text ss (length (first ∷ rs)) (noted m last.note (known_by m switches (came_from [] (first ∷ rs)))) }
{}

/// The law of causes: a turn that ends a run, other than for want of memory or since it was told to, has a
/// cause that is so.
pub fn causes_are_named()
    ensures { (m : Machine) (switches : List Switch) (r : Known) (k : ℕ) (states : List State) (note : Option Note)
        (c : Cause) → r.stopped ≡ None → (c ≡ Cause.Memory → ⊥) →
        (reacts m switches r k states note).ordered.end ≡ Some c → EndsSo m (noted m note r) k states c }
{}

/// The law of causes that come: in a turn that goes on no cause is so; and of those that are so in a turn
/// that ends a run, where it was not told to, the first in their order ends it.
pub fn causes_come()
    ensures none { (m : Machine) (switches : List Switch) (r : Known) (k : ℕ) (states : List State)
        (note : Option Note) → (reacts m switches r k states note).ordered.end ≡ None → (c : Cause) →
        EndsSo m (noted m note r) k states c → ⊥ }
    ensures first { (m : Machine) (switches : List Switch) (r : Known) (k : ℕ) (states : List State)
        (note : Option Note) (c : Cause) → r.stopped ≡ None → (reacts m switches r k states note).ordered.end ≡ Some c →
        (d : Cause) → EndsSo m (noted m note r) k states d → (d ≡ c) ⊎ (order c < order d) }
{}

/// The law of stops: a turn that goes on, and behind which the reactor is about to stop, is one in which the
/// run went through, up to the line that asks for the stop.
pub fn stops_are_asked_for()
    ensures { (m : Machine) (switches : List Switch) (r : Known) (k : ℕ) (states : List State) (note : Option Note)
        (line : ℕ) → (reacts m switches r k states note).ordered.end ≡ None →
        (reacts m switches r k states note).known.phase ≡ Stopping line →
        WentThrough (noted m note r) k states (Stop line) }
{}

/// The law of orders to stop: while no board homes and the reactor is not about to stop, no board was told to.
pub fn boards_are_not_stopped()
    ensures { (m : Machine) (switches : List Switch) (pins : List (List Level)) (entries : List Entry) (b : ℕ)
        (came : List Came) (turns : List BoardTurn) → IsInRun m switches pins entries b came turns →
        NoneHomes m switches came → ((line : ℕ) → (known_by m switches came).phase ≡ Stopping line → ⊥) →
        NeverStop (orders_in turns) }
{}

/// The law of board lines: in turns up to one in which the reactor is still connecting no board has its line,
/// nor in turns behind the one in which connecting ended.
pub fn boards_have_one_turn()
    ensures before { (m : Machine) (switches : List Switch) (before : List Came) (ts : List ReactorTurn) →
        AreReactorTurns m switches before ts → (known_by m switches (came_from before ts)).phase ≡ Connecting →
        ((known_by m switches before).phase ≡ Connecting) × (boards_of (gather (λ t. t.lines) ts) ≡ []) }
    ensures after { (m : Machine) (switches : List Switch) (before : List Came) (ts : List ReactorTurn) →
        AreReactorTurns m switches before ts → ((known_by m switches before).phase ≡ Connecting → ⊥) →
        boards_of (gather (λ t. t.lines) ts) ≡ [] }
{}

/// The law of counts: a turn of the reactor that goes on tells no numbers of what was read, and one that ends
/// a run that went through tells those of the reading, where it was told to stop for nothing.
pub fn numbers_are_told_at_the_end()
    ensures on { (m : Machine) (switches : List Switch) (r : Known) (k : ℕ) (states : List State) (note : Option Note) →
        r.stopped ≡ None → (reacts m switches r k states note).ordered.end ≡ None →
        counts_of (reacts m switches r k states note).ordered.lines ≡ [] }
    ensures through { (m : Machine) (switches : List Switch) (r : Known) (k : ℕ) (states : List State)
        (note : Option Note) (c : Cause) → r.stopped ≡ None → (reacts m switches r k states note).ordered.end ≡ Some c →
        GoesThrough c →
        counts_of (reacts m switches r k states note).ordered.lines ≡ count_lines (noted m note r).reading }
{}
