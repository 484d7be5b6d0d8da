//! For which cause a whole run ends, and which lines its reactor may tell, as laws.

ghost use Rattle.std.specs.Prelude.{◌≡◌, ℕ, List, Option, None, false, true};
ghost use Rattle.plan_types.specs.declared.machine.Machine.{Machine};
ghost use Rattle.wire_scene.specs.declared.scene.Scene.{Scene};
ghost use Rattle.wire_scene.specs.declared.scene.Switch.{Switch};
ghost use Rattle.msg_code.specs.declared.talk.Note.{Note};
ghost use Rattle.msg_code.specs.declared.talk.State.{State};
ghost use Rattle.host_reactor.specs.declared.ordered.Known.{Known};
ghost use Rattle.host_reactor.specs.Notes.{noted};
ghost use Rattle.host_reactor.specs.Reactor.{Run, reacts};
ghost use Rattle.session_lanes.specs.declared.near.Told.{Told};
ghost use Rattle.session_run.specs.declared.tell.Kept.{Kept};
ghost use Rattle.session_run.specs.Runs.{RunsOver};
ghost use Rattle.host_reactor.specs.Rows.{IsOwn};
ghost use Rattle.laws_run.specs.run_headline.Made.{IsNamed, NoneSo};
ghost use Rattle.laws_run.specs.run_headline.Told.{AreTold};

use io_core::{Files, Sink};
use plan_types::Cause;

/// The law of a run's cause: in whatever threads a run went, of moves or of homing, where it ends for a cause
/// of its own other than want of memory that cause is so (`EndsSo`): it is done, or a line was refused, where
/// all sections of the text ended and every link is idle; a board is late that its last state tells shut down
/// for that, the least one; and so each of the others. And it is the first cause that came: in no earlier
/// turn of the reactor was any so, and in the last one none that comes before it.
pub fn runs_name_their_causes<F: Files, S: Sink>()
    ensures named { (m : Machine) (s : Scene) (name : List ℕ) (files files' : F) (out out' : S) (kept kept' : Kept)
        (t : Told Run) → (r : RunsOver F.Files S.Sink m s name files out kept t files' out' kept') → IsOwn t.cause →
        (t.cause ≡ Cause.Memory → ⊥) → IsNamed m s r.runs.1 r.runs.2 t.cause }
    ensures earlier { (m : Machine) (s : Scene) (name : List ℕ) (files files' : F) (out out' : S) (kept kept' : Kept)
        (t : Told Run) → (r : RunsOver F.Files S.Sink m s name files out kept t files' out' kept') →
        NoneSo m s r.runs.1 }
{}

/// The law of the lines that a reactor tells: in each turn, whatever came, they are lines of the machine,
/// which is its own, of boards, of sections, of cuts, of further clock lines and of what was read, and pulses
/// of steppers that are there, on their own boards; and where nothing homes there are no cuts.
pub fn reactors_tell_lines_of_runs()
    ensures lines { (m : Machine) (switches : List Switch) (r : Known) (k : ℕ) (states : List State)
        (note : Option Note) → AreTold true m (reacts m switches r k states note).ordered.lines }
    ensures uncut { (m : Machine) (switches : List Switch) (r : Known) (k : ℕ) (states : List State)
        (note : Option Note) → (noted m note r).homing ≡ None →
        AreTold false m (reacts m switches r k states note).ordered.lines }
{}
