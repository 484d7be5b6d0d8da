//! What the lanes of a whole run carried to and from a board.

ghost use Rattle.std.specs.Prelude.{◌≡◌, ◌++◌, ◌<◌, ℕ, List, [], ◌∷◌, length};
ghost use Rattle.plan_types.specs.declared.clock.BoardClock.{BoardClock};
ghost use Rattle.plan_types.specs.declared.machine.Machine.{Machine};
ghost use Rattle.wire_scene.specs.declared.scene.Switch.{Switch};
ghost use Rattle.link_work.specs.Stands.{SeenLink, StandsFor};
ghost use Rattle.link_work.specs.Turn.{LinkState};
ghost use Rattle.session_work.specs.declared.head.Head.{Head};
ghost use Rattle.session_lanes.specs.declared.near.LinkLog.{LinkLog};
ghost use Rattle.session_work.specs.declared.table.MotionTurn.{MotionTurn};
ghost use Rattle.session_work.specs.declared.table.ReactorTurn.{ReactorTurn};
ghost use Rattle.session_work.specs.Heads.{ReactorStep};
ghost use Rattle.session_work.specs.Rows.{item};
ghost use Rattle.session_lanes.specs.Runs.{AreLogs};
ghost use Rattle.session_work.specs.Turns.{Goes};
ghost use Rattle.laws_run.specs.lanes.Boards.{IsInWhole};
ghost use Rattle.laws_run.specs.lanes.Turns.{AllGoOn, AllHaveControls, IsLastTurn, ShowsLink};

use session_work::{LinkMachine, MotionMachine, Outside, ReactorMachine};

/// The law of boards: in a whole run, whatever threads it went in, each board took in each turn the control
/// that the reactor ordered for it and the next batch of the planner, and the reactor took in the turn behind
/// it what the board's link told of it, up to the turn that ends the run, where that is not for want of
/// memory.
pub fn boards_are_in_the_run<M: MotionMachine, L: LinkMachine, A: ReactorMachine, O: Outside>()
    ensures { (view : L → SeenLink) → ShowsLink L.turns view → (m : Machine) (switches : List Switch) (b : ℕ)
        (clock : BoardClock) (begin : LinkState) (ts : List MotionTurn) (first : ReactorTurn) (rest : List ReactorTurn)
        (end : ReactorTurn) (n : ℕ) (links : List L) (logs : List LinkLog) (s : L) → b < length m.boards →
        AllGoOn m switches [] (first ∷ rest) → IsLastTurn m end →
        AreLogs M.MotionMachine L.LinkMachine A.ReactorMachine O.Outside ts (first ∷ rest) end n 0 links logs →
        item b links ≡ s ∷ [] → StandsFor (view s) begin → (view s).clock ≡ clock →
        IsInWhole m switches b clock begin ts first (rest ++ end ∷ []) }
{}

/// The law of controls: in each turn of a whole run's reactor there is a control for each board.
pub fn controls_are_for_all_boards<A: ReactorMachine, O: Outside>()
    ensures { (n k : ℕ) (x : Head A O) (ts us : List ReactorTurn) (y : Head A O) →
        Goes (ReactorStep A.ReactorMachine O.Outside n) k x (ts ++ us) y → AllHaveControls n ts }
{}
