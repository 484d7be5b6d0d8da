//! How old the clock lines of boards become in a whole run, as a law.

ghost use Rattle.std.specs.Prelude.{◌≡◌, ◌<◌, ◌≤◌, ◌++◌, ◌∷◌, ℕ, List, [], Some, length};
ghost use Rattle.plan_types.specs.declared.machine.Machine.{Machine};
ghost use Rattle.plan_types.specs.Clock.{clock_of};
ghost use Rattle.plan_types.specs.Machines.{IsValidMachine, board_at};
ghost use Rattle.plan_types.specs.Sections.{clocks_at};
ghost use Rattle.msg_code.specs.declared.talk.WordMsg.{WordMsg};
ghost use Rattle.wire_scene.specs.declared.scene.Scene.{Scene};
ghost use Rattle.motion_work.specs.Told.{Told};
ghost use Rattle.session_work.specs.declared.table.MotionTurn.{MotionTurn};
ghost use Rattle.session_work.specs.declared.table.ReactorTurn.{ReactorTurn};
ghost use Rattle.session_work.specs.Leads.{last_words};
ghost use Rattle.session_work.specs.Rows.{gather};
ghost use Rattle.session_run.specs.Boards.{AreReactorTurns, came_from};
ghost use Rattle.laws_run.specs.lanes.Boards.{IsInWhole};
ghost use Rattle.laws_board.specs.plans.Planned.{Plans};
ghost use Rattle.laws_board.specs.causes.Short.{HaveShortDictionaries};
ghost use Rattle.laws_homing.specs.home_plans.Notes.{CameNotes};
ghost use Rattle.laws_run.specs.run_headline.Timely.{link_of};
ghost use Rattle.laws_run.specs.clock_ages.Renewed.{StayYoung};

/// The law of renewed clocks: in a whole run, whatever its scene, of a machine whose dictionaries are short,
/// the clock lines of each board that the planner takes up are renewed in time (`StayYoung`): none holds
/// later than 345 turns behind the last turn, and where the board's clock drifts each line is followed by the
/// next before it is too old, up to 400 turns behind the last turn.
pub fn runs_renew_their_clocks()
    ensures { (m : Machine) (s : Scene) (ts : List MotionTurn) (p : Plans m (length m.boards) ts) (t : Told)
        (first : ReactorTurn) (rest : List ReactorTurn) (end : ReactorTurn) (n : ℕ) (left : List WordMsg) (b : ℕ) →
        IsValidMachine m → HaveShortDictionaries m → p.seen.told ≡ Some t →
        AreReactorTurns m s.switches [] (first ∷ rest) →
        gather (λ x. x.word ∷ []) (first ∷ rest) ++ last_words (length (first ∷ rest)) n
        ≡ gather (λ x. x.words) ts ++ left →
        CameNotes p.seen.begun (came_from [] (first ∷ rest)) → length rest ≤ length p.made →
        ((b : ℕ) → b < length m.boards →
        IsInWhole m s.switches b (clock_of (board_at m b)) (link_of m s b) ts first (rest ++ end ∷ [])) →
        b < length m.boards → StayYoung m b (clocks_at t.clocks b) (length rest) }
{}
