//! What holds of every asking.

ghost use Rattle.std.specs.Prelude.{◌≡◌, ◌<◌, ◌≤◌, ◌^◌, ℕ, true, ◌⊎◌, List, length};
ghost use Rattle.msg_code.specs.declared.talk.State.{State};
ghost use Rattle.board_asking.specs.declared.asking.Asking.{Asking};
ghost use Rattle.board_asking.specs.declared.setup.Setup.{Setup};
ghost use Rattle.board_asking.specs.Asking.{is_connected, listens, gives_up};
ghost use Rattle.board_asking.specs.Laws.{WasConfigured};
ghost use Rattle.board_asking.specs.Turns.{heard, AreUnanswered, OnceConfigured};

/// The law of connecting: a state makes a board connected only where an answer in it says that the board's
/// configuration is complete.
pub fn connects_when_configured()
    ensures { (a : Asking) (s : State) → is_connected (listens a s).stage ≡ true →
        (is_connected a.stage ≡ true) ⊎ WasConfigured s.news }
{}

/// The law of connecting over any list of turns: a board is connected only where it once said that its
/// configuration is complete, and it is given up only where eight askings in a row or more, four turns apart,
/// were unanswered, from the turn on that is told.
pub fn connects_over_turns()
    ensures connected { (setups : List Setup) (states : List State) → is_connected (heard setups states).stage ≡ true →
        OnceConfigured states }
    ensures given_up { (setups : List Setup) (states : List State) → length states < 2 ^ 59 →
        gives_up (length states) (heard setups states) ≡ true →
        (count : ℕ) × (8 ≤ count) × AreUnanswered setups states (heard setups states).first count }
{}
