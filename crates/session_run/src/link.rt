//! A board with its link, as a run drives it.
ghost use Rattle.std.specs.Prelude.{◌≡◌, [], IfOk};
ghost use Rattle.link_work.specs.Stands.{CanTurn, IsKnown, StandsFor, first_state};
ghost use Rattle.link_work.specs.Ends.{spoiled_turns};
ghost use Rattle.link_work.specs.Switches.{pins_of};
ghost use Rattle.plan_types.specs.Clock.{clock_of};
ghost use Rattle.session_run.specs.Links.{TurnsLink};
ghost use Rattle.wire_scene.specs.Scenes.{NumbersRise, SwitchesRise};

use link_work::Link;
use msg_code::{Batch, Control, State};
use plan_types::BoardDef;
use session_work::LinkMachine;
use std::alloc::{AllocError, Global};
use std::marker::Model;
use wire_scene::Scene;

/// A board with its link. Once memory was wanted, it can make no turn.
#[derive(Drop)]
pub struct BoardLink {
    link: Link,
    live: bool,
}

impl Model for BoardLink {
    ghost use Rattle.std.specs.Prelude.{◌≡◌, true};
    ghost use Rattle.link_work.specs.Stands.{IsKnown, SeenLink};

    ghost Value = { SeenLink };

    ghost view = { λ b. b.link };

    ghost invariant = { λ b. b.live ≡ true → IsKnown b.link };
}

impl BoardLink {
    /// A link on which nothing has happened, of the board with this number in the scene.
    pub fn new(alloc: Global, b: &BoardDef, s: &Scene, index: u8) -> Result<BoardLink, AllocError>
        requires numbers { NumbersRise s.now.entries }
        requires ticks { SwitchesRise s.now.switches }
        ensures stands { IfOk result
            (λ l. StandsFor l (first_state b.now (pins_of b.now index s.now.switches) index s.now.entries)) }
        ensures clock { IfOk result (λ l. l.clock ≡ clock_of b.now) }
        ensures turn { IfOk result (λ l. l.turn ≡ 0) }
        ensures spoiled { IfOk result (λ l. l.spoiled ≡ spoiled_turns []) }
        ensures held { IfOk result (λ l. l.held ≡ []) }
    {
        Ok(BoardLink {
            link: Link::new(alloc, b, s, index)?,
            live: true,
        })
    }
}

impl LinkMachine for BoardLink {
    ghost use Rattle.session_run.specs.Links.{CanTurnLink, TurnsLink};

    ghost can = { CanTurnLink };

    ghost turns = { TurnsLink };

    fn can_turn(&self, k: u64) -> bool {
        self.live && self.link.can_turn(k)
    }

    fn turn(&mut self, k: u64, control: Control, batch: Batch) -> Result<State, AllocError> {
        self.live = false;
        let state = self.link.turn(k, control, batch)?;
        self.live = true;
        Ok(state)
    }
}
