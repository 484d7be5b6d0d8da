//! A board and its link that are run turn by turn over lines that a scene disturbs.

use generated_load::load_machine;
use link_work::Link;
use msg_code::{Batch, Control, State};
use plan_types::{BoardDef, Listed, Name};
use std::alloc::{AllocError, Global};
use std::marker::Model;
use wire_scene::{Scene, read_scene};

/// A link. Once memory was wanted, it makes no turn.
#[derive(Drop)]
pub struct Running {
    link: Link,
    live: bool,
}

impl Model for Running {
    ghost use Rattle.std.specs.Prelude.{◌≡◌, true};
    ghost use Rattle.link_work.specs.Stands.{IsKnown, SeenLink};

    ghost Value = { SeenLink };

    ghost view = { λ r. r.link };

    ghost invariant = { λ r. r.live ≡ true → IsKnown r.link };
}

/// A board of 16 MHz whose clock is off by so many parts per million.
fn board(alloc: Global, drift: i16) -> BoardDef {
    BoardDef {
        name: Name::new(b"mcu"),
        freq: 16_000_000,
        start: 0,
        slots: 1_024,
        drift,
        pins: Listed::new(alloc),
    }
}

/// The link of such a board by the scene of a text; none where the text is no scene.
pub fn start(alloc: Global, scene: &str, drift: i16) -> Result<Option<Running>, AllocError> {
    let machine = load_machine(alloc)?;
    let Ok(scene) = read_scene(alloc, scene.as_bytes(), &machine) else {
        return Ok(None);
    };
    let link = Link::new(alloc, &board(alloc, drift), &scene, 0)?;
    Ok(Some(Running { link, live: true }))
}

/// The turn of a control and a batch, where it is the next one.
pub fn turn(
    running: &mut Running,
    control: Control,
    batch: Batch,
) -> Result<Option<State>, AllocError> {
    let turn = control.turn;
    if !running.live || !running.link.can_turn(turn) {
        return Ok(None);
    }
    running.live = false;
    let state = running.link.turn(turn, control, batch)?;
    running.live = true;
    Ok(Some(state))
}
