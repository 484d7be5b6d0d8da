//! The levels of a board's pins.

ghost use Rattle.std.specs.Prelude.{◌≡◌, ◌≤◌, IfOk};
ghost use Rattle.wire_scene.specs.Scenes.{SwitchesRise};
ghost use Rattle.link_work.specs.Switches.{first_pins, pins_of};

use board_sim::PinLevels;
use plan_types::BoardDef;
use std::alloc::{AllocError, Global};
use wire_scene::Scene;

/// The levels of the pins of a board, which has this number in the scene.
#[tactic(auto, unfolding(crate::specs::Switches::pins_of))]
pub fn pins(alloc: Global, b: &BoardDef, s: &Scene, index: u8) -> Result<Vec<PinLevels>, AllocError>
    requires { SwitchesRise s.now.switches }
    ensures { IfOk result (λ v. v.items ≡ pins_of b.now index s.now.switches) }
{
    let count = b.pins.len().min(256);
    first_pins(alloc, s, index, count)
}

/// The levels of so many pins.
fn first_pins(
    alloc: Global,
    s: &Scene,
    board: u8,
    count: usize,
) -> Result<Vec<PinLevels>, AllocError>
    requires few { count ≤ 256 }
    requires rise { SwitchesRise s.now.switches }
    ensures { IfOk result (λ v. v.items ≡ first_pins board count s.now.switches) }
{
    let mut pins = Vec::new(alloc);
    for pin in 0..count {
        let levels = s.levels(alloc, board, pin as u8)?;
        pins.push(PinLevels::new(levels))?;
    }
    Ok(pins)
}
