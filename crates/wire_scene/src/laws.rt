//! What follows from the reading of a scene.

ghost use Rattle.std.specs.Prelude.{ℕ, List, ◌≡◌};
ghost use Rattle.plan_types.specs.Levels.{level_at};
ghost use Rattle.wire_scene.specs.declared.scene.Switch.{Switch};
ghost use Rattle.plan_types.specs.declared.machine.Machine.{Machine};
ghost use Rattle.wire_scene.specs.declared.scene.Scene.{Scene};
ghost use Rattle.wire_scene.specs.Scenes.{last_switch, level_of, levels_of};
ghost use Rattle.wire_scene.specs.Latest.{IsLatest};
ghost use Rattle.wire_scene.specs.Valid.{IsValidScene};

/// The law of levels: the level of a pin at a tick, by its entries alone, is that of the scene.
pub fn levels_are_those_of_the_scene()
    ensures { (board pin tick : ℕ) (switches : List Switch) →
        level_at (levels_of board pin switches) tick ≡ level_of (last_switch board pin tick switches) }
{}

/// The entry from which a pin has its level at a tick is the one with the greatest tick at or before it, and there is
/// none only where all of the pin's entries come later.
pub fn level_comes_from_the_latest()
    ensures { (m : Machine) (scene : Scene) (board pin tick : ℕ) → IsValidScene m scene →
        IsLatest board pin tick scene.switches (last_switch board pin tick scene.switches) }
{}
