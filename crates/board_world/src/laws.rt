//! What holds of a board and its link whatever happens.

ghost use Rattle.std.specs.Prelude.{◌≡◌, ℕ, ◌%◌, ◌<◌, ◌++◌, List, map, true, false};
ghost use Rattle.std.specs.List.{flat_map};
ghost use Rattle.plan_types.specs.declared.machine.BoardDef.{BoardDef};
ghost use Rattle.plan_types.specs.declared.plan.BoardState.TheVariants.{Running, Shut};
ghost use Rattle.plan_types.specs.declared.levels.Level.{Level};
ghost use Rattle.plan_types.specs.declared.plan.Pulse.{Pulse};
ghost use Rattle.plan_types.specs.Clock.{tick_limit};
ghost use Rattle.link_core.specs.Core.{InStep, sent};
ghost use Rattle.board_sim.specs.Board.{is_shut, stepper_at};
ghost use Rattle.board_sim.specs.Fair.{Meant, IsCut, CameLate, only, pending_at};
ghost use Rattle.board_sim.specs.Halted.{is_halted, KeptPart};
ghost use Rattle.board_world.specs.Shut.{WasShut};
ghost use Rattle.board_world.specs.declared.event.Event.{Event};
ghost use Rattle.board_world.specs.Apart.{AreNumbersApart, RepliesApart, TickFits};
ghost use Rattle.board_world.specs.Units.{AllFind, pulse_ticks, ticks_of};
ghost use Rattle.board_world.specs.World.{Core, Step, world_after, after_event, run_world, new_world, queued_by, on_wire, AllFair};

/// The law of numbers: whatever happens, the numbers of a link keep their order and stay within the window,
/// so that no two numbers that can meet are the same on the wire. It holds in the first state, and each event
/// keeps it.
pub fn numbers_keep_in_step()
    ensures first { (b : BoardDef) (pins : List (List Level)) → InStep (new_world b pins).link }
    ensures each { (h : Core) (s : Step) → InStep h.link → InStep (world_after h s).link }
    ensures always { (b : BoardDef) (pins : List (List Level)) (steps : List Step) →
        InStep (run_world steps (new_world b pins)).link }
    ensures down { (h : Core) → InStep h.link → AreNumbersApart h.link.accepted h.link.down }
    ensures up { (h : Core) → InStep h.link → RepliesApart h.link.acked (sent h.link) h.link.up }
{}

/// The law of order: the commands that the board took are the first ones that were queued, in order, each
/// once, and they are what the wire carried.
pub fn taken_in_order()
    ensures order { (b : BoardDef) (pins : List (List Level)) (steps : List Step) →
        (rest : List Meant) × (run_world steps (new_world b pins)).taken ++ rest ≡ flat_map queued_by steps }
    ensures carried { (b : BoardDef) (pins : List (List Level)) (steps : List Step) →
        (run_world steps (new_world b pins)).link.taken ≡ map on_wire (run_world steps (new_world b pins)).taken }
{}

/// The law of pulses: where the units are fair, each at exactly its tick, the pulses of each stepper are a
/// prefix of the ticks of its units taken, with the directions that are meant; after a halt the rest of the
/// units up to the stepper's next reset is left out. While the board runs, the rest of a stepper that isn't
/// halted pends. Where each unit is taken after its stepper was made and no trigger halted that, nothing is
/// left out. The pulses that a world shows are the last of them.
pub fn pulses_are_meant()
    ensures ticks { (b : BoardDef) (pins : List (List Level)) (steps : List Step) → AllFair (new_world b pins) steps →
        AllFind (new_world b pins) steps → (oid : ℕ) →
        (rest : List ℕ)
        × pulse_ticks oid (run_world steps (new_world b pins)).made ++ rest
        ≡ ticks_of oid (run_world steps (new_world b pins)).taken }
    ensures kept { (b : BoardDef) (pins : List (List Level)) (steps : List Step) → AllFair (new_world b pins) steps →
        KeptPart (run_world steps (new_world b pins)).board.controller (run_world steps (new_world b pins)).made
        (run_world steps (new_world b pins)).meant }
    ensures cut { (b : BoardDef) (pins : List (List Level)) (steps : List Step) → AllFair (new_world b pins) steps →
        IsCut (run_world steps (new_world b pins)).made (run_world steps (new_world b pins)).meant }
    ensures whole { (b : BoardDef) (pins : List (List Level)) (steps : List Step) (oid : ℕ) →
        AllFair (new_world b pins) steps → (run_world steps (new_world b pins)).board.controller.state ≡ Running →
        is_halted (stepper_at (run_world steps (new_world b pins)).board.controller oid) ≡ false →
        only oid (run_world steps (new_world b pins)).made
        ++ pending_at oid (stepper_at (run_world steps (new_world b pins)).board.controller oid)
        ≡ only oid (run_world steps (new_world b pins)).meant }
    ensures last { (b : BoardDef) (pins : List (List Level)) (steps : List Step) →
        (before : List Pulse)
        × before ++ (run_world steps (new_world b pins)).last ≡ (run_world steps (new_world b pins)).made }
{}

/// The law of a shutdown: a board that is shut down took, while it ran, a command that shut it down at the
/// tick that it keeps: steps that were refused (too late only where none pended and the first one was before
/// that tick), a clock that was set while steps pended, or the order. From then on it makes no pulse, and
/// stays as it is, whatever happens.
pub fn stays_shut()
    ensures cause { (b : BoardDef) (pins : List (List Level)) (steps : List Step) (reason tick first : ℕ) →
        (run_world steps (new_world b pins)).board.controller.state ≡ Shut reason tick first →
        WasShut (new_world b pins) steps reason tick first }
    ensures late { (b : BoardDef) (pins : List (List Level)) (steps : List Step) →
        CameLate (run_world steps (new_world b pins)).board.controller.state }
    ensures still { (h : Core) (steps : List Step) → is_shut h.board.controller.state ≡ true →
        ((run_world steps h).made ≡ h.made) × ((run_world steps h).board.controller.state ≡ h.board.controller.state) }
{}

/// The law of ticks: a board's tick stays in range where it is run to ticks in range.
pub fn ticks_stay_in_range()
    ensures { (h : Core) (e : Event) → h.board.controller.tick < tick_limit → TickFits e →
        (after_event h e).board.controller.tick < tick_limit }
{}
