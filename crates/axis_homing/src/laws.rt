//! What holds of homing in every turn.

ghost use Rattle.std.specs.Prelude.{◌≡◌, ◌≤◌, ◌<◌, ◌⊎◌, ℕ, List, Option};
ghost use Rattle.plan_types.specs.declared.plan.SectionKind.{SectionKind};
ghost use Rattle.msg_code.specs.declared.talk.State.{State};
ghost use Rattle.axis_homing.specs.declared.homing.Homing.{Homing};
ghost use Rattle.plan_types.specs.declared.machine.Machine.{Machine};
ghost use Rattle.plan_types.specs.declared.machine.AxisDef.{AxisDef};
ghost use Rattle.plan_types.specs.Lines.{Clocks};
ghost use Rattle.plan_types.specs.Machines.{IsValidMachine};
ghost use Rattle.trigger_group.specs.Group.{GroupState, orders};
ghost use Rattle.board_asking.specs.Drift.{bytes_of};
ghost use Rattle.axis_homing.specs.Homing.{commands_to, homing_of, homing_after};
ghost use Rattle.axis_homing.specs.Rising.{IsRising, HomingRises};
ghost use Rattle.axis_homing.specs.Room.{MayFill};

/// The law of room: the orders of a group whose boards rise become commands of at most 42 bytes for each
/// board in each turn.
pub fn orders_fit()
    ensures { (m : Machine) (clocks : Clocks) (b start : ℕ) (axis : AxisDef) (g : GroupState) (turn : ℕ) →
        IsValidMachine m → IsRising g → bytes_of (commands_to m clocks b start axis (orders g turn)) ≤ 42 }
{}

/// The law of spare room: they have fewer bytes than 42 in every turn that is not 254, 253 or 251 turns
/// before the group's start.
pub fn orders_leave_room()
    ensures { (m : Machine) (clocks : Clocks) (b start : ℕ) (axis : AxisDef) (g : GroupState) (turn : ℕ) →
        IsValidMachine m → IsRising g →
        (bytes_of (commands_to m clocks b start axis (orders g turn)) < 42) ⊎ MayFill g.start turn }
{}

/// The law of members: the boards of a section's members rise, whatever a note tells of it, and every turn keeps them.
pub fn members_rise()
    ensures starts { (m : Machine) (section : ℕ) (kind : SectionKind) (turn last moving : ℕ) →
        HomingRises (homing_of m section kind turn last moving) }
    ensures turns { (clocks : List Clocks) (k : ℕ) (states : List State) (h : Option Homing) → HomingRises h →
        HomingRises (homing_after clocks k states h) }
{}
