//! Queues what the host orders of a board.

ghost use Rattle.std.specs.Prelude.{◌≡◌, ℕ, List, [], ◌∷◌, map, OnOk};
ghost use Rattle.msg_dict.specs.Own.{own_formats};
ghost use Rattle.msg_code.specs.Text.{IsText};
ghost use Rattle.msg_code.specs.Units.{reset_commands, dir_commands, step_command};
ghost use Rattle.board_world.specs.Orders.{plain, unit_orders, units_orders};
ghost use Rattle.board_world.specs.World.{closes, wire_text};
ghost use Rattle.board_world.specs.Stands.{with_waiting, AreRead};

use link_core::HostEnd;
use msg_code::{Cmd, Unit, encode};
use msg_dict::Dict;
use std::alloc::AllocError;

/// Queues the commands of units.
pub fn queue_units(host: &mut HostEnd, formats: &Dict, units: &[Unit]) -> Result<(), AllocError>
    requires { formats.now.formats ≡ own_formats }
    ensures host { OnOk result (host.new ≡ with_waiting host.old (units_orders units.now)) }
    ensures read { OnOk result (AreRead (units_orders units.now)) }
{
    for unit in units {
        queue_unit(host, formats, unit)?;
    }
    Ok(())
}

/// Queues control commands.
pub fn queue_commands(
    host: &mut HostEnd,
    formats: &Dict,
    commands: &[Cmd],
) -> Result<(), AllocError>
    requires { formats.now.formats ≡ own_formats }
    ensures host { OnOk result (host.new ≡ with_waiting host.old (map plain commands.now)) }
    ensures read { OnOk result (AreRead (map plain commands.now)) }
{
    for command in commands {
        queue_command(host, formats, command)?;
    }
    Ok(())
}

/// Queues the commands of a unit.
fn queue_unit(host: &mut HostEnd, formats: &Dict, u: &Unit) -> Result<(), AllocError>
    requires { formats.now.formats ≡ own_formats }
    ensures host { OnOk result (host.new ≡ with_waiting host.old (unit_orders u.now)) }
    ensures read { OnOk result (AreRead (unit_orders u.now)) }
{
    queue_reset(host, formats, u.stepper, u.reset)?;
    queue_dir(host, formats, u.stepper, u.up)?;
    queue_command(host, formats, &steps_of(u))?;
    Ok(())
}

/// The command for a unit's steps.
fn steps_of(u: &Unit) -> Cmd
    ensures { result ≡ step_command u.now }
{
    Cmd::QueueStep {
        oid: u.stepper,
        interval: u.triple.interval,
        count: u.triple.count,
        add: u.triple.add,
    }
}

/// Queues a stepper's clock, where it is told.
fn queue_reset(
    host: &mut HostEnd,
    formats: &Dict,
    oid: u8,
    reset: Option<u64>,
) -> Result<(), AllocError>
    requires { formats.now.formats ≡ own_formats }
    ensures host { OnOk result (host.new ≡ with_waiting host.old (map plain (reset_commands oid reset))) }
    ensures read { OnOk result (AreRead (map plain (reset_commands oid reset))) }
{
    if let Some(tick) = reset {
        let clock = (tick % (1 << 32)) as u32;
        queue_command(host, formats, &Cmd::ResetStepClock { oid, clock })?;
    }
    Ok(())
}

/// Queues a stepper's direction, where it is told.
fn queue_dir(
    host: &mut HostEnd,
    formats: &Dict,
    oid: u8,
    up: Option<bool>,
) -> Result<(), AllocError>
    requires { formats.now.formats ≡ own_formats }
    ensures host { OnOk result (host.new ≡ with_waiting host.old (map plain (dir_commands oid up))) }
    ensures read { OnOk result (AreRead (map plain (dir_commands oid up))) }
{
    if let Some(up) = up {
        let dir = u8::from(up);
        queue_command(host, formats, &Cmd::SetNextStepDir { oid, dir })?;
    }
    Ok(())
}

/// Queues a command.
fn queue_command(host: &mut HostEnd, formats: &Dict, c: &Cmd) -> Result<(), AllocError>
    requires { formats.now.formats ≡ own_formats }
    ensures host { OnOk result (host.new ≡ with_waiting host.old (plain c.now ∷ [])) }
    ensures read { OnOk result (IsText own_formats c.now (wire_text c.now)) }
{
    match encode(formats, c) {
        Ok(text) => {
            host.queue(text.as_slice(), closes(c))?;
            Ok(())
        }
        Err(_unknown) => unreachable!(),
    }
}

/// Whether a command is the last of its block.
fn closes(c: &Cmd) -> bool
    ensures { result ≡ closes c.now }
{
    matches!(c, Cmd::GetUptime)
}
