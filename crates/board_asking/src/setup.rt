//! The configuration of a board.

ghost use Rattle.std.specs.Prelude.{◌≡◌, ◌+◌, ◌≤◌, ◌++◌, length, map, OnOk, IfOk};
ghost use Rattle.std.specs.List.{flat_map};
ghost use Rattle.arrayvec.specs.ArrayVec.{array_vec_len};
ghost use Rattle.plan_types.specs.Machines.{IsValidMachine};
ghost use Rattle.board_asking.specs.Machine.{steppers_on, trigger_of, is_among, pins_of, endstop_pins, setup_stepper, setup_endstops, configuration, setup_command, fitting};

use crate::OutOfMemory;
use arrayvec::ArrayVec;
use msg_code::{Cmd, command_bytes};
use plan_types::{AxisDef, Listed, Machine, StepperDef};

/// A command of a configuration.
#[derive(Clone, Copy, Debug, PartialEq, Eq)]
pub enum Setup {
    /// How many objects there are.
    Oids(u8),
    Stepper { oid: u8, step_pin: u8, dir_pin: u8 },
    Trsync(u8),
    Endstop { oid: u8, pin: u8 },
    /// That is all.
    Finish,
}

impl Default for Setup {
    fn default() -> Self {
        Setup::Finish
    }
}

/// How many of the steppers are on a board.
pub fn steppers_on(board: u8, steppers: &[StepperDef]) -> u8
    requires { length steppers.now ≤ 16 }
    ensures value { result ≡ steppers_on board steppers.now }
    ensures most { result ≤ length steppers.now }
{
    match steppers {
        [] => 0,
        [first, rest @ ..] => {
            let others = steppers_on(board, rest);
            if first.board == board {
                1 + others
            } else {
                others
            }
        }
    }
}

/// Whether a pin is among some pins.
fn is_among(pin: u8, pins: &[u8]) -> bool
    ensures { result ≡ is_among pin pins.now }
{
    match pins {
        [] => false,
        [first, rest @ ..] => {
            if *first == pin {
                true
            } else {
                is_among(pin, rest)
            }
        }
    }
}

/// Adds the endstop pins of a board, each once.
fn put_pins(board: u8, axes: &[AxisDef], pins: &mut ArrayVec<u8, 3>)
    requires { array_vec_len pins.old + length axes.now ≤ 3 }
    ensures { pins.new.items ≡ pins_of board axes.now pins.old.items }
{
    match axes {
        [] => {}
        [first, rest @ ..] => {
            if first.board == board && !is_among(first.pin, pins.as_slice()) {
                pins.push(first.pin);
            }
            put_pins(board, rest, pins);
        }
    }
}

/// The endstop pins of a board.
pub fn endstop_pins(m: &Machine, board: u8) -> ArrayVec<u8, 3>
    ensures { result.items ≡ endstop_pins m.now board }
{
    let mut pins = ArrayVec::new();
    put_pins(board, &m.axes, &mut pins);
    pins
}

/// Adds the steppers of a board.
fn put_steppers(board: u8, steppers: &[StepperDef], out: &mut ArrayVec<Setup, 24>)
    requires { array_vec_len out.old + length steppers.now ≤ 24 }
    ensures items { out.new.items ≡ out.old.items ++ flat_map (setup_stepper board) steppers.now }
    ensures few { array_vec_len out.new ≤ array_vec_len out.old + length steppers.now }
{
    match steppers {
        [] => {}
        [first, rest @ ..] => {
            if first.board == board {
                out.push(Setup::Stepper {
                    oid: first.oid,
                    step_pin: first.step_pin,
                    dir_pin: first.dir_pin,
                });
            }
            put_steppers(board, rest, out);
        }
    }
}

/// Adds the endstops at some pins.
fn put_endstops(oid: u8, pins: &[u8], out: &mut ArrayVec<Setup, 24>)
    requires room { array_vec_len out.old + length pins.now ≤ 24 }
    requires oids { oid + length pins.now ≤ 255 }
    ensures items { out.new.items ≡ out.old.items ++ setup_endstops oid pins.now }
    ensures few { array_vec_len out.new ≤ array_vec_len out.old + length pins.now }
{
    match pins {
        [] => {}
        [first, rest @ ..] => {
            out.push(Setup::Endstop { oid, pin: *first });
            put_endstops(oid + 1, rest, out);
        }
    }
}

/// The configuration of a board.
#[tactic(auto, unfolding(crate::specs::Machine::configuration))]
pub fn configuration(m: &Machine, board: u8) -> ArrayVec<Setup, 24>
    requires { length m.now.steppers ≤ 16 }
    ensures { result.items ≡ configuration m.now board }
{
    let trigger = steppers_on(board, m.steppers.as_slice());
    let pins = endstop_pins(m, board);
    let mut out = ArrayVec::new();
    out.push(Setup::Oids(trigger + 1 + pins.len() as u8));
    put_steppers(board, m.steppers.as_slice(), &mut out);
    out.push(Setup::Trsync(trigger));
    put_endstops(trigger + 1, pins.as_slice(), &mut out);
    out.push(Setup::Finish);
    out
}

/// The command of a part of a configuration.
pub fn setup_command(setup: Setup) -> Cmd
    ensures { result ≡ setup_command setup }
{
    match setup {
        Setup::Oids(count) => Cmd::AllocateOids { count },
        Setup::Stepper {
            oid,
            step_pin,
            dir_pin,
        } => Cmd::ConfigStepper {
            oid,
            step_pin,
            dir_pin,
            invert_step: 0,
            step_pulse_ticks: 0,
        },
        Setup::Trsync(oid) => Cmd::ConfigTrsync { oid },
        Setup::Endstop { oid, pin } => Cmd::ConfigEndstop {
            oid,
            pin,
            pull_up: 0,
        },
        Setup::Finish => Cmd::FinalizeConfig { crc: 0 },
    }
}

/// Adds the first of some commands that fit into some bytes, and says how many these are.
pub fn put_fitting(room: usize, setups: &[Setup], out: &mut Listed<Cmd>) -> Result<u64, OutOfMemory>
    requires { length setups.now ≤ 24 }
    ensures commands { OnOk result (out.new ≡ out.old ++ map setup_command (fitting room setups.now)) }
    ensures count { IfOk result (λ n. n ≡ length (fitting room setups.now)) }
    ensures few { IfOk result (λ n. n ≤ length setups.now) }
{
    match setups {
        [] => Ok(0),
        [first, rest @ ..] => {
            let command = setup_command(*first);
            let bytes = command_bytes(&command);
            if room < bytes {
                return Ok(0);
            }
            out.push(command)?;
            let behind = put_fitting(room - bytes, rest, out)?;
            Ok(behind + 1)
        }
    }
}
