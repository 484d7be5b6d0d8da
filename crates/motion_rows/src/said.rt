//! What the reactor orders, as text.

use msg_code::{Cmd, Control, WordMsg, WordNews};
use std::alloc::{AllocError, Global};

/// A command of connecting or homing with its parameters.
fn said(alloc: Global, command: &Cmd) -> Result<String, AllocError> {
    match command {
        Cmd::Identify { offset, count } => format!(in alloc; "identify {offset} {count}"),
        Cmd::GetUptime => format!(in alloc; "get_uptime"),
        Cmd::GetConfig => format!(in alloc; "get_config"),
        Cmd::AllocateOids { count } => format!(in alloc; "allocate_oids {count}"),
        Cmd::ConfigStepper { oid, .. } => format!(in alloc; "config_stepper {oid}"),
        Cmd::ConfigTrsync { oid } => format!(in alloc; "config_trsync {oid}"),
        Cmd::ConfigEndstop { oid, pin, .. } => format!(in alloc; "config_endstop {oid} {pin}"),
        Cmd::FinalizeConfig { .. } => format!(in alloc; "finalize_config"),
        Cmd::ResetStepClock { oid, clock } => format!(in alloc; "reset_step_clock {oid} {clock}"),
        Cmd::StepperStopOnTrigger { oid, trsync_oid } => {
            format!(in alloc; "stepper_stop_on_trigger {oid} {trsync_oid}")
        }
        _ => said_of_trigger(alloc, command),
    }
}

/// A command to a trigger or an endstop.
fn said_of_trigger(alloc: Global, command: &Cmd) -> Result<String, AllocError> {
    match command {
        Cmd::TrsyncStart {
            oid,
            report_clock,
            report_ticks,
            expire_reason,
        } => {
            format!(in alloc; "trsync_start {oid} {report_clock} {report_ticks} {expire_reason}")
        }
        Cmd::TrsyncSetTimeout { oid, clock } => {
            format!(in alloc; "trsync_set_timeout {oid} {clock}")
        }
        Cmd::TrsyncTrigger { oid, reason } => format!(in alloc; "trsync_trigger {oid} {reason}"),
        Cmd::EndstopHome {
            oid,
            clock,
            sample_ticks,
            sample_count,
            rest_ticks,
            pin_value,
            ..
        } => {
            format!(in alloc;
                "endstop_home {oid} {clock} {sample_ticks} {sample_count} {rest_ticks} {pin_value}"
            )
        }
        _ => format!(in alloc; "another command"),
    }
}

/// Adds a control's commands, one a line, behind its turn and its board.
pub fn put_control(
    alloc: Global,
    board: usize,
    control: &Control,
    out: &mut String,
) -> Result<(), AllocError> {
    for command in control.commands.as_slice() {
        let text = said(alloc, command)?;
        let line = format!(in alloc; "{} {board} {text}\n", control.turn)?;
        out.push_str(line.as_str())?;
    }
    Ok(())
}

/// Adds the further lines and the homed sections of a word.
pub fn put_word(alloc: Global, word: &WordMsg, out: &mut String) -> Result<(), AllocError> {
    for news in word.news.as_slice() {
        match news {
            WordNews::Lines(_) => out.push_str("lines\n")?,
            WordNews::Homed => {
                let line = format!(in alloc; "{} homed\n", word.turn)?;
                out.push_str(line.as_str())?
            }
            WordNews::Line { board, line } => {
                let line = format!(in alloc;
                    "{} line {board} {} {}\n",
                    word.turn, line.at, line.clock
                )?;
                out.push_str(line.as_str())?
            }
        }
    }
    Ok(())
}
