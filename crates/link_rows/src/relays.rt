//! A trigger that the host orders to trigger: when the board does, and what it tells.

use crate::links::{Running, start, turn};
use msg_code::{Batch, Cmd, Control, State};
use plan_types::Listed;
use std::alloc::{AllocError, Global};
use std::test::Fail;

/// In turn 0 the trigger is made, in turn 1,009 it is started, and in turn 1,761 it is told to trigger.
fn put_commands(turn: u64, commands: &mut Listed<Cmd>) -> Result<(), AllocError> {
    match turn {
        0 => commands.push(Cmd::ConfigTrsync { oid: 1 }),
        1_009 => {
            commands.push(Cmd::TrsyncStart {
                oid: 1,
                report_clock: 20_160_000,
                report_ticks: 80_000,
                expire_reason: 2,
            })?;
            commands.push(Cmd::TrsyncSetTimeout {
                oid: 1,
                clock: 28_560_000,
            })
        }
        1_761 => commands.push(Cmd::TrsyncTrigger { oid: 1, reason: 3 }),
        _ => Ok(()),
    }
}

/// The state of a turn.
fn state(alloc: Global, link: &mut Running, k: u64) -> Result<Option<State>, AllocError> {
    let mut commands = Listed::new(alloc);
    put_commands(k, &mut commands)?;
    let control = Control {
        turn: k,
        commands,
        connected: k > 5,
        end: false,
    };
    let batch = Batch {
        turn: k,
        units: Listed::new(alloc),
        end: false,
    };
    turn(link, control, batch)
}

/// That a trigger can't trigger any more: the turn in which that is told, the reason, and the board's clock.
type Over = (u64, u8, u32);

/// Adds the news of a state that say so.
fn hear(told: &mut Vec<Over>, state: &State) -> Result<(), AllocError> {
    for news in state.news.as_slice() {
        if let Cmd::TrsyncState {
            oid: 1,
            can_trigger: 0,
            trigger_reason,
            clock,
        } = news.answer
        {
            told.push((state.turn, trigger_reason, clock))?;
        }
    }
    Ok(())
}

/// Those of the first turn that tells so. Later reports tell the same again.
fn told(alloc: Global) -> Result<Vec<Over>, AllocError> {
    let mut told = Vec::new(alloc);
    let Some(mut link) = start(alloc, "", 0)? else {
        return Ok(told);
    };
    for k in 0..1_800 {
        if let Some(state) = state(alloc, &mut link, k)? {
            hear(&mut told, &state)?;
        }
        if !told.is_empty() {
            return Ok(told);
        }
    }
    Ok(told)
}

/// The board triggers at its own tick of the turn, 16,000 ticks of 16 MHz for each.
#[test]
fn a_relay_is_taken_at_the_turns_tick(rt: HostRuntime) -> Result<(), Fail> {
    assert_eq!(rt;
        told(rt.alloc())?.as_slice(),
        [(1_761, 3, 28_176_000)].as_slice()
    );
    Ok(())
}
