//! One move over lines that lose, repeat, delay and change blocks: either each step is made at its tick, or
//! the board tells that one came too late.

ghost use Rattle.std.specs.Prelude.{◌<◌, ◌≤◌, ◌^◌};

use crate::links::{Running, start, turn};
use msg_code::{Batch, Cmd, Control, ShutNews, State, Unit};
use plan_types::{Listed, Triple};
use std::alloc::{AllocError, Global};
use std::test::Fail;

/// The tick of step i of one millimetre at 10 mm/s, counted from 0, behind the base tick 20,160,000.
fn step(i: u32) -> u64
    requires { i ≤ 80 }
    ensures { result < 2 ^ 32 }
{
    match i {
        0 => 20_192_660,
        79 => 21_780_672,
        _ => 20_196_666 + 20_000 * u64::from(i),
    }
}

/// The unit of that step.
fn unit(i: u32) -> Unit
    requires { i < 80 }
{
    let tick = step(i);
    let before = if i == 0 { 20_160_000 } else { step(i - 1) };
    Unit {
        stepper: 0,
        first: tick,
        last: tick,
        due: tick / 16_000,
        triple: Triple {
            interval: tick.saturating_sub(before) as u32,
            count: 1,
            add: 0,
        },
        up: if i == 0 { Some(true) } else { None },
        reset: if i == 0 { Some(20_160_000) } else { None },
    }
}

/// In turns 0 and 4 the board is asked for its dictionary, in turn 5 the stepper is made, and then connecting
/// has ended.
fn control(alloc: Global, turn: u64) -> Result<Control, AllocError> {
    let mut commands = Listed::new(alloc);
    match turn {
        0 | 4 => commands.push(Cmd::Identify {
            offset: 0,
            count: 40,
        })?,
        5 => commands.push(Cmd::ConfigStepper {
            oid: 0,
            step_pin: 0,
            dir_pin: 1,
            invert_step: 0,
            step_pulse_ticks: 0,
        })?,
        _ => {}
    }
    Ok(Control {
        turn,
        commands,
        connected: turn > 5,
        end: false,
    })
}

/// Each of the eighty units goes out 250 turns before that of its step.
fn batch(alloc: Global, turn: u64) -> Result<Batch, AllocError> {
    let mut units = Listed::new(alloc);
    for i in 0..80 {
        let unit = unit(i);
        if unit.due.checked_sub(250) == Some(turn) {
            units.push(unit)?;
        }
    }
    Ok(Batch {
        turn,
        units,
        end: false,
    })
}

/// What a link told: how many steps were made, whether each was made up at its tick; the turn of each answer
/// with the number of its block; and why the board was shut down.
#[derive(Drop)]
struct Told {
    steps: u32,
    at_their_ticks: bool,
    heard: Vec<(u64, u64)>,
    shut: Option<ShutNews>,
}

fn hear(told: &mut Told, state: &State) -> Result<(), AllocError> {
    for pulse in state.pulses.as_slice() {
        let wanted = step(told.steps.min(79));
        told.at_their_ticks = told.at_their_ticks && pulse.tick == wanted && pulse.up;
        told.steps = told.steps.saturating_add(1);
    }
    for news in state.news.as_slice() {
        told.heard.push((state.turn, news.number))?;
    }
    told.shut = state.shut;
    Ok(())
}

/// The state of a turn.
fn state(alloc: Global, link: &mut Running, k: u64) -> Result<Option<State>, AllocError> {
    let control = control(alloc, k)?;
    let batch = batch(alloc, k)?;
    turn(link, control, batch)
}

/// A turn; whether others may follow.
fn advance(alloc: Global, link: &mut Running, told: &mut Told, k: u64) -> Result<bool, AllocError> {
    let Some(state) = state(alloc, link, k)? else {
        return Ok(false);
    };
    hear(told, &state)?;
    Ok(told.shut.is_none())
}

/// The turns up to a shutdown, or 1,500 of them.
fn run_link(alloc: Global, link: &mut Running, told: &mut Told) -> Result<(), AllocError> {
    for k in 0..1_500 {
        if !advance(alloc, link, told, k)? {
            return Ok(());
        }
    }
    Ok(())
}

/// Adds what the link of a scene tells.
fn run_scene(alloc: Global, scene: &str, told: &mut Told) -> Result<(), AllocError> {
    match start(alloc, scene, 0)? {
        None => Ok(()),
        Some(mut link) => run_link(alloc, &mut link, told),
    }
}

/// What the link of a scene tells.
fn run(alloc: Global, scene: &str) -> Result<Told, AllocError> {
    let mut told = Told {
        steps: 0,
        at_their_ticks: true,
        heard: Vec::new(alloc),
        shut: None,
    };
    run_scene(alloc, scene, &mut told)?;
    Ok(told)
}

/// A board shut down because a step came too late, behind 251 spoiled turns.
const LATE: ShutNews = ShutNews {
    reason: 1,
    tick: 20_208_000,
    first: 20_192_660,
    spoiled: 251,
    spill: 0,
};

/// The same, at a later tick.
const LATER: ShutNews = ShutNews {
    reason: 1,
    tick: 22_592_000,
    first: 20_192_660,
    spoiled: 251,
    spill: 0,
};

/// A scene, how many steps are made, the turn and the number of each answer, and why the board shuts down.
type Row<'a> = (&'a str, u32, &'a [(u64, u64)], Option<ShutNews>);

const ROWS: [Row<'static>; 7] = [
    ("", 80, &[(0, 1), (4, 2)], None),
    (
        "down mcu 7 drop\nup mcu 7 drop\ndown mcu 9 repeat\n",
        80,
        &[(0, 1), (4, 2)],
        None,
    ),
    (
        "down mcu 0 garble 3 1\ndown mcu 7 garble 255 128\nup mcu 5 garble 2 64\n",
        80,
        &[(0, 1), (4, 2)],
        None,
    ),
    // the first answer while connecting is lost, and the next asking is answered
    ("connect up mcu 0 drop\n", 80, &[(4, 2)], None),
    ("down mcu 0 delay 250\n", 80, &[(0, 1), (4, 2)], None),
    (
        "down mcu 0 delay 251\n",
        0,
        &[(0, 1), (4, 2), (1_263, 4)],
        Some(LATE),
    ),
    (
        "down mcu 0 delay 400\n",
        0,
        &[(0, 1), (4, 2), (1_412, 4)],
        Some(LATER),
    ),
];

fn has_told(told: &Told, row: &Row<'_>) -> bool {
    told.at_their_ticks
        && told.steps == row.1
        && told.heard.as_slice() == row.2
        && told.shut == row.3
}

/// Whether the link of a row's scene tells so.
fn is_so(alloc: Global, row: &Row<'_>) -> Result<bool, AllocError> {
    let told = run(alloc, row.0)?;
    Ok(has_told(&told, row))
}

/// The first row that isn't so.
fn first_wrong(alloc: Global, rows: &[Row<'_>]) -> Result<Option<usize>, AllocError> {
    for (i, row) in rows.iter().enumerate() {
        if !is_so(alloc, row)? {
            return Ok(Some(i));
        }
    }
    Ok(None)
}

/// The first blocks on the line to the board, up to a number, are lost.
fn drops(alloc: Global, count: u32) -> Result<String, AllocError> {
    let mut text = String::new(alloc);
    for number in 0..count {
        text.push_str(format!(in alloc; "down mcu {number} drop\n")?.as_str())?;
    }
    Ok(text)
}

/// Whether all steps are made where so many blocks are lost.
fn heals(alloc: Global, count: u32) -> Result<bool, AllocError> {
    let scene = drops(alloc, count)?;
    let row: Row<'_> = (scene.as_str(), 80, &[(0, 1), (4, 2)], None);
    is_so(alloc, &row)
}

#[test]
fn disturbed_lines_heal_or_the_board_says_late(rt: HostRuntime) -> Result<(), Fail> {
    assert_eq!(rt; first_wrong(rt.alloc(), &ROWS)?, None);
    assert!(rt; heals(rt.alloc(), 24)?);
    Ok(())
}
