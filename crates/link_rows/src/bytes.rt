//! What the host's end of a link puts on the line to a board, turn by turn, for one millimetre along x: the
//! controls with which the reactor connects, and the units that the planner sends. Written as a trace, it is
//! the one in examples.

use board_world::{Event, World};
use msg_code::{Batch, Cmd, Control, Unit};
use plan_types::{BoardDef, Listed, Name, Triple};
use std::alloc::{AllocError, Global};
use std::test::Fail;
use wire_scene::Way;

/// The trace. `tools/check` compares it with examples/one_move.trace.
const TRACE: &str = "turn 0 08100100285E9F7E
turn 1 0811012828AFD77E
turn 2 0812015028B41E7E
turn 3 09130180782807967E
turn 4 09140181202870A17E
turn 5 091501814828D0707E
turn 6 091601817028B5DE7E
turn 7 091701821828FA6B7E
turn 8 0918018240288DA07E
turn 9 0919018268286B177E
turn 10 091A0183102812037E
turn 11 091B01833828F4B47E
turn 12 091C01836028D95F7E
turn 13 091D01840828F58B7E
turn 14 091E0184302890257E
turn 15 091F0184582830F47E
turn 16 0910018500281DE37E
turn 17 091101852828FB547E
turn 18 091201855028D89C7E
turn 19 0913018578283E2B7E
turn 20 091401862028FCA47E
turn 21 0915018648285C757E
turn 22 09160186702839DB7E
turn 23 091701871828C3D67E
turn 24 091801874028B41D7E
turn 25 09190187682852AA7E
turn 26 091A018810283BA57E
turn 27 091B01883828DD127E
turn 28 091C01886028F0F97E
turn 29 091D018908280AF47E
turn 30 091E018930286F5A7E
turn 31 091F01895828CF8B7E
turn 32 0910018A002857247E
turn 33 0911018A2828B1937E
turn 34 0612051E667E
turn 35 06130507BE7E
turn 36 0614054AB67E
turn 37 061505536E7E
turn 38 06160579067E
turn 39 06170560DE7E
turn 40 061805E3167E
turn 41 061905FACE7E
turn 42 2F1A02080700000100000701030400000702060700000703090A00000B041005020010060500100708000400EC677E
turn 43 061B03AC487E
turn 1012 151C0A0089CEBC00090001080081FF14010010977E
turn 1013 0C1D080081BB460100D8917E
turn 1014 0C1E0800819C204D00B6617E
turn 1111 0C1F080081BB460100D3FE7E
";

/// Adds the commands that make the steppers, the trigger and the endstops of a printer with four steppers and
/// three axes.
fn set_up(commands: &mut Listed<Cmd>) -> Result<(), AllocError> {
    commands.push(Cmd::AllocateOids { count: 8 })?;
    for (oid, step_pin, dir_pin) in [(0, 0, 1), (1, 3, 4), (2, 6, 7), (3, 9, 10)] {
        commands.push(Cmd::ConfigStepper {
            oid,
            step_pin,
            dir_pin,
            invert_step: 0,
            step_pulse_ticks: 0,
        })?;
    }
    commands.push(Cmd::ConfigTrsync { oid: 4 })?;
    for (oid, pin) in [(5, 2), (6, 5), (7, 8)] {
        commands.push(Cmd::ConfigEndstop {
            oid,
            pin,
            pull_up: 0,
        })?;
    }
    commands.push(Cmd::FinalizeConfig { crc: 0 })
}

/// What the board is asked and told while it is connected: 34 pieces of its dictionary, its clock eight times, its
/// configuration, and whether that is complete.
fn control(alloc: Global, turn: u32) -> Result<Control, AllocError> {
    let mut commands = Listed::new(alloc);
    match turn {
        0..=33 => commands.push(Cmd::Identify {
            offset: turn.saturating_mul(40),
            count: 40,
        })?,
        34..=41 => commands.push(Cmd::GetUptime)?,
        42 => set_up(&mut commands)?,
        43 => commands.push(Cmd::GetConfig)?,
        _ => {}
    }
    Ok(Control {
        turn: u64::from(turn),
        commands,
        connected: turn == 44,
        end: false,
    })
}

/// A unit of so many steps.
fn unit(first: u64, interval: u32, count: u16, begins: bool) -> Unit {
    Unit {
        stepper: 0,
        first,
        last: first,
        due: first / 16_000,
        triple: Triple {
            interval,
            count,
            add: 0,
        },
        up: if begins { Some(true) } else { None },
        reset: if begins { Some(20_160_000) } else { None },
    }
}

/// The units of the eighty steps, each in the turn in which the planner sends it.
fn batch(alloc: Global, turn: u32) -> Result<Batch, AllocError> {
    let mut units = Listed::new(alloc);
    match turn {
        1_012 => units.push(unit(20_192_660, 32_660, 1, true))?,
        1_013 => units.push(unit(20_216_666, 24_006, 1, false))?,
        1_014 => units.push(unit(20_236_666, 20_000, 77, false))?,
        1_111 => units.push(unit(21_780_672, 24_006, 1, false))?,
        _ => {}
    }
    Ok(Batch {
        turn: u64::from(turn),
        units,
        end: false,
    })
}

/// Lets an event happen, where it may.
fn happen(world: &mut World, event: Event) -> Result<(), AllocError> {
    if world.can_step(&event) {
        world.step(event)?;
    }
    Ok(())
}

/// The host's part of a turn: what is given is queued, and blocks are put on the line.
fn order(alloc: Global, world: &mut World, turn: u32) -> Result<(), AllocError> {
    let due = world.due(u64::from(turn));
    happen(world, Event::Control(control(alloc, turn)?))?;
    happen(world, Event::Put(batch(alloc, turn)?))?;
    if due {
        happen(world, Event::Resend)?;
    }
    for _ in 0..12 {
        happen(world, Event::Send)?;
    }
    Ok(())
}

/// Adds bytes to a trace.
fn put_bytes(alloc: Global, bytes: &[u8], trace: &mut String) -> Result<(), AllocError> {
    for byte in bytes {
        trace.push_str(format!(in alloc; "{byte:02X}")?.as_str())?;
    }
    Ok(())
}

/// Adds the bytes under way to the board to a trace, as the line of a turn.
fn put_line(alloc: Global, world: &World, turn: u32, trace: &mut String) -> Result<(), AllocError> {
    let count = world.copies(Way::Down);
    if count == 0 {
        return Ok(());
    }
    trace.push_str(format!(in alloc; "turn {turn} ")?.as_str())?;
    for i in 0..count {
        put_bytes(alloc, world.copy(Way::Down, i).as_slice(), trace)?;
    }
    trace.push_str("\n")
}

/// All blocks under way come to the board, whose clock has 16,000 ticks a turn, it runs to the end of the
/// turn, and all its blocks come to the host.
fn pass(world: &mut World, turn: u32) -> Result<(), AllocError> {
    for _ in 0..world.copies(Way::Down) {
        happen(world, Event::Arrive)?;
    }
    happen(world, Event::Pass(16_000 * (u64::from(turn) + 1)))?;
    for _ in 0..world.copies(Way::Up) {
        happen(world, Event::Reply)?;
        happen(world, Event::LoseReply)?;
    }
    Ok(())
}

/// A board of 16 MHz and its link, on which nothing has happened.
fn start(alloc: Global) -> Result<World, AllocError> {
    let board = BoardDef {
        name: Name::new(b"mcu"),
        freq: 16_000_000,
        start: 0,
        slots: 1_024,
        drift: 0,
        pins: Listed::new(alloc),
    };
    World::new(alloc, &board, Vec::new(alloc))
}

/// Adds the trace of 1,200 turns.
fn put_turns(alloc: Global, world: &mut World, trace: &mut String) -> Result<(), AllocError> {
    for turn in 0..1_200 {
        order(alloc, world, turn)?;
        put_line(alloc, world, turn, trace)?;
        pass(world, turn)?;
    }
    Ok(())
}

/// The trace of a new board and its link.
fn traced(alloc: Global) -> Result<String, AllocError> {
    let mut trace = String::new(alloc);
    let mut world = start(alloc)?;
    put_turns(alloc, &mut world, &mut trace)?;
    Ok(trace)
}

#[test]
fn one_move_is_sent(rt: HostRuntime) -> Result<(), Fail> {
    let trace = traced(rt.alloc())?;
    assert_eq!(rt; trace.as_str(), TRACE);
    Ok(())
}
