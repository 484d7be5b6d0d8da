//! A board and its link, of which the lines lose and repeat blocks.

use board_world::{Event, World};
use msg_code::{Batch, Cmd, Control, Unit};
use plan_types::{BoardDef, BoardState, Listed, Name, Pulse, Triple};
use std::alloc::{AllocError, Global};
use std::test::Fail;
use wire_scene::Way;

/// A board of 16 MHz to which nothing was told.
fn new_world(alloc: Global) -> Result<World, AllocError> {
    let definition = BoardDef {
        name: Name::new(b"mcu"),
        freq: 16_000_000,
        start: 0,
        slots: 1_024,
        drift: 0,
        pins: Listed::new(alloc),
    };
    World::new(alloc, &definition, Vec::new(alloc))
}

/// Lets an event happen, where it may.
fn act(world: &mut World, e: Event) -> Result<bool, AllocError> {
    if !world.can_step(&e) {
        return Ok(false);
    }
    world.step(e)?;
    Ok(true)
}

fn control(alloc: Global, command: Cmd) -> Result<Event, AllocError> {
    let mut commands = Listed::new(alloc);
    commands.push(command)?;
    Ok(Event::Control(Control {
        turn: 0,
        commands,
        connected: false,
        end: false,
    }))
}

fn put(alloc: Global, unit: Unit) -> Result<Event, AllocError> {
    let mut units = Listed::new(alloc);
    units.push(unit)?;
    Ok(Event::Put(Batch {
        turn: 0,
        units,
        end: false,
    }))
}

fn make_stepper(alloc: Global) -> Result<Event, AllocError> {
    control(
        alloc,
        Cmd::ConfigStepper {
            oid: 0,
            step_pin: 0,
            dir_pin: 0,
            invert_step: 0,
            step_pulse_ticks: 0,
        },
    )
}

fn copies(world: &World, way: Way) -> usize {
    world.copies(way)
}

/// How many blocks were sent, and the number of the oldest that isn't acknowledged.
fn blocks(world: &World) -> (u64, u64) {
    (world.sent(), world.acked())
}

/// Whether a resend is due in a turn.
fn due(world: &mut World, turn: u64) -> bool {
    world.due(turn)
}

fn is_idle(world: &World) -> bool {
    world.idle()
}

/// Whether the board runs, and the last block ends with a `get_uptime`.
fn runs_on(world: &World) -> bool {
    world.state() == BoardState::Running && world.closed()
}

/// Whether the board made these pulses when it was run on last, and stands at a tick.
fn made(world: &World, pulses: &[Pulse], tick: u64) -> bool {
    world.pulses() == pulses && world.tick() == tick
}

/// The number on the wire of a block under way, and whether it has no content.
fn header(world: &World, way: Way, i: usize) -> Option<(u8, bool)> {
    if i >= world.copies(way) {
        return None;
    }
    let block = world.copy(way, i);
    let byte = *block.as_slice().get(1)?;
    Some((byte % 16, block.len() == 5))
}

/// Lets the same happen so many times; whether it could.
fn times(
    alloc: Global,
    world: &mut World,
    count: usize,
    choice: Choice,
) -> Result<bool, AllocError> {
    let mut all = true;
    for _ in 0..count {
        all &= act(world, event(alloc, choice)?)?;
    }
    Ok(all)
}

/// Twelve blocks of sixteen commands arrive, and their replies are lost.
fn replies_are_lost(alloc: Global, world: &mut World) -> Result<bool, AllocError> {
    let queued = times(alloc, world, 16, Choice::Uptime)?;
    let sent = times(alloc, world, 13, Choice::Send)? && copies(world, Way::Down) == 12;
    let arrived = times(alloc, world, 12, Choice::Arrive)? && copies(world, Way::Up) == 24;
    let lost = times(alloc, world, 24, Choice::LoseReply)? && copies(world, Way::Up) == 0;
    Ok(queued && sent && arrived && lost && blocks(world) == (12, 0))
}

/// The twelve blocks come again, and are dropped.
fn blocks_come_again(alloc: Global, world: &mut World) -> Result<bool, AllocError> {
    let is_due = !due(world, 3) && due(world, 4);
    let again = times(alloc, world, 1, Choice::Resend)? && !due(world, 5);
    let numbers = (0..12).all(|i| header(world, Way::Down, i) == Some((i as u8, false)));
    let arrived = times(alloc, world, 12, Choice::Arrive)? && copies(world, Way::Down) == 0;
    let answers = (0..12).all(|i| header(world, Way::Up, i) == Some((12, true)));
    Ok(is_due && again && numbers && arrived && answers && copies(world, Way::Up) == 12)
}

/// A reply comes, and four more blocks.
fn four_more_blocks(alloc: Global, world: &mut World) -> Result<bool, AllocError> {
    let replied = times(alloc, world, 1, Choice::Reply)? && blocks(world) == (12, 12);
    let sent = times(alloc, world, 4, Choice::Send)? && blocks(world) == (16, 12);
    let arrived = times(alloc, world, 4, Choice::Arrive)?;
    let answer = header(world, Way::Up, 18) == Some((0, false));
    let last = header(world, Way::Up, 19) == Some((0, true));
    let lost = times(alloc, world, 19, Choice::LoseReply)?;
    let heard = times(alloc, world, 1, Choice::Reply)? && blocks(world) == (16, 16);
    Ok(replied && sent && arrived && answer && last && lost && heard && is_idle(world))
}

/// All of it, on a world in which nothing has happened.
fn all_stages(alloc: Global, world: &mut World) -> Result<bool, AllocError> {
    let idle = is_idle(world);
    let lost = replies_are_lost(alloc, world)?;
    let again = blocks_come_again(alloc, world)?;
    let more = four_more_blocks(alloc, world)?;
    Ok(idle && lost && again && more && runs_on(world))
}

/// The same on a new one.
fn all_stages_first(alloc: Global) -> Result<bool, AllocError> {
    let mut world = new_world(alloc)?;
    all_stages(alloc, &mut world)
}

#[test]
fn twelve_lost_replies(rt: HostRuntime) -> Result<(), Fail> {
    assert!(rt; all_stages_first(rt.alloc())?);
    Ok(())
}

/// Four steps, of which the last three are each a little later.
const UNIT: Unit = Unit {
    stepper: 0,
    first: 5_000,
    last: 5_360,
    due: 0,
    triple: Triple {
        interval: 100,
        count: 4,
        add: 10,
    },
    up: Some(true),
    reset: Some(4_900),
};

/// A pulse up at a tick.
fn up_at(tick: u64) -> Pulse {
    Pulse {
        tick,
        stepper: 0,
        up: true,
    }
}

/// A unit is queued and arrives twice, and the board runs into its steps, and not back.
fn unit_arrives(alloc: Global, world: &mut World) -> Result<bool, AllocError> {
    let stepper = act(world, make_stepper(alloc)?)?;
    let queued = times(alloc, world, 1, Choice::Put(UNIT))?;
    let sent = times(alloc, world, 1, Choice::Send)?;
    let twice = times(alloc, world, 1, Choice::Repeat)? && times(alloc, world, 1, Choice::Arrive)?;
    let on = times(alloc, world, 1, Choice::Pass(5_110))?;
    let back = times(alloc, world, 1, Choice::Pass(5_000))?;
    Ok(stepper && queued && sent && twice && on && back)
}

/// Whether it makes its first step then, and the others as the board runs on.
fn makes_its_pulses(alloc: Global, world: &mut World) -> Result<bool, AllocError> {
    let first = unit_arrives(alloc, world)? && made(world, &[up_at(5_000)], 5_110);
    let on = times(alloc, world, 1, Choice::Pass(6_000))?;
    Ok(first && on && made(world, &[5_110, 5_230, 5_360].map(up_at), 6_000))
}

/// The same on a new world.
fn makes_its_pulses_first(alloc: Global) -> Result<bool, AllocError> {
    let mut world = new_world(alloc)?;
    makes_its_pulses(alloc, &mut world)
}

#[test]
fn a_unit_makes_its_pulses(rt: HostRuntime) -> Result<(), Fail> {
    assert!(rt; makes_its_pulses_first(rt.alloc())?);
    Ok(())
}

/// What happens next.
#[derive(Clone, Copy)]
enum Choice {
    Put(Unit),
    Uptime,
    Send,
    Resend,
    Arrive,
    Repeat,
    Reply,
    LoseReply,
    Pass(u64),
}

fn event(alloc: Global, choice: Choice) -> Result<Event, AllocError> {
    match choice {
        Choice::Put(unit) => put(alloc, unit),
        Choice::Uptime => control(alloc, Cmd::GetUptime),
        Choice::Send => Ok(Event::Send),
        Choice::Resend => Ok(Event::Resend),
        Choice::Arrive => Ok(Event::Arrive),
        Choice::Repeat => Ok(Event::Repeat),
        Choice::Reply => Ok(Event::Reply),
        Choice::LoseReply => Ok(Event::LoseReply),
        Choice::Pass(until) => Ok(Event::Pass(until)),
    }
}
