ghost use Rattle.std.specs.Prelude.{◌≡◌, ◌<◌, ◌≤◌, ◌^◌, All, IfOk};
ghost use Rattle.plan_types.specs.Clock.{tick_limit};
ghost use Rattle.step_feed.specs.Pacing.{turn_limit};

use clock_line::Lines;
use msg_code::Unit;
use plan_types::{Line, Triple};
use std::alloc::{AllocError, Global};
use std::test::Fail;
use step_feed::{Batches, FeedStream, feed, spill, unit_bytes};

/// 16 MHz from the session's start on.
const LINE: Line = Line {
    at: 0,
    clock: 0,
    freq: 16_000_000,
};

/// The tick of step i of one millimetre at 10 mm/s, counted from 0, behind the base tick 20,160,000.
fn step(i: u32) -> u64
    requires { i ≤ 80 }
    ensures { result < 2 ^ 32 }
{
    match i {
        0 => 20_192_660,
        79 => 21_780_672,
        _ => 20_196_666 + 20_000 * u64::from(i),
    }
}

/// The unit of that step.
fn unit(i: u32) -> Unit
    requires { i < 80 }
    ensures last { result.last < tick_limit }
    ensures due { result.due < turn_limit }
{
    let tick = step(i);
    let before = if i == 0 { 20_160_000 } else { step(i - 1) };
    Unit {
        stepper: 0,
        first: tick,
        last: tick,
        due: tick / 16_000,
        triple: Triple {
            interval: tick.saturating_sub(before) as u32,
            count: 1,
            add: 0,
        },
        up: if i == 0 { Some(true) } else { None },
        reset: if i == 0 { Some(20_160_000) } else { None },
    }
}

/// All eighty units.
fn units(alloc: Global) -> Result<Vec<Unit>, AllocError>
    ensures last { IfOk result (λ us. All (λ u. u.last < tick_limit) us.items) }
    ensures due { IfOk result (λ us. All (λ u. u.due < turn_limit) us.items) }
{
    let mut units = Vec::new(alloc);
    for i in 0..80 {
        units.push(unit(i))?;
    }
    Ok(units)
}

/// The intervals of some units, the first ones in the lowest place.
fn intervals(units: &[Unit]) -> (usize, u32, u32) {
    match units {
        [] => (0, 0, 0),
        [one] => (1, one.triple.interval, 0),
        [one, .., last] => (units.len(), one.triple.interval, last.triple.interval),
    }
}

/// A turn, and the intervals of the units that are released in it.
type Released = (u64, (usize, u32, u32));

const RELEASED: [Released; 8] = [
    (1011, (0, 0, 0)),
    (1012, (1, 32_660, 0)),
    (1013, (1, 24_006, 0)),
    (1014, (1, 20_000, 0)),
    (1015, (0, 0, 0)),
    (1016, (1, 20_000, 0)),
    (1111, (1, 24_006, 0)),
    (1112, (0, 0, 0)),
];

/// The whole pacing of the eighty units.
fn fed(alloc: Global) -> Result<Batches, AllocError> {
    let lines = Lines::new(alloc, LINE);
    let units = units(alloc)?;
    feed(alloc, &units, &lines, 1024, 1012)
}

/// The first turn in which others are released.
fn first_wrong(batches: &Batches, rows: &[Released]) -> Option<u64> {
    for (turn, wanted) in rows {
        if intervals(batches.at(*turn)) != *wanted {
            return Some(*turn);
        }
    }
    None
}

/// The stream of the eighty units.
fn stream(alloc: Global) -> Result<FeedStream, Fail> {
    let mut stream = FeedStream::new(alloc, 1024, 1012);
    for i in 0..80 {
        let unit = unit(i);
        if !stream.takes(unit.due) {
            return Err(Fail::from("not in time"));
        }
        stream.push(unit)?;
    }
    Ok(stream)
}

/// What a stream releases in a turn, where that is the next one.
fn taken(
    alloc: Global,
    stream: &mut FeedStream,
    turn: u64,
) -> Result<Option<(usize, u32, u32)>, AllocError> {
    if turn != stream.next_turn() || turn > 2_000 {
        return Ok(None);
    }
    let units = stream.take(&Lines::new(alloc, LINE), turn)?;
    Ok(Some(intervals(&units)))
}

/// The first turn in which a stream releases others.
fn first_wrong_of(
    alloc: Global,
    stream: &mut FeedStream,
    rows: &[Released],
) -> Result<Option<u64>, AllocError> {
    for (turn, wanted) in rows {
        if taken(alloc, stream, *turn)? != Some(*wanted) {
            return Ok(Some(*turn));
        }
    }
    Ok(None)
}

/// Whether a unit that is released in a turn is due 250 turns later, so that nothing holds it back.
fn is_in_time(unit: &Unit, turn: u64) -> bool {
    if turn > 2_000 || unit.due > turn + 250 {
        return false;
    }
    spill(unit, turn) == 0
}

/// How many units are released from a turn on before another one, each in time.
fn in_time(batches: &Batches, from: u64, to: u64) -> usize {
    let mut count = 0_usize;
    for turn in from..to {
        for unit in batches.at(turn) {
            if is_in_time(unit, turn) {
                count = count.saturating_add(1);
            }
        }
    }
    count
}

#[test]
fn one_move_is_paced(rt: HostRuntime) -> Result<(), Fail> {
    let batches = fed(rt.alloc())?;
    assert_eq!(rt; first_wrong(&batches, &RELEASED), None);
    assert_eq!(rt; in_time(&batches, 1_012, 1_112), 80);
    assert_eq!(rt; unit_bytes(&unit(0)), 16);
    Ok(())
}

/// The turns from the first to the fifth in which the stream is asked.
#[test]
fn a_stream_paces_the_same(rt: HostRuntime) -> Result<(), Fail> {
    let mut stream = stream(rt.alloc())?;
    let wrong = first_wrong_of(rt.alloc(), &mut stream, &RELEASED[1..6])?;
    assert_eq!(rt; wrong, None);
    assert_eq!(rt; stream.next_turn(), 1017);
    Ok(())
}

/// A unit of seven bytes that is due in turn 300.
fn small(tick: u64) -> Unit
    requires { tick < 2 ^ 32 }
    ensures last { result.last < tick_limit }
    ensures due { result.due ≡ 300 }
{
    Unit {
        stepper: 0,
        first: tick,
        last: tick,
        due: 300,
        triple: Triple {
            interval: 20_000,
            count: 1,
            add: 0,
        },
        up: None,
        reset: None,
    }
}

/// Thirty-one of them, 300 ticks apart.
fn many(alloc: Global) -> Result<Vec<Unit>, AllocError>
    ensures last { IfOk result (λ us. All (λ u. u.last < tick_limit) us.items) }
    ensures due { IfOk result (λ us. All (λ u. u.due < turn_limit) us.items) }
{
    let mut units = Vec::new(alloc);
    for i in 0..31_u64 {
        units.push(small(4_800_000 + 300 * i))?;
    }
    Ok(units)
}

/// The whole pacing of these units, with so many slots.
fn fed_to(alloc: Global, slots: u32) -> Result<Batches, AllocError>
    requires { 1 ≤ slots }
{
    let lines = Lines::new(alloc, LINE);
    let units = many(alloc)?;
    feed(alloc, &units, &lines, slots, 0)
}

/// How many units are released in three turns.
fn counts(batches: &Batches, turns: [u64; 3]) -> [usize; 3] {
    turns.map(|turn| batches.at(turn).len())
}

/// By how many turns a unit with this tick that is released in a turn is later than it could be.
fn spilled(tick: u32, turn: u64) -> Option<u64> {
    if turn < 50 || turn > 1_000 {
        return None;
    }
    Some(spill(&small(u64::from(tick)), turn))
}

#[test]
fn turns_and_queues_are_bounded(rt: HostRuntime) -> Result<(), Fail> {
    // 210 bytes a turn are thirty units of seven
    let batches = fed_to(rt.alloc(), 1024)?;
    assert_eq!(rt; counts(&batches, [49, 50, 51]), [0, 30, 1]);
    // with twenty slots the others wait until the first ones are over, five turns after that of their ticks
    let batches = fed_to(rt.alloc(), 20)?;
    assert_eq!(rt; counts(&batches, [50, 304, 305]), [20, 0, 11]);
    Ok(())
}

#[test]
fn units_spill(rt: HostRuntime) {
    assert!(rt;
        spilled(4_800_000, 50) == Some(0)
            && spilled(4_809_000, 51) == Some(1)
            && spilled(4_809_000, 305) == Some(255)
    );
}
