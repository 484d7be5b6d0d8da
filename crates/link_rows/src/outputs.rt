//! A board's digital output, and the commands that keep it alive.

ghost use Rattle.std.specs.Prelude.{◌≡◌, ◌≤◌, ◌<◌, IfOk};
ghost use Rattle.plan_types.specs.Clock.{tick_limit};

use digital_out::{OutEvent, OutQueue, OutRefusal, OutWhat, Want, refreshed};
use std::alloc::{AllocError, Global};
use std::test::Fail;

/// What a queue answers to a command that comes at a tick.
#[tactic(auto, using(crate::proofs::OutputTimes::pushed_time))]
fn push(queue: &mut OutQueue, now: u64, clock: u32, on: bool) -> Result<(), OutRefusal>
    requires small { now < tick_limit }
    requires later { queue.old.time ≤ now }
    ensures { queue.new.time ≤ now }
{
    queue.push(now, clock, on)
}

/// What happens next, before a tick.
#[tactic(auto, using(crate::proofs::OutputTimes::behind_time))]
fn advance(queue: &mut OutQueue, until: u64) -> Option<OutEvent>
    requires small { until < tick_limit }
    requires later { queue.old.time ≤ until }
    ensures { queue.new.time ≤ until }
{
    queue.advance(until)
}

/// A queue of one slot, whose output may stay on for 100 ticks.
fn queue(alloc: Global) -> Result<OutQueue, AllocError>
    ensures { IfOk result (λ q. q.time ≡ 0) }
{
    OutQueue::new(alloc, 1, 100)
}

/// Whether a command is taken, and another one is not, since there is no room.
fn overflows(queue: &mut OutQueue) -> bool
    requires { queue.old.time ≡ 0 }
    ensures { queue.new.time ≤ 0 }
{
    push(queue, 0, 10, true) == Ok(()) && push(queue, 0, 20, true) == Err(OutRefusal::Overflow)
}

/// What happens at a tick.
fn at(tick: u64, what: OutWhat) -> Option<OutEvent> {
    Some(OutEvent { tick, what })
}

/// Whether the output goes on at the command's tick, and is missed as long behind that as it may be on.
fn is_missed(queue: &mut OutQueue) -> bool
    requires { queue.old.time ≤ 0 }
{
    let on = advance(queue, 50) == at(10, OutWhat::On);
    let none = advance(queue, 50) == None;
    let high = queue.level();
    on && none && high && advance(queue, 200) == at(110, OutWhat::Missed) && !queue.level()
}

#[test]
fn an_output_is_missed(rt: HostRuntime) -> Result<(), Fail> {
    let mut queue = queue(rt.alloc())?;
    assert!(rt; overflows(&mut queue));
    assert!(rt; is_missed(&mut queue));
    Ok(())
}

/// 2,500 turns of 16 MHz.
const EVERY: u64 = 40_000_000;

fn on(tick: u64) -> Want
    ensures { result.tick ≡ tick }
{
    Want { tick, on: true }
}

fn off(tick: u64) -> Want
    ensures { result.tick ≡ tick }
{
    Want { tick, on: false }
}

/// The commands of an output that is left on.
fn left_on(alloc: Global) -> Result<Vec<Want>, AllocError> {
    refreshed(alloc, &[on(20_160_000)], EVERY)
}

/// Those of one that goes on, off behind more than 2,500 turns, and on again.
fn switched(alloc: Global) -> Result<Vec<Want>, AllocError> {
    refreshed(
        alloc,
        &[on(20_160_000), off(80_000_000), on(90_000_000)],
        EVERY,
    )
}

/// It is on once more 2,500 turns behind the last command that is on, and off behind as many more.
#[test]
fn outputs_are_kept_alive(rt: HostRuntime) -> Result<(), Fail> {
    let alone = [on(20_160_000), on(60_160_000), off(100_160_000)];
    assert_eq!(rt; left_on(rt.alloc())?.as_slice(), alone.as_slice());
    let wanted = [
        on(20_160_000),
        on(60_160_000),
        off(80_000_000),
        on(90_000_000),
        on(130_000_000),
        off(170_000_000),
    ];
    assert_eq!(rt; switched(rt.alloc())?.as_slice(), wanted.as_slice());
    Ok(())
}
