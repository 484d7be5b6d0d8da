use board_step::{StepQueue, StepRefusal, run_to};
use plan_types::{Planned, Triple};
use std::alloc::{AllocError, Global};
use std::test::Fail;

fn triple(interval: u32, count: u16, add: i16) -> Triple {
    Triple {
        interval,
        count,
        add,
    }
}

/// Ticks are before this.
const LIMIT: u64 = 1 << 62;

/// Whether a triple that comes at a tick is answered so.
fn answers(queue: &mut StepQueue, now: u64, t: Triple, wanted: Result<(), StepRefusal>) -> bool {
    now < LIMIT && queue.push(now, t) == wanted
}

fn takes(queue: &mut StepQueue, now: u64, t: Triple) -> bool {
    answers(queue, now, t, Ok(()))
}

fn refuses(queue: &mut StepQueue, now: u64, t: Triple, refusal: StepRefusal) -> bool {
    answers(queue, now, t, Err(refusal))
}

fn resets(queue: &mut StepQueue, now: u64, clock: u32) -> bool {
    queue.reset(now, clock) == Ok(())
}

fn is_active(queue: &mut StepQueue, now: u64) -> bool {
    queue.reset(now, 0) == Err(StepRefusal::Active)
}

/// Whether this step is next before a tick.
fn gives(queue: &mut StepQueue, until: u64, wanted: Option<Planned>) -> bool {
    until < LIMIT && queue.advance(until) == wanted
}

/// The first tick of a triple that comes at a tick.
fn first_tick(queue: &StepQueue, now: u64, t: Triple) -> Option<u64> {
    if now >= LIMIT {
        return None;
    }
    Some(queue.first_tick(now, t.interval))
}

/// A step that is 2^32 ticks and more behind the last one.
const ONE: Triple = Triple {
    interval: 1_010_065_408,
    count: 1,
    add: 0,
};

/// Whether the first triples are refused and taken as they should.
fn refuses_first(queue: &mut StepQueue) -> bool {
    resets(queue, 0, 5_000)
        && refuses(
            queue,
            9_596_005_000,
            triple(1, 0, 0),
            StepRefusal::ZeroCount,
        )
        && refuses(queue, 9_600_005_001, ONE, StepRefusal::TooClose)
        && first_tick(queue, 9_600_005_001, ONE) == Some(9_600_005_000)
        && takes(queue, 9_596_005_000, ONE)
        && is_active(queue, 9_596_005_000)
}

/// Whether there is room for 63 more, and for no other.
fn overflows(queue: &mut StepQueue) -> bool {
    let mut all = true;
    for _ in 1..64 {
        all = all && takes(queue, 9_596_005_000, triple(100, 2, 0));
    }
    all && refuses(queue, 9_596_005_000, ONE, StepRefusal::Overflow)
}

/// The first step.
const FIRST: Planned = Planned {
    tick: 9_600_005_000,
    up: false,
};

#[test]
fn refusals_come_in_their_order(rt: HostRuntime) -> Result<(), Fail> {
    let mut queue = StepQueue::new(rt.alloc(), 64)?;
    assert!(rt; refuses_first(&mut queue));
    assert!(rt; overflows(&mut queue));
    assert!(rt; gives(&mut queue, 9_600_005_000, None));
    assert!(rt; gives(&mut queue, 9_600_005_001, Some(FIRST)));
    Ok(())
}

/// A triple that is dropped by a stop, and one that is ignored behind it; then it is taken.
fn halts(queue: &mut StepQueue, t: Triple) -> bool {
    queue.next_dir(true);
    let pushed = takes(queue, 0, t);
    queue.stop();
    pushed
        && takes(queue, 0, t)
        && gives(queue, 10_000_000_000, None)
        && resets(queue, 0, 1_000)
        && takes(queue, 0, t)
}

/// Whether a queue makes steps up at these ticks.
fn makes(alloc: Global, queue: &mut StepQueue, ticks: &[u64]) -> Result<bool, AllocError> {
    let mut made = Vec::new(alloc);
    run_to(queue, 10_000_000_000, &mut made)?;
    Ok(are_up_at(made.as_slice(), ticks))
}

fn are_up_at(made: &[Planned], ticks: &[u64]) -> bool {
    let mut same = made.len() == ticks.len();
    for (step, tick) in made.iter().zip(ticks) {
        same = same && step.tick == *tick && step.up;
    }
    same
}

#[test]
fn gaps_grow_shrink_and_wrap(rt: HostRuntime) -> Result<(), Fail> {
    let alloc = rt.alloc();
    let mut queue = StepQueue::new(alloc, 64)?;
    assert!(rt; halts(&mut queue, triple(100, 3, 10)));
    assert!(rt; makes(alloc, &mut queue, &[1_100, 1_210, 1_330])?);
    assert!(rt; halts(&mut queue, triple(100, 2, -200)));
    assert!(rt; makes(alloc, &mut queue, &[1_100, 4_294_968_296])?);
    Ok(())
}
