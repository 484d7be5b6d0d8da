//! Lanes between real threads, and a lane that is settled with messages in it.
ghost use Rattle.std.specs.Prelude.{◌≡◌, ◌+◌, ◌<◌, [], length, IfOk};
ghost use Rattle.lane_queue.specs.Order.{RunsFrom, IsPrefix};
ghost use Rattle.lane_queue.specs.Ends.{IsSendOf, IsTakeOf, next_put, next_take, room};

use super::*;
use plan_types::Numbered;
use std::alloc::{AllocError, Global};
use std::sync::Wait;
use std::test::*;
use std::thread;
use std::thread::{Promise, Scope, Threads};

/// The number of each lane's first message.
const FIRST: u64 = 7;

/// A message with a body that its number alone doesn't make.
#[derive(Drop)]
struct Word {
    number: u64,
    body: u64,
}

impl Numbered for Word {
    ghost number = { λ w. w.number };

    fn number(&self) -> u64 {
        self.number
    }
}

/// The body of the message that stands at a place.
fn body(place: u64) -> u64 {
    place.wrapping_mul(0x9E37_79B9_7F4A_7C15)
}

fn put_all<R: Wait>(rt: &R, lane: &Lane<Word>, pass: SendPass<Word>, count: u32) -> SendPass<Word>
    requires { IsSendOf lane.now pass × (next_put pass ≡ 7) }
    ensures { IsSendOf lane.now result }
{
    let mut pass = pass;
    for place in 0..u64::from(count) {
        let word = Word {
            number: FIRST + place,
            body: body(place),
        };
        lane.put(rt, &mut pass, word);
    }
    pass
}

/// Takes so many messages; whether each was the one that stands at its place.
fn take_all<R: Wait>(
    rt: &R,
    lane: &Lane<Word>,
    pass: TakePass<Word>,
    count: u32,
) -> (TakePass<Word>, bool)
    requires { IsTakeOf lane.now pass × (next_take pass ≡ 7) }
    ensures { IsTakeOf lane.now result.0 }
{
    let mut pass = pass;
    let mut in_order = true;
    for place in 0..u64::from(count) {
        let word = lane.take(rt, &mut pass);
        in_order = in_order && word.number() == FIRST + place && word.body == body(place);
    }
    (pass, in_order)
}

/// The thread that puts gives the pass of this lane back.
#[derive(Drop)]
struct PassOf<'a> {
    lane: &'a Lane<Word>,
}

impl<'a> Promise<SendPass<Word>> for PassOf<'a> {
    ghost use Rattle.lane_queue.specs.Ends.{IsSendOf};

    ghost kept_by = { λ p r. IsSendOf p.lane.now r };
}

/// Puts in a thread of its own and takes here. None where no thread can be made.
fn between<'s, E, R: Threads + Wait + Sync>(
    rt: &'s R,
    scope: &Scope<'s, E>,
    lane: &'s Lane<Word>,
    send: SendPass<Word>,
    take: TakePass<Word>,
    count: u32,
) -> Option<bool>
    requires { IsSendOf lane.now send × (next_put send ≡ 7) × IsTakeOf lane.now take × (next_take take ≡ 7) }
{
    let handle = scope
        .spawn_with(
            PassOf { lane },
            move || -> SendPass<Word>
                requires { IsSendOf lane.now send × (next_put send ≡ 7) }
                ensures { IsSendOf lane.entry.now result }
            { put_all(rt, lane, send, count) },
        )
        .ok()?;
    let (take, in_order) = take_all(rt, lane, take, count);
    let send = handle.join(rt);
    let _settled = lane.settle(send, take);
    Some(in_order)
}

fn through<R: Threads + Wait + Sync>(
    rt: &R,
    alloc: Global,
    capacity: u32,
    count: u32,
) -> Result<Option<bool>, AllocError>
    requires { 0 < capacity }
{
    let (lane, send, take) = lane::<Word>(alloc, capacity, FIRST)?;
    let lane = &lane;
    Ok(thread::scope(
        thread::scope_env(),
        rt,
        move |scope| -> Option<bool>
            requires { IsSendOf lane.now send × (next_put send ≡ 7) × IsTakeOf lane.now take × (next_take take ≡ 7) }
        { between(rt, scope, lane, send, take, count) },
    ))
}

#[test]
fn threads_take_what_was_put(rt: HostRuntime) -> Result<(), Fail> {
    for (capacity, count) in [(1, 200_000), (80, 300_000)] {
        let in_order = through(&rt, rt.alloc(), capacity, count)?;
        assert_eq!(rt; in_order, Some(true), "capacity {capacity}");
    }
    Ok(())
}

/// Four messages are put and two taken, and then the passes are put together.
fn settled_early<R: Wait>(rt: &R, alloc: Global) -> Result<(Settled<Word>, u64), AllocError>
    ensures put { IfOk result (λ r. (length r.0.0 ≡ 4) × RunsFrom (λ w. w.number) 7 r.0.0) }
    ensures taken { IfOk result (λ r. (length r.0.1 ≡ 2) × IsPrefix r.0.1 r.0.0) }
{
    let (lane, mut send, mut take) = lane::<Word>(alloc, 8, FIRST)?;
    for place in 0..4 {
        let word = Word {
            number: FIRST + place,
            body: body(place),
        };
        lane.put(rt, &mut send, word);
    }
    let first = lane.take(rt, &mut take);
    let second = lane.take(rt, &mut take);
    let sum = first.number().wrapping_add(second.number());
    Ok((lane.settle(send, take), sum))
}

#[test]
fn settles_with_messages_left(rt: HostRuntime) -> Result<(), Fail> {
    let (_settled, sum) = settled_early(&rt, rt.alloc())?;
    assert_eq!(rt; sum, 15);
    Ok(())
}

/// A message is handed, and one is put and taken behind it.
fn handed_first<R: Wait>(rt: &R, alloc: Global) -> Result<(Settled<Word>, u64), AllocError>
    ensures put { IfOk result (λ r. (length r.0.0 ≡ 2) × RunsFrom (λ w. w.number) 7 r.0.0) }
    ensures taken { IfOk result (λ r. length r.0.1 ≡ 2) }
{
    let (lane, mut send, mut take) = lane::<Word>(alloc, 8, FIRST)?;
    let first = Word {
        number: FIRST,
        body: body(0),
    };
    lane.hand(&mut send, &mut take, &first);
    let next = Word {
        number: FIRST + 1,
        body: body(1),
    };
    lane.put(rt, &mut send, next);
    let second = lane.take(rt, &mut take);
    let sum = first.number().wrapping_add(second.number());
    Ok((lane.settle(send, take), sum))
}

#[test]
fn hands_what_no_lane_holds(rt: HostRuntime) -> Result<(), Fail> {
    let (_settled, sum) = handed_first(&rt, rt.alloc())?;
    assert_eq!(rt; sum, 15);
    Ok(())
}
