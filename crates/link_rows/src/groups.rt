//! Homing groups: what their members are sent, and how they answer.
ghost use Rattle.std.specs.Prelude.{◌≡◌, [], ◌∷◌};
ghost use Rattle.trigger_group.specs.Kept.{BoardsRise, StandApart, HasOneEndstop};

use arrayvec::ArrayVec;
use plan_types::TrigState;
use std::test::Fail;
use trigger_group::{Ctl, End, Group, Member, Order};

/// A board whose stepper 0 moves, and one with the endstop alone.
fn two() -> ArrayVec<Member, 8>
    ensures boards { BoardsRise result.items }
    ensures endstop { HasOneEndstop result.items }
    ensures apart { StandApart result.items }
{
    let mut members = ArrayVec::new();
    members.push(Member {
        board: 0,
        endstop: false,
        moving: 1,
    });
    members.push(Member {
        board: 1,
        endstop: true,
        moving: 0,
    });
    members
}

/// A group of these that starts in turn 1260, and whose last planned step is in this turn.
fn group(last: u16) -> Group {
    Group::new(two(), 1_260, u64::from(last).max(1_260))
}

fn can() -> TrigState {
    TrigState {
        can: true,
        reason: 0,
        clock: 7,
    }
}

fn cannot(reason: u8) -> TrigState {
    TrigState {
        can: false,
        reason,
        clock: 0,
    }
}

fn to(board: u8, what: Order) -> Ctl {
    Ctl { board, what }
}

/// A state of a board's trigger comes, with the tick at which it triggered and the turn in which it is told.
fn comes(group: &mut Group, board: u8, state: TrigState, tick: u64, turn: u64) {
    group.state_came(board, state, tick, turn);
}

/// Whether a turn has these orders.
fn orders(group: &mut Group, turn: u64, wanted: &[Ctl]) -> bool {
    group.turn(turn).as_slice() == wanted
}

/// Whether turns from one to before another have no orders.
fn says_nothing(group: &mut Group, from: u64, to: u64) -> bool {
    let mut none = true;
    for turn in from..to {
        none = none && orders(group, turn, &[]);
    }
    none
}

/// Whether a group answers so.
fn answers(group: &Group, wanted: Option<End>) -> bool {
    group.ended() == wanted
}

fn is_set_up(group: &mut Group) -> bool {
    let starts = [
        to(0, Order::Start),
        to(0, Order::Timeout(1_285)),
        to(0, Order::Stop(0)),
        to(1, Order::Start),
        to(1, Order::Timeout(1_285)),
    ];
    says_nothing(group, 1_000, 1_006)
        && orders(group, 1_006, &[to(0, Order::Reset(0))])
        && says_nothing(group, 1_007, 1_009)
        && orders(group, 1_009, &starts)
        && orders(group, 1_010, &[to(1, Order::Home)])
        && says_nothing(group, 1_011, 1_260)
}

fn lets_them_go_on(group: &mut Group) -> bool {
    comes(group, 1, cannot(2), 5, 1_259);
    let first = says_nothing(group, 1_260, 1_261);
    comes(group, 0, can(), 7, 1_265);
    let one = says_nothing(group, 1_266, 1_267);
    comes(group, 1, can(), 7, 1_270);
    let longer = [to(0, Order::Timeout(1_290)), to(1, Order::Timeout(1_290))];
    first && one && orders(group, 1_271, &longer)
}

fn relays_the_switch(group: &mut Group) -> bool {
    let relay = [to(0, Order::Trigger)];
    comes(group, 1, cannot(1), 84_487_960, 1_272);
    orders(group, 1_272, &relay)
        && says_nothing(group, 1_273, 1_276)
        && orders(group, 1_276, &relay)
        && answers(group, None)
}

/// The other board answers that it was stopped, and the group says nothing more.
fn ends(group: &mut Group) -> bool {
    comes(group, 0, cannot(3), 9, 1_276);
    answers(group, Some(End::Endstop { tick: 84_487_960 })) && says_nothing(group, 1_280, 1_281)
}

#[test]
fn a_switch_stops_the_other_board(rt: HostRuntime) -> Result<(), Fail> {
    let mut group = group(3_660);
    assert!(rt; is_set_up(&mut group) && lets_them_go_on(&mut group));
    assert!(rt; relays_the_switch(&mut group) && ends(&mut group));
    Ok(())
}

/// Turns up to the start, with whatever orders.
fn starts(group: &mut Group) {
    for turn in 1_006..1_260_u64 {
        group.turn(turn);
    }
}

/// The switch closes at once; its relay waits for four turns, and the other board had expired.
fn relays_late(group: &mut Group) -> bool {
    comes(group, 1, cannot(1), 20_160_720, 1_260);
    let waits = says_nothing(group, 1_260, 1_264);
    let relays = orders(group, 1_264, &[to(0, Order::Trigger)]);
    comes(group, 0, cannot(2), 9, 1_261);
    waits && relays && answers(group, Some(End::Endstop { tick: 20_160_720 }))
}

#[test]
fn relays_wait_for_the_fourth_turn(rt: HostRuntime) -> Result<(), Fail> {
    let mut group = group(1_260);
    starts(&mut group);
    assert!(rt; relays_late(&mut group));
    Ok(())
}

/// What a group answers of which the first board expired in a turn, and the other one says why in another.
fn expired(last: u16, turn: u64, reason: u8, later: u64) -> Option<End> {
    let mut group = group(last);
    comes(&mut group, 0, cannot(2), 20_560_000, turn);
    comes(&mut group, 1, cannot(reason), 7, later);
    group.ended()
}

#[test]
fn an_expired_member_answers_first(rt: HostRuntime) -> Result<(), Fail> {
    let end = End::Expired {
        board: 0,
        turn: 1_285,
    };
    assert!(rt; expired(3_660, 1_285, 1, 1_280) == Some(end));
    assert!(rt; expired(1_270, 1_271, 2, 1_271) == Some(End::NoSwitch));
    Ok(())
}
