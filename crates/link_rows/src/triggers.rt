//! Triggers: when they report, expire and trigger.

use board_trig::{Homing, Trig, TrigEvent};
use plan_types::{Level, Levels, TrigState};
use std::test::Fail;

/// An event at a tick below 2^32.
fn event(tick: u32, can: bool, reason: u8) -> Option<TrigEvent> {
    Some(TrigEvent {
        tick: u64::from(tick),
        state: told(can, reason, tick),
    })
}

fn told(can: bool, reason: u8, clock: u32) -> TrigState {
    TrigState { can, reason, clock }
}

/// A pin that rises at a tick.
fn rises(tick: u64) -> Level {
    Level { tick, level: true }
}

/// Four readings that are 720 ticks apart, from a tick on, and again each 4,800 ticks.
fn homing(clock: u32) -> Homing {
    Homing {
        clock,
        sample_ticks: 720,
        sample_count: 4,
        rest_ticks: 4_800,
        pin_value: 1,
        reason: 1,
    }
}

/// The same, 240 and 1,600 ticks apart.
fn homing_at_16_mhz(clock: u32) -> Homing {
    Homing {
        sample_ticks: 240,
        rest_ticks: 1_600,
        ..homing(clock)
    }
}

fn start(trig: &mut Trig, now: u32, report: u32, every: u32, expire: u8) {
    trig.start(u64::from(now), report, every, expire);
}

fn set_timeout(trig: &mut Trig, now: u32, clock: u32) {
    trig.set_timeout(u64::from(now), clock);
}

fn sample(trig: &mut Trig, now: u32, homing: Homing) {
    trig.sample(u64::from(now), homing);
}

fn trigger(trig: &mut Trig, now: u32, reason: u8) -> TrigState {
    trig.trigger(u64::from(now), reason)
}

/// Whether this happens next before a tick.
fn gives(trig: &mut Trig, until: u32, levels: &Levels, wanted: Option<TrigEvent>) -> bool {
    trig.advance(u64::from(until), levels) == wanted
}

/// Whether a report comes every 240,000 ticks, so many times.
fn reports(trig: &mut Trig, levels: &Levels, first: u32, count: u8) -> bool {
    let mut all = true;
    let mut tick = first;
    for _ in 0..count {
        tick = tick.saturating_add(240_000);
        all = all
            && gives(
                trig,
                tick.saturating_add(5_000),
                levels,
                event(tick, true, 0),
            );
    }
    all
}

/// A trigger that reports from 60,481,000 on, and an endstop that is read from then on.
fn started(trig: &mut Trig) -> bool {
    let none = !trig.can();
    start(trig, 48_433_000, 60_481_000, 240_000, 2);
    set_timeout(trig, 48_433_000, 85_000_000);
    sample(trig, 48_481_000, homing(60_481_000));
    none && trig.can()
}

/// Whether it reports until the switch triggers.
fn reports_until_the_switch(trig: &mut Trig, levels: &Levels) -> bool {
    gives(trig, 60_481_000, levels, None)
        && gives(trig, 60_481_001, levels, event(60_481_000, true, 0))
        && reports(trig, levels, 60_481_000, 100)
        && gives(trig, 85_000_001, levels, event(84_487_960, false, 1))
}

#[test]
fn switch_triggers_at_the_fourth_reading(rt: HostRuntime) -> Result<(), Fail> {
    let closes = [rises(84_481_100)];
    let levels = Levels::new(&closes);
    let mut trig = Trig::new();
    assert!(rt; started(&mut trig));
    assert!(rt; reports_until_the_switch(&mut trig, &levels) && !trig.can());
    Ok(())
}

/// A switch that bounces.
const BOUNCES: [Level; 3] = [
    Level {
        tick: 1_000,
        level: true,
    },
    Level {
        tick: 2_000,
        level: false,
    },
    Level {
        tick: 12_000,
        level: true,
    },
];

/// Whether it triggers once, behind the last bounce.
fn triggers_once(levels: &Levels) -> bool {
    let mut trig = Trig::new();
    start(&mut trig, 0, 0, 0, 2);
    sample(&mut trig, 0, homing(1_000));
    gives(&mut trig, 20_000, levels, event(17_560, false, 1))
        && gives(&mut trig, 1_000_000, levels, None)
}

#[test]
fn bounces_start_anew(rt: HostRuntime) -> Result<(), Fail> {
    assert!(rt; triggers_once(&Levels::new(&BOUNCES)));
    Ok(())
}

/// Whether a trigger that expires at the tick of a reading and of a report expires alone.
fn expires(levels: &Levels) -> bool {
    let mut trig = Trig::new();
    start(&mut trig, 0, 3_160, 100, 2);
    sample(&mut trig, 0, homing(1_000));
    set_timeout(&mut trig, 0, 3_160);
    gives(&mut trig, 10_000, levels, event(3_160, false, 2))
        && gives(&mut trig, 3_161, levels, event(3_160, false, 2))
        && gives(&mut trig, 3_260, levels, None)
}

#[test]
fn expiry_comes_before_a_switch_and_a_report(rt: HostRuntime) -> Result<(), Fail> {
    assert!(rt; expires(&Levels::new(&[rises(0)])));
    Ok(())
}

/// Whether a timeout that came late is told next, and ends what was started.
fn late_timeout(levels: &Levels) -> bool {
    let mut trig = Trig::new();
    set_timeout(&mut trig, 500, 400);
    let none = gives(&mut trig, 500, levels, None);
    start(&mut trig, 500, 0, 0, 7);
    set_timeout(&mut trig, 500, 500);
    none && gives(&mut trig, 500, levels, event(500, false, 7)) && stays_off(&mut trig)
}

/// Whether an order to trigger changes nothing, until there is a start.
fn stays_off(trig: &mut Trig) -> bool {
    let late = trigger(trig, 600, 3) == told(false, 7, 500);
    start(trig, 600, 0, 0, 7);
    late && trigger(trig, 600, 3) == told(false, 3, 600)
}

#[test]
fn late_timeout_is_told_next(rt: HostRuntime) -> Result<(), Fail> {
    assert!(rt; late_timeout(&Levels::new(&[])));
    Ok(())
}

/// Whether a switch that rises at a tick triggers at another, and not before.
fn triggers_at(homing: Homing, closes: u64, tick: u32) -> bool {
    let closes = [rises(closes)];
    let levels = Levels::new(&closes);
    let mut trig = Trig::new();
    start(&mut trig, 1_000, 0, 0, 2);
    sample(&mut trig, 1_000, homing);
    gives(&mut trig, tick, &levels, None)
        && gives(
            &mut trig,
            tick.saturating_add(1),
            &levels,
            event(tick, false, 1),
        )
}

#[test]
fn each_switch_triggers_at_its_tick(rt: HostRuntime) -> Result<(), Fail> {
    let early = homing_at_16_mhz(20_160_000);
    let late = homing_at_16_mhz(24_336_000);
    assert!(rt; triggers_at(early, 0, 20_160_720) && triggers_at(late, 0, 24_336_720));
    let tool = homing(60_481_000);
    assert!(rt;
        triggers_at(tool, 84_481_100, 84_487_960) && triggers_at(tool, 96_433_000, 96_435_160)
    );
    Ok(())
}
