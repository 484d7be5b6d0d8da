//! The queue of a digital output on a board: levels with clocks of 32 bits, and the longest time that the
//! output stays on without a further command.

ghost use Rattle.std.specs.Prelude.{◌≡◌, ◌⊎◌, ◌↔◌, ℕ, ◌^◌, ◌<◌, ◌≤◌, ◌+◌, [], ◌∷◌, ◌++◌, length, List, IfOk, IfErr, IfSome, IfNone, IsOk, OnOk, OnErr, Some, None, true, false};
ghost use Rattle.plan_types.specs.Board.{nearest};
ghost use Rattle.plan_types.specs.Clock.{tick_limit};
ghost use Rattle.digital_out.specs.declared.want.Want.{Want};
ghost use Rattle.digital_out.specs.Calls.{new_queue};
ghost use Rattle.digital_out.specs.Outputs as specs;
ghost use Rattle.digital_out.specs.Outputs.{output_behind, event_next, missed_of, with_time, with_want};

use crate::want::Want;
use board_step::nearest_tick;
use circular_buffer::HeapCircularBuffer;
use std::alloc::{AllocError, Global};
use std::marker::Model;

/// Why a queue refuses a command.
#[derive(Clone, Copy, Debug, PartialEq, Eq, thiserror::Error)]
pub enum OutRefusal {
    #[error("Move queue overflow")]
    Overflow,
    #[error("Timer too close")]
    TooClose,
}

/// What happens at an output.
#[derive(Clone, Copy, Debug, PartialEq, Eq)]
pub enum OutWhat {
    On,
    Off,
    /// It was left on for too long, and is off from now on.
    Missed,
}

/// What happens at an output at a tick.
#[derive(Clone, Copy, Debug, PartialEq, Eq)]
pub struct OutEvent {
    pub tick: u64,
    pub what: OutWhat,
}

/// The commands of an output that pend. Contracts see its size, how many ticks it may stay on, the time up to
/// which it was run, the commands, the level, the tick of the last command that was carried out, and whether
/// it was missed.
#[derive(Drop)]
pub struct OutQueue {
    waiting: HeapCircularBuffer<Want>,
    max: u64,
    time: u64,
    level: bool,
    last: u64,
    missed: bool,
}

impl Model for OutQueue {
    ghost use Rattle.digital_out.specs.Outputs.{Output};

    ghost Value = { Output };

    ghost view = { λ q. record {
      slots = q.waiting.capacity;
      max = q.max;
      time = q.time;
      pending = q.waiting.items;
      level = q.level;
      last = q.last;
      missed = q.missed;
    } };
}

/// What carrying out a command is.
fn event_of(want: Want) -> OutEvent
    ensures { result ≡ specs.event_of want }
{
    OutEvent {
        tick: want.tick,
        what: if want.on { OutWhat::On } else { OutWhat::Off },
    }
}

/// Whether a command that pends comes behind the tick at which the output is missed, where there is one.
fn comes_late(miss: Option<u128>, tick: u64) -> bool
    ensures { result ≡ specs.comes_late miss tick }
{
    match miss {
        Some(at) => at < u128::from(tick),
        None => false,
    }
}

impl OutQueue {
    /// An empty queue for so many commands, whose output is off and may stay on for so many ticks.
    pub fn new(alloc: Global, slots: u32, max: u64) -> Result<Self, AllocError>
        ensures { IfOk result (λ q. q ≡ new_queue slots max) }
    {
        Ok(OutQueue {
            waiting: HeapCircularBuffer::with_capacity(alloc, slots as usize)?,
            max,
            time: 0,
            level: false,
            last: 0,
            missed: false,
        })
    }

    /// The level of the output.
    pub fn level(&self) -> bool
        ensures { result ≡ self.now.level }
    {
        self.level
    }

    /// Whether a tick is before now, or not behind the last command that pends.
    fn is_too_close(&self, now: u64, tick: u64) -> bool
        ensures { result ≡ specs.is_too_close self.now.pending now tick }
    {
        match self.waiting.back() {
            Some(last) => tick < now || tick <= last.tick,
            None => tick < now,
        }
    }

    /// Adds a command at the tick that is nearest to now and has this clock. An output that was missed
    /// ignores it. It is refused where the queue is full, then where its tick is before now or not behind the
    /// last command that pends.
    pub fn push(&mut self, now: u64, clock: u32, on: bool) -> Result<(), OutRefusal>
        requires small { now < tick_limit }
        requires later { self.old.time ≤ now }
        ensures ok { OnOk result (specs.pushed self.old now clock on ≡ Ok self.new) }
        ensures err { IfErr result (λ e. specs.pushed self.old now clock on ≡ Err e) }
        ensures unchanged { OnErr result (self.new ≡ self.old) }
    {
        if self.missed {
            self.time = now;
            return Ok(());
        }
        if self.waiting.len() >= self.waiting.capacity() {
            return Err(OutRefusal::Overflow);
        }
        let tick = nearest_tick(now, u64::from(clock));
        if self.is_too_close(now, tick) {
            return Err(OutRefusal::TooClose);
        }
        self.time = now;
        if self.waiting.try_push_back(Want { tick, on }).is_err() {
            unreachable!()
        }
        Ok(())
    }

    /// The tick at which the output is missed where no further command comes.
    fn miss(&self) -> Option<u128>
        ensures { result ≡ missed_of self.now.max self.now.level self.now.last }
    {
        if self.level {
            Some(u128::from(self.last) + u128::from(self.max))
        } else {
            None
        }
    }

    /// What happens next, before a tick.
    pub fn advance(&mut self, until: u64) -> Option<OutEvent>
        requires small { until < tick_limit }
        requires later { self.old.time ≤ until }
        ensures some { IfSome result (λ e. event_next until self.old ≡ Some e) }
        ensures none { IfNone result (event_next until self.old ≡ None) }
        ensures behind { self.new ≡ output_behind until self.old }
    {
        self.time = until;
        if self.missed {
            return None;
        }
        let miss = self.miss();
        match self.waiting.front() {
            Some(next) if !comes_late(miss, next.tick) => {
                let next = *next;
                if next.tick >= until {
                    return None;
                }
                self.waiting.pop_front();
                self.level = next.on;
                self.last = next.tick;
                Some(event_of(next))
            }
            _ => {
                let at = miss?;
                if at >= u128::from(until) {
                    return None;
                }
                self.missed = true;
                self.level = false;
                self.waiting.clear();
                Some(OutEvent {
                    tick: at as u64,
                    what: OutWhat::Missed,
                })
            }
        }
    }
}
