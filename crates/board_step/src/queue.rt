//! The queue of a stepper.

ghost use Rattle.std.specs.Prelude.{◌≡◌, ℕ, ◌+◌, ◌^◌, ◌<◌, ◌≤◌, ◌↔◌, List, [], ◌∷◌, ◌++◌, length, IfOk, IfSome, IfNone, OnOk, OnErr, IfErr, IsOk, true, false};
ghost use Rattle.plan_types.specs.Clock.{tick_limit};
ghost use Rattle.plan_types.specs.Board.{nearest, steps_before, groups_from};
ghost use Rattle.board_step.specs.Steps.{Pending, IsFair, first_tick, ticks_at, with_ticks, queue_to, without_first, IsFirstStep, NoneBefore};

use super::{Current, Queued, StepRefusal, nearest_tick, started, stepped};
use circular_buffer::HeapCircularBuffer;
use plan_types::{Planned, Triple};
use std::alloc::{AllocError, Global};
use std::marker::Model;

/// The steps of a stepper that pend, as triples with clocks of 32 bits.
#[derive(Drop)]
pub struct StepQueue {
    current: Option<Current>,
    waiting: HeapCircularBuffer<Queued>,
    last: u64,
    up: bool,
    halted: bool,
}

impl Model for StepQueue {
    ghost use Rattle.std.specs.Prelude.{◌≡◌, ◌<◌, ◌^◌};
    ghost use Rattle.board_step.specs.Steps.{Pending};

    ghost Value = { Pending };

    ghost use Rattle.board_step.specs.Kept.{groups_of, IsSoundQueue};

    ghost view = { λ q. record {
      halted = q.halted;
      up = q.up;
      last = q.last;
      groups = groups_of q.current q.waiting.items;
      slots = q.waiting.capacity;
    } };

    ghost invariant = { λ q. IsSoundQueue q.current q.waiting.items q.waiting.capacity q.last };
}

impl StepQueue {
    /// An empty queue for so many triples, with the clock 0 before it. It takes its memory here.
    pub fn new(alloc: Global, slots: u32) -> Result<Self, AllocError>
        ensures { IfOk result (λ q. q ≡ record { halted = false; up = false; last = 0; groups = []; slots = slots }) }
    {
        Ok(StepQueue {
            current: None,
            waiting: HeapCircularBuffer::with_capacity(alloc, slots as usize)?,
            last: 0,
            up: false,
            halted: false,
        })
    }

    /// Sets the direction of the triples that come from now on.
    pub fn next_dir(&mut self, up: bool)
        ensures { self.new ≡ record self.old { up = up } }
    {
        self.up = up;
    }

    /// Drops all steps that pend, and halts: what comes is ignored up to the next reset.
    pub fn stop(&mut self)
        ensures { self.new ≡ record self.old { groups = []; halted = true } }
    {
        self.current = None;
        self.waiting.clear();
        self.halted = true;
    }

    /// Sets the clock behind which the next step stands, and ends the halt. Refused while steps pend.
    pub fn reset(&mut self, _now: u64, clock: u32) -> Result<(), StepRefusal>
        ensures active { result ≡ Err StepRefusal.Active ↔ (0 < length self.old.groups) }
        ensures only_active { IfErr result (λ e. e ≡ StepRefusal.Active) }
        ensures ok { OnOk result (self.new ≡ record self.old { last = clock; halted = false }) }
        ensures err { OnErr result (self.new ≡ self.old) }
    {
        if self.current.is_some() {
            return Err(StepRefusal::Active);
        }
        self.last = u64::from(clock);
        self.halted = false;
        Ok(())
    }

    /// Whether a step is before `until`.
    pub fn pends_before(&self, until: u64) -> bool
        ensures { result ≡ false → NoneBefore self.now.groups until }
    {
        match self.current {
            Some(current) => current.tick < until,
            None => false,
        }
    }

    /// Makes the next step, where its tick is before `until`.
    pub fn advance(&mut self, until: u64) -> Option<Planned>
        requires { until < tick_limit }
        ensures before { IfSome result (λ s. s.tick < until) }
        ensures first { IfSome result (λ s. IsFirstStep self.old.groups s.tick s.up) }
        ensures rest { IfSome result
            (λ s. self.new ≡ record self.old { groups = without_first self.old.groups; last = s.tick }) }
        ensures none { IfNone result (NoneBefore self.old.groups until) }
        ensures unchanged { IfNone result (self.new ≡ self.old) }
    {
        let current = self.current?;
        if current.tick >= until {
            return None;
        }
        self.last = current.tick;
        self.current = if current.more > 0 {
            Some(stepped(current))
        } else {
            match self.waiting.pop_front() {
                Some(queued) => Some(started(queued, current.tick + u64::from(queued.interval))),
                None => None,
            }
        };
        Some(Planned {
            tick: current.tick,
            up: current.up,
        })
    }

    /// The first tick of a triple with this interval that comes now, where no step pends.
    pub fn first_tick(&self, now: u64, interval: u32) -> u64
        requires { now < tick_limit }
        ensures { result ≡ nearest now (self.now.last + interval) }
    {
        nearest_tick(now, self.last + u64::from(interval))
    }

    /// Adds a triple; a halted queue ignores it. It is refused for a count of 0, then where the queue is
    /// full, then where no step pends and its first one would be before `now`. A fair triple is added as its
    /// whole ticks.
    #[tactic(auto, using(crate::proofs::Groups::length_groups))]
    pub fn push(&mut self, now: u64, t: Triple) -> Result<(), StepRefusal>
        requires { now < tick_limit }
        ensures halted { self.old.halted ≡ true → IsOk result × (self.new ≡ self.old) }
        ensures zero_count { result ≡ Err StepRefusal.ZeroCount ↔ ((self.old.halted ≡ false) × (t.count ≡ 0)) }
        ensures overflow { result ≡ Err StepRefusal.Overflow
            ↔ ((self.old.halted ≡ false) × (0 < t.count) × (self.old.slots ≤ length self.old.groups)) }
        ensures too_close { result ≡ Err StepRefusal.TooClose
            ↔ ((self.old.halted ≡ false) × (0 < t.count) × (length self.old.groups < self.old.slots)
            × (self.old.groups ≡ []) × (nearest now (self.old.last + t.interval) < now)) }
        ensures not_active { IfErr result (λ e. ¬ (e ≡ StepRefusal.Active)) }
        ensures ok { OnOk result (self.old.halted ≡ false →
            self.new ≡ with_ticks self.old (ticks_at (first_tick now self.old.last t.interval self.old.groups) t)) }
        ensures whole { OnOk result (self.old.halted ≡ false → (ticks : List ℕ) → IsFair now self.old t ticks →
            self.new ≡ with_ticks self.old ticks) }
        ensures err { OnErr result (self.new ≡ self.old) }
    {
        if self.halted {
            return Ok(());
        }
        if t.count == 0 {
            return Err(StepRefusal::ZeroCount);
        }
        let queued = Queued {
            interval: t.interval,
            more: t.count - 1,
            add: t.add,
            up: self.up,
        };
        match self.current {
            Some(_running) => {
                if self.waiting.len() + 1 >= self.waiting.capacity() {
                    return Err(StepRefusal::Overflow);
                }
                self.waiting.push_back(queued);
            }
            None => {
                if self.waiting.capacity() == 0 {
                    return Err(StepRefusal::Overflow);
                }
                let first = nearest_tick(now, self.last + u64::from(t.interval));
                if first < now {
                    return Err(StepRefusal::TooClose);
                }
                self.current = Some(started(queued, first));
            }
        }
        Ok(())
    }
}

/// Makes every step before `until`, in order, and appends them.
pub fn run_to(queue: &mut StepQueue, until: u64, out: &mut Vec<Planned>) -> Result<(), AllocError>
    requires { until < tick_limit }
    ensures made { OnOk result (out.new.items ≡ out.old.items ++ steps_before until queue.old.groups) }
    ensures queue { OnOk result (queue.new ≡ queue_to until queue.old) }
{
    while let Some(step) = queue.advance(until) {
        out.push(step)?;
    }
    Ok(())
}
