//! The queue of steps of one stepper on a board: triples with clocks of 32 bits (Klipper's MCU_Commands.md,
//! "queue_step", "set_next_step_dir" and "reset_step_clock"), which contracts see as steps at whole ticks.
#![tactic(auto)]

ghost use Rattle.std.specs.Prelude.{◌≡◌, ℕ, ◌+◌, ◌%◌, ◌^◌, ◌<◌, ◌≤◌, List, ◌++◌};
ghost use Rattle.plan_types.specs.Clock.{tick_limit};
ghost use Rattle.plan_types.specs.declared.plan.Triple.{Triple};
ghost use Rattle.plan_types.specs.declared.plan.Planned.{Planned};
ghost use Rattle.plan_types.specs.Board.{Clocked, nearest, IsNear};
ghost use Rattle.board_step.specs.Steps.{Pending, IsFair, next_gap, first_tick, ticks_at};
ghost use Rattle.board_step.specs.Runs.{StepperCall, QueueStandsFor, AreFairCalls, queue_after_all, clocked_after_all, makes_all};
ghost use Rattle.board_step.specs.Kept.{group_of, current_ticks};

mod queue;

pub use queue::{StepQueue, run_to};

/// Why a step queue refuses a triple or a clock.
#[derive(Clone, Copy, Debug, PartialEq, Eq, thiserror::Error)]
pub enum StepRefusal {
    #[error("Move queue overflow")]
    Overflow,
    #[error("Invalid count parameter")]
    ZeroCount,
    #[error("Can't reset time when stepper active")]
    Active,
    #[error("Timer too close")]
    TooClose,
}

/// A triple that waits: one step, and so many more.
#[derive(Clone, Copy)]
struct Queued {
    interval: u32,
    more: u16,
    add: i16,
    up: bool,
}

/// The triple that runs: the tick of its next step, the gap behind it, and how many more steps there are.
#[derive(Clone, Copy)]
struct Current {
    tick: u64,
    gap: u32,
    more: u16,
    add: i16,
    up: bool,
}

/// The triple that runs, behind its next step.
fn stepped(current: Current) -> Current
    requires tick { current.tick < tick_limit }
    requires more { 0 < current.more }
    ensures tick { result.tick ≡ current.tick + current.gap }
    ensures gap { result.gap ≡ next_gap current.gap current.add }
    ensures more { result.more + 1 ≡ current.more }
    ensures add { result.add ≡ current.add }
    ensures up { result.up ≡ current.up }
{
    Current {
        tick: current.tick + u64::from(current.gap),
        gap: gap_behind(current.gap, current.add),
        more: current.more - 1,
        ..current
    }
}

/// A triple that waited, with its first step at this tick.
fn started(queued: Queued, tick: u64) -> Current
    ensures tick { result.tick ≡ tick }
    ensures ticks { current_ticks result ≡ (group_of tick queued).ticks }
    ensures up { result.up ≡ queued.up }
{
    Current {
        tick,
        gap: gap_behind(queued.interval, queued.add),
        more: queued.more,
        add: queued.add,
        up: queued.up,
    }
}

/// The gap behind this one, modulo 2^32.
fn gap_behind(gap: u32, add: i16) -> u32
    ensures { result ≡ next_gap gap add }
{
    gap.wrapping_add_signed(i32::from(add))
}

/// The tick nearest to `now` whose lower 32 bits are the clock's, the later one of two.
pub fn nearest_tick(now: u64, clock: u64) -> u64
    requires { now < tick_limit }
    ensures bound { result < tick_limit + 2 ^ 32 }
    ensures nearest { result ≡ nearest now clock }
{
    let ahead = (clock % (1 << 32) + (1 << 32) - now % (1 << 32)) % (1 << 32);
    if ahead > 1 << 31 && now + ahead >= 1 << 32 {
        now + ahead - (1 << 32)
    } else {
        now + ahead
    }
}

/// The law of nearest ticks: such a tick is near and has the clock, and no other near tick has it.
pub fn nearest_is_near()
    ensures near { (now clock : ℕ) → 2 ^ 31 ≤ now → IsNear now (nearest now clock) }
    ensures clock { (now clock : ℕ) → nearest now clock % 2 ^ 32 ≡ clock % 2 ^ 32 }
    ensures only { (now clock tick : ℕ) → IsNear now tick → tick % 2 ^ 32 ≡ clock % 2 ^ 32 → nearest now clock ≡ tick }
{}

/// The law of whole ticks: clocks of 32 bits tell the ticks of every fair triple.
pub fn whole_ticks()
    ensures { (now : ℕ) (q : Pending) (t : Triple) (ticks : List ℕ) → t.interval < 2 ^ 32 → IsFair now q t ticks →
        ticks_at (first_tick now q.last t.interval q.groups) t ≡ ticks }
{}

/// The law of the queue: over every list of calls whose triples are fair, it stands for the clocked stepper that knows
/// whole ticks alone, and makes the same steps.
pub fn stands_for_the_clocked_stepper()
    ensures { (q : Pending) (made : List Planned) (s : Clocked) (calls : List StepperCall) → QueueStandsFor q made s →
        AreFairCalls q calls →
        QueueStandsFor (queue_after_all q calls) (made ++ makes_all q calls) (clocked_after_all s calls) }
{}
