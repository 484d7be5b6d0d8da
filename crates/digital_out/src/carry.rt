//! Commands that are carried out by a queue.

ghost use Rattle.std.specs.Prelude.{◌≡◌, ◌⊎◌, ◌++◌, ◌+◌, ◌*◌, ◌<◌, ◌≤◌, ◌-◌, [], List, All, IfOk, OnOk, length, slice_index_or, max, false};
ghost use Rattle.plan_types.specs.Clock.{tick_limit};
ghost use Rattle.digital_out.specs.declared.want.Want.{Want};
ghost use Rattle.digital_out.specs.Carried.{AreFrom, AreInTime, BeginsFrom, CanCarry, ready_at};
ghost use Rattle.digital_out.specs.Rising.{WantsRiseFrom, no_want};

use crate::OutOfMemory;
use crate::queue::{OutQueue, OutWhat};
use crate::want::{Want, nth};
use std::alloc::Global;

/// How many commands a board keeps.
const SLOTS: usize = 16;

/// A command is given to its board so many turns before its tick.
const LEAD: u64 = 250;

/// An output stays on for so many turns without a further command.
pub const LONGEST: u64 = 5_000;

/// Lets a queue make all its events before a tick, of which none is a miss.
fn run_to(queue: &mut OutQueue, until: u64, made: &mut Vec<Want>) -> Result<(), OutOfMemory>
    requires small { until < tick_limit }
    requires later { queue.old.time ≤ until }
    requires well { queue.old.missed ≡ false }
    requires safe { (more : List Want)
        × AreInTime queue.old.max queue.old.level queue.old.last (queue.old.pending ++ more) × BeginsFrom until more }
    ensures made { OnOk result (made.new.items ++ queue.new.pending ≡ made.old.items ++ queue.old.pending) }
    ensures from { OnOk result (WantsRiseFrom 0 queue.old.pending → AreFrom until queue.new.pending) }
    ensures well { OnOk result (queue.new.missed ≡ false) }
    ensures in_time { OnOk result ((more : List Want) →
        AreInTime queue.old.max queue.old.level queue.old.last (queue.old.pending ++ more) →
        AreInTime queue.old.max queue.new.level queue.new.last (queue.new.pending ++ more)) }
    ensures time { OnOk result
        ((queue.new.time ≡ until) × (queue.new.slots ≡ queue.old.slots) × (queue.new.max ≡ queue.old.max)) }
{
    while let Some(event) = queue.advance(until) {
        match event.what {
            OutWhat::On => made.push(Want {
                tick: event.tick,
                on: true,
            })?,
            OutWhat::Off => made.push(Want {
                tick: event.tick,
                on: false,
            })?,
            OutWhat::Missed => unreachable!(),
        }
    }
    Ok(())
}

/// When a command is given to its queue: no sooner than so many ticks before its own, and as soon as there is room.
fn ready_at(commands: &[Want], i: usize, now: u64, lead: u64) -> u64
    requires there { i < length commands.now }
    requires small { All (λ w. w.tick + 1 < tick_limit) commands.now }
    ensures { result ≡ ready_at commands.now i now lead }
{
    let soon = nth(commands, i).tick.saturating_sub(lead);
    let room = if i < SLOTS {
        0
    } else {
        nth(commands, i - SLOTS).tick + 1
    };
    now.max(soon.max(room))
}

/// The tick behind the last command, 0 where there is none.
fn end_of(commands: &[Want]) -> u64
    requires { All (λ w. w.tick + 1 < tick_limit) commands.now }
    ensures value { 0 < length commands.now →
        result ≡ (slice_index_or commands.now (length commands.now - 1) no_want).tick + 1 }
    ensures none { length commands.now ≡ 0 → result ≡ 0 }
    ensures small { result < tick_limit }
{
    if commands.is_empty() {
        return 0;
    }
    nth(commands, commands.len() - 1).tick + 1
}

/// Gives commands to the queue of a board with so many ticks a turn, which carries them out. No command is
/// refused, and the output is never missed.
pub fn carry_out(alloc: Global, commands: &[Want], ticks: u64) -> Result<Vec<Want>, OutOfMemory>
    requires some { 0 < ticks }
    requires few { ticks ≤ 200_000 }
    requires can { CanCarry (5_000 * ticks) commands.now }
    ensures { IfOk result (λ made. made.items ≡ commands.now) }
{
    let mut queue = OutQueue::new(alloc, SLOTS as u32, LONGEST * ticks)?;
    let mut made = Vec::new(alloc);
    let mut now = 0;
    for i in 0..commands.len() {
        now = ready_at(commands, i, now, LEAD * ticks);
        run_to(&mut queue, now, &mut made)?;
        let command = nth(commands, i);
        let clock = (command.tick % (1 << 32)) as u32;
        match queue.push(now, clock, command.on) {
            Ok(()) => {}
            Err(_) => unreachable!(),
        }
    }
    run_to(&mut queue, end_of(commands), &mut made)?;
    Ok(made)
}
