//! Planned steps of a stepper as few triples, as Klipper's Code_Overview.md ("Code flow of a move command") has it for
//! its "queue_step" (MCU_Commands.md): each step in its window, and each triple as long as one can be.
//!
//! Ticks are those of the stepper's board.
#![tactic(auto)]

ghost use Rattle.std.specs.Prelude.{◌≡◌, ℕ, ℤ, pos, ◌+ℤ◌, ◌+◌, ◌-◌, ◌*◌, ◌/◌, ◌^◌, ◌<◌, ◌≤◌, List, ◌∷◌, ◌++◌, map, length, IfOk, IsTrue, ◌↔◌};
ghost use Rattle.plan_types.specs.declared.plan.Planned.{Planned};
ghost use Rattle.plan_types.specs.declared.plan.Pulse.{Pulse};
ghost use Rattle.plan_types.specs.declared.plan.Triple.{Triple};
ghost use Rattle.plan_types.specs.declared.plan.Window.{Window};
ghost use Rattle.plan_types.specs.Board.{IsSum, Expands, TicksRise, last_of};
ghost use Rattle.plan_types.specs.Plan.{AreSpaced, Fits, max_error};
ghost use Rattle.plan_types.specs.Packing.{windows_of, open_windows, RunOn, tick_at, Covers, IsLongest, Packs, PacksPiece, AreInWindows, HasExpansion, KeepDirections};
ghost use Rattle.step_pack.specs.Placing.{PacksPlaced, placed_ticks};
ghost use Rattle.step_pack.specs.declared.Placed.{Placed};

mod find;
mod narrow;

use find::longest;
use plan_types::{Planned, Triple, Window};
pub use std::alloc::AllocError as OutOfMemory;
use std::alloc::Global;

/// The intervals from `least` to `greatest`, and for each side a step that bounds the intervals of every add.
#[derive(Clone, Copy)]
struct Bounds {
    least: u64,
    greatest: u64,
    low_place: u64,
    low_at: u64,
    high_place: u64,
    high_at: u64,
}

/// With which adds no triple covers more steps: all; this one, so many less and all greater ones; this one,
/// so many more and all smaller ones; or this one.
#[derive(Clone, Copy, PartialEq, Eq)]
enum Verdict {
    Whole,
    TooGreat(u64),
    TooSmall(u64),
    Own,
}

/// A triple that covers so many steps; its add is `bend - 1024`.
#[derive(Clone, Copy)]
struct Reach {
    count: u64,
    interval: u64,
    bend: u64,
}

/// A triple, the tick of its first step and that of its last one.
#[derive(Debug, Clone, Copy, PartialEq, Eq)]
pub struct Placed {
    pub triple: Triple,
    pub first: u64,
    pub last: u64,
}

/// How many ticks a step may be early on a board of `freq` ticks a second: 25 microseconds, rounded down.
pub fn max_error(freq: u32) -> u64
    ensures { result ≡ max_error freq }
{
    u64::from(freq) * 25 / 1_000_000
}

/// Whether steps can be packed behind the tick `last`: each planned tick is at least 4 above the one before it.
pub fn are_spaced(last: u64, steps: &[Planned]) -> bool
    ensures { IsTrue result ↔ AreSpaced last steps.now }
{
    let mut before = last;
    for place in 0..steps.len() {
        let tick = steps[place].tick;
        if tick.saturating_sub(before) < 4 {
            return false;
        }
        before = tick;
    }
    true
}

/// The triples of planned steps behind the tick `last`. Each step is at most `max_error` ticks and half of
/// the gap before it early and never late, the last one is at its planned tick, and each triple covers as
/// many steps as one can there. Intervals are kept modulo 2^32. Nothing but want of memory is an error.
pub fn pack(
    alloc: Global,
    last: u64,
    steps: &[Planned],
    max_error: u64,
) -> Result<Vec<Triple>, OutOfMemory>
    requires { AreSpaced last steps.now }
    ensures expansion { IfOk result (λ triples. HasExpansion last (windows_of max_error last steps.now) triples.items) }
    ensures directions { IfOk result (λ triples. KeepDirections (windows_of max_error last steps.now) triples.items) }
    ensures longest { IfOk result (λ triples. Packs last (windows_of max_error last steps.now) triples.items) }
{
    let placed = pack_placed(alloc, last, steps, max_error)?;
    let triples = triples_of(alloc, &placed)?;
    Ok(triples)
}

/// The triples of `pack`, each with the ticks of its first and of its last step.
pub fn pack_placed(
    alloc: Global,
    last: u64,
    steps: &[Planned],
    max_error: u64,
) -> Result<Vec<Placed>, OutOfMemory>
    requires { AreSpaced last steps.now }
    ensures { IfOk result (λ placed. PacksPlaced last (windows_of max_error last steps.now) placed.items) }
{
    let windows = windows_of(alloc, last, steps, max_error)?;
    let mut all = Vec::new(alloc);
    let mut behind = last;
    let mut next = 0;
    while next < windows.len() {
        let placed = first_triple(behind, &windows[next..]);
        all.push(placed)?;
        behind = placed.last;
        next += usize::from(placed.triple.count);
    }
    Ok(all)
}

/// The triples without their ticks.
fn triples_of(alloc: Global, placed: &[Placed]) -> Result<Vec<Triple>, OutOfMemory>
    ensures { IfOk result (λ triples. triples.items ≡ map (λ p. p.triple) placed.now) }
{
    placed.iter().map(|one| one.triple).collect(alloc)
}

/// The window of each step.
fn windows_of(
    alloc: Global,
    last: u64,
    steps: &[Planned],
    max_error: u64,
) -> Result<Vec<Window>, OutOfMemory>
    requires { AreSpaced last steps.now }
    ensures value { IfOk result (λ windows. windows.items ≡ windows_of max_error last steps.now) }
{
    let mut windows = Vec::with_capacity(alloc, steps.len())?;
    let mut before = last;
    for place in 0..steps.len() {
        let step = steps[place];
        let low = if place + 1 == steps.len() {
            step.tick
        } else {
            step.tick - max_error.min(step.tick.saturating_sub(before) / 2)
        };
        windows.push(Window {
            low,
            high: step.tick,
            up: step.up,
        })?;
        before = step.tick;
    }
    Ok(windows)
}

/// The longest triple behind a tick, or the first step alone at its planned tick where it is far away.
fn first_triple(behind: u64, windows: &[Window]) -> Placed
    requires some { 0 < length windows.now }
    requires run_on { RunOn behind windows.now }
    ensures covers { Covers behind result.first result.triple.interval result.triple.count result.triple.add
        windows.now }
    ensures longest { IsLongest behind windows.now result.triple.count }
    ensures last { result.last
        ≡ tick_at result.first result.triple.interval result.triple.add (result.triple.count - 1) }
{
    let none = Reach {
        count: 0,
        interval: 1,
        bend: 1024,
    };
    let found = longest(behind, windows, 0, 2048, 1024, 64, none);
    if found.count == 0 {
        let tick = windows[0].high;
        return Placed {
            triple: Triple {
                interval: ((tick - behind) & 0xFFFF_FFFF) as u32,
                count: 1,
                add: 0,
            },
            first: tick,
            last: tick,
        };
    }
    // The triple's first and last ticks fit as the ends of their windows do.
    let _first_end = windows[0].high;
    let _last_end = windows[found.count as usize - 1].high;
    let times = found.count * (found.count - 1) / 2;
    let length = found.count * found.interval + found.bend * times - 1024 * times;
    Placed {
        triple: triple_of(found),
        first: behind + found.interval,
        last: behind + length,
    }
}

/// The triple, with its add in place of the bend.
fn triple_of(reach: Reach) -> Triple
    requires interval_small { reach.interval < 2 ^ 32 }
    requires count_small { reach.count ≤ 65_535 }
    requires bend_small { reach.bend < 2048 }
    ensures interval { result.interval ≡ reach.interval }
    ensures count { result.count ≡ reach.count }
    ensures add { result.add +ℤ pos 1024 ≡ pos reach.bend }
{
    Triple {
        interval: reach.interval as u32,
        count: reach.count as u16,
        add: reach.bend as i16 - 1024,
    }
}

/// The law of packings: triples that pack windows have an expansion with one tick in each of them, and none goes over
/// a change of direction.
pub fn packings_expand()
    ensures expansion { (behind : ℕ) (windows : List Window) (triples : List Triple) → RunOn behind windows →
        Packs behind windows triples → HasExpansion behind windows triples }
    ensures directions { (behind : ℕ) (windows : List Window) (triples : List Triple) → Packs behind windows triples →
        KeepDirections windows triples }
{}

/// The law of placed triples: they are a packing, and the ticks that go with their first ones are an expansion of them
/// with one tick in each window.
pub fn placed_pack()
    ensures packing { (behind : ℕ) (windows : List Window) (placed : List Placed) → PacksPlaced behind windows placed →
        Packs behind windows (map (λ p. p.triple) placed) }
    ensures expansion { (behind : ℕ) (windows : List Window) (placed : List Placed) → RunOn behind windows →
        PacksPlaced behind windows placed → Expands behind (map (λ p. p.triple) placed) (placed_ticks placed) }
    ensures windows { (behind : ℕ) (windows : List Window) (placed : List Placed) → PacksPlaced behind windows placed →
        AreInWindows (placed_ticks placed) windows }
{}

/// The law of expansions: ticks in the windows of some steps are one for each step, rise, end with the last planned
/// tick, and as pulses with the steps' directions they fit the plan.
pub fn ticks_fit()
    ensures count { (e last : ℕ) (steps : List Planned) (ticks : List ℕ) →
        AreInWindows ticks (windows_of e last steps) → length ticks ≡ length steps }
    ensures rise { (e last : ℕ) (steps : List Planned) (ticks : List ℕ) → AreSpaced last steps →
        AreInWindows ticks (windows_of e last steps) → TicksRise (last ∷ ticks) }
    ensures last { (e last : ℕ) (steps : List Planned) (ticks : List ℕ) → AreInWindows ticks (windows_of e last steps) →
        last_of last ticks ≡ last_of last (map (λ s. s.tick) steps) }
    ensures fits { (freq last : ℕ) (steps : List Planned) (pulses : List Pulse) →
        AreInWindows (map (λ p. p.tick) pulses) (windows_of (max_error freq) last steps) →
        map (λ p. p.up) pulses ≡ map (λ s. s.up) steps → Fits freq last pulses steps }
{}

/// The law of pieces: a list of steps may be packed in pieces, each behind the last planned tick of the one before.
/// The triples of all pieces expand and keep the directions, and no triple that ends before the last step of its piece
/// covers more steps than the one that is there.
pub fn pieces_pack()
    ensures expansion { (e last : ℕ) (steps more : List Planned) (triples others : List Triple) →
        HasExpansion last (windows_of e last steps) triples →
        HasExpansion (last_of last (map (λ s. s.tick) steps))
        (open_windows e (last_of last (map (λ s. s.tick) steps)) more) others →
        HasExpansion last (open_windows e last (steps ++ more)) (triples ++ others) }
    ensures directions { (e last : ℕ) (steps more : List Planned) (triples others : List Triple) →
        Packs last (windows_of e last steps) triples →
        KeepDirections (open_windows e (last_of last (map (λ s. s.tick) steps)) more) others →
        KeepDirections (open_windows e last (steps ++ more)) (triples ++ others) }
    ensures longest { (e last : ℕ) (steps more : List Planned) (triples : List Triple) →
        Packs last (windows_of e last steps) triples →
        PacksPiece last (open_windows e last (steps ++ more)) (length steps) triples }
{}

/// The law of windows: those of a packing, of which the last is narrowed, lie in those of the plan.
pub fn windows_open()
    ensures { (e last : ℕ) (steps : List Planned) (ticks : List ℕ) → AreInWindows ticks (windows_of e last steps) →
        AreInWindows ticks (open_windows e last steps) }
{}

/// The law of ticks: those of a triple that covers windows are the sums that a step queue makes, and rise.
pub fn ticks_rise()
    ensures { (behind first interval count : ℕ) (add : ℤ) (windows : List Window) → RunOn behind windows →
        Covers behind first interval count add windows → (i : ℕ) → i < count →
        IsSum (tick_at first interval add i) (first + i * interval) add (i * (i + 1) / 2)
        × (i + 1 < count → tick_at first interval add i < tick_at first interval add (i + 1)) }
{}

/// The law of spaced steps: their windows are one behind the other.
pub fn windows_run_on()
    ensures { (e last : ℕ) (steps : List Planned) → AreSpaced last steps → RunOn last (windows_of e last steps) }
{}
