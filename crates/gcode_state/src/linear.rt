//! G0 and G1.

ghost use Rattle.std.specs.Prelude.{◌≡◌, ℕ, ◌+◌, ◌*◌, ◌^◌, ◌≤◌, ◌<◌, ◌||◌, ℤ, pos, ◌+ℤ◌, ◌-ℤ◌, ◌*ℤ◌, ◌≤ℤ◌, int_div, nat_lt, unsigned_abs, IfOk, Result, Some, None, is_some, ◌==◌, if◌then◌else◌, MatchResult, Ok, Err};
ghost use Rattle.plan_types.specs.Numbers.{square_root};
ghost use Rattle.gcode_state.specs.Sound.{IsWithin, IsSteady, IsSound};
ghost use Rattle.gcode_state.specs.States.{given_number, reading_after, target_of, e_target_of, has_relative_e, stretched, differs, is_unhomed, is_outside, feed_after, speed_of, aim_of, moves, move_fault, placed, moved, move_of, linear, IsValidAction};

use crate::state::{Action, Aim, Axis, State, StateFault, Target};
use gcode_text::{Given, Letters};
use num_core::isqrt;
use plan_types::Move;

/// The least speed, in nanometres a second.
const SLOWEST: u64 = 100_000;

/// The longest change of E of one move, in nanometres.
const LONGEST: u128 = 500_000_000;

/// Moves, dwells and homed axes of one file.
pub(crate) const MOST: u64 = 2_000_000;

/// The number behind a letter.
pub(crate) fn number_behind(values: &Letters, letter: u8) -> Option<i64>
    ensures { result ≡ given_number values.now letter }
{
    match values.get(letter) {
        Some(Given::Number(n)) => Some(n),
        Some(Given::Bare) => None,
        None => None,
    }
}

/// What a coordinate reads behind a word.
fn reading(relative: bool, reads: i128, given: Option<i64>) -> i128
    requires { IsWithin (2 ^ 68) reads }
    ensures value { result ≡ reading_after relative reads given }
    ensures size { IsWithin (2 ^ 69) result }
{
    match given {
        None => reads,
        Some(n) => {
            if relative {
                reads + i128::from(n)
            } else {
                i128::from(n)
            }
        }
    }
}

/// Where a coordinate is led whose reading changes.
fn led(at: i64, before: i128, reads: i128) -> i128
    requires before { IsWithin (2 ^ 69) before }
    requires reads { IsWithin (2 ^ 69) reads }
    ensures value { result ≡ at +ℤ (reads -ℤ before) }
    ensures size { IsWithin (2 ^ 71) result }
{
    i128::from(at) + (reads - before)
}

fn target(axis: &Axis, relative: bool, given: Option<i64>) -> Target
    requires { IsSteady axis.now }
    ensures value { result ≡ target_of axis.now relative given }
    ensures size { IsWithin (2 ^ 71) result.at }
{
    let reads = reading(relative, axis.reads, given);
    let at = led(axis.at, axis.reads, reads);
    Target { at, reads }
}

fn difference(before: i128, reads: i128) -> i128
    requires before { IsWithin (2 ^ 69) before }
    requires reads { IsWithin (2 ^ 69) reads }
    ensures value { result ≡ reads -ℤ before }
    ensures size { IsWithin (2 ^ 70) result }
{
    reads - before
}

/// A change by a factor in millionths of a percent, cut towards 0.
#[tactic(auto, unfolding(crate::specs::States::stretched))]
fn stretch(change: i128, factor: u64) -> i128
    requires change { IsWithin (2 ^ 70) change }
    requires factor { factor ≤ 1000000000 }
    ensures value { result ≡ stretched change factor }
    ensures size { IsWithin (2 ^ 75) result }
{
    quotient(product(change, factor))
}

fn product(change: i128, factor: u64) -> i128
    requires change { IsWithin (2 ^ 70) change }
    requires factor { factor ≤ 1000000000 }
    ensures value { result ≡ change *ℤ pos factor }
    ensures size { IsWithin (2 ^ 100) result }
{
    change * i128::from(factor)
}

fn quotient(product: i128) -> i128
    requires { IsWithin (2 ^ 100) product }
    ensures value { result ≡ int_div product (pos 100000000) }
    ensures size { IsWithin (2 ^ 75) result }
{
    product / 100_000_000
}

fn sum(at: i64, change: i128) -> i128
    requires { IsWithin (2 ^ 75) change }
    ensures value { result ≡ at +ℤ change }
    ensures size { IsWithin (2 ^ 76) result }
{
    i128::from(at) + change
}

/// Where E is led whose reading changes.
fn e_led(state: &State, reads: i128) -> i128
    requires sound { IsSound state.now }
    requires reads { IsWithin (2 ^ 69) reads }
    ensures value { result ≡ state.now.e_at +ℤ stretched (reads -ℤ state.now.e_reads) state.now.e_factor }
    ensures size { IsWithin (2 ^ 76) result }
{
    let change = difference(state.e_reads, reads);
    sum(state.e_at, stretch(change, state.e_factor))
}

/// E is relative.
#[tactic(auto, unfolding(crate::specs::States::has_relative_e))]
fn is_e_relative(state: &State) -> bool
    ensures { result ≡ has_relative_e state.now }
{
    state.relative || state.relative_e
}

fn e_target(state: &State, relative: bool, given: Option<i64>) -> Target
    requires { IsSound state.now }
    ensures value { result ≡ e_target_of state.now relative given }
    ensures size { IsWithin (2 ^ 76) result.at }
{
    let reads = reading(relative, state.e_reads, given);
    let at = e_led(state, reads);
    Target { at, reads }
}

/// Where a G0 or G1 leads.
#[tactic(auto, unfolding(crate::specs::States::aim_of))]
fn aim(state: &State, values: &Letters) -> Aim
    requires { IsSound state.now }
    ensures value { result ≡ aim_of state.now values.now }
    ensures x { IsWithin (2 ^ 76) result.x.at }
    ensures y { IsWithin (2 ^ 76) result.y.at }
    ensures z { IsWithin (2 ^ 76) result.z.at }
    ensures e { IsWithin (2 ^ 76) result.e.at }
{
    let x = target(&state.x, state.relative, number_behind(values, b'X'));
    let y = target(&state.y, state.relative, number_behind(values, b'Y'));
    let z = target(&state.z, state.relative, number_behind(values, b'Z'));
    let e = e_target(state, is_e_relative(state), number_behind(values, b'E'));
    let feed = feed(state.feed, number_behind(values, b'F'));
    Aim { x, y, z, e, feed }
}

fn e_changes(state: &State, aim: &Aim) -> bool
    ensures { result ≡ differs state.now.e_at aim.now.e.at }
{
    i128::from(state.e_at) < aim.e.at || aim.e.at < i128::from(state.e_at)
}

/// Some coordinate changes.
#[tactic(auto, unfolding(crate::specs::States::moves))]
fn is_move(state: &State, aim: &Aim) -> bool
    ensures { result ≡ moves state.now aim.now }
{
    changes(&state.x, &aim.x)
        || changes(&state.y, &aim.y)
        || changes(&state.z, &aim.z)
        || e_changes(state, aim)
}

/// E changes by more than one move may.
fn is_long(state: &State, aim: &Aim) -> bool
    requires { IsWithin (2 ^ 76) aim.now.e.at }
    ensures { result ≡ nat_lt 500000000 (unsigned_abs (aim.now.e.at -ℤ state.now.e_at)) }
{
    (aim.e.at - i128::from(state.e_at)).unsigned_abs() > LONGEST
}

/// The first thing that is wrong with a G0 or G1.
#[tactic(auto, unfolding(crate::specs::States::move_fault, crate::specs::States::is_slow, crate::specs::States::is_any_unhomed, crate::specs::States::is_any_outside, crate::specs::States::is_long, crate::specs::States::is_too_many))]
fn fault(state: &State, aim: &Aim, has_feed: bool) -> Option<StateFault>
    requires e { IsWithin (2 ^ 76) aim.now.e.at }
    requires speed_factor { state.now.speed_factor ≤ 1000000000 }
    ensures { result ≡ move_fault state.now aim.now has_feed }
{
    let is_moving = is_move(state, aim);
    if speed(state, aim.feed) < SLOWEST && (has_feed || is_moving) {
        return Some(StateFault::BadSpeed);
    }
    if unhomed(&state.x, &aim.x) || unhomed(&state.y, &aim.y) || unhomed(&state.z, &aim.z) {
        return Some(StateFault::NotHomed);
    }
    if outside(&state.x, &aim.x) || outside(&state.y, &aim.y) || outside(&state.z, &aim.z) {
        return Some(StateFault::OutOfRange);
    }
    if is_long(state, aim) {
        return Some(StateFault::MoveTooLong);
    }
    if is_moving && state.count >= MOST {
        return Some(StateFault::TooMany);
    }
    None
}

fn changes(axis: &Axis, target: &Target) -> bool
    ensures { result ≡ differs axis.now.at target.now.at }
{
    i128::from(axis.at) < target.at || target.at < i128::from(axis.at)
}

fn unhomed(axis: &Axis, target: &Target) -> bool
    ensures { result ≡ is_unhomed axis.now target.now }
{
    changes(axis, target) && !axis.homed
}

fn outside(axis: &Axis, target: &Target) -> bool
    ensures { result ≡ is_outside axis.now target.now }
{
    changes(axis, target) && (target.at < i128::from(axis.min) || i128::from(axis.max) < target.at)
}

fn feed(before: u64, given: Option<i64>) -> u64
    ensures { result ≡ feed_after before given }
{
    match given {
        None => before,
        Some(n) => { if n < 0 { 0 } else { n as u64 } }
    }
}

/// The speed at this feed.
fn speed(state: &State, feed: u64) -> u64
    requires { state.now.speed_factor ≤ 1000000000 }
    ensures { result ≡ speed_of state.now feed }
{
    (u128::from(feed) * u128::from(state.speed_factor) / 6_000_000_000).min(u128::from(
        state.top,
    )) as u64
}

fn narrow(z: i128) -> i64
    requires { IsWithin (2 ^ 62) z }
    ensures { result ≡ z }
{
    z as i64
}

fn set_to(axis: Axis, target: &Target) -> Axis
    requires axis { IsSteady axis }
    requires target { IsSteady (placed axis target.now) }
    ensures { result ≡ placed axis target.now }
{
    let at = narrow(target.at);
    Axis {
        at,
        reads: target.reads,
        ..axis
    }
}

/// The state behind a G0 or G1 without a fault.
#[tactic(auto, unfolding(crate::specs::States::moved))]
fn after(state: &State, aim: &Aim) -> State
    requires sound { IsSound (moved state.now aim.now) }
    requires now { IsSound state.now }
    ensures value { result ≡ moved state.now aim.now }
    ensures sound { IsSound result }
    ensures lines { result.lines ≡ state.now.lines + 1 }
{
    let e_at = narrow(aim.e.at);
    let count = if is_move(state, aim) {
        state.count + 1
    } else {
        state.count
    };
    State {
        x: set_to(state.x, &aim.x),
        y: set_to(state.y, &aim.y),
        z: set_to(state.z, &aim.z),
        e_at,
        e_reads: aim.e.reads,
        feed: aim.feed,
        count,
        lines: state.lines + 1,
        ..*state
    }
}

/// G0 and G1.
#[tactic(auto, unfolding(crate::specs::States::linear))]
pub(crate) fn linear_action(state: &State, values: &Letters) -> Result<(State, Action), StateFault>
    requires sound { IsSound state.now }
    requires few { state.now.lines < 2 ^ 30 }
    ensures value { result ≡ linear state.now values.now }
    ensures sound { IfOk result (λ next. IsSound next.0) }
    ensures valid { IfOk result (λ next. IsValidAction next.1) }
    ensures lines { IfOk result (λ next. next.0.lines ≤ state.now.lines + 1) }
{
    let to = aim(state, values);
    if let Some(fault) = fault(state, &to, number_behind(values, b'F').is_some()) {
        return Err(fault);
    }
    let next = after(state, &to);
    let action = if is_move(state, &to) {
        Action::Move(move_between(state, &next))
    } else {
        Action::None
    };
    Ok((next, action))
}

/// How far a coordinate changes, up or down.
#[tactic(auto, using(crate::proofs::ValidMoves::apart_small))]
fn change_of(from: i64, to: i64) -> u64
    requires from { IsWithin 500000000 from }
    requires to { IsWithin 500000000 to }
    ensures value { result ≡ unsigned_abs (to -ℤ from) }
    ensures small { result ≤ 1000000000 }
{
    to.abs_diff(from)
}

/// The square root, rounded down.
fn root(n: u128) -> u64
    ensures { result ≡ square_root n }
{
    isqrt(n)
}

/// The length of a move that changes the coordinates so far: the distance in x, y and z, or the change of e where these
/// stay.
fn length_of(x: u64, y: u64, z: u64, e: u64) -> u64
    requires x { x ≤ 1000000000 }
    requires y { y ≤ 1000000000 }
    requires z { z ≤ 1000000000 }
    ensures { result ≡ (if x * x + y * y + z * z == 0 then e else square_root (x * x + y * y + z * z)) }
{
    let (x, y, z) = (u128::from(x), u128::from(y), u128::from(z));
    let square = x * x + y * y + z * z;
    if square == 0 { e } else { root(square) }
}

/// The move between two states.
#[tactic(auto, using(crate::proofs::ValidMoves::apart_small), unfolding(crate::specs::States::unmeasured))]
fn move_between(before: &State, after: &State) -> Move
    requires before { IsSound before.now }
    requires after { IsSound after.now }
    ensures { result ≡ move_of before.now after.now }
{
    let x = change_of(before.x.at, after.x.at);
    let y = change_of(before.y.at, after.y.at);
    let z = change_of(before.z.at, after.z.at);
    let e = after.e_at.abs_diff(before.e_at);
    Move {
        from: [before.x.at, before.y.at, before.z.at, before.e_at],
        to: [after.x.at, after.y.at, after.z.at, after.e_at],
        d: length_of(x, y, z, e),
        v: speed(after, after.feed),
        a: after.acceleration,
    }
}
