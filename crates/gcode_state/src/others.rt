//! The commands that make no move.

ghost use Rattle.std.specs.Prelude.{◌≡◌, ℕ, ◌+◌, ◌*◌, ◌^◌, ◌≤◌, ◌<◌, ◌≤ℤ◌, IsTrue, IfOk, Result};
ghost use Rattle.gcode_state.specs.Sound.{IsWithin, IsSteady, IsSound};
ghost use Rattle.gcode_state.specs.States.{in_range, with_count, dwell, is_named, axes_of, homed_if, one_if, homed_by, axes_in, home, speed_factor, e_factor, acceleration, reading_set, read_as, readings_set, sets_some, is_set, commanded, homed_here, axis_of, homed_at, IsValidAction};

use crate::linear::{MOST, linear_action, number_behind};
use crate::state::{Action, Axis, State, StateFault};
use gcode_text::{Command, Letters};

/// A number within a range, or what stands for none.
fn bounded(low: u64, high: u64, default: u64, given: Option<i64>) -> Result<u64, StateFault>
    ensures { result ≡ in_range low high default given }
{
    match given {
        None => Ok(default),
        Some(n) => {
            if n < 0 {
                return Err(StateFault::OutOfRange);
            }
            let n = n as u64;
            if low <= n && n <= high {
                Ok(n)
            } else {
                Err(StateFault::OutOfRange)
            }
        }
    }
}

/// So many more actions, if the file may have them.
fn with_more(state: &State, more: u64) -> Result<State, StateFault>
    requires sound { IsSound state.now }
    requires more { more ≤ 3 }
    ensures value { result ≡ with_count state.now more }
    ensures sound { IfOk result (λ next. IsSound next) }
    ensures lines { IfOk result (λ next. next.lines ≡ state.now.lines) }
{
    if state.count + more > MOST {
        return Err(StateFault::TooMany);
    }
    Ok(State {
        count: state.count + more,
        ..*state
    })
}

#[tactic(auto, unfolding(crate::specs::States::dwell))]
fn dwell_action(state: &State, values: &Letters) -> Result<(State, Action), StateFault>
    requires { IsSound state.now }
    ensures value { result ≡ dwell state.now values.now }
    ensures sound { IfOk result (λ next. IsSound next.0) }
    ensures valid { IfOk result (λ next. IsValidAction next.1) }
    ensures lines { IfOk result (λ next. next.0.lines ≤ state.now.lines + 1) }
{
    let p = bounded(0, 3_600_000_000_000, 0, number_behind(values, b'P'))?;
    let next = with_more(state, 1)?;
    Ok((next, Action::Dwell(p.div_ceil(1_000_000))))
}

fn named(values: &Letters, letter: u8) -> bool
    ensures { result ≡ is_named values.now letter }
{
    values.get(letter).is_some()
}

#[tactic(auto, unfolding(crate::specs::States::axes_of))]
fn named_axes(values: &Letters) -> [bool; 3]
    ensures { result ≡ axes_of values.now }
{
    let axes = [
        named(values, b'X'),
        named(values, b'Y'),
        named(values, b'Z'),
    ];
    if axes[0] || axes[1] || axes[2] {
        axes
    } else {
        [true, true, true]
    }
}

fn home_if(is_named: bool, axis: Axis) -> Axis
    requires { IsSteady axis }
    ensures value { result ≡ homed_if is_named axis }
    ensures steady { IsSteady result }
{
    if is_named {
        Axis {
            homed: true,
            at: axis.endstop,
            reads: i128::from(axis.endstop),
            ..axis
        }
    } else {
        axis
    }
}

/// The axes homed.
fn homed(state: &State, axes: [bool; 3]) -> State
    requires { IsSound state.now }
    ensures value { result ≡ homed_by state.now axes }
    ensures sound { IsSound result }
    ensures lines { result.lines ≡ state.now.lines }
{
    let x = home_if(axes[0], state.x);
    let y = home_if(axes[1], state.y);
    let z = home_if(axes[2], state.z);
    State { x, y, z, ..*state }
}

fn one(is_named: bool) -> u64
    ensures value { result ≡ one_if is_named }
    ensures small { result ≤ 1 }
{
    if is_named { 1 } else { 0 }
}

fn count_of(axes: [bool; 3]) -> u64
    ensures value { result ≡ axes_in axes }
    ensures small { result ≤ 3 }
{
    one(axes[0]) + one(axes[1]) + one(axes[2])
}

#[tactic(auto, unfolding(crate::specs::States::home))]
pub(crate) fn home_action(state: &State, values: &Letters) -> Result<(State, Action), StateFault>
    requires { IsSound state.now }
    ensures value { result ≡ home state.now values.now }
    ensures sound { IfOk result (λ next. IsSound next.0) }
    ensures valid { IfOk result (λ next. IsValidAction next.1) }
    ensures lines { IfOk result (λ next. next.0.lines ≤ state.now.lines + 1) }
{
    let axes = named_axes(values);
    let next = with_more(state, count_of(axes))?;
    Ok((homed(&next, axes), Action::Home(axes)))
}

/// Sets whether coordinates are relative.
pub(crate) fn with_relative(state: &State, relative: bool) -> State
    requires { IsSound state.now }
    ensures value { result ≡ record state.now { relative = relative } }
    ensures sound { IsSound result }
{
    State { relative, ..*state }
}

#[tactic(auto, unfolding(crate::specs::States::speed_factor))]
pub(crate) fn speed_factor_action(
    state: &State,
    values: &Letters,
) -> Result<(State, Action), StateFault>
    requires { IsSound state.now }
    ensures value { result ≡ speed_factor state.now values.now }
    ensures sound { IfOk result (λ next. IsSound next.0) }
    ensures valid { IfOk result (λ next. IsValidAction next.1) }
    ensures lines { IfOk result (λ next. next.0.lines ≤ state.now.lines + 1) }
{
    let speed_factor = bounded(
        1_000_000,
        1_000_000_000,
        100_000_000,
        number_behind(values, b'S'),
    )?;
    Ok((
        State {
            speed_factor,
            ..*state
        },
        Action::None,
    ))
}

#[tactic(auto, unfolding(crate::specs::States::e_factor))]
pub(crate) fn e_factor_action(
    state: &State,
    values: &Letters,
) -> Result<(State, Action), StateFault>
    requires { IsSound state.now }
    ensures value { result ≡ e_factor state.now values.now }
    ensures sound { IfOk result (λ next. IsSound next.0) }
    ensures valid { IfOk result (λ next. IsValidAction next.1) }
    ensures lines { IfOk result (λ next. next.0.lines ≤ state.now.lines + 1) }
{
    let e_factor = bounded(
        1_000_000,
        1_000_000_000,
        100_000_000,
        number_behind(values, b'S'),
    )?;
    Ok((State { e_factor, ..*state }, Action::None))
}

#[tactic(auto, unfolding(crate::specs::States::acceleration))]
pub(crate) fn acceleration_action(
    state: &State,
    values: &Letters,
) -> Result<(State, Action), StateFault>
    requires { IsSound state.now }
    ensures value { result ≡ acceleration state.now values.now }
    ensures sound { IfOk result (λ next. IsSound next.0) }
    ensures valid { IfOk result (λ next. IsValidAction next.1) }
    ensures lines { IfOk result (λ next. next.0.lines ≤ state.now.lines + 1) }
{
    let given = number_behind(values, b'S');
    let acceleration = bounded(100_000_000, 100_000_000_000, state.acceleration, given)?;
    Ok((
        State {
            acceleration,
            ..*state
        },
        Action::None,
    ))
}

/// Sets whether E is relative.
pub(crate) fn with_relative_e(state: &State, relative_e: bool) -> State
    requires { IsSound state.now }
    ensures value { result ≡ record state.now { relative_e = relative_e } }
    ensures sound { IsSound result }
{
    State {
        relative_e,
        ..*state
    }
}

/// What a coordinate reads behind a G92.
fn set_reading(some: bool, reads: i128, given: Option<i64>) -> i128
    ensures value { result ≡ reading_set some reads given }
    ensures size { (n : ℕ) → 2 ^ 63 ≤ n → IsWithin n reads → IsWithin n result }
{
    match given {
        None => { if some { reads } else { 0 } }
        Some(n) => i128::from(n),
    }
}

fn read_axis(some: bool, axis: &Axis, given: Option<i64>) -> Axis
    requires { IsSteady axis.now }
    ensures value { result ≡ read_as some axis.now given }
    ensures steady { IsSteady result }
{
    let reads = set_reading(some, axis.reads, given);
    Axis { reads, ..*axis }
}

fn is_given(values: &Letters, letter: u8) -> bool
    ensures { result ≡ is_set values.now letter }
{
    number_behind(values, letter).is_some()
}

#[tactic(auto, unfolding(crate::specs::States::sets_some))]
fn gives_some(values: &Letters) -> bool
    ensures { result ≡ sets_some values.now }
{
    is_given(values, b'X')
        || is_given(values, b'Y')
        || is_given(values, b'Z')
        || is_given(values, b'E')
}

/// What E reads behind a G92.
fn set_e_reading(some: bool, state: &State, given: Option<i64>) -> i128
    requires { IsSound state.now }
    ensures value { result ≡ reading_set some state.now.e_reads given }
    ensures size { IsWithin (2 ^ 63 + 2 ^ 36 * state.now.lines) result }
{
    match given {
        None => { if some { state.e_reads } else { 0 } }
        Some(n) => i128::from(n),
    }
}

#[tactic(auto, unfolding(crate::specs::States::readings_set))]
pub(crate) fn set_readings(state: &State, values: &Letters) -> State
    requires { IsSound state.now }
    ensures value { result ≡ readings_set state.now values.now }
    ensures sound { IsSound result }
    ensures lines { result.lines ≡ state.now.lines }
{
    let some = gives_some(values);
    let x = read_axis(some, &state.x, number_behind(values, b'X'));
    let y = read_axis(some, &state.y, number_behind(values, b'Y'));
    let z = read_axis(some, &state.z, number_behind(values, b'Z'));
    let e_reads = set_e_reading(some, state, number_behind(values, b'E'));
    State {
        x,
        y,
        z,
        e_reads,
        ..*state
    }
}

/// What a command does.
pub(crate) fn command_action(
    state: &State,
    name: Command,
    values: &Letters,
) -> Result<(State, Action), StateFault>
    requires sound { IsSound state.now }
    requires few { state.now.lines < 2 ^ 30 }
    ensures value { result ≡ commanded state.now name values.now }
    ensures sound { IfOk result (λ next. IsSound next.0) }
    ensures valid { IfOk result (λ next. IsValidAction next.1) }
    ensures lines { IfOk result (λ next. next.0.lines ≤ state.now.lines + 1) }
{
    match name {
        Command::G0 | Command::G1 => linear_action(state, values),
        Command::G4 => dwell_action(state, values),
        Command::G28 => home_action(state, values),
        Command::G90 => Ok((with_relative(state, false), Action::None)),
        Command::G91 => Ok((with_relative(state, true), Action::None)),
        Command::G92 => Ok((set_readings(state, values), Action::None)),
        Command::M82 => Ok((with_relative_e(state, false), Action::None)),
        Command::M83 => Ok((with_relative_e(state, true), Action::None)),
        Command::M112 => Ok((*state, Action::Stop)),
        Command::M204 => acceleration_action(state, values),
        Command::M220 => speed_factor_action(state, values),
        Command::M221 => e_factor_action(state, values),
        Command::M400 => Ok((*state, Action::Wait)),
    }
}

fn stand(is_it: bool, axis: Axis, at: i64) -> Axis
    requires axis { IsSteady axis }
    requires low { IsTrue is_it → axis.min ≤ℤ at }
    requires high { IsTrue is_it → at ≤ℤ axis.max }
    ensures value { result ≡ homed_here is_it axis at }
    ensures steady { IsSteady result }
{
    if is_it {
        Axis {
            homed: true,
            at,
            reads: i128::from(at),
            ..axis
        }
    } else {
        axis
    }
}

/// The state in which an axis is homed and stands here.
#[tactic(auto, unfolding(crate::specs::States::homed_at))]
pub(crate) fn with_homed(state: &State, axis: u8, at: i64) -> State
    requires sound { IsSound state.now }
    requires axis { axis < 3 }
    requires low { (axis_of state.now axis).min ≤ℤ at }
    requires high { at ≤ℤ (axis_of state.now axis).max }
    ensures value { result ≡ homed_at state.now axis at }
    ensures sound { IsSound result }
{
    let x = stand(axis == 0, state.x, at);
    let y = stand(axis == 1, state.y, at);
    let z = stand(axis == 2, state.z, at);
    State { x, y, z, ..*state }
}
