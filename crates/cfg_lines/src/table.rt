//! The table of options.

ghost use Rattle.std.specs.Prelude.{◌≡◌, None, if◌then◌else◌};
ghost use Rattle.cfg_lines.specs.Table as specs;
ghost use Rattle.cfg_lines.specs.Values.{IsReadable};
ghost use Rattle.cfg_lines.specs.Table.{key_named, option_row, option_place, named, printer_keys, simulated_keys, simulation_keys, stepper_keys, axis_keys, fan_keys};

use crate::section::{Motor, Section, number};
use text_core::same_small;

/// An option of the table.
#[derive(Clone, Copy, Debug)]
pub enum Key {
    Kinematics,
    MaxVelocity,
    MaxAccel,
    SquareCornerVelocity,
    MinimumCruiseRatio,
    ClockFreq,
    StartClock,
    MoveSlots,
    DriftPpm,
    StartHomed,
    StepPin,
    DirPin,
    RotationDistance,
    Microsteps,
    FullSteps,
    GearRatio,
    EndstopPin,
    PositionEndstop,
    PositionMax,
    PositionMin,
    HomingSpeed,
    FanPin,
}

/// What a value of an option may be.
#[derive(Clone, Copy)]
pub enum Kind {
    /// A number within these limits, in millionths.
    Decimal(u64, u64),
    /// A whole number within these limits, with at most so many digits, and a multiple of the last.
    Whole(u64, u64, usize, u64),
    /// A whole number no further from 0 than this.
    Offset(u64),
    /// A power of two up to 256.
    Microsteps,
    /// A place on an axis within 500 mm, in nm.
    Position,
    /// A place on an axis, in nm.
    AnyPosition,
    /// `cartesian` or `corexy`.
    Kinematics,
    /// `True` or `False`.
    Truth,
    Pin,
    /// No value is taken.
    Refused,
}

/// The kind of an option's value. Lengths are nm, speeds nm/s, accelerations nm/s².
pub fn kind_of(key: Key) -> Kind
    ensures kind { result ≡ (option_row key).kind }
    ensures readable { IsReadable result }
{
    match key {
        Key::Kinematics => Kind::Kinematics,
        Key::MaxVelocity => Kind::Decimal(100_000, 1_000_000_000),
        Key::MaxAccel => Kind::Decimal(100_000_000, 100_000_000_000),
        Key::SquareCornerVelocity => Kind::Decimal(0, 100_000_000),
        Key::MinimumCruiseRatio => Kind::Decimal(0, 999_999),
        Key::ClockFreq => Kind::Whole(1_000_000, 200_000_000, 9, 1_000),
        Key::StartClock => Kind::Whole(0, 1_099_511_627_776, 13, 1),
        Key::MoveSlots => Kind::Whole(64, 4_096, 9, 1),
        Key::DriftPpm => Kind::Offset(200),
        Key::StartHomed => Kind::Truth,
        Key::RotationDistance | Key::HomingSpeed => Kind::Decimal(100_000, 1_000_000_000),
        Key::Microsteps => Kind::Microsteps,
        Key::FullSteps => Kind::Whole(1, 400, 9, 1),
        Key::GearRatio => Kind::Refused,
        Key::StepPin | Key::DirPin | Key::EndstopPin | Key::FanPin => Kind::Pin,
        Key::PositionEndstop => Kind::AnyPosition,
        Key::PositionMax | Key::PositionMin => Kind::Position,
    }
}

/// What stands for an option that is not set.
pub fn fallback(key: Key) -> u64
    ensures { result ≡ (option_row key).fallback }
{
    match key {
        Key::MaxVelocity | Key::RotationDistance => 100_000,
        Key::MaxAccel => 100_000_000,
        Key::SquareCornerVelocity | Key::HomingSpeed => 5_000_000,
        Key::MinimumCruiseRatio => 500_000,
        Key::ClockFreq => 16_000_000,
        Key::MoveSlots => 1_024,
        Key::Microsteps => 1,
        Key::FullSteps => 200,
        _ => 0,
    }
}

/// The place of an option in the table.
fn place(key: Key) -> u8
    ensures { result ≡ option_place key }
{
    match key {
        Key::Kinematics => 0,
        Key::MaxVelocity => 1,
        Key::MaxAccel => 2,
        Key::SquareCornerVelocity => 3,
        Key::MinimumCruiseRatio => 4,
        Key::ClockFreq => 5,
        Key::StartClock => 6,
        Key::MoveSlots => 7,
        Key::DriftPpm => 8,
        Key::StartHomed => 9,
        Key::StepPin => 10,
        Key::DirPin => 11,
        Key::RotationDistance => 12,
        Key::Microsteps => 13,
        Key::FullSteps => 14,
        Key::GearRatio => 15,
        Key::EndstopPin => 16,
        Key::PositionEndstop => 17,
        Key::PositionMax => 18,
        Key::PositionMin => 19,
        Key::HomingSpeed => 20,
        Key::FanPin => 21,
    }
}

pub fn same_key(a: Key, b: Key) -> bool
    ensures { result ≡ specs.same_key a b }
{
    place(a) == place(b)
}

/// Whether the section is that of x, y or z without a digit.
pub fn is_axis(motor: Motor) -> bool
    ensures { result ≡ specs.is_axis motor }
{
    if number(motor.drive) == 3 {
        return false;
    }
    motor.digit == 0
}

fn printer_option(name: &[u8]) -> Option<Key>
    ensures { result ≡ named name.now printer_keys }
{
    if same_small(name, b"kinematics".as_slice()) {
        Some(Key::Kinematics)
    } else if same_small(name, b"max_velocity".as_slice()) {
        Some(Key::MaxVelocity)
    } else if same_small(name, b"max_accel".as_slice()) {
        Some(Key::MaxAccel)
    } else if same_small(name, b"square_corner_velocity".as_slice()) {
        Some(Key::SquareCornerVelocity)
    } else if same_small(name, b"minimum_cruise_ratio".as_slice()) {
        Some(Key::MinimumCruiseRatio)
    } else {
        None
    }
}

fn simulated_option(name: &[u8]) -> Option<Key>
    ensures { result ≡ named name.now simulated_keys }
{
    if same_small(name, b"clock_freq".as_slice()) {
        Some(Key::ClockFreq)
    } else if same_small(name, b"start_clock".as_slice()) {
        Some(Key::StartClock)
    } else if same_small(name, b"move_slots".as_slice()) {
        Some(Key::MoveSlots)
    } else if same_small(name, b"drift_ppm".as_slice()) {
        Some(Key::DriftPpm)
    } else {
        None
    }
}

fn simulation_option(name: &[u8]) -> Option<Key>
    ensures { result ≡ named name.now simulation_keys }
{
    if same_small(name, b"start_homed".as_slice()) {
        Some(Key::StartHomed)
    } else {
        None
    }
}

fn stepper_option(name: &[u8]) -> Option<Key>
    ensures { result ≡ named name.now stepper_keys }
{
    if same_small(name, b"step_pin".as_slice()) {
        Some(Key::StepPin)
    } else if same_small(name, b"dir_pin".as_slice()) {
        Some(Key::DirPin)
    } else if same_small(name, b"rotation_distance".as_slice()) {
        Some(Key::RotationDistance)
    } else if same_small(name, b"microsteps".as_slice()) {
        Some(Key::Microsteps)
    } else if same_small(name, b"full_steps_per_rotation".as_slice()) {
        Some(Key::FullSteps)
    } else if same_small(name, b"gear_ratio".as_slice()) {
        Some(Key::GearRatio)
    } else {
        None
    }
}

fn axis_option(name: &[u8]) -> Option<Key>
    ensures { result ≡ named name.now axis_keys }
{
    if same_small(name, b"endstop_pin".as_slice()) {
        Some(Key::EndstopPin)
    } else if same_small(name, b"position_endstop".as_slice()) {
        Some(Key::PositionEndstop)
    } else if same_small(name, b"position_max".as_slice()) {
        Some(Key::PositionMax)
    } else if same_small(name, b"position_min".as_slice()) {
        Some(Key::PositionMin)
    } else if same_small(name, b"homing_speed".as_slice()) {
        Some(Key::HomingSpeed)
    } else {
        None
    }
}

fn motor_option(motor: Motor, name: &[u8]) -> Option<Key>
    ensures { result
        ≡ specs.or_key (named name.now stepper_keys) (if specs.is_axis motor then named name.now axis_keys else None) }
{
    if let Some(key) = stepper_option(name) {
        return Some(key);
    }
    if is_axis(motor) {
        return axis_option(name);
    }
    None
}

fn fan_option(name: &[u8]) -> Option<Key>
    ensures { result ≡ named name.now fan_keys }
{
    if same_small(name, b"pin".as_slice()) {
        Some(Key::FanPin)
    } else {
        None
    }
}

/// The option of this name in a section.
#[tactic(auto, unfolding(crate::specs::Table::key_named))]
pub fn option_named(section: &Section, name: &[u8]) -> Option<Key>
    ensures { result ≡ key_named section.now name.now }
{
    match section {
        Section::Printer => printer_option(name),
        Section::Simulated(_) => simulated_option(name),
        Section::Simulation => simulation_option(name),
        Section::Stepper(motor) => motor_option(*motor, name),
        Section::Fan => fan_option(name),
        _ => None,
    }
}
