//! The values of options.

ghost use Rattle.std.specs.Prelude.{◌≡◌, ◌<◌, ◌≤◌, ◌+◌, ◌^◌, unsigned_abs, ℕ, IfOk, IfSome, IsTrue, MatchOption, Some, None, pos};
ghost use Rattle.std.specs.List.{list_all};
ghost use Rattle.text_core.specs.Bytes.{front, behind};
ghost use Rattle.cfg_lines.specs.Values as specs;
ghost use Rattle.cfg_lines.specs.Values.{fits, fits_kind, spelled, judged, judged_as, pin_of, unsigned_pin, pin_on, one_of, inverts, is_pin_sign as sign_byte, decimal as decimal_of, whole as whole_of, microsteps as microsteps_in, position as position_of, any_position as any_position_of, offset as offset_of, offset_within, whole_within, microsteps_of};
ghost use Rattle.cfg_lines.specs.declared.table.Kind.TheVariants as kinds;

use crate::section::{is_board_name, is_name_byte};
use crate::table::{Key, Kind, kind_of};
use plan_types::{CfgKind, Name};
use text_core::{cut, number, short_number};

/// A pin that a value names.
#[derive(Drop)]
pub struct Pin {
    pub board: Name,
    pub name: Name,
    /// Whether its signs invert it.
    pub inverted: bool,
}

/// The value of an option.
#[derive(Drop)]
pub enum Value {
    /// A number, in the units of its option.
    Amount(u64),
    /// A signed number, in the units of its option.
    Signed(i64),
    Flag(bool),
    Pin(Pin),
}

/// The number that the whole text spells, in millionths, with at most nine digits before the point.
#[tactic(auto, unfolding(crate::specs::Values::spelled))]
fn short(text: &[u8]) -> Option<i64>
    ensures value { result ≡ spelled 9 text.now }
    ensures size { IfSome result (λ z. unsigned_abs z < 10 ^ 15) }
{
    let (value, rest) = short_number(text)?;
    if rest.is_empty() { Some(value) } else { None }
}

/// The number that the whole text spells, in millionths, with at most so many digits before the point.
#[tactic(auto, unfolding(crate::specs::Values::spelled))]
fn long(text: &[u8], digits: usize) -> Option<i128>
    requires { digits ≤ 18 }
    ensures value { result ≡ spelled digits text.now }
    ensures size { IfSome result (λ z. unsigned_abs z ≤ 10 ^ 24 + 10 ^ 6) }
{
    let (value, rest) = number(text, digits)?;
    if rest.is_empty() { Some(value) } else { None }
}

fn decimal(low: u64, high: u64, value: Option<i64>) -> Result<Value, CfgKind>
    ensures value { result ≡ decimal_of low high value }
    ensures fits { IfOk result (λ value. IsTrue (fits_kind (kinds.Decimal low high) value)) }
{
    let Some(value) = value else {
        return Err(CfgKind::BadValue);
    };
    if value < 0 {
        return Err(CfgKind::OutOfLimit);
    }
    let amount = value as u64;
    if low <= amount && amount <= high {
        Ok(Value::Amount(amount))
    } else {
        Err(CfgKind::OutOfLimit)
    }
}

/// The whole number of these millionths, where they are one within the limits.
fn whole_amount(low: u64, high: u64, step: u64, value: i128) -> Result<Value, CfgKind>
    requires { 0 < step }
    ensures value { result ≡ whole_within low high step value }
    ensures fits { IfOk result (λ value. (digits : ℕ) → IsTrue (fits_kind (kinds.Whole low high digits step) value)) }
{
    if value < 0 {
        return Err(CfgKind::OutOfLimit);
    }
    let amount = value as u128 / 1_000_000;
    if low as u128 <= amount && amount <= high as u128 && amount % step as u128 == 0 {
        Ok(Value::Amount(amount as u64))
    } else {
        Err(CfgKind::OutOfLimit)
    }
}

fn is_whole(value: i128) -> bool
    ensures { result ≡ specs.is_whole value }
{
    value.unsigned_abs() % 1_000_000 == 0
}

fn whole(low: u64, high: u64, step: u64, value: Option<i128>) -> Result<Value, CfgKind>
    requires { 0 < step }
    ensures value { result ≡ whole_of low high step value }
    ensures fits { IfOk result (λ value. (digits : ℕ) → IsTrue (fits_kind (kinds.Whole low high digits step) value)) }
{
    let Some(value) = value else {
        return Err(CfgKind::BadValue);
    };
    if is_whole(value) {
        whole_amount(low, high, step, value)
    } else {
        Err(CfgKind::BadValue)
    }
}

/// The whole number of these millionths, where it is no further from 0 than this.
fn offset_amount(most: u64, value: i64) -> Result<Value, CfgKind>
    requires { most < 10 ^ 9 }
    ensures value { result ≡ offset_within most value }
    ensures fits { IfOk result (λ value. IsTrue (fits_kind (kinds.Offset most) value)) }
{
    let size = value.unsigned_abs() / 1_000_000;
    if size > most {
        return Err(CfgKind::OutOfLimit);
    }
    let size = size as i64;
    Ok(Value::Signed(if value < 0 { -size } else { size }))
}

fn offset(most: u64, value: Option<i64>) -> Result<Value, CfgKind>
    requires { most < 10 ^ 9 }
    ensures value { result ≡ offset_of most value }
    ensures fits { IfOk result (λ value. IsTrue (fits_kind (kinds.Offset most) value)) }
{
    let Some(value) = value else {
        return Err(CfgKind::BadValue);
    };
    if value.unsigned_abs() % 1_000_000 == 0 {
        offset_amount(most, value)
    } else {
        Err(CfgKind::BadValue)
    }
}

fn is_microsteps(amount: u128) -> bool
    ensures { result ≡ specs.is_microsteps amount }
{
    amount == 1
        || amount == 2
        || amount == 4
        || amount == 8
        || amount == 16
        || amount == 32
        || amount == 64
        || amount == 128
        || amount == 256
}

fn microsteps_amount(value: i128) -> Result<Value, CfgKind>
    ensures value { result ≡ microsteps_of value }
    ensures fits { IfOk result (λ value. IsTrue (fits_kind kinds.Microsteps value)) }
{
    if value < 0 {
        return Err(CfgKind::BadValue);
    }
    let amount = value as u128 / 1_000_000;
    if is_microsteps(amount) {
        Ok(Value::Amount(amount as u64))
    } else {
        Err(CfgKind::BadValue)
    }
}

fn microsteps(value: Option<i128>) -> Result<Value, CfgKind>
    ensures value { result ≡ microsteps_in value }
    ensures fits { IfOk result (λ value. IsTrue (fits_kind kinds.Microsteps value)) }
{
    let Some(value) = value else {
        return Err(CfgKind::BadValue);
    };
    if is_whole(value) {
        microsteps_amount(value)
    } else {
        Err(CfgKind::BadValue)
    }
}

fn position(value: Option<i64>) -> Result<Value, CfgKind>
    ensures value { result ≡ position_of value }
    ensures fits { IfOk result (λ value. IsTrue (fits_kind kinds.Position value)) }
{
    let Some(value) = value else {
        return Err(CfgKind::BadValue);
    };
    if value.unsigned_abs() <= 500_000_000 {
        Ok(Value::Signed(value))
    } else {
        Err(CfgKind::OutOfLimit)
    }
}

fn any_position(value: Option<i64>) -> Result<Value, CfgKind>
    ensures value { result ≡ any_position_of value }
    ensures fits { IfOk result (λ value. IsTrue (fits_kind kinds.AnyPosition value)) }
{
    match value {
        None => Err(CfgKind::BadValue),
        Some(value) => Ok(Value::Signed(value)),
    }
}

/// Which of two words the text is.
fn flag(no: &[u8], yes: &[u8], text: &[u8]) -> Result<Value, CfgKind>
    ensures value { result ≡ one_of no.now yes.now text.now }
    ensures fits { IfOk result
        (λ value. IsTrue (fits_kind kinds.Kinematics value) × IsTrue (fits_kind kinds.Truth value)) }
{
    if text == yes {
        Ok(Value::Flag(true))
    } else if text == no {
        Ok(Value::Flag(false))
    } else {
        Err(CfgKind::BadValue)
    }
}

fn is_pin_byte(byte: u8) -> bool
    ensures { result ≡ specs.is_pin_byte byte }
{
    is_name_byte(byte) || byte == b'.'
}

fn all_pin_bytes(text: &[u8]) -> bool
    ensures { result ≡ list_all specs.is_pin_byte text.now }
{
    let mut rest = text;
    while let [first, others @ ..] = rest {
        if !is_pin_byte(*first) {
            return false;
        }
        rest = others;
    }
    true
}

fn is_pin_name(text: &[u8]) -> bool
    ensures { result ≡ specs.is_pin_name text.now }
{
    !text.is_empty() && text.len() <= 16 && all_pin_bytes(text)
}

fn is_pin_sign(byte: u8) -> bool
    ensures { result ≡ sign_byte byte }
{
    byte == b'!' || byte == b'^' || byte == b'~'
}

/// Whether one of the signs at the front is a `!`, and what stands behind them.
fn signs(text: &[u8]) -> (bool, &[u8])
    ensures inverted { result.0 ≡ inverts (front sign_byte text.now) }
    ensures rest { result.1.now ≡ behind sign_byte text.now }
{
    let mut inverted = false;
    let mut rest = text;
    while let [first, others @ ..] = rest {
        if !is_pin_sign(*first) {
            break;
        }
        inverted = inverted || *first == b'!';
        rest = others;
    }
    (inverted, rest)
}

fn pin_named(inverted: bool, board: &[u8], name: &[u8]) -> Result<Value, CfgKind>
    ensures value { result ≡ pin_on inverted board.now name.now }
    ensures fits { IfOk result (λ value. IsTrue (fits_kind kinds.Pin value)) }
{
    if is_board_name(board) && is_pin_name(name) {
        Ok(Value::Pin(Pin {
            board: Name::new(board),
            name: Name::new(name),
            inverted,
        }))
    } else {
        Err(CfgKind::BadValue)
    }
}

fn pin_without_signs(inverted: bool, text: &[u8]) -> Result<Value, CfgKind>
    ensures value { result ≡ unsigned_pin inverted text.now }
    ensures fits { IfOk result (λ value. IsTrue (fits_kind kinds.Pin value)) }
{
    let board = cut(text, b':');
    if board.len() < text.len() {
        pin_named(inverted, board, &text[board.len() + 1..])
    } else {
        pin_named(inverted, b"mcu".as_slice(), text)
    }
}

fn pin_in(text: &[u8]) -> Result<Value, CfgKind>
    ensures value { result ≡ pin_of text.now }
    ensures fits { IfOk result (λ value. IsTrue (fits_kind kinds.Pin value)) }
{
    let (inverted, rest) = signs(text);
    pin_without_signs(inverted, rest)
}

/// What a value of this kind is, or why it isn't one.
fn of_kind(kind: Kind, text: &[u8]) -> Result<Value, CfgKind>
    requires { specs.IsReadable kind }
    ensures value { result ≡ judged_as kind text.now }
    ensures fits { IfOk result (λ value. IsTrue (fits_kind kind value)) }
{
    match kind {
        Kind::Decimal(low, high) => decimal(low, high, short(text)),
        Kind::Whole(low, high, digits, step) => whole(low, high, step, long(text, digits)),
        Kind::Offset(most) => offset(most, short(text)),
        Kind::Microsteps => microsteps(long(text, 9)),
        Kind::Position => position(short(text)),
        Kind::AnyPosition => any_position(short(text)),
        Kind::Kinematics => flag(b"cartesian".as_slice(), b"corexy".as_slice(), text),
        Kind::Truth => flag(b"False".as_slice(), b"True".as_slice(), text),
        Kind::Pin => pin_in(text),
        Kind::Refused => Err(CfgKind::BadValue),
    }
}

/// What a value of an option is, or why it isn't one.
#[tactic(auto, unfolding(crate::specs::Values::judged))]
pub fn judge(key: Key, text: &[u8]) -> Result<Value, CfgKind>
    ensures value { result ≡ judged key text.now }
    ensures fits { IfOk result (λ value. IsTrue (fits key value)) }
{
    of_kind(kind_of(key), text)
}
