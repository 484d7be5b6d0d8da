//! Decimal numbers in a text.

ghost use Rattle.std.specs.Prelude.{◌≡◌, ◌==◌, ◌&&◌, ℕ, ◌+◌, ◌-◌, ◌*◌, ◌^◌, ◌<◌, ◌≤◌, min, length, option_map, unsigned_abs, IfSome, IfNone, Some, None, IsTrue, SomeIff};
ghost use Rattle.text_core.specs.Bytes.{is_digit as digit, is_sign, is_point, front, behind, begins, without};
ghost use Rattle.text_core.specs.Numbers.{value_of, is_natural, worth, decimals_of, rest_of, parts_of, number_at, is_readable, signed};

use crate::bytes::{front_digits, is_digit};

/// The digits at the front of a text, and what stands behind them.
#[derive(Clone, Copy, Debug)]
pub struct Digits<'a> {
    pub count: usize,
    pub value: u64,
    pub rest: &'a [u8],
}

/// Values of digits from here on count as this one.
const LARGE: u64 = 1_000_000_000_000_000_000;

/// The digits at the front as a whole number. From 10^18 on the value counts as 10^18.
#[tactic(auto, unfolding(crate::specs::Numbers::value_of))]
pub fn whole(text: &[u8]) -> Digits<'_>
    ensures count { result.count ≡ length (front digit text.now) }
    ensures rest { result.rest.now ≡ behind digit text.now }
    ensures capped { result.value ≡ min (value_of (front digit text.now)) 1000000000000000000 }
    ensures bounded { result.value ≤ 1000000000000000000 }
{
    let mut count = 0;
    let mut value: u64 = 0;
    let mut rest = text;
    while let [first, others @ ..] = rest {
        if !is_digit(*first) {
            break;
        }
        count += 1;
        value = (10 * value + (*first - b'0') as u64).min(LARGE);
        rest = others;
    }
    Digits { count, value, rest }
}

/// The digits at the front as decimals, in millionths.
fn decimals(text: &[u8]) -> Digits<'_>
    ensures count { result.count ≡ length (front digit text.now) }
    ensures rest { result.rest.now ≡ behind digit text.now }
    ensures value { result.value ≡ worth 100000 (front digit text.now) }
    ensures small { result.value < 1000000 }
{
    let mut count = 0;
    let mut value: u64 = 0;
    let mut unit: u64 = 100_000;
    let mut rest = text;
    while let [first, others @ ..] = rest {
        if !is_digit(*first) {
            break;
        }
        count += 1;
        value += (*first - b'0') as u64 * unit;
        unit /= 10;
        rest = others;
    }
    Digits { count, value, rest }
}

/// A point and the decimals behind it, where there is one.
fn fraction(text: &[u8]) -> Digits<'_>
    ensures count { result.count ≡ length (decimals_of text.now) }
    ensures rest { result.rest.now ≡ rest_of text.now }
    ensures value { result.value ≡ worth 100000 (decimals_of text.now) }
    ensures small { result.value < 1000000 }
{
    match text {
        [b'.', others @ ..] => decimals(others),
        _ => Digits {
            count: 0,
            value: 0,
            rest: text,
        },
    }
}

/// Whether the text begins with a minus, and the text without a sign.
fn sign(text: &[u8]) -> (bool, &[u8])
    ensures negative { result.0 ≡ begins (λ b. b == 45) text.now }
    ensures rest { result.1.now ≡ without is_sign text.now }
{
    match text {
        [b'-', others @ ..] => (true, others),
        [b'+', others @ ..] => (false, others),
        _ => (false, text),
    }
}

/// Whether so many digits before a point and behind it, and what follows, are a number.
#[tactic(auto, unfolding(crate::specs::Numbers::is_readable))]
fn readable(most: usize, whole_count: usize, decimal_count: usize, rest: &[u8]) -> bool
    ensures { result ≡ is_readable most whole_count decimal_count rest.now }
{
    if whole_count > most || (whole_count == 0 && decimal_count == 0) {
        return false;
    }
    match rest {
        [b'.' | b'+' | b'-', ..] => false,
        _ => true,
    }
}

#[tactic(auto, unfolding(crate::specs::Numbers::signed))]
fn with_sign(negative: bool, millionths: u64) -> i64
    requires { millionths < 2 ^ 62 }
    ensures value { result ≡ signed negative millionths }
    ensures size { unsigned_abs result ≡ millionths }
{
    let amount = millionths as i64;
    if negative { -amount } else { amount }
}

#[tactic(auto, unfolding(crate::specs::Numbers::signed))]
fn with_long_sign(negative: bool, millionths: u128) -> i128
    requires { millionths < 2 ^ 126 }
    ensures value { result ≡ signed negative millionths }
    ensures size { unsigned_abs result ≡ millionths }
{
    let amount = millionths as i128;
    if negative { -amount } else { amount }
}

/// The parts of what may be a number.
#[derive(Drop)]
struct Split<'a> {
    negative: bool,
    whole_count: usize,
    whole: u64,
    decimal_count: usize,
    millionths: u64,
    rest: &'a [u8],
}

#[tactic(auto, unfolding(crate::specs::Numbers::parts_of))]
fn split_number(text: &[u8]) -> Split<'_>
    ensures negative { result.negative ≡ (parts_of text.now).negative }
    ensures whole_count { result.whole_count ≡ length (parts_of text.now).whole }
    ensures whole { result.whole ≡ min (value_of (parts_of text.now).whole) 1000000000000000000 }
    ensures decimal_count { result.decimal_count ≡ length (parts_of text.now).decimals }
    ensures millionths { result.millionths ≡ worth 100000 (parts_of text.now).decimals }
    ensures small { result.millionths < 1000000 }
    ensures rest { result.rest.now ≡ (parts_of text.now).rest }
{
    let (negative, unsigned) = sign(text);
    let whole_part = whole(unsigned);
    let fraction_part = fraction(whole_part.rest);
    Split {
        negative,
        whole_count: whole_part.count,
        whole: whole_part.value,
        decimal_count: fraction_part.count,
        millionths: fraction_part.value,
        rest: fraction_part.rest,
    }
}

/// The parts of a number that stands first in a text, with at most `most` digits before the point.
fn find(text: &[u8], most: usize) -> Option<Split<'_>>
    requires { most ≤ 18 }
    ensures none { IfNone result (number_at most text.now ≡ None) }
    ensures number { IfSome result (λ found. number_at most text.now
        ≡ Some (signed found.negative (found.whole * 1000000 + found.millionths), found.rest.now)) }
    ensures rest { IfSome result (λ found. found.rest.now ≡ (parts_of text.now).rest) }
    ensures whole { IfSome result (λ found. found.whole < 10 ^ most) }
    ensures bounded { IfSome result (λ found. found.whole ≤ 1000000000000000000) }
    ensures small { IfSome result (λ found. found.millionths < 1000000) }
{
    let found = split_number(text);
    if !readable(most, found.whole_count, found.decimal_count, found.rest) {
        return None;
    }
    Some(found)
}

/// The number that stands first in a text, in millionths, and what stands behind it. It has at most nine digits
/// before the point; decimals past the sixth are cut off.
pub fn short_number(text: &[u8]) -> Option<(i64, &[u8])>
    ensures number { option_map (λ found. (found.0, found.1.now)) result ≡ number_at 9 text.now }
    ensures rest { IfSome result (λ found. found.1.now ≡ (parts_of text.now).rest) }
    ensures size { IfSome result (λ found. unsigned_abs found.0 < 10 ^ 15) }
{
    let found = find(text, 9)?;
    let amount = with_sign(found.negative, found.whole * 1_000_000 + found.millionths);
    Some((amount, found.rest))
}

/// The number that stands first in a text, in millionths, and what stands behind it. It has at most `most` digits
/// before the point; decimals past the sixth are cut off.
pub fn number(text: &[u8], most: usize) -> Option<(i128, &[u8])>
    requires { most ≤ 18 }
    ensures number { option_map (λ found. (found.0, found.1.now)) result ≡ number_at most text.now }
    ensures size { IfSome result (λ found. unsigned_abs found.0 ≤ 10 ^ 24 + 10 ^ 6) }
{
    let found = find(text, most)?;
    let millionths = found.whole as u128 * 1_000_000 + found.millionths as u128;
    Some((with_long_sign(found.negative, millionths), found.rest))
}

/// `value` with one more digit behind it, where that fits.
fn with_digit(value: u64, digit: u8) -> Option<u64>
    ensures { SomeIff result (10 * value + (digit - 48) < 2 ^ 64) (10 * value + (digit - 48)) }
{
    value
        .checked_mul(10)?
        .checked_add(digit.saturating_sub(b'0') as u64)
}

/// The number that the whole text spells by digits alone, where it fits.
#[tactic(auto, using(crate::proofs::Spelled::grows), unfolding(crate::specs::Numbers::value_of))]
pub fn natural(text: &[u8]) -> Option<u64>
    ensures { SomeIff result (IsTrue (is_natural text.now) × (value_of text.now < 2 ^ 64)) (value_of text.now) }
{
    if !front_digits(text) {
        return None;
    }
    let mut value = 0;
    let mut rest = text;
    while let [first, others @ ..] = rest {
        if !is_digit(*first) {
            return None;
        }
        match with_digit(value, *first) {
            None => return None,
            Some(next) => value = next,
        }
        rest = others;
    }
    Some(value)
}
