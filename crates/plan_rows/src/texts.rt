use std::test::Fail;
use text_core::{
    cut, first_line, front_digits, is_blank, is_digit, is_letter, natural, number, same_small,
    short_number, skip_blanks, to_capital, to_small, trim, trim_end, whole, without_return,
};

/// Texts and the numbers in front of them, in millionths.
const SHORT: [(&str, Option<i64>); 11] = [
    ("1.23456789", Some(1_234_567)),
    ("-0.5", Some(-500_000)),
    ("+999999999.999999", Some(999_999_999_999_999)),
    ("40.", Some(40_000_000)),
    (".5 ", Some(500_000)),
    ("1234567890", None),
    (".", None),
    ("1.2.3", None),
    ("1-", None),
    ("- 1", None),
    ("", None),
];

fn short(text: &[u8]) -> Option<i64> {
    match short_number(text) {
        Some((amount, _)) => Some(amount),
        None => None,
    }
}

/// The first text with another number in front.
fn first_other(rows: &[(&str, Option<i64>)]) -> Option<usize> {
    for (i, (text, wanted)) in rows.iter().enumerate() {
        if short(text.as_bytes()) != *wanted {
            return Some(i);
        }
    }
    None
}

#[test]
fn short_numbers(rt: HostRuntime) -> Result<(), Fail> {
    assert_eq!(rt; first_other(&SHORT), None);
    Ok(())
}

/// Whether a text begins with this number, and this is behind it.
fn begins_with(text: &[u8], wanted: i128, behind: &[u8]) -> bool {
    match number(text, 13) {
        Some((amount, rest)) => amount == wanted && rest == behind,
        None => false,
    }
}

fn is_natural(text: &[u8], wanted: Option<u64>) -> bool {
    natural(text) == wanted
}

/// Whether these texts are natural numbers, or none.
fn are_natural() -> bool {
    is_natural(b"18446744073709551615", Some(u64::MAX))
        && is_natural(b"18446744073709551616", None)
        && is_natural(b"007", Some(7))
        && is_natural(b"7 ", None)
}

#[test]
fn long_and_natural_numbers(rt: HostRuntime) -> Result<(), Fail> {
    assert!(rt; begins_with(b"1099511627776;", 1_099_511_627_776_000_000, b";"));
    assert!(rt; are_natural());
    assert!(rt; whole(b"20x").value == 20);
    Ok(())
}

fn is_trimmed(text: &[u8], wanted: &[u8]) -> bool {
    trim(text) == wanted
}

#[test]
fn texts_are_trimmed(rt: HostRuntime) -> Result<(), Fail> {
    assert!(rt;
        is_trimmed(b" \ta b\t ", b"a b")
            && is_trimmed(b"\t \t", b"")
            && is_trimmed(b"", b"")
            && is_trimmed(b"a\r ", b"a\r")
    );
    Ok(())
}

fn is_trimmed_behind(text: &[u8], wanted: &[u8]) -> bool {
    trim_end(text) == wanted
}

fn is_trimmed_before(text: &[u8], wanted: &[u8]) -> bool {
    skip_blanks(text) == wanted
}

fn is_without_return(text: &[u8], wanted: &[u8]) -> bool {
    without_return(text) == wanted
}

fn is_cut(text: &[u8], wanted: &[u8]) -> bool {
    cut(text, b';') == wanted
}

#[test]
fn texts_are_cut(rt: HostRuntime) -> Result<(), Fail> {
    assert!(rt; is_trimmed_behind(b" a ", b" a") && is_trimmed_before(b" \t\rx", b"\rx"));
    assert!(rt; is_without_return(b"a\r\r", b"a\r") && is_without_return(b"\ra", b"\ra"));
    assert!(rt; is_cut(b"a;b;c", b"a") && is_cut(b"abc", b"abc"));
    Ok(())
}

fn is_same(text: &[u8], name: &[u8]) -> bool {
    same_small(text, name)
}

/// Whether a byte has these two forms.
fn has_forms(byte: u8, capital: u8, small: u8) -> bool {
    to_capital(byte) == capital && to_small(byte) == small
}

fn has_digits_in_front(text: &[u8]) -> bool {
    front_digits(text)
}

fn are_told_apart() -> bool {
    is_letter(b'g') && !is_letter(b'1') && is_digit(b'9') && is_blank(b'\t')
}

#[test]
fn letters_have_two_forms(rt: HostRuntime) -> Result<(), Fail> {
    assert!(rt;
        is_same(b"Max_Velocity", b"max_velocity")
            && !is_same(b"max", b"max_velocity")
            && !is_same(b"[", b"{")
    );
    assert!(rt;
        has_forms(b'z', b'Z', b'z')
            && has_forms(b'{', b'{', b'{')
            && has_forms(b'A', b'A', b'a')
            && has_forms(b'@', b'@', b'@')
    );
    assert!(rt; are_told_apart() && has_digits_in_front(b"1x") && !has_digits_in_front(b"x1"));
    Ok(())
}

/// Whether the first line of a text is this, and what is behind it.
fn has_first(text: &[u8], line: &[u8], rest: &[u8]) -> bool {
    if text.is_empty() {
        return false;
    }
    let (first, others) = first_line(text);
    first == line && others == rest
}

#[test]
fn lines_end_at_line_feeds(rt: HostRuntime) -> Result<(), Fail> {
    assert!(rt;
        has_first(b"a\nb", b"a", b"b") && has_first(b"a", b"a", b"") && has_first(b"\n", b"", b"")
    );
    Ok(())
}
