use gcode_text::{FaultKind, Given, LineFault, Word, read_line};
use std::test::Fail;

/// A line, a letter, and what stands behind it.
type Spelled<'a> = (&'a str, u8, Option<Given>);

const WORDS: [Spelled<'static>; 13] = [
    ("G1 X1 F600", b'X', Some(Given::Number(1_000_000))),
    ("G1 X1 F600", b'F', Some(Given::Number(600_000_000))),
    ("g01x-1.5y2", b'X', Some(Given::Number(-1_500_000))),
    (
        "n10 g1 X1.23456789;X9",
        b'X',
        Some(Given::Number(1_234_567)),
    ),
    ("G1 X1 X2 * 33 X3", b'X', Some(Given::Number(2_000_000))),
    ("G1 X1e3", b'E', Some(Given::Number(3_000_000))),
    ("G28 X", b'X', Some(Given::Bare)),
    ("G28 XY0", b'Y', Some(Given::Number(0))),
    ("G1 X.5\r", b'X', Some(Given::Number(500_000))),
    ("G1 X5.", b'X', Some(Given::Number(5_000_000))),
    (
        "G0000000000000000001 X+999999999.999999",
        b'X',
        Some(Given::Number(999_999_999_999_999)),
    ),
    ("G1", b'X', None),
    ("G1 X1", b'x', None),
];

/// What stands behind a letter of a line; where that is no command, seven millionths.
fn given(line: &[u8], letter: u8) -> Option<Given> {
    match read_line(line, 1) {
        Ok(Word::Command { name: _, values }) => values.get(letter),
        _ => Some(Given::Number(7)),
    }
}

/// The first row that is read otherwise.
fn first_wrong(rows: &[Spelled<'_>]) -> Option<usize> {
    for (i, (line, letter, wanted)) in rows.iter().enumerate() {
        if given(line.as_bytes(), *letter) != *wanted {
            return Some(i);
        }
    }
    None
}

#[test]
fn words_of_lines(rt: HostRuntime) -> Result<(), Fail> {
    assert_eq!(rt; first_wrong(&WORDS), None);
    Ok(())
}

/// A line, and its fault.
type Faulty<'a> = (&'a str, Option<FaultKind>);

const KINDS: [Faulty<'static>; 15] = [
    ("G1 X1.2.3", Some(FaultKind::BadNumber)),
    ("G2 X5 Y5 I1 J0", Some(FaultKind::Unsupported)),
    ("G1 X2 #", Some(FaultKind::BadLetter)),
    ("G28 X.", Some(FaultKind::BadNumber)),
    ("M204 S", Some(FaultKind::BadNumber)),
    ("G1 X1234567890", Some(FaultKind::BadNumber)),
    ("G1 X 5", Some(FaultKind::BadNumber)),
    ("G1 X# Y", Some(FaultKind::BadNumber)),
    ("G1 # Y", Some(FaultKind::BadLetter)),
    ("G20", Some(FaultKind::Unsupported)),
    ("M104 S# whatever", None),
    ("M204 X3", None),
    ("N10", None),
    ("G92.1", None),
    ("  \t ; c", None),
];

fn fault(line: &[u8], number: u64) -> Option<LineFault> {
    match read_line(line, number) {
        Err(fault) => Some(fault),
        Ok(_) => None,
    }
}

fn has_fault(line: &[u8], wanted: Option<FaultKind>) -> bool {
    match (fault(line, 2), wanted) {
        (Some(fault), Some(kind)) => fault.line == 2 && fault.kind == kind,
        (None, None) => true,
        _ => false,
    }
}

/// The first line with another fault.
fn first_other(rows: &[Faulty<'_>]) -> Option<usize> {
    for (i, (line, wanted)) in rows.iter().enumerate() {
        if !has_fault(line.as_bytes(), *wanted) {
            return Some(i);
        }
    }
    None
}

#[test]
fn kinds_of_lines(rt: HostRuntime) -> Result<(), Fail> {
    assert_eq!(rt; first_other(&KINDS), None);
    Ok(())
}

fn is_passed(line: &[u8]) -> bool {
    matches!(read_line(line, 3), Ok(Word::Passed))
}

fn is_blank(line: &[u8]) -> bool {
    matches!(read_line(line, 3), Ok(Word::Blank))
}

#[test]
fn lines_are_passed(rt: HostRuntime) -> Result<(), Fail> {
    assert!(rt;
        is_passed(b"N10") && is_passed(b"M204 X3") && is_passed(b"T0") && is_blank(b" \t\r")
    );
    let long = [b'x'; 1025];
    assert!(rt; is_passed(&long[..1024]) && fault(&long, 3).is_some());
    Ok(())
}
