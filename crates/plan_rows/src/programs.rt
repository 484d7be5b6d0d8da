use crate::machines::machine;
use gcode_program::{Program, read_program};
use plan_types::{LineKind, ReadEnd, ReadStop, Section, SectionKind};
use std::alloc::{AllocError, Global};
use std::test::Fail;

/// A text, the accepted lines, the passed ones among them, how the reading stopped, and how many sections there are.
type Row<'a> = (&'a str, u64, u64, ReadStop, usize);

const ENDS: [Row<'static>; 10] = [
    ("", 0, 0, ReadStop::End, 0),
    ("\n ; only a comment\nM105", 3, 1, ReadStop::End, 0),
    (
        "G1 X1 F600\nG1 X1.2.3\n",
        1,
        0,
        ReadStop::Refused {
            line: 2,
            kind: LineKind::BadNumber,
        },
        1,
    ),
    (
        "G1 X1 F600\nG2 X5 Y5 I1 J0",
        1,
        0,
        ReadStop::Refused {
            line: 2,
            kind: LineKind::Unsupported,
        },
        1,
    ),
    (
        "G1 X1 F600\nG1 X2 #",
        1,
        0,
        ReadStop::Refused {
            line: 2,
            kind: LineKind::BadLetter,
        },
        1,
    ),
    (
        "G1 X1 F600\nG1 X201",
        1,
        0,
        ReadStop::Refused {
            line: 2,
            kind: LineKind::OutOfRange,
        },
        1,
    ),
    (
        "G1 X1 F600\nG1 X2 F0",
        1,
        0,
        ReadStop::Refused {
            line: 2,
            kind: LineKind::BadSpeed,
        },
        1,
    ),
    (
        "G1 X1 F600\nG1 E600",
        1,
        0,
        ReadStop::Refused {
            line: 2,
            kind: LineKind::MoveTooLong,
        },
        1,
    ),
    ("G1 X1 F600\nM112\nG1 X5", 2, 0, ReadStop::Stop(2), 1),
    ("G1 X1\nM400\nM400\nG1 X2\n\n", 5, 0, ReadStop::End, 2),
];

/// What a text is on a machine that is homed, or isn't.
fn program(alloc: Global, homed: bool, text: &[u8]) -> Result<Program, AllocError> {
    let machine = machine(alloc, homed)?;
    read_program(alloc, &machine, text)
}

/// Whether the text of a row ends so.
fn is_so(alloc: Global, row: &Row<'_>) -> Result<bool, AllocError> {
    let (text, lines, passed, stop, sections) = *row;
    let read = program(alloc, true, text.as_bytes())?;
    let end = ReadEnd {
        lines,
        passed,
        stop,
    };
    Ok(read.end == end && read.sections.len() == sections)
}

/// The first row whose text ends otherwise.
fn first_wrong(alloc: Global, rows: &[Row<'_>]) -> Result<Option<usize>, AllocError> {
    for (i, row) in rows.iter().enumerate() {
        if !is_so(alloc, row)? {
            return Ok(Some(i));
        }
    }
    Ok(None)
}

/// The end of a text whose first line is refused, as the machine isn't homed.
const NOT_HOMED: ReadEnd = ReadEnd {
    lines: 0,
    passed: 0,
    stop: ReadStop::Refused {
        line: 1,
        kind: LineKind::NotHomed,
    },
};

#[test]
fn ends(rt: HostRuntime) -> Result<(), Fail> {
    assert_eq!(rt; first_wrong(rt.alloc(), &ENDS)?, None);
    let read = program(rt.alloc(), false, b"G1 X1")?;
    assert!(rt; read.end == NOT_HOMED);
    Ok(())
}

/// A text that homes, as a slicer writes it.
const TEXT: &str =
    "M140 S60\nM104 S200\nG21\nG90\nM83\nG92 E0\nG28\nG1 Z5 F300\nG1 X10 Y10 F6000 ; go\nG1 X20 E0.5 F1200\nM400\nM104 S0\nG4 P100\nG4 P0.5\nG1 X1";

/// Its sections: what each does, how many moves it has, and the milliseconds of dwells before it.
const SECTIONS: [(SectionKind, usize, u64); 5] = [
    (SectionKind::Home(0), 1, 0),
    (SectionKind::Home(1), 1, 0),
    (SectionKind::Home(2), 1, 0),
    (SectionKind::Moves, 3, 0),
    (SectionKind::Moves, 1, 101),
];

fn are_so(sections: &[Section], wanted: &[(SectionKind, usize, u64)]) -> bool {
    let mut same = sections.len() == wanted.len();
    for (section, (kind, moves, dwell)) in sections.iter().zip(wanted) {
        same = same
            && section.kind == *kind
            && section.moves.len() == *moves
            && section.dwell == *dwell;
    }
    same
}

/// Its end.
const END: ReadEnd = ReadEnd {
    lines: 15,
    passed: 4,
    stop: ReadStop::End,
};

#[test]
fn sections(rt: HostRuntime) -> Result<(), Fail> {
    let read = program(rt.alloc(), false, TEXT.as_bytes())?;
    assert!(rt; read.end == END);
    assert!(rt; are_so(read.sections.as_slice(), &SECTIONS));
    Ok(())
}
