use block_frame::{Block, Found, Scanner, build, scan, spoils, with_ends};
use std::test::Fail;

/// Bytes, what a new scanner tells of them, and how many it takes.
type Row<'a> = (&'a [u8], &'a str, usize);

const ROWS: [Row<'static>; 7] = [
    (&[0x05, 0x10, 0x9e, 0x81, 0x7e], "block", 5),
    (&[0x7e, 0x05, 0x10, 0x9e, 0x81, 0x7e], "skip", 1),
    (&[0x05, 0x10, 0x9e, 0x82, 0x7e], "bad", 5),
    (&[0x05, 0x10, 0x9e, 0x81], "more", 0),
    (&[0x05, 0x20, 0x7e, 0x7e], "bad", 3),
    (&[0x41], "bad", 1),
    (&[], "more", 0),
];

fn name(found: &Found) -> &'static str {
    match found {
        Found::Block { number: 0, content } if content.is_empty() => "block",
        Found::Block { .. } => "another block",
        Found::Skip => "skip",
        Found::NeedMore => "more",
        Found::Bad => "bad",
    }
}

/// What a scanner tells of some bytes, and how many it takes.
fn told(scanner: &mut Scanner, bytes: &[u8]) -> (&'static str, usize) {
    let (found, taken) = scan(scanner, bytes);
    (name(&found), taken)
}

/// The first row of which a new scanner tells something else.
fn first_wrong(rows: &[Row<'_>]) -> Option<usize> {
    for (i, (bytes, name, count)) in rows.iter().enumerate() {
        let mut scanner = Scanner::new();
        if told(&mut scanner, bytes) != (*name, *count) {
            return Some(i);
        }
    }
    None
}

/// Whether a scanner that has taken the byte before a block finds the block.
fn goes_on() -> bool {
    let line: [u8; 6] = [0x7e, 0x05, 0x10, 0x9e, 0x81, 0x7e];
    let mut scanner = Scanner::new();
    let one = told(&mut scanner, &line).1 == 1;
    one && told(&mut scanner, &line[1..]).0 == "block"
}

#[test]
fn the_scanner_tells_what_stands_first(rt: HostRuntime) -> Result<(), Fail> {
    assert_eq!(rt; first_wrong(&ROWS), None);
    assert!(rt; goes_on());
    Ok(())
}

const CONTENT: [u8; 7] = [0x08, 0x00, 0x81, 0x9c, 0x20, 0x4e, 0x00];

const BLOCK: [u8; 12] = [
    0x0c, 0x10, 0x08, 0x00, 0x81, 0x9c, 0x20, 0x4e, 0x00, 0xac, 0x04, 0x7e,
];

/// Whether a scanner finds a block with number 0 and this content.
fn finds(scanner: &mut Scanner, bytes: &[u8], wanted: &[u8]) -> bool {
    match scan(scanner, bytes).0 {
        Found::Block { number, content } => number == 0 && content.as_slice() == wanted,
        _ => false,
    }
}

/// Whether a scanner that has dropped bytes finds the block.
fn finds_behind_dropped_bytes(block: &[u8]) -> bool {
    let mut scanner = Scanner::new();
    let bad = told(&mut scanner, &[0x01, 0x02]).0 == "bad";
    let two = told(&mut scanner, &[0x03, 0x7e, 0x0c]).1 == 2;
    bad && two && finds(&mut scanner, block, &CONTENT)
}

#[test]
fn a_block_is_built_and_found_behind_dropped_bytes(rt: HostRuntime) -> Result<(), Fail> {
    let block = build(0, &CONTENT);
    assert_eq!(rt; block.as_slice(), BLOCK.as_slice());
    assert!(rt; finds_behind_dropped_bytes(block.as_slice()));
    Ok(())
}

/// How many bytes a block has with its ends around it, and whether it is found out as changed.
fn ends_and_spoils(bytes: &[u8]) -> (usize, bool) {
    let mut block = Block::new();
    let _ = block.try_extend_from_slice(bytes);
    (with_ends(&block).len(), spoils(&block))
}

#[test]
fn changed_blocks_are_found_out(rt: HostRuntime) -> Result<(), Fail> {
    assert!(rt; ends_and_spoils(&[0x05, 0x10, 0x9e, 0x80, 0x7e]) == (69, true));
    assert!(rt; ends_and_spoils(&[0x05, 0x10, 0x9e, 0x81, 0x7f]) == (69, true));
    assert!(rt; ends_and_spoils(&[0x05, 0x10, 0x9e, 0x81, 0x7e]) == (69, false));
    Ok(())
}
