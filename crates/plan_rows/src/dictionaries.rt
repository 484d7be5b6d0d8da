use generated_load::load_machine;
use msg_dict::{Dict, DictFault, ROWS, Row, dict_text, own_formats, read_dict};
use std::alloc::{AllocError, Global};
use std::test::Fail;

/// The dictionary of the board of a load's printer.
pub fn own_text(alloc: Global) -> Result<Vec<u8>, AllocError> {
    let machine = load_machine(alloc)?;
    match machine.boards.as_slice().first() {
        Some(board) => dict_text(alloc, board),
        None => Err(AllocError),
    }
}

/// The dictionary that a text is.
pub fn read(alloc: Global, text: &[u8]) -> Result<Dict, Fail> {
    match read_dict(alloc, text) {
        Ok(dict) => Ok(dict),
        Err(_) => Err(Fail::from("a dictionary")),
    }
}

/// Whether the text's dictionary and the own one know a row by the same number, and it alone.
fn knows(dict: &Dict, own: &Dict, row: Row) -> bool {
    let format = row.format().as_bytes();
    id(own, format) == Some(row.own_id())
        && id(dict, format) == Some(row.own_id())
        && has_format(dict, row.own_id(), format)
        && is_of(row, format)
}

fn id(dict: &Dict, format: &[u8]) -> Option<u32> {
    dict.id(format)
}

fn number(dict: &Dict, enumeration: &[u8], name: &[u8]) -> Option<u32> {
    dict.number(enumeration, name)
}

fn constant(dict: &Dict, name: &[u8]) -> Option<u64> {
    dict.constant(name)
}

fn has_format(dict: &Dict, id: u32, format: &[u8]) -> bool {
    dict.format(id) == Some(format)
}

fn is_of(row: Row, format: &[u8]) -> bool {
    Row::of_format(format) == Some(row)
}

/// The first row that isn't known so.
fn first_unknown(dict: &Dict, own: &Dict, rows: &[Row]) -> Option<usize> {
    for (i, row) in rows.iter().enumerate() {
        if !knows(dict, own, *row) {
            return Some(i);
        }
    }
    None
}

/// The dictionary of the board, whose text has so many bytes.
fn dictionary(alloc: Global) -> Result<(Dict, usize), Fail> {
    let text = own_text(alloc)?;
    Ok((read(alloc, text.as_slice())?, text.len()))
}

/// The first row that the board's dictionary and the own formats don't know alike.
fn first_unknown_row(alloc: Global, dict: &Dict) -> Result<Option<usize>, AllocError> {
    let own = own_formats(alloc)?;
    Ok(first_unknown(dict, &own, &ROWS))
}

#[test]
fn a_board_tells_its_dictionary(rt: HostRuntime) -> Result<(), Fail> {
    let (dict, len) = dictionary(rt.alloc())?;
    assert!(rt; len == 1_353 && tells(&dict));
    assert_eq!(rt; first_unknown_row(rt.alloc(), &dict)?, None);
    Ok(())
}

#[test]
fn the_own_formats_stand_alone(rt: HostRuntime) -> Result<(), Fail> {
    let own = own_formats(rt.alloc())?;
    assert!(rt; tells_nothing_more(&own));
    Ok(())
}

/// Whether the board's dictionary tells the pins, the reasons and the clock.
fn tells(dict: &Dict) -> bool {
    id(dict, b"queue_step oid=%c interval=%u count=%hu add=%hi") == Some(8)
        && number(dict, b"pin", b"PB0") == Some(0)
        && number(dict, b"pin", b"PB7") == Some(10)
        && number(dict, b"static_string_id", b"Timer too close") == Some(1)
        && number(dict, b"pin", b"PB8") == None
        && constant(dict, b"CLOCK_FREQ") == Some(16_000_000)
        && constant(dict, b"FREQ") == None
}

/// The own formats have none of those.
fn tells_nothing_more(own: &Dict) -> bool {
    constant(own, b"CLOCK_FREQ") == None && number(own, b"pin", b"PB0") == None
}

/// Texts that are no dictionary, and why.
const FAULTS: [(&[u8], DictFault); 10] = [
    (b"x", DictFault::NotJson),
    (b"{}", DictFault::Shape),
    (b"[]", DictFault::Shape),
    (
        b"{\"commands\":{\"a\":1.0},\"responses\":{},\"config\":{},\"enumerations\":{}}",
        DictFault::Shape,
    ),
    (
        b"{\"commands\":{\"a  b=%u\":1,\"c\":1},\"responses\":{},\"config\":{},\"enumerations\":{}}",
        DictFault::BadFormat,
    ),
    (
        b"{\"commands\":{\"a b=%x\":1},\"responses\":{},\"config\":{},\"enumerations\":{}}",
        DictFault::BadFormat,
    ),
    (
        b"{\"commands\":{\"a\":-1},\"responses\":{\"b\":4294967295},\"config\":{},\"enumerations\":{}}",
        DictFault::SameId,
    ),
    (
        b"{\"commands\":{\"a\":-0},\"responses\":{},\"config\":{},\"enumerations\":{}}",
        DictFault::Shape,
    ),
    (
        b"{\"commands\":{\"a\":4294967296},\"responses\":{},\"config\":{},\"enumerations\":{}}",
        DictFault::Shape,
    ),
    (&[b'"', 0xff, b'"'], DictFault::NotJson),
];

fn is_refused(alloc: Global, text: &[u8], fault: DictFault) -> bool {
    matches!(read_dict(alloc, text), Err(found) if found == fault)
}

/// The first text that isn't refused so.
fn first_not_refused(alloc: Global, rows: &[(&[u8], DictFault)]) -> Option<usize> {
    for (i, (text, fault)) in rows.iter().enumerate() {
        if !is_refused(alloc, text, *fault) {
            return Some(i);
        }
    }
    None
}

/// A dictionary with a command, two constants, one of which is no whole number, and two enumerations, one of
/// which is none.
const SMALL: &str =
    "{\"commands\":{\"get_uptime\":-32},\"responses\":{},\"config\":{\"a\":1.5,\"b\":2},\"enumerations\":{\"c\":1,\"d\":{\"e\":3}}}";

fn tells_its_numbers(dict: &Dict) -> bool {
    id(dict, b"get_uptime") == Some(4_294_967_264)
        && constant(dict, b"a") == None
        && constant(dict, b"b") == Some(2)
        && number(dict, b"d", b"e") == Some(3)
}

#[test]
fn faults_come_in_their_order(rt: HostRuntime) -> Result<(), Fail> {
    assert_eq!(rt; first_not_refused(rt.alloc(), &FAULTS), None);
    let dict = read(rt.alloc(), SMALL.as_bytes())?;
    assert!(rt; tells_its_numbers(&dict));
    Ok(())
}
