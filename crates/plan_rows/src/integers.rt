use arrayvec::ArrayVec;
use std::test::Fail;
use vlq_code::{put, take};

/// Numbers and their bytes.
const NUMBERS: [(u32, &[u8]); 10] = [
    (0xffff_ffe0, &[0x60]),
    (95, &[0x5f]),
    (96, &[0x80, 0x60]),
    (0xffff_ffdf, &[0xff, 0x5f]),
    (12_287, &[0xdf, 0x7f]),
    (12_288, &[0x80, 0xe0, 0x00]),
    (0xffff_f000, &[0xe0, 0x00]),
    (0x7fff_ffff, &[0x87, 0xff, 0xff, 0xff, 0x7f]),
    (0x8000_0000, &[0x88, 0x80, 0x80, 0x80, 0x00]),
    (0xffff_ffff, &[0x7f]),
];

/// Whether a number is put as these bytes.
fn is_put(n: u32, bytes: &[u8]) -> bool {
    let mut out = ArrayVec::new();
    put(n, &mut out);
    out.as_slice() == bytes
}

fn taken(bytes: &[u8]) -> Option<(u32, usize)> {
    take(bytes)
}

/// The first number that has other bytes.
fn first_wrong(rows: &[(u32, &[u8])]) -> Option<usize> {
    for (i, (n, bytes)) in rows.iter().enumerate() {
        if !is_put(*n, bytes) || taken(bytes) != Some((*n, bytes.len())) {
            return Some(i);
        }
    }
    None
}

/// Whether no number is taken from bytes that end too early, or are too many.
fn takes_none() -> bool {
    taken(&[0x80, 0x05]).is_none() && taken(&[0x80]).is_none() && taken(&[]).is_none()
}

#[test]
fn numbers_have_their_spellings(rt: HostRuntime) -> Result<(), Fail> {
    assert_eq!(rt; first_wrong(&NUMBERS), None);
    assert!(rt; takes_none());
    Ok(())
}
