//! The blocks of Klipper's protocol (Protocol.md, "Message Blocks"), and the scanner that finds them in any bytes.
#![tactic(auto)]

ghost use Rattle.std.specs.Prelude.{◌≡◌, ℕ, ◌+◌, ◌-◌, ◌*◌, ◌/◌, ◌%◌, ◌^◌, ◌<◌, ◌≤◌, ◌==◌, List, [], ◌∷◌, ◌++◌, length, take, drop, slice_index, slice_set, IfSome, IfNone, IsTrue, ◌↔◌, true, false};
ghost use Rattle.block_frame.specs.Block.{checksum, checksum_after, block_text, mixed, with_mixed};
ghost use Rattle.block_frame.specs.Scan.{IsBlock, HasBlock, IsSkip, IsUndecided, IsBad, ToEnd, NoEnd};

use arrayvec::ArrayVec;

/// The bytes of a block: its length, its sequence byte, up to 59 bytes of content, a checksum and the byte `7E`.
pub type Block = ArrayVec<u8, 64>;

/// The block with this number and content.
pub fn build(number: u8, content: &[u8]) -> Block
    requires number { number < 16 }
    requires content { length content.now ≤ 59 }
    ensures { result.items ≡ block_text number content.now }
{
    let mut block = Block::new();
    block.push(content.len() as u8 + 5);
    block.push(0x10 + number);
    for byte in content {
        block.push(*byte);
    }
    let crc = checksum_of(block.as_slice());
    block.push((crc / 256) as u8);
    block.push((crc % 256) as u8);
    block.push(0x7e);
    block
}

/// The checksum of a block's bytes before it: CRC-16 CCITT as Klipper computes it, bytewise and without a table.
#[tactic(auto, using(crate::proofs::Checks::checksum_after_append, crate::proofs::Checks::checksum_after_nil), unfolding(crate::specs::Block::checksum))]
fn checksum_of(bytes: &[u8]) -> u16
    ensures { result ≡ checksum bytes.now }
{
    let mut crc: u16 = 0xffff;
    for byte in bytes {
        crc = taken_in(crc, *byte);
    }
    crc
}

/// The checksum with one more byte.
fn taken_in(crc: u16, byte: u8) -> u16
    ensures { result ≡ with_mixed crc (mixed crc byte) }
{
    let d = u16::from(byte) ^ (crc & 0xff);
    let d = d ^ ((d << 4) & 0xff);
    ((d << 8) | (crc >> 8)) ^ (d >> 4) ^ (d << 3)
}

/// The law of blocks: none begins another.
pub fn one_block()
    ensures { (m n : ℕ) (c d x y : List ℕ) → length c ≤ 59 → length d ≤ 59 → block_text m c ++ x ≡ block_text n d ++ y →
        (m ≡ n) × (c ≡ d) }
{}

/// The law of changed bytes: a block of which one byte past the length was changed is no block of the same
/// length, whatever follows. A block found there has its length still, so the byte is the one that stood
/// there.
pub fn changed_bytes_are_found_out()
    ensures { (number : ℕ) (content rest : List ℕ) (i byte : ℕ) → number < 16 → length content ≤ 59 →
        ((k : ℕ) → slice_index content k < 256) → 0 < i → i < length content + 5 → byte < 256 →
        HasBlock (slice_set (block_text number content) i byte ++ rest) →
        byte ≡ slice_index (block_text number content) i }
{}

/// What stands first in the bytes.
#[derive(Clone, Copy, Debug, PartialEq, Eq)]
enum Decision {
    Wait,
    Skip,
    Bad,
    Good,
}

ghost use Rattle.block_frame.specs.Decided.{Decides};

/// What stands first, for a scanner that drops nothing: the length is judged by the first byte, the high half of the
/// sequence byte by the second, and the rest once the whole block is there.
fn decide(bytes: &[u8]) -> Decision
    ensures { Decides bytes.now result }
{
    if bytes.is_empty() {
        return Decision::Wait;
    }
    if bytes[0] == 0x7e {
        return Decision::Skip;
    }
    let len = bytes[0] as usize;
    if len < 5 || len > 64 {
        return Decision::Bad;
    }
    if bytes.len() >= 2 && bytes[1] / 16 != 1 {
        return Decision::Bad;
    }
    if bytes.len() < len {
        return Decision::Wait;
    }
    if is_whole(bytes, len) {
        Decision::Good
    } else {
        Decision::Bad
    }
}

/// Whether the bytes end as a block of this length, of which the checksum is right.
fn is_whole(bytes: &[u8], len: usize) -> bool
    requires len { (5 ≤ len) × (len ≤ length bytes.now) }
    ensures { IsTrue result
        ↔ ((slice_index bytes.now (len - 1) ≡ 126)
        × (checksum (take (len - 3) bytes.now)
        ≡ 256 * slice_index bytes.now (len - 3) + slice_index bytes.now (len - 2))) }
{
    let crc = checksum_of(&bytes[..len - 3]);
    bytes[len - 1] == 0x7e && crc == 256 * u16::from(bytes[len - 3]) + u16::from(bytes[len - 2])
}

ghost use Rattle.block_frame.specs.Scanned.{Scans, Drops};

use std::marker::Model;

/// What stands first in the bytes of a line.
#[derive(Drop)]
pub enum Found {
    /// A whole block, with its number from 0 to 15.
    Block {
        number: u8,
        content: ArrayVec<u8, 59>,
    },
    /// A byte `7E` where a block would begin.
    Skip,
    /// Fewer bytes than decide.
    NeedMore,
    /// Bytes that are no block, up to and with the next `7E`.
    Bad,
}

/// Finds the blocks in a stream of bytes. What contracts see of it is whether it is dropping bytes.
#[derive(Drop)]
pub struct Scanner {
    dropping: bool,
}

impl Model for Scanner {
    ghost use Rattle.std.specs.Prelude.{Bool};

    ghost Value = { Bool };

    ghost view = { λ s. s.dropping };
}

impl Scanner {
    /// A scanner that drops nothing.
    pub fn new() -> Self
        ensures { result ≡ false }
    {
        Scanner { dropping: false }
    }
}

/// What stands first in any bytes, and how many of them it takes. Where it is a `Bad` without a `7E`, the
/// scanner goes on dropping in what comes next.
pub fn scan(s: &mut Scanner, bytes: &[u8]) -> (Found, usize)
    ensures { Scans s.old bytes.now result.0 result.1 s.new }
{
    if s.dropping {
        if bytes.is_empty() {
            return (Found::NeedMore, 0);
        }
        let (count, dropping) = to_end(bytes);
        s.dropping = dropping;
        return (Found::Bad, count);
    }
    match decide(bytes) {
        Decision::Wait => (Found::NeedMore, 0),
        Decision::Skip => (Found::Skip, 1),
        Decision::Bad => {
            let (count, dropping) = to_end(bytes);
            s.dropping = dropping;
            (Found::Bad, count)
        }
        Decision::Good => {
            let (number, content, count) = block_at(bytes);
            (Found::Block { number, content }, count)
        }
    }
}

/// How many bytes are up to and with the first one that ends a block, and whether there is none.
fn to_end(bytes: &[u8]) -> (usize, bool)
    ensures { Drops bytes.now result.0 result.1 }
{
    for i in 0..bytes.len() {
        if bytes[i] == 0x7e {
            return (i + 1, false);
        }
    }
    (bytes.len(), true)
}

/// The block that stands first, and its length.
fn block_at(bytes: &[u8]) -> (u8, ArrayVec<u8, 59>, usize)
    requires { HasBlock bytes.now }
    ensures block { IsBlock result.0 result.1.items bytes.now }
    ensures count { result.2 ≡ length result.1.items + 5 }
{
    let len = bytes[0] as usize;
    (bytes[1] - 16, content_of(&bytes[2..len - 3]), len)
}

/// The bytes as a block's content.
fn content_of(bytes: &[u8]) -> ArrayVec<u8, 59>
    requires { length bytes.now ≤ 59 }
    ensures { result.items ≡ bytes.now }
{
    let mut content = ArrayVec::new();
    for byte in bytes {
        content.push(*byte);
    }
    content
}

ghost use Rattle.std.specs.Prelude.{Bool};
ghost use Rattle.std.specs.List.{flat_map};
ghost use Rattle.block_frame.specs.declared.Found.{Found};
ghost use Rattle.block_frame.specs.Stream.{Reads, ReadsPieces, blocks_in};

/// The law of streams: bytes that come in pieces, each behind what those before it left, have the blocks that they have
/// as a whole, and leave the same.
pub fn pieces_have_the_same_blocks()
    ensures { (pieces : List (List ℕ)) (whole found : List Found) (left left1 : List ℕ) (drops drops1 : Bool) →
        Reads false (flat_map (λ piece. piece) pieces) whole left drops →
        ReadsPieces false [] pieces found left1 drops1 →
        (blocks_in whole ≡ blocks_in found) × (left ≡ left1) × (drops ≡ drops1) }
{}

ghost use Rattle.std.specs.Prelude.{replicate};
ghost use Rattle.block_frame.specs.Spoils.{IsOnlyBad, Spoils, ending_bytes, is_found_out};

/// What a line gives for a block that was changed on it: the block, and behind it 64 bytes `7E`.
pub fn with_ends(b: &Block) -> ArrayVec<u8, 128>
    ensures { result.items ≡ b.now.items ++ ending_bytes }
{
    let mut bytes = ArrayVec::new();
    for byte in b.as_slice() {
        bytes.push(*byte);
    }
    add_ends(&mut bytes);
    bytes
}

/// Puts 64 bytes `7E` behind the others.
fn add_ends(bytes: &mut ArrayVec<u8, 128>)
    requires { length bytes.old.items ≤ 64 }
    ensures { bytes.new.items ≡ bytes.old.items ++ ending_bytes }
{
    for _ in 0..64_usize {
        bytes.push(0x7e);
    }
}

/// Whether a changed block is found out by a new scanner, which finds something bad and no block in what the line gives
/// for it.
pub fn spoils(b: &Block) -> bool
    ensures found { IsTrue result ↔ Spoils b.now.items }
    ensures test { result ≡ is_found_out b.now.items }
{
    let mut scanner = Scanner::new();
    is_only_bad(&mut scanner, with_ends(b).as_slice(), false)
}

/// Whether a scanner finds something bad and no block, or found something bad before.
fn is_only_bad(scanner: &mut Scanner, bytes: &[u8], before: bool) -> bool
    ensures { IsTrue result ↔ IsOnlyBad scanner.old bytes.now before }
{
    let (found, count) = scan(scanner, bytes);
    match found {
        Found::Block { .. } => false,
        Found::NeedMore => before,
        Found::Skip => is_only_bad(scanner, &bytes[count..], before),
        Found::Bad => is_only_bad(scanner, &bytes[count..], true),
    }
}

/// The law of ends: behind them each scanner stands where a block begins, whatever came before them.
pub fn ends_let_blocks_begin()
    ensures { (dropping drops : Bool) (bytes left : List ℕ) (found : List Found) →
        Reads dropping (bytes ++ ending_bytes) found left drops → (left ≡ []) × (drops ≡ false) }
{}
