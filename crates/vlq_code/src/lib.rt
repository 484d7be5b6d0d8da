//! The integers of Klipper's protocol (Protocol.md, "Variable Length Quantities"): a number below 2^32 in one
//! to five bytes.
#![tactic(auto)]

ghost use Rattle.std.specs.Prelude.{◌≡◌, ℕ, ◌+◌, ◌*◌, ◌/◌, ◌%◌, ◌^◌, ◌<◌, ◌≤◌, List, [], ◌∷◌, ◌++◌, length, take, IfSome, IfNone};
ghost use Rattle.arrayvec.specs.ArrayVec.{array_vec_len};
ghost use Rattle.vlq_code.specs.Spelling.{AreJoined, Spells, spelling, byte_count, groups_after, number_of};

use arrayvec::ArrayVec;

/// Appends the spelling of a number, which has up to 5 bytes.
pub fn put(n: u32, out: &mut ArrayVec<u8, 64>)
    requires { array_vec_len out.old + 5 ≤ 64 }
    ensures appends { out.new.items ≡ out.old.items ++ spelling n }
    ensures spells { Spells (spelling n) n }
{
    let len = spelled_length(n);
    for place in (1..len).rev() {
        out.push(0x80 | group(n, place));
    }
    out.push(group(n, 0));
}

/// The number whose spelling the bytes begin with, and how many bytes it takes; any bytes may follow.
pub fn take(bytes: &[u8]) -> Option<(u32, usize)>
    ensures found { IfSome result (λ found. (found.1 ≤ length bytes.now) × Spells (take found.1 bytes.now) found.0) }
    ensures none { IfNone result ((n len : ℕ) → Spells (take len bytes.now) n → ⊥) }
{
    let len = end_of(bytes)?;
    let groups = groups_of(&bytes[..len]);
    if len == 5 && groups >= 1 << 32 {
        return None;
    }
    let n = number(len, bytes[0] & 0x7f, groups);
    if spelled_length(n) == len {
        Some((n, len))
    } else {
        None
    }
}

/// The law of spellings: each number has one, and none begins another.
pub fn one_spelling()
    ensures each { (n : ℕ) → n < 2 ^ 32 → Spells (spelling n) n }
    ensures lengths { (n : ℕ) → length (spelling n) ≡ byte_count n }
    ensures one { (a b : List ℕ) (n : ℕ) → Spells a n → Spells b n → a ≡ b }
    ensures no_prefix { (a b x y : List ℕ) (m n : ℕ) → Spells a m → Spells b n → a ++ x ≡ b ++ y → (a ≡ b) × (m ≡ n) }
{}

/// How many bytes the spelling of a number has.
pub fn spelled_length(n: u32) -> usize
    ensures { result ≡ byte_count n }
{
    if n.wrapping_add(1 << 5) < 1 << 7 {
        1
    } else if n.wrapping_add(1 << 12) < 1 << 14 {
        2
    } else if n.wrapping_add(1 << 19) < 1 << 21 {
        3
    } else if n.wrapping_add(1 << 26) < 1 << 28 {
        4
    } else {
        5
    }
}

/// Seven bits of a number, the lowest ones at place 0.
fn group(n: u32, place: usize) -> u8
    requires { place < 5 }
    ensures { result ≡ n / 2 ^ (7 * place) % 128 }
{
    ((n >> (7 * place)) & 0x7f) as u8
}

/// Up to and with the first byte that has bit 7 clear, where it is among the first five.
fn end_of(bytes: &[u8]) -> Option<usize>
    ensures found { IfSome result
        (λ len. (len ≤ length bytes.now) × (1 ≤ len) × (len ≤ 5) × AreJoined (take len bytes.now)) }
    ensures none { IfNone result ((k : ℕ) → length (take k bytes.now) ≤ 5 → AreJoined (take k bytes.now) → ⊥) }
{
    for i in 0..bytes.len().min(5) {
        if bytes[i] < 0x80 {
            return Some(i + 1);
        }
    }
    None
}

/// The number of the groups.
fn groups_of(bytes: &[u8]) -> u64
    requires { length bytes.now ≤ 5 }
    ensures { result ≡ groups_after 0 bytes.now }
{
    let mut groups: u64 = 0;
    for byte in bytes {
        groups = 128 * groups + u64::from(*byte & 0x7f);
    }
    groups
}

/// The number that these groups stand for.
fn number(len: usize, first: u8, groups: u64) -> u32
    requires len { (1 ≤ len) × (len ≤ 5) }
    requires groups { groups < 2 ^ 32 }
    ensures { result ≡ number_of len first groups }
{
    if first >= 0x60 && len < 5 {
        ((groups + (1 << 32) - (1 << (7 * len))) % (1 << 32)) as u32
    } else {
        groups as u32
    }
}
