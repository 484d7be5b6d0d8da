//! Files that are kept in memory.

ghost use Rattle.std.specs.Prelude.{◌≡◌, ℕ, ◌≤◌, ◌-◌, ◌↔◌, List, Some, None, length, take, drop, min, IfSome, IsNone};
ghost use Rattle.std.specs.Option.{option_copied};
ghost use Rattle.io_core.specs.Stored.{stored};

use crate::sure::copied;

/// A file in memory.
#[derive(Drop)]
pub struct MemFile {
    pub name: Vec<u8>,
    pub bytes: Vec<u8>,
}

/// The bytes of the last file of a name.
fn find<'a>(files: &'a [MemFile], name: &[u8]) -> Option<&'a [u8]>
    ensures { option_copied result ≡ stored files.now name.now }
{
    let mut found = None;
    for file in files {
        if file.name.as_slice() == name {
            found = Some(file.bytes.as_slice());
        }
    }
    found
}

/// A read of files in memory.
pub fn read_stored(files: &[MemFile], name: &[u8], from: u64, into: &mut [u8]) -> Option<usize>
    ensures none { IsNone result ↔ (stored files.now name.now ≡ None) }
    ensures count { IfSome result (λ n.
        (bytes : List ℕ) → stored files.now name.now ≡ Some bytes → n ≡ min (length into.old) (length bytes - from)) }
    ensures size { length into.new ≡ length into.old }
    ensures bytes { IfSome result
        (λ n. (bytes : List ℕ) → stored files.now name.now ≡ Some bytes → take n into.new ≡ take n (drop from bytes)) }
    ensures within { IfSome result (λ n. n ≤ length into.old) }
{
    match find(files, name) {
        Some(bytes) => Some(copied(bytes, from, into)),
        None => None,
    }
}
