//! Reading a file whole, up to a limit.

ghost use Rattle.std.specs.Prelude.{◌≡◌, ℕ, ◌+◌, ◌<◌, ◌≤◌, ◌++◌, ◌^◌, List, Option, Some, take, length, false, true, IfOk, OnOk, IfErr};
ghost use Rattle.host_cli.specs.Outside.{IsFrontOf};
ghost use Rattle.io_core.specs.Faults.{Rose};

use io_core::Files;
use std::alloc::Global;

/// Why the reading of a file stopped.
#[derive(Debug, Clone, Copy, PartialEq, Eq)]
pub enum ReadFault {
    /// Memory was wanted.
    Memory,
    /// The file could not be read.
    Failed,
}

/// Reads the next piece of a file and adds it to the bytes before it. Answers whether there was one.
fn read_piece<F: Files>(files: &mut F, name: &str, text: &mut Vec<u8>) -> Result<bool, ReadFault>
    requires { length text.old.items < 2 ^ 63 }
    ensures more { IfOk result (λ more. (bytes : List ℕ) → F.told files.old name.now ≡ Some bytes →
        IsFrontOf bytes text.old.items → IsFrontOf bytes text.new.items) }
    ensures end { IfOk result (λ more. more ≡ false → (bytes : List ℕ) → F.told files.old name.now ≡ Some bytes →
        length bytes ≤ length text.new.items) }
    ensures end_size { IfOk result (λ more. more ≡ false → length text.new.items ≡ length text.old.items) }
    ensures grows { IfOk result (λ more. more ≡ true → length text.old.items < length text.new.items) }
    ensures keeps { length text.old.items ≤ length text.new.items }
    ensures size { length text.new.items ≤ length text.old.items + 4096 }
    ensures steady { OnOk result (F.faults files.new ≡ F.faults files.old) }
    ensures failed { IfErr result (λ stop. stop ≡ ReadFault.Failed → Rose (F.faults files.old) (F.faults files.new)) }
    ensures quiet { IfErr result (λ stop. stop ≡ ReadFault.Memory → F.faults files.new ≡ F.faults files.old) }
    ensures same { (other : List ℕ) → F.told files.new other ≡ F.told files.old other }
{
    let mut piece = [0u8; 4096];
    let Ok(count) = files.read(name, text.len() as u64, &mut piece) else {
        return Err(ReadFault::Failed);
    };
    if text.extend_from_slice(&piece[..count]).is_err() {
        return Err(ReadFault::Memory);
    }
    Ok(count > 0)
}

/// The bytes of a file, or of a longer one the first `limit + 1`.
pub fn read_text<F: Files>(
    alloc: Global,
    files: &mut F,
    name: &str,
    limit: u64,
) -> Result<Vec<u8>, ReadFault>
    requires { limit < 2 ^ 62 }
    ensures text { IfOk result
        (λ text. (bytes : List ℕ) → F.told files.old name.now ≡ Some bytes → text.items ≡ take (limit + 1) bytes) }
    ensures size { IfOk result (λ text. length text.items ≤ limit + 1) }
    ensures steady { OnOk result (F.faults files.new ≡ F.faults files.old) }
    ensures failed { IfErr result (λ stop. stop ≡ ReadFault.Failed → Rose (F.faults files.old) (F.faults files.new)) }
    ensures quiet { IfErr result (λ stop. stop ≡ ReadFault.Memory → F.faults files.new ≡ F.faults files.old) }
    ensures same { (other : List ℕ) → F.told files.new other ≡ F.told files.old other }
{
    let mut text = Vec::new(alloc);
    while text.len() as u64 <= limit {
        let more = read_piece(files, name, &mut text)?;
        if !more {
            return Ok(text);
        }
    }
    text.truncate(limit as usize + 1);
    Ok(text)
}
