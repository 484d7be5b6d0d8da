//! Real files and standard output. They tell nothing of content: they are the trusted edge.

ghost use Rattle.std.specs.Prelude.{◌≡◌, ◌≤◌, ℕ, None, IfOk, length};

use io_core::{Failed, Files, Sink};
use std::alloc::Global;
use std::fs::File;
use std::io::{self, BufWriter, Read, Seek, SeekFrom, Write};
use std::rt;

/// The files of the machine that the program runs on, and how many reads failed.
#[derive(Drop)]
pub struct RealFiles<'a, R: rt::Files> {
    rt: &'a R,
    faults: u64,
}

impl<'a, R: rt::Files> RealFiles<'a, R> {
    /// Files that are reached through a runtime.
    pub fn new(rt: &'a R) -> Self
        ensures { result.faults ≡ 0 }
    {
        RealFiles { rt, faults: 0 }
    }
}

/// Reads bytes of a file from a place on.
fn read_at<R: rt::Files>(rt: &R, name: &str, from: u64, into: &mut [u8]) -> io::Result<usize>
    ensures { IfOk result (λ n. n ≤ length into.old) }
{
    let mut file = File::open(rt, name)?;
    file.seek(SeekFrom::Start(from))?;
    file.read(into)
}

impl<R: rt::Files> Files for RealFiles<'_, R> {
    ghost told = { λ f name. None };

    ghost faults = { λ f. f.faults };

    fn read(&mut self, name: &str, from: u64, into: &mut [u8]) -> Result<usize, Failed> {
        match read_at(self.rt, name, from, into) {
            Ok(count) => Ok(count),
            Err(_) => {
                self.faults = self.faults.saturating_add(1);
                Err(Failed)
            }
        }
    }
}

/// A real output, kept in a buffer of 64 KiB, and how many writes failed.
#[derive(Drop)]
pub struct RealOutput<W: Write + Drop> {
    out: BufWriter<W>,
    faults: u64,
}

impl<W: Write + Drop> RealOutput<W> {
    /// An output over a writer. The writer is dropped where there is no memory for the buffer.
    ///
    /// # Errors
    ///
    /// `Failed` where the memory for the buffer is refused.
    pub fn new(alloc: Global, to: W) -> Result<Self, Failed>
        ensures { IfOk result (λ output. output.faults ≡ 0) }
    {
        match BufWriter::with_capacity(alloc, 65_536, to) {
            Ok(out) => Ok(RealOutput { out, faults: 0 }),
            Err(_) => Err(Failed),
        }
    }

    /// Writes what is still in the buffer, and ends the output.
    ///
    /// # Errors
    ///
    /// `Failed` where it could not be written.
    pub fn finish(mut self) -> Result<(), Failed> {
        match self.out.flush() {
            Ok(()) => Ok(()),
            Err(_) => Err(Failed),
        }
    }
}

impl<W: Write + Drop> Sink for RealOutput<W> {
    ghost written = { λ s. None };

    ghost faults = { λ s. s.faults };

    /// A write that takes nothing of a piece that isn't empty is one that failed.
    fn write(&mut self, piece: &[u8]) -> Result<usize, Failed> {
        if let Ok(count) = self.out.write(piece) {
            if count > 0 || piece.is_empty() {
                return Ok(count);
            }
        }
        self.faults = self.faults.saturating_add(1);
        Err(Failed)
    }
}
