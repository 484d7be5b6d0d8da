//! What commands print.

use crate::files::{X_DISTANCE, files, run};
use io_core::MemSink;
use std::alloc::{AllocError, Global};
use std::sync::Wait;
use std::thread::Threads;

/// A command: its words, lines behind those of the configuration, the text of `t.gcode`, the status, and what
/// is printed.
pub type Printed<'a> = (&'a [&'a str], &'a str, &'a str, u8, &'a str);

/// Whether a command prints this and ends so.
fn is_so<R: Threads + Wait + Sync>(
    rt: &R,
    alloc: Global,
    row: &Printed<'_>,
) -> Result<bool, AllocError> {
    let (of, more, text, status, wanted) = *row;
    let mut read = files(alloc, X_DISTANCE, more, text)?;
    let mut out = MemSink::new(alloc, Vec::new(alloc));
    let ended = run(rt, alloc, of, &mut read, &mut out)?;
    Ok(ended.status == status && out.bytes() == wanted.as_bytes())
}

/// The first command that prints something else or ends otherwise.
pub fn first_wrong<R: Threads + Wait + Sync>(
    rt: &R,
    alloc: Global,
    rows: &[Printed<'_>],
) -> Result<Option<usize>, AllocError> {
    for (index, row) in rows.iter().enumerate() {
        if !is_so(rt, alloc, row)? {
            return Ok(Some(index));
        }
    }
    Ok(None)
}
