//! The program: runs the words that it was started with, on real files and standard output.
#![tactic(auto)]

use host_cli::{RealFiles, RealOutput, exit_status, host_main};
use io_core::FreeGate;
use std::env;
use std::io::{self, ErrorKind};
use std::process::ExitCode;
use std::rt::Env;

/// The exit status where memory was wanted before the run began.
const MEMORY: u8 = 1;

/// The words that the program was started with, without its own name. Words that are no text are no words.
fn words(rt: &(impl Env + AllocGlobal)) -> io::Result<Vec<String>> {
    let mut words = Vec::new(rt.alloc());
    match env::args(rt) {
        Ok(args) => {
            for word in args.skip(1) {
                words.push(word)?;
            }
        }
        Err(fault) => {
            if fault.kind() == ErrorKind::OutOfMemory {
                return Err(fault);
            }
        }
    }
    Ok(words)
}

fn main(rt: HostRuntime) -> ExitCode {
    let alloc = rt.alloc();
    let Ok(words) = words(&rt) else {
        return ExitCode::from(MEMORY);
    };
    let mut files = RealFiles::new(&rt);
    let Ok(mut output) = RealOutput::new(alloc, io::writer(&rt)) else {
        return ExitCode::from(MEMORY);
    };
    let ended = host_main(&rt, alloc, &words, &mut files, &mut output, &FreeGate);
    ExitCode::from(exit_status(ended.status, output.finish()))
}
