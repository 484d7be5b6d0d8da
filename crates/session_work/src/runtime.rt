//! What the workers of a run stand on.
use std::alloc::Global;
use std::sync::Wait;
use std::thread;

/// What the workers of a run are started with: the runtime that gives them threads, the memory, and the gate that each
/// passes in each of its turns.
#[derive(Clone, Copy)]
pub struct Runtime<'a, R, G> {
    pub threads: &'a R,
    pub alloc: Global,
    pub gate: &'a G,
}

/// Stays for ever: where a number has no next one, or a machine is at a limit.
#[inline(never)]
pub fn stay<R: Wait>(rt: &R) -> ! {
    for _ in rt.forever() {
        thread::yield_now();
    }
    unreachable!()
}
