//! Allocations that fail in `run_script`.

use crate::tests::tool::scripts::SCRIPT;
use coniks_base_tests::{FailOut, NEVER, Stop};
use coniks_tool::{MemoryIn, RunFault, run_script};
use std::alloc::Global;
use std::process::Abort;
use std::thread::Threads;

/// Copies the script, and tries once more if an allocation fails.
fn script(rt: &impl Abort, alloc: Global) -> Vec<u8> {
    match Vec::from_slice(alloc, SCRIPT.input.as_bytes()) {
        Ok(script) => script,
        Err(_) => Vec::from_slice(alloc, SCRIPT.input.as_bytes()).expect(rt, "memory"),
    }
}

/// Returns a buffer for the whole output, and tries once more if an allocation fails.
fn room(rt: &impl Abort, alloc: Global) -> Vec<u8> {
    match Vec::with_capacity(alloc, SCRIPT.output.len()) {
        Ok(room) => room,
        Err(_) => Vec::with_capacity(alloc, SCRIPT.output.len()).expect(rt, "memory"),
    }
}

/// Returns whether the output matches the result of a run. It is the whole output, whole lines of it after
/// `OutOfMemory`, or nothing after `NoBoard`.
fn is_written(ran: &Result<bool, RunFault>, written: &[u8]) -> bool {
    let whole = SCRIPT.output.as_bytes();
    match ran {
        Ok(all) => !*all && written == whole,
        Err(RunFault::OutOfMemory) => {
            whole.starts_with(written) && (written.is_empty() || written.ends_with(b"\n"))
        }
        Err(RunFault::NoBoard) => written.is_empty(),
        Err(_) => false,
    }
}

/// Runs the script at depth 1 with a given number of workers, and returns whether a failed allocation ended the run.
fn is_refused<R: Threads + Sync + Abort>(rt: &R, alloc: Global, workers: usize) -> bool {
    assert!(rt; 1 <= workers && workers <= 64);
    let mut reader = MemoryIn::new(script(rt, alloc));
    let mut writer = FailOut::new(room(rt, alloc), 64, NEVER, Stop::Fails);
    let ran = run_script(rt, alloc, &mut reader, &mut writer, workers, 1);
    assert!(rt; is_written(&ran, &writer.bytes), "{ran:?}");
    ran.is_err()
}

/// Runs the script, and once more if a failed allocation ended the run. Returns whether one did.
fn is_refused_once<R: Threads + Sync + Abort>(rt: &R, alloc: Global, workers: usize) -> bool {
    let refused = is_refused(rt, alloc, workers);
    assert!(rt; !refused || !is_refused(rt, alloc, workers));
    refused
}

/// Prints for `faults/run`, which makes each allocation fail in turn, whether one ended the run.
fn tell(rt: &HostRuntime, is_refused: bool) {
    let _ = println!(rt; "{}", if is_refused { "refused" } else { "answered" });
}

/// With one worker, each failed allocation ends the run.
#[test]
fn by_one(rt: HostRuntime) {
    tell(&rt, is_refused_once(&rt, rt.alloc(), 1));
}

/// With three workers, a failed allocation that only costs a worker does not change the output.
#[test]
fn by_three(rt: HostRuntime) {
    tell(&rt, is_refused_once(&rt, rt.alloc(), 3));
}
