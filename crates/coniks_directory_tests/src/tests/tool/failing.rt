//! Streams that fail: the exit statuses and the error texts. And arguments that no file of cases can contain.

use crate::tests::tool::scripts::{AUDIT, CHECK, MONITOR, Run, SCRIPT};
use coniks_base_tests::{FailIn, FailOut, NEVER, Stop};
use coniks_tool::{MemoryIn, MemoryOut, program};
use std::alloc::Global;
use std::process::Abort;
use std::thread::Threads;

/// The kind of call that is counted, and that fails once.
#[derive(Clone, Copy, Debug, PartialEq, Eq)]
enum Way {
    /// Reads.
    Reads,
    /// Writes and flushes.
    Writes,
    /// Writes and flushes. Instead of failing, a write takes 0 bytes.
    Stalls,
}

/// Runs that end with status 1.
const RUNS: [Run; 4] = [SCRIPT, CHECK, AUDIT, MONITOR];

/// Returns whether the output is a prefix of the whole. If a read failed, the output must be whole lines.
fn is_part(output: &[u8], whole: &[u8], way: Way) -> bool {
    whole.starts_with(output) && (way != Way::Reads || output.is_empty() || output.ends_with(b"\n"))
}

/// Returns the status of a run whose call with a number, from 0, fails. Each call moves at most `piece` bytes. Returns `None`
/// if the run is not as expected: one that meets the failure ends with status 3, a part of the whole output and the error
/// text, any other with status 1, the whole output and no error text.
fn status_cut(
    rt: &(impl Threads + Abort + Sync + AllocGlobal),
    run: Run,
    way: Way,
    call: u64,
    piece: usize,
) -> Option<u8> {
    let alloc = rt.alloc();
    let (reads, writes, stop, text) = match way {
        Way::Reads => (call, NEVER, Stop::Fails, "keydir: read failed\n"),
        Way::Writes => (NEVER, call, Stop::Fails, "keydir: write failed\n"),
        Way::Stalls => (NEVER, call, Stop::Stalls, "keydir: write failed\n"),
    };
    let input = Vec::from_slice(alloc, run.input.as_bytes()).expect(rt, "memory");
    let whole = run.output.as_bytes();
    let mut reader = FailIn::new(input, piece, reads);
    let mut output = FailOut::new(Vec::new(alloc), piece, writes, stop);
    let mut errors = MemoryOut::new(alloc);
    let status = program(rt, alloc, run.words, &mut reader, &mut output, &mut errors);
    let is_so = if reader.is_met() || output.is_met() {
        let is_reported = errors.bytes() == text.as_bytes();
        status == 3 && is_reported && is_part(&output.bytes, whole, way)
    } else {
        status == 1 && output.bytes.as_slice() == whole && errors.bytes().is_empty()
    };
    is_so.then_some(status)
}

/// A run ends with status 3 if any read, write or flush fails, or any write takes 0 bytes, and with status 1 otherwise.
#[test]
fn one_failing_call(rt: HostRuntime) {
    for run in RUNS {
        for way in [Way::Reads, Way::Writes, Way::Stalls] {
            let mut found = Some(3);
            for call in 0..1000 {
                if found == Some(3) {
                    found = status_cut(&rt, run, way, call, 64);
                }
            }
            assert!(rt; found == Some(1), "{:?}, {way:?}", run.words);
        }
    }
}

/// A run writes the same output over streams that move one byte per call.
#[test]
fn byte_by_byte(rt: HostRuntime) {
    for run in RUNS {
        let found = status_cut(&rt, run, Way::Reads, NEVER, 1);
        assert!(rt; found == Some(1), "{:?}", run.words);
    }
}

/// Runs the program with a first read that fails and a standard error that fails after `calls` writes of one byte.
/// Returns whether all these bytes are written and the run ends with this status.
fn ends_unreported(
    rt: &(impl Threads + Sync),
    alloc: Global,
    words: &[&str],
    calls: u64,
    status: u8,
) -> bool {
    let mut reader = FailIn::new(Vec::new(alloc), 1, 0);
    let mut output = MemoryOut::new(alloc);
    let mut errors = FailOut::new(Vec::new(alloc), 1, calls, Stop::Fails);
    let ended = program(rt, alloc, words, &mut reader, &mut output, &mut errors);
    ended == status && errors.bytes.len() as u64 == calls
}

/// A standard error that fails does not change the status. A command line without even the program's name is refused with
/// `clap`'s error text.
#[test]
fn failing_errors(rt: HostRuntime) {
    let cases: [(&[&str], u8); 4] = [
        (&["keydir", "walk"], 2),
        (&["keydir", "run"], 3),
        (&[], 2),
        (AUDIT.words, 3),
    ];
    for (words, status) in &cases {
        for calls in [0, 3] {
            assert!(rt;
                ends_unreported(&rt, rt.alloc(), *words, calls, *status),
                "{words:?}, {calls}"
            );
        }
    }
    let mut reader = MemoryIn::new(Vec::new(rt.alloc()));
    let (mut output, mut errors) = (MemoryOut::new(rt.alloc()), MemoryOut::new(rt.alloc()));
    let none: [&str; 0] = [];
    let status = program(
        &rt,
        rt.alloc(),
        &none,
        &mut reader,
        &mut output,
        &mut errors,
    );
    let missing = "error: 'keydir' requires a subcommand but one was not provided\n";
    assert!(rt; status == 2 && output.bytes().is_empty());
    assert!(rt; errors.bytes().starts_with(missing.as_bytes()));
}
