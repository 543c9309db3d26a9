//! Runs over streams that move few bytes at a time, and over streams that fail.

ghost use Rattle.std.specs.Prelude.{◌≡◌};

mod machine;
mod streams;

use crate::tests::lines::machine::Echo;
use crate::tests::lines::streams::{BrokenIn, BrokenOut, KINDS, Traced};
use crate::{FailIn, FailOut, NEVER, Stop};
use coniks_lines::{
    ByteIn, ByteOut, LineFault, MemoryIn, MemoryOut, SystemIn, SystemOut, run_lines,
};
use std::alloc::Global;
use std::io::ErrorKind;
use std::process::Abort;

/// Inputs, their output, and whether each line is accepted.
const RUNS: [(&[u8], &[u8], bool); 9] = [
    (b"", b"", true),
    (b"a", b"0a\n", true),
    (b"abc\n", b"0abc\n", true),
    (b"abc\nde", b"0abc\n1de\n", true),
    (b"\n\n\n", b"0\n1\n0\n", true),
    (b"a\r\nb\r", b"0a\r\n1b\r\n", true),
    (b"\xff\n\x00", b"0\xff\n1\x00\n", true),
    (b"a\n!b\nc\n", b"0a\n?\n1c\n", false),
    (b"a\nb\n!c", b"0a\n1b\n?\n", false),
];

/// Returns a copy of these bytes, as the input of a reader.
fn input_of(rt: &impl Abort, alloc: Global, bytes: &[u8]) -> Vec<u8> {
    Vec::from_slice(alloc, bytes).expect(rt, "memory")
}

/// The outcome of a run: its result, whether exactly the wanted bytes were written, and the numbers of failures of the
/// reader and the writer.
#[derive(Clone, Copy)]
struct Ended {
    all: Result<bool, LineFault>,
    wrote: bool,
    unread: u64,
    unwritten: u64,
}

/// Runs an `Echo` over a reader and a slow writer.
fn slow_run<R: ByteIn + Drop>(
    alloc: Global,
    mut reader: R,
    mut writer: FailOut,
    wanted: &[u8],
) -> Ended
    requires reads { (R.source reader).failed ≡ 0 }
    requires writes { (⟦<FailOut as ByteOut>⟧.sink writer).failed ≡ 0 }
{
    let all = run_lines(alloc, &mut Echo { odd: false }, &mut reader, &mut writer);
    Ended {
        all,
        wrote: writer.bytes.as_slice() == wanted,
        unread: reader.failures(),
        unwritten: writer.failures(),
    }
}

#[test]
fn little_at_a_time(rt: HostRuntime) {
    let alloc = rt.alloc();
    for (input, wanted, accepted) in RUNS {
        for gives in 1..6 {
            for takes in 1..4 {
                let reader = FailIn::new(input_of(&rt, alloc, input), gives, NEVER);
                let writer = FailOut::new(Vec::new(alloc), takes, NEVER, Stop::Fails);
                let ended = slow_run(alloc, reader, writer, wanted);
                assert!(rt; ended.all == Ok(accepted) && ended.wrote);
            }
        }
    }
}

/// The number of bytes of a long line.
const LONG: usize = 9 << 20;

/// A line of nine mebibytes is answered, and so is the one after it.
#[test]
fn long_line(rt: HostRuntime) {
    let alloc = rt.alloc();
    let mut input = vec![in alloc; b'a'; LONG].expect(&rt, "memory");
    input.extend_from_slice(b"\nb").expect(&rt, "memory");
    let mut reader = MemoryIn::new(input);
    let mut writer = MemoryOut::new(alloc);
    let all = run_lines(alloc, &mut Echo { odd: false }, &mut reader, &mut writer);
    assert!(rt; all == Ok(true));
    let bytes = writer.bytes();
    assert!(rt; bytes.len() == LONG + 5 && bytes.ends_with(b"a\n1b\n"));
}

/// Each answer is passed on to the writer of std by one write and one flush.
#[test]
fn flushes_are_passed_on(rt: HostRuntime) {
    let alloc = rt.alloc();
    let input: &[u8] = b"ab\n!\n\nc";
    let mut traced = Traced {
        calls: Vec::new(alloc),
    };
    let mut reader = SystemIn::new(input);
    let mut writer = SystemOut::new(&mut traced);
    let all = run_lines(alloc, &mut Echo { odd: true }, &mut reader, &mut writer);
    assert!(rt; all == Ok(false));
    assert!(rt; traced.calls.as_slice() == b"1ab\n!?\n!0\n!1c\n!".as_slice());
}

/// Runs with a writer that takes one byte per write and stops at the call with this number.
fn stopped_run(alloc: Global, input: Vec<u8>, calls: u64, stop: Stop, wanted: &[u8]) -> Ended {
    let writer = FailOut::new(Vec::new(alloc), 1, calls, stop);
    slow_run(alloc, MemoryIn::new(input), writer, wanted)
}

#[test]
fn a_write_stops(rt: HostRuntime) {
    // The writer takes one byte per write. Each line takes as many writes as its answer has bytes, and one flush.
    let wanted: &[u8] = b"0ab\n?\n1d\n";
    let written = [0, 1, 2, 3, 4, 4, 5, 6, 6, 7, 8, 9];
    let flushes = [4, 7, 11];
    let alloc = rt.alloc();
    for stop in [Stop::Fails, Stop::Stalls] {
        for k in 0..written.len() {
            let input = input_of(&rt, alloc, b"ab\n!c\nd");
            let ended = stopped_run(alloc, input, k as u64, stop, &wanted[..written[k]]);
            assert!(rt;
                ended.all == Err(LineFault::Write) && ended.wrote,
                "at call {k}"
            );
            let fails = stop == Stop::Fails || flushes.contains(&k);
            assert!(rt; ended.unwritten == (fails as u64), "at call {k}");
        }
    }
}

/// Runs with a reader that returns two bytes per read and fails at the read with this number.
fn unread_run(alloc: Global, input: Vec<u8>, reads: u64, wanted: &[u8]) -> Ended {
    let writer = FailOut::new(Vec::new(alloc), 100, NEVER, Stop::Fails);
    slow_run(alloc, FailIn::new(input, 2, reads), writer, wanted)
}

#[test]
fn a_read_fails(rt: HostRuntime) {
    // Each read returns two bytes. The bytes after the last newline are not answered if a read fails.
    let wanted: [&[u8]; 5] = [b"", b"", b"0ab\n", b"0ab\n1cd\n", b"0ab\n1cd\n"];
    let alloc = rt.alloc();
    for k in 0..wanted.len() {
        let input = input_of(&rt, alloc, b"ab\ncd\nef");
        let ended = unread_run(alloc, input, k as u64, wanted[k]);
        assert!(rt;
            ended.all == Err(LineFault::Read) && ended.wrote,
            "at read {k}"
        );
        assert!(rt; ended.unread == 1, "at read {k}");
    }
}

/// Returns whether a run whose reader fails after these bytes returns `Read` and has written exactly `wanted`.
fn is_cut(alloc: Global, bytes: &'static [u8], kind: ErrorKind, wanted: &[u8]) -> bool {
    let mut reader = SystemIn::new(BrokenIn { bytes, kind });
    let mut writer = MemoryOut::new(alloc);
    let all = run_lines(alloc, &mut Echo { odd: false }, &mut reader, &mut writer);
    all == Err(LineFault::Read) && reader.failures() == 1 && writer.bytes() == wanted
}

/// Returns whether a run returns `Write` if its writer accepts this number of writes and no flush.
fn is_unwritten(alloc: Global, writes: u64, kind: ErrorKind) -> bool {
    let input: &[u8] = b"a";
    let mut reader = SystemIn::new(input);
    let mut writer = SystemOut::new(BrokenOut {
        writes_left: writes,
        kind,
    });
    let all = run_lines(alloc, &mut Echo { odd: false }, &mut reader, &mut writer);
    all == Err(LineFault::Write) && writer.failures() == 1
}

/// Readers, writers and flushes of std fail, each with several kinds of error. None of these is the end of the input.
#[test]
fn streams_of_std_that_fail(rt: HostRuntime) {
    let alloc = rt.alloc();
    for kind in KINDS {
        assert!(rt; is_cut(alloc, b"", kind, b""), "{kind:?}");
        assert!(rt; is_cut(alloc, b"a\nb\nc", kind, b"0a\n1b\n"), "{kind:?}");
        assert!(rt; is_unwritten(alloc, 0, kind), "a write, {kind:?}");
        assert!(rt; is_unwritten(alloc, 1, kind), "a flush, {kind:?}");
    }
}

#[test]
fn messages(rt: HostRuntime) {
    let alloc = rt.alloc();
    for (fault, wanted) in [
        (LineFault::Read, "read failed"),
        (LineFault::Write, "write failed"),
        (LineFault::OutOfMemory, "out of memory"),
    ] {
        let text = fault.to_string(alloc).expect(&rt, "memory");
        assert!(rt; text.as_str() == wanted);
    }
}
