//! Streams that move few bytes at a time and stop at one call.

ghost use Rattle.std.specs.Prelude.{◌≡◌};

use coniks_lines::{ByteIn, ByteOut, Failed};

/// The number of a call that no test makes, for a stream that does not stop.
pub const NEVER: u64 = u64::MAX;

/// A source that returns at most a number of bytes for each read, and fails at one read. Its contract specifies no
/// bytes.
#[derive(Drop)]
pub struct FailIn {
    bytes: Vec<u8>,
    at: usize,
    piece: usize,
    failing: u64,
    reads: u64,
    failures: u64,
    ends: u64,
}

impl FailIn {
    /// Returns a source of these bytes. A read returns at most `piece` of them, which is at least 1. The read with the
    /// number `failing`, from 0, fails.
    pub fn new(bytes: Vec<u8>, piece: usize, failing: u64) -> Self
        ensures { (⟦<FailIn as ByteIn>⟧.source result).failed ≡ 0 }
    {
        FailIn {
            bytes,
            at: 0,
            piece,
            failing,
            reads: 0,
            failures: 0,
            ends: 0,
        }
    }

    /// Returns whether a read has failed.
    pub fn is_met(&self) -> bool {
        self.failures > 0
    }
}

impl ByteIn for FailIn {
    ghost use Rattle.std.specs.Prelude.{None};
    ghost use Rattle.coniks_lines.specs.Known.{Source};

    ghost source = { λ s. record { left = None; reads = s.reads; failed = s.failures; ends = s.ends } };

    fn read(&mut self, buffer: &mut [u8]) -> Result<usize, Failed> {
        let fails = self.reads == self.failing;
        self.reads = self.reads.wrapping_add(1);
        if fails {
            self.failures += 1;
            return Err(Failed);
        }
        let rest = self.bytes.get(self.at..).unwrap_or(&[]);
        let count = rest.len().min(buffer.len()).min(self.piece);
        buffer[..count].copy_from_slice(&rest[..count]);
        if count == 0 {
            self.ends = self.ends.wrapping_add(1);
        }
        self.at = self.at.saturating_add(count);
        Ok(count)
    }

    fn failures(&self) -> u64 {
        self.failures
    }
}

/// The result of a write at which a sink stops. A flush at which it stops fails in both cases.
#[derive(Clone, Copy, PartialEq, Eq)]
pub enum Stop {
    /// The write fails.
    Fails,
    /// The write takes 0 bytes.
    Stalls,
}

/// A sink that takes at most a number of bytes for each write, and stops at one write or flush.
#[derive(Drop)]
pub struct FailOut {
    /// The bytes that were there before, followed by the bytes taken.
    pub bytes: Vec<u8>,
    piece: usize,
    stopped: u64,
    stop: Stop,
    calls: u64,
    failures: u64,
    stalls: u64,
    flushes: u64,
}

impl FailOut {
    /// Returns a sink that appends to `bytes`, and allocates only if their capacity is used up. A write takes at most
    /// `piece` bytes, which is at least 1. The write or flush with the number `stopped`, from 0, stops.
    pub fn new(bytes: Vec<u8>, piece: usize, stopped: u64, stop: Stop) -> Self
        ensures { (⟦<FailOut as ByteOut>⟧.sink result).failed ≡ 0 }
    {
        FailOut {
            bytes,
            piece,
            stopped,
            stop,
            calls: 0,
            failures: 0,
            stalls: 0,
            flushes: 0,
        }
    }

    /// Returns whether a call has failed, or taken 0 bytes.
    pub fn is_met(&self) -> bool {
        self.failures > 0 || self.stalls > 0
    }
}

/// Counts a call, and returns whether it is the one with this number.
fn is_call(calls: &mut u64, number: u64) -> bool {
    let is_it = *calls == number;
    *calls = calls.wrapping_add(1);
    is_it
}

impl ByteOut for FailOut {
    ghost use Rattle.std.specs.Prelude.{Some};
    ghost use Rattle.coniks_lines.specs.Known.{Sink};

    ghost sink = { λ s. record { written = Some s.bytes.items; failed = s.failures; stalls = s.stalls; flushes = s.flushes } };

    fn write(&mut self, bytes: &[u8]) -> Result<usize, Failed> {
        let stops = is_call(&mut self.calls, self.stopped);
        let count = bytes.len().min(self.piece);
        if count == 0 || stops && self.stop == Stop::Stalls {
            self.stalls = self.stalls.wrapping_add(1);
            return Ok(0);
        }
        if stops || self.bytes.extend_from_slice(&bytes[..count]).is_err() {
            self.failures += 1;
            return Err(Failed);
        }
        Ok(count)
    }

    fn flush(&mut self) -> Result<(), Failed> {
        if is_call(&mut self.calls, self.stopped) {
            self.failures += 1;
            return Err(Failed);
        }
        self.flushes = self.flushes.wrapping_add(1);
        Ok(())
    }

    fn failures(&self) -> u64 {
        self.failures
    }
}
