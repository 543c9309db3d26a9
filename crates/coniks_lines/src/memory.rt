//! Streams of bytes in memory, which contracts see.
ghost use Rattle.std.specs.Prelude.{◌≡◌, ◌≤◌, [], Some, vec_len, drop};

use crate::bytes::{ByteIn, ByteOut, Failed};
use std::alloc::Global;

/// A reader of bytes in memory, whose remaining bytes contracts see.
///
/// A read never fails. It returns as many bytes as are left and fit in the buffer.
#[derive(Drop)]
pub struct MemoryIn {
    bytes: Vec<u8>,
    at: usize,
    reads: u64,
    ends: u64,
    ghost within: { at ≤ vec_len bytes },
}

impl MemoryIn {
    /// Returns a reader of these bytes.
    pub fn new(bytes: Vec<u8>) -> Self
        ensures left { (⟦<MemoryIn as ByteIn>⟧.source result).left ≡ Some bytes.items }
        ensures failed { (⟦<MemoryIn as ByteIn>⟧.source result).failed ≡ 0 }
    {
        MemoryIn {
            bytes,
            at: 0,
            reads: 0,
            ends: 0,
        }
    }
}

impl ByteIn for MemoryIn {
    ghost use Rattle.coniks_lines.specs.Known.{Source};

    ghost source = { λ s. record { left = Some (drop s.at s.bytes.items); reads = s.reads; failed = 0; ends = s.ends } };

    fn read(&mut self, buffer: &mut [u8]) -> Result<usize, Failed> {
        let rest = &self.bytes[self.at..];
        let count = rest.len().min(buffer.len());
        buffer[..count].copy_from_slice(&rest[..count]);
        self.at += count;
        self.reads = self.reads.wrapping_add(1);
        if count == 0 {
            self.ends = self.ends.wrapping_add(1);
        }
        Ok(count)
    }

    fn failures(&self) -> u64 {
        0
    }
}

/// A writer to memory, whose written bytes contracts see.
///
/// A write takes all bytes, or fails if an allocation fails. A flush never fails.
#[derive(Drop)]
pub struct MemoryOut {
    bytes: Vec<u8>,
    failures: u64,
    flushes: u64,
}

impl MemoryOut {
    /// Returns a writer without bytes. Allocates nothing.
    pub fn new(alloc: Global) -> Self
        ensures written { (⟦<MemoryOut as ByteOut>⟧.sink result).written ≡ Some [] }
        ensures failed { (⟦<MemoryOut as ByteOut>⟧.sink result).failed ≡ 0 }
    {
        MemoryOut {
            bytes: Vec::new(alloc),
            failures: 0,
            flushes: 0,
        }
    }

    /// Returns the bytes that were written, from the first one on.
    pub fn bytes(&self) -> &[u8]
        ensures { (⟦<MemoryOut as ByteOut>⟧.sink self.now).written ≡ Some result.now }
    {
        &self.bytes
    }
}

impl ByteOut for MemoryOut {
    ghost use Rattle.coniks_lines.specs.Known.{Sink};

    ghost sink = { λ s. record { written = Some s.bytes.items; failed = s.failures; stalls = 0; flushes = s.flushes } };

    fn write(&mut self, bytes: &[u8]) -> Result<usize, Failed> {
        if self.bytes.extend_from_slice(bytes).is_err() {
            self.failures += 1;
            return Err(Failed);
        }
        Ok(bytes.len())
    }

    fn flush(&mut self) -> Result<(), Failed> {
        self.flushes = self.flushes.wrapping_add(1);
        Ok(())
    }

    fn failures(&self) -> u64 {
        self.failures
    }
}
