//! Streams over readers and writers of std. Contracts know their bytes as far as the readers and writers specify them.
ghost use Rattle.std.specs.Prelude.{◌≡◌};

use crate::bytes::{ByteIn, ByteOut, Failed};
use std::io::{Read, Write};

/// A source over a reader of std, for example standard input: `SystemIn::new(rt.stdin())`.
///
/// A read that a signal interrupts before its first byte is a failed read.
#[derive(Drop)]
pub struct SystemIn<R> {
    reader: R,
    reads: u64,
    failures: u64,
    ends: u64,
}

impl<R: Read + Drop> SystemIn<R> {
    /// Returns a source of the reader's bytes, without failed reads. Its bytes are known if the reader specifies them.
    pub fn new(reader: R) -> Self
        ensures left { (⟦<SystemIn<R> as ByteIn>⟧.source result).left ≡ R.remaining reader }
        ensures failed { (⟦<SystemIn<R> as ByteIn>⟧.source result).failed ≡ 0 }
    {
        SystemIn {
            reader,
            reads: 0,
            failures: 0,
            ends: 0,
        }
    }
}

impl<R: Read + Drop> ByteIn for SystemIn<R> {
    ghost use Rattle.coniks_lines.specs.Known.{Source};

    ghost source = { λ s. record { left = R.remaining s.reader; reads = s.reads; failed = s.failures; ends = s.ends } };

    fn read(&mut self, buffer: &mut [u8]) -> Result<usize, Failed> {
        self.reads = self.reads.wrapping_add(1);
        let Ok(count) = self.reader.read(buffer) else {
            self.failures += 1;
            return Err(Failed);
        };
        if count == 0 {
            self.ends = self.ends.wrapping_add(1);
        }
        Ok(count)
    }

    fn failures(&self) -> u64 {
        self.failures
    }
}

/// A sink over a writer of std, for example standard output or error.
///
/// Use `SystemOut::new(rt.stdout())` or `SystemOut::new(rt.stderr())`. A write that a signal interrupts before its first
/// byte is a failed write.
#[derive(Drop)]
pub struct SystemOut<W> {
    writer: W,
    failures: u64,
    stalls: u64,
    flushes: u64,
}

impl<W: Write + Drop> SystemOut<W> {
    /// Returns a sink for the writer, with the bytes that the writer specifies, without failed writes and flushes.
    pub fn new(writer: W) -> Self
        ensures written { (⟦<SystemOut<W> as ByteOut>⟧.sink result).written ≡ W.contents writer }
        ensures failed { (⟦<SystemOut<W> as ByteOut>⟧.sink result).failed ≡ 0 }
    {
        SystemOut {
            writer,
            failures: 0,
            stalls: 0,
            flushes: 0,
        }
    }
}

impl<W: Write + Drop> ByteOut for SystemOut<W> {
    ghost use Rattle.coniks_lines.specs.Known.{Sink};

    ghost sink = { λ s. record { written = W.contents s.writer; failed = s.failures; stalls = s.stalls; flushes = s.flushes } };

    fn write(&mut self, bytes: &[u8]) -> Result<usize, Failed> {
        let Ok(count) = self.writer.write(bytes) else {
            self.failures += 1;
            return Err(Failed);
        };
        if count == 0 {
            self.stalls = self.stalls.wrapping_add(1);
        }
        Ok(count)
    }

    fn flush(&mut self) -> Result<(), Failed> {
        if self.writer.flush().is_err() {
            self.failures += 1;
            return Err(Failed);
        }
        self.flushes = self.flushes.wrapping_add(1);
        Ok(())
    }

    fn failures(&self) -> u64 {
        self.failures
    }
}
