//! A stream that discards what is written to it.

use coniks_lines::{ByteOut, Failed};

/// A stream that takes all bytes and stores none. Nothing fails.
#[derive(Drop)]
pub(crate) struct Discard {
    flushes: u64,
}

impl Discard {
    /// Returns a stream that nothing was written to.
    pub(crate) fn new() -> Self {
        Discard { flushes: 0 }
    }
}

impl ByteOut for Discard {
    ghost use Rattle.std.specs.Prelude.{None};
    ghost use Rattle.coniks_lines.specs.Known.{Sink};

    ghost sink = { λ s. record { written = None; failed = 0; stalls = 0; flushes = s.flushes } };

    fn write(&mut self, bytes: &[u8]) -> Result<usize, Failed> {
        Ok(bytes.len())
    }

    fn flush(&mut self) -> Result<(), Failed> {
        self.flushes = self.flushes.wrapping_add(1);
        Ok(())
    }

    fn failures(&self) -> u64 {
        0
    }
}
