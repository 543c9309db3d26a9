//! A reader and a writer of std that fail, and a writer that records each call.

use std::io;
use std::io::ErrorKind;

/// Kinds of error that a stream can have: a pipe without a reader, a directory in place of a file, a signal and others.
pub const KINDS: [ErrorKind; 7] = [
    ErrorKind::BrokenPipe,
    ErrorKind::IsADirectory,
    ErrorKind::Interrupted,
    ErrorKind::UnexpectedEof,
    ErrorKind::WouldBlock,
    ErrorKind::PermissionDenied,
    ErrorKind::Other,
];

/// A reader that returns its bytes, and fails at each read after them.
#[derive(Drop)]
pub struct BrokenIn {
    pub bytes: &'static [u8],
    pub kind: ErrorKind,
}

impl io::Read for BrokenIn {
    fn read(&mut self, buf: &mut [u8]) -> io::Result<usize> {
        let count = self.bytes.len().min(buf.len());
        if count == 0 {
            return Err(io::Error::from(self.kind));
        }
        buf[..count].copy_from_slice(&self.bytes[..count]);
        self.bytes = &self.bytes[count..];
        Ok(count)
    }
}

/// A writer that accepts a given number of writes and fails at each one after them. It fails at each flush.
#[derive(Drop)]
pub struct BrokenOut {
    pub writes_left: u64,
    pub kind: ErrorKind,
}

impl io::Write for BrokenOut {
    fn write(&mut self, buf: &[u8]) -> io::Result<usize> {
        if self.writes_left == 0 {
            return Err(io::Error::from(self.kind));
        }
        self.writes_left -= 1;
        Ok(buf.len())
    }

    fn flush(&mut self) -> io::Result<()> {
        Err(io::Error::from(self.kind))
    }
}

/// A writer that records the bytes of each write, and a `!` for each flush.
#[derive(Drop)]
pub struct Traced {
    pub calls: Vec<u8>,
}

impl Traced {
    fn keep(&mut self, call: &[u8]) -> io::Result<()> {
        match self.calls.extend_from_slice(call) {
            Ok(()) => Ok(()),
            Err(_) => Err(io::Error::from(ErrorKind::OutOfMemory)),
        }
    }
}

impl io::Write for Traced {
    fn write(&mut self, buf: &[u8]) -> io::Result<usize> {
        self.keep(buf)?;
        Ok(buf.len())
    }

    fn flush(&mut self) -> io::Result<()> {
        self.keep(b"!")
    }
}
