//! Sources and sinks of bytes.
ghost use Rattle.std.specs.Prelude.{◌≡◌, ◌+◌, ◌<◌, ◌≤◌, ◌^◌, length, take, is_ok, IfOk, OnErr, if◌then◌else◌};
ghost use Rattle.std.specs.Io.KnownBytes.{Keeps};
ghost use Rattle.coniks_lines.specs.Known.{Source, Sink, Takes, Appends, HasNoneLeft, next_count, is_zero};

/// The error of a read, a write or a flush that failed. The stream counts it.
#[derive(Clone, Copy, Debug, PartialEq, Eq, Drop)]
pub struct Failed;

/// A source of bytes.
///
/// Contracts see it as a `Source`: the bytes that are left, if the implementation specifies them, and three counts. These
/// are the reads, the reads that failed and the reads that returned 0. The counts of reads and of those that returned 0
/// have 64 bits and wrap.
pub trait ByteIn {
    /// The model of the source in contracts.
    ghost source: { Self → Source };

    /// Reads at least one byte into the front of the buffer, and returns their number, or 0 at the end.
    ///
    /// The number is at most the buffer's length. The buffer is not empty, and `failures` is below 2^64 - 1. The contents
    /// of the buffer after the bytes that were read are unspecified.
    ///
    /// # Errors
    ///
    /// `Failed` if the source cannot be read. No byte is lost, the contents of the buffer are unspecified, and `failures`
    /// increases by 1. No other result increases it.
    fn read(&mut self, buffer: &mut [u8]) -> Result<usize, Failed>
        requires room { 0 < length buffer.old }
        requires countable { (source self.old).failed + 1 < 2 ^ 64 }
        ensures count { IfOk result (λ n. n ≤ length buffer.old) }
        ensures taken { IfOk result (λ n. Takes (source self.old) (take n buffer.new) (source self.new)) }
        ensures none_left { IfOk result (λ n. n ≡ 0 → HasNoneLeft (source self.new)) }
        ensures err { OnErr result (Keeps (source self.old).left (source self.new).left) }
        ensures reads { (source self.new).reads ≡ next_count (source self.old).reads }
        ensures failed { (source self.new).failed ≡ (if is_ok result then (source self.old).failed else (source self.old).failed + 1) }
        ensures ends { (source self.new).ends ≡ (if is_zero result then next_count (source self.old).ends else (source self.old).ends) };

    /// Returns the number of reads that failed.
    fn failures(&self) -> u64
        ensures { result ≡ (source self.now).failed };
}

/// A sink of bytes.
///
/// Contracts see it as a `Sink`: the bytes that were written, if the implementation specifies them, and three counts.
/// These are the writes and flushes that failed, the writes that took 0 bytes and the flushes that succeeded. The last
/// two counts have 64 bits and wrap.
pub trait ByteOut {
    /// The model of the sink in contracts.
    ghost sink: { Self → Sink };

    /// Takes bytes from the front of `bytes`, and returns their number.
    ///
    /// The number is at most the length of `bytes`, and can be smaller. 0 means that the sink cannot continue. `bytes` is
    /// not empty, and `failures` is below 2^64 - 1.
    ///
    /// # Errors
    ///
    /// `Failed` if the sink cannot be written. No byte is taken, and `failures` increases by 1. No other result increases
    /// it.
    fn write(&mut self, bytes: &[u8]) -> Result<usize, Failed>
        requires some { 0 < length bytes.now }
        requires countable { (sink self.old).failed + 1 < 2 ^ 64 }
        ensures count { IfOk result (λ n. n ≤ length bytes.now) }
        ensures ok { IfOk result (λ n. Appends (sink self.old) (take n bytes.now) (sink self.new)) }
        ensures err { OnErr result (Keeps (sink self.old).written (sink self.new).written) }
        ensures failed { (sink self.new).failed ≡ (if is_ok result then (sink self.old).failed else (sink self.old).failed + 1) }
        ensures stalls { (sink self.new).stalls ≡ (if is_zero result then next_count (sink self.old).stalls else (sink self.old).stalls) }
        ensures flushes { (sink self.new).flushes ≡ (sink self.old).flushes };

    /// Passes on the bytes that were written before and are still in a buffer.
    ///
    /// `failures` is below 2^64 - 1.
    ///
    /// # Errors
    ///
    /// `Failed` if the flush fails. `failures` increases by 1.
    fn flush(&mut self) -> Result<(), Failed>
        requires { (sink self.old).failed + 1 < 2 ^ 64 }
        ensures written { Keeps (sink self.old).written (sink self.new).written }
        ensures failed { (sink self.new).failed ≡ (if is_ok result then (sink self.old).failed else (sink self.old).failed + 1) }
        ensures stalls { (sink self.new).stalls ≡ (sink self.old).stalls }
        ensures flushes { (sink self.new).flushes ≡ (if is_ok result then next_count (sink self.old).flushes else (sink self.old).flushes) };

    /// Returns the number of writes and flushes that failed.
    fn failures(&self) -> u64
        ensures { result ≡ (sink self.now).failed };
}
