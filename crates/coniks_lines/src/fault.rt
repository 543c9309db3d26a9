//! The errors of a run.

use thiserror::Error;

/// The error of a run over lines that ended before its reader.
#[derive(Clone, Copy, Debug, PartialEq, Eq, Drop, Error)]
pub enum LineFault {
    /// A read failed, or 2^63 reads met no end.
    #[error("read failed")]
    Read,
    /// A write or a flush failed, or a write took 0 bytes.
    #[error("write failed")]
    Write,
    /// An allocation failed.
    #[error("out of memory")]
    OutOfMemory,
}
