//! The errors of a run.

ghost use Rattle.std.specs.Prelude.{◌≡◌};
ghost use Rattle.coniks_programs.specs.Faults.{of_lines, of_run};

use coniks_lines::LineFault;
use thiserror::Error;

/// The error of a run that ended before its reader.
#[derive(Clone, Copy, Debug, PartialEq, Eq, Drop, Error)]
pub enum RunFault {
    /// A read failed, or 2^63 reads met no end.
    #[error("read failed")]
    Read,
    /// A write or a flush failed, or a write took 0 bytes.
    #[error("write failed")]
    Write,
    /// An allocation failed.
    #[error("out of memory")]
    OutOfMemory,
    /// The board of a run that publishes could not be allocated.
    #[error("no board")]
    NoBoard,
}

/// Returns the error of a run whose lines ended with an error.
pub fn of_lines(fault: LineFault) -> RunFault
    ensures { result ≡ of_lines fault }
{
    match fault {
        LineFault::Read => RunFault::Read,
        LineFault::Write => RunFault::Write,
        LineFault::OutOfMemory => RunFault::OutOfMemory,
    }
}

/// Returns the result of a run from that of its lines.
pub fn of_run(lines: Result<bool, LineFault>) -> Result<bool, RunFault>
    ensures { result ≡ of_run lines }
{
    match lines {
        Ok(all) => Ok(all),
        Err(fault) => Err(of_lines(fault)),
    }
}
