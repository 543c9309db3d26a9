//! The program `provider`.

use crate::cli::running::run_settings;
use crate::cli::settings::settings_of;
use coniks_lines::{ByteIn, ByteOut};
use coniks_programs::cli::{CommandLine, Ending, Host, Unread, end_unrun};
use coniks_programs::fault::RunFault;
use std::convert::AsStr;
use std::thread::Threads;

/// The program `provider`.
///
/// Its exit statuses are
///
/// - 0: every line was accepted, or help or the version was requested and written to the output.
/// - 1: a line was refused.
/// - 2: `clap` refused the arguments. Its text is written to the standard error.
/// - 3: a read or a write failed, or an allocation failed. The standard error gets a line with the cause.
pub struct Provider;

impl CommandLine for Provider {
    ghost use Rattle.coniks_provider.specs.Program.{Ends, fault_line, unread_line};

    ghost MayEnd = { Ends };

    ghost line_for_fault = { fault_line };

    ghost line_for_unread = { unread_line };

    fn run<T: Threads + Sync, S: AsStr, R: ByteIn, W: ByteOut>(
        host: &Host<'_, T>,
        words: &[S],
        reader: &mut R,
        writer: &mut W,
    ) -> Result<Ending, RunFault> {
        match settings_of(host, words) {
            Ok(settings) => run_settings(host, settings, reader, writer),
            Err(fault) => end_unrun(host.alloc, fault, writer),
        }
    }

    fn fault_text(fault: RunFault) -> &'static str {
        match fault {
            RunFault::Read => "provider: read failed\n",
            RunFault::Write => "provider: write failed\n",
            RunFault::OutOfMemory => "provider: out of memory\n",
            RunFault::NoBoard => "provider: no board\n",
        }
    }

    fn unread_text(why: Unread) -> &'static str {
        match why {
            Unread::NotText => "provider: an argument is not UTF-8\n",
            Unread::OutOfMemory => Self::fault_text(RunFault::OutOfMemory),
        }
    }
}
