//! The program `keydir`.

use crate::cli::running::run_settings;
use crate::cli::settings::settings;
use coniks_lines::{ByteIn, ByteOut};
use coniks_programs::cli::{CommandLine, Ending, Host, Unread, end_unrun};
use coniks_programs::fault::RunFault;
use std::convert::AsStr;
use std::thread::Threads;

/// The program `keydir`.
///
/// Its exit statuses are
///
/// - 0: the run accepted every line, or help or the version was requested and written to the output.
/// - 1: the run refused a line, or a proof showed something other than the expected key.
/// - 2: `clap` refused the arguments, and its text is written to the standard error. Or the key is not 64 hexadecimal
///   digits, or the key is valid and the expectation is not base64. The standard error then gets a line with the cause.
/// - 3: a read or a write failed, an allocation failed, or the board of `run` could not be allocated. The standard error
///   gets a line with the cause.
///
/// The result of `clap` for the arguments decides between a run, help or the version, and an error. A run is that of the
/// settings, under their key and expectation. Arguments that select no run leave the input unread, whatever the status, and
/// refused ones leave the output unwritten too. Nothing is written to the standard error if the run ends.
pub struct Keydir;

impl CommandLine for Keydir {
    ghost use Rattle.coniks_tool.specs.Program.{Ends, fault_line, unread_line};

    ghost MayEnd = { Ends };

    ghost line_for_fault = { fault_line };

    ghost line_for_unread = { unread_line };

    fn run<T: Threads + Sync, S: AsStr, R: ByteIn, W: ByteOut>(
        host: &Host<'_, T>,
        words: &[S],
        reader: &mut R,
        writer: &mut W,
    ) -> Result<Ending, RunFault> {
        match settings(host.alloc, words) {
            Ok(settings) => run_settings(host, settings, reader, writer),
            Err(fault) => end_unrun(host.alloc, fault, writer),
        }
    }

    fn fault_text(fault: RunFault) -> &'static str {
        match fault {
            RunFault::Read => "keydir: read failed\n",
            RunFault::Write => "keydir: write failed\n",
            RunFault::OutOfMemory => "keydir: out of memory\n",
            RunFault::NoBoard => "keydir: no board\n",
        }
    }

    fn unread_text(why: Unread) -> &'static str {
        match why {
            Unread::NotText => "keydir: a word is not UTF-8\n",
            Unread::OutOfMemory => Self::fault_text(RunFault::OutOfMemory),
        }
    }
}
