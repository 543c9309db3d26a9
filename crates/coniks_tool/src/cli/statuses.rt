//! The whole program over its streams.

ghost use Rattle.std.specs.Prelude.{◌<◌, ◌+◌, ◌^◌, map};
ghost use Rattle.coniks_programs.specs.Endings.{IsOutcome};
ghost use Rattle.coniks_lines.specs.Runs.{streams};
ghost use Rattle.coniks_tool.specs.Program.{Ends, fault_line};

use crate::cli::keydir::Keydir;
use coniks_lines::{ByteIn, ByteOut};
use coniks_programs::cli::{Host, run_on};
use std::alloc::Global;
use std::convert::AsStr;
use std::thread::Threads;

/// Runs `Keydir` for a command line, and returns its exit status. The first argument is the program's name.
///
/// A failure of `errors`, the standard error, changes no status.
pub fn program<T: Threads + Sync, S: AsStr, R: ByteIn, W: ByteOut, E: ByteOut>(
    rt: &T,
    alloc: Global,
    words: &[S],
    reader: &mut R,
    writer: &mut W,
    errors: &mut E,
) -> u8
    requires reads { (R.source reader.old).failed + 1 < 2 ^ 64 }
    requires writes { (W.sink writer.old).failed + 1 < 2 ^ 64 }
    requires tells { (E.sink errors.old).failed + 1 < 2 ^ 64 }
    // The result of `clap` for the arguments decides between a run, help or the version, and an error. A run is that of
    // the settings, under their key and expectation. Arguments that select no run leave the input unread, whatever the
    // status, and refused ones leave the output unwritten too. Nothing is written to `errors` if the run ends.
    ensures { IsOutcome (Ends (map S.text words.entry.now) (streams (R.source reader.old) (R.source reader.new) (W.sink writer.old) (W.sink writer.new)))
        fault_line (E.sink errors.old) (E.sink errors.new) result }
{
    let host = Host { rt, alloc };
    run_on::<Keydir, _, _, _, _, _>(&host, words, reader, writer, errors)
}
