//! Programs that a command line runs.

ghost use Rattle.std.specs.Prelude.{◌≡◌, ◌<◌, ◌+◌, ◌^◌, ℕ, List, map};
ghost use Rattle.std.specs.Thread.{IsSync};
ghost use Rattle.coniks_lines.specs.Runs.{Streams, streams};
ghost use Rattle.coniks_programs.specs.Endings.{Outcome};
ghost use Rattle.coniks_programs.specs.declared.cli.arguments.Unread.{Unread};
ghost use Rattle.coniks_programs.specs.declared.fault.RunFault.{RunFault};

use crate::cli::arguments::Unread;
use crate::cli::ending::Ending;
use crate::fault::RunFault;
use coniks_lines::{ByteIn, ByteOut};
use std::alloc::Global;
use std::convert::AsStr;
use std::thread::Threads;

/// What a program runs with: the value that starts its threads, and its allocator.
#[derive(Drop)]
pub struct Host<'a, T: Threads + Sync> {
    pub rt: &'a T,
    pub alloc: Global,
}

/// A program that a command line runs.
pub trait CommandLine {
    /// The program may end in this way for these arguments, over these streams.
    ghost MayEnd: { List (List ℕ) → Streams → Outcome → Type 0 };

    /// The line for an error.
    ghost line_for_fault: { RunFault → List ℕ };

    /// The line for arguments that cannot be read.
    ghost line_for_unread: { Unread → List ℕ };

    /// Runs what the arguments select, or returns why they are refused. The first argument is the program's name.
    ///
    /// # Errors
    ///
    /// A stream or an allocation failed.
    fn run<T: Threads + Sync, S: AsStr, R: ByteIn, W: ByteOut>(
        host: &Host<'_, T>,
        words: &[S],
        reader: &mut R,
        writer: &mut W,
    ) -> Result<Ending, RunFault>
        requires reads { (R.source reader.old).failed + 1 < 2 ^ 64 }
        requires writes { (W.sink writer.old).failed + 1 < 2 ^ 64 }
        requires threads { IsSync T.row }
        ensures { MayEnd (map S.text words.entry.now) (streams (R.source reader.old) (R.source reader.new) (W.sink writer.old) (W.sink writer.new)) result };

    /// Returns the line for an error.
    fn fault_text(fault: RunFault) -> &'static str
        ensures { result.now ≡ line_for_fault fault };

    /// Returns the line for arguments that cannot be read.
    fn unread_text(why: Unread) -> &'static str
        ensures { result.now ≡ line_for_unread why };
}
