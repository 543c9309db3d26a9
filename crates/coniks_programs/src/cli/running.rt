//! Runs a program, and writes its error text.

ghost use Rattle.std.specs.Prelude.{◌≡◌, ◌<◌, ◌+◌, ◌^◌, map, option_map};
ghost use Rattle.std.specs.Thread.{IsSync};
ghost use Rattle.coniks_lines.specs.Runs.{streams};
ghost use Rattle.coniks_programs.specs.Endings.{IsOutcome, IsWhole, reported_of, unread_status};
ghost use Rattle.coniks_programs.specs.Telling.{Tells};

use crate::cli::arguments::{Unread, words};
use crate::cli::command_line::{CommandLine, Host};
use crate::cli::ending::{Ending, status};
use crate::cli::telling::{tell, tell_if};
use crate::fault::RunFault;
use coniks_lines::{ByteIn, ByteOut};
use std::alloc::Global;
use std::convert::AsStr;
use std::env::Env;
use std::thread::Threads;

/// Runs a program on the arguments that it was called with, and returns its exit status.
///
/// A failure of `errors` changes no status.
pub fn start<
    P: CommandLine,
    T: Env + Alloc<A = Global> + Threads + Sync,
    R: ByteIn,
    W: ByteOut,
    E: ByteOut,
>(rt: &T, reader: &mut R, writer: &mut W, errors: &mut E) -> u8
    requires reads { (R.source reader.old).failed + 1 < 2 ^ 64 }
    requires writes { (W.sink writer.old).failed + 1 < 2 ^ 64 }
    requires tells { (E.sink errors.old).failed + 1 < 2 ^ 64 }
    requires threads { IsSync T.row }
    ensures { IsWhole (λ words. P.MayEnd words (streams (R.source reader.old) (R.source reader.new) (W.sink writer.old) (W.sink writer.new)))
        P.line_for_fault P.line_for_unread (E.sink errors.old) (E.sink errors.new) result }
{
    let host = Host {
        rt,
        alloc: rt.alloc(),
    };
    match words(rt) {
        Ok(words) => run_on::<P, T, _, _, _, _>(&host, words.as_slice(), reader, writer, errors),
        Err(why) => end_unread::<P, E>(why, errors),
    }
}

/// Runs a program on these arguments, and returns its exit status. The first argument is the program's name.
///
/// A failure of `errors` changes no status.
pub fn run_on<P: CommandLine, T: Threads + Sync, S: AsStr, R: ByteIn, W: ByteOut, E: ByteOut>(
    host: &Host<'_, T>,
    words: &[S],
    reader: &mut R,
    writer: &mut W,
    errors: &mut E,
) -> u8
    requires reads { (R.source reader.old).failed + 1 < 2 ^ 64 }
    requires writes { (W.sink writer.old).failed + 1 < 2 ^ 64 }
    requires tells { (E.sink errors.old).failed + 1 < 2 ^ 64 }
    requires threads { IsSync T.row }
    ensures { IsOutcome (P.MayEnd (map S.text words.entry.now) (streams (R.source reader.old) (R.source reader.new) (W.sink writer.old) (W.sink writer.new)))
        P.line_for_fault (E.sink errors.old) (E.sink errors.new) result }
{
    let outcome = P::run(host, words, reader, writer);
    tell_if(errors, reported::<P>(&outcome));
    status(&outcome)
}

/// Writes why the arguments of a program cannot be read, and returns its exit status.
///
/// A failure of `errors` changes no status.
pub fn end_unread<P: CommandLine, E: ByteOut>(why: Unread, errors: &mut E) -> u8
    requires { (E.sink errors.old).failed + 1 < 2 ^ 64 }
    ensures status { result ≡ unread_status why }
    ensures reported { Tells (E.sink errors.old) (P.line_for_unread why) (E.sink errors.new) }
{
    let _ = tell(errors, P::unread_text(why));
    why.status()
}

/// Returns the error text of an outcome, if any.
fn reported<'o, P: CommandLine>(outcome: &'o Result<Ending, RunFault>) -> Option<&'o str>
    ensures { option_map (λ text. text.now) result ≡ reported_of P.line_for_fault outcome.now }
{
    match outcome {
        Ok(ending) => ending.text(),
        Err(fault) => Some(P::fault_text(*fault)),
    }
}
