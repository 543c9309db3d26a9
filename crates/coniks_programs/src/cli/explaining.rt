//! The texts of `clap`.

ghost use Rattle.std.specs.Prelude.{◌≡◌, ◌≢◌, ◌+◌, ◌<◌, ◌^◌, ℕ, List, [], IfOk, true};
ghost use Rattle.std.specs.String.{string_bytes};
ghost use Rattle.clap.specs.Words.{App, fault_of, kind_of, takes};
ghost use Rattle.coniks_lines.specs.Known.{Source};
ghost use Rattle.coniks_lines.specs.Runs.{streams};
ghost use Rattle.coniks_programs.specs.Endings.{EndsUnrun, Explains};
ghost use Rattle.coniks_programs.specs.WordsFaults.{IsRefusal};
ghost use Rattle.coniks_programs.specs.declared.cli.refusing.WordsFault.TheVariants.{OutOfMemory};

use crate::cli::ending::Ending;
use crate::cli::refusing::WordsFault;
use crate::cli::telling::tell;
use crate::fault::{RunFault, of_lines};
use clap::Error;
use coniks_lines::ByteOut;
use std::alloc::{AllocError, Global};

/// The text in the place of an empty one.
const NO_TEXT: &str = "no text\n";

/// Returns the text of an error. It is not empty.
fn text_of(alloc: Global, error: &Error) -> Result<String, AllocError>
    ensures { IfOk result (λ text. string_bytes text ≢ []) }
{
    let text = error.to_string(alloc)?;
    if text.is_empty() {
        return String::from_str(alloc, NO_TEXT);
    }
    Ok(text)
}

/// Writes help or the version, or returns why the arguments are refused. No text is empty.
///
/// # Errors
///
/// - `Write` if the text could not be written to its end. A prefix of it was written.
/// - `OutOfMemory` if an allocation fails. Nothing was written.
pub fn explain<W: ByteOut>(alloc: Global, error: &Error, writer: &mut W) -> Result<Ending, RunFault>
    requires { (W.sink writer.old).failed + 1 < 2 ^ 64 }
    ensures { (still : Source) → Explains (kind_of error.now) (streams still still (W.sink writer.old) (W.sink writer.new)) result }
{
    let Ok(text) = text_of(alloc, error) else {
        return Err(RunFault::OutOfMemory);
    };
    if error.use_stderr() {
        return Ok(Ending::Refused(text));
    }
    match tell(writer, text.as_str()) {
        Ok(()) => Ok(Ending::Done(true)),
        Err(fault) => Err(of_lines(fault)),
    }
}

/// Ends a command line without settings: writes help or the version, or returns why the arguments are refused.
///
/// # Errors
///
/// - `Write` if the text could not be written to its end. A prefix of it was written.
/// - `OutOfMemory` if an allocation failed. Nothing was written.
pub fn end_unrun<W: ByteOut>(
    alloc: Global,
    fault: WordsFault,
    writer: &mut W,
) -> Result<Ending, RunFault>
    requires { (W.sink writer.old).failed + 1 < 2 ^ 64 }
    ensures { (app : App) (words : List (List ℕ)) (still : Source) → IsRefusal (fault_of app words) fault
        → (takes app words ≡ true → fault ≡ OutOfMemory)
        → EndsUnrun app words (streams still still (W.sink writer.old) (W.sink writer.new)) result }
{
    match fault {
        WordsFault::Clap(error) => explain(alloc, &error, writer),
        WordsFault::OutOfMemory => Err(RunFault::OutOfMemory),
    }
}
