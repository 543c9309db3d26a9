//! Runs the settings of a command line.

ghost use Rattle.std.specs.Prelude.{◌≡◌, ◌<◌, ◌+◌, ◌^◌, IfErr, IfOk, Some, option_map};
ghost use Rattle.coniks_lines.specs.Runs.{streams};
ghost use Rattle.coniks_programs.specs.declared.fault.RunFault.TheVariants.{OutOfMemory};
ghost use Rattle.coniks_tool.specs.Choice.{IsWithinLimits, audit, choice_of, monitor};
ghost use Rattle.coniks_tool.specs.Expectations.{expectation_in};
ghost use Rattle.coniks_tool.specs.Program.{EndsBy};

use crate::audit::machine::run_audit;
use crate::check::machine::run_check;
use crate::cli::choice::Settings;
use crate::monitor::expectation::expectation;
use crate::monitor::machine::run_monitor;
use crate::run::machine::run_script;
use coniks_lines::{ByteIn, ByteOut};
use coniks_programs::cli::{Ending, Host};
use coniks_programs::fault::RunFault;
use coniks_programs::members::bytes_of_digits;
use coniks_proof::Bytes;
use std::alloc::Global;
use std::thread::Threads;

/// The error line for a bad key.
const BAD_KEY: &str = "keydir: bad key\n";

/// The error line for a bad expectation.
const BAD_EXPECTATION: &str = "keydir: bad expectation\n";

/// Runs the settings, after it has read the texts of a key and of an expectation.
pub(crate) fn run_settings<T: Threads + Sync, R: ByteIn, W: ByteOut>(
    host: &Host<'_, T>,
    settings: Settings,
    reader: &mut R,
    writer: &mut W,
) -> Result<Ending, RunFault>
    requires within { IsWithinLimits settings }
    requires reads { (R.source reader.old).failed + 1 < 2 ^ 64 }
    requires writes { (W.sink writer.old).failed + 1 < 2 ^ 64 }
    ensures { EndsBy (Some (choice_of settings.entry))
        (streams (R.source reader.old) (R.source reader.new) (W.sink writer.old) (W.sink writer.new)) result }
{
    let alloc = host.alloc;
    match settings {
        Settings::Run { workers, depth } => {
            let all = run_script(host.rt, alloc, reader, writer, workers, depth)?;
            Ok(Ending::Done(all))
        }
        Settings::Check => Ok(Ending::Done(run_check(alloc, reader, writer)?)),
        Settings::Audit { key } => audit_under(alloc, key, reader, writer),
        Settings::Monitor { key, name, expect } => {
            let watched = Watched { key, name, expect };
            watch_under(alloc, watched, reader, writer)
        }
    }
}

/// Audits under the key of a text.
fn audit_under<R: ByteIn, W: ByteOut>(
    alloc: Global,
    key: &str,
    reader: &mut R,
    writer: &mut W,
) -> Result<Ending, RunFault>
    requires reads { (R.source reader.old).failed + 1 < 2 ^ 64 }
    requires writes { (W.sink writer.old).failed + 1 < 2 ^ 64 }
    ensures { EndsBy (Some (audit key.now))
        (streams (R.source reader.old) (R.source reader.new) (W.sink writer.old) (W.sink writer.new)) result }
{
    match bytes_of_digits(key) {
        Some(key) => Ok(Ending::Done(run_audit(alloc, key, reader, writer)?)),
        None => Ok(Ending::Unusable(BAD_KEY)),
    }
}

/// A name to monitor, with the texts of the directory's key and of the client's expectation.
#[derive(Clone, Copy)]
struct Watched<'a> {
    key: &'a str,
    name: &'a str,
    expect: Option<&'a str>,
}

/// Monitors a name.
fn watch_under<R: ByteIn, W: ByteOut>(
    alloc: Global,
    watched: Watched<'_>,
    reader: &mut R,
    writer: &mut W,
) -> Result<Ending, RunFault>
    requires reads { (R.source reader.old).failed + 1 < 2 ^ 64 }
    requires writes { (W.sink writer.old).failed + 1 < 2 ^ 64 }
    ensures { EndsBy (Some (monitor watched.entry.key.now watched.entry.name.now (option_map (λ text. text.now) watched.entry.expect)))
        (streams (R.source reader.old) (R.source reader.new) (W.sink writer.old) (W.sink writer.new)) result }
{
    let Some(key) = bytes_of_digits(watched.key) else {
        return Ok(Ending::Unusable(BAD_KEY));
    };
    let Some(expected) = expectation_of(alloc, watched.expect)? else {
        return Ok(Ending::Unusable(BAD_EXPECTATION));
    };
    let name = copy_of(alloc, watched.name)?;
    let all = run_monitor(alloc, key, name, expected, reader, writer)?;
    Ok(Ending::Done(all))
}

/// Returns the expectation of a text, or `None` if it is not base64.
fn expectation_of(alloc: Global, text: Option<&str>) -> Result<Option<Option<Bytes>>, RunFault>
    ensures ok { IfOk result (λ expected. expected ≡ expectation_in (option_map (λ t. t.now) text.entry)) }
    ensures fault { IfErr result (λ fault. fault ≡ OutOfMemory) }
{
    match expectation(alloc, text) {
        Ok(expected) => Ok(expected),
        Err(_) => Err(RunFault::OutOfMemory),
    }
}

/// Copies the bytes of a text.
fn copy_of(alloc: Global, text: &str) -> Result<Bytes, RunFault>
    ensures ok { IfOk result (λ copy. copy ≡ text.now) }
    ensures fault { IfErr result (λ fault. fault ≡ OutOfMemory) }
{
    match Bytes::copy_of(alloc, text.as_bytes()) {
        Ok(copy) => Ok(copy),
        Err(_) => Err(RunFault::OutOfMemory),
    }
}
