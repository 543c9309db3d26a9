//! Reads the command line.

ghost use Rattle.std.specs.Prelude.{◌≡◌, [], IfErr, IfOk, OnOk, map, true};
ghost use Rattle.clap.specs.Words.{fault_of, found_of, rows_of, takes};
ghost use Rattle.coniks_programs.specs.WordsFaults.{IsRefusal};
ghost use Rattle.coniks_programs.specs.declared.cli.refusing.WordsFault.TheVariants.{OutOfMemory};
ghost use Rattle.coniks_provider.specs.Command.{has_flag, is_replay, provider};

use crate::cli::command::command;
use clap::ArgMatches;
use coniks_programs::cli::{Host, WordsFault, refused};
use coniks_threads::{MAX_DEPTH, Parallelism, Wanted};
use std::convert::AsStr;
use std::thread::{self, Threads};

/// What a command line sets.
#[derive(Clone, Copy)]
pub(crate) struct Settings {
    pub(crate) parallelism: Parallelism,
    /// Whether a log is replayed.
    pub(crate) is_replay: bool,
}

/// Returns the settings of a command line, whose first argument is the program's name.
///
/// # Errors
///
/// - `Clap` if `clap` refuses the arguments. If they ask for help or the version, it contains an error of `clap` whose
///   text is for the standard output.
/// - `OutOfMemory` if an allocation fails.
pub(crate) fn settings_of<T: Threads + Sync, S: AsStr>(
    host: &Host<'_, T>,
    words: &[S],
) -> Result<Settings, WordsFault>
    ensures faultless { OnOk result (fault_of provider (map S.text words.entry.now) ≡ []) }

    ensures replay { IfOk result (λ s. s.is_replay ≡ is_replay (map S.text words.entry.now)) }

    // Arguments that `clap` accepts are refused only if an allocation fails, others also for their error.
    ensures passes { IfErr result (λ fault. takes provider (map S.text words.entry.now) ≡ true → fault ≡ OutOfMemory) }
    ensures refused { IfErr result (IsRefusal (fault_of provider (map S.text words.entry.now))) }
{
    let Ok(command) = command(host.alloc) else {
        return Err(WordsFault::OutOfMemory);
    };
    let found = match command.try_get_matches_from(words) {
        Ok(found) => found,
        Err(error) => return Err(refused(error)),
    };
    Ok(Settings {
        parallelism: parallelism_by(host.rt, &found),
        is_replay: has_flag(&found, "replay"),
    })
}

/// Returns the parallelism of the options that were found.
fn parallelism_by<T: Threads>(rt: &T, found: &ArgMatches<'_>) -> Parallelism {
    let workers = match number(found, "workers") {
        Some(number) => number,
        None => processors(rt),
    };
    let depth = number(found, "depth").unwrap_or(MAX_DEPTH);
    Parallelism::nearest(Wanted { workers, depth })
}

/// Returns whether a flag is set.
fn has_flag(found: &ArgMatches<'_>, name: &str) -> bool
    ensures { result ≡ has_flag (rows_of (found_of found.now)) name.now }
{
    match found.get_str(name) {
        Some(value) => value == "true",
        None => false,
    }
}

/// Returns the number of an option, if it is set.
fn number(found: &ArgMatches<'_>, name: &str) -> Option<usize> {
    let text = found.get_str(name)?;
    Some(usize::from(text.parse::<u8>().unwrap_or(0)))
}

/// Returns the number of processors of the machine, or 1 if it isn't known.
fn processors<T: Threads>(rt: &T) -> usize {
    match thread::available_parallelism(rt) {
        Ok(count) => count.get(),
        Err(_) => 1,
    }
}
