//! Reads the command line.

ghost use Rattle.std.specs.Prelude.{◌≡◌, IfOk, IfErr, OnOk, Some, [], codes, is_some, map, option_map, true};
ghost use Rattle.std.specs.Str.{bytes_eq};
ghost use Rattle.clap.specs.Walk.{byte_or_zero};
ghost use Rattle.clap.specs.Words.{fault_of, first_of, found_of, rows_of, subcommand_of, takes};
ghost use Rattle.coniks_tool.specs.Keydir.{keydir};
ghost use Rattle.coniks_tool.specs.Choice.{choice_by, choice_of, chosen, depth_of, number_of, run, text_of, workers_of, AreWordsWithin, IsWithinLimits};
ghost use Rattle.coniks_programs.specs.WordsFaults.{IsRefusal};
ghost use Rattle.coniks_programs.specs.declared.cli.refusing.WordsFault.TheVariants.{OutOfMemory};

use crate::cli::choice::Settings;
use crate::cli::command::keydir_command;
use clap::ArgMatches;
use coniks_programs::cli::{WordsFault, refused};
use std::alloc::Global;
use std::convert::AsStr;

/// Returns the settings of a command line. The first argument is the program's name, and a subcommand is required.
///
/// # Errors
///
/// - `Clap` if `clap` refuses the arguments. If they ask for help or the version, it contains an error of `clap` whose
///   text is for the standard output.
/// - `OutOfMemory` if an allocation fails.
pub fn settings<'a, S: AsStr>(alloc: Global, words: &'a [S]) -> Result<Settings<'a>, WordsFault>
    // The settings are those that `clap` defines for these arguments, and only if it finds no error in them.
    ensures ok { IfOk result (λ settings. chosen (subcommand_of keydir (map S.text words.entry.now)) ≡ Some (choice_of settings)) }
    ensures faultless { OnOk result (fault_of keydir (map S.text words.entry.now) ≡ []) }
    ensures within { IfOk result IsWithinLimits }

    // Arguments that `clap` accepts are refused only if an allocation fails, others also for their error.
    ensures passes { IfErr result (λ fault. takes keydir (map S.text words.entry.now) ≡ true → fault ≡ OutOfMemory) }
    ensures refused { IfErr result (IsRefusal (fault_of keydir (map S.text words.entry.now))) }
{
    let Ok(command) = keydir_command(alloc) else {
        return Err(WordsFault::OutOfMemory);
    };
    let matches = match command.try_get_matches_from(words) {
        Ok(matches) => matches,
        Err(error) => return Err(refused(error)),
    };
    match matches.subcommand() {
        Some((name, found)) => Ok(settings_by(name, found)),
        None => unreachable!(),
    }
}

/// Returns the number of a text, or 0 if it is none below 256.
fn byte(text: &str) -> u8
    ensures { result ≡ byte_or_zero text.now }
{
    text.parse::<u8>().unwrap_or(0)
}

/// Returns the number of an option, or `missing` if the option is not there.
fn number_or(found: &ArgMatches<'_>, name: &str, missing: u8) -> usize
    ensures { result ≡ number_of name.now missing (rows_of (found_of found.now)) }
{
    match text(found, name) {
        Some(text) => usize::from(byte(text)),
        None => usize::from(missing),
    }
}

/// Returns the settings of `run`, from the options that were found.
fn run_by<'a>(found: &ArgMatches<'a>) -> Settings<'a>
    requires limits { AreWordsWithin (rows_of (found_of found.now)) }
    ensures numbers { choice_of result ≡ run (workers_of (rows_of (found_of found.now))) (depth_of (rows_of (found_of found.now))) }
    ensures within { IsWithinLimits result }
{
    Settings::Run {
        workers: number_or(found, "workers", 1),
        depth: number_or(found, "depth", 0),
    }
}

/// Returns the settings of a subcommand, from its name and the options that were found. There is no fifth one.
fn settings_by<'a>(name: &'a str, found: &ArgMatches<'a>) -> Settings<'a>
    requires chosen { is_some (choice_by name.now (rows_of (found_of found.now))) ≡ true }
    requires limits { bytes_eq name.now (codes "run") ≡ true → AreWordsWithin (rows_of (found_of found.now)) }
    ensures choice { choice_by name.entry.now (rows_of (found_of found.now)) ≡ Some (choice_of result) }
    ensures within { IsWithinLimits result }
{
    if name == "run" {
        return run_by(found);
    }
    if name == "check" {
        return Settings::Check;
    }
    let key = text_or_empty(found, "key");
    if name == "audit" {
        return Settings::Audit { key };
    }
    Settings::Monitor {
        key,
        name: text_or_empty(found, "name"),
        expect: text(found, "expect"),
    }
}

/// Returns the text of an option, if it was found.
fn text<'a>(found: &ArgMatches<'a>, name: &str) -> Option<&'a str>
    ensures { option_map (λ t. t.now) result ≡ first_of name.now (rows_of (found_of found.now)) }
{
    found.get_str(name)
}

/// Returns the text of an option that is required.
fn text_or_empty<'a>(found: &ArgMatches<'a>, name: &str) -> &'a str
    ensures { result.now ≡ text_of name.now (rows_of (found_of found.now)) }
{
    match text(found, name) {
        Some(text) => text,
        None => "",
    }
}
