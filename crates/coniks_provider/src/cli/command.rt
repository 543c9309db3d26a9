//! The command that parses the command line.

ghost use Rattle.std.specs.Prelude.{◌≡◌, IfOk};
ghost use Rattle.clap.specs.Words.{app_of};
ghost use Rattle.coniks_programs.specs.Commands.{IsCommand, IsOption};
ghost use Rattle.coniks_provider.specs.Command.{provider, replay_rule, top};

use clap::{Arg, ArgAction, Command};
use coniks_programs::cli::{number_option, with_default, with_option};
use coniks_threads::{MAX_DEPTH, MAX_WORKERS};
use std::alloc::{AllocError, Global};

/// The text at the end of the help.
const EXAMPLE: &str =
    "A service starts the program as a child process, computes the index of each name by its own verifiable
random function, and signs each epoch's body by its own key. Each line is a JSON object, and gives one
line: open, prepare, install, withdraw, lookup, latest, bindings, restore, restoring, restored
(docs/FORMATS.md).

Examples:
  ./provider < examples/provider.jsonl
  cat LOG.snapshot LOG | ./provider --replay

Status:
  0  every line was accepted
  1  a line was refused
  2  the command line is wrong
  3  a stream or an allocation failed";

/// What `--workers` is.
const WORKERS: &str =
    "The number of worker threads that build an epoch, 1 to 64; the default is the number of processors";

/// What `--depth` is.
const DEPTH: &str = "The split depth in bits, 0 to 12";

/// Returns the option `--replay`.
fn replay_option<'a>(alloc: Global) -> Arg<'a>
    ensures { IsOption replay_rule result }
{
    Arg::new(alloc, "replay")
        .long("replay")
        .action(ArgAction::SetTrue)
        .help(
            "Replays a log, or a snapshot and its log, from standard input, and prints the epoch and the link that it ends in",
        )
}

/// Returns the command without its options.
fn bare_command<'a>(alloc: Global) -> Command<'a>
    ensures { IsCommand top result }
{
    Command::new(alloc, "provider")
        .version("1.0.0")
        .about("Runs a key directory whose indices and signatures come from outside")
        .after_help(EXAMPLE)
}

/// Returns the command with its options.
pub(crate) fn command<'a>(alloc: Global) -> Result<Command<'a>, AllocError>
    ensures { IfOk result (λ command. app_of command ≡ provider) }
{
    let numbers = clap::value_parser!(u8);
    let many = numbers.range(1..=MAX_WORKERS as i64);
    let deep = numbers.range(0..=MAX_DEPTH as i64);
    let workers = number_option(alloc, "workers", many, "1-64", WORKERS);
    let depth = number_option(alloc, "depth", deep, "0-12", DEPTH);
    let with_workers = with_option(Ok(bare_command(alloc)), workers);
    let with_depth = with_option(with_workers, with_default(depth, "12"));
    with_option(with_depth, replay_option(alloc))
}
