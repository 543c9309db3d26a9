//! The command that parses the command line.

ghost use Rattle.std.specs.Prelude.{◌≡◌, IfOk, false, true};
ghost use Rattle.clap.specs.Words.{app_of, new_app};
ghost use Rattle.clap.specs.declared.builder.command.Command.TheViews.{out-Command as fields_of};
ghost use Rattle.coniks_programs.specs.Commands.{IsCommand, IsOption};
ghost use Rattle.coniks_tool.specs.Keydir.{audit_app, check_app, key_rule, keydir, keydir_top, monitor_app, run_app, text_rule};

use crate::cli::help;
use clap::{Arg, Command};
use coniks_programs::cli::{number_option, with_below, with_default, with_option};
use coniks_threads::{MAX_DEPTH, MAX_WORKERS};
use std::alloc::{AllocError, Global};

/// Returns a command of this name, with the first and the last text of its help.
fn command<'a>(alloc: Global, name: &'a str, about: &'a str, last: &'a str) -> Command<'a>
    ensures { IsCommand (new_app name.now) result }
{
    Command::new(alloc, name).about(about).after_help(last)
}

/// Returns an option that is a text.
fn text_option<'a>(
    alloc: Global,
    name: &'a str,
    required: bool,
    value_name: &'a str,
    help: &'a str,
) -> Arg<'a>
    ensures { IsOption (text_rule name.now required) result }
{
    Arg::new(alloc, name)
        .long(name)
        .value_name(value_name)
        .required(required)
        .help(help)
}

/// Returns the subcommand `run`.
fn run_command<'a>(alloc: Global) -> Result<Command<'a>, AllocError>
    ensures { IfOk result (IsCommand run_app) }
{
    let numbers = clap::value_parser!(u8);
    let many = numbers.range(1..=MAX_WORKERS as i64);
    let deep = numbers.range(0..=MAX_DEPTH as i64);
    let workers = number_option(alloc, "workers", many, "1-64", help::WORKERS);
    let depth = number_option(alloc, "depth", deep, "0-12", help::DEPTH);
    let bare = command(alloc, "run", help::RUN, help::OF_RUN);
    let with_workers = with_option(Ok(bare), with_default(workers, "1"));
    with_option(with_workers, with_default(depth, "0"))
}

/// Returns the subcommand `check`.
fn check_command<'a>(alloc: Global) -> Command<'a>
    ensures { IsCommand check_app result }
{
    command(alloc, "check", help::CHECK, help::OF_CHECK)
}

/// Returns the option `--key`.
fn key_option<'a>(alloc: Global) -> Arg<'a>
    ensures { IsOption key_rule result }
{
    text_option(alloc, "key", true, "HEX64", help::KEY)
}

/// Returns the subcommand `audit`.
fn audit_command<'a>(alloc: Global) -> Result<Command<'a>, AllocError>
    ensures { IfOk result (IsCommand audit_app) }
{
    let bare = command(alloc, "audit", help::AUDIT, help::OF_AUDIT);
    with_option(Ok(bare), key_option(alloc))
}

/// Returns the subcommand `monitor`.
fn monitor_command<'a>(alloc: Global) -> Result<Command<'a>, AllocError>
    ensures { IfOk result (IsCommand monitor_app) }
{
    let name = text_option(alloc, "name", true, "TEXT", help::NAME);
    let expect = text_option(alloc, "expect", false, "BASE64", help::EXPECT);
    let bare = command(alloc, "monitor", help::MONITOR, help::OF_MONITOR);
    let with_key = with_option(Ok(bare), key_option(alloc));
    let with_name = with_option(with_key, name);
    with_option(with_name, expect)
}

/// Returns the command without its subcommands.
fn top_command<'a>(alloc: Global) -> Command<'a>
    ensures { IsCommand keydir_top result }
{
    Command::new(alloc, "keydir")
        .version("1.0.0")
        .subcommand_required(true)
        .after_help(help::OF_KEYDIR)
}

/// Returns the command with its subcommands.
pub(crate) fn keydir_command<'a>(alloc: Global) -> Result<Command<'a>, AllocError>
    ensures app { IfOk result (λ command. app_of command ≡ keydir) }
    ensures local { IfOk result (λ command. (fields_of command).has_globals ≡ false) }
    ensures needs { IfOk result (λ command. (fields_of command).subcommand_required ≡ true) }
{
    let with_run = with_below(Ok(top_command(alloc)), run_command(alloc));
    let with_check = with_below(with_run, Ok(check_command(alloc)));
    let with_audit = with_below(with_check, audit_command(alloc));
    with_below(with_audit, monitor_command(alloc))
}
