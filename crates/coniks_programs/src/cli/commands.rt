//! Commands of `clap`, built option by option.

ghost use Rattle.std.specs.Prelude.{◌≡◌, ◌∷◌, ℤ, [], IfOk};
ghost use Rattle.clap.specs.Words.{App, Rule, with_rule, with_subcommand};
ghost use Rattle.coniks_programs.specs.Commands.{IsCommand, IsOption, number_rule};

use clap::builder::ValueParser;
use clap::{Arg, Command};
use std::alloc::{AllocError, Global};

/// Returns an option that is a number.
pub fn number_option<'a>(
    alloc: Global,
    name: &'a str,
    parser: ValueParser<'a>,
    value_name: &'a str,
    help: &'a str,
) -> Arg<'a>
    ensures { (least most : ℤ) → parser.entry ≡ ValueParser.Signed least most → IsOption (number_rule name.now least most) result }
{
    Arg::new(alloc, name)
        .long(name)
        .value_parser(parser)
        .value_name(value_name)
        .help(help)
}

/// Returns an option with a default.
pub fn with_default<'a>(option: Arg<'a>, missing: &'a str) -> Arg<'a>
    ensures { (rule : Rule) → IsOption rule option.entry → IsOption (record rule { defaults = missing.now ∷ [] }) result }
{
    option.default_value(missing)
}

/// Returns a command with one more option, if the command could be allocated.
pub fn with_option<'a>(
    command: Result<Command<'a>, AllocError>,
    option: Arg<'a>,
) -> Result<Command<'a>, AllocError>
    ensures { (before : App) (rule : Rule) → IfOk command.entry (IsCommand before)
        → IsOption rule option.entry → IfOk result (IsCommand (with_rule before rule)) }
{
    command?.arg(option)
}

/// Returns a command with one more subcommand, if both could be allocated.
pub fn with_below<'a>(
    command: Result<Command<'a>, AllocError>,
    below: Result<Command<'a>, AllocError>,
) -> Result<Command<'a>, AllocError>
    ensures { (before under : App) → IfOk command.entry (IsCommand before)
        → IfOk below.entry (IsCommand under) → IfOk result (IsCommand (with_subcommand before under.top)) }
{
    let command = command?;
    command.subcommand(below?)
}
