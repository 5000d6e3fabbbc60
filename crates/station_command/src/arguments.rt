//! Kinds of options that only `lists` and `list` have.

ghost use Rattle.std.specs.Prelude.{◌≡◌, IfOk, option_map};
ghost use Rattle.clap.specs.Words.{Rule, Shape, first_of, found_of, rows_of};
ghost use Rattle.command_line.specs.Command.{IsArgument, IsSubcommand};
ghost use Rattle.station_command.specs.Arguments.{flag, is_set, several, with_more};

use clap::{Arg, ArgAction, ArgMatches, Command};
use std::alloc::{AllocError, Global};

/// `--name`, an optional flag.
pub(crate) fn flag<'a>(alloc: Global, name: &'a str, help: &'a str) -> Arg<'a>
    ensures { IsArgument (flag name.entry.now) result }
{
    Arg::new(alloc, name)
        .long(name)
        .help(help)
        .action(ArgAction::SetTrue)
}

/// `--name VALUE`, given once or more.
pub(crate) fn several<'a>(alloc: Global, name: &'a str, value: &'a str, help: &'a str) -> Arg<'a>
    ensures { IsArgument (several name.entry.now) result }
{
    Arg::new(alloc, name)
        .long(name)
        .value_name(value)
        .help(help)
        .required(true)
        .action(ArgAction::Append)
}

/// Adds an option to a command, unless memory was refused for one of them.
pub(crate) fn with_option<'a>(
    command: Result<Command<'a>, AllocError>,
    option: Arg<'a>,
) -> Result<Command<'a>, AllocError>
    ensures { (shape : Shape) (rule : Rule) → IfOk command.entry (IsSubcommand shape) → IsArgument rule option.entry
        → IfOk result (IsSubcommand (with_more shape rule)) }
{
    match command {
        Ok(command) => command.arg(option),
        Err(refused) => {
            drop(option);
            Err(refused)
        }
    }
}

/// The text that clap found for an option.
fn text_of<'a>(found: &ArgMatches<'a>, name: &str) -> Option<&'a str>
    ensures { option_map (λ s. s.now) result ≡ first_of name.now (rows_of (found_of found.now)) }
{
    found.get_str(name)
}

/// Whether a flag was given.
pub(crate) fn is_set(found: &ArgMatches<'_>, name: &str) -> bool
    ensures { result ≡ is_set (rows_of (found_of found.now)) name.now }
{
    match text_of(found, name) {
        Some(text) => text == "true",
        None => false,
    }
}
