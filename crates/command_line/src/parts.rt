//! The parts of a command: options, arguments and jobs.

ghost use Rattle.std.specs.Prelude.{◌≡◌, [], IfOk, map};
ghost use Rattle.clap.specs.Words.{App, Shape, app_of, with_subcommand};
ghost use Rattle.command_line.specs.Command.{IsArgument, IsSubcommand, number, number_word, optional, optional_number};
ghost use Rattle.command_line.specs.Command.{required, subcommand, word, words};
ghost use Rattle.command_line.specs.Parts.{rule_of_part};

use clap::builder::ValueParser;
use clap::{Arg, ArgAction, Command};
use std::alloc::{AllocError, Global};

/// An option or argument of a job: its name, the name of its value, its limits and its help text.
#[derive(Clone, Copy)]
pub enum Part<'a> {
    /// `--name VALUE`, optional.
    Optional(&'a str, &'a str, &'a str),
    /// `--name VALUE`, required.
    Required(&'a str, &'a str, &'a str),
    /// `--name N`, required: a number within the limits.
    Number(&'a str, &'a str, u64, u64, &'a str),
    /// `--name N`, optional: a number within the limits.
    OptionalNumber(&'a str, &'a str, u64, u64, &'a str),
    /// A positional argument.
    Word(&'a str, &'a str),
    /// A positional argument: a number within the limits.
    NumberWord(&'a str, u64, u64, &'a str),
    /// One or more arguments, at the end.
    Words(&'a str, &'a str),
}

// `--name VALUE`, optional.
fn optional<'a>(alloc: Global, name: &'a str, value: &'a str, help: &'a str) -> Arg<'a>
    ensures { IsArgument (optional name.entry.now) result }
{
    Arg::new(alloc, name)
        .long(name)
        .value_name(value)
        .help(help)
}

// `--name VALUE`, required.
fn required<'a>(alloc: Global, name: &'a str, value: &'a str, help: &'a str) -> Arg<'a>
    ensures { IsArgument (required name.entry.now) result }
{
    optional(alloc, name, value, help).required(true)
}

// `--name N`, required: a number from `low` to `high`.
fn number<'a>(
    alloc: Global,
    name: &'a str,
    value: &'a str,
    low: u64,
    high: u64,
    help: &'a str,
) -> Arg<'a>
    ensures { IsArgument (number name.entry.now low high) result }
{
    required(alloc, name, value, help).value_parser(ValueParser::Unsigned(low, high))
}

// `--name N`, optional: a number from `low` to `high`.
fn optional_number<'a>(
    alloc: Global,
    name: &'a str,
    value: &'a str,
    low: u64,
    high: u64,
    help: &'a str,
) -> Arg<'a>
    ensures { IsArgument (optional_number name.entry.now low high) result }
{
    optional(alloc, name, value, help).value_parser(ValueParser::Unsigned(low, high))
}

// A positional argument.
fn word<'a>(alloc: Global, name: &'a str, help: &'a str) -> Arg<'a>
    ensures { IsArgument (word name.entry.now) result }
{
    Arg::new(alloc, name).required(true).help(help)
}

// A positional argument: a number from `low` to `high`.
fn number_word<'a>(alloc: Global, name: &'a str, low: u64, high: u64, help: &'a str) -> Arg<'a>
    ensures { IsArgument (number_word name.entry.now low high) result }
{
    word(alloc, name, help).value_parser(ValueParser::Unsigned(low, high))
}

// One or more arguments, at the end.
fn words<'a>(alloc: Global, name: &'a str, help: &'a str) -> Arg<'a>
    ensures { IsArgument (words name.entry.now) result }
{
    word(alloc, name, help).action(ArgAction::Append)
}

/// A command without options and arguments: its name, what it does, and the end of its help.
pub fn plain_command<'a>(alloc: Global, name: &'a str, about: &'a str, more: &'a str) -> Command<'a>
    ensures { IsSubcommand (subcommand name.entry.now []) result }
{
    Command::new(alloc, name).about(about).after_help(more)
}

// A part as an argument for clap.
fn argument<'a>(alloc: Global, part: Part<'a>) -> Arg<'a>
    ensures { IsArgument (rule_of_part part.entry) result }
{
    match part {
        Part::Optional(name, value, help) => optional(alloc, name, value, help),
        Part::Required(name, value, help) => required(alloc, name, value, help),
        Part::Number(name, value, low, high, help) => number(alloc, name, value, low, high, help),
        Part::OptionalNumber(name, value, low, high, help) => {
            optional_number(alloc, name, value, low, high, help)
        }
        Part::Word(name, help) => word(alloc, name, help),
        Part::NumberWord(name, low, high, help) => number_word(alloc, name, low, high, help),
        Part::Words(name, help) => words(alloc, name, help),
    }
}

/// A command with these options and arguments.
///
/// # Errors
///
/// Memory was refused.
pub fn job_command<'a>(
    alloc: Global,
    name: &'a str,
    about: &'a str,
    more: &'a str,
    parts: &[Part<'a>],
) -> Result<Command<'a>, AllocError>
    ensures { IfOk result (IsSubcommand (subcommand name.entry.now (map rule_of_part parts.now))) }
{
    let mut command = plain_command(alloc, name, about, more);
    for part in parts {
        command = command.arg(argument(alloc, *part))?;
    }
    Ok(command)
}

/// Adds a job to a command, unless memory was refused for one of them.
///
/// # Errors
///
/// Memory was refused.
pub fn with_job<'a>(
    app: Result<Command<'a>, AllocError>,
    job: Result<Command<'a>, AllocError>,
) -> Result<Command<'a>, AllocError>
    ensures { (of : App) (shape : Shape) → IfOk app.entry (λ c. app_of c ≡ of)
        → IfOk job.entry (IsSubcommand shape) → IfOk result (λ c. app_of c ≡ with_subcommand of shape) }
{
    match (app, job) {
        (Ok(app), Ok(job)) => app.subcommand(job),
        (Err(refused), job) => {
            drop(job);
            Err(refused)
        }
        (Ok(app), Err(refused)) => {
            drop(app);
            Err(refused)
        }
    }
}
