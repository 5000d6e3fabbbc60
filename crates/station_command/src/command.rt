//! The command that clap reads, with its help.

ghost use Rattle.std.specs.Prelude.{◌≡◌, [], IfOk, codes};
ghost use Rattle.clap.specs.Words.{app_of};
ghost use Rattle.command_line.specs.Command.{IsSubcommand, on_database};
ghost use Rattle.station_command.specs.Command.{body_command, init_command, judge_command, list_command};
ghost use Rattle.station_command.specs.Command.{lists_command, policy_command, retire_command, station_command};
ghost use Rattle.station_command.specs.Command.{top_command};

use crate::arguments::{flag, several, with_option};
use crate::help;
use clap::Command;
use command_line::{Part, job_command, plain_command, with_job};
use std::alloc::{AllocError, Global};

/// The default of `--ahead`, in seconds.
pub const AHEAD: u64 = 3600;

// The command without subcommands.
fn top_command<'a>(alloc: Global) -> Command<'a>
    ensures { app_of result ≡ record { top = top_command; subs = [] } }
{
    let station = plain_command(alloc, "sshstation", help::STATION, help::STATION_MORE);
    station.version(help::VERSION).subcommand_required(true)
}

fn init_command<'a>(alloc: Global) -> Result<Command<'a>, AllocError>
    ensures { IfOk result (IsSubcommand init_command) }
{
    let parts = [
        Part::Required("db", "PATH", help::NEW_DATABASE),
        Part::Required("ca", "PATH", help::CA_FILE),
        Part::Number("first", "N", 0, u64::MAX, help::FIRST),
        Part::Number("last", "N", 0, u64::MAX, help::LAST),
    ];
    job_command(alloc, "init", help::INIT, help::INIT_MORE, &parts)
}

fn judge_command<'a>(alloc: Global) -> Result<Command<'a>, AllocError>
    ensures { IfOk result (IsSubcommand judge_command) }
{
    let parts = [
        Part::Required("db", "PATH", help::DATABASE),
        Part::Required("policy", "PATH", help::POLICY_OPTION),
        Part::OptionalNumber("ahead", "SECONDS", 0, u64::MAX, help::AHEAD_SECONDS),
        Part::Words("BODY", help::BODY_FILES),
    ];
    job_command(alloc, "judge", help::JUDGE, help::JUDGE_MORE, &parts)
}

fn bodies_command<'a>(alloc: Global) -> Result<Command<'a>, AllocError>
    ensures { IfOk result (IsSubcommand (on_database (codes "bodies"))) }
{
    let parts = [Part::Required("db", "PATH", help::DATABASE)];
    job_command(alloc, "bodies", help::BODIES, help::BODIES_MORE, &parts)
}

fn body_command<'a>(alloc: Global) -> Result<Command<'a>, AllocError>
    ensures { IfOk result (IsSubcommand body_command) }
{
    let parts = [
        Part::Required("db", "PATH", help::DATABASE),
        Part::NumberWord("SERIAL", 1, u64::MAX, help::SERIAL),
    ];
    job_command(alloc, "body", help::BODY, help::BODY_MORE, &parts)
}

fn policy_command<'a>(alloc: Global) -> Result<Command<'a>, AllocError>
    ensures { IfOk result (IsSubcommand policy_command) }
{
    let parts = [Part::Word("FILE", help::POLICY_FILE)];
    job_command(alloc, "policy", help::POLICY, help::POLICY_MORE, &parts)
}

fn retire_command<'a>(alloc: Global) -> Result<Command<'a>, AllocError>
    ensures { IfOk result (IsSubcommand retire_command) }
{
    let parts = [
        Part::Required("db", "PATH", help::DATABASE),
        Part::Number("last", "N", 0, u64::MAX, help::NEW_LAST),
    ];
    job_command(alloc, "retire", help::RETIRE, help::RETIRE_MORE, &parts)
}

fn lists_command<'a>(alloc: Global) -> Result<Command<'a>, AllocError>
    ensures { IfOk result (IsSubcommand lists_command) }
{
    let parts = [Part::Required("db", "PATH", help::NEW_DATABASE)];
    let command = job_command(alloc, "lists", help::LISTS, help::LISTS_MORE, &parts);
    with_option(command, flag(alloc, "init", help::INIT_LISTS))
}

fn list_command<'a>(alloc: Global) -> Result<Command<'a>, AllocError>
    ensures { IfOk result (IsSubcommand list_command) }
{
    let parts = [
        Part::Required("db", "PATH", help::LIST_DATABASE),
        Part::Word("LIST", help::LIST_FILE),
    ];
    let command = job_command(alloc, "list", help::LIST, help::LIST_MORE, &parts);
    let command = with_option(command, several(alloc, "ca", "PATH", help::LIST_CA));
    with_option(command, flag(alloc, "begin", help::BEGIN))
}

/// The whole command. To clap, it is the one that `specs/Command.antt` defines.
///
/// # Errors
///
/// Memory was refused.
pub fn station_command<'a>(alloc: Global) -> Result<Command<'a>, AllocError>
    ensures { IfOk result (λ c. app_of c ≡ station_command) }
{
    let station = with_job(Ok(top_command(alloc)), init_command(alloc));
    let station = with_job(station, judge_command(alloc));
    let station = with_job(station, bodies_command(alloc));
    let station = with_job(station, body_command(alloc));
    let station = with_job(station, policy_command(alloc));
    let station = with_job(station, retire_command(alloc));
    let station = with_job(station, lists_command(alloc));
    with_job(station, list_command(alloc))
}
