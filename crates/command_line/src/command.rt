//! The command that clap reads, with its help.

ghost use Rattle.std.specs.Prelude.{◌≡◌, [], IfOk};
ghost use Rattle.clap.specs.Words.{App, app_of};
ghost use Rattle.command_line.specs.Command.{IsSubcommand, apply_command, check_command, init_command, office_command};
ghost use Rattle.command_line.specs.Command.{on_database, selftest_command, serve_command, top_command};
ghost use Rattle.command_line.specs.Parts.{with_readings};

use crate::help;
use crate::parts::{Part, job_command, plain_command, with_job};
use clap::Command;
use std::alloc::{AllocError, Global};

/// The highest number of connections that `serve` accepts.
pub const MOST_CONNECTIONS: u64 = 1_000_000;

// The command without subcommands.
fn top_command<'a>(alloc: Global) -> Command<'a>
    ensures { app_of result ≡ record { top = top_command; subs = [] } }
{
    let office = plain_command(alloc, "sshoffice", help::OFFICE, help::OFFICE_MORE);
    office.version(help::VERSION).subcommand_required(true)
}

fn init_command<'a>(alloc: Global) -> Result<Command<'a>, AllocError>
    ensures { IfOk result (IsSubcommand init_command) }
{
    let parts = [
        Part::Required("db", "PATH", help::NEW_DATABASE),
        Part::Required("ca", "PATH", help::CA_FILE),
        Part::Required("root", "NAME", help::ROOT),
        Part::Required("station", "NAME", help::STATION),
        Part::Number("first", "N", 0, u64::MAX, help::FIRST),
        Part::Number("last", "N", 0, u64::MAX, help::LAST),
    ];
    job_command(alloc, "init", help::INIT, help::INIT_MORE, &parts)
}

fn apply_command<'a>(alloc: Global) -> Result<Command<'a>, AllocError>
    ensures { IfOk result (IsSubcommand apply_command) }
{
    let parts = [
        Part::Optional("db", "PATH", help::DATABASE_OR_NONE),
        Part::Word("FILE", help::EXCHANGE_FILE),
    ];
    job_command(alloc, "apply", help::APPLY, help::APPLY_MORE, &parts)
}

fn serve_command<'a>(alloc: Global) -> Result<Command<'a>, AllocError>
    ensures { IfOk result (IsSubcommand serve_command) }
{
    let most = MOST_CONNECTIONS;
    let parts = [
        Part::Required("db", "PATH", help::DATABASE),
        Part::Number("port", "P", 0, 65535, help::PORT),
        Part::Number("connections", "N", 1, most, help::CONNECTIONS),
        Part::Required("nonces", "PATH", help::NONCES),
    ];
    job_command(alloc, "serve", help::SERVE, help::SERVE_MORE, &parts)
}

// A command for one database, for example `krl --db PATH`.
fn on_database<'a>(
    alloc: Global,
    name: &'a str,
    about: &'a str,
    more: &'a str,
) -> Result<Command<'a>, AllocError>
    ensures { IfOk result (IsSubcommand (on_database name.entry.now)) }
{
    let parts = [Part::Required("db", "PATH", help::DATABASE)];
    job_command(alloc, name, about, more, &parts)
}

fn check_command<'a>(alloc: Global) -> Result<Command<'a>, AllocError>
    ensures { IfOk result (IsSubcommand check_command) }
{
    let parts = [
        Part::Required("ca", "PATH", help::CA_FILE),
        Part::Word("KRL", help::LIST_FILE),
        Part::NumberWord("SERIAL", 1, u64::MAX, help::SERIAL),
        Part::Word("KEYID", help::KEY_ID),
    ];
    job_command(alloc, "check", help::CHECK, help::CHECK_MORE, &parts)
}

fn selftest_command<'a>(alloc: Global) -> Command<'a>
    ensures { IsSubcommand selftest_command result }
{
    plain_command(alloc, "selftest", help::SELFTEST, help::SELFTEST_MORE)
}

// Adds the jobs that read an office to a command.
fn with_readings<'a>(
    alloc: Global,
    office: Result<Command<'a>, AllocError>,
) -> Result<Command<'a>, AllocError>
    ensures { (app : App) → IfOk office.entry (λ c. app_of c ≡ app)
        → IfOk result (λ c. app_of c ≡ with_readings app) }
{
    let office = with_job(office, on_database(alloc, "krl", help::KRL, help::KRL_MORE));
    let signers = on_database(alloc, "signers", help::SIGNERS, help::SIGNERS_MORE);
    let office = with_job(office, signers);
    with_job(
        office,
        on_database(alloc, "table", help::TABLE, help::TABLE_MORE),
    )
}

/// The whole command. To clap, it is the one that `specs/Command.antt` defines.
///
/// # Errors
///
/// Memory was refused.
pub fn office_command<'a>(alloc: Global) -> Result<Command<'a>, AllocError>
    ensures { IfOk result (λ c. app_of c ≡ office_command) }
{
    let office = with_job(Ok(top_command(alloc)), init_command(alloc));
    let office = with_job(office, apply_command(alloc));
    let office = with_job(office, serve_command(alloc));
    let office = with_readings(alloc, office);
    let office = with_job(office, check_command(alloc));
    let office = with_job(
        office,
        on_database(alloc, "migrate", help::MIGRATE, help::MIGRATE_MORE),
    );
    with_job(office, Ok(selftest_command(alloc)))
}
