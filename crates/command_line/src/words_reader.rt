//! Reads a job from the words.

ghost use Rattle.std.specs.Prelude.{◌≡◌, map, Some, IfOk, IfErr, string_bytes};
ghost use Rattle.clap.specs.Words.{found_of, kind_of, rows_of, subcommand_rows_of};
ghost use Rattle.command_line.specs.Answers.{IsFaultOfClap, IsFaultOf, IsLack, Names};
ghost use Rattle.command_line.specs.Asked.{apply_in, asked, asked_by, asked_in, check_in, database_in, init_in, krl};
ghost use Rattle.command_line.specs.Asked.{migrate, serve_in, signers, table};

use crate::command::{MOST_CONNECTIONS, office_command};
use crate::values::{lack, number_at, text_at, text_if_given};
use crate::{Job, WordsFault};
use clap::error::ErrorKind;
use clap::{ArgMatches, Error};
use std::alloc::Global;

fn init_job(alloc: Global, found: &ArgMatches<'_>) -> Result<Job, WordsFault>
    ensures ok { IfOk result (λ job. init_in (rows_of (found_of found.now)) ≡ Some (asked job)) }
    ensures err { IfErr result (IsLack (init_in (rows_of (found_of found.now)))) }
{
    Ok(Job::Init {
        db: text_at(alloc, found, "db")?,
        ca: text_at(alloc, found, "ca")?,
        root: text_at(alloc, found, "root")?,
        station: text_at(alloc, found, "station")?,
        first: number_at(alloc, found, "first", 0, u64::MAX)?,
        last: number_at(alloc, found, "last", 0, u64::MAX)?,
    })
}

fn apply_job(alloc: Global, found: &ArgMatches<'_>) -> Result<Job, WordsFault>
    ensures ok { IfOk result (λ job. apply_in (rows_of (found_of found.now)) ≡ Some (asked job)) }
    ensures err { IfErr result (IsLack (apply_in (rows_of (found_of found.now)))) }
{
    Ok(Job::Apply {
        db: text_if_given(alloc, found, "db")?,
        file: text_at(alloc, found, "FILE")?,
    })
}

fn serve_job(alloc: Global, found: &ArgMatches<'_>) -> Result<Job, WordsFault>
    ensures ok { IfOk result (λ job. serve_in (rows_of (found_of found.now)) ≡ Some (asked job)) }
    ensures err { IfErr result (IsLack (serve_in (rows_of (found_of found.now)))) }
{
    Ok(Job::Serve {
        db: text_at(alloc, found, "db")?,
        port: number_at(alloc, found, "port", 0, 65535)? as u16,
        connections: number_at(alloc, found, "connections", 1, MOST_CONNECTIONS)?,
        nonces: text_at(alloc, found, "nonces")?,
    })
}

fn check_job(alloc: Global, found: &ArgMatches<'_>) -> Result<Job, WordsFault>
    ensures ok { IfOk result (λ job. check_in (rows_of (found_of found.now)) ≡ Some (asked job)) }
    ensures err { IfErr result (IsLack (check_in (rows_of (found_of found.now)))) }
{
    Ok(Job::Check {
        ca: text_at(alloc, found, "ca")?,
        list: text_at(alloc, found, "KRL")?,
        serial: number_at(alloc, found, "SERIAL", 1, u64::MAX)?,
        key_id: text_at(alloc, found, "KEYID")?,
    })
}

fn krl_job(alloc: Global, found: &ArgMatches<'_>) -> Result<Job, WordsFault>
    ensures ok { IfOk result (λ job. database_in krl (rows_of (found_of found.now)) ≡ Some (asked job)) }
    ensures err { IfErr result (IsLack (database_in krl (rows_of (found_of found.now)))) }
{
    Ok(Job::Krl {
        db: text_at(alloc, found, "db")?,
    })
}

fn signers_job(alloc: Global, found: &ArgMatches<'_>) -> Result<Job, WordsFault>
    ensures ok { IfOk result (λ job. database_in signers (rows_of (found_of found.now)) ≡ Some (asked job)) }
    ensures err { IfErr result (IsLack (database_in signers (rows_of (found_of found.now)))) }
{
    Ok(Job::Signers {
        db: text_at(alloc, found, "db")?,
    })
}

fn table_job(alloc: Global, found: &ArgMatches<'_>) -> Result<Job, WordsFault>
    ensures ok { IfOk result (λ job. database_in table (rows_of (found_of found.now)) ≡ Some (asked job)) }
    ensures err { IfErr result (IsLack (database_in table (rows_of (found_of found.now)))) }
{
    Ok(Job::Table {
        db: text_at(alloc, found, "db")?,
    })
}

fn migrate_job(alloc: Global, found: &ArgMatches<'_>) -> Result<Job, WordsFault>
    ensures ok { IfOk result (λ job. database_in migrate (rows_of (found_of found.now)) ≡ Some (asked job)) }
    ensures err { IfErr result (IsLack (database_in migrate (rows_of (found_of found.now)))) }
{
    Ok(Job::Migrate {
        db: text_at(alloc, found, "db")?,
    })
}

// The job of the subcommand with this name.
fn named_job(alloc: Global, name: &str, found: &ArgMatches<'_>) -> Result<Job, WordsFault>
    ensures ok { IfOk result (λ job. asked_by name.now (rows_of (found_of found.now)) ≡ Some (asked job)) }
    ensures err { IfErr result (IsLack (asked_by name.now (rows_of (found_of found.now)))) }
{
    match name {
        "init" => init_job(alloc, found),
        "apply" => apply_job(alloc, found),
        "serve" => serve_job(alloc, found),
        "krl" => krl_job(alloc, found),
        "signers" => signers_job(alloc, found),
        "table" => table_job(alloc, found),
        "check" => check_job(alloc, found),
        "migrate" => migrate_job(alloc, found),
        "selftest" => Ok(Job::Selftest),
        _ => Err(lack(alloc, "a command")),
    }
}

fn job_by(alloc: Global, matches: &ArgMatches<'_>) -> Result<Job, WordsFault>
    ensures ok { IfOk result (λ job. asked_in (subcommand_rows_of matches.now) ≡ Some (asked job)) }
    ensures err { IfErr result (IsLack (asked_in (subcommand_rows_of matches.now))) }
{
    match matches.subcommand() {
        Some((name, found)) => named_job(alloc, name, found),
        None => Err(lack(alloc, "a command")),
    }
}

/// The fault that an error of clap becomes: its text, or `NoMemory` if memory was refused.
pub fn fault_by(alloc: Global, error: &Error) -> WordsFault
    ensures { IsFaultOfClap (kind_of error.now) result }
{
    if matches!(error.kind(), ErrorKind::OutOfMemory) {
        return WordsFault::NoMemory;
    }
    let Ok(text) = error.to_string(alloc) else {
        return WordsFault::NoMemory;
    };
    if error.use_stderr() {
        WordsFault::BadWords(text)
    } else {
        WordsFault::Help(text)
    }
}

/// The job that the words ask for. The first word is the program's name.
///
/// # Errors
///
/// `Help` and `BadWords` with clap's text, which ends with a line feed; `NoMemory` if memory was refused.
pub fn read_words(alloc: Global, words: &[String]) -> Result<Job, WordsFault>
    // By the meaning of the command, the words are valid and ask for the job.
    ensures ok { IfOk result (Names (map string_bytes words.now)) }

    // They ask for help, are invalid or ask for no job.
    ensures err { IfErr result (IsFaultOf (map string_bytes words.now)) }
{
    let command = office_command(alloc)?;
    match command.try_get_matches_from(words) {
        Ok(matches) => job_by(alloc, &matches),
        Err(error) => Err(fault_by(alloc, &error)),
    }
}
