//! Reads a job from the words.

ghost use Rattle.std.specs.Prelude.{◌≡◌, map, Some, IfOk, IfErr, string_bytes};
ghost use Rattle.clap.specs.Words.{found_of, rows_of, subcommand_rows_of};
ghost use Rattle.command_line.specs.Answers.{IsLack};
ghost use Rattle.station_command.specs.Answers.{IsFaultOf, Names};
ghost use Rattle.station_command.specs.Asked.{asked, asked_by, asked_in, bodies_in, body_in, init_in, judge_in};
ghost use Rattle.station_command.specs.Asked.{list_in, lists_in, policy_in, retire_in};

use crate::arguments::is_set;
use crate::command::{AHEAD, station_command};
use crate::job::{Judging, Listing, StationJob};
use clap::ArgMatches;
use command_line::{WordsFault, fault_by, lack, number_at, number_if_given, text_at, texts_at};
use std::alloc::Global;

fn init_job(alloc: Global, found: &ArgMatches<'_>) -> Result<StationJob, WordsFault>
    ensures ok { IfOk result (λ job. init_in (rows_of (found_of found.now)) ≡ Some (asked job)) }
    ensures err { IfErr result (IsLack (init_in (rows_of (found_of found.now)))) }
{
    Ok(StationJob::Init {
        db: text_at(alloc, found, "db")?,
        ca: text_at(alloc, found, "ca")?,
        first: number_at(alloc, found, "first", 0, u64::MAX)?,
        last: number_at(alloc, found, "last", 0, u64::MAX)?,
    })
}

fn judge_job(alloc: Global, found: &ArgMatches<'_>) -> Result<StationJob, WordsFault>
    ensures ok { IfOk result (λ job. judge_in (rows_of (found_of found.now)) ≡ Some (asked job)) }
    ensures err { IfErr result (IsLack (judge_in (rows_of (found_of found.now)))) }
{
    Ok(StationJob::Judge(Judging {
        db: text_at(alloc, found, "db")?,
        policy: text_at(alloc, found, "policy")?,
        ahead: number_if_given(alloc, found, "ahead", (0, u64::MAX), AHEAD)?,
        bodies: texts_at(alloc, found, "BODY")?,
    }))
}

fn bodies_job(alloc: Global, found: &ArgMatches<'_>) -> Result<StationJob, WordsFault>
    ensures ok { IfOk result (λ job. bodies_in (rows_of (found_of found.now)) ≡ Some (asked job)) }
    ensures err { IfErr result (IsLack (bodies_in (rows_of (found_of found.now)))) }
{
    Ok(StationJob::Bodies {
        db: text_at(alloc, found, "db")?,
    })
}

fn body_job(alloc: Global, found: &ArgMatches<'_>) -> Result<StationJob, WordsFault>
    ensures ok { IfOk result (λ job. body_in (rows_of (found_of found.now)) ≡ Some (asked job)) }
    ensures err { IfErr result (IsLack (body_in (rows_of (found_of found.now)))) }
{
    Ok(StationJob::Body {
        db: text_at(alloc, found, "db")?,
        serial: number_at(alloc, found, "SERIAL", 1, u64::MAX)?,
    })
}

fn policy_job(alloc: Global, found: &ArgMatches<'_>) -> Result<StationJob, WordsFault>
    ensures ok { IfOk result (λ job. policy_in (rows_of (found_of found.now)) ≡ Some (asked job)) }
    ensures err { IfErr result (IsLack (policy_in (rows_of (found_of found.now)))) }
{
    Ok(StationJob::Policy {
        file: text_at(alloc, found, "FILE")?,
    })
}

fn retire_job(alloc: Global, found: &ArgMatches<'_>) -> Result<StationJob, WordsFault>
    ensures ok { IfOk result (λ job. retire_in (rows_of (found_of found.now)) ≡ Some (asked job)) }
    ensures err { IfErr result (IsLack (retire_in (rows_of (found_of found.now)))) }
{
    Ok(StationJob::Retire {
        db: text_at(alloc, found, "db")?,
        last: number_at(alloc, found, "last", 0, u64::MAX)?,
    })
}

fn lists_job(alloc: Global, found: &ArgMatches<'_>) -> Result<StationJob, WordsFault>
    ensures ok { IfOk result (λ job. lists_in (rows_of (found_of found.now)) ≡ Some (asked job)) }
    ensures err { IfErr result (IsLack (lists_in (rows_of (found_of found.now)))) }
{
    if !is_set(found, "init") {
        return Err(lack(alloc, "--init"));
    }
    Ok(StationJob::Lists {
        db: text_at(alloc, found, "db")?,
    })
}

fn list_job(alloc: Global, found: &ArgMatches<'_>) -> Result<StationJob, WordsFault>
    ensures ok { IfOk result (λ job. list_in (rows_of (found_of found.now)) ≡ Some (asked job)) }
    ensures err { IfErr result (IsLack (list_in (rows_of (found_of found.now)))) }
{
    Ok(StationJob::List(Listing {
        db: text_at(alloc, found, "db")?,
        cas: texts_at(alloc, found, "ca")?,
        begins: is_set(found, "begin"),
        list: text_at(alloc, found, "LIST")?,
    }))
}

// The job of the subcommand with this name.
fn named_job(alloc: Global, name: &str, found: &ArgMatches<'_>) -> Result<StationJob, WordsFault>
    ensures ok { IfOk result (λ job. asked_by name.now (rows_of (found_of found.now)) ≡ Some (asked job)) }
    ensures err { IfErr result (IsLack (asked_by name.now (rows_of (found_of found.now)))) }
{
    match name {
        "init" => init_job(alloc, found),
        "judge" => judge_job(alloc, found),
        "bodies" => bodies_job(alloc, found),
        "body" => body_job(alloc, found),
        "policy" => policy_job(alloc, found),
        "retire" => retire_job(alloc, found),
        "lists" => lists_job(alloc, found),
        "list" => list_job(alloc, found),
        _ => Err(lack(alloc, "a command")),
    }
}

fn job_by(alloc: Global, matches: &ArgMatches<'_>) -> Result<StationJob, WordsFault>
    ensures ok { IfOk result (λ job. asked_in (subcommand_rows_of matches.now) ≡ Some (asked job)) }
    ensures err { IfErr result (IsLack (asked_in (subcommand_rows_of matches.now))) }
{
    match matches.subcommand() {
        Some((name, found)) => named_job(alloc, name, found),
        None => Err(lack(alloc, "a command")),
    }
}

/// The job that the words ask for. The first word is the program's name.
///
/// # Errors
///
/// `Help` and `BadWords` with clap's text, which ends with a line feed; `NoMemory` if memory was refused.
pub fn read_words(alloc: Global, words: &[String]) -> Result<StationJob, WordsFault>
    // By the meaning of the command, the words are valid and ask for the job.
    ensures ok { IfOk result (Names (map string_bytes words.now)) }

    // They ask for help, are invalid or ask for no job.
    ensures err { IfErr result (IsFaultOf (map string_bytes words.now)) }
{
    let command = station_command(alloc)?;
    match command.try_get_matches_from(words) {
        Ok(matches) => job_by(alloc, &matches),
        Err(error) => Err(fault_by(alloc, &error)),
    }
}
