//! Makes, checks, compares and times key revocation lists from the command line.
//!
//!     krl_tool list SPECIFICATION VERSION DATE
//!     krl_tool check LIST KEY SERIAL KEYID
//!     krl_tool compare LIST LIST..
//!     krl_tool time RUNS
//!     krl_tool add SERIALS STRIDE
//!     krl_tool gather SERIAL..
//!
//! `list` writes the list of a specification to standard output. `check` prints whether a list revokes the certificate
//! with this serial and key id under the CA of a public key, or why the list is refused. `compare` prints for each list
//! but the first whether it keeps everything that the one before it revokes. `time` writes a list of RUNS runs and
//! reads it back. `add` adds SERIALS serials to a set and prints its runs, and how many of the serials were new. Both
//! print the time taken to standard error. `gather` prints the runs of the given serials. Files and the clock are the
//! system's, and nothing is proved about them.
#![tactic(auto)]

mod answer;
mod comparing;
mod gathering;
mod listing;
mod specification;
mod timing;

use answer::Answer;
use anyhow::{Context, Result, bail};
use comparing::compare;
use gathering::gather;
use krl::KrlHead;
use listing::list_of;
use specification::{read_key, read_specification};
use std::io::{self, Write};
use std::rt::Files;
use std::time::Clock;
use std::{env, fs};

fn list<R: Files + Print + AllocGlobal>(rt: &R, file: &str, head: &KrlHead) -> Result<()> {
    let text = fs::read_to_string(rt, file).context(format_args!("reading {file}"))?;
    let wanted = read_specification(rt.alloc(), text.as_str())?;
    let bytes = list_of(rt.alloc(), head, wanted.parts.as_slice(), &wanted.key_ids)?;
    io::writer(rt).write_all(bytes.as_slice())?;
    Ok(())
}

fn check<R: Files + Print + AllocGlobal>(
    rt: &R,
    list: &str,
    key: &str,
    serial: u64,
    key_id: &str,
) -> Result<()> {
    let bytes = fs::read(rt, list).context(format_args!("reading {list}"))?;
    let line = fs::read_to_string(rt, key).context(format_args!("reading {key}"))?;
    let ca = read_key(rt.alloc(), line.as_str().trim_end())?;
    let answer = Answer(krl::check(bytes.as_slice(), &ca, serial, key_id.as_bytes()));
    println!(rt; "{answer}")?;
    Ok(())
}

fn run<R: Files + Clock + Print + Eprint + AllocGlobal>(rt: &R, words: &[&str]) -> Result<()> {
    match *words {
        [_, "list", file, version, date] => {
            let head = KrlHead {
                version: version.parse()?,
                date: date.parse()?,
            };
            list(rt, file, &head)
        }
        [_, "check", file, key, serial, key_id] => check(rt, file, key, serial.parse()?, key_id),
        [_, "compare", ref files @ ..] => compare(rt, files),
        [_, "time", runs] => timing::time(rt, runs.parse()?),
        [_, "add", serials, stride] => timing::add(rt, serials.parse()?, stride.parse()?),
        [_, "gather", ref serials @ ..] => gather(rt, serials),
        _ => bail!(
            "list FILE VERSION DATE, check LIST KEY SERIAL KEYID, compare LIST LIST.., time RUNS, \
            add SERIALS STRIDE, or gather SERIAL.."
        ),
    }
}

fn main(rt: HostRuntime) -> Result<()> {
    let words: Vec<String> = env::args(&rt)?.collect(rt.alloc())?;
    let words: Vec<&str> = words.iter().map(|w| w.as_str()).collect(rt.alloc())?;
    run(&rt, words.as_slice())
}
