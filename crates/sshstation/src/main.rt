//! The program `sshstation`: its command line, and what each command does.
//!
//! What a command does with a guard is proved in `station_jobs`, over any register, files, input and output: `run_in`
//! does it, from opening the guard's file to closing it. Here `do_words` reads the words and does the job that they
//! name, and `run` does this over the tables of a database: it shows that an opened guard is the one that the files
//! held, and that they hold the one that is closed. Other files, the clock and the input may be any: `main` gives it
//! the system's, about which nothing is proved, nor about the console.
#![tactic(auto)]

mod command;
mod database_files;
mod ending;
mod guard_database;
mod host;
mod list_database;

use sqlite::Unknown;
use std::process::ExitCode;
use system::{Opener, System};
use wire::FromWrite;

fn status_by(system: &System, opener: &Opener) -> u8 {
    let mut err = FromWrite::new(system.errors());
    let mut out = system.output();
    match system.words() {
        Ok(words) => {
            let alloc = system.alloc();
            let around = host::Host { system };
            let words = words.as_slice();
            let mut input = system.input();
            host::run(
                alloc, opener, &around, Unknown, Unknown, words, &mut input, &mut out, &mut err,
            )
            .0
        }
        Err(fault) => command::do_no_words(fault.kind(), &mut err),
    }
}

fn main(rt: HostRuntime) -> ExitCode {
    ExitCode::from(status_by(&System::new(rt), &Opener::new(rt)))
}
