//! The program: its arguments, and the world in which it does its jobs, the system.
//!
//! What a command does is proved in `office_jobs`, in any world. For a database's files it is proved here what an open
//! finds in them, given what they held, and what a close leaves. Other files, the console and sockets are the system's,
//! and nothing is proved about them.
#![tactic(auto)]

mod database_files;
mod host;

use crate::host::run;
use office_jobs::{Console, do_no_words};
use sqlite::Unknown;
use std::io::BufWriter;
use std::process::ExitCode;
use system::{Network, Opener, System};
use wire::FromWrite;

fn status_by(system: &System, opener: &Opener, network: &Network) -> u8 {
    let mut err = FromWrite::new(system.errors());
    let out = BufWriter::new(system.alloc(), system.output());
    match (system.words(), out) {
        (Ok(words), Ok(out)) => {
            let (words, out) = (words.as_slice(), Console::new(out));
            run(system, opener, network, Unknown, words, out, &mut err).0
        }
        (Err(fault), _) => do_no_words(fault.kind(), &mut err),
        (_, Err(fault)) => do_no_words(fault.kind(), &mut err),
    }
}

fn main(rt: HostRuntime) -> ExitCode {
    let status = status_by(&System::new(rt), &Opener::new(rt), &Network::new(rt));
    ExitCode::from(status)
}
