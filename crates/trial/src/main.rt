//! Applies the requests in a file to the in-memory office: what `./sshoffice apply FILE` runs before the first build.
//!
//!     trial FILE
//!
//! The in-memory office (trial office) has one CA and one department. `sshoffice apply FILE` keeps it in tables. Here
//! it is kept as lists, so this program needs few of the crates that `sshoffice` needs, and runs without a build in a
//! fraction of the time. `tests/test_trial.py` compares the two outputs. Files and the console are the system's, and
//! nothing is proved about them.
#![tactic(auto)]

mod applying;
mod reading;
mod trial_fault;
mod trial_office;

use crate::applying::apply_to_trial;
use crate::trial_fault::TrialFault;
use std::io::{BufWriter, Write};
use std::process::ExitCode;
use std::rt::Env;
use std::{env, fs, io};
use wire::FromWrite;

/// The status if all exchanges of the file were answered.
const DONE: u8 = 0;

/// The status after a fault.
const FAULT: u8 = 1;

/// The status for arguments that name no file.
const BAD_WORDS: u8 = 2;

fn words_of<R: Env + AllocGlobal>(rt: &R) -> io::Result<Vec<String>> {
    let words = env::args(rt)?.collect(rt.alloc())?;
    Ok(words)
}

// Applies the exchanges of the file at a path, and prints what they got.
fn apply_file(rt: &HostRuntime, path: &str) -> Result<(), TrialFault> {
    let file = fs::open(rt, path).map_err(|error| TrialFault::of_file(error.kind()))?;
    let out = BufWriter::new(rt.alloc(), rt.stdout()).map_err(|_| TrialFault::NoMemory)?;
    let mut sink = FromWrite::new(out);
    let applied = apply_to_trial(rt.alloc(), file, &mut sink);
    let flushed = sink.into_inner().flush().map_err(|_| TrialFault::Write);
    applied.and(flushed)
}

// Prints the name of a fault, and returns its status.
fn told<E: Write>(err: &mut E, fault: TrialFault) -> u8 {
    let _ = writeln!(err, "sshoffice: {fault}");
    FAULT
}

fn status_by(rt: &HostRuntime) -> u8 {
    let mut err = rt.stderr();
    let words = match words_of(rt) {
        Ok(words) => words,
        Err(error) => return told(&mut err, TrialFault::of_file(error.kind())),
    };
    let [_, path] = words.as_slice() else {
        let _ = err.write_all(b"usage: trial FILE\n");
        return BAD_WORDS;
    };
    match apply_file(rt, path.as_str()) {
        Ok(()) => DONE,
        Err(fault) => told(&mut err, fault),
    }
}

fn main(rt: HostRuntime) -> ExitCode {
    ExitCode::from(status_by(&rt))
}
