//! What the programs read, and where they print.

use std::alloc::{Alloc, Global};
use std::env;
use std::fs::{self, File};
use std::io::{self, Input, Stderr, StdinLock, Stdout};
use std::time::{Clock, Duration};

/// The program's arguments, its memory, its clock and its console, and files for reading.
#[derive(Drop)]
pub struct System {
    rt: HostRuntime,
}

impl System {
    /// The system of this runtime.
    pub fn new(rt: HostRuntime) -> System {
        System { rt }
    }

    /// The program's arguments.
    pub fn words(&self) -> io::Result<Vec<String>> {
        let words = env::args(&self.rt)?.collect(self.rt.alloc())?;
        Ok(words)
    }

    /// Opens a file for reading.
    pub fn open(&self, path: &str) -> io::Result<File> {
        fs::open(&self.rt, path)
    }

    /// The standard input.
    pub fn input(&self) -> StdinLock<'static> {
        self.rt.reader()
    }

    /// The standard output.
    pub fn output(&self) -> Stdout {
        self.rt.stdout()
    }

    /// The standard error output.
    pub fn errors(&self) -> Stderr {
        self.rt.stderr()
    }
}

impl Alloc for System {
    type A = Global;

    fn alloc(&self) -> Global {
        self.rt.alloc()
    }
}

impl Clock for System {
    fn monotonic(&self) -> io::Result<Duration> {
        self.rt.monotonic()
    }

    fn since_1970(&self) -> io::Result<Duration> {
        self.rt.since_1970()
    }
}
