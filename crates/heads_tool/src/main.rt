//! Request heads that come byte by byte: when a `Spot` decides about them, and when parsing does.
//!
//!     heads_tool FILE
//!
//! Each line of FILE is a head in hexadecimal digits. For each one the program prints a line `BYTES WORD BYTES WORD`:
//! after how many bytes a `Spot` of the crate `http_requests` decides whether there is a head, and its decision; and
//! the same for parsing all bytes after each byte. The words are `whole`, `hopeless`, and `waits` if neither is decided
//! after all bytes. Files are the system's, and nothing is proved about them.
#![tactic(auto)]

mod telling;

use anyhow::{Context, Result, bail};
use std::io::{BufWriter, Write};
use std::rt::Files;
use std::{env, fs};
use telling::{by_parsing, by_places};

fn compare<R: Files + Print + AllocGlobal>(rt: &R, file: &str) -> Result<()> {
    let text = fs::read_to_string(rt, file).context(format_args!("reading {file}"))?;
    let mut out = BufWriter::new(rt.alloc(), std::io::writer(rt))?;
    for line in text.as_str().lines() {
        let head = hex::decode(rt.alloc(), line)?;
        let placed = by_places(rt.alloc(), head.as_slice())?;
        let parsed = by_parsing(head.as_slice());
        writeln!(out, "{placed} {parsed}")?;
    }
    out.flush()?;
    Ok(())
}

fn main(rt: HostRuntime) -> Result<()> {
    let words: Vec<String> = env::args(&rt)?.collect(rt.alloc())?;
    match words.as_slice() {
        [_, file] => compare(&rt, file.as_str()),
        _ => bail!("FILE"),
    }
}
