//! The CA's key, from a file.

ghost use Rattle.std.specs.Prelude.{IfErr, IfOk, IfSome, IsTrue, Some};
ghost use Rattle.values.specs.Serials.{are_serials};
ghost use Rattle.station_jobs.specs.KeyFiles.{IsKeyFault, IsKeyText};
ghost use Rattle.station_jobs.specs.Whole.{Begins};

use crate::file_reader::read_whole;
use crate::station_fault::StationFault;
use guard::Scope;
use lines::{KeyLine, read_key_line};
use std::alloc::Global;
use std::io::Read;

/// The largest size of a file with a public-key line: a few KiB more than any needs.
const MAX_KEY_FILE: u64 = 8192;

// The key in a text: a public-key line, followed by a line feed or nothing.
fn key_in(alloc: Global, text: &[u8]) -> Result<KeyLine, StationFault>
    ensures key { IfOk result (IsKeyText text.now) }
    ensures fault { IfErr result (IsKeyFault (Some text.now)) }
{
    let line = text.strip_suffix(b"\n".as_slice()).unwrap_or(text);
    match read_key_line(alloc, line) {
        Ok(key) => Ok(key),
        Err(fault) => Err(StationFault::from(fault)),
    }
}

/// The key in a file with a public-key line, whose last line feed may be missing.
fn read_key<R: Read + Drop>(alloc: Global, reader: R) -> Result<KeyLine, StationFault>
    ensures key { IfOk result (λ k. IfSome (R.remaining reader) (λ text. IsKeyText text k)) }
    ensures fault { IfErr result (IsKeyFault (R.remaining reader)) }
{
    match read_whole(alloc, reader, MAX_KEY_FILE) {
        Ok(bytes) => key_in(alloc, bytes.as_slice()),
        Err(fault) => Err(fault),
    }
}

/// The scope of a guard with the key in a file and with these serials.
pub fn scope_from<R: Read + Drop>(
    alloc: Global,
    ca: R,
    first: u64,
    last: u64,
) -> Result<Scope, StationFault>
    ensures begins { Begins (R.remaining ca) first last result }
    ensures lawful { IfOk result (λ s. IsTrue (are_serials s.first s.last)) }
{
    match read_key(alloc, ca) {
        Ok(key) => match Scope::new(key.key, first, last) {
            Some(scope) => Ok(scope),
            None => Err(StationFault::BadSerials),
        },
        Err(fault) => Err(fault),
    }
}
