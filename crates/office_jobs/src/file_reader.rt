//! Reading the contents of files.

ghost use Rattle.std.specs.Prelude.{◌≡◌, ◌<◌, ◌≤◌, ℕ, Err, IfErr, IfOk, IfSome, Some, length, take, vec_len};
ghost use Rattle.exchanges.specs.Exchanges.{AreExchanges, IsBadRecord, TellsOf, exchanges_text};
ghost use Rattle.office_jobs.specs.Faults.{IsOfExchanges};
ghost use Rattle.office_jobs.specs.Reading.{HasNoKey, IsKeyText};

use crate::file_opening::kind_fault;
use crate::job_fault::JobFault;
use exchanges::{MAX_FILE, read_exchanges};
use lines::{KeyLine, read_key_line};
use std::alloc::Global;
use std::io::{ErrorKind, Read};
use web::Exchange;

/// The greatest size of a public-key file: some KiB more than any has.
const MAX_KEY_FILE: u64 = 8192;

/// The greatest size of a list: a header of 44 bytes, and a section of 4294967295 with its type and length.
const MAX_LIST: u64 = 4_294_967_344;

/// Why a file isn't read whole.
#[derive(Clone, Copy)]
pub enum ReadFault {
    /// It is longer than any may be.
    TooLong,
    /// It can't be read, and this is the kind of the error.
    Failed(ErrorKind),
}

/// The first bytes from a reader: `most` of them, or fewer if it ends before. An error of the reader is its kind.
fn read_first<R: Read + Drop>(alloc: Global, reader: R, most: u64) -> Result<Vec<u8>, ErrorKind>
    ensures { IfOk result (λ v. IfSome (R.remaining reader) (λ bytes. v.items ≡ take most bytes)) }
{
    let mut bytes = Vec::new(alloc);
    match reader.take(most).read_to_end(&mut bytes) {
        Ok(_) => Ok(bytes),
        Err(error) => Err(error.kind()),
    }
}

/// All bytes from a reader, unless there are more than `most`.
#[tactic(auto, using(crate::proofs::Telling::longer))]
fn read_whole<R: Read + Drop>(alloc: Global, reader: R, most: u64) -> Result<Vec<u8>, ReadFault>
    requires { most < u64.MAX }
    ensures size { IfOk result (λ v. vec_len v ≤ most) }
    ensures whole { IfOk result (λ v. IfSome (R.remaining reader) (λ bytes. v.items ≡ bytes)) }
    ensures long { result ≡ Err ReadFault.TooLong → IfSome (R.remaining reader) (λ bytes. most < length bytes) }
{
    let bytes = match read_first(alloc, reader, most + 1) {
        Ok(bytes) => bytes,
        Err(kind) => return Err(ReadFault::Failed(kind)),
    };
    if most < bytes.len() as u64 {
        return Err(ReadFault::TooLong);
    }
    Ok(bytes)
}

/// The bytes of a list.
pub fn read_list<R: Read + Drop>(alloc: Global, reader: R) -> Result<Vec<u8>, ReadFault>
    ensures whole { IfOk result (λ v. IfSome (R.remaining reader) (λ bytes. v.items ≡ bytes)) }

    // No shorter list is too long. Any other fault is an error of the reader.
    ensures long { result ≡ Err ReadFault.TooLong
        → IfSome (R.remaining reader) (λ bytes. 4_294_967_344 < length bytes) }
{
    read_whole(alloc, reader, MAX_LIST)
}

/// The bytes of a public-key file.
fn read_key_text<R: Read + Drop>(alloc: Global, reader: R) -> Result<Vec<u8>, ReadFault>
    ensures whole { IfOk result (λ v. IfSome (R.remaining reader) (λ bytes. v.items ≡ bytes)) }
    ensures long { result ≡ Err ReadFault.TooLong → IfSome (R.remaining reader) (λ bytes. 8192 < length bytes) }
{
    read_whole(alloc, reader, MAX_KEY_FILE)
}

/// The bytes of an exchange file, or a prefix of a longer file in which the first bad record is certain. An error of
/// the reader is its kind.
fn read_exchanges_of<R: Read + Drop>(alloc: Global, reader: R) -> Result<Vec<u8>, ErrorKind>
    ensures { IfOk result (λ v. IfSome (R.remaining reader) (λ file. TellsOf file v.items)) }
{
    read_first(alloc, reader, MAX_FILE as u64 + 1)
}

/// The exchanges of a file.
#[tactic(auto, using(crate::proofs::Telling::of_a_file, crate::proofs::Telling::of_a_record))]
pub fn read_exchanges_from<R: Read + Drop>(
    alloc: Global,
    reader: R,
) -> Result<Vec<Exchange>, JobFault>
    ensures found { IfOk result (λ es. IfSome (R.remaining reader) (λ file. AreExchanges es.items
        × (file ≡ exchanges_text es.items))) }
    ensures bad { (k : ℕ) → result ≡ Err (JobFault.BadExchange k)
        → IfSome (R.remaining reader) (λ file. IsBadRecord file k) }
    ensures only { IfErr result IsOfExchanges }
{
    let bytes = read_exchanges_of(alloc, reader).map_err(kind_fault)?;
    match read_exchanges(alloc, bytes.as_slice()) {
        Ok(exchanges) => Ok(exchanges),
        Err(fault) => Err(JobFault::from(fault)),
    }
}

// The key in a text: a public-key line, and then a line feed or nothing.
fn key_in(alloc: Global, text: &[u8]) -> Result<KeyLine, JobFault>
    ensures key { IfOk result (IsKeyText text.now) }
    ensures fault { IfErr result (HasNoKey (Some text.now)) }
{
    let line = text.strip_suffix(b"\n".as_slice()).unwrap_or(text);
    match read_key_line(alloc, line) {
        Ok(key) => Ok(key),
        Err(fault) => Err(JobFault::from(fault)),
    }
}

/// The key in a file with a public-key line, whose final line feed is optional.
#[tactic(auto, using(crate::proofs::Causes::key_file, crate::proofs::Causes::key_text))]
pub fn read_key<R: Read + Drop>(alloc: Global, reader: R) -> Result<KeyLine, JobFault>
    ensures key { IfOk result (λ k. IfSome (R.remaining reader) (λ text. IsKeyText text k)) }
    ensures fault { IfErr result (HasNoKey (R.remaining reader)) }
{
    let bytes = read_key_text(alloc, reader)?;
    key_in(alloc, bytes.as_slice())
}
