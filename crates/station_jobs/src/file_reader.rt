//! Reading files.

ghost use Rattle.std.specs.Prelude.{◌≡◌, ◌<◌, ◌≤◌, IfErr, IfOk, IfSome, take, vec_len};
ghost use Rattle.std.specs.IoError.{error_kind};
ghost use Rattle.station_jobs.specs.Faults.{IsOfAFile, of_file};

use crate::station_fault::StationFault;
use guard::LONGEST_BODY;
use std::alloc::Global;
use std::io;
use std::io::{ErrorKind, Read};

/// The fault of a file that can't be opened or read.
pub fn file_fault(error: &io::Error) -> StationFault
    ensures value { result ≡ of_file (error_kind error.now) }
    ensures only { IsOfAFile result }
{
    match error.kind() {
        ErrorKind::OutOfMemory => StationFault::NoMemory,
        _ => StationFault::File,
    }
}

/// The first `most` bytes that a reader gives, or all of them if there are fewer.
fn read_first<R: Read + Drop>(alloc: Global, reader: R, most: u64) -> Result<Vec<u8>, StationFault>
    ensures first { IfOk result (λ v. IfSome (R.remaining reader) (λ bytes. v.items ≡ take most bytes)) }
    ensures only { IfErr result IsOfAFile }
{
    let mut bytes = Vec::new(alloc);
    match reader.take(most).read_to_end(&mut bytes) {
        Ok(_) => Ok(bytes),
        Err(error) => Err(file_fault(&error)),
    }
}

/// All bytes that a reader gives. More than `most` bytes are a fault of the file.
pub fn read_whole<R: Read + Drop>(
    alloc: Global,
    reader: R,
    most: u64,
) -> Result<Vec<u8>, StationFault>
    requires { most < u64.MAX }
    ensures size { IfOk result (λ v. vec_len v ≤ most) }
    ensures whole { IfOk result (λ v. IfSome (R.remaining reader) (λ bytes. v.items ≡ bytes)) }
    ensures only { IfErr result IsOfAFile }
{
    let bytes = read_first(alloc, reader, most + 1)?;
    if most < bytes.len() as u64 {
        return Err(StationFault::File);
    }
    Ok(bytes)
}

/// The bytes of a file with an unsigned certificate (body); if it is too long for one, its first 16385 bytes.
pub fn read_body<R: Read + Drop>(alloc: Global, reader: R) -> Result<Vec<u8>, StationFault>
    ensures first { IfOk result (λ v. IfSome (R.remaining reader) (λ bytes. v.items ≡ take 16385 bytes)) }
    ensures only { IfErr result IsOfAFile }
{
    read_first(alloc, reader, LONGEST_BODY as u64 + 1)
}
