//! Reading a whole file.

ghost use Rattle.std.specs.Prelude.{◌≡◌, ◌<◌, ◌≤◌, IfErr, IfOk, IfSome, length, take};
ghost use Rattle.station_jobs.specs.Faults.{IsOfAFile};

use station_jobs::{StationFault, file_fault};
use std::alloc::Global;
use std::io::Read;

/// The first `most` bytes of a reader, or all bytes if it has fewer.
fn read_first<R: Read + Drop>(alloc: Global, reader: R, most: u64) -> Result<Vec<u8>, StationFault>
    ensures first { IfOk result (λ v. IfSome (R.remaining reader) (λ bytes. v.items ≡ take most bytes)) }
    ensures only { IfErr result IsOfAFile }
{
    let mut bytes = Vec::new(alloc);
    match reader.take(most).read_to_end(&mut bytes) {
        Ok(_) => Ok(bytes),
        Err(error) => Err(file_fault(&error)),
    }
}

/// All bytes of a reader. More than `most` bytes are a fault of the file.
pub fn read_whole<R: Read + Drop>(
    alloc: Global,
    reader: R,
    most: u64,
) -> Result<Vec<u8>, StationFault>
    requires { most < u64.MAX }
    ensures size { IfOk result (λ v. length v.items ≤ most) }
    ensures whole { IfOk result (λ v. IfSome (R.remaining reader) (λ bytes. v.items ≡ bytes)) }
    ensures only { IfErr result IsOfAFile }
{
    let mut bytes = read_first(alloc, reader, most + 1)?;
    if most < bytes.len() as u64 {
        return Err(StationFault::File);
    }
    // Reading doubled the capacity again and again.
    bytes.shrink_to_fit();
    Ok(bytes)
}
