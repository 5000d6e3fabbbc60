//! Opening files.

ghost use Rattle.std.specs.Prelude.{◌≡◌, IfErr};
ghost use Rattle.office_jobs.specs.Faults.{IsOfAFile, of_file};
ghost use Rattle.office_jobs.specs.Finding.{Reads};

use crate::job_fault::JobFault;
use crate::world::World;
use std::io::ErrorKind;

/// The fault for a file that can't be opened or read.
pub(crate) fn kind_fault(kind: ErrorKind) -> JobFault
    ensures value { result ≡ of_file kind }
    ensures only { IsOfAFile result }
{
    match kind {
        ErrorKind::OutOfMemory => JobFault::NoMemory,
        _ => JobFault::File,
    }
}

/// Opens the file at a path.
pub(crate) fn open_file<W: World>(world: &mut W, path: &str) -> Result<W::File, JobFault>
    ensures opened { Reads W.World path.now world.old result world.new }
    ensures only { IfErr result IsOfAFile }
{
    match world.open_file(path) {
        Ok(file) => Ok(file),
        Err(kind) => Err(kind_fault(kind)),
    }
}
