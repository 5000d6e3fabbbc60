//! Opening databases for a job. A new office's database is made if it doesn't exist, and any other has to exist.

ghost use Rattle.std.specs.Prelude.{◌≡◌, IfErr};
ghost use Rattle.office_jobs.specs.Faults.{IsOfOpening};
ghost use Rattle.office_jobs.specs.Finding.{Opens, OpensFor, OpensNew, OpensThere, of_look, of_looking, of_making};

use crate::ending::database_fault;
use crate::job::OfficeJob;
use crate::job_fault::JobFault;
use crate::world::World;
use office::StoreFault;
use std::io::ErrorKind;

// The fault for a database that can't be looked up or made.
fn unfound_fault(kind: ErrorKind) -> JobFault
    ensures value { result ≡ of_look kind }
    ensures only { IsOfOpening result }
{
    match kind {
        ErrorKind::OutOfMemory => JobFault::NoMemory,
        _ => JobFault::Store(StoreFault::Device),
    }
}

// The result of looking up a database: it exists, or this is the fault.
fn looked_for(there: Result<bool, ErrorKind>) -> Result<(), JobFault>
    ensures value { result ≡ of_looking there }
    ensures only { IfErr result IsOfOpening }
{
    match there {
        Ok(true) => Ok(()),
        Ok(false) => Err(JobFault::Store(StoreFault::NotAnOffice)),
        Err(kind) => Err(unfound_fault(kind)),
    }
}

// The result of making a database.
fn made(done: Result<(), ErrorKind>) -> Result<(), JobFault>
    ensures value { result ≡ of_making done }
    ensures only { IfErr result IsOfOpening }
{
    match done {
        Ok(()) => Ok(()),
        Err(kind) => Err(unfound_fault(kind)),
    }
}

fn opened<W: World>(world: &mut W, path: &str) -> Result<W::Conn, JobFault>
    ensures opens { Opens W.World path.now world.old result world.new }
    ensures only { IfErr result IsOfOpening }
{
    match world.open_database(path) {
        Ok(conn) => Ok(conn),
        Err(error) => Err(database_fault(error)),
    }
}

/// Opens the database at a path, which has to exist. If it doesn't, nothing is opened.
pub(crate) fn open_there<W: World>(world: &mut W, path: &str) -> Result<W::Conn, JobFault>
    ensures opens { OpensThere W.World path.now world.old result world.new }
    ensures only { IfErr result IsOfOpening }
{
    match looked_for(world.has_database(path)) {
        Ok(()) => opened(world, path),
        Err(fault) => Err(fault),
    }
}

/// Opens the database at a path, which is made if it doesn't exist. If it can't be made, nothing is opened.
pub(crate) fn open_new<W: World>(world: &mut W, path: &str) -> Result<W::Conn, JobFault>
    ensures opens { OpensNew W.World path.now world.old result world.new }
    ensures only { IfErr result IsOfOpening }
{
    match made(world.make_database(path)) {
        Ok(()) => opened(world, path),
        Err(fault) => Err(fault),
    }
}

/// Opens the database for a job.
pub(crate) fn open_for<W: World>(
    world: &mut W,
    path: &str,
    job: &OfficeJob<'_>,
) -> Result<W::Conn, JobFault>
    ensures opens { OpensFor W.World path.now job.now world.old result world.new }
    ensures only { IfErr result IsOfOpening }
{
    match job {
        OfficeJob::Init(_) => open_new(world, path),
        _ => open_there(world, path),
    }
}
