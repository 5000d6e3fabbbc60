//! Whole jobs in a world, from the opening of files and of a database to its closing.
//!
//! Files are opened first. A database is opened once, or not at all if a file can't be read or the database doesn't
//! exist. The connection that remains is closed.

ghost use Rattle.std.specs.Prelude.{◌≡◌, ◌≤◌, ◌<◌, ℕ, IfOk, List};
ghost use Rattle.office.specs.Openings.{IsOpening};
ghost use Rattle.office_jobs.specs.Asked.{AsksOffice};
ghost use Rattle.office_jobs.specs.Ending.{Heeds, failures_after};
ghost use Rattle.office_jobs.specs.Finding.{OpensFor};
ghost use Rattle.office_jobs.specs.Jobs.{DoesOfficeJob, IsLawfulJob, Wants, told_text};
ghost use Rattle.office_jobs.specs.Making.{due_opening};
ghost use Rattle.office_jobs.specs.Names.{Takes};
ghost use Rattle.office_jobs.specs.Whole.{AppliesIn, GivesOpening, DoesIn, FoundsIn, KeepsDatabases, ServesIn};

use crate::database_opening::{open_for, open_there};
use crate::ending::{closed, finish};
use crate::file_reader::{read_exchanges_from, read_key};
use crate::founding::{Founding, opening_of};
use crate::job::{Done, OfficeJob, do_on};
use crate::job_fault::JobFault;
use crate::output::Output;
use crate::served::serve_at_port;
use crate::world::World;
use office::Opening;
use sqlite::{Alter, Connection};
use std::alloc::Global;
use std::io::Read;
use wire::Sink;

/// Does a job in the database at a path, closes it, and then prints the job's message. The output is returned.
pub(crate) fn do_in<S: Alter, W: World<Conn = Connection<S>> + AllocGlobal, O: Sink>(
    world: &mut W,
    db: &str,
    job: &OfficeJob<'_>,
    out: O,
) -> (Result<(), JobFault>, O)
    requires keeps { KeepsDatabases S.Store W.World }
    requires lawful { IsLawfulJob job.now }
    requires prints { O.failed out ≡ 0 }
    ensures does { DoesIn S.Store W.World W.Incoming.book world.old world.new
        (OpensFor W.World db.now job.now) (Wants S.Store job.now) (DoesOfficeJob job.now) (AsksOffice job.now)
        (told_text job.now) (O.taken out) (O.taken result.1) result.0 }

    // `Write` is the fault exactly if a call of the output failed.
    ensures failed { O.failed result.1 ≡ failures_after (O.failed out) result.0 }
{
    let alloc = world.alloc();
    match open_for(world, db, job) {
        Ok(conn) => {
            let Done { outcome, conn, out } = do_on(alloc, conn, job, out);
            let mut out = out;
            let done = finish(&mut out, job, closed(outcome, world.close_database(conn)));
            (done, out)
        }
        Err(unopened) => (Err(unopened), out),
    }
}

/// Applies the exchanges of a file to the office in the database at a path. The output is returned.
pub(crate) fn apply_in<S: Alter, W: World<Conn = Connection<S>> + AllocGlobal, O: Sink>(
    world: &mut W,
    db: &str,
    file: W::File,
    out: O,
) -> (Result<(), JobFault>, O)
    requires keeps { KeepsDatabases S.Store W.World }
    requires prints { O.failed out ≡ 0 }
    ensures applies { AppliesIn S.Store W.World W.Incoming.book world.old world.new db.now
        (W.File.remaining file) (O.taken out) (O.taken result.1) result.0 }
    ensures failed { O.failed result.1 ≡ failures_after (O.failed out) result.0 }
{
    match read_exchanges_from(world.alloc(), file) {
        Ok(exchanges) => do_in(world, db, &OfficeJob::Apply(exchanges.as_slice()), out),
        Err(fault) => (Err(fault), out),
    }
}

// The initial configuration of an office with the key of a file and with these callers and serials.
fn opening_from<R: Read + Drop>(
    alloc: Global,
    ca: R,
    founding: &Founding<'_>,
) -> Result<Opening, JobFault>
    ensures begins { GivesOpening (R.remaining ca) (due_opening founding.now) result }
    ensures lawful { IfOk result IsOpening }
{
    match read_key(alloc, ca) {
        Ok(ca) => opening_of(alloc, ca.key, founding),
        Err(fault) => Err(fault),
    }
}

/// Makes an office in a new database, with the key of a file. The output is returned.
pub(crate) fn found_in<S: Alter, W: World<Conn = Connection<S>> + AllocGlobal, O: Sink>(
    world: &mut W,
    db: &str,
    ca: W::File,
    founding: &Founding<'_>,
    out: O,
) -> (Result<(), JobFault>, O)
    requires keeps { KeepsDatabases S.Store W.World }
    requires prints { O.failed out ≡ 0 }
    ensures founds { FoundsIn S.Store W.World W.Incoming.book world.old world.new db.now
        (due_opening founding.now) (W.File.remaining ca) (O.taken out) (O.taken result.1) result.0 }
    ensures failed { O.failed result.1 ≡ failures_after (O.failed out) result.0 }
{
    match opening_from(world.alloc(), ca, founding) {
        Ok(opening) => do_in(world, db, &OfficeJob::Init(&opening), out),
        Err(fault) => (Err(fault), out),
    }
}

/// Serves the office in a database at a port of the loopback interface, and closes the database. Returns the status of
/// the server, which has reported its own faults.
///
/// # Errors
///
/// Why nobody could be served: the database doesn't exist or can't be opened, it isn't that of an office, or there
/// is no listener at the port. `NoMemory` or `Device` is also returned if all were served and the database couldn't be
/// closed well.
pub(crate) fn serve_in<S: Alter, W: World<Conn = Connection<S>> + AllocGlobal, O: Output, E: Sink>(
    world: &mut W,
    db: &str,
    nonces: W::File,
    port: u16,
    connections: u64,
    out: &mut O,
    err: &mut E,
) -> Result<u8, JobFault>
    requires keeps { KeepsDatabases S.Store W.World }
    requires tells { E.failed err.old ≡ 0 }
    requires prints { O.failed out.old < u64.MAX }
    ensures serves { (said : List ℕ)
        × Takes (E.failed err.old) (E.failed err.new) (E.taken err.old) (E.taken err.new) said
        × ServesIn S.Store W.World W.Incoming.book world.old world.new db.now port connections
        (W.File.remaining nonces) (O.taken out.old) (O.taken out.new) said result }
    ensures status { IfOk result (λ status. status ≤ 1) }

    // The line of the port was flushed. `Write` is the fault only if a call of the output failed.
    ensures heeds { Heeds (O.failed out.old) (O.failed out.new) (O.is_flushed out.new) result }
{
    match open_there(world, db) {
        Ok(conn) => {
            let (served, conn) = serve_at_port(world, conn, nonces, port, connections, out, err);
            closed(served, world.close_database(conn))
        }
        Err(unopened) => Err(unopened),
    }
}
