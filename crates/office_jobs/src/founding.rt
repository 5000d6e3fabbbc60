//! Making an office in a new database.

ghost use Rattle.std.specs.Prelude.{◌≡◌, Err, IfErr, IfOk, IsTrue, Ok};
ghost use Rattle.std.specs.List.{list_any};
ghost use Rattle.store_sql.specs.Look.{is_office_name};
ghost use Rattle.store_sql.specs.Honest.{IsOutside, IsUnlimited, On, StaysClean, tables_of};
ghost use Rattle.office.specs.Openings.{IsOpening, made_opening};
ghost use Rattle.office_jobs.specs.Faults.{IsOfAnOpening, IsUnwritten};
ghost use Rattle.office_jobs.specs.Making.{MakesOffice};

use crate::job_fault::JobFault;
use office::{Opening, StoreFault};
use sqlite::{Alter, Connection};
use std::alloc::Global;
use store::Store;
use text::NoMemory;

/// The initial configuration of an office, except for the key of its CA.
#[derive(Clone, Copy)]
pub struct Founding<'a> {
    /// The caller who may send everything but signatures.
    pub root: &'a str,
    /// The caller who delivers signatures.
    pub station: &'a str,
    /// The first serial.
    pub first: u64,
    /// The last serial.
    pub last: u64,
}

/// The initial configuration with this CA, these callers and these serials, or its first fault.
pub fn opening_of(alloc: Global, ca: [u8; 32], founding: &Founding<'_>) -> Result<Opening, JobFault>
    ensures made { IfOk result (λ o. made_opening ca founding.now.root.now founding.now.station.now founding.now.first
        founding.now.last ≡ Ok o) }
    ensures fault { IfErr result (IsOfAnOpening (made_opening ca founding.now.root.now founding.now.station.now
        founding.now.first founding.now.last)) }
    ensures lawful { IfOk result IsOpening }
{
    let root = String::from_str(alloc, founding.root).map_err(NoMemory::from)?;
    let station = String::from_str(alloc, founding.station).map_err(NoMemory::from)?;
    match Opening::new(ca, root, station, founding.first, founding.last) {
        Ok(opening) => Ok(opening),
        Err(fault) => Err(JobFault::from(fault)),
    }
}

/// Makes the office of an initial configuration in a database without tables.
pub fn make_over<S: Alter>(
    alloc: Global,
    conn: Connection<S>,
    opening: &Opening,
) -> (Result<(), JobFault>, Connection<S>)
    requires outside { IsOutside S.Store conn }
    requires unlimited { IsUnlimited S.Store conn }
    requires lawful { IsOpening opening.now }
    ensures makes { On S.Store (MakesOffice opening.now) conn result.1 result.0 }
    ensures honest { StaysClean S.Store conn result.1 }
    ensures unwritten { IfErr result.0 IsUnwritten }

    // A database with a table that has one of an office's names is refused and left unchanged.
    ensures already { IsTrue (list_any is_office_name (tables_of S.Store conn))
        → result ≡ record { 0 = Err (JobFault.Store StoreFault.AlreadyAnOffice); 1 = conn } }
{
    match Store::init(alloc, conn, opening) {
        Ok(store) => (Ok(()), store.into_connection()),
        Err((fault, conn)) => (Err(JobFault::from(fault)), conn),
    }
}
