//! Printing the key revocation list.

ghost use Rattle.std.specs.Prelude.{◌≡◌, ◌<◌, ◌+◌, ℕ, Err, false, if◌then◌else◌};
ghost use Rattle.office_jobs.specs.Opening.{HeedsRows};
ghost use Rattle.std.specs.List.{list_any};
ghost use Rattle.store_sql.specs.Look.{is_office_table};
ghost use Rattle.headline.specs.Headline.{has_writer_failed};
ghost use Rattle.office_jobs.specs.Ending.{failures_after};
ghost use Rattle.office_jobs.specs.Faults.{publish_result};
ghost use Rattle.office_jobs.specs.Listing.{PrintsKrl};
ghost use Rattle.store_sql.specs.Honest.{IsOutside, IsUnlimited, On, StaysClean, tables_of};

use crate::job_fault::JobFault;
use crate::opening::open_office;
use headline::{PublishFault, publish};
use office::StoreFault;
use sqlite::{Alter, Connection};
use std::alloc::Global;
use wire::Sink;

// The result of publishing, as that of a job.
fn of_publishing(done: Result<(), PublishFault>) -> Result<(), JobFault>
    ensures value { result ≡ publish_result done }
    ensures counts { (n : ℕ) → failures_after n result ≡ (if has_writer_failed done then n + 1 else n) }
{
    match done {
        Ok(()) => Ok(()),
        Err(fault) => Err(JobFault::from(fault)),
    }
}

/// Prints the key revocation list of the office in a database, without holding it.
pub fn list_over<S: Alter, W: Sink>(
    alloc: Global,
    conn: Connection<S>,
    out: &mut W,
) -> (Result<(), JobFault>, Connection<S>)
    requires outside { IsOutside S.Store conn }
    requires unlimited { IsUnlimited S.Store conn }
    requires prints { W.failed out.old < u64.MAX }
    ensures lists { On S.Store (λ old new. PrintsKrl old new (W.taken out.old) (W.taken out.new))
        conn result.1 result.0 }
    ensures honest { StaysClean S.Store conn result.1 }

    // `Write` is the fault exactly if a call of the output failed.
    ensures failed { W.failed out.new ≡ failures_after (W.failed out.old) result.0 }

    // A database without an office's table is refused and left unchanged.
    ensures none { list_any is_office_table (tables_of S.Store conn) ≡ false
        → result ≡ record { 0 = Err (JobFault.Store StoreFault.NotAnOffice); 1 = conn } }

    // One with an office's table is used if its row is that of an office of this schema.
    ensures rows { On S.Store HeedsRows conn result.1 result.0 }
{
    match open_office(alloc, conn) {
        Ok(store) => {
            let mut office = store;
            let done = of_publishing(publish(&mut office, alloc, out));
            (done, office.into_connection())
        }
        Err((fault, conn)) => (Err(JobFault::from(fault)), conn),
    }
}
