//! The jobs for the office in a database, and doing them.

ghost use Rattle.std.specs.Prelude.{◌≡◌, ◌<◌, false};
ghost use Rattle.std.specs.List.{list_any};
ghost use Rattle.store_sql.specs.Look.{is_office_table};
ghost use Rattle.store_sql.specs.Honest.{IsOutside, IsUnlimited, On, StaysClean, tables_of};
ghost use Rattle.office_jobs.specs.Ending.{failures_after};
ghost use Rattle.office_jobs.specs.Jobs.{DoesOfficeJob, IsLawfulJob, IsMaking, RefusesNone, Wants};

use crate::applying::apply_over;
use crate::founding::make_over;
use crate::job_fault::JobFault;
use crate::listing::list_over;
use crate::migrating::migrate_over;
use crate::reporting::{Report, report_over};
use office::Opening;
use sqlite::{Alter, Connection};
use std::alloc::Global;
use web::Exchange;
use wire::Sink;

/// A job for the office in a database.
#[derive(Clone, Copy)]
pub enum OfficeJob<'a> {
    /// Makes an office in a new database.
    Init(&'a Opening),
    /// Runs exchanges and prints the responses.
    Apply(&'a [Exchange]),
    /// Prints the revocation list.
    Krl,
    /// Prints the allowed signers.
    Signers,
    /// Prints the table of certificates.
    Table,
    /// Migrates a database from schema 1 to schema 2.
    Migrate,
}

/// The result of a job, with the connection and the output that it was given.
pub struct Done<S: Alter, W> {
    /// Whether it was done.
    pub outcome: Result<(), JobFault>,
    /// The connection.
    pub conn: Connection<S>,
    /// The output.
    pub out: W,
}

/// Does a job over the connection to its database. No transaction may be open, and queries must have no limit on their
/// steps.
pub fn do_on<S: Alter, W: Sink>(
    alloc: Global,
    conn: Connection<S>,
    job: &OfficeJob<'_>,
    out: W,
) -> Done<S, W>
    requires outside { IsOutside S.Store conn }
    requires unlimited { IsUnlimited S.Store conn }
    requires lawful { IsLawfulJob job.now }
    requires prints { W.failed out < u64.MAX }
    ensures does { On S.Store (λ old new. DoesOfficeJob job.now old new (W.taken out) (W.taken result.out))
        conn result.conn result.outcome }
    ensures honest { StaysClean S.Store conn result.conn }

    // `Write` is the fault exactly if a call of the output failed.
    ensures failed { W.failed result.out ≡ failures_after (W.failed out) result.outcome }

    // A database without an office's table is refused and left unchanged, unless the job makes an office.
    ensures none { (IsMaking job.now → ⊥) → list_any is_office_table (tables_of S.Store conn) ≡ false
        → RefusesNone conn result.conn result.outcome }

    // So is one that the job doesn't want: an office that exists, if it makes one; one of another schema.
    ensures wants { Wants S.Store job.now conn result.conn result.outcome }
{
    let mut out = out;
    match job {
        OfficeJob::Init(opening) => {
            let (outcome, conn) = make_over(alloc, conn, opening);
            Done { outcome, conn, out }
        }
        OfficeJob::Apply(exchanges) => {
            let (outcome, conn) = apply_over(alloc, conn, exchanges, &mut out);
            Done { outcome, conn, out }
        }
        OfficeJob::Krl => {
            let (outcome, conn) = list_over(alloc, conn, &mut out);
            Done { outcome, conn, out }
        }
        OfficeJob::Signers => {
            let (outcome, conn) = report_over(alloc, conn, Report::Signers, &mut out);
            Done { outcome, conn, out }
        }
        OfficeJob::Table => {
            let (outcome, conn) = report_over(alloc, conn, Report::Table, &mut out);
            Done { outcome, conn, out }
        }
        OfficeJob::Migrate => {
            let (outcome, conn) = migrate_over(alloc, conn);
            Done { outcome, conn, out }
        }
    }
}
