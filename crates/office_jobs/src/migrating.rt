//! Migrating an office from the previous schema.

ghost use Rattle.std.specs.Prelude.{◌≡◌, Err, IfErr, false, true};
ghost use Rattle.office_jobs.specs.Faults.{IsUnwritten};
ghost use Rattle.std.specs.List.{list_any};
ghost use Rattle.store_sql.specs.Look.{is_ca_name, is_office_table};
ghost use Rattle.store_sql.specs.Honest.{IsOutside, IsUnlimited, On, StaysClean, tables_of};
ghost use Rattle.office_jobs.specs.Making.{MigratesOffice};

use crate::job_fault::JobFault;
use office::StoreFault;
use sqlite::{Alter, Connection};
use std::alloc::Global;
use store::Store;

/// Migrates the tables of a database from schema 1 to schema 2.
pub fn migrate_over<S: Alter>(
    alloc: Global,
    conn: Connection<S>,
) -> (Result<(), JobFault>, Connection<S>)
    requires outside { IsOutside S.Store conn }
    requires unlimited { IsUnlimited S.Store conn }
    ensures migrates { On S.Store MigratesOffice conn result.1 result.0 }
    ensures honest { StaysClean S.Store conn result.1 }
    ensures unwritten { IfErr result.0 IsUnwritten }

    // A database without an office, or one that was migrated, is refused and left unchanged.
    ensures none { list_any is_office_table (tables_of S.Store conn) ≡ false
        → result ≡ record { 0 = Err (JobFault.Store StoreFault.NotAnOffice); 1 = conn } }
    ensures already { list_any is_office_table (tables_of S.Store conn) ≡ true
        → list_any is_ca_name (tables_of S.Store conn) ≡ true
        → result ≡ record { 0 = Err (JobFault.Store StoreFault.WrongSchema); 1 = conn } }
{
    match Store::migrate(alloc, conn) {
        Ok(store) => (Ok(()), store.into_connection()),
        Err((fault, conn)) => (Err(JobFault::from(fault)), conn),
    }
}
