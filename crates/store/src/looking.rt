//! Whether a database is an office's.

ghost use Rattle.std.specs.Prelude.{◌≡◌, false};
ghost use Rattle.std.specs.List.{list_any};
ghost use Rattle.store_sql.specs.Calls.{Never};
ghost use Rattle.store_sql.specs.Honest.{Between, On, Outlives, tables_of};
ghost use Rattle.store_sql.specs.Look.{is_office_table};
ghost use Rattle.store_sql.specs.declared.offices.OfficeRow.{OfficeRow};
ghost use Rattle.store_sql.specs.Faults.{HasFailed};
ghost use Rattle.store.specs.Meaning.{KeepsTelling, LooksOn, LooksUnless, opened_by};

use crate::creating::SCHEMA;
use crate::rows::fault_of;
use office::StoreFault;
use sqlite::{Alter, Connection};
use std::alloc::Global;
use store_sql::{OfficeRow, every_office, has_office};

fn opened_by(rows: &[OfficeRow]) -> Result<(), StoreFault>
    ensures { result ≡ opened_by rows.now }
{
    match rows {
        [row] => {
            if row.schema.get() == SCHEMA {
                Ok(())
            } else {
                Err(StoreFault::WrongSchema)
            }
        }
        _ => Err(StoreFault::NotAnOffice),
    }
}

/// Checks that the database has an office of the supported schema.
pub(crate) fn look<S: Alter>(alloc: Global, conn: &mut Connection<S>) -> Result<(), StoreFault>
    ensures looks { On S.Store (LooksUnless HasFailed) conn.old conn.new result }
    ensures same { Between S.Store KeepsTelling conn.old conn.new }
    ensures none { list_any is_office_table (tables_of S.Store conn.old) ≡ false → (result ≡ Err StoreFault.NotAnOffice)
        × (conn.new ≡ conn.old) }
    ensures still { On S.Store LooksOn conn.old conn.new result }
    ensures survives { Outlives S.Store Never conn.old conn.new }
{
    if !has_office(conn) {
        return Err(StoreFault::NotAnOffice);
    }
    match every_office(alloc, conn) {
        Ok(rows) => opened_by(rows.as_slice()),
        Err(fault) => Err(fault_of(fault)),
    }
}
