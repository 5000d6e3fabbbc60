//! The writes of a migration, inside its transaction.

ghost use Rattle.store_sql.specs.Calls.{Stays};
ghost use Rattle.store_sql.specs.Honest.{On, OutlivesBy};
ghost use Rattle.store_sql.specs.Changes.{with_ca_row, with_schema};
ghost use Rattle.store.specs.Transactions.{Does, Makes, Waits};
ghost use Rattle.store.specs.Former.{Had, migrated};
ghost use Rattle.store.specs.Migrating.{HasNoCa, IsRefused, JudgesInside};

use crate::migration::first_ca::ca_of;
use crate::rows::{fault_of, number, told};
use office::StoreFault;
use sqlite::{Alter, Connection};
use std::alloc::Global;
use store_sql::{CaRow, Fault, create_ca, every_office, insert_ca, update_schema};

/// The schema to which tables are migrated.
const SCHEMA: u64 = 2;

fn put<S: Alter>(conn: &mut Connection<S>, ca: &CaRow) -> Result<(), Fault>
    ensures { Does S.Store (λ c. with_schema 2 (with_ca_row ca.now c)) (IsRefused ca.now) conn.old conn.new result }
{
    insert_ca(conn, ca)?;
    update_schema(conn, number(SCHEMA))
}

/// Fills the tables of schema 2, whose table of CAs has no row yet.
fn fill<S: Alter>(alloc: Global, conn: &mut Connection<S>) -> Result<(), StoreFault>
    ensures makes { On S.Store (Makes HasNoCa migrated) conn.old conn.new result }
    ensures judges { On S.Store (JudgesInside HasNoCa) conn.old conn.new result }
    ensures stays { On S.Store Stays conn.old conn.new result }
    ensures survives { OutlivesBy S.Store (Waits HasNoCa) conn.old conn.new }
{
    match every_office(alloc, conn) {
        Ok(rows) => {
            let ca = ca_of(alloc, rows.as_slice())?;
            told(put(conn, &ca))
        }
        Err(fault) => Err(fault_of(fault)),
    }
}

/// Makes the table of CAs and fills it.
pub(crate) fn move_tables<S: Alter>(
    alloc: Global,
    conn: &mut Connection<S>,
) -> Result<(), StoreFault>
    ensures makes { On S.Store (Makes Had migrated) conn.old conn.new result }
    ensures judges { On S.Store (JudgesInside Had) conn.old conn.new result }
    ensures stays { On S.Store Stays conn.old conn.new result }
    ensures survives { OutlivesBy S.Store (Waits Had) conn.old conn.new }
{
    match create_ca(conn) {
        Ok(()) => fill(alloc, conn),
        Err(fault) => Err(fault_of(fault)),
    }
}
