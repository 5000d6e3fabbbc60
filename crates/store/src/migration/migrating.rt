//! A migration, whole or not at all.

ghost use Rattle.std.specs.Prelude.{◌≡◌, true, false, Err};
ghost use Rattle.std.specs.List.{list_any};
ghost use Rattle.store_sql.specs.Look.{is_ca_name, is_office_table};
ghost use Rattle.store_sql.specs.Honest.{On, OutlivesBy, tables_of};
ghost use Rattle.store.specs.Transactions.{Ends, KeepsOnErr, Leaves};
ghost use Rattle.store.specs.Former.{Had, migrated};
ghost use Rattle.store.specs.Migrating.{CarriesEach, JudgesAtRest, Migrates};

use crate::migration::ending::end;
use crate::migration::moving::move_tables;
use crate::rows::fault_of;
use office::StoreFault;
use sqlite::{Alter, Connection};
use std::alloc::Global;
use store_sql::{begin, has_ca_table, has_office};

fn migrate_whole<S: Alter>(alloc: Global, conn: &mut Connection<S>) -> Result<(), StoreFault>
    ensures ends { On S.Store (Ends Had (λ _ _. Unit {0}) migrated) conn.old conn.new result }
    ensures judges { On S.Store JudgesAtRest conn.old conn.new result }
    ensures before { On S.Store KeepsOnErr conn.old conn.new result }
    ensures survives { OutlivesBy S.Store (Leaves Had migrated) conn.old conn.new }
{
    match begin(conn) {
        Ok(()) => {
            let moved = move_tables(alloc, conn);
            end(conn, moved)
        }
        Err(fault) => Err(fault_of(fault)),
    }
}

/// Migrates the tables of an office from schema 1 to schema 2: they get the table of CAs, with the office's CA as
/// number 1 from the first serial on, and the new schema number. All other rows stay. If it fails, nothing has changed.
///
/// # Errors
///
/// `NotAnOffice` if the `office` table is missing or doesn't have exactly one row. `WrongSchema` if that row has
/// another schema number, or the database already has the table of CAs. `Damaged` if the id of that row isn't 1.
/// `Device` if the database failed or its rules refuse the CA. `NoMemory` if an allocation was refused.
pub fn migrate<S: Alter>(alloc: Global, conn: &mut Connection<S>) -> Result<(), StoreFault>
    ensures migrates { On S.Store Migrates conn.old conn.new result }

    // It succeeds only if the one row is of schema 1, and each fault has its cause.
    ensures judges { On S.Store JudgesAtRest conn.old conn.new result }

    // A file that is no office's, or already has the table of CAs, is not written.
    ensures none { list_any is_office_table (tables_of S.Store conn.old) ≡ false → (result ≡ Err StoreFault.NotAnOffice)
        × (conn.new ≡ conn.old) }
    ensures already { list_any is_office_table (tables_of S.Store conn.old) ≡ true → list_any is_ca_name
        (tables_of S.Store conn.old) ≡ true → (result ≡ Err StoreFault.WrongSchema) × (conn.new ≡ conn.old) }

    // The tables still represent the history of their office.
    ensures carries { On S.Store CarriesEach conn.old conn.new result }
    ensures before { On S.Store KeepsOnErr conn.old conn.new result }

    // A crash during the call leaves the tables as they were before it, or as they are after it.
    ensures survives { OutlivesBy S.Store (Leaves Had migrated) conn.old conn.new }
{
    if !has_office(conn) {
        return Err(StoreFault::NotAnOffice);
    }
    if has_ca_table(conn) {
        return Err(StoreFault::WrongSchema);
    }
    migrate_whole(alloc, conn)
}
