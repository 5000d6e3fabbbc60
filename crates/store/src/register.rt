//! The register: made from a connection, and turned back into one.

ghost use Rattle.std.specs.Prelude.{◌≡◌, false, [], Err, IfErr, IfOk, IsTrue, Ok, true};
ghost use Rattle.std.specs.List.{list_any};
ghost use Rattle.sqlite.specs.Held.{state};
ghost use Rattle.store.specs.Transactions.{FailuresStay, IsAsBefore, Leaves};
ghost use Rattle.store_sql.specs.Look.{is_ca_name, is_office_name, is_office_table};
ghost use Rattle.store.specs.Migrating.{JudgesAtRest};
ghost use Rattle.store.specs.Register.{CarriesOn, Founds, IsExcusedOfBlank, IsExcusedOfFormer, IsExcusedOfHistory};
ghost use Rattle.store.specs.Register.{IsLeftOpen, KeepsTellingBefore, MovesTables, StaysBlank};
ghost use Rattle.store.specs.Creating.{LeavesOnBlank};
ghost use Rattle.store.specs.Rows.{office_contents};
ghost use Rattle.store_sql.specs.Honest.{Between, IsOutside, IsUnlimited, On, OnOpen, OutlivesBy, StaysClean};
ghost use Rattle.store_sql.specs.Honest.{tables_of};
ghost use Rattle.store.specs.Former.{Had, migrated};
ghost use Rattle.office.specs.declared.opening.Opening.{Opening};
ghost use Rattle.office.specs.Openings.{IsOpening};
ghost use Rattle.store.specs.Meaning.{DiskFailed, KeepsTelling, LooksUnless};

use crate::creating::create;
use crate::looking::look;
use crate::migration::migrate;
use crate::rows::fault_of;
use office::{Opening, StoreFault};
use sqlite::{Alter, Connection};
use std::alloc::Global;
use store_sql::has_any_table;

/// An office's register in the tables of a database.
#[derive(Drop)]
pub struct Store<S: Alter> {
    pub(crate) conn: Connection<S>,
}

impl<S: Alter> Store<S> {
    /// Creates an office with this initial configuration in a database without tables. `AlreadyAnOffice` if the
    /// database has a table with a name that an office needs, `Device` if the database fails, and `NoMemory` for lack
    /// of memory. If it fails, no table is made, and it returns the connection. No transaction may be open, and the
    /// connection may have no limit on the steps of a query, since a call that reaches one fails.
    pub fn init(
        alloc: Global,
        conn: Connection<S>,
        opening: &Opening,
    ) -> Result<Store<S>, (StoreFault, Connection<S>)>
        requires outside { IsOutside S.Store conn }
        requires unlimited { IsUnlimited S.Store conn }
        requires lawful { IsOpening opening.now }
        ensures made { IfOk result (λ s. Between S.Store (Founds opening.now) conn s.conn) }
        ensures stays_open { IfOk result (λ s. Between S.Store IsLeftOpen conn s.conn) }
        ensures already { IsTrue (list_any is_office_name (tables_of S.Store conn)) → result ≡ Err
            (record { 0 = StoreFault.AlreadyAnOffice; 1 = conn }) }
        ensures before { IfErr result (λ e. Between S.Store IsAsBefore conn e.1) }
        ensures blank { IfErr result (λ e. Between S.Store StaysBlank conn e.1) }

        // If the database was empty, lack of memory and a failure of the database are the only faults.
        ensures only { IfErr result (λ e. On S.Store IsExcusedOfBlank conn e.1 e.0) }

        // A connection that represented the history of an office still does, even if a failed disk has closed it.
        ensures told { IfErr result (λ e. Between S.Store KeepsTelling conn e.1) }

        // A crash during the call leaves the database without tables, or with the whole office.
        ensures crash { IfOk result (λ s. OutlivesBy S.Store (LeavesOnBlank (office_contents opening.now []))
            conn s.conn) }
        ensures crash_back { IfErr result (λ e. OutlivesBy S.Store (LeavesOnBlank (office_contents opening.now []))
            conn e.1) }
    {
        let mut conn = conn;
        if has_any_table(&conn) {
            return Err((StoreFault::AlreadyAnOffice, conn));
        }
        match create(alloc, &mut conn, opening) {
            Ok(()) => Ok(Store { conn }),
            Err(fault) => Err((fault_of(fault), conn)),
        }
    }

    /// Opens the office of a database. `NotAnOffice` if the `office` table is missing or doesn't have exactly one row,
    /// `WrongSchema` if its tables are those of another schema, `Device` if the database failed. A fault returns the
    /// connection. No transaction may be open, and the connection may have no limit on the steps of a query.
    pub fn open(alloc: Global, conn: Connection<S>) -> Result<Store<S>, (StoreFault, Connection<S>)>
        requires outside { IsOutside S.Store conn }
        requires unlimited { IsUnlimited S.Store conn }
        // The rows of the `office` table decide, if that is the first table, as it is in schema 1 and in schema 2.
        ensures opened { IfOk result (λ s. On S.Store (LooksUnless DiskFailed) conn s.conn (Ok tt)) }
        ensures stays_open { IfOk result (λ s. Between S.Store IsLeftOpen conn s.conn) }
        ensures before { IfErr result (λ e. Between S.Store IsAsBefore conn e.1) }
        ensures refused { IfErr result (λ e. On S.Store (LooksUnless DiskFailed) conn e.1 (Err e.0)) }
        ensures same { IfOk result (λ s. Between S.Store KeepsTelling conn s.conn) }
        ensures back { IfErr result (λ e. Between S.Store KeepsTelling conn e.1) }
        ensures only { IfErr result (λ e. OnOpen S.Store IsExcusedOfHistory conn e.1 e.0) }
        ensures untouched { IfOk result (λ s. Between S.Store IsAsBefore conn s.conn) }
        ensures none { list_any is_office_table (tables_of S.Store conn) ≡ false → result ≡ Err
            (record { 0 = StoreFault.NotAnOffice; 1 = conn }) }

        // A disk that was faithful when the call ended was so when it began.
        ensures honest { IfOk result (λ s. StaysClean S.Store conn s.conn) }
        ensures honest_back { IfErr result (λ e. StaysClean S.Store conn e.1) }

        // No failure of the disk is forgotten, whatever it has returned.
        ensures counts { IfOk result (λ s. FailuresStay (state S.Store conn) (state S.Store s.conn)) }
        ensures counts_back { IfErr result (λ e. FailuresStay (state S.Store conn) (state S.Store e.1)) }
    {
        let mut conn = conn;
        match look(alloc, &mut conn) {
            Ok(()) => Ok(Store { conn }),
            Err(fault) => Err((fault, conn)),
        }
    }

    /// Migrates the office of a database from schema 1 to the current schema: its CA gets number 1. If it fails,
    /// nothing has changed, and it returns the connection. `NotAnOffice` if the `office` table is missing or doesn't
    /// have exactly one row, `WrongSchema` if its tables are those of another schema, `Device` if the database failed
    /// or its rules refuse the CA, which never happens if its tables represent a history. No transaction may be open,
    /// and the connection may have no limit on the steps of a query.
    pub fn migrate(
        alloc: Global,
        conn: Connection<S>,
    ) -> Result<Store<S>, (StoreFault, Connection<S>)>
        requires outside { IsOutside S.Store conn }
        requires unlimited { IsUnlimited S.Store conn }
        ensures carried { IfOk result (λ s. Between S.Store CarriesOn conn s.conn) }
        ensures stays_open { IfOk result (λ s. Between S.Store IsLeftOpen conn s.conn) }
        ensures before { IfErr result (λ e. Between S.Store IsAsBefore conn e.1) }
        ensures back { IfErr result (λ e. Between S.Store KeepsTellingBefore conn e.1) }
        ensures only { IfErr result (λ e. OnOpen S.Store IsExcusedOfFormer conn e.1 e.0) }

        // A connection that represented the history of an office of schema 2 still does, even if a failed disk has
        // closed it.
        ensures told { IfErr result (λ e. Between S.Store KeepsTelling conn e.1) }

        // In terms of rows: it succeeds only if the one row of the office is of schema 1, and each fault has its cause.
        ensures moved { IfOk result (λ s. Between S.Store MovesTables conn s.conn) }
        ensures judged { IfOk result (λ s. On S.Store JudgesAtRest conn s.conn (Ok tt)) }
        ensures judged_back { IfErr result (λ e. On S.Store JudgesAtRest conn e.1 (Err e.0)) }

        // A crash during the call leaves the tables as they were before it, or as they are after it.
        ensures crash { IfOk result (λ s. OutlivesBy S.Store (Leaves Had migrated) conn s.conn) }
        ensures crash_back { IfErr result (λ e. OutlivesBy S.Store (Leaves Had migrated) conn e.1) }
        ensures none { list_any is_office_table (tables_of S.Store conn) ≡ false → result ≡ Err
            (record { 0 = StoreFault.NotAnOffice; 1 = conn }) }
        ensures already { list_any is_office_table (tables_of S.Store conn) ≡ true → list_any is_ca_name
            (tables_of S.Store conn) ≡ true → result ≡ Err (record { 0 = StoreFault.WrongSchema; 1 = conn }) }
    {
        let mut conn = conn;
        match migrate(alloc, &mut conn) {
            Ok(()) => Ok(Store { conn }),
            Err(fault) => Err((fault, conn)),
        }
    }

    /// The connection, with its tables unchanged.
    pub fn into_connection(self) -> Connection<S>
        ensures { result ≡ self.conn }
    {
        let Store { conn } = self;
        conn
    }
}
