//! A list guard's register, made from a connection.

ghost use Rattle.std.specs.Prelude.{◌≡◌, false, Err, IfErr, IfOk, IsTrue, None, Ok};
ghost use Rattle.std.specs.List.{list_any};
ghost use Rattle.sqlite.specs.Held.{state};
ghost use Rattle.store_sql.specs.Honest.{Between, IsOutside, IsUnlimited, On, Outlives, OutlivesBy, StaysClean};
ghost use Rattle.store_sql.specs.Honest.{tables_of};
ghost use Rattle.store_sql.specs.Calls.{Never};
ghost use Rattle.list_sql.specs.Look.{IsRefused, is_empty, is_list_name, is_list_table};
ghost use Rattle.list_sql.specs.Opening.{Finds, Founds, FoundsNone, LeavesNew, Misses, SaysUnless};

use crate::creating::create;
use crate::faults::opening_fault;
use crate::finding::find_last;
use crate::look::has_any_table;
use crate::opening_fault::OpeningFault;
use list_guard::RegisterFault;
use rows::is_empty;
use sqlite::{Alter, Connection};
use std::alloc::Global;
use text::Text;

/// A list guard's register in an SQLite table.
#[derive(Drop)]
pub struct ListStore<S: Alter> {
    pub(crate) conn: Connection<S>,
    // the list that the rows have
    pub(crate) last: Option<Text>,
    // the fault that a call has reported last
    pub(crate) reported: Option<RegisterFault>,
}

impl<S: Alter> ListStore<S> {
    /// Makes a list guard that has approved nothing yet, in an empty database: its table with a row or, after a fault,
    /// nothing. A fault returns the connection. No transaction may be open. The connection may have no limit on the
    /// steps of a query, since a call that reaches one fails.
    ///
    /// # Errors
    ///
    /// `AlreadyAGuard` if the database has a table with the name that a list guard needs, `NotAGuard` if it has no such
    /// table but others, or views, `Device` if the database fails, and `NoMemory` if memory is refused.
    pub fn init(
        alloc: Global,
        conn: Connection<S>,
    ) -> Result<ListStore<S>, (OpeningFault, Connection<S>)>
        requires outside { IsOutside S.Store conn }
        requires unlimited { IsUnlimited S.Store conn }
        ensures made { IfOk result (λ g. Between S.Store Founds conn g.conn) }
        ensures last { IfOk result (λ g. g.last ≡ None) }
        ensures already { IsTrue (list_any is_list_name (tables_of S.Store conn)) → result ≡ Err
            (record { 0 = OpeningFault.AlreadyAGuard; 1 = conn }) }
        ensures foreign { list_any is_list_name (tables_of S.Store conn) ≡ false
            → is_empty (state S.Store conn).now.schema ≡ false → result ≡ Err
            (record { 0 = OpeningFault.NotAGuard; 1 = conn }) }

        // Each of these two comes for no other database.
        ensures cause { IfErr result (λ e. IsRefused (state S.Store conn).now.schema e.0) }

        // A database without tables fails only for lack of memory or because it failed, and still has no tables.
        ensures none { IfErr result (λ e. On S.Store FoundsNone conn e.1 e.0) }

        // A crash in the middle of the call leaves the database without tables, or with the whole list guard.
        ensures crash { IfOk result (λ g. OutlivesBy S.Store LeavesNew conn g.conn) }
        ensures crash_back { IfErr result (λ e. OutlivesBy S.Store LeavesNew conn e.1) }
    {
        let mut conn = conn;
        if has_any_table(&conn) {
            return Err((OpeningFault::AlreadyAGuard, conn));
        }
        if !is_empty(&conn) {
            return Err((OpeningFault::NotAGuard, conn));
        }
        match create(alloc, &mut conn) {
            Ok(()) => Ok(ListStore {
                conn,
                last: None,
                reported: None,
            }),
            Err(fault) => Err((opening_fault(fault), conn)),
        }
    }

    /// Opens the list guard in a database. A fault returns the connection. No transaction may be open, and the
    /// connection may have no limit on the steps of a query.
    ///
    /// # Errors
    ///
    /// `NotAGuard` if the table of the list is missing or has no row, `WrongSchema` if a row's schema number is a
    /// different one, `Damaged` if a row doesn't have the table's form or a piece of the list is missing, `Device` if
    /// the database failed, and `NoMemory` if memory is refused.
    pub fn open(
        alloc: Global,
        conn: Connection<S>,
    ) -> Result<ListStore<S>, (OpeningFault, Connection<S>)>
        requires outside { IsOutside S.Store conn }
        requires unlimited { IsUnlimited S.Store conn }

        // The guard keeps the list that the table holds, and a crash leaves it.
        ensures opened { IfOk result (λ g. Between S.Store (Finds g.last) conn g.conn) }

        // It is opened exactly when the rows have this schema and the ids from 1 on, or one row has the first schema.
        // Each refusal has its cause in the rows.
        ensures said { IfOk result (λ g. On S.Store SaysUnless conn g.conn (Ok g.last)) }
        ensures refused { IfErr result (λ e. On S.Store SaysUnless conn e.1 (Err e.0)) }

        // If the table holds a list guard, the call fails only for lack of memory or because the database failed.
        ensures missed { IfErr result (λ e. On S.Store Misses conn e.1 e.0) }
        ensures none { list_any is_list_table (tables_of S.Store conn) ≡ false → result ≡ Err
            (record { 0 = OpeningFault.NotAGuard; 1 = conn }) }

        // A disk that has been faithful when the call ends had been so when it began.
        ensures honest { IfOk result (λ g. StaysClean S.Store conn g.conn) }
        ensures honest_back { IfErr result (λ e. StaysClean S.Store conn e.1) }

        // After a fault a crash leaves only what it could have left before.
        ensures crash_back { IfErr result (λ e. Outlives S.Store Never conn e.1) }
    {
        let mut conn = conn;
        match find_last(alloc, &mut conn) {
            Ok(last) => Ok(ListStore {
                conn,
                last,
                reported: None,
            }),
            Err(fault) => Err((fault, conn)),
        }
    }

    /// The connection, with its table unchanged.
    pub fn into_connection(self) -> Connection<S>
        ensures { result ≡ self.conn }
    {
        let ListStore { conn, last, .. } = self;
        drop(last);
        conn
    }
}
