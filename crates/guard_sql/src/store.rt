//! A guard's register, from its connection and back.

ghost use Rattle.std.specs.Prelude.{◌≡◌, false, Err, IfErr, IfOk, IsTrue, Ok, Some};
ghost use Rattle.std.specs.List.{list_any};
ghost use Rattle.sqlite.specs.Held.{state};
ghost use Rattle.store_sql.specs.Honest.{Between, IsOutside, IsUnlimited, On, Outlives, OutlivesBy, StaysClean};
ghost use Rattle.store_sql.specs.Honest.{tables_of};
ghost use Rattle.store_sql.specs.Calls.{Never};
ghost use Rattle.guard_sql.specs.Keeping.{IsScope};
ghost use Rattle.guard_sql.specs.Look.{IsRefused, is_empty, is_guard_name, is_guard_table};
ghost use Rattle.guard_sql.specs.Opening.{Finds, Founds, FoundsNone, LeavesNew, Misses, SaysUnless};

use crate::creating::create;
use crate::faults::opening_fault;
use crate::finding::find_scope;
use crate::look::has_any_table;
use crate::opening_fault::OpeningFault;
use guard::{RegisterFault, Scope};
use rows::is_empty;
use sqlite::{Alter, Connection};
use std::alloc::Global;

/// A guard's register in the tables of a database.
#[derive(Drop)]
pub struct GuardStore<S: Alter> {
    pub(crate) conn: Connection<S>,
    // as in the row of the guard
    pub(crate) scope: Scope,
    // the fault that a call has reported last
    pub(crate) reported: Option<RegisterFault>,
}

impl<S: Alter> GuardStore<S> {
    /// A guard with this scope that has approved nothing yet, in an empty database. Both tables are made, or none and
    /// the fault returns the connection. No transaction may be open, and the connection may have no limit on the steps
    /// of a query, since a call that reaches it fails.
    ///
    /// # Errors
    ///
    /// `AlreadyAGuard` if the database has a table with a name that a guard needs, `NotAGuard` if it has no such table
    /// but others, or views, `Device` if the database fails, and `NoMemory` for lack of memory.
    pub fn init(
        alloc: Global,
        conn: Connection<S>,
        scope: &Scope,
    ) -> Result<GuardStore<S>, (OpeningFault, Connection<S>)>
        requires outside { IsOutside S.Store conn }
        requires unlimited { IsUnlimited S.Store conn }
        requires lawful { IsScope scope.now }
        ensures made { IfOk result (λ g. Between S.Store (Founds scope.now) conn g.conn) }
        ensures scope { IfOk result (λ g. g.scope ≡ scope.now) }
        ensures already { IsTrue (list_any is_guard_name (tables_of S.Store conn)) → result ≡ Err
            (record { 0 = OpeningFault.AlreadyAGuard; 1 = conn }) }
        ensures foreign { list_any is_guard_name (tables_of S.Store conn) ≡ false
            → is_empty (state S.Store conn).now.schema ≡ false → result ≡ Err
            (record { 0 = OpeningFault.NotAGuard; 1 = conn }) }

        // Each of these two comes for no other database.
        ensures cause { IfErr result (λ e. IsRefused (state S.Store conn).now.schema e.0) }

        // An empty database stays empty after a fault, which is a lack of memory or a failure of the database.
        ensures none { IfErr result (λ e. On S.Store FoundsNone conn e.1 e.0) }

        // A crash in the middle of it leaves the database without tables, or with the whole guard.
        ensures crash { IfOk result (λ g. OutlivesBy S.Store (LeavesNew scope.now) conn g.conn) }
        ensures crash_back { IfErr result (λ e. OutlivesBy S.Store (LeavesNew scope.now) conn e.1) }
    {
        let mut conn = conn;
        if has_any_table(&conn) {
            return Err((OpeningFault::AlreadyAGuard, conn));
        }
        if !is_empty(&conn) {
            return Err((OpeningFault::NotAGuard, conn));
        }
        match create(alloc, &mut conn, scope) {
            Ok(()) => Ok(GuardStore {
                conn,
                scope: *scope,
                reported: None,
            }),
            Err(fault) => Err((opening_fault(fault), conn)),
        }
    }

    /// The guard in a database. A fault returns the connection. No transaction may be open, and the connection may have
    /// no limit on the steps of a query.
    ///
    /// # Errors
    ///
    /// `NotAGuard` if the guard's own table is missing, or has no row or several, `WrongSchema` if the tables are those
    /// of another version, `Damaged` if its row has another id than 1 or no valid scope, `Device` if the database
    /// failed, and `NoMemory` for lack of memory.
    pub fn open(
        alloc: Global,
        conn: Connection<S>,
    ) -> Result<GuardStore<S>, (OpeningFault, Connection<S>)>
        requires outside { IsOutside S.Store conn }
        requires unlimited { IsUnlimited S.Store conn }

        // The register keeps each guard that the tables hold, and a crash leaves it.
        ensures opened { IfOk result (λ g. Between S.Store (Finds g.scope) conn g.conn) }

        // Opened exactly when there is one row, of this schema, with a scope; each refusal has its cause in the rows.
        ensures said { IfOk result (λ g. On S.Store SaysUnless conn g.conn (Ok g.scope)) }
        ensures refused { IfErr result (λ e. On S.Store SaysUnless conn e.1 (Err e.0)) }

        // If the tables hold a guard, the only faults are a lack of memory and a failure of the database.
        ensures missed { IfErr result (λ e. On S.Store Misses conn e.1 e.0) }
        ensures none { list_any is_guard_table (tables_of S.Store conn) ≡ false → result ≡ Err
            (record { 0 = OpeningFault.NotAGuard; 1 = conn }) }

        // If the disk has been faithful when the call ends, it had been when the call began.
        ensures honest { IfOk result (λ g. StaysClean S.Store conn g.conn) }
        ensures honest_back { IfErr result (λ e. StaysClean S.Store conn e.1) }

        // After a fault a crash leaves only what it could have left before.
        ensures crash_back { IfErr result (λ e. Outlives S.Store Never conn e.1) }
    {
        let mut conn = conn;
        match find_scope(alloc, &mut conn) {
            Ok(scope) => Ok(GuardStore {
                conn,
                scope,
                reported: None,
            }),
            Err(fault) => Err((fault, conn)),
        }
    }

    /// The connection, with the tables as they are.
    pub fn into_connection(self) -> Connection<S>
        ensures { result ≡ self.conn }
    {
        let GuardStore { conn, .. } = self;
        conn
    }

    /// Reports a fault.
    pub(crate) fn reports(&mut self, fault: RegisterFault) -> RegisterFault
        ensures fault { result ≡ fault }
        ensures reported { self.new.reported ≡ Some fault }
        ensures same { (self.new.conn ≡ self.old.conn) × (self.new.scope ≡ self.old.scope) }
    {
        self.reported = Some(fault);
        fault
    }
}
