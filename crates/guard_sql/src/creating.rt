//! The tables of a guard that has approved nothing yet.

ghost use Rattle.std.specs.Prelude.{◌≡◌, ◌<◌, ◌^◌, IfOk};
ghost use Rattle.store_sql.specs.Honest.{On, OutlivesBy};
ghost use Rattle.guard.specs.State.{opened};
ghost use Rattle.guard_sql.specs.Changes.{with_guard};
ghost use Rattle.guard_sql.specs.Contents.{guard_tables, no_contents};
ghost use Rattle.rows.specs.Creating.{DoesOnBlank, EndsOnBlank, FailsOnBlank, LeavesOnBlank};
ghost use Rattle.guard_sql.specs.Keeping.{IsScope};
ghost use Rattle.guard_sql.specs.Refusals.{RefusesGuard};
ghost use Rattle.guard_sql.specs.Rows.{guard_contents, guard_row};

use crate::creation::create_tables;
use crate::guards::{GuardRow, insert_guard};
use guard::Scope;
use lines::key_blob_of;
use rows::conclude;
use sqlite::{Alter, Connection};
use std::alloc::Global;
use store_sql::{Fault, Number, begin};
use text::{NoMemory, Text};

/// The version of the schema that is made, and the only one that is opened.
pub(crate) const SCHEMA: u64 = 1;

/// The number, as a column can hold it.
pub(crate) fn number(value: u64) -> Number
    requires { value < 2 ^ 63 }
    ensures { result ≡ value }
{
    let Some(number) = Number::new(value) else {
        unreachable!();
    };
    number
}

fn guard_row(alloc: Global, scope: &Scope) -> Result<GuardRow, NoMemory>
    requires { IsScope scope.now }
    ensures { IfOk result (λ row. row ≡ guard_row scope.now) }
{
    Ok(GuardRow {
        id: number(1),
        schema: number(SCHEMA),
        ca: Text::from_slice(alloc, &key_blob_of(&scope.ca))?,
        first: number(scope.first),
        last: number(scope.last),
    })
}

fn make<S: Alter>(conn: &mut Connection<S>, guard: &GuardRow) -> Result<(), Fault>
    ensures { DoesOnBlank guard_tables S.Store (with_guard guard.now no_contents) (RefusesGuard guard.now no_contents)
        conn.old conn.new result }
{
    match create_tables(conn) {
        Ok(()) => insert_guard(conn, guard),
        Err(fault) => Err(fault),
    }
}

fn make_whole<S: Alter>(conn: &mut Connection<S>, guard: &GuardRow) -> Result<(), Fault>
    ensures ends { On S.Store (EndsOnBlank guard_tables (with_guard guard.now no_contents)) conn.old conn.new result }
    ensures cause { On S.Store (FailsOnBlank (RefusesGuard guard.now no_contents)) conn.old conn.new result }
    ensures survives { OutlivesBy S.Store (LeavesOnBlank guard_tables (with_guard guard.now no_contents)) conn.old conn.new }
{
    match begin(conn) {
        Ok(()) => {
            let made = make(conn, guard);
            conclude(conn, made)
        }
        Err(fault) => Err(fault),
    }
}

/// Makes the tables of a guard with this scope in a database without tables, both or none.
pub(crate) fn create<S: Alter>(
    alloc: Global,
    conn: &mut Connection<S>,
    scope: &Scope,
) -> Result<(), Fault>
    requires { IsScope scope.now }
    ensures ends { On S.Store (EndsOnBlank guard_tables (guard_contents (opened scope.now))) conn.old conn.new result }
    ensures cause { On S.Store (FailsOnBlank (RefusesGuard (guard_row scope.now) no_contents))
        conn.old conn.new result }
    ensures survives { OutlivesBy S.Store (LeavesOnBlank guard_tables (guard_contents (opened scope.now))) conn.old conn.new }
{
    match guard_row(alloc, scope) {
        Ok(guard) => make_whole(conn, &guard),
        Err(NoMemory) => Err(Fault::NoMemory),
    }
}
