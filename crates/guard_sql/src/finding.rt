//! A look at a database: whether it is a guard's, and the scope of that guard.

ghost use Rattle.std.specs.Prelude.{◌≡◌, false, Err};
ghost use Rattle.std.specs.List.{list_any};
ghost use Rattle.lines.specs.Keys.{key_of};
ghost use Rattle.store_sql.specs.Honest.{On, Outlives, tables_of};
ghost use Rattle.store_sql.specs.Calls.{Never};
ghost use Rattle.rows.specs.Calls.{OnlyLooks};
ghost use Rattle.guard_sql.specs.Look.{is_guard_table};
ghost use Rattle.guard_sql.specs.Opening.{FindsScope, SaysUnless, scope_in, scope_with};

use crate::creating::SCHEMA;
use crate::faults::opening_fault;
use crate::guards::{GuardRow, every_guard};
use crate::look::has_guard;
use crate::opening_fault::OpeningFault;
use guard::Scope;
use lines::read_key_blob;
use sqlite::{Alter, Connection};
use std::alloc::Global;
use values::are_serials;

/// The scope in a row of this schema.
fn scope_with(row: &GuardRow) -> Result<Scope, OpeningFault>
    ensures { result ≡ scope_with row.now (key_of row.now.ca) }
{
    let Some(ca) = read_key_blob(row.ca.as_slice()) else {
        return Err(OpeningFault::Damaged);
    };
    let first = row.first.get();
    let last = row.last.get();
    if row.id.get() == 1 && are_serials(first, last) {
        Ok(Scope { ca, first, last })
    } else {
        Err(OpeningFault::Damaged)
    }
}

/// The scope in the rows of a guard's own table.
fn scope_in(rows: &[GuardRow]) -> Result<Scope, OpeningFault>
    ensures { result ≡ scope_in rows.now }
{
    match rows {
        [row] => {
            if row.schema.get() == SCHEMA {
                scope_with(row)
            } else {
                Err(OpeningFault::WrongSchema)
            }
        }
        _ => Err(OpeningFault::NotAGuard),
    }
}

/// The scope of the guard in a database.
pub(crate) fn find_scope<S: Alter>(
    alloc: Global,
    conn: &mut Connection<S>,
) -> Result<Scope, OpeningFault>
    ensures finds { On S.Store FindsScope conn.old conn.new result }
    ensures says { On S.Store SaysUnless conn.old conn.new result }
    ensures looks { On S.Store OnlyLooks conn.old conn.new result }
    ensures none { list_any is_guard_table (tables_of S.Store conn.old) ≡ false
        → (result ≡ Err OpeningFault.NotAGuard) × (conn.new ≡ conn.old) }
    ensures survives { Outlives S.Store Never conn.old conn.new }
{
    if !has_guard(conn) {
        return Err(OpeningFault::NotAGuard);
    }
    match every_guard(alloc, conn) {
        Ok(rows) => scope_in(rows.as_slice()),
        Err(fault) => Err(opening_fault(fault)),
    }
}
