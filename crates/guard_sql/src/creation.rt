//! The two tables, without rows.

ghost use Rattle.std.specs.Prelude.{◌≡◌};
ghost use Rattle.store_sql.specs.Schema.{no_schema};
ghost use Rattle.store_sql.specs.Honest.{On, OutlivesBy};
ghost use Rattle.rows.specs.Calls.{Completes};
ghost use Rattle.store_sql.specs.Calls.{Creates, FailsWhere, IsBare, Stays, WaitsAt};
ghost use Rattle.guard_sql.specs.Schema.{approved, guard, through_guard};
ghost use Rattle.guard_sql.specs.Contents.{guard_tables};

use crate::sql::{CREATE_APPROVED, CREATE_GUARD};
use rows::done;
use sqlite::{Alter, Connection};
use store_sql::Fault;

/// Makes the guard's own table in a database without tables.
fn create_guard<S: Alter>(conn: &mut Connection<S>) -> Result<(), Fault>
    ensures creates { On S.Store (Creates no_schema guard) conn.old conn.new result }
    ensures fault { On S.Store (FailsWhere (λ s. s.now.schema ≡ no_schema)) conn.old conn.new result }
    ensures stays { On S.Store Stays conn.old conn.new result }
    ensures survives { OutlivesBy S.Store (WaitsAt no_schema) conn.old conn.new }
{
    done(conn.execute(CREATE_GUARD, &[]))
}

/// Makes the table of approved bodies after the guard's own.
fn create_approved<S: Alter>(conn: &mut Connection<S>) -> Result<(), Fault>
    ensures creates { On S.Store (Creates through_guard approved) conn.old conn.new result }
    ensures fault { On S.Store (FailsWhere (λ s. s.now.schema ≡ through_guard)) conn.old conn.new result }
    ensures stays { On S.Store Stays conn.old conn.new result }
    ensures survives { OutlivesBy S.Store (WaitsAt through_guard) conn.old conn.new }
{
    done(conn.execute(CREATE_APPROVED, &[]))
}

/// Makes both tables of a guard in a database without tables. If that fails in a transaction, nothing of it is
/// committed.
pub(crate) fn create_tables<S: Alter>(conn: &mut Connection<S>) -> Result<(), Fault>
    ensures completes { On S.Store (Completes guard_tables no_schema) conn.old conn.new result }
    ensures fault { On S.Store (FailsWhere (λ s. IsBare no_schema s.now)) conn.old conn.new result }
    ensures stays { On S.Store Stays conn.old conn.new result }
    ensures survives { OutlivesBy S.Store (WaitsAt no_schema) conn.old conn.new }
{
    match create_guard(conn) {
        Ok(()) => create_approved(conn),
        Err(fault) => Err(fault),
    }
}
