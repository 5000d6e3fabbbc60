//! Transactions, as separate statements: the calls between them are the same inside and outside a transaction.

ghost use Rattle.std.specs.Prelude.{◌≡◌, true, false};
ghost use Rattle.store_sql.specs.Calls.{Begins, Commits, FailsWhere, Never, Undoes};
ghost use Rattle.store_sql.specs.Honest.{Between, On, Outlives, OutlivesBy};

use crate::table_fault::{Fault, done};
use sqlite::{Alter, Connection};

/// Begins a transaction. If one is open already, it fails, and nothing changes.
pub fn begin<S: Alter>(conn: &mut Connection<S>) -> Result<(), Fault>
    ensures begins { On S.Store Begins conn.old conn.new result }
    ensures fault { On S.Store (FailsWhere (λ s. s.in_transaction ≡ false)) conn.old conn.new result }
    ensures survives { Outlives S.Store Never conn.old conn.new }
{
    done(conn.execute("BEGIN", &[]))
}

/// Commits the transaction. If that fails, nothing is committed.
pub fn commit<S: Alter>(conn: &mut Connection<S>) -> Result<(), Fault>
    ensures commits { On S.Store Commits conn.old conn.new result }
    ensures fault { On S.Store (FailsWhere (λ s. s.in_transaction ≡ true)) conn.old conn.new result }
    ensures survives { OutlivesBy S.Store (λ s trees. trees ≡ s.now.trees) conn.old conn.new }
{
    done(conn.execute("COMMIT", &[]))
}

/// Rolls back the transaction. It cannot fail: if memory is refused, the transaction is rolled back too.
pub fn rollback<S: Alter>(conn: &mut Connection<S>)
    ensures undone { Between S.Store Undoes conn.old conn.new }
    ensures survives { Outlives S.Store Never conn.old conn.new }
{
    let _ = conn.execute("ROLLBACK", &[]);
}
