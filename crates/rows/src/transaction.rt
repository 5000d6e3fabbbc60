//! Transactions, each of which is committed as a whole or undone.

ghost use Rattle.std.specs.Prelude.{◌≡◌};
ghost use Rattle.rows.specs.Transactions.{Closes, ClosesFor, Concludes, EndsFor, HasEnded, LeavesAnswered};
ghost use Rattle.store_sql.specs.Honest.{Between, On, Outlives, OutlivesBy};

use sqlite::{Alter, Connection};
use store_sql::{Fault, commit, rollback};

/// Undoes the open transaction, if there is one.
pub fn undo<S: Alter>(conn: &mut Connection<S>)
    ensures ended { Between S.Store HasEnded conn.old conn.new }
    ensures survives { Outlives S.Store (λ _. ⊥) conn.old conn.new }
{
    if !conn.is_autocommit() {
        rollback(conn);
    }
}

/// Commits the transaction, or undoes it. A commit fails for lack of memory, or because the database failed.
pub fn close<S: Alter>(conn: &mut Connection<S>) -> Result<(), Fault>
    ensures closes { On S.Store Closes conn.old conn.new result }
    ensures cause { On S.Store ClosesFor conn.old conn.new result }
    ensures survives { OutlivesBy S.Store (λ s trees. trees ≡ s.now.trees) conn.old conn.new }
{
    match commit(conn) {
        Ok(()) => Ok(()),
        Err(fault) => {
            undo(conn);
            Err(fault)
        }
    }
}

/// Commits the transaction after an answer, and undoes it after a fault.
pub fn conclude<S: Alter, T: Drop>(
    conn: &mut Connection<S>,
    answer: Result<T, Fault>,
) -> Result<T, Fault>
    ensures concludes { On S.Store (Concludes answer) conn.old conn.new result }
    ensures cause { On S.Store (EndsFor answer) conn.old conn.new result }
    ensures survives { OutlivesBy S.Store (LeavesAnswered answer) conn.old conn.new }
{
    match answer {
        Ok(value) => {
            close(conn)?;
            Ok(value)
        }
        Err(fault) => {
            undo(conn);
            Err(fault)
        }
    }
}
