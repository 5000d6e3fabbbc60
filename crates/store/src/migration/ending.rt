//! The end of the migration's transaction.

ghost use Rattle.store.specs.Transactions.{Concludes, LeavesAnswered};
ghost use Rattle.store.specs.Migrating.{TellsEnd};
ghost use Rattle.store_sql.specs.Honest.{On, OutlivesBy};

use crate::rows::{close, fault_of, undo};
use office::StoreFault;
use sqlite::{Alter, Connection};

/// Commits a migration that succeeded, and rolls back one that failed.
pub(crate) fn end<S: Alter>(
    conn: &mut Connection<S>,
    moved: Result<(), StoreFault>,
) -> Result<(), StoreFault>
    ensures concludes { On S.Store (Concludes moved) conn.old conn.new result }
    ensures tells { On S.Store (TellsEnd moved) conn.old conn.new result }
    ensures survives { OutlivesBy S.Store (LeavesAnswered moved) conn.old conn.new }
{
    match moved {
        Ok(()) => match close(conn) {
            Ok(()) => Ok(()),
            Err(fault) => Err(fault_of(fault)),
        },
        Err(fault) => {
            undo(conn);
            Err(fault)
        }
    }
}
