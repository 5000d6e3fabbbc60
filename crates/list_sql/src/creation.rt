//! Creating the table itself.

ghost use Rattle.std.specs.Prelude.{◌≡◌};
ghost use Rattle.store_sql.specs.Schema.{no_schema};
ghost use Rattle.store_sql.specs.Honest.{On, OutlivesBy};
ghost use Rattle.rows.specs.Calls.{Completes};
ghost use Rattle.store_sql.specs.Calls.{FailsWhere, IsBare, Stays, WaitsAt};
ghost use Rattle.list_sql.specs.Contents.{list_tables};

use crate::sql::CREATE_LIST;
use rows::done;
use sqlite::{Alter, Connection};
use store_sql::Fault;

/// Makes the table of the list in a database without tables. If that fails in a transaction, nothing of it is
/// committed.
pub(crate) fn create_list<S: Alter>(conn: &mut Connection<S>) -> Result<(), Fault>
    ensures completes { On S.Store (Completes list_tables no_schema) conn.old conn.new result }
    ensures fault { On S.Store (FailsWhere (λ s. IsBare no_schema s.now)) conn.old conn.new result }
    ensures stays { On S.Store Stays conn.old conn.new result }
    ensures survives { OutlivesBy S.Store (WaitsAt no_schema) conn.old conn.new }
{
    done(conn.execute(CREATE_LIST, &[]))
}
