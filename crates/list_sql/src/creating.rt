//! The table of a list guard that has approved nothing yet.

ghost use Rattle.std.specs.Prelude.{◌≡◌};
ghost use Rattle.store_sql.specs.Honest.{On, OutlivesBy};
ghost use Rattle.list_guard.specs.State.{opened};
ghost use Rattle.list_sql.specs.Changes.{with_list};
ghost use Rattle.list_sql.specs.Contents.{list_tables, no_contents};
ghost use Rattle.rows.specs.Creating.{DoesOnBlank, EndsOnBlank, FailsOnBlank, LeavesOnBlank};
ghost use Rattle.list_sql.specs.Refusals.{RefusesList};
ghost use Rattle.list_sql.specs.Rows.{empty_row, list_contents};

use crate::creation::create_list;
use crate::lists::{ListRow, insert_list};
use crate::pieces::{SCHEMA, number};
use rows::conclude;
use sqlite::{Alter, Connection};
use std::alloc::Global;
use store_sql::{Fault, begin};
use text::Text;

/// The row of a list guard that has approved no list.
fn empty_row(alloc: Global) -> ListRow
    ensures { result ≡ empty_row }
{
    ListRow {
        id: number(1),
        schema: number(SCHEMA),
        bytes: Text::new(alloc),
    }
}

fn make<S: Alter>(conn: &mut Connection<S>, list: &ListRow) -> Result<(), Fault>
    ensures { DoesOnBlank list_tables S.Store (with_list list.now no_contents) (RefusesList list.now no_contents)
        conn.old conn.new result }
{
    match create_list(conn) {
        Ok(()) => insert_list(conn, list),
        Err(fault) => Err(fault),
    }
}

fn make_whole<S: Alter>(conn: &mut Connection<S>, list: &ListRow) -> Result<(), Fault>
    ensures ends { On S.Store (EndsOnBlank list_tables (with_list list.now no_contents)) conn.old conn.new result }
    ensures cause { On S.Store (FailsOnBlank (RefusesList list.now no_contents)) conn.old conn.new result }
    ensures survives { OutlivesBy S.Store (LeavesOnBlank list_tables (with_list list.now no_contents)) conn.old conn.new }
{
    match begin(conn) {
        Ok(()) => {
            let made = make(conn, list);
            conclude(conn, made)
        }
        Err(fault) => Err(fault),
    }
}

/// Makes the table of a list guard with its row, in a database without tables. If that fails, nothing is made.
pub(crate) fn create<S: Alter>(alloc: Global, conn: &mut Connection<S>) -> Result<(), Fault>
    ensures ends { On S.Store (EndsOnBlank list_tables (list_contents opened)) conn.old conn.new result }
    ensures cause { On S.Store (FailsOnBlank (RefusesList empty_row no_contents)) conn.old conn.new result }
    ensures survives { OutlivesBy S.Store (LeavesOnBlank list_tables (list_contents opened)) conn.old conn.new }
{
    make_whole(conn, &empty_row(alloc))
}
