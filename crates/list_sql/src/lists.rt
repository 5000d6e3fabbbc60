//! The table of the list.

ghost use Rattle.list_sql.specs.Contents.{HasRows};
ghost use Rattle.list_sql.specs.Changes.{with_list, without_rows};
ghost use Rattle.list_sql.specs.Refusals.{RefusesList, RefusesNone};
ghost use Rattle.rows.specs.Statements.{ReadsIn, Writes};
ghost use Rattle.list_sql.specs.Contents.{list_tables};

use crate::sql::{DELETE_LISTS, EVERY_LIST, INSERT_LIST};
use rows::{Columns, Kind, Memory, blob_at, done, found, is_row_of, number_at, value_of};
use sqlite::types::ValueRef;
use sqlite::{Alter, Connection, Row};
use std::alloc::Global;
use store_sql::{Fault, Number};
use text::Text;

/// A row, with a piece of the list that was approved last.
#[derive(Drop)]
pub(crate) struct ListRow {
    /// The number of the piece, from 1.
    pub id: Number,
    /// The number of the schema.
    pub schema: Number,
    /// The bytes of the piece. If no list was approved, there is one row, without a byte.
    pub bytes: Text,
}

impl ListRow {
    ghost use Rattle.std.specs.Prelude.{◌≡◌, ◌<◌, ◌^◌};
    ghost use Rattle.sqlite.specs.Values.{bound};
    ghost use Rattle.list_sql.specs.Cells.{list_cells};

    fn values(&self) -> [ValueRef<'_>; 3]
        ensures is { bound result ≡ list_cells self.now }
        ensures low { self.now.id < 2 ^ 63 }
    {
        [
            value_of(self.id),
            value_of(self.schema),
            ValueRef::Blob(self.bytes.as_slice()),
        ]
    }
}

impl Columns for ListRow {
    ghost use Rattle.std.specs.Prelude.{refl};
    ghost use Rattle.rows.specs.Kinds.{has_kinds};
    ghost use Rattle.list_sql.specs.Cells.{list_cells, list_kinds};

    ghost cells = { list_cells };

    ghost is_row = { has_kinds list_kinds };

    ghost fits = { λ _. refl };

    fn is_row(row: &Row) -> bool {
        is_row_of(row, &[Kind::Number, Kind::Number, Kind::Blob])
    }

    fn copied_from(memory: &mut Memory, row: &Row) -> ListRow {
        ListRow {
            id: number_at(row, 0),
            schema: number_at(row, 1),
            bytes: blob_at(memory, row, 2),
        }
    }
}

/// Inserts a row. `Device` also if its id is taken, or the row is too long.
pub(crate) fn insert_list<S: Alter>(conn: &mut Connection<S>, list: &ListRow) -> Result<(), Fault>
    ensures { Writes list_tables S.Store (with_list list.now) (RefusesList list.now) conn.old conn.new result }
{
    done(conn.execute(INSERT_LIST, &list.values()))
}

/// All rows of the table. `Damaged` if a row doesn't have the table's form.
pub(crate) fn every_list<S: Alter>(
    alloc: Global,
    conn: &mut Connection<S>,
) -> Result<Vec<ListRow>, Fault>
    ensures { ReadsIn S.Store HasRows (λ rows. rows) conn.old conn.new result }
{
    found(alloc, conn.query_all(EVERY_LIST, &[]))
}

/// Deletes all rows. The table never refuses that.
pub(crate) fn delete_lists<S: Alter>(conn: &mut Connection<S>) -> Result<(), Fault>
    ensures { Writes list_tables S.Store without_rows RefusesNone conn.old conn.new result }
{
    done(conn.execute(DELETE_LISTS, &[]))
}
