//! A list in pieces, one in each row. So no value that passes through the database is longer than a piece, however
//! long the list is.

ghost use Rattle.std.specs.Prelude.{◌≡◌, ◌+◌, ◌*◌, ◌<◌, ◌≤◌, ◌^◌, length};
ghost use Rattle.sqlite.specs.Values.{bound};
ghost use Rattle.list_sql.specs.Cells.{list_cells};
ghost use Rattle.list_sql.specs.Changes.{with_list};
ghost use Rattle.list_sql.specs.Refusals.{RefusesList};
ghost use Rattle.list_sql.specs.Rows.{piece_at, piece_count, piece_row, piece_size};
ghost use Rattle.rows.specs.Statements.{Writes};
ghost use Rattle.list_sql.specs.Contents.{list_tables};

use crate::sql::INSERT_LIST;
use rows::{done, value_of};
use sqlite::types::ValueRef;
use sqlite::{Alter, Connection};
use store_sql::{Fault, Number};

/// The number of the schema that is made.
pub(crate) const SCHEMA: u64 = 2;

/// The length of each piece but the last.
const PIECE_SIZE: usize = 65536;

/// The number as a column holds it.
pub(crate) fn number(value: u64) -> Number
    requires { value < 2 ^ 63 }
    ensures { result ≡ value }
{
    let Some(number) = Number::new(value) else {
        unreachable!();
    };
    number
}

/// The number of pieces of a list with so many bytes.
pub(crate) fn piece_count(size: usize) -> usize
    ensures { result ≡ piece_count size }
{
    size.saturating_sub(1) / PIECE_SIZE + 1
}

/// The piece at a place.
fn piece_at(list: &[u8], at: usize) -> &[u8]
    requires { at * piece_size ≤ length list.now }
    ensures { result.now ≡ piece_at list.now at }
{
    let rest = &list[at * PIECE_SIZE..];
    &rest[..PIECE_SIZE.min(rest.len())]
}

/// The columns of its row.
fn piece_values(list: &[u8], at: usize) -> [ValueRef<'_>; 3]
    requires inside { at * piece_size ≤ length list.now }
    requires low { at + 1 < 2 ^ 63 }
    ensures { bound result ≡ list_cells (piece_row list.now at) }
{
    [
        value_of(number(at as u64 + 1)),
        value_of(number(SCHEMA)),
        ValueRef::Blob(piece_at(list, at)),
    ]
}

/// Inserts the row of the piece at a place. `Device` also if its id is taken.
pub(crate) fn insert_piece<S: Alter>(
    conn: &mut Connection<S>,
    list: &[u8],
    at: usize,
) -> Result<(), Fault>
    requires inside { at * piece_size ≤ length list.now }
    requires low { at + 1 < 2 ^ 63 }
    ensures { Writes list_tables S.Store (with_list (piece_row list.now at)) (RefusesList (piece_row list.now at))
        conn.old conn.new result }
{
    done(conn.execute(INSERT_LIST, &piece_values(list, at)))
}
