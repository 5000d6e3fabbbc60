//! The table of requests.

ghost use Rattle.std.specs.Prelude.{◌≡◌, ◌∷◌, []};
ghost use Rattle.store_sql.specs.Cells.{request_cells};
ghost use Rattle.store_sql.specs.Changes.{requests_for, with_request};
ghost use Rattle.store_sql.specs.Calls.{FindsOne};
ghost use Rattle.store_sql.specs.Refusals.{RefusesRequest};
ghost use Rattle.store_sql.specs.Statements.{Reads, WritesRows};

use crate::columns::{Columns, found_first};
use crate::kind::{Kind, blob_at, is_row_of, text_at};
use crate::memory::Memory;
use crate::sql::{FIND_REQUEST, INSERT_REQUEST};
use crate::table_fault::{Fault, done};
use sqlite::types::ValueRef;
use sqlite::{Alter, Connection, Row};
use std::alloc::Global;
use text::Text;

/// An accepted request.
#[derive(Drop)]
pub struct RequestRow {
    pub caller: Text,
    /// The caller's request ID.
    pub key: Text,
    pub message: Text,
    pub reply: Text,
}

impl RequestRow {
    ghost use Rattle.sqlite.specs.Values.{bound};
    ghost use Rattle.store_sql.specs.Cells.{request_cells};

    fn values(&self) -> [ValueRef<'_>; 4]
        ensures { bound result ≡ request_cells self.now }
    {
        [
            ValueRef::Text(self.caller.as_slice()),
            ValueRef::Text(self.key.as_slice()),
            ValueRef::Blob(self.message.as_slice()),
            ValueRef::Text(self.reply.as_slice()),
        ]
    }
}

impl Columns for RequestRow {
    ghost use Rattle.std.specs.Prelude.{◌∷◌, [], refl};
    ghost use Rattle.store_sql.specs.Kinds.{has_kinds};
    ghost use Rattle.store_sql.specs.Cells.{request_cells, request_kinds};

    ghost cells = { request_cells };

    ghost is_row = { has_kinds request_kinds };

    ghost fits = { λ _. refl };

    fn is_row(row: &Row) -> bool {
        is_row_of(row, &[Kind::Text, Kind::Text, Kind::Blob, Kind::Text])
    }

    fn copied_from(memory: &mut Memory, row: &Row) -> RequestRow {
        RequestRow {
            caller: text_at(memory, row, 0),
            key: text_at(memory, row, 1),
            message: blob_at(memory, row, 2),
            reply: text_at(memory, row, 3),
        }
    }
}

/// Inserts an accepted request. `Device` also if its caller has used its request ID before, the row is too long, or no
/// row number is left.
pub fn insert_request<S: Alter>(conn: &mut Connection<S>, request: &RequestRow) -> Result<(), Fault>
    ensures { WritesRows S.Store (with_request request.now) (RefusesRequest request.now) conn.old conn.new result }
{
    done(conn.execute(INSERT_REQUEST, &request.values()))
}

/// The request with this caller and request ID, if it is stored. `Damaged` if its row has another form.
pub fn find_request<S: Alter>(
    alloc: Global,
    conn: &mut Connection<S>,
    caller: &[u8],
    key: &[u8],
) -> Result<Option<RequestRow>, Fault>
    ensures { Reads S.Store (FindsOne (requests_for caller.now key.now)) conn.old conn.new result }
{
    found_first(
        alloc,
        conn.query_all(FIND_REQUEST, &[ValueRef::Text(caller), ValueRef::Text(key)]),
    )
}
