//! The table of revoked key IDs.

ghost use Rattle.std.specs.Ordering.{nat_cmp};
ghost use Rattle.std.specs.Cmp.Lexicographic.{slice_cmp};
ghost use Rattle.store_sql.specs.Cells.{key_id_cells};
ghost use Rattle.store_sql.specs.Changes.{revoked_as, with_revoked};
ghost use Rattle.store_sql.specs.Calls.{FindsOne};
ghost use Rattle.store_sql.specs.Refusals.{RefusesKeyId};
ghost use Rattle.store_sql.specs.Statements.{Reads, ReadsSorted, WritesRows};

use crate::columns::{Columns, found, found_first};
use crate::kind::{Kind, is_row_of, text_at};
use crate::memory::Memory;
use crate::sql::{EVERY_REVOKED, FIND_REVOKED, INSERT_REVOKED};
use crate::table_fault::{Fault, done};
use sqlite::types::ValueRef;
use sqlite::{Alter, Connection, Row};
use std::alloc::Global;
use text::Text;

impl Columns for Text {
    ghost use Rattle.std.specs.Prelude.{refl};
    ghost use Rattle.store_sql.specs.Kinds.{has_kinds};
    ghost use Rattle.store_sql.specs.Cells.{key_id_cells, key_id_kinds};

    ghost cells = { key_id_cells };

    ghost is_row = { has_kinds key_id_kinds };

    ghost fits = { λ _. refl };

    fn is_row(row: &Row) -> bool {
        is_row_of(row, &[Kind::Text])
    }

    fn copied_from(memory: &mut Memory, row: &Row) -> Text {
        text_at(memory, row, 0)
    }
}

/// Inserts a revoked key ID. `Device` also if it is there already, the row is too long, or no row number is left.
pub fn insert_revoked<S: Alter>(conn: &mut Connection<S>, key_id: &[u8]) -> Result<(), Fault>
    ensures { WritesRows S.Store (with_revoked key_id.now) (RefusesKeyId key_id.now) conn.old conn.new result }
{
    done(conn.execute(INSERT_REVOKED, &[ValueRef::Text(key_id)]))
}

/// The key ID, if it is revoked. `Damaged` if its row has another form.
pub fn find_revoked<S: Alter>(
    alloc: Global,
    conn: &mut Connection<S>,
    key_id: &[u8],
) -> Result<Option<Text>, Fault>
    ensures { Reads S.Store (FindsOne (revoked_as key_id.now)) conn.old conn.new result }
{
    found_first(
        alloc,
        conn.query_all(FIND_REVOKED, &[ValueRef::Text(key_id)]),
    )
}

/// Each revoked key ID, in byte order. `Damaged` if a row has another form.
pub fn every_revoked<S: Alter>(alloc: Global, conn: &mut Connection<S>) -> Result<Vec<Text>, Fault>
    ensures { ReadsSorted S.Store (λ c. c.revoked) (λ k. k) (slice_cmp nat_cmp) conn.old conn.new result }
{
    found(alloc, conn.query_all(EVERY_REVOKED, &[]))
}
