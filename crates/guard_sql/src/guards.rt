//! The guard's own table.

ghost use Rattle.guard_sql.specs.Contents.{HasGuards};
ghost use Rattle.guard_sql.specs.Changes.{with_guard, with_last};
ghost use Rattle.guard_sql.specs.Refusals.{RefusesGuard, RefusesLast};
ghost use Rattle.rows.specs.Statements.{ReadsIn, Writes};
ghost use Rattle.guard_sql.specs.Contents.{guard_tables};

use crate::sql::{EVERY_GUARD, INSERT_GUARD, LOWER_GUARD};
use rows::{Columns, Kind, Memory, blob_at, done, found, is_row_of, number_at, value_of};
use sqlite::types::ValueRef;
use sqlite::{Alter, Connection, Row};
use std::alloc::Global;
use store_sql::{Fault, Number};
use text::Text;

/// The row of the guard's own table.
#[derive(Drop)]
pub(crate) struct GuardRow {
    /// 1, if a guard wrote the row.
    pub id: Number,
    /// The version of the schema.
    pub schema: Number,
    /// The Ed25519 public key of the CA, as an SSH key blob.
    pub ca: Text,
    /// The first serial.
    pub first: Number,
    /// The last serial.
    pub last: Number,
}

impl GuardRow {
    ghost use Rattle.std.specs.Prelude.{◌≡◌, ◌<◌, ◌^◌};
    ghost use Rattle.sqlite.specs.Values.{bound};
    ghost use Rattle.guard_sql.specs.Cells.{guard_cells};

    fn values(&self) -> [ValueRef<'_>; 5]
        ensures is { bound result ≡ guard_cells self.now }
        ensures low { self.now.id < 2 ^ 63 }
    {
        [
            value_of(self.id),
            value_of(self.schema),
            ValueRef::Blob(self.ca.as_slice()),
            value_of(self.first),
            value_of(self.last),
        ]
    }
}

impl Columns for GuardRow {
    ghost use Rattle.std.specs.Prelude.{refl};
    ghost use Rattle.rows.specs.Kinds.{has_kinds};
    ghost use Rattle.guard_sql.specs.Cells.{guard_cells, guard_kinds};

    ghost cells = { guard_cells };

    ghost is_row = { has_kinds guard_kinds };

    ghost fits = { λ _. refl };

    fn is_row(row: &Row) -> bool {
        is_row_of(
            row,
            &[
                Kind::Number,
                Kind::Number,
                Kind::Blob,
                Kind::Number,
                Kind::Number,
            ],
        )
    }

    fn copied_from(memory: &mut Memory, row: &Row) -> GuardRow {
        GuardRow {
            id: number_at(row, 0),
            schema: number_at(row, 1),
            ca: blob_at(memory, row, 2),
            first: number_at(row, 3),
            last: number_at(row, 4),
        }
    }
}

/// Stores the row of a guard. `Device` also if its id is taken, or the row is too long.
pub(crate) fn insert_guard<S: Alter>(
    conn: &mut Connection<S>,
    guard: &GuardRow,
) -> Result<(), Fault>
    ensures { Writes guard_tables S.Store (with_guard guard.now) (RefusesGuard guard.now) conn.old conn.new result }
{
    done(conn.execute(INSERT_GUARD, &guard.values()))
}

/// Every row of the guard's own table, which has one. `Damaged` if a row has another form.
pub(crate) fn every_guard<S: Alter>(
    alloc: Global,
    conn: &mut Connection<S>,
) -> Result<Vec<GuardRow>, Fault>
    ensures { ReadsIn S.Store HasGuards (λ rows. rows) conn.old conn.new result }
{
    found(alloc, conn.query_all(EVERY_GUARD, &[]))
}

/// Sets the last serial of the guard, in the row with id 1, if there is one. `Device` also if the row is then too long.
pub(crate) fn update_last<S: Alter>(conn: &mut Connection<S>, last: Number) -> Result<(), Fault>
    ensures { Writes guard_tables S.Store (with_last last) (RefusesLast last) conn.old conn.new result }
{
    done(conn.execute(LOWER_GUARD, &[value_of(last)]))
}
