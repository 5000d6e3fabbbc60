//! The table of approved bodies.

ghost use Rattle.store_sql.specs.Honest.{On};
ghost use Rattle.rows.specs.Calls.{FindsOne, FindsSuch};
ghost use Rattle.guard_sql.specs.Changes.{approved_under, with_approval};
ghost use Rattle.guard_sql.specs.Contents.{IsFirstFrom};
ghost use Rattle.guard_sql.specs.Damage.{SaysFirstUnless, SaysRowUnless};
ghost use Rattle.guard_sql.specs.Refusals.{RefusesApproval};
ghost use Rattle.rows.specs.Statements.{Reads, Writes};
ghost use Rattle.guard_sql.specs.Contents.{guard_tables};
ghost use Rattle.guard_sql.specs.Cells.{approval_cells};
ghost use Rattle.guard_sql.specs.Rows.{approval_row};
ghost use Rattle.guard_sql.specs.Several.{IsLow};
ghost use Rattle.sqlite.specs.Values.{bound};
ghost use Rattle.std.specs.Prelude.{◌≡◌};

use crate::creating::number;
use crate::sql::{FIND_APPROVED, FROM_APPROVED, INSERT_APPROVED};
use guard::Approved;
use rows::{Columns, Kind, Memory, blob_at, done, found_first, is_row_of, number_at, value_of};
use sqlite::types::ValueRef;
use sqlite::{Alter, Connection, Row};
use std::alloc::Global;
use store_sql::{Fault, Number};
use text::Text;

/// An approved body: an unsigned certificate.
#[derive(Drop)]
pub(crate) struct ApprovalRow {
    pub serial: Number,
    /// When it was approved, in seconds since 1970-01-01 00:00:00 UTC.
    pub moment: Number,
    /// The bytes that are signed.
    pub body: Text,
}

/// The values of an approved body's row.
fn values_of(row: &Approved) -> [ValueRef<'_>; 3]
    requires { IsLow row.now }
    ensures { bound result ≡ approval_cells (approval_row row.now) }
{
    [
        value_of(number(row.serial)),
        value_of(number(row.moment)),
        ValueRef::Blob(row.body.as_slice()),
    ]
}

impl Columns for ApprovalRow {
    ghost use Rattle.std.specs.Prelude.{refl};
    ghost use Rattle.rows.specs.Kinds.{has_kinds};
    ghost use Rattle.guard_sql.specs.Cells.{approval_cells, approval_kinds};

    ghost cells = { approval_cells };

    ghost is_row = { has_kinds approval_kinds };

    ghost fits = { λ _. refl };

    fn is_row(row: &Row) -> bool {
        is_row_of(row, &[Kind::Number, Kind::Number, Kind::Blob])
    }

    fn copied_from(memory: &mut Memory, row: &Row) -> ApprovalRow {
        ApprovalRow {
            serial: number_at(row, 0),
            moment: number_at(row, 1),
            body: blob_at(memory, row, 2),
        }
    }
}

/// Stores an approved body. `Device` also if its serial is taken, or the row is too long.
pub(crate) fn insert_approval<S: Alter>(
    conn: &mut Connection<S>,
    row: &Approved,
) -> Result<(), Fault>
    requires { IsLow row.now }
    ensures { Writes guard_tables S.Store (with_approval (approval_row row.now)) (RefusesApproval (approval_row row.now))
        conn.old conn.new result }
{
    done(conn.execute(INSERT_APPROVED, &values_of(row)))
}

/// The body that was approved under this serial, if there is one. `Damaged` if its row has another form.
pub(crate) fn find_approval<S: Alter>(
    alloc: Global,
    conn: &mut Connection<S>,
    serial: Number,
) -> Result<Option<ApprovalRow>, Fault>
    ensures reads { Reads guard_tables S.Store (FindsOne guard_tables (approved_under serial)) conn.old conn.new result }

    // Whatever rows the table holds, the answer is what those with the serial say.
    ensures says { On S.Store (SaysRowUnless serial) conn.old conn.new result }
{
    found_first(alloc, conn.query_all(FIND_APPROVED, &[value_of(serial)]))
}

/// The body that was approved under this serial, or else under the next higher one that has a body. `Damaged` if its
/// row has another form.
pub(crate) fn first_approval_from<S: Alter>(
    alloc: Global,
    conn: &mut Connection<S>,
    serial: Number,
) -> Result<Option<ApprovalRow>, Fault>
    ensures reads { Reads guard_tables S.Store (FindsSuch guard_tables (λ c. IsFirstFrom serial c.approved)) conn.old conn.new result }

    // Whatever rows the table holds, the answer is what the first one from there on says.
    ensures says { On S.Store (SaysFirstUnless serial) conn.old conn.new result }
{
    found_first(alloc, conn.query_all(FROM_APPROVED, &[value_of(serial)]))
}
