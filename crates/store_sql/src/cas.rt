//! The table of CAs.

ghost use Rattle.std.specs.Prelude.{◌≡◌, ◌∷◌, []};
ghost use Rattle.std.specs.Ordering.{nat_cmp};
ghost use Rattle.store_sql.specs.Cells.{ca_cells};
ghost use Rattle.store_sql.specs.Changes.{with_ca_row};
ghost use Rattle.store_sql.specs.Refusals.{RefusesCa};
ghost use Rattle.store_sql.specs.Statements.{ReadsSorted, WritesRows};

use crate::columns::{Columns, found};
use crate::kind::{Kind, blob_at, is_row_of, number_at};
use crate::memory::Memory;
use crate::number::Number;
use crate::sql::{EVERY_CA, INSERT_CA};
use crate::table_fault::{Fault, done};
use sqlite::types::ValueRef;
use sqlite::{Alter, Connection, Row};
use std::alloc::Global;
use text::Text;

/// A CA.
#[derive(Drop)]
pub struct CaRow {
    /// Its number, from 1 on.
    pub number: Number,
    /// Its key blob, 51 bytes.
    pub ca: Text,
    /// The first serial for which it serves.
    pub since: Number,
}

impl CaRow {
    ghost use Rattle.std.specs.Prelude.{◌<◌, ◌^◌};
    ghost use Rattle.sqlite.specs.Values.{bound};
    ghost use Rattle.store_sql.specs.Cells.{ca_cells};

    fn values(&self) -> [ValueRef<'_>; 3]
        ensures is { bound result ≡ ca_cells self.now }
        ensures low { self.now.number < 2 ^ 63 }
    {
        [
            self.number.value(),
            ValueRef::Blob(self.ca.as_slice()),
            self.since.value(),
        ]
    }
}

impl Columns for CaRow {
    ghost use Rattle.std.specs.Prelude.{◌∷◌, [], refl};
    ghost use Rattle.store_sql.specs.Kinds.{has_kinds};
    ghost use Rattle.store_sql.specs.Cells.{ca_cells, ca_kinds};

    ghost cells = { ca_cells };

    ghost is_row = { has_kinds ca_kinds };

    ghost fits = { λ _. refl };

    fn is_row(row: &Row) -> bool {
        is_row_of(row, &[Kind::Number, Kind::Blob, Kind::Number])
    }

    fn copied_from(memory: &mut Memory, row: &Row) -> CaRow {
        CaRow {
            number: number_at(row, 0),
            ca: blob_at(memory, row, 1),
            since: number_at(row, 2),
        }
    }
}

/// Inserts a CA. `Device` also if its number or its key blob is taken, or the row is too long.
pub fn insert_ca<S: Alter>(conn: &mut Connection<S>, ca: &CaRow) -> Result<(), Fault>
    ensures { WritesRows S.Store (with_ca_row ca.now) (RefusesCa ca.now) conn.old conn.new result }
{
    done(conn.execute(INSERT_CA, &ca.values()))
}

/// Each CA, by number. `Damaged` if a row has another form.
pub fn every_ca<S: Alter>(alloc: Global, conn: &mut Connection<S>) -> Result<Vec<CaRow>, Fault>
    ensures { ReadsSorted S.Store (λ c. c.cas) (λ a. a.number) nat_cmp conn.old conn.new result }
{
    found(alloc, conn.query_all(EVERY_CA, &[]))
}
