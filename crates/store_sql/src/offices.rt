//! The `office` table.

ghost use Rattle.std.specs.Prelude.{◌≡◌, ◌∷◌, []};
ghost use Rattle.std.specs.Ordering.{nat_cmp};
ghost use Rattle.sqlite.specs.Effect.{Database};
ghost use Rattle.store_sql.specs.Cells.{office_cells, counter_cells};
ghost use Rattle.store_sql.specs.Changes.{with_office, with_counters, with_schema};
ghost use Rattle.store_sql.specs.Contents.{Contents, HasOffices, Means, MeansWithoutCa};
ghost use Rattle.store_sql.specs.Refusals.{RefusesCounters, RefusesNumber, RefusesOffice};
ghost use Rattle.store_sql.specs.Statements.{ReadsSortedIn, WritesRows};

use crate::columns::{Columns, found};
use crate::kind::{Kind, blob_at, is_row_of, number_at, text_at};
use crate::memory::Memory;
use crate::number::Number;
use crate::sql::{COUNT_OFFICE, EVERY_OFFICE, INSERT_OFFICE, NUMBER_OFFICE};
use crate::table_fault::{Fault, done};
use sqlite::types::ValueRef;
use sqlite::{Alter, Connection, Row};
use std::alloc::Global;
use text::Text;

/// The one row of an office.
#[derive(Drop)]
pub struct OfficeRow {
    /// 1 in every office.
    pub id: Number,
    /// The schema number.
    pub schema: Number,
    /// The key blob of the first CA, 51 bytes.
    pub ca: Text,
    /// The name of the caller who may send everything but signatures.
    pub root: Text,
    /// The name of the signing station.
    pub station: Text,
    /// The first serial.
    pub first: Number,
    /// The last serial.
    pub last: Number,
    /// The next serial to be issued, at most one above the last.
    pub next: Number,
    /// The version of the KRL.
    pub version: Number,
    /// The time of its last change, in seconds since 1970.
    pub date: Number,
}

/// The numbers that change while the office works.
#[derive(Clone, Copy)]
pub struct Counters {
    /// The next serial to be issued.
    pub next: Number,
    /// The version of the KRL.
    pub version: Number,
    /// The time of its last change, in seconds since 1970-01-01 00:00:00 UTC.
    pub date: Number,
}

impl Counters {
    ghost use Rattle.sqlite.specs.Values.{bound};
    ghost use Rattle.store_sql.specs.Cells.{counter_cells};

    fn values(&self) -> [ValueRef<'_>; 3]
        ensures { bound result ≡ counter_cells self.now }
    {
        [self.next.value(), self.version.value(), self.date.value()]
    }
}

impl OfficeRow {
    ghost use Rattle.std.specs.Prelude.{◌<◌, ◌^◌};
    ghost use Rattle.sqlite.specs.Values.{bound};
    ghost use Rattle.store_sql.specs.Cells.{office_cells};

    fn values(&self) -> [ValueRef<'_>; 10]
        ensures is { bound result ≡ office_cells self.now }
        ensures low { self.now.id < 2 ^ 63 }
    {
        [
            self.id.value(),
            self.schema.value(),
            ValueRef::Blob(self.ca.as_slice()),
            ValueRef::Text(self.root.as_slice()),
            ValueRef::Text(self.station.as_slice()),
            self.first.value(),
            self.last.value(),
            self.next.value(),
            self.version.value(),
            self.date.value(),
        ]
    }
}

impl Columns for OfficeRow {
    ghost use Rattle.std.specs.Prelude.{◌∷◌, [], refl};
    ghost use Rattle.store_sql.specs.Kinds.{has_kinds};
    ghost use Rattle.store_sql.specs.Cells.{office_cells, office_kinds};

    ghost cells = { office_cells };

    ghost is_row = { has_kinds office_kinds };

    ghost fits = { λ _. refl };

    fn is_row(row: &Row) -> bool {
        is_row_of(
            row,
            &[
                Kind::Number,
                Kind::Number,
                Kind::Blob,
                Kind::Text,
                Kind::Text,
                Kind::Number,
                Kind::Number,
                Kind::Number,
                Kind::Number,
                Kind::Number,
            ],
        )
    }

    fn copied_from(memory: &mut Memory, row: &Row) -> OfficeRow {
        OfficeRow {
            id: number_at(row, 0),
            schema: number_at(row, 1),
            ca: blob_at(memory, row, 2),
            root: text_at(memory, row, 3),
            station: text_at(memory, row, 4),
            first: number_at(row, 5),
            last: number_at(row, 6),
            next: number_at(row, 7),
            version: number_at(row, 8),
            date: number_at(row, 9),
        }
    }
}

/// Inserts the row of an office. `Device` also if its id is taken, or the row is too long.
pub fn insert_office<S: Alter>(conn: &mut Connection<S>, office: &OfficeRow) -> Result<(), Fault>
    ensures { WritesRows S.Store (with_office office.now) (RefusesOffice office.now) conn.old conn.new result }
{
    done(conn.execute(INSERT_OFFICE, &office.values()))
}

/// Each row of the `office` table, by id. An office has only one. `Damaged` if a row has another form.
pub fn every_office<S: Alter>(
    alloc: Global,
    conn: &mut Connection<S>,
) -> Result<Vec<OfficeRow>, Fault>
    // This holds for any tables of which the office's is the first.
    ensures { ReadsSortedIn S.Store HasOffices (λ rows. rows) (λ o. o.id) nat_cmp conn.old conn.new result }
{
    found(alloc, conn.query_all(EVERY_OFFICE, &[]))
}

/// The `office` table is the first of the tables of schema 1, and of those of schema 2.
pub fn the_office_is_first()
    ensures former { (db : Database) (c : Contents) → MeansWithoutCa db c → HasOffices c.offices db }
    ensures present { (db : Database) (c : Contents) → Means db c → HasOffices c.offices db }
{}

/// Updates the office's counters, in the row with id 1, if there is one. `Device` also if the row then is too long.
pub fn update_office<S: Alter>(conn: &mut Connection<S>, counters: &Counters) -> Result<(), Fault>
    ensures { WritesRows S.Store (with_counters counters.now) (RefusesCounters counters.now) conn.old conn.new result }
{
    done(conn.execute(COUNT_OFFICE, &counters.values()))
}

/// Sets the office's schema number, in the row with id 1, if there is one. `Device` also if the row then is too long.
pub fn update_schema<S: Alter>(conn: &mut Connection<S>, schema: Number) -> Result<(), Fault>
    ensures { WritesRows S.Store (with_schema schema) (RefusesNumber schema) conn.old conn.new result }
{
    done(conn.execute(NUMBER_OFFICE, &[schema.value()]))
}
