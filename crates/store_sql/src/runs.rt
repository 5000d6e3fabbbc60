//! The table of runs (maximal ranges) of revoked serials.

ghost use Rattle.std.specs.Prelude.{◌≡◌, ◌∷◌, []};
ghost use Rattle.std.specs.Ordering.{nat_cmp};
ghost use Rattle.store_sql.specs.Cells.{run_cells};
ghost use Rattle.store_sql.specs.Changes.{with_run};
ghost use Rattle.store_sql.specs.Runs.{FindsIts, last_run, without_runs};
ghost use Rattle.store_sql.specs.Refusals.{RefusesRun};
ghost use Rattle.store_sql.specs.Statements.{Deletes, Reads, ReadsSorted, WritesRows};

use crate::columns::{Columns, found, found_first};
use crate::kind::{Kind, is_row_of, number_at};
use crate::memory::Memory;
use crate::number::Number;
use crate::sql::{DELETE_RUNS, EVERY_RUN, INSERT_RUN, LAST_RUN};
use crate::table_fault::{Fault, done};
use sqlite::types::ValueRef;
use sqlite::{Alter, Connection, Row};
use std::alloc::Global;

/// A run of revoked serials: a range that can't be made longer. Both ends are included.
#[derive(Clone, Copy)]
pub struct RunRow {
    pub lo: Number,
    pub hi: Number,
}

impl RunRow {
    ghost use Rattle.std.specs.Prelude.{◌<◌, ◌^◌};
    ghost use Rattle.sqlite.specs.Values.{bound};
    ghost use Rattle.store_sql.specs.Cells.{run_cells};

    fn values(&self) -> [ValueRef<'_>; 2]
        ensures is { bound result ≡ run_cells self.now }
        ensures low { self.now.lo < 2 ^ 63 }
    {
        [self.lo.value(), self.hi.value()]
    }
}

impl Columns for RunRow {
    ghost use Rattle.std.specs.Prelude.{◌∷◌, [], refl};
    ghost use Rattle.store_sql.specs.Kinds.{has_kinds};
    ghost use Rattle.store_sql.specs.Cells.{run_cells, run_kinds};

    ghost cells = { run_cells };

    ghost is_row = { has_kinds run_kinds };

    ghost fits = { λ _. refl };

    fn is_row(row: &Row) -> bool {
        is_row_of(row, &[Kind::Number, Kind::Number])
    }

    fn copied_from(_memory: &mut Memory, row: &Row) -> RunRow {
        RunRow {
            lo: number_at(row, 0),
            hi: number_at(row, 1),
        }
    }
}

/// Inserts a run. `Device` also if another one begins with its first serial.
pub fn insert_run<S: Alter>(conn: &mut Connection<S>, run: &RunRow) -> Result<(), Fault>
    ensures { WritesRows S.Store (with_run run.now) (RefusesRun run.now) conn.old conn.new result }
{
    done(conn.execute(INSERT_RUN, &run.values()))
}

/// Each run, ascending. `Damaged` if a row has another form.
pub fn every_run<S: Alter>(alloc: Global, conn: &mut Connection<S>) -> Result<Vec<RunRow>, Fault>
    ensures { ReadsSorted S.Store (λ c. c.runs) (λ r. r.lo) nat_cmp conn.old conn.new result }
{
    found(alloc, conn.query_all(EVERY_RUN, &[]))
}

/// The last of the runs that begin at or before this serial, if there is one. `Damaged` if its row has another form. It
/// reads only that row.
pub fn last_run<S: Alter>(
    alloc: Global,
    conn: &mut Connection<S>,
    serial: Number,
) -> Result<Option<RunRow>, Fault>
    ensures { Reads S.Store (FindsIts (last_run serial)) conn.old conn.new result }
{
    found_first(alloc, conn.query_all(LAST_RUN, &[serial.value()]))
}

/// Deletes the runs that begin between these ends, both included. The tables never refuse that.
pub fn delete_runs<S: Alter>(conn: &mut Connection<S>, ends: &RunRow) -> Result<(), Fault>
    ensures { Deletes S.Store (without_runs ends.now) conn.old conn.new result }
{
    done(conn.execute(DELETE_RUNS, &ends.values()))
}
