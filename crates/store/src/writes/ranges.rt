//! Adding a range of serials to the runs (the maximal ranges) of revoked ones.

ghost use Rattle.std.specs.Prelude.{◌≡◌, ◌<◌, ◌≤◌, ◌^◌, IsTrue};
ghost use Rattle.message.specs.Values.{is_range};
ghost use Rattle.store.specs.Transactions.{Does};
ghost use Rattle.store.specs.Ranges.{joined_high, joined_low, run_from, with_joined, with_range_rows};
ghost use Rattle.store.specs.Refused.{RefusesJoined, RefusesRange};

use crate::rows::number;
use message::SerialRange;
use sqlite::{Alter, Connection};
use std::alloc::Global;
use store_sql::{Fault, Number, RunRow, delete_runs, insert_run, last_run};

// The start of a range from this serial on, once merged with the last run that begins there or before.
fn joined_low(lo: u64, found: Option<RunRow>) -> Number
    requires { lo < 2 ^ 63 }
    ensures { result ≡ joined_low lo found }
{
    match found {
        Some(run) => {
            if lo <= run.hi.get() + 1 {
                run.lo
            } else {
                number(lo)
            }
        }
        None => number(lo),
    }
}

// The end of a range up to this serial, once merged with the last run that begins at most one serial after it.
fn joined_high(hi: u64, found: Option<RunRow>) -> Number
    requires { hi < 2 ^ 63 }
    ensures { result ≡ joined_high hi found }
{
    match found {
        Some(run) => number(hi.max(run.hi.get())),
        None => number(hi),
    }
}

fn replace<S: Alter>(conn: &mut Connection<S>, run: &RunRow) -> Result<(), Fault>
    ensures { Does S.Store (with_joined run.now) (RefusesJoined run.now) conn.old conn.new result }
{
    delete_runs(conn, run)?;
    insert_run(conn, run)
}

// Writes the merged run from this serial on.
fn put_from<S: Alter>(
    alloc: Global,
    conn: &mut Connection<S>,
    range: SerialRange,
    lo: Number,
) -> Result<(), Fault>
    requires { IsTrue (is_range range) }
    ensures { Does S.Store (λ c. with_joined (run_from lo range c) c) (λ c. RefusesJoined (run_from lo range c) c)
        conn.old conn.new result }
{
    let found = last_run(alloc, conn, number(range.hi + 1))?;
    let hi = joined_high(range.hi, found);
    replace(conn, &RunRow { lo, hi })
}

/// Adds a range to the runs: it and those that it touches or overlaps are merged into one. It reads two runs, however
/// many there are.
pub(crate) fn put_range<S: Alter>(
    alloc: Global,
    conn: &mut Connection<S>,
    range: SerialRange,
) -> Result<(), Fault>
    requires { IsTrue (is_range range) }
    ensures { Does S.Store (with_range_rows range) (RefusesRange range) conn.old conn.new result }
{
    let found = last_run(alloc, conn, number(range.lo))?;
    put_from(alloc, conn, range, joined_low(range.lo, found))
}
