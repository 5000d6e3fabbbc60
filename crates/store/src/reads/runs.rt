//! The runs (maximal ranges) of revoked serials.

ghost use Rattle.std.specs.Prelude.{◌≡◌, ◌↔◌, ◌<◌, ◌≤◌, ◌^◌, All, IfOk, IsTrue};
ghost use Rattle.krl.specs.Sets.{HasAll};
ghost use Rattle.store.specs.ShowingRows.{AsksRows};
ghost use Rattle.store.specs.Histories.{IsOfHistory};
ghost use Rattle.store.specs.RunRows.{AreRead, AreRevokedRuns, reaches, run_of, runs_of};

use crate::rows::number;
use krl::{Run, Runs};
use sqlite::{Alter, Connection};
use std::alloc::Global;
use store_sql::{Fault, RunRow, every_run, last_run};
use text::NoMemory;

fn run_of(row: &RunRow) -> Run
    ensures value { result ≡ run_of row.now }
    ensures small { result.hi < 2 ^ 63 }
{
    Run {
        lo: row.lo.get(),
        hi: row.hi.get(),
    }
}

fn runs_of(alloc: Global, rows: &[RunRow]) -> Result<Vec<Run>, NoMemory>
    ensures runs { IfOk result (λ runs. runs.items ≡ runs_of rows.now) }
    ensures small { IfOk result (λ runs. All (λ r. r.hi < 2 ^ 63) runs.items) }
{
    let mut runs = Vec::with_capacity(alloc, rows.len())?;
    for row in rows {
        runs.push(run_of(row))?;
    }
    Ok(runs)
}

fn read_runs(alloc: Global, rows: &[RunRow]) -> Result<Runs, Fault>
    ensures { AreRead rows.now result }
{
    let Ok(runs) = runs_of(alloc, rows) else {
        return Err(Fault::NoMemory);
    };
    match Runs::from_runs(runs) {
        Some(runs) => Ok(runs),
        None => Err(Fault::Damaged),
    }
}

/// The maximal runs of the revoked serials. `Damaged` if the rows aren't such runs.
pub fn revoked_runs<S: Alter>(alloc: Global, conn: &mut Connection<S>) -> Result<Runs, Fault>
    ensures { AsksRows S.Store (λ s kept runs. AreRevokedRuns runs s kept) conn.old conn.new result }
{
    let rows = every_run(alloc, conn)?;
    read_runs(alloc, rows.as_slice())
}

fn reaches(found: Option<RunRow>, hi: u64) -> bool
    ensures { result ≡ reaches found hi }
{
    match found {
        Some(run) => hi <= run.hi.get(),
        None => false,
    }
}

/// Whether every serial from `lo` to `hi`, both included and `lo` not above `hi`, is revoked. It reads one run: the
/// last one that begins at or before `lo`.
pub fn are_revoked<S: Alter>(
    alloc: Global,
    conn: &mut Connection<S>,
    lo: u64,
    hi: u64,
) -> Result<bool, Fault>
    requires order { lo ≤ hi }
    requires high { hi < 2 ^ 63 }
    ensures { AsksRows S.Store (λ s kept are. IsOfHistory s kept → (IsTrue are ↔ HasAll s.revoked lo hi))
        conn.old conn.new result }
{
    let found = last_run(alloc, conn, number(lo))?;
    Ok(reaches(found, hi))
}
