//! Exchanges applied to an office.

ghost use Rattle.std.specs.Prelude.{◌≡◌, ◌≢◌, ◌<◌, ◌+◌, ℕ, Err, IfErr, IfSome, OnOk, false, if◌then◌else◌, true};
ghost use Rattle.exchanges.specs.Exchanges.{IsBadRecord};
ghost use Rattle.exchanges.specs.Running.{is_unprinted};
ghost use Rattle.office_jobs.specs.Applying.{Applies};
ghost use Rattle.office_jobs.specs.Ending.{failures_after};
ghost use Rattle.office_jobs.specs.Faults.{IsOfATrial, run_result};
ghost use Rattle.office_jobs.specs.Trial.{AppliesPartToTrial, AppliesToTrial};
ghost use Rattle.office_jobs.specs.Opening.{HeedsRows};
ghost use Rattle.std.specs.List.{list_any};
ghost use Rattle.store_sql.specs.Look.{is_office_table};
ghost use Rattle.store_sql.specs.Honest.{Between, IsOutside, IsUnlimited, On, StaysClean, tables_of};
ghost use Rattle.store.specs.Transactions.{IsAsBefore};
ghost use Rattle.web.specs.Runs.{AskNoChange};

use crate::file_reader::read_exchanges_from;
use crate::job_fault::JobFault;
use crate::opening::open_office;
use crate::trial::trial_office;
use exchanges::{RunFault, apply_exchanges};
use headline::replay;
use office::StoreFault;
use sqlite::{Alter, Connection};
use std::alloc::Global;
use std::io::Read;
use web::Exchange;
use wire::Sink;

// The result of a batch, as that of a job.
fn of_a_run(done: Result<(), RunFault>) -> Result<(), JobFault>
    ensures value { result ≡ run_result done }
    ensures counts { (n : ℕ) → failures_after n result ≡ (if is_unprinted done then n + 1 else n) }
{
    match done {
        Ok(()) => Ok(()),
        Err(fault) => Err(JobFault::from(fault)),
    }
}

/// Runs exchanges over the office in a database, and prints what each one got.
pub fn apply_over<S: Alter, W: Sink>(
    alloc: Global,
    conn: Connection<S>,
    exchanges: &[Exchange],
    out: &mut W,
) -> (Result<(), JobFault>, Connection<S>)
    requires outside { IsOutside S.Store conn }
    requires unlimited { IsUnlimited S.Store conn }
    requires prints { W.failed out.old < u64.MAX }
    ensures applies { On S.Store (λ old new. Applies exchanges.now old new (W.taken out.old) (W.taken out.new))
        conn result.1 result.0 }
    ensures honest { StaysClean S.Store conn result.1 }

    // `Write` is the fault exactly if a call of the output failed.
    ensures failed { W.failed out.new ≡ failures_after (W.failed out.old) result.0 }

    // If no exchange is a message, the database is unchanged, whatever its tables mean.
    ensures reads { AskNoChange exchanges.now → Between S.Store IsAsBefore conn result.1 }

    // A database without an office's table is refused and left unchanged.
    ensures none { list_any is_office_table (tables_of S.Store conn) ≡ false
        → result ≡ record { 0 = Err (JobFault.Store StoreFault.NotAnOffice); 1 = conn } }

    // One with an office's table is used if its row is that of an office of this schema.
    ensures rows { On S.Store HeedsRows conn result.1 result.0 }
{
    match open_office(alloc, conn) {
        Ok(store) => {
            let mut office = store;
            let done = of_a_run(replay(&mut office, alloc, exchanges, out));
            (done, office.into_connection())
        }
        Err((fault, conn)) => (Err(JobFault::from(fault)), conn),
    }
}

/// Runs the exchanges from a file's reader over the in-memory office, and prints what each one got.
#[tactic(auto, using(crate::proofs::Causes::of_file, crate::proofs::Causes::not_run, crate::proofs::Causes::of_office))]
pub fn apply_to_trial<R: Read + Drop, W: Sink>(
    alloc: Global,
    file: R,
    out: &mut W,
) -> Result<(), JobFault>
    requires { W.failed out.old < u64.MAX }

    // Each exchange is answered, and each answer is the specified one.
    ensures ok { OnOk result (IfSome (R.remaining file) (λ text. AppliesToTrial text (W.taken out.old)
        (W.taken out.new) false)) }

    // Everything is printed, and an exchange got no response.
    ensures fault { result ≡ Err JobFault.Fault → IfSome (R.remaining file) (λ text. AppliesToTrial text
        (W.taken out.old) (W.taken out.new) true) }

    // A call of the output failed, and a beginning of it is printed. `Write` is the fault exactly in this case.
    ensures part { result ≡ Err JobFault.Write → IfSome (R.remaining file) (λ text. AppliesPartToTrial text
        (W.taken out.old) (W.taken out.new)) }
    ensures failed { W.failed out.new ≡ failures_after (W.failed out.old) result }

    // The file isn't an exchange file: this is its first bad record.
    ensures bad { (k : ℕ) → result ≡ Err (JobFault.BadExchange k)
        → IfSome (R.remaining file) (λ text. IsBadRecord text k) }

    // After any fault except `Write` and `Fault`, nothing is printed.
    ensures only { IfErr result IsOfATrial }
    ensures silent { IfErr result (λ e. e ≢ JobFault.Write → e ≢ JobFault.Fault → out.new ≡ out.old) }
{
    let exchanges = read_exchanges_from(alloc, file)?;
    let mut office = trial_office(alloc)?;
    let done = apply_exchanges(&mut office, alloc, exchanges.as_slice(), out);
    let _ = office.into_connection();
    of_a_run(done)
}
