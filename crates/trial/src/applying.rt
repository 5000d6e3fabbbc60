//! Applying exchanges to the in-memory office.

ghost use Rattle.std.specs.Prelude.{◌≡◌, ◌<◌, ℕ, Err, IfSome, OnOk, false, true};
ghost use Rattle.exchanges.specs.Exchanges.{IsBadRecord};
ghost use Rattle.trial.specs.Faults.{run_result};
ghost use Rattle.trial.specs.Trial.{AppliesToTrial};

use crate::reading::read_exchanges_from;
use crate::trial_fault::TrialFault;
use crate::trial_office::trial_office;
use exchanges::{RunFault, apply_exchanges};
use std::alloc::Global;
use std::io::Read;
use wire::Sink;

// The result of a batch, as that of the program.
fn of_a_run(done: Result<(), RunFault>) -> Result<(), TrialFault>
    ensures { result ≡ run_result done }
{
    match done {
        Ok(()) => Ok(()),
        Err(fault) => Err(TrialFault::from(fault)),
    }
}

/// Runs the exchanges from a file's reader over the in-memory office, and prints what each one got.
#[tactic(auto, using(crate::proofs::Causes::not_run, crate::proofs::Causes::no_fault, crate::proofs::Causes::no_record))]
pub(crate) fn apply_to_trial<R: Read + Drop, W: Sink>(
    alloc: Global,
    file: R,
    out: &mut W,
) -> Result<(), TrialFault>
    requires { W.failed out.old < u64.MAX }

    // Each exchange is answered, and each answer is the specified one.
    ensures ok { OnOk result (IfSome (R.remaining file) (λ text. AppliesToTrial text (W.taken out.old)
        (W.taken out.new) false)) }

    // Everything is printed, and an exchange got no response.
    ensures fault { result ≡ Err TrialFault.Fault → IfSome (R.remaining file) (λ text. AppliesToTrial text
        (W.taken out.old) (W.taken out.new) true) }

    // The file isn't an exchange file: this is its first bad record. Nothing is printed.
    ensures bad { (k : ℕ) → result ≡ Err (TrialFault.BadExchange k)
        → IfSome (R.remaining file) (λ text. IsBadRecord text k) × (out.new ≡ out.old) }
{
    let exchanges = read_exchanges_from(alloc, file)?;
    let mut office = trial_office(alloc)?;
    let done = apply_exchanges(&mut office, alloc, exchanges.as_slice(), out);
    drop(office);
    of_a_run(done)
}
