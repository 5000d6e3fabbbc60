//! Exchanges run over an office.

ghost use Rattle.std.specs.Prelude.{◌≡◌, ◌<◌, ◌+◌, Err, IfErr, OnOk, false, if◌then◌else◌, true};
ghost use Rattle.std.specs.Io.KnownBytes.{Appends};
ghost use Rattle.wire.specs.Streams.{AppendsBeginning};
ghost use Rattle.office.specs.Registers.{FailuresPersist};
ghost use Rattle.web.specs.Answers.{Keeps};
ghost use Rattle.web.specs.Runs.{AskNoChange};
ghost use Rattle.exchanges.specs.Printing.{Prints, PrintsBeginning, all_given_text, has_fault};
ghost use Rattle.exchanges.specs.Running.{IsOfPrinting, is_unprinted};

use crate::printing::{has_fault, print_given};
use office::Registry;
use std::alloc::Global;
use text::NoMemory;
use web::{Exchange, Given, run};
use wire::Sink;

/// Why a batch of exchanges was not run, or not printed without a fault.
#[derive(Clone, Copy, Debug, PartialEq, Eq)]
pub enum RunFault {
    /// An allocation failed, and nothing was run.
    NoMemory,
    /// All exchanges were run, and a call of the output failed.
    Write,
    /// Everything is printed, and an exchange got no response.
    Fault,
}

impl From<NoMemory> for RunFault {
    ghost use Rattle.std.specs.Prelude.{◌≡◌};
    ghost use Rattle.exchanges.specs.declared.running.RunFault.TheVariants.{NoMemory};

    ghost from_gives = { λ _ e. e ≡ NoMemory };

    fn from(_e: NoMemory) -> RunFault {
        RunFault::NoMemory
    }
}

/// Prints what the exchanges got, in full even if some got a fault.
///
/// # Errors
///
/// `Write` exactly if a call of the output failed, and `Fault` if everything is printed and an exchange got a fault.
pub fn print_all<W: Sink>(out: &mut W, given: &[Given]) -> Result<(), RunFault>
    requires { W.failed out.old < u64.MAX }
    ensures ok { OnOk result (Appends (W.taken out.old) (W.taken out.new) (all_given_text given.now)) }
    ensures whole { OnOk result (has_fault given.now ≡ false) }
    ensures fault { result ≡ Err RunFault.Fault
        → Appends (W.taken out.old) (W.taken out.new) (all_given_text given.now) }
    ensures faulty { result ≡ Err RunFault.Fault → has_fault given.now ≡ true }
    ensures write { result ≡ Err RunFault.Write
        → AppendsBeginning (W.taken out.old) (W.taken out.new) (all_given_text given.now) }
    ensures failed { W.failed out.new ≡ (if is_unprinted result then W.failed out.old + 1 else W.failed out.old) }
    ensures only { IfErr result IsOfPrinting }
{
    if print_given(out, given).is_err() {
        return Err(RunFault::Write);
    }
    if has_fault(given) {
        return Err(RunFault::Fault);
    }
    Ok(())
}

/// Runs the exchanges and prints what each one got, in full even if some got a fault.
///
/// # Errors
///
/// `NoMemory` if nothing was run, `Write` if all exchanges were run and a call of the output failed, and `Fault` if
/// everything is printed and an exchange got a fault.
pub fn apply_exchanges<R: Registry, W: Sink>(
    registry: &mut R,
    alloc: Global,
    exchanges: &[Exchange],
    out: &mut W,
) -> Result<(), RunFault>
    requires { W.failed out.old < u64.MAX }
    ensures failures { FailuresPersist R.is_honest R.is_open registry.old registry.new }
    ensures ok { R.is_honest registry.new → OnOk result (Prints (R.means registry.old) (R.means registry.new)
        (Keeps R.means R.is_open registry.new) (R.is_open registry.new → R.is_as_before registry.old registry.new)
        exchanges.now (W.taken out.old) (W.taken out.new) false) }
    ensures fault { R.is_honest registry.new → result ≡ Err RunFault.Fault
        → Prints (R.means registry.old) (R.means registry.new)
        (Keeps R.means R.is_open registry.new) (R.is_open registry.new → R.is_as_before registry.old registry.new)
        exchanges.now (W.taken out.old) (W.taken out.new) true }

    // All exchanges were run, and a beginning of what is due for them is printed. The fault is returned exactly if a
    // call of the output failed.
    ensures write { R.is_honest registry.new → result ≡ Err RunFault.Write
        → PrintsBeginning (R.means registry.old) (R.means registry.new)
        (Keeps R.means R.is_open registry.new) (R.is_open registry.new → R.is_as_before registry.old registry.new)
        exchanges.now (W.taken out.old) (W.taken out.new) }
    ensures failed { W.failed out.new ≡ (if is_unprinted result then W.failed out.old + 1 else W.failed out.old) }

    // Nothing was run, and nothing is printed.
    ensures unrun { result ≡ Err RunFault.NoMemory → registry.new ≡ registry.old }
    ensures unprinted { result ≡ Err RunFault.NoMemory → out.new ≡ out.old }

    // If none is a message, the register keeps exactly what it kept before, whatever that means.
    ensures reads { R.is_honest registry.new → R.is_open registry.new → AskNoChange exchanges.now
        → R.is_as_before registry.old registry.new }
{
    let given = run(registry, alloc, exchanges)?;
    print_all(out, given.as_slice())
}
