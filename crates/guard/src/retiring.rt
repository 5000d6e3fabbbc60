//! Lowering a guard's last serial.

ghost use Rattle.std.specs.Prelude.{◌≡◌, ◌<◌, ◌^◌, IfErr, IfOk, OnErr, OnOk};
ghost use Rattle.guard.specs.Judged.{HasCause};
ghost use Rattle.guard.specs.Machine.{State};
ghost use Rattle.guard.specs.Reported.{RetirePassesOn, reported_by};
ghost use Rattle.guard.specs.Retirement.{HasRetireCause, Retires, if_retired, is_approved_over};
ghost use Rattle.guard.specs.Retirement.{retirement};
ghost use Rattle.guard.specs.Retiring.{with_last};

use crate::register::{Register, RegisterFault};
use std::alloc::Global;

/// Why a last serial isn't lowered, in the order of the tests.
#[derive(Clone, Copy, Debug, PartialEq, Eq)]
pub enum RetireFault {
    /// The register didn't answer.
    Register(RegisterFault),
    /// The serial is below the guard's first one, or above its last one.
    BadSerials,
    /// An unsigned certificate (body) is approved under a serial above this one.
    SerialApproved,
}

impl From<RegisterFault> for RetireFault {
    ghost use Rattle.guard.specs.declared.retiring.RetireFault.TheVariants.{Register};

    ghost from_gives = { λ fault e. e ≡ Register fault };

    fn from(fault: RegisterFault) -> RetireFault {
        RetireFault::Register(fault)
    }
}

/// Whether a body is approved under a serial above this one.
#[tactic(auto, using(crate::proofs::Retired::none_over))]
fn is_approved_over<R: Register>(
    alloc: Global,
    register: &mut R,
    last: u64,
) -> Result<bool, RegisterFault>
    ensures honest { R.is_honest register.new → R.is_honest register.old }
    ensures over { R.is_honest register.new → (s : State) → R.keeps register.old s
        → IfOk result (λ found. last < u64.MAX → found ≡ is_approved_over s last) }
    ensures same { R.is_honest register.new → (s : State) → R.keeps register.old s → R.keeps register.new s }
    ensures crash { R.is_honest register.new → (s : State) → R.keeps register.old s → R.leaves register.old s s
        → R.leaves register.new s s }
    ensures cause { R.is_honest register.new → (s : State) → R.keeps register.old s
        → IfErr result (λ e. HasCause e (R.has_failed register.new)) }
    ensures reported { R.reported register.new ≡ reported_by (R.reported register.old) result }
    ensures before { R.is_honest register.new → R.is_as_before register.old register.new }
{
    if last == u64::MAX {
        return Ok(false);
    }
    match register.row_from(alloc, last + 1) {
        Ok(Some(row)) => {
            drop(row);
            Ok(true)
        }
        Ok(None) => Ok(false),
        Err(fault) => Err(fault),
    }
}

/// Makes this the last serial that may be signed, for example for a CA that a new one replaces: the new CA's first
/// serial, minus 1.
///
/// # Errors
///
/// `BadSerials` or `SerialApproved`, or `Register` if the register fails or memory is refused. After any fault the
/// register keeps what it kept.
pub fn retire<R: Register>(alloc: Global, register: &mut R, last: u64) -> Result<(), RetireFault>
    ensures honest { R.is_honest register.new → R.is_honest register.old }

    // The register then keeps the retired state, or after a fault what it kept.
    ensures retired { R.is_honest register.new → (s : State) → R.keeps register.old s → s.scope.last < 2 ^ 63
        → Retires s last (R.keeps register.new) result }

    // A lowered last serial survives a crash.
    ensures durable { R.is_honest register.new → (s : State) → R.keeps register.old s → s.scope.last < 2 ^ 63
        → OnOk result (R.leaves register.new (with_last s last) (with_last s last)) }

    // A crash during the call leaves what was kept, or the retired state.
    ensures crash { R.is_honest register.new → (s : State) → R.keeps register.old s → R.leaves register.old s s
        → s.scope.last < 2 ^ 63 → R.leaves register.new s (if_retired s (retirement s last)) }

    // A register that keeps a guard is never reported as damaged, and is reported as failed only if its database has.
    ensures cause { R.is_honest register.new → (s : State) → R.keeps register.old s
        → IfErr result (HasRetireCause (R.has_failed register.new)) }

    // Whatever the register keeps, a fault that it reports is the one that is returned, and none is returned as the
    // register's that it didn't report.
    ensures reported { RetirePassesOn (R.reported register.old) (R.reported register.new) result }

    // Nor has a call that returns a fault changed anything, whatever the register keeps.
    ensures before { R.is_honest register.new → OnErr result (R.is_as_before register.old register.new) }
{
    let scope = register.scope()?;
    if last < scope.first || scope.last < last {
        return Err(RetireFault::BadSerials);
    }
    if is_approved_over(alloc, register, last)? {
        return Err(RetireFault::SerialApproved);
    }
    match register.set_last(last) {
        Ok(()) => Ok(()),
        Err(fault) => Err(RetireFault::Register(fault)),
    }
}
