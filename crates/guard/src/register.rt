//! Registers, which store a guard.

ghost use Rattle.std.specs.Prelude.{◌≡◌, All, IfErr, IfOk, OnOk, OnErr};
ghost use Rattle.guard.specs.Machine.{State, body_of, with_rows};
ghost use Rattle.guard.specs.Judged.{AreNew, HasCause, IsKeepable};
ghost use Rattle.guard.specs.Reported.{LastFault, reported_by};
ghost use Rattle.guard.specs.Retiring.{IsLowered, IsRowFrom, with_last};

use crate::approved::Approved;
use crate::scope::Scope;
use std::alloc::Global;
use text::Text;

/// Why a register didn't answer. Whatever it keeps is unchanged.
#[derive(Clone, Copy, Debug, PartialEq, Eq)]
pub enum RegisterFault {
    /// The database failed, or is shut, or has no room for a row.
    Device,
    /// The stored tables aren't those of a guard: they are damaged.
    Damaged,
    /// An allocation was refused.
    NoMemory,
}

/// Stores a guard's state: tables in a file, or a list in memory.
///
/// Each call's clauses apply only if the register is still honest after the call: its disk has been faithful so far.
/// A register that keeps a state reports no damage, and `Device` only if its database has failed. After a call
/// that succeeded, a crash leaves what is kept; a crash during a call leaves what was kept, or what the call leads to.
/// What is said of the fault that was reported last holds for any register, also for one that keeps no state. So does
/// that a call that reads, and one that fails, leaves the register as it was before.
pub trait Register {
    /// So far every answer of the disk was correct.
    ghost is_honest: { Self → Type 0 };

    /// The register's content is this state.
    ghost keeps: { Self → State → Type 0 };

    /// A crash now leaves one of the two states.
    ghost leaves: { Self → State → State → Type 0 };

    /// The database has failed, or is shut.
    ghost has_failed: { Self → Type 0 };

    /// The fault that a call has reported last.
    ghost reported: { Self → LastFault };

    /// The register is as it was before, whatever it keeps. A failed disk may have shut it meanwhile.
    ghost is_as_before: { Self → Self → Type 0 };

    /// The CA and the serials that the guard answers for.
    fn scope(&mut self) -> Result<Scope, RegisterFault>
        ensures honest { is_honest self.new → is_honest self.old }
        ensures row { is_honest self.new → (s : State) → keeps self.old s → IfOk result (λ scope. scope ≡ s.scope) }
        ensures same { is_honest self.new → (s : State) → keeps self.old s → keeps self.new s }
        ensures crash { is_honest self.new → (s : State) → keeps self.old s → leaves self.old s s
            → leaves self.new s s }
        ensures cause { is_honest self.new → (s : State) → keeps self.old s
            → IfErr result (λ e. HasCause e (has_failed self.new)) }
        ensures reported { reported self.new ≡ reported_by (reported self.old) result }
        ensures before { is_honest self.new → is_as_before self.old self.new };

    /// The body that was approved under a serial.
    fn body_of(&mut self, alloc: Global, serial: u64) -> Result<Option<Text>, RegisterFault>
        ensures honest { is_honest self.new → is_honest self.old }
        ensures row { is_honest self.new → (s : State) → keeps self.old s → IfOk result (λ b. b ≡ body_of s serial) }
        ensures same { is_honest self.new → (s : State) → keeps self.old s → keeps self.new s }
        ensures crash { is_honest self.new → (s : State) → keeps self.old s → leaves self.old s s
            → leaves self.new s s }
        ensures cause { is_honest self.new → (s : State) → keeps self.old s
            → IfErr result (λ e. HasCause e (has_failed self.new)) }
        ensures reported { reported self.new ≡ reported_by (reported self.old) result }
        ensures before { is_honest self.new → is_as_before self.old self.new };

    /// The row with the lowest serial that is at least this one.
    fn row_from(&mut self, alloc: Global, serial: u64) -> Result<Option<Approved>, RegisterFault>
        ensures honest { is_honest self.new → is_honest self.old }
        ensures row { is_honest self.new → (s : State) → keeps self.old s → IfOk result (IsRowFrom s serial) }
        ensures same { is_honest self.new → (s : State) → keeps self.old s → keeps self.new s }
        ensures crash { is_honest self.new → (s : State) → keeps self.old s → leaves self.old s s
            → leaves self.new s s }
        ensures cause { is_honest self.new → (s : State) → keeps self.old s
            → IfErr result (λ e. HasCause e (has_failed self.new)) }
        ensures reported { reported self.new ≡ reported_by (reported self.old) result }
        ensures before { is_honest self.new → is_as_before self.old self.new };

    /// Keeps bodies under serials that have none, all of them or none. After a fault the register keeps what it kept.
    fn keep(&mut self, rows: Vec<Approved>) -> Result<(), RegisterFault>
        ensures honest { is_honest self.new → is_honest self.old }
        ensures kept { is_honest self.new → (s : State) → keeps self.old s → AreNew s rows.items
            → OnOk result (keeps self.new (with_rows s rows.items)) }
        ensures fault { is_honest self.new → (s : State) → keeps self.old s → OnErr result (keeps self.new s) }
        ensures durable { is_honest self.new → (s : State) → keeps self.old s → AreNew s rows.items
            → OnOk result (leaves self.new (with_rows s rows.items) (with_rows s rows.items)) }
        ensures crash { is_honest self.new → (s : State) → keeps self.old s → leaves self.old s s
            → AreNew s rows.items → leaves self.new s (with_rows s rows.items) }
        ensures cause { is_honest self.new → (s : State) → keeps self.old s → AreNew s rows.items
            → All IsKeepable rows.items → IfErr result (λ e. HasCause e (has_failed self.new)) }
        ensures reported { reported self.new ≡ reported_by (reported self.old) result }
        ensures before { is_honest self.new → OnErr result (is_as_before self.old self.new) };

    /// Makes this the last serial that may be signed, if that lowers it. After a fault the register keeps what it
    /// kept.
    fn set_last(&mut self, last: u64) -> Result<(), RegisterFault>
        ensures honest { is_honest self.new → is_honest self.old }
        ensures kept { is_honest self.new → (s : State) → keeps self.old s → IsLowered s last
            → OnOk result (keeps self.new (with_last s last)) }
        ensures fault { is_honest self.new → (s : State) → keeps self.old s → OnErr result (keeps self.new s) }
        ensures durable { is_honest self.new → (s : State) → keeps self.old s → IsLowered s last
            → OnOk result (leaves self.new (with_last s last) (with_last s last)) }
        ensures crash { is_honest self.new → (s : State) → keeps self.old s → leaves self.old s s → IsLowered s last
            → leaves self.new s (with_last s last) }
        ensures cause { is_honest self.new → (s : State) → keeps self.old s → IsLowered s last
            → IfErr result (λ e. HasCause e (has_failed self.new)) }
        ensures reported { reported self.new ≡ reported_by (reported self.old) result }
        ensures before { is_honest self.new → OnErr result (is_as_before self.old self.new) };

    /// If a crash leaves `s`, then it leaves `s` or `t`.
    ghost widens: { (g : Self) (s t : State) → leaves g s s → leaves g s t };

    /// Without a call, a register is as it was before.
    ghost unasked: { (g : Self) → is_as_before g g };

    /// Two calls that leave a register as it was, one after the other.
    ghost through: { (a b c : Self) → is_as_before a b → is_as_before b c → is_as_before a c };
}

impl From<text::NoMemory> for RegisterFault {
    ghost use Rattle.guard.specs.declared.register.RegisterFault.TheVariants.{NoMemory};

    ghost from_gives = { λ _ e. e ≡ NoMemory };

    fn from(_e: text::NoMemory) -> RegisterFault {
        RegisterFault::NoMemory
    }
}
