//! What keeps a list guard.

ghost use Rattle.std.specs.Prelude.{◌≡◌, IfErr, List, OnErr, OnOk, option_copied, ℕ};
ghost use Rattle.list_guard.specs.State.{IsLawful, State, with_last};
ghost use Rattle.list_guard.specs.Judged.{HasCause, IsKeepable};
ghost use Rattle.list_guard.specs.Reported.{LastFault, reported_by};

use text::Text;

/// Why a register didn't answer. What it keeps is unchanged.
#[derive(Clone, Copy, Debug, PartialEq, Eq)]
pub enum RegisterFault {
    /// The database failed or is shut, or the list doesn't fit.
    Device,
    /// The kept list isn't a published list, so the register is damaged.
    Damaged,
    /// Memory was refused.
    NoMemory,
}

/// The largest size of a list in bytes for which every register has room.
pub const LONGEST_LIST: u64 = 268435456;

/// Stores a list guard's state: in a database table, or in memory.
///
/// The clauses of a call assume that the register is honest when the call ends, and so was before it: honesty is never
/// regained. A register that keeps a published list never reports damage, and it reports `Device` only if its database
/// has failed, or the list has more than `LONGEST_LIST` bytes. After a call has returned, a crash leaves what the
/// register keeps. A crash in the middle of a call leaves that, or the state that the call leads to. What is said of the
/// fault that was reported last assumes nothing.
pub trait ListRegister {
    /// The disk has been faithful so far.
    ghost is_honest: { Self → Type 0 };

    /// The register has this state.
    ghost keeps: { Self → State → Type 0 };

    /// After a crash now, the register has one of these two states.
    ghost leaves: { Self → State → State → Type 0 };

    /// The database has failed, or is shut.
    ghost has_failed: { Self → Type 0 };

    /// The fault that a call has reported last.
    ghost reported: { Self → LastFault };

    /// If a crash leaves one state, it leaves that one or any other.
    ghost widens: { (g : Self) (s t : State) → leaves g s s → leaves g s t };

    /// The bytes of the list that was approved last, if there is one.
    fn last(&self) -> Option<&[u8]>
        ensures { is_honest self.now → (s : State) → keeps self.now s → option_copied result ≡ s.last };

    /// Keeps a list as the one that was approved last. After a fault the register keeps what it kept before.
    fn keep(&mut self, list: Text) -> Result<(), RegisterFault>
        ensures honest { is_honest self.new → is_honest self.old }
        ensures kept { is_honest self.new → (s : State) → keeps self.old s
            → OnOk result (keeps self.new (with_last list)) }
        ensures fault { is_honest self.new → (s : State) → keeps self.old s → OnErr result (keeps self.new s) }
        ensures durable { is_honest self.new → (s : State) → keeps self.old s
            → OnOk result (leaves self.new (with_last list) (with_last list)) }
        ensures crash { is_honest self.new → (s : State) → keeps self.old s → leaves self.old s s
            → leaves self.new s (with_last list) }
        ensures cause { is_honest self.new → (s : State) → keeps self.old s → IsLawful s → IsKeepable list
            → IfErr result (λ e. HasCause e (has_failed self.new)) }
        ensures reported { reported self.new ≡ reported_by (reported self.old) result };
}

impl From<text::NoMemory> for RegisterFault {
    ghost use Rattle.list_guard.specs.declared.register.RegisterFault.TheVariants.{NoMemory};

    ghost from_gives = { λ _ e. e ≡ NoMemory };

    fn from(_e: text::NoMemory) -> RegisterFault {
        RegisterFault::NoMemory
    }
}
