//! Why a policy couldn't be read.

ghost use Rattle.std.specs.Prelude.{◌≡◌};
ghost use Rattle.guard.specs.declared.policy_fault.PolicyFault.TheVariants.{NoMemory};

/// Why a policy couldn't be read.
#[derive(Clone, Copy, Debug, PartialEq, Eq)]
pub enum PolicyFault {
    /// More than 1048576 bytes.
    TooLong,
    /// The file's line, from 1, that is invalid in the text of a department, begins a text that isn't a department's,
    /// or names a department for the second time.
    BadPolicy(u64),
    /// An allocation was refused.
    NoMemory,
}

impl From<text::NoMemory> for PolicyFault {
    ghost from_gives = { λ _ e. e ≡ NoMemory };

    fn from(_e: text::NoMemory) -> PolicyFault {
        PolicyFault::NoMemory
    }
}
