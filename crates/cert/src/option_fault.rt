//! Faults of options.

use std::alloc::{AllocError, AllocFailed};
use text::NoMemory;

/// Why pairs aren't options, in the order of the tests.
#[derive(Clone, Copy, Debug, PartialEq, Eq)]
pub enum OptionFault {
    /// Hosts have no options.
    NotForHosts,
    /// The field has no option of this name.
    Unknown,
    /// An earlier pair has the same name.
    Twice,
    /// The option can't have this value.
    BadValue,
    /// An allocation was refused.
    NoMemory,
}

impl From<NoMemory> for OptionFault {
    ghost use Rattle.std.specs.Prelude.{◌≡◌};
    ghost use Rattle.cert.specs.declared.option_fault.OptionFault.TheVariants.{NoMemory};

    ghost from_gives = { λ _ e. e ≡ NoMemory };

    fn from(_e: NoMemory) -> OptionFault {
        OptionFault::NoMemory
    }
}

impl<T: Drop> From<AllocFailed<T>> for OptionFault {
    ghost use Rattle.std.specs.Prelude.{◌≡◌};
    ghost use Rattle.cert.specs.declared.option_fault.OptionFault.TheVariants.{NoMemory};

    ghost from_gives = { λ _ e. e ≡ NoMemory };

    fn from(_e: AllocFailed<T>) -> OptionFault {
        OptionFault::NoMemory
    }
}

impl From<AllocError> for OptionFault {
    ghost use Rattle.std.specs.Prelude.{◌≡◌};
    ghost use Rattle.cert.specs.declared.option_fault.OptionFault.TheVariants.{NoMemory};

    ghost from_gives = { λ _ e. e ≡ NoMemory };

    fn from(_e: AllocError) -> OptionFault {
        OptionFault::NoMemory
    }
}
