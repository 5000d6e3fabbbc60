//! The faults of serving a request.

ghost use Rattle.std.specs.Prelude.{◌≡◌};
ghost use Rattle.web.specs.declared.serve_fault.ServeFault.TheVariants.{NoMemory};
ghost use Rattle.web.specs.Faults.{serving_fault};

use office::StoreFault;

/// Why a request wasn't served. Except for `Write`, nothing was written, and a register that meant a history still
/// means it.
#[derive(Clone, Copy, Debug, PartialEq, Eq)]
pub enum ServeFault {
    /// The reader failed.
    Read,
    /// The nonce source failed or ended.
    Nonces,
    /// The register failed, for another reason than lack of memory, or its database refused the rows of the request, or
    /// a row is damaged.
    Store,
    /// An allocation was refused.
    NoMemory,
    /// The writer failed after a prefix of the response. The request was carried out; a repeat gets the same reply.
    Write,
}

impl From<text::NoMemory> for ServeFault {
    ghost from_gives = { λ _ e. e ≡ NoMemory };

    fn from(_e: text::NoMemory) -> ServeFault {
        ServeFault::NoMemory
    }
}

impl From<StoreFault> for ServeFault {
    ghost from_gives = { λ fault e. e ≡ serving_fault fault };

    fn from(fault: StoreFault) -> ServeFault {
        match fault {
            StoreFault::NoMemory => ServeFault::NoMemory,
            _ => ServeFault::Store,
        }
    }
}
