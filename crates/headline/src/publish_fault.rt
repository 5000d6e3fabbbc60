//! Why a list was not written.

use office::StoreFault;

/// Why a list was not written.
#[derive(Clone, Copy, Debug, PartialEq, Eq)]
pub enum PublishFault {
    /// The register didn't answer, or the list has a section that would be too long (`NoMemory`) or more CAs than an
    /// office may have (`Damaged`). Nothing is written.
    Store(StoreFault),
    /// The writer failed. The bytes written so far aren't a list.
    Write,
}

impl From<StoreFault> for PublishFault {
    ghost use Rattle.std.specs.Prelude.{◌≡◌};
    ghost use Rattle.headline.specs.declared.publish_fault.PublishFault.TheVariants.{Store};

    ghost from_gives = { λ fault e. e ≡ Store fault };

    fn from(fault: StoreFault) -> PublishFault {
        PublishFault::Store(fault)
    }
}
