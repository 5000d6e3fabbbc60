//! The faults of a register.

ghost use Rattle.std.specs.Prelude.{◌≡◌};
ghost use Rattle.office.specs.declared.store_fault.StoreFault.TheVariants.{NoMemory};

/// Why a register did not answer. After a fault it means what it meant, and may be called again.
#[derive(Clone, Copy, Debug, PartialEq, Eq)]
pub enum StoreFault {
    /// The database has a table with a name that an office needs.
    AlreadyAnOffice,
    /// The database has no office.
    NotAnOffice,
    /// The office's tables have a different schema version.
    WrongSchema,
    /// A row isn't of the form that the office writes.
    Damaged,
    /// The database failed, for another reason than lack of memory.
    Device,
    /// An allocation was refused.
    NoMemory,
}

impl From<text::NoMemory> for StoreFault {
    ghost from_gives = { λ _ e. e ≡ NoMemory };

    fn from(_e: text::NoMemory) -> StoreFault {
        StoreFault::NoMemory
    }
}
