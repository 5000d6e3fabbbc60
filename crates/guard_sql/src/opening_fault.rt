//! Why a guard isn't opened or made.

/// Why a guard isn't opened or made.
#[derive(Clone, Copy, Debug, PartialEq, Eq)]
pub enum OpeningFault {
    /// The database has a table with a name that a guard needs.
    AlreadyAGuard,
    /// The guard's own table is missing, or has no row or several; or a new guard was to be made beside other tables.
    NotAGuard,
    /// The tables are those of another version.
    WrongSchema,
    /// The row of the guard has no valid scope, or isn't of the form of its table.
    Damaged,
    /// The database failed, or is shut.
    Device,
    /// Memory was refused.
    NoMemory,
}
