//! Why a list guard isn't opened or made.

/// Why a list guard isn't opened or made.
#[derive(Clone, Copy, Debug, PartialEq, Eq)]
pub enum OpeningFault {
    /// The database has a table with the name that a list guard needs.
    AlreadyAGuard,
    /// The table of the list is missing, or has no row; or a new list guard was to be made beside other tables.
    NotAGuard,
    /// A row has a different schema number, that of another version of this program.
    WrongSchema,
    /// A row doesn't have the table's form, or a piece of the list is missing.
    Damaged,
    /// The database failed, or is shut.
    Device,
    /// Memory was refused.
    NoMemory,
}
