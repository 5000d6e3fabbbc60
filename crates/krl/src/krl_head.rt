//! A list's version and date.

/// The version and the date of a list (OpenSSH PROTOCOL.krl).
#[derive(Clone, Copy, PartialEq, Eq)]
pub struct KrlHead {
    /// The number of the list, which increases from list to list (`krl_version`).
    pub version: u64,
    /// When the list was made, in seconds since 1970 (`generated_date`).
    pub date: u64,
}
