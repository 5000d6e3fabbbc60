//! The CAs of an office.

/// The most CAs that an office may have. It has at least one.
pub const MOST_CAS: usize = 8;

/// A CA of an office. They are numbered from 1, in the order in which they were added.
#[derive(Clone, Copy, PartialEq, Eq)]
pub struct Ca {
    /// The Ed25519 public key.
    pub key: [u8; 32],
    /// The first serial that it serves.
    pub since: u64,
}
