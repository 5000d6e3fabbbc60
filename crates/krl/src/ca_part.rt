//! The revoked serials of one CA.

use crate::runs::Runs;

/// The serials that are revoked under one CA.
#[derive(Drop)]
pub struct CaPart {
    /// The 32 bytes of the CA's public key.
    pub ca: [u8; 32],
    /// The revoked serials.
    pub runs: Runs,
}
