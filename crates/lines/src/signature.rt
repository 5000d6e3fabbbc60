//! Signatures.

/// The 64 bytes of an Ed25519 signature (RFC 8032 section 5.1.6).
#[derive(Clone, Copy, PartialEq, Eq)]
pub struct Signature {
    /// R and S, 32 bytes each.
    pub bytes: [u8; 64],
}
