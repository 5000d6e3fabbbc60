//! The data that a register returns about its office.

use krl::{CaPart, KrlHead};
use text::{Text, Texts};
use values::Kind;

/// A certificate that awaits its signature.
#[derive(Clone, Copy)]
pub struct Pending {
    pub serial: u64,
    /// The SHA-256 of the body (the unsigned certificate), as 64 hexadecimal digits in lower case.
    pub digest: [u8; 64],
}

/// The certificate for a serial.
#[derive(Drop)]
pub struct Issued {
    pub key_id: Text,
    /// The body with its signature (PROTOCOL.certkeys), or none if it isn't signed.
    pub certificate: Option<Text>,
}

/// The contents of the published list (the KRL).
#[derive(Drop)]
pub struct Revoked {
    /// The list's version and date.
    pub head: KrlHead,
    /// The revoked serials of each CA, by the CA's number.
    pub parts: Vec<CaPart>,
    /// The revoked key IDs, ascending.
    pub key_ids: Texts,
}

/// The status of a certificate.
#[derive(Clone, Copy, PartialEq, Eq)]
pub enum Standing {
    /// It is neither signed nor revoked.
    Pending,
    /// It is signed, and not revoked.
    Signed,
    /// Its serial or its key ID is revoked.
    Revoked,
}

/// A certificate's entry in a report.
#[derive(Drop)]
pub struct Entry {
    pub serial: u64,
    pub kind: Kind,
    pub standing: Standing,
    /// The first second of the validity, since 1970-01-01 00:00:00 UTC.
    pub after: u64,
    /// The first second after the validity.
    pub before: u64,
    pub key_id: Text,
}
