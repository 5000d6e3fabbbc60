//! The fields of a certificate.

use crate::options::Options;
use lines::KeyType;
use text::{Text, Texts};
use values::Kind;

/// The fields of an unsigned certificate, or body (PROTOCOL.certkeys).
#[derive(Drop)]
pub struct CertFields {
    /// The type of the subject's key.
    pub key_type: KeyType,
    /// The nonce, which makes two bodies differ.
    pub nonce: [u8; 32],
    /// The strings of the subject's public key, as its blob has them after the name of the type.
    pub key: Texts,
    /// 1 to 9223372036854775806.
    pub serial: u64,
    /// Whether the certificate is for a user or for a host.
    pub kind: Kind,
    /// A department's name, `/` and 1 to 64 bytes from 0x21 to 0x7e.
    pub key_id: Text,
    /// 1 to 16 distinct principals, in the given order.
    pub principals: Texts,
    /// The first second of the validity, since 1970-01-01 00:00:00 UTC.
    pub after: u64,
    /// The first second after the validity.
    pub before: u64,
    /// Critical options, ascending by name.
    pub options: Options,
    /// Extensions, ascending by name.
    pub extensions: Options,
    /// The Ed25519 public key of the CA that is to sign the body.
    pub ca: [u8; 32],
}
