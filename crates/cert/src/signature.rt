//! Signatures.

ghost use Rattle.std.specs.Prelude.{◌≡◌, ◌<◌, ◌^◌, List, ℕ, length, IfOk, IfSome};
ghost use Rattle.lines.specs.Keys.{signature_blob, signature_of};
ghost use Rattle.cert.specs.Certificates.{certificate_text};

use lines::{Signature, read_signature_blob, signature_blob_of};
use std::alloc::Global;
use text::NoMemory;
use wire::put_string;

/// The signature in an 83-byte signature blob (RFC 8709 section 6); `None` if the bytes aren't such a blob.
/// Allocates no memory.
pub fn read_signature(blob: &[u8]) -> Option<Signature>
    ensures found { IfSome result (λ s. (blob.now ≡ signature_blob s.bytes) × (length s.bytes ≡ 64)) }
    ensures only { (bytes : List ℕ) → length bytes ≡ 64 → blob.now ≡ signature_blob bytes
        → result ≡ Some (record { bytes = bytes }) }
{
    let Some(bytes) = read_signature_blob(blob) else {
        return None;
    };
    Some(Signature { bytes })
}

/// The certificate made from an unsigned one (body) and the CA's signature of it (PROTOCOL.certkeys).
///
/// # Errors
///
/// `NoMemory`, if an allocation was refused.
pub fn join_signature(
    alloc: Global,
    body: &[u8],
    signature: &Signature,
) -> Result<Vec<u8>, NoMemory>
    ensures text { IfOk result (λ v. v.items ≡ certificate_text body.now signature.now.bytes) }
{
    let mut out = Vec::from_slice(alloc, body)?;
    put_string(&mut out, &signature_blob_of(&signature.bytes))?;
    Ok(out)
}
