//! SHA-256 as text.

ghost use Rattle.std.specs.Prelude.{◌≡◌};
ghost use Rattle.base64.specs.Engines.{standard_no_pad};
ghost use Rattle.base64.specs.GeneralPurpose.{encode_of};
ghost use Rattle.lines.specs.Digests.{digest_text, fingerprint_text};

use crate::blob::key_blob_of;
use crate::key_line::KeyLine;
use base64::engine::general_purpose::STANDARD_NO_PAD;
use sha2::{Digest, Sha256};

/// The SHA-256 of bytes (FIPS 180-4), as 64 hexadecimal digits in lower case. It allocates nothing.
pub fn body_digest(body: &[u8]) -> [u8; 64]
    ensures { result ≡ digest_text body.now }
{
    let digest = Sha256::digest(body);
    let mut text = [0; 64];
    let Ok(()) = hex::encode_to_slice(&digest, &mut text) else {
        unreachable!();
    };
    text
}

fn unpadded_base64(digest: &[u8; 32]) -> [u8; 43]
    ensures { result ≡ encode_of standard_no_pad digest.now }
{
    let mut text = [0; 43];
    let Ok(_) = STANDARD_NO_PAD.encode_slice(digest, &mut text) else {
        unreachable!();
    };
    text
}

/// The fingerprint of a key, as ssh-keygen(1) shows it: `SHA256:`, and the SHA-256 of the key's blob as 43 characters
/// of base64 without padding. It allocates nothing.
pub fn fingerprint(line: &KeyLine) -> [u8; 50]
    ensures { result ≡ fingerprint_text line.now.key }
{
    let digest = Sha256::digest(&key_blob_of(&line.key));
    let mut text = [0; 50];
    text[..7].copy_from_slice(b"SHA256:");
    text[7..].copy_from_slice(&unpadded_base64(&digest));
    text
}
