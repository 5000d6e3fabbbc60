//! The blobs of Ed25519 keys and signatures (RFC 8709, sections 4 and 6).

ghost use Rattle.std.specs.Prelude.{◌≡◌, ◌<◌, ◌^◌, ◌++◌, List, ℕ, length, IfSome, option_copied};
ghost use Rattle.wire.specs.Texts.{string_text};
ghost use Rattle.lines.specs.Keys.{ed25519, key_blob, key_of, signature_blob, signature_of};

use wire::Cursor;

// The string after the name of the algorithm.
fn string_in(blob: &[u8]) -> Option<&[u8]>
    ensures found { IfSome result (λ b. blob.now ≡ string_text ed25519 ++ string_text b.now) }
    ensures only { (b : List ℕ) → length b < 2 ^ 32 → blob.now ≡ string_text ed25519 ++ string_text b
        → option_copied result ≡ Some b }
{
    let mut cursor = Cursor::new(blob);
    let algorithm = cursor.string()?;
    if algorithm != b"ssh-ed25519".as_slice() {
        return None;
    }
    let string = cursor.string()?;
    if !cursor.at_end() {
        return None;
    }
    Some(string)
}

/// The 32 bytes of the public key in a key blob, or `None` if the bytes aren't such a blob.
pub fn read_key_blob(blob: &[u8]) -> Option<[u8; 32]>
    ensures value { result ≡ key_of blob.now }
    ensures found { IfSome result (λ key. blob.now ≡ key_blob key) }
    ensures only { (key : List ℕ) → length key ≡ 32 → blob.now ≡ key_blob key → result ≡ Some key }
{
    <[u8; 32]>::try_from(string_in(blob)?).ok()
}

/// The 64 bytes of the signature in a signature blob, or `None` if the bytes aren't such a blob.
pub fn read_signature_blob(blob: &[u8]) -> Option<[u8; 64]>
    ensures value { result ≡ signature_of blob.now }
    ensures found { IfSome result (λ signature. blob.now ≡ signature_blob signature) }
    ensures only { (signature : List ℕ) → length signature ≡ 64 → blob.now ≡ signature_blob signature
        → result ≡ Some signature }
{
    <[u8; 64]>::try_from(string_in(blob)?).ok()
}

/// The 51 bytes of the blob of a public key.
pub fn key_blob_of(key: &[u8; 32]) -> [u8; 51]
    ensures { result ≡ key_blob key.now }
{
    let mut blob = [0; 51];
    blob[..19].copy_from_slice(b"\x00\x00\x00\x0bssh-ed25519\x00\x00\x00\x20");
    blob[19..].copy_from_slice(key);
    blob
}

/// The 83 bytes of the blob of a signature.
pub fn signature_blob_of(signature: &[u8; 64]) -> [u8; 83]
    ensures { result ≡ signature_blob signature.now }
{
    let mut blob = [0; 83];
    blob[..19].copy_from_slice(b"\x00\x00\x00\x0bssh-ed25519\x00\x00\x00\x40");
    blob[19..].copy_from_slice(signature);
    blob
}
