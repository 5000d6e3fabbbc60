//! Writing certificate lines.

ghost use Rattle.std.specs.Prelude.{◌≡◌, ◌++◌, ◌∷◌, IfOk, OnOk};
ghost use Rattle.base64.specs.Engines.{standard};
ghost use Rattle.base64.specs.GeneralPurpose.{encode_of};
ghost use Rattle.lines.specs.CertLines.{certificate_line_text, own_name};

use base64::engine::general_purpose::STANDARD;
use std::alloc::Global;
use text::NoMemory;
use wire::Cursor;

// The name of the certificate's type, which is its first string.
fn own_name(certificate: &[u8]) -> &[u8]
    ensures { result.now ≡ own_name certificate.now }
{
    let mut cursor = Cursor::new(certificate);
    match cursor.string() {
        Some(name) => name,
        None => b"".as_slice(),
    }
}

/// Appends a space and the base64 of bytes.
pub(crate) fn put_word(alloc: Global, out: &mut Vec<u8>, bytes: &[u8]) -> Result<(), NoMemory>
    ensures { OnOk result (out.new.items ≡ out.old.items ++ 32 ∷ encode_of standard bytes.now) }
{
    let mut word = String::from_str(alloc, " ")?;
    STANDARD.encode_string(bytes, &mut word)?;
    out.extend_from_slice(word.as_bytes())?;
    Ok(())
}

/// A certificate as ssh-keygen(1) writes it: the type, the certificate in base64, and the comment, without a line feed.
///
/// # Errors
///
/// `NoMemory`, if an allocation was refused.
pub fn write_cert_line(alloc: Global, cert: &[u8], comment: &[u8]) -> Result<Vec<u8>, NoMemory>
    ensures { IfOk result (λ text. text.items ≡ certificate_line_text cert.now comment.now) }
{
    let mut text = Vec::new(alloc);
    text.extend_from_slice(own_name(cert))?;
    put_word(alloc, &mut text, cert)?;
    text.push(b' ')?;
    text.extend_from_slice(comment)?;
    Ok(text)
}
