//! The list's reader.

ghost use Rattle.std.specs.Prelude.{◌≡◌, ◌==◌, ◌++◌, ℕ, true, IfOk, IfErr, OnOk};
ghost use Rattle.wire.specs.Texts.{string_text, u32_text, u64_text};
ghost use Rattle.lines.specs.Keys.{key_blob};
ghost use Rattle.krl.specs.Format.{Header, IsCut, IsHeader, IsString, RevocationList, header_text};
ghost use Rattle.krl.specs.Format.{is_for, is_supported, revokes, section_revokes, section_text};
ghost use Rattle.krl.specs.Faults.{CertificatesFault, FieldFault, FirstFault, HeaderFault, IsReadSection, IsU32};
ghost use Rattle.krl.specs.Faults.{IsU64, ItemFault, NothingAfter, SectionFault, accepted, refused_unless};
ghost use Rattle.krl.specs.Reading.{AreItems, ReadsCertificates, ReadsList, ReadsSection};
ghost use Rattle.text.specs.Bytes.{IsBytes};

use crate::field::{is_same, next_string, next_tagged};
use crate::krl_fault::KrlFault;
use crate::parts::read_parts;
use lines::key_blob_of;
use wire::Cursor;

/// The list's first 8 bytes, `SSHKRL` LF NUL, as a number.
pub(crate) const MAGIC: u64 = 0x5353484b524c0a00;

/// The version of the format.
pub(crate) const FORMAT_VERSION: u32 = 1;

/// The type of a certificates section (`KRL_SECTION_CERTIFICATES`).
pub const CERTIFICATES: u8 = 1;

// Whether a section with this CA key is for the CA of the blob.
fn is_for_blob(ca: &[u8], blob: &[u8]) -> bool
    ensures { result ≡ is_for blob.now ca.now }
{
    ca.is_empty() | is_same(ca, blob)
}

// Reads the data of a certificates section.
fn read_certificates(
    bytes: &[u8],
    blob: &[u8],
    serial: u64,
    key_id: &[u8],
) -> Result<bool, KrlFault>
    ensures found { IfOk result (ReadsCertificates bytes.now blob.now serial key_id.now) }
    ensures fault { IfErr result (CertificatesFault bytes.now) }
{
    let mut cursor = Cursor::new(bytes);
    let Some(ca) = next_string(&mut cursor) else {
        return Err(KrlFault::BadSection);
    };
    let Some(_reserved) = next_string(&mut cursor) else {
        return Err(KrlFault::BadSection);
    };
    let named = read_parts(&mut cursor, serial, key_id)?;
    Ok(is_for_blob(ca, blob) & named)
}

// Reads the next section: whether it revokes the certificate.
fn read_section(
    cursor: &mut Cursor<'_>,
    blob: &[u8],
    serial: u64,
    key_id: &[u8],
) -> Result<bool, KrlFault>
    requires { IsBytes cursor.old }
    ensures found { IfOk result (ReadsSection cursor.old cursor.new blob.now serial key_id.now) }
    ensures fault { IfErr result (SectionFault cursor.old) }
{
    let Some((kind, data)) = next_tagged(cursor) else {
        return Err(KrlFault::Truncated);
    };
    if kind != CERTIFICATES {
        return Err(KrlFault::Unsupported(kind));
    }
    read_certificates(data, blob, serial, key_id)
}

// Reads an 8-byte number that has to be this one.
fn expect_u64(cursor: &mut Cursor<'_>, wanted: u64, refusal: KrlFault) -> Result<(), KrlFault>
    ensures found { OnOk result (cursor.old ≡ u64_text wanted ++ cursor.new) }
    ensures fault { IfErr result (FieldFault u64_text IsU64 KrlFault.Truncated
        (λ n. refused_unless (n == wanted) refusal) NothingAfter cursor.old) }
{
    let Some(number) = cursor.u64() else {
        return Err(KrlFault::Truncated);
    };
    if number != wanted {
        return Err(refusal);
    }
    Ok(())
}

// Reads the version of the format.
fn expect_version(cursor: &mut Cursor<'_>) -> Result<(), KrlFault>
    ensures found { OnOk result (cursor.old ≡ u32_text 1 ++ cursor.new) }
    ensures fault { IfErr result (FieldFault u32_text IsU32 KrlFault.Truncated
        (λ n. refused_unless (n == 1) KrlFault.BadVersion) NothingAfter cursor.old) }
{
    let Some(version) = cursor.u32() else {
        return Err(KrlFault::Truncated);
    };
    if version != FORMAT_VERSION {
        return Err(KrlFault::BadVersion);
    }
    Ok(())
}

// Reads any 8-byte number.
fn skip_u64(cursor: &mut Cursor<'_>) -> Result<u64, KrlFault>
    ensures found { IfOk result (λ n. cursor.old ≡ u64_text n ++ cursor.new) }
    ensures fault { IfErr result (FieldFault u64_text IsU64 KrlFault.Truncated accepted NothingAfter cursor.old) }
{
    let Some(number) = cursor.u64() else {
        return Err(KrlFault::Truncated);
    };
    Ok(number)
}

// Reads any string.
fn skip_string<'a>(cursor: &mut Cursor<'a>) -> Result<&'a [u8], KrlFault>
    requires { IsBytes cursor.old }
    ensures found { IfOk result (λ b. IsString b.now × (cursor.old ≡ string_text b.now ++ cursor.new)) }
    ensures fault { IfErr result (FieldFault string_text IsString KrlFault.Truncated accepted NothingAfter cursor.old) }
{
    let Some(string) = next_string(cursor) else {
        return Err(KrlFault::Truncated);
    };
    Ok(string)
}

// Reads the header.
fn read_header(cursor: &mut Cursor<'_>) -> Result<(), KrlFault>
    requires { IsBytes cursor.old }
    ensures found { OnOk result ((h : Header) × IsHeader h × (cursor.old ≡ header_text h ++ cursor.new)) }
    ensures fault { IfErr result (HeaderFault cursor.old) }
{
    expect_u64(cursor, MAGIC, KrlFault::BadMagic)?;
    expect_version(cursor)?;
    let _version = skip_u64(cursor)?;
    let _date = skip_u64(cursor)?;
    expect_u64(cursor, 0, KrlFault::BadFlags)?;
    let _reserved = skip_string(cursor)?;
    let _comment = skip_string(cursor)?;
    Ok(())
}

// Reads sections to the end: whether one of them revokes the certificate.
fn read_sections(
    cursor: &mut Cursor<'_>,
    blob: &[u8],
    serial: u64,
    key_id: &[u8],
) -> Result<bool, KrlFault>
    requires { IsBytes cursor.old }
    ensures found { IfOk result
        (AreItems section_text IsReadSection (section_revokes blob.now serial key_id.now) cursor.old) }
    ensures fault { IfErr result (ItemFault section_text IsReadSection SectionFault cursor.old) }
{
    let mut revoked = false;
    while !cursor.at_end() {
        revoked |= read_section(cursor, blob, serial, key_id)?;
    }
    Ok(revoked)
}

fn read_list(bytes: &[u8], blob: &[u8], serial: u64, key_id: &[u8]) -> Result<bool, KrlFault>
    ensures found { IfOk result (ReadsList bytes.now blob.now serial key_id.now) }
    ensures fault { IfErr result (FirstFault bytes.now) }
{
    let mut cursor = Cursor::new(bytes);
    read_header(&mut cursor)?;
    read_sections(&mut cursor, blob, serial, key_id)
}

/// Whether the list (OpenSSH PROTOCOL.krl) revokes the certificate with this serial and key id under this CA, given by
/// the 32 bytes of its key. The whole list is read before the result is returned. Allocates no memory.
///
/// A list may have any version and date, and any bytes in its reserved and comment strings. Sections and parts may
/// repeat. An empty serial list, and a range that ends before it begins, name nothing.
///
/// # Errors
///
/// The list's first fault from the left. See `KrlFault` for each.
pub fn check(bytes: &[u8], ca: &[u8; 32], serial: u64, key_id: &[u8]) -> Result<bool, KrlFault>
    ensures found { IfOk result (ReadsList bytes.now (key_blob ca.now) serial key_id.now) }
    ensures only { (l : RevocationList) → IsCut bytes.now l → is_supported l ≡ true
        → result ≡ Ok (revokes (key_blob ca.now) serial key_id.now l) }
    ensures fault { IfErr result (FirstFault bytes.now) }
    ensures only_fault { (f : KrlFault) → FirstFault bytes.now f → result ≡ Err f }
{
    read_list(bytes, &key_blob_of(ca), serial, key_id)
}
