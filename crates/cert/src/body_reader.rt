//! Reading unsigned certificates (bodies).

ghost use Rattle.std.specs.Prelude.{◌≡◌, ◌≢◌, IfOk, IfErr};
ghost use Rattle.cert.specs.declared.cert_fault.CertFault.{CertFault};
ghost use Rattle.cert.specs.declared.fields.CertFields.{CertFields};
ghost use Rattle.cert.specs.Bodies.{IsCertFields, body_text};
ghost use Rattle.cert.specs.Faults.{IsCertFault};
ghost use Rattle.cert.specs.Reading.{
  GivesRead,
  GivesRest,
  type_at,
  bytes_32_at,
  key_at,
  serial_at,
  kind_at,
  key_id_at,
  principals_at,
  validity_at,
  options_at,
  reserved_at,
  ca_at,
  names_at,
  both_options_at,
  end_at,
  from_key_id_at,
  body_at,
};

use crate::cert_fault::CertFault;
use crate::fields::CertFields;
use crate::nested::{options_in, principals_in};
use crate::options::Options;
use lines::{KeyType, are_parts, read_key_blob, read_strings_of, type_of};
use std::alloc::Global;
use text::{Text, Texts};
use values::{Kind, LATEST_MOMENT, OptionField, is_key_id, is_serial};
use wire::Cursor;

#[tactic(auto, unfolding(crate::specs::Reading::type_at))]
fn read_type(cursor: &mut Cursor) -> Result<KeyType, CertFault>
    ensures { GivesRest result cursor.new (type_at cursor.old) }
{
    let Some(name) = cursor.string() else {
        return Err(CertFault::Truncated);
    };
    let Some(key_type) = type_of(name) else {
        return Err(CertFault::WrongType);
    };
    Ok(key_type)
}

#[tactic(auto, unfolding(crate::specs::Reading::bytes_32_at))]
fn read_bytes_32(cursor: &mut Cursor, fault: CertFault) -> Result<[u8; 32], CertFault>
    ensures { GivesRest result cursor.new (bytes_32_at fault cursor.old) }
{
    let Some(text) = cursor.string() else {
        return Err(CertFault::Truncated);
    };
    if text.len() != 32 {
        return Err(fault);
    }
    let mut bytes = [0; 32];
    bytes.copy_from_slice(text);
    Ok(bytes)
}

#[tactic(auto, unfolding(crate::specs::Reading::key_at))]
fn read_key(alloc: Global, cursor: &mut Cursor, key_type: KeyType) -> Result<Texts, CertFault>
    ensures { GivesRest result cursor.new (key_at key_type cursor.old) }
{
    let Some(strings) = read_strings_of(alloc, cursor, key_type)? else {
        return Err(CertFault::Truncated);
    };
    if !are_parts(key_type, strings.as_slice()) {
        return Err(CertFault::BadKey);
    }
    Ok(strings)
}

#[tactic(auto, unfolding(crate::specs::Reading::serial_at))]
fn read_serial(cursor: &mut Cursor) -> Result<u64, CertFault>
    ensures { GivesRest result cursor.new (serial_at cursor.old) }
{
    let Some(serial) = cursor.u64() else {
        return Err(CertFault::Truncated);
    };
    if !is_serial(serial) {
        return Err(CertFault::BadSerial);
    }
    Ok(serial)
}

#[tactic(auto, unfolding(crate::specs::Reading::kind_at))]
fn read_kind(cursor: &mut Cursor) -> Result<Kind, CertFault>
    ensures { GivesRest result cursor.new (kind_at cursor.old) }
{
    match cursor.u32() {
        None => Err(CertFault::Truncated),
        Some(1) => Ok(Kind::User),
        Some(2) => Ok(Kind::Host),
        Some(_) => Err(CertFault::BadKind),
    }
}

#[tactic(auto, unfolding(crate::specs::Reading::key_id_at))]
fn read_key_id(alloc: Global, cursor: &mut Cursor) -> Result<Text, CertFault>
    ensures { GivesRest result cursor.new (key_id_at cursor.old) }
{
    let Some(text) = cursor.string() else {
        return Err(CertFault::Truncated);
    };
    if !is_key_id(text) {
        return Err(CertFault::BadKeyId);
    }
    Ok(Text::from_slice(alloc, text)?)
}

#[tactic(auto, unfolding(crate::specs::Reading::principals_at))]
fn read_principals(alloc: Global, cursor: &mut Cursor) -> Result<Texts, CertFault>
    ensures { GivesRest result cursor.new (principals_at cursor.old) }
{
    let Some(text) = cursor.string() else {
        return Err(CertFault::Truncated);
    };
    let principals = principals_in(alloc, text)?;
    Ok(principals)
}

#[tactic(auto, unfolding(crate::specs::Reading::validity_at))]
fn read_validity(cursor: &mut Cursor) -> Result<(u64, u64), CertFault>
    ensures { GivesRest result cursor.new (validity_at cursor.old) }
{
    let Some(after) = cursor.u64() else {
        return Err(CertFault::Truncated);
    };
    let Some(before) = cursor.u64() else {
        return Err(CertFault::Truncated);
    };
    if after >= before || before > LATEST_MOMENT {
        return Err(CertFault::BadValidity);
    }
    Ok((after, before))
}

#[tactic(auto, unfolding(crate::specs::Reading::options_at))]
fn read_options(
    alloc: Global,
    cursor: &mut Cursor,
    field: OptionField,
    kind: Kind,
) -> Result<Options, CertFault>
    ensures { GivesRest result cursor.new (options_at field kind cursor.old) }
{
    let Some(text) = cursor.string() else {
        return Err(CertFault::Truncated);
    };
    let pairs = options_in(alloc, kind, field, text)?;
    Ok(Options::from_pairs(pairs))
}

#[tactic(auto, unfolding(crate::specs::Reading::reserved_at))]
fn read_reserved(cursor: &mut Cursor) -> Result<(), CertFault>
    ensures { GivesRest result cursor.new (reserved_at cursor.old) }
{
    let Some(text) = cursor.string() else {
        return Err(CertFault::Truncated);
    };
    if !text.is_empty() {
        return Err(CertFault::BadReserved);
    }
    Ok(())
}

#[tactic(auto, unfolding(crate::specs::Reading::ca_at))]
fn read_ca(cursor: &mut Cursor) -> Result<[u8; 32], CertFault>
    ensures { GivesRest result cursor.new (ca_at cursor.old) }
{
    let Some(text) = cursor.string() else {
        return Err(CertFault::Truncated);
    };
    let Some(key) = read_key_blob(text) else {
        return Err(CertFault::BadCa);
    };
    Ok(key)
}

// The key id and the principals.
fn read_names(alloc: Global, cursor: &mut Cursor) -> Result<(Text, Texts), CertFault>
    ensures { GivesRest result cursor.new (names_at cursor.old) }
{
    let key_id = read_key_id(alloc, cursor)?;
    let principals = read_principals(alloc, cursor)?;
    Ok((key_id, principals))
}

// Both options fields.
fn read_both_options(
    alloc: Global,
    cursor: &mut Cursor,
    kind: Kind,
) -> Result<(Options, Options), CertFault>
    ensures { GivesRest result cursor.new (both_options_at kind cursor.old) }
{
    let options = read_options(alloc, cursor, OptionField::CriticalOptions, kind)?;
    let extensions = read_options(alloc, cursor, OptionField::Extensions, kind)?;
    Ok((options, extensions))
}

// The reserved field and the CA's key, which end a body.
fn read_end(cursor: &mut Cursor) -> Result<[u8; 32], CertFault>
    ensures { GivesRead result (end_at cursor.old) }
{
    read_reserved(cursor)?;
    let ca = read_ca(cursor)?;
    if !cursor.at_end() {
        return Err(CertFault::TrailingBytes);
    }
    Ok(ca)
}

// The fields from the key id on, together with those before it.
fn read_from_key_id(
    alloc: Global,
    cursor: &mut Cursor,
    key_type: KeyType,
    nonce: [u8; 32],
    key: Texts,
    serial: u64,
    kind: Kind,
) -> Result<CertFields, CertFault>
    ensures { GivesRead result (from_key_id_at key_type nonce key serial kind cursor.old) }
{
    let (key_id, principals) = read_names(alloc, cursor)?;
    let (after, before) = read_validity(cursor)?;
    let (options, extensions) = read_both_options(alloc, cursor, kind)?;
    let ca = read_end(cursor)?;
    Ok(CertFields {
        key_type,
        nonce,
        key,
        serial,
        kind,
        key_id,
        principals,
        after,
        before,
        options,
        extensions,
        ca,
    })
}

#[tactic(auto, unfolding(crate::specs::Reading::body_at))]
fn fields_in(alloc: Global, bytes: &[u8]) -> Result<CertFields, CertFault>
    ensures { GivesRead result (body_at bytes.now) }
{
    let mut cursor = Cursor::new(bytes);
    let key_type = read_type(&mut cursor)?;
    let nonce = read_bytes_32(&mut cursor, CertFault::BadNonce)?;
    let key = read_key(alloc, &mut cursor, key_type)?;
    let serial = read_serial(&mut cursor)?;
    let kind = read_kind(&mut cursor)?;
    read_from_key_id(alloc, &mut cursor, key_type, nonce, key, serial, kind)
}

/// Reads an unsigned certificate (PROTOCOL.certkeys) of the profile: a text that `write_body` may write, and no other.
///
/// # Errors
///
/// The first fault from the left, in the order of `CertFault`. Both ends of the validity are judged after both were
/// read.
pub fn read_body(alloc: Global, bytes: &[u8]) -> Result<CertFields, CertFault>
    ensures exact { GivesRead result (body_at bytes.now) }

    // What is read is valid, and the bytes are its text.
    ensures found { IfOk result (λ c. IsCertFields c × (bytes.now ≡ body_text c)) }

    // The text of valid fields is read, or memory is refused. So no text belongs to two values.
    ensures only { (c : CertFields) → IsCertFields c → bytes.now ≡ body_text c → GivesRead result (Ok c) }

    // The returned fault is a fault of the bytes, and a fault of the bytes is returned, or memory is refused.
    ensures fault { IfErr result (λ e. IsCertFault bytes.now e) }
    ensures answered { (e : CertFault) → e ≢ CertFault.NoMemory → IsCertFault bytes.now e → GivesRead result (Err e) }
{
    fields_in(alloc, bytes)
}
