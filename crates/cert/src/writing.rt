//! Writing unsigned certificates (bodies).

ghost use Rattle.std.specs.Prelude.{◌≡◌, ◌<◌, ◌+◌, ◌^◌, ◌++◌, length, All, IfOk, OnOk};
ghost use Rattle.cert.specs.Options.{option_text, options_text};
ghost use Rattle.cert.specs.declared.fields.CertFields.{CertFields};
ghost use Rattle.cert.specs.Reading.{body_at};
ghost use Rattle.cert.specs.Bodies.{IsCertFields, body_text, front, kind_number, principals_text};
ghost use Rattle.lines.specs.Subjects.{parts_text};
ghost use Rattle.wire.specs.Texts.{string_text};

use crate::fields::CertFields;
use crate::options::Options;
use lines::{cert_name, key_blob_of};
use std::alloc::Global;
use text::{NoMemory, Pair, Text};
use values::{Kind, is_flag};
use wire::{put_string, put_u32, put_u64};

/// SSH_CERT_TYPE_USER and SSH_CERT_TYPE_HOST.
fn number_of(kind: Kind) -> u32
    ensures { result ≡ kind_number kind }
{
    match kind {
        Kind::User => 1,
        Kind::Host => 2,
    }
}

fn strings_bytes(alloc: Global, strings: &[Text]) -> Result<Vec<u8>, NoMemory>
    requires { All (λ s. length s < 2 ^ 32) strings.now }
    ensures { IfOk result (λ v. v.items ≡ parts_text strings.now) }
{
    let mut out = Vec::new(alloc);
    for string in strings {
        put_string(&mut out, string.as_slice())?;
    }
    Ok(out)
}

fn put_option(out: &mut Vec<u8>, option: &Pair) -> Result<(), NoMemory>
    requires name { length option.now.name < 2 ^ 32 }
    requires value { length option.now.value + 4 < 2 ^ 32 }
    ensures { OnOk result (out.new.items ≡ out.old.items ++ option_text option.now) }
{
    put_string(out, option.name.as_slice())?;
    if is_flag(option.name.as_slice()) {
        return put_u32(out, 0);
    }
    let value = option.value.as_slice();
    put_u32(out, 4 + value.len() as u32)?;
    put_string(out, value)
}

fn options_bytes(alloc: Global, options: &[Pair]) -> Result<Vec<u8>, NoMemory>
    requires { All (λ p. (length p.name < 2 ^ 32) × (length p.value + 4 < 2 ^ 32)) options.now }
    ensures { IfOk result (λ v. v.items ≡ options_text options.now) }
{
    let mut out = Vec::new(alloc);
    for option in options {
        put_option(&mut out, option)?;
    }
    Ok(out)
}

fn put_options(alloc: Global, out: &mut Vec<u8>, options: &Options) -> Result<(), NoMemory>
    requires pairs { All (λ p. (length p.name < 2 ^ 32) × (length p.value + 4 < 2 ^ 32)) options.now }
    requires all { length (options_text options.now) < 2 ^ 32 }
    ensures { OnOk result (out.new.items ≡ out.old.items ++ string_text (options_text options.now)) }
{
    let text = options_bytes(alloc, options.pairs())?;
    put_string(out, text.as_slice())
}

// The fields are appended in order. At each call, the text so far consists of the fields before the call's own.

fn put_key(alloc: Global, out: &mut Vec<u8>, fields: &CertFields) -> Result<(), NoMemory>
    requires lawful { IsCertFields fields.now }
    requires before { out.old.items ≡ front 0 fields.now }
    ensures { OnOk result (out.new.items ≡ front 3 fields.now) }
{
    let key = strings_bytes(alloc, fields.key.as_slice())?;
    put_string(out, cert_name(fields.key_type))?;
    put_string(out, &fields.nonce)?;
    Ok(out.extend_from_slice(key.as_slice())?)
}

fn put_kind(out: &mut Vec<u8>, fields: &CertFields) -> Result<(), NoMemory>
    requires { out.old.items ≡ front 3 fields.now }
    ensures { OnOk result (out.new.items ≡ front 5 fields.now) }
{
    put_u64(out, fields.serial)?;
    put_u32(out, number_of(fields.kind))
}

fn put_names(alloc: Global, out: &mut Vec<u8>, fields: &CertFields) -> Result<(), NoMemory>
    requires lawful { IsCertFields fields.now }
    requires before { out.old.items ≡ front 5 fields.now }
    ensures { OnOk result (out.new.items ≡ front 7 fields.now) }
{
    let principals = strings_bytes(alloc, fields.principals.as_slice())?;
    put_string(out, fields.key_id.as_slice())?;
    put_string(out, principals.as_slice())
}

fn put_validity(out: &mut Vec<u8>, fields: &CertFields) -> Result<(), NoMemory>
    requires { out.old.items ≡ front 7 fields.now }
    ensures { OnOk result (out.new.items ≡ front 8 fields.now) }
{
    put_u64(out, fields.after)?;
    put_u64(out, fields.before)
}

fn put_ca(out: &mut Vec<u8>, fields: &CertFields) -> Result<(), NoMemory>
    requires { out.old.items ≡ front 10 fields.now }
    ensures { OnOk result (out.new.items ≡ front 12 fields.now) }
{
    put_string(out, b"")?;
    put_string(out, &key_blob_of(&fields.ca))
}

fn put_upto_names(alloc: Global, out: &mut Vec<u8>, fields: &CertFields) -> Result<(), NoMemory>
    requires lawful { IsCertFields fields.now }
    requires before { out.old.items ≡ front 0 fields.now }
    ensures { OnOk result (out.new.items ≡ front 7 fields.now) }
{
    put_key(alloc, out, fields)?;
    put_kind(out, fields)?;
    put_names(alloc, out, fields)
}

fn put_from_validity(alloc: Global, out: &mut Vec<u8>, fields: &CertFields) -> Result<(), NoMemory>
    requires lawful { IsCertFields fields.now }
    requires before { out.old.items ≡ front 7 fields.now }
    ensures { OnOk result (out.new.items ≡ front 12 fields.now) }
{
    put_validity(out, fields)?;
    put_options(alloc, out, &fields.options)?;
    put_options(alloc, out, &fields.extensions)?;
    put_ca(out, fields)
}

/// The unsigned certificate, or body, with these fields, which is what its CA signs (PROTOCOL.certkeys).
///
/// The fields have to be valid, as those that `read_body` returns are.
///
/// # Errors
///
/// `NoMemory`, if an allocation was refused.
pub fn write_body(alloc: Global, fields: &CertFields) -> Result<Vec<u8>, NoMemory>
    requires { IsCertFields fields.now }
    ensures text { IfOk result (λ v. v.items ≡ body_text fields.now) }

    // What is written is read back, and it is the text of no other fields.
    ensures again { IfOk result (λ v. body_at v.items ≡ Ok fields.now) }
    ensures only { (c : CertFields) → IsCertFields c → IfOk result (λ v. v.items ≡ body_text c → c ≡ fields.now) }
{
    let mut out = Vec::new(alloc);
    put_upto_names(alloc, &mut out, fields)?;
    put_from_validity(alloc, &mut out, fields)?;
    Ok(out)
}
