//! Lists inside a field of an unsigned certificate (body).

ghost use Rattle.std.specs.Prelude.{◌≡◌, ◌==◌, ◌&&◌, [], ◌∷◌, ◌++◌, length, nat_le, if◌then◌else◌};
ghost use Rattle.std.specs.Prelude.{OnOk, option_and_then, option_copied};
ghost use Rattle.std.specs.Option.{option_map};
ghost use Rattle.wire.specs.Reading.{string_at};
ghost use Rattle.values.specs.Names.{is_principal};
ghost use Rattle.values.specs.Lists.{are_distinct};
ghost use Rattle.cert.specs.declared.cert_fault.CertFault.TheVariants.{BadPrincipals};
ghost use Rattle.cert.specs.Options.{is_option};
ghost use Rattle.text.specs.Results.{or_fault};
ghost use Rattle.cert.specs.Reading.{
  GivesRead,
  GivesPair,
  comes_next,
  field_fault,
  options_of,
  options_within,
  pair_at,
  pair_of,
  principals_of,
  strings_within,
  value_of,
};

use crate::cert_fault::CertFault;
use crate::options::comes_before;
use std::alloc::Global;
use text::{NoMemory, Pair, Pairs, Text, Texts};
use values::{
    Kind, MOST_PRINCIPALS, OptionField, are_distinct, is_flag, is_known, is_option_value,
    is_principal,
};
use wire::Cursor;

// Reads at most 16 strings, each of them a principal.
fn listed_principals(alloc: Global, text: &[u8]) -> Result<Texts, CertFault>
    ensures { GivesRead result (or_fault BadPrincipals (strings_within 16 is_principal text.now)) }
{
    let mut principals = Texts::new(alloc);
    let mut inner = Cursor::new(text);
    for _ in 0..MOST_PRINCIPALS {
        if inner.at_end() {
            return Ok(principals);
        }
        let Some(principal) = inner.string() else {
            return Err(CertFault::BadPrincipals);
        };
        if !is_principal(principal) {
            return Err(CertFault::BadPrincipals);
        }
        principals.push(Text::from_slice(alloc, principal)?)?;
    }
    if !inner.at_end() {
        return Err(CertFault::BadPrincipals);
    }
    Ok(principals)
}

fn are_lawful(principals: &Texts) -> bool
    ensures { result ≡ (nat_le 1 (length principals.now) && are_distinct principals.now) }
{
    !principals.is_empty() && are_distinct(principals.as_slice())
}

/// Reads the principals of a field's text.
pub(crate) fn principals_in(alloc: Global, text: &[u8]) -> Result<Texts, CertFault>
    ensures { GivesRead result (or_fault BadPrincipals (principals_of text.now)) }
{
    let principals = listed_principals(alloc, text)?;
    if !are_lawful(&principals) {
        return Err(CertFault::BadPrincipals);
    }
    Ok(principals)
}

fn fault_of(field: OptionField) -> CertFault
    ensures { result ≡ field_fault field }
{
    match field {
        OptionField::CriticalOptions => CertFault::BadOptions,
        OptionField::Extensions => CertFault::BadExtensions,
    }
}

fn whole_string<'a>(bytes: &'a [u8]) -> Option<&'a [u8]>
    ensures { option_copied result
        ≡ option_and_then (λ s. if length s.1 == 0 then Some s.0 else None) (string_at bytes.now) }
{
    let mut cursor = Cursor::new(bytes);
    let Some(string) = cursor.string() else {
        return None;
    };
    if !cursor.at_end() {
        return None;
    }
    Some(string)
}

fn value_in<'a>(name: &[u8], inner: &'a [u8]) -> Option<&'a [u8]>
    ensures { option_copied result ≡ value_of name.now inner.now }
{
    if !is_flag(name) {
        return whole_string(inner);
    }
    if !inner.is_empty() {
        return None;
    }
    Some(inner)
}

fn pair_in<'a>(cursor: &mut Cursor<'a>) -> Option<(&'a [u8], &'a [u8])>
    ensures { GivesPair (option_map (λ found. (found.0.now, found.1.now)) result) cursor.new (pair_at cursor.old) }
{
    let Some(name) = cursor.string() else {
        return None;
    };
    let Some(inner) = cursor.string() else {
        return None;
    };
    let Some(value) = value_in(name, inner) else {
        return None;
    };
    Some((name, value))
}

fn is_option(field: OptionField, name: &[u8], value: &[u8]) -> bool
    ensures { result ≡ is_option field (pair_of name.now value.now) }
{
    is_known(field, name) && is_option_value(name, value)
}

fn comes_next(field: OptionField, previous: &[u8], name: &[u8], value: &[u8]) -> bool
    ensures { result ≡ comes_next field previous.now (pair_of name.now value.now) }
{
    is_option(field, name, value) && comes_before(previous, name)
}

fn push_pair(alloc: Global, options: &mut Pairs, name: &[u8], value: &[u8]) -> Result<(), NoMemory>
    ensures { OnOk result (options.new ≡ options.old ++ pair_of name.now value.now ∷ []) }
{
    let name = Text::from_slice(alloc, name)?;
    let value = Text::from_slice(alloc, value)?;
    options.push(Pair { name, value })
}

// Reads at most six options.
fn listed_options(alloc: Global, field: OptionField, text: &[u8]) -> Result<Pairs, CertFault>
    ensures { GivesRead result (or_fault (field_fault field) (options_within 6 field [] text.now)) }
{
    let mut options = Pairs::new(alloc);
    let mut inner = Cursor::new(text);
    let mut previous: &[u8] = &[];
    for _ in 0u8..6 {
        if inner.at_end() {
            return Ok(options);
        }
        let Some(found) = pair_in(&mut inner) else {
            return Err(fault_of(field));
        };
        let (name, value) = found;
        if !comes_next(field, previous, name, value) {
            return Err(fault_of(field));
        }
        push_pair(alloc, &mut options, name, value)?;
        previous = name;
    }
    if !inner.at_end() {
        return Err(fault_of(field));
    }
    Ok(options)
}

/// Reads the options of a field's text, for a certificate of this kind.
pub(crate) fn options_in(
    alloc: Global,
    kind: Kind,
    field: OptionField,
    text: &[u8],
) -> Result<Pairs, CertFault>
    ensures { GivesRead result (or_fault (field_fault field) (options_of field kind text.now)) }
{
    match kind {
        Kind::User => listed_options(alloc, field, text),
        Kind::Host if text.is_empty() => Ok(Pairs::new(alloc)),
        Kind::Host => Err(fault_of(field)),
    }
}
