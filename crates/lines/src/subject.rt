//! Keys that a certificate may be for: their types, and the strings that a key blob and a certificate have of a key.

ghost use Rattle.std.specs.Prelude.{◌≡◌, ◌&&◌, [], ◌∷◌, length, nat_le, IfOk};
ghost use Rattle.std.specs.Option.{is_some};
ghost use Rattle.std.specs.Str.{bytes_eq};
ghost use Rattle.lines.specs.declared.subject.KeyType.TheVariants.{Ed25519, SkEd25519, SkEcdsaP256, Rsa};
ghost use Rattle.std.specs.List.{list_all};
ghost use Rattle.lines.specs.Subjects.{
  GivesStrings,
  are_parts,
  cert_name,
  is_application,
  is_exponent,
  is_high,
  is_modulus,
  is_point,
  is_positive,
  key_name,
  part_count,
  pass_each,
  strings_at,
  tests_of,
  type_named,
  type_of,
};

use std::alloc::Global;
use text::{NoMemory, Text, Texts};
use wire::Cursor;

/// The type of a subject's key.
#[derive(Clone, Copy, Debug, PartialEq, Eq)]
pub enum KeyType {
    /// `ssh-ed25519` (RFC 8709).
    Ed25519,
    /// `sk-ssh-ed25519@openssh.com`: Ed25519 in a security key (PROTOCOL.u2f).
    SkEd25519,
    /// `ecdsa-sha2-nistp256` (RFC 5656).
    EcdsaP256,
    /// `ecdsa-sha2-nistp384` (RFC 5656).
    EcdsaP384,
    /// `ecdsa-sha2-nistp521` (RFC 5656).
    EcdsaP521,
    /// `sk-ecdsa-sha2-nistp256@openssh.com`: ECDSA in a security key (PROTOCOL.u2f).
    SkEcdsaP256,
    /// `ssh-rsa` (RFC 4253 section 6.6).
    Rsa,
}

/// The name of the type of certificates for such keys.
pub fn cert_name(key_type: KeyType) -> &'static [u8]
    ensures { result.now ≡ cert_name key_type }
{
    match key_type {
        KeyType::Ed25519 => b"ssh-ed25519-cert-v01@openssh.com".as_slice(),
        KeyType::SkEd25519 => b"sk-ssh-ed25519-cert-v01@openssh.com".as_slice(),
        KeyType::EcdsaP256 => b"ecdsa-sha2-nistp256-cert-v01@openssh.com".as_slice(),
        KeyType::EcdsaP384 => b"ecdsa-sha2-nistp384-cert-v01@openssh.com".as_slice(),
        KeyType::EcdsaP521 => b"ecdsa-sha2-nistp521-cert-v01@openssh.com".as_slice(),
        KeyType::SkEcdsaP256 => b"sk-ecdsa-sha2-nistp256-cert-v01@openssh.com".as_slice(),
        KeyType::Rsa => b"ssh-rsa-cert-v01@openssh.com".as_slice(),
    }
}

/// The type of keys whose certificates have this name.
pub fn type_of(name: &[u8]) -> Option<KeyType>
    ensures { result ≡ type_of name.now }
{
    if name == cert_name(KeyType::Ed25519) {
        Some(KeyType::Ed25519)
    } else if name == cert_name(KeyType::SkEd25519) {
        Some(KeyType::SkEd25519)
    } else if name == cert_name(KeyType::EcdsaP256) {
        Some(KeyType::EcdsaP256)
    } else if name == cert_name(KeyType::EcdsaP384) {
        Some(KeyType::EcdsaP384)
    } else if name == cert_name(KeyType::EcdsaP521) {
        Some(KeyType::EcdsaP521)
    } else if name == cert_name(KeyType::SkEcdsaP256) {
        Some(KeyType::SkEcdsaP256)
    } else if name == cert_name(KeyType::Rsa) {
        Some(KeyType::Rsa)
    } else {
        None
    }
}

/// The name of the type, as key blobs and public-key lines have it.
pub fn key_name(key_type: KeyType) -> &'static [u8]
    ensures { result.now ≡ key_name key_type }
{
    match key_type {
        KeyType::Ed25519 => b"ssh-ed25519".as_slice(),
        KeyType::SkEd25519 => b"sk-ssh-ed25519@openssh.com".as_slice(),
        KeyType::EcdsaP256 => b"ecdsa-sha2-nistp256".as_slice(),
        KeyType::EcdsaP384 => b"ecdsa-sha2-nistp384".as_slice(),
        KeyType::EcdsaP521 => b"ecdsa-sha2-nistp521".as_slice(),
        KeyType::SkEcdsaP256 => b"sk-ecdsa-sha2-nistp256@openssh.com".as_slice(),
        KeyType::Rsa => b"ssh-rsa".as_slice(),
    }
}

/// The type of keys whose blobs have this name.
pub fn type_named(name: &[u8]) -> Option<KeyType>
    ensures { result ≡ type_named name.now }
{
    if name == key_name(KeyType::Ed25519) {
        Some(KeyType::Ed25519)
    } else if name == key_name(KeyType::SkEd25519) {
        Some(KeyType::SkEd25519)
    } else if name == key_name(KeyType::EcdsaP256) {
        Some(KeyType::EcdsaP256)
    } else if name == key_name(KeyType::EcdsaP384) {
        Some(KeyType::EcdsaP384)
    } else if name == key_name(KeyType::EcdsaP521) {
        Some(KeyType::EcdsaP521)
    } else if name == key_name(KeyType::SkEcdsaP256) {
        Some(KeyType::SkEcdsaP256)
    } else if name == key_name(KeyType::Rsa) {
        Some(KeyType::Rsa)
    } else {
        None
    }
}

/// Whether this is the name of a type of keys.
pub fn is_key_type(name: &[u8]) -> bool
    ensures { result ≡ is_some (type_named name.now) }
{
    type_named(name).is_some()
}

fn part_count(key_type: KeyType) -> usize
    ensures { result ≡ part_count key_type }
{
    match key_type {
        KeyType::Ed25519 => 1,
        KeyType::SkEcdsaP256 => 3,
        _ => 2,
    }
}

fn is_point(size: usize, part: &[u8]) -> bool
    ensures { result ≡ is_point size part.now }
{
    match part.split_first() {
        Some((first, rest)) => *first == 4 && rest.len() == size,
        None => false,
    }
}

fn is_high(part: &[u8]) -> bool
    ensures { result ≡ is_high part.now }
{
    match part.split_first() {
        Some((first, _)) => 128 <= *first,
        None => false,
    }
}

fn is_positive(part: &[u8]) -> bool
    ensures { result ≡ is_positive part.now }
{
    match part.split_first() {
        Some((first, rest)) => {
            if *first == 0 {
                is_high(rest)
            } else {
                *first < 128
            }
        }
        None => false,
    }
}

fn is_modulus(part: &[u8]) -> bool
    ensures { result ≡ is_modulus part.now }
{
    is_positive(part) && 257 <= part.len() && (part.len() <= 2048 || part.starts_with(b"\x00"))
}

fn is_exponent(part: &[u8]) -> bool
    ensures { result ≡ is_exponent part.now }
{
    is_positive(part)
        && part.len() <= 8
        && !(part == b"\x01".as_slice() || part == b"\x02".as_slice())
}

fn are_printable(part: &[u8]) -> bool
    ensures { result ≡ list_all (λ b. nat_le 32 b && nat_le b 126) part.now }
{
    part.iter().all(|b| matches!(*b, 0x20..=0x7e))
}

fn is_application(part: &[u8]) -> bool
    ensures { result ≡ is_application part.now }
{
    part.starts_with(b"ssh:") && part.len() <= 255 && are_printable(part)
}

fn are_short(parts: &[Text]) -> bool
    ensures { result ≡ list_all (λ p. nat_le (length p) 2049) parts.now }
{
    parts.iter().all(|p| p.as_slice().len() <= 2049)
}

fn is_plain(parts: &[Text]) -> bool
    ensures { result ≡ pass_each (tests_of Ed25519) parts.now }
{
    match parts {
        [key] => key.as_slice().len() == 32,
        _ => false,
    }
}

fn is_sk_ed25519(parts: &[Text]) -> bool
    ensures { result ≡ pass_each (tests_of SkEd25519) parts.now }
{
    match parts {
        [key, application] => {
            key.as_slice().len() == 32 && is_application(application.as_slice())
        }
        _ => false,
    }
}

fn is_ecdsa(curve: &[u8], size: usize, parts: &[Text]) -> bool
    ensures { result ≡ pass_each ((λ p. bytes_eq p curve.now) ∷ is_point size ∷ []) parts.now }
{
    match parts {
        [name, point] => name.is(curve) && is_point(size, point.as_slice()),
        _ => false,
    }
}

fn is_sk_ecdsa(parts: &[Text]) -> bool
    ensures { result ≡ pass_each (tests_of SkEcdsaP256) parts.now }
{
    match parts {
        [name, point, application] => {
            name.is(b"nistp256")
                && is_point(64, point.as_slice())
                && is_application(application.as_slice())
        }
        _ => false,
    }
}

fn is_rsa(parts: &[Text]) -> bool
    ensures { result ≡ pass_each (tests_of Rsa) parts.now }
{
    match parts {
        [exponent, modulus] => {
            is_exponent(exponent.as_slice()) && is_modulus(modulus.as_slice())
        }
        _ => false,
    }
}

fn pass_each(key_type: KeyType, parts: &[Text]) -> bool
    ensures { result ≡ pass_each (tests_of key_type) parts.now }
{
    match key_type {
        KeyType::Ed25519 => is_plain(parts),
        KeyType::SkEd25519 => is_sk_ed25519(parts),
        KeyType::EcdsaP256 => is_ecdsa(b"nistp256", 64, parts),
        KeyType::EcdsaP384 => is_ecdsa(b"nistp384", 96, parts),
        KeyType::EcdsaP521 => is_ecdsa(b"nistp521", 132, parts),
        KeyType::SkEcdsaP256 => is_sk_ecdsa(parts),
        KeyType::Rsa => is_rsa(parts),
    }
}

/// Whether the strings are those of a key of this type.
pub fn are_parts(key_type: KeyType, parts: &[Text]) -> bool
    ensures { result ≡ are_parts key_type parts.now }
{
    are_short(parts) && pass_each(key_type, parts)
}

/// As many strings as a key of this type has, or `None` if one of them is cut.
///
/// # Errors
///
/// `NoMemory`, if an allocation was refused.
pub fn read_strings_of(
    alloc: Global,
    cursor: &mut Cursor,
    key_type: KeyType,
) -> Result<Option<Texts>, NoMemory>
    ensures { IfOk result (λ o. GivesStrings o cursor.new (strings_at key_type cursor.old)) }
{
    let count = part_count(key_type);
    let mut strings = Texts::new(alloc);
    for _ in 0..count {
        let Some(string) = cursor.string() else {
            return Ok(None);
        };
        strings.push(Text::from_slice(alloc, string)?)?;
    }
    Ok(Some(strings))
}
