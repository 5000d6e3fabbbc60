//! Rules, which specify the principals for which a department may issue certificates.

ghost use Rattle.std.specs.Prelude.{◌≡◌, ◌++◌, false, option_copied};
ghost use Rattle.std.specs.Option.{option_map_or};
ghost use Rattle.std.specs.Str.{bytes_eq};
ghost use Rattle.values.specs.Names.{
  after_front,
  after_name,
  ends_longer,
  is_for_names,
  is_name_end,
  is_name_rule,
  is_rule,
  is_suffix_rule,
  meets,
  meets_name,
  meets_suffix,
};

use crate::names::{has_principal_bytes, has_size, is_principal};

fn is_suffix_rule(text: &[u8]) -> bool
    ensures { result ≡ is_suffix_rule text.now }
{
    match text {
        [b'*', suffix @ ..] => has_size(suffix, 1, 63) && has_principal_bytes(suffix),
        _ => false,
    }
}

/// What follows the front, if the text begins with it.
fn after_front<'a>(front: &[u8], text: &'a [u8]) -> Option<&'a [u8]>
    ensures { option_copied result ≡ after_front front.now text.now }
{
    text.strip_prefix(front)
}

/// What follows `{name}`, if the text begins with it.
pub fn after_name(text: &[u8]) -> Option<&[u8]>
    ensures { option_copied result ≡ after_name text.now }
{
    after_front(b"{name}".as_slice(), text)
}

fn is_name_end(text: &[u8]) -> bool
    ensures { result ≡ is_name_end text.now }
{
    match text {
        [] => true,
        [first, rest @ ..] => (*first == b'.' || *first == b'@')
            && has_size(rest, 1, 62)
            && has_principal_bytes(rest),
    }
}

fn is_name_rule(text: &[u8]) -> bool
    ensures { result ≡ is_name_rule text.now }
{
    match after_name(text) {
        Some(end) => is_name_end(end),
        None => false,
    }
}

/// Whether the text is a rule: a principal, `*` and a suffix of 1 to 63 bytes of a principal's alphabet, or `{name}`,
/// alone or with a suffix of 2 to 63 bytes of that alphabet which begins with `.` or `@`.
pub fn is_rule(text: &[u8]) -> bool
    ensures { result ≡ is_rule text.now }
{
    is_principal(text) || is_suffix_rule(text) || is_name_rule(text)
}

/// Whether the rule begins with `{name}`: it is met by a key ID's own name alone.
pub fn is_for_names(rule: &[u8]) -> bool
    ensures { result ≡ is_for_names rule.now }
{
    after_name(rule).is_some()
}

fn ends_longer(text: &[u8], suffix: &[u8]) -> bool
    ensures { result ≡ ends_longer text.now suffix.now }
{
    suffix.len() < text.len() && &text[text.len() - suffix.len()..] == suffix
}

fn meets_suffix(principal: &[u8], rule: &[u8]) -> bool
    ensures { result ≡ meets_suffix principal.now rule.now }
{
    match rule {
        [b'*', suffix @ ..] => ends_longer(principal, suffix),
        _ => false,
    }
}

/// Whether the text begins with the front, and the end follows it.
fn is_continued(text: &[u8], front: &[u8], end: &[u8]) -> bool
    ensures { result ≡ option_map_or (λ rest. bytes_eq rest end.now) (after_front front.now text.now) false }
{
    match after_front(front, text) {
        Some(rest) => rest == end,
        None => false,
    }
}

/// Whether the text is the front and then the end.
pub(crate) fn is_joined(text: &[u8], front: &[u8], end: &[u8]) -> bool
    ensures { result ≡ bytes_eq text.now (front.now ++ end.now) }
{
    is_continued(text, front, end)
}

fn meets_name(name: &[u8], principal: &[u8], end: &[u8]) -> bool
    ensures { result ≡ meets_name name.now principal.now end.now }
{
    is_joined(principal, name, end) && !(end.is_empty() && principal == b"root".as_slice())
}

/// Whether the principal of a certificate whose key ID has this name meets the rule. It does if it equals the rule; or
/// if the rule is `*` and a suffix, and the principal ends with the suffix and is longer than it. A rule that begins
/// with `{name}` is met by the name and what follows `{name}`, and by nothing else. `{name}` alone isn't met by `root`.
///
/// A principal has at most 64 bytes. So if the name and the suffix together have more, nothing meets the rule.
pub fn meets(name: &[u8], principal: &[u8], rule: &[u8]) -> bool
    ensures { result ≡ meets name.now principal.now rule.now }
{
    match after_name(rule) {
        Some(end) => meets_name(name, principal, end),
        None => principal == rule || meets_suffix(principal, rule),
    }
}
