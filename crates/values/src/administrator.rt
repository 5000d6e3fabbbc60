//! Administrators of a department: callers, or words with `{name}` that stand for callers.

ghost use Rattle.std.specs.Prelude.{◌≡◌, option_copied};
ghost use Rattle.values.specs.Names.{before_name, is_administrator, is_meant, is_prefix};

use crate::names::{has_name_bytes, has_size, is_name};
use crate::rule::is_joined;

/// What `{name}` follows, if the text ends with it.
fn before_name(text: &[u8]) -> Option<&[u8]>
    ensures { option_copied result ≡ before_name text.now }
{
    text.strip_suffix(b"{name}".as_slice())
}

fn is_prefix(text: &[u8]) -> bool
    ensures { result ≡ is_prefix text.now }
{
    has_size(text, 0, 31) && has_name_bytes(text)
}

/// Whether the text names administrators: it is the name of a caller; or `{name}`, alone or after 1 to 31 bytes of
/// `a-z 0-9 -`.
pub fn is_administrator(text: &[u8]) -> bool
    ensures { result ≡ is_administrator text.now }
{
    is_name(text)
        || match before_name(text) {
            Some(prefix) => is_prefix(prefix),
            None => false,
        }
}

/// Whether the caller is the one that the administrator, a word that ends with `{name}`, means for a key ID with this
/// name: what precedes `{name}`, and then the name.
pub fn is_meant(name: &[u8], caller: &[u8], administrator: &[u8]) -> bool
    ensures { result ≡ is_meant name.now caller.now administrator.now }
{
    match before_name(administrator) {
        Some(prefix) => is_joined(caller, prefix, name),
        None => false,
    }
}
