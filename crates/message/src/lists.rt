//! The texts and the lists of messages.

ghost use Rattle.std.specs.Prelude.{◌≡◌, ◌≤◌, map, IfOk};
ghost use Rattle.std.specs.List.{list_all};
ghost use Rattle.text.specs.Results.{or_fault};
ghost use Rattle.message.specs.Kinds.{is_list, is_text, list_word};
ghost use Rattle.message.specs.Reading.{Gives, key_types_after, line_of, list_after};
ghost use Rattle.message.specs.Values.{
  are_administrators,
  are_distinct_and,
  are_extension_names,
  are_key_types,
  are_namespaces,
  are_option_names,
  are_principals,
  are_rules,
};

use crate::department::{fits_bare_name, fits_kind};
use crate::line::{line, list_after};
use crate::message_fault::MessageFault;
use lines::is_key_type;
use std::alloc::Global;
use text::{NoMemory, Text, Texts};
use values::{
    Kind, MOST_ADMINISTRATORS, MOST_NAMESPACES, MOST_PRINCIPALS, MOST_RULES, OptionField,
    are_distinct, is_administrator, is_key_id, is_known, is_name, is_namespace, is_principal,
    is_rule,
};

/// The most types of keys that a department lists: all that there are.
const MOST_KEY_TYPES: usize = 7;

/// The kinds of texts in a message.
#[derive(Clone, Copy)]
pub(crate) enum TextKind {
    Name,
    Administrator,
    KeyId,
    Rule,
    Principal,
    OptionName,
    ExtensionName,
    KeyType,
    Namespace,
}

/// Whether the text is a valid one of this kind.
pub(crate) fn is_text(kind: TextKind, text: &[u8]) -> bool
    ensures { result ≡ is_text kind text.now }
{
    match kind {
        TextKind::Name => is_name(text),
        TextKind::Administrator => is_administrator(text),
        TextKind::KeyId => is_key_id(text),
        TextKind::Rule => is_rule(text),
        TextKind::Principal => is_principal(text),
        TextKind::OptionName => is_known(OptionField::CriticalOptions, text),
        TextKind::ExtensionName => is_known(OptionField::Extensions, text),
        TextKind::KeyType => is_key_type(text),
        TextKind::Namespace => is_namespace(text),
    }
}

fn are_texts(kind: TextKind, texts: &[Text]) -> bool
    ensures { result ≡ list_all (is_text kind) texts.now }
{
    texts.iter().all(|t| is_text(kind, t.as_slice()))
}

fn are_distinct_texts(kind: TextKind, texts: &[Text]) -> bool
    ensures { result ≡ are_distinct_and (is_text kind) texts.now }
{
    are_texts(kind, texts) && are_distinct(texts)
}

/// Whether these are 0 to 16 distinct administrators: names of callers, or words with `{name}`.
pub fn are_administrators(texts: &[Text]) -> bool
    ensures { result ≡ are_administrators texts.now }
{
    texts.len() <= MOST_ADMINISTRATORS && are_distinct_texts(TextKind::Administrator, texts)
}

/// Whether these are 1 to 16 distinct rules.
pub fn are_rules(texts: &[Text]) -> bool
    ensures { result ≡ are_rules texts.now }
{
    1 <= texts.len() && texts.len() <= MOST_RULES && are_distinct_texts(TextKind::Rule, texts)
}

/// Whether these are 1 to 16 distinct principals.
pub fn are_principals(texts: &[Text]) -> bool
    ensures { result ≡ are_principals texts.now }
{
    1 <= texts.len()
        && texts.len() <= MOST_PRINCIPALS
        && are_distinct_texts(TextKind::Principal, texts)
}

/// Whether these are distinct names of critical options.
pub fn are_option_names(texts: &[Text]) -> bool
    ensures { result ≡ are_option_names texts.now }
{
    are_distinct_texts(TextKind::OptionName, texts)
}

/// Whether these are distinct names of extensions.
pub fn are_extension_names(texts: &[Text]) -> bool
    ensures { result ≡ are_extension_names texts.now }
{
    are_distinct_texts(TextKind::ExtensionName, texts)
}

/// Whether these are 1 to 7 distinct names of key types.
pub fn are_key_types(texts: &[Text]) -> bool
    ensures { result ≡ are_key_types texts.now }
{
    1 <= texts.len()
        && texts.len() <= MOST_KEY_TYPES
        && are_distinct_texts(TextKind::KeyType, texts)
}

/// Whether these are 0 to 8 distinct namespaces.
pub fn are_namespaces(texts: &[Text]) -> bool
    ensures { result ≡ are_namespaces texts.now }
{
    texts.len() <= MOST_NAMESPACES && are_distinct_texts(TextKind::Namespace, texts)
}

/// The kinds of lists in a line. Lists that must be empty in a department for hosts carry the department's kind, and
/// namespaces whether `{name}` alone is one of its rules.
#[derive(Clone, Copy)]
pub(crate) enum ListKind {
    Administrators,
    Rules,
    Principals,
    Extensions,
    OptionsOf(Kind),
    ExtensionsOf(Kind),
    KeyTypes,
    NamespacesOf(Kind, bool),
}

/// The word before a list of this kind.
fn word(kind: ListKind) -> &'static [u8]
    ensures { result.now ≡ list_word kind }
{
    match kind {
        ListKind::Administrators => b"admins",
        ListKind::Rules | ListKind::Principals => b"principals",
        ListKind::OptionsOf(_) => b"options",
        ListKind::Extensions | ListKind::ExtensionsOf(_) => b"extensions",
        ListKind::KeyTypes => b"key-types",
        ListKind::NamespacesOf(_, _) => b"namespaces",
    }
}

/// Whether the texts are a valid list of this kind.
fn is_list(kind: ListKind, texts: &[Text]) -> bool
    ensures { result ≡ is_list kind texts.now }
{
    match kind {
        ListKind::Administrators => are_administrators(texts),
        ListKind::Rules => are_rules(texts),
        ListKind::Principals => are_principals(texts),
        ListKind::Extensions => are_extension_names(texts),
        ListKind::OptionsOf(kind) => are_option_names(texts) && fits_kind(kind, texts),
        ListKind::ExtensionsOf(kind) => are_extension_names(texts) && fits_kind(kind, texts),
        ListKind::KeyTypes => are_key_types(texts),
        ListKind::NamespacesOf(kind, bare) => {
            are_namespaces(texts) && fits_kind(kind, texts) && fits_bare_name(bare, texts)
        }
    }
}

/// The list on a line, if it is valid.
pub(crate) fn list_on(alloc: Global, line: &[u8], kind: ListKind) -> Result<Option<Texts>, NoMemory>
    ensures { IfOk result (λ o. o ≡ list_after (is_list kind) (list_word kind) line.now) }
{
    match list_after(alloc, line, word(kind))? {
        Some(texts) if is_list(kind, texts.as_slice()) => Ok(Some(texts)),
        _ => Ok(None),
    }
}

/// The key types on a line, if it is one of 1 to 7 distinct key types.
///
/// # Errors
///
/// `NoMemory`, if an allocation was refused.
pub fn key_types_after(alloc: Global, line: &[u8]) -> Result<Option<Texts>, NoMemory>
    ensures { IfOk result (λ o. o ≡ key_types_after line.now) }
{
    list_on(alloc, line, ListKind::KeyTypes)
}

/// The list on line `n`.
pub(crate) fn list_in(
    alloc: Global,
    pieces: &[&[u8]],
    n: usize,
    kind: ListKind,
) -> Result<Texts, MessageFault>
    requires { 1 ≤ n }
    ensures { Gives result
        (or_fault n (list_after (is_list kind) (list_word kind) (line_of n (map (λ x. x.now) pieces.now)))) }
{
    match list_on(alloc, line(pieces, n), kind)? {
        Some(texts) => Ok(texts),
        None => Err(MessageFault::BadLine(n as u64)),
    }
}
