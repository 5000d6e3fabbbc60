//! The values that clap found for a subcommand.

ghost use Rattle.std.specs.Prelude.{◌≡◌, ◌≤◌, ◌++◌, [], ◌∷◌, Some, IfErr, IfOk, IfSome, OnOk, map, option_map};
ghost use Rattle.std.specs.Prelude.{string_bytes};
ghost use Rattle.clap.specs.Words.{all_of, first_of, found_of, rows_of};
ghost use Rattle.command_line.specs.Answers.{IsLack, IsLackOfAny};
ghost use Rattle.command_line.specs.declared.words_fault.WordsFault.TheVariants.{NoMemory};
ghost use Rattle.command_line.specs.Asked.{number_given, number_within, number_or};

use crate::WordsFault;
use clap::ArgMatches;
use std::alloc::Global;

/// The fault for a value that is missing or invalid: `BadWords` with its name, or `NoMemory`.
pub fn lack(alloc: Global, name: &str) -> WordsFault
    ensures { IsLackOfAny result }
{
    match format!(in alloc; "error: no valid value for {name}\n") {
        Ok(text) => WordsFault::BadWords(text),
        Err(_) => WordsFault::NoMemory,
    }
}

// The value that was given for an option or argument.
fn value_at<'a>(found: &ArgMatches<'a>, name: &str) -> Option<&'a str>
    ensures { option_map (λ s. s.now) result ≡ first_of name.now (rows_of (found_of found.now)) }
{
    found.get_str(name)
}

/// The value that was given for an option or argument.
///
/// # Errors
///
/// `BadWords`, only if none was given. `NoMemory`, if memory was refused.
pub fn text_at(alloc: Global, found: &ArgMatches<'_>, name: &str) -> Result<String, WordsFault>
    ensures ok { IfOk result (λ text. first_of name.now (rows_of (found_of found.now)) ≡ Some (string_bytes text)) }
    ensures err { IfErr result (IsLack (first_of name.now (rows_of (found_of found.now)))) }
{
    match value_at(found, name) {
        Some(text) => Ok(String::from_str(alloc, text)?),
        None => Err(lack(alloc, name)),
    }
}

/// The value of an option that may be omitted.
///
/// # Errors
///
/// `NoMemory`, if memory was refused.
pub fn text_if_given(
    alloc: Global,
    found: &ArgMatches<'_>,
    name: &str,
) -> Result<Option<String>, WordsFault>
    ensures ok { IfOk result (λ text. first_of name.now (rows_of (found_of found.now)) ≡ option_map string_bytes text) }
    ensures err { IfErr result (λ fault. fault ≡ NoMemory) }
{
    match value_at(found, name) {
        Some(text) => Ok(Some(String::from_str(alloc, text)?)),
        None => Ok(None),
    }
}

// The number in a text, from `low` to `high`.
fn number_of(text: &str, low: u64, high: u64) -> Option<u64>
    ensures number { result ≡ number_within low high text.now }
    ensures limits { IfSome result (λ n. (low ≤ n) × (n ≤ high)) }
{
    match text.parse::<u64>() {
        Ok(number) if low <= number && number <= high => Some(number),
        Ok(_) => None,
        Err(_) => None,
    }
}

/// The number that was given for an option or argument, from `low` to `high`.
///
/// # Errors
///
/// `BadWords`, only if no number within the limits was given. `NoMemory`, if memory was refused.
pub fn number_at(
    alloc: Global,
    found: &ArgMatches<'_>,
    name: &str,
    low: u64,
    high: u64,
) -> Result<u64, WordsFault>
    ensures ok { IfOk result (λ n. number_given (rows_of (found_of found.now)) name.now low high ≡ Some n) }
    ensures limits { IfOk result (λ n. (low ≤ n) × (n ≤ high)) }
    ensures err { IfErr result (IsLack (number_given (rows_of (found_of found.now)) name.now low high)) }
{
    match value_at(found, name) {
        Some(text) => match number_of(text, low, high) {
            Some(number) => Ok(number),
            None => Err(lack(alloc, name)),
        },
        None => Err(lack(alloc, name)),
    }
}

/// The number that was given for an option, from `low` to `high`, or `none` if the option was omitted.
///
/// # Errors
///
/// `BadWords`, only if something other than a number within the limits was given. `NoMemory`, if memory was refused.
pub fn number_if_given(
    alloc: Global,
    found: &ArgMatches<'_>,
    name: &str,
    limits: (u64, u64),
    none: u64,
) -> Result<u64, WordsFault>
    ensures ok { IfOk result (λ n. number_or (rows_of (found_of found.now)) name.now limits none ≡ Some n) }
    ensures err { IfErr result (IsLack (number_or (rows_of (found_of found.now)) name.now limits none)) }
{
    match value_at(found, name) {
        Some(text) => match number_of(text, limits.0, limits.1) {
            Some(number) => Ok(number),
            None => Err(lack(alloc, name)),
        },
        None => Ok(none),
    }
}

// The words that were given for an argument.
fn values_at<'m, 'a>(found: &'m ArgMatches<'a>, name: &str) -> Option<&'m [&'a str]>
    ensures { option_map (λ s. map (λ v. v.now) s.now) result ≡ all_of name.now (rows_of (found_of found.now)) }
{
    found.get_strs(name)
}

// Appends an owned copy of a word.
fn pushed(alloc: Global, texts: &mut Vec<String>, word: &str) -> Result<(), WordsFault>
    ensures ok { OnOk result (map string_bytes texts.new.items ≡ map string_bytes texts.old.items ++ word.now ∷ []) }
    ensures err { IfErr result (λ fault. fault ≡ NoMemory) }
{
    match texts.push(String::from_str(alloc, word)?) {
        Ok(()) => Ok(()),
        Err(refused) => {
            drop(refused);
            Err(WordsFault::NoMemory)
        }
    }
}

// Owned copies of words.
fn owned(alloc: Global, words: &[&str]) -> Result<Vec<String>, WordsFault>
    ensures ok { IfOk result (λ texts. map string_bytes texts.items ≡ map (λ v. v.now) words.now) }
    ensures err { IfErr result (λ fault. fault ≡ NoMemory) }
{
    let mut texts = Vec::new(alloc);
    for word in words {
        pushed(alloc, &mut texts, word)?;
    }
    Ok(texts)
}

/// The words that were given for an argument, in order.
///
/// # Errors
///
/// `BadWords`, only if none was given. `NoMemory`, if memory was refused.
pub fn texts_at(
    alloc: Global,
    found: &ArgMatches<'_>,
    name: &str,
) -> Result<Vec<String>, WordsFault>
    ensures ok { IfOk result (λ texts. all_of name.now (rows_of (found_of found.now))
        ≡ Some (map string_bytes texts.items)) }
    ensures err { IfErr result (IsLack (all_of name.now (rows_of (found_of found.now)))) }
{
    match values_at(found, name) {
        Some(words) => owned(alloc, words),
        None => Err(lack(alloc, name)),
    }
}
