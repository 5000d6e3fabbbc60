//! Option lines.

ghost use Rattle.std.specs.Prelude.{◌≡◌, IfOk};
ghost use Rattle.message.specs.Reading.{is_new_option, option_after, option_in};
ghost use Rattle.message.specs.Values.{is_critical_option};

use crate::line::after;
use lines::word_and_rest;
use std::alloc::Global;
use text::{NoMemory, Pair, Pairs, Text};
use values::{OptionField, is_flag, is_known, is_option_value};

/// A name and a value, copied.
pub(crate) fn pair_from(alloc: Global, name: &[u8], value: &[u8]) -> Result<Pair, NoMemory>
    ensures name { IfOk result (λ p. p.name ≡ name.now) }
    ensures value { IfOk result (λ p. p.value ≡ value.now) }
{
    Ok(Pair {
        name: Text::from_slice(alloc, name)?,
        value: Text::from_slice(alloc, value)?,
    })
}

/// The option in a text: the name of a flag alone, or any other name, a space and a value.
fn pair_of(alloc: Global, text: &[u8]) -> Result<Option<Pair>, NoMemory>
    ensures { IfOk result (λ o. o ≡ option_in text.now) }
{
    let (name, value) = word_and_rest(text);
    match value {
        None => {
            if !is_flag(name) {
                return Ok(None);
            }
            Ok(Some(pair_from(alloc, name, b"")?))
        }
        Some(value) => {
            if is_flag(name) {
                return Ok(None);
            }
            Ok(Some(pair_from(alloc, name, value)?))
        }
    }
}

/// Whether this is a known critical option with a valid value.
pub fn is_option(option: &Pair) -> bool
    ensures { result ≡ is_critical_option option.now }
{
    let name = option.name.as_slice();
    is_known(OptionField::CriticalOptions, name) && is_option_value(name, option.value.as_slice())
}

/// Whether the option may follow the earlier ones: it is valid, and none of them has its name.
fn is_new_option(before: &Pairs, option: &Pair) -> bool
    ensures { result ≡ is_new_option before.now option.now }
{
    is_option(option) && !before.has_name(option.name.as_slice())
}

/// The option on a line, if it may follow the earlier ones.
pub(crate) fn option_after(
    alloc: Global,
    before: &Pairs,
    line: &[u8],
) -> Result<Option<Pair>, NoMemory>
    ensures { IfOk result (λ o. o ≡ option_after before.now line.now) }
{
    let Some(text) = after(line, b"option ") else {
        return Ok(None);
    };
    let Some(option) = pair_of(alloc, text)? else {
        return Ok(None);
    };
    Ok(if is_new_option(before, &option) {
        Some(option)
    } else {
        None
    })
}
