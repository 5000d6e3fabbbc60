//! One line of a message.

ghost use Rattle.std.specs.Prelude.{◌≡◌, ◌≤◌, map, IfOk, option_copied};
ghost use Rattle.std.specs.Option.{option_and_then};
ghost use Rattle.values.specs.Decimals.{number_of};
ghost use Rattle.message.specs.Reading.{rest_after, ends_after, line_of, texts_in_list};

use std::alloc::Global;
use text::{NoMemory, Text, Texts, cut};
use values::read_decimal;

/// Line `n`, counted from 1. If the line or its line feed is missing, the result is empty, which fits nothing.
pub(crate) fn line<'a>(pieces: &[&'a [u8]], n: usize) -> &'a [u8]
    requires { 1 ≤ n }
    ensures { result.now ≡ line_of n (map (λ x. x.now) pieces.now) }
{
    if n < pieces.len() {
        pieces[n - 1]
    } else {
        b"".as_slice()
    }
}

/// Whether the text ends after line `n`.
pub(crate) fn ends_after(pieces: &[&[u8]], n: usize) -> bool
    requires { n ≤ 64 }
    ensures { result ≡ ends_after n (map (λ x. x.now) pieces.now) }
{
    pieces.len() == n + 1 && pieces[n].is_empty()
}

/// The rest of the line after these bytes.
pub(crate) fn after<'a>(line: &'a [u8], head: &[u8]) -> Option<&'a [u8]>
    ensures { option_copied result ≡ rest_after head.now line.now }
{
    line.strip_prefix(head)
}

/// A number after these bytes.
pub(crate) fn number_after(line: &[u8], head: &[u8]) -> Option<u64>
    ensures { result ≡ option_and_then number_of (rest_after head.now line.now) }
{
    read_decimal(after(line, head)?)
}

fn texts(alloc: Global, parts: &[&[u8]]) -> Result<Texts, NoMemory>
    ensures { IfOk result (λ t. t ≡ map (λ x. x.now) parts.now) }
{
    let mut list = Texts::new(alloc);
    for part in parts {
        list.push(Text::from_slice(alloc, part)?)?;
    }
    Ok(list)
}

fn listed(alloc: Global, text: &[u8]) -> Result<Option<Texts>, NoMemory>
    ensures { IfOk result (λ o. o ≡ texts_in_list text.now) }
{
    match text {
        [] => Ok(Some(Texts::new(alloc))),
        [b' ', list @ ..] => {
            let parts = cut(alloc, list, b',')?;
            Ok(Some(texts(alloc, parts.as_slice())?))
        }
        _ => Ok(None),
    }
}

/// The texts after this word: none if the word is alone, else those after a space, separated by commas.
pub(crate) fn list_after(alloc: Global, line: &[u8], word: &[u8]) -> Result<Option<Texts>, NoMemory>
    ensures { IfOk result (λ o. o ≡ option_and_then texts_in_list (rest_after word.now line.now)) }
{
    let Some(text) = after(line, word) else {
        return Ok(None);
    };
    listed(alloc, text)
}
