//! Lines of options that certificates must have.

ghost use Rattle.std.specs.Prelude.{◌≡◌, ◌≤◌, IfOk, length, map, []};
ghost use Rattle.std.specs.List.{list_all};
ghost use Rattle.message.specs.Reading.{demand_after, demand_in, demands_from, is_new_demand};
ghost use Rattle.message.specs.Values.{are_demands, comes_before, is_ascending, is_demand, option_place};

use crate::line::{after, line};
use crate::option::pair_from;
use lines::word_and_rest;
use std::alloc::Global;
use text::{NoMemory, Pair, Pairs};
use values::{Kind, OptionField, is_known, is_option_value};

/// The most options that certificates must have: all that there are.
const MOST_DEMANDS: usize = 3;

/// Its place among the critical options, in the order of their names.
fn option_place(name: &[u8]) -> u8
    ensures { result ≡ option_place name.now }
{
    if name == b"force-command".as_slice() {
        0
    } else if name == b"source-address".as_slice() {
        1
    } else {
        2
    }
}

fn comes_before(first: &Pair, second: &Pair) -> bool
    ensures { result ≡ comes_before first.now second.now }
{
    option_place(first.name.as_slice()) < option_place(second.name.as_slice())
}

/// Whether each certificate of this kind may have to have the option, with this value or, if it is empty, with any.
fn is_demand(kind: Kind, option: &Pair) -> bool
    ensures { result ≡ is_demand kind option.now }
{
    let name = option.name.as_slice();
    match kind {
        Kind::User => {
            is_known(OptionField::CriticalOptions, name)
                && (option.value.is_empty() || is_option_value(name, option.value.as_slice()))
        }
        Kind::Host => false,
    }
}

fn all_come_before(before: &[Pair], option: &Pair) -> bool
    ensures { result ≡ list_all (λ q. comes_before q option.now) before.now }
{
    before.iter().all(|earlier| comes_before(earlier, option))
}

fn comes_before_all(option: &Pair, after: &[Pair]) -> bool
    ensures { result ≡ list_all (comes_before option.now) after.now }
{
    after.iter().all(|later| comes_before(option, later))
}

fn is_ascending(options: &[Pair]) -> bool
    ensures { result ≡ is_ascending options.now }
{
    let mut rest = options;
    while let [option, after @ ..] = rest {
        if !comes_before_all(option, after) {
            return false;
        }
        rest = after;
    }
    true
}

fn all_demands(kind: Kind, options: &[Pair]) -> bool
    ensures { result ≡ list_all (is_demand kind) options.now }
{
    options.iter().all(|option| is_demand(kind, option))
}

/// Whether each certificate of a department of this kind may have to have these options: 0 to 3 in the order of their
/// names, each with a valid value or an empty one. For hosts, none.
pub fn are_demands(kind: Kind, options: &[Pair]) -> bool
    ensures { result ≡ are_demands kind options.now }
{
    options.len() <= MOST_DEMANDS && all_demands(kind, options) && is_ascending(options)
}

/// Whether the option may follow the earlier ones.
fn is_new_demand(kind: Kind, before: &[Pair], option: &Pair) -> bool
    ensures { result ≡ is_new_demand kind before.now option.now }
{
    is_demand(kind, option) && all_come_before(before, option)
}

/// The option in a text: a name alone, or with a space and the value that it must have.
fn demand_in(alloc: Global, text: &[u8]) -> Result<Option<Pair>, NoMemory>
    ensures { IfOk result (λ o. o ≡ demand_in text.now) }
{
    let (name, value) = word_and_rest(text);
    match value {
        None => Ok(Some(pair_from(alloc, name, b"")?)),
        Some(value) => {
            if value.is_empty() {
                return Ok(None);
            }
            Ok(Some(pair_from(alloc, name, value)?))
        }
    }
}

/// The option on a line that certificates must have, if it may follow the earlier ones.
///
/// # Errors
///
/// `NoMemory`, if an allocation was refused.
pub fn demand_after(
    alloc: Global,
    kind: Kind,
    before: &Pairs,
    line: &[u8],
) -> Result<Option<Pair>, NoMemory>
    ensures { IfOk result (λ o. o ≡ demand_after kind before.now line.now) }
{
    let Some(text) = after(line, b"must ") else {
        return Ok(None);
    };
    let Some(option) = demand_in(alloc, text)? else {
        return Ok(None);
    };
    Ok(if is_new_demand(kind, before.as_slice(), &option) {
        Some(option)
    } else {
        None
    })
}

/// The options that certificates must have, on up to three lines from line 6 on.
pub(crate) fn demands_in(alloc: Global, pieces: &[&[u8]], kind: Kind) -> Result<Pairs, NoMemory>
    ensures read { IfOk result (λ o. o ≡ demands_from kind 3 6 [] (map (λ x. x.now) pieces.now)) }
    ensures few { IfOk result (λ o. length o ≤ 3) }
{
    let mut demands = Pairs::new(alloc);
    for n in 6..9 {
        let Some(option) = demand_after(alloc, kind, &demands, line(pieces, n))? else {
            return Ok(demands);
        };
        demands.push(option)?;
    }
    Ok(demands)
}
