//! What a department's profile permits.

ghost use Rattle.std.specs.Prelude.{◌≡◌, ◌&&◌, Some};
ghost use Rattle.std.specs.List.{list_all, list_any};
ghost use Rattle.values.specs.Names.{is_for_names, is_meant, meets};
ghost use Rattle.message.specs.Permissions.{
  are_listed,
  are_options_permitted,
  has_other_kind,
  has_value,
  is_key_permitted,
  is_life_permitted,
  is_option_permitted,
  means,
  meet_demands,
  meet_name_rules,
  meet_rules,
  meets_demand,
};

use crate::department::Department;
use lines::{KeyType, key_name};
use text::{Pair, Text, Texts};
use values::{Kind, is_for_names, is_meant, lie_in, meets};

/// Whether the department's certificates have another kind than this one.
pub fn has_other_kind(department: &Department, kind: Kind) -> bool
    ensures { result ≡ has_other_kind (Some department.now) kind }
{
    department.kind != kind
}

fn meets_a_rule(department: &Department, name: &[u8], principal: &[u8]) -> bool
    ensures { result ≡ list_any (meets name.now principal.now) department.now.rules }
{
    department
        .rules
        .as_slice()
        .iter()
        .any(|rule| meets(name, principal, rule.as_slice()))
}

/// Whether each principal, of a certificate whose key ID has this name, meets a rule of the department.
pub fn meet_rules(department: &Department, name: &[u8], principals: &[Text]) -> bool
    ensures { result ≡ meet_rules department.now name.now principals.now }
{
    principals.iter().all(|principal| meets_a_rule(department, name, principal.as_slice()))
}

fn meets_name_rule(name: &[u8], principal: &[u8], rule: &[u8]) -> bool
    ensures { result ≡ (is_for_names rule.now && meets name.now principal.now rule.now) }
{
    is_for_names(rule) && meets(name, principal, rule)
}

fn meets_a_name_rule(department: &Department, name: &[u8], principal: &[u8]) -> bool
    ensures { result ≡ list_any (λ rule. is_for_names rule && meets name.now principal.now rule)
        department.now.rules }
{
    department
        .rules
        .as_slice()
        .iter()
        .any(|rule| meets_name_rule(name, principal, rule.as_slice()))
}

/// Whether each principal meets a rule of the department that begins with `{name}`: the other rules don't count.
pub fn meet_name_rules(department: &Department, name: &[u8], principals: &[Text]) -> bool
    ensures { result ≡ meet_name_rules department.now name.now principals.now }
{
    principals.iter().all(|principal| meets_a_name_rule(department, name, principal.as_slice()))
}

/// Whether one of the department's administrators is a word with `{name}` that means the caller, for a key ID with
/// this name.
pub fn means(department: &Department, name: &[u8], caller: &[u8]) -> bool
    ensures { result ≡ means department.now name.now caller.now }
{
    department
        .administrators
        .as_slice()
        .iter()
        .any(|word| is_meant(name, caller, word.as_slice()))
}

/// Whether the name of each pair is listed.
pub fn are_listed(names: &Texts, pairs: &[Pair]) -> bool
    ensures { result ≡ are_listed names.now pairs.now }
{
    pairs
        .iter()
        .all(|pair| names.contains(pair.name.as_slice()))
}

/// Whether the certificate's value is the one that it must have, or it may have any.
fn has_value(demand: &Pair, option: &Pair) -> bool
    ensures { result ≡ has_value demand.now option.now }
{
    let value = option.value.as_slice();
    if demand.value.is_empty() {
        true
    } else if demand.name.is(b"source-address") {
        lie_in(value, demand.value.as_slice())
    } else {
        demand.value.is(value)
    }
}

/// Whether the option is the one that certificates must have.
fn meets_demand(demand: &Pair, option: &Pair) -> bool
    ensures { result ≡ meets_demand demand.now option.now }
{
    option.name.is(demand.name.as_slice()) && has_value(demand, option)
}

fn is_met(demand: &Pair, options: &[Pair]) -> bool
    ensures { result ≡ list_any (meets_demand demand.now) options.now }
{
    options.iter().any(|option| meets_demand(demand, option))
}

fn meet_demands(demands: &[Pair], options: &[Pair]) -> bool
    ensures { result ≡ meet_demands demands.now options.now }
{
    demands.iter().all(|demand| is_met(demand, options))
}

fn is_option_permitted(department: &Department, option: &Pair) -> bool
    ensures { result ≡ is_option_permitted department.now option.now }
{
    let name = option.name.as_slice();
    department.options.contains(name) || department.demands.has_name(name)
}

fn all_permitted(department: &Department, options: &[Pair]) -> bool
    ensures { result ≡ list_all (is_option_permitted department.now) options.now }
{
    options
        .iter()
        .all(|option| is_option_permitted(department, option))
}

/// Whether each option is listed or must be there, and those that must be there are, each with its value.
pub fn are_options_permitted(department: &Department, options: &[Pair]) -> bool
    ensures { result ≡ are_options_permitted department.now options.now }
{
    all_permitted(department, options) && meet_demands(department.demands.as_slice(), options)
}

/// Whether a certificate of the department may be valid from `after` to `before`.
pub fn is_life_permitted(department: &Department, after: u64, before: u64) -> bool
    ensures { result ≡ is_life_permitted department.now after before }
{
    after < before && before - after <= department.longest_life
}

/// Whether a certificate of the department may be for a key of this type.
pub fn is_key_permitted(department: &Department, key_type: KeyType) -> bool
    ensures { result ≡ is_key_permitted department.now key_type }
{
    if department.key_types.is_empty() {
        matches!(key_type, KeyType::Ed25519)
    } else {
        department.key_types.contains(key_name(key_type))
    }
}
