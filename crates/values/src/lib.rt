//! The values in messages and profiles: names, principals, rules, key IDs, options, networks, limits and refusals.
//!
//! Each test of a text decides its definition in `specs`, allocates nothing and returns on any bytes.
//! `laws` restates the definitions in terms of the texts.
//! A refusal's number, name and status are in one table here, and nowhere else.
#![tactic(auto)]

mod administrator;
mod decimal;
mod kind;
mod laws;
mod limits;
mod lists;
mod names;
mod network;
mod option_field;
mod option_value;
mod refusal;
mod rule;
mod serial;

pub use administrator::{is_administrator, is_meant};
pub use decimal::{put_decimal, read_decimal};
pub use kind::Kind;
pub use laws::{
    callers_are_meant_by_names, distinct_texts_differ_at_each_place,
    key_ids_begin_with_departments, key_ids_have_names, networks_are_spelled_one_way,
    rules_are_met_by_names, rules_are_met_by_suffixes,
};
pub use limits::{
    LAST_SERIAL, LATEST_MOMENT, LONGEST_LIFE, MOST_ADMINISTRATORS, MOST_NAMESPACES,
    MOST_PRINCIPALS, MOST_RULES,
};
pub use lists::{are_distinct, is_member};
pub use names::{department_of, is_key_id, is_name, is_namespace, is_principal, name_of};
pub use network::{are_networks, is_network, lie_in};
pub use option_field::{OptionField, is_flag, is_known};
pub use option_value::is_option_value;
pub use refusal::Refusal;
pub use rule::{after_name, is_for_names, is_rule, meets};
pub use serial::{are_serials, is_serial};
