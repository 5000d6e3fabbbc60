//! Properties of the office after every history: functions with empty bodies, whose contracts are the theorems.
#![tactic(auto)]

mod by_name;
mod certificate_laws;
mod messages;
mod publication;
mod revocations;

pub use by_name::{who_asks_by_name_has_his_own, who_revokes_by_name_revokes_his_own};
pub use certificate_laws::{a_body_names_its_signer, a_body_stays, serials_count_up};
pub use messages::an_arrival_brings_the_message_of_its_text;
pub use publication::{
    a_later_list_revokes_as_much, equal_versions_are_equal_lists, the_list_is_exact,
};
pub use revocations::{nothing_is_forgotten, revoked_is_what_was_named};
