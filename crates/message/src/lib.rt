//! Messages, the bodies of POST requests that an administrator or the signing station sends, line by line.
//!
//! A text is read as a message exactly when it is the message's text, and it belongs to at most one. For a text that is
//! no message, the answer is the number of the first line that no message has in that place after the lines before it.
#![tactic(auto)]

mod delivery;
mod demand;
mod department;
mod department_ends;
mod issue;
mod kinds;
mod laws;
mod line;
mod lists;
mod message_fault;
mod message_reader;
mod option;
mod permission;
mod renewal;
mod serial_range;
mod single;
mod value;
mod writing;

pub use delivery::Delivery;
pub use demand::{are_demands, demand_after};
pub use department::{Department, fits_bare_name, fits_kind, has_bare_name};
pub use issue::Issue;
pub use kinds::Message;
pub use laws::{
    a_text_belongs_to_one_message, reading_finds_the_message_of_a_text, the_first_bad_line_is_named,
};
pub use lists::{
    are_administrators, are_extension_names, are_key_types, are_namespaces, are_option_names,
    are_principals, are_rules, key_types_after,
};
pub use message_fault::MessageFault;
pub use message_reader::read_message;
pub use option::is_option;
pub use permission::{
    are_listed, are_options_permitted, has_other_kind, is_key_permitted, is_life_permitted, means,
    meet_name_rules, meet_rules,
};
pub use renewal::Renewal;
pub use serial_range::SerialRange;
pub use writing::{demand_line_of, key_types_line_of, put_department, write_message};
