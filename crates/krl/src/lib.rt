//! OpenSSH key revocation lists: sets of serials as runs, what a list is, and its reader.
#![tactic(auto)]

mod ca_part;
mod field;
mod fronts;
mod key_ids;
mod krl_fault;
mod krl_head;
mod laws;
mod parts;
mod published;
mod reader;
mod run;
mod runs;
mod runs_left;
mod sections;

pub use ca_part::CaPart;
pub use krl_fault::KrlFault;
pub use krl_head::KrlHead;
pub use laws::{
    a_set_has_its_runs, a_text_has_one_list, nothing_is_forgotten_by_pairs, revocations_only_grow,
    runs_are_maximal, runs_are_one, what_is_written_is_read,
};
pub use parts::{KEY_ID_LIST, SERIAL_LIST, SERIAL_RANGE};
pub use published::{PublishedList, forgets_nothing, read_published};
pub use reader::{CERTIFICATES, check};
pub use run::Run;
pub use runs::{Runs, runs_of};
