//! A guard's register in the tables of a database.
//!
//! A guard is made whole or not at all. Each approved body is one row, written in one transaction: when the call
//! returns, it survives a crash. A crash during the call leaves what was kept before, or that with this one body.
//!
//! So it is from one run of a program to the next: an open has the guard that the two files hold, and a close or a crash
//! leaves the guard that was kept.
#![tactic(auto)]

mod approvals;
mod approved_rows;
mod closing;
mod creating;
mod creation;
mod ending;
mod faults;
mod finding;
mod guards;
mod keeping;
mod laws;
mod look;
mod opening_fault;
mod register;
mod serving;
mod sql;
mod store;

pub use closing::{close_at, close_path, store_of};
pub use ending::{end_at, end_path};
pub use laws::{
    a_guard_only_narrows, a_kept_body_is_signed_again, a_kept_body_was_permitted,
    a_kept_serial_has_one_body, a_retired_guard_stays_retired, a_run_keeps_the_guard,
    a_serial_has_one_body, lives_keep_what_was_signed, what_is_found_is_had, what_was_left_is_had,
};
pub use opening_fault::OpeningFault;
pub use store::GuardStore;
