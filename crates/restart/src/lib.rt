//! An office in its two files, from one run of the program to the next.
//!
//! A database is a file and its log. The two *hold an office* with an initial configuration and a history if the
//! database that SQLite finds in them has the rows of the reference model with this configuration after this history. A
//! connection that opens such files represents the history, a close leaves the history that was represented, and a
//! crash leaves it, or it with one more request.
//!
//! The contents of the files at an open, and the possible effects of a crash, are defined by `Start`. Clauses about
//! values assume that the disk has been faithful: it has returned what was written.
#![tactic(auto)]

mod closing;
mod ending;
mod laws;

pub use closing::{close_at, close_path, store_of};
pub use ending::end_at;
pub use laws::{
    a_closed_run_is_a_run, a_cut_run_is_a_run, a_run_keeps_the_office, arrivals_stay,
    lives_are_due, what_is_found_is_told, what_was_left_is_told,
};
