//! The two files of a database, from one run of a program to the next: how they are opened and left, whatever tables
//! they hold.
//!
//! The contents of the files at an open, and the possible effects of a crash, are defined by `Start`. Clauses about
//! values assume that the disk has been faithful: it has returned what was written.
#![tactic(auto)]

mod ending;
mod laws;
mod open_fault;

pub use ending::{EndFault, end_at};
pub use laws::one_schema;
pub use open_fault::{OpenFault, open_files};
