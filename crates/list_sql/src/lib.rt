//! A list guard's register in an SQLite table.
//!
//! The list that was approved last is in pieces of 65536 bytes, one in each row. All are written in one transaction:
//! when the call returns, the list survives a crash. A crash during the call leaves the list that was kept before, or
//! this one.
//!
//! So it is from one run of a program to the next: an opened connection has the list guard that the two files hold, and
//! a close or a crash leaves the one that was kept.
#![tactic(auto)]

mod creating;
mod creation;
mod ending;
mod faults;
mod finding;
mod keeping;
mod laws;
mod lists;
mod look;
mod opening_fault;
mod pieces;
mod register;
mod serving;
mod sql;
mod store;

pub use ending::{end_at, end_path};
pub use laws::{lives_only_grow, what_is_found_is_had};
pub use opening_fault::OpeningFault;
pub use store::ListStore;
