//! The in-memory store: an office's register as lists in memory.
#![tactic(auto)]

mod departments;
mod issued;
mod judging;
mod key_ids;
mod registry;
mod shown;
mod store;
mod viewing;
mod writing;

pub use store::PlainStore;
