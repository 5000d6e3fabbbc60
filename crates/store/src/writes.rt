//! Writing of decisions to the tables.
//!
//! A decision is written inside a transaction: its change, the office's counters and a row for the request. Tables that
//! hold the rows of a valid state then hold those of the state after the decision, or nothing is committed.

mod changing;
mod new_rows;
mod ranges;
mod writing;

pub use writing::write;
