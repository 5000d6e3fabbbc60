//! What every register in a few tables of its own needs: kinds of columns, rows as structs, and transactions that are
//! committed as a whole or undone. What the tables are, and what their rows mean, is a parameter.
#![tactic(auto)]

mod columns;
mod kind;
mod look;
mod memory;
mod statement;
mod transaction;

pub use columns::{Columns, found, found_first};
pub use kind::{Kind, blob_at, is_row_of, number_at, value_of};
pub use look::{are_named, is_empty};
pub use memory::Memory;
pub use statement::done;
pub use transaction::{close, conclude, undo};
