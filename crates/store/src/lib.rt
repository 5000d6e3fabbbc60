//! The office's register in the tables of a database.
//!
//! An office is created in one transaction, whole or not at all, and each received request is processed in one: its
//! answer is the one specified after the history that the tables represent, and a crash leaves that history or the one
//! with the request. The tables still represent their history after each reading call, and after each call that failed.
#![tactic(auto)]

mod answer;
mod crashes;
mod creating;
mod listing;
mod looking;
mod migration;
mod publishing;
mod reads;
mod register;
mod registry;
mod rows;
mod serials;
mod settling;
mod taking;
mod writes;

pub use crashes::{a_crash_leaves_the_history, what_is_open_is_stored};
pub use krl::{CaPart, KrlHead, Run, Runs};
pub use message::Department;
pub use office::{
    Arrival, Ca, Certificate, Issued, Opening, OpeningFault, Outcome, Pending, Registry,
    Revocations, Revoked, StoreFault,
};
pub use register::Store;
pub use rows::{RowFault, department_row, read_department_row};
pub use store_sql::{DepartmentRow, Number};
pub use text::{NoMemory, Text};
pub use values::{Kind, Refusal, is_name};
