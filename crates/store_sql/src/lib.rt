//! The tables of the office, and one function for each SQL text.
//!
//! Rows are written and read as structs of their columns, and a contract says how each call changes the structs that
//! the tables hold: entirely or not at all, inside and outside a transaction. The structs that are read are those that
//! the tables hold, and a fault has its cause. Only this crate contains SQL, and the crates above use only the structs.
//!
//! A call that fails answers `NoMemory` if an allocation was refused, and `Device` if the database failed or was
//! closed; its own comment adds further causes. The rows are then as they were, or the transaction that was open is
//! rolled back. A row is too long if it takes more than a billion bytes.
#![tactic(auto)]

mod cas;
mod certs;
mod columns;
mod creation;
mod departments;
mod kind;
mod look;
mod memory;
mod number;
mod offices;
mod requests;
mod revoked;
mod runs;
mod sql;
mod table_fault;
mod transaction;

pub use cas::{CaRow, every_ca, insert_ca};
pub use certs::{CertRow, certs_within, find_cert, insert_cert, update_signature};
pub use creation::{create_ca, create_tables};
pub use departments::{DepartmentRow, every_department, find_department, put_department};
pub use look::{has_any_table, has_ca_table, has_office};
pub use number::Number;
pub use offices::{
    Counters, OfficeRow, every_office, insert_office, the_office_is_first, update_office,
    update_schema,
};
pub use requests::{RequestRow, find_request, insert_request};
pub use revoked::{every_revoked, find_revoked, insert_revoked};
pub use runs::{RunRow, delete_runs, every_run, insert_run, last_run};
pub use table_fault::Fault;
pub use transaction::{begin, commit, rollback};
