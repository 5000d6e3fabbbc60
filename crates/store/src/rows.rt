//! Conversion of the tables' rows to the office's values, and back.
//!
//! A row is read as a valid value, or reported as damaged. If the tables hold the rows of a valid state, a reading call
//! shows that state. A transaction ends committed or rolled back.

mod cas;
mod cert_rows;
mod certificate_rows;
mod department_rows;
mod departments;
mod key_ids;
mod numbers;
mod office_rows;
mod row_reader;
mod told_fault;
mod transaction;

pub use cas::read_cas;
pub use cert_rows::read_certificate;
pub use certificate_rows::read_certificates;
pub use department_rows::{RowFault, department_row, read_department, read_department_row};
pub use departments::read_departments;
pub use key_ids::read_key_ids;
pub use numbers::number;
pub use office_rows::{Office, is_opening, read_office};
pub use told_fault::{fault_of, told};
pub use transaction::{close, conclude, undo};
