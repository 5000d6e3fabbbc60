//! The rows that a message concerns, found in the tables.
//!
//! Each call only reads. If the tables hold the rows of a valid state, it answers from that state, or fails for lack of
//! memory or because the database failed.

mod certificate_finder;
mod concerning;
mod departments;
mod kept;
mod key_ids;
mod marks;
mod runs;
mod subject;

pub use certificate_finder::find_certificate;
pub use concerning::{Concerned, concerned_rows};
pub use departments::find_department;
pub use kept::kept_for;
pub use key_ids::{has_revoked_key_ids, is_key_id_revoked};
pub use runs::{are_revoked, revoked_runs};
