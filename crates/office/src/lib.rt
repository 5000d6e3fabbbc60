//! The office: its reference model, its histories and its decisions.
//!
//! The reference model (`specs/Machine`) defines the effect of a message on the whole office, and `decide` computes the
//! same answer from the few rows that the message concerns. A history (`specs/History`, the requests received so far)
//! counts each message once, at its first acceptance; a repeat gets the reply from then. `Registry` is the interface
//! through which the layers above use a store: each of its answers is that of the reference model after a history.
#![tactic(auto)]

mod arrival;
mod ca;
mod certificate;
mod concern;
mod deciding;
mod decision;
mod delivering;
mod issuing;
mod laws;
mod listing;
mod opening;
mod permission;
mod publication;
mod refusing;
mod registry;
mod renewing;
mod replies;
mod revoking;
mod rolling;
mod showing;
mod store_fault;
mod view;

pub use arrival::{Arrival, Kept, MAX_REPLY, Outcome};
pub use ca::{Ca, MOST_CAS};
pub use certificate::Certificate;
pub use concern::{Concern, concerned};
pub use deciding::decide;
pub use laws::{limits_of_offices, refusals_ascend, replies_are_short};
pub use listing::{BATCH, Revocations, has_key_id, place_behind};
pub use opening::{Opening, OpeningFault};
pub use publication::{Entry, Issued, Pending, Revoked, Standing};
pub use registry::Registry;
pub use showing::parts_of;
pub use store_fault::StoreFault;
pub use view::{Change, Decision, Stop, View};
