//! A register that remembers the pending certificates in memory.
//!
//! `Waiting` is a register over any other. Between two requests for the pending certificates it remembers the rows that
//! were pending at the last one, the place up to which it has read certificates, and the revocations. So a request
//! checks those rows and reads the certificates issued since, and not every certificate, and reads the revocations only
//! after a message that may revoke.
#![tactic(auto)]

mod asking;
mod known;
mod revoking;
mod waiting;

pub use waiting::Waiting;
