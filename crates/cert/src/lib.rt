//! OpenSSH unsigned certificates (bodies): their options and fields, and joining a body and its signature.
//!
//! Options are kept in strictly ascending order of their names, whatever the order in which they are given.
//! A written body is the text of its fields, and is read back as the same fields; no text is read as two values.
//! Bytes that aren't a body of the profile are refused with the fault of the first field that fails.
#![tactic(auto)]

mod body_reader;
mod cert_fault;
mod fields;
mod nested;
mod option_fault;
mod options;
mod signature;
mod writing;

pub use body_reader::read_body;
pub use cert_fault::CertFault;
pub use fields::CertFields;
pub use lines::Signature;
pub use option_fault::OptionFault;
pub use options::Options;
pub use signature::{join_signature, read_signature};
pub use writing::write_body;
