//! Writes OpenSSH key revocation lists, and tells their lengths before.
#![tactic(auto)]

mod lengths;
mod writer;

pub use lengths::{krl_len, serial_len};
pub use writer::write_krl;
