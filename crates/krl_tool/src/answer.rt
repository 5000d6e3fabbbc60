//! The answer for a certificate.

use krl::KrlFault;
use std::fmt;

/// Whether a list revokes a certificate, or the list's fault. It is printed as `revoked`, `clear` or the fault's name.
#[derive(Clone, Copy)]
pub(crate) struct Answer(pub Result<bool, KrlFault>);

impl fmt::Display for Answer {
    fn fmt<W: fmt::Write>(&self, f: &mut fmt::Formatter<W>) -> fmt::Result {
        match self.0 {
            Ok(true) => write!(f, "revoked"),
            Ok(false) => write!(f, "clear"),
            Err(fault) => write!(f, "{fault:?}"),
        }
    }
}
