//! Reading the unsigned certificates (bodies) that a guard is given.

ghost use Rattle.std.specs.Prelude.{◌≡◌, IfErr, IfOk};
ghost use Rattle.cert.specs.Bodies.{IsCertFields, body_text};
ghost use Rattle.guard.specs.Reading.{Gives, IsFault};

use cert::{CertFault, CertFields, read_body};
use std::alloc::Global;

/// The largest size of a body that a guard reads, in bytes.
pub const LONGEST_BODY: usize = 16384;

/// Why bytes can't be read as a body.
#[derive(Clone, Copy, Debug, PartialEq, Eq)]
pub enum BodyFault {
    /// More than 16384 bytes.
    TooLong,
    /// The first field that fails.
    NotOfTheProfile(CertFault),
    /// An allocation was refused.
    NoMemory,
}

/// The fields of a body of the profile.
///
/// # Errors
///
/// `TooLong` for more than 16384 bytes, otherwise `NotOfTheProfile` with the fault that `cert` finds, or `NoMemory`.
pub fn fields_of(alloc: Global, body: &[u8]) -> Result<CertFields, BodyFault>
    // The fields are those of the body, and after a fault the body has none, unless memory was refused.
    ensures exact { Gives result body.now }

    // What is read is valid, and the bytes are its text.
    ensures found { IfOk result (λ c. IsCertFields c × (body.now ≡ body_text c)) }

    // The fault is a fault of the bytes.
    ensures fault { IfErr result (λ e. IsFault body.now e) }
{
    if LONGEST_BODY < body.len() {
        return Err(BodyFault::TooLong);
    }
    match read_body(alloc, body) {
        Ok(fields) => Ok(fields),
        Err(CertFault::NoMemory) => Err(BodyFault::NoMemory),
        Err(fault) => Err(BodyFault::NotOfTheProfile(fault)),
    }
}
