//! The input and the output of a decision.

ghost use Rattle.std.specs.Prelude.{◌≡◌};
ghost use Rattle.office.specs.declared.view.Stop.TheVariants.{NoMemory};

use crate::ca::Ca;
use crate::certificate::Certificate;
use crate::opening::Opening;
use lines::Signature;
use message::{Department, SerialRange};
use text::Text;
use values::Refusal;

/// The rows that a message concerns, as given by `concerned`, and the office's own row.
#[derive(Drop)]
pub struct View<'a> {
    pub opening: &'a Opening,
    /// The serial to be handed out next, at most one after the last.
    pub next: u64,
    /// The version of the published list.
    pub version: u64,
    /// The date of the published list, in seconds since 1970-01-01 00:00:00 UTC.
    pub date: u64,
    /// The CAs by number.
    pub cas: &'a [Ca],
    /// The department concerned, if it exists: that of the certificate concerned if the message names a serial.
    pub department: Option<&'a Department>,
    /// The certificate concerned, if it exists.
    pub certificate: Option<&'a Certificate>,
    /// Whether the serial concerned, or each serial of the range concerned, is revoked.
    pub is_revoked: bool,
    /// Whether the key ID concerned, or that of the certificate concerned, is revoked.
    pub is_key_id_revoked: bool,
    /// Whether any key ID is revoked.
    pub has_revoked_key_ids: bool,
}

/// A change to be written.
#[derive(Drop)]
pub enum Change {
    /// Nothing: everything already is as the message asks.
    Nothing,
    /// A department, which replaces the one with its name if there is one.
    Department(Department),
    /// A certificate, under the next serial.
    Certificate(Certificate),
    /// A signature for the certificate with this serial.
    Signature { serial: u64, signature: Signature },
    /// Serials to be revoked, some of which may be already.
    Range(SerialRange),
    /// A key ID to be revoked.
    KeyId(Text),
    /// A CA, with the next number.
    Ca(Ca),
}

/// The answer to an accepted message, and the change it makes.
#[derive(Drop)]
pub struct Decision {
    /// The reply's text.
    pub reply: Text,
    /// The serial to be handed out next, from then on.
    pub next: u64,
    /// The version of the published list, from then on.
    pub version: u64,
    /// The date of the published list, from then on, in seconds since 1970-01-01 00:00:00 UTC.
    pub date: u64,
    pub change: Change,
}

/// Why a message isn't accepted now.
#[derive(Clone, Copy, PartialEq, Eq)]
pub enum Stop {
    /// The refusal with the least number.
    Refused(Refusal),
    /// An allocation was refused.
    NoMemory,
}

impl From<text::NoMemory> for Stop {
    ghost from_gives = { λ _ e. e ≡ NoMemory };

    fn from(_e: text::NoMemory) -> Stop {
        Stop::NoMemory
    }
}
