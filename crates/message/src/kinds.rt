//! The kinds of messages.

use crate::delivery::Delivery;
use crate::department::Department;
use crate::issue::Issue;
use crate::renewal::Renewal;
use crate::serial_range::SerialRange;
use lines::KeyLine;
use text::Text;

/// A message. Lists and option lines keep the order given, so a text belongs to at most one message.
#[derive(Drop)]
pub enum Message {
    /// A department, new or with a new profile.
    Department(Department),
    /// A request for a certificate.
    Issue(Issue),
    /// The renewal of a certificate, with a new validity.
    Renew(Renewal),
    /// The signature of a certificate.
    Deliver(Delivery),
    /// The revocation of the certificate with a serial, 1 to 9223372036854775806.
    RevokeSerial(u64),
    /// The revocation of the certificates with these serials.
    RevokeRange(SerialRange),
    /// The revocation of all certificates with a key ID.
    RevokeKeyId(Text),
    /// A new CA key, with the comment on its line.
    Rollover(KeyLine),
}
