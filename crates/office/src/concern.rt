//! The rows that a message concerns.

ghost use Rattle.std.specs.Prelude.{◌≡◌};
ghost use Rattle.std.specs.Option.{option_copied};
ghost use Rattle.office.specs.Concerns.{named_department, named_serial, named_range, named_key_id};

use message::{Message, SerialRange};
use values::department_of;

/// The departments, serials and key IDs that a message names, borrowed from it.
#[derive(Drop)]
pub struct Concern<'a> {
    /// A department's name: for the revocation of a key ID, the name that the key ID begins with.
    pub department: Option<&'a [u8]>,
    /// The serial of a certificate.
    pub serial: Option<u64>,
    pub range: Option<SerialRange>,
    pub key_id: Option<&'a [u8]>,
}

fn named_department(message: &Message) -> Option<&[u8]>
    ensures { option_copied result ≡ named_department message.now }
{
    match message {
        Message::Department(department) => Some(department.name.as_slice()),
        Message::Issue(issue) => Some(issue.department.as_slice()),
        Message::RevokeKeyId(key_id) => Some(department_of(key_id.as_slice())),
        _ => None,
    }
}

fn named_serial(message: &Message) -> Option<u64>
    ensures { result ≡ named_serial message.now }
{
    match message {
        Message::Renew(renewal) => Some(renewal.serial),
        Message::Deliver(delivery) => Some(delivery.serial),
        Message::RevokeSerial(serial) => Some(*serial),
        _ => None,
    }
}

fn named_range(message: &Message) -> Option<SerialRange>
    ensures { result ≡ named_range message.now }
{
    match message {
        Message::RevokeRange(range) => Some(*range),
        _ => None,
    }
}

fn named_key_id(message: &Message) -> Option<&[u8]>
    ensures { option_copied result ≡ named_key_id message.now }
{
    match message {
        Message::Issue(issue) => Some(issue.key_id.as_slice()),
        Message::RevokeKeyId(key_id) => Some(key_id.as_slice()),
        _ => None,
    }
}

/// The departments, serials and key IDs that the message names. It allocates nothing.
pub fn concerned(message: &Message) -> Concern<'_>
    ensures department { option_copied result.department ≡ named_department message.now }
    ensures serial { result.serial ≡ named_serial message.now }
    ensures range { result.range ≡ named_range message.now }
    ensures key_id { option_copied result.key_id ≡ named_key_id message.now }
{
    Concern {
        department: named_department(message),
        serial: named_serial(message),
        range: named_range(message),
        key_id: named_key_id(message),
    }
}
