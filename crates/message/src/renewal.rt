//! Renewals of a certificate.

ghost use Rattle.std.specs.Prelude.{map};
ghost use Rattle.message.specs.Reading.{Gives, made, renewal_in};
ghost use Rattle.message.specs.declared.kinds.Message.TheVariants as message;

use crate::kinds::Message;
use crate::line::{ends_after, line};
use crate::message_fault::MessageFault;
use crate::value::{end_after, serial_after};

/// The renewal of a certificate, with a new validity.
#[derive(Clone, Copy)]
pub struct Renewal {
    /// The serial of the certificate, 1 to 9223372036854775806.
    pub serial: u64,
    /// The first second of the validity, since 1970-01-01 00:00:00 UTC.
    pub after: u64,
    /// The first second after the validity.
    pub before: u64,
}

/// The renewal with these lines.
#[tactic(auto, unfolding(crate::specs::Reading::renewal_in))]
pub(crate) fn renewal_in(pieces: &[&[u8]]) -> Result<Message, MessageFault>
    ensures { Gives result (made (λ x. message.Renew x) (renewal_in (map (λ x. x.now) pieces.now))) }
{
    let Some(serial) = serial_after(line(pieces, 1), b"renew ") else {
        return Err(MessageFault::BadLine(1));
    };
    let after = end_after(pieces, 2, b"after ")?;
    let before = end_after(pieces, 3, b"before ")?;
    if !ends_after(pieces, 3) {
        return Err(MessageFault::BadLine(4));
    }
    Ok(Message::Renew(Renewal {
        serial,
        after,
        before,
    }))
}
