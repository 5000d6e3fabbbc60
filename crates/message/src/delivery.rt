//! A signature for a certificate.

ghost use Rattle.std.specs.Prelude.{map};
ghost use Rattle.message.specs.Reading.{Gives, delivery_in, made};
ghost use Rattle.message.specs.declared.kinds.Message.TheVariants as message;

use crate::kinds::Message;
use crate::line::{ends_after, line};
use crate::message_fault::MessageFault;
use crate::value::{digest_after, serial_after, signature_after};
use lines::Signature;

/// The signature of a certificate's body (the unsigned certificate).
#[derive(Clone, Copy)]
pub struct Delivery {
    /// The serial of the certificate, 1 to 9223372036854775806.
    pub serial: u64,
    /// The SHA-256 of the body that was signed, as 64 hexadecimal digits in lower case.
    pub digest: [u8; 64],
    /// The CA's signature of the body.
    pub signature: Signature,
}

/// The delivery with these lines.
#[tactic(auto, unfolding(crate::specs::Reading::delivery_in))]
pub(crate) fn delivery_in(pieces: &[&[u8]]) -> Result<Message, MessageFault>
    ensures { Gives result (made (λ x. message.Deliver x) (delivery_in (map (λ x. x.now) pieces.now))) }
{
    let Some(serial) = serial_after(line(pieces, 1), b"deliver ") else {
        return Err(MessageFault::BadLine(1));
    };
    let Some(digest) = digest_after(line(pieces, 2), b"digest ") else {
        return Err(MessageFault::BadLine(2));
    };
    let Some(signature) = signature_after(line(pieces, 3), b"signature ") else {
        return Err(MessageFault::BadLine(3));
    };
    if !ends_after(pieces, 3) {
        return Err(MessageFault::BadLine(4));
    }
    Ok(Message::Deliver(Delivery {
        serial,
        digest,
        signature,
    }))
}
