//! Messages of one line.

ghost use Rattle.std.specs.Prelude.{codes, map};
ghost use Rattle.message.specs.Reading.{
  Gives,
  key_id_after,
  key_line_after,
  made,
  number_after,
  one_line_in,
  range_after,
};
ghost use Rattle.message.specs.declared.kinds.Message.TheVariants as message;
ghost use Rattle.values.specs.Serials.{is_serial};

use crate::kinds::Message;
use crate::line::{ends_after, line};
use crate::lists::TextKind;
use crate::message_fault::MessageFault;
use crate::value::{key_line_after, range_after, serial_after, text_after};
use std::alloc::Global;

#[tactic(auto, unfolding(crate::specs::Reading::one_line_in))]
pub(crate) fn serial_in(pieces: &[&[u8]]) -> Result<Message, MessageFault>
    ensures { Gives result (made (λ n. message.RevokeSerial n)
        (one_line_in (number_after is_serial (codes "revoke-serial ")) (map (λ x. x.now) pieces.now))) }
{
    let Some(serial) = serial_after(line(pieces, 1), b"revoke-serial ") else {
        return Err(MessageFault::BadLine(1));
    };
    if !ends_after(pieces, 1) {
        return Err(MessageFault::BadLine(2));
    }
    Ok(Message::RevokeSerial(serial))
}

#[tactic(auto, unfolding(crate::specs::Reading::one_line_in))]
pub(crate) fn range_in(pieces: &[&[u8]]) -> Result<Message, MessageFault>
    ensures { Gives result (made (λ r. message.RevokeRange r)
        (one_line_in (range_after (codes "revoke-range ")) (map (λ x. x.now) pieces.now))) }
{
    let Some(range) = range_after(line(pieces, 1), b"revoke-range ") else {
        return Err(MessageFault::BadLine(1));
    };
    if !ends_after(pieces, 1) {
        return Err(MessageFault::BadLine(2));
    }
    Ok(Message::RevokeRange(range))
}

#[tactic(auto, unfolding(crate::specs::Reading::one_line_in))]
pub(crate) fn key_id_in(alloc: Global, pieces: &[&[u8]]) -> Result<Message, MessageFault>
    ensures { Gives result (made (λ k. message.RevokeKeyId k)
        (one_line_in (key_id_after (codes "revoke-keyid ")) (map (λ x. x.now) pieces.now))) }
{
    let key_id = text_after(alloc, pieces, 1, b"revoke-keyid ", TextKind::KeyId)?;
    if !ends_after(pieces, 1) {
        return Err(MessageFault::BadLine(2));
    }
    Ok(Message::RevokeKeyId(key_id))
}

#[tactic(auto, unfolding(crate::specs::Reading::one_line_in))]
pub(crate) fn key_in(alloc: Global, pieces: &[&[u8]]) -> Result<Message, MessageFault>
    ensures { Gives result (made (λ k. message.Rollover k)
        (one_line_in (key_line_after (codes "rollover ")) (map (λ x. x.now) pieces.now))) }
{
    let key = key_line_after(alloc, pieces, 1, b"rollover ")?;
    if !ends_after(pieces, 1) {
        return Err(MessageFault::BadLine(2));
    }
    Ok(Message::Rollover(key))
}
