//! Reading messages.

ghost use Rattle.std.specs.Prelude.{◌≡◌, ℕ, IfOk, IsTrue, map};
ghost use Rattle.message.specs.Belonging.{BelongsTo};
ghost use Rattle.message.specs.Faults.{IsFirstBad};
ghost use Rattle.message.specs.Reading.{Gives, begins, message_at, message_in, one_line_message_in, pieces};
ghost use Rattle.message.specs.Texts.{message_text};
ghost use Rattle.message.specs.Values.{is_message};
ghost use Rattle.message.specs.declared.kinds.Message.{Message};

use crate::delivery::delivery_in;
use crate::department::department_in;
use crate::issue::issue_in;
use crate::kinds::Message;
use crate::line::{after, line};
use crate::message_fault::MessageFault;
use crate::renewal::renewal_in;
use crate::single::{key_id_in, key_in, range_in, serial_in};
use std::alloc::Global;
use text::cut;

/// Whether line 1 begins with these bytes.
fn begins(pieces: &[&[u8]], head: &[u8]) -> bool
    ensures { result ≡ begins head.now (map (λ x. x.now) pieces.now) }
{
    after(line(pieces, 1), head).is_some()
}

fn one_line_message_in(alloc: Global, pieces: &[&[u8]]) -> Result<Message, MessageFault>
    ensures { Gives result (one_line_message_in (map (λ x. x.now) pieces.now)) }
{
    if begins(pieces, b"revoke-serial ") {
        return serial_in(pieces);
    }
    if begins(pieces, b"revoke-range ") {
        return range_in(pieces);
    }
    if begins(pieces, b"revoke-keyid ") {
        return key_id_in(alloc, pieces);
    }
    if begins(pieces, b"rollover ") {
        return key_in(alloc, pieces);
    }
    Err(MessageFault::BadLine(1))
}

fn message_in(alloc: Global, pieces: &[&[u8]]) -> Result<Message, MessageFault>
    ensures { Gives result (message_in (map (λ x. x.now) pieces.now)) }
{
    if begins(pieces, b"department ") {
        return department_in(alloc, pieces);
    }
    if begins(pieces, b"issue ") {
        return issue_in(alloc, pieces);
    }
    if begins(pieces, b"renew ") {
        return renewal_in(pieces);
    }
    if begins(pieces, b"deliver ") {
        return delivery_in(pieces);
    }
    one_line_message_in(alloc, pieces)
}

fn read(alloc: Global, bytes: &[u8]) -> Result<Message, MessageFault>
    ensures { Gives result (message_at bytes.now) }
{
    let pieces = cut(alloc, bytes, b'\n')?;
    message_in(alloc, pieces.as_slice())
}

/// Reads a message: lines that each end with a line feed. Line 1 gives the kind.
///
/// # Errors
///
/// `BadLine(n)`: line n, counted from 1, is the first that no message has in that place after the lines before
/// it. A line that is missing, or lacks its line feed, fits nothing, nor does a line after the last.
pub fn read_message(alloc: Global, bytes: &[u8]) -> Result<Message, MessageFault>
    // The result is that of reading line by line, as defined.
    ensures exact { Gives result (message_at bytes.now) }

    // The message is valid, and the bytes are its text.
    ensures found { IfOk result (BelongsTo bytes.now) }

    // The text of a valid message is read, unless memory is refused.
    ensures only { (m : Message) → IsTrue (is_message m) → bytes.now ≡ message_text m → Gives result (Ok m) }

    // The reported line is the first bad one, and a first bad line is reported, unless memory is refused.
    ensures fault { (n : ℕ) → result ≡ Err (MessageFault.BadLine n) → IsFirstBad bytes.now n }
    ensures answered { (n : ℕ) → IsFirstBad bytes.now n → Gives result (Err n) }
{
    read(alloc, bytes)
}
