//! The texts of replies.

ghost use Rattle.std.specs.Prelude.{◌≡◌, ◌++◌, ◌∷◌, [], decimal, IfOk, OnOk};
ghost use Rattle.office.specs.Replies.{delivery_reply, department_reply, issue_reply, revocation_reply, rollover_reply};

use lines::body_digest;
use std::alloc::Global;
use text::{NoMemory, Text};
use values::put_decimal;

/// Appends a line with these words and this text to the reply.
fn put_text(reply: &mut Vec<u8>, words: &[u8], text: &[u8]) -> Result<(), NoMemory>
    ensures { OnOk result (reply.new.items ≡ reply.old.items ++ words.now ++ text.now ++ 10 ∷ []) }
{
    reply.extend_from_slice(words)?;
    reply.extend_from_slice(text)?;
    reply.push(b'\n')?;
    Ok(())
}

/// Appends a line with these words and this number to the reply.
fn put_number(reply: &mut Vec<u8>, words: &[u8], number: u64) -> Result<(), NoMemory>
    ensures { OnOk result (reply.new.items ≡ reply.old.items ++ words.now ++ decimal number ++ 10 ∷ []) }
{
    reply.extend_from_slice(words)?;
    put_decimal(reply, number)?;
    reply.push(b'\n')?;
    Ok(())
}

/// `department NAME`.
pub(crate) fn to_department(alloc: Global, name: &[u8]) -> Result<Text, NoMemory>
    ensures { IfOk result (λ t. t ≡ department_reply name.now) }
{
    let mut reply = Vec::new(alloc);
    put_text(&mut reply, b"department ".as_slice(), name)?;
    Ok(Text::from_vec(reply))
}

/// `issued SERIAL` and `digest HEX`.
pub(crate) fn to_issue(alloc: Global, serial: u64, body: &[u8]) -> Result<Text, NoMemory>
    ensures { IfOk result (λ t. t ≡ issue_reply serial body.now) }
{
    let mut reply = Vec::new(alloc);
    put_number(&mut reply, b"issued ".as_slice(), serial)?;
    put_text(&mut reply, b"digest ".as_slice(), &body_digest(body))?;
    Ok(Text::from_vec(reply))
}

/// `signed SERIAL`.
pub(crate) fn to_delivery(alloc: Global, serial: u64) -> Result<Text, NoMemory>
    ensures { IfOk result (λ t. t ≡ delivery_reply serial) }
{
    let mut reply = Vec::new(alloc);
    put_number(&mut reply, b"signed ".as_slice(), serial)?;
    Ok(Text::from_vec(reply))
}

/// `revoked` and `version VERSION`.
pub(crate) fn to_revocation(alloc: Global, version: u64) -> Result<Text, NoMemory>
    ensures { IfOk result (λ t. t ≡ revocation_reply version) }
{
    let mut reply = Vec::new(alloc);
    put_number(&mut reply, b"revoked\nversion ".as_slice(), version)?;
    Ok(Text::from_vec(reply))
}

/// `rollover NUMBER` and `since SERIAL`.
pub(crate) fn to_rollover(alloc: Global, number: u64, since: u64) -> Result<Text, NoMemory>
    ensures { IfOk result (λ t. t ≡ rollover_reply number since) }
{
    let mut reply = Vec::new(alloc);
    put_number(&mut reply, b"rollover ".as_slice(), number)?;
    put_number(&mut reply, b"since ".as_slice(), since)?;
    Ok(Text::from_vec(reply))
}
