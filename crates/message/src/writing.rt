//! Writing messages.

ghost use Rattle.std.specs.Prelude.{◌≡◌, ◌++◌, [], ◌∷◌, IfOk, IsTrue, OnOk, codes, decimal, map};
ghost use Rattle.lines.specs.KeyLines.{key_line_text};
ghost use Rattle.lines.specs.SubjectLines.{subject_line_text};
ghost use Rattle.lines.specs.Subjects.{are_parts};
ghost use Rattle.message.specs.Ends.{ends_of};
ghost use Rattle.message.specs.Texts.{
  IsWritable,
  delivery_lines,
  demand_line,
  department_text,
  end_lines,
  issue_text,
  key_types_lines,
  kind_text,
  line,
  lines_text,
  list_line,
  message_text,
  option_line,
  range_words,
  renewal_lines,
  signature_text,
};

use crate::delivery::Delivery;
use crate::department::Department;
use crate::issue::Issue;
use crate::kinds::Message;
use crate::renewal::Renewal;
use crate::serial_range::SerialRange;
use base64::engine::general_purpose::STANDARD;
use lines::{KeyLine, Signature, SubjectLine, put_key_line, put_subject_line, signature_blob_of};
use std::alloc::Global;
use text::{NoMemory, Pair, Text};
use values::{Kind, is_flag, put_decimal};

/// Appends a line that consists of two parts.
fn put_line(out: &mut Vec<u8>, head: &[u8], value: &[u8]) -> Result<(), NoMemory>
    ensures { OnOk result (out.new.items ≡ out.old.items ++ lines_text ((head.now ++ value.now) ∷ [])) }
{
    out.extend_from_slice(head)?;
    out.extend_from_slice(value)?;
    out.push(b'\n')?;
    Ok(())
}

fn put_number(out: &mut Vec<u8>, head: &[u8], number: u64) -> Result<(), NoMemory>
    ensures { OnOk result (out.new.items ≡ out.old.items ++ lines_text ((head.now ++ decimal number) ∷ [])) }
{
    out.extend_from_slice(head)?;
    put_decimal(out, number)?;
    out.push(b'\n')?;
    Ok(())
}

/// Appends a list after its word, without a line feed.
fn put_listed(out: &mut Vec<u8>, word: &[u8], texts: &[Text]) -> Result<(), NoMemory>
    ensures { OnOk result (out.new.items ≡ out.old.items ++ list_line word.now texts.now) }
{
    out.extend_from_slice(word)?;
    let mut before = b' ';
    for text in texts {
        out.push(before)?;
        out.extend_from_slice(text.as_slice())?;
        before = b',';
    }
    Ok(())
}

fn put_list(out: &mut Vec<u8>, word: &[u8], texts: &[Text]) -> Result<(), NoMemory>
    ensures { OnOk result (out.new.items ≡ out.old.items ++ lines_text (list_line word.now texts.now ∷ [])) }
{
    put_listed(out, word, texts)?;
    out.push(b'\n')?;
    Ok(())
}

/// The line of a department's key types, without its line feed.
///
/// # Errors
///
/// `NoMemory`, if an allocation was refused.
pub fn key_types_line_of(alloc: Global, key_types: &[Text]) -> Result<Text, NoMemory>
    ensures { IfOk result (λ line. line ≡ list_line (codes "key-types") key_types.now) }
{
    let mut out = Vec::new(alloc);
    put_listed(&mut out, b"key-types", key_types)?;
    Ok(Text::from_vec(out))
}

fn put_option(out: &mut Vec<u8>, option: &Pair) -> Result<(), NoMemory>
    ensures { OnOk result (out.new.items ≡ out.old.items ++ lines_text (option_line option.now ∷ [])) }
{
    let name = option.name.as_slice();
    if is_flag(name) {
        return put_line(out, b"option ", name);
    }
    out.extend_from_slice(b"option ")?;
    out.extend_from_slice(name)?;
    put_line(out, b" ", option.value.as_slice())
}

fn put_options(out: &mut Vec<u8>, options: &[Pair]) -> Result<(), NoMemory>
    ensures { OnOk result (out.new.items ≡ out.old.items ++ lines_text (map option_line options.now)) }
{
    for option in options {
        put_option(out, option)?;
    }
    Ok(())
}

fn put_kind(out: &mut Vec<u8>, kind: Kind) -> Result<(), NoMemory>
    ensures { OnOk result (out.new.items ≡ out.old.items ++ lines_text (line (codes "kind") (kind_text kind) ∷ [])) }
{
    match kind {
        Kind::User => put_line(out, b"kind ", b"user"),
        Kind::Host => put_line(out, b"kind ", b"host"),
    }
}

/// Appends the line of an option that certificates must have, without a line feed.
fn put_demanded(out: &mut Vec<u8>, demand: &Pair) -> Result<(), NoMemory>
    ensures { OnOk result (out.new.items ≡ out.old.items ++ demand_line demand.now) }
{
    out.extend_from_slice(b"must ")?;
    out.extend_from_slice(demand.name.as_slice())?;
    if !demand.value.is_empty() {
        out.push(b' ')?;
        out.extend_from_slice(demand.value.as_slice())?;
    }
    Ok(())
}

fn put_demand(out: &mut Vec<u8>, demand: &Pair) -> Result<(), NoMemory>
    ensures { OnOk result (out.new.items ≡ out.old.items ++ lines_text (demand_line demand.now ∷ [])) }
{
    put_demanded(out, demand)?;
    out.push(b'\n')?;
    Ok(())
}

/// The line of an option that certificates must have, without its line feed.
///
/// # Errors
///
/// `NoMemory`, if an allocation was refused.
pub fn demand_line_of(alloc: Global, demand: &Pair) -> Result<Text, NoMemory>
    ensures { IfOk result (λ line. line ≡ demand_line demand.now) }
{
    let mut out = Vec::new(alloc);
    put_demanded(&mut out, demand)?;
    Ok(Text::from_vec(out))
}

fn put_demands(out: &mut Vec<u8>, demands: &[Pair]) -> Result<(), NoMemory>
    ensures { OnOk result (out.new.items ≡ out.old.items ++ lines_text (map demand_line demands.now)) }
{
    for demand in demands {
        put_demand(out, demand)?;
    }
    Ok(())
}

fn put_key_types(out: &mut Vec<u8>, key_types: &[Text]) -> Result<(), NoMemory>
    ensures { OnOk result (out.new.items ≡ out.old.items ++ lines_text (key_types_lines key_types.now)) }
{
    if key_types.is_empty() {
        return Ok(());
    }
    put_list(out, b"key-types", key_types)
}

/// Appends the lines of a department after its options.
fn put_ends(out: &mut Vec<u8>, department: &Department) -> Result<(), NoMemory>
    ensures { OnOk result (out.new.items ≡ out.old.items ++ lines_text (end_lines (ends_of department.now))) }
{
    put_demands(out, department.demands.as_slice())?;
    put_list(out, b"extensions", department.extensions.as_slice())?;
    put_key_types(out, department.key_types.as_slice())?;
    put_number(out, b"maxlife ", department.longest_life)?;
    put_list(out, b"namespaces", department.namespaces.as_slice())
}

/// Appends the text of a department.
///
/// # Errors
///
/// `NoMemory`, if an allocation was refused.
pub fn put_department(out: &mut Vec<u8>, department: &Department) -> Result<(), NoMemory>
    ensures { OnOk result (out.new.items ≡ out.old.items ++ department_text department.now) }
{
    put_line(out, b"department ", department.name.as_slice())?;
    put_kind(out, department.kind)?;
    put_list(out, b"admins", department.administrators.as_slice())?;
    put_list(out, b"principals", department.rules.as_slice())?;
    put_list(out, b"options", department.options.as_slice())?;
    put_ends(out, department)
}

fn put_rollover(out: &mut Vec<u8>, key: &KeyLine) -> Result<(), NoMemory>
    ensures { OnOk result (out.new.items ≡ out.old.items
        ++ lines_text (line (codes "rollover") (key_line_text key.now) ∷ [])) }
{
    out.extend_from_slice(b"rollover ")?;
    put_key_line(out, key)?;
    out.push(b'\n')?;
    Ok(())
}

fn put_subject(out: &mut Vec<u8>, alloc: Global, key: &SubjectLine) -> Result<(), NoMemory>
    requires { IsTrue (are_parts key.now.key_type key.now.key) }
    ensures { OnOk result (out.new.items ≡ out.old.items
        ++ lines_text (line (codes "key") (subject_line_text key.now) ∷ [])) }
{
    out.extend_from_slice(b"key ")?;
    put_subject_line(alloc, out, key)?;
    out.push(b'\n')?;
    Ok(())
}

fn put_issue(out: &mut Vec<u8>, alloc: Global, issue: &Issue) -> Result<(), NoMemory>
    requires { IsTrue (are_parts issue.now.key.key_type issue.now.key.key) }
    ensures { OnOk result (out.new.items ≡ out.old.items ++ issue_text issue.now) }
{
    put_line(out, b"issue ", issue.department.as_slice())?;
    put_line(out, b"keyid ", issue.key_id.as_slice())?;
    put_subject(out, alloc, &issue.key)?;
    put_list(out, b"principals", issue.principals.as_slice())?;
    put_number(out, b"after ", issue.after)?;
    put_number(out, b"before ", issue.before)?;
    put_options(out, issue.options.as_slice())?;
    put_list(out, b"extensions", issue.extensions.as_slice())
}

fn put_renewal(out: &mut Vec<u8>, renewal: &Renewal) -> Result<(), NoMemory>
    ensures { OnOk result (out.new.items ≡ out.old.items ++ lines_text (renewal_lines renewal.now)) }
{
    put_number(out, b"renew ", renewal.serial)?;
    put_number(out, b"after ", renewal.after)?;
    put_number(out, b"before ", renewal.before)
}

fn put_signature(out: &mut Vec<u8>, signature: &Signature) -> Result<(), NoMemory>
    ensures { OnOk result (out.new.items ≡ out.old.items
        ++ lines_text (line (codes "signature") (signature_text signature.now) ∷ [])) }
{
    let mut text = [0; 112];
    let Ok(_) = STANDARD.encode_slice(&signature_blob_of(&signature.bytes), &mut text) else {
        unreachable!();
    };
    put_line(out, b"signature ", &text)
}

fn put_delivery(out: &mut Vec<u8>, delivery: &Delivery) -> Result<(), NoMemory>
    ensures { OnOk result (out.new.items ≡ out.old.items ++ lines_text (delivery_lines delivery.now)) }
{
    put_number(out, b"deliver ", delivery.serial)?;
    put_line(out, b"digest ", &delivery.digest)?;
    put_signature(out, &delivery.signature)
}

fn put_range(out: &mut Vec<u8>, range: SerialRange) -> Result<(), NoMemory>
    ensures { OnOk result (out.new.items ≡ out.old.items
        ++ lines_text (line (codes "revoke-range") (range_words range) ∷ [])) }
{
    out.extend_from_slice(b"revoke-range ")?;
    put_decimal(out, range.lo)?;
    put_number(out, b" ", range.hi)
}

fn put_message(out: &mut Vec<u8>, alloc: Global, message: &Message) -> Result<(), NoMemory>
    requires { IsWritable message.now }
    ensures { OnOk result (out.new.items ≡ out.old.items ++ message_text message.now) }
{
    match message {
        Message::Department(department) => put_department(out, department),
        Message::Issue(issue) => put_issue(out, alloc, issue),
        Message::Renew(renewal) => put_renewal(out, renewal),
        Message::Deliver(delivery) => put_delivery(out, delivery),
        Message::RevokeSerial(serial) => put_number(out, b"revoke-serial ", *serial),
        Message::RevokeRange(range) => put_range(out, *range),
        Message::RevokeKeyId(key_id) => put_line(out, b"revoke-keyid ", key_id.as_slice()),
        Message::Rollover(key) => put_rollover(out, key),
    }
}

/// The text of a message. Reading the text of a valid message gives the message back.
///
/// # Errors
///
/// `NoMemory`, if an allocation was refused.
pub fn write_message(alloc: Global, message: &Message) -> Result<Vec<u8>, NoMemory>
    requires { IsWritable message.now }
    ensures { IfOk result (λ text. text.items ≡ message_text message.now) }
{
    let mut out = Vec::new(alloc);
    put_message(&mut out, alloc, message)?;
    Ok(out)
}
