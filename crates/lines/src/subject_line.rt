//! Public-key lines of keys that a certificate may be for.

ghost use Rattle.std.specs.Prelude.{◌≡◌, ◌++◌, IfOk, IsTrue, OnOk, option_copied};
ghost use Rattle.std.specs.Option.{option_map};
ghost use Rattle.std.specs.Result.{result_ok};
ghost use Rattle.base64.specs.Engines.{standard};
ghost use Rattle.base64.specs.GeneralPurpose.{decode_of};
ghost use Rattle.lines.specs.KeyLines.{comment_text, is_comment_or_none};
ghost use Rattle.lines.specs.Subjects.{are_parts};
ghost use Rattle.lines.specs.SubjectLines.{
  is_subject_line,
  key_in_blob,
  key_in_word,
  line_after,
  subject_blob,
  subject_line_at,
  subject_line_text,
};

use crate::cert_line::put_word;
use crate::key_line_reader::{is_comment, word_and_rest};
use crate::subject::{KeyType, are_parts, key_name, read_strings_of, type_named};
use base64::DecodeAllocError;
use base64::engine::general_purpose::STANDARD;
use std::alloc::Global;
use text::{NoMemory, Text, Texts};
use wire::{Cursor, put_string};

/// A public key, with a comment or none.
#[derive(Drop)]
pub struct SubjectLine {
    /// The type of the key.
    pub key_type: KeyType,
    /// The strings of its blob after the type's name.
    pub key: Texts,
    /// Up to 1024 bytes, each a tab, printable ASCII or beyond ASCII.
    pub comment: Option<Text>,
}

// The bytes that a word of base64 encodes.
fn decoded(alloc: Global, word: &[u8]) -> Result<Option<Vec<u8>>, NoMemory>
    ensures { IfOk result (λ o. option_map (λ v. v.items) o ≡ result_ok (decode_of standard word.now)) }
{
    match STANDARD.decode(alloc, word) {
        Ok(bytes) => Ok(Some(bytes)),
        Err(DecodeAllocError::OutOfMemory) => Err(NoMemory),
        Err(_) => Ok(None),
    }
}

// The strings of the key of this type with this blob.
fn key_in_blob(alloc: Global, key_type: KeyType, blob: &[u8]) -> Result<Option<Texts>, NoMemory>
    ensures { IfOk result (λ o. o ≡ key_in_blob key_type blob.now) }
{
    let mut cursor = Cursor::new(blob);
    let Some(name) = cursor.string() else {
        return Ok(None);
    };
    if name != key_name(key_type) {
        return Ok(None);
    }
    let Some(key) = read_strings_of(alloc, &mut cursor, key_type)? else {
        return Ok(None);
    };
    if !are_parts(key_type, key.as_slice()) || !cursor.at_end() {
        return Ok(None);
    }
    Ok(Some(key))
}

fn key_in_word(alloc: Global, key_type: KeyType, word: &[u8]) -> Result<Option<Texts>, NoMemory>
    ensures { IfOk result (λ o. o ≡ key_in_word key_type word.now) }
{
    let Some(blob) = decoded(alloc, word)? else {
        return Ok(None);
    };
    key_in_blob(alloc, key_type, blob.as_slice())
}

fn is_comment_or_none(comment: Option<&[u8]>) -> bool
    ensures { result ≡ is_comment_or_none (option_copied comment.entry) }
{
    match comment {
        Some(comment) => is_comment(comment),
        None => true,
    }
}

fn copied(alloc: Global, comment: Option<&[u8]>) -> Result<Option<Text>, NoMemory>
    ensures { IfOk result (λ c. c ≡ option_copied comment.entry) }
{
    match comment {
        Some(comment) => Ok(Some(Text::from_slice(alloc, comment)?)),
        None => Ok(None),
    }
}

fn line_after(
    alloc: Global,
    key_type: KeyType,
    rest: &[u8],
) -> Result<Option<SubjectLine>, NoMemory>
    ensures { IfOk result (λ o. o ≡ line_after key_type rest.now) }
{
    let (word, comment) = word_and_rest(rest);
    let Some(key) = key_in_word(alloc, key_type, word)? else {
        return Ok(None);
    };
    if !is_comment_or_none(comment) {
        return Ok(None);
    }
    let comment = copied(alloc, comment)?;
    Ok(Some(SubjectLine {
        key_type,
        key,
        comment,
    }))
}

fn read(alloc: Global, line: &[u8]) -> Result<Option<SubjectLine>, NoMemory>
    ensures { IfOk result (λ o. o ≡ subject_line_at line.now) }
{
    let (word, rest) = word_and_rest(line);
    let Some(key_type) = type_named(word) else {
        return Ok(None);
    };
    let Some(rest) = rest else {
        return Ok(None);
    };
    line_after(alloc, key_type, rest)
}

/// Reads a public-key line of any type, without its line feed: `None` if it isn't one.
///
/// # Errors
///
/// `NoMemory`, if an allocation was refused.
pub fn read_subject_line(alloc: Global, line: &[u8]) -> Result<Option<SubjectLine>, NoMemory>
    ensures exact { IfOk result (λ o. o ≡ subject_line_at line.now) }

    // The line that is read is valid, and the text is its text; the text of a valid line is read as it.
    ensures found { IfOk result (λ o. (k : SubjectLine) → o ≡ Some k
        → IsTrue (is_subject_line k) × (line.now ≡ subject_line_text k)) }
    ensures only { (k : SubjectLine) → IsTrue (is_subject_line k) → line.now ≡ subject_line_text k
        → IfOk result (λ o. o ≡ Some k) }
{
    read(alloc, line)
}

fn blob_of(alloc: Global, line: &SubjectLine) -> Result<Vec<u8>, NoMemory>
    requires { IsTrue (are_parts line.now.key_type line.now.key) }
    ensures { IfOk result (λ blob. blob.items ≡ subject_blob line.now.key_type line.now.key) }
{
    let mut blob = Vec::new(alloc);
    put_string(&mut blob, key_name(line.key_type))?;
    for string in line.key.as_slice() {
        put_string(&mut blob, string.as_slice())?;
    }
    Ok(blob)
}

fn put_comment(out: &mut Vec<u8>, comment: &Option<Text>) -> Result<(), NoMemory>
    ensures { OnOk result (out.new.items ≡ out.old.items ++ comment_text comment.now) }
{
    if let Some(comment) = comment {
        out.push(b' ')?;
        out.extend_from_slice(comment.as_slice())?;
    }
    Ok(())
}

/// Appends a public-key line of any type, without a line feed. Its key has to be one of the type.
///
/// # Errors
///
/// `NoMemory`, if an allocation was refused.
pub fn put_subject_line(
    alloc: Global,
    out: &mut Vec<u8>,
    line: &SubjectLine,
) -> Result<(), NoMemory>
    requires { IsTrue (are_parts line.now.key_type line.now.key) }
    ensures { OnOk result (out.new.items ≡ out.old.items ++ subject_line_text line.now) }
{
    let blob = blob_of(alloc, line)?;
    out.extend_from_slice(key_name(line.key_type))?;
    put_word(alloc, out, &blob)?;
    put_comment(out, &line.comment)
}
