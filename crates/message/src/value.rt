//! Values in lines, each after its word.

ghost use Rattle.std.specs.Prelude.{◌≡◌, ◌≤◌, map};
ghost use Rattle.std.specs.List.{list_all};
ghost use Rattle.std.specs.Option.{option_and_then};
ghost use Rattle.text.specs.Results.{or_fault};
ghost use Rattle.message.specs.Kinds.{is_text};
ghost use Rattle.message.specs.Reading.{
  Gives,
  rest_after,
  digest_after,
  key_line_after,
  subject_line_after,
  line_of,
  number_after,
  passing,
  range_after,
  range_of,
  signature_after,
  signature_at,
};
ghost use Rattle.values.specs.Serials.{is_serial};
ghost use Rattle.message.specs.Values.{is_digest, is_end, is_lower_hex, is_range};

use crate::line::{after, line, number_after};
use crate::lists::{TextKind, is_text};
use crate::message_fault::MessageFault;
use crate::serial_range::SerialRange;
use base64::engine::general_purpose::STANDARD;
use lines::{
    KeyLine, LineFault, Signature, SubjectLine, read_key_line, read_signature_blob,
    read_subject_line, word_and_rest,
};
use std::alloc::Global;
use text::Text;
use values::{LATEST_MOMENT, is_serial, read_decimal};

/// The text of this kind after these bytes on line `n`.
pub(crate) fn text_after(
    alloc: Global,
    pieces: &[&[u8]],
    n: usize,
    head: &[u8],
    kind: TextKind,
) -> Result<Text, MessageFault>
    requires { 1 ≤ n }
    ensures { Gives result (or_fault n
        (option_and_then (passing (is_text kind)) (rest_after head.now (line_of n (map (λ x. x.now) pieces.now))))) }
{
    match after(line(pieces, n), head) {
        Some(text) if is_text(kind, text) => Ok(Text::from_slice(alloc, text)?),
        _ => Err(MessageFault::BadLine(n as u64)),
    }
}

/// The public-key line after these bytes on line `n`.
pub(crate) fn key_line_after(
    alloc: Global,
    pieces: &[&[u8]],
    n: usize,
    head: &[u8],
) -> Result<KeyLine, MessageFault>
    requires { 1 ≤ n }
    ensures { Gives result (or_fault n (key_line_after head.now (line_of n (map (λ x. x.now) pieces.now)))) }
{
    let Some(text) = after(line(pieces, n), head) else {
        return Err(MessageFault::BadLine(n as u64));
    };
    match read_key_line(alloc, text) {
        Ok(key) => Ok(key),
        Err(LineFault::NoMemory) => Err(MessageFault::NoMemory),
        Err(
            LineFault::WrongType
            | LineFault::BadBase64
            | LineFault::BadBlob
            | LineFault::BadComment,
        ) => Err(MessageFault::BadLine(n as u64)),
    }
}

/// The public-key line of any type after these bytes on line `n`.
pub(crate) fn subject_line_after(
    alloc: Global,
    pieces: &[&[u8]],
    n: usize,
    head: &[u8],
) -> Result<SubjectLine, MessageFault>
    requires { 1 ≤ n }
    ensures { Gives result (or_fault n (subject_line_after head.now (line_of n (map (λ x. x.now) pieces.now)))) }
{
    let Some(text) = after(line(pieces, n), head) else {
        return Err(MessageFault::BadLine(n as u64));
    };
    match read_subject_line(alloc, text)? {
        Some(key) => Ok(key),
        None => Err(MessageFault::BadLine(n as u64)),
    }
}

/// The start or end of a validity after these bytes on line `n`.
pub(crate) fn end_after(pieces: &[&[u8]], n: usize, head: &[u8]) -> Result<u64, MessageFault>
    requires { 1 ≤ n }
    ensures { Gives result (or_fault n (number_after is_end head.now (line_of n (map (λ x. x.now) pieces.now)))) }
{
    match number_after(line(pieces, n), head) {
        Some(end) if end <= LATEST_MOMENT => Ok(end),
        _ => Err(MessageFault::BadLine(n as u64)),
    }
}

pub(crate) fn serial_after(line: &[u8], head: &[u8]) -> Option<u64>
    ensures { result ≡ number_after is_serial head.now line.now }
{
    let serial = number_after(line, head)?;
    if is_serial(serial) {
        Some(serial)
    } else {
        None
    }
}

fn range_of(text: &[u8]) -> Option<SerialRange>
    ensures { result ≡ range_of text.now }
{
    let (first, last) = word_and_rest(text);
    let last = last?;
    let lo = read_decimal(first)?;
    let hi = read_decimal(last)?;
    Some(SerialRange { lo, hi })
}

fn is_range(range: SerialRange) -> bool
    ensures { result ≡ is_range range }
{
    is_serial(range.lo) && is_serial(range.hi) && range.lo <= range.hi
}

pub(crate) fn range_after(line: &[u8], head: &[u8]) -> Option<SerialRange>
    ensures { result ≡ range_after head.now line.now }
{
    let range = range_of(after(line, head)?)?;
    if is_range(range) { Some(range) } else { None }
}

fn is_lower_hex(byte: u8) -> bool
    ensures { result ≡ is_lower_hex byte }
{
    matches!(byte, b'0'..=b'9' | b'a'..=b'f')
}

fn are_lower_hex(bytes: &[u8]) -> bool
    ensures { result ≡ list_all is_lower_hex bytes.now }
{
    bytes.iter().all(|b| is_lower_hex(*b))
}

fn is_digest(text: &[u8]) -> bool
    ensures { result ≡ is_digest text.now }
{
    text.len() == 64 && are_lower_hex(text)
}

pub(crate) fn digest_after(line: &[u8], head: &[u8]) -> Option<[u8; 64]>
    ensures { result ≡ digest_after head.now line.now }
{
    let text = after(line, head)?;
    if !is_digest(text) {
        return None;
    }
    <[u8; 64]>::try_from(text).ok()
}

fn signature_at(text: &[u8]) -> Option<Signature>
    ensures { result ≡ signature_at text.now }
{
    if text.len() != 112 {
        return None;
    }
    let mut blob = [0; 84];
    let Ok(length) = STANDARD.decode_slice_unchecked(text, &mut blob) else {
        return None;
    };
    let bytes = read_signature_blob(&blob[..length])?;
    Some(Signature { bytes })
}

pub(crate) fn signature_after(line: &[u8], head: &[u8]) -> Option<Signature>
    ensures { result ≡ signature_after head.now line.now }
{
    signature_at(after(line, head)?)
}
