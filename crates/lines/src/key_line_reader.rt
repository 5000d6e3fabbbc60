//! Reading public-key lines.

ghost use Rattle.std.specs.Prelude.{◌≡◌, ◌≢◌, ◌⊎◌, false, true, IsTrue, IfOk, IfErr, option_copied, position};
ghost use Rattle.std.specs.List.{list_all};
ghost use Rattle.lines.specs.KeyLines.{is_comment, is_comment_or_none, is_comment_byte, is_key_line, key_line_text};
ghost use Rattle.lines.specs.Reading.{GivesKeyLine, IsLineFault, after_type, blob_of, comment_of, is_space};
ghost use Rattle.lines.specs.Reading.{key_line_at, word_of};
ghost use Rattle.lines.specs.declared.key_line.KeyLine.{KeyLine};
ghost use Rattle.lines.specs.declared.key_line.LineFault.{LineFault};

use crate::blob::read_key_blob;
use crate::key_line::{KeyLine, LineFault};
use base64::engine::general_purpose::STANDARD;
use std::alloc::Global;
use text::Text;

/// The most bytes in a comment.
pub const MAX_COMMENT: usize = 1024;

fn after_type(line: &[u8]) -> Option<&[u8]>
    ensures { option_copied result ≡ after_type line.now }
{
    line.strip_prefix(b"ssh-ed25519 ".as_slice())
}

fn first_space(text: &[u8]) -> Option<usize>
    ensures { result ≡ position is_space text.now }
{
    text.iter().position(|b| *b == b' ')
}

/// The word up to the first space, and the text after the space. Without a space the text is one word.
pub fn word_and_rest(text: &[u8]) -> (&[u8], Option<&[u8]>)
    ensures word { result.0.now ≡ word_of text.now }
    ensures rest { option_copied result.1 ≡ comment_of text.now }
{
    match first_space(text) {
        Some(at) => (&text[..at], Some(&text[at + 1..])),
        None => (text, None),
    }
}

fn blob_in(word: &[u8]) -> Option<[u8; 51]>
    ensures { result ≡ blob_of word.now }
{
    if word.len() != 68 {
        return None;
    }
    let mut blob = [0; 51];
    match STANDARD.decode_slice_unchecked(word, &mut blob) {
        Ok(51) => Some(blob),
        _ => None,
    }
}

fn is_comment_byte(byte: u8) -> bool
    ensures { result ≡ is_comment_byte byte }
{
    matches!(byte, 0x09 | 0x20..=0x7e | 0x80..=0xff)
}

fn are_comment_bytes(bytes: &[u8]) -> bool
    ensures { result ≡ list_all is_comment_byte bytes.now }
{
    bytes.iter().all(|b| is_comment_byte(*b))
}

/// Whether the bytes may be a comment: 0 to 1024 bytes, each a tab, 0x20 to 0x7e, or 0x80 to 0xff.
pub fn is_comment(bytes: &[u8]) -> bool
    ensures { result ≡ is_comment bytes.now }
{
    bytes.len() <= MAX_COMMENT && are_comment_bytes(bytes)
}

fn comment_in(alloc: Global, comment: Option<&[u8]>) -> Result<Option<Text>, LineFault>
    ensures ok { IfOk result (λ c. (c ≡ option_copied comment.entry) × IsTrue (is_comment_or_none c)) }
    ensures bad { result ≡ Err LineFault.BadComment → is_comment_or_none (option_copied comment.entry) ≡ false }
    ensures none { result ≡ Err LineFault.NoMemory → is_comment_or_none (option_copied comment.entry) ≡ true }
    ensures no_other { IfErr result (λ e. (e ≡ LineFault.BadComment) ⊎ (e ≡ LineFault.NoMemory)) }
{
    let Some(comment) = comment else {
        return Ok(None);
    };
    if !is_comment(comment) {
        return Err(LineFault::BadComment);
    }
    Ok(Some(Text::from_slice(alloc, comment)?))
}

#[tactic(auto, unfolding(crate::specs::Reading::key_line_at))]
fn read(alloc: Global, line: &[u8]) -> Result<KeyLine, LineFault>
    ensures { GivesKeyLine result (key_line_at line.now) }
{
    let Some(rest) = after_type(line) else {
        return Err(LineFault::WrongType);
    };
    let (word, comment) = word_and_rest(rest);
    let Some(blob) = blob_in(word) else {
        return Err(LineFault::BadBase64);
    };
    let Some(key) = read_key_blob(&blob) else {
        return Err(LineFault::BadBlob);
    };
    let comment = comment_in(alloc, comment)?;
    Ok(KeyLine { key, comment })
}

/// Reads a public-key line (sshd(8), "AUTHORIZED_KEYS FILE FORMAT", without options): `ssh-ed25519`, a space, 68
/// characters of base64, and then nothing, or a space and a comment. The line is given without its line feed.
///
/// # Errors
///
/// The first fault from the left, in the order of `LineFault`. Memory is allocated only once the line is found valid.
pub fn read_key_line(alloc: Global, line: &[u8]) -> Result<KeyLine, LineFault>
    ensures exact { GivesKeyLine result (key_line_at line.now) }

    // The line that is read is valid, and the text is its text.
    ensures found { IfOk result (λ k. IsTrue (is_key_line k) × (line.now ≡ key_line_text k)) }

    // The text of a valid line is read, unless memory is refused.
    ensures only { (k : KeyLine) → IsTrue (is_key_line k) → line.now ≡ key_line_text k → GivesKeyLine result (Ok k) }

    // A reported fault is present in the text, and a fault that is present is reported.
    ensures fault { IfErr result (λ e. IsLineFault line.now e) }
    ensures answered { (e : LineFault) → e ≢ LineFault.NoMemory → IsLineFault line.now e → result ≡ Err e }
{
    read(alloc, line)
}
