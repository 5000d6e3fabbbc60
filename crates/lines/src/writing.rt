//! Writing public-key lines.

ghost use Rattle.std.specs.Prelude.{◌≡◌, ◌≤◌, ◌+◌, ◌++◌, length, vec_len, vec_capacity, IsOk, OnOk, OnErr, IfOk};
ghost use Rattle.base64.specs.Engines.{standard};
ghost use Rattle.base64.specs.GeneralPurpose.{encode_of};
ghost use Rattle.lines.specs.Keys.{key_blob};
ghost use Rattle.lines.specs.KeyLines.{key_line_head, key_line_text};

use crate::blob::key_blob_of;
use crate::key_line::KeyLine;
use base64::engine::general_purpose::STANDARD;
use std::alloc::Global;
use text::NoMemory;

fn key_base64(key: &[u8; 32]) -> [u8; 68]
    ensures { result ≡ encode_of standard (key_blob key.now) }
{
    let mut text = [0; 68];
    let Ok(_) = STANDARD.encode_slice(&key_blob_of(key), &mut text) else {
        unreachable!();
    };
    text
}

/// The 80 bytes of the public-key line of a key without a comment. It allocates nothing.
pub fn bare_key_line(key: &[u8; 32]) -> [u8; 80]
    ensures { result ≡ key_line_head ++ encode_of standard (key_blob key.now) }
{
    let mut line = [0; 80];
    line[..12].copy_from_slice(b"ssh-ed25519 ");
    line[12..].copy_from_slice(&key_base64(key));
    line
}

/// Appends a public-key line, without a line feed.
///
/// # Errors
///
/// `NoMemory`, if an allocation was refused, so never within the vector's capacity. The vector is unchanged.
pub fn put_key_line(out: &mut Vec<u8>, line: &KeyLine) -> Result<(), NoMemory>
    ensures ok { OnOk result (out.new.items ≡ out.old.items ++ key_line_text line.now) }
    ensures err { OnErr result (out.new.items ≡ out.old.items) }

    // It does not fail within the vector's capacity.
    ensures sure { vec_len out.old + length (key_line_text line.now) ≤ vec_capacity out.old → IsOk result }
{
    let front = bare_key_line(&line.key);
    match &line.comment {
        None => out.extend_from_slice(&front)?,
        Some(comment) => {
            // Reserve room for all of it first, so that a refusal leaves the vector unchanged.
            out.reserve(front.len() + 1 + comment.as_slice().len())?;
            out.extend_from_slice(&front)?;
            out.push(b' ')?;
            out.extend_from_slice(comment.as_slice())?;
        }
    }
    Ok(())
}

/// A public-key line as text, without a line feed.
///
/// # Errors
///
/// `NoMemory`, if an allocation was refused.
pub fn write_key_line(alloc: Global, line: &KeyLine) -> Result<Vec<u8>, NoMemory>
    ensures { IfOk result (λ text. text.items ≡ key_line_text line.now) }
{
    let mut out = Vec::new(alloc);
    put_key_line(&mut out, line)?;
    Ok(out)
}
