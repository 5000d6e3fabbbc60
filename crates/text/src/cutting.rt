//! Splitting texts at a byte.

ghost use Rattle.std.specs.Prelude.{◌≡◌, ◌==◌, map, IfOk};
ghost use Rattle.std.specs.List.{slice_split};

use crate::memory::NoMemory;
use std::alloc::{AllocError, Global};

fn pieces(alloc: Global, bytes: &[u8], at: u8) -> Result<Vec<&[u8]>, AllocError>
    ensures { IfOk result (λ v. map (λ x. x.now) v.items ≡ slice_split (λ b. b == at) bytes.now) }
{
    bytes.split(|b| *b == at).collect(alloc)
}

/// The pieces between the bytes equal to `at`, one more than there are such bytes.
///
/// # Errors
///
/// `NoMemory`, if an allocation was refused.
pub fn cut(alloc: Global, bytes: &[u8], at: u8) -> Result<Vec<&[u8]>, NoMemory>
    ensures { IfOk result (λ v. map (λ x. x.now) v.items ≡ slice_split (λ b. b == at) bytes.now) }
{
    Ok(pieces(alloc, bytes, at)?)
}
