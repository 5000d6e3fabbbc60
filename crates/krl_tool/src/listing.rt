//! Lists in memory.

ghost use Rattle.std.specs.Prelude.{◌≡◌, IfOk};
ghost use Rattle.krl.specs.Published.{published_text};

use anyhow::{Result, bail};
use krl::{CaPart, KrlHead};
use krl_writer::{krl_len, write_krl};
use std::alloc::Global;
use text::Texts;
use wire::VecSink;

/// The largest number of CAs in a list.
const MAX_CAS: usize = 8;

/// The bytes of a list. It is refused for more than eight CAs, and if a section would be too long.
pub(crate) fn list_of(
    alloc: Global,
    head: &KrlHead,
    parts: &[CaPart],
    key_ids: &Texts,
) -> Result<Vec<u8>>
    ensures { IfOk result (λ v. v.items ≡ published_text head.now parts.now key_ids.now) }
{
    if parts.len() > MAX_CAS {
        bail!("more than {MAX_CAS} CAs");
    }
    let Some(len) = krl_len(parts, key_ids) else {
        bail!("too long a list");
    };
    let mut sink = VecSink::new(Vec::with_capacity(alloc, len as usize)?);
    if write_krl(head, parts, key_ids, &mut sink).is_err() {
        bail!("out of memory");
    }
    Ok(sink.into_vec())
}
