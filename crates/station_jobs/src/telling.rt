//! The texts about jobs that were done.

ghost use Rattle.std.specs.Prelude.{◌≡◌, IfOk};
ghost use Rattle.station_jobs.specs.Whole.{closed, ready_line, ready_text, retired_text};

use crate::station_fault::StationFault;
use guard::Scope;
use lines::{KeyLine, fingerprint};
use std::alloc::Global;
use text::NoMemory;
use values::put_decimal;

/// The result of a job and of closing its guard. A fault of the job is kept; if the job succeeded, a fault of closing
/// is returned.
pub fn closed<T: Copy>(
    done: Result<T, StationFault>,
    closing: Result<(), StationFault>,
) -> Result<T, StationFault>
    ensures { result ≡ closed done closing }
{
    match (done, closing) {
        (Ok(_), Err(fault)) => Err(fault),
        (done, _) => done,
    }
}

/// The text about a new guard, with the fingerprint of its CA.
fn ready_line(alloc: Global, first: u64, last: u64, fingerprint: &[u8]) -> Result<Vec<u8>, NoMemory>
    ensures { IfOk result (λ text. text.items ≡ ready_line first last fingerprint.now) }
{
    let mut text = Vec::new(alloc);
    text.extend_from_slice(b"guard ready ")?;
    put_decimal(&mut text, first)?;
    text.push(b' ')?;
    put_decimal(&mut text, last)?;
    text.extend_from_slice(b"\nca ")?;
    text.extend_from_slice(fingerprint)?;
    text.push(b'\n')?;
    Ok(text)
}

/// The text about a new guard.
pub fn ready_text(alloc: Global, scope: &Scope) -> Result<Vec<u8>, NoMemory>
    ensures { IfOk result (λ text. text.items ≡ ready_text scope.now) }
{
    let key = KeyLine {
        key: scope.ca,
        comment: None,
    };
    ready_line(alloc, scope.first, scope.last, &fingerprint(&key))
}

/// The text about a last serial that was lowered.
pub fn retired_text(alloc: Global, first: u64, last: u64) -> Result<Vec<u8>, NoMemory>
    ensures { IfOk result (λ text. text.items ≡ retired_text first last) }
{
    let mut text = Vec::new(alloc);
    text.extend_from_slice(b"retired ")?;
    put_decimal(&mut text, first)?;
    text.push(b' ')?;
    put_decimal(&mut text, last)?;
    text.push(b'\n')?;
    Ok(text)
}
