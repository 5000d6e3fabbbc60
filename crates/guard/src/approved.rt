//! The record that a guard keeps of each approved unsigned certificate (body).

ghost use Rattle.std.specs.Prelude.{◌≡◌, ◌==◌, IfOk, find, option_copied};
ghost use Rattle.std.specs.Option.{option_map};

use std::alloc::Global;
use text::{NoMemory, Text};

/// An approved body. It is kept permanently.
#[derive(Drop)]
pub struct Approved {
    /// The body's serial.
    pub serial: u64,
    /// When it was approved, in seconds since 1970-01-01 00:00:00 UTC.
    pub moment: u64,
    /// The body's bytes, which the CA signs.
    pub body: Text,
}

impl Approved {
    /// A copy, unless memory is refused.
    pub fn copied(&self, alloc: Global) -> Result<Approved, NoMemory>
        ensures { IfOk result (λ copy. copy ≡ self.now) }
    {
        Ok(Approved {
            serial: self.serial,
            moment: self.moment,
            body: self.body.copied(alloc)?,
        })
    }
}

/// The body under a serial, in the first row that has the serial.
pub(crate) fn body_in(rows: &[Approved], serial: u64) -> Option<&Text>
    ensures { option_copied result ≡ option_map (λ a. a.body) (find (λ a. a.serial == serial) rows.now) }
{
    match rows.iter().find(|row| row.serial == serial) {
        Some(row) => Some(&row.body),
        None => None,
    }
}
