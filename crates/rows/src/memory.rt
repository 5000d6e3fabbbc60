//! Memory for the columns of a row.

ghost use Rattle.std.specs.Prelude.{◌≡◌, false};
ghost use Rattle.rows.specs.Granted.{IfGranted};

use std::alloc::Global;
use text::{NoMemory, Text};

/// Memory that remembers whether an allocation was refused. So all columns of a row are copied without an early return
/// between them: the proof of a function has to consider every text at every early return.
#[derive(Drop)]
pub struct Memory {
    alloc: Global,
    is_refused: bool,
}

impl Memory {
    /// Memory that hasn't been refused yet.
    pub fn new(alloc: Global) -> Memory
        ensures { result.is_refused ≡ false }
    {
        Memory {
            alloc,
            is_refused: false,
        }
    }

    /// A copy of the bytes, or no byte if memory is refused.
    pub fn copied(&mut self, bytes: &[u8]) -> Text
        ensures { IfGranted self.old self.new (result ≡ bytes.now) }
    {
        match Text::from_slice(self.alloc, bytes) {
            Ok(text) => text,
            Err(NoMemory) => {
                self.is_refused = true;
                Text::new(self.alloc)
            }
        }
    }

    /// Whether an allocation was refused.
    pub fn is_refused(&self) -> bool
        ensures { result ≡ self.now.is_refused }
    {
        self.is_refused
    }
}
