//! Memory for the columns of a row.

ghost use Rattle.std.specs.Prelude.{◌≡◌, false};
ghost use Rattle.store_sql.specs.Granted.{IfGranted};

use std::alloc::Global;
use text::{NoMemory, Text};

/// Memory that remembers whether some of it was refused. So all columns of a row are copied with no exit between them:
/// a function's proof takes each text apart at each exit.
#[derive(Drop)]
pub(crate) struct Memory {
    alloc: Global,
    is_refused: bool,
}

impl Memory {
    /// Memory of which none has been refused yet.
    pub(crate) fn new(alloc: Global) -> Memory
        ensures { result.is_refused ≡ false }
    {
        Memory {
            alloc,
            is_refused: false,
        }
    }

    /// A copy of the bytes, or an empty text if memory is refused.
    pub(crate) fn copied(&mut self, bytes: &[u8]) -> Text
        ensures { IfGranted self.old self.new (result ≡ bytes.now) }
    {
        match Text::from_slice(self.alloc, bytes) {
            Ok(text) => text,
            Err(NoMemory) => {
                self.is_refused = true;
                Text::new(self.alloc)
            }
        }
    }

    /// Whether some was refused.
    pub(crate) fn is_refused(&self) -> bool
        ensures { result ≡ self.now.is_refused }
    {
        self.is_refused
    }
}
