//! A name with its value.

ghost use Rattle.std.specs.Prelude.{◌≡◌, IfOk};

use crate::bytes::Text;
use crate::memory::NoMemory;
use std::alloc::Global;

/// A name with its value.
#[derive(Drop)]
pub struct Pair {
    /// The bytes of the name.
    pub name: Text,
    /// The bytes of the value, empty for a flag.
    pub value: Text,
}

impl Pair {
    /// A copy, in new memory.
    ///
    /// # Errors
    ///
    /// `NoMemory`, if an allocation was refused.
    pub fn copied(&self, alloc: Global) -> Result<Pair, NoMemory>
        ensures { IfOk result (λ p. p ≡ self.now) }
    {
        Ok(Pair {
            name: self.name.copied(alloc)?,
            value: self.value.copied(alloc)?,
        })
    }
}
