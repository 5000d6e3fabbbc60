//! Owned bytes.

ghost use Rattle.std.specs.Prelude.{◌≡◌, ◌==◌, ◌↔◌, List, ℕ, IfOk, IsTrue, [], length};
ghost use Rattle.std.specs.Str.{bytes_eq};

use crate::memory::NoMemory;
use std::alloc::Global;
use std::marker::Model;

/// Owned bytes. Contracts see them as the list of their values.
#[derive(Drop)]
pub struct Text {
    bytes: Vec<u8>,
}

impl Model for Text {
    ghost Value = { List ℕ };

    ghost view = { λ t. t.bytes.items };
}

impl Text {
    /// No bytes. It allocates nothing.
    pub fn new(alloc: Global) -> Text
        ensures { result ≡ [] }
    {
        Text {
            bytes: Vec::new(alloc),
        }
    }

    /// A copy of the bytes.
    ///
    /// # Errors
    ///
    /// `NoMemory`, if an allocation was refused.
    pub fn from_slice(alloc: Global, bytes: &[u8]) -> Result<Text, NoMemory>
        ensures { IfOk result (λ t. t ≡ bytes.now) }
    {
        Ok(Text {
            bytes: Vec::from_slice(alloc, bytes)?,
        })
    }

    /// The bytes of a vector, which is moved and not copied.
    pub fn from_vec(bytes: Vec<u8>) -> Text
        ensures { result ≡ bytes.items }
    {
        Text { bytes }
    }

    /// The bytes as a vector, which is moved and not copied.
    pub fn into_vec(self) -> Vec<u8>
        ensures { result.items ≡ self }
    {
        self.bytes
    }

    /// A copy, in new memory.
    ///
    /// # Errors
    ///
    /// `NoMemory`, if an allocation was refused.
    pub fn copied(&self, alloc: Global) -> Result<Text, NoMemory>
        ensures { IfOk result (λ t. t ≡ self.now) }
    {
        Text::from_slice(alloc, self.as_slice())
    }

    /// The bytes.
    pub fn as_slice(&self) -> &[u8]
        ensures { result.now ≡ self.now }
    {
        self.bytes.as_slice()
    }

    /// Whether there are no bytes.
    pub fn is_empty(&self) -> bool
        ensures { result ≡ (length self.now == 0) }
    {
        self.bytes.is_empty()
    }

    /// Whether the bytes are equal to these.
    pub fn is(&self, bytes: &[u8]) -> bool
        ensures is { IsTrue result ↔ (self.now ≡ bytes.now) }
        ensures value { result ≡ bytes_eq self.now bytes.now }
    {
        self.bytes.as_slice() == bytes
    }
}
