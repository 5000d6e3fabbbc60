//! Lists of texts.

ghost use Rattle.std.specs.Prelude.{◌≡◌, ◌++◌, ◌==◌, [], ◌∷◌, List, ℕ, length, IfOk, OnOk, OnErr};
ghost use Rattle.std.specs.List.{list_any};
ghost use Rattle.std.specs.Str.{bytes_eq};

use crate::bytes::Text;
use crate::memory::NoMemory;
use std::alloc::Global;
use std::marker::Model;

/// Texts, in order. Contracts see them as a list of lists of bytes.
#[derive(Drop)]
pub struct Texts {
    items: Vec<Text>,
}

impl Model for Texts {
    ghost Value = { List (List ℕ) };

    ghost view = { λ t. t.items.items };
}

impl Texts {
    /// No text. It allocates nothing.
    pub fn new(alloc: Global) -> Texts
        ensures { result ≡ [] }
    {
        Texts {
            items: Vec::new(alloc),
        }
    }

    /// The texts of a vector, which is moved and not copied.
    pub fn from_vec(items: Vec<Text>) -> Texts
        ensures { result ≡ items.items }
    {
        Texts { items }
    }

    /// Appends a text.
    ///
    /// # Errors
    ///
    /// `NoMemory`, if an allocation was refused. The list is unchanged.
    pub fn push(&mut self, text: Text) -> Result<(), NoMemory>
        ensures ok { OnOk result (self.new ≡ self.old ++ text ∷ []) }
        ensures err { OnErr result (self.new ≡ self.old) }
    {
        self.items.push(text)?;
        Ok(())
    }

    /// A copy, in new memory.
    ///
    /// # Errors
    ///
    /// `NoMemory`, if an allocation was refused.
    pub fn copied(&self, alloc: Global) -> Result<Texts, NoMemory>
        ensures { IfOk result (λ t. t ≡ self.now) }
    {
        let mut items = Vec::with_capacity(alloc, self.items.len())?;
        for text in &self.items {
            items.push(text.copied(alloc)?)?;
        }
        Ok(Texts { items })
    }

    /// The texts.
    pub fn as_slice(&self) -> &[Text]
        ensures { result.now ≡ self.now }
    {
        self.items.as_slice()
    }

    /// The number of texts.
    pub fn len(&self) -> usize
        ensures { result ≡ length self.now }
    {
        self.items.len()
    }

    /// Whether there are no texts.
    pub fn is_empty(&self) -> bool
        ensures { result ≡ (length self.now == 0) }
    {
        self.items.is_empty()
    }

    /// Whether one of the texts has these bytes.
    pub fn contains(&self, bytes: &[u8]) -> bool
        ensures { result ≡ list_any (λ t. bytes_eq t bytes.now) self.now }
    {
        self.items.iter().any(|t| t.is(bytes))
    }
}
