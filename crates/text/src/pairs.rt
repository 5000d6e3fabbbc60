//! Lists of pairs.

ghost use Rattle.std.specs.Prelude.{◌≡◌, ◌++◌, ◌==◌, [], ◌∷◌, List, length, IfOk, OnOk, OnErr};
ghost use Rattle.std.specs.List.{list_any};
ghost use Rattle.std.specs.Str.{bytes_eq};

use crate::memory::NoMemory;
use crate::pair::Pair;
use std::alloc::Global;
use std::marker::Model;

/// Pairs, in order. Contracts see them as a list of records of a name and a value.
#[derive(Drop)]
pub struct Pairs {
    items: Vec<Pair>,
}

impl Model for Pairs {
    ghost use Rattle.std.specs.Prelude.{List};
    ghost use Rattle.text.specs.declared.pair.Pair.{Pair};

    ghost Value = { List Pair };

    ghost view = { λ p. p.items.items };
}

impl Pairs {
    /// No pair. It allocates nothing.
    pub fn new(alloc: Global) -> Pairs
        ensures { result ≡ [] }
    {
        Pairs {
            items: Vec::new(alloc),
        }
    }

    /// The pairs of a vector, which is moved and not copied.
    pub fn from_vec(items: Vec<Pair>) -> Pairs
        ensures { result ≡ items.items }
    {
        Pairs { items }
    }

    /// Appends a pair.
    ///
    /// # Errors
    ///
    /// `NoMemory`, if an allocation was refused. The list is unchanged.
    pub fn push(&mut self, pair: Pair) -> Result<(), NoMemory>
        ensures ok { OnOk result (self.new ≡ self.old ++ pair ∷ []) }
        ensures err { OnErr result (self.new ≡ self.old) }
    {
        self.items.push(pair)?;
        Ok(())
    }

    /// A copy, in new memory.
    ///
    /// # Errors
    ///
    /// `NoMemory`, if an allocation was refused.
    pub fn copied(&self, alloc: Global) -> Result<Pairs, NoMemory>
        ensures { IfOk result (λ p. p ≡ self.now) }
    {
        let mut items = Vec::with_capacity(alloc, self.items.len())?;
        for pair in &self.items {
            items.push(pair.copied(alloc)?)?;
        }
        Ok(Pairs { items })
    }

    /// The pairs.
    pub fn as_slice(&self) -> &[Pair]
        ensures { result.now ≡ self.now }
    {
        self.items.as_slice()
    }

    /// Whether there are no pairs.
    pub fn is_empty(&self) -> bool
        ensures { result ≡ (length self.now == 0) }
    {
        self.items.is_empty()
    }

    /// Whether one of the pairs has this name.
    pub fn has_name(&self, name: &[u8]) -> bool
        ensures { result ≡ list_any (λ p. bytes_eq p.name name.now) self.now }
    {
        self.items.iter().any(|p| p.name.is(name))
    }
}
