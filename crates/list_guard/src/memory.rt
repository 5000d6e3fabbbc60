//! A list guard's register in memory.

ghost use Rattle.std.specs.Prelude.{◌≡◌, ◌⊎◌, None};
ghost use Rattle.std.proofs.Common.{inl, inr};
ghost use Rattle.list_guard.specs.State.{opened};

use crate::register::{ListRegister, RegisterFault};
use std::marker::Model;
use text::Text;

/// A list guard's register in memory. Contracts see it as a state of the reference model.
#[derive(Drop)]
pub struct MemoryListGuard {
    last: Option<Text>,
}

impl Model for MemoryListGuard {
    ghost use Rattle.list_guard.specs.State.{State};

    ghost Value = { State };

    ghost view = { λ g. record { last = g.last } };
}

impl MemoryListGuard {
    /// The register of a guard that has approved nothing yet.
    pub fn new() -> MemoryListGuard
        ensures { result ≡ opened }
    {
        MemoryListGuard { last: None }
    }
}

impl ListRegister for MemoryListGuard {
    ghost is_honest = { λ _. Unit {0} };

    ghost keeps = { λ g s. g ≡ s };

    ghost leaves = { λ g s t. (g ≡ s) ⊎ (g ≡ t) };

    ghost has_failed = { λ _. ⊥ };

    ghost reported = { λ _. None };

    ghost widens = { λ g s t h. elim h [ inl e ↦ inl e | inr e ↦ inl e ] };

    fn last(&self) -> Option<&[u8]> {
        match &self.last {
            Some(list) => Some(list.as_slice()),
            None => None,
        }
    }

    fn keep(&mut self, list: Text) -> Result<(), RegisterFault> {
        self.last = Some(list);
        Ok(())
    }
}
