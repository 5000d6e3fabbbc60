//! A guard's register in memory.

ghost use Rattle.std.specs.Prelude.{◌≡◌, ◌==◌, ◌⊎◌, ◌++◌, ◌∷◌, [], List, IfOk, None, Some, find, option_copied};
ghost use Rattle.std.proofs.Common.{inl, inr, refl, ◌∙◌};
ghost use Rattle.std.specs.Option.{option_map};
ghost use Rattle.guard.specs.Retiring.{IsFirstFrom};
ghost use Rattle.guard.specs.State.{opened};

use crate::approved::{Approved, body_in};
use crate::register::{Register, RegisterFault};
use crate::scope::Scope;
use std::alloc::Global;
use std::marker::Model;
use text::{NoMemory, Text};

/// A guard's register as a list in memory. Contracts see it as the state of the reference model, with the fault that
/// was reported last.
#[derive(Drop)]
pub struct MemoryGuard {
    scope: Scope,
    // in order of approval
    approved: Vec<Approved>,
    reported: Option<RegisterFault>,
}

impl Model for MemoryGuard {
    ghost use Rattle.guard.specs.Memory.{Memory};

    ghost Value = { Memory };

    ghost view = { λ g. record {
      kept = record { scope = g.scope; approved = g.approved.items };
      reported = g.reported;
    } };
}

fn copied(alloc: Global, body: Option<&Text>) -> Result<Option<Text>, NoMemory>
    ensures { IfOk result (λ copy. copy ≡ option_copied body.entry) }
{
    match body {
        Some(body) => Ok(Some(body.copied(alloc)?)),
        None => Ok(None),
    }
}

fn copied_row(alloc: Global, row: Option<&Approved>) -> Result<Option<Approved>, NoMemory>
    ensures { IfOk result (λ copy. copy ≡ option_copied row.entry) }
{
    match row {
        Some(row) => Ok(Some(row.copied(alloc)?)),
        None => Ok(None),
    }
}

/// The row with the lower serial at or above `serial`: this row, or the one found so far.
fn nearer<'a>(serial: u64, row: &'a Approved, found: Option<&'a Approved>) -> Option<&'a Approved>
    ensures { (rows : List Approved) → IsFirstFrom serial rows (option_copied found.entry)
        → IsFirstFrom serial (rows ++ row.now ∷ []) (option_copied result) }
{
    if row.serial < serial {
        return found;
    }
    match found {
        Some(other) if other.serial <= row.serial => Some(other),
        _ => Some(row),
    }
}

/// The row with the lowest serial that is at least this one.
fn row_from(approved: &[Approved], serial: u64) -> Option<&Approved>
    ensures { IsFirstFrom serial approved.now (option_copied result) }
{
    let mut found: Option<&Approved> = None;
    for row in approved {
        found = nearer(serial, row, found);
    }
    found
}

impl MemoryGuard {
    /// A guard that has approved nothing yet.
    pub fn new(alloc: Global, scope: Scope) -> MemoryGuard
        ensures kept { result.kept ≡ opened scope }
        ensures reported { result.reported ≡ None }
    {
        MemoryGuard {
            scope,
            approved: Vec::new(alloc),
            reported: None,
        }
    }

    /// Reports a lack of memory.
    fn refuses(&mut self) -> RegisterFault
        ensures fault { result ≡ RegisterFault.NoMemory }
        ensures reported { self.new.reported ≡ Some RegisterFault.NoMemory }
        ensures kept { self.new.kept ≡ self.old.kept }
    {
        self.reported = Some(RegisterFault::NoMemory);
        RegisterFault::NoMemory
    }
}

impl Register for MemoryGuard {
    ghost is_honest = { λ _. Unit {0} };

    ghost keeps = { λ g s. g.kept ≡ s };

    ghost leaves = { λ g s t. (g.kept ≡ s) ⊎ (g.kept ≡ t) };

    ghost has_failed = { λ _. ⊥ };

    ghost reported = { λ g. g.reported };

    ghost is_as_before = { λ old new. new.kept ≡ old.kept };

    ghost widens = { λ g s t h. elim h [ inl e ↦ inl e | inr e ↦ inl e ] };

    ghost unasked = { λ g. refl };

    ghost through = { λ a b c first next. next ∙ first };

    fn scope(&mut self) -> Result<Scope, RegisterFault> {
        Ok(self.scope)
    }

    fn body_of(&mut self, alloc: Global, serial: u64) -> Result<Option<Text>, RegisterFault> {
        match copied(alloc, body_in(self.approved.as_slice(), serial)) {
            Ok(body) => Ok(body),
            Err(NoMemory) => Err(self.refuses()),
        }
    }

    fn row_from(&mut self, alloc: Global, serial: u64) -> Result<Option<Approved>, RegisterFault> {
        match copied_row(alloc, row_from(self.approved.as_slice(), serial)) {
            Ok(row) => Ok(row),
            Err(NoMemory) => Err(self.refuses()),
        }
    }

    fn keep(&mut self, rows: Vec<Approved>) -> Result<(), RegisterFault> {
        let mut rows = rows;
        let kept = self.approved.append(&mut rows);
        drop(rows);
        match kept {
            Ok(()) => Ok(()),
            Err(_) => Err(self.refuses()),
        }
    }

    fn set_last(&mut self, last: u64) -> Result<(), RegisterFault> {
        self.scope.last = last;
        Ok(())
    }
}
