//! The in-memory store.
//!
//! An initial configuration is dropped explicitly: if one lives to a function's end, the proof takes its fields apart.

ghost use Rattle.std.specs.Prelude.{◌≡◌, ◌∷◌, [], ℕ, false, IfOk};
ghost use Rattle.krl.specs.Sets.{contains};
ghost use Rattle.office.specs.declared.opening.Opening.{Opening};
ghost use Rattle.office.specs.Openings.{IsOpening};
ghost use Rattle.office.specs.Shows.{Shows};
ghost use Rattle.memory_store.specs.Contents.{state_of};

use krl::{Runs, runs_of};
use message::Department;
use office::{Ca, Certificate, Kept, Opening};
use std::alloc::Global;
use std::marker::Model;
use text::{NoMemory, Text};

/// An office's register as lists in memory. Contracts see it as the reference model's state and the kept rows.
#[derive(Drop)]
pub struct PlainStore {
    pub(crate) opening: Opening,
    // by number
    pub(crate) cas: Vec<Ca>,
    // by name
    pub(crate) departments: Vec<Department>,
    // by serial
    pub(crate) certificates: Vec<Certificate>,
    // the revoked serials
    pub(crate) revoked: Runs,
    // ascending
    pub(crate) revoked_key_ids: Vec<Text>,
    pub(crate) kept: Vec<Kept>,
    pub(crate) version: u64,
    pub(crate) date: u64,
}

impl Model for PlainStore {
    ghost use Rattle.memory_store.specs.Contents.{MemoryContents, AreKept};

    ghost Value = { MemoryContents };

    ghost view = { λ s. record {
      opening = s.opening;
      cas = s.cas.items;
      departments = s.departments.items;
      certificates = s.certificates.items;
      runs = s.revoked;
      key_ids = s.revoked_key_ids.items;
      kept = s.kept.items;
      version = s.version;
      date = s.date;
    } };

    ghost invariant = { λ s. AreKept (record {
      opening = s.opening;
      cas = s.cas.items;
      departments = s.departments.items;
      certificates = s.certificates.items;
      runs = s.revoked;
      key_ids = s.revoked_key_ids.items;
      kept = s.kept.items;
      version = s.version;
      date = s.date;
    }) };
}

impl PlainStore {
    /// An office in which nothing has happened yet.
    pub fn new(alloc: Global, opening: Opening) -> Result<PlainStore, NoMemory>
        requires { IsOpening opening }
        ensures { IfOk result (λ s. Shows (state_of s) s.kept opening []) }
    {
        let key = opening.ca;
        let since = opening.first;
        match first_lists(alloc, Ca { key, since }) {
            Ok((cas, revoked)) => Ok(PlainStore {
                opening,
                cas,
                departments: Vec::new(alloc),
                certificates: Vec::new(alloc),
                revoked,
                revoked_key_ids: Vec::new(alloc),
                kept: Vec::new(alloc),
                version: 0,
                date: 0,
            }),
            Err(refused) => {
                drop(opening);
                Err(refused)
            }
        }
    }
}

/// A list with only the first CA, and no revoked serials.
fn first_lists(alloc: Global, ca: Ca) -> Result<(Vec<Ca>, Runs), NoMemory>
    ensures cas { IfOk result (λ lists. lists.0.items ≡ ca ∷ []) }
    ensures runs { IfOk result (λ lists. (n : ℕ) → contains lists.1 n ≡ false) }
{
    let cas = Vec::from_slice(alloc, &[ca])?;
    Ok((cas, runs_of(alloc, &[])?))
}
