//! The in-memory store is a register.
//!
//! Large values are dropped explicitly: if one lives to a function's end, the proof takes each of its fields apart.

ghost use Rattle.std.specs.Prelude.{◌≡◌, IfOk};
ghost use Rattle.std.proofs.Common.{◌∙◌, refl};
ghost use Rattle.office.specs.Shows.{Shows};
ghost use Rattle.office.proofs.Steps.{shows_office};
ghost use Rattle.office.specs.Publication.{departments_of};
ghost use Rattle.memory_store.specs.Contents.{state_of};

use crate::judging::kept_reply;
use crate::store::PlainStore;
use krl::KrlHead;
use message::Department;
use office::{
    Arrival, Ca, Certificate, Issued, Outcome, Registry, Revocations, Revoked, Stop, StoreFault,
};
use std::alloc::Global;
use text::Text;

impl Registry for PlainStore {
    ghost is_honest = { λ _. Unit {0} };

    ghost is_open = { λ _. Unit {0} };

    ghost is_as_before = { λ old new. new ≡ old };

    ghost fails = { λ _ _. ⊥ };

    ghost stops = { λ _ _ _. ⊥ };

    ghost means = { λ s o l. Shows (state_of s) s.kept o l };

    fn apply(&mut self, alloc: Global, arrival: Arrival) -> Result<Outcome, StoreFault> {
        if let Some(reply) = kept_reply(self.kept.as_slice(), &arrival) {
            let copy = reply.copied(alloc);
            drop(arrival);
            return Ok(Outcome::Repeated(copy?));
        }
        match self.judge(alloc, &arrival) {
            Ok(decision) => Ok(Outcome::Accepted(self.accept(alloc, arrival, decision)?)),
            Err(Stop::Refused(refusal)) => {
                drop(arrival);
                Ok(Outcome::Refused(refusal))
            }
            Err(Stop::NoMemory) => {
                drop(arrival);
                Err(StoreFault::NoMemory)
            }
        }
    }

    fn cas(&mut self, alloc: Global) -> Result<Vec<Ca>, StoreFault> {
        Ok(self.ca_rows(alloc)?)
    }

    fn body(&mut self, alloc: Global, serial: u64) -> Result<Option<Text>, StoreFault> {
        match self.issued(serial) {
            Some(certificate) => Ok(Some(certificate.body.copied(alloc)?)),
            None => Ok(None),
        }
    }

    fn certificate(&mut self, alloc: Global, serial: u64) -> Result<Option<Issued>, StoreFault> {
        match self.issued(serial) {
            Some(certificate) => Ok(Some(certificate.issued_row(alloc)?)),
            None => Ok(None),
        }
    }

    fn revoked(&mut self, alloc: Global) -> Result<Revoked, StoreFault> {
        Ok(Revoked {
            head: KrlHead {
                version: self.version,
                date: self.date,
            },
            parts: self.parts(alloc)?,
            key_ids: self.key_ids(alloc)?,
        })
    }

    fn departments(&mut self, alloc: Global) -> Result<Vec<Department>, StoreFault> {
        Ok(self.department_rows(alloc)?)
    }

    fn revocations(&mut self, alloc: Global) -> Result<Revocations, StoreFault> {
        Ok(self.revoked_rows(alloc)?)
    }

    fn certificates(&mut self, alloc: Global, place: u64) -> Result<Vec<Certificate>, StoreFault> {
        Ok(self.certificate_rows(alloc, place)?)
    }

    ghost unasked = { λ _. refl };

    ghost through = { λ _ _ _ x y. y ∙ x };

    ghost lawful = { λ s o l m. shows_office (state_of s) s.kept o l m };
}
