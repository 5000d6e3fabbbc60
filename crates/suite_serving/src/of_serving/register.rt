//! A register that represents no office.

ghost use Rattle.std.specs.Prelude.{◌≡◌};

use krl::{KrlHead, runs_of};
use message::Department;
use office::{
    Arrival, Ca, Certificate, Issued, Outcome, Registry, Revocations, Revoked, StoreFault,
};
use std::alloc::Global;
use text::{Text, Texts};

/// It accepts each arrival with the same reply, and counts them. It represents no history.
#[derive(Drop)]
pub(crate) struct Register {
    pub(crate) applied: u64,
}

impl Register {
    pub(crate) fn new() -> Register {
        Register { applied: 0 }
    }
}

impl Registry for Register {
    ghost is_honest = { λ _. Unit {0} };

    ghost is_open = { λ _. Unit {0} };

    ghost is_as_before = { λ _ _. Unit {0} };

    ghost fails = { λ _ _. ⊥ };

    ghost stops = { λ _ _ _. ⊥ };

    ghost means = { λ _ _ _. ⊥ };

    fn apply(&mut self, alloc: Global, _arrival: Arrival) -> Result<Outcome, StoreFault> {
        let reply = Text::from_slice(
            alloc,
            b"issued 1\ndigest 82e0c34fe67da3fc3dc1be6682073994ec021449271b641cdd36180e95572e79\n",
        )?;
        self.applied = self.applied.saturating_add(1);
        Ok(Outcome::Accepted(reply))
    }

    fn cas(&mut self, alloc: Global) -> Result<Vec<Ca>, StoreFault> {
        Ok(Vec::new(alloc))
    }

    fn body(&mut self, _alloc: Global, _serial: u64) -> Result<Option<Text>, StoreFault> {
        Ok(None)
    }

    fn certificate(&mut self, _alloc: Global, _serial: u64) -> Result<Option<Issued>, StoreFault> {
        Ok(None)
    }

    fn revoked(&mut self, alloc: Global) -> Result<Revoked, StoreFault> {
        Ok(Revoked {
            head: KrlHead {
                version: 0,
                date: 0,
            },
            parts: Vec::new(alloc),
            key_ids: Texts::new(alloc),
        })
    }

    fn departments(&mut self, alloc: Global) -> Result<Vec<Department>, StoreFault> {
        Ok(Vec::new(alloc))
    }

    fn revocations(&mut self, alloc: Global) -> Result<Revocations, StoreFault> {
        Ok(Revocations {
            serials: runs_of(alloc, &[])?,
            key_ids: Vec::new(alloc),
        })
    }

    fn certificates(&mut self, alloc: Global, _place: u64) -> Result<Vec<Certificate>, StoreFault> {
        Ok(Vec::new(alloc))
    }

    ghost unasked = { λ _. tt };

    ghost through = { λ _ _ _ _ _. tt };

    ghost lawful = { λ s o l m. absurd m };
}
