//! The register as an implementation of `Registry`.

ghost use Rattle.std.specs.Prelude.{IsTrue};
ghost use Rattle.std.proofs.Common.{◌∙◌, refl};
ghost use Rattle.std.proofs.Math.Nat.{le_refl, le_trans};
ghost use Rattle.sqlite.specs.Held.{state};
ghost use Rattle.sqlite.specs.State.{HasCleanDisk};
ghost use Rattle.office.specs.declared.arrival.Arrival.{Arrival};
ghost use Rattle.store.specs.Transactions.{FailuresStay, IsAsBefore};
ghost use Rattle.store.specs.Meaning.{RegisterHasFailed, Tells};
ghost use Rattle.store.specs.Arriving.{IsStopped};

use crate::listing::{read_batch, read_revocations};
use crate::publishing::read_revoked;
use crate::register::Store;
use crate::rows::{read_cas, read_departments, told};
use crate::serials::{read_body_of, read_issued};
use crate::taking::take;
use message::Department;
use office::{
    Arrival, Ca, Certificate, Issued, Outcome, Registry, Revocations, Revoked, StoreFault,
};
use sqlite::Alter;
use std::alloc::Global;
use text::Text;

impl<S: Alter> Registry for Store<S> {
    ghost is_honest = { λ s. HasCleanDisk (state S.Store s.conn) };

    ghost is_open = { λ s. IsTrue (state S.Store s.conn).is_open };

    ghost is_as_before = { λ old new. IsAsBefore (state S.Store old.conn) (state S.Store new.conn)
        × FailuresStay (state S.Store old.conn) (state S.Store new.conn) };

    ghost fails = { λ old new. RegisterHasFailed (state S.Store old.conn) (state S.Store new.conn) };

    ghost stops = { λ old new a. IsStopped (state S.Store old.conn) (state S.Store new.conn) a };

    ghost means = { λ s o l. Tells (state S.Store s.conn) o l };

    fn apply(&mut self, alloc: Global, arrival: Arrival) -> Result<Outcome, StoreFault> {
        told(take(alloc, &mut self.conn, &arrival))
    }

    fn cas(&mut self, alloc: Global) -> Result<Vec<Ca>, StoreFault> {
        told(read_cas(alloc, &mut self.conn))
    }

    fn body(&mut self, alloc: Global, serial: u64) -> Result<Option<Text>, StoreFault> {
        told(read_body_of(alloc, &mut self.conn, serial))
    }

    fn certificate(&mut self, alloc: Global, serial: u64) -> Result<Option<Issued>, StoreFault> {
        told(read_issued(alloc, &mut self.conn, serial))
    }

    fn revoked(&mut self, alloc: Global) -> Result<Revoked, StoreFault> {
        told(read_revoked(alloc, &mut self.conn))
    }

    fn departments(&mut self, alloc: Global) -> Result<Vec<Department>, StoreFault> {
        told(read_departments(alloc, &mut self.conn))
    }

    fn revocations(&mut self, alloc: Global) -> Result<Revocations, StoreFault> {
        told(read_revocations(alloc, &mut self.conn))
    }

    fn certificates(&mut self, alloc: Global, place: u64) -> Result<Vec<Certificate>, StoreFault> {
        told(read_batch(alloc, &mut self.conn, place))
    }

    ghost unasked = { λ _. (
      record { was_open = λ is. is; rest = λ _ rests. rests; same = λ _ _. refl },
      le_refl _,
    ) };

    ghost through = { λ _ _ _ first next. (
      record {
        was_open = λ is. first.0.was_open (next.0.was_open is);
        rest = λ is rests. next.0.rest is (first.0.rest (next.0.was_open is) rests);
        same = λ is rests.
            next.0.same is (first.0.rest (next.0.was_open is) rests) ∙ first.0.same (next.0.was_open is) rests;
      },
      le_trans first.1 next.1,
    ) };

    ghost lawful = { λ s o l m. m.history.office };
}
