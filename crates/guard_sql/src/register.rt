//! The tables are a register.

ghost use Rattle.std.proofs.Common.{inl, inr, refl, ◌∙◌};
ghost use Rattle.std.specs.Prelude.{◌≡◌, IfErr, IfOk};
ghost use Rattle.sqlite.specs.Held.{state};
ghost use Rattle.sqlite.specs.State.{HasCleanDisk};
ghost use Rattle.store_sql.specs.Honest.{On};
ghost use Rattle.guard.specs.Judged.{HasCause};
ghost use Rattle.guard.specs.Reported.{reported_by};
ghost use Rattle.guard.specs.Retiring.{IsRowFrom};
ghost use Rattle.guard.specs.State.{State, body_of};
ghost use Rattle.guard_sql.specs.Damage.{SaysApprovedUnless, SaysBodyUnless};
ghost use Rattle.guard_sql.specs.Keeping.{HasFailed, Keeps, Leaves};
ghost use Rattle.rows.specs.Transactions.{IsAsBefore};

use crate::serving::{body_of, keep, row_from, set_last};
use crate::store::GuardStore;
use guard::{Approved, Register, RegisterFault, Scope};
use sqlite::Alter;
use std::alloc::Global;
use text::Text;

impl<S: Alter> Register for GuardStore<S> {
    ghost is_honest = { λ g. HasCleanDisk (state S.Store g.conn) };

    ghost keeps = { λ g s. (g.scope ≡ s.scope) × Keeps (state S.Store g.conn) s };

    ghost leaves = { λ g s t. Leaves (state S.Store g.conn) s t };

    ghost has_failed = { λ g. HasFailed (state S.Store g.conn) };

    ghost reported = { λ g. g.reported };

    ghost is_as_before = { λ old new. (new.scope ≡ old.scope)
        × IsAsBefore (state S.Store old.conn) (state S.Store new.conn) };

    #[tactic(auto, using(rows::proofs::Before::same_before))]
    fn scope(&mut self) -> Result<Scope, RegisterFault> {
        Ok(self.scope)
    }

    fn body_of(&mut self, alloc: Global, serial: u64) -> Result<Option<Text>, RegisterFault>
        ensures honest { HasCleanDisk (state S.Store self.new.conn) → HasCleanDisk (state S.Store self.old.conn) }
        ensures row { HasCleanDisk (state S.Store self.new.conn) → (s : State)
            → (self.old.scope ≡ s.scope) × Keeps (state S.Store self.old.conn) s
            → IfOk result (λ b. b ≡ body_of s serial) }
        ensures same { HasCleanDisk (state S.Store self.new.conn) → (s : State)
            → (self.old.scope ≡ s.scope) × Keeps (state S.Store self.old.conn) s
            → (self.new.scope ≡ s.scope) × Keeps (state S.Store self.new.conn) s }
        ensures crash { HasCleanDisk (state S.Store self.new.conn) → (s : State)
            → (self.old.scope ≡ s.scope) × Keeps (state S.Store self.old.conn) s
            → Leaves (state S.Store self.old.conn) s s → Leaves (state S.Store self.new.conn) s s }
        ensures cause { HasCleanDisk (state S.Store self.new.conn) → (s : State)
            → (self.old.scope ≡ s.scope) × Keeps (state S.Store self.old.conn) s
            → IfErr result (λ e. HasCause e (HasFailed (state S.Store self.new.conn))) }
        ensures reported { self.new.reported ≡ reported_by self.old.reported result }
        ensures before { HasCleanDisk (state S.Store self.new.conn) → (self.new.scope ≡ self.old.scope)
            × IsAsBefore (state S.Store self.old.conn) (state S.Store self.new.conn) }

        // Whatever rows the table of bodies holds, the answer is what they say. Rows that no guard writes are reported
        // as `Damaged`.
        ensures says { On S.Store (SaysBodyUnless serial) self.old.conn self.new.conn result }
    {
        match body_of(alloc, &mut self.conn, serial) {
            Ok(body) => Ok(body),
            Err(fault) => Err(self.reports(fault)),
        }
    }

    fn row_from(&mut self, alloc: Global, serial: u64) -> Result<Option<Approved>, RegisterFault>
        ensures honest { HasCleanDisk (state S.Store self.new.conn) → HasCleanDisk (state S.Store self.old.conn) }
        ensures row { HasCleanDisk (state S.Store self.new.conn) → (s : State)
            → (self.old.scope ≡ s.scope) × Keeps (state S.Store self.old.conn) s
            → IfOk result (IsRowFrom s serial) }
        ensures same { HasCleanDisk (state S.Store self.new.conn) → (s : State)
            → (self.old.scope ≡ s.scope) × Keeps (state S.Store self.old.conn) s
            → (self.new.scope ≡ s.scope) × Keeps (state S.Store self.new.conn) s }
        ensures crash { HasCleanDisk (state S.Store self.new.conn) → (s : State)
            → (self.old.scope ≡ s.scope) × Keeps (state S.Store self.old.conn) s
            → Leaves (state S.Store self.old.conn) s s → Leaves (state S.Store self.new.conn) s s }
        ensures cause { HasCleanDisk (state S.Store self.new.conn) → (s : State)
            → (self.old.scope ≡ s.scope) × Keeps (state S.Store self.old.conn) s
            → IfErr result (λ e. HasCause e (HasFailed (state S.Store self.new.conn))) }
        ensures reported { self.new.reported ≡ reported_by self.old.reported result }
        ensures before { HasCleanDisk (state S.Store self.new.conn) → (self.new.scope ≡ self.old.scope)
            × IsAsBefore (state S.Store self.old.conn) (state S.Store self.new.conn) }

        // Whatever rows the table of bodies holds, the answer is what the first one from there on says. A row that no
        // guard writes is reported as `Damaged`.
        ensures says { On S.Store (SaysApprovedUnless serial) self.old.conn self.new.conn result }
    {
        match row_from(alloc, &mut self.conn, serial) {
            Ok(row) => Ok(row),
            Err(fault) => Err(self.reports(fault)),
        }
    }

    fn keep(&mut self, rows: Vec<Approved>) -> Result<(), RegisterFault> {
        let kept = keep(&mut self.conn, rows.as_slice());
        drop(rows);
        match kept {
            Ok(()) => Ok(()),
            Err(fault) => Err(self.reports(fault)),
        }
    }

    fn set_last(&mut self, last: u64) -> Result<(), RegisterFault> {
        match set_last(&mut self.conn, last) {
            Ok(()) => {
                self.scope.last = last;
                Ok(())
            }
            Err(fault) => Err(self.reports(fault)),
        }
    }

    ghost unasked = { λ _. (
      refl,
      record { was_open = λ is. is; rest = λ _ rests. rests; same = λ _ _. refl },
    ) };

    ghost through = { λ _ _ _ first next. (
      next.0 ∙ first.0,
      record {
        was_open = λ is. first.1.was_open (next.1.was_open is);
        rest = λ is rests. next.1.rest is (first.1.rest (next.1.was_open is) rests);
        same = λ is rests.
            next.1.same is (first.1.rest (next.1.was_open is) rests) ∙ first.1.same (next.1.was_open is) rests;
      },
    ) };

    ghost widens = { λ g s t left trees may. elim (left trees may) [ inl is ↦ inl is | inr is ↦ inl is ] };
}
