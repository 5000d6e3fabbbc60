//! The table as a register.

ghost use Rattle.std.proofs.Common.{inl, inr};
ghost use Rattle.std.specs.Prelude.{◌≡◌};
ghost use Rattle.sqlite.specs.Held.{state};
ghost use Rattle.sqlite.specs.State.{HasCleanDisk};
ghost use Rattle.list_sql.specs.Keeping.{HasFailed, Keeps, Leaves};

use crate::serving::keep;
use crate::store::ListStore;
use list_guard::{ListRegister, RegisterFault};
use sqlite::Alter;
use text::Text;

impl<S: Alter> ListRegister for ListStore<S> {
    ghost is_honest = { λ g. HasCleanDisk (state S.Store g.conn) };

    ghost keeps = { λ g s. (g.last ≡ s.last) × Keeps (state S.Store g.conn) s };

    ghost leaves = { λ g s t. Leaves (state S.Store g.conn) s t };

    ghost has_failed = { λ g. HasFailed (state S.Store g.conn) };

    ghost reported = { λ g. g.reported };

    ghost widens = { λ g s t left trees may. elim (left trees may) [ inl is ↦ inl is | inr is ↦ inl is ] };

    fn last(&self) -> Option<&[u8]> {
        match &self.last {
            Some(list) => Some(list.as_slice()),
            None => None,
        }
    }

    fn keep(&mut self, list: Text) -> Result<(), RegisterFault> {
        match keep(&mut self.conn, list.as_slice()) {
            Ok(()) => {
                self.last = Some(list);
                Ok(())
            }
            Err(fault) => {
                drop(list);
                self.reported = Some(fault);
                Err(fault)
            }
        }
    }
}
