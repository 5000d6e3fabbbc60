//! The CAs in the tables.

ghost use Rattle.std.specs.Prelude.{◌≡◌};
ghost use Rattle.store.specs.ShowingRows.{AsksRows};

use crate::rows::row_reader::{OfRow, read_each};
use lines::read_key_blob;
use office::Ca;
use sqlite::{Alter, Connection};
use std::alloc::Global;
use store_sql::{CaRow, Fault, every_ca};

impl OfRow<CaRow> for Ca {
    ghost use Rattle.store.specs.Reading.{ca_in};

    ghost value = { ca_in };

    fn of_row(_alloc: Global, row: &CaRow) -> Result<Ca, Fault> {
        match read_key_blob(row.ca.as_slice()) {
            Some(key) => Ok(Ca {
                key,
                since: row.since.get(),
            }),
            None => Err(Fault::Damaged),
        }
    }
}

/// The CAs by number. `Damaged` if a row isn't that of a CA.
pub fn read_cas<S: Alter>(alloc: Global, conn: &mut Connection<S>) -> Result<Vec<Ca>, Fault>
    ensures { AsksRows S.Store (λ s kept cas. cas.items ≡ s.cas) conn.old conn.new result }
{
    let rows = every_ca(alloc, conn)?;
    read_each(alloc, rows.as_slice())
}
