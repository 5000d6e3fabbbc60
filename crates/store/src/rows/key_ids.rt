//! The revoked key IDs in the tables.

ghost use Rattle.std.specs.Prelude.{◌≡◌};
ghost use Rattle.store.specs.ShowingRows.{AsksRows};

use sqlite::{Alter, Connection};
use std::alloc::Global;
use store_sql::{Fault, every_revoked};
use text::Text;

/// The revoked key IDs in byte order. `Damaged` if a row has another form.
pub fn read_key_ids<S: Alter>(alloc: Global, conn: &mut Connection<S>) -> Result<Vec<Text>, Fault>
    ensures { AsksRows S.Store (λ s kept ids. ids.items ≡ s.revoked_key_ids) conn.old conn.new result }
{
    every_revoked(alloc, conn)
}
