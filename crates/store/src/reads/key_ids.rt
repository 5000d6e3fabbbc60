//! Revoked key IDs.

ghost use Rattle.std.specs.Prelude.{◌≡◌};
ghost use Rattle.office.specs.State.{has_any, is_key_id_revoked};
ghost use Rattle.store.specs.ShowingRows.{AsksRows};

use crate::rows::read_key_ids;
use sqlite::{Alter, Connection};
use std::alloc::Global;
use store_sql::{Fault, find_revoked};

/// Whether this key ID is revoked.
pub fn is_key_id_revoked<S: Alter>(
    alloc: Global,
    conn: &mut Connection<S>,
    key_id: &[u8],
) -> Result<bool, Fault>
    ensures { AsksRows S.Store (λ s kept is. is ≡ is_key_id_revoked s key_id.now) conn.old conn.new result }
{
    let found = find_revoked(alloc, conn, key_id)?;
    Ok(found.is_some())
}

/// Whether any key ID is revoked.
pub fn has_revoked_key_ids<S: Alter>(alloc: Global, conn: &mut Connection<S>) -> Result<bool, Fault>
    ensures { AsksRows S.Store (λ s kept has. has ≡ has_any s.revoked_key_ids) conn.old conn.new result }
{
    let ids = read_key_ids(alloc, conn)?;
    Ok(!ids.is_empty())
}
