//! The stored request with a given caller and request ID.

ghost use Rattle.std.specs.Prelude.{◌≡◌, find};
ghost use Rattle.std.specs.Option.{option_map};
ghost use Rattle.store.specs.ShowingRows.{AsksRows};
ghost use Rattle.store.specs.Finding.{kept_in};
ghost use Rattle.store.specs.Histories.{IsOfHistory, is_kept_for};

use office::Kept;
use sqlite::{Alter, Connection};
use std::alloc::Global;
use store_sql::{Fault, RequestRow, find_request};

fn kept_of(found: Option<RequestRow>) -> Option<Kept>
    ensures { result ≡ option_map kept_in found }
{
    match found {
        Some(row) => Some(Kept {
            caller: row.caller,
            key: row.key,
            bytes: row.message,
            reply: row.reply,
        }),
        None => None,
    }
}

/// The stored request with this caller and request ID, if there is one.
pub fn kept_for<S: Alter>(
    alloc: Global,
    conn: &mut Connection<S>,
    caller: &[u8],
    key: &[u8],
) -> Result<Option<Kept>, Fault>
    ensures { AsksRows S.Store (λ s kept found. IsOfHistory s kept → found ≡ find (is_kept_for caller.now key.now) kept)
        conn.old conn.new result }
{
    let found = find_request(alloc, conn, caller, key)?;
    Ok(kept_of(found))
}
