//! Writing the list, in a transaction of its own.

ghost use Rattle.list_sql.specs.Changes.{with_rows};
ghost use Rattle.list_sql.specs.Refusals.{RefusesNone};
ghost use Rattle.rows.specs.Transactions.{Does, WritesWhole};
ghost use Rattle.list_sql.specs.Contents.{list_tables};

use crate::lists::delete_lists;
use crate::pieces::{insert_piece, piece_count};
use rows::conclude;
use sqlite::{Alter, Connection};
use store_sql::{Fault, begin};

/// Writes the rows of this list in place of all others.
fn replace<S: Alter>(conn: &mut Connection<S>, list: &[u8]) -> Result<(), Fault>
    ensures { Does list_tables S.Store (with_rows list.now) RefusesNone conn.old conn.new result }
{
    match delete_lists(conn) {
        Ok(()) => {}
        Err(fault) => return Err(fault),
    }
    for at in 0..piece_count(list.len()) {
        match insert_piece(conn, list, at) {
            Ok(()) => {}
            Err(fault) => return Err(fault),
        }
    }
    Ok(())
}

/// Writes the rows of this list in place of all others, or none of them.
pub(crate) fn fill<S: Alter>(conn: &mut Connection<S>, list: &[u8]) -> Result<(), Fault>
    ensures { WritesWhole list_tables S.Store (with_rows list.now) RefusesNone conn.old conn.new result }
{
    match begin(conn) {
        Ok(()) => {
            let filled = replace(conn, list);
            conclude(conn, filled)
        }
        Err(fault) => Err(fault),
    }
}
