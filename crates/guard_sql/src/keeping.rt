//! Writes, each in a transaction of its own.

ghost use Rattle.std.specs.Prelude.{All, IsTrue};
ghost use Rattle.sqlite.specs.Held.{state};
ghost use Rattle.sqlite.specs.State.{HasCleanDisk};
ghost use Rattle.guard_sql.specs.Changes.{with_last};
ghost use Rattle.guard_sql.specs.Refusals.{RefusesLast};
ghost use Rattle.guard_sql.specs.Several.{IsLow, RefusesApprovals, with_approvals};
ghost use Rattle.rows.specs.Transactions.{Does, WritesWhole};
ghost use Rattle.guard_sql.specs.Contents.{guard_tables};

use crate::approvals::insert_approval;
use crate::guards::update_last;
use guard::Approved;
use rows::conclude;
use sqlite::{Alter, Connection};
use store_sql::{Fault, Number, begin};

/// Inserts a row for each approved body, in order, over an open connection.
fn insert_approvals<S: Alter>(conn: &mut Connection<S>, rows: &[Approved]) -> Result<(), Fault>
    requires low { All IsLow rows.now }
    requires opens { HasCleanDisk (state S.Store conn.old) → IsTrue (state S.Store conn.old).is_open }
    ensures { Does guard_tables S.Store (with_approvals rows.now) (RefusesApprovals rows.now) conn.old conn.new result }
{
    for row in rows {
        match insert_approval(conn, row) {
            Ok(()) => {}
            Err(fault) => return Err(fault),
        }
    }
    Ok(())
}

/// Stores approved bodies, all or none.
pub(crate) fn keep_approvals<S: Alter>(
    conn: &mut Connection<S>,
    rows: &[Approved],
) -> Result<(), Fault>
    requires { All IsLow rows.now }
    ensures { WritesWhole guard_tables S.Store (with_approvals rows.now) (RefusesApprovals rows.now)
        conn.old conn.new result }
{
    match begin(conn) {
        Ok(()) => {
            let kept = insert_approvals(conn, rows);
            conclude(conn, kept)
        }
        Err(fault) => Err(fault),
    }
}

/// Sets the last serial.
pub(crate) fn end_at<S: Alter>(conn: &mut Connection<S>, last: Number) -> Result<(), Fault>
    ensures { WritesWhole guard_tables S.Store (with_last last) (RefusesLast last) conn.old conn.new result }
{
    match begin(conn) {
        Ok(()) => {
            let ended = update_last(conn, last);
            conclude(conn, ended)
        }
        Err(fault) => Err(fault),
    }
}
