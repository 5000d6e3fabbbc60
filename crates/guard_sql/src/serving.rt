//! The calls of the register, over a connection.

ghost use Rattle.std.specs.Prelude.{◌≡◌, All};
ghost use Rattle.std.specs.Option.{option_map};
ghost use Rattle.guard.specs.Judged.{AreNew, IsKeepable};
ghost use Rattle.guard.specs.Machine.{body_of, with_rows};
ghost use Rattle.guard.specs.Retiring.{IsLowered, IsRowFrom, with_last};
ghost use Rattle.store_sql.specs.Honest.{On};
ghost use Rattle.guard_sql.specs.Damage.{SaysApprovedUnless, SaysBodyUnless};
ghost use Rattle.guard_sql.specs.Registering.{LeadsOf, ShowsOf};
ghost use Rattle.guard_sql.specs.Rows.{approved_in};

use crate::approvals::{ApprovalRow, find_approval, first_approval_from};
use crate::approved_rows::{approved, are_low};
use crate::faults::register_fault;
use crate::keeping::{end_at, keep_approvals};
use guard::{Approved, RegisterFault};
use sqlite::{Alter, Connection};
use std::alloc::Global;
use store_sql::Number;
use text::Text;

fn body_in(found: Option<ApprovalRow>) -> Option<Text>
    ensures { result ≡ option_map (λ row. row.body) found }
{
    match found {
        Some(row) => Some(row.body),
        None => None,
    }
}

fn approved_in(found: Option<ApprovalRow>) -> Option<Approved>
    ensures { result ≡ option_map approved_in found }
{
    match found {
        Some(row) => Some(approved(row)),
        None => None,
    }
}

/// The body that was approved under a serial.
pub(crate) fn body_of<S: Alter>(
    alloc: Global,
    conn: &mut Connection<S>,
    serial: u64,
) -> Result<Option<Text>, RegisterFault>
    ensures shows { ShowsOf S.Store (λ s body. body ≡ body_of s serial) conn.old conn.new result }
    ensures says { On S.Store (SaysBodyUnless serial) conn.old conn.new result }
{
    let Some(serial) = Number::new(serial) else {
        return Ok(None);
    };
    match find_approval(alloc, conn, serial) {
        Ok(found) => Ok(body_in(found)),
        Err(fault) => Err(register_fault(fault)),
    }
}

/// The row with the least serial that is at least this one.
pub(crate) fn row_from<S: Alter>(
    alloc: Global,
    conn: &mut Connection<S>,
    serial: u64,
) -> Result<Option<Approved>, RegisterFault>
    ensures shows { ShowsOf S.Store (λ s row. IsRowFrom s serial row) conn.old conn.new result }
    ensures says { On S.Store (SaysApprovedUnless serial) conn.old conn.new result }
{
    let Some(serial) = Number::new(serial) else {
        return Ok(None);
    };
    match first_approval_from(alloc, conn, serial) {
        Ok(found) => Ok(approved_in(found)),
        Err(fault) => Err(register_fault(fault)),
    }
}

/// Stores bodies under serials that have none, all or none of them.
pub(crate) fn keep<S: Alter>(
    conn: &mut Connection<S>,
    rows: &[Approved],
) -> Result<(), RegisterFault>
    ensures { LeadsOf S.Store (λ s. AreNew s rows.now) (All IsKeepable rows.now) (λ s. with_rows s rows.now)
        conn.old conn.new result }
{
    if !are_low(rows) {
        return Err(RegisterFault::Device);
    }
    match keep_approvals(conn, rows) {
        Ok(()) => Ok(()),
        Err(fault) => Err(register_fault(fault)),
    }
}

/// Makes this the last serial.
pub(crate) fn set_last<S: Alter>(conn: &mut Connection<S>, last: u64) -> Result<(), RegisterFault>
    ensures { LeadsOf S.Store (λ s. IsLowered s last) (Unit {0}) (λ s. with_last s last) conn.old conn.new result }
{
    let Some(last) = Number::new(last) else {
        return Err(RegisterFault::Device);
    };
    match end_at(conn, last) {
        Ok(()) => Ok(()),
        Err(fault) => Err(register_fault(fault)),
    }
}
