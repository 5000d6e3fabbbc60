//! Rows as approved bodies, and whether columns can hold those of approved bodies.

ghost use Rattle.std.specs.Prelude.{◌≡◌, All, IsTrue};
ghost use Rattle.guard.specs.Judged.{IsKeepable};
ghost use Rattle.guard_sql.specs.Rows.{approved_in};
ghost use Rattle.guard_sql.specs.Several.{IsLow};

use crate::approvals::ApprovalRow;
use guard::Approved;
use store_sql::Number;

/// Whether columns can hold the numbers of a row.
fn is_low(row: &Approved) -> bool
    ensures low { IsTrue result → IsLow row.now }
    ensures room { IsKeepable row.now → IsTrue result }
{
    matches!(
        (Number::new(row.serial), Number::new(row.moment)),
        (Some(_), Some(_))
    )
}

/// Whether columns can hold the numbers of these rows.
pub(crate) fn are_low(rows: &[Approved]) -> bool
    ensures low { IsTrue result → All IsLow rows.now }
    ensures room { All IsKeepable rows.now → IsTrue result }
{
    for row in rows {
        if !is_low(row) {
            return false;
        }
    }
    true
}

/// The approved body in a row.
pub(crate) fn approved(row: ApprovalRow) -> Approved
    ensures { result ≡ approved_in row }
{
    let ApprovalRow {
        serial,
        moment,
        body,
    } = row;
    Approved {
        serial: serial.get(),
        moment: moment.get(),
        body,
    }
}
