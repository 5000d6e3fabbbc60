//! The register's write, over a connection.

ghost use Rattle.list_guard.specs.Judged.{IsKeepable};
ghost use Rattle.list_guard.specs.State.{with_last};
ghost use Rattle.list_sql.specs.Registering.{LeadsOf};

use crate::faults::register_fault;
use crate::keeping::fill;
use list_guard::RegisterFault;
use sqlite::{Alter, Connection};

/// Keeps a list in the table. A list without a byte isn't kept.
pub(crate) fn keep<S: Alter>(conn: &mut Connection<S>, list: &[u8]) -> Result<(), RegisterFault>
    ensures { LeadsOf S.Store (IsKeepable list.now) (with_last list.now) conn.old conn.new result }
{
    if list.is_empty() {
        return Err(RegisterFault::Device);
    }
    match fill(conn, list) {
        Ok(()) => Ok(()),
        Err(fault) => Err(register_fault(fault)),
    }
}
