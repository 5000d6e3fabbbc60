//! Opening the office in a database.

ghost use Rattle.std.specs.Prelude.{◌≡◌, Err, IfErr, IfOk, false};
ghost use Rattle.std.specs.List.{list_any};
ghost use Rattle.office_jobs.specs.Opening.{IsOpened, IsUnopened};
ghost use Rattle.store_sql.specs.Honest.{Between, IsOutside, IsUnlimited, On, StaysClean, tables_of};
ghost use Rattle.store_sql.specs.Look.{is_office_table};

use office::StoreFault;
use sqlite::{Alter, Connection};
use std::alloc::Global;
use store::Store;

/// Opens the office in a database. A fault returns the connection.
pub fn open_office<S: Alter>(
    alloc: Global,
    conn: Connection<S>,
) -> Result<Store<S>, (StoreFault, Connection<S>)>
    requires outside { IsOutside S.Store conn }
    requires unlimited { IsUnlimited S.Store conn }
    ensures opened { IfOk result (λ s. Between S.Store IsOpened conn s.conn) }
    ensures unopened { IfErr result (λ e. On S.Store IsUnopened conn e.1 e.0) }
    ensures honest { IfOk result (λ s. StaysClean S.Store conn s.conn) }
    ensures honest_back { IfErr result (λ e. StaysClean S.Store conn e.1) }

    // A database without an office's table is refused and left unchanged.
    ensures none { list_any is_office_table (tables_of S.Store conn) ≡ false
        → result ≡ Err (record { 0 = StoreFault.NotAnOffice; 1 = conn }) }
{
    match Store::open(alloc, conn) {
        Ok(store) => Ok(store),
        Err(refused) => Err(refused),
    }
}
