//! CA 1, from the office's row.

ghost use Rattle.std.specs.Prelude.{◌≡◌, IfOk};
ghost use Rattle.store.specs.Former.{ca_of, first_ca_row};
ghost use Rattle.store.specs.Migrating.{IsCaDue};

use crate::rows::number;
use office::StoreFault;
use std::alloc::Global;
use store_sql::{CaRow, OfficeRow};
use text::NoMemory;

/// The schema from which tables are migrated.
const FORMER_SCHEMA: u64 = 1;

fn first_ca(alloc: Global, office: &OfficeRow) -> Result<CaRow, NoMemory>
    ensures { IfOk result (λ ca. ca ≡ first_ca_row office.now) }
{
    Ok(CaRow {
        number: number(1),
        ca: office.ca.copied(alloc)?,
        since: office.first,
    })
}

/// CA 1 of the office, whose table must have exactly one row, of schema 1.
pub(crate) fn ca_of(alloc: Global, rows: &[OfficeRow]) -> Result<CaRow, StoreFault>
    ensures { IsCaDue (ca_of rows.now) result }
{
    let [office] = rows else {
        return Err(StoreFault::NotAnOffice);
    };
    if office.schema.get() != FORMER_SCHEMA {
        return Err(StoreFault::WrongSchema);
    }
    if office.id.get() != 1 {
        return Err(StoreFault::Damaged);
    }
    match first_ca(alloc, office) {
        Ok(ca) => Ok(ca),
        Err(_) => Err(StoreFault::NoMemory),
    }
}
