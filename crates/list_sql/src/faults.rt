//! The faults of the register and of an opening, for the faults of the table.

ghost use Rattle.std.specs.Prelude.{◌≡◌};
ghost use Rattle.list_sql.specs.Told.{opening_fault, register_fault};

use crate::opening_fault::OpeningFault;
use list_guard::RegisterFault;
use store_sql::Fault;

/// The register's fault for a fault of the table.
pub(crate) fn register_fault(fault: Fault) -> RegisterFault
    ensures { result ≡ register_fault fault }
{
    match fault {
        Fault::Device => RegisterFault::Device,
        Fault::Damaged => RegisterFault::Damaged,
        Fault::NoMemory => RegisterFault::NoMemory,
    }
}

/// The fault of an opening for a fault of the table.
pub(crate) fn opening_fault(fault: Fault) -> OpeningFault
    ensures { result ≡ opening_fault fault }
{
    match fault {
        Fault::Device => OpeningFault::Device,
        Fault::Damaged => OpeningFault::Damaged,
        Fault::NoMemory => OpeningFault::NoMemory,
    }
}
