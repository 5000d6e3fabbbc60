//! Faults of the tables, as the register and an open report them.

ghost use Rattle.std.specs.Prelude.{◌≡◌};
ghost use Rattle.guard_sql.specs.Told.{opening_fault, register_fault};

use crate::opening_fault::OpeningFault;
use guard::RegisterFault;
use store_sql::Fault;

/// The register's fault for a fault of the tables.
pub(crate) fn register_fault(fault: Fault) -> RegisterFault
    ensures { result ≡ register_fault fault }
{
    match fault {
        Fault::Device => RegisterFault::Device,
        Fault::Damaged => RegisterFault::Damaged,
        Fault::NoMemory => RegisterFault::NoMemory,
    }
}

/// The fault of an open for a fault of the tables.
pub(crate) fn opening_fault(fault: Fault) -> OpeningFault
    ensures { result ≡ opening_fault fault }
{
    match fault {
        Fault::Device => OpeningFault::Device,
        Fault::Damaged => OpeningFault::Damaged,
        Fault::NoMemory => OpeningFault::NoMemory,
    }
}
