//! Faults of the tables as faults of the register.

ghost use Rattle.std.specs.Prelude.{◌≡◌};
ghost use Rattle.store.specs.Faults.{store_fault_of, told};

use office::StoreFault;
use store_sql::Fault;

/// The register's fault for a fault of the tables.
pub fn fault_of(fault: Fault) -> StoreFault
    ensures { result ≡ store_fault_of fault }
{
    match fault {
        Fault::Device => StoreFault::Device,
        Fault::Damaged => StoreFault::Damaged,
        Fault::NoMemory => StoreFault::NoMemory,
    }
}

/// The register's answer for an answer of the tables.
pub fn told<T>(answer: Result<T, Fault>) -> Result<T, StoreFault>
    ensures { result ≡ told answer }
{
    match answer {
        Ok(value) => Ok(value),
        Err(fault) => Err(fault_of(fault)),
    }
}
