//! How the program ends.

ghost use Rattle.std.specs.Prelude.{◌≡◌, IsOk};
ghost use Rattle.station_jobs.specs.Names.{Takes};
ghost use Rattle.sshstation.specs.Ending.{result_line, status};

use station_jobs::{StationFault, tell_fault};
use wire::Sink;

/// The exit status for a job that was done.
const DONE: u8 = 0;

/// The exit status for a fault.
const FAULT: u8 = 1;

/// The exit status for a result. If there is a fault, its line is printed, otherwise nothing.
pub(crate) fn status_of<E: Sink>(err: &mut E, done: Result<(), StationFault>) -> u8
    requires { E.failed err.old ≡ 0 }
    ensures status { result ≡ status done }
    ensures silent { IsOk done → err.new ≡ err.old }
    ensures told { Takes (E.failed err.old) (E.failed err.new) (E.taken err.old) (E.taken err.new) (result_line done) }
{
    match done {
        Ok(()) => DONE,
        Err(fault) => {
            tell_fault(err, fault);
            FAULT
        }
    }
}
