//! The result of a job and of closing its guard.

ghost use Rattle.std.specs.Prelude.{◌≡◌};
ghost use Rattle.list_jobs.specs.Jobs.{closed};

use station_jobs::StationFault;

/// The result of a job and of closing its guard. A fault of the job comes first. If the job succeeded, a fault of the
/// closing is returned.
pub fn closed(
    done: Result<(), StationFault>,
    closing: Result<(), StationFault>,
) -> Result<(), StationFault>
    ensures { result ≡ closed done closing }
{
    match done {
        Ok(()) => closing,
        Err(fault) => Err(fault),
    }
}
