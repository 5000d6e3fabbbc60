//! What a job gets from outside: files by their paths, and the time.

ghost use Rattle.std.specs.Prelude.{◌≤◌, ℕ, List, IfErr, IfOk, IfSome, ⊤};
ghost use Rattle.values.specs.declared.limits.TheConstants.{LATEST_MOMENT};
ghost use Rattle.station_jobs.specs.Faults.{IsOfAFile};

use crate::station_fault::StationFault;

/// Files by their paths, and a clock.
pub trait Surroundings {
    /// An open file.
    type File;

    /// This file may be found at this path.
    ghost has: { Self → List ℕ → Self.File → Type 0 } = { λ _ _ _. ⊤ };

    /// The clock may show this time.
    ghost shows: { Self → ℕ → Type 0 } = { λ _ _. ⊤ };

    /// Opens the file at a path.
    ///
    /// # Errors
    ///
    /// `File`, or `NoMemory`.
    fn open(&self, path: &str) -> Result<Self::File, StationFault>
        ensures found { IfOk result (has self.now path.now) }
        ensures only { IfErr result IsOfAFile };

    /// The time in seconds since 1970-01-01 00:00:00 UTC, or `None` if the clock fails or is past the latest time.
    fn moment(&self) -> Option<u64>
        ensures shown { IfSome result (shows self.now) }
        ensures limit { IfSome result (λ moment. moment ≤ LATEST_MOMENT) };
}
