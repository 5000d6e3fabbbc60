//! The file of a list guard, which is made, opened and closed.

ghost use Rattle.std.specs.Prelude.{ℕ, List, Result};
ghost use Rattle.station_jobs.specs.declared.station_fault.StationFault.{StationFault as Fault};

use station_jobs::StationFault;
use std::alloc::Global;

/// The file of a list guard.
pub trait ListFile {
    /// The open list guard.
    type Guard;

    // The possible results of each call below, with the file before it and after it.
    ghost makes: { Self → List ℕ → Result Self.Guard Fault → Self → Type 0 };

    ghost opens: { Self → List ℕ → Result Self.Guard Fault → Self → Type 0 };

    ghost closes: { Self → Self.Guard → Result (Unit {0}) Fault → Self → Type 0 };

    /// Makes a list guard at a path, which has approved nothing yet, and its file if it doesn't exist.
    ///
    /// # Errors
    ///
    /// Why none was made.
    fn make(&mut self, alloc: Global, path: &str) -> Result<Self::Guard, StationFault>
        ensures { makes self.old path.now result self.new };

    /// Opens the list guard in the file at a path.
    ///
    /// # Errors
    ///
    /// Why it wasn't opened.
    fn open(&mut self, alloc: Global, path: &str) -> Result<Self::Guard, StationFault>
        ensures { opens self.old path.now result self.new };

    /// Closes a list guard.
    ///
    /// # Errors
    ///
    /// Why closing failed. The list guard is closed nevertheless.
    fn close(&mut self, guard: Self::Guard) -> Result<(), StationFault>
        ensures { closes self.old guard result self.new };
}
