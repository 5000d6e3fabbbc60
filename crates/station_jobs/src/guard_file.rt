//! The file of a guard: making, opening and closing it.

ghost use Rattle.std.specs.Prelude.{ℕ, IsTrue, List, Result};
ghost use Rattle.values.specs.Serials.{are_serials};
ghost use Rattle.guard.specs.State.{State};
ghost use Rattle.guard.specs.declared.scope.Scope.{Scope as Made};
ghost use Rattle.station_jobs.specs.declared.station_fault.StationFault.{StationFault as Fault};

use crate::station_fault::StationFault;
use guard::Scope;
use std::alloc::Global;

/// The file of a guard, with the file of its log.
pub trait GuardFile {
    /// The guard while it is open.
    type Guard;

    // What each call below may return, with the file before it and after it.
    ghost makes: { Self → List ℕ → Made → Result Self.Guard Fault → Self → Type 0 };

    ghost opens: { Self → List ℕ → Result Self.Guard Fault → Self → Type 0 };

    ghost closes: { Self → Self.Guard → Result (Unit {0}) Fault → Self → Type 0 };

    // What the files held before they were opened: the guard with this state, or none.
    ghost held: { State → Type 0 };

    ghost is_blank: { Type 0 };

    // For a guard that was closed or abandoned: the disk had returned what was written, and the log was copied, or
    // copying it had not begun.
    ghost is_settled: { Self → Self.Guard → Type 0 };

    // Whatever a crash then leaves of the files, they hold the guard with this state, or with one of these two.
    ghost has: { Self → Self.Guard → State → Type 0 };

    ghost has_one: { Self → Self.Guard → State → State → Type 0 };

    /// Makes a guard that has approved nothing yet, at a path, and its file if it doesn't exist.
    ///
    /// # Errors
    ///
    /// Why none was made.
    fn make(
        &mut self,
        alloc: Global,
        path: &str,
        scope: &Scope,
    ) -> Result<Self::Guard, StationFault>
        requires { IsTrue (are_serials scope.now.first scope.now.last) }
        ensures { makes self.old path.now scope.now result self.new };

    /// Opens the guard in the file at a path.
    ///
    /// # Errors
    ///
    /// Why it wasn't opened.
    fn open(&mut self, alloc: Global, path: &str) -> Result<Self::Guard, StationFault>
        ensures { opens self.old path.now result self.new };

    /// Closes a guard.
    ///
    /// # Errors
    ///
    /// Why closing it failed. It is closed or abandoned in any case.
    fn close(&mut self, guard: Self::Guard) -> Result<(), StationFault>
        ensures { closes self.old guard result self.new };
}
