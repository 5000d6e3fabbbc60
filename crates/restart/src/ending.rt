//! Ending a run's connection to files.

ghost use Rattle.files.specs.Ending.{AreEnded};
ghost use Rattle.restart.specs.Ending.{EndsRuns};

use files::EndFault;
use sqlite::{Connection, FileStore, Files};
use sqlite_disk::Disk;

/// Ends a connection to files, and returns the files. It is closed if it is open, and otherwise abandoned.
pub fn end_at<D: Disk + Drop>(conn: Connection<FileStore<D>>) -> (Result<(), EndFault>, Files<D>)
    ensures ended { AreEnded conn result.0 result.1 }

    // Whatever a crash makes of the files from now on, the run is one of the program: one that closed them, or one that
    // was interrupted.
    ensures runs { EndsRuns conn result.0 result.1 }
{
    files::end_at(conn)
}
