//! A connection to files, ended: closed, or abandoned if a failed disk has shut it or memory is refused.

ghost use Rattle.files.specs.Ending.{AreEnded};
ghost use Rattle.guard_sql.specs.Runs.{EndsWell};

use files::EndFault;
use sqlite::{Connection, FileFrom, FileStore, Files, Start};
use sqlite_disk::Disk;

/// Ends a connection to files, and returns them. It is closed if it is open, and otherwise abandoned.
pub fn end_at<D: Disk + Drop>(conn: Connection<FileStore<D>>) -> (Result<(), EndFault>, Files<D>)
    ensures ended { AreEnded conn result.0 result.1 }

    // Whatever a crash makes of the files from now on, they hold the guard that was kept. If the connection was
    // abandoned, the error has its cause, and they hold one of the two guards that a crash left before.
    ensures well { EndsWell conn result.0 result.1 }
{
    files::end_at(conn)
}

/// `end_at` for the files at a path. No clause can name their disk, which comes with the connection.
pub fn end_path<S: Start>(
    conn: Connection<FileStore<FileFrom<S>>>,
) -> (Result<(), EndFault>, Files<FileFrom<S>>)
    ensures { EndsWell conn result.0 result.1 }
{
    end_at(conn)
}
