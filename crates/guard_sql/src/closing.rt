//! A connection to files, closed or abandoned.

ghost use Rattle.std.specs.Prelude.{IfOk};
ghost use Rattle.sqlite_wal.specs.Reads.{AreClean};
ghost use Rattle.sqlite_store.specs.FileStore.{state as store_state, view};
ghost use Rattle.sqlite_trees.specs.View.{IsClean};
ghost use Rattle.sqlite.specs.Files.{file_state};
ghost use Rattle.guard_sql.specs.Runs.{ClosesWell, LeavesOneOf, LeavesWhatIsKept};

use sqlite::{Connection, Error, FileFrom, FileStore, Files, Start};
use sqlite_disk::Disk;

/// Closes a connection to files, and returns them.
///
/// # Errors
///
/// Why it can't be closed well. It is closed all the same.
pub fn close_at<D: Disk + Drop>(conn: Connection<FileStore<D>>) -> Result<Files<D>, Error>
    // Whatever a crash makes of the files from now on, they hold the guard that was kept.
    ensures { IfOk result (λ files. AreClean D.Disk files.log files.db
        → LeavesWhatIsKept D.Disk (file_state conn) files) }
{
    match conn.close_files() {
        Ok(files) => Ok(files),
        Err((error, store)) => {
            drop(store.close());
            Err(error)
        }
    }
}

/// `close_at` for the files at a path. No clause can name their disk, which comes with the connection.
///
/// # Errors
///
/// Why it can't be closed well. It is closed all the same.
pub fn close_path<S: Start>(
    conn: Connection<FileStore<FileFrom<S>>>,
) -> Result<Files<FileFrom<S>>, Error>
    ensures { IfOk result (ClosesWell conn) }
{
    match close_at(conn) {
        Ok(files) => Ok(files),
        Err(error) => Err(error),
    }
}

/// Abandons a connection, even one that a failed disk has shut, and returns the store of its files.
pub fn store_of<D: Disk + Drop>(conn: Connection<FileStore<D>>) -> FileStore<D>
    // Whatever a crash makes of the files, they hold one of the two guards that a crash left before.
    ensures { IsClean (view result) → LeavesOneOf (file_state conn) (store_state result).may_leave }
{
    conn.into_store()
}
