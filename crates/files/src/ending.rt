//! Ending a connection to files: it is closed or, if a failed disk has shut it or memory is refused, abandoned.

ghost use Rattle.std.specs.Prelude.{◌≡◌, None, Some};
ghost use Rattle.sqlite_wal.specs.Reads.{AreClean};
ghost use Rattle.sqlite.specs.State.{HasCleanDisk, IsUnchanged, Survives};
ghost use Rattle.sqlite.specs.Files.{file_state};
ghost use Rattle.sqlite.specs.declared.error.Error.{Error};
ghost use Rattle.store_sql.specs.Calls.{Never};
ghost use Rattle.files.specs.Ending.{AreEnded, Excuses, IsEndOfClose, IsGivenUpTo};

use sqlite::{Connection, Error, FileStore, Files};
use sqlite_disk::Disk;

/// Why a connection wasn't closed cleanly.
#[derive(Clone, Copy, Debug)]
pub enum EndFault {
    /// A failed disk had shut it, or memory was refused. Nothing was written to its files.
    GivenUp(Error),
    /// Its log couldn't be copied into the database file.
    Uncopied(Error),
}

// Closes the connection, which copies its log into the database file.
fn close<D: Disk + Drop>(conn: Connection<FileStore<D>>) -> (Result<(), EndFault>, Files<D>)
    ensures { IsEndOfClose conn result.0 result.1 }
{
    match conn.close_files() {
        Ok(files) => (Ok(()), files),
        Err((error, store)) => (Err(EndFault::Uncopied(error)), store.close()),
    }
}

// Why the connection can't be used, if it can't: a failed disk has shut it, or memory is refused.
fn shut<D: Disk + Drop>(conn: &mut Connection<FileStore<D>>) -> Option<Error>
    ensures same { HasCleanDisk (file_state conn.new) → result ≡ None
        → IsUnchanged (file_state conn.old) (file_state conn.new) }
    ensures cause { HasCleanDisk (file_state conn.new) → (e : Error) → result ≡ Some e
        → Excuses (file_state conn.old) (file_state conn.new).faults e }
    ensures survives { Survives (file_state conn.old) (file_state conn.new) Never }
{
    match conn.prepare("COMMIT") {
        Ok(statement) => {
            drop(statement);
            None
        }
        Err(error) => Some(error),
    }
}

// Returns the files as they are.
fn give_up<D: Disk + Drop>(conn: Connection<FileStore<D>>) -> Files<D>
    ensures { AreClean D.Disk result.log result.db → IsGivenUpTo conn result }
{
    conn.into_store().close()
}

/// Ends a connection to files, and returns the files. It is closed if it is open, and otherwise abandoned, since the
/// effect of a failed close is known only for an open one.
pub fn end_at<D: Disk + Drop>(conn: Connection<FileStore<D>>) -> (Result<(), EndFault>, Files<D>)
    ensures { AreEnded conn result.0 result.1 }
{
    let mut conn = conn;
    match shut(&mut conn) {
        None => close(conn),
        Some(error) => (Err(EndFault::GivenUp(error)), give_up(conn)),
    }
}
