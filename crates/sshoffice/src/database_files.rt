//! What becomes of the files of a database.

use files::OpenFault;
use sqlite::Files;
use sqlite_disk::Disk;

/// The files of the database that a job may open, and what became of them.
#[derive(Drop)]
pub enum DatabaseFiles<S, D: Disk> {
    /// They weren't opened. This represents what they hold.
    Unopened(S),
    /// An open of them failed. This has its error, and the files as the open left them.
    Failed(OpenFault<D>),
    /// A connection to them is open.
    Connected,
    /// Their connection was closed or given up. This has them as they were left.
    Left(Files<D>),
}
