//! The files of a database: whether they were opened, and what became of them.

use files::{EndFault, OpenFault};
use sqlite::{FileFrom, Files};
use sqlite_disk::Disk;

/// How the connection to files ended, and the files as they were left.
pub(crate) type FilesLeft<D> = (Result<(), EndFault>, Files<D>);

/// The files of a database, which are opened at most once.
#[derive(Drop)]
pub(crate) enum DatabaseFiles<S, D: Disk> {
    /// They weren't opened. The value represents what they hold, and an open uses it up.
    Unopened(S),
    /// They are open.
    Connected,
    /// An open of them has failed.
    Failed(OpenFault<D>),
    /// They were opened, and the connection to them has ended.
    Left(FilesLeft<D>),
}

/// The files at a path.
pub(crate) type FilesAt<S> = DatabaseFiles<S, FileFrom<S>>;
