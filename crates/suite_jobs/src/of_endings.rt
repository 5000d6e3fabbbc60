//! The end of a connection: it closes cleanly if memory and the disk suffice.

use files::EndFault;
use restart::end_at;
use sqlite::{Connection, FileStore, Files, Options};
use sqlite_disk::{Disk, Fuse, Memory};
use std::alloc::Global;

/// Files in memory, whose log takes this many calls and fails each one after them.
fn files_with(alloc: Global, log_calls: u64) -> Files<Fuse<Memory>> {
    Files {
        log: Fuse::new(Memory::new(alloc), log_calls),
        db: Fuse::new(Memory::new(alloc), u64::MAX),
    }
}

/// Opens files, if they may be used.
fn opened<D: Disk + Drop>(alloc: Global, files: Files<D>) -> Option<Connection<FileStore<D>>> {
    if !files.log.may_be_used() || !files.db.may_be_used() {
        return None;
    }
    match Connection::open_files(alloc, files, Options::new(7)) {
        Ok(conn) => Some(conn),
        Err(_) => None,
    }
}

/// Whether the files hold this table.
fn has_table<D: Disk + Drop>(alloc: Global, files: Files<D>) -> bool {
    match opened(alloc, files) {
        Some(conn) => {
            let mut conn = conn;
            conn.prepare("SELECT text FROM note").is_ok()
        }
        None => false,
    }
}

#[derive(Clone, Copy, Debug, PartialEq)]
enum Ended {
    Unopened,
    Closed,
    GivenUp,
    Uncopied,
}

fn ended_by(how: Result<(), EndFault>) -> Ended {
    match how {
        Ok(()) => Ended::Closed,
        Err(EndFault::GivenUp(_)) => Ended::GivenUp,
        Err(EndFault::Uncopied(_)) => Ended::Uncopied,
    }
}

/// How a run that creates a table ends if the log takes this many calls, and whether the files then have the table.
fn run_with(alloc: Global, log_calls: u64) -> (Ended, bool) {
    match opened(alloc, files_with(alloc, log_calls)) {
        Some(conn) => {
            let mut conn = conn;
            let _ = conn.execute("CREATE TABLE note (text TEXT)", &[]);
            let (how, files) = end_at(conn);
            (ended_by(how), has_table(alloc, files))
        }
        None => (Ended::Unopened, false),
    }
}

#[test]
fn an_open_connection_is_closed(rt: HostRuntime) {
    assert_eq!(rt; run_with(rt.alloc(), u64::MAX), (Ended::Closed, true));
}
