//! The world of the program: the system's files, clock and sockets, and databases in files.
//!
//! Each call goes to the crate `system` or to another. Nothing is proved about the system's answers.

ghost use Rattle.std.specs.Prelude.{◌≡◌, ◌≤◌, IfErr, IfOk, IsTrue, map, string_bytes};
ghost use Rattle.sqlite_wal.specs.Files.{image_at};
ghost use Rattle.sqlite.specs.Files.{over_files};
ghost use Rattle.sqlite.specs.Opening.{is_open_error};
ghost use Rattle.files.specs.Opening.{OpensOrFails};
ghost use Rattle.command_line.specs.Answers.{AreBad};
ghost use Rattle.office_jobs.specs.Commands.{RunsWordsOver};
ghost use Rattle.office_jobs.specs.Ending.{Heeds};
ghost use Rattle.office_jobs.specs.Names.{Takes};
ghost use Rattle.sshoffice.specs.declared.database_files.DatabaseFiles.TheVariants.{Unopened};
ghost use Rattle.sshoffice.specs.DatabaseFiles.{AreCleanOf, AreGivenBack, AreLeftAs, ClosesFiles, MayBecome};
ghost use Rattle.sshoffice.specs.DatabaseFiles.{OpensFiles, OpensOnce};

use crate::database_files::DatabaseFiles;
use files::{EndFault, OpenFault};
use office_jobs::{MemoryOffice, Output, World, do_words};
use restart::{end_at, what_is_found_is_told};
use server::{Listener, Loopback, SelftestFault, selftest};
use sqlite::{Connection, Error, ErrorCode, FileFrom, FileStore, Start};
use sqlite_disk::Disk;
use std::alloc::{Alloc, Global};
use std::cell::OnceCell;
use std::fs::File;
use std::io::{ErrorKind, Read};
use std::mem::replace;
use std::net::{SocketAddr, SocketAddrV4, TcpListener};
use system::{Network, Opener, System};
use wire::Sink;

/// A connection to the files at a path.
type FileConnection<S> = Connection<FileStore<FileFrom<S>>>;

/// The files at a path.
type FilesAt<S> = DatabaseFiles<S, FileFrom<S>>;

/// Opens the database at a path, or makes one without tables. `start` represents the contents of its files.
fn open_files<S: Start>(
    opener: &Opener,
    path: &str,
    start: S,
) -> Result<FileConnection<S>, OpenFault<FileFrom<S>>>
    ensures ok { IfOk result (OpensFiles (image_at S.Start)) }
    ensures named { IfErr result (λ fault. IsTrue (is_open_error fault.error)) }
    ensures fails { OpensOrFails (image_at S.Start) result }
{
    match opener.open(path, start) {
        Ok(conn) => {
            what_is_found_is_told(&conn);
            Ok(conn)
        }
        Err(fault) => Err(fault),
    }
}

/// Opens the database at a path, if its files weren't opened before.
fn open_once<S: Start>(
    opener: &Opener,
    files: &mut FilesAt<S>,
    path: &str,
) -> Result<FileConnection<S>, Error>
    ensures { OpensOnce (image_at S.Start) files.old result files.new }
{
    match replace(files, DatabaseFiles::Connected) {
        DatabaseFiles::Unopened(start) => match open_files(opener, path, start) {
            Ok(opened) => Ok(opened),
            Err(fault) => {
                let error = fault.error();
                *files = DatabaseFiles::Failed(fault);
                Err(error)
            }
        },
        former => {
            *files = former;
            Err(Error::SqliteFailure(ErrorCode::CannotOpen))
        }
    }
}

/// The system, in which at most one database is opened, and only once.
#[derive(Drop)]
pub struct Host<'a, S: Start> {
    system: &'a System,
    opener: &'a Opener,
    network: &'a Network,
    // The database's files.
    files: FilesAt<S>,
    // The cell for the listener, which outlives its connections.
    listener: &'a OnceCell<TcpListener>,
}

impl<'a, S: Start> Host<'a, S> {
    /// The system, before any call. `start` represents the contents of the database's files.
    pub fn new(
        system: &'a System,
        opener: &'a Opener,
        network: &'a Network,
        start: S,
        listener: &'a OnceCell<TcpListener>,
    ) -> Host<'a, S>
        ensures { result.files ≡ Unopened start }
    {
        Host {
            system,
            opener,
            network,
            files: DatabaseFiles::Unopened(start),
            listener,
        }
    }

    /// What became of the database's files.
    pub fn into_files(self) -> FilesAt<S>
        ensures { result ≡ self.entry.files }
    {
        let Host { files, .. } = self;
        files
    }
}

impl<S: Start> Alloc for Host<'_, S> {
    type A = Global;

    fn alloc(&self) -> Global {
        self.system.alloc()
    }
}

impl<'a, S: Start> World for Host<'a, S> {
    type File = File;

    type Conn = FileConnection<S>;

    type Incoming = Loopback<'a, Network>;

    // The files of the database change only when it is opened and closed.
    ghost reads = { λ before _ _ after. after ≡ before };

    ghost finds = { λ before _ _ after. after ≡ before };

    ghost makes = { λ before _ _ after. after ≡ before };

    ghost listens = { λ before _ _ after. after ≡ before };

    ghost tests = { λ before _ _ _ after. after ≡ before };

    ghost opens = { λ before _ found after. OpensOnce (image_at S.Start) before.files found after.files };

    ghost closes = { λ _ conn closed after. AreLeftAs (ClosesFiles conn closed) after.files };

    ghost image = { image_at S.Start };

    ghost is_clean = { λ host conn. AreLeftAs (AreCleanOf conn) host.files };

    ghost leaves = { λ host conn image. AreLeftAs (λ files. MayBecome conn files image) host.files };

    fn open_file(&mut self, path: &str) -> Result<File, ErrorKind> {
        self.system.open(path).map_err(|error| error.kind())
    }

    fn has_database(&mut self, path: &str) -> Result<bool, ErrorKind> {
        self.opener.finds(path).map_err(|error| error.kind())
    }

    fn make_database(&mut self, path: &str) -> Result<(), ErrorKind> {
        self.opener.make(path).map_err(|error| error.kind())
    }

    fn open_database(&mut self, path: &str) -> Result<FileConnection<S>, Error> {
        open_once(self.opener, &mut self.files, path)
    }

    fn close_database(&mut self, conn: FileConnection<S>) -> Result<(), EndFault> {
        let (ended, files) = end_at(conn);
        self.files = DatabaseFiles::Left(files);
        ended
    }

    fn listen(&mut self, address: SocketAddrV4) -> Result<(Loopback<'a, Network>, u16), ErrorKind> {
        listen_in(self.network, self.listener, address)
    }

    fn test_office(&mut self, office: &mut MemoryOffice) -> Result<(), SelftestFault> {
        selftest(&(self.network, self.system.alloc()), office)
    }
}

// Listens at an address. The listener is kept in the cell.
fn listen_in<'a>(
    network: &'a Network,
    cell: &'a OnceCell<TcpListener>,
    address: SocketAddrV4,
) -> Result<(Loopback<'a, Network>, u16), ErrorKind> {
    let listener = TcpListener::bind(network, SocketAddr::V4(address)).map_err(
        |error| error.kind(),
    )?;
    let at = listener.local_addr().map_err(|error| error.kind())?;
    let _ = cell.set(listener);
    match cell.get() {
        Some(listener) => Ok((Loopback::new(listener, network), at.port())),
        None => Err(ErrorKind::OutOfMemory),
    }
}

/// Does what the arguments ask for in the world of the system. Returns the status, `out`, and what became of the files
/// of the job's database. `start` represents their contents. Only this function does a job over a file's connection:
/// such a call takes half a minute to prove.
pub fn run<S: Start, O: Output, E: Sink>(
    system: &System,
    opener: &Opener,
    network: &Network,
    start: S,
    words: &[String],
    out: O,
    err: &mut E,
) -> (u8, O, FilesAt<S>)
    requires tells { E.failed err.old ≡ 0 }
    requires prints { O.failed out ≡ 0 }

    // The arguments had this effect in a world whose files weren't opened before, and this is what became of them. If
    // no call of `err` has failed, it has taken the lines of all faults, and nothing else. `Write` is a fault only if a
    // call of `out` failed.
    ensures runs { RunsWordsOver over_files ⟦<Host<'static, S> as World>⟧
        ⟦<File as Read>⟧.remaining ⟦<Loopback<'static, Network> as Listener>⟧.book
        (λ host. host.files ≡ Unopened start) (λ host. host.files ≡ result.2) (map string_bytes words.now)
        (O.taken out) (O.taken result.1)
        (Takes (E.failed err.old) (E.failed err.new) (E.taken err.old) (E.taken err.new))
        (Heeds (O.failed out) (O.failed result.1) (O.is_flushed result.1)) result.0 }

    // They weren't opened, and `start` is given back; or an open of them failed, and left them like this; or they were
    // opened, and `runs` says how their connection has left them.
    ensures files { AreGivenBack ⟦<FileFrom<S> as Disk>⟧ (image_at S.Start) start result.2 }
    ensures status { result.0 ≤ 2 }
    ensures bad { result.0 ≡ 2 → AreBad (map string_bytes words.now) }
{
    let listener = OnceCell::new();
    let mut host = Host::new(system, opener, network, start, &listener);
    let (status, out) = do_words(&mut host, words, out, err);
    (status, out, host.into_files())
}
