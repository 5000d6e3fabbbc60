//! A world in memory, in which a call may fail.

ghost use Rattle.std.specs.Prelude.{IfOk, []};
ghost use Rattle.sqlite.specs.Files.{over_files};
ghost use Rattle.office_jobs.specs.Whole.{IsReady};

use files::EndFault;
use office_jobs::{MemoryOffice, World};
use restart::end_at;
use server::{ScriptedConnection, ScriptedListener, SelftestFault};
use sqlite::{Connection, Error, FileStore, Files, Options};
use sqlite_disk::{Disk, Memory};
use std::alloc::{Alloc, Global};
use std::io;
use std::io::{ErrorKind, Read, Write};
use std::net::SocketAddrV4;

/// The port at which it listens.
const PORT: u16 = 40022;

/// A file.
#[derive(Clone, Copy)]
pub struct ScriptedFile<'a> {
    /// Its path.
    pub path: &'a str,
    /// Its contents.
    pub bytes: &'a [u8],
}

/// The call that fails, each time.
#[derive(Clone, Copy)]
pub enum Failing<'a> {
    /// No call.
    Nothing,
    /// Opening the file at a path, with an error of this kind.
    File(&'a str, ErrorKind),
    /// Reading the file at a path, after its last byte.
    Read(&'a str),
    /// Looking for a database: there is none.
    Absent,
    /// Looking for a database.
    Find(ErrorKind),
    /// Making a database.
    Make(ErrorKind),
    /// Opening a database.
    Open(Error),
    /// Closing a database.
    Close(EndFault),
    /// Listening.
    Listen(ErrorKind),
    /// The program's test of itself.
    Test(SelftestFault),
}

/// The contents of an open file.
#[derive(Drop)]
pub struct Contents<'a> {
    rest: &'a [u8],
    fails: bool,
}

impl Read for Contents<'_> {
    fn read(&mut self, buf: &mut [u8]) -> io::Result<usize> {
        if self.rest.is_empty() && self.fails {
            return Err(io::Error::other("the file ends"));
        }
        self.rest.read(buf)
    }
}

/// A world in memory. It keeps its calls, each on a line, and the files of its database.
#[derive(Drop)]
pub struct Script<'a> {
    /// The call that fails.
    pub failing: Failing<'a>,
    files: &'a [ScriptedFile<'a>],
    connections: &'a [ScriptedConnection<'a>],
    alloc: Global,
    calls: Vec<u8>,
    left: Option<Files<Memory>>,
}

impl<'a> Script<'a> {
    /// A world with these files, whose listener has these connections, before any call. It has no database.
    pub fn new(
        alloc: Global,
        files: &'a [ScriptedFile<'a>],
        connections: &'a [ScriptedConnection<'a>],
    ) -> Script<'a> {
        Script {
            failing: Failing::Nothing,
            files,
            connections,
            alloc,
            calls: Vec::new(alloc),
            left: None,
        }
    }

    /// The calls since they were last taken.
    pub fn take_calls(&mut self) -> Vec<u8> {
        std::mem::replace(&mut self.calls, Vec::new(self.alloc))
    }

    fn note(&mut self, call: &str, path: &str) {
        let _ = writeln!(self.calls, "{call} {path}");
    }
}

impl Alloc for Script<'_> {
    type A = Global;

    fn alloc(&self) -> Global {
        self.alloc
    }
}

/// The bytes of the file at a path.
fn file_at<'a>(files: &[ScriptedFile<'a>], path: &str) -> Option<&'a [u8]> {
    for file in files {
        if file.path == path {
            return Some(file.bytes);
        }
    }
    None
}

/// Opens files in memory, or new ones.
#[tactic(auto, using(crate::proofs::Ready::ready))]
fn opened_in(
    alloc: Global,
    left: Option<Files<Memory>>,
) -> Result<Connection<FileStore<Memory>>, Error>
    ensures { IfOk result (IsReady over_files) }
{
    let files = match left {
        Some(files) => files,
        None => Files {
            log: Memory::new(alloc),
            db: Memory::new(alloc),
        },
    };
    if !files.log.may_be_used() || !files.db.may_be_used() {
        return Err(Error::SqliteFailure(sqlite::ErrorCode::SystemIoFailure));
    }
    match Connection::open_files(alloc, files, Options::new(7)) {
        Ok(conn) => Ok(conn),
        Err((error, _)) => Err(error),
    }
}

impl<'a> World for Script<'a> {
    type File = Contents<'a>;

    type Conn = Connection<FileStore<Memory>>;

    type Incoming = ScriptedListener<'a>;

    ghost opens = { λ _ _ found _. IfOk found (IsReady over_files) };

    // Nothing is promised about what a crash leaves of files in memory.
    ghost image = { record { log = []; db = [] } };

    ghost is_clean = { λ _ _. ⊥ };

    ghost leaves = { λ _ _ _. ⊥ };

    fn open_file(&mut self, path: &str) -> Result<Contents<'a>, ErrorKind> {
        self.note("file", path);
        if let Failing::File(failing, kind) = self.failing {
            if failing == path {
                return Err(kind);
            }
        }
        let fails = match self.failing {
            Failing::Read(failing) => failing == path,
            _ => false,
        };
        match file_at(self.files, path) {
            Some(rest) => Ok(Contents { rest, fails }),
            None => Err(ErrorKind::NotFound),
        }
    }

    fn has_database(&mut self, path: &str) -> Result<bool, ErrorKind> {
        self.note("find", path);
        match self.failing {
            Failing::Absent => Ok(false),
            Failing::Find(kind) => Err(kind),
            _ => Ok(true),
        }
    }

    fn make_database(&mut self, path: &str) -> Result<(), ErrorKind> {
        self.note("make", path);
        match self.failing {
            Failing::Make(kind) => Err(kind),
            _ => Ok(()),
        }
    }

    fn open_database(&mut self, path: &str) -> Result<Connection<FileStore<Memory>>, Error> {
        self.note("open", path);
        match self.failing {
            Failing::Open(error) => Err(error),
            _ => opened_in(self.alloc, self.left.take()),
        }
    }

    fn close_database(&mut self, conn: Connection<FileStore<Memory>>) -> Result<(), EndFault> {
        let _ = writeln!(self.calls, "close");
        let (ended, files) = end_at(conn);
        self.left = Some(files);
        match self.failing {
            Failing::Close(fault) => Err(fault),
            _ => ended,
        }
    }

    fn listen(&mut self, address: SocketAddrV4) -> Result<(ScriptedListener<'a>, u16), ErrorKind> {
        let _ = writeln!(self.calls, "listen {address}");
        if let Failing::Listen(kind) = self.failing {
            return Err(kind);
        }
        match ScriptedListener::new(self.alloc, self.connections) {
            Ok(listener) => Ok((listener, PORT)),
            Err(_) => Err(ErrorKind::OutOfMemory),
        }
    }

    fn test_office(&mut self, _office: &mut MemoryOffice) -> Result<(), SelftestFault> {
        let _ = writeln!(self.calls, "test");
        match self.failing {
            Failing::Test(fault) => Err(fault),
            _ => Ok(()),
        }
    }
}
