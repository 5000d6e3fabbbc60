//! The environment of a job: files, databases, a listener, and the program's test of itself.

ghost use Rattle.std.specs.Prelude.{Bool, List, Result, ℕ, ⊤};
ghost use Rattle.std.specs.declared.io.ErrorKind.{ErrorKind as Kind};
ghost use Rattle.std.specs.declared.net.socket_addr.SocketAddrV4.{SocketAddrV4 as Address};
ghost use Rattle.sqlite_wal.specs.Recovery.{Image};
ghost use Rattle.sqlite.specs.declared.error.Error.{Error as Fault};
ghost use Rattle.sqlite.specs.Held.{state};
ghost use Rattle.sqlite.specs.Steps.{over_memory};
ghost use Rattle.office.specs.declared.opening.Opening.{Opening};
ghost use Rattle.office.specs.declared.arrival.Arrival.{Arrival};
ghost use Rattle.store.specs.Meaning.{Tells};
ghost use Rattle.files.specs.declared.ending.EndFault.{EndFault};
ghost use Rattle.server.specs.declared.connection_fault.SelftestFault.{SelftestFault as TestFault};

use crate::trial::MemoryOffice;
use files::EndFault;
use server::{Listener, SelftestFault};
use sqlite::Error;
use std::io::{ErrorKind, Read};
use std::net::SocketAddrV4;

/// The environment of a job. Everything that a job opens, makes, closes and listens at goes through it.
pub trait World {
    /// A file that was opened.
    type File: Read + Drop;

    /// The connection to a database that was opened.
    type Conn;

    /// A listener.
    type Incoming: Listener + Drop;

    // The possible results of each call below, with the world before it and after it.
    ghost reads: { Self → List ℕ → Result Self.File Kind → Self → Type 0 } = { λ _ _ _ _. ⊤ };

    ghost finds: { Self → List ℕ → Result Bool Kind → Self → Type 0 } = { λ _ _ _ _. ⊤ };

    ghost makes: { Self → List ℕ → Result (Unit {0}) Kind → Self → Type 0 } = { λ _ _ _ _. ⊤ };

    ghost opens: { Self → List ℕ → Result Self.Conn Fault → Self → Type 0 } = { λ _ _ _ _. ⊤ };

    ghost closes: { Self → Self.Conn → Result (Unit {0}) EndFault → Self → Type 0 } = { λ _ _ _ _. ⊤ };

    ghost listens: { Self → Address → Result (Self.Incoming × ℕ) Kind → Self → Type 0 } = { λ _ _ _ _. ⊤ };

    // The contents of the files of the database that is opened; and, for a connection that was closed or given up,
    // whether its disk had returned what was written, and what a crash may leave of its files.
    ghost image: { Image };

    ghost is_clean: { Self → Self.Conn → Type 0 };

    ghost leaves: { Self → Self.Conn → Image → Type 0 };

    // A test is told of by the history of the office that is tested.
    ghost tests: { Self → Opening → List Arrival → Result (Unit {0}) TestFault → Self → Type 0 } = { λ _ _ _ _ _. ⊤ };

    /// Opens the file at a path for reading.
    ///
    /// # Errors
    ///
    /// The kind of the error, if it can't be opened.
    fn open_file(&mut self, path: &str) -> Result<Self::File, ErrorKind>
        ensures { reads self.old path.now result self.new };

    /// Returns whether there is a database at a path, and makes nothing.
    ///
    /// # Errors
    ///
    /// The kind of the error, if this can't be determined.
    fn has_database(&mut self, path: &str) -> Result<bool, ErrorKind>
        ensures { finds self.old path.now result self.new };

    /// Makes a database without tables at a path, if there is none.
    ///
    /// # Errors
    ///
    /// The kind of the error, if it can't be made.
    fn make_database(&mut self, path: &str) -> Result<(), ErrorKind>
        ensures { makes self.old path.now result self.new };

    /// Opens the database at a path.
    ///
    /// # Errors
    ///
    /// Why it can't be opened.
    fn open_database(&mut self, path: &str) -> Result<Self::Conn, Error>
        ensures { opens self.old path.now result self.new };

    /// Closes a database.
    ///
    /// # Errors
    ///
    /// Why it can't be closed well. It is closed anyway.
    fn close_database(&mut self, conn: Self::Conn) -> Result<(), EndFault>
        ensures { closes self.old conn result self.new };

    /// Listens at an address, and returns the port: one that the system chooses, if the address has port 0.
    ///
    /// # Errors
    ///
    /// The kind of the error, if nobody can listen there.
    fn listen(&mut self, address: SocketAddrV4) -> Result<(Self::Incoming, u16), ErrorKind>
        ensures { listens self.old address result self.new };

    /// Has an office in memory serve itself one request, over a socket of the loopback interface.
    ///
    /// # Errors
    ///
    /// Why it wasn't served, or that its answer isn't the specified one.
    fn test_office(&mut self, office: &mut MemoryOffice) -> Result<(), SelftestFault>
        ensures { (o : Opening) (l : List Arrival) → Tells (state over_memory office.old.conn) o l
            → tests self.old o l result self.new };
}
