//! The files of databases.

ghost use Rattle.std.specs.Prelude.{◌≡◌, IfErr, IfOk, IsTrue};
ghost use Rattle.sqlite_wal.specs.Files.{image_at};
ghost use Rattle.sqlite.specs.Held.{IsNew};
ghost use Rattle.sqlite.specs.Opening.{is_open_error};
ghost use Rattle.sqlite.specs.Start.{FindsIn};
ghost use Rattle.sqlite.specs.State.{HasCleanDisk};
ghost use Rattle.sqlite.specs.Files.{IsOpened, file_state};
ghost use Rattle.files.specs.Opening.{HasNoChecksums, OpensOrFails};

use files::{OpenFault, open_files};
use sqlite::{Connection, FileFrom, FileStore, Start};
use std::fs::{self, OpenOptions, Permissions};
use std::io::{self, ErrorKind};
use std::os::unix::fs::{OpenOptionsExt, PermissionsExt};

/// The mode of a file that only its owner may read and write.
const OWNER_ALONE: u32 = 0o600;

/// Looks for, makes and opens the files of databases.
#[derive(Drop)]
pub struct Opener {
    rt: HostRuntime,
}

impl Opener {
    /// The opener of this runtime.
    pub fn new(rt: HostRuntime) -> Opener {
        Opener { rt }
    }

    /// Whether something is at a path.
    pub fn finds(&self, path: &str) -> io::Result<bool> {
        fs::exists(&self.rt, path)
    }

    /// Makes an empty file that only its owner may read and write, if the name is free. An existing file stays as it is.
    /// Nothing is made at what SQLite takes for something other than a path, and refuses to open.
    pub fn make(&self, path: &str) -> io::Result<()> {
        if path == ":memory:" || path.starts_with("file:") {
            return Ok(());
        }
        match OpenOptions::new()
            .write(true)
            .create_new(true)
            .mode(OWNER_ALONE)
            .open(&self.rt, path)
        {
            // The umask may have removed permissions that the owner needs.
            Ok(file) => file.set_permissions(Permissions::from_mode(OWNER_ALONE)),
            Err(error) if error.kind() == ErrorKind::AlreadyExists => Ok(()),
            Err(error) => Err(error),
        }
    }

    /// Opens the database at a path, or makes one without tables. `start` represents what its files hold.
    ///
    /// # Errors
    ///
    /// Why it can't be opened.
    pub fn open<S: Start>(
        &self,
        path: &str,
        start: S,
    ) -> Result<Connection<FileStore<FileFrom<S>>>, OpenFault<FileFrom<S>>>
        ensures new { IfOk result IsNew }
        ensures named { IfErr result (λ fault. IsTrue (is_open_error fault.error)) }
        ensures opened { IfOk result (λ c. HasCleanDisk (file_state c) → IsOpened c) }

        // The connection has the database that the files held.
        ensures found { IfOk result (λ c. HasCleanDisk (file_state c) → FindsIn (image_at S.Start) (file_state c)) }

        // A database file that is made has no checksums in its pages, nor has one that was half made before without
        // them.
        ensures plain { IfOk result (λ c. HasCleanDisk (file_state c) → HasNoChecksums (image_at S.Start) c) }

        // If the open failed, the files are left as the toolchain's open leaves them.
        ensures fails { OpensOrFails (image_at S.Start) result }
    {
        match open_files(&self.rt, path, start) {
            Ok(conn) => Ok(conn),
            Err(fault) => Err(fault),
        }
    }
}
