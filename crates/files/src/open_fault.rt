//! Opening the files at a path, whatever database they hold.

ghost use Rattle.std.specs.Prelude.{◌≡◌, IfErr, IfOk, IsTrue};
ghost use Rattle.sqlite_wal.specs.Files.{image_at};
ghost use Rattle.sqlite.specs.Held.{IsNew};
ghost use Rattle.sqlite.specs.Opening.{is_open_error};
ghost use Rattle.sqlite.specs.Start.{FindsIn};
ghost use Rattle.sqlite.specs.State.{HasCleanDisk};
ghost use Rattle.sqlite.specs.Files.{IsOpened, file_state};
ghost use Rattle.files.specs.Opening.{HasNoChecksums, OpensOrFails};

use sqlite::{Connection, Error, FileFrom, FileStore, Files, Start};
use sqlite_disk::Disk;

/// Why the files at a path weren't opened. Only `open_files` makes one, and uses up what represents the contents of the
/// files. So whoever has one knows that an open has failed, and that no other can be made with that value.
#[derive(Drop)]
pub struct OpenFault<D: Disk> {
    // The error of the open.
    error: Error,
    // The files as the open has left them, if it had them.
    files: Option<Files<D>>,
}

impl<D: Disk> OpenFault<D> {
    /// The error of the open.
    pub fn error(&self) -> Error
        ensures { result ≡ self.now.error }
    {
        self.error
    }
}

/// Opens the files at a path, or makes them. `start` represents what they hold.
///
/// # Errors
///
/// Why they can't be opened.
pub fn open_files<S: Start>(
    rt: &HostRuntime,
    path: &str,
    start: S,
) -> Result<Connection<FileStore<FileFrom<S>>>, OpenFault<FileFrom<S>>>
    ensures new { IfOk result IsNew }
    ensures named { IfErr result (λ fault. IsTrue (is_open_error fault.error)) }
    ensures opened { IfOk result (λ c. HasCleanDisk (file_state c) → IsOpened c) }

    // The connection has the database that the files held.
    ensures found { IfOk result (λ c. HasCleanDisk (file_state c) → FindsIn (image_at S.Start) (file_state c)) }

    // A database file that is made has no checksums in its pages, nor has one that was half made before without them.
    ensures plain { IfOk result (λ c. HasCleanDisk (file_state c) → HasNoChecksums (image_at S.Start) c) }

    // If the open failed, the files are left as the toolchain's open leaves them.
    ensures fails { OpensOrFails (image_at S.Start) result }
{
    match Connection::open_from(rt, path, false, start) {
        Ok(conn) => Ok(conn),
        Err((error, left)) => match left {
            Some(rest) => {
                let files = rest.into_files();
                Err(OpenFault {
                    error,
                    files: Some(files),
                })
            }
            None => Err(OpenFault { error, files: None }),
        },
    }
}
