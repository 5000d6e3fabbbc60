//! Guards of lists in the files of databases: finding, making, opening and closing them.

ghost use Rattle.std.specs.Prelude.{◌≡◌, IfOk};
ghost use Rattle.sqlite_wal.specs.Files.{image_at};
ghost use Rattle.files.specs.Opening.{OpensOrFails};
ghost use Rattle.sshstation.specs.DatabaseFiles.{AreLeftAs, AreUnopened};
ghost use Rattle.sshstation.specs.ListFiles.{EndsList, FindsList, MakesList, OpensLists, of_opening};
ghost use Rattle.sshstation.specs.Unopened.{ConnectsOrNot};
ghost use Rattle.sshstation.specs.UnopenedLists.{MakesLeaving, MakesOrLeaves, OpensLeaving, OpensOrLeaves};

use crate::database_files::{DatabaseFiles, FilesAt};
use crate::guard_database::{
    FileConnection, abandoned, database_fault, looked_for, made, of_ending,
};
use files::OpenFault;
use list_jobs::ListFile;
use list_sql::{ListStore, OpeningFault, end_path, what_is_found_is_had};
use sqlite::{FileFrom, FileStore, Files, Start};
use station_jobs::StationFault;
use std::alloc::Global;
use std::mem::replace;
use system::Opener;

/// A guard of lists in the files at a path.
type FileLists<S> = ListStore<FileStore<FileFrom<S>>>;

/// Why no guard of lists was opened or made, and the files, which are left as they are.
type Unopened<S> = (StationFault, Files<FileFrom<S>>);

/// The fault of a guard of lists that wasn't opened or made.
fn unopened_fault(fault: OpeningFault) -> StationFault
    ensures { result ≡ of_opening fault }
{
    match fault {
        OpeningFault::AlreadyAGuard => StationFault::AlreadyAGuard,
        OpeningFault::NotAGuard => StationFault::NotAGuard,
        OpeningFault::WrongSchema => StationFault::WrongSchema,
        OpeningFault::Damaged => StationFault::Damaged,
        OpeningFault::Device => StationFault::Device,
        OpeningFault::NoMemory => StationFault::NoMemory,
    }
}

/// Opens the database at a path, or makes one without tables. `start` represents what its files hold.
fn open_lists<S: Start>(
    opener: &Opener,
    path: &str,
    start: S,
) -> Result<FileConnection<S>, OpenFault<FileFrom<S>>>
    ensures ok { IfOk result (OpensLists (image_at S.Start)) }
    ensures fails { OpensOrFails (image_at S.Start) result }
{
    match opener.open(path, start) {
        Ok(found) => {
            what_is_found_is_had(&found);
            Ok(found)
        }
        Err(fault) => Err(fault),
    }
}

/// The guard of lists in the files of a database, which are opened once.
#[derive(Drop)]
pub(crate) struct ListDatabase<'a, S: Start> {
    opener: &'a Opener,
    files: FilesAt<S>,
}

impl<'a, S: Start> ListDatabase<'a, S> {
    /// The guard of lists in files that hold what `start` represents, before they are opened.
    pub(crate) fn new(opener: &'a Opener, start: S) -> ListDatabase<'a, S>
        ensures { AreUnopened start result.files }
    {
        ListDatabase {
            opener,
            files: DatabaseFiles::Unopened(start),
        }
    }

    /// Opens the files at a path, unless they were opened before.
    fn connect(&mut self, path: &str) -> Result<FileConnection<S>, StationFault>
        ensures opens { IfOk result (OpensLists (image_at S.Start)) }
        ensures none { ConnectsOrNot (image_at S.Start) result self.old.files self.new.files }
    {
        match replace(&mut self.files, DatabaseFiles::Connected) {
            DatabaseFiles::Unopened(start) => match open_lists(self.opener, path, start) {
                Ok(conn) => Ok(conn),
                Err(fault) => {
                    let told = database_fault(fault.error());
                    self.files = DatabaseFiles::Failed(fault);
                    Err(told)
                }
            },
            known => {
                self.files = known;
                Err(StationFault::Device)
            }
        }
    }

    /// The files as they are now.
    pub(crate) fn into_files(self) -> FilesAt<S>
        ensures { result ≡ self.entry.files }
    {
        let ListDatabase { files, .. } = self;
        files
    }
}

/// Makes a guard of lists over a new connection.
fn make_over<S: Start>(alloc: Global, conn: FileConnection<S>) -> Result<FileLists<S>, Unopened<S>>
    requires { OpensLists (image_at S.Start) conn }
    ensures made { IfOk result (MakesList (image_at S.Start)) }
    ensures left { MakesOrLeaves (image_at S.Start) result }
{
    match ListStore::init(alloc, conn) {
        Ok(guard) => Ok(guard),
        Err((fault, conn)) => {
            let files = abandoned(conn);
            Err((unopened_fault(fault), files))
        }
    }
}

/// Opens the guard of lists of a new connection.
fn open_over<S: Start>(alloc: Global, conn: FileConnection<S>) -> Result<FileLists<S>, Unopened<S>>
    requires { OpensLists (image_at S.Start) conn }
    ensures found { IfOk result (FindsList (image_at S.Start)) }
    ensures left { OpensOrLeaves (image_at S.Start) result }
{
    match ListStore::open(alloc, conn) {
        Ok(guard) => Ok(guard),
        Err((fault, found)) => {
            let files = abandoned(found);
            Err((unopened_fault(fault), files))
        }
    }
}

impl<S: Start> ListFile for ListDatabase<'_, S> {
    type Guard = FileLists<S>;

    ghost makes = { λ db _ found after. IfOk found (MakesList (image_at S.Start))
        × MakesLeaving (image_at S.Start) found db.files after.files };

    ghost opens = { λ db _ found after. IfOk found (FindsList (image_at S.Start))
        × OpensLeaving (image_at S.Start) found db.files after.files };

    ghost closes = { λ _ guard done db. AreLeftAs db.files (EndsList guard done) };

    fn make(&mut self, alloc: Global, path: &str) -> Result<FileLists<S>, StationFault> {
        match made(self.opener, path) {
            Ok(()) => match self.connect(path) {
                Ok(conn) => match make_over(alloc, conn) {
                    Ok(guard) => Ok(guard),
                    Err((fault, files)) => {
                        self.files = DatabaseFiles::Left((Ok(()), files));
                        Err(fault)
                    }
                },
                Err(fault) => Err(fault),
            },
            Err(fault) => Err(fault),
        }
    }

    fn open(&mut self, alloc: Global, path: &str) -> Result<FileLists<S>, StationFault> {
        match looked_for(self.opener, path) {
            Ok(()) => match self.connect(path) {
                Ok(conn) => match open_over(alloc, conn) {
                    Ok(opened) => Ok(opened),
                    Err((fault, found)) => {
                        self.files = DatabaseFiles::Left((Ok(()), found));
                        Err(fault)
                    }
                },
                Err(fault) => Err(fault),
            },
            Err(fault) => Err(fault),
        }
    }

    fn close(&mut self, guard: FileLists<S>) -> Result<(), StationFault> {
        let conn = guard.into_connection();
        let (ended, files) = end_path(conn);
        let done = of_ending(ended);
        self.files = DatabaseFiles::Left((ended, files));
        done
    }
}
