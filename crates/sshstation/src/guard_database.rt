//! Guards in the files of databases: finding, making, opening and closing them.

ghost use Rattle.std.specs.Prelude.{◌≡◌, IfErr, IfOk, IsTrue};
ghost use Rattle.values.specs.Serials.{are_serials};
ghost use Rattle.sqlite_wal.specs.Files.{image_at};
ghost use Rattle.files.specs.Images.{HoldsNone};
ghost use Rattle.guard_sql.specs.Images.{HoldsKept};
ghost use Rattle.files.specs.Opening.{OpensOrFails};
ghost use Rattle.sshstation.specs.DatabaseFiles.{AreLeftAs, AreUnopened};
ghost use Rattle.sshstation.specs.GuardFiles.{AreSettled, EndsGuard, FindsGuard, HaveGuard, HaveOne, IsOfFiles};
ghost use Rattle.sshstation.specs.GuardFiles.{IsOfSearch, MakesGuard, OpensFiles, of_database, of_ending, of_opening};
ghost use Rattle.sshstation.specs.Unopened.{ConnectsOrNot, LeavesDatabase, MakesLeaving, MakesOrLeaves};
ghost use Rattle.sshstation.specs.Unopened.{OpensLeaving, OpensOrLeaves, Settles};

use crate::database_files::{DatabaseFiles, FilesAt};
use files::{EndFault, OpenFault};
use guard::Scope;
use guard_sql::{GuardStore, OpeningFault, end_path, what_is_found_is_had};
use sqlite::{Connection, Error, ErrorCode, FileFrom, FileStore, Files, Start};
use sqlite_disk::Disk;
use station_jobs::{GuardFile, StationFault};
use std::alloc::Global;
use std::io::{self, ErrorKind};
use std::mem::replace;
use system::Opener;

/// A connection to the files at a path.
pub(crate) type FileConnection<S> = Connection<FileStore<FileFrom<S>>>;

/// A guard in the files at a path.
pub(crate) type FileGuard<S> = GuardStore<FileStore<FileFrom<S>>>;

/// Why no guard was opened or made, and the files, which are left as they are.
type Unopened<S> = (StationFault, Files<FileFrom<S>>);

/// The fault of a database that wasn't opened or closed.
pub(crate) fn database_fault(error: Error) -> StationFault
    ensures { result ≡ of_database error }
{
    match error {
        Error::SqliteFailure(ErrorCode::OutOfMemory) => StationFault::NoMemory,
        _ => StationFault::Device,
    }
}

/// The fault of a database that can't be looked for or made.
fn unfound_fault(error: &io::Error) -> StationFault
    ensures { IsOfFiles result }
{
    match error.kind() {
        ErrorKind::OutOfMemory => StationFault::NoMemory,
        _ => StationFault::Device,
    }
}

/// The fault of a guard that wasn't opened or made.
fn unopened_fault(fault: OpeningFault) -> StationFault
    ensures { result ≡ of_opening fault }
{
    match fault {
        OpeningFault::AlreadyAGuard => StationFault::AlreadyAGuard,
        OpeningFault::NotAGuard => StationFault::NotAGuard,
        OpeningFault::WrongSchema => StationFault::WrongSchema,
        OpeningFault::Damaged => StationFault::Damaged,
        OpeningFault::Device => StationFault::Device,
        OpeningFault::NoMemory => StationFault::NoMemory,
    }
}

/// Opens the database at a path, or makes one without tables. `start` represents what its files hold.
fn open_database<S: Start>(
    opener: &Opener,
    path: &str,
    start: S,
) -> Result<FileConnection<S>, OpenFault<FileFrom<S>>>
    ensures ok { IfOk result (OpensFiles (image_at S.Start)) }
    ensures fails { OpensOrFails (image_at S.Start) result }
{
    match opener.open(path, start) {
        Ok(found) => {
            what_is_found_is_had(&found);
            Ok(found)
        }
        Err(fault) => Err(fault),
    }
}

/// The result of ending a connection.
pub(crate) fn of_ending(ended: Result<(), EndFault>) -> Result<(), StationFault>
    ensures { result ≡ of_ending ended }
{
    match ended {
        Ok(()) => Ok(()),
        Err(EndFault::GivenUp(error)) => Err(database_fault(error)),
        Err(EndFault::Uncopied(error)) => Err(database_fault(error)),
    }
}

/// Makes the file of a guard, if it doesn't exist.
pub(crate) fn made(opener: &Opener, path: &str) -> Result<(), StationFault>
    ensures { IfErr result IsOfFiles }
{
    match opener.make(path) {
        Ok(()) => Ok(()),
        Err(error) => Err(unfound_fault(&error)),
    }
}

/// Looks for the file of a guard.
#[tactic(auto, using(crate::proofs::Kept::files_searched))]
pub(crate) fn looked_for(opener: &Opener, path: &str) -> Result<(), StationFault>
    ensures { IfErr result IsOfSearch }
{
    match opener.finds(path) {
        Ok(true) => Ok(()),
        Ok(false) => Err(StationFault::NotAGuard),
        Err(error) => Err(unfound_fault(&error)),
    }
}

/// The guard in the files of a database, which are opened once.
#[derive(Drop)]
pub(crate) struct GuardDatabase<'a, S: Start> {
    opener: &'a Opener,
    files: FilesAt<S>,
}

impl<'a, S: Start> GuardDatabase<'a, S> {
    /// The guard in files that hold what `start` represents, before they are opened.
    pub(crate) fn new(opener: &'a Opener, start: S) -> GuardDatabase<'a, S>
        ensures { AreUnopened start result.files }
    {
        GuardDatabase {
            opener,
            files: DatabaseFiles::Unopened(start),
        }
    }

    /// Opens the files at a path, unless they were opened before.
    fn connect(&mut self, path: &str) -> Result<FileConnection<S>, StationFault>
        ensures opens { IfOk result (OpensFiles (image_at S.Start)) }
        ensures none { ConnectsOrNot (image_at S.Start) result self.old.files self.new.files }
    {
        match replace(&mut self.files, DatabaseFiles::Connected) {
            DatabaseFiles::Unopened(start) => match open_database(self.opener, path, start) {
                Ok(conn) => Ok(conn),
                Err(fault) => {
                    let told = database_fault(fault.error());
                    self.files = DatabaseFiles::Failed(fault);
                    Err(told)
                }
            },
            known => {
                self.files = known;
                Err(StationFault::Device)
            }
        }
    }

    /// The files as they are now.
    pub(crate) fn into_files(self) -> FilesAt<S>
        ensures { result ≡ self.entry.files }
    {
        let GuardDatabase { files, .. } = self;
        files
    }
}

/// Abandons a connection over which no guard was opened or made, and returns its files as they are.
pub(crate) fn abandoned<D: Disk + Drop>(conn: Connection<FileStore<D>>) -> Files<D>
    // Whatever a crash makes of the files from now on, they hold a database that it could leave before.
    ensures leaves { LeavesDatabase conn result }
    ensures settles { Settles D.Disk }
{
    conn.into_store().close()
}

/// Makes a guard over a new connection.
fn make_over<S: Start>(
    alloc: Global,
    conn: FileConnection<S>,
    ca: [u8; 32],
    first: u64,
    last: u64,
) -> Result<FileGuard<S>, Unopened<S>>
    requires files { OpensFiles (image_at S.Start) conn }
    requires lawful { IsTrue (are_serials first last) }
    ensures made { IfOk result (MakesGuard (image_at S.Start) (record { ca = ca; first = first; last = last })) }
    ensures left { MakesOrLeaves (image_at S.Start) (record { ca = ca; first = first; last = last }) result }
{
    match GuardStore::init(alloc, conn, &Scope { ca, first, last }) {
        Ok(guard) => Ok(guard),
        Err((fault, conn)) => {
            let files = abandoned(conn);
            Err((unopened_fault(fault), files))
        }
    }
}

/// Opens the guard of a new connection.
fn open_over<S: Start>(alloc: Global, conn: FileConnection<S>) -> Result<FileGuard<S>, Unopened<S>>
    requires { OpensFiles (image_at S.Start) conn }
    ensures found { IfOk result (FindsGuard (image_at S.Start)) }
    ensures left { OpensOrLeaves (image_at S.Start) result }
{
    match GuardStore::open(alloc, conn) {
        Ok(guard) => Ok(guard),
        Err((fault, found)) => {
            let files = abandoned(found);
            Err((unopened_fault(fault), files))
        }
    }
}

impl<S: Start> GuardFile for GuardDatabase<'_, S> {
    type Guard = FileGuard<S>;

    ghost makes = { λ db _ scope found after. IfOk found (MakesGuard (image_at S.Start) scope)
        × MakesLeaving (image_at S.Start) scope found db.files after.files };

    ghost opens = { λ db _ found after. IfOk found (FindsGuard (image_at S.Start))
        × OpensLeaving (image_at S.Start) found db.files after.files };

    ghost closes = { λ _ guard done db. AreLeftAs db.files (EndsGuard guard done) };

    ghost held = { λ s. HoldsKept (image_at S.Start) s };

    ghost is_blank = { HoldsNone (image_at S.Start) };

    ghost is_settled = { λ db guard. AreLeftAs db.files (AreSettled guard) };

    ghost has = { λ db guard s. AreLeftAs db.files (HaveGuard guard s) };

    ghost has_one = { λ db guard s t. AreLeftAs db.files (HaveOne guard s t) };

    fn make(
        &mut self,
        alloc: Global,
        path: &str,
        scope: &Scope,
    ) -> Result<FileGuard<S>, StationFault> {
        match made(self.opener, path) {
            Ok(()) => match self.connect(path) {
                Ok(conn) => match make_over(alloc, conn, scope.ca, scope.first, scope.last) {
                    Ok(guard) => Ok(guard),
                    Err((fault, files)) => {
                        self.files = DatabaseFiles::Left((Ok(()), files));
                        Err(fault)
                    }
                },
                Err(fault) => Err(fault),
            },
            Err(fault) => Err(fault),
        }
    }

    fn open(&mut self, alloc: Global, path: &str) -> Result<FileGuard<S>, StationFault> {
        match looked_for(self.opener, path) {
            Ok(()) => match self.connect(path) {
                Ok(conn) => match open_over(alloc, conn) {
                    Ok(opened) => Ok(opened),
                    Err((fault, found)) => {
                        self.files = DatabaseFiles::Left((Ok(()), found));
                        Err(fault)
                    }
                },
                Err(fault) => Err(fault),
            },
            Err(fault) => Err(fault),
        }
    }

    fn close(&mut self, guard: FileGuard<S>) -> Result<(), StationFault> {
        let conn = guard.into_connection();
        let (ended, files) = end_path(conn);
        let done = of_ending(ended);
        self.files = DatabaseFiles::Left((ended, files));
        done
    }
}
