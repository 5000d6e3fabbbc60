//! The system's files and its clock, and doing what the words ask for with them or with others.

ghost use Rattle.std.specs.Prelude.{◌≡◌, ◌≤◌, IfSome, map, string_bytes};
ghost use Rattle.values.specs.declared.limits.TheConstants.{LATEST_MOMENT};
ghost use Rattle.station_command.specs.Answers.{AreBad};
ghost use Rattle.station_jobs.specs.Names.{Takes};
ghost use Rattle.sqlite_wal.specs.Files.{image_at};
ghost use Rattle.sshstation.specs.Doing.{LeaveInput};
ghost use Rattle.sshstation.specs.Living.{RunsWords};

use crate::command::{BAD_WORDS, do_words};
use crate::database_files::FilesAt;
use crate::guard_database::GuardDatabase;
use crate::list_database::ListDatabase;
use guard::Register;
use guard_sql::GuardStore;
use list_guard::ListRegister;
use list_jobs::ListFile;
use list_sql::ListStore;
use sqlite::{FileFrom, FileStore, Start};
use station_jobs::{GuardFile, StationFault, Surroundings, file_fault};
use std::alloc::Global;
use std::fs::File;
use std::io::{BufRead, Read, Write};
use std::time::{Clock, SystemTime, UNIX_EPOCH};
use system::{Opener, System};
use values::LATEST_MOMENT;
use wire::Sink;

/// The system. Nothing is stated about its files and its clock.
#[derive(Drop)]
pub(crate) struct Host<'a> {
    /// What the program reads.
    pub system: &'a System,
}

/// The time in seconds since 1970-01-01 00:00:00 UTC, or `None` if the clock fails or is past the latest time.
fn moment_of<C: Clock>(clock: &C) -> Option<u64>
    ensures { IfSome result (λ moment. moment ≤ LATEST_MOMENT) }
{
    let Ok(now) = SystemTime::now(clock) else {
        return None;
    };
    let Ok(since) = now.duration_since(UNIX_EPOCH) else {
        return None;
    };
    let moment = since.as_secs();
    if LATEST_MOMENT < moment {
        return None;
    }
    Some(moment)
}

impl Surroundings for Host<'_> {
    type File = File;

    fn open(&self, path: &str) -> Result<File, StationFault> {
        match self.system.open(path) {
            Ok(file) => Ok(file),
            Err(error) => Err(file_fault(&error)),
        }
    }

    fn moment(&self) -> Option<u64> {
        moment_of(self.system)
    }
}

/// Does what the words ask for, with these files, this clock and this input. Returns the exit status, and what became
/// of the files of a guard and of those of a guard of lists. `start` represents what the files of a guard hold, and
/// `lists` what those of a guard of lists hold: a job opens one or the other.
pub(crate) fn run<
    F: Read + Drop,
    P: Surroundings<File = F>,
    S: Start,
    T: Start,
    I: BufRead,
    O: Write,
    E: Sink,
>(
    alloc: Global,
    opener: &Opener,
    around: &P,
    start: S,
    lists: T,
    words: &[String],
    input: &mut I,
    out: &mut O,
    err: &mut E,
) -> (u8, FilesAt<S>, FilesAt<T>)
    requires { E.failed err.old ≡ 0 }
    ensures status { result.0 ≤ BAD_WORDS }
    ensures bad { result.0 ≡ BAD_WORDS → AreBad (map string_bytes words.now) }
    ensures silent { result.0 ≡ 0 → err.new ≡ err.old }
    ensures unread { LeaveInput (map string_bytes words.now) → I.remaining input.new ≡ I.remaining input.old }

    // This is the effect of the words over files that weren't opened before. For the files of a guard, and for those of
    // a guard of lists, one of these is told: they weren't opened, and the value that was given is returned; or an open
    // of them has failed, and left them as its fault says; or the job was a run in their lifetime. If no call of `err`
    // has failed, it has taken the line of the job's fault, or clap's text about invalid arguments, and nothing else.
    ensures runs { RunsWords P.Surroundings around.now F.remaining
        ⟦<GuardStore<FileStore<FileFrom<S>>> as Register>⟧ ⟦<GuardDatabase<'static, S> as GuardFile>⟧
        ⟦<ListStore<FileStore<FileFrom<T>>> as ListRegister>⟧ ⟦<ListDatabase<'static, T> as ListFile>⟧
        (λ db. db.files) (λ db. db.files) start lists (image_at S.Start) (image_at T.Start) result.1 result.2
        (map string_bytes words.now) (I.remaining input.old) (O.contents out.old) (O.contents out.new)
        (Takes (E.failed err.old) (E.failed err.new) (E.taken err.old) (E.taken err.new)) result.0 }
{
    let mut db = GuardDatabase::new(opener, start);
    let mut lists = ListDatabase::new(opener, lists);
    let status = do_words(alloc, around, &mut db, &mut lists, words, input, out, err);
    let guard_files = db.into_files();
    let list_files = lists.into_files();
    (status, guard_files, list_files)
}
