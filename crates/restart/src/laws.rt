//! Theorems about an office from run to run: functions without a body, whose contracts a caller cites.

ghost use Rattle.sqlite_wal.specs.Files.{outcomes};
ghost use Rattle.sqlite.specs.Held.{state};
ghost use Rattle.restart.specs.Adding.{ArrivalsStay};
ghost use Rattle.restart.specs.Lives.{LivesAreDue, RunsAreDue, RunsGoOn};
ghost use Rattle.restart.specs.Runs.{ClosedRuns, CutRuns, FormerIsTold, FoundIsTold, HeldIsTold, LeftIsTold};
ghost use Rattle.restart.specs.Runs.{NoneIsBlank, RunKeepsOffice};

use sqlite::{Alter, Connection, FileStore, Files};
use sqlite_disk::Disk;

/// What a newly opened connection represents, if it has the database that its files held.
pub fn what_is_found_is_told<S: Alter>(conn: &Connection<S>)
    // Each history whose rows its trees hold.
    ensures rows { FoundIsTold (state S.Store conn.now) }

    // So each history whose office the files held.
    ensures held { HeldIsTold (state S.Store conn.now) }

    // In schema 1 each history whose office they held in schema 1, so that the office can be migrated.
    ensures former { FormerIsTold (state S.Store conn.now) }

    // If they held no table, an office can be created.
    ensures blank { NoneIsBlank (state S.Store conn.now) }
{
    let _ = conn;
}

/// If the files that an open finds are among those that the last run may have left, with or without a crash since, the
/// connection represents the history that all of these hold.
pub fn what_was_left_is_told<D: Disk + Drop, S: Alter>(last: &Files<D>, conn: &Connection<S>)
    ensures { LeftIsTold (outcomes D.Disk last.now.log last.now.db) (state S.Store conn.now) }
{
    let _ = last;
    let _ = conn;
}

/// A run that closed its files cleanly leaves them with the office that it found, and with the requests of the run.
pub fn a_run_keeps_the_office<D: Disk + Drop>(files: &Files<D>)
    ensures { RunKeepsOffice D.Disk files.now }
{
    let _ = files;
}

/// Exchanges add received requests to a history, and remove none.
pub fn arrivals_stay()
    ensures { ArrivalsStay }
{}

/// A run that found files, did what it was asked and closed them cleanly is a run of the program, whatever a crash
/// makes of the files that it left.
pub fn a_closed_run_is_a_run<D: Disk + Drop>(files: &Files<D>)
    ensures { ClosedRuns D.Disk files.now }
{
    let _ = files;
}

/// So is one whose connection was abandoned, whatever a crash makes of the files of its store.
pub fn a_cut_run_is_a_run<D: Disk + Drop>(store: &FileStore<D>)
    ensures { CutRuns D.Disk store.now }
{
    let _ = store;
}

/// Runs of the program are as specified if the first found no file or an empty one, and each later one the files that
/// the one before had left. So are runs of which the first found files that hold an office, for example restored ones,
/// and so is a run after a life.
pub fn lives_are_due()
    ensures due { LivesAreDue }
    ensures held { RunsAreDue }
    ensures goes_on { RunsGoOn }
{}
