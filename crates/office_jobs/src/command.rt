//! Doing jobs, in a world.

ghost use Rattle.std.specs.Prelude.{◌≡◌, ◌≤◌, ◌<◌, ℕ, List, [], IfOk, IsOk, map, string_bytes};
ghost use Rattle.std.specs.Io.KnownBytes.{Keeps};
ghost use Rattle.command_line.specs.Answers.{AreBad};
ghost use Rattle.office_jobs.specs.Commands.{ChecksIn, DoesJob, IsFlushed, IsServing, Runs, RunsJob, RunsWords};
ghost use Rattle.office_jobs.specs.Commands.{TestsItself};
ghost use Rattle.office_jobs.specs.Ending.{Heeds, failures_after};
ghost use Rattle.office_jobs.specs.Finding.{WithFile};
ghost use Rattle.office_jobs.specs.Making.{due_opening};
ghost use Rattle.office_jobs.specs.Names.{Takes};
ghost use Rattle.office_jobs.specs.Trial.{TriesFile};
ghost use Rattle.office_jobs.specs.Whole.{AppliesIn, FoundsIn, KeepsDatabases, ServesIn};
ghost use Rattle.office_jobs.specs.Words.{AnswersWords, IsOfBadWords, Shows, no_words_line, status_of_no_words};

use crate::applying::apply_to_trial;
use crate::checking::check_in;
use crate::ending::{flushed, status_of, test_ended};
use crate::file_opening::open_file;
use crate::founding::Founding;
use crate::job::OfficeJob;
use crate::job_fault::JobFault;
use crate::output::{Output, write_out};
use crate::second_output::tell_text;
use crate::trial::trial_office;
use crate::whole::{apply_in, do_in, found_in, serve_in};
use crate::world::World;
use command_line::{Job, WordsFault, read_words};
use sqlite::{Alter, Connection};
use std::io::ErrorKind;
use wire::Sink;

/// The status for invalid arguments.
const BAD_WORDS: u8 = 2;

// Makes an office with the key of the file at a path.
fn found_at<S: Alter, W: World<Conn = Connection<S>> + AllocGlobal, O: Sink>(
    world: &mut W,
    db: &str,
    ca: &str,
    founding: &Founding<'_>,
    out: O,
) -> (Result<(), JobFault>, O)
    requires keeps { KeepsDatabases S.Store W.World }
    requires prints { O.failed out ≡ 0 }
    ensures founds { WithFile W.World W.File.remaining world.old world.new ca.now
        (λ text opened. FoundsIn S.Store W.World W.Incoming.book opened world.new db.now (due_opening founding.now) text
        (O.taken out) (O.taken result.1)) (O.taken result.1 ≡ O.taken out) result.0 }
    ensures failed { O.failed result.1 ≡ failures_after (O.failed out) result.0 }
{
    match open_file(world, ca) {
        Ok(ca) => found_in(world, db, ca, founding, out),
        Err(fault) => (Err(fault), out),
    }
}

// Applies the exchanges of the file at a path to the office in a database.
fn apply_at<S: Alter, W: World<Conn = Connection<S>> + AllocGlobal, O: Sink>(
    world: &mut W,
    db: &str,
    file: &str,
    out: O,
) -> (Result<(), JobFault>, O)
    requires keeps { KeepsDatabases S.Store W.World }
    requires prints { O.failed out ≡ 0 }
    ensures applies { WithFile W.World W.File.remaining world.old world.new file.now
        (λ text opened. AppliesIn S.Store W.World W.Incoming.book opened world.new db.now text (O.taken out)
        (O.taken result.1)) (O.taken result.1 ≡ O.taken out) result.0 }
    ensures failed { O.failed result.1 ≡ failures_after (O.failed out) result.0 }
{
    match open_file(world, file) {
        Ok(file) => apply_in(world, db, file, out),
        Err(fault) => (Err(fault), out),
    }
}

// Applies the exchanges of the file at a path to the in-memory office.
fn try_at<W: World + AllocGlobal, O: Sink>(
    world: &mut W,
    file: &str,
    out: &mut O,
) -> Result<(), JobFault>
    requires { O.failed out.old < u64.MAX }
    ensures tries { WithFile W.World W.File.remaining world.old world.new file.now
        (λ text opened r. (world.new ≡ opened) × TriesFile text (O.taken out.old) (O.taken out.new) r)
        (O.taken out.new ≡ O.taken out.old) result }
    ensures failed { O.failed out.new ≡ failures_after (O.failed out.old) result }
{
    match open_file(world, file) {
        Ok(file) => apply_to_trial(world.alloc(), file, out),
        Err(fault) => Err(fault),
    }
}

// Checks the list of a file for a certificate, under the CA of the file at a path.
fn check_by<W: World + AllocGlobal, O: Sink>(
    world: &mut W,
    ca: &str,
    list: &str,
    serial: u64,
    key_id: &str,
    out: &mut O,
) -> Result<(), JobFault>
    requires { O.failed out.old < u64.MAX }
    ensures checks { WithFile W.World W.File.remaining world.old world.new ca.now
        (λ text opened. ChecksIn W.World W.File.remaining opened world.new list.now serial key_id.now text
        (O.taken out.old) (O.taken out.new)) (O.taken out.new ≡ O.taken out.old) result }
    ensures failed { O.failed out.new ≡ failures_after (O.failed out.old) result }
{
    match open_file(world, ca) {
        Ok(ca) => check_in(world, ca, list, serial, key_id, out),
        Err(fault) => Err(fault),
    }
}

/// Has the in-memory office serve itself one request, and prints that the answer was the specified one.
fn test_itself<W: World + AllocGlobal, O: Sink>(world: &mut W, out: &mut O) -> Result<(), JobFault>
    requires { O.failed out.old < u64.MAX }
    ensures tests { TestsItself W.World world.old world.new (O.taken out.old) (O.taken out.new) result }
    ensures failed { O.failed out.new ≡ failures_after (O.failed out.old) result }
{
    match trial_office(world.alloc()) {
        Ok(office) => {
            let mut office = office;
            let tested = world.test_office(&mut office);
            let _ = office.into_connection();
            test_ended(out, tested)
        }
        Err(fault) => Err(JobFault::from(fault)),
    }
}

// Serves an office with the nonces of the file at a path.
fn serve_at<S: Alter, W: World<Conn = Connection<S>> + AllocGlobal, O: Output, E: Sink>(
    world: &mut W,
    db: &str,
    nonces: &str,
    port: u16,
    connections: u64,
    out: &mut O,
    err: &mut E,
) -> Result<u8, JobFault>
    requires keeps { KeepsDatabases S.Store W.World }
    requires tells { E.failed err.old ≡ 0 }
    requires prints { O.failed out.old < u64.MAX }
    ensures serves { (said : List ℕ)
        × Takes (E.failed err.old) (E.failed err.new) (E.taken err.old) (E.taken err.new) said
        × WithFile W.World W.File.remaining world.old world.new nonces.now
        (λ source opened. ServesIn S.Store W.World W.Incoming.book opened world.new db.now port connections source
        (O.taken out.old) (O.taken out.new) said) ((O.taken out.new ≡ O.taken out.old) × (said ≡ []))
        result }
    ensures status { IfOk result (λ status. status ≤ 1) }
    ensures heeds { Heeds (O.failed out.old) (O.failed out.new) (O.is_flushed out.new) result }
{
    match open_file(world, nonces) {
        Ok(nonces) => serve_in(world, db, nonces, port, connections, out, err),
        Err(fault) => Err(fault),
    }
}

// The result of a job, once its output is flushed. The status of a job that was done is 0.
fn ended<O: Output>(done: Result<(), JobFault>, out: O) -> (Result<u8, JobFault>, O)
    requires { O.failed out < u64.MAX }
    ensures kept { Keeps (O.taken out) (O.taken result.1) }
    ensures flushed { IsFlushed done result.0 }
    ensures heeds { IsOk done → Heeds (O.failed out) (O.failed result.1) (O.is_flushed result.1) result.0 }
    ensures least { O.failed out ≤ O.failed result.1 }
{
    let mut out = out;
    match flushed(&mut out, done) {
        Ok(()) => (Ok(0), out),
        Err(fault) => (Err(fault), out),
    }
}

// Does a job in a world, except serving.
fn done_by<S: Alter, W: World<Conn = Connection<S>> + AllocGlobal, O: Sink>(
    world: &mut W,
    job: &Job,
    out: O,
) -> (Result<(), JobFault>, O)
    requires keeps { KeepsDatabases S.Store W.World }
    requires unserved { IsServing job.now → ⊥ }
    requires prints { O.failed out ≡ 0 }
    ensures does { DoesJob S.Store W.World W.File.remaining W.Incoming.book world.old world.new job.now (O.taken out)
        (O.taken result.1) result.0 }
    ensures failed { O.failed result.1 ≡ failures_after (O.failed out) result.0 }
{
    let mut out = out;
    match job {
        Job::Init {
            db,
            ca,
            root,
            station,
            first,
            last,
        } => {
            let founding = Founding {
                root: root.as_str(),
                station: station.as_str(),
                first: *first,
                last: *last,
            };
            found_at(world, db.as_str(), ca.as_str(), &founding, out)
        }
        Job::Apply { db: Some(db), file } => apply_at(world, db.as_str(), file.as_str(), out),
        Job::Apply { db: None, file } => {
            let done = try_at(world, file.as_str(), &mut out);
            (done, out)
        }
        Job::Check {
            ca,
            list,
            serial,
            key_id,
        } => {
            let (ca, list, key_id) = (ca.as_str(), list.as_str(), key_id.as_str());
            let done = check_by(world, ca, list, *serial, key_id, &mut out);
            (done, out)
        }
        Job::Selftest => {
            let done = test_itself(world, &mut out);
            (done, out)
        }
        Job::Krl { db } => do_in(world, db.as_str(), &OfficeJob::Krl, out),
        Job::Signers { db } => do_in(world, db.as_str(), &OfficeJob::Signers, out),
        Job::Table { db } => do_in(world, db.as_str(), &OfficeJob::Table, out),
        Job::Migrate { db } => do_in(world, db.as_str(), &OfficeJob::Migrate, out),
        Job::Serve { .. } => (Ok(()), out),
    }
}

// Does a job in a world, or serves.
fn run_job<S: Alter, W: World<Conn = Connection<S>> + AllocGlobal, O: Output, E: Sink>(
    world: &mut W,
    job: &Job,
    out: O,
    err: &mut E,
) -> (Result<u8, JobFault>, O)
    requires keeps { KeepsDatabases S.Store W.World }
    requires tells { E.failed err.old ≡ 0 }
    requires prints { O.failed out ≡ 0 }
    ensures runs { (said : List ℕ)
        × Takes (E.failed err.old) (E.failed err.new) (E.taken err.old) (E.taken err.new) said
        × Runs S.Store W.World W.File.remaining W.Incoming.book world.old world.new job.now (O.taken out)
        (O.taken result.1) said result.0 }
    ensures status { IfOk result.0 (λ status. status ≤ 1) }
    ensures heeds { Heeds (O.failed out) (O.failed result.1) (O.is_flushed result.1) result.0 }
    ensures silent { (IsServing job.now → ⊥) → err.new ≡ err.old }
{
    match job {
        Job::Serve {
            db,
            port,
            connections,
            nonces,
        } => {
            let mut out = out;
            let (db, nonces) = (db.as_str(), nonces.as_str());
            let served = serve_at(world, db, nonces, *port, *connections, &mut out, err);
            (served, out)
        }
        _ => {
            let (done, out) = done_by(world, job, out);
            ended(done, out)
        }
    }
}

/// Does a job in a world: opens its files, then its database, does the job, closes the database, and prints the result
/// to `out`, or the line of a fault to `err`. Returns the status and `out`. What `err` doesn't take is lost.
pub fn do_job<S: Alter, W: World<Conn = Connection<S>> + AllocGlobal, O: Output, E: Sink>(
    world: &mut W,
    job: &Job,
    out: O,
    err: &mut E,
) -> (u8, O)
    requires keeps { KeepsDatabases S.Store W.World }
    requires tells { E.failed err.old ≡ 0 }
    requires prints { O.failed out ≡ 0 }
    ensures runs { RunsJob S.Store W.World W.File.remaining W.Incoming.book world.old world.new job.now (O.taken out)
        (O.taken result.1) (Takes (E.failed err.old) (E.failed err.new) (E.taken err.old) (E.taken err.new))
        (Heeds (O.failed out) (O.failed result.1) (O.is_flushed result.1)) result.0 }
    ensures status { result.0 ≤ 1 }

    // If a job was done, only a server prints anything to `err`.
    ensures silent { (IsServing job.now → ⊥) → result.0 ≡ 0 → err.new ≡ err.old }
{
    match run_job(world, job, out, err) {
        (Ok(status), out) => (status, out),
        (Err(fault), out) => (status_of(err, Err(fault)), out),
    }
}

// Prints a text that was asked for.
fn show<O: Output, E: Sink>(text: &String, out: &mut O, err: &mut E) -> u8
    requires tells { E.failed err.old ≡ 0 }
    requires prints { O.failed out.old ≡ 0 }
    ensures shown { Shows (string_bytes text.now) (O.taken out.old) (O.taken out.new)
        (Takes (E.failed err.old) (E.failed err.new) (E.taken err.old) (E.taken err.new))
        (Heeds (O.failed out.old) (O.failed out.new) (O.is_flushed out.new)) result }
    ensures status { result ≤ 1 }
{
    let shown = write_out(out, text.as_bytes());
    status_of(err, flushed(out, shown))
}

// The answer to arguments that ask for no job: clap's text, or a fault.
fn answer_words<O: Output, E: Sink>(fault: WordsFault, out: &mut O, err: &mut E) -> u8
    requires tells { E.failed err.old ≡ 0 }
    requires prints { O.failed out.old ≡ 0 }
    ensures answers { AnswersWords fault (O.taken out.old) (O.taken out.new)
        (Takes (E.failed err.old) (E.failed err.new) (E.taken err.old) (E.taken err.new))
        (Heeds (O.failed out.old) (O.failed out.new) (O.is_flushed out.new)) result }
    ensures status { result ≤ 2 }
    ensures bad { result ≡ 2 → IsOfBadWords fault }
{
    match fault {
        WordsFault::Help(text) => show(&text, out, err),
        WordsFault::BadWords(text) => {
            tell_text(err, text.as_bytes());
            BAD_WORDS
        }
        WordsFault::NoMemory => status_of(err, Err(JobFault::NoMemory)),
    }
}

/// Does the job that the arguments ask for, or prints clap's text. Returns the status and `out`.
pub fn do_words<S: Alter, W: World<Conn = Connection<S>> + AllocGlobal, O: Output, E: Sink>(
    world: &mut W,
    words: &[String],
    out: O,
    err: &mut E,
) -> (u8, O)
    requires keeps { KeepsDatabases S.Store W.World }
    requires tells { E.failed err.old ≡ 0 }
    requires prints { O.failed out ≡ 0 }
    ensures runs { RunsWords S.Store W.World W.File.remaining W.Incoming.book world.old world.new
        (map string_bytes words.now) (O.taken out) (O.taken result.1)
        (Takes (E.failed err.old) (E.failed err.new) (E.taken err.old) (E.taken err.new))
        (Heeds (O.failed out) (O.failed result.1) (O.is_flushed result.1)) result.0 }
    ensures status { result.0 ≤ 2 }
    ensures bad { result.0 ≡ 2 → AreBad (map string_bytes words.now) }
{
    match read_words(world.alloc(), words) {
        Ok(job) => do_job(world, &job, out, err),
        Err(fault) => {
            let mut out = out;
            (answer_words(fault, &mut out, err), out)
        }
    }
}

/// The status if the arguments can't be read: memory was refused, or one isn't UTF-8.
pub fn do_no_words<E: Sink>(fault: ErrorKind, err: &mut E) -> u8
    requires { E.failed err.old ≡ 0 }
    ensures status { result ≡ status_of_no_words fault }
    ensures told { Takes (E.failed err.old) (E.failed err.new) (E.taken err.old) (E.taken err.new)
        (no_words_line fault) }
{
    match fault {
        ErrorKind::OutOfMemory => status_of(err, Err(JobFault::NoMemory)),
        _ => {
            tell_text(err, b"error: a word is not UTF-8\n");
            BAD_WORDS
        }
    }
}
