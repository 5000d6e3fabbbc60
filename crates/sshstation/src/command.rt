//! Doing the jobs.

ghost use Rattle.std.specs.Prelude.{◌≡◌, ◌≤◌, IfErr, false, map, string_bytes};
ghost use Rattle.values.specs.Serials.{are_serials};
ghost use Rattle.station_command.specs.Answers.{AreBad};
ghost use Rattle.station_jobs.specs.Names.{Takes};
ghost use Rattle.station_jobs.specs.Whole.{KeepsFiles};
ghost use Rattle.sshstation.specs.Doing.{Declines, DoesJob, DoesList, DoesWords, InitsAt, LeaveInput, PrintsPolicyAt};
ghost use Rattle.sshstation.specs.Doing.{reads_input};
ghost use Rattle.sshstation.specs.Ending.{IsOfBadWords, no_words_line, status_of_no_words};

use crate::ending::status_of;
use command_line::WordsFault;
use guard::Register;
use list_guard::ListRegister;
use list_jobs::{ListFile, ListJob, Listing};
use station_command::{Judging as JudgingWords, Listing as ListingWords, StationJob, read_words};
use station_jobs::{
    GuardFile, GuardJob, Judging, StationFault, Surroundings, print, print_policy, run_in,
    scope_from, tell_text,
};
use std::alloc::Global;
use std::io::{BufRead, ErrorKind, Read, Write};
use wire::Sink;

/// The exit status for invalid words.
pub const BAD_WORDS: u8 = 2;

/// Makes a guard with the key in a file, in a new database.
fn init<
    F: Read + Drop,
    P: Surroundings<File = F>,
    G: Register,
    D: GuardFile<Guard = G>,
    I: BufRead,
    O: Write,
>(
    alloc: Global,
    around: &P,
    db: &mut D,
    path: &str,
    ca: &str,
    serials: (u64, u64),
    input: &mut I,
    out: &mut O,
) -> Result<(), StationFault>
    requires { KeepsFiles G.Register D.GuardFile }
    ensures inits { InitsAt P.Surroundings around.now F.remaining G.Register D.GuardFile db.old db.new path.now ca.now
        serials.0 serials.1 (O.contents out.old) (O.contents out.new) result }
    ensures unread { I.remaining input.new ≡ I.remaining input.old }
{
    match around.open(ca) {
        Ok(file) => match scope_from(alloc, file, serials.0, serials.1) {
            Ok(scope) => run_in(alloc, around, db, path, &GuardJob::Init(scope), input, out),
            Err(fault) => Err(fault),
        },
        Err(fault) => Err(fault),
    }
}

/// Prints the names of the departments in the policy at a path.
fn policy<F: Read + Drop, P: Surroundings<File = F>, O: Write>(
    alloc: Global,
    around: &P,
    path: &str,
    out: &mut O,
) -> Result<(), StationFault>
    ensures { PrintsPolicyAt P.Surroundings around.now F.remaining path.now (O.contents out.old) (O.contents out.new)
        result }
{
    match around.open(path) {
        Ok(file) => print_policy(alloc, file, out),
        Err(fault) => Err(fault),
    }
}

/// What to judge, according to the words.
fn judging_of(words: &JudgingWords) -> Judging<'_>
    ensures policy { result.policy.now ≡ string_bytes words.now.policy }
    ensures ahead { result.ahead ≡ words.now.ahead }
    ensures bodies { result.bodies.now ≡ words.now.bodies.items }
{
    Judging {
        policy: words.policy.as_str(),
        ahead: words.ahead,
        bodies: words.bodies.as_slice(),
    }
}

/// The list to judge, according to the words.
fn listing_of(words: &ListingWords) -> Listing<'_>
    ensures cas { result.cas.now ≡ words.now.cas.items }
    ensures begins { result.begins ≡ words.now.begins }
    ensures list { result.list.now ≡ string_bytes words.now.list }
{
    Listing {
        cas: words.cas.as_slice(),
        begins: words.begins,
        list: words.list.as_str(),
    }
}

/// Does a whole job, and writes its output to `out`.
///
/// # Errors
///
/// Why it wasn't done.
pub(crate) fn do_job<
    F: Read + Drop,
    P: Surroundings<File = F>,
    G: Register,
    D: GuardFile<Guard = G>,
    K: ListRegister,
    L: ListFile<Guard = K>,
    I: BufRead,
    O: Write,
>(
    alloc: Global,
    around: &P,
    db: &mut D,
    lists: &mut L,
    job: &StationJob,
    input: &mut I,
    out: &mut O,
) -> Result<(), StationFault>
    requires { KeepsFiles G.Register D.GuardFile }
    ensures guard { DoesJob P.Surroundings around.now F.remaining G.Register D.GuardFile db.old db.new job.now
        (I.remaining input.old) (O.contents out.old) (O.contents out.new) result }
    ensures lists { DoesList P.Surroundings around.now F.remaining G.Register D.GuardFile db.old db.new K.ListRegister
        L.ListFile lists.old lists.new job.now (O.contents out.old) (O.contents out.new) result }
    ensures unread { reads_input job.now ≡ false → I.remaining input.new ≡ I.remaining input.old }
{
    match job {
        StationJob::Init {
            db: path,
            ca,
            first,
            last,
        } => {
            let (path, ca) = (path.as_str(), ca.as_str());
            init(alloc, around, db, path, ca, (*first, *last), input, out)
        }
        StationJob::Judge(words) => {
            let asked = GuardJob::Judge(judging_of(words));
            run_in(alloc, around, db, words.db.as_str(), &asked, input, out)
        }
        StationJob::Bodies { db: path } => {
            run_in(
                alloc,
                around,
                db,
                path.as_str(),
                &GuardJob::Bodies,
                input,
                out,
            )
        }
        StationJob::Body { db: path, serial } => {
            let asked = GuardJob::Body(*serial);
            run_in(alloc, around, db, path.as_str(), &asked, input, out)
        }
        StationJob::Policy { file } => policy(alloc, around, file.as_str(), out),
        StationJob::Retire { db: path, last } => {
            let asked = GuardJob::Retire(*last);
            run_in(alloc, around, db, path.as_str(), &asked, input, out)
        }
        StationJob::Lists { db: path } => {
            list_jobs::run_in(alloc, around, lists, path.as_str(), &ListJob::Init, out)
        }
        StationJob::List(words) => {
            let asked = ListJob::List(listing_of(words));
            list_jobs::run_in(alloc, around, lists, words.db.as_str(), &asked, out)
        }
    }
}

// The answer to words that ask for no job: clap's text, or a fault.
fn answer_words<O: Write, E: Sink>(fault: WordsFault, out: &mut O, err: &mut E) -> u8
    requires { E.failed err.old ≡ 0 }
    ensures status { result ≤ BAD_WORDS }
    ensures bad { result ≡ BAD_WORDS → IsOfBadWords fault }
    ensures silent { result ≡ 0 → err.new ≡ err.old }
    ensures declines { Declines fault (O.contents out.old) (O.contents out.new)
        (Takes (E.failed err.old) (E.failed err.new) (E.taken err.old) (E.taken err.new)) result }
{
    match fault {
        WordsFault::Help(text) => {
            let shown = print(out, text.as_bytes());
            status_of(err, shown)
        }
        WordsFault::BadWords(text) => {
            tell_text(err, text.as_bytes());
            BAD_WORDS
        }
        WordsFault::NoMemory => status_of(err, Err(StationFault::NoMemory)),
    }
}

/// Does the job that the words ask for, or shows clap's text. Output is written to `out`, and the line of a fault to
/// `err`. Returns the exit status.
pub(crate) fn do_words<
    F: Read + Drop,
    P: Surroundings<File = F>,
    G: Register,
    D: GuardFile<Guard = G>,
    K: ListRegister,
    L: ListFile<Guard = K>,
    I: BufRead,
    O: Write,
    E: Sink,
>(
    alloc: Global,
    around: &P,
    db: &mut D,
    lists: &mut L,
    words: &[String],
    input: &mut I,
    out: &mut O,
    err: &mut E,
) -> u8
    // The opened guard is the one that the files held, and the closed one is what they hold then.
    requires keeps { KeepsFiles G.Register D.GuardFile }
    requires tells { E.failed err.old ≡ 0 }
    ensures status { result ≤ BAD_WORDS }
    ensures bad { result ≡ BAD_WORDS → AreBad (map string_bytes words.now) }

    // If a job was done, or a text shown, nothing is written to `err`.
    ensures silent { result ≡ 0 → err.new ≡ err.old }

    // Only a job that judges the bodies of the input reads it.
    ensures unread { LeaveInput (map string_bytes words.now) → I.remaining input.new ≡ I.remaining input.old }
    ensures does { DoesWords P.Surroundings around.now F.remaining G.Register D.GuardFile db.old db.new
        K.ListRegister L.ListFile lists.old lists.new (map string_bytes words.now) (I.remaining input.old)
        (O.contents out.old) (O.contents out.new)
        (Takes (E.failed err.old) (E.failed err.new) (E.taken err.old) (E.taken err.new)) result }
{
    match read_words(alloc, words) {
        Ok(job) => {
            let done = do_job(alloc, around, db, lists, &job, input, out);
            drop(job);
            status_of(err, done)
        }
        Err(fault) => answer_words(fault, out, err),
    }
}

/// The exit status if the words are unavailable: memory was refused, or a word isn't UTF-8.
pub(crate) fn do_no_words<E: Sink>(fault: ErrorKind, err: &mut E) -> u8
    requires { E.failed err.old ≡ 0 }
    ensures status { result ≡ status_of_no_words fault }
    ensures told { Takes (E.failed err.old) (E.failed err.new) (E.taken err.old) (E.taken err.new)
        (no_words_line fault) }
{
    match fault {
        ErrorKind::OutOfMemory => status_of(err, Err(StationFault::NoMemory)),
        _ => {
            tell_text(err, b"error: a word is not UTF-8\n");
            BAD_WORDS
        }
    }
}
