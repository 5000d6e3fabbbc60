//! Whole jobs over the guard in a file.

ghost use Rattle.std.specs.Prelude.{◌≡◌, ℕ, List, IfOk, IsTrue, false};
ghost use Rattle.values.specs.Serials.{are_serials};
ghost use Rattle.station_jobs.specs.Jobs.{InitsIn, IsLawful, LowersIn, Prints, RunsJob, reads_input};
ghost use Rattle.station_jobs.specs.Whole.{KeepsFiles};

use crate::guard_file::GuardFile;
use crate::output::print;
use crate::station_fault::StationFault;
use crate::surroundings::Surroundings;
use crate::telling::{ready_text, retired_text};
use crate::whole::{Judging, bodies_in, body_in, judge_in, make_in, retire_in};
use guard::{Register, Scope};
use std::alloc::Global;
use std::io::{BufRead, Read, Write};
use text::NoMemory;

/// A job for the guard in a file.
#[derive(Clone, Copy)]
pub enum GuardJob<'a> {
    /// Makes a guard with this scope.
    Init(Scope),
    /// Judges unsigned certificates (bodies), and prints the line of each answer.
    Judge(Judging<'a>),
    /// Prints a line for each approved body.
    Bodies,
    /// Prints the body that is approved under a serial.
    Body(u64),
    /// Lowers the last serial.
    Retire(u64),
}

/// Prints the text about a job that was done.
fn tell<W: Write>(text: Result<Vec<u8>, NoMemory>, out: &mut W) -> Result<(), StationFault>
    ensures { (told : List ℕ) → IfOk text (λ v. v.items ≡ told)
        → Prints told (W.contents out.old) (W.contents out.new) result }
{
    match text {
        Ok(text) => print(out, text.as_slice()),
        Err(_) => Err(StationFault::NoMemory),
    }
}

/// Makes a guard in a file, and prints the text about it.
fn init_in<G: Register, D: GuardFile<Guard = G>, W: Write>(
    alloc: Global,
    db: &mut D,
    path: &str,
    scope: &Scope,
    out: &mut W,
) -> Result<(), StationFault>
    requires lawful { IsTrue (are_serials scope.now.first scope.now.last) }
    requires keeps { KeepsFiles G.Register D.GuardFile }
    ensures { InitsIn G.Register D.GuardFile db.old db.new path.now scope.now (W.contents out.old) (W.contents out.new)
        result }
{
    match make_in(alloc, db, path, scope) {
        Ok(()) => tell(ready_text(alloc, scope), out),
        Err(fault) => Err(fault),
    }
}

/// Lowers the last serial of the guard in a file, and prints the text about it.
fn lower_in<G: Register, D: GuardFile<Guard = G>, W: Write>(
    alloc: Global,
    db: &mut D,
    path: &str,
    last: u64,
    out: &mut W,
) -> Result<(), StationFault>
    requires { KeepsFiles G.Register D.GuardFile }
    ensures { LowersIn G.Register D.GuardFile db.old db.new path.now last (W.contents out.old) (W.contents out.new)
        result }
{
    match retire_in(alloc, db, path, last) {
        Ok(first) => tell(retired_text(alloc, first, last), out),
        Err(fault) => Err(fault),
    }
}

/// Does a job with the guard at a path, from opening it to closing it.
///
/// # Errors
///
/// Why it wasn't done; or, if it was, why the file couldn't be closed properly or the text about it wasn't printed.
pub fn run_in<
    F: Read + Drop,
    P: Surroundings<File = F>,
    G: Register,
    D: GuardFile<Guard = G>,
    I: BufRead,
    W: Write,
>(
    alloc: Global,
    around: &P,
    db: &mut D,
    path: &str,
    job: &GuardJob<'_>,
    input: &mut I,
    out: &mut W,
) -> Result<(), StationFault>
    requires lawful { IsLawful job.now }

    // The opened guard is the one that the files held, and the closed one is what they hold then.
    requires keeps { KeepsFiles G.Register D.GuardFile }
    ensures runs { RunsJob P.Surroundings around.now F.remaining G.Register D.GuardFile db.old db.new path.now job.now
        (I.remaining input.old) (W.contents out.old) (W.contents out.new) result }

    // Only a job that judges the bodies of the input reads it.
    ensures unread { reads_input job.now ≡ false → I.remaining input.new ≡ I.remaining input.old }
{
    match job {
        GuardJob::Init(scope) => init_in(alloc, db, path, scope, out),
        GuardJob::Judge(judging) => judge_in(alloc, around, db, path, judging, input, out),
        GuardJob::Bodies => bodies_in(alloc, db, path, out),
        GuardJob::Body(serial) => body_in(alloc, db, path, *serial, out),
        GuardJob::Retire(last) => lower_in(alloc, db, path, *last, out),
    }
}
