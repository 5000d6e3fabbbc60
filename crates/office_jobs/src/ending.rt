//! The end of a job.

ghost use Rattle.std.specs.Prelude.{◌≡◌, ◌≤◌, ◌<◌, ◌+◌, ◌++◌, ◌∷◌, Err, IfErr, IsOk, Ok, OnErr, OnOk, codes, decimal};
ghost use Rattle.std.specs.Prelude.{is_ok};
ghost use Rattle.std.specs.Io.KnownBytes.{Appends, Keeps};
ghost use Rattle.wire.specs.Streams.{AppendsBeginning};
ghost use Rattle.lines.specs.Digests.{fingerprint_text};
ghost use Rattle.lines.specs.Writing.{Writes};
ghost use Rattle.office_jobs.specs.Ending.{Heeds, closed, failures_after, of_database, of_end, status};
ghost use Rattle.office_jobs.specs.Faults.{IsOfADatabase, IsOfOpening, of_selftest};
ghost use Rattle.office_jobs.specs.Jobs.{told_text};
ghost use Rattle.office_jobs.specs.Making.{ready_text};
ghost use Rattle.office_jobs.specs.Names.{Takes, fault_line};

use crate::job::OfficeJob;
use crate::job_fault::JobFault;
use crate::output::{Output, write_out};
use crate::second_output::tell_fault;
use exchanges::{print_number, print_piece};
use files::EndFault;
use lines::{KeyLine, fingerprint};
use office::{Opening, StoreFault};
use server::SelftestFault;
use sqlite::{Error, ErrorCode};
use wire::{Failed, Sink};

/// The status of a job that was done.
const DONE: u8 = 0;

/// The status of a job with a fault.
const FAULT: u8 = 1;

/// The fault for a database that was not opened or closed.
pub fn database_fault(error: Error) -> JobFault
    ensures value { result ≡ of_database error }
    ensures only { IsOfADatabase result }
    ensures opening { IsOfOpening result }
{
    match error {
        Error::SqliteFailure(ErrorCode::OutOfMemory) => JobFault::NoMemory,
        _ => JobFault::Store(StoreFault::Device),
    }
}

// The fault for a database that was given up, or whose log wasn't copied.
fn end_fault(fault: EndFault) -> JobFault
    ensures { result ≡ of_end fault }
{
    match fault {
        EndFault::GivenUp(error) => database_fault(error),
        EndFault::Uncopied(error) => database_fault(error),
    }
}

/// The result of a job and of the closing of its database. A fault of the job is kept; if the job succeeded, a fault of
/// the closing is reported.
pub fn closed<T: Copy>(
    done: Result<T, JobFault>,
    closing: Result<(), EndFault>,
) -> Result<T, JobFault>
    ensures { result ≡ closed done closing }
{
    match (done, closing) {
        (Ok(_), Err(fault)) => Err(end_fault(fault)),
        (done, _) => done,
    }
}

// Prints the serials of an office.
fn print_serials<O: Sink>(out: &mut O, opening: &Opening) -> Result<(), Failed>
    requires { O.failed out.old < u64.MAX }
    ensures { Writes O.taken O.failed O.room out.old out.new (is_ok result)
        (codes "office ready " ++ (decimal opening.now.first ++ (32 ∷ (decimal opening.now.last ++ codes "\nca ")))) }
{
    print_piece(out, b"office ready ")?;
    print_number(out, opening.first)?;
    print_piece(out, b" ")?;
    print_number(out, opening.last)?;
    print_piece(out, b"\nca ")
}

// Prints the serials of an office, and the fingerprint of its CA.
fn print_opening<O: Sink>(out: &mut O, opening: &Opening) -> Result<(), Failed>
    requires { O.failed out.old < u64.MAX }
    ensures { Writes O.taken O.failed O.room out.old out.new (is_ok result) (ready_text opening.now) }
{
    let key = KeyLine {
        key: opening.ca,
        comment: None,
    };
    print_serials(out, opening)?;
    print_piece(out, fingerprint(&key).as_slice())?;
    print_piece(out, b"\n")
}

fn tell_opening<O: Sink>(out: &mut O, opening: &Opening) -> Result<(), JobFault>
    requires { O.failed out.old < u64.MAX }
    ensures ok { OnOk result (Appends (O.taken out.old) (O.taken out.new) (ready_text opening.now)) }
    ensures part { OnErr result (AppendsBeginning (O.taken out.old) (O.taken out.new) (ready_text opening.now)) }
    ensures failed { O.failed out.new ≡ failures_after (O.failed out.old) result }
    ensures only { IfErr result (λ e. e ≡ JobFault.Write) }
{
    match print_opening(out, opening) {
        Ok(()) => Ok(()),
        Err(_) => Err(JobFault::Write),
    }
}

// Prints the message for a job that was done.
fn tell<O: Sink>(out: &mut O, job: &OfficeJob<'_>) -> Result<(), JobFault>
    requires { O.failed out.old < u64.MAX }
    ensures ok { OnOk result (Appends (O.taken out.old) (O.taken out.new) (told_text job.now)) }
    ensures part { OnErr result (AppendsBeginning (O.taken out.old) (O.taken out.new) (told_text job.now)) }
    ensures failed { O.failed out.new ≡ failures_after (O.failed out.old) result }
    ensures only { IfErr result (λ e. e ≡ JobFault.Write) }
{
    match job {
        OfficeJob::Init(opening) => tell_opening(out, opening),
        OfficeJob::Migrate => write_out(out, b"migrated 1 2\n"),
        _ => write_out(out, b""),
    }
}

/// Prints the message for a job once its database is closed, if the job was done.
pub fn finish<O: Sink>(
    out: &mut O,
    job: &OfficeJob<'_>,
    done: Result<(), JobFault>,
) -> Result<(), JobFault>
    requires { O.failed out.old < u64.MAX }
    ensures fault { IfErr done (λ e. result ≡ Err e) }
    ensures silent { IfErr done (λ _. out.new ≡ out.old) }
    ensures ok { OnOk result (Appends (O.taken out.old) (O.taken out.new) (told_text job.now)) }
    ensures part { IsOk done → OnErr result (AppendsBeginning (O.taken out.old) (O.taken out.new) (told_text job.now)) }
    ensures failed { IsOk done → O.failed out.new ≡ failures_after (O.failed out.old) result }
    ensures only { IsOk done → IfErr result (λ e. e ≡ JobFault.Write) }
{
    done?;
    tell(out, job)
}

/// Prints that an office passed its own test, if it did.
pub fn test_ended<O: Sink>(out: &mut O, tested: Result<(), SelftestFault>) -> Result<(), JobFault>
    requires { O.failed out.old < u64.MAX }
    ensures fault { IfErr tested (λ e. result ≡ Err (of_selftest e)) }
    ensures silent { IfErr tested (λ _. out.new ≡ out.old) }
    ensures ok { OnOk result (Appends (O.taken out.old) (O.taken out.new) (codes "selftest ok\n")) }
    ensures part { IsOk tested
        → OnErr result (AppendsBeginning (O.taken out.old) (O.taken out.new) (codes "selftest ok\n")) }
    ensures failed { O.failed out.new ≡ failures_after (O.failed out.old) result }
    ensures only { IsOk tested → IfErr result (λ e. e ≡ JobFault.Write) }
{
    match tested {
        Ok(()) => write_out(out, b"selftest ok\n"),
        Err(fault) => Err(JobFault::from(fault)),
    }
}

/// The result of a job, once its output is flushed. Nothing more is printed. If the job was done, the fault is `Write`
/// exactly if the flush failed.
pub fn flushed<O: Output>(out: &mut O, done: Result<(), JobFault>) -> Result<(), JobFault>
    requires { O.failed out.old < u64.MAX }
    ensures fault { IfErr done (λ e. result ≡ Err e) }
    ensures ok { IsOk done → IfErr result (λ e. e ≡ JobFault.Write) }
    ensures kept { Keeps (O.taken out.old) (O.taken out.new) }
    ensures heeds { IsOk done → Heeds (O.failed out.old) (O.failed out.new) (O.is_flushed out.new) result }
    ensures least { O.failed out.old ≤ O.failed out.new }
{
    let flushed = out.flush().is_ok();
    match done {
        Ok(()) if !flushed => Err(JobFault::Write),
        done => done,
    }
}

/// The status of a result. If it is a fault, its line is printed, otherwise nothing.
pub fn status_of<E: Sink>(err: &mut E, done: Result<(), JobFault>) -> u8
    ensures status { result ≡ status done }
    ensures silent { IsOk done → err.new ≡ err.old }
    ensures told { IfErr done (λ fault. E.failed err.old < u64.MAX
        → Takes (E.failed err.old) (E.failed err.new) (E.taken err.old) (E.taken err.new) (fault_line fault)) }
    ensures least { E.failed err.old ≤ E.failed err.new }
{
    match done {
        Ok(()) => DONE,
        Err(fault) => {
            tell_fault(err, fault);
            FAULT
        }
    }
}
