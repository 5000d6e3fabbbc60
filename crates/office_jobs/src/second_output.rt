//! Printing to the second output: each fault by its name, on a line.

ghost use Rattle.std.specs.Prelude.{◌≡◌, ◌≤◌, ◌<◌, ◌+◌, ◌++◌, OnOk, decimal, if◌then◌else◌, is_ok};
ghost use Rattle.std.specs.Io.KnownBytes.{Appends};
ghost use Rattle.office_jobs.specs.Names.{Takes, fault_line, job_fault_name, line_fault_name, list_fault_name};
ghost use Rattle.office_jobs.specs.Names.{opening_fault_name, store_fault_name};

use crate::job_fault::JobFault;
use itoa::Buffer;
use krl::KrlFault;
use lines::LineFault;
use office::{OpeningFault, StoreFault};
use wire::{Failed, Sink, write_all};

fn line_name(fault: LineFault) -> &'static str
    ensures { result.now ≡ line_fault_name fault }
{
    match fault {
        LineFault::WrongType => "WrongType",
        LineFault::BadBase64 => "BadBase64",
        LineFault::BadBlob => "BadBlob",
        LineFault::BadComment => "BadComment",
        LineFault::NoMemory => "NoMemory",
    }
}

fn opening_name(fault: OpeningFault) -> &'static str
    ensures { result.now ≡ opening_fault_name fault }
{
    match fault {
        OpeningFault::BadName => "BadName",
        OpeningFault::SameName => "SameName",
        OpeningFault::BadSerials => "BadSerials",
    }
}

fn store_name(fault: StoreFault) -> &'static str
    ensures { result.now ≡ store_fault_name fault }
{
    match fault {
        StoreFault::AlreadyAnOffice => "AlreadyAnOffice",
        StoreFault::NotAnOffice => "NotAnOffice",
        StoreFault::WrongSchema => "WrongSchema",
        StoreFault::Damaged => "Damaged",
        StoreFault::Device => "Device",
        StoreFault::NoMemory => "NoMemory",
    }
}

fn print_number<E: Sink>(err: &mut E, number: u64) -> Result<(), Failed>
    requires { E.failed err.old < u64.MAX }
    ensures ok { OnOk result (Appends (E.taken err.old) (E.taken err.new) (decimal number)) }
    ensures failed { E.failed err.new ≡ (if is_ok result then E.failed err.old else E.failed err.old + 1) }
{
    let mut buffer = Buffer::new();
    write_all(err, buffer.format(number).as_bytes())
}

// Prints a word and then a number.
fn print_numbered<E: Sink>(err: &mut E, word: &str, number: u64) -> Result<(), Failed>
    requires { E.failed err.old < u64.MAX }
    ensures ok { OnOk result (Appends (E.taken err.old) (E.taken err.new) (word.now ++ decimal number)) }
    ensures failed { E.failed err.new ≡ (if is_ok result then E.failed err.old else E.failed err.old + 1) }
{
    write_all(err, word.as_bytes())?;
    print_number(err, number)
}

// Prints that a list has a section of an unsupported type.
fn print_unsupported<E: Sink>(err: &mut E, kind: u8) -> Result<(), Failed>
    requires { E.failed err.old < u64.MAX }
    ensures ok { OnOk result (Appends (E.taken err.old) (E.taken err.new)
        (list_fault_name (KrlFault.Unsupported kind))) }
    ensures failed { E.failed err.new ≡ (if is_ok result then E.failed err.old else E.failed err.old + 1) }
{
    print_numbered(err, "Unsupported(", kind as u64)?;
    write_all(err, b")")
}

fn print_list_name<E: Sink>(err: &mut E, fault: KrlFault) -> Result<(), Failed>
    requires { E.failed err.old < u64.MAX }
    ensures ok { OnOk result (Appends (E.taken err.old) (E.taken err.new) (list_fault_name fault)) }
    ensures failed { E.failed err.new ≡ (if is_ok result then E.failed err.old else E.failed err.old + 1) }
{
    match fault {
        KrlFault::Truncated => write_all(err, b"Truncated"),
        KrlFault::BadMagic => write_all(err, b"BadMagic"),
        KrlFault::BadVersion => write_all(err, b"BadVersion"),
        KrlFault::BadFlags => write_all(err, b"BadFlags"),
        KrlFault::Unsupported(kind) => print_unsupported(err, kind),
        KrlFault::BadSection => write_all(err, b"BadSection"),
    }
}

// Prints the name of a fault.
fn print_name<E: Sink>(err: &mut E, fault: JobFault) -> Result<(), Failed>
    requires { E.failed err.old < u64.MAX }
    ensures ok { OnOk result (Appends (E.taken err.old) (E.taken err.new) (job_fault_name fault)) }
    ensures failed { E.failed err.new ≡ (if is_ok result then E.failed err.old else E.failed err.old + 1) }
{
    match fault {
        JobFault::File => write_all(err, b"File"),
        JobFault::Write => write_all(err, b"Write"),
        JobFault::Socket => write_all(err, b"Socket"),
        JobFault::Connection(fault) => write_all(err, fault.name().as_bytes()),
        JobFault::Mismatch => write_all(err, b"Mismatch"),
        JobFault::NoMemory => write_all(err, b"NoMemory"),
        JobFault::BadExchange(record) => print_numbered(err, "BadExchange ", record as u64),
        JobFault::Line(fault) => write_all(err, line_name(fault).as_bytes()),
        JobFault::Opening(fault) => write_all(err, opening_name(fault).as_bytes()),
        JobFault::List(fault) => print_list_name(err, fault),
        JobFault::Store(fault) => write_all(err, store_name(fault).as_bytes()),
        JobFault::Fault => write_all(err, b"Fault"),
    }
}

// Prints the line of a fault.
fn print_fault<E: Sink>(err: &mut E, fault: JobFault) -> Result<(), Failed>
    requires { E.failed err.old < u64.MAX }
    ensures ok { OnOk result (Appends (E.taken err.old) (E.taken err.new) (fault_line fault)) }
    ensures failed { E.failed err.new ≡ (if is_ok result then E.failed err.old else E.failed err.old + 1) }
{
    write_all(err, b"sshoffice: ")?;
    print_name(err, fault)?;
    write_all(err, b"\n")
}

/// Prints the line of a fault. What the output doesn't take is lost.
pub(crate) fn tell_fault<E: Sink>(err: &mut E, fault: JobFault)
    ensures told { E.failed err.old < u64.MAX
        → Takes (E.failed err.old) (E.failed err.new) (E.taken err.old) (E.taken err.new) (fault_line fault) }
    ensures least { E.failed err.old ≤ E.failed err.new }
{
    if err.failures() < u64::MAX {
        let _ = print_fault(err, fault);
    }
}

/// Prints a text. What the output doesn't take is lost.
pub(crate) fn tell_text<E: Sink>(err: &mut E, text: &[u8])
    requires { E.failed err.old < u64.MAX }
    ensures { Takes (E.failed err.old) (E.failed err.new) (E.taken err.old) (E.taken err.new) text.now }
{
    let _ = write_all(err, text);
}
