//! Printing to the second output: each fault by its name, on a line.

ghost use Rattle.std.specs.Prelude.{◌≡◌, ◌≤◌, ◌<◌, ◌+◌, ◌++◌, OnOk, decimal, if◌then◌else◌, is_ok};
ghost use Rattle.std.specs.Io.KnownBytes.{Appends};
ghost use Rattle.station_jobs.specs.Names.{Takes, fault_line, line_fault_name, station_fault_name};

use crate::station_fault::StationFault;
use itoa::Buffer;
use lines::LineFault;
use wire::{Failed, Sink, write_all};

fn line_name(fault: LineFault) -> &'static str
    ensures { result.now ≡ line_fault_name fault }
{
    match fault {
        LineFault::WrongType => "WrongType",
        LineFault::BadBase64 => "BadBase64",
        LineFault::BadBlob => "BadBlob",
        LineFault::BadComment => "BadComment",
        LineFault::NoMemory => "NoMemory",
    }
}

fn print_number<E: Sink>(err: &mut E, number: u64) -> Result<(), Failed>
    requires { E.failed err.old < u64.MAX }
    ensures ok { OnOk result (Appends (E.taken err.old) (E.taken err.new) (decimal number)) }
    ensures failed { E.failed err.new ≡ (if is_ok result then E.failed err.old else E.failed err.old + 1) }
{
    let mut buffer = Buffer::new();
    write_all(err, buffer.format(number).as_bytes())
}

// Prints a word and then a number.
fn print_numbered<E: Sink>(err: &mut E, word: &str, number: u64) -> Result<(), Failed>
    requires { E.failed err.old < u64.MAX }
    ensures ok { OnOk result (Appends (E.taken err.old) (E.taken err.new) (word.now ++ decimal number)) }
    ensures failed { E.failed err.new ≡ (if is_ok result then E.failed err.old else E.failed err.old + 1) }
{
    write_all(err, word.as_bytes())?;
    print_number(err, number)
}

// Prints the name of a fault.
fn print_name<E: Sink>(err: &mut E, fault: StationFault) -> Result<(), Failed>
    requires { E.failed err.old < u64.MAX }
    ensures ok { OnOk result (Appends (E.taken err.old) (E.taken err.new) (station_fault_name fault)) }
    ensures failed { E.failed err.new ≡ (if is_ok result then E.failed err.old else E.failed err.old + 1) }
{
    match fault {
        StationFault::File => write_all(err, b"File"),
        StationFault::Input => write_all(err, b"Input"),
        StationFault::Write => write_all(err, b"Write"),
        StationFault::NoMemory => write_all(err, b"NoMemory"),
        StationFault::Clock => write_all(err, b"Clock"),
        StationFault::BadPolicy(line) => print_numbered(err, "BadPolicy ", line),
        StationFault::Line(fault) => write_all(err, line_name(fault).as_bytes()),
        StationFault::BadSerials => write_all(err, b"BadSerials"),
        StationFault::SerialApproved => write_all(err, b"SerialApproved"),
        StationFault::UnknownSerial => write_all(err, b"UnknownSerial"),
        StationFault::AlreadyAGuard => write_all(err, b"AlreadyAGuard"),
        StationFault::NotAGuard => write_all(err, b"NotAGuard"),
        StationFault::WrongSchema => write_all(err, b"WrongSchema"),
        StationFault::Damaged => write_all(err, b"Damaged"),
        StationFault::Device => write_all(err, b"Device"),
    }
}

// Prints the line of a fault.
fn print_fault<E: Sink>(err: &mut E, fault: StationFault) -> Result<(), Failed>
    requires { E.failed err.old < u64.MAX }
    ensures ok { OnOk result (Appends (E.taken err.old) (E.taken err.new) (fault_line fault)) }
    ensures failed { E.failed err.new ≡ (if is_ok result then E.failed err.old else E.failed err.old + 1) }
{
    write_all(err, b"sshstation: ")?;
    print_name(err, fault)?;
    write_all(err, b"\n")
}

/// Prints the line of a fault. What the output doesn't take is lost.
pub fn tell_fault<E: Sink>(err: &mut E, fault: StationFault)
    ensures told { E.failed err.old < u64.MAX
        → Takes (E.failed err.old) (E.failed err.new) (E.taken err.old) (E.taken err.new) (fault_line fault) }
    ensures least { E.failed err.old ≤ E.failed err.new }
{
    if err.failures() < u64::MAX {
        let _ = print_fault(err, fault);
    }
}

/// Prints a text. What the output doesn't take is lost.
pub fn tell_text<E: Sink>(err: &mut E, text: &[u8])
    requires { E.failed err.old < u64.MAX }
    ensures { Takes (E.failed err.old) (E.failed err.new) (E.taken err.old) (E.taken err.new) text.now }
{
    let _ = write_all(err, text);
}
