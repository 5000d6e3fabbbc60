//! Printing the faults of connections.

ghost use Rattle.std.specs.Prelude.{◌≡◌, ◌≤◌, ◌<◌, ◌+◌, OnOk, decimal, if◌then◌else◌, is_ok};
ghost use Rattle.std.specs.Io.KnownBytes.{Appends};
ghost use Rattle.server.specs.Connections.{fault_line};
ghost use Rattle.server.specs.Names.{connection_line, no_memory_line};

use crate::connection_fault::Fault;
use itoa::Buffer;
use wire::{Failed, Sink, write_all};

fn print_number<E: Sink>(err: &mut E, number: u64) -> Result<(), Failed>
    requires { E.failed err.old < u64.MAX }
    ensures ok { OnOk result (Appends (E.taken err.old) (E.taken err.new) (decimal number)) }
    ensures failed { E.failed err.new ≡ (if is_ok result then E.failed err.old else E.failed err.old + 1) }
{
    let mut buffer = Buffer::new();
    write_all(err, buffer.format(number).as_bytes())
}

// Prints the line for the fault of a connection.
fn print_fault<E: Sink>(err: &mut E, connection: u64, fault: Fault) -> Result<(), Failed>
    requires { E.failed err.old < u64.MAX }
    ensures ok { OnOk result (Appends (E.taken err.old) (E.taken err.new) (connection_line connection fault)) }
    ensures failed { E.failed err.new ≡ (if is_ok result then E.failed err.old else E.failed err.old + 1) }
{
    write_all(err, b"sshoffice: connection ")?;
    print_number(err, connection)?;
    write_all(err, b" ")?;
    write_all(err, fault.name().as_bytes())?;
    write_all(err, b"\n")
}

/// Prints the fault of a connection, if it had one; connections are counted from 1. What `err` doesn't take is lost.
pub(crate) fn report<E: Sink>(err: &mut E, connection: u64, served: Result<(), Fault>)
    requires { E.failed err.old < u64.MAX }
    ensures told { E.failed err.new ≡ E.failed err.old
        → Appends (E.taken err.old) (E.taken err.new) (fault_line connection served) }
    ensures least { E.failed err.old ≤ E.failed err.new }
    ensures most { E.failed err.new ≤ E.failed err.old + 1 }
{
    if let Err(fault) = served {
        let _ = print_fault(err, connection, fault);
    }
}

/// Prints that there was no memory to serve anybody.
pub(crate) fn report_no_memory<E: Sink>(err: &mut E)
    requires { E.failed err.old < u64.MAX }
    ensures told { E.failed err.new ≡ E.failed err.old → Appends (E.taken err.old) (E.taken err.new) no_memory_line }
    ensures most { E.failed err.new ≤ E.failed err.old + 1 }
{
    let _ = write_all(err, b"sshoffice: NoMemory\n");
}
