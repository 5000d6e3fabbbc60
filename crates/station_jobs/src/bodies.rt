//! Printing approved unsigned certificates (bodies).

ghost use Rattle.std.specs.Prelude.{◌≡◌, ◌≢◌, ◌++◌, ◌∷◌, [], decimal, IfErr, IfOk, OnErr, OnOk};
ghost use Rattle.std.specs.Io.KnownBytes.{Appends};
ghost use Rattle.guard.specs.Machine.{State};
ghost use Rattle.station_jobs.specs.Bodies.{AreReadable, CutsRow, IsWhole, ListsFirst, ListsRows, PrintsBody};
ghost use Rattle.station_jobs.specs.Bodies.{PrintsFrom, named_line, row_line};
ghost use Rattle.station_jobs.specs.Faults.{IsOfARow, IsOfRows};
ghost use Rattle.station_jobs.specs.Leaving.{HasCause, Leaves, OfNone, Stays};
ghost use Rattle.station_jobs.specs.Reported.{PassesOn};

use crate::output::print;
use crate::station_fault::StationFault;
use guard::{Approved, BodyFault, Register, fields_of};
use lines::body_digest;
use std::alloc::Global;
use std::io::Write;
use text::NoMemory;
use values::put_decimal;

/// Appends a number and a space.
fn put_number(line: &mut Vec<u8>, number: u64) -> Result<(), NoMemory>
    ensures { OnOk result (line.new.items ≡ line.old.items ++ (decimal number ++ 32 ∷ [])) }
{
    put_decimal(line, number)?;
    line.push(b' ')?;
    Ok(())
}

/// Appends the line of a row with this key id.
fn put_row(line: &mut Vec<u8>, row: &Approved, key_id: &[u8]) -> Result<(), NoMemory>
    ensures { OnOk result (line.new.items ≡ line.old.items ++ named_line row.now key_id.now) }
{
    put_number(line, row.serial)?;
    line.extend_from_slice(&body_digest(row.body.as_slice()))?;
    line.push(b' ')?;
    put_number(line, row.moment)?;
    line.extend_from_slice(key_id)?;
    line.push(b'\n')?;
    Ok(())
}

/// The line of a row.
fn line_of(alloc: Global, row: &Approved) -> Result<Vec<u8>, StationFault>
    ensures line { IfOk result (λ line. line.items ≡ row_line row.now) }
    ensures whole { OnOk result (IsWhole row.now) }

    // A row that is whole fails only for lack of memory.
    ensures only { IfErr result (IsOfARow (IsWhole row.now)) }
{
    let mut line = Vec::new(alloc);
    match fields_of(alloc, row.body.as_slice()) {
        Ok(fields) if fields.serial == row.serial => {
            let put = put_row(&mut line, row, fields.key_id.as_slice());
            drop(fields);
            put?;
            Ok(line)
        }
        Ok(_) => Err(StationFault::Damaged),
        Err(BodyFault::NoMemory) => Err(StationFault::NoMemory),
        Err(_) => Err(StationFault::Damaged),
    }
}

/// Prints the line of a row.
fn print_row<W: Write>(alloc: Global, row: &Approved, out: &mut W) -> Result<(), StationFault>
    ensures ok { OnOk result (Appends (W.contents out.old) (W.contents out.new) (row_line row.now)) }
    ensures whole { OnOk result (IsWhole row.now) }
    ensures err { OnErr result (CutsRow row.now (W.contents out.old) (W.contents out.new)) }
    ensures only { IfErr result (IsOfARow (IsWhole row.now)) }
    ensures silent { IfErr result (λ e. e ≢ StationFault.Write → W.contents out.new ≡ W.contents out.old) }
{
    let line = line_of(alloc, row)?;
    print(out, line.as_slice())
}

/// Prints the line of the first row from a serial on, and returns the serial after it; `None` if there is no row.
#[tactic(auto, using(crate::proofs::Causes::rows_of_a_register, crate::proofs::Causes::rows_of_a_row))]
fn print_from<G: Register, W: Write>(
    alloc: Global,
    register: &mut G,
    from: u64,
    out: &mut W,
) -> Result<Option<u64>, StationFault>
    ensures honest { G.is_honest register.new → G.is_honest register.old }
    ensures prints { G.is_honest register.new → (s : State) → G.keeps register.old s
        → IfOk result (PrintsFrom s from (W.contents out.old) (W.contents out.new)) }
    ensures cut { G.is_honest register.new → (s : State) → G.keeps register.old s
        → OnErr result (ListsFirst s from (W.contents out.old) (W.contents out.new)) }
    ensures stays { G.is_honest register.new → (s : State) → G.keeps register.old s
        → Stays G.Register register.old register.new s }
    ensures cause { G.is_honest register.new → (s : State) → G.keeps register.old s → AreReadable s
        → IfErr result (HasCause (G.has_failed register.new)) }
    ensures only { IfErr result IsOfRows }
    ensures reported { PassesOn (G.reported register.old) (G.reported register.new) result }

    // Whatever the register keeps, it is as it was before.
    ensures before { G.is_honest register.new → G.is_as_before register.old register.new }

    // Nor is anything printed beside a fault other than that of the output.
    ensures silent { IfErr result (λ e. e ≢ StationFault.Write → W.contents out.new ≡ W.contents out.old) }
{
    match register.row_from(alloc, from) {
        Ok(Some(row)) if row.serial < u64::MAX => {
            let printed = print_row(alloc, &row, out);
            let serial = row.serial;
            drop(row);
            match printed {
                Ok(()) => Ok(Some(serial + 1)),
                Err(fault) => Err(fault),
            }
        }
        Ok(Some(row)) => {
            drop(row);
            Err(StationFault::Damaged)
        }
        Ok(None) => Ok(None),
        Err(fault) => Err(StationFault::from(fault)),
    }
}

/// Prints a line for each approved body, in order of the serials.
pub fn print_bodies<G: Register, W: Write>(
    alloc: Global,
    register: &mut G,
    out: &mut W,
) -> Result<(), StationFault>
    ensures honest { G.is_honest register.new → G.is_honest register.old }
    ensures lists { G.is_honest register.new → (s : State) → G.keeps register.old s
        → ListsRows s (W.contents out.old) (W.contents out.new) result }
    ensures stays { G.is_honest register.new → (s : State) → G.keeps register.old s
        → Stays G.Register register.old register.new s }

    // If each row is whole, no damage is reported, and a failure of the database only if it failed.
    ensures cause { G.is_honest register.new → (s : State) → G.keeps register.old s → AreReadable s
        → Leaves G.Register OfNone register.old register.new s s result }
    ensures only { IfErr result IsOfRows }

    // Whatever the register keeps, a fault that it reports is the one that is returned.
    ensures reported { PassesOn (G.reported register.old) (G.reported register.new) result }

    // It is as it was before.
    ensures before { G.is_honest register.new → G.is_as_before register.old register.new }
{
    let mut from = 0;
    for _row in 0..u64::MAX {
        match print_from(alloc, register, from, out) {
            Ok(Some(next)) => from = next,
            Ok(None) => return Ok(()),
            Err(fault) => return Err(fault),
        }
    }
    Err(StationFault::Damaged)
}

/// Prints the body that is approved under a serial.
#[tactic(auto, using(crate::proofs::Reported::reported_fault, crate::proofs::Reported::unreported_bytes))]
pub fn print_body<G: Register, W: Write>(
    alloc: Global,
    register: &mut G,
    serial: u64,
    out: &mut W,
) -> Result<(), StationFault>
    ensures honest { G.is_honest register.new → G.is_honest register.old }
    ensures prints { G.is_honest register.new → (s : State) → G.keeps register.old s
        → PrintsBody s serial (W.contents out.old) (W.contents out.new) result }
    ensures stays { G.is_honest register.new → (s : State) → G.keeps register.old s
        → Leaves G.Register OfNone register.old register.new s s result }

    // Whatever the register keeps, a fault that it reports is the one that is returned.
    ensures reported { PassesOn (G.reported register.old) (G.reported register.new) result }

    // It is as it was before.
    ensures before { G.is_honest register.new → G.is_as_before register.old register.new }

    // Nor is anything printed beside a fault other than that of the output.
    ensures silent { IfErr result (λ e. e ≢ StationFault.Write → W.contents out.new ≡ W.contents out.old) }
{
    match register.body_of(alloc, serial) {
        Ok(Some(body)) => print(out, body.as_slice()),
        Ok(None) => Err(StationFault::UnknownSerial),
        Err(fault) => Err(StationFault::from(fault)),
    }
}
