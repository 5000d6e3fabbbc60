//! The office's row.
//!
//! Large values are dropped explicitly: if a function ends with one, its proof takes each field apart.

ghost use Rattle.std.specs.Prelude.{◌≡◌, IfOk, IsTrue, length};
ghost use Rattle.office.specs.Openings.{IsOpening};
ghost use Rattle.store.specs.Reading.{IsRead};
ghost use Rattle.store.specs.Offices.{IsLawfulOffice, IsOfficeOf, if_office, is_opening, office_in, office_of};
ghost use Rattle.store.specs.Offices.{only_office};
ghost use Rattle.store.specs.ShowingRows.{AsksRows};

use lines::read_key_blob;
use office::Opening;
use sqlite::{Alter, Connection};
use std::alloc::Global;
use store_sql::{Fault, OfficeRow, every_office};
use text::{NoMemory, both};
use values::{LAST_SERIAL, is_name};

/// The contents of the office's row.
#[derive(Drop)]
pub struct Office {
    /// Its initial configuration.
    pub opening: Opening,
    /// The next serial to be issued.
    pub next: u64,
    /// The version of the published KRL.
    pub version: u64,
    /// The time of its last change, in seconds since 1970-01-01 00:00:00 UTC.
    pub date: u64,
}

fn passes(opening: &Opening) -> bool
    ensures { result ≡ is_opening opening.now }
{
    is_name(opening.root.as_slice())
        && is_name(opening.station.as_slice())
        && !opening.root.is(opening.station.as_slice())
        && 1 <= opening.first
        && opening.first <= opening.last
        && opening.last <= LAST_SERIAL
}

/// Whether the names and the serials of an initial configuration are valid.
pub fn is_opening(opening: &Opening) -> bool
    ensures value { result ≡ is_opening opening.now }
    ensures lawful { length opening.now.ca ≡ 32 → IsTrue result → IsOpening opening.now }
{
    passes(opening)
}

fn office_of(alloc: Global, row: &OfficeRow, ca: [u8; 32]) -> Result<Office, NoMemory>
    ensures { IfOk result (λ office. office ≡ office_of row.now ca) }
{
    match both(row.root.copied(alloc), row.station.copied(alloc)) {
        Ok((root, station)) => Ok(Office {
            opening: Opening {
                ca,
                root,
                station,
                first: row.first.get(),
                last: row.last.get(),
            },
            next: row.next.get(),
            version: row.version.get(),
            date: row.date.get(),
        }),
        Err(fault) => Err(fault),
    }
}

fn if_office(office: Office) -> Result<Office, Fault>
    ensures exact { IsRead (if_office office) result }
    ensures lawful { IfOk result IsLawfulOffice }
{
    if is_opening(&office.opening) && office.opening.first <= office.next {
        return Ok(office);
    }
    drop(office);
    Err(Fault::Damaged)
}

fn office_in(alloc: Global, row: &OfficeRow) -> Result<Office, Fault>
    ensures exact { IsRead (office_in row.now) result }
    ensures lawful { IfOk result IsLawfulOffice }
{
    if row.id.get() != 1 {
        return Err(Fault::Damaged);
    }
    let Some(ca) = read_key_blob(row.ca.as_slice()) else {
        return Err(Fault::Damaged);
    };
    match office_of(alloc, row, ca) {
        Ok(office) => if_office(office),
        Err(_) => Err(Fault::NoMemory),
    }
}

fn only_office(alloc: Global, rows: &[OfficeRow]) -> Result<Office, Fault>
    ensures exact { IsRead (only_office rows.now) result }
    ensures lawful { IfOk result IsLawfulOffice }
{
    match rows {
        [row] => office_in(alloc, row),
        _ => Err(Fault::Damaged),
    }
}

/// The office's configuration and counters. `Damaged` unless its table has exactly one row, and a valid one.
pub fn read_office<S: Alter>(alloc: Global, conn: &mut Connection<S>) -> Result<Office, Fault>
    ensures asks { AsksRows S.Store (λ s kept office. IsOfficeOf office s) conn.old conn.new result }
    ensures lawful { IfOk result IsLawfulOffice }
{
    let rows = every_office(alloc, conn)?;
    only_office(alloc, rows.as_slice())
}
