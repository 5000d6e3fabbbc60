//! The certificate with a given serial.
//!
//! Large values are dropped explicitly: if a function ends with one, its proof takes each field apart.

ghost use Rattle.std.specs.Prelude.{◌≡◌, IfOk, IfSome};
ghost use Rattle.office.specs.Certificates.{IsCertificate};
ghost use Rattle.office.specs.State.{certificate_of};
ghost use Rattle.store.specs.Certificates.{certificate_in};
ghost use Rattle.store.specs.Reading.{IsRead};
ghost use Rattle.store.specs.ShowingRows.{AsksRows};
ghost use Rattle.store.specs.Finding.{asked_serial, value_in};
ghost use Rattle.store.specs.Histories.{IsOfHistory};

use crate::rows::read_certificate;
use office::Certificate;
use sqlite::{Alter, Connection};
use std::alloc::Global;
use store_sql::{CertRow, Fault, Number, find_cert};

/// The serial, or 0, which no office issues, if it is too great for a column.
fn asked_serial(serial: u64) -> Number
    ensures { result ≡ asked_serial serial }
{
    match Number::new(serial) {
        Some(number) => number,
        None => Number::ZERO,
    }
}

fn read_found(alloc: Global, found: Option<CertRow>) -> Result<Option<Certificate>, Fault>
    ensures exact { IsRead (value_in certificate_in found) result }
    ensures lawful { IfOk result (λ found. IfSome found IsCertificate) }
{
    match found {
        Some(row) => {
            let certificate = read_certificate(alloc, &row);
            drop(row);
            Ok(Some(certificate?))
        }
        None => Ok(None),
    }
}

/// The certificate with this serial, or `None` if it wasn't issued. A row without a valid value is `Damaged`.
pub fn find_certificate<S: Alter>(
    alloc: Global,
    conn: &mut Connection<S>,
    serial: u64,
) -> Result<Option<Certificate>, Fault>
    ensures asks { AsksRows S.Store (λ s kept found. IsOfHistory s kept → found ≡ certificate_of s serial)
        conn.old conn.new result }
    ensures lawful { IfOk result (λ found. IfSome found IsCertificate) }
{
    let found = find_cert(alloc, conn, asked_serial(serial))?;
    read_found(alloc, found)
}
