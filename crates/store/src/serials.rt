//! The certificate with a given serial.

ghost use Rattle.std.specs.Prelude.{◌≡◌, IfOk};
ghost use Rattle.std.specs.Option.{option_map};
ghost use Rattle.office.specs.State.{body_of};
ghost use Rattle.office.specs.Publication.{issued_of, issued_row};
ghost use Rattle.store.specs.Showing.{ReadsOffice};

use crate::answer::made;
use crate::reads::find_certificate;
use office::{Certificate, Issued};
use sqlite::{Alter, Connection};
use std::alloc::Global;
use store_sql::Fault;
use text::{NoMemory, Text};

fn body_in(found: Option<Certificate>) -> Option<Text>
    ensures { result ≡ option_map (λ c. c.body) found }
{
    match found {
        Some(certificate) => Some(certificate.body),
        None => None,
    }
}

/// The unsigned certificate (body) with this serial, or `None` if it wasn't issued.
pub(crate) fn read_body_of<S: Alter>(
    alloc: Global,
    conn: &mut Connection<S>,
    serial: u64,
) -> Result<Option<Text>, Fault>
    ensures { ReadsOffice S.Store (λ s kept body. body ≡ body_of s serial) conn.old conn.new result }
{
    let found = find_certificate(alloc, conn, serial)?;
    Ok(body_in(found))
}

fn issued_in(alloc: Global, found: Option<Certificate>) -> Result<Option<Issued>, NoMemory>
    ensures { IfOk result (λ issued. issued ≡ option_map issued_row found) }
{
    match found {
        Some(certificate) => {
            let issued = certificate.issued_row(alloc);
            drop(certificate);
            Ok(Some(issued?))
        }
        None => Ok(None),
    }
}

/// The certificate with this serial, or `None` if it wasn't issued.
pub(crate) fn read_issued<S: Alter>(
    alloc: Global,
    conn: &mut Connection<S>,
    serial: u64,
) -> Result<Option<Issued>, Fault>
    ensures { ReadsOffice S.Store (λ s kept issued. issued ≡ issued_of s serial) conn.old conn.new result }
{
    let found = find_certificate(alloc, conn, serial)?;
    made(issued_in(alloc, found))
}
