//! The certificates in the tables.

ghost use Rattle.store.specs.ShowingRows.{AreWithin, AsksRows};

use crate::rows::cert_rows::read_certificate;
use crate::rows::row_reader::{OfRow, read_each};
use office::Certificate;
use sqlite::{Alter, Connection};
use std::alloc::Global;
use store_sql::{CertRow, Fault, Number, certs_within};

impl OfRow<CertRow> for Certificate {
    ghost use Rattle.store.specs.Certificates.{certificate_in};

    ghost value = { certificate_in };

    fn of_row(alloc: Global, row: &CertRow) -> Result<Certificate, Fault> {
        read_certificate(alloc, row)
    }
}

/// The certificates with serials from `lo` to `hi`, both included, by serial. `Damaged` if one of their rows isn't that
/// of a valid certificate.
pub fn read_certificates<S: Alter>(
    alloc: Global,
    conn: &mut Connection<S>,
    lo: Number,
    hi: Number,
) -> Result<Vec<Certificate>, Fault>
    ensures { AsksRows S.Store (AreWithin lo hi) conn.old conn.new result }
{
    let rows = certs_within(alloc, conn, lo, hi)?;
    read_each(alloc, rows.as_slice())
}
