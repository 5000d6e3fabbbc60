//! The table of certificates.

ghost use Rattle.std.specs.Prelude.{◌≡◌, ◌∷◌, []};
ghost use Rattle.std.specs.Ordering.{nat_cmp};
ghost use Rattle.sqlite.specs.declared.types.Value.TheVariants.{Blob};
ghost use Rattle.store_sql.specs.Cells.{cert_cells};
ghost use Rattle.store_sql.specs.Changes.{certs_numbered, certs_within, with_cert, with_cert_signature};
ghost use Rattle.store_sql.specs.Calls.{FindsOne};
ghost use Rattle.store_sql.specs.Refusals.{RefusesCert, RefusesSignature};
ghost use Rattle.store_sql.specs.Statements.{Reads, ReadsSorted, WritesRows};

use crate::columns::{Columns, found, found_first};
use crate::kind::{Kind, blob_at, is_row_of, number_at, optional_blob, optional_blob_at, text_at};
use crate::memory::Memory;
use crate::number::Number;
use crate::sql::{CERTS_WITHIN, FIND_CERT, INSERT_CERT, SIGN_CERT};
use crate::table_fault::{Fault, done};
use sqlite::types::ValueRef;
use sqlite::{Alter, Connection, Row};
use std::alloc::Global;
use text::Text;

/// A certificate.
#[derive(Drop)]
pub struct CertRow {
    pub serial: Number,
    /// The name of its department.
    pub department: Text,
    pub key_id: Text,
    /// The unsigned certificate: all bytes that are signed.
    pub body: Text,
    /// 64 bytes, once it is signed.
    pub signature: Option<Text>,
}

impl CertRow {
    ghost use Rattle.std.specs.Prelude.{◌<◌, ◌^◌};
    ghost use Rattle.sqlite.specs.Values.{bound};
    ghost use Rattle.store_sql.specs.Cells.{cert_cells};

    fn values(&self) -> [ValueRef<'_>; 5]
        ensures is { bound result ≡ cert_cells self.now }
        ensures low { self.now.serial < 2 ^ 63 }
    {
        [
            self.serial.value(),
            ValueRef::Text(self.department.as_slice()),
            ValueRef::Text(self.key_id.as_slice()),
            ValueRef::Blob(self.body.as_slice()),
            optional_blob(&self.signature),
        ]
    }
}

impl Columns for CertRow {
    ghost use Rattle.std.specs.Prelude.{◌∷◌, []};
    ghost use Rattle.store_sql.specs.Cells.{signed_or_not};
    ghost use Rattle.store_sql.specs.Kinds.{has_kinds};
    ghost use Rattle.store_sql.specs.Cells.{cert_cells, cert_kinds};

    ghost cells = { cert_cells };

    ghost is_row = { has_kinds cert_kinds };

    ghost fits = { signed_or_not };

    fn is_row(row: &Row) -> bool {
        is_row_of(
            row,
            &[
                Kind::Number,
                Kind::Text,
                Kind::Text,
                Kind::Blob,
                Kind::OptionalBlob,
            ],
        )
    }

    fn copied_from(memory: &mut Memory, row: &Row) -> CertRow {
        CertRow {
            serial: number_at(row, 0),
            department: text_at(memory, row, 1),
            key_id: text_at(memory, row, 2),
            body: blob_at(memory, row, 3),
            signature: optional_blob_at(memory, row, 4),
        }
    }
}

/// Inserts a certificate. `Device` also if its serial is taken, its department is missing, or the row is too long.
pub fn insert_cert<S: Alter>(conn: &mut Connection<S>, cert: &CertRow) -> Result<(), Fault>
    ensures { WritesRows S.Store (with_cert cert.now) (RefusesCert cert.now) conn.old conn.new result }
{
    done(conn.execute(INSERT_CERT, &cert.values()))
}

/// The certificate with this serial, if there is one. `Damaged` if its row has another form.
pub fn find_cert<S: Alter>(
    alloc: Global,
    conn: &mut Connection<S>,
    serial: Number,
) -> Result<Option<CertRow>, Fault>
    ensures { Reads S.Store (FindsOne (certs_numbered serial)) conn.old conn.new result }
{
    found_first(alloc, conn.query_all(FIND_CERT, &[serial.value()]))
}

/// The certificates with serials from `lo` to `hi`, both included, by serial. `Damaged` if one of their rows has
/// another form. It reads only those rows.
pub fn certs_within<S: Alter>(
    alloc: Global,
    conn: &mut Connection<S>,
    lo: Number,
    hi: Number,
) -> Result<Vec<CertRow>, Fault>
    ensures { ReadsSorted S.Store (certs_within lo hi) (λ c. c.serial) nat_cmp conn.old conn.new result }
{
    found(
        alloc,
        conn.query_all(CERTS_WITHIN, &[lo.value(), hi.value()]),
    )
}

/// Sets the signature of the certificate with this serial, if there is one. `Device` also if its row then is too long.
pub fn update_signature<S: Alter>(
    conn: &mut Connection<S>,
    serial: Number,
    signature: &[u8],
) -> Result<(), Fault>
    ensures { WritesRows S.Store (with_cert_signature serial signature.now) (RefusesSignature serial signature.now)
        conn.old conn.new result }
{
    done(conn.execute(SIGN_CERT, &[serial.value(), ValueRef::Blob(signature)]))
}
