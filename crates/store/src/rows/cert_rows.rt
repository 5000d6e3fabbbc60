//! Certificates from rows.
//!
//! Large values are dropped explicitly: if a function ends with one, its proof takes each field apart.

ghost use Rattle.std.specs.Prelude.{◌≡◌, IfOk, Some};
ghost use Rattle.std.specs.Result.{result_ok};
ghost use Rattle.cert.specs.Bodies.{IsCertFields, body_text};
ghost use Rattle.cert.specs.Reading.{body_at};
ghost use Rattle.office.specs.declared.certificate.Certificate.{Certificate};
ghost use Rattle.office.specs.Certificates.{IsCertificate};
ghost use Rattle.store.specs.Reading.{IsRead};
ghost use Rattle.store.specs.Rows.{cert_row};
ghost use Rattle.store.specs.Certificates.{IsSigned, certificate_in, certificate_of_row, certificate_from_parts};
ghost use Rattle.store.specs.Certificates.{row_matches};
ghost use Rattle.store.specs.Certificates.{signature_in};

use cert::{CertFault, CertFields, read_body};
use lines::Signature;
use office::Certificate;
use std::alloc::Global;
use store_sql::{CertRow, Fault};
use text::{Text, both};
use values::is_name;

fn signature_in(bytes: &Option<Text>) -> Option<Option<Signature>>
    ensures { result ≡ signature_in bytes.now }
{
    match bytes {
        None => Some(None),
        Some(bytes) => match <[u8; 64]>::try_from(bytes.as_slice()) {
            Ok(bytes) => Some(Some(Signature { bytes })),
            Err(_) => None,
        },
    }
}

fn fits(row: &CertRow, fields: &CertFields) -> bool
    ensures { result ≡ row_matches row.now fields.now }
{
    fields.serial == row.serial.get()
        && fields.key_id.is(row.key_id.as_slice())
        && is_name(row.department.as_slice())
}

fn fields_in(alloc: Global, body: &Text) -> Result<CertFields, Fault>
    ensures exact { IsRead (result_ok (body_at body.now)) result }
    ensures found { IfOk result (λ fields. IsCertFields fields × (body.now ≡ body_text fields)) }
{
    match read_body(alloc, body.as_slice()) {
        Ok(fields) => Ok(fields),
        Err(CertFault::NoMemory) => Err(Fault::NoMemory),
        Err(_) => Err(Fault::Damaged),
    }
}

fn certificate_with(
    alloc: Global,
    row: &CertRow,
    fields: CertFields,
    signature: Option<Signature>,
) -> Result<Certificate, Fault>
    ensures { IsRead (Some (certificate_from_parts row.now fields signature)) result }
{
    match both(row.department.copied(alloc), row.body.copied(alloc)) {
        Ok((department, body)) => Ok(Certificate {
            department,
            fields,
            body,
            signature,
        }),
        Err(_) => {
            drop(fields);
            Err(Fault::NoMemory)
        }
    }
}

fn certificate_of(alloc: Global, row: &CertRow, fields: CertFields) -> Result<Certificate, Fault>
    requires lawful { IsCertFields fields }
    requires body { row.now.body ≡ body_text fields }
    ensures exact { IsRead (certificate_of_row row.now fields) result }
    ensures found { IfOk result (λ c. IsCertificate c × (row.now ≡ cert_row c)) }
{
    match signature_in(&row.signature) {
        Some(signature) if fits(row, &fields) => certificate_with(alloc, row, fields, signature),
        _ => {
            drop(fields);
            Err(Fault::Damaged)
        }
    }
}

fn certificate_in(alloc: Global, row: &CertRow) -> Result<Certificate, Fault>
    ensures exact { IsRead (certificate_in row.now) result }
    ensures found { IfOk result (λ c. IsCertificate c × (row.now ≡ cert_row c)) }
{
    match fields_in(alloc, &row.body) {
        Ok(fields) => certificate_of(alloc, row, fields),
        Err(fault) => Err(fault),
    }
}

/// The valid certificate of a row, `Damaged` if there is none, `NoMemory` if an allocation was refused.
pub fn read_certificate(alloc: Global, row: &CertRow) -> Result<Certificate, Fault>
    ensures exact { IsRead (certificate_in row.now) result }

    // The certificate's row is this one.
    ensures found { IfOk result (λ c. IsCertificate c × (row.now ≡ cert_row c)) }

    // The row of a valid certificate isn't damaged.
    ensures again { (c : Certificate) → IsCertificate c → IsSigned c → row.now ≡ cert_row c → IsRead (Some c) result }
{
    certificate_in(alloc, row)
}
