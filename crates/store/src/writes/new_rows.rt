//! Rows to be inserted.

ghost use Rattle.std.specs.Prelude.{◌≡◌, ◌<◌, ◌^◌, IfOk, IfSome, IsSome};
ghost use Rattle.std.specs.Option.{option_map};
ghost use Rattle.store.specs.Rows.{ca_row, cert_row, request_row};
ghost use Rattle.store.specs.Due.{Fits, counters_of, kept_of};

use crate::rows::number;
use lines::{Signature, key_blob_of};
use office::{Arrival, Ca, Certificate, Decision};
use std::alloc::Global;
use store_sql::{CaRow, CertRow, Counters, Number, RequestRow};
use text::{NoMemory, Text};

fn signature_bytes(alloc: Global, signature: &Option<Signature>) -> Result<Option<Text>, NoMemory>
    ensures { IfOk result (λ o. o ≡ option_map (λ s. s.bytes) signature.now) }
{
    match signature {
        None => Ok(None),
        Some(signature) => Ok(Some(Text::from_slice(alloc, &signature.bytes)?)),
    }
}

/// The row of a certificate.
pub(crate) fn cert_row(alloc: Global, certificate: &Certificate) -> Result<CertRow, NoMemory>
    requires { certificate.now.fields.serial < 2 ^ 63 }
    ensures { IfOk result (λ row. row ≡ cert_row certificate.now) }
{
    Ok(CertRow {
        serial: number(certificate.fields.serial),
        department: certificate.department.copied(alloc)?,
        key_id: certificate.fields.key_id.copied(alloc)?,
        body: certificate.body.copied(alloc)?,
        signature: signature_bytes(alloc, &certificate.signature)?,
    })
}

/// The row of a CA with this number that serves from this serial on.
pub(crate) fn ca_row(
    alloc: Global,
    number: Number,
    since: Number,
    ca: &Ca,
) -> Result<CaRow, NoMemory>
    ensures { IfOk result (λ row. row ≡ ca_row number since ca.now) }
{
    let blob = Text::from_slice(alloc, &key_blob_of(&ca.key))?;
    Ok(CaRow {
        number,
        ca: blob,
        since,
    })
}

/// The row of a received request with this reply.
pub(crate) fn request_row(
    alloc: Global,
    arrival: &Arrival,
    reply: &Text,
) -> Result<RequestRow, NoMemory>
    ensures { IfOk result (λ row. row ≡ request_row (kept_of arrival.now reply.now)) }
{
    Ok(RequestRow {
        caller: arrival.caller.copied(alloc)?,
        key: arrival.key.copied(alloc)?,
        message: arrival.bytes.copied(alloc)?,
        reply: reply.copied(alloc)?,
    })
}

/// The counters of the decision, or `None` if one is 2^63 or more.
pub(crate) fn counters_of(decision: &Decision) -> Option<Counters>
    ensures value { IfSome result (λ k. k ≡ counters_of decision.now) }
    ensures some { Fits decision.now → IsSome result }
{
    let next = Number::new(decision.next)?;
    let version = Number::new(decision.version)?;
    let date = Number::new(decision.date)?;
    Some(Counters {
        next,
        version,
        date,
    })
}
