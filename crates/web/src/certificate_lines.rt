//! Responses with certificates.

ghost use Rattle.std.specs.Prelude.{◌≡◌, ◌++◌, IfOk, OnOk, IfErr};
ghost use Rattle.http_requests.specs.declared.resource.Resource.TheVariants as resource;
ghost use Rattle.http_requests.specs.declared.response.MediaType.TheVariants.{PlainText};
ghost use Rattle.http_requests.specs.Responses.{response_text};
ghost use Rattle.office.specs.State.{body_of};
ghost use Rattle.office.specs.Publication.{issued_of};
ghost use Rattle.office.specs.History.{state};
ghost use Rattle.office.specs.Faults.{HasRegisterCause};
ghost use Rattle.office.specs.Registers.{AnswersBy, FailsAsARegister, FailsWithin, Preserves};
ghost use Rattle.web.specs.Answers.{body_response, certificate_response, issued_response};
ghost use Rattle.web.specs.Forms.{MayShow};
ghost use Rattle.web.specs.Reports.{pending_line, pending_lines, pending_report};

use crate::pieces::put_pieces;
use crate::room::{around, to_body, to_refusal};
use http_requests::MediaType;
use lines::write_cert_line;
use office::{Issued, Pending, Registry, StoreFault};
use std::alloc::Global;
use text::NoMemory;
use values::{Refusal, put_decimal};

/// The response with the body (the unsigned certificate) for a serial.
pub(crate) fn to_serial_body<R: Registry>(
    registry: &mut R,
    alloc: Global,
    serial: u64,
) -> Result<Vec<u8>, StoreFault>
    ensures preserves { Preserves R.is_honest R.is_open R.is_as_before R.means registry.old registry.new }
    ensures stays_open { R.is_honest registry.new → OnOk result (R.is_open registry.new) }
    ensures row { R.is_honest registry.new → AnswersBy R.means registry.old result
        (λ o l v. v.items ≡ body_response (body_of (state o l) serial)) }
    ensures form { IfOk result (λ v. MayShow (resource.Body serial) v.items) }
    ensures cause { IfErr result (λ e. HasRegisterCause e (R.fails registry.old registry.new)) }
    ensures only { R.is_honest registry.new → FailsAsARegister R.means registry.old result }
{
    match registry.body(alloc, serial)? {
        Some(body) => to_body(alloc, MediaType::Bytes, body.as_slice()),
        None => to_refusal(alloc, Refusal::UnknownSerial),
    }
}

/// The response with the line of a certificate, whose comment is the key ID.
fn to_line(alloc: Global, issued: &Issued) -> Result<Vec<u8>, StoreFault>
    ensures ok { IfOk result (λ v. v.items ≡ issued_response issued.now) }
    ensures err { IfErr result (λ e. e ≡ StoreFault.NoMemory) }
{
    let Some(certificate) = &issued.certificate else {
        return to_refusal(alloc, Refusal::NotSigned);
    };
    let mut line = write_cert_line(alloc, certificate.as_slice(), issued.key_id.as_slice())?;
    let Ok(()) = line.push(b'\n') else {
        return Err(StoreFault::NoMemory);
    };
    to_body(alloc, MediaType::PlainText, &line)
}

/// The response with the certificate for a serial.
pub(crate) fn to_certificate<R: Registry>(
    registry: &mut R,
    alloc: Global,
    serial: u64,
) -> Result<Vec<u8>, StoreFault>
    ensures preserves { Preserves R.is_honest R.is_open R.is_as_before R.means registry.old registry.new }
    ensures stays_open { R.is_honest registry.new → OnOk result (R.is_open registry.new) }
    ensures row { R.is_honest registry.new → AnswersBy R.means registry.old result
        (λ o l v. v.items ≡ certificate_response (issued_of (state o l) serial)) }
    ensures form { IfOk result (λ v. MayShow (resource.Certificate serial) v.items) }
    ensures cause { IfErr result (λ e. HasRegisterCause e (R.fails registry.old registry.new)) }
    ensures only { R.is_honest registry.new → FailsAsARegister R.means registry.old result }
{
    match registry.certificate(alloc, serial)? {
        Some(issued) => to_line(alloc, &issued),
        None => to_refusal(alloc, Refusal::UnknownSerial),
    }
}

/// Appends the line of a pending certificate.
fn put_pending(out: &mut Vec<u8>, row: &Pending) -> Result<(), NoMemory>
    ensures { OnOk result (out.new.items ≡ out.old.items ++ pending_line row.now) }
{
    put_decimal(out, row.serial)?;
    put_pieces(out, &[b" ".as_slice(), row.digest.as_slice(), b"\n"])
}

fn pending_lines(alloc: Global, rows: &[Pending]) -> Result<Vec<u8>, NoMemory>
    ensures { IfOk result (λ v. v.items ≡ pending_lines rows.now) }
{
    let mut out = Vec::new(alloc);
    for row in rows {
        put_pending(&mut out, row)?;
    }
    Ok(out)
}

/// The response with the pending certificates.
pub(crate) fn to_pending<R: Registry>(
    registry: &mut R,
    alloc: Global,
) -> Result<Vec<u8>, StoreFault>
    ensures preserves { Preserves R.is_honest R.is_open R.is_as_before R.means registry.old registry.new }
    ensures stays_open { R.is_honest registry.new → OnOk result (R.is_open registry.new) }
    ensures row { R.is_honest registry.new → AnswersBy R.means registry.old result
        (λ o l v. v.items ≡ response_text 200 PlainText (pending_report (state o l))) }
    ensures form { IfOk result (λ v. MayShow resource.Pending v.items) }
    ensures cause { R.is_honest registry.new → IfErr result
        (λ e. HasRegisterCause e (FailsWithin R.means R.fails registry.old registry.new)) }
    ensures only { R.is_honest registry.new → FailsAsARegister R.means registry.old result }
{
    let rows = registry.pending(alloc)?;
    let report = pending_lines(alloc, &rows)?;
    around(report, MediaType::PlainText)
}
