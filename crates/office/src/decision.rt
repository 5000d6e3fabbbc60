//! The decisions on accepted messages.

ghost use Rattle.std.specs.Prelude.{◌≡◌, ◌+◌, ◌<◌, IfOk};
ghost use Rattle.office.specs.Replies.{issue_reply};
ghost use Rattle.office.specs.Certificates.{IsCertificate, certificate_with};
ghost use Rattle.cert.specs.Bodies.{body_text, IsCertFields};
ghost use Rattle.office.specs.Decided.{IsLawfulChange, IsMade, certified, published, unpublished};

use crate::certificate::Certificate;
use crate::replies::to_issue;
use crate::view::{Change, Decision, Stop, View};
use cert::{CertFields, write_body};
use std::alloc::Global;
use text::{NoMemory, Text, both};

/// The decision that leaves the published list as it is.
pub(crate) fn unpublished(view: &View, reply: Text, change: Change) -> Decision
    ensures { result ≡ unpublished view.now reply change }
{
    Decision {
        reply,
        next: view.next,
        version: view.version,
        date: view.date,
        change,
    }
}

/// The decision that gives the published list its next version, dated at this time.
pub(crate) fn published(view: &View, reply: Text, change: Change, moment: u64) -> Decision
    requires { view.now.version < 9223372036854775807 }
    ensures { result ≡ published view.now reply change moment }
{
    Decision {
        reply,
        next: view.next,
        version: view.version + 1,
        date: moment,
        change,
    }
}

/// The body (the unsigned certificate) with these fields, and the reply with the serial and the body's digest.
fn made_texts(alloc: Global, serial: u64, fields: &CertFields) -> Result<(Text, Text), NoMemory>
    requires { IsCertFields fields.now }
    ensures { IfOk result (λ made. made ≡ (body_text fields.now, issue_reply serial (body_text fields.now))) }
{
    let body = Text::from_vec(write_body(alloc, fields)?);
    match to_issue(alloc, serial, body.as_slice()) {
        Ok(reply) => Ok((body, reply)),
        Err(fault) => Err(fault),
    }
}

/// The decision to make a certificate with these fields, under the next serial. It isn't signed yet.
pub(crate) fn certified(
    alloc: Global,
    view: &View,
    department: &Text,
    fields: CertFields,
) -> Result<Decision, Stop>
    requires lawful { IsCertificate (certificate_with department.now fields) }
    requires left { view.now.next < 9223372036854775807 }
    ensures made { IsMade result (certified view.now (certificate_with department.now fields)) }
    ensures change { IfOk result (λ d. IsLawfulChange d.change) }
{
    let texts = made_texts(alloc, view.next, &fields);
    match both(department.copied(alloc), texts) {
        Ok((department, (body, reply))) => Ok(Decision {
            reply,
            next: view.next + 1,
            version: view.version,
            date: view.date,
            change: Change::Certificate(Certificate {
                department,
                fields,
                body,
                signature: None,
            }),
        }),
        Err(_) => {
            drop(fields);
            Err(Stop::NoMemory)
        }
    }
}
