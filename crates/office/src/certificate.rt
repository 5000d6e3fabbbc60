//! The stored form of each certificate.

ghost use Rattle.std.specs.Prelude.{◌≡◌, IfOk};

use cert::CertFields;
use lines::Signature;
use std::alloc::Global;
use text::{NoMemory, Text, both};

/// A certificate that was issued. It is kept permanently.
#[derive(Drop)]
pub struct Certificate {
    /// The name of the department (an issuance policy) that it was issued for.
    pub department: Text,
    /// The fields of the body (the unsigned certificate).
    pub fields: CertFields,
    /// The body's bytes, over which the signature is made.
    pub body: Text,
    /// The signature, once delivered.
    pub signature: Option<Signature>,
}

/// A copy of the fields.
pub(crate) fn copied_fields(alloc: Global, fields: &CertFields) -> Result<CertFields, NoMemory>
    ensures { IfOk result (λ copy. copy ≡ fields.now) }
{
    let names = both(fields.key_id.copied(alloc), fields.principals.copied(alloc));
    let subject = both(names, fields.key.copied(alloc));
    let options = both(
        fields.options.copied(alloc),
        fields.extensions.copied(alloc),
    );
    match both(subject, options) {
        Ok((((key_id, principals), key), (options, extensions))) => Ok(CertFields {
            key_type: fields.key_type,
            nonce: fields.nonce,
            key,
            serial: fields.serial,
            kind: fields.kind,
            key_id,
            principals,
            after: fields.after,
            before: fields.before,
            options,
            extensions,
            ca: fields.ca,
        }),
        Err(fault) => Err(fault),
    }
}

impl Certificate {
    /// A copy, in new memory.
    pub fn copied(&self, alloc: Global) -> Result<Certificate, NoMemory>
        ensures { IfOk result (λ copy. copy ≡ self.now) }
    {
        let texts = both(self.department.copied(alloc), self.body.copied(alloc));
        match both(texts, copied_fields(alloc, &self.fields)) {
            Ok(((department, body), fields)) => Ok(Certificate {
                department,
                fields,
                body,
                signature: self.signature,
            }),
            Err(fault) => Err(fault),
        }
    }
}
