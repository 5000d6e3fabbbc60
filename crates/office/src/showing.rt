//! The published data of a certificate, and of the revoked serials.

ghost use Rattle.std.specs.Prelude.{◌≡◌, IfOk};
ghost use Rattle.std.specs.Option.{option_map};
ghost use Rattle.std.specs.List.Sorted.{IsNonDecreasing};
ghost use Rattle.cert.specs.Certificates.{certificate_text};
ghost use Rattle.office.specs.Parts.{AreParts, numbers, zipped};
ghost use Rattle.office.specs.Publication.{entry_as, issued_row, pending_row, standing_as};

use crate::ca::Ca;
use crate::certificate::Certificate;
use crate::publication::{Entry, Issued, Pending, Standing};
use cert::join_signature;
use krl::{CaPart, Runs};
use lines::body_digest;
use std::alloc::{AllocError, Global};
use text::{NoMemory, Text};

impl Certificate {
    /// Its row in the list of pending certificates.
    pub fn pending_row(&self) -> Pending
        ensures { result ≡ pending_row self.now }
    {
        Pending {
            serial: self.fields.serial,
            digest: body_digest(self.body.as_slice()),
        }
    }

    // The body (the unsigned certificate) with its signature, if there is one.
    fn joined(&self, alloc: Global) -> Result<Option<Text>, NoMemory>
        ensures { IfOk result (λ joined. joined ≡ option_map
            (λ signature. certificate_text self.now.body signature.bytes) self.now.signature) }
    {
        match &self.signature {
            Some(signature) => {
                let bytes = join_signature(alloc, self.body.as_slice(), signature)?;
                Ok(Some(Text::from_vec(bytes)))
            }
            None => Ok(None),
        }
    }

    /// The answer to a query for its serial.
    pub fn issued_row(&self, alloc: Global) -> Result<Issued, NoMemory>
        ensures { IfOk result (λ issued. issued ≡ issued_row self.now) }
    {
        Ok(Issued {
            key_id: self.fields.key_id.copied(alloc)?,
            certificate: self.joined(alloc)?,
        })
    }

    fn standing(&self, is_revoked: bool) -> Standing
        ensures { result ≡ standing_as is_revoked self.now }
    {
        if is_revoked {
            Standing::Revoked
        } else if self.signature.is_none() {
            Standing::Pending
        } else {
            Standing::Signed
        }
    }

    /// Its entry in a report, given whether it is revoked.
    pub fn entry(&self, alloc: Global, is_revoked: bool) -> Result<Entry, NoMemory>
        ensures { IfOk result (λ entry. entry ≡ entry_as (standing_as is_revoked self.now) self.now) }
    {
        let fields = &self.fields;
        Ok(Entry {
            serial: fields.serial,
            kind: fields.kind,
            standing: self.standing(is_revoked),
            after: fields.after,
            before: fields.before,
            key_id: fields.key_id.copied(alloc)?,
        })
    }
}

fn numbers(alloc: Global, cas: &[Ca]) -> Result<Vec<u64>, AllocError>
    ensures { IfOk result (λ v. v.items ≡ numbers cas.now) }
{
    cas.iter().map(|ca| ca.since).collect(alloc)
}

fn zipped(alloc: Global, cas: &[Ca], split: Vec<Runs>) -> Result<Vec<CaPart>, AllocError>
    ensures { IfOk result (λ v. v.items ≡ zipped cas.now split.items) }
{
    cas.iter()
        .zip(split)
        .map(|(ca, runs)| CaPart { ca: ca.key, runs })
        .collect(alloc)
}

/// A part for each CA: those of the serials that it signs, from its first serial up to the next CA's.
/// No CA has an earlier first serial than the CA before it.
pub fn parts_of(alloc: Global, cas: &[Ca], serials: &Runs) -> Result<Vec<CaPart>, NoMemory>
    requires { IsNonDecreasing (numbers cas.now) }
    ensures { IfOk result (λ parts. AreParts parts.items cas.now serials.now) }
{
    let since = numbers(alloc, cas)?;
    let split = serials.split(alloc, since.as_slice())?;
    Ok(zipped(alloc, cas, split)?)
}
