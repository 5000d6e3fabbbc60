//! The rows that the store returns.

ghost use Rattle.std.specs.Prelude.{◌≡◌, IfOk, take, drop};
ghost use Rattle.office.specs.Parts.{AreParts};
ghost use Rattle.office.specs.Listing.{AreRevocations, batch_of};
ghost use Rattle.memory_store.specs.Contents.{state_of};

use crate::store::PlainStore;
use krl::{CaPart, Runs};
use message::Department;
use office::{BATCH, Ca, Certificate, Revocations, parts_of};
use std::alloc::Global;
use text::{NoMemory, Text, Texts};

fn first_batch(certificates: &[Certificate]) -> &[Certificate]
    ensures { result.now ≡ take 1000 certificates.now }
{
    if certificates.len() < BATCH {
        return certificates;
    }
    &certificates[..BATCH]
}

fn batch_of(certificates: &[Certificate], place: u64) -> &[Certificate]
    ensures { result.now ≡ take 1000 (drop place certificates.now) }
{
    let place = place as usize;
    if certificates.len() <= place {
        return &[];
    }
    first_batch(&certificates[place..])
}

fn copied(certificates: &[Certificate], alloc: Global) -> Result<Vec<Certificate>, NoMemory>
    ensures { IfOk result (λ copies. copies.items ≡ certificates.now) }
{
    let mut copies = Vec::with_capacity(alloc, certificates.len())?;
    for certificate in certificates {
        copies.push(certificate.copied(alloc)?)?;
    }
    Ok(copies)
}

fn copied_runs(runs: &Runs, alloc: Global) -> Result<Runs, NoMemory>
    ensures { IfOk result (λ copy. copy ≡ runs.now) }
{
    let Some(copy) = Runs::from_runs(Vec::from_slice(alloc, runs.runs())?) else {
        unreachable!();
    };
    Ok(copy)
}

impl PlainStore {
    /// Certificates by serial, from this place on, at most 1000.
    pub(crate) fn certificate_rows(
        &self,
        alloc: Global,
        place: u64,
    ) -> Result<Vec<Certificate>, NoMemory>
        ensures { IfOk result (λ rows. rows.items ≡ batch_of (state_of self.now) place) }
    {
        copied(batch_of(self.certificates.as_slice(), place), alloc)
    }

    /// The revoked key IDs.
    fn key_id_rows(&self, alloc: Global) -> Result<Vec<Text>, NoMemory>
        ensures { IfOk result (λ ids. ids.items ≡ self.now.key_ids) }
    {
        let mut key_ids = Vec::with_capacity(alloc, self.revoked_key_ids.len())?;
        for key_id in &self.revoked_key_ids {
            key_ids.push(key_id.copied(alloc)?)?;
        }
        Ok(key_ids)
    }

    /// The revoked serials and key IDs.
    pub(crate) fn revoked_rows(&self, alloc: Global) -> Result<Revocations, NoMemory>
        ensures { IfOk result (λ rows. AreRevocations rows (state_of self.now)) }
    {
        Ok(Revocations {
            serials: copied_runs(&self.revoked, alloc)?,
            key_ids: self.key_id_rows(alloc)?,
        })
    }

    /// The revoked serials of each CA.
    pub(crate) fn parts(&self, alloc: Global) -> Result<Vec<CaPart>, NoMemory>
        ensures { IfOk result (λ parts. AreParts parts.items self.now.cas self.now.runs) }
    {
        parts_of(alloc, self.cas.as_slice(), &self.revoked)
    }

    /// The revoked key IDs, as the published list has them.
    pub(crate) fn key_ids(&self, alloc: Global) -> Result<Texts, NoMemory>
        ensures { IfOk result (λ ids. ids ≡ self.now.key_ids) }
    {
        Ok(Texts::from_vec(self.key_id_rows(alloc)?))
    }

    /// The CAs.
    pub(crate) fn ca_rows(&self, alloc: Global) -> Result<Vec<Ca>, NoMemory>
        ensures { IfOk result (λ cas. cas.items ≡ self.now.cas) }
    {
        Ok(Vec::from_slice(alloc, self.cas.as_slice())?)
    }

    /// The departments.
    pub(crate) fn department_rows(&self, alloc: Global) -> Result<Vec<Department>, NoMemory>
        ensures { IfOk result (λ rows. rows.items ≡ self.now.departments) }
    {
        let mut rows = Vec::with_capacity(alloc, self.departments.len())?;
        for department in &self.departments {
            rows.push(department.copied(alloc)?)?;
        }
        Ok(rows)
    }
}
