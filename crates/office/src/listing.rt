//! Listing certificates with their revocation status.

ghost use Rattle.std.specs.Prelude.{◌≡◌, ◌+◌, ◌++◌, IfOk, OnOk, length};
ghost use Rattle.std.specs.List.{list_any};
ghost use Rattle.std.specs.Str.{bytes_eq};
ghost use Rattle.office.specs.Listing.{is_certificate_among, is_named, waiting_row, waiting_rows};

use crate::certificate::Certificate;
use crate::publication::Pending;
use krl::Runs;
use text::{NoMemory, Text};

/// The most certificates that a register returns at once.
pub const BATCH: usize = 1000;

/// The serials and the key IDs that are revoked.
#[derive(Drop)]
pub struct Revocations {
    pub serials: Runs,
    /// Ascending.
    pub key_ids: Vec<Text>,
}

impl Revocations {
    /// Whether the serial or the key ID is among these revocations.
    pub fn names(&self, serial: u64, key_id: &[u8]) -> bool
        ensures { result ≡ is_named self.now serial key_id.now }
    {
        self.serials.has_all(serial, serial) || has_key_id(self.key_ids.as_slice(), key_id)
    }

    /// Whether the certificate's serial or its key ID is among these revocations.
    pub fn has(&self, certificate: &Certificate) -> bool
        ensures { result ≡ is_certificate_among self.now certificate.now }
    {
        let fields = &certificate.fields;
        self.names(fields.serial, fields.key_id.as_slice())
    }

    // Appends the row of the certificate if it is neither signed nor among these revocations.
    fn push_row(&self, rows: &mut Vec<Pending>, certificate: &Certificate) -> Result<(), NoMemory>
        ensures { OnOk result (rows.new.items ≡ rows.old.items ++ waiting_row self.now certificate.now) }
    {
        if certificate.signature.is_none() && !self.has(certificate) {
            rows.push(certificate.pending_row())?;
        }
        Ok(())
    }

    /// Appends the rows of the certificates that are neither signed nor revoked by these revocations.
    pub fn push_waiting(
        &self,
        rows: &mut Vec<Pending>,
        certificates: &[Certificate],
    ) -> Result<(), NoMemory>
        ensures { OnOk result (rows.new.items ≡ rows.old.items ++ waiting_rows self.now certificates.now) }
    {
        for certificate in certificates {
            self.push_row(rows, certificate)?;
        }
        Ok(())
    }
}

/// The place after these certificates, of which the first is at the given place.
pub fn place_behind(place: u64, certificates: &[Certificate]) -> Result<u64, NoMemory>
    ensures { IfOk result (λ next. next ≡ place + length certificates.now) }
{
    match place.checked_add(certificates.len() as u64) {
        Some(next) => Ok(next),
        None => Err(NoMemory),
    }
}

/// Whether the key ID is among these.
pub fn has_key_id(key_ids: &[Text], key_id: &[u8]) -> bool
    ensures { result ≡ list_any (λ k. bytes_eq k key_id.now) key_ids.now }
{
    key_ids.iter().any(|other| other.is(key_id))
}
