//! Certificates by serial.

ghost use Rattle.std.specs.Prelude.{◌≡◌};
ghost use Rattle.std.specs.Option.{option_copied};
ghost use Rattle.office.specs.Machine.{certificate_of, signed_at};
ghost use Rattle.memory_store.specs.Contents.{state_of};

use crate::store::PlainStore;
use lines::Signature;
use office::Certificate;

impl PlainStore {
    /// The certificate of a serial.
    pub(crate) fn issued(&self, serial: u64) -> Option<&Certificate>
        ensures { option_copied result ≡ certificate_of (state_of self.now) serial }
    {
        if serial < self.opening.first {
            return None;
        }
        self.certificates
            .get((serial - self.opening.first) as usize)
    }
}

/// Stores the signature of the certificate at the place, if there is one.
pub(crate) fn sign(certificates: &mut Vec<Certificate>, place: usize, signature: Signature)
    ensures { certificates.new.items ≡ signed_at certificates.old.items place signature }
{
    if place < certificates.len() {
        certificates[place].signature = Some(signature);
    }
}
