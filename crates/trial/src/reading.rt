//! Reading the exchanges of a file.

ghost use Rattle.std.specs.Prelude.{◌≡◌, ℕ, Err, IfErr, IfOk, IfSome, take};
ghost use Rattle.exchanges.specs.Exchanges.{AreExchanges, IsBadRecord, TellsOf, exchanges_text};
ghost use Rattle.trial.specs.Faults.{IsOfAFile, IsOfExchanges};

use crate::trial_fault::TrialFault;
use exchanges::{MAX_FILE, read_exchanges};
use std::alloc::Global;
use std::io::Read;
use web::Exchange;

// The first bytes from a reader: `most` of them, or fewer if it ends before.
fn read_first<R: Read + Drop>(alloc: Global, reader: R, most: u64) -> Result<Vec<u8>, TrialFault>
    ensures first { IfOk result (λ v. IfSome (R.remaining reader) (λ bytes. v.items ≡ take most bytes)) }
    ensures only { IfErr result IsOfAFile }
{
    let mut bytes = Vec::new(alloc);
    match reader.take(most).read_to_end(&mut bytes) {
        Ok(_) => Ok(bytes),
        Err(error) => Err(TrialFault::of_file(error.kind())),
    }
}

// The bytes of an exchange file, or a prefix of a longer file in which the first bad record is certain.
fn read_bytes<R: Read + Drop>(alloc: Global, reader: R) -> Result<Vec<u8>, TrialFault>
    ensures tells { IfOk result (λ v. IfSome (R.remaining reader) (λ file. TellsOf file v.items)) }
    ensures only { IfErr result IsOfAFile }
{
    read_first(alloc, reader, MAX_FILE as u64 + 1)
}

/// The exchanges of a file.
#[tactic(auto, using(crate::proofs::Causes::of_a_file, crate::proofs::Causes::of_a_record))]
pub(crate) fn read_exchanges_from<R: Read + Drop>(
    alloc: Global,
    reader: R,
) -> Result<Vec<Exchange>, TrialFault>
    ensures found { IfOk result (λ es. IfSome (R.remaining reader) (λ file. AreExchanges es.items
        × (file ≡ exchanges_text es.items))) }
    ensures bad { (k : ℕ) → result ≡ Err (TrialFault.BadExchange k)
        → IfSome (R.remaining reader) (λ file. IsBadRecord file k) }
    ensures only { IfErr result IsOfExchanges }
{
    let bytes = read_bytes(alloc, reader)?;
    match read_exchanges(alloc, bytes.as_slice()) {
        Ok(exchanges) => Ok(exchanges),
        Err(fault) => Err(TrialFault::from(fault)),
    }
}
