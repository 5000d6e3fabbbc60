//! The table's lines, in batches: at most one batch of certificates is held in memory.

ghost use Rattle.std.specs.Prelude.{◌≡◌, ◌≤◌, ◌++◌, List, IfOk, OnOk, IfErr};
ghost use Rattle.std.specs.List.{flat_map};
ghost use Rattle.office.specs.declared.certificate.Certificate.{Certificate};
ghost use Rattle.office.specs.Listing.{batch_of};
ghost use Rattle.office.specs.History.{state};
ghost use Rattle.office.specs.Faults.{HasRegisterCause};
ghost use Rattle.office.specs.Registers.{AnswersBy, FailsAsARegister, Preserves};
ghost use Rattle.web.specs.Batches.{Says, line_among, line_as};
ghost use Rattle.web.specs.Causes.{FailsAfter};

use crate::report::put_entry;
use office::{Certificate, Registry, Revocations, StoreFault, place_behind};
use std::alloc::Global;
use text::NoMemory;

fn put_line(
    out: &mut Vec<u8>,
    alloc: Global,
    certificate: &Certificate,
    is_revoked: bool,
) -> Result<(), NoMemory>
    ensures { OnOk result (out.new.items ≡ out.old.items ++ line_as is_revoked certificate.now) }
{
    put_entry(out, &certificate.entry(alloc, is_revoked)?)
}

fn put_lines(
    out: &mut Vec<u8>,
    alloc: Global,
    revocations: &Revocations,
    certificates: &[Certificate],
) -> Result<(), NoMemory>
    ensures { OnOk result (out.new.items ≡ out.old.items ++ flat_map (line_among revocations.now) certificates.now) }
{
    for certificate in certificates {
        let is_revoked = revocations.has(certificate);
        put_line(out, alloc, certificate, is_revoked)?;
    }
    Ok(())
}

/// Appends the lines of a batch, and returns the place after it, which is the batch's own place if it is empty.
fn put_batch<R: Registry>(
    registry: &mut R,
    alloc: Global,
    revocations: &Revocations,
    place: u64,
    out: &mut Vec<u8>,
) -> Result<u64, StoreFault>
    ensures ahead { IfOk result (λ next. place ≤ next) }
    ensures preserves { Preserves R.is_honest R.is_open R.is_as_before R.means registry.old registry.new }
    ensures stays_open { R.is_honest registry.new → OnOk result (R.is_open registry.new) }
    ensures row { R.is_honest registry.new → AnswersBy R.means registry.old result (λ o l next.
        Says revocations.now (batch_of (state o l) place) place next out.old.items out.new.items) }
    ensures form { IfOk result (λ next. (cs : List Certificate)
        × Says revocations.now cs place next out.old.items out.new.items) }
    ensures cause { IfErr result (λ e. HasRegisterCause e (R.fails registry.old registry.new)) }
    ensures only { R.is_honest registry.new → FailsAsARegister R.means registry.old result }
{
    let batch = registry.certificates(alloc, place)?;
    put_lines(out, alloc, revocations, &batch)?;
    Ok(place_behind(place, &batch)?)
}

/// Appends the lines of all certificates, and returns the number of certificates.
pub(crate) fn put_all<R: Registry>(
    registry: &mut R,
    alloc: Global,
    revocations: &Revocations,
    out: &mut Vec<u8>,
) -> Result<u64, StoreFault>
    ensures preserves { Preserves R.is_honest R.is_open R.is_as_before R.means registry.old registry.new }
    ensures stays_open { R.is_honest registry.new → OnOk result (R.is_open registry.new) }
    ensures row { R.is_honest registry.new → AnswersBy R.means registry.old result (λ o l count.
        Says revocations.now (state o l).certificates 0 count out.old.items out.new.items) }
    ensures form { IfOk result (λ count. (cs : List Certificate)
        × Says revocations.now cs 0 count out.old.items out.new.items) }
    ensures cause { R.is_honest registry.new → IfErr result (λ e. HasRegisterCause e
        (FailsAfter R.is_open R.is_as_before R.means R.fails registry.old registry.new)) }
    ensures only { R.is_honest registry.new → FailsAsARegister R.means registry.old result }
{
    let mut place = 0;
    'batches: loop {
        let next = put_batch(registry, alloc, revocations, place, out)?;
        if next == place {
            return Ok(place);
        }
        place = next;
    }
}
