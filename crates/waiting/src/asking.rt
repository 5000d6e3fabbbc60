//! A request for the pending certificates: it checks the remembered rows again, and reads certificates issued since.

ghost use Rattle.std.specs.Prelude.{◌≡◌, ◌≤◌, [], ◌∷◌, ◌++◌, ◌&&◌, IfOk, IfErr, OnOk, is_none, length, not, take};
ghost use Rattle.std.specs.Prelude.{if◌then◌else◌};
ghost use Rattle.office.specs.Faults.{HasRegisterCause};
ghost use Rattle.office.specs.History.{state};
ghost use Rattle.office.specs.Listing.{AreRevocations, is_named, waiting_rows};
ghost use Rattle.office.specs.Publication.{pending_of};
ghost use Rattle.office.specs.Registers.{AnswersBy, FailsAsARegister, FailsWithin, Preserves};
ghost use Rattle.waiting.specs.Knowing.{IsKept, Knows, serial_waits, still_waiting};

use crate::known::Known;
use office::{Issued, Pending, Registry, Revocations, StoreFault, place_behind};
use std::alloc::Global;
use text::NoMemory;

// Whether the certificate shown for a serial is pending, given these revocations.
fn lets_wait(revocations: &Revocations, serial: u64, issued: &Issued) -> bool
    ensures { result ≡ (is_none issued.now.certificate && not (is_named revocations.now serial issued.now.key_id)) }
{
    let is_revoked = revocations.names(serial, issued.key_id.as_slice());
    issued.certificate.is_none() && !is_revoked
}

/// Whether the certificate of a row is still pending, given these revocations.
fn waits_still<R: Registry>(
    register: &mut R,
    alloc: Global,
    revocations: &Revocations,
    serial: u64,
) -> Result<bool, StoreFault>
    ensures preserves { Preserves R.is_honest R.is_open R.is_as_before R.means register.old register.new }
    ensures row { R.is_honest register.new → AnswersBy R.means register.old result (λ o l is.
        AreRevocations revocations.now (state o l) → is ≡ serial_waits (state o l) serial) }
    ensures cause { IfErr result (λ e. HasRegisterCause e (R.fails register.old register.new)) }
    ensures only { R.is_honest register.new → FailsAsARegister R.means register.old result }
{
    match register.certificate(alloc, serial)? {
        Some(issued) => Ok(lets_wait(revocations, serial, &issued)),
        None => Ok(false),
    }
}

// Appends a row if its certificate is pending.
fn push_if(rows: &mut Vec<Pending>, row: &Pending, waits: bool) -> Result<(), NoMemory>
    ensures { OnOk result (rows.new.items ≡ rows.old.items ++ (if waits then row.now ∷ [] else [])) }
{
    if waits {
        rows.push(*row)?;
    }
    Ok(())
}

// Appends a row if its certificate is still pending, given these revocations.
fn push_waiting<R: Registry>(
    register: &mut R,
    alloc: Global,
    revocations: &Revocations,
    rows: &mut Vec<Pending>,
    row: &Pending,
) -> Result<(), StoreFault>
    ensures preserves { Preserves R.is_honest R.is_open R.is_as_before R.means register.old register.new }
    ensures row { R.is_honest register.new → AnswersBy R.means register.old result (λ o l _.
        AreRevocations revocations.now (state o l) → rows.new.items ≡ rows.old.items
        ++ (if serial_waits (state o l) row.now.serial then row.now ∷ [] else [])) }
    ensures cause { IfErr result (λ e. HasRegisterCause e (R.fails register.old register.new)) }
    ensures only { R.is_honest register.new → FailsAsARegister R.means register.old result }
{
    let waits = waits_still(register, alloc, revocations, row.serial)?;
    push_if(rows, row, waits)?;
    Ok(())
}

/// The rows whose certificates are still pending, given these revocations.
fn still_waiting<R: Registry>(
    register: &mut R,
    alloc: Global,
    revocations: &Revocations,
    rows: &[Pending],
) -> Result<Vec<Pending>, StoreFault>
    ensures preserves { Preserves R.is_honest R.is_open R.is_as_before R.means register.old register.new }
    ensures row { R.is_honest register.new → AnswersBy R.means register.old result (λ o l kept.
        AreRevocations revocations.now (state o l) → kept.items ≡ still_waiting (state o l) rows.now) }
    ensures cause { R.is_honest register.new
        → IfErr result (λ e. HasRegisterCause e (FailsWithin R.means R.fails register.old register.new)) }
    ensures only { R.is_honest register.new → FailsAsARegister R.means register.old result }
{
    let mut kept = Vec::new(alloc);
    for row in rows {
        push_waiting(register, alloc, revocations, &mut kept, row)?;
    }
    Ok(kept)
}

/// What is known of all certificates, from what is known of those before a place and these revocations.
fn learned<R: Registry>(
    register: &mut R,
    alloc: Global,
    revocations: &Revocations,
    known: Known,
) -> Result<Known, StoreFault>
    ensures preserves { Preserves R.is_honest R.is_open R.is_as_before R.means register.old register.new }
    ensures stays_open { R.is_honest register.new → OnOk result (R.is_open register.new) }
    ensures row { R.is_honest register.new → AnswersBy R.means register.old result (λ o l all.
        known.seen ≤ length (state o l).certificates
        → known.rows.items ≡ waiting_rows revocations.now (take known.seen (state o l).certificates)
        → (all.seen ≡ length (state o l).certificates)
        × (all.rows.items ≡ waiting_rows revocations.now (state o l).certificates)) }
    ensures cause { R.is_honest register.new
        → IfErr result (λ e. HasRegisterCause e (FailsWithin R.means R.fails register.old register.new)) }
    ensures only { R.is_honest register.new → FailsAsARegister R.means register.old result }
{
    let mut rows = known.rows;
    let mut place = known.seen;
    'batches: loop {
        let batch = register.certificates(alloc, place)?;
        revocations.push_waiting(&mut rows, &batch)?;
        let next = place_behind(place, &batch)?;
        if next == place {
            return Ok(Known { seen: place, rows });
        }
        place = next;
    }
}

// The revocations: the remembered ones or, if there are none, those of the register.
fn revocations_by<R: Registry>(
    register: &mut R,
    alloc: Global,
    kept: Option<Revocations>,
) -> Result<Revocations, StoreFault>
    ensures preserves { Preserves R.is_honest R.is_open R.is_as_before R.means register.old register.new }
    ensures row { R.is_honest register.new → AnswersBy R.means register.old result (λ o l r.
        IsKept kept (state o l) → AreRevocations r (state o l)) }
    ensures cause { IfErr result (λ e. HasRegisterCause e (R.fails register.old register.new)) }
    ensures only { R.is_honest register.new → FailsAsARegister R.means register.old result }
{
    match kept {
        Some(revocations) => Ok(revocations),
        None => register.revocations(alloc),
    }
}

/// What is known afterwards, and the revocations: the rows are those of the pending certificates. The revocations are
/// read only if none are remembered.
pub(crate) fn asked<R: Registry>(
    register: &mut R,
    alloc: Global,
    known: Known,
    kept: Option<Revocations>,
) -> Result<(Known, Revocations), StoreFault>
    ensures preserves { Preserves R.is_honest R.is_open R.is_as_before R.means register.old register.new }
    ensures stays_open { R.is_honest register.new → OnOk result (R.is_open register.new) }
    ensures row { R.is_honest register.new → AnswersBy R.means register.old result (λ o l all.
        Knows known.seen known.rows.items (state o l) → IsKept kept (state o l)
        → Knows all.0.seen all.0.rows.items (state o l) × (all.0.rows.items ≡ pending_of (state o l))
        × AreRevocations all.1 (state o l)) }
    ensures cause { R.is_honest register.new
        → IfErr result (λ e. HasRegisterCause e (FailsWithin R.means R.fails register.old register.new)) }
    ensures only { R.is_honest register.new → FailsAsARegister R.means register.old result }
{
    let revocations = revocations_by(register, alloc, kept)?;
    let rows = still_waiting(register, alloc, &revocations, known.rows.as_slice())?;
    let known = Known {
        seen: known.seen,
        rows,
    };
    let known = learned(register, alloc, &revocations, known)?;
    Ok((known, revocations))
}
