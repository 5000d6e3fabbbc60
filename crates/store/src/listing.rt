//! Data for reports: the revoked serials and key IDs, and certificates in batches.

ghost use Rattle.std.specs.Prelude.{◌≡◌, ◌+◌, min};
ghost use Rattle.store.specs.ShowingRows.{AreWithin};
ghost use Rattle.office.specs.Listing.{AreRevocations, batch_of};
ghost use Rattle.store.specs.Batches.{numbered};
ghost use Rattle.store.specs.Showing.{ReadsOffice};

use crate::reads::revoked_runs;
use crate::rows::{number, read_certificates, read_key_ids, read_office};
use krl::Runs;
use office::{Certificate, Revocations};
use sqlite::{Alter, Connection};
use std::alloc::Global;
use store_sql::{Fault, Number};

fn with_key_ids<S: Alter>(
    alloc: Global,
    conn: &mut Connection<S>,
    serials: Runs,
) -> Result<Revocations, Fault>
    ensures { ReadsOffice S.Store (λ s kept r. (r.serials ≡ serials) × (r.key_ids.items ≡ s.revoked_key_ids))
        conn.old conn.new result }
{
    let key_ids = read_key_ids(alloc, conn)?;
    Ok(Revocations { serials, key_ids })
}

/// The revoked serials and key IDs.
pub(crate) fn read_revocations<S: Alter>(
    alloc: Global,
    conn: &mut Connection<S>,
) -> Result<Revocations, Fault>
    ensures { ReadsOffice S.Store (λ s kept r. AreRevocations r s) conn.old conn.new result }
{
    let serials = revoked_runs(alloc, conn)?;
    with_key_ids(alloc, conn, serials)
}

/// The number, limited to the greatest number that a column can hold.
fn column_number(value: u64) -> Number
    ensures { result ≡ min value 9223372036854775807 }
{
    number(value.min(9223372036854775807))
}

fn batch_from<S: Alter>(
    alloc: Global,
    conn: &mut Connection<S>,
    first: u64,
    place: u64,
) -> Result<Vec<Certificate>, Fault>
    ensures { ReadsOffice S.Store (AreWithin (numbered first place) (numbered first (place + 999)))
        conn.old conn.new result }
{
    let lo = first.saturating_add(place);
    let hi = lo.saturating_add(999);
    read_certificates(alloc, conn, column_number(lo), column_number(hi))
}

/// Certificates by serial, from this place on, at most 1000. It reads only their rows.
pub(crate) fn read_batch<S: Alter>(
    alloc: Global,
    conn: &mut Connection<S>,
    place: u64,
) -> Result<Vec<Certificate>, Fault>
    ensures { ReadsOffice S.Store (λ s kept rows. rows.items ≡ batch_of s place) conn.old conn.new result }
{
    let office = read_office(alloc, conn)?;
    batch_from(alloc, conn, office.opening.first, place)
}
