//! The contents of the published KRL.

ghost use Rattle.std.specs.Prelude.{◌≡◌, IfOk};
ghost use Rattle.std.specs.List.Sorted.{IsNonDecreasing};
ghost use Rattle.office.specs.Publication.{AreRevoked};
ghost use Rattle.office.specs.Parts.{numbers};
ghost use Rattle.store.specs.Parts.{AreOrdered, AreShown, IsMadeOf, are_ordered};
ghost use Rattle.store.specs.Showing.{ReadsOffice};

use crate::answer::made;
use crate::listing::read_revocations;
use crate::rows::{read_cas, read_office};
use krl::KrlHead;
use office::{Ca, Revocations, Revoked, parts_of};
use sqlite::{Alter, Connection};
use std::alloc::Global;
use store_sql::Fault;
use text::{NoMemory, Texts};

fn are_ordered(cas: &[Ca]) -> bool
    ensures { result ≡ are_ordered 0 cas.now }
{
    let mut last = 0;
    for ca in cas {
        if ca.since < last {
            return false;
        }
        last = ca.since;
    }
    true
}

fn ordered(cas: Vec<Ca>) -> Result<Vec<Ca>, Fault>
    ensures { AreOrdered cas result }
{
    if are_ordered(cas.as_slice()) {
        Ok(cas)
    } else {
        Err(Fault::Damaged)
    }
}

/// The CAs by number, checked: none serves from an earlier serial than the one before it.
fn read_serving_cas<S: Alter>(alloc: Global, conn: &mut Connection<S>) -> Result<Vec<Ca>, Fault>
    ensures reads { ReadsOffice S.Store (λ s kept cas. cas.items ≡ s.cas) conn.old conn.new result }
    ensures ordered { IfOk result (λ cas. IsNonDecreasing (numbers cas.items)) }
{
    let cas = read_cas(alloc, conn)?;
    ordered(cas)
}

fn revoked_of(
    alloc: Global,
    head: KrlHead,
    cas: &[Ca],
    revocations: Revocations,
) -> Result<Revoked, NoMemory>
    requires { IsNonDecreasing (numbers cas.now) }
    ensures { IfOk result (λ revoked. IsMadeOf revoked head cas.now revocations) }
{
    let Revocations { serials, key_ids } = revocations;
    Ok(Revoked {
        head,
        parts: parts_of(alloc, cas, &serials)?,
        key_ids: Texts::from_vec(key_ids),
    })
}

fn revoked_under<S: Alter>(
    alloc: Global,
    conn: &mut Connection<S>,
    head: KrlHead,
    cas: &[Ca],
) -> Result<Revoked, Fault>
    requires { IsNonDecreasing (numbers cas.now) }
    ensures { ReadsOffice S.Store (λ s kept revoked. AreShown revoked head cas.now s) conn.old conn.new result }
{
    let revocations = read_revocations(alloc, conn)?;
    made(revoked_of(alloc, head, cas, revocations))
}

fn revoked_with<S: Alter>(
    alloc: Global,
    conn: &mut Connection<S>,
    head: KrlHead,
) -> Result<Revoked, Fault>
    ensures { ReadsOffice S.Store (λ s kept revoked. AreShown revoked head s.cas s) conn.old conn.new result }
{
    let cas = read_serving_cas(alloc, conn)?;
    revoked_under(alloc, conn, head, cas.as_slice())
}

/// The contents of the published KRL.
pub(crate) fn read_revoked<S: Alter>(
    alloc: Global,
    conn: &mut Connection<S>,
) -> Result<Revoked, Fault>
    ensures { ReadsOffice S.Store (λ s kept revoked. AreRevoked revoked s) conn.old conn.new result }
{
    let office = read_office(alloc, conn)?;
    revoked_with(
        alloc,
        conn,
        KrlHead {
            version: office.version,
            date: office.date,
        },
    )
}
