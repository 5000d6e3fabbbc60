//! A single change of the tables.

ghost use Rattle.std.specs.Prelude.{◌∷◌, [], IsTrue};
ghost use Rattle.store_sql.specs.Calls.{Stays};
ghost use Rattle.store_sql.specs.Honest.{On, OnOpen, OutlivesBy};
ghost use Rattle.message.specs.Values.{is_department};
ghost use Rattle.office.specs.declared.view.Change.TheVariants as change;
ghost use Rattle.office.specs.Certificates.{IsCertificate};
ghost use Rattle.office.specs.Decided.{IsLawfulChange};
ghost use Rattle.store_sql.specs.Refusals.{RefusesCa, RefusesCert, RefusesDepartment};
ghost use Rattle.store.specs.Rows.{ca_row, cert_row, department_row};
ghost use Rattle.store.specs.Transactions.{Does, FailsFor, Has, Makes, Waits};
ghost use Rattle.store.specs.Changing.{with_change, with_key_id_row};
ghost use Rattle.store.specs.Refused.{RefusesChange};

use crate::rows::{department_row, number as row_number};
use crate::writes::new_rows::{ca_row, cert_row};
use crate::writes::ranges::put_range;
use message::Department;
use office::{Ca, Certificate, Change};
use sqlite::{Alter, Connection};
use std::alloc::Global;
use store_sql::{
    Fault, Number, find_revoked, insert_ca, insert_cert, insert_revoked, put_department,
    update_signature,
};
use text::Text;

fn change_department<S: Alter>(
    alloc: Global,
    conn: &mut Connection<S>,
    department: &Department,
) -> Result<(), Fault>
    requires { IsTrue (is_department department.now) }
    ensures { Does S.Store (with_change 0 0 (change.Department department.now))
        (RefusesDepartment (department_row department.now)) conn.old conn.new result }
{
    let row = department_row(alloc, department)?;
    put_department(conn, &row)
}

fn add_certificate<S: Alter>(
    alloc: Global,
    conn: &mut Connection<S>,
    certificate: &Certificate,
) -> Result<(), Fault>
    requires { IsCertificate certificate.now }
    ensures { Does S.Store (with_change 0 0 (change.Certificate certificate.now))
        (RefusesCert (cert_row certificate.now)) conn.old conn.new result }
{
    let row = cert_row(alloc, certificate)?;
    insert_cert(conn, &row)
}

fn add_key_id<S: Alter>(alloc: Global, conn: &mut Connection<S>, key_id: &Text) -> Result<(), Fault>
    ensures { Does S.Store (with_key_id_row key_id.now) (RefusesChange 0 0 (change.KeyId key_id.now))
        conn.old conn.new result }
{
    match find_revoked(alloc, conn, key_id.as_slice())? {
        None => insert_revoked(conn, key_id.as_slice()),
        Some(_) => Ok(()),
    }
}

fn add_ca<S: Alter>(
    alloc: Global,
    conn: &mut Connection<S>,
    number: Number,
    since: Number,
    ca: &Ca,
) -> Result<(), Fault>
    ensures { Does S.Store (with_change number since (change.Ca ca.now)) (RefusesCa (ca_row number since ca.now))
        conn.old conn.new result }
{
    let row = ca_row(alloc, number, since, ca)?;
    insert_ca(conn, &row)
}

/// Makes a change over an open connection. A new CA gets this number and serves from this serial on.
pub(crate) fn make<S: Alter>(
    alloc: Global,
    conn: &mut Connection<S>,
    number: Number,
    since: Number,
    change: &Change,
) -> Result<(), Fault>
    requires { IsLawfulChange change.now }
    ensures makes { OnOpen S.Store (Makes Has (with_change number since change.now)) conn.old conn.new result }
    ensures fault { On S.Store (FailsFor Has (RefusesChange number since change.now)) conn.old conn.new result }
    ensures stays { On S.Store Stays conn.old conn.new result }
    ensures survives { OutlivesBy S.Store (Waits Has) conn.old conn.new }
{
    match change {
        Change::Nothing => Ok(()),
        Change::Department(department) => change_department(alloc, conn, department),
        Change::Certificate(certificate) => add_certificate(alloc, conn, certificate),
        Change::Signature { serial, signature } => {
            update_signature(conn, row_number(*serial), &signature.bytes)
        }
        Change::Range(range) => put_range(alloc, conn, *range),
        Change::KeyId(key_id) => add_key_id(alloc, conn, key_id),
        Change::Ca(ca) => add_ca(alloc, conn, number, since, ca),
    }
}
