//! The certificate and the department that a message concerns.
//!
//! Large values are dropped explicitly: if a function ends with one, its proof takes each field apart.

ghost use Rattle.std.specs.Prelude.{◌≡◌, IfOk, IfSome, IsTrue, option_copied};
ghost use Rattle.message.specs.Values.{is_department};
ghost use Rattle.office.specs.Certificates.{IsCertificate};
ghost use Rattle.office.specs.Decided.{certificate_concerned};
ghost use Rattle.store.specs.ShowingRows.{AsksOpen};
ghost use Rattle.store.specs.Concerning.{IsDepartmentBeside, IsLawfulSubject, IsSubject};
ghost use Rattle.store.specs.Histories.{IsOfHistory};

use crate::reads::certificate_finder::find_certificate;
use crate::reads::departments::find_department;
use message::{Department, Message};
use office::{Certificate, concerned};
use sqlite::{Alter, Connection};
use std::alloc::Global;
use store_sql::Fault;

/// The certificate and the department that a message concerns, if they exist.
#[derive(Drop)]
pub(crate) struct Subject {
    pub(crate) certificate: Option<Certificate>,
    pub(crate) department: Option<Department>,
}

fn certificate_of<S: Alter>(
    alloc: Global,
    conn: &mut Connection<S>,
    message: &Message,
) -> Result<Option<Certificate>, Fault>
    ensures asks { AsksOpen S.Store (λ s kept found. IsOfHistory s kept → found ≡ certificate_concerned s message.now)
        conn.old conn.new result }
    ensures lawful { IfOk result (λ found. IfSome found IsCertificate) }
{
    match concerned(message).serial {
        Some(serial) => find_certificate(alloc, conn, serial),
        None => Ok(None),
    }
}

/// The department of the certificate, if the message concerns one, and otherwise the department that it names.
fn department_of<S: Alter>(
    alloc: Global,
    conn: &mut Connection<S>,
    message: &Message,
    certificate: Option<&Certificate>,
) -> Result<Option<Department>, Fault>
    ensures asks { AsksOpen S.Store (IsDepartmentBeside (option_copied certificate.entry) message.now)
        conn.old conn.new result }
    ensures lawful { IfOk result (λ found. IfSome found (λ d. IsTrue (is_department d))) }
{
    match (certificate, concerned(message).department) {
        (Some(certificate), _) => {
            find_department(alloc, conn, certificate.department.as_slice())
        }
        (None, Some(name)) => find_department(alloc, conn, name),
        (None, None) => Ok(None),
    }
}

/// The certificate and the department that a message concerns.
pub(crate) fn subject_of<S: Alter>(
    alloc: Global,
    conn: &mut Connection<S>,
    message: &Message,
) -> Result<Subject, Fault>
    ensures asks { AsksOpen S.Store (λ s kept subject. IsOfHistory s kept → IsSubject subject s message.now)
        conn.old conn.new result }
    ensures lawful { IfOk result IsLawfulSubject }
{
    let certificate = certificate_of(alloc, conn, message)?;
    match department_of(alloc, conn, message, certificate.as_ref()) {
        Ok(department) => Ok(Subject {
            certificate,
            department,
        }),
        Err(fault) => {
            drop(certificate);
            Err(fault)
        }
    }
}
