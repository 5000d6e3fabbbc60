//! The rows that a message concerns, read together.
//!
//! Large values are dropped explicitly: if a function ends with one, its proof takes each field apart.

ghost use Rattle.std.specs.Prelude.{◌<◌, ◌≤◌, IfOk, IsTrue};
ghost use Rattle.message.specs.declared.kinds.Message.{Message};
ghost use Rattle.message.specs.Values.{is_message};
ghost use Rattle.office.specs.Decided.{Agrees};
ghost use Rattle.office.specs.State.{State};
ghost use Rattle.office.specs.Views.{IsView};
ghost use Rattle.store.specs.Offices.{IsLawfulOffice};
ghost use Rattle.store.specs.ShowingRows.{AsksOpen, AsksRows};
ghost use Rattle.store.specs.Concerning.{AreConcerned, AreConcernedAt, AreConcernedBeside, AreConcernedUnder};
ghost use Rattle.store.specs.Concerning.{AreLawful, IsLawfulSubject};
ghost use Rattle.store.specs.Histories.{IsOfHistory};

use crate::reads::marks::{Marks, marks_of};
use crate::reads::subject::{Subject, subject_of};
use crate::rows::{Office, read_cas, read_office};
use message::Message;
use office::{Ca, View};
use sqlite::{Alter, Connection};
use std::alloc::Global;
use store_sql::Fault;

/// The rows that a message concerns, and the office's own row.
#[derive(Drop)]
pub struct Concerned {
    office: Office,
    cas: Vec<Ca>,
    subject: Subject,
    marks: Marks,
}

impl Concerned {
    /// The view of them from which a decision is made.
    pub fn view(&self) -> View<'_>
        ensures agrees { (s : State) (m : Message) → AreConcerned self.now s m → Agrees result s m }
        ensures lawful { AreLawful self.now → result.version < 9223372036854775807 → IsView result }
    {
        View {
            opening: &self.office.opening,
            next: self.office.next,
            version: self.office.version,
            date: self.office.date,
            cas: self.cas.as_slice(),
            department: self.subject.department.as_ref(),
            certificate: self.subject.certificate.as_ref(),
            is_revoked: self.marks.is_revoked,
            is_key_id_revoked: self.marks.is_key_id_revoked,
            has_revoked_key_ids: self.marks.has_revoked_key_ids,
        }
    }
}

fn with_subject<S: Alter>(
    alloc: Global,
    conn: &mut Connection<S>,
    message: &Message,
    office: Office,
    cas: Vec<Ca>,
    subject: Subject,
) -> Result<Concerned, Fault>
    requires message { IsTrue (is_message message.now) }
    requires office { IsLawfulOffice office }
    requires subject { IsLawfulSubject subject }
    ensures asks { AsksOpen S.Store (AreConcernedBeside office cas.items subject message.now) conn.old conn.new result }
    ensures lawful { IfOk result AreLawful }
{
    match marks_of(alloc, conn, message, subject.certificate.as_ref()) {
        Ok(marks) => Ok(Concerned {
            office,
            cas,
            subject,
            marks,
        }),
        Err(fault) => {
            drop(office);
            drop(cas);
            drop(subject);
            Err(fault)
        }
    }
}

fn with_cas<S: Alter>(
    alloc: Global,
    conn: &mut Connection<S>,
    message: &Message,
    office: Office,
    cas: Vec<Ca>,
) -> Result<Concerned, Fault>
    requires message { IsTrue (is_message message.now) }
    requires office { IsLawfulOffice office }
    ensures asks { AsksOpen S.Store (AreConcernedUnder office cas.items message.now) conn.old conn.new result }
    ensures lawful { IfOk result AreLawful }
{
    match subject_of(alloc, conn, message) {
        Ok(subject) => with_subject(alloc, conn, message, office, cas, subject),
        Err(fault) => {
            drop(office);
            drop(cas);
            Err(fault)
        }
    }
}

fn with_office<S: Alter>(
    alloc: Global,
    conn: &mut Connection<S>,
    message: &Message,
    office: Office,
) -> Result<Concerned, Fault>
    requires message { IsTrue (is_message message.now) }
    requires office { IsLawfulOffice office }
    ensures asks { AsksRows S.Store (AreConcernedAt office message.now) conn.old conn.new result }
    ensures lawful { IfOk result AreLawful }
{
    match read_cas(alloc, conn) {
        Ok(cas) => with_cas(alloc, conn, message, office, cas),
        Err(fault) => {
            drop(office);
            Err(fault)
        }
    }
}

/// The rows that a valid message concerns: the office's own row, the CAs, the certificate and the department, and which
/// of their serials and key IDs are revoked. A row without a valid value is `Damaged`.
pub fn concerned_rows<S: Alter>(
    alloc: Global,
    conn: &mut Connection<S>,
    message: &Message,
) -> Result<Concerned, Fault>
    requires { IsTrue (is_message message.now) }
    ensures asks { AsksRows S.Store (λ s kept rows. IsOfHistory s kept → AreConcerned rows s message.now)
        conn.old conn.new result }
    ensures lawful { IfOk result AreLawful }
{
    let office = read_office(alloc, conn)?;
    with_office(alloc, conn, message, office)
}
