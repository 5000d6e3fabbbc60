//! Which of the serials and key IDs that a message concerns are revoked.

ghost use Rattle.std.specs.Prelude.{IsTrue, option_copied};
ghost use Rattle.message.specs.Values.{is_message};
ghost use Rattle.office.specs.Decided.{SaysAnyKeyIdRevoked, SaysRevoked};
ghost use Rattle.store.specs.Concerning.{AreMarksOf, SaysKeyIdBeside};
ghost use Rattle.store.specs.ShowingRows.{AsksOpen};
ghost use Rattle.store.specs.Histories.{IsOfHistory};

use crate::reads::key_ids::{has_revoked_key_ids, is_key_id_revoked};
use crate::reads::runs::are_revoked;
use message::Message;
use office::{Certificate, concerned};
use sqlite::{Alter, Connection};
use std::alloc::Global;
use store_sql::Fault;

/// Which of the serials and key IDs that a message concerns are revoked.
#[derive(Clone, Copy)]
pub(crate) struct Marks {
    /// Whether the serial, or every serial of the range, is revoked.
    pub(crate) is_revoked: bool,
    /// Whether the key ID, or that of the certificate, is revoked.
    pub(crate) is_key_id_revoked: bool,
    /// Whether any key ID at all is revoked, if the message depends on that.
    pub(crate) has_revoked_key_ids: bool,
}

fn is_revoked<S: Alter>(
    alloc: Global,
    conn: &mut Connection<S>,
    message: &Message,
) -> Result<bool, Fault>
    requires { IsTrue (is_message message.now) }
    ensures { AsksOpen S.Store (λ s kept is. IsOfHistory s kept → SaysRevoked is s message.now)
        conn.old conn.new result }
{
    let concern = concerned(message);
    match (concern.serial, concern.range) {
        (Some(serial), _) => are_revoked(alloc, conn, serial, serial),
        (None, Some(range)) => are_revoked(alloc, conn, range.lo, range.hi),
        (None, None) => Ok(false),
    }
}

fn is_concerned_key_id_revoked<S: Alter>(
    alloc: Global,
    conn: &mut Connection<S>,
    message: &Message,
    certificate: Option<&Certificate>,
) -> Result<bool, Fault>
    ensures { AsksOpen S.Store (SaysKeyIdBeside (option_copied certificate.entry) message.now)
        conn.old conn.new result }
{
    match (certificate, concerned(message).key_id) {
        (Some(certificate), _) => {
            is_key_id_revoked(alloc, conn, certificate.fields.key_id.as_slice())
        }
        (None, Some(key_id)) => is_key_id_revoked(alloc, conn, key_id),
        (None, None) => Ok(false),
    }
}

fn is_any_key_id_revoked<S: Alter>(
    alloc: Global,
    conn: &mut Connection<S>,
    message: &Message,
) -> Result<bool, Fault>
    ensures { AsksOpen S.Store (λ s kept is. SaysAnyKeyIdRevoked is s message.now) conn.old conn.new result }
{
    match message {
        Message::Rollover(_) => has_revoked_key_ids(alloc, conn),
        _ => Ok(false),
    }
}

/// Which of the serials and key IDs that a message concerns are revoked, if it concerns this certificate.
pub(crate) fn marks_of<S: Alter>(
    alloc: Global,
    conn: &mut Connection<S>,
    message: &Message,
    certificate: Option<&Certificate>,
) -> Result<Marks, Fault>
    requires { IsTrue (is_message message.now) }
    ensures { AsksOpen S.Store (AreMarksOf (option_copied certificate.entry) message.now) conn.old conn.new result }
{
    let is_revoked = is_revoked(alloc, conn, message)?;
    let is_key_id_revoked = is_concerned_key_id_revoked(alloc, conn, message, certificate)?;
    let has_revoked_key_ids = is_any_key_id_revoked(alloc, conn, message)?;
    Ok(Marks {
        is_revoked,
        is_key_id_revoked,
        has_revoked_key_ids,
    })
}
