//! The answer to a received request, inside a transaction.
//!
//! Large values are dropped explicitly: if a function ends with one, its proof takes each field apart.

ghost use Rattle.std.specs.Prelude.{◌≡◌, ◌≤◌, IsTrue, Some, length};
ghost use Rattle.message.specs.Values.{is_message};
ghost use Rattle.office.specs.Decided.{IsLawfulChange};
ghost use Rattle.office.specs.Messages.{message_with_text};
ghost use Rattle.store.specs.Concerning.{AreLawful};
ghost use Rattle.store.specs.Arriving.{IsAccepted, IsAny, IsAsked, IsDecided, IsFound, IsNew, IsWeighed};
ghost use Rattle.store.specs.Arriving.{SettlesOn, SettlesOpen, stopped};

use crate::reads::{Concerned, concerned_rows, kept_for};
use crate::writes::write;
use message::{Message, MessageFault, read_message};
use office::{Arrival, Ca, Decision, Kept, MAX_REPLY, Outcome, Stop, decide};
use sqlite::{Alter, Connection};
use std::alloc::Global;
use store_sql::Fault;
use values::{LATEST_MOMENT, Refusal};

/// The last version of the published KRL.
const LAST_VERSION: u64 = 9223372036854775806;

/// Writes the decision on a received request.
fn accept<S: Alter>(
    alloc: Global,
    conn: &mut Connection<S>,
    arrival: &Arrival,
    decision: &Decision,
    cas: &[Ca],
) -> Result<Outcome, Fault>
    requires lawful { IsLawfulChange decision.now.change }
    requires short { length decision.now.reply ≤ 99 }
    requires nonce { length arrival.now.nonce ≡ 32 }
    ensures { SettlesOn S.Store arrival.now (IsAccepted arrival.now decision.now cas.now) conn.old conn.new result }
{
    let reply = decision.reply.copied(alloc)?;
    write(alloc, conn, arrival, decision, cas)?;
    Ok(Outcome::Accepted(reply))
}

/// Writes the decision. A version above the last one, and a reply that is longer than any of an office, count as a
/// refused allocation.
fn accept_version<S: Alter>(
    alloc: Global,
    conn: &mut Connection<S>,
    arrival: &Arrival,
    decision: &Decision,
    cas: &[Ca],
) -> Result<Outcome, Fault>
    requires lawful { IsLawfulChange decision.now.change }
    requires nonce { length arrival.now.nonce ≡ 32 }
    ensures { SettlesOn S.Store arrival.now (IsDecided arrival.now decision.now cas.now) conn.old conn.new result }
{
    if LAST_VERSION < decision.version {
        return Err(Fault::NoMemory);
    }
    let reply = decision.reply.as_slice();
    if MAX_REPLY < reply.len() {
        return Err(Fault::NoMemory);
    }
    accept(alloc, conn, arrival, decision, cas)
}

fn stopped(stop: Stop) -> Result<Outcome, Fault>
    ensures { result ≡ stopped stop }
{
    match stop {
        Stop::Refused(refusal) => Ok(Outcome::Refused(refusal)),
        Stop::NoMemory => Err(Fault::NoMemory),
    }
}

/// Decides from the rows that a message concerns. A version above the last one counts as a refused allocation.
fn weigh<S: Alter>(
    alloc: Global,
    conn: &mut Connection<S>,
    arrival: &Arrival,
    message: &Message,
    rows: &Concerned,
) -> Result<Outcome, Fault>
    requires message { IsTrue (is_message message.now) }
    requires rows { AreLawful rows.now }
    requires nonce { length arrival.now.nonce ≡ 32 }
    ensures { SettlesOpen S.Store arrival.now (IsWeighed arrival.now message.now rows.now) conn.old conn.new result }
{
    let view = rows.view();
    if LAST_VERSION < view.version {
        return Err(Fault::NoMemory);
    }
    match decide(
        alloc,
        &view,
        arrival.caller.as_slice(),
        message,
        arrival.moment,
        &arrival.nonce,
    ) {
        Ok(decision) => {
            let outcome = accept_version(alloc, conn, arrival, &decision, view.cas);
            drop(decision);
            outcome
        }
        Err(stop) => stopped(stop),
    }
}

/// Reads the rows that a message concerns, and decides.
fn consider<S: Alter>(
    alloc: Global,
    conn: &mut Connection<S>,
    arrival: &Arrival,
    message: &Message,
) -> Result<Outcome, Fault>
    requires message { IsTrue (is_message message.now) }
    requires nonce { length arrival.now.nonce ≡ 32 }
    ensures { SettlesOn S.Store arrival.now (IsNew arrival.now message.now) conn.old conn.new result }
{
    let rows = concerned_rows(alloc, conn, message)?;
    let outcome = weigh(alloc, conn, arrival, message, &rows);
    drop(rows);
    outcome
}

/// Refuses a message that comes too late or under a used request ID, and considers any other.
fn admit<S: Alter>(
    alloc: Global,
    conn: &mut Connection<S>,
    arrival: &Arrival,
    message: &Message,
    is_known: bool,
) -> Result<Outcome, Fault>
    requires message { IsTrue (is_message message.now) }
    requires read { message_with_text arrival.now.bytes ≡ Some message.now }
    requires nonce { length arrival.now.nonce ≡ 32 }
    ensures { SettlesOpen S.Store arrival.now (IsAsked arrival.now is_known) conn.old conn.new result }
{
    if LATEST_MOMENT < arrival.moment {
        return Ok(Outcome::Refused(Refusal::BadMoment));
    }
    if is_known {
        return Ok(Outcome::Refused(Refusal::KeyReused));
    }
    consider(alloc, conn, arrival, message)
}

/// Reads the message of a received request that isn't a repeat.
fn judge<S: Alter>(
    alloc: Global,
    conn: &mut Connection<S>,
    arrival: &Arrival,
    is_known: bool,
) -> Result<Outcome, Fault>
    requires { length arrival.now.nonce ≡ 32 }
    ensures { SettlesOpen S.Store arrival.now (IsAsked arrival.now is_known) conn.old conn.new result }
{
    match read_message(alloc, arrival.bytes.as_slice()) {
        Ok(message) => {
            let outcome = admit(alloc, conn, arrival, &message, is_known);
            drop(message);
            outcome
        }
        Err(MessageFault::BadLine(_)) => Ok(Outcome::Refused(Refusal::BadMessage)),
        Err(MessageFault::NoMemory) => Err(Fault::NoMemory),
    }
}

/// Answers with the stored reply if the message is the same, and otherwise judges the message.
fn settle_beside<S: Alter>(
    alloc: Global,
    conn: &mut Connection<S>,
    arrival: &Arrival,
    found: Option<Kept>,
) -> Result<Outcome, Fault>
    requires { length arrival.now.nonce ≡ 32 }
    ensures { SettlesOpen S.Store arrival.now (IsFound arrival.now found) conn.old conn.new result }
{
    let Some(kept) = found else {
        return judge(alloc, conn, arrival, false);
    };
    if kept.bytes.is(arrival.bytes.as_slice()) {
        return Ok(Outcome::Repeated(kept.reply));
    }
    judge(alloc, conn, arrival, true)
}

/// Answers a received request as specified, and stores it if it is accepted now.
pub(crate) fn settle<S: Alter>(
    alloc: Global,
    conn: &mut Connection<S>,
    arrival: &Arrival,
) -> Result<Outcome, Fault>
    requires { length arrival.now.nonce ≡ 32 }
    ensures { SettlesOn S.Store arrival.now IsAny conn.old conn.new result }
{
    let found = kept_for(
        alloc,
        conn,
        arrival.caller.as_slice(),
        arrival.key.as_slice(),
    )?;
    settle_beside(alloc, conn, arrival, found)
}
