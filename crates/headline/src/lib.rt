//! The office over its tables: the promises for each of its answers, in terms of the reference model.
//!
//! Tables represent an initial configuration and a history if they hold the rows of the reference model that began with
//! this configuration and got the history's arrivals. They durably represent it if their connection is also open: a
//! crash then leaves these rows and nothing else. Tables that have answered are open, so every answered request is
//! preserved. If a failed disk has shut the connection, tables represent a history if a crash leaves its rows, or those
//! with one more arrival. A request that is refused for its bytes alone doesn't use the tables.
//!
//! The clauses assume that the disk has returned what was written to it until the call ends.
#![tactic(auto)]

mod publish_fault;

ghost use Rattle.std.specs.Prelude.{◌≡◌, ◌≢◌, ◌⊎◌, ◌<◌, ◌+◌, ℕ, List, length, Err, IfErr, IfOk, IsTrue, OnErr, OnOk};
ghost use Rattle.std.specs.Prelude.{if◌then◌else◌};
ghost use Rattle.std.specs.Io.KnownBytes.{Appends};
ghost use Rattle.krl.specs.Published.{fits, published_text};
ghost use Rattle.sqlite.specs.Held.{state};
ghost use Rattle.sqlite.specs.State.{HasCleanDisk};
ghost use Rattle.store_sql.specs.Honest.{Between, On, StaysClean};
ghost use Rattle.office.specs.declared.opening.Opening.{Opening};
ghost use Rattle.office.specs.declared.arrival.Arrival.{Arrival};
ghost use Rattle.office.specs.Faults.{HasRegisterCause};
ghost use Rattle.store.specs.Meaning.{RegisterHasFailed, KeepsTelling, StoresWhereOpen};
ghost use Rattle.web.specs.Answers.{AsksNoChange, IsRefusal};
ghost use Rattle.web.specs.Causes.{AsksPlainGet, IsOfAList};
ghost use Rattle.web.specs.Forms.{HasForm};
ghost use Rattle.web.specs.Runs.{AskNoChange};
ghost use Rattle.office_laws.specs.Counting.{CountsUp};
ghost use Rattle.wire.specs.Streams.{AppendsBeginning};
ghost use Rattle.exchanges.specs.Running.{is_unprinted};
ghost use Rattle.headline.specs.Headline.{AnswersDue, AnswersList, BodiesNameTheirSigners, BodiesStay};
ghost use Rattle.headline.specs.Headline.{EqualVersionsAreEqualLists, FailsAsRegister, IsAsBeforeWhereOpen};
ghost use Rattle.headline.specs.Headline.{KeepsTellingOnErr, ListsForgetNothing, OfStore, OfficeStops, PrintsDue};
ghost use Rattle.headline.specs.Headline.{PrintsPart, PrintsWithFaults, PublishFailsAsRegister, StoresWhereFound};
ghost use Rattle.headline.specs.Headline.{WritesList, WritesPart, has_writer_failed};

pub use exchanges::RunFault;
use exchanges::apply_exchanges;
use krl_writer::{krl_len, write_krl};
use office::{MOST_CAS, Registry, Revoked, StoreFault};
pub use publish_fault::PublishFault;
use sqlite::Alter;
use std::alloc::Global;
use store::{Store, what_is_open_is_stored};
use web::{Exchange, answer};
use wire::Sink;

/// Runs exchanges in order over the tables of an office, whatever was lost, repeated or reordered on the way. What each
/// one got is printed, in full even if some got a fault.
pub fn replay<S: Alter, W: Sink>(
    store: &mut Store<S>,
    alloc: Global,
    exchanges: &[Exchange],
    out: &mut W,
) -> Result<(), RunFault>
    requires { W.failed out.old < u64.MAX }

    // Each exchange gets the response of the reference model after the first acceptances among the earlier arrivals
    // that had no fault; the response to a GET of the list is the exact list. The tables then represent the history
    // with all arrivals. If an exchange used the tables, they are open and durably represent that history. Whatever the
    // tables mean, there is a response for each exchange, of the form that its request asks for, and the database is
    // unchanged while the connection is open if each message was refused or got a fault.
    ensures ok { On S.Store (PrintsDue exchanges.now (W.taken out.old) (W.taken out.new))
        store.old.conn store.new.conn result }

    // The same, but some exchanges get a fault and are not part of the history. The tables durably represent it if they
    // have answered since the last fault.
    ensures fault { On S.Store (PrintsWithFaults exchanges.now (W.taken out.old) (W.taken out.new))
        store.old.conn store.new.conn result }

    // The same, but a call of the output failed: all exchanges were still run, and a beginning of what is due for them
    // is printed. This fault is returned exactly if such a call failed. If memory was refused, none was run, and
    // nothing is printed.
    ensures write { On S.Store (PrintsPart exchanges.now (W.taken out.old) (W.taken out.new))
        store.old.conn store.new.conn result }
    ensures failed { W.failed out.new ≡ (if is_unprinted result then W.failed out.old + 1 else W.failed out.old) }
    ensures unrun { result ≡ Err RunFault.NoMemory → store.new ≡ store.old }
    ensures unprinted { result ≡ Err RunFault.NoMemory → out.new ≡ out.old }

    // If no exchange is a message, the database is unchanged while the connection is open, whatever its tables mean.
    ensures reads { AskNoChange exchanges.now → Between S.Store IsAsBeforeWhereOpen store.old.conn store.new.conn }

    // A disk that has been faithful when the call ends was faithful when it began.
    ensures honest { StaysClean S.Store store.old.conn store.new.conn }

    // While the connection is open, the tables durably represent what they represent: no crash afterwards loses it.
    ensures crash { StoresWhereOpen (state S.Store store.new.conn) }

    // The kth message that makes a certificate gets the serial first + k - 1 and the digest of the kth body, so no
    // serial names two bodies; a body never changes, and names the CA that signs it.
    ensures serials { (o : Opening) (l : List Arrival) → CountsUp o l }
    ensures bodies { BodiesStay }
    ensures signers { BodiesNameTheirSigners }
{
    office_laws::serials_count_up();
    office_laws::a_body_stays();
    office_laws::a_body_names_its_signer();
    office_laws::the_list_is_exact();
    http_requests::one_ask();
    let printed = apply_exchanges(store, alloc, exchanges, out);
    what_is_open_is_stored(store);
    printed
}

/// The response to one request over the tables of an office.
pub fn respond<S: Alter>(
    store: &mut Store<S>,
    alloc: Global,
    request: &[u8],
    moment: u64,
    nonce: &[u8; 32],
) -> Result<Vec<u8>, StoreFault>
    // Whatever the tables mean, the response has the form that the request asks for.
    ensures form { IfOk result (λ v. HasForm request.now v.items) }

    // The response is the specified one, and the tables then represent the history with the request's arrival, if it
    // has one. If the request used them, they are open and durably represent that history, so no crash loses it.
    ensures answered { On S.Store (AnswersDue request.now moment nonce.now) store.old.conn store.new.conn result }

    // After a fault they represent what they represented before.
    ensures fault { On S.Store KeepsTellingOnErr store.old.conn store.new.conn result }

    // A request that isn't a message leaves the database unchanged while the connection is open, whatever its tables
    // mean.
    ensures reads { AsksNoChange request.now → Between S.Store IsAsBeforeWhereOpen store.old.conn store.new.conn }

    // Nor has any request changed it that is refused, or that ends with a fault.
    ensures refused { IfOk result (λ v. IsRefusal v.items
        → Between S.Store IsAsBeforeWhereOpen store.old.conn store.new.conn) }
    ensures before { OnErr result (Between S.Store IsAsBeforeWhereOpen store.old.conn store.new.conn) }

    // If the tables represent a history, the fault is `NoMemory` or `Device`, and `Device` is returned only if the
    // database failed, or refused a specified row.
    ensures only { On S.Store FailsAsRegister store.old.conn store.new.conn result }
    ensures cause { HasCleanDisk (state S.Store store.new.conn) → IfErr result (λ e. HasRegisterCause e (OfficeStops
        (λ s. state S.Store s.conn) request.now moment nonce.now store.old store.new)) }

    // For a GET, except that of the pending certificates, over tables that represent a history it is returned only if
    // the disk failed during the call, or had shut the connection before.
    ensures plain { AsksPlainGet request.now → HasCleanDisk (state S.Store store.new.conn) → IfErr result
        (λ e. HasRegisterCause e (RegisterHasFailed (state S.Store store.old.conn) (state S.Store store.new.conn))) }

    // A disk that has been faithful when the call ends was faithful when it began.
    ensures honest { StaysClean S.Store store.old.conn store.new.conn }

    // While the connection is open, they durably represent what they represent: no crash afterwards loses it.
    ensures crash { StoresWhereOpen (state S.Store store.new.conn) }

    // The response to a GET of the list is the list, which revokes exactly what accepted messages named.
    ensures list { On S.Store (AnswersList request.now) store.old.conn store.new.conn result }
    ensures forgets { ListsForgetNothing }
    ensures versions { EqualVersionsAreEqualLists }
{
    office_laws::the_list_is_exact();
    office_laws::a_later_list_revokes_as_much();
    office_laws::equal_versions_are_equal_lists();
    http_requests::one_ask();
    let response = answer(store, alloc, request, moment, nonce);
    what_is_open_is_stored(store);
    response
}

// Writes a list that was found in the tables.
fn write_found<W: Sink>(revoked: &Revoked, sink: &mut W) -> Result<(), PublishFault>
    requires { W.failed sink.old < u64.MAX }
    ensures fits { OnOk result (IsTrue (fits revoked.now.parts.items revoked.now.key_ids)) }
    ensures ok { OnOk result (Appends (W.taken sink.old) (W.taken sink.new)
        (published_text revoked.now.head revoked.now.parts.items revoked.now.key_ids)) }
    ensures part { result ≡ Err PublishFault.Write
        → IsTrue (fits revoked.now.parts.items revoked.now.key_ids)
        × AppendsBeginning (W.taken sink.old) (W.taken sink.new)
        (published_text revoked.now.head revoked.now.parts.items revoked.now.key_ids) }
    ensures unwritten { IfErr result (λ e. e ≢ PublishFault.Write → sink.new ≡ sink.old) }
    ensures failed { W.failed sink.new
        ≡ (if has_writer_failed result then W.failed sink.old + 1 else W.failed sink.old) }
    ensures only { IfErr result (OfStore (IsOfAList (length revoked.now.parts.items))) }
{
    let parts = revoked.parts.as_slice();
    if MOST_CAS < parts.len() {
        return Err(PublishFault::Store(StoreFault::Damaged));
    }
    if krl_len(parts, &revoked.key_ids).is_none() {
        return Err(PublishFault::Store(StoreFault::NoMemory));
    }
    match write_krl(&revoked.head, parts, &revoked.key_ids, sink) {
        Ok(()) => Ok(()),
        Err(_) => Err(PublishFault::Write),
    }
}

/// Writes the key revocation list from front to back, without holding it. The fault is `NoMemory` for a section that
/// would be too long, and `Damaged` for more CAs than an office may have. The writer has failed fewer than
/// 18446744073709551615 times before.
pub fn publish<S: Alter, W: Sink>(
    store: &mut Store<S>,
    alloc: Global,
    sink: &mut W,
) -> Result<(), PublishFault>
    requires { W.failed sink.old < u64.MAX }

    // The written bytes are a list, whatever the tables mean. It is the office's, which revokes exactly what accepted
    // messages named.
    ensures list { On S.Store (WritesList (W.taken sink.old) (W.taken sink.new)) store.old.conn store.new.conn result }

    // If the writer failed, it has taken a beginning of such a list.
    ensures part { On S.Store (WritesPart (W.taken sink.old) (W.taken sink.new)) store.old.conn store.new.conn result }

    // The tables represent what they did, and durably if the list was found: they are then open, and no crash loses it.
    ensures same { Between S.Store KeepsTelling store.old.conn store.new.conn }
    ensures found { On S.Store StoresWhereFound store.old.conn store.new.conn result }

    // While the connection is open, the database is unchanged, whatever its tables mean.
    ensures before { Between S.Store IsAsBeforeWhereOpen store.old.conn store.new.conn }
    ensures honest { StaysClean S.Store store.old.conn store.new.conn }

    // While the connection is open, they durably represent what they represent: no crash afterwards loses it.
    ensures crash { StoresWhereOpen (state S.Store store.new.conn) }

    // After any fault except the writer's, nothing is written. The writer's fault is returned exactly when the writer
    // failed.
    ensures unwritten { IfErr result (λ e. e ≢ PublishFault.Write → sink.new ≡ sink.old) }
    ensures failed { W.failed sink.new
        ≡ (if has_writer_failed result then W.failed sink.old + 1 else W.failed sink.old) }

    // If the tables represent a history, a fault of the register is `NoMemory` or `Device`. `Device` is returned only
    // if the database failed.
    ensures only { On S.Store PublishFailsAsRegister store.old.conn store.new.conn result }
    ensures cause { IfErr result (OfStore (λ e. HasRegisterCause e (RegisterHasFailed (state S.Store store.old.conn)
        (state S.Store store.new.conn)))) }
{
    office_laws::the_list_is_exact();
    let found = store.revoked(alloc);
    what_is_open_is_stored(store);
    let revoked = found?;
    write_found(&revoked, sink)
}
