//! The writes of a whole decision.

ghost use Rattle.office.specs.Decided.{IsLawfulChange};
ghost use Rattle.store_sql.specs.Changes.{with_counters, with_request};
ghost use Rattle.store.specs.Rows.{contents_of};
ghost use Rattle.store.specs.Transactions.{Does, DoesIn};
ghost use Rattle.store.specs.Changing.{with_change};
ghost use Rattle.store.specs.Refused.{RefusesDecision, RefusesRecord, RefusesRows};
ghost use Rattle.store.specs.Due.{IsDue, contents_after};

use crate::rows::number;
use crate::writes::changing::make;
use crate::writes::new_rows::{counters_of, request_row};
use office::{Arrival, Ca, Change, Decision};
use sqlite::{Alter, Connection};
use std::alloc::Global;
use store_sql::{Counters, Fault, Number, RequestRow, insert_request, update_office};

fn record<S: Alter>(
    conn: &mut Connection<S>,
    counters: &Counters,
    request: &RequestRow,
) -> Result<(), Fault>
    ensures { Does S.Store (λ c. with_request request.now (with_counters counters.now c))
        (RefusesRecord counters.now request.now) conn.old conn.new result }
{
    update_office(conn, counters)?;
    insert_request(conn, request)
}

fn write_rows<S: Alter>(
    alloc: Global,
    conn: &mut Connection<S>,
    number: Number,
    change: &Change,
    counters: &Counters,
    request: &RequestRow,
) -> Result<(), Fault>
    requires { IsLawfulChange change.now }
    ensures { Does S.Store
        (λ c. with_change number counters.now.next change.now
        (with_request request.now (with_counters counters.now c)))
        (RefusesRows number change.now counters.now request.now) conn.old conn.new result }
{
    record(conn, counters, request)?;
    make(alloc, conn, number, counters.next, change)
}

/// Writes the decision on a received request, inside a transaction: the change, the counters and a row for the request.
/// `cas` are the existing CAs.
///
/// # Errors
///
/// `Device` if the database failed or its rules refuse one of these rows. `NoMemory` if memory was refused. `Damaged`
/// if a counter is 2^63 or more, or a row isn't of the form of its table. Tables that hold the rows of a valid state
/// with room for the decision never give `Damaged`.
pub fn write<S: Alter>(
    alloc: Global,
    conn: &mut Connection<S>,
    arrival: &Arrival,
    decision: &Decision,
    cas: &[Ca],
) -> Result<(), Fault>
    requires lawful { IsLawfulChange decision.now.change }

    // Tables that hold the rows of a valid state then hold those of the state after the decision, and a row for the
    // request; or, with an error, nothing is committed. For such tables the causes of a fault are lack of memory, a
    // failure of the database, or its rules refusing a row that has to be written. A crash during the call commits
    // nothing.
    ensures { DoesIn S.Store (IsDue decision.now cas.now) (contents_after decision.now arrival.now)
        (λ x. RefusesDecision decision.now arrival.now cas.now (contents_of x.0 x.1)) conn.old conn.new result }
{
    let Some(counters) = counters_of(decision) else {
        return Err(Fault::Damaged);
    };
    let request = request_row(alloc, arrival, &decision.reply)?;
    let number = number(cas.len() as u64 + 1);
    write_rows(alloc, conn, number, &decision.change, &counters, &request)
}
