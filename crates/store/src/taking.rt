//! Processing of one received request, in one transaction.

ghost use Rattle.std.specs.Prelude.{◌≡◌, length};
ghost use Rattle.store.specs.Transactions.{Ends, LeavesDue};
ghost use Rattle.store.specs.Arriving.{FailsAsCaused, IsAfter, IsDueAnswer, IsAny, KeepsUnlessAccepted, RepliesShortly};
ghost use Rattle.store.specs.Arriving.{contents_with, of_statement};
ghost use Rattle.store_sql.specs.Honest.{On, OutlivesBy};

use crate::rows::conclude;
use crate::settling::settle;
use office::{Arrival, Outcome};
use sqlite::{Alter, Connection};
use std::alloc::Global;
use store_sql::{Fault, begin};

/// The fault of a statement that reads no rows, so none can be damaged.
fn of_statement(fault: Fault) -> Fault
    ensures { result ≡ of_statement fault }
{
    match fault {
        Fault::Device | Fault::Damaged => Fault::Device,
        Fault::NoMemory => Fault::NoMemory,
    }
}

/// Answers a received request as specified, and stores it if it is accepted now. If it fails, nothing has changed.
pub(crate) fn take<S: Alter>(
    alloc: Global,
    conn: &mut Connection<S>,
    arrival: &Arrival,
) -> Result<Outcome, Fault>
    requires { length arrival.now.nonce ≡ 32 }
    ensures ends { On S.Store (Ends (IsAfter IsAny) (IsDueAnswer arrival.now) (contents_with arrival.now))
        conn.old conn.new result }
    ensures cause { On S.Store (FailsAsCaused arrival.now) conn.old conn.new result }

    // A call that fails, and a request that is repeated or refused, leave the database as it was, whatever its tables
    // represent.
    ensures before { On S.Store KeepsUnlessAccepted conn.old conn.new result }

    // A reply that is given now has at most 99 bytes.
    ensures short { On S.Store RepliesShortly conn.old conn.new result }

    // A crash during the call leaves the tables as they were, or with the request, which then extends the history.
    ensures survives { OutlivesBy S.Store (LeavesDue (IsAfter IsAny) (IsDueAnswer arrival.now)
        (contents_with arrival.now)) conn.old conn.new }
{
    match begin(conn) {
        Ok(()) => {
            let settled = settle(alloc, conn, arrival);
            conclude(conn, settled)
        }
        Err(fault) => Err(of_statement(fault)),
    }
}
