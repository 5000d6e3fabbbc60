//! The loop.

ghost use Rattle.std.specs.Prelude.{◌≡◌, ◌≤◌, ◌<◌, ◌+◌};
ghost use Rattle.std.specs.Io.KnownBytes.{Appends};
ghost use Rattle.office.specs.Registers.{FailuresPersist};
ghost use Rattle.server.specs.Connections.{Extends, MeetsTold};
ghost use Rattle.server.specs.Names.{no_memory_line};

use crate::connection::serve_connection;
use crate::listener::Listener;
use crate::report::{report, report_no_memory};
use http_requests::Routes;
use office::Registry;
use waiting::Waiting;
use wire::{Sink, Source};

/// The status if all connections were handled.
const DONE: u8 = 0;

/// The status if none was.
const FAULT: u8 = 1;

/// Serves `connections` connections of a listener, in order, each at its own time and with the next 32 nonce bytes.
///
/// The fault of a connection is printed to `err` as a line `sshoffice: connection K NAME`, K from 1, and the next one
/// is served. The result is 0; if there is no memory to begin with, the line `sshoffice: NoMemory` is printed and the
/// result is 1. What `err` doesn't take is lost.
///
/// The counts of failures of the nonce source and of `err` leave room for one more per connection.
pub fn serve_on<R: AllocGlobal, L: Listener, S: Registry, N: Source, E: Sink>(
    rt: &R,
    listener: &mut L,
    store: &mut S,
    nonces: &mut N,
    connections: u64,
    err: &mut E,
) -> u8
    requires draws { N.failed nonces.old + connections ≤ u64.MAX }
    requires tells { E.failed err.old + connections ≤ u64.MAX }
    requires once { E.failed err.old < u64.MAX }
    ensures status { result ≤ 1 }
    ensures failures { FailuresPersist S.is_honest S.is_open store.old store.new }

    // Each connection gets the response that is specified for its request after the arrivals of the earlier ones, or it
    // is closed with a fault. The nonces are the next bytes of the source, in the order of the connections. The
    // register then means the history with the arrivals of the requests, and is open if it has answered since the last
    // fault. If `err` hasn't failed in this call, it has taken the lines of the faults, in order, and nothing else.
    ensures met { result ≡ 0 → MeetsTold connections (L.book listener.old) (L.book listener.new)
        (N.remaining nonces.old) (N.remaining nonces.new) S.Registry store.old store.new (E.failed err.old)
        (E.failed err.new) (E.taken err.old) (E.taken err.new) }

    // The register means the history with at most one arrival for each connection, each at a valid time. If no
    // connection was handled, everything is unchanged.
    ensures served { S.is_honest store.new → Extends connections (S.means store.old) (S.means store.new) }
    ensures unmet { result ≡ 1 → store.new ≡ store.old }
    ensures untouched { result ≡ 1 → (listener.new ≡ listener.old) × (nonces.new ≡ nonces.old) }
    ensures lacking { result ≡ 1 → E.failed err.new ≡ E.failed err.old
        → Appends (E.taken err.old) (E.taken err.new) no_memory_line }
    ensures drawn { N.failed nonces.new ≤ N.failed nonces.old + connections }
    ensures lost { result ≡ 0 → E.failed err.new ≤ E.failed err.old + connections }
    ensures lost_once { result ≡ 1 → E.failed err.new ≤ E.failed err.old + 1 }
{
    let Ok(routes) = Routes::new(rt.alloc()) else {
        report_no_memory(err);
        return FAULT;
    };
    for served in 0..connections {
        let done = serve_connection(&routes, rt, listener, store, nonces);
        report(err, served + 1, done);
    }
    DONE
}

/// Like `serve_on`, but takes the register by value and returns it with the status. The list of pending certificates is
/// cached in memory between requests.
pub fn serve_keeping<R: AllocGlobal, L: Listener, S: Registry, N: Source, E: Sink>(
    rt: &R,
    listener: &mut L,
    store: S,
    nonces: &mut N,
    connections: u64,
    err: &mut E,
) -> (u8, S)
    requires draws { N.failed nonces.old + connections ≤ u64.MAX }
    requires tells { E.failed err.old + connections ≤ u64.MAX }
    requires once { E.failed err.old < u64.MAX }
    ensures status { result.0 ≤ 1 }
    ensures failures { FailuresPersist S.is_honest S.is_open store result.1 }
    ensures met { result.0 ≡ 0 → MeetsTold connections (L.book listener.old) (L.book listener.new)
        (N.remaining nonces.old) (N.remaining nonces.new) S.Registry store result.1 (E.failed err.old)
        (E.failed err.new) (E.taken err.old) (E.taken err.new) }
    ensures served { S.is_honest result.1 → Extends connections (S.means store) (S.means result.1) }
    ensures unmet { result.0 ≡ 1 → result.1 ≡ store }
    ensures untouched { result.0 ≡ 1 → (listener.new ≡ listener.old) × (nonces.new ≡ nonces.old) }
    ensures lacking { result.0 ≡ 1 → E.failed err.new ≡ E.failed err.old
        → Appends (E.taken err.old) (E.taken err.new) no_memory_line }
    ensures drawn { N.failed nonces.new ≤ N.failed nonces.old + connections }
    ensures lost { result.0 ≡ 0 → E.failed err.new ≤ E.failed err.old + connections }
    ensures lost_once { result.0 ≡ 1 → E.failed err.new ≤ E.failed err.old + 1 }
{
    let mut office = Waiting::new(rt.alloc(), store);
    let status = serve_on(rt, listener, &mut office, nonces, connections, err);
    (status, office.into_register())
}
