//! Serving one connection.

ghost use Rattle.std.specs.Prelude.{◌≤◌, ◌<◌, ◌+◌};
ghost use Rattle.office.specs.Registers.{FailuresPersist};
ghost use Rattle.server.specs.Connections.{IfGiven, Visits};

use crate::connection_fault::Fault;
use crate::listener::{Connection, Listener};
use http_requests::Routes;
use office::Registry;
use web::serve_one;
use wire::Source;

/// Accepts a connection, serves its one request at the time when it was accepted, and ends it.
pub(crate) fn serve_connection<R: AllocGlobal, L: Listener, S: Registry, N: Source>(
    routes: &Routes,
    rt: &R,
    listener: &mut L,
    store: &mut S,
    nonces: &mut N,
) -> Result<(), Fault>
    requires { N.failed nonces.old < u64.MAX }
    ensures failures { FailuresPersist S.is_honest S.is_open store.old store.new }
    ensures stays_open { S.is_honest store.new → IfGiven result (S.is_open store.old → S.is_open store.new) }
    ensures visit { Visits result (L.book listener.old) (L.book listener.new) (N.remaining nonces.old)
        (N.remaining nonces.new) S.Registry store.old store.new }
    ensures failed { N.failed nonces.new ≤ N.failed nonces.old + 1 }
{
    let accepted = match listener.accept() {
        Ok(accepted) => accepted,
        Err(fault) => return Err(fault),
    };
    let Connection {
        mut reader,
        mut writer,
        moment,
    } = accepted;
    let served = serve_one(
        routes,
        &mut reader,
        &mut writer,
        store,
        rt.alloc(),
        moment,
        nonces,
    );
    match served {
        Ok(()) => {
            listener.end(reader, writer, true);
            Ok(())
        }
        Err(fault) => {
            listener.end(reader, writer, false);
            Err(Fault::Serving(fault))
        }
    }
}
