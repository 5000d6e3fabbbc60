//! The system's listener.

ghost use Rattle.std.specs.Prelude.{◌≤◌, IfSome};

use crate::closing::end_response;
use crate::connection_fault::Fault;
use crate::listener::{Connection, Listener};
use crate::patience::Patience;
use crate::timed::Timed;
use crate::watch::Watch;
use std::net::{TcpListener, TcpStream};
use std::time::{Clock, SystemTime, UNIX_EPOCH};
use values::LATEST_MOMENT;
use wire::Buffered;

/// A TCP listener whose waits are bounded. It keeps no book: nothing is specified about its bytes.
#[derive(Drop)]
pub struct Loopback<'a, C> {
    listener: &'a TcpListener,
    clock: &'a C,
}

impl<'a, C: Clock> Loopback<'a, C> {
    /// The listener. A read or a write waits at most `STEP_SECONDS`, and a connection takes at most
    /// `CONNECTION_SECONDS`.
    pub fn new(listener: &'a TcpListener, clock: &'a C) -> Loopback<'a, C> {
        Loopback { listener, clock }
    }
}

/// The clock's time, in seconds since 1970-01-01 00:00:00 UTC, or `None` if the clock fails or is past the latest time.
fn moment_of<C: Clock>(clock: &C) -> Option<u64>
    ensures { IfSome result (λ moment. moment ≤ 253402300799) }
{
    let Ok(now) = SystemTime::now(clock) else {
        return None;
    };
    let Ok(since) = now.duration_since(UNIX_EPOCH) else {
        return None;
    };
    let moment = since.as_secs();
    if LATEST_MOMENT < moment {
        return None;
    }
    Some(moment)
}

impl<'a, C: Clock> Listener for Loopback<'a, C> {
    type Reader = Buffered<Timed<'a, TcpStream, C>>;

    type Writer = Timed<'a, TcpStream, C>;

    fn accept(&mut self) -> Result<Connection<Self::Reader, Self::Writer>, Fault> {
        let Ok((stream, _)) = self.listener.accept() else {
            return Err(Fault::Socket);
        };
        let Some(moment) = moment_of(self.clock) else {
            return Err(Fault::Clock);
        };
        let Some(watch) = Watch::new(self.clock, Patience::usual()) else {
            return Err(Fault::Clock);
        };
        let Ok(twin) = stream.try_clone() else {
            return Err(Fault::Socket);
        };
        Ok(Connection {
            reader: Buffered::new(Timed::new(stream, watch.same())),
            writer: Timed::new(twin, watch),
            moment,
        })
    }

    fn end(&mut self, _reader: Self::Reader, writer: Self::Writer, whole: bool) {
        if whole {
            end_response(&writer.stream);
        }
    }
}
