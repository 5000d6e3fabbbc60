//! The source of connections.

ghost use Rattle.std.specs.Prelude.{◌≡◌, ◌≤◌, Option, None, IfOk, IfErr};
ghost use Rattle.server.specs.Books.{Book, WhereTold, IsConnectionAccepted, IsEnded};
ghost use Rattle.server.specs.Connections.{IsOfAccepting, TellsFault};

use crate::connection_fault::Fault;
use wire::{Sink, Source};

/// A connection that was accepted.
pub struct Connection<R, W> {
    /// The bytes that the peer sends.
    pub reader: R,
    /// The bytes that are written to the peer.
    pub writer: W,
    /// The time on the clock when the connection was accepted, in seconds since 1970-01-01 00:00:00 UTC.
    pub moment: u64,
}

/// A listener, whose connections are accepted and ended one at a time.
pub trait Listener {
    /// Reads the bytes that a connection sends.
    type Reader: Source;

    /// Takes the bytes that are written on a connection.
    type Writer: Sink;

    /// The listener's record of its connections, if it has one.
    ghost book: { Self → Option Book } = { λ _. None };

    /// A connection was accepted and hasn't ended yet.
    ghost is_open: { Self → Type 0 } = { λ _. Unit {0} };

    /// Accepts the next connection.
    ///
    /// # Errors
    ///
    /// `Socket` if no connection could be accepted; a listener with a book then has none to come. `Clock` if the
    /// connection was closed because the clock failed or its time is after the latest one.
    fn accept(&mut self) -> Result<Connection<Self::Reader, Self::Writer>, Fault>
        ensures ok { IfOk result (λ c. WhereTold (IsConnectionAccepted (Self.Reader.remaining c.reader)
            (Self.Writer.taken c.writer) c.moment) (book self.old) (book self.new)) }
        ensures lawful { IfOk result (λ c. c.moment ≤ 253402300799) }
        ensures fresh { IfOk result (λ c. (Self.Reader.failed c.reader ≡ 0) × (Self.Writer.failed c.writer ≡ 0)) }
        ensures err { IfErr result (λ fault. WhereTold (TellsFault fault) (book self.old) (book self.new)) }
        ensures only { IfErr result IsOfAccepting }
        ensures open { IfOk result (λ _. is_open self.new) };

    /// Ends a connection that was accepted. `whole` says whether the entire response was written, and is recorded.
    fn end(&mut self, reader: Self::Reader, writer: Self::Writer, whole: bool)
        requires { is_open self.old }
        ensures { WhereTold (IsEnded (Self.Writer.taken writer) whole) (book self.old) (book self.new) };
}
