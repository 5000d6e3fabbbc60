//! Serving one request.

ghost use Rattle.std.specs.Prelude.{◌≡◌, ◌<◌, ◌+◌, List, Err, OnOk, if◌then◌else◌};
ghost use Rattle.std.specs.Io.KnownBytes.{Appends};
ghost use Rattle.wire.specs.Streams.{AppendsBeginning};
ghost use Rattle.office.specs.declared.opening.Opening.{Opening};
ghost use Rattle.office.specs.declared.arrival.Arrival.{Arrival};
ghost use Rattle.office.specs.Registers.{FailuresPersist, MeansTheSame};
ghost use Rattle.web.specs.Causes.{StopsAt};
ghost use Rattle.web.specs.Faults.{is_read, is_write, IfServed, IfUnserved};
ghost use Rattle.web.specs.Nonces.{Draws, HasNonceCause};
ghost use Rattle.web.specs.Served.{LeavesRows, Served, Stopped};

use crate::request::answer_request;
use crate::serve_fault::ServeFault;
use crate::taking::{take_nonce, take_request};
use http_requests::Routes;
use office::Registry;
use std::alloc::Global;
use wire::{Failed, Sink, Source, write_all};

/// Serves one request: takes its bytes and no more from the reader, takes a nonce of 32 bytes, has the register answer
/// with them and the time, and writes the response (RFC 9112).
///
/// The head is taken byte by byte, up to the shortest prefix that is a whole head or can't become one, or
/// `MAX_HEAD` bytes, or the end; then exactly the body that it announces, and nothing of it if the head is refused.
/// The reader, the writer and the nonce source must have had fewer than 18446744073709551615 failures before.
pub fn serve_one<R: Source, W: Sink, S: Registry, N: Source>(
    routes: &Routes,
    reader: &mut R,
    writer: &mut W,
    registry: &mut S,
    alloc: Global,
    moment: u64,
    nonces: &mut N,
) -> Result<(), ServeFault>
    requires reads { R.failed reader.old < u64.MAX }
    requires writes { W.failed writer.old < u64.MAX }
    requires draws { N.failed nonces.old < u64.MAX }
    ensures failures { FailuresPersist S.is_honest S.is_open registry.old registry.new }
    ensures stays_open { S.is_honest registry.new → IfServed result (S.is_open registry.old → S.is_open registry.new) }

    // One request and one nonce were taken, and the response specified for them was written. If the request needed the
    // register, it is open and so preserves the history. Whatever the register means, the response has the form that
    // the request asks for, and a request that is no message, or that is refused, leaves the stored rows unchanged.
    ensures ok { OnOk result ((x : Served (R.remaining reader.old) (R.remaining reader.new) (N.remaining nonces.old)
        (N.remaining nonces.new) moment S.Registry registry.old registry.new)
        × Appends (W.taken writer.old) (W.taken writer.new) x.response) }

    // The same, except that the writer failed after a prefix of the response.
    ensures write { result ≡ Err ServeFault.Write → (x : Served (R.remaining reader.old) (R.remaining reader.new)
        (N.remaining nonces.old) (N.remaining nonces.new) moment S.Registry registry.old registry.new)
        × AppendsBeginning (W.taken writer.old) (W.taken writer.new) x.response }

    // After any other fault nothing was written, the register means what it meant, and the stored rows are unchanged,
    // whatever they mean.
    ensures unwritten { IfUnserved result (writer.new ≡ writer.old) }
    ensures unchanged { S.is_honest registry.new → IfUnserved result (MeansTheSame S.means registry.old registry.new) }
    ensures before { IfUnserved result (LeavesRows S.Registry registry.old registry.new) }

    // The bytes drawn from the nonce source are the next ones, whatever the result of the call: a nonce, or nothing if
    // no request was read, or less if the source failed or ended.
    ensures drawn { Draws result (N.remaining nonces.old) (N.remaining nonces.new) }

    // Each fault is returned only if the part that it names failed, `Nonces` also if the source ended, and `Store` also
    // if the database refused the rows of the request that was taken.
    ensures store { S.is_honest registry.new → result ≡ Err ServeFault.Store → (o : Opening) (l : List Arrival)
        → S.means registry.old o l → Stopped (R.remaining reader.old) (R.remaining reader.new)
        (N.remaining nonces.old) (N.remaining nonces.new)
        (λ request nonce. StopsAt S.means S.fails S.stops request moment nonce registry.old registry.new) }
    ensures reader { R.failed reader.new ≡ (if is_read result then R.failed reader.old + 1 else R.failed reader.old) }
    ensures writer { W.failed writer.new ≡ (if is_write result then W.failed writer.old + 1 else W.failed writer.old) }
    ensures nonces { HasNonceCause result (N.failed nonces.old) (N.failed nonces.new)
        (N.remaining nonces.old) (N.remaining nonces.new) }
{
    let request = take_request(routes, reader, alloc)?;
    let nonce = take_nonce(nonces)?;
    let response = answer_request(registry, alloc, request, moment, &nonce)?;
    match write_all(writer, &response) {
        Ok(()) => Ok(()),
        Err(Failed) => Err(ServeFault::Write),
    }
}
