//! Requests served from in-memory readers, by a register that gives each arrival the same answer.

mod register;

use http_requests::Routes;
use register::Register;
use std::alloc::{AllocError, Global};
use web::{ServeFault, serve_one};
use wire::{Ending, Pace, ScriptedNonces, ScriptedReader, ScriptedWriter};

/// A request of 228 bytes that posts an issue message of 162.
const POST: &[u8; 228] = b"POST /v1/callers/ana/requests/i1 HTTP/1.1\r\ncontent-length: 162\r\n\r\n\
issue web\nkeyid web/alice\nkey ssh-ed25519 \
AAAAC3NzaC1lZDI1NTE5AAAAICIiIiIiIiIiIiIiIiIiIiIiIiIiIiIiIiIiIiIiIiIi\n\
principals alice\nafter 1000\nbefore 2000\nextensions\n";

const LIST: &[u8] = b"GET /v1/krl HTTP/1.1\r\n\r\n";

/// `POST` and `LIST`.
const BOTH: &[u8] = b"POST /v1/callers/ana/requests/i1 HTTP/1.1\r\ncontent-length: 162\r\n\r\n\
issue web\nkeyid web/alice\nkey ssh-ed25519 \
AAAAC3NzaC1lZDI1NTE5AAAAICIiIiIiIiIiIiIiIiIiIiIiIiIiIiIiIiIiIiIiIiIi\n\
principals alice\nafter 1000\nbefore 2000\nextensions\n\
GET /v1/krl HTTP/1.1\r\n\r\n";

/// The response made from the register's reply: that of `tests/rows/repeat-gets-the-kept-reply.expected`.
const ISSUED: &[u8; 165] = b"HTTP/1.1 200 OK\r\ncontent-type: text/plain\r\n\
content-length: 81\r\nconnection: close\r\n\r\n\
issued 1\ndigest 82e0c34fe67da3fc3dc1be6682073994ec021449271b641cdd36180e95572e79\n";

/// A list that revokes nothing: the first response of `tests/rows/a-revoked-serial-is-listed.expected`.
const LISTED: &[u8] = b"HTTP/1.1 200 OK\r\ncontent-type: application/octet-stream\r\n\
content-length: 44\r\nconnection: close\r\n\r\n\
SSHKRL\n\0\0\0\0\x01\0\0\0\0\0\0\0\0\0\0\0\0\0\0\0\0\0\0\0\0\0\0\0\0\0\0\0\0\0\0\0\0";

const BAD_HEAD: &[u8] = b"HTTP/1.1 400 Bad Request\r\ncontent-type: text/plain\r\n\
content-length: 18\r\nconnection: close\r\n\r\nrefused 1 BadHead\n";

/// The outcome of one request: how it ended, how many bytes the reader and the nonces have left, and how many arrivals
/// the register has taken.
type Ended = (Result<(), ServeFault>, usize, usize, u64);

/// Serves one request with a writer that takes `room` bytes, and returns what was written.
fn serve(
    alloc: Global,
    register: &mut Register,
    reader: &mut ScriptedReader<'_>,
    nonces: usize,
    room: usize,
) -> (Ended, Vec<u8>) {
    reader.failures = 0;
    let mut source = ScriptedNonces::new(0x33, nonces, Ending::Ends);
    let mut writer = ScriptedWriter::new(alloc, Pace::Whole, room);
    let done = match Routes::new(alloc) {
        Ok(routes) => serve_one(
            &routes,
            reader,
            &mut writer,
            register,
            alloc,
            1000,
            &mut source,
        ),
        Err(_) => Err(ServeFault::NoMemory),
    };
    let ScriptedWriter { taken, .. } = writer;
    (
        (done, reader.rest.len(), source.left, register.applied),
        taken,
    )
}

/// Serves one request from these bytes, with a new register.
fn serve_bytes(
    alloc: Global,
    bytes: &[u8],
    ending: Ending,
    nonces: usize,
    room: usize,
) -> (Ended, Vec<u8>) {
    let mut register = Register::new();
    let mut reader = ScriptedReader::new(bytes, Pace::Whole, ending);
    serve(alloc, &mut register, &mut reader, nonces, room)
}

#[test]
fn each_call_takes_one_request(rt: HostRuntime) {
    let mut register = Register::new();
    let mut reader = ScriptedReader::new(BOTH, Pace::Whole, Ending::Ends);
    let (ended, written) = serve(rt.alloc(), &mut register, &mut reader, 40, 1000);
    assert_eq!(rt; ended, (Ok(()), 24, 8, 1));
    assert_eq!(rt; written.as_slice(), ISSUED.as_slice());
    let (ended, written) = serve(rt.alloc(), &mut register, &mut reader, 32, 1000);
    assert_eq!(rt; ended, (Ok(()), 0, 0, 1));
    assert_eq!(rt; written.as_slice(), LISTED);
}

#[test]
fn no_more_is_taken_than_tells(rt: HostRuntime) -> Result<(), AllocError> {
    let long = vec![in rt.alloc(); b'a'; 9000]?;
    let cases = [
        (long.as_slice(), 808),
        (b"\0GET /v1/krl HTTP/1.1\r\n\r\n", 24),
        (b"GET /v1/krl HTTP/1.1\r\n\x01more", 4),
    ];
    for (bytes, left) in cases {
        let (ended, written) = serve_bytes(rt.alloc(), bytes, Ending::Ends, 32, 1000);
        assert_eq!(rt; ended, (Ok(()), left, 0, 0));
        assert_eq!(rt; written.as_slice(), BAD_HEAD);
    }
    Ok(())
}

#[test]
fn bytes_may_come_one_by_one(rt: HostRuntime) {
    let mut register = Register::new();
    let mut reader = ScriptedReader::new(POST, Pace::OneByte, Ending::Ends);
    let (ended, written) = serve(rt.alloc(), &mut register, &mut reader, 32, 1000);
    assert_eq!(rt; ended, (Ok(()), 0, 0, 1));
    assert_eq!(rt; written.as_slice(), ISSUED.as_slice());
}

#[test]
fn a_failed_reader_leaves_all_as_it_was(rt: HostRuntime) {
    for n in 0..POST.len() {
        let (ended, written) = serve_bytes(rt.alloc(), &POST[..n], Ending::Fails, 32, 1000);
        assert_eq!(rt; ended, (Err(ServeFault::Read), 0, 32, 0), "{n} bytes");
        assert_eq!(rt; written.as_slice(), b"".as_slice());
    }
}

#[test]
fn a_failed_writer_leaves_the_arrival(rt: HostRuntime) {
    for room in 0..ISSUED.len() {
        let (ended, written) = serve_bytes(rt.alloc(), POST, Ending::Ends, 32, room);
        assert_eq!(rt; ended, (Err(ServeFault::Write), 0, 0, 1), "{room} bytes");
        assert_eq!(rt; written.as_slice(), &ISSUED[..room]);
    }
}

#[test]
fn a_short_nonce_leaves_all_as_it_was(rt: HostRuntime) {
    for request in [POST.as_slice(), LIST] {
        let (ended, written) = serve_bytes(rt.alloc(), request, Ending::Ends, 31, 1000);
        assert_eq!(rt; (ended.0, ended.3), (Err(ServeFault::Nonces), 0));
        assert_eq!(rt; written.as_slice(), b"".as_slice());
    }
}
