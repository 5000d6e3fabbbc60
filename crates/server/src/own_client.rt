//! A server that is its own client.

ghost use Rattle.std.specs.Prelude.{◌≡◌};
ghost use Rattle.office.specs.Registers.{FailuresPersist};
ghost use Rattle.server.specs.Connections.{Extends};

use crate::connection::serve_connection;
use crate::connection_fault::{Fault, SelftestFault};
use crate::listener::Listener;
use crate::loopback::Loopback;
use crate::patience::STEP_SECONDS;
use http_requests::Routes;
use office::Registry;
use std::io;
use std::io::Write;
use std::net::{Ipv4Addr, Net, SocketAddr, SocketAddrV4, TcpListener, TcpStream};
use std::time::{Clock, Duration};
use web::ServeFault;
use wire::{FromRead, read_full};

const REQUEST: &[u8] = b"GET /v1/krl HTTP/1.1\r\n\r\n";

/// The response with the list of an office with nothing revoked: PROTOCOL.krl, a header alone, version 0 and date 0.
const RESPONSE: &[u8] = b"HTTP/1.1 200 OK\r\ncontent-type: application/octet-stream\r\n\
content-length: 44\r\nconnection: close\r\n\r\n\
SSHKRL\n\0\0\0\0\x01\0\0\0\0\0\0\0\0\0\0\0\0\0\0\0\0\0\0\0\0\0\0\0\0\0\0\0\0\0\0\0\0";

/// A GET draws a nonce and discards it.
const NONCE: &[u8] = &[0x33; 32];

// A listener on 127.0.0.1, at a port that the system chooses.
fn bind<R: Net<Listener = TcpListener, Stream = TcpStream>>(rt: &R) -> io::Result<TcpListener> {
    let address = SocketAddrV4::new(Ipv4Addr::LOCALHOST, 0);
    TcpListener::bind(rt, SocketAddr::V4(address))
}

// Connects a client to the listener and sends the request.
fn ask<R: Net<Listener = TcpListener, Stream = TcpStream>>(
    rt: &R,
    listener: &TcpListener,
) -> io::Result<TcpStream> {
    let mut client = TcpStream::connect(rt, listener.local_addr()?)?;
    client.set_read_timeout(Some(Duration::from_secs(STEP_SECONDS)))?;
    client.write_all(REQUEST)?;
    Ok(client)
}

// Whether the client receives exactly the response.
fn is_answered(client: TcpStream) -> bool {
    let mut bytes = [0; RESPONSE.len() + 1];
    match read_full(&mut FromRead::new(client), &mut bytes) {
        Ok(n) => &bytes[..n] == RESPONSE,
        Err(_) => false,
    }
}

// Serves one connection of a listener.
fn serve_once<R: AllocGlobal, L: Listener, S: Registry>(
    rt: &R,
    listener: &mut L,
    store: &mut S,
) -> Result<(), Fault>
    ensures failures { FailuresPersist S.is_honest S.is_open store.old store.new }
    ensures served { S.is_honest store.new → Extends 1 (S.means store.old) (S.means store.new) }
{
    let Ok(routes) = Routes::new(rt.alloc()) else {
        return Err(Fault::Serving(ServeFault::NoMemory));
    };
    let mut nonces = FromRead::new(NONCE);
    serve_connection(&routes, rt, listener, store, &mut nonces)
}

/// Tests the path from a socket to a register and back, for an office with nothing revoked: listens on 127.0.0.1 at a
/// port that the system chooses, connects to it, asks for the list, serves that connection, and checks the answer.
///
/// # Errors
///
/// `Unserved` if a socket, the clock or the register failed or an allocation failed; `Mismatch` if the answer was
/// anything but the list of 44 bytes.
pub fn selftest<
    R: Net<Listener = TcpListener, Stream = TcpStream> + Clock + AllocGlobal,
    S: Registry,
>(rt: &R, store: &mut S) -> Result<(), SelftestFault>
    ensures failures { FailuresPersist S.is_honest S.is_open store.old store.new }
    ensures served { S.is_honest store.new → Extends 1 (S.means store.old) (S.means store.new) }
{
    let Ok(listener) = bind(rt) else {
        return Err(SelftestFault::Unserved(Fault::Socket));
    };
    let Ok(client) = ask(rt, &listener) else {
        return Err(SelftestFault::Unserved(Fault::Socket));
    };
    if let Err(fault) = serve_once(rt, &mut Loopback::new(&listener, rt), store) {
        return Err(SelftestFault::Unserved(fault));
    }
    if is_answered(client) {
        Ok(())
    } else {
        Err(SelftestFault::Mismatch)
    }
}
