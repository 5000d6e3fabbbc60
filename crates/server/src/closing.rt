//! The end of a connection.

use std::io::Read;
use std::net::{Shutdown, TcpStream};

/// The number of bytes after a request that are read at a time, and how many times.
const PIECE: usize = 4096;

const PIECES: u32 = 64;

/// Ends the response, and reads the bytes that have arrived after the request, without waiting for more.
///
/// A socket that is closed while it has unread bytes resets its connection, which can cost the peer the response (RFC
/// 9112, section 9.6).
pub(crate) fn end_response(mut stream: &TcpStream) {
    let ended = stream.shutdown(Shutdown::Write).is_ok();
    if !ended || stream.set_nonblocking(true).is_err() {
        return;
    }
    let mut piece = [0; PIECE];
    for _ in 0..PIECES {
        match stream.read(&mut piece) {
            Ok(n) if n > 0 => {}
            _ => return,
        }
    }
}
