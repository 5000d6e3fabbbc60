//! Writers that hold what they took until they are flushed, as buffers do.

use station_jobs::{StationFault, print};
use std::io;
use std::io::{ErrorKind, Write};

const LINE: &[u8] = b"refuse OtherCa\n";

/// A writer that takes all bytes, and loses those that it hasn't flushed. Its flush may fail.
#[derive(Drop)]
struct Buffer {
    held: usize,
    flushed: usize,
    fails: bool,
}

impl Write for Buffer {
    fn write(&mut self, buf: &[u8]) -> io::Result<usize> {
        self.held = self.held.saturating_add(buf.len());
        Ok(buf.len())
    }

    fn flush(&mut self) -> io::Result<()> {
        if self.fails {
            return Err(io::Error::from(ErrorKind::BrokenPipe));
        }
        self.flushed = self.held;
        Ok(())
    }
}

/// The result of printing a line, and how many bytes were flushed.
fn printed(fails: bool) -> (Result<(), StationFault>, usize) {
    let mut out = Buffer {
        held: 0,
        flushed: 0,
        fails,
    };
    let done = print(&mut out, LINE);
    (done, out.flushed)
}

#[test]
fn a_line_is_flushed_or_there_is_a_fault(rt: HostRuntime) {
    assert_eq!(rt; printed(false), (Ok(()), 15));
    assert_eq!(rt; printed(true), (Err(StationFault::Write), 0));
}
