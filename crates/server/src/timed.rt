//! Streams with bounded waits, as sources and sinks.

ghost use Rattle.std.specs.Prelude.{◌≡◌, ◌+◌, ◌<◌};

use crate::watch::Watch;
use std::io::{ErrorKind, Read, Write};
use std::net::OpenStream;
use std::time::Clock;
use wire::{Failed, Sink, Source};

/// A reader or a writer of a stream, with the number of its failures.
///
/// A wait that lasts too long is a failure, and isn't retried. A call that a signal interrupted transferred nothing; it
/// is retried with the time that is left. A write that takes nothing of a nonempty piece is a failure.
#[derive(Drop)]
pub struct Timed<'a, S, C> {
    pub(crate) stream: S,
    watch: Watch<'a, C>,
    failures: u64,
}

impl<'a, S, C> Timed<'a, S, C> {
    /// The reader or writer of the stream, with no failure yet.
    pub(crate) fn new(stream: S, watch: Watch<'a, C>) -> Timed<'a, S, C>
        ensures stream { result.stream ≡ stream }
        ensures failures { result.failures ≡ 0 }
    {
        Timed {
            stream,
            watch,
            failures: 0,
        }
    }

    // Counts one more failure.
    fn fail(&mut self) -> Failed
        requires { self.old.failures < u64.MAX }
        ensures failures { self.new.failures ≡ self.old.failures + 1 }
        ensures stream { self.new.stream ≡ self.old.stream }
    {
        self.failures += 1;
        Failed
    }
}

impl<'a, S: Read + OpenStream, C: Clock> Source for Timed<'a, S, C> {
    ghost remaining = { λ s. S.remaining s.stream };

    ghost failed = { λ s. s.failures };

    fn failures(&self) -> u64 {
        self.failures
    }

    fn read(&mut self, buf: &mut [u8]) -> Result<usize, Failed> {
        'tries: for _ in 0..u64::MAX {
            if !self.watch.allow_read(&self.stream) {
                break 'tries;
            }
            match self.stream.read(buf) {
                Ok(n) => return Ok(n),
                Err(error) => {
                    if error.kind() != ErrorKind::Interrupted {
                        break 'tries;
                    }
                }
            }
        }
        Err(self.fail())
    }
}

impl<'a, S: Write + OpenStream, C: Clock> Sink for Timed<'a, S, C> {
    ghost taken = { λ s. S.contents s.stream };

    ghost failed = { λ s. s.failures };

    fn failures(&self) -> u64 {
        self.failures
    }

    fn write(&mut self, bytes: &[u8]) -> Result<usize, Failed> {
        'tries: for _ in 0..u64::MAX {
            if !self.watch.allow_write(&self.stream) {
                break 'tries;
            }
            match self.stream.write(bytes) {
                Ok(n) if n > 0 || bytes.is_empty() => return Ok(n),
                Ok(_) => break 'tries,
                Err(error) => {
                    if error.kind() != ErrorKind::Interrupted {
                        break 'tries;
                    }
                }
            }
        }
        Err(self.fail())
    }
}
