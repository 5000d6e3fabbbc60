//! Writers from std as sinks.

ghost use Rattle.std.specs.Prelude.{◌≡◌};

use crate::failure::Failed;
use crate::sink::Sink;
use std::io::{ErrorKind, Write};

/// A writer from std, with the number of its failures.
///
/// A write that was interrupted by a signal (`ErrorKind::Interrupted`) took nothing. It is repeated and is no failure.
/// Every other error is one, and so is a write that takes nothing from a piece that isn't empty. Nothing is flushed.
#[derive(Drop)]
pub struct FromWrite<W> {
    writer: W,
    failures: u64,
}

impl<W: Write> FromWrite<W> {
    /// The writer, with no failure yet.
    pub fn new(writer: W) -> FromWrite<W>
        ensures taken { ⟦<FromWrite<W> as Sink>⟧.taken result ≡ W.contents writer }
        ensures failed { ⟦<FromWrite<W> as Sink>⟧.failed result ≡ 0 }
    {
        FromWrite {
            writer,
            failures: 0,
        }
    }

    /// The writer, given back.
    pub fn into_inner(self) -> W
        ensures { W.contents result ≡ ⟦<FromWrite<W> as Sink>⟧.taken self }
    {
        let FromWrite {
            writer,
            failures: _,
        } = self;
        writer
    }
}

impl<W: Write> Sink for FromWrite<W> {
    ghost taken = { λ s. W.contents s.writer };

    ghost failed = { λ s. s.failures };

    fn failures(&self) -> u64 {
        self.failures
    }

    fn write(&mut self, bytes: &[u8]) -> Result<usize, Failed> {
        'tries: for _ in 0..u64::MAX {
            match self.writer.write(bytes) {
                Ok(n) if n > 0 || bytes.is_empty() => return Ok(n),
                Ok(_) => break,
                Err(error) => {
                    if error.kind() != ErrorKind::Interrupted {
                        break 'tries;
                    }
                }
            }
        }
        self.failures += 1;
        Err(Failed)
    }
}
