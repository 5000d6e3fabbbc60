//! Writers from std as outputs.

ghost use Rattle.std.specs.Prelude.{◌≡◌, false};

use crate::output::Output;
use std::io::{ErrorKind, Write};
use wire::{Failed, Sink};

/// A writer from std, with the number of its failures, and whether it was flushed since it last took anything.
///
/// A write that was interrupted by a signal (`ErrorKind::Interrupted`) took nothing. It is repeated and is no failure.
/// Every other error is one, and so is a write that takes nothing from a piece that isn't empty.
#[derive(Drop)]
pub struct Console<W> {
    writer: W,
    failures: u64,
    holds_back: bool,
}

impl<W: Write> Console<W> {
    /// The writer, with no failure yet.
    pub fn new(writer: W) -> Console<W>
        ensures taken { ⟦<Console<W> as Sink>⟧.taken result ≡ W.contents writer }
        ensures failed { ⟦<Console<W> as Sink>⟧.failed result ≡ 0 }
    {
        Console {
            writer,
            failures: 0,
            holds_back: true,
        }
    }

    /// The writer, given back.
    pub fn into_inner(self) -> W
        ensures { W.contents result ≡ ⟦<Console<W> as Sink>⟧.taken self }
    {
        let Console { writer, .. } = self;
        writer
    }
}

impl<W: Write> Sink for Console<W> {
    ghost taken = { λ s. W.contents s.writer };

    ghost failed = { λ s. s.failures };

    fn failures(&self) -> u64 {
        self.failures
    }

    fn write(&mut self, bytes: &[u8]) -> Result<usize, Failed> {
        self.holds_back = true;
        'tries: for _ in 0..u64::MAX {
            match self.writer.write(bytes) {
                Ok(n) if n > 0 || bytes.is_empty() => return Ok(n),
                Ok(_) => break,
                Err(error) => {
                    if error.kind() != ErrorKind::Interrupted {
                        break 'tries;
                    }
                }
            }
        }
        self.failures += 1;
        Err(Failed)
    }
}

impl<W: Write> Output for Console<W> {
    ghost is_flushed = { λ s. s.holds_back ≡ false };

    fn flush(&mut self) -> Result<(), Failed> {
        match self.writer.flush() {
            Ok(()) => {
                self.holds_back = false;
                Ok(())
            }
            Err(_) => {
                self.failures += 1;
                Err(Failed)
            }
        }
    }
}
