//! Readers from std as sources.

ghost use Rattle.std.specs.Prelude.{◌≡◌};

use crate::failure::Failed;
use crate::source::Source;
use std::io::{ErrorKind, Read};

/// A reader from std, with the number of its failures.
///
/// A read that was interrupted by a signal (`ErrorKind::Interrupted`) took nothing. It is repeated and is no failure.
/// Every other error is one.
#[derive(Drop)]
pub struct FromRead<R> {
    reader: R,
    failures: u64,
}

impl<R: Read> FromRead<R> {
    /// The reader, with no failure yet.
    pub fn new(reader: R) -> FromRead<R>
        ensures remaining { ⟦<FromRead<R> as Source>⟧.remaining result ≡ R.remaining reader }
        ensures failed { ⟦<FromRead<R> as Source>⟧.failed result ≡ 0 }
    {
        FromRead {
            reader,
            failures: 0,
        }
    }

    /// The reader, given back.
    pub fn into_inner(self) -> R
        ensures { R.remaining result ≡ ⟦<FromRead<R> as Source>⟧.remaining self }
    {
        let FromRead {
            reader,
            failures: _,
        } = self;
        reader
    }
}

impl<R: Read> Source for FromRead<R> {
    ghost remaining = { λ s. R.remaining s.reader };

    ghost failed = { λ s. s.failures };

    fn failures(&self) -> u64 {
        self.failures
    }

    fn read(&mut self, buf: &mut [u8]) -> Result<usize, Failed> {
        'tries: for _ in 0..u64::MAX {
            match self.reader.read(buf) {
                Ok(n) => return Ok(n),
                Err(error) => {
                    if error.kind() != ErrorKind::Interrupted {
                        break 'tries;
                    }
                }
            }
        }
        self.failures += 1;
        Err(Failed)
    }
}
