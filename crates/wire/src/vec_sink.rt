//! Vectors as sinks.

ghost use Rattle.std.specs.Prelude.{◌≡◌, ◌-◌, Some, vec_len};
ghost use Rattle.std.specs.Vec.{vec_capacity};

use crate::failure::Failed;
use crate::sink::Sink;

/// A vector to which bytes are appended, with the number of its failures.
///
/// A write takes the whole piece. It fails only if an allocation was refused, so never within the vector's capacity.
#[derive(Drop)]
pub struct VecSink {
    bytes: Vec<u8>,
    failures: u64,
}

impl VecSink {
    /// The vector, with no failure yet.
    pub fn new(bytes: Vec<u8>) -> VecSink
        ensures taken { ⟦<VecSink as Sink>⟧.taken result ≡ Some bytes.items }
        ensures room { ⟦<VecSink as Sink>⟧.room result ≡ vec_capacity bytes - vec_len bytes }
        ensures failed { ⟦<VecSink as Sink>⟧.failed result ≡ 0 }
    {
        VecSink { bytes, failures: 0 }
    }

    /// The vector, given back.
    pub fn into_vec(self) -> Vec<u8>
        ensures { ⟦<VecSink as Sink>⟧.taken self ≡ Some result.items }
    {
        let VecSink { bytes, failures: _ } = self;
        bytes
    }

    /// The bytes that it holds.
    pub fn as_slice(&self) -> &[u8]
        ensures { ⟦<VecSink as Sink>⟧.taken self.now ≡ Some result.now }
    {
        self.bytes.as_slice()
    }
}

impl Sink for VecSink {
    ghost taken = { λ s. Some s.bytes.items };

    ghost room = { λ s. vec_capacity s.bytes - vec_len s.bytes };

    ghost failed = { λ s. s.failures };

    fn failures(&self) -> u64 {
        self.failures
    }

    fn write(&mut self, bytes: &[u8]) -> Result<usize, Failed> {
        if self.bytes.extend_from_slice(bytes).is_err() {
            self.failures += 1;
            return Err(Failed);
        }
        Ok(bytes.len())
    }
}
