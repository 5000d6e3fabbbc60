//! Writers in memory that fail after a number of bytes.

ghost use Rattle.std.specs.Prelude.{◌≡◌, ◌≤◌, ◌<◌, ◌+◌, Some, [], length, min, IfOk};
ghost use Rattle.std.specs.Prelude.{IsOk, OnErr, IsErr, if◌then◌else◌, is_ok, vec_len};
ghost use Rattle.std.specs.Io.KnownBytes.{WriteAppends};
ghost use Rattle.std.specs.Vec.{vec_capacity};
ghost use Rattle.wire.specs.Scripts.{paced};

use super::Pace;
use crate::failure::Failed;
use crate::sink::Sink;
use std::alloc::Global;

/// A writer that stores the bytes it takes, at a given pace, and fails once it has taken a given number of bytes.
/// An allocation that is refused is a failure too.
#[derive(Drop)]
pub struct ScriptedWriter {
    /// The bytes that it took.
    pub taken: Vec<u8>,
    /// The number of bytes that a call takes.
    pub pace: Pace,
    /// The number of further bytes that it takes.
    pub left: usize,
    /// The number of calls that failed so far.
    pub failures: u64,
}

impl ScriptedWriter {
    /// A writer that takes at most `limit` bytes in all, with no failure yet.
    pub fn new(alloc: Global, pace: Pace, limit: usize) -> ScriptedWriter
        ensures taken { result.taken.items ≡ [] }
        ensures pace { result.pace ≡ pace }
        ensures left { result.left ≡ limit }
        ensures failures { result.failures ≡ 0 }
    {
        ScriptedWriter {
            taken: Vec::new(alloc),
            pace,
            left: limit,
            failures: 0,
        }
    }
}

impl Sink for ScriptedWriter {
    ghost taken = { λ s. Some s.taken.items };

    ghost failed = { λ s. s.failures };

    fn failures(&self) -> u64 {
        self.failures
    }

    fn write(&mut self, bytes: &[u8]) -> Result<usize, Failed>
        requires { self.old.failures < u64.MAX }

        // What every sink ensures.
        ensures bound { IfOk result (λ n. n ≤ length bytes.now) }
        ensures some { IfOk result (λ n. 0 < length bytes.now → 0 < n) }
        ensures bytes { WriteAppends (Some self.old.taken.items) (Some self.new.taken.items) result bytes.now }
        ensures failed { self.new.failures ≡ (if is_ok result then self.old.failures else self.old.failures + 1) }

        // What the script ensures. Below its limit it fails only if an allocation was refused.
        ensures paced { IfOk result (λ n. n ≡ paced self.old.pace (min (length bytes.now) self.old.left)) }
        ensures left { IfOk result (λ n. self.new.left + n ≡ self.old.left) }
        ensures full { 0 < length bytes.now → self.old.left ≡ 0 → IsErr result }
        ensures fits { 0 < self.old.left → vec_len self.old.taken + length bytes.now ≤ vec_capacity self.old.taken
            → IsOk result }
        ensures stays { OnErr result (self.new.left ≡ self.old.left) }
        ensures pace { self.new.pace ≡ self.old.pace }
    {
        let n = self.pace.of(bytes.len().min(self.left));
        let is_full = n == 0 && !bytes.is_empty();
        if is_full || self.taken.extend_from_slice(&bytes[..n]).is_err() {
            self.failures += 1;
            return Err(Failed);
        }
        self.left -= n;
        Ok(n)
    }
}
