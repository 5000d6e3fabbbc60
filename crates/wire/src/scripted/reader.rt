//! Readers of bytes in memory.

ghost use Rattle.std.specs.Prelude.{◌≡◌, ◌≤◌, ◌<◌, ◌+◌, ◌↔◌, Some, [], length, min, IfOk, IsErr, if◌then◌else◌, is_ok};
ghost use Rattle.std.specs.Io.KnownBytes.{ReadConsumes};
ghost use Rattle.wire.specs.Scripts.{paced};

use super::{Ending, Pace};
use crate::failure::Failed;
use crate::source::Source;

/// A reader of bytes in memory, at a given pace, that ends or fails after the last byte.
#[derive(Drop)]
pub struct ScriptedReader<'a> {
    /// The bytes that it still gives.
    pub rest: &'a [u8],
    /// The number of bytes that a call gives.
    pub pace: Pace,
    /// What it does once it has given them all.
    pub ending: Ending,
    /// The number of calls that failed so far.
    pub failures: u64,
}

impl<'a> ScriptedReader<'a> {
    /// A reader that gives these bytes, with no failure yet.
    pub fn new(bytes: &'a [u8], pace: Pace, ending: Ending) -> ScriptedReader<'a>
        ensures rest { result.rest.now ≡ bytes.now }
        ensures pace { result.pace ≡ pace }
        ensures ending { result.ending ≡ ending }
        ensures failures { result.failures ≡ 0 }
    {
        ScriptedReader {
            rest: bytes,
            pace,
            ending,
            failures: 0,
        }
    }
}

impl Source for ScriptedReader<'_> {
    ghost remaining = { λ s. Some s.rest.now };

    ghost failed = { λ s. s.failures };

    fn failures(&self) -> u64 {
        self.failures
    }

    fn read(&mut self, buf: &mut [u8]) -> Result<usize, Failed>
        requires { self.old.failures < u64.MAX }

        // What every source ensures.
        ensures bound { IfOk result (λ n. n ≤ length buf.new) }
        ensures bytes { ReadConsumes (Some self.old.rest.now) (Some self.new.rest.now) result buf.new }
        ensures failed { self.new.failures ≡ (if is_ok result then self.old.failures else self.old.failures + 1) }

        // What the script ensures.
        ensures paced { IfOk result (λ n. n ≡ paced self.old.pace (min (length self.old.rest.now) (length buf.new))) }
        ensures fails { IsErr result ↔ ((self.old.rest.now ≡ []) × (self.old.ending ≡ Ending.Fails)) }
        ensures script { (self.new.pace ≡ self.old.pace) × (self.new.ending ≡ self.old.ending) }
    {
        if self.rest.is_empty() && self.ending == Ending::Fails {
            self.failures += 1;
            return Err(Failed);
        }
        let n = self.pace.of(self.rest.len().min(buf.len()));
        let (front, rest) = self.rest.split_at(n);
        buf[..n].copy_from_slice(front);
        self.rest = rest;
        Ok(n)
    }
}
