//! Nonce sources in memory.

ghost use Rattle.std.specs.Prelude.{◌≡◌, ◌≤◌, ◌<◌, ◌+◌, ◌↔◌, Some, length, min};
ghost use Rattle.std.specs.Prelude.{replicate, IfOk, IsErr, if◌then◌else◌, is_ok};
ghost use Rattle.std.specs.Io.KnownBytes.{ReadConsumes};

use super::Ending;
use crate::failure::Failed;
use crate::source::Source;

/// A nonce source that gives the same byte repeatedly, and ends or fails after a given number of bytes.
#[derive(Drop)]
pub struct ScriptedNonces {
    /// The byte that it gives.
    pub byte: u8,
    /// The number of bytes that it still gives.
    pub left: usize,
    /// What it does once it has given them.
    pub ending: Ending,
    /// The number of calls that failed so far.
    pub failures: u64,
}

impl ScriptedNonces {
    /// A source that gives this byte `count` times, with no failure yet.
    pub fn new(byte: u8, count: usize, ending: Ending) -> ScriptedNonces
        ensures { result ≡ record { byte = byte; left = count; ending = ending; failures = 0 } }
    {
        ScriptedNonces {
            byte,
            left: count,
            ending,
            failures: 0,
        }
    }
}

impl Source for ScriptedNonces {
    ghost remaining = { λ s. Some (replicate s.left s.byte) };

    ghost failed = { λ s. s.failures };

    fn failures(&self) -> u64 {
        self.failures
    }

    fn read(&mut self, buf: &mut [u8]) -> Result<usize, Failed>
        requires { self.old.failures < u64.MAX }

        // What every source ensures.
        ensures bound { IfOk result (λ n. n ≤ length buf.new) }
        ensures bytes { ReadConsumes (Some (replicate self.old.left self.old.byte))
            (Some (replicate self.new.left self.new.byte)) result buf.new }
        ensures failed { self.new.failures ≡ (if is_ok result then self.old.failures else self.old.failures + 1) }

        // What the script ensures.
        ensures most { IfOk result (λ n. n ≡ min self.old.left (length buf.new)) }
        ensures fails { IsErr result ↔ ((self.old.left ≡ 0) × (self.old.ending ≡ Ending.Fails)) }
        ensures script { (self.new.byte ≡ self.old.byte) × (self.new.ending ≡ self.old.ending) }
    {
        if self.left == 0 && self.ending == Ending::Fails {
            self.failures += 1;
            return Err(Failed);
        }
        let n = self.left.min(buf.len());
        buf[..n].fill(self.byte);
        self.left -= n;
        Ok(n)
    }
}
