//! Buffered sources.

ghost use Rattle.std.specs.Prelude.{◌≡◌, ◌≤◌, ◌<◌, ◌+◌, length, min, take, OnOk, if◌then◌else◌, is_ok};
ghost use Rattle.std.specs.List.{slice_range};
ghost use Rattle.std.specs.Io.KnownBytes.{Keeps, IsAtEnd, prepend_known};

use crate::failure::Failed;
use crate::source::Source;

/// The most bytes that are read ahead.
const ROOM: usize = 4096;

/// A source that is read ahead, in pieces of at most 4096 bytes, which are held until they are read.
///
/// The buffer is part of the value, so nothing is allocated. The source is read only when nothing is held, and then a
/// `buf` that is at least as large as the buffer is filled by the source directly.
#[derive(Drop)]
pub struct Buffered<S> {
    source: S,
    room: [u8; ROOM],
    at: usize,
    end: usize,
    ghost ordered: { at ≤ end },
    ghost within: { end ≤ length room },
}

/// Copies as many of the bytes as fit to the front of `buf`, and returns their number.
fn copy_front(bytes: &[u8], buf: &mut [u8]) -> usize
    ensures count { result ≡ min (length bytes.now) (length buf.new) }
    ensures front { take result buf.new ≡ take result bytes.now }
{
    let n = bytes.len().min(buf.len());
    buf[..n].copy_from_slice(&bytes[..n]);
    n
}

impl<S: Source> Buffered<S> {
    /// The source, with nothing read ahead yet.
    pub fn new(source: S) -> Buffered<S>
        ensures remaining { ⟦<Buffered<S> as Source>⟧.remaining result ≡ S.remaining source }
        ensures failed { ⟦<Buffered<S> as Source>⟧.failed result ≡ S.failed source }
    {
        Buffered {
            source,
            room: [0; ROOM],
            at: 0,
            end: 0,
        }
    }

    // Reads ahead, unless something is held.
    fn fill(&mut self) -> Result<(), Failed>
        requires { S.failed self.old.source < u64.MAX }
        ensures bytes { Keeps (⟦<Buffered<S> as Source>⟧.remaining self.old)
            (⟦<Buffered<S> as Source>⟧.remaining self.new) }
        ensures end { OnOk result (self.new.at ≡ self.new.end → IsAtEnd (S.remaining self.new.source)) }
        ensures failed { S.failed self.new.source
            ≡ (if is_ok result then S.failed self.old.source else S.failed self.old.source + 1) }
    {
        if self.at < self.end {
            return Ok(());
        }
        let n = self.source.read(&mut self.room)?;
        self.at = 0;
        self.end = n;
        Ok(())
    }
}

impl<S: Source> Source for Buffered<S> {
    ghost remaining = { λ s. prepend_known (slice_range s.room s.at s.end) (S.remaining s.source) };

    ghost failed = { λ s. S.failed s.source };

    fn failures(&self) -> u64 {
        self.source.failures()
    }

    fn read(&mut self, buf: &mut [u8]) -> Result<usize, Failed> {
        if self.at == self.end && ROOM <= buf.len() {
            return self.source.read(buf);
        }
        self.fill()?;
        let n = copy_front(&self.room[self.at..self.end], buf);
        self.at += n;
        Ok(n)
    }
}
