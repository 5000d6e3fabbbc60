//! Readers of bytes.

ghost use Rattle.std.specs.Prelude.{◌≡◌, ◌≤◌, ◌<◌, ◌+◌, ℕ, List, Option, None, length};
ghost use Rattle.std.specs.Prelude.{take, drop, IfOk, OnErr, if◌then◌else◌, is_ok};
ghost use Rattle.std.specs.Io.KnownBytes.{Consumes, Keeps, IsAtEnd, ReadConsumes};
ghost use Rattle.wire.specs.Streams.{ConsumesBeginning};

use crate::failure::Failed;

/// A reader that counts its failures.
///
/// Each read requires a count below 18446744073709551615, so that the count can grow.
pub trait Source {
    /// The bytes that reads will give from here on, if the reader specifies them.
    ghost remaining: { Self → Option (List ℕ) } = { λ _. None };

    /// The number of calls that failed so far.
    ghost failed: { Self → ℕ };

    /// The number of calls that failed so far.
    fn failures(&self) -> u64
        ensures { result ≡ failed self.now };

    /// Reads the next bytes into the front of `buf`, and returns their number. No byte for a `buf` that isn't empty
    /// means that nothing is left.
    ///
    /// # Errors
    ///
    /// `Failed`. The call took nothing from the reader, and `failures` counts it.
    fn read(&mut self, buf: &mut [u8]) -> Result<usize, Failed>
        requires { failed self.old < u64.MAX }
        ensures bound { IfOk result (λ n. n ≤ length buf.new) }
        ensures bytes { ReadConsumes (remaining self.old) (remaining self.new) result buf.new }
        ensures failed { failed self.new ≡ (if is_ok result then failed self.old else failed self.old + 1) };
}

/// One read, into `buf` after its first `at` bytes, which are unchanged.
fn read_behind<S: Source>(source: &mut S, buf: &mut [u8], at: usize) -> Result<usize, Failed>
    requires { (at < length buf.old) × (S.failed source.old < u64.MAX) }
    ensures kept { take at buf.new ≡ take at buf.old }
    ensures bound { IfOk result (λ n. at + n ≤ length buf.new) }
    ensures bytes { IfOk result (λ n. Consumes (S.remaining source.old) (S.remaining source.new)
        (take n (drop at buf.new))) }
    ensures end { IfOk result (λ n. n ≡ 0 → IsAtEnd (S.remaining source.new)) }
    ensures err { OnErr result (Keeps (S.remaining source.old) (S.remaining source.new)) }
    ensures failed { S.failed source.new ≡ (if is_ok result then S.failed source.old else S.failed source.old + 1) }
{
    source.read(&mut buf[at..])
}

/// Reads until `buf` is full or nothing is left, in as many calls as it takes, and returns the number of bytes read:
/// all that fit, or fewer if nothing is left.
///
/// # Errors
///
/// `Failed`, exactly when the reader failed in this call. It fails before `buf` is full, and the bytes read until then
/// have been taken from the reader.
pub fn read_full<S: Source>(source: &mut S, buf: &mut [u8]) -> Result<usize, Failed>
    requires { S.failed source.old < u64.MAX }
    ensures bound { IfOk result (λ n. n ≤ length buf.new) }
    ensures bytes { IfOk result (λ n. Consumes (S.remaining source.old) (S.remaining source.new) (take n buf.new)) }
    ensures end { IfOk result (λ n. n < length buf.new → IsAtEnd (S.remaining source.new)) }
    ensures err { OnErr result (ConsumesBeginning (S.remaining source.old) (S.remaining source.new) buf.new) }
    ensures failed { S.failed source.new ≡ (if is_ok result then S.failed source.old else S.failed source.old + 1) }
{
    let mut at = 0;
    while at < buf.len() {
        let n = read_behind(source, buf, at)?;
        if n == 0 {
            return Ok(at);
        }
        at += n;
    }
    Ok(at)
}
