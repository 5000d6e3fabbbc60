//! Writers of bytes.

ghost use Rattle.std.specs.Prelude.{◌≡◌, ◌≤◌, ◌<◌, ◌+◌, ℕ, List, Option, None, length};
ghost use Rattle.std.specs.Prelude.{IsOk, IfOk, OnOk, OnErr, if◌then◌else◌, is_ok};
ghost use Rattle.std.specs.Io.KnownBytes.{Appends, WriteAppends};
ghost use Rattle.wire.specs.Streams.{AppendsBeginning};

use crate::failure::Failed;

/// A writer that counts its failures.
///
/// Each write requires a count below 18446744073709551615, so that the count can grow.
pub trait Sink {
    /// The bytes that it took so far, if the writer specifies them.
    ghost taken: { Self → Option (List ℕ) } = { λ _. None };

    /// The number of further bytes, at least, that it takes without a failure.
    ghost room: { Self → ℕ } = { λ _. 0 };

    /// The number of calls that failed so far.
    ghost failed: { Self → ℕ };

    /// The number of calls that failed so far.
    fn failures(&self) -> u64
        ensures { result ≡ failed self.now };

    /// Takes a prefix of `bytes`, and returns its length: at least one byte if there is one.
    ///
    /// # Errors
    ///
    /// `Failed`. The call took no byte, and `failures` counts it. Writing a piece of at least one byte never fails if
    /// the writer has room for it.
    fn write(&mut self, bytes: &[u8]) -> Result<usize, Failed>
        requires { failed self.old < u64.MAX }
        ensures bound { IfOk result (λ n. n ≤ length bytes.now) }
        ensures some { IfOk result (λ n. 0 < length bytes.now → 0 < n) }
        ensures bytes { WriteAppends (taken self.old) (taken self.new) result bytes.now }
        ensures failed { failed self.new ≡ (if is_ok result then failed self.old else failed self.old + 1) }
        ensures sure { 0 < length bytes.now → length bytes.now ≤ room self.old → IsOk result }
        ensures room { IfOk result (λ n. room self.old ≤ room self.new + n) };
}

/// Writes all the bytes, in as many calls as it takes.
///
/// # Errors
///
/// `Failed`, exactly when the writer failed in this call. The writer has then taken a prefix of the bytes. Writing
/// never fails if the writer has room for the bytes.
pub fn write_all<W: Sink>(sink: &mut W, bytes: &[u8]) -> Result<(), Failed>
    requires { W.failed sink.old < u64.MAX }
    ensures ok { OnOk result (Appends (W.taken sink.old) (W.taken sink.new) bytes.now) }
    ensures err { OnErr result (AppendsBeginning (W.taken sink.old) (W.taken sink.new) bytes.now) }
    ensures failed { W.failed sink.new ≡ (if is_ok result then W.failed sink.old else W.failed sink.old + 1) }
    ensures sure { length bytes.now ≤ W.room sink.old → IsOk result }
    ensures room { OnOk result (W.room sink.old ≤ W.room sink.new + length bytes.now) }
{
    let mut at = 0;
    while at < bytes.len() {
        at += sink.write(&bytes[at..])?;
    }
    Ok(())
}
