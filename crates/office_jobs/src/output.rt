//! Outputs: writing bytes to one, and flushing it.

ghost use Rattle.std.specs.Prelude.{◌≡◌, ◌<◌, ◌+◌, IfErr, OnErr, OnOk, ⊤, if◌then◌else◌, is_ok};
ghost use Rattle.std.specs.Io.KnownBytes.{Appends, Keeps};
ghost use Rattle.wire.specs.Streams.{AppendsBeginning};
ghost use Rattle.office_jobs.specs.Ending.{failures_after};

use crate::job_fault::JobFault;
use wire::{Failed, Sink, write_all};

/// A writer that counts its failures, and that may hold back what it took until it is flushed.
pub trait Output: Sink {
    /// All that it took was passed on.
    ghost is_flushed: { Self → Type 0 };

    /// Passes on what it held back.
    ///
    /// # Errors
    ///
    /// `Failed`, and `failures` counts it.
    fn flush(&mut self) -> Result<(), Failed>
        requires { Self.failed self.old < u64.MAX }
        ensures kept { Keeps (Self.taken self.old) (Self.taken self.new) }
        ensures failed { Self.failed self.new
            ≡ (if is_ok result then Self.failed self.old else Self.failed self.old + 1) }
        ensures flushed { OnOk result (is_flushed self.new) };
}

/// Writes all of the bytes.
///
/// # Errors
///
/// `Write`, exactly if a call of the output failed. It has then taken a beginning of the bytes.
pub fn write_out<O: Sink>(out: &mut O, bytes: &[u8]) -> Result<(), JobFault>
    requires { O.failed out.old < u64.MAX }
    ensures ok { OnOk result (Appends (O.taken out.old) (O.taken out.new) bytes.now) }
    ensures part { OnErr result (AppendsBeginning (O.taken out.old) (O.taken out.new) bytes.now) }
    ensures failed { O.failed out.new ≡ failures_after (O.failed out.old) result }
    ensures only { IfErr result (λ e. e ≡ JobFault.Write) }
{
    match write_all(out, bytes) {
        Ok(()) => Ok(()),
        Err(_) => Err(JobFault::Write),
    }
}
