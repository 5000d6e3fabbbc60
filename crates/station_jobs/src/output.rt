//! Writing bytes to an output.

ghost use Rattle.std.specs.Prelude.{◌≡◌, ◌≤◌, ◌<◌, length, take, IfErr, IfSome, None, OnErr, OnOk};
ghost use Rattle.std.specs.Io.KnownBytes.{Appends, Keeps};
ghost use Rattle.wire.specs.Streams.{AppendsBeginning};

use crate::station_fault::StationFault;
use std::io::{ErrorKind, Write};

/// Has an output take a prefix of the bytes, and returns its length: at least 1 if there are bytes. An output that
/// fails takes none.
fn write_some<W: Write>(out: &mut W, bytes: &[u8]) -> Option<usize>
    ensures bound { IfSome result (λ n. n ≤ length bytes.now) }
    ensures some { IfSome result (λ n. 0 < length bytes.now → 0 < n) }
    ensures bytes { IfSome result (λ n. Appends (W.contents out.old) (W.contents out.new) (take n bytes.now)) }
    ensures none { result ≡ None → Keeps (W.contents out.old) (W.contents out.new) }
{
    'tries: for _ in 0..u64::MAX {
        match out.write(bytes) {
            Ok(n) if n > 0 || bytes.is_empty() => return Some(n),
            Ok(_) => break,
            Err(error) => {
                if error.kind() != ErrorKind::Interrupted {
                    break 'tries;
                }
            }
        }
    }
    None
}

/// Writes all of the bytes. After a fault, a prefix of them has been written.
fn write_whole<W: Write>(out: &mut W, bytes: &[u8]) -> Result<(), StationFault>
    ensures ok { OnOk result (Appends (W.contents out.old) (W.contents out.new) bytes.now) }
    ensures err { OnErr result (AppendsBeginning (W.contents out.old) (W.contents out.new) bytes.now) }
    ensures only { IfErr result (λ e. e ≡ StationFault.Write) }
{
    let mut at = 0;
    while at < bytes.len() {
        match write_some(out, &bytes[at..]) {
            Some(count) => at += count,
            None => return Err(StationFault::Write),
        }
    }
    Ok(())
}

/// Writes all of the bytes and flushes them. After a fault, a prefix of them may have been written.
pub fn print<W: Write>(out: &mut W, bytes: &[u8]) -> Result<(), StationFault>
    ensures ok { OnOk result (Appends (W.contents out.old) (W.contents out.new) bytes.now) }
    ensures err { OnErr result (AppendsBeginning (W.contents out.old) (W.contents out.new) bytes.now) }
    ensures only { IfErr result (λ e. e ≡ StationFault.Write) }
{
    write_whole(out, bytes)?;
    match out.flush() {
        Ok(()) => Ok(()),
        Err(_) => Err(StationFault::Write),
    }
}
