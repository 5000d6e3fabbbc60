//! Checking a list for a certificate.

ghost use Rattle.std.specs.Prelude.{◌≡◌, ◌≢◌, ◌<◌, Err, IfErr, IfSome, OnErr, OnOk};
ghost use Rattle.std.specs.Io.KnownBytes.{Appends};
ghost use Rattle.wire.specs.Streams.{AppendsBeginning};
ghost use Rattle.krl.specs.Faults.{FirstFault};
ghost use Rattle.krl.specs.declared.krl_fault.KrlFault.{KrlFault};
ghost use Rattle.office_jobs.specs.Checking.{Checks, ChecksFile, ChecksPart, verdict_text};
ghost use Rattle.office_jobs.specs.Commands.{ChecksIn};
ghost use Rattle.office_jobs.specs.Ending.{failures_after};
ghost use Rattle.office_jobs.specs.Faults.{IsOfChecking};
ghost use Rattle.office_jobs.specs.Finding.{WithFile};

use crate::file_opening::open_file;
use crate::file_reader::{read_key, read_list};
use crate::job_fault::JobFault;
use crate::output::write_out;
use crate::world::World;
use std::alloc::Global;
use std::io::Read;
use wire::Sink;

fn print_verdict<W: Sink>(out: &mut W, revoked: bool) -> Result<(), JobFault>
    requires { W.failed out.old < u64.MAX }
    ensures ok { OnOk result (Appends (W.taken out.old) (W.taken out.new) (verdict_text revoked)) }
    ensures part { OnErr result (AppendsBeginning (W.taken out.old) (W.taken out.new) (verdict_text revoked)) }
    ensures failed { W.failed out.new ≡ failures_after (W.failed out.old) result }
    ensures only { IfErr result (λ e. e ≡ JobFault.Write) }
{
    let verdict = if revoked { "revoked\n" } else { "clear\n" };
    write_out(out, verdict.as_bytes())
}

/// Prints whether the list from a reader revokes the certificate with this serial and key ID, under this CA.
#[tactic(auto, using(crate::proofs::Causes::list_file, crate::proofs::Causes::verdict))]
pub fn check_list<R: Read + Drop, W: Sink>(
    alloc: Global,
    ca: &[u8; 32],
    list: R,
    serial: u64,
    key_id: &[u8],
    out: &mut W,
) -> Result<(), JobFault>
    requires { W.failed out.old < u64.MAX }

    // The printed text is the verdict of the list.
    ensures ok { OnOk result (IfSome (R.remaining list) (λ bytes. Checks bytes ca.now serial key_id.now
        (W.taken out.old) (W.taken out.new))) }

    // A call of the output failed, and a beginning of the verdict is printed. `Write` is the fault exactly then.
    ensures part { result ≡ Err JobFault.Write → IfSome (R.remaining list) (λ bytes. ChecksPart bytes ca.now serial
        key_id.now (W.taken out.old) (W.taken out.new)) }
    ensures failed { W.failed out.new ≡ failures_after (W.failed out.old) result }

    // The bytes are no list, and this is their first fault from the left.
    ensures fault { (f : KrlFault) → result ≡ Err (JobFault.List f)
        → IfSome (R.remaining list) (λ bytes. FirstFault bytes f) }

    // After any fault except the output's, nothing is printed.
    ensures only { IfErr result IsOfChecking }
    ensures silent { IfErr result (λ e. e ≢ JobFault.Write → out.new ≡ out.old) }
{
    let bytes = read_list(alloc, list)?;
    match krl::check(bytes.as_slice(), ca, serial, key_id) {
        Ok(revoked) => print_verdict(out, revoked),
        Err(fault) => Err(JobFault::from(fault)),
    }
}

// Checks the list in the file at a path in the same way.
fn check_at<W: World + AllocGlobal, O: Sink>(
    world: &mut W,
    ca: &[u8; 32],
    list: &str,
    serial: u64,
    key_id: &str,
    out: &mut O,
) -> Result<(), JobFault>
    requires { O.failed out.old < u64.MAX }
    ensures checks { WithFile W.World W.File.remaining world.old world.new list.now
        (λ bytes opened r. (world.new ≡ opened)
        × ChecksFile bytes ca.now serial key_id.now (O.taken out.old) (O.taken out.new) r)
        (O.taken out.new ≡ O.taken out.old) result }
    ensures failed { O.failed out.new ≡ failures_after (O.failed out.old) result }
{
    match open_file(world, list) {
        Ok(list) => check_list(world.alloc(), ca, list, serial, key_id.as_bytes(), out),
        Err(fault) => Err(fault),
    }
}

/// Prints whether the list in the file at a path revokes the certificate with this serial and key ID, under the CA of a
/// file.
pub(crate) fn check_in<W: World + AllocGlobal, O: Sink>(
    world: &mut W,
    ca: W::File,
    list: &str,
    serial: u64,
    key_id: &str,
    out: &mut O,
) -> Result<(), JobFault>
    requires { O.failed out.old < u64.MAX }
    ensures checks { ChecksIn W.World W.File.remaining world.old world.new list.now serial key_id.now
        (W.File.remaining ca) (O.taken out.old) (O.taken out.new) result }
    ensures failed { O.failed out.new ≡ failures_after (O.failed out.old) result }
{
    match read_key(world.alloc(), ca) {
        Ok(ca) => check_at(world, &ca.key, list, serial, key_id, out),
        Err(fault) => Err(fault),
    }
}
