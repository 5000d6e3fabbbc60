//! Taking requests and nonces from their sources.

ghost use Rattle.std.specs.Prelude.{◌≡◌, ◌<◌, ◌+◌, length, IfOk, IfErr, if◌then◌else◌};
ghost use Rattle.std.specs.Io.KnownBytes.{Consumes};
ghost use Rattle.http_requests.specs.Plans.{posted_with};
ghost use Rattle.web.specs.Faults.{is_read, IsOfTaking};
ghost use Rattle.web.specs.Requests.{IsFront, IsTaken, TakesBody};
ghost use Rattle.web.specs.Nonces.{Draws, HasNonceCause};

use crate::request::Request;
use crate::serve_fault::ServeFault;
use http_requests::{MAX_HEAD, Plan, Progress, Routes, Spot, plan_of};
use std::alloc::Global;
use text::Text;
use values::Refusal;
use wire::{Source, read_full};

/// Takes bytes one at a time, up to the first that decides whether there is a head.
fn take_front<R: Source>(source: &mut R, alloc: Global) -> Result<Vec<u8>, ServeFault>
    requires { R.failed source.old < u64.MAX }
    ensures consumed { IfOk result (λ taken. Consumes (R.remaining source.old) (R.remaining source.new) taken.items) }
    ensures front { IfOk result (λ taken. IsFront (R.remaining source.new) taken.items) }
    ensures failed { R.failed source.new ≡ (if is_read result then R.failed source.old + 1 else R.failed source.old) }
    ensures only { IfErr result IsOfTaking }
{
    let mut taken = Vec::new(alloc);
    let mut spot = Spot::start();
    for _count in 0..MAX_HEAD {
        let mut byte = [0];
        let Ok(n) = source.read(&mut byte) else {
            return Err(ServeFault::Read);
        };
        if n == 0 {
            return Ok(taken);
        }
        let Ok(()) = taken.push(byte[0]) else {
            return Err(ServeFault::NoMemory);
        };
        spot = spot.next(byte[0]);
        match spot.progress(&taken) {
            Progress::Waits => {}
            Progress::Whole => return Ok(taken),
            Progress::Hopeless => return Ok(taken),
        }
    }
    Ok(taken)
}

/// Takes a message of `size` bytes, or all bytes there are.
fn take_message<R: Source>(
    source: &mut R,
    alloc: Global,
    caller: &[u8],
    key: &[u8],
    size: usize,
) -> Result<Request, ServeFault>
    requires { R.failed source.old < u64.MAX }
    ensures body { IfOk result (TakesBody (R.remaining source.old) (R.remaining source.new) size
        (posted_with caller.now key.now size)) }
    ensures failed { R.failed source.new ≡ (if is_read result then R.failed source.old + 1 else R.failed source.old) }
    ensures only { IfErr result IsOfTaking }
{
    let Ok(mut message) = vec![in alloc; 0; size] else {
        return Err(ServeFault::NoMemory);
    };
    let Ok(n) = read_full(source, &mut message) else {
        return Err(ServeFault::Read);
    };
    if n < size {
        return Ok(Request::Refused(Refusal::ShortBody));
    }
    Ok(Request::Post {
        caller: Text::from_slice(alloc, caller)?,
        key: Text::from_slice(alloc, key)?,
        message: Text::from_vec(message),
    })
}

/// Takes the bytes of one request and no more. The head is parsed once, to find what it asks.
pub(crate) fn take_request<R: Source>(
    routes: &Routes,
    source: &mut R,
    alloc: Global,
) -> Result<Request, ServeFault>
    requires { R.failed source.old < u64.MAX }
    ensures taken { IfOk result (IsTaken (R.remaining source.old) (R.remaining source.new)) }
    ensures failed { R.failed source.new ≡ (if is_read result then R.failed source.old + 1 else R.failed source.old) }
    ensures only { IfErr result IsOfTaking }
{
    let head = take_front(source, alloc)?;
    match plan_of(routes, &head) {
        Plan::Refused(refusal) => Ok(Request::Refused(refusal)),
        Plan::Get(resource) => Ok(Request::Get(resource)),
        Plan::Post { caller, key, size } => take_message(source, alloc, caller, key, size),
    }
}

/// Takes a nonce.
pub(crate) fn take_nonce<N: Source>(source: &mut N) -> Result<[u8; 32], ServeFault>
    requires { N.failed source.old < u64.MAX }
    ensures consumed { IfOk result (λ nonce. Consumes (N.remaining source.old) (N.remaining source.new) nonce) }
    ensures size { IfOk result (λ nonce. length nonce ≡ 32) }
    ensures drawn { Draws result (N.remaining source.old) (N.remaining source.new) }
    ensures fails { HasNonceCause result (N.failed source.old) (N.failed source.new)
        (N.remaining source.old) (N.remaining source.new) }
    ensures only { IfErr result (λ e. e ≡ ServeFault.Nonces) }
{
    let mut nonce = [0; 32];
    match read_full(source, &mut nonce) {
        Ok(n) if n == nonce.len() => Ok(nonce),
        _ => Err(ServeFault::Nonces),
    }
}
