//! Revocations.

ghost use Rattle.std.specs.Prelude.{◌≡◌, ◌<◌, ◌≤◌, ◌+◌, ℕ, List, None, IfOk, IsSome, IsTrue, option_copied};
ghost use Rattle.values.specs.Names.{is_key_id};
ghost use Rattle.values.specs.Serials.{is_serial};
ghost use Rattle.message.specs.Values.{is_range};
ghost use Rattle.message.specs.declared.kinds.Message.TheVariants as message;
ghost use Rattle.office.specs.State.{State};
ghost use Rattle.office.specs.Replies.{revocation_reply};
ghost use Rattle.office.specs.Refusals.{first_holding, key_id_refusals, range_refusals, serial_refusals};
ghost use Rattle.office.specs.Views.{IsView};
ghost use Rattle.office.specs.Decided.{Agrees, Decided, HasRoom, IsLawfulChange, IsMade, published, unpublished};
ghost use Rattle.office.specs.declared.view.Change.TheVariants as change;

use crate::decision::{published, unpublished};
use crate::permission::{may_administer, may_ask_about};
use crate::replies::to_revocation;
use crate::view::{Change, Decision, Stop, View};
use message::SerialRange;
use std::alloc::Global;
use text::Text;
use values::Refusal;

fn refusal_of_serial(view: &View, caller: &[u8], serial: u64) -> Option<Refusal>
    ensures least { (s : State) → Agrees view.now s (message.RevokeSerial serial)
        → result ≡ first_holding (serial_refusals s caller.now serial) }
    ensures there { result ≡ None → IsSome (option_copied view.now.certificate) }
{
    match view.certificate {
        _ if !may_ask_about(view.opening, caller, view.department, view.certificate) => {
            Some(Refusal::NotAllowed)
        }
        Some(_) => None,
        None => Some(Refusal::UnknownSerial),
    }
}

fn refusal_of_range(view: &View, caller: &[u8], range: SerialRange) -> Option<Refusal>
    ensures least { (s : State) → Agrees view.now s (message.RevokeRange range)
        → result ≡ first_holding (range_refusals s caller.now range) }
    ensures first { result ≡ None → view.now.opening.now.first ≤ range.lo }
    ensures issued { result ≡ None → range.hi < view.now.next }
{
    if !view.opening.root.is(caller) {
        return Some(Refusal::NotAllowed);
    }
    if range.lo < view.opening.first || view.next <= range.hi {
        return Some(Refusal::UnknownSerial);
    }
    None
}

fn refusal_of_key_id(view: &View, caller: &[u8], key_id: &Text) -> Option<Refusal>
    ensures { (s : State) → Agrees view.now s (message.RevokeKeyId key_id.now)
        → result ≡ first_holding (key_id_refusals s caller.now key_id.now) }
{
    if !may_administer(view.opening, caller, view.department) {
        return Some(Refusal::NotAllowed);
    }
    match view.department {
        Some(_) => None,
        None => Some(Refusal::NoDepartment),
    }
}

/// The decision if everything to be revoked already is.
fn unchanged(alloc: Global, view: &View) -> Result<Decision, Stop>
    ensures { IsMade result (unpublished view.now (revocation_reply view.now.version) change.Nothing) }
{
    let reply = to_revocation(alloc, view.version)?;
    Ok(unpublished(view, reply, Change::Nothing))
}

/// The decision that revokes more serials.
fn with_range(alloc: Global, view: &View, range: SerialRange, moment: u64) -> Result<Decision, Stop>
    requires { view.now.version < 9223372036854775807 }
    ensures { IsMade result
        (published view.now (revocation_reply (view.now.version + 1)) (change.Range range) moment) }
{
    let reply = to_revocation(alloc, view.version + 1)?;
    Ok(published(view, reply, Change::Range(range), moment))
}

/// The decision that revokes one more key ID.
fn with_key_id(alloc: Global, view: &View, key_id: &Text, moment: u64) -> Result<Decision, Stop>
    requires { view.now.version < 9223372036854775807 }
    ensures { IsMade result
        (published view.now (revocation_reply (view.now.version + 1)) (change.KeyId key_id.now) moment) }
{
    let key_id = key_id.copied(alloc)?;
    let reply = to_revocation(alloc, view.version + 1)?;
    Ok(published(view, reply, Change::KeyId(key_id), moment))
}

/// The decision on revoking a serial.
pub(crate) fn decide_serial(
    alloc: Global,
    view: &View,
    caller: &[u8],
    serial: u64,
    moment: u64,
) -> Result<Decision, Stop>
    requires viewed { IsView view.now }
    requires lawful { IsTrue (is_serial serial) }
    ensures decided { (s : State) → Agrees view.now s (message.RevokeSerial serial) → (nonce : List ℕ)
        → Decided result s caller.now (message.RevokeSerial serial) moment nonce }
    ensures room { (s : State) → Agrees view.now s (message.RevokeSerial serial)
        → IfOk result (λ d. HasRoom d.change s) }
    ensures change { IfOk result (λ d. IsLawfulChange d.change) }
    ensures version { IfOk result (λ d. d.version ≤ view.now.version + 1) }
{
    if let Some(refusal) = refusal_of_serial(view, caller, serial) {
        return Err(Stop::Refused(refusal));
    }
    if view.is_revoked {
        return unchanged(alloc, view);
    }
    let range = SerialRange {
        lo: serial,
        hi: serial,
    };
    with_range(alloc, view, range, moment)
}

/// The decision on revoking the serials of a range.
pub(crate) fn decide_range(
    alloc: Global,
    view: &View,
    caller: &[u8],
    range: SerialRange,
    moment: u64,
) -> Result<Decision, Stop>
    requires viewed { IsView view.now }
    requires lawful { IsTrue (is_range range) }
    ensures decided { (s : State) → Agrees view.now s (message.RevokeRange range) → (nonce : List ℕ)
        → Decided result s caller.now (message.RevokeRange range) moment nonce }
    ensures room { (s : State) → Agrees view.now s (message.RevokeRange range) → IfOk result (λ d. HasRoom d.change s) }
    ensures change { IfOk result (λ d. IsLawfulChange d.change) }
    ensures version { IfOk result (λ d. d.version ≤ view.now.version + 1) }
{
    if let Some(refusal) = refusal_of_range(view, caller, range) {
        return Err(Stop::Refused(refusal));
    }
    if view.is_revoked {
        return unchanged(alloc, view);
    }
    with_range(alloc, view, range, moment)
}

/// The decision on revoking a key ID.
pub(crate) fn decide_key_id(
    alloc: Global,
    view: &View,
    caller: &[u8],
    key_id: &Text,
    moment: u64,
) -> Result<Decision, Stop>
    requires viewed { IsView view.now }
    requires lawful { IsTrue (is_key_id key_id.now) }
    ensures decided { (s : State) → Agrees view.now s (message.RevokeKeyId key_id.now) → (nonce : List ℕ)
        → Decided result s caller.now (message.RevokeKeyId key_id.now) moment nonce }
    ensures room { (s : State) → Agrees view.now s (message.RevokeKeyId key_id.now)
        → IfOk result (λ d. HasRoom d.change s) }
    ensures change { IfOk result (λ d. IsLawfulChange d.change) }
    ensures version { IfOk result (λ d. d.version ≤ view.now.version + 1) }
{
    if let Some(refusal) = refusal_of_key_id(view, caller, key_id) {
        return Err(Stop::Refused(refusal));
    }
    if view.is_key_id_revoked {
        return unchanged(alloc, view);
    }
    with_key_id(alloc, view, key_id, moment)
}
