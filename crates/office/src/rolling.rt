//! Rollovers: new CAs that sign from the next serial on.

ghost use Rattle.std.specs.Prelude.{◌≡◌, ◌<◌, ◌≤◌, ◌+◌, ℕ, List, None, IfOk, length};
ghost use Rattle.message.specs.declared.kinds.Message.TheVariants as message;
ghost use Rattle.office.specs.State.{State, is_ca};
ghost use Rattle.office.specs.Refusals.{first_holding, rollover_refusals};
ghost use Rattle.office.specs.Views.{IsView};
ghost use Rattle.office.specs.Decided.{Agrees, Decided, HasRoom, IsLawfulChange};

use crate::ca::{Ca, MOST_CAS};
use crate::decision::{published, unpublished};
use crate::replies::to_rollover;
use crate::view::{Change, Decision, Stop, View};
use lines::KeyLine;
use std::alloc::Global;
use values::Refusal;

fn is_ca(cas: &[Ca], key: &[u8]) -> bool
    ensures { result ≡ is_ca cas.now key.now }
{
    cas.iter().any(|ca| ca.key.as_slice() == key)
}

/// The refusal with the least number for a rollover.
fn refusal_of_rollover(view: &View, caller: &[u8], line: &KeyLine) -> Option<Refusal>
    ensures least { (s : State) → Agrees view.now s (message.Rollover line.now)
        → result ≡ first_holding (rollover_refusals s caller.now line.now.key) }
    ensures few { result ≡ None → length view.now.cas.now < 8 }
{
    if !view.opening.root.is(caller) {
        return Some(Refusal::NotAllowed);
    }
    if is_ca(view.cas, line.key.as_slice()) {
        return Some(Refusal::CaInUse);
    }
    if MOST_CAS <= view.cas.len() {
        return Some(Refusal::TooManyCas);
    }
    None
}

/// The decision on a new CA. If key IDs are revoked, the published list gets one more section.
pub(crate) fn decide_rollover(
    alloc: Global,
    view: &View,
    caller: &[u8],
    line: &KeyLine,
    moment: u64,
) -> Result<Decision, Stop>
    requires { IsView view.now }
    ensures decided { (s : State) → Agrees view.now s (message.Rollover line.now) → (nonce : List ℕ)
        → Decided result s caller.now (message.Rollover line.now) moment nonce }
    ensures room { (s : State) → Agrees view.now s (message.Rollover line.now) → IfOk result (λ d. HasRoom d.change s) }
    ensures change { IfOk result (λ d. IsLawfulChange d.change) }
    ensures version { IfOk result (λ d. d.version ≤ view.now.version + 1) }
{
    if let Some(refusal) = refusal_of_rollover(view, caller, line) {
        return Err(Stop::Refused(refusal));
    }
    let reply = to_rollover(alloc, view.cas.len() as u64 + 1, view.next)?;
    let change = Change::Ca(Ca {
        key: line.key,
        since: view.next,
    });
    if view.has_revoked_key_ids {
        Ok(published(view, reply, change, moment))
    } else {
        Ok(unpublished(view, reply, change))
    }
}
