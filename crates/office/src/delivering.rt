//! Delivered signatures.

ghost use Rattle.std.specs.Prelude.{◌≡◌, ℕ, List, IfOk, IsTrue};
ghost use Rattle.std.specs.Option.{option_copied};
ghost use Rattle.message.specs.Values.{is_delivery};
ghost use Rattle.message.specs.declared.kinds.Message.TheVariants as message;
ghost use Rattle.office.specs.State.{State};
ghost use Rattle.office.specs.Refusals.{delivery_refusals, first_holding, is_other};
ghost use Rattle.office.specs.Decided.{Agrees, Decided, HasRoom, IsLawfulChange};

use crate::decision::unpublished;
use crate::replies::to_delivery;
use crate::view::{Change, Decision, Stop, View};
use lines::{Signature, body_digest};
use message::Delivery;
use std::alloc::Global;
use values::Refusal;

/// Whether a signature is stored that differs from this one.
fn is_other(signature: &Signature, kept: Option<&Signature>) -> bool
    ensures { result ≡ is_other signature.now (option_copied kept.entry) }
{
    match kept {
        Some(kept) => kept.bytes.as_slice() != signature.bytes.as_slice(),
        None => false,
    }
}

/// The refusal with the least number for a delivery.
fn refusal_of_delivery(view: &View, caller: &[u8], delivery: &Delivery) -> Option<Refusal>
    ensures { (s : State) → Agrees view.now s (message.Deliver delivery.now)
        → result ≡ first_holding (delivery_refusals s caller.now delivery.now) }
{
    if !view.opening.station.is(caller) {
        return Some(Refusal::NotAllowed);
    }
    let Some(certificate) = view.certificate else {
        return Some(Refusal::UnknownSerial);
    };
    if body_digest(certificate.body.as_slice()).as_slice() != delivery.digest.as_slice() {
        return Some(Refusal::WrongDigest);
    }
    if view.is_revoked || view.is_key_id_revoked {
        return Some(Refusal::Revoked);
    }
    if is_other(&delivery.signature, certificate.signature.as_ref()) {
        return Some(Refusal::AlreadySigned);
    }
    None
}

/// The decision on a signature for a certificate.
pub(crate) fn decide_delivery(
    alloc: Global,
    view: &View,
    caller: &[u8],
    delivery: &Delivery,
) -> Result<Decision, Stop>
    requires { IsTrue (is_delivery delivery.now) }
    ensures decided { (s : State) → Agrees view.now s (message.Deliver delivery.now) → (moment : ℕ) (nonce : List ℕ)
        → Decided result s caller.now (message.Deliver delivery.now) moment nonce }
    ensures room { (s : State) → Agrees view.now s (message.Deliver delivery.now)
        → IfOk result (λ d. HasRoom d.change s) }
    ensures change { IfOk result (λ d. IsLawfulChange d.change) }
    ensures version { IfOk result (λ d. d.version ≡ view.now.version) }
{
    if let Some(refusal) = refusal_of_delivery(view, caller, delivery) {
        return Err(Stop::Refused(refusal));
    }
    let reply = to_delivery(alloc, delivery.serial)?;
    let change = Change::Signature {
        serial: delivery.serial,
        signature: delivery.signature,
    };
    Ok(unpublished(view, reply, change))
}
