//! Renewals.

ghost use Rattle.std.specs.Prelude.{◌≡◌, ◌<◌, ◌≤◌, None, IfOk, IsSome, IsTrue};
ghost use Rattle.message.specs.Values.{is_renewal};
ghost use Rattle.message.specs.declared.kinds.Message.TheVariants as message;
ghost use Rattle.office.specs.State.{State, newest_key};
ghost use Rattle.office.specs.Refusals.{first_holding, renewal_refusals};
ghost use Rattle.office.specs.Certificates.{renewed_certificate};
ghost use Rattle.office.specs.Views.{IsRenewable, IsView};
ghost use Rattle.office.specs.Decided.{Agrees, Decided, HasRoom, IsLawfulChange, IsMade, certified};

use crate::certificate::{Certificate, copied_fields};
use crate::decision::certified;
use crate::issuing::newest_key;
use crate::permission::{is_renewal_permitted_to, may_ask_about};
use crate::view::{Decision, Stop, View};
use cert::CertFields;
use message::Renewal;
use std::alloc::Global;
use values::Refusal;

/// The refusal with the least number for a renewal.
fn refusal_of_renewal(view: &View, caller: &[u8], renewal: &Renewal, moment: u64) -> Option<Refusal>
    ensures least { (s : State) → Agrees view.now s (message.Renew renewal.now)
        → result ≡ first_holding (renewal_refusals s caller.now renewal.now moment) }
    ensures left { result ≡ None → view.now.next ≤ view.now.opening.now.last }
    ensures order { result ≡ None → renewal.now.after < renewal.now.before }
    ensures there { result ≡ None → IsSome view.now.certificate }
{
    if !may_ask_about(view.opening, caller, view.department, view.certificate) {
        return Some(Refusal::NotAllowed);
    }
    let Some(certificate) = view.certificate else {
        return Some(Refusal::UnknownSerial);
    };
    let Some(department) = view.department else {
        return Some(Refusal::NotPermitted);
    };
    if !is_renewal_permitted_to(view.opening, caller, department, certificate, renewal) {
        return Some(Refusal::NotPermitted);
    }
    if renewal.before <= moment {
        return Some(Refusal::AlreadyEnded);
    }
    if view.is_key_id_revoked {
        return Some(Refusal::KeyIdRevoked);
    }
    if view.is_revoked {
        return Some(Refusal::Revoked);
    }
    if certificate.signature.is_none() {
        return Some(Refusal::NotSigned);
    }
    if view.opening.last < view.next {
        return Some(Refusal::SerialsExhausted);
    }
    None
}

/// The renewed certificate, under the next serial and with the requested validity.
fn renewed(
    alloc: Global,
    view: &View,
    old: &Certificate,
    renewal: &Renewal,
    nonce: &[u8; 32],
) -> Result<Decision, Stop>
    requires { IsRenewable view.now old.now renewal.now }
    ensures made { IsMade result (certified view.now (renewed_certificate old.now renewal.now view.now.next
        (newest_key view.now.opening.now view.now.cas.now) nonce.now)) }
    ensures change { IfOk result (λ d. IsLawfulChange d.change) }
{
    let fields = CertFields {
        nonce: *nonce,
        serial: view.next,
        after: renewal.after,
        before: renewal.before,
        ca: newest_key(view),
        ..copied_fields(alloc, &old.fields)?
    };
    certified(alloc, view, &old.department, fields)
}

/// The decision on a renewal.
pub(crate) fn decide_renewal(
    alloc: Global,
    view: &View,
    caller: &[u8],
    renewal: &Renewal,
    moment: u64,
    nonce: &[u8; 32],
) -> Result<Decision, Stop>
    requires viewed { IsView view.now }
    requires lawful { IsTrue (is_renewal renewal.now) }
    ensures decided { (s : State) → Agrees view.now s (message.Renew renewal.now)
        → Decided result s caller.now (message.Renew renewal.now) moment nonce.now }
    ensures room { (s : State) → Agrees view.now s (message.Renew renewal.now) → IfOk result (λ d. HasRoom d.change s) }
    ensures change { IfOk result (λ d. IsLawfulChange d.change) }
    ensures version { IfOk result (λ d. d.version ≡ view.now.version) }
{
    if let Some(refusal) = refusal_of_renewal(view, caller, renewal, moment) {
        return Err(Stop::Refused(refusal));
    }
    let Some(old) = view.certificate else {
        return Err(Stop::Refused(Refusal::UnknownSerial));
    };
    renewed(alloc, view, old, renewal, nonce)
}
