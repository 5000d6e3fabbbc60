//! Whether an unsigned certificate (body) may be signed.

ghost use Rattle.std.specs.Prelude.{◌≡◌, ◌+◌, ℕ, List, nat_lt, None, Some, option_copied};
ghost use Rattle.guard.specs.Decided.{Agrees, Decided, question};
ghost use Rattle.guard.specs.Machine.{
  State,
  body_of,
  department_for,
  fields_of,
  first_holding,
  refusals_of_new,
};

use crate::permission::permits;
use crate::policy::Policy;
use crate::refusal::Refusal;
use crate::verdict::{Verdict, View, Window};
use cert::CertFields;
use message::{Department, has_other_kind};
use values::department_of;

fn is_too_far_ahead(window: Window, after: u64) -> bool
    ensures { result ≡ nat_lt (window.moment + window.ahead) after }
{
    window.moment < after && window.ahead < after - window.moment
}

/// The department that the key id names.
fn department_for<'a>(policy: &'a Policy, fields: &CertFields) -> Option<&'a Department>
    ensures { option_copied result ≡ department_for policy.now fields.now }
{
    policy.named(department_of(fields.key_id.as_slice()))
}

/// The refusal, with the lowest number, of a body under whose serial none was approved.
fn refusal_of_new(policy: &Policy, window: Window, fields: &CertFields) -> Option<Refusal>
    ensures { (s : State) (body : List ℕ) → body_of s fields.now.serial ≡ None
        → result ≡ first_holding (refusals_of_new s (question policy.now window body) fields.now) }
{
    let Some(department) = department_for(policy, fields) else {
        return Some(Refusal::NoDepartment);
    };
    if has_other_kind(department, fields.kind) {
        return Some(Refusal::OtherKind);
    }
    if !permits(department, fields) {
        return Some(Refusal::NotPermitted);
    }
    if fields.before <= window.moment {
        return Some(Refusal::AlreadyEnded);
    }
    if is_too_far_ahead(window, fields.after) {
        return Some(Refusal::TooFarAhead);
    }
    None
}

/// Whether the body with these fields may be signed: the refusal with the lowest number, or whether the body has to be
/// kept first.
///
/// It reads only the view's row, and returns the reference model's answer for every state with which the view agrees.
pub fn decide(
    view: &View,
    policy: &Policy,
    window: Window,
    body: &[u8],
    fields: &CertFields,
) -> Verdict
    requires { fields_of body.now ≡ Some fields.now }

    // The verdict of the model, for each state with which the view agrees.
    ensures decided { (s : State) → Agrees view.now s fields.now
        → Decided result s (question policy.now window body.now) fields.now }
{
    if fields.ca != view.scope.ca {
        return Verdict::Refuse(Refusal::OtherCa);
    }
    if fields.serial < view.scope.first || view.scope.last < fields.serial {
        return Verdict::Refuse(Refusal::OtherSerial);
    }
    match view.kept {
        Some(kept) if kept.is(body) => return Verdict::Again,
        Some(_) => return Verdict::Refuse(Refusal::SerialTaken),
        None => {}
    }
    match refusal_of_new(policy, window, fields) {
        Some(refusal) => Verdict::Refuse(refusal),
        None => Verdict::Approve,
    }
}
