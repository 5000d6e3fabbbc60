//! The refusals of department and issue messages.

ghost use Rattle.std.specs.Prelude.{◌≡◌, ◌≤◌, ℕ, None, IfSome, IsSome, IsTrue, option_copied};
ghost use Rattle.message.specs.declared.kinds.Message.TheVariants as message;
ghost use Rattle.office.specs.State.{State};
ghost use Rattle.office.specs.Permissions.{is_permitted};
ghost use Rattle.office.specs.Refusals.{department_refusals, first_holding, issue_refusals};
ghost use Rattle.office.specs.Decided.{Agrees};

use crate::permission::{is_permitted_to, may_ask};
use crate::view::View;
use message::{Department, Issue, has_other_kind};
use values::{Refusal, department_of};

/// The refusal with the least number for a department message.
pub(crate) fn refusal_of_department(
    view: &View,
    caller: &[u8],
    department: &Department,
) -> Option<Refusal>
    ensures { (s : State) → Agrees view.now s (message.Department department.now)
        → result ≡ first_holding (department_refusals s caller.now department.now) }
{
    if !view.opening.root.is(caller) {
        return Some(Refusal::NotAllowed);
    }
    let Some(standing) = view.department else {
        return None;
    };
    if has_other_kind(standing, department.kind) {
        return Some(Refusal::KindFixed);
    }
    None
}

/// The refusal with the least number for an issue.
pub(crate) fn refusal_of_issue(
    view: &View,
    caller: &[u8],
    issue: &Issue,
    moment: u64,
) -> Option<Refusal>
    ensures least { (s : State) → Agrees view.now s (message.Issue issue.now)
        → result ≡ first_holding (issue_refusals s caller.now issue.now moment) }
    ensures left { result ≡ None → view.now.next ≤ view.now.opening.now.last }
    ensures permitted { result ≡ None → IfSome (option_copied view.now.department)
        (λ d. IsTrue (is_permitted d issue.now)) }
    ensures there { result ≡ None → IsSome view.now.department }
{
    if !may_ask(
        view.opening,
        caller,
        view.department,
        issue.key_id.as_slice(),
    ) {
        return Some(Refusal::NotAllowed);
    }
    let Some(department) = view.department else {
        return Some(Refusal::NoDepartment);
    };
    if !issue.department.is(department_of(issue.key_id.as_slice())) {
        return Some(Refusal::BadKeyId);
    }
    if !is_permitted_to(view.opening, caller, department, issue) {
        return Some(Refusal::NotPermitted);
    }
    if issue.before <= moment {
        return Some(Refusal::AlreadyEnded);
    }
    if view.is_key_id_revoked {
        return Some(Refusal::KeyIdRevoked);
    }
    if view.opening.last < view.next {
        return Some(Refusal::SerialsExhausted);
    }
    None
}
