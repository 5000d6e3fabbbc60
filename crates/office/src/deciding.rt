//! The answer to a message, and the change it makes.

ghost use Rattle.std.specs.Prelude.{◌≡◌, ◌+◌, ◌≤◌, ℕ, List, IfOk, IsTrue};
ghost use Rattle.message.specs.Values.{is_department, is_issue, is_message};
ghost use Rattle.message.specs.declared.kinds.Message.TheVariants as message;
ghost use Rattle.office.specs.State.{State};
ghost use Rattle.office.specs.Views.{IsView};
ghost use Rattle.office.specs.Decided.{Agrees, Decided, HasRoom, IsLawfulChange};

use crate::decision::unpublished;
use crate::delivering::decide_delivery;
use crate::issuing::issued;
use crate::refusing::{refusal_of_department, refusal_of_issue};
use crate::renewing::decide_renewal;
use crate::replies::to_department;
use crate::revoking::{decide_key_id, decide_range, decide_serial};
use crate::rolling::decide_rollover;
use crate::view::{Change, Decision, Stop, View};
use message::{Department, Issue, Message};
use std::alloc::Global;
use values::Refusal;

/// The decision on a department, new or with a new profile.
fn decide_department(
    alloc: Global,
    view: &View,
    caller: &[u8],
    department: &Department,
) -> Result<Decision, Stop>
    requires lawful { IsTrue (is_department department.now) }
    ensures decided { (s : State) → Agrees view.now s (message.Department department.now)
        → (moment : ℕ) (nonce : List ℕ)
        → Decided result s caller.now (message.Department department.now) moment nonce }
    ensures room { (s : State) → IfOk result (λ d. HasRoom d.change s) }
    ensures change { IfOk result (λ d. IsLawfulChange d.change) }
    ensures version { IfOk result (λ d. d.version ≡ view.now.version) }
{
    if let Some(refusal) = refusal_of_department(view, caller, department) {
        return Err(Stop::Refused(refusal));
    }
    let reply = to_department(alloc, department.name.as_slice())?;
    let change = Change::Department(department.copied(alloc)?);
    Ok(unpublished(view, reply, change))
}

/// The decision on an issue.
fn decide_issue(
    alloc: Global,
    view: &View,
    caller: &[u8],
    issue: &Issue,
    moment: u64,
    nonce: &[u8; 32],
) -> Result<Decision, Stop>
    requires viewed { IsView view.now }
    requires lawful { IsTrue (is_issue issue.now) }
    ensures decided { (s : State) → Agrees view.now s (message.Issue issue.now)
        → Decided result s caller.now (message.Issue issue.now) moment nonce.now }
    ensures room { (s : State) → Agrees view.now s (message.Issue issue.now) → IfOk result (λ d. HasRoom d.change s) }
    ensures change { IfOk result (λ d. IsLawfulChange d.change) }
    ensures version { IfOk result (λ d. d.version ≡ view.now.version) }
{
    if let Some(refusal) = refusal_of_issue(view, caller, issue, moment) {
        return Err(Stop::Refused(refusal));
    }
    let Some(department) = view.department else {
        return Err(Stop::Refused(Refusal::NoDepartment));
    };
    issued(alloc, view, department, issue, nonce)
}

/// The office's decision: the refusal with the least number, or the reply and the change to be written.
///
/// It reads the view's rows alone, and its answer is that of the reference model's step from every state with which
/// the view agrees. The message is valid, the view's rows are of the form that an office writes, and its version is
/// below 9223372036854775807.
pub fn decide(
    alloc: Global,
    view: &View,
    caller: &[u8],
    message: &Message,
    moment: u64,
    nonce: &[u8; 32],
) -> Result<Decision, Stop>
    requires viewed { IsView view.now }
    requires lawful { IsTrue (is_message message.now) }

    // The step of the reference model, for each state that the view shows.
    ensures decided { (s : State) → Agrees view.now s message.now
        → Decided result s caller.now message.now moment nonce.now }

    // A certificate is made only if a serial is left, only existing certificates are signed, only serials that were
    // handed out are revoked, and a CA is added only if there are fewer than eight.
    ensures room { (s : State) → Agrees view.now s message.now → IfOk result (λ d. HasRoom d.change s) }

    // The change to be written is well-formed.
    ensures change { IfOk result (λ d. IsLawfulChange d.change) }

    // The version grows by at most one.
    ensures version { IfOk result (λ d. d.version ≤ view.now.version + 1) }
{
    match message {
        Message::Department(department) => decide_department(alloc, view, caller, department),
        Message::Issue(issue) => decide_issue(alloc, view, caller, issue, moment, nonce),
        Message::Renew(renewal) => decide_renewal(alloc, view, caller, renewal, moment, nonce),
        Message::Deliver(delivery) => decide_delivery(alloc, view, caller, delivery),
        Message::RevokeSerial(serial) => decide_serial(alloc, view, caller, *serial, moment),
        Message::RevokeRange(range) => decide_range(alloc, view, caller, *range, moment),
        Message::RevokeKeyId(key_id) => decide_key_id(alloc, view, caller, key_id, moment),
        Message::Rollover(line) => decide_rollover(alloc, view, caller, line, moment),
    }
}
