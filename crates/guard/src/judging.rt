//! Judging unsigned certificates (bodies) in order.

ghost use Rattle.std.specs.Prelude.{◌≡◌, ◌<◌, ◌^◌, ◌==◌, ℕ, Some, IfErr, IfOk, OnOk, OnErr, find, option_copied};
ghost use Rattle.std.specs.Option.{option_map, option_or};
ghost use Rattle.cert.specs.declared.fields.CertFields.{CertFields};
ghost use Rattle.guard.specs.Decided.{Decided, question, questions};
ghost use Rattle.guard.specs.Judged.{Answers, AreAnswers, AreNew, HasCause, IsKept};
ghost use Rattle.guard.specs.Machine.{State, Question, after, after_all, fields_of, with_rows};
ghost use Rattle.guard.specs.Reported.{PassesOn, reported_by};
ghost use Rattle.guard.specs.Weighing.{HaveRoom, Settles, Weighs, WeighsAll};

use crate::approved::{Approved, body_in};
use crate::body::{BodyFault, fields_of};
use crate::deciding::decide;
use crate::policy::Policy;
use crate::refusal::Refusal;
use crate::register::{Register, RegisterFault};
use crate::verdict::{Verdict, View, Window};
use cert::CertFields;
use lines::body_digest;
use std::alloc::Global;
use text::{NoMemory, Text};

/// The answer for a body.
#[derive(Clone, Copy, Debug, PartialEq, Eq)]
pub enum Answer {
    /// The body may be signed, and the guard keeps it.
    Sign {
        serial: u64,
        /// The SHA-256 of the body, as 64 hexadecimal digits in lower case.
        digest: [u8; 64],
    },
    /// The bytes aren't a body.
    NotABody(BodyFault),
    /// The body isn't signed, for another reason.
    Refuse(Refusal),
}

/// The body that the register keeps under a serial, or else the one among these rows.
fn body_under<'a>(kept: Option<&'a Text>, rows: &'a [Approved], serial: u64) -> Option<&'a Text>
    ensures { option_copied result ≡ option_or (option_copied kept.entry)
        (option_map (λ a. a.body) (find (λ a. a.serial == serial) rows.now)) }
{
    match kept {
        Some(body) => Some(body),
        None => body_in(rows, serial),
    }
}

/// The verdict on a body with these fields, if the register kept these rows too.
fn verdict_on<R: Register>(
    alloc: Global,
    register: &mut R,
    rows: &[Approved],
    policy: &Policy,
    window: Window,
    body: &[u8],
    fields: &CertFields,
) -> Result<Verdict, RegisterFault>
    requires { fields_of body.now ≡ Some fields.now }
    ensures honest { R.is_honest register.new → R.is_honest register.old }
    ensures decided { R.is_honest register.new → (s : State) → R.keeps register.old s
        → IfOk result (λ v. Decided v (with_rows s rows.now) (question policy.now window body.now) fields.now) }
    ensures same { R.is_honest register.new → (s : State) → R.keeps register.old s → R.keeps register.new s }
    ensures crash { R.is_honest register.new → (s : State) → R.keeps register.old s → R.leaves register.old s s
        → R.leaves register.new s s }
    ensures cause { R.is_honest register.new → (s : State) → R.keeps register.old s
        → IfErr result (λ e. HasCause e (R.has_failed register.new)) }
    ensures reported { R.reported register.new ≡ reported_by (R.reported register.old) result }
    ensures before { R.is_honest register.new → R.is_as_before register.old register.new }
{
    let scope = register.scope()?;
    let kept = register.body_of(alloc, fields.serial)?;
    let view = View {
        scope,
        kept: body_under(kept.as_ref(), rows, fields.serial),
    };
    Ok(decide(&view, policy, window, body, fields))
}

/// Adds the row of a body, if this verdict requires that it is kept.
fn settle(
    alloc: Global,
    rows: &mut Vec<Approved>,
    moment: u64,
    body: &[u8],
    serial: u64,
    verdict: Verdict,
) -> Result<(), NoMemory>
    ensures { OnOk result ((s : State) → (q : Question) (c : CertFields) → q.moment ≡ moment → q.body ≡ body.now
        → c.serial ≡ serial → fields_of q.body ≡ Some c → Decided verdict (with_rows s rows.old.items) q c
        → Settles s rows.old.items rows.new.items q) }
{
    match verdict {
        Verdict::Approve => {
            let body = Text::from_slice(alloc, body)?;
            match rows.push(Approved {
                serial,
                moment,
                body,
            }) {
                Ok(()) => Ok(()),
                Err(refused) => {
                    drop(refused);
                    Err(NoMemory)
                }
            }
        }
        Verdict::Again => Ok(()),
        Verdict::Refuse(_) => Ok(()),
    }
}

/// The answer with this verdict.
fn answer_of(serial: u64, body: &[u8], verdict: Verdict) -> Answer
    ensures answered { (s : State) (q : Question) (c : CertFields) → q.body ≡ body.now → c.serial ≡ serial
        → fields_of q.body ≡ Some c → Decided verdict s q c → Answers result s q }
    ensures kept { (s : State) (q : Question) (c : CertFields) → q.body ≡ body.now → c.serial ≡ serial
        → fields_of q.body ≡ Some c → Decided verdict s q c → IsKept result (after s q) body.now }
{
    match verdict {
        Verdict::Refuse(refusal) => Answer::Refuse(refusal),
        Verdict::Approve => Answer::Sign {
            serial,
            digest: body_digest(body),
        },
        Verdict::Again => Answer::Sign {
            serial,
            digest: body_digest(body),
        },
    }
}

/// The answer for a body with these fields. Its row is added, if it has to be kept.
fn weigh_fields<R: Register>(
    alloc: Global,
    register: &mut R,
    rows: &mut Vec<Approved>,
    policy: &Policy,
    window: Window,
    body: &[u8],
    fields: &CertFields,
) -> Result<Answer, RegisterFault>
    requires { fields_of body.now ≡ Some fields.now }
    ensures honest { R.is_honest register.new → R.is_honest register.old }
    ensures weighs { R.is_honest register.new → (s : State) → R.keeps register.old s
        → IfOk result (λ a. Weighs a s rows.old.items rows.new.items (question policy.now window body.now)) }
    ensures same { R.is_honest register.new → (s : State) → R.keeps register.old s → R.keeps register.new s }
    ensures crash { R.is_honest register.new → (s : State) → R.keeps register.old s → R.leaves register.old s s
        → R.leaves register.new s s }
    ensures cause { R.is_honest register.new → (s : State) → R.keeps register.old s
        → IfErr result (λ e. HasCause e (R.has_failed register.new)) }
    ensures reported { PassesOn (R.reported register.old) (R.reported register.new) result }
    ensures before { R.is_honest register.new → R.is_as_before register.old register.new }
{
    let verdict = match verdict_on(
        alloc,
        register,
        rows.as_slice(),
        policy,
        window,
        body,
        fields,
    ) {
        Ok(verdict) => verdict,
        Err(fault) => return Err(fault),
    };
    match settle(alloc, rows, window.moment, body, fields.serial, verdict) {
        Ok(()) => Ok(answer_of(fields.serial, body, verdict)),
        Err(NoMemory) => Err(RegisterFault::NoMemory),
    }
}

/// The answer for a body, if the register kept these rows too. Its own row is added, if it has to be kept.
fn weigh<R: Register>(
    alloc: Global,
    register: &mut R,
    rows: &mut Vec<Approved>,
    policy: &Policy,
    window: Window,
    body: &[u8],
) -> Result<Answer, RegisterFault>
    ensures honest { R.is_honest register.new → R.is_honest register.old }
    ensures weighs { R.is_honest register.new → (s : State) → R.keeps register.old s
        → IfOk result (λ a. Weighs a s rows.old.items rows.new.items (question policy.now window body.now)) }
    ensures same { R.is_honest register.new → (s : State) → R.keeps register.old s → R.keeps register.new s }
    ensures crash { R.is_honest register.new → (s : State) → R.keeps register.old s → R.leaves register.old s s
        → R.leaves register.new s s }
    ensures cause { R.is_honest register.new → (s : State) → R.keeps register.old s
        → IfErr result (λ e. HasCause e (R.has_failed register.new)) }
    ensures reported { PassesOn (R.reported register.old) (R.reported register.new) result }
    ensures before { R.is_honest register.new → R.is_as_before register.old register.new }
{
    match fields_of(alloc, body) {
        Ok(fields) => {
            let answer = weigh_fields(alloc, register, rows, policy, window, body, &fields);
            drop(fields);
            answer
        }
        Err(BodyFault::NoMemory) => Err(RegisterFault::NoMemory),
        Err(fault) => Ok(Answer::NotABody(fault)),
    }
}

/// The answers for bodies, in order, with the rows that have to be kept for them.
fn weigh_all<R: Register>(
    alloc: Global,
    register: &mut R,
    policy: &Policy,
    window: Window,
    bodies: &[Text],
) -> Result<(Vec<Answer>, Vec<Approved>), RegisterFault>
    ensures honest { R.is_honest register.new → R.is_honest register.old }
    ensures weighs { R.is_honest register.new → (s : State) → R.keeps register.old s
        → IfOk result (λ r. WeighsAll window.moment r.0.items s r.1.items
        (questions policy.now window bodies.now)) }
    ensures same { R.is_honest register.new → (s : State) → R.keeps register.old s → R.keeps register.new s }
    ensures crash { R.is_honest register.new → (s : State) → R.keeps register.old s → R.leaves register.old s s
        → R.leaves register.new s s }
    ensures cause { R.is_honest register.new → (s : State) → R.keeps register.old s
        → IfErr result (λ e. HasCause e (R.has_failed register.new)) }
    ensures reported { PassesOn (R.reported register.old) (R.reported register.new) result }
    ensures before { R.is_honest register.new → R.is_as_before register.old register.new }
{
    let mut answers = Vec::new(alloc);
    let mut rows = Vec::new(alloc);
    for body in bodies {
        match weigh(alloc, register, &mut rows, policy, window, body.as_slice()) {
            Ok(answer) => match answers.push(answer) {
                Ok(()) => {}
                Err(_) => return Err(RegisterFault::NoMemory),
            },
            Err(fault) => return Err(fault),
        }
    }
    Ok((answers, rows))
}

/// Keeps rows, if there are any.
#[tactic(auto, using(crate::proofs::Reported::reported_once))]
fn keep_rows<R: Register>(register: &mut R, rows: Vec<Approved>) -> Result<(), RegisterFault>
    ensures honest { R.is_honest register.new → R.is_honest register.old }
    ensures next { R.is_honest register.new → (s : State) → R.keeps register.old s → AreNew s rows.items
        → OnOk result (R.keeps register.new (with_rows s rows.items)) }
    ensures fault { R.is_honest register.new → (s : State) → R.keeps register.old s
        → OnErr result (R.keeps register.new s) }
    ensures durable { R.is_honest register.new → (s : State) → R.keeps register.old s → R.leaves register.old s s
        → AreNew s rows.items
        → OnOk result (R.leaves register.new (with_rows s rows.items) (with_rows s rows.items)) }
    ensures crash { R.is_honest register.new → (s : State) → R.keeps register.old s → R.leaves register.old s s
        → AreNew s rows.items → R.leaves register.new s (with_rows s rows.items) }
    ensures cause { R.is_honest register.new → (s : State) → R.keeps register.old s → AreNew s rows.items
        → (moment : ℕ) → HaveRoom s moment rows.items → s.scope.last < 2 ^ 63 → moment < 2 ^ 63
        → IfErr result (λ e. HasCause e (R.has_failed register.new)) }
    ensures reported { R.reported register.new ≡ reported_by (R.reported register.old) result }
    ensures before { R.is_honest register.new → OnErr result (R.is_as_before register.old register.new) }
{
    if rows.is_empty() {
        drop(rows);
        return Ok(());
    }
    register.keep(rows)
}

/// Judges bodies in order: whether each may be signed, and if not, why. Those that may be signed are kept before the
/// answers, all at once.
///
/// # Errors
///
/// If the register fails or memory is refused, the register keeps what it kept before.
pub fn judge<R: Register>(
    alloc: Global,
    register: &mut R,
    policy: &Policy,
    window: Window,
    bodies: &[Text],
) -> Result<Vec<Answer>, RegisterFault>
    ensures honest { R.is_honest register.new → R.is_honest register.old }

    // Each answer is the reference model's, after the earlier bodies. By then a signed body is kept.
    ensures answered { R.is_honest register.new → (s : State) → R.keeps register.old s
        → IfOk result (λ answers. AreAnswers answers.items s (questions policy.now window bodies.now)) }

    // Then the register keeps what the model keeps.
    ensures next { R.is_honest register.new → (s : State) → R.keeps register.old s
        → OnOk result (R.keeps register.new (after_all s (questions policy.now window bodies.now))) }

    // After a fault the register keeps what it kept.
    ensures fault { R.is_honest register.new → (s : State) → R.keeps register.old s
        → OnErr result (R.keeps register.new s) }

    // What was answered survives a crash.
    ensures durable { R.is_honest register.new → (s : State) → R.keeps register.old s → R.leaves register.old s s
        → OnOk result (R.leaves register.new (after_all s (questions policy.now window bodies.now))
        (after_all s (questions policy.now window bodies.now))) }

    // A crash during the call leaves what was kept, or that with all of these bodies.
    ensures crash { R.is_honest register.new → (s : State) → R.keeps register.old s → R.leaves register.old s s
        → R.leaves register.new s (after_all s (questions policy.now window bodies.now)) }

    // If the last serial and the time are below 2^63, a register that keeps a guard is never reported as damaged, and
    // is reported as failed only if its database has failed.
    ensures cause { R.is_honest register.new → (s : State) → R.keeps register.old s → s.scope.last < 2 ^ 63
        → window.moment < 2 ^ 63 → IfErr result (λ e. HasCause e (R.has_failed register.new)) }

    // Whatever the register keeps, a fault that it reports is the one that is returned. Apart from such a fault there
    // is only a lack of memory.
    ensures reported { PassesOn (R.reported register.old) (R.reported register.new) result }

    // Nor has a call that returns a fault changed anything, whatever the register keeps.
    ensures before { R.is_honest register.new → OnErr result (R.is_as_before register.old register.new) }
{
    match weigh_all(alloc, register, policy, window, bodies) {
        Ok((answers, rows)) => match keep_rows(register, rows) {
            Ok(()) => Ok(answers),
            Err(fault) => Err(fault),
        },
        Err(fault) => Err(fault),
    }
}
