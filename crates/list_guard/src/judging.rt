//! Judging lists, one after the other.

ghost use Rattle.std.specs.Prelude.{◌≡◌, ◌≢◌, ◌⊎◌, ◌+◌, nat_lt, IfErr, IfOk, IfSome, IsOk, IsSome, None, OnErr, OnOk};
ghost use Rattle.std.specs.Prelude.{option_copied};
ghost use Rattle.krl.specs.Contents.{KrlContents, Publishes, list_of};
ghost use Rattle.list_guard.specs.Machine.{IsApproved, IsLawful, IsOfCas, Question, State, with_last};
ghost use Rattle.list_guard.specs.Sizes.{list_size};
ghost use Rattle.list_guard.specs.Judged.{Answers, Decided, DecidedAfter, HasCause, IsShort, left_by};
ghost use Rattle.list_guard.specs.Judged.{question, settled};
ghost use Rattle.list_guard.specs.Reported.{IsOwn, PassesOn, reported_by};

use crate::counting::list_size;
use crate::refusal::Refusal;
use crate::register::{ListRegister, RegisterFault};
use crate::verdict::Verdict;
use krl::{PublishedList, forgets_nothing, read_published};
use lines::body_digest;
use text::Text;

/// The answer to a list.
#[derive(Clone, Copy, Debug, PartialEq, Eq)]
pub enum Answer {
    /// The guard keeps the list, and states that it is the office's current one.
    Approve {
        /// The SHA-256 of the list, as 64 hexadecimal digits in lower case.
        digest: [u8; 64],
        version: u64,
    },
    /// The list isn't approved.
    Refuse(Refusal),
}

/// Whether the version has grown by more than the list has, since the kept list, whose version is `before`.
fn jumps(version: u64, list: &[u8], before: u64, kept: &[u8]) -> bool
    ensures { (c d : KrlContents) → Publishes list.now c → Publishes kept.now d → version ≡ c.head.version
        → before ≡ d.head.version
        → result ≡ nat_lt (d.head.version + list_size (list_of c)) (c.head.version + list_size (list_of d)) }
{
    before as u128 + list_size(list) < version as u128 + list_size(kept)
}

/// Whether the version of a list is higher than its size.
fn jumps_first(version: u64, list: &[u8]) -> bool
    ensures { (c : KrlContents) → Publishes list.now c → version ≡ c.head.version
        → result ≡ nat_lt (list_size (list_of c)) c.head.version }
{
    list_size(list) < version as u128
}

/// The verdict on a list if none has been approved yet.
fn first_verdict(new: &PublishedList<'_>, list: &[u8], begins: bool) -> Verdict
    ensures { (c : KrlContents) (s : State) (q : Question) → Publishes new.now c → list.now ≡ new.now → s.last ≡ None
        → q.begins ≡ begins → IsOfCas q c → Decided result s q }
{
    let version = new.head().version;
    if !begins {
        return Verdict::Refuse(Refusal::NotBegun);
    }
    if jumps_first(version, list) {
        return Verdict::Refuse(Refusal::VersionJumps);
    }
    Verdict::Approve(version)
}

/// The verdict on a list that may come after the one that was approved last, and whose bytes differ from it. Both are
/// given as they were read, with their bytes.
fn verdict_after(
    new: &PublishedList<'_>,
    list: &[u8],
    old: &PublishedList<'_>,
    kept: &[u8],
) -> Verdict
    ensures { (c d : KrlContents) → Publishes new.now c → Publishes old.now d → list.now ≡ new.now → kept.now ≡ old.now
        → new.now ≢ old.now → DecidedAfter result new.now c old.now d }
{
    let version = new.head().version;
    let before = old.head().version;
    if version < before {
        return Verdict::Refuse(Refusal::OlderVersion);
    }
    if version == before {
        return Verdict::Refuse(Refusal::OtherBytes);
    }
    if !forgets_nothing(old, new) {
        return Verdict::Refuse(Refusal::Forgets);
    }
    if jumps(version, list, before, kept) {
        return Verdict::Refuse(Refusal::VersionJumps);
    }
    Verdict::Approve(version)
}

/// The verdict on a list, given the one that was approved last. `None` if that one isn't a published list.
fn decide(kept: Option<&[u8]>, keys: &[[u8; 32]], begins: bool, list: &[u8]) -> Option<Verdict>
    ensures decided { (s : State) → s.last ≡ option_copied kept.entry
        → IfSome result (λ v. Decided v s (question keys.now begins list.now)) }
    ensures sure { (s : State) → s.last ≡ option_copied kept.entry → IsLawful s → IsSome result }
{
    let Some(new) = read_published(list) else {
        return Some(Verdict::Refuse(Refusal::NotAList));
    };
    if !new.has_only(keys) {
        return Some(Verdict::Refuse(Refusal::OtherCa));
    }
    let Some(kept) = kept else {
        return Some(first_verdict(&new, list, begins));
    };
    let old = read_published(kept)?;
    if list == kept {
        return Some(Verdict::Again(new.head().version));
    }
    Some(verdict_after(&new, list, &old, kept))
}

/// Keeps a list, if the verdict newly approves it.
fn settle<R: ListRegister>(
    register: &mut R,
    list: Text,
    verdict: Verdict,
) -> Result<(), RegisterFault>
    ensures honest { R.is_honest register.new → R.is_honest register.old }
    ensures next { R.is_honest register.new → (s : State) → R.keeps register.old s → (q : Question) → q.list ≡ list
        → Decided verdict s q → OnOk result (R.keeps register.new (settled verdict s q)) }
    ensures fault { R.is_honest register.new → (s : State) → R.keeps register.old s
        → OnErr result (R.keeps register.new s) }
    ensures durable { R.is_honest register.new → (s : State) → R.keeps register.old s → R.leaves register.old s s
        → (q : Question) → q.list ≡ list → Decided verdict s q
        → OnOk result (R.leaves register.new (settled verdict s q) (settled verdict s q)) }
    ensures crash { R.is_honest register.new → (s : State) → R.keeps register.old s → R.leaves register.old s s
        → (q : Question) → q.list ≡ list → Decided verdict s q → R.leaves register.new s (settled verdict s q) }
    ensures cause { R.is_honest register.new → (s : State) → R.keeps register.old s → (q : Question)
        → q.list ≡ list → Decided verdict s q → IsLawful s → IsShort list
        → IfErr result (λ e. HasCause e (R.has_failed register.new)) }
    ensures reported { R.reported register.new ≡ reported_by (R.reported register.old) result }
{
    match verdict {
        Verdict::Approve(_) => register.keep(list),
        Verdict::Again(_) => {
            drop(list);
            Ok(())
        }
        Verdict::Refuse(_) => {
            drop(list);
            Ok(())
        }
    }
}

/// The answer for a verdict.
fn answer_of(list: &[u8], verdict: Verdict) -> Answer
    ensures answered { (s : State) (q : Question) → q.list ≡ list.now → Decided verdict s q → Answers result s q }
    ensures left { (s : State) (q : Question) → q.list ≡ list.now → Decided verdict s q
        → left_by result s q ≡ settled verdict s q }
{
    match verdict {
        Verdict::Approve(version) => Answer::Approve {
            digest: body_digest(list),
            version,
        },
        Verdict::Again(version) => Answer::Approve {
            digest: body_digest(list),
            version,
        },
        Verdict::Refuse(refusal) => Answer::Refuse(refusal),
    }
}

/// The verdict on a list over a register. `Damaged` if the kept list isn't a published list.
fn verdict_on<R: ListRegister>(
    register: &R,
    keys: &[[u8; 32]],
    begins: bool,
    list: &[u8],
) -> Result<Verdict, RegisterFault>
    ensures decided { R.is_honest register.now → (s : State) → R.keeps register.now s
        → IfOk result (λ v. Decided v s (question keys.now begins list.now)) }
    ensures sure { R.is_honest register.now → (s : State) → R.keeps register.now s → IsLawful s → IsOk result }
    ensures only { IfErr result IsOwn }
{
    match decide(register.last(), keys, begins, list) {
        Some(verdict) => Ok(verdict),
        None => Err(RegisterFault::Damaged),
    }
}

/// Judges whether a list is the next one of the CAs with these keys, after the one that was approved last. A first list
/// is accepted only if `begins`. An approved list is kept before this function returns, and the register takes over its
/// bytes without a copy.
///
/// # Errors
///
/// Why the register failed. It then keeps what it kept before.
pub fn judge_list<R: ListRegister>(
    register: &mut R,
    keys: &[[u8; 32]],
    begins: bool,
    list: Text,
) -> Result<Answer, RegisterFault>
    ensures honest { R.is_honest register.new → R.is_honest register.old }

    // The answer is the reference model's.
    ensures answered { R.is_honest register.new → (s : State) → R.keeps register.old s
        → IfOk result (λ a. Answers a s (question keys.now begins list)) }

    // The register then keeps what the model keeps.
    ensures next { R.is_honest register.new → (s : State) → R.keeps register.old s
        → IfOk result (λ a. R.keeps register.new (left_by a s (question keys.now begins list))) }

    // After a fault it keeps what it kept.
    ensures fault { R.is_honest register.new → (s : State) → R.keeps register.old s
        → OnErr result (R.keeps register.new s) }

    // An approved list survives a crash.
    ensures durable { R.is_honest register.new → (s : State) → R.keeps register.old s → R.leaves register.old s s
        → IfOk result (λ a. R.leaves register.new (left_by a s (question keys.now begins list))
        (left_by a s (question keys.now begins list))) }

    // A crash in the middle of the call leaves what was kept, or the list if it is approved.
    ensures crash { R.is_honest register.new → (s : State) → R.keeps register.old s → R.leaves register.old s s
        → R.leaves register.new s s ⊎ (IsApproved s (question keys.now begins list)
        × R.leaves register.new s (with_last list)) }

    // If the kept list is a published one and the new one is short, only a failed database is reported as failed, and
    // none as damaged.
    ensures cause { R.is_honest register.new → (s : State) → R.keeps register.old s → IsLawful s → IsShort list
        → IfErr result (λ e. HasCause e (R.has_failed register.new)) }

    // Whatever the register keeps, a fault that it reports is the one that is returned. Apart from such a fault there
    // is only that the kept list isn't a published one.
    ensures reported { PassesOn (R.reported register.old) (R.reported register.new) result }
{
    let verdict = verdict_on(register, keys, begins, list.as_slice())?;
    let answer = answer_of(list.as_slice(), verdict);
    settle(register, list, verdict)?;
    Ok(answer)
}
