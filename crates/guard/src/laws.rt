//! Theorems about every list of questions. The functions do nothing: their clauses are what is proved.

ghost use Rattle.std.specs.Prelude.{◌≡◌, ◌<◌, ℕ, List, [], ◌∷◌, ◌++◌, All, Contains, true, Some, None, Ok};
ghost use Rattle.std.specs.Prelude.{fold, is_some, map};
ghost use Rattle.text.specs.Bytes.{IsBytes};
ghost use Rattle.cert.specs.declared.fields.CertFields.{CertFields};
ghost use Rattle.guard.specs.declared.approved.Approved.{Approved};
ghost use Rattle.guard.specs.declared.refusal.Refusal.{Refusal};
ghost use Rattle.guard.specs.declared.scope.Scope.{Scope};
ghost use Rattle.guard.specs.Machine.{State, Question, after, body_of, fields_of, refusal_of, refusals};
ghost use Rattle.guard.specs.History.{AddsNoSmallOrder, IsStill, MaySign, WasAsked, WasOwn, state};
ghost use Rattle.guard.specs.Policies.{policy_at};
ghost use Rattle.guard.specs.PolicyTexts.{AreBetween, AreParts, Part, policy_text};
ghost use Rattle.guard.specs.Laws.{IsBodyOf, ascend_from};
ghost use Rattle.guard.specs.Retirement.{retirement};

/// The refusals are in order of their numbers, from 31 on, so the first that applies has the lowest number.
pub fn refusals_ascend()
    ensures { (s : State) (q : Question) → ascend_from 31 (refusals s q) ≡ true }
{}

/// A refusal leaves the state unchanged.
pub fn a_refusal_changes_nothing()
    ensures { (s : State) (q : Question) (r : Refusal) → refusal_of s q ≡ Some r → after s q ≡ s }
{}

/// Each unsigned certificate (body) that a guard keeps was asked for, and could be signed then: a body of the profile
/// for the guard's CA and one of its serials, permitted by the given policy, within its time.
pub fn an_approved_body_was_permitted()
    ensures { (scope : Scope) (l : List Question) → All (WasAsked scope l) (state scope l).approved }
{}

/// Each principal of a body that a guard keeps met a rule of its department in the given policy, and a rule with
/// `{name}` only by the name in the body's own key ID. If all rules of the department are for names, each principal is
/// that name and the suffix of a rule, whoever asked for it.
pub fn an_approved_body_has_its_own_principals()
    ensures { (scope : Scope) (l : List Question) → All (WasOwn l) (state scope l).approved }
{}

/// Whatever a guard kept before, and whatever it is asked then: each body that it approves has a key that hasn't small
/// order. For a key of small order everybody can sign, without any private key.
pub fn no_key_of_small_order_is_approved()
    ensures { (s : State) (l : List Question) → AddsNoSmallOrder s (fold after s l) }
{}

/// The text of valid departments with different names, with empty lines and comments between them, is read as these
/// departments in order.
pub fn a_policy_is_read_as_its_departments()
    ensures { (parts : List Part) (last : List (List ℕ)) → AreParts [] parts → AreBetween last
        → policy_at (policy_text parts last) ≡ Ok (map (λ p. p.department) parts) }
{}

/// A body that may be signed isn't refused if none is kept under its serial.
pub fn what_may_be_signed_is_approved()
    ensures { (s : State) (q : Question) (c : CertFields) → MaySign s.scope q c → body_of s c.serial ≡ None
        → refusal_of s q ≡ None }
{}

/// Bytes that have fields are a body of the profile: at most 16384 bytes, which are the text of these valid fields.
pub fn what_has_fields_is_a_body()
    ensures { (bytes : List ℕ) (c : CertFields) → IsBytes bytes → fields_of bytes ≡ Some c → IsBodyOf bytes c }
{}

/// Two rows with the same serial are equal, so a serial has only one body.
pub fn a_serial_has_one_body()
    ensures { (scope : Scope) (l : List Question) (a b : Approved) → Contains (state scope l).approved a
        → Contains (state scope l).approved b → a.serial ≡ b.serial → a ≡ b }
{}

/// The state after one more question is what that question leaves.
pub fn a_question_is_one_step()
    ensures { (scope : Scope) (l : List Question) (q : Question) → state scope (l ++ q ∷ []) ≡ after (state scope l) q }
{}

/// What was approved stays, whatever is asked later.
pub fn a_body_that_was_approved_stays()
    ensures { (scope : Scope) (l later : List Question) → IsStill (state scope l) (state scope (l ++ later)) }
{}

/// A body that may be signed may be signed again after that question, whatever is asked in between, under any policy
/// and at any time.
pub fn an_approved_body_is_signed_again()
    ensures { (scope : Scope) (l later : List Question) (q again : Question) → refusal_of (state scope l) q ≡ None
        → again.body ≡ q.body → refusal_of (state scope (l ++ q ∷ later)) again ≡ None }
{}

/// A retired guard, whose last serial was lowered, keeps what it approved.
pub fn a_retired_guard_keeps_its_bodies()
    ensures { (s retired : State) (last : ℕ) → retirement s last ≡ Ok retired → retired.approved ≡ s.approved }
{}

/// A retired guard signs again each body that it approved before.
pub fn a_retired_guard_signs_again()
    ensures { (s retired : State) (last : ℕ) (q : Question) (c : CertFields) → retirement s last ≡ Ok retired
        → fields_of q.body ≡ Some c → body_of s c.serial ≡ Some q.body → refusal_of s q ≡ None
        → refusal_of retired q ≡ None }
{}

/// A retired guard signs no body with a serial above its last one.
pub fn a_retired_guard_signs_none_over_its_last_serial()
    ensures { (s retired : State) (last : ℕ) (q : Question) (c : CertFields) → retirement s last ≡ Ok retired
        → fields_of q.body ≡ Some c → last < c.serial → is_some (refusal_of retired q) ≡ true }
{}
