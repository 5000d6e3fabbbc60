//! Theorems about all sequences of questions. The functions do nothing: their clauses are what is proved.

ghost use Rattle.std.specs.Prelude.{◌≡◌, List, ℕ};
ghost use Rattle.list_guard.specs.declared.refusal.Refusal.{Refusal};
ghost use Rattle.list_guard.specs.Machine.{IsApproved, IsLawful, IsRefused, Question, State, opened, with_last};
ghost use Rattle.std.specs.List.{AllByRecursion};
ghost use Rattle.list_guard.specs.History.{Approves, Call, Grow, IsAccountedFor, Lives, stated};

/// Over every sequence of questions, approved lists never revoke less, versions never go back, and lists of one version
/// are equal, byte by byte.
pub fn approved_lists_only_grow()
    ensures { (qs : List Question) (lists : List (List ℕ)) (t : State) → Approves opened qs lists t → Grow lists }
{}

/// The same holds for the lists that are stated over any sequence of calls, whether a call is answered, fails, or is
/// cut off by a crash.
pub fn stated_lists_only_grow()
    ensures { (calls : List Call) (t : State) → Lives opened calls t → Grow (stated calls) }
{}

/// Over every sequence of questions, no approved list has a version that is higher than its size.
pub fn versions_are_accounted_for()
    ensures { (qs : List Question) (lists : List (List ℕ)) (t : State) → Approves opened qs lists t
        → AllByRecursion IsAccountedFor lists }
{}

/// Whatever a guard was asked, it keeps a published list or none.
pub fn a_published_list_is_kept()
    ensures { (qs : List Question) (lists : List (List ℕ)) (t : State) → Approves opened qs lists t → IsLawful t }
{}

/// A list that was approved is approved when it is asked for again, and nothing changes.
pub fn an_approved_list_is_stated_again()
    ensures { (s : State) (q : Question) → IsApproved s q → IsApproved (with_last q.list) q }
{}

/// A list that is approved isn't also refused.
pub fn what_is_approved_is_not_refused()
    ensures { (s : State) (q : Question) (r : Refusal) → IsApproved s q → IsRefused r s q → ⊥ }
{}
