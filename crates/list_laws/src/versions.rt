//! Theorems about the versions of the lists that an office publishes.

ghost use Rattle.std.specs.Prelude.{◌≡◌, ◌≤◌, ◌+◌, ◌++◌, List};
ghost use Rattle.office.specs.declared.opening.Opening.{Opening};
ghost use Rattle.office.specs.declared.arrival.Arrival.{Arrival};
ghost use Rattle.office.specs.History.{state};
ghost use Rattle.office.specs.Shows.{IsOffice};
ghost use Rattle.list_guard.specs.declared.refusal.Refusal.TheVariants.{VersionJumps};
ghost use Rattle.list_guard.specs.Machine.{IsRefused, Question, State, opened};
ghost use Rattle.list_guard.specs.History.{Call};
ghost use Rattle.list_laws.specs.Published.{IsPublishedIn, KeepsOneOf, LivesOn, office_size};

/// The version of an office's list is never higher than its size, the number of its sections and of the serials and key
/// IDs in each. After a longer history the version has grown by no more than the size.
pub fn lists_account_for_their_versions()
    ensures whole { (o : Opening) (l : List Arrival) → (state o l).version ≤ office_size (state o l) }
    ensures growth { (o : Opening) (l later : List Arrival) →
        (state o (l ++ later)).version + office_size (state o l)
        ≤ (state o l).version + office_size (state o (l ++ later)) }
{}

/// A list guard that has approved no list yet, or last one that the office published, refuses no list that the office
/// published as `VersionJumps`, whichever of the two is the later one. The same holds after any sequence of calls in
/// which it approved only such lists, whether a call is answered, fails, or is cut off by a crash. The sections of the
/// lists have lengths that fit in 32 bits.
pub fn no_published_list_jumps()
    ensures question { (o : Opening) (l : List Arrival) → IsOffice o l → (s : State) (q : Question)
        → KeepsOneOf o l s → IsPublishedIn o l q.list → IsRefused VersionJumps s q → ⊥ }
    ensures calls { (o : Opening) (l : List Arrival) → IsOffice o l → (calls : List Call) (s : State) (q : Question)
        → LivesOn o l opened calls s → IsPublishedIn o l q.list → IsRefused VersionJumps s q → ⊥ }
{}
