//! Theorems about runs and published lists.

ghost use Rattle.std.specs.Prelude.{◌≡◌, ◌↔◌, ◌&&◌, ◌+◌, ◌≤◌, ◌^◌, Bool, List, ℕ};
ghost use Rattle.krl.specs.declared.run.Run.{Run};
ghost use Rattle.krl.specs.Sets.{AreRuns, IsMemberOf, IsRunOf, contains, is_counted, runs_in};
ghost use Rattle.krl.specs.Format.{RevocationList};
ghost use Rattle.krl.specs.declared.ca_part.CaPart.{CaPart};
ghost use Rattle.krl.specs.declared.krl_head.KrlHead.{KrlHead};
ghost use Rattle.krl.specs.Published.{published_text};
ghost use Rattle.krl.specs.Contents.{AreContents, AreReadBack, KrlContents, ForgetsNothing, IsPublished, KeepsEachPair};
ghost use Rattle.krl.specs.Contents.{Publishes, list_of};

/// The runs of a set are exactly its maximal intervals of at least one serial.
pub fn runs_are_maximal()
    ensures each { (rs : List Run) (r : Run) → AreRuns rs → IsMemberOf r rs → IsRunOf (contains rs) r }
    ensures all { (rs : List Run) (r : Run) → AreRuns rs → IsRunOf (contains rs) r → IsMemberOf r rs }
{}

/// No two lists of runs represent the same set.
pub fn runs_are_one()
    ensures { (rs qs : List Run) → AreRuns rs → AreRuns qs → ((n : ℕ) → contains rs n ≡ contains qs n) → rs ≡ qs }
{}

/// `runs_in` gives the runs of the serials of a set that are among the `count` serials from `from` on, and no other
/// runs represent these serials.
pub fn a_set_has_its_runs()
    ensures runs { (set : ℕ → Bool) (from count : ℕ) → from + count ≤ 2 ^ 64 → AreRuns (runs_in set from count) }
    ensures contains { (set : ℕ → Bool) (from count n : ℕ) → from + count ≤ 2 ^ 64
        → contains (runs_in set from count) n ≡ (is_counted from count n && set n) }
    ensures only { (set : ℕ → Bool) (from count : ℕ) (rs : List Run) → AreRuns rs
        → ((n : ℕ) → contains rs n ≡ (is_counted from count n && set n)) → rs ≡ runs_in set from count }
{}

/// Bytes are the text of at most one list: a text determines the head, the parts of the CAs that have a section, and
/// the key ids. The list determines its text, so lists with the same contents have the same bytes.
pub fn a_text_has_one_list()
    ensures list { (bytes : List ℕ) (c d : KrlContents) → Publishes bytes c → Publishes bytes d → c ≡ d }
    ensures text { (a b : List ℕ) (c : KrlContents) → Publishes a c → Publishes b c → a ≡ b }
{}

/// The text that is written for at most eight different CAs and for key ids in ascending byte order is a published
/// list.
pub fn what_is_written_is_read()
    ensures { (head : KrlHead) (cas : List CaPart) (ids : List (List ℕ)) → AreReadBack head cas ids
        → IsPublished (published_text head cas ids) }
{}

/// A list forgets nothing of itself, and forgetting nothing is transitive: if each list forgets nothing of the one
/// before it, the set of revocations only grows.
pub fn revocations_only_grow()
    ensures same { (a : RevocationList) → ForgetsNothing a a }
    ensures on { (a b c : RevocationList) → ForgetsNothing a b → ForgetsNothing b c → ForgetsNothing a c }
{}

/// Forgetting nothing means keeping each pair of CA and serial, and each pair of CA and key id.
pub fn nothing_is_forgotten_by_pairs()
    ensures { (old new : KrlContents) → AreContents old → AreContents new
        → ForgetsNothing (list_of old) (list_of new) ↔ KeepsEachPair old new }
{}
